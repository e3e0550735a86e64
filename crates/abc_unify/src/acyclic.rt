//! Solves constraints until no class is on a cycle.
ghost use Rattle.std.specs.Prelude.{◌≡◌, ℕ, ◌<◌, ◌^◌, [], length, IfOk};
ghost use Rattle.abc_unify.specs.inner.Kinds.{ConstraintsIn};
ghost use Rattle.abc_unify.specs.inner.Slots.{SlotsIn, IsRanked, Stepped, weight};
ghost use Rattle.abc_unify.specs.inner.Logs.{IsLogged};
ghost use Rattle.abc_unify.specs.inner.Naming.{AreNoted, HasGrown};
ghost use Rattle.abc_unify.specs.inner.Cycles.{IsOnCycle};

use crate::classes::kind_at;
use crate::cycle::find_cycle;
use crate::kind::{Constraint, Kind, Slot, Solving};
use crate::log::{Entry, write};
use crate::marks::Marks;
use crate::naming::note_written;
use crate::solve::solve;
use abc_terms::VarId;
use std::alloc::{AllocError, Global};

/// Makes text of a class on a cycle, and demands the same of its element. A class that cannot be text is a clash.
fn make_text(
    slots: &mut [Slot],
    log: &mut Vec<Entry>,
    work: &mut Vec<Constraint>,
    top: VarId,
) -> Result<Solving, AllocError>
    requires slots { SlotsIn slots.old }
    requires work { work.old.items ≡ [] }
    requires cycle { IsOnCycle slots.old top.0 }
    ensures slots { IfOk result (λ _. SlotsIn slots.new) }
    ensures work { IfOk result (λ _. ConstraintsIn (length slots.new) work.new.items) }
    ensures solutions { IfOk result (λ solving. Stepped solving slots.old [] slots.new work.new.items) }
    ensures lighter { IfOk result (λ solving. solving ≡ Solving.Solved → weight slots.new work.new.items < weight slots.old []) }
    ensures logged { IsLogged slots.old log.old.items slots.new log.new.items }
{
    let element = match kind_at(slots, top) {
        Kind::TrainOf(e) => *e,
        Kind::ListOf(_) => return Ok(Solving::Clash),
        Kind::TableOf(_, _) => return Ok(Solving::Clash),
        Kind::CollectionOf(_) => return Ok(Solving::Clash),
        Kind::Compound(_) => return Ok(Solving::Clash),
        Kind::Free => unreachable!(),
        Kind::Number => unreachable!(),
        Kind::Text => unreachable!(),
        Kind::NumberOrText => unreachable!(),
    };
    work.push(Constraint::Is(element, Kind::Text))?;
    write(slots, log, top, Slot::Root(Kind::Text))?;
    Ok(Solving::Solved)
}

/// Solves the pending constraints and breaks each cycle of trains (the occurs check), so that classes rank.
pub fn solve_without_cycles(
    alloc: Global,
    slots: &mut [Slot],
    log: &mut Vec<Entry>,
    work: &mut Vec<Constraint>,
    named: &mut [bool],
    marks: &mut Marks,
) -> Result<Solving, AllocError>
    requires slots { SlotsIn slots.old }
    requires noted { AreNoted slots.old log.old.items named.old }
    requires work { ConstraintsIn (length slots.old) work.old.items }
    requires ranked { (rank : ℕ → ℕ) × IsRanked slots.old rank }
    requires few { length slots.old < 2 ^ 32 }
    ensures slots { IfOk result (λ _. SlotsIn slots.new) }
    ensures solutions { IfOk result (λ solving. Stepped solving slots.old work.old.items slots.new []) }
    ensures ranked { IfOk result (λ solving. solving ≡ Solving.Solved → (rank : ℕ → ℕ) × IsRanked slots.new rank) }
    ensures logged { IsLogged slots.old log.old.items slots.new log.new.items }
    ensures noted { IfOk result (λ solving. solving ≡ Solving.Solved → AreNoted slots.new log.new.items named.new) }
    ensures grown { HasGrown named.old named.new }
{
    let before = log.len();
    match solve(alloc, slots, log, work)? {
        Solving::Clash => return Ok(Solving::Clash),
        Solving::Solved => {}
    }
    note_written(slots, &log[before..], named);
    while let Some(top) = find_cycle(alloc, slots, &log[before..], named, marks)? {
        match make_text(slots, log, work, VarId(top as u32))? {
            Solving::Clash => return Ok(Solving::Clash),
            Solving::Solved => {}
        }
        match solve(alloc, slots, log, work)? {
            Solving::Clash => return Ok(Solving::Clash),
            Solving::Solved => {}
        }
        note_written(slots, &log[before..], named);
    }
    Ok(Solving::Solved)
}
