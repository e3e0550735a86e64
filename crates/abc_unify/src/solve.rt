//! Takes the pending constraints into the slots, one step at a time.
ghost use Rattle.std.specs.Prelude.{◌≡◌, ◌+◌, ◌<◌, ◌≤◌, [], ◌∷◌, ◌++◌, length, slice_index_or, IfOk};
ghost use Rattle.abc_unify.specs.inner.Kinds.{ConstraintIn, ConstraintsIn, ResidueFits, constraints_of, pairs};
ghost use Rattle.abc_unify.specs.inner.Slots.{SlotsIn, IsRoot, Stepped, KeepsSolutions, weight};
ghost use Rattle.abc_unify.specs.inner.Logs.{IsLogged};

use crate::classes::{copy_of, find, kind_at};
use crate::kind::{Constraint, Kind, Merge, Residue, Slot, Solving};
use crate::log::{Entry, write};
use crate::merge::merge_kinds;
use crate::shorten::{shorten_constrained, shorten_written};
use abc_terms::VarId;
use std::alloc::{AllocError, Global};

/// Adds the constraints that the parts of two compounds are equal.
fn push_pairs(work: &mut Vec<Constraint>, held: &[VarId], added: &[VarId]) -> Result<(), AllocError>
    requires { length held.now ≡ length added.now }
    ensures { IfOk result (λ _. work.new.items ≡ work.old.items ++ pairs held.now added.now) }
{
    for i in 0..held.len() {
        work.push(Constraint::Equal(held[i], added[i]))?;
    }
    Ok(())
}

/// Adds the constraints that a merge left.
fn push_residue(work: &mut Vec<Constraint>, held: &Kind, residue: Residue) -> Result<(), AllocError>
    requires { ResidueFits held.now residue }
    ensures { IfOk result (λ _. work.new.items ≡ work.old.items ++ constraints_of held.now residue) }
{
    match residue {
        Residue::Nothing => {}
        Residue::One(first) => {
            work.push(first)?;
        }
        Residue::Two(first, second) => {
            work.push(first)?;
            work.push(second)?;
        }
        Residue::Parts(added) => match held {
            Kind::Compound(fields) => push_pairs(work, fields.as_slice(), added.as_slice())?,
            _ => unreachable!(),
        },
    }
    Ok(())
}

/// Merges a kind into that of a variable.
fn narrow(
    slots: &mut [Slot],
    log: &mut Vec<Entry>,
    work: &mut Vec<Constraint>,
    a: VarId,
    added: Kind,
) -> Result<Solving, AllocError>
    requires slots { SlotsIn slots.old }
    requires work { ConstraintsIn (length slots.old) work.old.items }
    requires constraint { ConstraintIn (length slots.old) (Constraint.Is a added) }
    ensures slots { IfOk result (λ _. SlotsIn slots.new) }
    ensures work { IfOk result (λ _. ConstraintsIn (length slots.new) work.new.items) }
    ensures solutions { IfOk result (λ solving. Stepped solving slots.old (work.old.items ++ (Constraint.Is a added) ∷ []) slots.new work.new.items) }
    ensures lighter { IfOk result (λ _. weight slots.new work.new.items < weight slots.old (work.old.items ++ (Constraint.Is a added) ∷ [])) }
    ensures logged { IsLogged slots.old log.old.items slots.new log.new.items }
{
    let root = find(slots, a);
    let held = kind_at(slots, root);
    match merge_kinds(held, added) {
        Merge::Clash => Ok(Solving::Clash),
        Merge::Keep(residue) => {
            push_residue(work, held, residue)?;
            Ok(Solving::Solved)
        }
        Merge::Put(kind, residue) => {
            push_residue(work, held, residue)?;
            write(slots, log, root, Slot::Root(kind))?;
            Ok(Solving::Solved)
        }
    }
}

/// Links one root to another, whose number is smaller.
fn link(
    alloc: Global,
    slots: &mut [Slot],
    log: &mut Vec<Entry>,
    work: &mut Vec<Constraint>,
    high: VarId,
    low: VarId,
) -> Result<(), AllocError>
    requires slots { SlotsIn slots.old }
    requires work { ConstraintsIn (length slots.old) work.old.items }
    requires high { high.0 < length slots.old }
    requires root { IsRoot (slice_index_or slots.old high.0 (Slot.Root Kind.Free)) }
    requires low { low.0 < high.0 }
    ensures slots { IfOk result (λ _. SlotsIn slots.new) }
    ensures work { IfOk result (λ _. ConstraintsIn (length slots.new) work.new.items) }
    ensures solutions { IfOk result (λ _. KeepsSolutions slots.old (work.old.items ++ (Constraint.Equal high low) ∷ []) slots.new work.new.items) }
    ensures lighter { IfOk result (λ _. weight slots.new work.new.items < weight slots.old work.old.items + 3) }
    ensures logged { IsLogged slots.old log.old.items slots.new log.new.items }
{
    let held = copy_of(alloc, kind_at(slots, high))?;
    work.push(Constraint::Is(low, held))?;
    write(slots, log, high, Slot::Link(low))?;
    Ok(())
}

/// Makes one class of the classes of two variables.
fn unite(
    alloc: Global,
    slots: &mut [Slot],
    log: &mut Vec<Entry>,
    work: &mut Vec<Constraint>,
    a: VarId,
    b: VarId,
) -> Result<(), AllocError>
    requires slots { SlotsIn slots.old }
    requires work { ConstraintsIn (length slots.old) work.old.items }
    requires constraint { ConstraintIn (length slots.old) (Constraint.Equal a b) }
    ensures slots { IfOk result (λ _. SlotsIn slots.new) }
    ensures work { IfOk result (λ _. ConstraintsIn (length slots.new) work.new.items) }
    ensures solutions { IfOk result (λ _. KeepsSolutions slots.old (work.old.items ++ (Constraint.Equal a b) ∷ []) slots.new work.new.items) }
    ensures lighter { IfOk result (λ _. weight slots.new work.new.items < weight slots.old (work.old.items ++ (Constraint.Equal a b) ∷ [])) }
    ensures logged { IsLogged slots.old log.old.items slots.new log.new.items }
{
    let of_a = find(slots, a);
    let of_b = find(slots, b);
    if of_a.0 < of_b.0 {
        link(alloc, slots, log, work, of_b, of_a)?;
        return Ok(());
    }
    if of_b.0 < of_a.0 {
        link(alloc, slots, log, work, of_a, of_b)?;
        return Ok(());
    }
    Ok(())
}

/// Takes one constraint into the slots, and adds what it leaves to be solved.
fn solve_one(
    alloc: Global,
    slots: &mut [Slot],
    log: &mut Vec<Entry>,
    work: &mut Vec<Constraint>,
    constraint: Constraint,
) -> Result<Solving, AllocError>
    requires slots { SlotsIn slots.old }
    requires work { ConstraintsIn (length slots.old) work.old.items }
    requires constraint { ConstraintIn (length slots.old) constraint }
    ensures slots { IfOk result (λ _. SlotsIn slots.new) }
    ensures work { IfOk result (λ _. ConstraintsIn (length slots.new) work.new.items) }
    ensures solutions { IfOk result (λ solving. Stepped solving slots.old (work.old.items ++ constraint ∷ []) slots.new work.new.items) }
    ensures lighter { IfOk result (λ _. weight slots.new work.new.items < weight slots.old (work.old.items ++ constraint ∷ [])) }
    ensures logged { IsLogged slots.old log.old.items slots.new log.new.items }
{
    match constraint {
        Constraint::Equal(a, b) => {
            unite(alloc, slots, log, work, a, b)?;
            Ok(Solving::Solved)
        }
        Constraint::Is(a, kind) => narrow(slots, log, work, a, kind),
    }
}

/// Takes all pending constraints into the slots.
fn solve_each(
    alloc: Global,
    slots: &mut [Slot],
    log: &mut Vec<Entry>,
    work: &mut Vec<Constraint>,
) -> Result<Solving, AllocError>
    requires slots { SlotsIn slots.old }
    requires work { ConstraintsIn (length slots.old) work.old.items }
    ensures slots { IfOk result (λ _. SlotsIn slots.new) }
    ensures solutions { IfOk result (λ solving. Stepped solving slots.old work.old.items slots.new []) }
    ensures lighter { IfOk result (λ solving. solving ≡ Solving.Solved → weight slots.new [] ≤ weight slots.old work.old.items) }
    ensures used_up { IfOk result (λ solving. solving ≡ Solving.Solved → work.new.items ≡ []) }
    ensures logged { IsLogged slots.old log.old.items slots.new log.new.items }
{
    while let Some(constraint) = work.pop() {
        shorten_constrained(slots, log, &constraint)?;
        match solve_one(alloc, slots, log, work, constraint)? {
            Solving::Clash => return Ok(Solving::Clash),
            Solving::Solved => {}
        }
    }
    Ok(Solving::Solved)
}

/// The same, and shortens the paths of all that was written, since a search begins there.
pub fn solve(
    alloc: Global,
    slots: &mut [Slot],
    log: &mut Vec<Entry>,
    work: &mut Vec<Constraint>,
) -> Result<Solving, AllocError>
    requires slots { SlotsIn slots.old }
    requires work { ConstraintsIn (length slots.old) work.old.items }
    ensures slots { IfOk result (λ _. SlotsIn slots.new) }
    ensures solutions { IfOk result (λ solving. Stepped solving slots.old work.old.items slots.new []) }
    ensures lighter { IfOk result (λ solving. solving ≡ Solving.Solved → weight slots.new [] ≤ weight slots.old work.old.items) }
    ensures used_up { IfOk result (λ solving. solving ≡ Solving.Solved → work.new.items ≡ []) }
    ensures logged { IsLogged slots.old log.old.items slots.new log.new.items }
{
    let before = log.len();
    match solve_each(alloc, slots, log, work)? {
        Solving::Clash => Ok(Solving::Clash),
        Solving::Solved => {
            shorten_written(slots, log, before)?;
            Ok(Solving::Solved)
        }
    }
}
