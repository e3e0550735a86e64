//! Shortens paths of links, so that a variable far from its root does not go the same long way again and again.
ghost use Rattle.std.specs.Prelude.{◌≡◌, ◌<◌, length, drop, slice_index_or, IfOk, IfSome};
ghost use Rattle.std.specs.List.{All};
ghost use Rattle.abc_terms.specs.Nodes.{AreIn};
ghost use Rattle.abc_terms.specs.declared.term.VarId.{VarId};
ghost use Rattle.abc_unify.specs.inner.Kinds.{ConstraintIn, KindIn};
ghost use Rattle.abc_unify.specs.inner.Slots.{SlotsIn, IsShortened, LeadsPast};
ghost use Rattle.abc_unify.specs.inner.Logs.{IsLogged, EntryIn};

use crate::kind::{Constraint, Kind, Slot};
use crate::log::{Entry, write};
use abc_terms::VarId;
use std::alloc::AllocError;

/// Where the link of this variable leads, if it is no root.
fn link_at(slots: &[Slot], at: VarId) -> Option<VarId>
    requires { at.0 < length slots.now }
    ensures { IfSome result (λ next. slice_index_or slots.now at.0 (Slot.Root Kind.Free) ≡ Slot.Link next) }
{
    match &slots[at.index()] {
        Slot::Root(_) => None,
        Slot::Link(next) => Some(*next),
    }
}

/// The variable two links on, if there is one.
fn two_links_on(slots: &[Slot], at: VarId) -> Option<VarId>
    requires slots { SlotsIn slots.now }
    requires at { at.0 < length slots.now }
    ensures { IfSome result (λ beyond. LeadsPast slots.now at.0 beyond) }
{
    let next = link_at(slots, at)?;
    let beyond = link_at(slots, next)?;
    Some(beyond)
}

/// Halves the path of a variable: every second link on it is led past the next one.
pub fn shorten(slots: &mut [Slot], log: &mut Vec<Entry>, a: VarId) -> Result<(), AllocError>
    requires slots { SlotsIn slots.old }
    requires a { a.0 < length slots.old }
    ensures shortened { IfOk result (λ _. IsShortened slots.old slots.new) }
    ensures logged { IsLogged slots.old log.old.items slots.new log.new.items }
{
    let mut at = a;
    while let Some(beyond) = two_links_on(slots, at) {
        write(slots, log, at, Slot::Link(beyond))?;
        at = beyond;
    }
    Ok(())
}

/// The same for each of these.
fn shorten_all(slots: &mut [Slot], log: &mut Vec<Entry>, xs: &[VarId]) -> Result<(), AllocError>
    requires slots { SlotsIn slots.old }
    requires xs { AreIn (length slots.old) xs.now }
    ensures shortened { IfOk result (λ _. IsShortened slots.old slots.new) }
    ensures logged { IsLogged slots.old log.old.items slots.new log.new.items }
{
    for i in 0..xs.len() {
        shorten(slots, log, xs[i])?;
    }
    Ok(())
}

/// The same for those that the kind names.
fn shorten_parts(slots: &mut [Slot], log: &mut Vec<Entry>, kind: &Kind) -> Result<(), AllocError>
    requires slots { SlotsIn slots.old }
    requires kind { KindIn (length slots.old) kind.now }
    ensures shortened { IfOk result (λ _. IsShortened slots.old slots.new) }
    ensures logged { IsLogged slots.old log.old.items slots.new log.new.items }
{
    match kind {
        Kind::Free => shorten_all(slots, log, &[]),
        Kind::Number => shorten_all(slots, log, &[]),
        Kind::Text => shorten_all(slots, log, &[]),
        Kind::NumberOrText => shorten_all(slots, log, &[]),
        Kind::ListOf(c) => shorten_all(slots, log, &[*c]),
        Kind::TableOf(k, a) => shorten_all(slots, log, &[*k, *a]),
        Kind::TrainOf(e) => shorten_all(slots, log, &[*e]),
        Kind::CollectionOf(e) => shorten_all(slots, log, &[*e]),
        Kind::Compound(fields) => shorten_all(slots, log, fields.as_slice()),
    }
}

/// The same for those that a constraint names.
pub fn shorten_constrained(
    slots: &mut [Slot],
    log: &mut Vec<Entry>,
    constraint: &Constraint,
) -> Result<(), AllocError>
    requires slots { SlotsIn slots.old }
    requires constraint { ConstraintIn (length slots.old) constraint.now }
    ensures shortened { IfOk result (λ _. IsShortened slots.old slots.new) }
    ensures logged { IsLogged slots.old log.old.items slots.new log.new.items }
{
    match constraint {
        Constraint::Equal(a, b) => shorten_all(slots, log, &[*a, *b]),
        Constraint::Is(a, kind) => {
            shorten(slots, log, *a)?;
            shorten_parts(slots, log, kind)?;
            Ok(())
        }
    }
}

/// The same for those whose slots were written since the log had this length.
pub fn shorten_written(
    slots: &mut [Slot],
    log: &mut Vec<Entry>,
    from: usize,
) -> Result<(), AllocError>
    requires slots { SlotsIn slots.old }
    requires written { All (EntryIn (length slots.old)) (drop from log.old.items) }
    ensures shortened { IfOk result (λ _. IsShortened slots.old slots.new) }
    ensures logged { IsLogged slots.old log.old.items slots.new log.new.items }
{
    for i in from..log.len() {
        let at = log[i].at;
        shorten(slots, log, at)?;
    }
    Ok(())
}
