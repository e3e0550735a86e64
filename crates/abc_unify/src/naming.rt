//! Which variables slots name. A class that no slot names is on no cycle, so no search begins there.
ghost use Rattle.std.specs.Prelude.{◌≡◌, ◌<◌, length, slice_index_or};
ghost use Rattle.std.specs.List.{All};
ghost use Rattle.abc_terms.specs.Nodes.{AreIn};
ghost use Rattle.abc_unify.specs.inner.Kinds.{children, KindIn};
ghost use Rattle.abc_unify.specs.inner.Slots.{SlotsIn};
ghost use Rattle.abc_unify.specs.inner.Logs.{EntryIn};
ghost use Rattle.abc_unify.specs.inner.Naming.{slot_names, IsNamed, NamesNoted, HasGrown};

use crate::kind::{Kind, Slot};
use crate::log::Entry;
use abc_terms::VarId;

/// Notes these variables.
fn note_all(named: &mut [bool], xs: &[VarId])
    requires { AreIn (length named.old) xs.now }
    ensures grown { HasGrown named.old named.new }
    ensures noted { All (λ x. IsNamed named.new x.0) xs.now }
{
    for i in 0..xs.len() {
        named[xs[i].index()] = true;
    }
}

/// Notes the variables that the kind names.
fn note_kind(named: &mut [bool], kind: &Kind)
    requires { KindIn (length named.old) kind.now }
    ensures grown { HasGrown named.old named.new }
    ensures noted { All (λ x. IsNamed named.new x.0) (children kind.now) }
{
    match kind {
        Kind::Free => note_all(named, &[]),
        Kind::Number => note_all(named, &[]),
        Kind::Text => note_all(named, &[]),
        Kind::NumberOrText => note_all(named, &[]),
        Kind::ListOf(c) => note_all(named, &[*c]),
        Kind::TableOf(k, a) => note_all(named, &[*k, *a]),
        Kind::TrainOf(e) => note_all(named, &[*e]),
        Kind::CollectionOf(e) => note_all(named, &[*e]),
        Kind::Compound(fields) => note_all(named, fields.as_slice()),
    }
}

/// Notes the variables that the slot names.
pub fn note_slot(named: &mut [bool], slot: &Slot)
    requires { AreIn (length named.old) (slot_names slot.now) }
    ensures grown { HasGrown named.old named.new }
    ensures noted { NamesNoted named.new slot.now }
{
    match slot {
        Slot::Root(kind) => note_kind(named, kind),
        Slot::Link(b) => note_all(named, &[*b]),
    }
}

/// Notes the variables that written slots name, and that they named before.
pub fn note_written(slots: &[Slot], written: &[Entry], named: &mut [bool])
    requires slots { SlotsIn slots.now }
    requires written { All (EntryIn (length slots.now)) written.now }
    requires room { length named.old ≡ length slots.now }
    ensures grown { HasGrown named.old named.new }
    ensures now { All (λ e. NamesNoted named.new (slice_index_or slots.now e.at.0 (Slot.Root Kind.Free))) written.now }
    ensures before { All (λ e. NamesNoted named.new e.was) written.now }
{
    for i in 0..written.len() {
        note_slot(named, &slots[written[i].at.index()]);
        note_slot(named, &written[i].was);
    }
}
