//! The occurs check: a search in depth for a cycle of classes, from the classes that were changed.
ghost use Rattle.std.specs.Prelude.{◌≡◌, ℕ, ◌<◌, ◌≤◌, ◌^◌, [], length, slice_index, slice_index_or, IfOk, IfSome, IfNone};
ghost use Rattle.std.specs.List.{All};
ghost use Rattle.abc_terms.specs.declared.term.VarId.{VarId};
ghost use Rattle.abc_terms.specs.Nodes.{AreIn};
ghost use Rattle.abc_unify.specs.inner.Kinds.{KindIn};
ghost use Rattle.abc_unify.specs.inner.Slots.{SlotsIn, IsRoot, IsAmong, IsChild, root_of};
ghost use Rattle.abc_unify.specs.inner.Logs.{EntryIn};
ghost use Rattle.abc_unify.specs.inner.Cycles.{IsBelow, Marked, IsVisit, IsTurn, IsOnCycle, IsSearched};

use crate::classes::find;
use crate::kind::{Kind, Slot};
use crate::log::Entry;
use crate::marks::Marks;
use abc_terms::VarId;
use std::alloc::{AllocError, Global};

/// The mark of a class that is still to be visited.
const NEW: usize = 0;

/// The mark of a class from which the search is still under way.
const OPEN: usize = 1;

/// The mark of the class that is done first. Each that is done later has a greater one.
const FIRST_DONE: usize = 2;

/// A search from one class found a cycle through this one, or the next number to give.
#[derive(Clone, Copy)]
pub enum Walk {
    Cycle(usize),
    Done(usize),
}

/// The class of the variable, if it is not done.
fn not_done(slots: &[Slot], marks: &Marks, x: VarId) -> Option<usize>
    requires slots { SlotsIn slots.now }
    requires x { x.0 < length slots.now }
    requires marks { length marks.now ≡ length slots.now }
    ensures some { IfSome result (λ r. (r ≡ root_of slots.now x.0) × (r < length slots.now) × IsRoot (slice_index_or slots.now r (Slot.Root Kind.Free)) × (slice_index marks.now r < 2)) }
    ensures none { IfNone result (2 ≤ slice_index marks.now (root_of slots.now x.0)) }
{
    let root = find(slots, x).index();
    if marks.get(root) < FIRST_DONE {
        Some(root)
    } else {
        None
    }
}

/// A class of one of the variables that is not done.
fn first_not_done(slots: &[Slot], marks: &Marks, xs: &[VarId]) -> Option<usize>
    requires slots { SlotsIn slots.now }
    requires xs { AreIn (length slots.now) xs.now }
    requires marks { length marks.now ≡ length slots.now }
    ensures child { IfSome result (λ r. (x : ℕ) × IsAmong x xs.now × (r ≡ root_of slots.now x)) }
    ensures root { IfSome result (λ r. (r < length slots.now) × IsRoot (slice_index_or slots.now r (Slot.Root Kind.Free)) × (slice_index marks.now r < 2)) }
    ensures none { IfNone result ((x : ℕ) → IsAmong x xs.now → 2 ≤ slice_index marks.now (root_of slots.now x)) }
{
    for i in 0..xs.len() {
        if let Some(root) = not_done(slots, marks, xs[i]) {
            return Some(root);
        }
    }
    None
}

/// A class that the kind names and that is not done.
fn next_below(slots: &[Slot], marks: &Marks, kind: &Kind) -> Option<usize>
    requires slots { SlotsIn slots.now }
    requires kind { KindIn (length slots.now) kind.now }
    requires marks { length marks.now ≡ length slots.now }
    ensures child { IfSome result (λ r. IsBelow slots.now kind.now r) }
    ensures root { IfSome result (λ r. (r < length slots.now) × IsRoot (slice_index_or slots.now r (Slot.Root Kind.Free)) × (slice_index marks.now r < 2)) }
    ensures none { IfNone result ((x : ℕ) → IsChild kind.now x → 2 ≤ slice_index marks.now (root_of slots.now x)) }
{
    match kind {
        Kind::Free => None,
        Kind::Number => None,
        Kind::Text => None,
        Kind::NumberOrText => None,
        Kind::ListOf(c) => first_not_done(slots, marks, &[*c]),
        Kind::TableOf(k, a) => first_not_done(slots, marks, &[*k, *a]),
        Kind::TrainOf(e) => first_not_done(slots, marks, &[*e]),
        Kind::CollectionOf(e) => first_not_done(slots, marks, &[*e]),
        Kind::Compound(fields) => first_not_done(slots, marks, fields.as_slice()),
    }
}

/// What is known of the class of this root.
fn kind_of(slots: &[Slot], root: usize) -> &Kind
    requires root { root < length slots.now }
    requires is_root { IsRoot (slice_index_or slots.now root (Slot.Root Kind.Free)) }
    ensures { slice_index_or slots.now root (Slot.Root Kind.Free) ≡ Slot.Root result.now }
{
    match &slots[root] {
        Slot::Root(kind) => kind,
        Slot::Link(_) => unreachable!(),
    }
}

/// Visits all classes that are reached from `start` and are not done.
fn visit(
    alloc: Global,
    slots: &[Slot],
    marks: &mut Marks,
    first: usize,
    start: usize,
) -> Result<Walk, AllocError>
    requires slots { SlotsIn slots.now }
    requires marks { Marked slots.now marks.old [] first }
    requires start { start < length slots.now }
    requires root { IsRoot (slice_index_or slots.now start (Slot.Root Kind.Free)) }
    requires fresh { slice_index marks.old start ≡ 0 }
    requires few { length slots.now < 2 ^ 32 }
    ensures { IfOk result (λ walk. IsVisit slots.now marks.old marks.new start walk) }
{
    let mut next = first;
    let mut stack = Vec::new(alloc);
    stack.push(start)?;
    marks.set(start, OPEN);
    while let Some(top) = stack.pop() {
        let kind = kind_of(slots, top);
        match next_below(slots, marks, kind) {
            None => {
                marks.set(top, next);
                next += 1;
            }
            Some(child) => {
                if marks.get(child) == OPEN {
                    return Ok(Walk::Cycle(top));
                }
                stack.push(top)?;
                stack.push(child)?;
                marks.set(child, OPEN);
            }
        }
    }
    Ok(Walk::Done(next))
}

/// The same, but from a class that was visited, or that no slot names, which can be on no cycle.
fn visit_from(
    alloc: Global,
    slots: &[Slot],
    named: &[bool],
    marks: &mut Marks,
    first: usize,
    start: usize,
) -> Result<Walk, AllocError>
    requires slots { SlotsIn slots.now }
    requires marks { Marked slots.now marks.old [] first }
    requires start { start < length slots.now }
    requires root { IsRoot (slice_index_or slots.now start (Slot.Root Kind.Free)) }
    requires named { length named.now ≡ length slots.now }
    requires few { length slots.now < 2 ^ 32 }
    ensures { IfOk result (λ walk. IsTurn slots.now named.now marks.old marks.new start walk) }
{
    if !named[start] {
        return Ok(Walk::Done(first));
    }
    if marks.get(start) != NEW {
        return Ok(Walk::Done(first));
    }
    let walk = visit(alloc, slots, marks, first, start)?;
    Ok(walk)
}

/// Visits all classes that are reached from slots that were written.
fn visit_all(
    alloc: Global,
    slots: &[Slot],
    written: &[Entry],
    named: &[bool],
    marks: &mut Marks,
) -> Result<Option<usize>, AllocError>
    requires slots { SlotsIn slots.now }
    requires written { All (EntryIn (length slots.now)) written.now }
    requires named { length named.now ≡ length slots.now }
    requires marks { Marked slots.now marks.old [] 2 }
    requires few { length slots.now < 2 ^ 32 }
    ensures cycle { IfOk result (λ cycle. IfSome cycle (λ top. IsOnCycle slots.now top)) }
    ensures none { IfOk result (λ cycle. IfNone cycle (IsSearched slots.now named.now written.now)) }
{
    let mut next = FIRST_DONE;
    for i in 0..written.len() {
        let start = find(slots, written[i].at).index();
        match visit_from(alloc, slots, named, marks, next, start)? {
            Walk::Cycle(top) => {
                return Ok(Some(top));
            }
            Walk::Done(number) => {
                next = number;
            }
        }
    }
    Ok(None)
}

/// A class on a cycle, if one is reached from a slot that was written.
pub fn find_cycle(
    alloc: Global,
    slots: &[Slot],
    written: &[Entry],
    named: &[bool],
    marks: &mut Marks,
) -> Result<Option<usize>, AllocError>
    requires slots { SlotsIn slots.now }
    requires written { All (EntryIn (length slots.now)) written.now }
    requires named { length named.now ≡ length slots.now }
    requires few { length slots.now < 2 ^ 32 }
    ensures cycle { IfOk result (λ cycle. IfSome cycle (λ top. IsOnCycle slots.now top)) }
    ensures none { IfOk result (λ cycle. IfNone cycle (IsSearched slots.now named.now written.now)) }
{
    marks.begin(slots.len())?;
    let cycle = visit_all(alloc, slots, written, named, marks)?;
    Ok(cycle)
}
