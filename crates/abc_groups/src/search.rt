//! Which of the numbered templates call each other, found by one search in depth.
//!
//! The path has the templates that are being looked at. It has parts, and those of one part reach each other. A part that
//! calls nothing that is new or earlier on the path is a group, and is taken off. Each turn looks through the last part.
ghost use Rattle.std.specs.Prelude.{◌≡◌, ℕ, ◌+◌, ◌<◌, ◌≤◌, ◌^◌, [], length, map, IfOk, IfSome, IfNone, slice_index};
ghost use Rattle.std.specs.List.{All, Contains};
ghost use Rattle.abc_groups.specs.Reach.{DoesCall};
ghost use Rattle.abc_groups.specs.inner.Explored.{row_of};
ghost use Rattle.abc_groups.specs.inner.Least.{IsHere, IsAway};
ghost use Rattle.abc_groups.specs.inner.Search.{AreClasses, AreNumberGroups, IsIdle, IsInside, IsOpenMark, IsShut, IsShutMark, IsTaken, away_mark, mark};

use abc_num::{Items, OutOfMemory};
use std::alloc::Global;

// A mark is 0 for a template that is new, 1 for one that is done, and from 2 on its place on the path.

/// A call in the row to what is new or earlier on the path.
fn open_in(row: &[usize], marks: &[usize], start: usize) -> Option<usize>
    requires row { All (λ y. y < length marks.now) row.now }
    requires start { start < 2 ^ 62 }
    ensures some { IfSome result (λ y. Contains row.now y × (y < length marks.now) × IsOpenMark start (mark marks.now y)) }
    ensures none { IfNone result (All (λ y. IsShutMark start (mark marks.now y)) row.now) }
{
    for k in 0..row.len() {
        let y = row[k];
        let m = marks[y];
        if m == 0 || (m >= 2 && m < start + 2) {
            return Some(y);
        }
    }
    None
}

/// Takes the last part of the path off as a row that is done.
fn take_top(
    marks: &mut [usize],
    path: &mut Vec<usize>,
    start: usize,
    row: &mut Vec<usize>,
) -> Result<(), OutOfMemory>
    requires inside { All (λ x. x < length marks.old) path.old.items }
    requires start { start ≤ length path.old.items }
    requires row { row.old.items ≡ [] }
    ensures { IfOk result (λ _. IsTaken marks.old path.old.items start marks.new path.new.items row.new.items) }
{
    while path.len() > start {
        if let Some(x) = path.pop() {
            marks[x] = 1;
            row.push(x)?;
        }
    }
    Ok(())
}

/// A call out of the last part of the path to what is new or earlier on the path.
fn open_call(graph: &[Items<usize>], marks: &[usize], path: &[usize], start: usize) -> Option<usize>
    requires graph { IsInside graph.now }
    requires same { length marks.now ≡ length graph.now }
    requires inside { All (λ x. x < length graph.now) path.now }
    requires start { start < 2 ^ 62 }
    ensures some { IfSome result (λ y. (y < length marks.now) × IsOpenMark start (mark marks.now y) × ((k : ℕ) × (start ≤ k) × (k < length path.now) × DoesCall (row_of graph.now) (slice_index path.now k) y)) }
    ensures none { IfNone result ((k : ℕ) → start ≤ k → k < length path.now → IsShut graph.now marks.now path.now start k) }
{
    for k in start..path.len() {
        if let Some(y) = open_in(graph[path[k]].as_slice(), marks, start) {
            return Some(y);
        }
    }
    None
}

/// Takes off all groups that are reached from the root.
fn visit(
    alloc: Global,
    graph: &[Items<usize>],
    there: &[bool],
    marks: &mut [usize],
    groups: &mut Vec<Items<usize>>,
    root: usize,
) -> Result<(), OutOfMemory>
    requires graph { IsInside graph.now }
    requires idle { IsIdle graph.now there.now marks.old }
    requires classes { AreClasses graph.now there.now marks.old groups.old.items }
    requires root { root < length graph.now }
    requires new { mark marks.old root ≡ 0 }
    ensures idle { IfOk result (λ _. IsIdle graph.now there.now marks.new) }
    ensures classes { IfOk result (λ _. AreClasses graph.now there.now marks.new groups.new.items) }
    ensures root { IfOk result (λ _. mark marks.new root ≡ 1) }
    ensures kept { IfOk result (λ _. (x : ℕ) → mark marks.old x ≡ 1 → mark marks.new x ≡ 1) }
{
    let mut path = Vec::new(alloc);
    let mut starts = Vec::new(alloc);
    path.push(root)?;
    starts.push(0)?;
    marks[root] = 2;
    while let Some(start) = starts.pop() {
        match open_call(graph, marks, path.as_slice(), start) {
            None => {
                let mut row = Vec::new(alloc);
                take_top(marks, &mut path, start, &mut row)?;
                groups.push(Items::from_vec(row))?;
            }
            Some(y) => {
                // Without its start, the last part is one with the part before it.
                if marks[y] == 0 {
                    starts.push(start)?;
                    starts.push(path.len())?;
                    marks[y] = path.len() + 2;
                    path.push(y)?;
                }
            }
        }
    }
    Ok(())
}

/// What is missing is done from the beginning, so that it is in no group.
fn first_marks(alloc: Global, there: &[bool]) -> Result<Vec<usize>, OutOfMemory>
    ensures { IfOk result (λ marks. marks.items ≡ map away_mark there.now) }
{
    let mut marks = Vec::new(alloc);
    for here in there {
        marks.push(usize::from(!*here))?;
    }
    Ok(marks)
}

/// The groups of those that are there and reach each other, each after those that it calls.
pub(crate) fn number_groups(
    alloc: Global,
    graph: &[Items<usize>],
    there: &[bool],
) -> Result<Vec<Items<usize>>, OutOfMemory>
    requires graph { IsInside graph.now }
    requires same { length there.now ≡ length graph.now }
    requires away { (x : ℕ) → IsAway there.now x → row_of graph.now x ≡ [] }
    ensures { IfOk result (λ groups. AreNumberGroups graph.now there.now groups.items) }
{
    let mut marks = first_marks(alloc, there)?;
    all_groups(alloc, graph, there, &mut marks)
}

fn all_groups(
    alloc: Global,
    graph: &[Items<usize>],
    there: &[bool],
    marks: &mut [usize],
) -> Result<Vec<Items<usize>>, OutOfMemory>
    requires graph { IsInside graph.now }
    requires same { length there.now ≡ length graph.now }
    requires away { (x : ℕ) → IsAway there.now x → row_of graph.now x ≡ [] }
    requires marks { marks.old ≡ map away_mark there.now }
    ensures { IfOk result (λ groups. AreNumberGroups graph.now there.now groups.items) }
{
    let mut groups = Vec::new(alloc);
    for root in 0..graph.len() {
        if marks[root] == 0 {
            visit(alloc, graph, there, marks, &mut groups, root)?;
        }
    }
    Ok(groups)
}
