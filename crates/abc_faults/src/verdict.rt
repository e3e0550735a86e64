//! The first fault of a line, or what it says.
ghost use Rattle.std.specs.Prelude.{◌≡◌, ◌≤◌, IfOk, None};
ghost use Rattle.abc_num.specs.declared.limits.TheConstants.{MOST_LINES};
ghost use Rattle.abc_faults.specs.Judging.{IsFit};
ghost use Rattle.abc_faults.specs.inner.Verdicts.{Judges, JudgesClause, early_fault};

use crate::causes::{early_fault, late_fault};
use crate::facts::Facts;
use crate::fault::FaultKind;
use crate::reading::{agrees, clause_read};
use crate::sight::Sight;
use abc_clauses::Clause;
use abc_num::OutOfMemory;
use abc_outline::Row;
use std::alloc::Global;

/// What a line is found to be.
#[derive(Drop)]
pub enum Verdict {
    /// No fault stands in it, and it says this.
    Says(Clause),
    /// Its first fault.
    Fault(FaultKind),
}

/// The first fault of a line whose tokens say this, or what it says.
fn judge_clause(
    alloc: Global,
    facts: &Facts,
    sight: Sight,
    row: &Row,
    below: &[Row],
    clause: Clause,
) -> Verdict
    ensures { JudgesClause result facts.now sight row.now below.now clause }
{
    if !agrees(row.edges, sight.place.role, &clause) {
        return Verdict::Fault(FaultKind::BadCommand);
    }
    match late_fault(alloc, facts, sight, row, below, &clause) {
        Some(kind) => Verdict::Fault(kind),
        None => Verdict::Says(clause),
    }
}

/// The first fault of a line that has none of the early ones, or what it says.
fn judge_read(
    alloc: Global,
    facts: &Facts,
    sight: Sight,
    row: &Row,
    below: &[Row],
) -> Result<Verdict, OutOfMemory>
    requires fit { IsFit row.now }
    requires few { sight.place.number ≤ MOST_LINES }
    requires early { early_fault sight.place row.now ≡ None }
    ensures { IfOk result (λ verdict. Judges verdict facts.now sight row.now below.now) }
{
    match clause_read(
        alloc,
        facts,
        sight.place.role,
        sight.place.number as u32,
        row,
    )? {
        None => Ok(Verdict::Fault(FaultKind::BadCommand)),
        Some(clause) => Ok(judge_clause(alloc, facts, sight, row, below, clause)),
    }
}

/// The first fault of a line, or what it says.
pub fn judge_line(
    alloc: Global,
    facts: &Facts,
    sight: Sight,
    row: &Row,
    below: &[Row],
) -> Result<Verdict, OutOfMemory>
    requires { IsFit row.now }
    ensures { IfOk result (λ verdict. Judges verdict facts.now sight row.now below.now) }
{
    match early_fault(sight.place, row) {
        Some(kind) => Ok(Verdict::Fault(kind)),
        None => judge_read(alloc, facts, sight, row, below),
    }
}
