//! The first fault of an item, or what its lines say.
ghost use Rattle.std.specs.Prelude.{◌≡◌, IfOk};
ghost use Rattle.abc_faults.specs.Judging.{AreFit, IsFit, IsJudged};
ghost use Rattle.abc_faults.specs.inner.Verdicts.{Settles, Takes};

use crate::above::Above;
use crate::facts::Facts;
use crate::fault::{Fault, FaultKind};
use crate::sayings::Saying;
use crate::sight::Sight;
use crate::verdict::{Verdict, judge_line};
use abc_num::{Items, OutOfMemory};
use abc_outline::Row;
use std::alloc::Global;

/// What the lines of an item say, or its first fault.
#[derive(Drop)]
pub enum Judged {
    Says(Items<Saying>),
    Fault(Fault),
}

/// The fault that a line is found to have, or what it says, added to the lines.
fn settle(
    verdict: Verdict,
    indent: u32,
    lines: &mut Items<Saying>,
) -> Result<Option<FaultKind>, OutOfMemory>
    ensures { IfOk result (λ found. Settles verdict indent found lines.old lines.new) }
{
    match verdict {
        Verdict::Fault(kind) => Ok(Some(kind)),
        Verdict::Says(clause) => {
            lines.push(Saying { indent, clause })?;
            Ok(None)
        }
    }
}

/// The first fault of a line, or what it says, added to the lines.
fn take_line(
    alloc: Global,
    facts: &Facts,
    sight: Sight,
    row: &Row,
    below: &[Row],
    lines: &mut Items<Saying>,
) -> Result<Option<FaultKind>, OutOfMemory>
    requires { IsFit row.now }
    ensures { IfOk result (λ found. Takes found facts.now sight row.now below.now lines.old lines.new) }
{
    let verdict = judge_line(alloc, facts, sight, row, below)?;
    settle(verdict, row.edges.indent, lines)
}

/// What the lines of an item say, or its first fault. It takes time proportional to the bytes of the lines; an ELSE besides
/// passes over the lines of its own suite.
pub fn judge(alloc: Global, facts: &Facts, rows: &[Row]) -> Result<Judged, OutOfMemory>
    requires fit { AreFit rows.now }
    ensures { IfOk result (λ judged. IsJudged judged facts.now rows.now) }
{
    let mut above = Above::new(alloc, facts);
    let mut lines = Items::new(alloc);
    let mut ahead = rows;
    while let Some((row, below)) = ahead.split_first() {
        let sight = above.look(alloc, facts, row)?;
        match take_line(alloc, facts, sight, row, below, &mut lines)? {
            Some(kind) => {
                let line = sight.place.number as u32;
                return Ok(Judged::Fault(Fault { line, kind }));
            }
            None => ahead = below,
        }
    }
    Ok(Judged::Says(lines))
}
