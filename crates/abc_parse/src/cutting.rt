//! The lines of an item cut at its refinement headings, from the last to the first.
ghost use Rattle.std.specs.Prelude.{◌≡◌, ◌<◌, [], ◌∷◌, ◌++◌, Some, IfOk, OnOk, MatchOption, length};
ghost use Rattle.abc_parse.specs.Items.{kind_by_number, refinement_kind};
ghost use Rattle.abc_parse.specs.Readings.{one_more, suite_of, with_refinement};
ghost use Rattle.abc_parse.specs.inner.Building.{CanCut, CutsBehind, Gives, IsFirstAlone, Leaves};

use crate::fault::{Unmade, made_of};
use crate::making::{add, one_command};
use crate::roots::Roots;
use abc_clauses::{Clause, Head};
use abc_faults::{Facts, Saying};
use abc_num::{Items, OutOfMemory, Stack, Text};
use abc_tree::{ActionNode, Refinement, RefinementKind, Refinements, Suite};
use std::alloc::Global;

/// What lines make: the parts up to the first refinement heading, and the refinements from there on.
#[derive(Drop)]
pub(crate) struct Cut {
    pub roots: Roots,
    pub refinements: Stack<Refinement>,
}

/// The kind that its unit gives to a refinement.
fn refinement_kind(facts: &Facts, name: &Text) -> RefinementKind
    ensures { result ≡ refinement_kind facts.now name.now }
{
    kind_by_number(facts.kinds.as_slice(), facts.names.find(name))
}

fn kind_by_number(kinds: &[Option<RefinementKind>], number: Option<u32>) -> RefinementKind
    ensures { result ≡ kind_by_number kinds.now number }
{
    let Some(number) = number else {
        return RefinementKind::Command;
    };
    match kinds.get(number as usize) {
        Some(Some(kind)) => *kind,
        Some(None) => RefinementKind::Command,
        None => RefinementKind::Command,
    }
}

/// The suite of a heading over all of these parts, which are taken out.
pub(crate) fn suite(
    alloc: Global,
    line: u32,
    beside: Option<ActionNode>,
    roots: &mut Roots,
) -> Result<Suite, Unmade>
    ensures suite { Gives result (suite_of line beside roots.old) }
    ensures rest { OnOk result (roots.new ≡ []) }
{
    match beside {
        None => roots.all_commands(alloc),
        Some(node) => beside_suite(alloc, line, node, roots),
    }
}

/// The suite of a heading with a command beside it.
fn beside_suite(
    alloc: Global,
    line: u32,
    node: ActionNode,
    roots: &mut Roots,
) -> Result<Suite, Unmade>
    ensures suite { Gives result (suite_of line (Some node) roots.old) }
    ensures rest { OnOk result (roots.new ≡ []) }
{
    match roots.pop() {
        Some(_root) => Err(Unmade::Misfit),
        None => Ok(one_command(alloc, line, node)?),
    }
}

/// The heading of a refinement, at the front: what was read so far up to the next one is its suite.
fn add_refinement(
    alloc: Global,
    facts: &Facts,
    name: Text,
    line: u32,
    beside: Option<ActionNode>,
    cut: &mut Cut,
) -> Result<(), Unmade>
    ensures { Leaves result (with_refinement (refinement_kind facts.now) line beside name cut.old) cut.new }
{
    let suite = suite(alloc, line, beside, &mut cut.roots)?;
    let kind = refinement_kind(facts, &name);
    cut.refinements.push(Refinement {
        name,
        kind,
        line,
        suite,
    })?;
    Ok(())
}

/// One line more at the front.
fn add_line(alloc: Global, facts: &Facts, saying: Saying, cut: &mut Cut) -> Result<(), Unmade>
    ensures { Leaves result (one_more (refinement_kind facts.now) saying cut.old) cut.new }
{
    let Saying { indent, clause } = saying;
    let Clause { line, head, beside } = clause;
    match head {
        Head::Refinement(name) => add_refinement(alloc, facts, name, line, beside, cut),
        head => {
            let clause = Clause { line, head, beside };
            add(alloc, Saying { indent, clause }, &mut cut.roots)
        }
    }
}

/// Takes the last line, unless it is the first.
fn pop_behind_first(lines: &mut Vec<Saying>) -> Option<Saying>
    ensures { MatchOption result (IsFirstAlone lines.old.items lines.new.items) (λ line. (lines.old.items ≡ lines.new.items ++ line ∷ []) × (0 < length lines.new.items)) }
{
    if lines.len() < 2 {
        return None;
    }
    lines.pop()
}

/// What the lines behind the first make. The first is left.
pub(crate) fn cut_lines(
    alloc: Global,
    facts: &Facts,
    lines: &mut Vec<Saying>,
) -> Result<Cut, OutOfMemory>
    requires { CanCut (refinement_kind facts.now) lines.old.items }
    ensures { IfOk result (CutsBehind (refinement_kind facts.now) lines.old.items lines.new.items) }
{
    let mut cut = Cut {
        roots: Roots::new(alloc),
        refinements: Stack::new(alloc),
    };
    while let Some(line) = pop_behind_first(lines) {
        made_of(add_line(alloc, facts, line, &mut cut))?;
    }
    Ok(cut)
}

/// The refinements in their order.
pub(crate) fn in_order(
    alloc: Global,
    refinements: Stack<Refinement>,
) -> Result<Refinements, OutOfMemory>
    ensures { IfOk result (λ all. all ≡ refinements) }
{
    let mut ahead = refinements;
    let mut all = Items::new(alloc);
    while let Some(refinement) = ahead.pop() {
        all.push(refinement)?;
    }
    Ok(all)
}
