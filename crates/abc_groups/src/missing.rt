//! The least template without a unit among those that are reached.
ghost use Rattle.std.specs.Prelude.{◌≡◌, ◌<◌, ◌+◌, length, IfOk, IfSome, IfNone};
ghost use Rattle.abc_tree.specs.Templates.{template_text};
ghost use Rattle.abc_tree.specs.Units.{with_unit};
ghost use Rattle.abc_groups.specs.Program.{EachOnce, IsFirstMissing, NoneIsMissing, graph_in, program_of, texts};
ghost use Rattle.abc_groups.specs.inner.Least.{IsLeast};

use crate::Calls;
use crate::explore::{Explored, explore};
use crate::indexed::Indexed;
use crate::program::{Joined, Program};
use abc_num::OutOfMemory;
use abc_tree::{Template, Unit, Units};
use std::alloc::Global;
use std::cmp::Ordering;

/// The least missing one up to number `i`, where `best` is the least one below it.
fn lesser(explored: &Explored, best: Option<usize>, i: usize) -> Option<usize>
    requires inside { i < length explored.now.templates.items }
    requires as_many { length explored.now.there.items ≡ length explored.now.templates.items }
    requires best { IsLeast (texts explored.now.templates.items) explored.now.there.items i best }
    ensures { IsLeast (texts explored.now.templates.items) explored.now.there.items (i + 1) result }
{
    if explored.there[i] {
        return best;
    }
    match best {
        None => Some(i),
        Some(b) => match explored.templates[b].cmp(&explored.templates[i]) {
            Ordering::Less => Some(b),
            Ordering::Equal => Some(b),
            Ordering::Greater => Some(i),
        },
    }
}

/// The number of the least missing one, if one is missing.
fn least(explored: &Explored) -> Option<usize>
    requires { length explored.now.there.items ≡ length explored.now.templates.items }
    ensures { IsLeast (texts explored.now.templates.items) explored.now.there.items (length explored.now.templates.items) result }
{
    let mut best = None;
    for i in 0..explored.templates.len() {
        best = lesser(explored, best, i);
    }
    best
}

fn first_missing_by<P: Program>(
    alloc: Global,
    program: &P,
    from: &[Template],
) -> Result<Option<Template>, OutOfMemory>
    requires { P.fits program.now }
    ensures some { IfOk result (λ answer. IfSome answer (λ t. IsFirstMissing (P.tells program.now) (texts from.now) (template_text t))) }
    ensures none { IfOk result (λ answer. IfNone answer (NoneIsMissing (P.tells program.now) (texts from.now))) }
{
    let explored = explore(alloc, program, from)?;
    match least(&explored) {
        Some(i) => Ok(Some(explored.templates[i].copy(alloc)?)),
        None => Ok(None),
    }
}

/// The least missing template that is one of `from` or is reached from one of them.
pub fn first_missing(
    alloc: Global,
    graph: &[Calls],
    from: &[Template],
) -> Result<Option<Template>, OutOfMemory>
    requires { EachOnce graph.now }
    ensures some { IfOk result (λ answer. IfSome answer (λ t. IsFirstMissing (program_of graph.now) (texts from.now) (template_text t))) }
    ensures none { IfOk result (λ answer. IfNone answer (NoneIsMissing (program_of graph.now) (texts from.now))) }
{
    let indexed = Indexed::new(alloc, graph)?;
    first_missing_by(alloc, &indexed, from)
}

/// The same over the units themselves. Only units that are reached are read, each once.
pub fn first_missing_in(
    alloc: Global,
    units: &Units,
    from: &[Template],
) -> Result<Option<Template>, OutOfMemory>
    ensures some { IfOk result (λ answer. IfSome answer (λ t. IsFirstMissing (program_of (graph_in units.now)) (texts from.now) (template_text t))) }
    ensures none { IfOk result (λ answer. IfNone answer (NoneIsMissing (program_of (graph_in units.now)) (texts from.now))) }
{
    first_missing_by(alloc, units, from)
}

/// The same over the units with a new one, which takes the place of one with its template.
pub fn first_missing_with(
    alloc: Global,
    units: &Units,
    new: &Unit,
    from: &[Template],
) -> Result<Option<Template>, OutOfMemory>
    ensures some { IfOk result (λ answer. IfSome answer (λ t. IsFirstMissing (program_of (graph_in (with_unit new.now units.now))) (texts from.now) (template_text t))) }
    ensures none { IfOk result (λ answer. IfNone answer (NoneIsMissing (program_of (graph_in (with_unit new.now units.now))) (texts from.now))) }
{
    first_missing_by(alloc, &Joined { units, new }, from)
}
