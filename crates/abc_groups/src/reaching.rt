//! All templates that are reached.
ghost use Rattle.std.specs.Prelude.{◌≡◌, ◌↔◌, ℕ, List, IfOk};
ghost use Rattle.std.specs.List.{Contains};
ghost use Rattle.abc_tree.specs.Ordered.{RiseBy};
ghost use Rattle.abc_tree.specs.Templates.{template_text};
ghost use Rattle.abc_groups.specs.Reach.{IsFrom, Reaches};
ghost use Rattle.abc_groups.specs.Program.{EachOnce, called, graph_in, program_of, texts};

use crate::explore::{explore, listed};
use crate::indexed::Indexed;
use crate::program::Program;
use crate::sorted::in_order;
use crate::{Calls, Templates};
use abc_num::OutOfMemory;
use abc_tree::{Template, Units};
use std::alloc::Global;

fn reach_by<P: Program>(
    alloc: Global,
    program: &P,
    from: &[Template],
) -> Result<Templates, OutOfMemory>
    requires { P.fits program.now }
    ensures exact { IfOk result (λ all. (x : List ℕ) → (Contains (texts all) x ↔ IsFrom (called (P.tells program.now)) (texts from.now) x)) }
    ensures rising { IfOk result (λ all. RiseBy (λ t. t) all) }
{
    let explored = explore(alloc, program, from)?;
    in_order(alloc, &explored.templates)
}

/// The templates that this one reaches by one call or more, in their order.
pub fn reach(alloc: Global, graph: &[Calls], t: &Template) -> Result<Templates, OutOfMemory>
    requires { EachOnce graph.now }
    ensures exact { IfOk result (λ all. (x : List ℕ) → (Contains (texts all) x ↔ Reaches (called (program_of graph.now)) (template_text t.now) x)) }
    ensures rising { IfOk result (λ all. RiseBy (λ t. t) all) }
{
    let indexed = Indexed::new(alloc, graph)?;
    let from = listed(alloc, indexed.called(alloc, t)?);
    reach_by(alloc, &indexed, &from)
}

/// The templates that are one of `from` or are reached from one of them, in their order. Only units that are reached are
/// read, each once.
pub fn reach_from(alloc: Global, units: &Units, from: &[Template]) -> Result<Templates, OutOfMemory>
    ensures exact { IfOk result (λ all. (x : List ℕ) → (Contains (texts all) x ↔ IsFrom (called (program_of (graph_in units.now))) (texts from.now) x)) }
    ensures rising { IfOk result (λ all. RiseBy (λ t. t) all) }
{
    reach_by(alloc, units, from)
}
