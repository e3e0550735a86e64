//! Variables for the types of a shape.
ghost use Rattle.std.specs.Prelude.{◌≡◌, Err, IfOk};
ghost use Rattle.abc_scheme.specs.Later.{IsLater};
ghost use Rattle.abc_value.specs.ShapeParts.{shape_parts};
ghost use Rattle.abc_check.specs.inner.Shaped.{IsShapeVar, NoShapeVar, AreShapeVars, NoShapeVars};

use crate::outers::outer_var;
use abc_terms::VarId;
use abc_unify::{Graph, UnifyFault};
use abc_value::Shape;
use std::alloc::Global;

/// A variable for the types of a shape. Clash comes only where it has no proper type. After a fault the graph may have more, and
/// can go back.
#[cycle(shaped)]
pub(crate) fn shape_var(
    alloc: Global,
    graph: &mut Graph,
    shape: &Shape,
) -> Result<VarId, UnifyFault>
    ensures made { IfOk result (λ a. IsShapeVar shape.now graph.old graph.new a) }
    ensures clash { result ≡ Err UnifyFault.Clash → NoShapeVar shape.now graph.old }
    ensures later { IsLater graph.old graph.new }
{
    let parts = part_vars(alloc, graph, shape)?;
    outer_var(alloc, graph, shape.kind(), &parts)
}

/// Variables for the types of the parts of a shape.
#[cycle(shaped)]
fn part_vars(alloc: Global, graph: &mut Graph, shape: &Shape) -> Result<Vec<VarId>, UnifyFault>
    ensures made { IfOk result (λ vars. AreShapeVars (shape_parts shape.now) graph.old graph.new vars.items) }
    ensures clash { result ≡ Err UnifyFault.Clash → NoShapeVars (shape_parts shape.now) graph.old }
    ensures later { IsLater graph.old graph.new }
{
    let mut vars = Vec::new(alloc);
    while let Some(part) = shape.part(vars.len()) {
        let a = shape_var(alloc, graph, part)?;
        vars.push(a)?;
    }
    Ok(vars)
}
