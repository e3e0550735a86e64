//! What the values of targets ask of the types of targets. A value is asked for by its shape, which lists and tables keep: so the
//! cost is the names of all targets and the size of their types, and no value is gone through.
ghost use Rattle.std.specs.Prelude.{◌≡◌, ◌∷◌, ◌++◌, [], ℕ, List, Some, Err, OnOk};
ghost use Rattle.abc_num.specs.declared.types.Ground.{Ground};
ghost use Rattle.abc_terms.specs.declared.term.VarId.{VarId as TheVar};
ghost use Rattle.abc_value.specs.Tree.{Tree};
ghost use Rattle.abc_frames.specs.Maps.{value_of};
ghost use Rattle.abc_ground.specs.Groups.{Cut};
ghost use Rattle.abc_ground.specs.Typable.{Values, AreTypes, IsTypable};
ghost use Rattle.abc_scheme.specs.Later.{IsLater};
ghost use Rattle.abc_demand.specs.Typings.{TargetsMade};
ghost use Rattle.abc_check.specs.Standing.{AreAsked};
ghost use Rattle.abc_check.specs.inner.Shaped.{IsHeld, NotHeld};

use crate::shapes::shape_var;
use abc_demand::TargetVars;
use abc_frames::Targets;
use abc_num::Text;
use abc_principal::target_var;
use abc_unify::{Graph, UnifyFault};
use abc_value::{Shape, Value};
use std::alloc::Global;

/// Asks that the type of a target is of a shape.
fn hold_shape(
    alloc: Global,
    graph: &mut Graph,
    vars: &mut TargetVars,
    name: &Text,
    shape: &Shape,
) -> Result<(), UnifyFault>
    requires { TargetsMade graph.old.count vars.old }
    ensures ok { OnOk result (IsHeld name.now shape.now graph.old graph.new vars.old vars.new) }
    ensures clash { result ≡ Err UnifyFault.Clash → NotHeld name.now shape.now graph.old vars.old }
    ensures later { IsLater graph.old graph.new }
    ensures behind { (added : List (List ℕ × TheVar)) × (vars.new ≡ vars.old ++ added) }
{
    let _count = graph.count();
    let target = target_var(alloc, graph, vars, name)?;
    let a = shape_var(alloc, graph, shape)?;
    graph.equal(target, a)
}

/// Asks that one target more has a type of its value.
fn hold_value(
    alloc: Global,
    graph: &mut Graph,
    vars: &mut TargetVars,
    name: &Text,
    value: &Value,
) -> Result<(), UnifyFault>
    requires { TargetsMade graph.old.count vars.old }
    ensures ok { OnOk result ((values : Values) (w : List Cut) → AreAsked graph.old.demands vars.old values w → AreAsked graph.new.demands vars.new (values ++ (name.now, value.now) ∷ []) w) }
    ensures clash { result ≡ Err UnifyFault.Clash → (values : Values) (w : List Cut) → AreAsked graph.old.demands vars.old values w → (targets : List ℕ → Ground) → AreTypes (values ++ (name.now, value.now) ∷ []) w targets → ⊥ }
    ensures made { OnOk result (TargetsMade graph.new.count vars.new) }
    ensures later { IsLater graph.old graph.new }
    ensures behind { (added : List (List ℕ × TheVar)) × (vars.new ≡ vars.old ++ added) }
{
    match Shape::of(alloc, value)? {
        Some(shape) => hold_shape(alloc, graph, vars, name, &shape),
        None => Err(UnifyFault::Clash),
    }
}

/// Asks the same of the target with this name.
fn hold_named(
    alloc: Global,
    graph: &mut Graph,
    vars: &mut TargetVars,
    targets: &Targets,
    name: &Text,
) -> Result<(), UnifyFault>
    requires { TargetsMade graph.old.count vars.old }
    ensures ok { OnOk result ((value : Tree) → value_of name.now targets.now ≡ Some value → (values : Values) (w : List Cut) → AreAsked graph.old.demands vars.old values w → AreAsked graph.new.demands vars.new (values ++ (name.now, value) ∷ []) w) }
    ensures clash { result ≡ Err UnifyFault.Clash → (value : Tree) → value_of name.now targets.now ≡ Some value → (values : Values) (w : List Cut) → AreAsked graph.old.demands vars.old values w → (types : List ℕ → Ground) → AreTypes (values ++ (name.now, value) ∷ []) w types → ⊥ }
    ensures made { OnOk result (TargetsMade graph.new.count vars.new) }
    ensures later { IsLater graph.old graph.new }
    ensures behind { (added : List (List ℕ × TheVar)) × (vars.new ≡ vars.old ++ added) }
{
    match targets.look(name) {
        Some(value) => hold_value(alloc, graph, vars, name, value),
        None => Ok(()),
    }
}

/// Asks that each target has a type of its value, where nothing was asked of values. Clash comes only where nothing is typable
/// with these values. After any answer the graph and the variables may have more, and can go back.
pub(crate) fn hold_values(
    alloc: Global,
    graph: &mut Graph,
    vars: &mut TargetVars,
    targets: &Targets,
) -> Result<(), UnifyFault>
    requires { TargetsMade graph.old.count vars.old }
    ensures ok { OnOk result ((w : List Cut) → AreAsked graph.old.demands vars.old [] w → AreAsked graph.new.demands vars.new targets.now w) }
    ensures clash { result ≡ Err UnifyFault.Clash → (w : List Cut) → AreAsked graph.old.demands vars.old [] w → IsTypable targets.now w → ⊥ }
    ensures made { OnOk result (TargetsMade graph.new.count vars.new) }
    ensures later { IsLater graph.old graph.new }
    ensures behind { (added : List (List ℕ × TheVar)) × (vars.new ≡ vars.old ++ added) }
{
    let _rising = targets.len();
    let names = targets.names()?;
    for number in 0..u32::MAX {
        let Some(name) = names.get(number) else {
            return Ok(());
        };
        hold_named(alloc, graph, vars, targets, name)?;
    }
    // So many names are never told of.
    Err(UnifyFault::Memory)
}
