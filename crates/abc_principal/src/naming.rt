//! Variables for targets.
ghost use Rattle.std.specs.Prelude.{◌≡◌, ◌∷◌, ◌++◌, ℕ, List, [], IfOk};
ghost use Rattle.abc_terms.specs.declared.term.VarId.{VarId as TheVar};
ghost use Rattle.abc_scheme.specs.Later.{IsLater};
ghost use Rattle.abc_demand.specs.Typings.{TargetsMade};
ghost use Rattle.abc_principal.specs.TargetVars.{AreNamed};

use abc_demand::TargetVars;
use abc_num::{OutOfMemory, Text};
use abc_terms::VarId;
use abc_unify::Graph;
use std::alloc::Global;

/// The variable of a target. A target that has none is given one behind the others.
pub fn target_var(
    alloc: Global,
    g: &mut Graph,
    targets: &mut TargetVars,
    name: &Text,
) -> Result<VarId, OutOfMemory>
    requires { TargetsMade g.old.count targets.old }
    ensures named { IfOk result (λ a. AreNamed g.old g.new targets.old targets.new (name.now ∷ []) (a ∷ [])) }
    ensures behind { (added : List (List ℕ × TheVar)) × (targets.new ≡ targets.old ++ added) }
    ensures later { IsLater g.old g.new }
{
    if let Some(a) = targets.find(name) {
        return Ok(a);
    }
    let text = Text::of(alloc, name.bytes())?;
    let a = g.fresh()?;
    targets.add(text, a)?;
    Ok(a)
}

/// The variables of these targets.
pub fn target_vars(
    alloc: Global,
    g: &mut Graph,
    targets: &mut TargetVars,
    names: &[Text],
) -> Result<Vec<VarId>, OutOfMemory>
    requires { TargetsMade g.old.count targets.old }
    ensures named { IfOk result (λ vars. AreNamed g.old g.new targets.old targets.new names.now vars.items) }
    ensures behind { (added : List (List ℕ × TheVar)) × (targets.new ≡ targets.old ++ added) }
    ensures later { IsLater g.old g.new }
{
    let mut vars = Vec::new(alloc);
    for name in names {
        let a = target_var(alloc, g, targets, name)?;
        vars.push(a)?;
    }
    Ok(vars)
}
