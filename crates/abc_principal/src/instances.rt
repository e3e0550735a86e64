//! Instances of principal signatures.
ghost use Rattle.std.specs.Prelude.{◌≡◌, ◌+◌, ◌++◌, ℕ, List, length, Err, IfOk, is_some};
ghost use Rattle.abc_terms.specs.declared.term.VarId.{VarId as TheVar};
ghost use Rattle.abc_scheme.specs.Later.{IsLater};
ghost use Rattle.abc_demand.specs.Typings.{TargetsMade};
ghost use Rattle.abc_principal.specs.Principals.{IsWhole, IsInstance, HasNone, results, variables};

use crate::naming::target_vars;
use crate::principal::Principal;
use abc_demand::{Signature, TargetVars};
use abc_num::Items;
use abc_terms::VarId;
use abc_unify::{Graph, UnifyFault};
use std::alloc::Global;

/// The signature that has these variables one after the other.
fn signature_of(own: Vec<VarId>, formals: usize, gives: bool) -> Signature
    requires { length own.items ≡ formals + results gives }
    ensures variables { variables result ≡ own.items }
    ensures formals { length result.formals ≡ formals }
    ensures gives { is_some result.result ≡ gives }
{
    let mut formals = own;
    let result = if gives { formals.pop() } else { None };
    Signature {
        formals: Items::from_vec(formals),
        result,
    }
}

/// The instance, where after a fault variables and targets may stand behind those before.
pub fn place(
    alloc: Global,
    g: &mut Graph,
    targets: &mut TargetVars,
    principal: &Principal,
) -> Result<Signature, UnifyFault>
    requires targets { TargetsMade g.old.count targets.old }
    requires whole { IsWhole principal.now }
    ensures ok { IfOk result (λ s. IsInstance principal.now g.old g.new targets.old targets.new s) }
    ensures clash { result ≡ Err UnifyFault.Clash → HasNone principal.now g.old targets.old }
    ensures behind { (added : List (List ℕ × TheVar)) × (targets.new ≡ targets.old ++ added) }
    ensures later { IsLater g.old g.new }
{
    let _count = g.count();
    let given = target_vars(alloc, g, targets, principal.targets.as_slice())?;
    let own = principal.scheme.copy(alloc, g, &given)?;
    Ok(signature_of(own, principal.formals, principal.gives))
}
