//! The principals of a group of units that call each other.
ghost use Rattle.std.specs.Prelude.{◌≡◌, List, Err, IfOk};
ghost use Rattle.std.specs.List.{All};
ghost use Rattle.abc_ground.specs.Groups.{Cut};
ghost use Rattle.abc_principal.specs.Exact.{cuts_of, IsGroup, KnowsCalls, ArePrincipals, MayNothing};
ghost use Rattle.abc_principal.specs.Principals.{IsWhole};

use crate::fitting::fit_members;
use crate::fresh::new_signatures;
use crate::known::Principals;
use crate::member::Member;
use crate::principal::Principal;
use crate::reading::principals;
use abc_demand::TargetVars;
use abc_unify::{Graph, UnifyFault};
use std::alloc::Global;

/// The principals of the members of one group, in their order. Clash comes exactly where no types of targets let them have
/// signatures.
pub fn group_principals(
    alloc: Global,
    members: &[Member<'_>],
    known: &Principals,
) -> Result<Vec<Principal>, UnifyFault>
    ensures ok { IfOk result (λ ps. (w : List Cut) → IsGroup w (cuts_of members.now) → KnowsCalls w (cuts_of members.now) known.now → ArePrincipals w (cuts_of members.now) ps.items) }
    ensures clash { result ≡ Err UnifyFault.Clash → (w : List Cut) → IsGroup w (cuts_of members.now) → KnowsCalls w (cuts_of members.now) known.now → MayNothing w (cuts_of members.now) }
    ensures whole { IfOk result (λ ps. All IsWhole ps.items) }
{
    let mut g = Graph::new(alloc);
    let owns = new_signatures(alloc, &mut g, members)?;
    let mut targets = TargetVars::new(alloc);
    fit_members(alloc, &mut g, &mut targets, members, &owns, known)?;
    let _count = g.count();
    let all = principals(alloc, &g, &targets, members, &owns)?;
    Ok(all)
}
