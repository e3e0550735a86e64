//! What is asked so that the members of a group fit together.
ghost use Rattle.std.specs.Prelude.{◌≡◌, ◌<◌, length, Err, OnOk};
ghost use Rattle.std.specs.List.{All};
ghost use Rattle.abc_demand.specs.Typings.{SignatureMade, CallMade, TargetsMade};
ghost use Rattle.abc_demand.specs.Demanded.{IsRefused};
ghost use Rattle.abc_principal.specs.Exact.{cut_in, cuts_of};
ghost use Rattle.abc_principal.specs.inner.Grouped.{AreFitted, NoneFits, IsAsked, FitsWith, take_one};

use crate::calling::{call_signatures, copy_of};
use crate::known::Principals;
use crate::member::Member;
use abc_calls::unit_nodes;
use abc_demand::{CallSignatures, Env, Signature, TargetVars, demand_unit};
use abc_num::Items;
use abc_unify::{Graph, UnifyFault};
use std::alloc::Global;
use std::mem::replace;

/// Asks that a unit fits at its own signature and those of its calls.
fn ask(
    alloc: Global,
    g: &mut Graph,
    targets: &mut TargetVars,
    member: &Member<'_>,
    own: Signature,
    calls: CallSignatures,
) -> Result<(), UnifyFault>
    requires targets { TargetsMade g.old.count targets.old }
    requires own { SignatureMade g.old.count own }
    requires calls { All (CallMade g.old.count) calls }
    ensures ok { OnOk result (IsAsked g.old g.new targets.old targets.new (cut_in member.now) own calls) }
    ensures clash { result ≡ Err UnifyFault.Clash → IsRefused g.old targets.old (FitsWith (cut_in member.now) own calls) }
{
    let mut env = Env {
        targets: replace(targets, TargetVars::new(alloc)),
        own: Some(own),
        calls,
    };
    let answer = demand_unit(alloc, g, &mut env, member.unit, member.lines);
    let Env {
        targets: after,
        own: _own,
        calls: _calls,
    } = env;
    *targets = after;
    answer
}

/// Asks that the member at this place fits.
fn fit_member(
    alloc: Global,
    g: &mut Graph,
    targets: &mut TargetVars,
    members: &[Member<'_>],
    owns: &[Signature],
    known: &Principals,
    i: usize,
) -> Result<(), UnifyFault>
    requires targets { TargetsMade g.old.count targets.old }
    requires owns { All (SignatureMade g.old.count) owns.now }
    requires same { length owns.now ≡ length members.now }
    requires here { i < length members.now }
    ensures ok { OnOk result (AreFitted (cuts_of members.now) known.now owns.now g.old g.new targets.old targets.new (take_one i (cuts_of members.now)) (take_one i owns.now)) }
    ensures clash { result ≡ Err UnifyFault.Clash → NoneFits (cuts_of members.now) known.now owns.now g.old targets.old (take_one i (cuts_of members.now)) (take_one i owns.now) }
{
    let member = &members[i];
    let nodes = unit_nodes(alloc, member.unit, member.lines)?;
    let own = copy_of(alloc, &owns[i])?;
    let calls = call_signatures(alloc, g, targets, members, owns, known, &nodes)?;
    ask(alloc, g, targets, member, own, Items::from_vec(calls))
}

/// Asks that all members fit.
pub fn fit_members(
    alloc: Global,
    g: &mut Graph,
    targets: &mut TargetVars,
    members: &[Member<'_>],
    owns: &[Signature],
    known: &Principals,
) -> Result<(), UnifyFault>
    requires targets { TargetsMade g.old.count targets.old }
    requires owns { All (SignatureMade g.old.count) owns.now }
    requires same { length owns.now ≡ length members.now }
    ensures ok { OnOk result (AreFitted (cuts_of members.now) known.now owns.now g.old g.new targets.old targets.new (cuts_of members.now) owns.now) }
    ensures clash { result ≡ Err UnifyFault.Clash → NoneFits (cuts_of members.now) known.now owns.now g.old targets.old (cuts_of members.now) owns.now }
{
    for i in 0..members.len() {
        fit_member(alloc, g, targets, members, owns, known, i)?;
    }
    Ok(())
}
