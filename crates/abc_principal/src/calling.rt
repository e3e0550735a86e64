//! The signatures of calls.
ghost use Rattle.std.specs.Prelude.{◌≡◌, ◌∷◌, ◌++◌, [], ℕ, List, length, Err, IfOk, option_map};
ghost use Rattle.std.specs.List.{All};
ghost use Rattle.abc_terms.specs.declared.term.VarId.{VarId as TheVar};
ghost use Rattle.abc_scheme.specs.Later.{IsLater};
ghost use Rattle.abc_demand.specs.Typings.{SignatureMade, TargetsMade};
ghost use Rattle.abc_principal.specs.Exact.{cuts_of};
ghost use Rattle.abc_principal.specs.Calls.{own_of, AreCalls, NoCalls};

use crate::known::Principals;
use crate::member::Member;
use abc_demand::{Signature, TargetVars};
use abc_num::{Items, OutOfMemory, Text};
use abc_tree::Template;
use abc_unify::{Graph, UnifyFault};
use std::alloc::Global;

/// The signature of the member with this template, if there is one.
fn own_signature<'a>(
    members: &[Member<'_>],
    owns: &'a [Signature],
    t: &Template,
) -> Option<&'a Signature>
    requires { length owns.now ≡ length members.now }
    ensures { option_map (λ s. s.now) result ≡ own_of t.now (cuts_of members.now) owns.now }
{
    for i in 0..members.len() {
        if members[i].is(t) {
            return Some(&owns[i]);
        }
    }
    None
}

/// The same variables.
pub fn copy_of(alloc: Global, s: &Signature) -> Result<Signature, OutOfMemory>
    ensures { IfOk result (λ copy. copy ≡ s.now) }
{
    let formals = Vec::from_slice(alloc, s.formals.as_slice())?;
    Ok(Signature {
        formals: Items::from_vec(formals),
        result: s.result,
    })
}

/// The signature of a unit that is known, which is asked to be one that the unit may have.
fn known_signature(
    alloc: Global,
    g: &mut Graph,
    targets: &mut TargetVars,
    known: &Principals,
    t: &Template,
) -> Result<Option<Signature>, UnifyFault>
    requires targets { TargetsMade g.old.count targets.old }
    ensures ok { IfOk result (λ call. AreCalls [] known.now [] g.old g.new targets.old targets.new (t.now ∷ []) (call ∷ [])) }
    ensures clash { result ≡ Err UnifyFault.Clash → NoCalls [] known.now [] g.old targets.old (t.now ∷ []) }
    ensures behind { (added : List (List ℕ × TheVar)) × (targets.new ≡ targets.old ++ added) }
    ensures later { IsLater g.old g.new }
{
    let text = Text::from_vec(t.text(alloc)?);
    match known.find(&text) {
        Some(principal) => {
            let signature = principal.instance(alloc, g, targets)?;
            Ok(Some(signature))
        }
        None => Ok(None),
    }
}

/// The signature of one call.
fn call_signature(
    alloc: Global,
    g: &mut Graph,
    targets: &mut TargetVars,
    members: &[Member<'_>],
    owns: &[Signature],
    known: &Principals,
    t: &Template,
) -> Result<Option<Signature>, UnifyFault>
    requires targets { TargetsMade g.old.count targets.old }
    requires owns { All (SignatureMade g.old.count) owns.now }
    requires same { length owns.now ≡ length members.now }
    ensures ok { IfOk result (λ call. AreCalls (cuts_of members.now) known.now owns.now g.old g.new targets.old targets.new (t.now ∷ []) (call ∷ [])) }
    ensures clash { result ≡ Err UnifyFault.Clash → NoCalls (cuts_of members.now) known.now owns.now g.old targets.old (t.now ∷ []) }
    ensures behind { (added : List (List ℕ × TheVar)) × (targets.new ≡ targets.old ++ added) }
    ensures later { IsLater g.old g.new }
{
    match own_signature(members, owns, t) {
        Some(own) => {
            let copy = copy_of(alloc, own)?;
            Ok(Some(copy))
        }
        None => known_signature(alloc, g, targets, known, t),
    }
}

/// The signatures of calls of these templates, one for each. A call of a member has the member's own, that of another unit
/// an instance of its principal, and that of a unit of which nothing is known none. After a fault the graph and the
/// variables of targets may have more.
pub fn call_signatures(
    alloc: Global,
    g: &mut Graph,
    targets: &mut TargetVars,
    members: &[Member<'_>],
    owns: &[Signature],
    known: &Principals,
    templates: &[Template],
) -> Result<Vec<Option<Signature>>, UnifyFault>
    requires targets { TargetsMade g.old.count targets.old }
    requires owns { All (SignatureMade g.old.count) owns.now }
    requires same { length owns.now ≡ length members.now }
    ensures ok { IfOk result (λ calls. AreCalls (cuts_of members.now) known.now owns.now g.old g.new targets.old targets.new templates.now calls.items) }
    ensures clash { result ≡ Err UnifyFault.Clash → NoCalls (cuts_of members.now) known.now owns.now g.old targets.old templates.now }
    ensures behind { (added : List (List ℕ × TheVar)) × (targets.new ≡ targets.old ++ added) }
    ensures later { IsLater g.old g.new }
{
    let mut calls = Vec::new(alloc);
    for i in 0..templates.len() {
        let call = call_signature(alloc, g, targets, members, owns, known, &templates[i])?;
        calls.push(call)?;
    }
    Ok(calls)
}
