//! Principals that are read from a graph.
ghost use Rattle.std.specs.Prelude.{◌≡◌, ◌++◌, length, map, IfOk, OnOk, IsSome};
ghost use Rattle.std.specs.List.{All};
ghost use Rattle.abc_demand.specs.Typings.{var_of, SignatureMade, TargetsMade};
ghost use Rattle.abc_principal.specs.Exact.{cut_in, cuts_of};
ghost use Rattle.abc_principal.specs.Principals.{variables};
ghost use Rattle.abc_principal.specs.inner.Grouped.{AreVarsOf, IsRead, AreRead};

use crate::member::Member;
use crate::principal::Principal;
use abc_demand::{Signature, TargetVars};
use abc_num::{Items, OutOfMemory, Text};
use abc_scheme::Scheme;
use abc_terms::VarId;
use abc_unify::Graph;
use std::alloc::Global;

/// The names of all targets.
fn names_of(alloc: Global, targets: &TargetVars) -> Result<Vec<Text>, OutOfMemory>
    ensures { IfOk result (λ names. names.items ≡ map (λ p. p.0) targets.now) }
{
    let mut names = Vec::new(alloc);
    for i in 0..targets.len() {
        let Some(name) = targets.name(i) else {
            unreachable!()
        };
        let copy = Text::of(alloc, name.bytes())?;
        names.push(copy)?;
    }
    Ok(names)
}

/// The variables of these targets.
fn vars_of(alloc: Global, targets: &TargetVars, names: &[Text]) -> Result<Vec<VarId>, OutOfMemory>
    requires { All (λ name. IsSome (var_of targets.now name)) names.now }
    ensures { IfOk result (λ vars. AreVarsOf targets.now names.now vars.items) }
{
    let mut vars = Vec::new(alloc);
    for i in 0..names.len() {
        let Some(a) = targets.find(&names[i]) else {
            unreachable!()
        };
        vars.push(a)?;
    }
    Ok(vars)
}

/// Adds the variables of a signature.
fn add_signature(vars: &mut Vec<VarId>, s: &Signature) -> Result<(), OutOfMemory>
    ensures { OnOk result (vars.new.items ≡ vars.old.items ++ variables s.now) }
{
    vars.extend_from_slice(s.formals.as_slice())?;
    match s.result {
        Some(a) => {
            vars.push(a)?;
            Ok(())
        }
        None => Ok(()),
    }
}

/// What a solved graph leaves to the signature of a member, by the types of all targets.
fn principal(
    alloc: Global,
    g: &Graph,
    targets: &TargetVars,
    member: &Member<'_>,
    own: &Signature,
) -> Result<Principal, OutOfMemory>
    requires targets { TargetsMade g.now.count targets.now }
    requires own { SignatureMade g.now.count own.now }
    ensures { IfOk result (λ p. IsRead g.now targets.now (cut_in member.now) own.now p) }
{
    let names = names_of(alloc, targets)?;
    let mut wanted = vars_of(alloc, targets, &names)?;
    add_signature(&mut wanted, own)?;
    let scheme = Scheme::of(alloc, g, &wanted)?;
    let template = member.unit.template.copy(alloc)?;
    Ok(Principal {
        template,
        targets: Items::from_vec(names),
        formals: own.formals.len(),
        gives: own.result.is_some(),
        scheme,
    })
}

/// The same of all members.
pub fn principals(
    alloc: Global,
    g: &Graph,
    targets: &TargetVars,
    members: &[Member<'_>],
    owns: &[Signature],
) -> Result<Vec<Principal>, OutOfMemory>
    requires targets { TargetsMade g.now.count targets.now }
    requires owns { All (SignatureMade g.now.count) owns.now }
    requires same { length owns.now ≡ length members.now }
    ensures { IfOk result (λ ps. AreRead g.now targets.now (cuts_of members.now) owns.now ps.items) }
{
    let mut all = Vec::new(alloc);
    for i in 0..members.len() {
        let one = principal(alloc, g, targets, &members[i], &owns[i])?;
        all.push(one)?;
    }
    Ok(all)
}
