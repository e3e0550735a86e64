//! Variables for the signatures of members.
ghost use Rattle.std.specs.Prelude.{◌≡◌, ◌∷◌, [], length, IfOk, is_some};
ghost use Rattle.abc_principal.specs.Exact.{cut_in, cuts_of};
ghost use Rattle.abc_principal.specs.Principals.{if_any};
ghost use Rattle.abc_principal.specs.inner.Grouped.{gives_result, AreFresh, AreSignatures};

use crate::member::Member;
use abc_demand::Signature;
use abc_num::{Items, OutOfMemory};
use abc_terms::VarId;
use abc_tree::TemplateKind;
use abc_unify::Graph;
use std::alloc::Global;

/// So many new variables.
fn fresh_vars(alloc: Global, g: &mut Graph, count: usize) -> Result<Vec<VarId>, OutOfMemory>
    ensures fresh { IfOk result (λ vars. AreFresh g.old g.new vars.items) }
    ensures count { IfOk result (λ vars. length vars.items ≡ count) }
{
    let mut vars = Vec::new(alloc);
    for _ in 0..count {
        let a = g.fresh()?;
        vars.push(a)?;
    }
    Ok(vars)
}

/// A new variable for the result of a function.
fn fresh_result(g: &mut Graph, kind: TemplateKind) -> Result<Option<VarId>, OutOfMemory>
    ensures fresh { IfOk result (λ a. AreFresh g.old g.new (if_any a)) }
    ensures gives { IfOk result (λ a. is_some a ≡ gives_result kind) }
{
    match kind {
        TemplateKind::Function => {
            let a = g.fresh()?;
            Ok(Some(a))
        }
        TemplateKind::Command => Ok(None),
        TemplateKind::Predicate => Ok(None),
    }
}

/// New variables for the signature of a member.
fn new_signature(
    alloc: Global,
    g: &mut Graph,
    member: &Member<'_>,
) -> Result<Signature, OutOfMemory>
    ensures { IfOk result (λ s. AreSignatures g.old g.new (cut_in member.now ∷ []) (s ∷ [])) }
{
    let formals = fresh_vars(alloc, g, member.unit.formals.len())?;
    let result = fresh_result(g, member.unit.template.kind)?;
    Ok(Signature {
        formals: Items::from_vec(formals),
        result,
    })
}

/// New variables for the signatures of all members.
pub fn new_signatures(
    alloc: Global,
    g: &mut Graph,
    members: &[Member<'_>],
) -> Result<Vec<Signature>, OutOfMemory>
    ensures { IfOk result (λ owns. AreSignatures g.old g.new (cuts_of members.now) owns.items) }
{
    let mut owns = Vec::new(alloc);
    for i in 0..members.len() {
        let own = new_signature(alloc, g, &members[i])?;
        owns.push(own)?;
    }
    Ok(owns)
}
