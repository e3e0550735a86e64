//! What is asked for the units of a workspace: that each may have some signature.
ghost use Rattle.std.specs.Prelude.{◌≡◌, [], ◌∷◌, ◌++◌, ℕ, List, Some, Err, IfOk, OnOk};
ghost use Rattle.abc_num.specs.declared.types.Ground.{Ground};
ghost use Rattle.abc_tree.specs.Ordered.{RiseBy};
ghost use Rattle.abc_ground.specs.Groups.{Cut, cut_of, template_of};
ghost use Rattle.abc_demand.specs.Typings.{TargetsMade};
ghost use Rattle.abc_principal.specs.Exact.{AreProper, cut_in, cuts_of};
ghost use Rattle.abc_check.specs.Standing.{KnowsUnits};
ghost use Rattle.abc_check.specs.inner.Asked.{HaveSome, SomeAsked};

use abc_demand::TargetVars;
use abc_num::Text;
use abc_principal::{Member, Principals};
use abc_unify::{Graph, UnifyFault};
use std::alloc::Global;

/// A graph, and the variables that targets have in it.
#[derive(Drop)]
pub struct Asked {
    pub graph: Graph,
    pub targets: TargetVars,
}

/// Asks that one unit more may have some signature.
fn ask_unit(
    alloc: Global,
    asked: &mut Asked,
    member: &Member<'_>,
    known: &Principals,
) -> Result<(), UnifyFault>
    requires { TargetsMade asked.old.graph.count asked.old.targets }
    ensures ok { OnOk result ((w cs : List Cut) → KnowsUnits known.now w → cut_of (template_of (cut_in member.now)) w ≡ Some (cut_in member.now) → SomeAsked w cs asked.old.graph.demands asked.old.targets → SomeAsked w (cs ++ cut_in member.now ∷ []) asked.new.graph.demands asked.new.targets) }
    ensures clash { result ≡ Err UnifyFault.Clash → (w cs : List Cut) → KnowsUnits known.now w → cut_of (template_of (cut_in member.now)) w ≡ Some (cut_in member.now) → SomeAsked w cs asked.old.graph.demands asked.old.targets → (targets : List ℕ → Ground) → AreProper targets → HaveSome w targets (cs ++ cut_in member.now ∷ []) → ⊥ }
    ensures made { OnOk result (TargetsMade asked.new.graph.count asked.new.targets) }
{
    let text = Text::from_vec(member.unit.template.text(alloc)?);
    match known.find(&text) {
        Some(principal) => {
            principal.instance(alloc, &mut asked.graph, &mut asked.targets)?;
            Ok(())
        }
        None => Ok(()),
    }
}

/// A graph that asks that each of these units may have some signature.
pub fn asked_units(
    alloc: Global,
    members: &[Member<'_>],
    known: &Principals,
) -> Result<Asked, UnifyFault>
    requires { RiseBy template_of (cuts_of members.now) }
    ensures ok { IfOk result (λ asked. KnowsUnits known.now (cuts_of members.now) → SomeAsked (cuts_of members.now) (cuts_of members.now) asked.graph.demands asked.targets) }
    ensures clash { result ≡ Err UnifyFault.Clash → KnowsUnits known.now (cuts_of members.now) → (targets : List ℕ → Ground) → AreProper targets → HaveSome (cuts_of members.now) targets (cuts_of members.now) → ⊥ }
    ensures made { IfOk result (λ asked. TargetsMade asked.graph.count asked.targets) }
{
    let mut asked = Asked {
        graph: Graph::new(alloc),
        targets: TargetVars::new(alloc),
    };
    for member in members {
        ask_unit(alloc, &mut asked, member, known)?;
    }
    Ok(asked)
}
