//! What a command asks beside the workspace.
ghost use Rattle.std.specs.Prelude.{◌≡◌, ◌++◌, ℕ, List, Err, OnOk};
ghost use Rattle.std.specs.List.{All};
ghost use Rattle.abc_terms.specs.declared.term.VarId.{VarId as TheVar};
ghost use Rattle.abc_tree.specs.Calls.{command_nodes as nodes_of};
ghost use Rattle.abc_unify.specs.Graphs.{HasSolution};
ghost use Rattle.abc_ground.specs.Groups.{Cut};
ghost use Rattle.abc_ground.specs.Typable.{Values, IsTypableWith};
ghost use Rattle.abc_scheme.specs.Later.{IsLater};
ghost use Rattle.abc_demand.specs.Typings.{CallMade, TargetsMade};
ghost use Rattle.abc_demand.specs.Demanded.{IsDemanded, IsRefused, AreGiven};
ghost use Rattle.abc_check.specs.Standing.{AreSpelled, KnowsUnits, AreAsked};
ghost use Rattle.abc_check.specs.inner.Asked.{CommandAt};

use abc_calls::command_nodes;
use abc_demand::{Env, Signature, TargetVars, demand_command};
use abc_num::Items;
use abc_principal::{Principals, call_signatures};
use abc_tree::Command;
use abc_unify::{Graph, UnifyFault};
use std::alloc::Global;
use std::mem::replace;

/// Adds that a command fits on its lines up to `upto`, its calls at signatures of these variables.
fn demand(
    alloc: Global,
    graph: &mut Graph,
    targets: &mut TargetVars,
    calls: Vec<Option<Signature>>,
    command: &Command,
    upto: u32,
) -> Result<(), UnifyFault>
    requires targets { TargetsMade graph.old.count targets.old }
    requires calls { All (CallMade graph.old.count) calls.items }
    ensures ok { OnOk result (IsDemanded graph.old graph.new targets.old targets.new (CommandAt calls.items command.now upto)) }
    ensures given { OnOk result (AreGiven graph.old.count graph.new.count targets.old targets.new) }
    ensures clash { result ≡ Err UnifyFault.Clash → IsRefused graph.old targets.old (CommandAt calls.items command.now upto) }
    ensures later { IsLater graph.old graph.new }
    ensures behind { (added : List (List ℕ × TheVar)) × (targets.new ≡ targets.old ++ added) }
    ensures solvable { HasSolution graph.new.demands }
{
    let mut env = Env {
        targets: replace(targets, TargetVars::new(alloc)),
        own: None,
        calls: Items::from_vec(calls),
    };
    let answer = demand_command(alloc, graph, &mut env, command, upto);
    let _count = graph.count();
    let Env {
        targets: after,
        own: _,
        calls: _calls,
    } = env;
    *targets = after;
    answer
}

/// Adds what a command asks on its lines up to `upto`, each call at a signature that its unit may have. After any answer the
/// graph and the targets may have more, and can go back.
pub fn ask(
    alloc: Global,
    graph: &mut Graph,
    targets: &mut TargetVars,
    known: &Principals,
    command: &Command,
    upto: u32,
) -> Result<(), UnifyFault>
    requires { TargetsMade graph.old.count targets.old }
    ensures ok { OnOk result ((values : Values) (w : List Cut) → KnowsUnits known.now w → AreSpelled w (nodes_of upto command.now) → AreAsked graph.old.demands targets.old values w → IsTypableWith values w command.now upto) }
    ensures clash { result ≡ Err UnifyFault.Clash → (values : Values) (w : List Cut) → KnowsUnits known.now w → AreSpelled w (nodes_of upto command.now) → AreAsked graph.old.demands targets.old values w → IsTypableWith values w command.now upto → ⊥ }
    ensures later { IsLater graph.old graph.new }
    ensures behind { (added : List (List ℕ × TheVar)) × (targets.new ≡ targets.old ++ added) }
{
    let templates = command_nodes(alloc, command, upto)?;
    let calls = call_signatures(alloc, graph, targets, &[], &[], known, &templates)?;
    demand(alloc, graph, targets, calls, command, upto)
}
