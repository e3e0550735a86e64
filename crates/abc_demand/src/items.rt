//! The demands of a unit and of a command, added to a graph.
ghost use Rattle.std.specs.Prelude.{◌≡◌, ◌≤◌, ◌++◌, ℕ, List, map, not, slice_set, true, Err, IfOk, OnOk, OnErr};
ghost use Rattle.abc_terms.specs.declared.term.VarId.{VarId as TheVar};
ghost use Rattle.abc_tree.specs.RegularItems.{AreFlags};
ghost use Rattle.abc_demand.specs.Typings.{EnvMade, result_var};
ghost use Rattle.abc_demand.specs.Demanded.{UnitTyped, CommandTyped, IsDemanded, IsRefused, AreGiven};
ghost use Rattle.abc_demand.specs.Later.{IsLater};
ghost use Rattle.abc_demand.specs.inner.Wholes.{UnitAsked, CommandAsked};

use crate::adding::add;
use crate::draft::Draft;
use crate::scope::Scope;
use crate::{Env, Signature};
use abc_num::{Items, OutOfMemory};
use abc_terms::VarId;
use abc_tree::{Command, NameId, Unit};
use abc_unify::{Graph, UnifyFault};
use std::alloc::Global;
use std::mem::replace;

/// Adds what the nodes of a unit on its lines up to `upto` ask, at its own signature and those of its calls: types meet the
/// demands exactly where they met the old ones and the unit fits with some types of its names. A target that has no variable
/// gets one. Clash comes exactly where nothing fits; after a fault the graph and the variables are as before.
pub fn demand_unit(
    alloc: Global,
    g: &mut Graph,
    env: &mut Env,
    unit: &Unit,
    upto: u32,
) -> Result<(), UnifyFault>
    requires { EnvMade g.old.count env.old }
    ensures ok { OnOk result (IsDemanded g.old g.new env.old.targets env.new.targets (UnitTyped env.old unit.now upto)) }
    ensures clash { result ≡ Err UnifyFault.Clash → IsRefused g.old env.old.targets (UnitTyped env.old unit.now upto) }
    ensures given { OnOk result (AreGiven g.old.count g.new.count env.old.targets env.new.targets) }
    ensures grows { OnOk result (g.old.count ≤ g.new.count) }
    ensures later { IsLater g.old g.new }
    ensures own { env.new.own ≡ env.old.own }
    ensures calls { env.new.calls ≡ env.old.calls }
    ensures graph { OnErr result (g.new ≡ g.old) }
    ensures targets { OnErr result (env.new.targets ≡ env.old.targets) }
{
    let count = env.targets.len();
    match add_unit(alloc, g, env, unit, upto) {
        Ok(()) => Ok(()),
        Err(fault) => {
            env.targets.truncate(count);
            Err(fault)
        }
    }
}

/// The same of a command, of which each name that neither FOR nor a quantifier binds is a target.
pub fn demand_command(
    alloc: Global,
    g: &mut Graph,
    env: &mut Env,
    command: &Command,
    upto: u32,
) -> Result<(), UnifyFault>
    requires { EnvMade g.old.count env.old }
    ensures ok { OnOk result (IsDemanded g.old g.new env.old.targets env.new.targets (CommandTyped env.old command.now upto)) }
    ensures clash { result ≡ Err UnifyFault.Clash → IsRefused g.old env.old.targets (CommandTyped env.old command.now upto) }
    ensures given { OnOk result (AreGiven g.old.count g.new.count env.old.targets env.new.targets) }
    ensures grows { OnOk result (g.old.count ≤ g.new.count) }
    ensures later { IsLater g.old g.new }
    ensures own { env.new.own ≡ env.old.own }
    ensures calls { env.new.calls ≡ env.old.calls }
    ensures graph { OnErr result (g.new ≡ g.old) }
    ensures targets { OnErr result (env.new.targets ≡ env.old.targets) }
{
    let count = env.targets.len();
    match add_command(alloc, g, env, command, upto) {
        Ok(()) => Ok(()),
        Err(fault) => {
            env.targets.truncate(count);
            Err(fault)
        }
    }
}

/// The same, where after a fault new targets may stand behind the others.
fn add_unit(
    alloc: Global,
    g: &mut Graph,
    env: &mut Env,
    unit: &Unit,
    upto: u32,
) -> Result<(), UnifyFault>
    requires { EnvMade g.old.count env.old }
    ensures ok { OnOk result (IsDemanded g.old g.new env.old.targets env.new.targets (UnitTyped env.old unit.now upto)) }
    ensures clash { result ≡ Err UnifyFault.Clash → IsRefused g.old env.old.targets (UnitTyped env.old unit.now upto) }
    ensures given { OnOk result (AreGiven g.old.count g.new.count env.old.targets env.new.targets) }
    ensures grows { OnOk result (g.old.count ≤ g.new.count) }
    ensures later { IsLater g.old g.new }
    ensures own { env.new.own ≡ env.old.own }
    ensures calls { env.new.calls ≡ env.old.calls }
    ensures graph { OnErr result (g.new ≡ g.old) }
    ensures behind { (added : List (List ℕ × TheVar)) × (env.new.targets ≡ env.old.targets ++ added) }
{
    let mut draft = Draft::new(alloc, g.count());
    draft.add_unit(env, unit, upto)?;
    let collected = draft.finish();
    add(g, collected.made, collected.demands)
}

fn add_command(
    alloc: Global,
    g: &mut Graph,
    env: &mut Env,
    command: &Command,
    upto: u32,
) -> Result<(), UnifyFault>
    requires { EnvMade g.old.count env.old }
    ensures ok { OnOk result (IsDemanded g.old g.new env.old.targets env.new.targets (CommandTyped env.old command.now upto)) }
    ensures clash { result ≡ Err UnifyFault.Clash → IsRefused g.old env.old.targets (CommandTyped env.old command.now upto) }
    ensures given { OnOk result (AreGiven g.old.count g.new.count env.old.targets env.new.targets) }
    ensures grows { OnOk result (g.old.count ≤ g.new.count) }
    ensures later { IsLater g.old g.new }
    ensures own { env.new.own ≡ env.old.own }
    ensures calls { env.new.calls ≡ env.old.calls }
    ensures graph { OnErr result (g.new ≡ g.old) }
    ensures behind { (added : List (List ℕ × TheVar)) × (env.new.targets ≡ env.old.targets ++ added) }
{
    let mut draft = Draft::new(alloc, g.count());
    draft.add_command(env, command, upto)?;
    let collected = draft.finish();
    add(g, collected.made, collected.demands)
}

impl Draft {
    /// Variables for the names of a unit, and what its nodes ask.
    fn add_unit(&mut self, env: &mut Env, unit: &Unit, upto: u32) -> Result<(), OutOfMemory>
        requires made { EnvMade self.old.count env.old }
        requires begun { self.old.calls ≡ 0 }
        ensures asked { OnOk result (UnitAsked self.old self.new env.old env.new.targets unit.now upto) }
        ensures own { env.new.own ≡ env.old.own }
        ensures calls { env.new.calls ≡ env.old.calls }
        ensures behind { (added : List (List ℕ × TheVar)) × (env.new.targets ≡ env.old.targets ++ added) }
    {
        let flags = flags_of(self.alloc, unit.names.len(), unit.shared.as_slice())?;
        let names = self.names(&mut env.targets, &unit.names, &flags)?;
        let scope = Scope {
            names: Items::from_vec(names),
            result: result_of(&env.own),
            calls: replace(&mut env.calls, Items::new(self.alloc)),
        };
        let answer = self.unit(&scope, &env.own, unit, upto);
        let Scope {
            names: _names,
            result: _,
            calls,
        } = scope;
        env.calls = calls;
        answer
    }

    /// The same of a command.
    fn add_command(
        &mut self,
        env: &mut Env,
        command: &Command,
        upto: u32,
    ) -> Result<(), OutOfMemory>
        requires made { EnvMade self.old.count env.old }
        requires begun { self.old.calls ≡ 0 }
        ensures asked { OnOk result (CommandAsked self.old self.new env.old env.new.targets command.now upto) }
        ensures own { env.new.own ≡ env.old.own }
        ensures calls { env.new.calls ≡ env.old.calls }
        ensures behind { (added : List (List ℕ × TheVar)) × (env.new.targets ≡ env.old.targets ++ added) }
    {
        let bound = command.bound_names(self.alloc)?;
        let flags = others(self.alloc, &bound)?;
        let names = self.names(&mut env.targets, &command.names, &flags)?;
        let scope = Scope {
            names: Items::from_vec(names),
            result: None,
            calls: replace(&mut env.calls, Items::new(self.alloc)),
        };
        let answer = self.command(&scope, command, upto);
        let Scope {
            names: _names,
            result: _,
            calls,
        } = scope;
        env.calls = calls;
        answer
    }
}

/// The variable of the result of a signature.
fn result_of(own: &Option<Signature>) -> Option<VarId>
    ensures { result ≡ result_var own.now }
{
    match own {
        Some(signature) => signature.result,
        None => None,
    }
}

/// One flag for each of so many names: whether its number is among these.
fn flags_of(alloc: Global, count: usize, numbers: &[NameId]) -> Result<Vec<bool>, OutOfMemory>
    ensures { IfOk result (λ flags. AreFlags count (map (λ i. i.0) numbers.now) flags.items) }
{
    let mut flags = vec![in alloc; false; count]?;
    for i in numbers {
        mark(&mut flags, *i);
    }
    Ok(flags)
}

/// Sets the flag of a name. A number that no name has is passed over.
fn mark(flags: &mut Vec<bool>, i: NameId)
    ensures { flags.new.items ≡ slice_set flags.old.items i.0 true }
{
    if let Some(flag) = flags.get_mut(i.0 as usize) {
        *flag = true;
    }
}

/// The other flags.
fn others(alloc: Global, flags: &[bool]) -> Result<Vec<bool>, OutOfMemory>
    ensures { IfOk result (λ other. other.items ≡ map not flags.now) }
{
    let mut other = Vec::new(alloc);
    for flag in flags {
        other.push(!*flag)?;
    }
    Ok(other)
}
