//! Which names are targets, which are bound, and which are refinements; the values of names.
ghost use Rattle.std.specs.Prelude.{◌≡◌, ℕ, Bool, List, Some, None, option_map, slice_set, true, IfOk, IfSome, OnOk};
ghost use Rattle.abc_value.specs.Tree.{Tree};
ghost use Rattle.abc_frames.specs.Maps.{Targets as Store, value_of, with_state, with_value, without};
ghost use Rattle.abc_num.specs.declared.lines.RawLine.{RawLine};
ghost use Rattle.abc_tree.specs.RegularItems.{AreFlags, numbers};
ghost use Rattle.abc_value.specs.declared.faults.RunFault.TheVariants.{NoValue};
ghost use Rattle.abc_meaning.specs.State.{State};
ghost use Rattle.abc_meaning.specs.Here.{in_command, in_unit, line_in, target_at, is_bound, refinement_at, refinement_named, look, assign, assign_in};
ghost use Rattle.abc_meaning.specs.Value.{there};
ghost use Rattle.abc_state.specs.Views.{at, scope_of, state_of};
ghost use Rattle.abc_state.specs.Agrees.{Agrees};

use crate::halt::Halt;
use crate::run::Run;
use crate::scope::{Routine, Scope};
use crate::values::copied;
use abc_frames::Targets;
use abc_num::{OutOfMemory, Text};
use abc_tree::{Command, NameId, Refinement, Unit};
use abc_value::{RunFault, Value};
use std::alloc::Global;

impl<'a> Scope<'a> {
    /// The names of an immediate command, none of which is shared. The command is gone through once.
    pub fn of_command(alloc: Global, command: &'a Command) -> Result<Scope<'a>, OutOfMemory>
        ensures { IfOk result (λ scope. scope_of scope ≡ in_command command.now) }
    {
        let bound = command.bound_names(alloc)?;
        let shared = flags(alloc, command.names.len(), &[])?;
        Ok(Scope {
            routine: Routine::Command(command),
            bound,
            shared,
        })
    }

    /// The names of a unit that is called. The unit is gone through once.
    pub fn of_unit(alloc: Global, unit: &'a Unit) -> Result<Scope<'a>, OutOfMemory>
        ensures { IfOk result (λ scope. scope_of scope ≡ in_unit unit.now) }
    {
        let bound = unit.bound_names(alloc)?;
        let shared = flags(alloc, unit.names.len(), unit.shared.as_slice())?;
        Ok(Scope {
            routine: Routine::Unit(unit),
            bound,
            shared,
        })
    }

    /// Whether FOR or a quantifier binds the name somewhere in the command or unit. A number that no name has is taken for want of
    /// memory.
    pub fn is_bound(&self, name: u32) -> Result<bool, OutOfMemory>
        ensures { IfOk result (λ b. b ≡ is_bound (scope_of self.now) name) }
    {
        match self.bound.get(name as usize) {
            Some(is_bound) => Ok(*is_bound),
            None => Err(OutOfMemory),
        }
    }

    /// The target that a name is, if it is one.
    pub fn target(&self, name: u32) -> Option<&'a Text>
        ensures { option_map (λ t. t.now) result ≡ target_at (scope_of self.now) name }
    {
        match self.routine {
            Routine::Command(command) => match self.bound.get(name as usize) {
                Some(false) => command.names.get(name),
                _ => None,
            },
            Routine::Unit(unit) => match self.shared.get(name as usize) {
                Some(true) => unit.names.get(name),
                _ => None,
            },
        }
    }

    /// The refinement that a name is, if it is one.
    pub fn refinement(&self, name: u32) -> Option<&'a Refinement>
        ensures { option_map (λ r. r.now) result ≡ refinement_at (scope_of self.now) name }
    {
        match self.routine {
            Routine::Command(_) => None,
            Routine::Unit(unit) => match unit.names.get(name) {
                Some(text) => unit.refinement(text),
                None => None,
            },
        }
    }

    /// The line at which faults are told of a node on a line: a unit tells them at the line of its caller.
    pub fn line_at(&self, line: u32, outer: u32) -> u32
        ensures { result ≡ line_in (scope_of self.now) line outer }
    {
        match self.routine {
            Routine::Command(_) => line,
            Routine::Unit(_) => outer,
        }
    }

    /// The refinement that is called by a command of this name, if there is one.
    pub fn command_refinement(&self, name: &Text) -> Option<&'a Refinement>
        ensures { option_map (λ r. r.now) result ≡ refinement_named (scope_of self.now) name.now }
    {
        match self.routine {
            Routine::Command(_) => None,
            Routine::Unit(unit) => unit.refinement(name),
        }
    }
}

/// A flag for each of so many names: whether it is one of these.
fn flags(alloc: Global, count: usize, ids: &[NameId]) -> Result<Vec<bool>, OutOfMemory>
    ensures { IfOk result (λ flags. AreFlags count (numbers ids.now) flags.items) }
{
    let mut flags = vec![in alloc; false; count]?;
    for id in ids {
        set_flag(&mut flags, *id);
    }
    Ok(flags)
}

/// Sets the flag of a name. A number that no name has is passed over.
fn set_flag(flags: &mut Vec<bool>, id: NameId)
    ensures { flags.new.items ≡ slice_set flags.old.items id.0 true }
{
    if let Some(flag) = flags.get_mut(id.0 as usize) {
        *flag = true;
    }
}

/// The value of a name, if it has one.
pub fn look<'a>(
    scope: &Scope<'_>,
    run: &'a Run,
    targets: &'a Targets,
    name: u32,
) -> Option<&'a Value>
    ensures { (lines : List RawLine) (ended : Bool) → option_map (λ v. v.now) result ≡ look (scope_of scope.now) name (state_of run.now targets.now lines ended) }
{
    match scope.target(name) {
        Some(target) => targets.look(target),
        None => run.names.look(name),
    }
}

/// The value of a name that is no refinement.
pub fn plain_value(
    scope: &Scope<'_>,
    run: &Run,
    targets: &Targets,
    name: u32,
) -> Result<Value, Halt>
    ensures { (lines : List RawLine) (ended : Bool) (line : ℕ) (s : State) → Agrees (λ v. v) line result s (there (at (scope_of scope.now) line) NoValue (look (scope_of scope.now) name (state_of run.now targets.now lines ended)) s) }
{
    match look(scope, run, targets, name) {
        Some(value) => Ok(copied(value)?),
        None => Err(Halt::Fault(RunFault::NoValue)),
    }
}

/// Gives a name this value, or takes its value away.
pub fn assign(
    scope: &Scope<'_>,
    run: &mut Run,
    targets: &mut Targets,
    name: u32,
    value: Option<Value>,
) -> Result<(), OutOfMemory>
    ensures state { (lines : List RawLine) (ended : Bool) → OnOk result (state_of run.new targets.new lines ended ≡ assign (scope_of scope.now) name value (state_of run.old targets.old lines ended)) }
    ensures left { run.new.left ≡ run.old.left }
{
    match scope.target(name) {
        Some(target) => assign_target(targets, target, value),
        None => assign_name(run, name, value),
    }
}

/// Gives a target this value, or takes its value away.
fn assign_target(
    targets: &mut Targets,
    target: &Text,
    value: Option<Value>,
) -> Result<(), OutOfMemory>
    ensures { OnOk result (targets.new ≡ with_state target.now value targets.old) }
{
    match value {
        Some(value) => targets.set(target.clone()?, value),
        None => {
            targets.drop_name(target)?;
            Ok(())
        }
    }
}

/// Gives a name of the call this value, or takes its value away.
fn assign_name(run: &mut Run, name: u32, value: Option<Value>) -> Result<(), OutOfMemory>
    ensures state { (targets : Store) (lines : List RawLine) (ended : Bool) → OnOk result (state_of run.new targets lines ended ≡ assign_in None name value (state_of run.old targets lines ended)) }
    ensures left { run.new.left ≡ run.old.left }
{
    match value {
        Some(value) => run.names.set(name, value),
        None => {
            let _old = run.names.take(name);
            Ok(())
        }
    }
}

/// Takes the value of a name away, and answers it. It can be given back, or another one in its place.
pub fn take(
    scope: &Scope<'_>,
    run: &mut Run,
    targets: &mut Targets,
    name: u32,
) -> Result<Option<Value>, OutOfMemory>
    ensures value { (lines : List RawLine) (ended : Bool) → IfOk result (λ o. o ≡ look (scope_of scope.now) name (state_of run.old targets.old lines ended)) }
    ensures state { (lines : List RawLine) (ended : Bool) → OnOk result (state_of run.new targets.new lines ended ≡ assign (scope_of scope.now) name None (state_of run.old targets.old lines ended)) }
    ensures again { (lines : List RawLine) (ended : Bool) (v : Tree) → OnOk result (assign (scope_of scope.now) name (Some v) (state_of run.new targets.new lines ended) ≡ assign (scope_of scope.now) name (Some v) (state_of run.old targets.old lines ended)) }
    ensures back { (lines : List RawLine) (ended : Bool) → IfOk result (λ o. IfSome o (λ v. assign (scope_of scope.now) name (Some v) (state_of run.old targets.old lines ended) ≡ state_of run.old targets.old lines ended)) }
    ensures none { (lines : List RawLine) (ended : Bool) → IfOk result (λ o. o ≡ None → state_of run.new targets.new lines ended ≡ state_of run.old targets.old lines ended) }
    ensures left { run.new.left ≡ run.old.left }
{
    match scope.target(name) {
        Some(target) => take_target(targets, target),
        None => Ok(run.names.take(name)),
    }
}

/// The same of a target.
fn take_target(targets: &mut Targets, target: &Text) -> Result<Option<Value>, OutOfMemory>
    ensures value { IfOk result (λ o. o ≡ value_of target.now targets.old) }
    ensures targets { OnOk result (targets.new ≡ without target.now targets.old) }
    ensures again { (v : Tree) → OnOk result (with_value target.now v targets.new ≡ with_value target.now v targets.old) }
    ensures back { IfOk result (λ o. IfSome o (λ v. with_value target.now v targets.old ≡ targets.old)) }
    ensures none { IfOk result (λ o. o ≡ None → targets.new ≡ targets.old) }
{
    // Its clause tells that the names stand in order.
    let _count = targets.len();
    targets.drop_name(target)
}
