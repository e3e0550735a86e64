//! Calls: the names that a unit begins with, and what is put back at its end.
ghost use Rattle.std.specs.Prelude.{◌≡◌, [], ℕ, Bool, List, Some, length, map, IfOk, OnOk};
ghost use Rattle.abc_num.specs.declared.lines.RawLine.{RawLine};
ghost use Rattle.abc_tree.specs.RegularItems.{formal_names, numbers};
ghost use Rattle.abc_frames.specs.Maps.{Targets as Store};
ghost use Rattle.abc_meaning.specs.State.{State};
ghost use Rattle.abc_meaning.specs.Here.{Here};
ghost use Rattle.abc_meaning.specs.PutBack.{entry, named, put_back, put_one};
ghost use Rattle.abc_meaning.specs.Bindings.{bindings};
ghost use Rattle.abc_acts.specs.inner.Binding.{Adds, bindings_all};
ghost use Rattle.abc_meaning.specs.Calls.{returned, reported, with_bindings};
ghost use Rattle.abc_state.specs.Views.{at, actual_of, flow_of, formal_of, scope_of, state_of};
ghost use Rattle.abc_state.specs.Agrees.{Agrees};
ghost use Rattle.abc_acts.specs.Words.{GivesNames, GivesEntry, entry_view, formal_frame, leaving_to};

use crate::binding::{Bindings, add_bindings};
use crate::changes::{delete_there, put};
use abc_frames::Targets;
use abc_num::{Items, OutOfMemory};
use abc_state::{Actual, CallNames, Exit, Formal, Halt, Run, Scope, copied};
use abc_tree::{Bound, NameId, Unit};
use abc_value::{RunFault, Value};
use std::alloc::Global;

/// What a call begins with, and what stands again at its end: the names of a call and its formals.
#[derive(Drop)]
pub struct Entry {
    pub names: CallNames,
    pub formals: Items<Formal>,
}

/// The names that a function or predicate begins with: its formals, where they match the actuals.
pub fn formal_names(alloc: Global, unit: &Unit, actuals: Vec<Value>) -> Result<CallNames, Halt>
    ensures { GivesNames result (formal_frame unit.now actuals.items) }
{
    let mut found = Vec::new(alloc);
    add_actuals(&mut found, unit.formals.as_slice(), actuals)?;
    Ok(names_of(alloc, found)?)
}

/// Adds the names of formals with what they are set to.
///
/// Errors: `Wrong` where the formals don't match the actuals; want of memory.
fn add_actuals(found: &mut Bindings, formals: &[Bound], actuals: Vec<Value>) -> Result<(), Halt>
    ensures { Adds result (bindings_all formals.now actuals.items) found.old.items found.new.items }
{
    if formals.len() != actuals.len() {
        return Err(Halt::Wrong);
    }
    let mut place = 0;
    for actual in actuals {
        add_actual(found, &formals[place], actual)?;
        place += 1;
    }
    Ok(())
}

/// Adds the names of a formal with what they are set to.
///
/// Errors: `Wrong` where the formal doesn't match the actual; want of memory.
fn add_actual(found: &mut Bindings, formal: &Bound, actual: Value) -> Result<(), Halt>
    ensures { Adds result (bindings formal.now actual) found.old.items found.new.items }
{
    match formal {
        Bound::One(name) => {
            found.push((name.0, actual))?;
            Ok(())
        }
        Bound::Several(_) => add_bindings(found, formal, &actual),
    }
}

/// The names with these values, of which a later one counts.
fn names_of(alloc: Global, all: Bindings) -> Result<CallNames, OutOfMemory>
    ensures { IfOk result (λ names. names ≡ with_bindings all.items []) }
{
    let mut names = CallNames::new(alloc);
    for (name, value) in all {
        names.set(name, value)?;
    }
    Ok(names)
}

/// What a command unit begins with: each formal with the value and the address of its actual, where they are equally many.
pub fn command_entry(alloc: Global, unit: &Unit, actuals: Vec<Actual>) -> Result<Entry, Halt>
    ensures { GivesEntry result (entry (formal_names unit.now) (map actual_of actuals.items)) }
{
    let ids = unit.formal_names(alloc)?;
    if ids.len() != actuals.len() {
        return Err(Halt::Wrong);
    }
    Ok(entry_of(alloc, &ids, actuals)?)
}

/// Each formal with its actual, from the last to the first.
fn entry_of(alloc: Global, ids: &[NameId], actuals: Vec<Actual>) -> Result<Entry, OutOfMemory>
    requires { length ids.now ≡ length actuals.items }
    ensures { IfOk result (λ e. entry (numbers ids.now) (map actual_of actuals.items) ≡ Some (entry_view e)) }
{
    let mut names = CallNames::new(alloc);
    let mut formals = Vec::new(alloc);
    let mut rest = actuals;
    'actuals: while let Some(actual) = rest.pop() {
        let Actual { value, address } = actual;
        let name = ids[rest.len()].0;
        set_if_any(&mut names, name, value)?;
        formals.push(Formal {
            name,
            address,
            changed: false,
        })?;
    }
    formals.reverse();
    Ok(Entry {
        names,
        formals: Items::from_vec(formals),
    })
}

/// Gives a name its value, if there is one.
fn set_if_any(names: &mut CallNames, name: u32, value: Option<Value>) -> Result<(), OutOfMemory>
    ensures { OnOk result (names.new ≡ named name value names.old) }
{
    match value {
        Some(value) => names.set(name, value),
        None => Ok(()),
    }
}

/// Names and formals are those of this call from now on. The answer is what they were.
pub fn enter(run: &mut Run, entry: Entry) -> Entry
    ensures state { (targets : Store) (lines : List RawLine) (ended : Bool) → state_of run.new targets lines ended ≡ record (state_of run.old targets lines ended) { names = entry.names; formals = map formal_of entry.formals } }
    ensures names { result.names ≡ run.old.names }
    ensures formals { result.formals ≡ run.old.formals }
    ensures left { run.new.left ≡ run.old.left }
{
    let Entry { names, formals } = entry;
    Entry {
        names: std::mem::replace(&mut run.names, names),
        formals: std::mem::replace(&mut run.formals, formals),
    }
}

/// The end of a call of a command unit: names and formals are those of its caller, and each formal that was changed is put back
/// to its address, from left to right. The scope is that of the caller.
pub fn leave(
    alloc: Global,
    scope: &Scope<'_>,
    run: &mut Run,
    targets: &mut Targets,
    caller: Entry,
) -> Result<(), Halt>
    ensures agrees { (line : ℕ) (lines : List RawLine) (ended : Bool) → Agrees (λ _. tt) line result (state_of run.new targets.new lines ended) (leaving_to (at (scope_of scope.now) line) caller.names (map formal_of caller.formals) (state_of run.old targets.old lines ended)) }
    ensures left { run.new.left ≡ run.old.left }
{
    let Entry { names, formals } = enter(run, caller);
    put_back(alloc, scope, run, targets, formals.as_slice(), &names)
}

/// Puts back each formal that was changed, from left to right.
fn put_back(
    alloc: Global,
    scope: &Scope<'_>,
    run: &mut Run,
    targets: &mut Targets,
    formals: &[Formal],
    names: &CallNames,
) -> Result<(), Halt>
    ensures agrees { (line : ℕ) (lines : List RawLine) (ended : Bool) → Agrees (λ _. tt) line result (state_of run.new targets.new lines ended) (put_back (at (scope_of scope.now) line) (map formal_of formals.now) names.now (state_of run.old targets.old lines ended)) }
    ensures left { run.new.left ≡ run.old.left }
{
    for formal in formals {
        put_one(alloc, scope, run, targets, formal, names)?;
    }
    Ok(())
}

/// Puts a formal back, if it was changed.
fn put_one(
    alloc: Global,
    scope: &Scope<'_>,
    run: &mut Run,
    targets: &mut Targets,
    formal: &Formal,
    names: &CallNames,
) -> Result<(), Halt>
    ensures agrees { (line : ℕ) (lines : List RawLine) (ended : Bool) → Agrees (λ _. tt) line result (state_of run.new targets.new lines ended) (put_one (at (scope_of scope.now) line) names.now (formal_of formal.now) (state_of run.old targets.old lines ended)) }
    ensures left { run.new.left ≡ run.old.left }
{
    if !formal.changed {
        return Ok(());
    }
    let Some(spot) = &formal.address else {
        return Ok(());
    };
    match names.look(formal.name) {
        Some(value) => put(alloc, scope, run, targets, spot, copied(value)?),
        None => delete_there(alloc, scope, run, targets, spot),
    }
}

/// The value that a body was left with.
pub fn returned(exit: Exit) -> Result<Value, Halt>
    ensures { (here : Here) (s : State) → Agrees (λ v. v) here.line result s (returned here (flow_of exit) s) }
{
    match exit {
        Exit::Returns(value) => Ok(value),
        Exit::GoesOn => Err(Halt::Fault(RunFault::NoReturn)),
        Exit::Quits => Err(Halt::Fault(RunFault::NoReturn)),
        Exit::Reports(_) => Err(Halt::Fault(RunFault::NoReturn)),
    }
}

/// The truth value that a body was left with.
pub fn reported(exit: Exit) -> Result<bool, Halt>
    ensures { (here : Here) (s : State) → Agrees (λ b. b) here.line result s (reported here (flow_of exit) s) }
{
    match exit {
        Exit::Reports(truth) => Ok(truth),
        Exit::GoesOn => Err(Halt::Fault(RunFault::NoReturn)),
        Exit::Quits => Err(Halt::Fault(RunFault::NoReturn)),
        Exit::Returns(_) => Err(Halt::Fault(RunFault::NoReturn)),
    }
}
