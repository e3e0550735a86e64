//! Changes of what has an address: a value is put there, an element is inserted or removed, or it is deleted.
ghost use Rattle.std.specs.Prelude.{◌≡◌, ℕ, Bool, List, Some, None, map, option_map, is_some, IfOk, IfSome};
ghost use Rattle.std.specs.List.{list_all};
ghost use Rattle.abc_num.specs.declared.lines.RawLine.{RawLine};
ghost use Rattle.abc_meaning.specs.State.{row};
ghost use Rattle.abc_meaning.specs.Here.{Scope as Names, look, assign};
ghost use Rattle.abc_frames.specs.Maps.{Targets as Store};
ghost use Rattle.abc_meaning.specs.Changing.{inserts, removes, parts, parts_all, put, delete, change, change_list, formal_named, mark};
ghost use Rattle.abc_meaning.specs.PutBack.{along, has_value, mark_all, put_at};
ghost use Rattle.abc_state.specs.Views.{at, address_of, formal_of, step_of, scope_of, state_of};
ghost use Rattle.abc_state.specs.Agrees.{Agrees};
ghost use Rattle.abc_acts.specs.inner.Changing.{change_of, assigned_at, NeedsOld, IsFirstOf, IsMarked};

use crate::changing::{Change, Fate, change_in};
use crate::fields::put_fields;
use abc_frames::Targets;
use abc_num::{Items, OutOfMemory};
use abc_state::{Formal, Halt, Run, Scope, Spot, Step, assign, fits_key, look, take};
use abc_value::{RunFault, Value};
use std::alloc::Global;

/// Puts a value at an address, the fields of a compound from left to right, if the address and the value match.
pub fn put(
    alloc: Global,
    scope: &Scope<'_>,
    run: &mut Run,
    targets: &mut Targets,
    spot: &Spot,
    value: Value,
) -> Result<(), Halt>
    ensures agrees { (line : ℕ) (lines : List RawLine) (ended : Bool) → Agrees (λ _. tt) line result (state_of run.new targets.new lines ended) (put (at (scope_of scope.now) line) (address_of spot.now) value (state_of run.old targets.old lines ended)) }
    ensures left { run.new.left ≡ run.old.left }
{
    match spot {
        Spot::Place(name, steps) => change(
            alloc,
            scope,
            run,
            targets,
            *name,
            steps.as_slice(),
            Change::Puts(value),
        ),
        Spot::Several(_) => put_fields(alloc, scope, run, targets, spot, &value),
    }
}

/// Inserts an element into the list at an address.
pub fn insert(
    alloc: Global,
    scope: &Scope<'_>,
    run: &mut Run,
    targets: &mut Targets,
    spot: &Spot,
    element: Value,
) -> Result<(), Halt>
    ensures agrees { (line : ℕ) (lines : List RawLine) (ended : Bool) → Agrees (λ _. tt) line result (state_of run.new targets.new lines ended) (change_list (at (scope_of scope.now) line) (inserts element) (address_of spot.now) (state_of run.old targets.old lines ended)) }
    ensures left { run.new.left ≡ run.old.left }
{
    change_list(alloc, scope, run, targets, spot, Change::Inserts(element))
}

/// Removes an element from the list at an address.
pub fn remove(
    alloc: Global,
    scope: &Scope<'_>,
    run: &mut Run,
    targets: &mut Targets,
    spot: &Spot,
    element: Value,
) -> Result<(), Halt>
    ensures agrees { (line : ℕ) (lines : List RawLine) (ended : Bool) → Agrees (λ _. tt) line result (state_of run.new targets.new lines ended) (change_list (at (scope_of scope.now) line) (removes element) (address_of spot.now) (state_of run.old targets.old lines ended)) }
    ensures left { run.new.left ≡ run.old.left }
{
    change_list(alloc, scope, run, targets, spot, Change::Removes(element))
}

/// Changes the list at an address; several places are no list.
fn change_list(
    alloc: Global,
    scope: &Scope<'_>,
    run: &mut Run,
    targets: &mut Targets,
    spot: &Spot,
    what: Change,
) -> Result<(), Halt>
    ensures agrees { (line : ℕ) (lines : List RawLine) (ended : Bool) → Agrees (λ _. tt) line result (state_of run.new targets.new lines ended) (change_list (at (scope_of scope.now) line) (change_of what) (address_of spot.now) (state_of run.old targets.old lines ended)) }
    ensures left { run.new.left ≡ run.old.left }
{
    match spot {
        Spot::Place(name, steps) => change(
            alloc,
            scope,
            run,
            targets,
            *name,
            steps.as_slice(),
            what,
        ),
        Spot::Several(_) => Err(Halt::Wrong),
    }
}

/// Deletes what is at an address, its parts from left to right.
#[cycle(delete)]
pub fn delete(
    alloc: Global,
    scope: &Scope<'_>,
    run: &mut Run,
    targets: &mut Targets,
    spot: &Spot,
) -> Result<(), Halt>
    ensures agrees { (line : ℕ) (lines : List RawLine) (ended : Bool) → Agrees (λ _. tt) line result (state_of run.new targets.new lines ended) (delete (at (scope_of scope.now) line) (parts (address_of spot.now)) (state_of run.old targets.old lines ended)) }
    ensures left { run.new.left ≡ run.old.left }
{
    match spot {
        Spot::Place(name, steps) => change(
            alloc,
            scope,
            run,
            targets,
            *name,
            steps.as_slice(),
            Change::Deletes,
        ),
        Spot::Several(all) => delete_all(alloc, scope, run, targets, all.as_slice()),
    }
}

/// The same of several addresses.
#[cycle(delete)]
fn delete_all(
    alloc: Global,
    scope: &Scope<'_>,
    run: &mut Run,
    targets: &mut Targets,
    spots: &[Spot],
) -> Result<(), Halt>
    ensures agrees { (line : ℕ) (lines : List RawLine) (ended : Bool) → Agrees (λ _. tt) line result (state_of run.new targets.new lines ended) (delete (at (scope_of scope.now) line) (parts_all (row (map address_of spots.now))) (state_of run.old targets.old lines ended)) }
    ensures left { run.new.left ≡ run.old.left }
{
    for spot in spots {
        delete(alloc, scope, run, targets, spot)?;
    }
    Ok(())
}

/// Changes one part: first it counts as changed, if it is a formal.
pub(crate) fn change(
    alloc: Global,
    scope: &Scope<'_>,
    run: &mut Run,
    targets: &mut Targets,
    name: u32,
    steps: &[Step],
    what: Change,
) -> Result<(), Halt>
    ensures agrees { (line : ℕ) (lines : List RawLine) (ended : Bool) → Agrees (λ _. tt) line result (state_of run.new targets.new lines ended) (change (at (scope_of scope.now) line) (change_of what) (record { name = name; steps = map step_of steps.now }) (state_of run.old targets.old lines ended)) }
    ensures left { run.new.left ≡ run.old.left }
{
    mark(run, alloc, name)?;
    change_value(alloc, scope, run, targets, name, steps, what)
}

/// Changes a part of the value of a name.
fn change_value(
    alloc: Global,
    scope: &Scope<'_>,
    run: &mut Run,
    targets: &mut Targets,
    name: u32,
    steps: &[Step],
    what: Change,
) -> Result<(), Halt>
    ensures agrees { (line : ℕ) (lines : List RawLine) (ended : Bool) → Agrees (λ _. tt) line result (state_of run.new targets.new lines ended) (assigned_at (at (scope_of scope.now) line) (change_of what) name (map step_of steps.now) (state_of run.old targets.old lines ended)) }
    ensures left { run.new.left ≡ run.old.left }
{
    match what {
        Change::Puts(value) if steps.is_empty() => Ok(assign(
            scope,
            run,
            targets,
            name,
            Some(value),
        )?),
        _ => change_old(alloc, scope, run, targets, name, steps, what),
    }
}

/// The same where the value that the name has now counts: it is taken out and changed in its place.
fn change_old(
    alloc: Global,
    scope: &Scope<'_>,
    run: &mut Run,
    targets: &mut Targets,
    name: u32,
    steps: &[Step],
    what: Change,
) -> Result<(), Halt>
    requires { NeedsOld (change_of what) (map step_of steps.now) }
    ensures agrees { (line : ℕ) (lines : List RawLine) (ended : Bool) → Agrees (λ _. tt) line result (state_of run.new targets.new lines ended) (assigned_at (at (scope_of scope.now) line) (change_of what) name (map step_of steps.now) (state_of run.old targets.old lines ended)) }
    ensures left { run.new.left ≡ run.old.left }
{
    let Some(old) = take(scope, run, targets, name)? else {
        return Err(Halt::Fault(RunFault::NoValue));
    };
    let mut value = old;
    match change_in(alloc, what, steps, &mut value) {
        Ok(Fate::Stands) => Ok(assign(scope, run, targets, name, Some(value))?),
        Ok(Fate::Deleted) => Ok(()),
        Err(halt) => {
            assign(scope, run, targets, name, Some(value))?;
            Err(halt)
        }
    }
}

/// A name counts as changed, if it is a formal; then its actual has to be an address.
pub(crate) fn mark(run: &mut Run, alloc: Global, name: u32) -> Result<(), Halt>
    ensures agrees { (line : ℕ) (scope : Names) (targets : Store) (lines : List RawLine) (ended : Bool) → Agrees (λ _. tt) line result (state_of run.new targets lines ended) (mark (at scope line) name (state_of run.old targets lines ended)) }
    ensures left { run.new.left ≡ run.old.left }
{
    let mut formals = std::mem::replace(&mut run.formals, Items::new(alloc)).into_vec();
    let marked = mark_in(&mut formals, name);
    run.formals = Items::from_vec(formals);
    marked
}

/// Marks the first formal of this name.
fn mark_in(formals: &mut Vec<Formal>, name: u32) -> Result<(), Halt>
    ensures { IsMarked result name (map formal_of formals.old.items) (map formal_of formals.new.items) }
{
    let Some(place) = place_of(formals, name) else {
        return Ok(());
    };
    if formals[place].address.is_none() {
        return Err(Halt::Fault(RunFault::NotAnAddress));
    }
    formals[place].changed = true;
    Ok(())
}

/// The place of the first formal of this name.
fn place_of(formals: &[Formal], name: u32) -> Option<usize>
    ensures some { IfSome result (λ n. IsFirstOf name n formals.now) }
    ensures none { result ≡ None → formal_named name (map formal_of formals.now) ≡ None }
{
    for (place, formal) in formals.iter().enumerate() {
        if formal.name == name {
            return Some(place);
        }
    }
    None
}

/// Deletes what is at an address, where each of its parts has a value; first each counts as changed, if it is a formal.
pub(crate) fn delete_there(
    alloc: Global,
    scope: &Scope<'_>,
    run: &mut Run,
    targets: &mut Targets,
    spot: &Spot,
) -> Result<(), Halt>
    ensures agrees { (line : ℕ) (lines : List RawLine) (ended : Bool) → Agrees (λ _. tt) line result (state_of run.new targets.new lines ended) (put_at (at (scope_of scope.now) line) (address_of spot.now) None (state_of run.old targets.old lines ended)) }
    ensures left { run.new.left ≡ run.old.left }
{
    mark_spot(run, alloc, spot)?;
    if !has_values(alloc, scope, run, targets, spot)? {
        return Ok(());
    }
    delete(alloc, scope, run, targets, spot)
}

/// Each part of an address counts as changed, if it is a formal.
#[cycle(mark)]
fn mark_spot(run: &mut Run, alloc: Global, spot: &Spot) -> Result<(), Halt>
    ensures agrees { (line : ℕ) (scope : Names) (targets : Store) (lines : List RawLine) (ended : Bool) → Agrees (λ _. tt) line result (state_of run.new targets lines ended) (mark_all (at scope line) (parts (address_of spot.now)) (state_of run.old targets lines ended)) }
    ensures left { run.new.left ≡ run.old.left }
{
    match spot {
        Spot::Place(name, _) => mark(run, alloc, *name),
        Spot::Several(all) => mark_spots(run, alloc, all.as_slice()),
    }
}

/// The same of several addresses.
#[cycle(mark)]
fn mark_spots(run: &mut Run, alloc: Global, spots: &[Spot]) -> Result<(), Halt>
    ensures agrees { (line : ℕ) (scope : Names) (targets : Store) (lines : List RawLine) (ended : Bool) → Agrees (λ _. tt) line result (state_of run.new targets lines ended) (mark_all (at scope line) (parts_all (row (map address_of spots.now))) (state_of run.old targets lines ended)) }
    ensures left { run.new.left ≡ run.old.left }
{
    for spot in spots {
        mark_spot(run, alloc, spot)?;
    }
    Ok(())
}

/// Whether each part of an address has a value.
#[cycle(values)]
fn has_values(
    alloc: Global,
    scope: &Scope<'_>,
    run: &Run,
    targets: &Targets,
    spot: &Spot,
) -> Result<bool, OutOfMemory>
    ensures { (lines : List RawLine) (ended : Bool) → IfOk result (λ b. b ≡ list_all (has_value (scope_of scope.now) (state_of run.now targets.now lines ended)) (parts (address_of spot.now))) }
{
    match spot {
        Spot::Place(name, steps) => has_part(
            alloc,
            look(scope, run, targets, *name),
            steps.as_slice(),
        ),
        Spot::Several(all) => have_values(alloc, scope, run, targets, all.as_slice()),
    }
}

/// The same of several addresses.
#[cycle(values)]
fn have_values(
    alloc: Global,
    scope: &Scope<'_>,
    run: &Run,
    targets: &Targets,
    spots: &[Spot],
) -> Result<bool, OutOfMemory>
    ensures { (lines : List RawLine) (ended : Bool) → IfOk result (λ b. b ≡ list_all (has_value (scope_of scope.now) (state_of run.now targets.now lines ended)) (parts_all (row (map address_of spots.now)))) }
{
    for spot in spots {
        if !has_values(alloc, scope, run, targets, spot)? {
            return Ok(false);
        }
    }
    Ok(true)
}

/// Whether there is a part of a value at the end of some steps.
fn has_part(alloc: Global, value: Option<&Value>, steps: &[Step]) -> Result<bool, OutOfMemory>
    ensures { IfOk result (λ b. b ≡ is_some (along (map step_of steps.now) (option_map (λ v. v.now) value.entry))) }
{
    let Some(value) = value else {
        return Ok(false);
    };
    let Some((Step::Key(key), rest)) = steps.split_first() else {
        return Ok(true);
    };
    if !fits_key(alloc, value, key)? {
        return Ok(false);
    }
    has_part(alloc, value.get(key), rest)
}
