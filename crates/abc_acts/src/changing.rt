//! What a change makes of a value: at the end of some steps a value is put, an element inserted or removed, or it is deleted.
ghost use Rattle.std.specs.Prelude.{◌≡◌, Some, None, map, option_map, Ok, IsTrue, IfOk};
ghost use Rattle.abc_value.specs.declared.faults.RunFault.{RunFault as Fault};
ghost use Rattle.abc_value.specs.declared.faults.RunFault.TheVariants.{NoKey};
ghost use Rattle.abc_value.specs.Parts.{IsList, IsTable};
ghost use Rattle.abc_value.specs.Forms.{form_of};
ghost use Rattle.abc_meaning.specs.State.{key};
ghost use Rattle.abc_meaning.specs.Fits.{fits_table, fits_list};
ghost use Rattle.abc_meaning.specs.Changing.{inserts, removes, changed, changed_to, with_associate};
ghost use Rattle.abc_state.specs.Views.{step_of};
ghost use Rattle.abc_acts.specs.inner.Changing.{change_of, IsAltered, IsChanged, IsMade, NeedsOld};

use abc_num::OutOfMemory;
use abc_state::{Halt, Step, copied, fits_key, halt_of};
use abc_value::{RunFault, Shape, Value};
use std::alloc::Global;

/// A change of a part.
#[derive(Drop)]
pub(crate) enum Change {
    /// A value is put there.
    Puts(Value),
    /// An element is inserted into the list there.
    Inserts(Value),
    /// An element is removed from the list there.
    Removes(Value),
    /// It is deleted.
    Deletes,
}

/// What becomes of a value that is changed.
#[derive(Clone, Copy, Debug, PartialEq, Eq)]
pub(crate) enum Fate {
    /// It stands, as the change made it.
    Stands,
    /// It is deleted.
    Deleted,
}

/// Changes the part of a value that some steps lead to. Where it can't be changed it stays as it is.
#[cycle(change)]
pub(crate) fn change_in(
    alloc: Global,
    what: Change,
    steps: &[Step],
    value: &mut Value,
) -> Result<Fate, Halt>
    ensures { (missing : Fault) → IsChanged result value.old value.new (changed (change_of what) missing (map step_of steps.now) (Some value.old)) }
{
    match steps.split_first() {
        None => change_whole(alloc, what, value),
        Some((Step::Key(key), rest)) => {
            if !fits_key(alloc, value, key)? {
                return Err(Halt::Wrong);
            }
            let part = changed_part(alloc, what, rest, value.get(key))?;
            set_associate(alloc, value, key, part)?;
            Ok(Fate::Stands)
        }
    }
}

/// What becomes of the part of a value that may not be there, as an associate that has no key.
#[cycle(change)]
fn changed_part(
    alloc: Global,
    what: Change,
    steps: &[Step],
    old: Option<&Value>,
) -> Result<Option<Value>, Halt>
    ensures { IsMade result (changed (change_of what) NoKey (map step_of steps.now) (option_map (λ v. v.now) old.entry)) }
{
    match what {
        Change::Puts(value) if steps.is_empty() => Ok(Some(value)),
        _ => changed_copy(alloc, what, steps, old),
    }
}

/// The same by a copy of the part.
#[cycle(change)]
fn changed_copy(
    alloc: Global,
    what: Change,
    steps: &[Step],
    old: Option<&Value>,
) -> Result<Option<Value>, Halt>
    requires { NeedsOld (change_of what) (map step_of steps.now) }
    ensures { IsMade result (changed (change_of what) NoKey (map step_of steps.now) (option_map (λ v. v.now) old.entry)) }
{
    let Some(old) = old else {
        return Err(Halt::Fault(RunFault::NoKey));
    };
    let mut value = copied(old)?;
    match change_in(alloc, what, steps, &mut value)? {
        Fate::Stands => Ok(Some(value)),
        Fate::Deleted => Ok(None),
    }
}

/// Changes the whole value.
fn change_whole(alloc: Global, what: Change, value: &mut Value) -> Result<Fate, Halt>
    ensures { (missing : Fault) → IsChanged result value.old value.new (changed_to (change_of what) missing (Some value.old)) }
{
    match what {
        Change::Puts(new) => {
            *value = new;
            Ok(Fate::Stands)
        }
        Change::Inserts(element) => {
            insert(alloc, value, element)?;
            Ok(Fate::Stands)
        }
        Change::Removes(element) => {
            remove(alloc, value, &element)?;
            Ok(Fate::Stands)
        }
        Change::Deletes => Ok(Fate::Deleted),
    }
}

/// Inserts an element into a list.
fn insert(alloc: Global, list: &mut Value, element: Value) -> Result<(), Halt>
    ensures { (missing : Fault) → IsAltered result list.old list.new (changed_to (inserts element) missing (Some list.old)) }
{
    if !fits_element(alloc, list, &element)? {
        return Err(Halt::Wrong);
    }
    match list.insert(element) {
        Ok(()) => Ok(()),
        Err(fault) => Err(halt_of(fault)),
    }
}

/// Removes an element from a list.
fn remove(alloc: Global, list: &mut Value, element: &Value) -> Result<(), Halt>
    ensures { (missing : Fault) → IsAltered result list.old list.new (changed_to (removes element.now) missing (Some list.old)) }
{
    if !fits_element(alloc, list, element)? {
        return Err(Halt::Wrong);
    }
    // Their clauses tell that the values are regular.
    let _lengths = (list.len(), element.len());
    match list.remove(element) {
        Ok(()) => Ok(()),
        Err(fault) => Err(halt_of(fault)),
    }
}

/// Whether some type fits a list and an element.
fn fits_element(alloc: Global, list: &Value, element: &Value) -> Result<bool, OutOfMemory>
    ensures computed { IfOk result (λ b. b ≡ fits_list list.now element.now) }
    ensures list { IfOk result (λ b. IsTrue b → IsList list.now) }
{
    have_list(alloc, list, element)
}

fn have_list(alloc: Global, list: &Value, element: &Value) -> Result<bool, OutOfMemory>
    ensures { IfOk result (λ b. b ≡ fits_list list.now element.now) }
{
    let Some(shape) = Shape::of(alloc, list)? else {
        return Ok(false);
    };
    let Some(elements) = Shape::of(alloc, element)? else {
        return Ok(false);
    };
    let wanted = Shape::list(alloc, elements)?;
    Ok(shape.join(alloc, &wanted)?.is_some())
}

/// Gives a table a new associate at a key, or takes the key out.
fn set_associate(
    alloc: Global,
    table: &mut Value,
    key: &Value,
    associate: Option<Value>,
) -> Result<(), Halt>
    requires { IsTable table.old }
    ensures { IsAltered result table.old table.new (with_associate key.now table.old (Ok associate)) }
{
    match associate {
        Some(associate) => put_associate(alloc, table, key, associate),
        None => delete_key(table, key),
    }
}

/// Gives a table a new associate at a key, if they fit.
fn put_associate(
    alloc: Global,
    table: &mut Value,
    key: &Value,
    associate: Value,
) -> Result<(), Halt>
    requires { IsTable table.old }
    ensures { IsAltered result table.old table.new (with_associate key.now table.old (Ok (Some associate))) }
{
    if !fits_associate(alloc, table, key, &associate)? {
        return Err(Halt::Wrong);
    }
    match table.put(copied(key)?, associate) {
        Ok(()) => Ok(()),
        Err(fault) => Err(halt_of(fault)),
    }
}

/// Takes a key out of a table, at which something was.
fn delete_key(table: &mut Value, key: &Value) -> Result<(), Halt>
    requires { IsTable table.old }
    ensures { IsAltered result table.old table.new (with_associate key.now table.old (Ok None)) }
{
    match table.delete(key) {
        Ok(()) => Ok(()),
        // The key is there, so there was not enough memory.
        Err(_) => Err(Halt::Fault(RunFault::Memory)),
    }
}

/// Whether some types fit a table, a key and what is to stand there.
fn fits_associate(
    alloc: Global,
    table: &Value,
    key: &Value,
    associate: &Value,
) -> Result<bool, OutOfMemory>
    ensures { IfOk result (λ b. b ≡ fits_table table.now key.now (form_of associate.now)) }
{
    let Some(shape) = Shape::of(alloc, table)? else {
        return Ok(false);
    };
    let Some(keys) = Shape::of(alloc, key)? else {
        return Ok(false);
    };
    let Some(associates) = Shape::of(alloc, associate)? else {
        return Ok(false);
    };
    let wanted = Shape::table(alloc, keys, associates)?;
    Ok(shape.join(alloc, &wanted)?.is_some())
}
