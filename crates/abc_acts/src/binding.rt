//! Names that FOR and quantifiers bind: set to an element, kept, and put back; and the elements that they go over.
ghost use Rattle.std.specs.Prelude.{◌≡◌, ◌∷◌, ◌++◌, [], ℕ, Bool, List, Some, None, Option, IfOk, IfSome, OnOk, map, option_map, slice_get};
ghost use Rattle.abc_value.specs.Tree.{text};
ghost use Rattle.abc_value.specs.Items.{elements_of};
ghost use Rattle.abc_value.specs.Parts.{codes_of, parts_of};
ghost use Rattle.abc_tree.specs.Lists.{flat};
ghost use Rattle.abc_num.specs.declared.lines.RawLine.{RawLine};
ghost use Rattle.abc_tree.specs.RegularItems.{bound_names};
ghost use Rattle.abc_meaning.specs.Fits.{train_elements};
ghost use Rattle.abc_meaning.specs.Bindings.{bind, bindings, held, assign_all};
ghost use Rattle.abc_state.specs.Views.{at, scope_of, state_of};
ghost use Rattle.abc_acts.specs.Views.{held_of};
ghost use Rattle.abc_state.specs.Agrees.{Agrees};
ghost use Rattle.abc_acts.specs.Words.{GivesTrain};
ghost use Rattle.abc_acts.specs.inner.Binding.{Adds, bindings_all};

use abc_frames::Targets;
use abc_num::{Items, OutOfMemory};
use abc_state::{Halt, Run, Scope, assign, copied, look};
use abc_tree::Bound;
use abc_value::{Kind, Shape, Value};
use std::alloc::Global;
use std::marker::Model;

/// A name, and the value that it had.
#[derive(Drop)]
pub struct Held {
    pub name: u32,
    pub value: Option<Value>,
}

/// The elements of a train that are left, made one by one. Contracts see them as a list.
#[derive(Drop)]
pub struct Train {
    value: Value,
    next: usize,
}

impl Model for Train {
    ghost use Rattle.std.specs.Prelude.{List, drop};
    ghost use Rattle.std.specs.Coded.{coded_list};
    ghost use Rattle.abc_value.specs.Tree.{Tree};
    ghost use Rattle.abc_value.specs.Code.{coded_tree};
    ghost use Rattle.abc_value.specs.Items.{elements_of};

    ghost Value = { List Tree };

    ghost coded = { coded_list coded_tree };

    ghost view = { λ t. drop t.next (elements_of t.value) };
}

impl Train {
    /// All elements of a value, if it is a train and has a type.
    pub fn of(alloc: Global, value: Value) -> Result<Train, Halt>
        ensures { GivesTrain result (train_elements value) }
    {
        let Some(shape) = Shape::of(alloc, &value)? else {
            return Err(Halt::Wrong);
        };
        if shape.elements().is_none() {
            return Err(Halt::Wrong);
        }
        Ok(Train { value, next: 0 })
    }

    /// The next element.
    pub fn next(&mut self, alloc: Global) -> Result<Option<Value>, OutOfMemory>
        ensures some { IfOk result (λ next. IfSome next (λ e. self.old ≡ e ∷ self.new)) }
        ensures none { IfOk result (λ next. next ≡ None → (self.old ≡ []) × (self.new ≡ [])) }
    {
        let Some(element) = element(alloc, &self.value, self.next)? else {
            return Ok(None);
        };
        let Some(next) = self.next.checked_add(1) else {
            return Err(OutOfMemory);
        };
        self.next = next;
        Ok(Some(element))
    }
}

/// The element at a place of a train, if there is one: a text of one character, an element or an associate.
fn element(alloc: Global, value: &Value, place: usize) -> Result<Option<Value>, OutOfMemory>
    ensures { IfOk result (λ o. o ≡ slice_get (elements_of value.now) place) }
{
    match value.kind() {
        Kind::Text => character(alloc, value, place),
        _ => part(value, place),
    }
}

/// The text of one character of a text.
fn character(alloc: Global, value: &Value, place: usize) -> Result<Option<Value>, OutOfMemory>
    ensures { IfOk result (λ o. o ≡ option_map (λ c. text (c ∷ [])) (slice_get (codes_of value.now) place)) }
{
    // Its clause tells that the value is regular.
    let _length = value.len();
    let Some(byte) = value.byte(place) else {
        return Ok(None);
    };
    match Value::text(alloc, &[byte]) {
        Ok(text) => Ok(Some(text)),
        Err(_) => Err(OutOfMemory),
    }
}

/// An equal element or associate.
fn part(value: &Value, place: usize) -> Result<Option<Value>, OutOfMemory>
    ensures { IfOk result (λ o. o ≡ slice_get (parts_of value.now) place) }
{
    match value.part(place) {
        Some(part) => Ok(Some(copied(part)?)),
        None => Ok(None),
    }
}

/// Sets names to a value, or to the fields of a compound, if they match it.
pub fn bind(
    alloc: Global,
    scope: &Scope<'_>,
    run: &mut Run,
    targets: &mut Targets,
    bound: &Bound,
    value: Value,
) -> Result<(), Halt>
    ensures agrees { (line : ℕ) (lines : List RawLine) (ended : Bool) → Agrees (λ _. tt) line result (state_of run.new targets.new lines ended) (bind (at (scope_of scope.now) line) bound.now value (state_of run.old targets.old lines ended)) }
    ensures left { run.new.left ≡ run.old.left }
{
    match bound {
        Bound::One(name) => Ok(assign(scope, run, targets, name.0, Some(value))?),
        Bound::Several(_) => bind_fields(alloc, scope, run, targets, bound, &value),
    }
}

/// The same of the fields of a value.
fn bind_fields(
    alloc: Global,
    scope: &Scope<'_>,
    run: &mut Run,
    targets: &mut Targets,
    bound: &Bound,
    value: &Value,
) -> Result<(), Halt>
    ensures agrees { (line : ℕ) (lines : List RawLine) (ended : Bool) → Agrees (λ _. tt) line result (state_of run.new targets.new lines ended) (bind (at (scope_of scope.now) line) bound.now value.now (state_of run.old targets.old lines ended)) }
    ensures left { run.new.left ≡ run.old.left }
{
    let mut found = Vec::new(alloc);
    add_bindings(&mut found, bound, value)?;
    Ok(assign_bindings(scope, run, targets, found)?)
}

/// Names, each with its value.
pub(crate) type Bindings = Vec<(u32, Value)>;

/// Adds the names with the parts of a value to which they are set.
///
/// Errors: `Wrong` where they don't match it; want of memory.
#[cycle(bindings)]
pub(crate) fn add_bindings(found: &mut Bindings, bound: &Bound, value: &Value) -> Result<(), Halt>
    ensures { Adds result (bindings bound.now value.now) found.old.items found.new.items }
{
    match bound {
        Bound::One(name) => {
            found.push((name.0, copied(value)?))?;
            Ok(())
        }
        Bound::Several(parts) => match value.kind() {
            Kind::Compound => add_fields(found, parts.as_slice(), value),
            _ => Err(Halt::Wrong),
        },
    }
}

/// The same for each part and each field of a compound.
#[cycle(bindings)]
fn add_fields(found: &mut Bindings, parts: &[Bound], compound: &Value) -> Result<(), Halt>
    ensures { Adds result (bindings_all parts.now (parts_of compound.now)) found.old.items found.new.items }
{
    for (place, part) in parts.iter().enumerate() {
        let Some(field) = compound.part(place) else {
            return Err(Halt::Wrong);
        };
        add_bindings(found, part, field)?;
    }
    match compound.part(parts.len()) {
        None => Ok(()),
        Some(_) => Err(Halt::Wrong),
    }
}

/// Sets names to values, from left to right.
fn assign_bindings(
    scope: &Scope<'_>,
    run: &mut Run,
    targets: &mut Targets,
    all: Bindings,
) -> Result<(), OutOfMemory>
    ensures state { (lines : List RawLine) (ended : Bool) → OnOk result (state_of run.new targets.new lines ended ≡ assign_all (scope_of scope.now) (map (λ b. (b.0, Some b.1)) all.items) (state_of run.old targets.old lines ended)) }
    ensures left { run.new.left ≡ run.old.left }
{
    for (name, value) in all {
        assign(scope, run, targets, name, Some(value))?;
    }
    Ok(())
}

/// What the names have now.
pub fn keep_names(
    alloc: Global,
    scope: &Scope<'_>,
    run: &Run,
    targets: &Targets,
    bound: &Bound,
) -> Result<Items<Held>, OutOfMemory>
    ensures { (lines : List RawLine) (ended : Bool) → IfOk result (λ all. held_of all ≡ held (scope_of scope.now) (bound_names bound.now) (state_of run.now targets.now lines ended)) }
{
    let mut all = Items::new(alloc);
    keep_bound(scope, run, targets, bound, &mut all)?;
    Ok(all)
}

/// Adds what the names have now.
#[cycle(keeping)]
fn keep_bound(
    scope: &Scope<'_>,
    run: &Run,
    targets: &Targets,
    bound: &Bound,
    all: &mut Items<Held>,
) -> Result<(), OutOfMemory>
    ensures { (lines : List RawLine) (ended : Bool) → OnOk result (held_of all.new ≡ held_of all.old ++ held (scope_of scope.now) (bound_names bound.now) (state_of run.now targets.now lines ended)) }
{
    match bound {
        Bound::One(name) => {
            let value = match look(scope, run, targets, name.0) {
                Some(value) => Some(copied(value)?),
                None => None,
            };
            all.push(Held {
                name: name.0,
                value,
            })
        }
        Bound::Several(parts) => keep_bounds(scope, run, targets, parts.as_slice(), all),
    }
}

/// The same for each part.
#[cycle(keeping)]
fn keep_bounds(
    scope: &Scope<'_>,
    run: &Run,
    targets: &Targets,
    parts: &[Bound],
    all: &mut Items<Held>,
) -> Result<(), OutOfMemory>
    ensures { (lines : List RawLine) (ended : Bool) → OnOk result (held_of all.new ≡ held_of all.old ++ held (scope_of scope.now) (flat (map bound_names parts.now)) (state_of run.now targets.now lines ended)) }
{
    for part in parts {
        keep_bound(scope, run, targets, part, all)?;
    }
    Ok(())
}

/// The names have again what they had.
pub fn give_back(
    scope: &Scope<'_>,
    run: &mut Run,
    targets: &mut Targets,
    all: Items<Held>,
) -> Result<(), OutOfMemory>
    ensures state { (lines : List RawLine) (ended : Bool) → OnOk result (state_of run.new targets.new lines ended ≡ assign_all (scope_of scope.now) (held_of all) (state_of run.old targets.old lines ended)) }
    ensures left { run.new.left ≡ run.old.left }
{
    for held in all.into_vec() {
        let Held { name, value } = held;
        assign(scope, run, targets, name, value)?;
    }
    Ok(())
}
