//! List displays and table displays, filler by filler.
ghost use Rattle.std.specs.Prelude.{◌≡◌, ◌≤◌, ◌∷◌, ◌++◌, [], ℕ, length, Some, None, IfOk, IfErr, OnOk};
ghost use Rattle.std.specs.List.{flat_map};
ghost use Rattle.abc_value.specs.Tree.{list, trees};
ghost use Rattle.abc_value.specs.Changes.{in_order};
ghost use Rattle.abc_value.specs.Sizes.{IsMakingOf};
ghost use Rattle.abc_value.specs.Forms.{anything, joined, form_of};
ghost use Rattle.abc_value.specs.Parts.{parts_of};
ghost use Rattle.abc_meaning.specs.State.{State};
ghost use Rattle.abc_meaning.specs.Here.{Here};
ghost use Rattle.abc_meaning.specs.Value.{list_display, table_display};
ghost use Rattle.abc_state.specs.Views.{filling_of, tabling_of, filler_elements, range_elements};
ghost use Rattle.abc_state.specs.inner.Lengths.{IsPast};
ghost use Rattle.abc_state.specs.Words.{ranged, filled_with, paired_with};
ghost use Rattle.abc_state.specs.Agrees.{Agrees};

use crate::halt::{Halt, halt_of};
use crate::values::{check_range, copied, have_range};
use abc_num::limits::MOST_ELEMENTS;
use abc_num::{Items, OutOfMemory};
use abc_value::{Shape, Value, ValueFault};
use std::alloc::Global;

/// One filler of a list display, evaluated. A range is kept by its ends and not by its elements: hundreds of ranges fit in a
/// line, each of up to `MOST_ELEMENTS` elements, and whether the list is too long is told only once all is evaluated.
#[derive(Drop)]
pub enum Filler {
    One(Value),
    /// The first and the last element.
    Range(Value, Value),
}

/// What was found of a list display. It takes memory by its fillers, not by their elements; these are made by `display`.
#[derive(Drop)]
pub struct Filling {
    pub fillers: Items<Filler>,
    /// The shape of the types that all that was evaluated has in common.
    pub shape: Option<Shape>,
}

/// What was found of a table display: the keys and associates as they stand in it, and the shapes of both.
#[derive(Drop)]
pub struct Tabling {
    pub pairs: Items<(Value, Value)>,
    pub keys: Option<Shape>,
    pub associates: Option<Shape>,
}

impl Filling {
    /// Nothing was found yet.
    pub fn new(alloc: Global) -> Filling
        ensures { filling_of result ≡ record { elements = []; form = Some anything } }
    {
        Filling {
            fillers: Items::new(alloc),
            shape: Some(Shape::anything()),
        }
    }

    /// With the value of one more filler.
    pub fn with_one(self, alloc: Global, value: Value) -> Result<Filling, OutOfMemory>
        ensures { IfOk result (λ f. filling_of f ≡ filled_with (filling_of self) value) }
    {
        let Filling { mut fillers, shape } = self;
        let shape = joined(alloc, shape, &value)?;
        fillers.push(Filler::One(value))?;
        Ok(Filling { fillers, shape })
    }

    /// With the elements of one more range, which are made by `display`.
    pub fn with_range(self, alloc: Global, first: &Value, last: &Value) -> Result<Filling, Halt>
        ensures { (here : Here) (s : State) → Agrees filling_of here.line result s (ranged here (filling_of self) first.now last.now s) }
    {
        check_range(first, last)?;
        let Filling { mut fillers, shape } = self;
        let shape = joined(alloc, shape, first)?;
        let shape = joined(alloc, shape, last)?;
        fillers.push(Filler::Range(copied(first)?, copied(last)?))?;
        Ok(Filling { fillers, shape })
    }

    /// The list, once all is evaluated. While its elements are made, at most `MOST_ELEMENTS` of them stand in memory, and those of
    /// one range, however many the fillers have together.
    pub fn display(self, alloc: Global) -> Result<Value, Halt>
        ensures { (here : Here) (s : State) → Agrees (λ v. v) here.line result s (list_display here (filling_of self) s) }
    {
        let Filling { fillers, shape } = self;
        if shape.is_none() {
            return Err(Halt::Wrong);
        }
        match listed(alloc, fillers.as_slice()) {
            Ok(value) => Ok(value),
            Err(fault) => Err(halt_of(fault)),
        }
    }
}

impl Tabling {
    /// Nothing was found yet.
    pub fn new(alloc: Global) -> Tabling
        ensures { tabling_of result ≡ record { pairs = []; keys = Some anything; associates = Some anything } }
    {
        Tabling {
            pairs: Items::new(alloc),
            keys: Some(Shape::anything()),
            associates: Some(Shape::anything()),
        }
    }

    /// With one more key and its associate.
    pub fn with_pair(
        self,
        alloc: Global,
        key: Value,
        associate: Value,
    ) -> Result<Tabling, OutOfMemory>
        ensures { IfOk result (λ t. tabling_of t ≡ paired_with (tabling_of self) key associate) }
    {
        let Tabling {
            mut pairs,
            keys,
            associates,
        } = self;
        let keys = joined(alloc, keys, &key)?;
        let associates = joined(alloc, associates, &associate)?;
        pairs.push((key, associate))?;
        Ok(Tabling {
            pairs,
            keys,
            associates,
        })
    }

    /// The table, once all is evaluated.
    pub fn display(self, alloc: Global) -> Result<Value, Halt>
        ensures { (here : Here) (s : State) → Agrees (λ v. v) here.line result s (table_display here (tabling_of self) s) }
    {
        let Tabling {
            pairs,
            keys,
            associates,
        } = self;
        if keys.is_none() {
            return Err(Halt::Wrong);
        }
        if associates.is_none() {
            return Err(Halt::Wrong);
        }
        match Value::table(alloc, pairs.into_vec()) {
            Ok(value) => Ok(value),
            Err(fault) => Err(halt_of(fault)),
        }
    }
}

/// The shape of the types that are of a shape and that a value has, where some are.
fn joined(alloc: Global, shape: Option<Shape>, value: &Value) -> Result<Option<Shape>, OutOfMemory>
    ensures { IfOk result (λ o. o ≡ joined shape (form_of value.now)) }
{
    let Some(shape) = shape else {
        return Ok(None);
    };
    match Shape::of(alloc, value)? {
        Some(other) => shape.join(alloc, &other),
        None => Ok(None),
    }
}

/// The list of the elements of all fillers.
fn listed(alloc: Global, fillers: &[Filler]) -> Result<Value, ValueFault>
    ensures value { IfOk result (λ v. v ≡ list (trees (in_order (flat_map filler_elements fillers.now)))) }
    ensures sizes { IsMakingOf (list (trees (in_order (flat_map filler_elements fillers.now)))) result }
{
    if fillers.len() == 1 {
        return filler_list(alloc, &fillers[0]);
    }
    let elements = elements_of(alloc, fillers)?;
    Value::list(alloc, elements)
}

/// The list of the elements of one filler.
fn filler_list(alloc: Global, filler: &Filler) -> Result<Value, ValueFault>
    ensures value { IfOk result (λ v. v ≡ list (trees (in_order (filler_elements filler.now)))) }
    ensures sizes { IsMakingOf (list (trees (in_order (filler_elements filler.now)))) result }
{
    match filler {
        Filler::One(value) => value_list(alloc, value),
        Filler::Range(first, last) => range_list(alloc, first, last),
    }
}

/// The list of one element, which equals this value.
fn value_list(alloc: Global, value: &Value) -> Result<Value, ValueFault>
    ensures value { IfOk result (λ v. v ≡ list (trees (value.now ∷ []))) }
    ensures sizes { IsMakingOf (list (trees (value.now ∷ []))) result }
{
    let mut elements = Vec::new(alloc);
    elements.push(copied(value)?)?;
    Value::list(alloc, elements)
}

/// The list of the elements of a range, which are made in order. Ends that make no range have none: `with_range` let none in.
fn range_list(alloc: Global, first: &Value, last: &Value) -> Result<Value, ValueFault>
    ensures value { IfOk result (λ v. v ≡ list (trees (in_order (range_elements first.now last.now)))) }
    ensures parts { IfOk result (λ v. parts_of v ≡ range_elements first.now last.now) }
    ensures sizes { IsMakingOf (list (trees (in_order (range_elements first.now last.now)))) result }
    ensures err { IfErr result (λ f. f ≡ ValueFault.Memory) }
{
    if !have_range(first, last) {
        return Ok(Value::empty(alloc));
    }
    match Value::range(alloc, first, last) {
        Ok(list) => Ok(list),
        Err(ValueFault::Memory) => Err(ValueFault::Memory),
        Err(_) => Ok(Value::empty(alloc)),
    }
}

/// The elements of all fillers, unless they are too many for a list.
fn elements_of(alloc: Global, fillers: &[Filler]) -> Result<Vec<Value>, ValueFault>
    ensures ok { IfOk result (λ all. all.items ≡ flat_map filler_elements fillers.now) }
    ensures fits { IfOk result (λ all. length all.items ≤ MOST_ELEMENTS) }
    ensures err { IfErr result (IsPast (flat_map filler_elements fillers.now)) }
{
    let mut all = Vec::new(alloc);
    for filler in fillers {
        add_filler(alloc, &mut all, filler)?;
    }
    Ok(all)
}

/// Adds the elements of a filler.
fn add_filler(alloc: Global, all: &mut Vec<Value>, filler: &Filler) -> Result<(), ValueFault>
    ensures ok { OnOk result (all.new.items ≡ all.old.items ++ filler_elements filler.now) }
    ensures fits { length all.old.items ≤ MOST_ELEMENTS → OnOk result (length all.new.items ≤ MOST_ELEMENTS) }
    ensures err { IfErr result (IsPast (all.old.items ++ filler_elements filler.now)) }
{
    match filler {
        Filler::One(value) => add_one(all, value),
        Filler::Range(first, last) => add_range(alloc, all, first, last),
    }
}

/// Adds the elements of a range.
fn add_range(
    alloc: Global,
    all: &mut Vec<Value>,
    first: &Value,
    last: &Value,
) -> Result<(), ValueFault>
    ensures ok { OnOk result (all.new.items ≡ all.old.items ++ range_elements first.now last.now) }
    ensures fits { length all.old.items ≤ MOST_ELEMENTS → OnOk result (length all.new.items ≤ MOST_ELEMENTS) }
    ensures err { IfErr result (IsPast (all.old.items ++ range_elements first.now last.now)) }
{
    let list = range_list(alloc, first, last)?;
    add_parts(all, &list)
}

/// Adds elements that equal those of a list.
fn add_parts(all: &mut Vec<Value>, list: &Value) -> Result<(), ValueFault>
    ensures ok { OnOk result (all.new.items ≡ all.old.items ++ parts_of list.now) }
    ensures fits { length all.old.items ≤ MOST_ELEMENTS → OnOk result (length all.new.items ≤ MOST_ELEMENTS) }
    ensures err { IfErr result (IsPast (all.old.items ++ parts_of list.now)) }
{
    for place in 0..list.len() {
        let Some(part) = list.part(place) else {
            return Ok(());
        };
        add_one(all, part)?;
    }
    Ok(())
}

/// Adds an element that equals this value, unless there are as many as a list may have.
fn add_one(all: &mut Vec<Value>, value: &Value) -> Result<(), ValueFault>
    ensures ok { OnOk result (all.new.items ≡ all.old.items ++ value.now ∷ []) }
    ensures fits { OnOk result (length all.new.items ≤ MOST_ELEMENTS) }
    ensures err { IfErr result (IsPast (all.old.items ++ value.now ∷ [])) }
{
    if all.len() >= MOST_ELEMENTS {
        return Err(ValueFault::TooLong);
    }
    all.push(copied(value)?)?;
    Ok(())
}
