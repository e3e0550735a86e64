//! The shape that the parts of a list or a table have together, kept beside them, so that no test of types walks over the parts.
ghost use Rattle.std.specs.Prelude.{◌≡◌, ◌<◌, ◌≤◌, ℕ, List, [], ◌∷◌, ◌++◌, length, slice_set, slice_index_or, None, IfOk, IsTrue};
ghost use Rattle.std.specs.List.{AllByRecursion, between, remove};
ghost use Rattle.std.specs.Option.{IfSome, option_map};
ghost use Rattle.abc_value.specs.Tree.{Tree};
ghost use Rattle.abc_value.specs.Forms.{forms, form_of};
ghost use Rattle.abc_value.specs.inner.Kept.{same_form, same_forms, is_form, counted, common_form, IsWithin};
ghost use Rattle.abc_value.specs.inner.Keeps.{Keeps, kept_form, column};

use crate::shape::ShapeNode;
use crate::value::Entry;
use crate::{Shape, Value};
use abc_chunks::Chunks;
use abc_num::OutOfMemory;
use std::alloc::Global;
use std::rc::Rc;

/// Values that stand in a row.
#[derive(Drop)]
pub(crate) enum Column<'a> {
    Elements(&'a Chunks<Value>),
    Keys(&'a Chunks<Entry>),
    Associates(&'a Chunks<Entry>),
}

impl<'a> Column<'a> {
    fn len(&self) -> usize
        ensures { result ≡ length (column self.now) }
    {
        match self {
            Column::Elements(parts) => parts.len(),
            Column::Keys(entries) => entries.len(),
            Column::Associates(entries) => entries.len(),
        }
    }

    fn at(&self, place: usize) -> &Value
        requires { place < length (column self.now) }
        ensures { result.now ≡ slice_index_or (column self.now) place result.now }
    {
        match self {
            Column::Elements(parts) => &parts[place],
            Column::Keys(entries) => &entries[place].key,
            Column::Associates(entries) => &entries[place].associate,
        }
    }
}

/// The shape that some values have together, and how many of them at least have this very shape. There is none where the values
/// have no type together, and none is kept of no values.
#[derive(Drop)]
pub(crate) struct Common {
    shape: Option<Rc<Shape>>,
    whole: u32,
}

impl Common {
    /// What is kept of no values. This takes no memory.
    pub(crate) fn new() -> Common
        ensures none { Keeps result [] }
        ensures shape { (ts : List Tree) → None ≡ common_form ts → Keeps result ts }
    {
        Common {
            shape: None,
            whole: 0,
        }
    }

    /// What is kept of one value.
    fn of(alloc: Global, v: &Value) -> Result<Common, OutOfMemory>
        ensures { IfOk result (λ c. Keeps c (v.now ∷ [])) }
    {
        let shape = shared(alloc, Shape::of(alloc, v)?)?;
        Ok(Common { shape, whole: 1 })
    }

    /// What is kept of so many values, each of which has the shape of `v`.
    pub(crate) fn of_many(alloc: Global, v: &Value, many: u32) -> Result<Common, OutOfMemory>
        ensures { IfOk result (λ c. (ts : List Tree) → length ts ≡ many → AllByRecursion (λ t. form_of t ≡ form_of v.now) ts → Keeps c ts) }
    {
        let shape = shared(alloc, Shape::of(alloc, v)?)?;
        Ok(Common { shape, whole: many })
    }

    /// What is kept of all values of a column.
    pub(crate) fn of_all(alloc: Global, all: &Column) -> Result<Common, OutOfMemory>
        ensures { IfOk result (λ c. Keeps c (column all.now)) }
    {
        Common::new().and(alloc, 0, all, 0, all.len())
    }

    /// The same, with one more owner.
    pub(crate) fn copy(&self) -> Result<Common, OutOfMemory>
        ensures { IfOk result (λ c. (ts : List Tree) → Keeps self.now ts → Keeps c ts) }
    {
        let shape = match &self.shape {
            Some(shape) => Some(shape.clone()?),
            None => None,
        };
        Ok(Common {
            shape,
            whole: self.whole,
        })
    }

    /// The shape that is kept.
    pub(crate) fn shape(&self, alloc: Global) -> Result<Option<Shape>, OutOfMemory>
        ensures { IfOk result (λ o. o ≡ kept_form self.now) }
    {
        match &self.shape {
            Some(shape) => Ok(Some(shape.copy(alloc)?)),
            None => Ok(None),
        }
    }

    /// What is kept of one value more than the `others`.
    pub(crate) fn with(
        &self,
        alloc: Global,
        others: usize,
        v: &Value,
    ) -> Result<Common, OutOfMemory>
        ensures { IfOk result (λ c. (ts : List Tree) → length ts ≡ others → Keeps self.now ts → Keeps c (v.now ∷ ts)) }
    {
        if others == 0 {
            return Common::of(alloc, v);
        }
        let Some(all) = &self.shape else {
            return Ok(Common::new());
        };
        let Some(one) = Shape::of(alloc, v)? else {
            return Ok(Common::new());
        };
        let Some(shape) = all.join(alloc, &one)? else {
            return Ok(Common::new());
        };
        let known = counted(all.is(&shape), self.whole);
        let whole = known.saturating_add(counted(one.is(&shape), 1));
        Ok(Common {
            shape: Some(Rc::new(alloc, shape)?),
            whole,
        })
    }

    /// What is kept of the `others` and of the values of a column at these places.
    fn and(
        self,
        alloc: Global,
        others: usize,
        all: &Column,
        from: usize,
        to: usize,
    ) -> Result<Common, OutOfMemory>
        requires from { from ≤ to }
        requires to { to ≤ length (column all.now) }
        requires others { others ≤ from }
        ensures { IfOk result (λ c. (ts : List Tree) → length ts ≡ others → Keeps self ts → Keeps c (ts ++ between from to (column all.now))) }
    {
        let mut common = self;
        for i in from..to {
            common = common.with(alloc, others + (i - from), all.at(i))?;
        }
        Ok(common)
    }

    /// What is kept of the values of a column without the one at this place. They are gone through only where none of them is
    /// known to have the shape of all.
    pub(crate) fn without(
        &self,
        alloc: Global,
        all: &Column,
        place: usize,
    ) -> Result<Common, OutOfMemory>
        requires { place < length (column all.now) }
        ensures { IfOk result (λ c. Keeps self.now (column all.now) → Keeps c (remove (column all.now) place)) }
    {
        match self.less(alloc, all.at(place))? {
            Some(rest) => Ok(rest),
            None => others_of(alloc, all, place),
        }
    }

    /// What is kept of the values of a column with `v` in place of the one at this place. They are gone through only where none
    /// of the others is known to have the shape of all, and that of `v` isn't within it.
    pub(crate) fn replaced(
        &self,
        alloc: Global,
        all: &Column,
        place: usize,
        v: &Value,
    ) -> Result<Common, OutOfMemory>
        requires { place < length (column all.now) }
        ensures { IfOk result (λ c. Keeps self.now (column all.now) → Keeps c (slice_set (column all.now) place v.now)) }
    {
        let others = all.len() - 1;
        if let Some(rest) = self.less(alloc, all.at(place))? {
            return rest.with(alloc, others, v);
        }
        if self.takes(alloc, v)? {
            return Common::of(alloc, v);
        }
        others_of(alloc, all, place)?.with(alloc, others, v)
    }

    /// What is kept of the same values without `gone`, if one of the others is known to have the shape of all.
    fn less(&self, alloc: Global, gone: &Value) -> Result<Option<Common>, OutOfMemory>
        ensures { IfOk result (λ o. IfSome o (λ c. (ts : List Tree) (i : ℕ) → i < length ts →
            gone.now ≡ slice_index_or ts i gone.now → Keeps self.now ts → Keeps c (remove ts i))) }
    {
        let Some(all) = &self.shape else {
            return Ok(None);
        };
        let whole = self
            .whole
            .saturating_sub(counted(is_of(alloc, gone, all)?, 1));
        if whole == 0 {
            return Ok(None);
        }
        Ok(Some(Common {
            shape: Some(all.clone()?),
            whole,
        }))
    }

    /// Whether the value has a shape, which is within the one that is kept.
    fn takes(&self, alloc: Global, v: &Value) -> Result<bool, OutOfMemory>
        ensures { IfOk result (λ b. IsTrue b → IsWithin (kept_form self.now) (form_of v.now)) }
    {
        let Some(all) = &self.shape else {
            return Ok(false);
        };
        let Some(one) = Shape::of(alloc, v)? else {
            return Ok(false);
        };
        match all.join(alloc, &one)? {
            Some(shape) => Ok(shape.is(&one)),
            None => Ok(false),
        }
    }
}

/// The shape, with one owner.
fn shared(alloc: Global, shape: Option<Shape>) -> Result<Option<Rc<Shape>>, OutOfMemory>
    ensures { IfOk result (λ o. option_map (λ r. r.value) o ≡ shape) }
{
    match shape {
        Some(shape) => Ok(Some(Rc::new(alloc, shape)?)),
        None => Ok(None),
    }
}

/// What is kept of the values of a column without the one at this place, which are gone through.
fn others_of(alloc: Global, all: &Column, place: usize) -> Result<Common, OutOfMemory>
    requires { place < length (column all.now) }
    ensures { IfOk result (λ c. Keeps c (remove (column all.now) place)) }
{
    let end = all.len();
    let before = Common::new().and(alloc, 0, all, 0, place)?;
    before.and(alloc, place, all, place + 1, end)
}

/// Whether the value has this very shape.
fn is_of(alloc: Global, v: &Value, shape: &Shape) -> Result<bool, OutOfMemory>
    ensures { IfOk result (λ b. b ≡ is_form (form_of v.now) shape.now) }
{
    match Shape::of(alloc, v)? {
        Some(one) => Ok(one.is(shape)),
        None => Ok(false),
    }
}

/// `n` where the test holds, else none.
fn counted(holds: bool, n: u32) -> u32
    ensures { result ≡ counted holds n }
{
    if holds { n } else { 0 }
}

impl Shape {
    /// Whether both shapes are one.
    #[cycle(same)]
    pub(crate) fn is(&self, other: &Shape) -> bool
        ensures { result ≡ same_form self.now other.now }
    {
        match (&self.node, &other.node) {
            (ShapeNode::Anything, ShapeNode::Anything) => true,
            (ShapeNode::Number, ShapeNode::Number) => true,
            (ShapeNode::Text, ShapeNode::Text) => true,
            (ShapeNode::Collection, ShapeNode::Collection) => true,
            (ShapeNode::Compound(a), ShapeNode::Compound(b)) => are_same(a, b),
            (ShapeNode::List(a), ShapeNode::List(b)) => a.is(b),
            (ShapeNode::Table(k, a), ShapeNode::Table(l, b)) => k.is(l) && a.is(b),
            _ => false,
        }
    }
}

/// Whether there are as many shapes, and both at each place are one.
#[cycle(same)]
fn are_same(a: &[Shape], b: &[Shape]) -> bool
    ensures { result ≡ same_forms (forms a.now) (forms b.now) }
{
    if a.len() != b.len() {
        return false;
    }
    for i in 0..a.len() {
        if !a[i].is(&b[i]) {
            return false;
        }
    }
    true
}
