//! The elements of a list and the entries of a table, each with what is known of their types. Contracts see the elements and the
//! entries alone.
ghost use Rattle.std.specs.Prelude.{◌≡◌, ◌<◌, ◌≤◌, List, [], length, map, slice_set, slice_index_or, IfOk, OnOk, OnErr};
ghost use Rattle.std.specs.List.{insert, remove};
ghost use Rattle.std.specs.Option.{option_map};
ghost use Rattle.abc_value.specs.Tree.{list, table, trees, pairs};
ghost use Rattle.abc_value.specs.Forms.{a_list, form_of};
ghost use Rattle.abc_value.specs.View.{as_pair};
ghost use Rattle.abc_value.specs.inner.Alike.{AreAlike};

use crate::common::{Column, Common};
use crate::table_shapes::TableShapes;
use crate::value::Entry;
use crate::{Shape, Value};
use abc_chunks::Chunks;
use abc_num::OutOfMemory;
use abc_num::limits::MOST_ELEMENTS;
use std::alloc::Global;
use std::marker::Model;
use std::ops::Index;
use std::rc::Rc;

/// The elements of a list.
#[cycle(value)]
#[derive(Drop)]
pub(crate) struct Elements {
    items: Chunks<Value>,
    common: Common,
}

impl Model for Elements {
    ghost use Rattle.std.specs.Prelude.{List};
    ghost use Rattle.std.specs.Coded.{coded_list};
    ghost use Rattle.abc_value.specs.Tree.{Tree};
    ghost use Rattle.abc_value.specs.Code.{coded_tree};

    ghost Value = { List Tree };

    ghost coded = { coded_list coded_tree };

    ghost use Rattle.abc_value.specs.inner.Keeps.{Keeps};

    ghost view = { λ e. e.items };

    ghost invariant = { λ e. Keeps e.common e.items };

    ghost use Rattle.abc_value.specs.Measures.{elements_size};

    ghost size = { elements_size };

    ghost use Rattle.abc_value.specs.Falls.{deep-elements};

    ghost size_decreases = { λ e h. deep-elements e.items };
}

/// The entries of a table. The shapes stand apart, so that a table takes no more room than another value.
#[cycle(value)]
#[derive(Drop)]
pub(crate) struct Entries {
    items: Chunks<Entry>,
    shapes: Rc<TableShapes>,
}

impl Model for Entries {
    ghost use Rattle.std.specs.Prelude.{List};
    ghost use Rattle.std.specs.Coded.{coded_list};
    ghost use Rattle.abc_value.specs.EntryCode.{coded_entry};
    ghost use Rattle.abc_value.specs.declared.value.Entry.{Entry};

    ghost Value = { List Entry };

    ghost coded = { coded_list coded_entry };

    ghost use Rattle.abc_value.specs.inner.Keeps.{KeepsBoth};

    ghost view = { λ e. e.items };

    ghost invariant = { λ e. KeepsBoth e.shapes.value e.items };

    ghost use Rattle.abc_value.specs.Measures.{entries_size};

    ghost size = { entries_size };

    ghost use Rattle.abc_value.specs.Falls.{deep-entries};

    ghost size_decreases = { λ e h. deep-entries e.items };
}

impl Index<usize> for Elements {
    type Output = Value;

    ghost can_index = { λ c i. i < length c };

    ghost index_gives = { λ c i x. x ≡ slice_index_or c i x };

    fn index(&self, index: usize) -> &Value
        requires { index < length self.now }
        ensures { result.now ≡ slice_index_or self.now index result.now }
    {
        &self.items[index]
    }
}

impl Elements {
    /// No elements. This takes no memory.
    pub(crate) fn new(alloc: Global) -> Elements
        ensures { result ≡ [] }
    {
        Elements {
            items: Chunks::new(alloc),
            common: Common::new(),
        }
    }

    /// These elements. Their shapes are joined one by one.
    pub(crate) fn of(items: Chunks<Value>) -> Result<Elements, OutOfMemory>
        ensures { IfOk result (λ e. e ≡ items) }
    {
        let common = Common::of_all(items.allocator(), &Column::Elements(&items))?;
        Ok(Elements { items, common })
    }

    /// These elements, each of which has the shape of the first. No other is asked for it.
    pub(crate) fn alike(items: Chunks<Value>) -> Result<Elements, OutOfMemory>
        requires few { length items ≤ MOST_ELEMENTS }
        requires alike { AreAlike items }
        ensures { IfOk result (λ e. e ≡ items) }
    {
        if items.is_empty() {
            return Ok(Elements::new(items.allocator()));
        }
        let common = Common::of_many(items.allocator(), &items[0], items.len() as u32)?;
        Ok(Elements { items, common })
    }

    /// What memory they are made in.
    pub(crate) fn allocator(&self) -> Global {
        self.items.allocator()
    }

    /// How many there are.
    pub(crate) fn len(&self) -> usize
        ensures { result ≡ length self.now }
    {
        self.items.len()
    }

    /// The elements without what is known of them.
    pub(crate) fn items(&self) -> &Chunks<Value>
        ensures { result.now ≡ self.now }
    {
        &self.items
    }

    /// The same elements, which have one more owner.
    pub(crate) fn copy(&self) -> Result<Elements, OutOfMemory>
        ensures { IfOk result (λ e. e ≡ self.now) }
    {
        let items = self.items.copy()?;
        let common = self.common.copy()?;
        Ok(Elements { items, common })
    }

    /// Puts `e` at this place, in front of what stood there.
    pub(crate) fn insert(&mut self, place: usize, e: Value) -> Result<(), OutOfMemory>
        requires { place ≤ length self.old }
        ensures ok { OnOk result (self.new ≡ insert self.old place e) }
        ensures err { OnErr result (self.new ≡ self.old) }
    {
        let alloc = self.items.allocator();
        let common = self.common.with(alloc, self.items.len(), &e)?;
        self.items.insert(place, e)?;
        self.common = common;
        Ok(())
    }

    /// Takes the element at this place out.
    pub(crate) fn remove(&mut self, place: usize) -> Result<Value, OutOfMemory>
        requires { place < length self.old }
        ensures value { IfOk result (λ e. e ≡ slice_index_or self.old place e) }
        ensures ok { OnOk result (self.new ≡ remove self.old place) }
        ensures err { OnErr result (self.new ≡ self.old) }
    {
        let alloc = self.items.allocator();
        let common = self
            .common
            .without(alloc, &Column::Elements(&self.items), place)?;
        let gone = self.items.remove(place)?;
        self.common = common;
        Ok(gone)
    }

    /// The shape of the types that the list has, if it has one.
    pub(crate) fn shape(&self) -> Result<Option<Shape>, OutOfMemory>
        ensures { IfOk result (λ o. o ≡ form_of (list (trees self.now))) }
    {
        if self.items.is_empty() {
            return Ok(Some(Shape::collection()));
        }
        let alloc = self.items.allocator();
        list_shape(alloc, self.common.shape(alloc)?)
    }
}

impl Index<usize> for Entries {
    type Output = Entry;

    ghost can_index = { λ c i. i < length c };

    ghost index_gives = { λ c i x. x ≡ slice_index_or c i x };

    fn index(&self, index: usize) -> &Entry
        requires { index < length self.now }
        ensures { result.now ≡ slice_index_or self.now index result.now }
    {
        &self.items[index]
    }
}

impl Entries {
    /// These entries. The shapes of their keys and of their associates are joined one by one.
    pub(crate) fn of(items: Chunks<Entry>) -> Result<Entries, OutOfMemory>
        ensures { IfOk result (λ e. e ≡ items) }
    {
        let shapes = TableShapes::of(items.allocator(), &items)?;
        Ok(Entries { items, shapes })
    }

    /// What memory they are made in.
    pub(crate) fn allocator(&self) -> Global {
        self.items.allocator()
    }

    /// How many there are.
    pub(crate) fn len(&self) -> usize
        ensures { result ≡ length self.now }
    {
        self.items.len()
    }

    /// The entries without what is known of them.
    pub(crate) fn items(&self) -> &Chunks<Entry>
        ensures { result.now ≡ self.now }
    {
        &self.items
    }

    /// The same entries, which have one more owner.
    pub(crate) fn copy(&self) -> Result<Entries, OutOfMemory>
        ensures { IfOk result (λ e. e ≡ self.now) }
    {
        let items = self.items.copy()?;
        let shapes = self.shapes.clone()?;
        Ok(Entries { items, shapes })
    }

    /// Puts an entry at this place, in front of what stood there.
    pub(crate) fn insert(&mut self, place: usize, entry: Entry) -> Result<(), OutOfMemory>
        requires { place ≤ length self.old }
        ensures ok { OnOk result (self.new ≡ insert self.old place entry) }
        ensures err { OnErr result (self.new ≡ self.old) }
    {
        let alloc = self.items.allocator();
        let others = self.items.len();
        let shapes = self.shapes.with(alloc, others, &entry)?;
        self.items.insert(place, entry)?;
        self.shapes = shapes;
        Ok(())
    }

    /// Takes the entry at this place out.
    pub(crate) fn remove(&mut self, place: usize) -> Result<Entry, OutOfMemory>
        requires { place < length self.old }
        ensures value { IfOk result (λ e. e ≡ slice_index_or self.old place e) }
        ensures ok { OnOk result (self.new ≡ remove self.old place) }
        ensures err { OnErr result (self.new ≡ self.old) }
    {
        let alloc = self.items.allocator();
        let shapes = self.shapes.without(alloc, &self.items, place)?;
        let gone = self.items.remove(place)?;
        self.shapes = shapes;
        Ok(gone)
    }

    /// Puts an entry in place of the one at this place, and answers that.
    pub(crate) fn replace(&mut self, place: usize, entry: Entry) -> Result<Entry, OutOfMemory>
        requires { place < length self.old }
        ensures value { IfOk result (λ e. e ≡ slice_index_or self.old place e) }
        ensures ok { OnOk result (self.new ≡ slice_set self.old place entry) }
        ensures err { OnErr result (self.new ≡ self.old) }
    {
        let alloc = self.items.allocator();
        let shapes = self.shapes.replaced(alloc, &self.items, place, &entry)?;
        let old = self.items.replace(place, entry)?;
        self.shapes = shapes;
        Ok(old)
    }

    /// The shape of the types that the table has, if it has one.
    pub(crate) fn shape(&self) -> Result<Option<Shape>, OutOfMemory>
        requires { 0 < length self.now }
        ensures { IfOk result (λ o. o ≡ form_of (table (pairs (map as_pair self.now)))) }
    {
        self.shapes.shape(self.items.allocator())
    }
}

/// The shape of the lists of elements of a shape.
fn list_shape(alloc: Global, elements: Option<Shape>) -> Result<Option<Shape>, OutOfMemory>
    ensures { IfOk result (λ o. o ≡ option_map a_list elements) }
{
    match elements {
        Some(elements) => Ok(Some(Shape::list(alloc, elements)?)),
        None => Ok(None),
    }
}
