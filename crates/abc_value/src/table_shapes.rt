//! The shapes that the keys and the associates of a table have, kept beside its entries.
ghost use Rattle.std.specs.Prelude.{◌≡◌, ◌<◌, ℕ, List, length, slice_set, IfOk};
ghost use Rattle.std.specs.List.{insert, remove};
ghost use Rattle.abc_value.specs.Forms.{a_table, both};
ghost use Rattle.abc_value.specs.View.{entry_keys};
ghost use Rattle.abc_value.specs.inner.Keeps.{Keeps, KeepsBoth, kept_form, entry_associates};
ghost use Rattle.abc_value.specs.declared.value.Entry.{Entry as AnEntry};

use crate::common::{Column, Common};
use crate::value::Entry;
use crate::{Shape, Value};
use abc_chunks::Chunks;
use abc_num::OutOfMemory;
use std::alloc::Global;
use std::rc::Rc;

/// What is kept of the keys and of the associates. Copies of a table share it, and each change makes it anew.
#[derive(Drop)]
pub(crate) struct TableShapes {
    keys: Common,
    associates: Common,
}

impl TableShapes {
    /// What is kept of these entries.
    pub(crate) fn of(alloc: Global, entries: &Chunks<Entry>) -> Result<Rc<TableShapes>, OutOfMemory>
        ensures { IfOk result (λ s. KeepsBoth s.value entries.now) }
    {
        let keys = keys_of(alloc, entries)?;
        let associates = associates_of(alloc, entries)?;
        Ok(Rc::new(alloc, TableShapes { keys, associates })?)
    }

    /// What is kept of one entry more than the `others`, wherever it stands.
    pub(crate) fn with(
        &self,
        alloc: Global,
        others: usize,
        entry: &Entry,
    ) -> Result<Rc<TableShapes>, OutOfMemory>
        ensures { IfOk result (λ s. (es : List AnEntry) (i : ℕ) → length es ≡ others → KeepsBoth self.now es → KeepsBoth s.value (insert es i entry.now)) }
    {
        let keys = self.keys.with(alloc, others, &entry.key)?;
        let associates = self.associates.with(alloc, others, &entry.associate)?;
        Ok(Rc::new(alloc, TableShapes { keys, associates })?)
    }

    /// What is kept of the entries without the one at this place.
    pub(crate) fn without(
        &self,
        alloc: Global,
        entries: &Chunks<Entry>,
        place: usize,
    ) -> Result<Rc<TableShapes>, OutOfMemory>
        requires { place < length entries.now }
        ensures { IfOk result (λ s. KeepsBoth self.now entries.now → KeepsBoth s.value (remove entries.now place)) }
    {
        let keys = keys_without(alloc, &self.keys, entries, place)?;
        let associates = associates_without(alloc, &self.associates, entries, place)?;
        Ok(Rc::new(alloc, TableShapes { keys, associates })?)
    }

    /// What is kept of the entries with another in place of the one at this place.
    pub(crate) fn replaced(
        &self,
        alloc: Global,
        entries: &Chunks<Entry>,
        place: usize,
        entry: &Entry,
    ) -> Result<Rc<TableShapes>, OutOfMemory>
        requires { place < length entries.now }
        ensures { IfOk result (λ s. KeepsBoth self.now entries.now → KeepsBoth s.value (slice_set entries.now place entry.now)) }
    {
        let keys = keys_replaced(alloc, &self.keys, entries, place, &entry.key)?;
        let associates = associates_replaced(
            alloc,
            &self.associates,
            entries,
            place,
            &entry.associate,
        )?;
        Ok(Rc::new(alloc, TableShapes { keys, associates })?)
    }

    /// The shape of the tables of such keys and associates.
    pub(crate) fn shape(&self, alloc: Global) -> Result<Option<Shape>, OutOfMemory>
        ensures { IfOk result (λ o. o ≡ both a_table (kept_form self.now.keys) (kept_form self.now.associates)) }
    {
        let keys = self.keys.shape(alloc)?;
        let associates = self.associates.shape(alloc)?;
        table_shape(alloc, keys, associates)
    }
}

/// The shape of the tables of keys and associates of these shapes.
fn table_shape(
    alloc: Global,
    keys: Option<Shape>,
    associates: Option<Shape>,
) -> Result<Option<Shape>, OutOfMemory>
    ensures { IfOk result (λ o. o ≡ both a_table keys associates) }
{
    let Some(keys) = keys else {
        return Ok(None);
    };
    let Some(associates) = associates else {
        return Ok(None);
    };
    Ok(Some(Shape::table(alloc, keys, associates)?))
}

/// What is kept of all keys.
fn keys_of(alloc: Global, entries: &Chunks<Entry>) -> Result<Common, OutOfMemory>
    ensures { IfOk result (λ c. Keeps c (entry_keys entries.now)) }
{
    Common::of_all(alloc, &Column::Keys(entries))
}

/// What is kept of all associates.
fn associates_of(alloc: Global, entries: &Chunks<Entry>) -> Result<Common, OutOfMemory>
    ensures { IfOk result (λ c. Keeps c (entry_associates entries.now)) }
{
    Common::of_all(alloc, &Column::Associates(entries))
}

/// What is kept of the keys without the one at this place.
fn keys_without(
    alloc: Global,
    kept: &Common,
    entries: &Chunks<Entry>,
    place: usize,
) -> Result<Common, OutOfMemory>
    requires { place < length entries.now }
    ensures { IfOk result (λ c. Keeps kept.now (entry_keys entries.now) → Keeps c (remove (entry_keys entries.now) place)) }
{
    kept.without(alloc, &Column::Keys(entries), place)
}

/// What is kept of the associates without the one at this place.
fn associates_without(
    alloc: Global,
    kept: &Common,
    entries: &Chunks<Entry>,
    place: usize,
) -> Result<Common, OutOfMemory>
    requires { place < length entries.now }
    ensures { IfOk result (λ c. Keeps kept.now (entry_associates entries.now) → Keeps c (remove (entry_associates entries.now) place)) }
{
    kept.without(alloc, &Column::Associates(entries), place)
}

/// What is kept of the keys with `key` in place of the one at this place.
fn keys_replaced(
    alloc: Global,
    kept: &Common,
    entries: &Chunks<Entry>,
    place: usize,
    key: &Value,
) -> Result<Common, OutOfMemory>
    requires { place < length entries.now }
    ensures { IfOk result (λ c. Keeps kept.now (entry_keys entries.now) → Keeps c (slice_set (entry_keys entries.now) place key.now)) }
{
    kept.replaced(alloc, &Column::Keys(entries), place, key)
}

/// What is kept of the associates with `associate` in place of the one at this place.
fn associates_replaced(
    alloc: Global,
    kept: &Common,
    entries: &Chunks<Entry>,
    place: usize,
    associate: &Value,
) -> Result<Common, OutOfMemory>
    requires { place < length entries.now }
    ensures { IfOk result (λ c. Keeps kept.now (entry_associates entries.now) → Keeps c (slice_set (entry_associates entries.now) place associate.now)) }
{
    kept.replaced(alloc, &Column::Associates(entries), place, associate)
}
