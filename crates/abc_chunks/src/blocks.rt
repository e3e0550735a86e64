//! The counts of a tower in blocks: what is added to all counts behind a place is noted once for each block behind it.
ghost use Rattle.std.specs.Prelude.{◌≡◌, ◌+◌, ◌*◌, ◌-◌, ◌<◌, ◌≤◌, ◌^◌, ◌/◌, ℕ, List, [], ◌∷◌, ◌++◌, length, map, take, drop, slice_index_or, OnOk, OnErr, IfOk};
ghost use Rattle.std.specs.List.{All, insert, remove};
ghost use Rattle.abc_chunks.specs.inner.Notes.{plus, noted, shifted, AreNoted, HasNoneFrom};
ghost use Rattle.abc_chunks.specs.inner.Spots.{raised, lowered};

use std::alloc::{AllocError, Global};
use std::marker::Model;

/// The counts of a block.
pub(crate) const BLOCK: usize = 128;

/// A list of counts. To each of them the note of its block is added, modulo 2^64.
#[derive(Drop)]
pub(crate) struct Totals {
    counts: Vec<usize>,
    notes: Vec<usize>,
}

impl Model for Totals {
    ghost use Rattle.std.specs.Prelude.{ℕ, List};
    ghost use Rattle.std.specs.Coded.{coded_list, coded_ℕ};
    ghost use Rattle.abc_chunks.specs.inner.Notes.{noted, AreNoted};

    ghost Value = { List ℕ };

    ghost coded = { coded_list coded_ℕ };

    ghost view = { λ t. noted t.notes.items t.counts.items };

    ghost invariant = { λ t. AreNoted t.notes.items t.counts.items };
}

impl Totals {
    /// The counts 0 and 1.
    pub(crate) fn of_one(alloc: Global) -> Result<Totals, AllocError>
        ensures { IfOk result (λ t. t ≡ 0 ∷ 1 ∷ []) }
    {
        let mut counts = Vec::new(alloc);
        counts.push(0)?;
        counts.push(1)?;
        let mut notes = Vec::new(alloc);
        notes.push(0)?;
        Ok(Totals { counts, notes })
    }

    /// How many counts there are.
    pub(crate) fn len(&self) -> usize
        ensures { result ≡ length self.now }
    {
        self.counts.len()
    }

    /// The count at a place.
    pub(crate) fn at(&self, place: usize) -> usize
        requires { place < length self.now }
        ensures { result ≡ slice_index_or self.now place 0 }
    {
        self.counts[place].wrapping_add(self.notes[place / BLOCK])
    }

    /// The same counts.
    pub(crate) fn copy(&self) -> Result<Totals, AllocError>
        ensures { IfOk result (λ t. t ≡ self.now) }
    {
        Ok(Totals {
            counts: self.counts.clone()?,
            notes: self.notes.clone()?,
        })
    }

    /// Counts one more from this place on. This takes a step for each count of its block and for each block behind.
    pub(crate) fn raise(&mut self, from: usize)
        requires from { from < length self.old }
        requires fits { All (λ n. n < 2 ^ 64 - 1) (drop from self.old) }
        ensures { self.new ≡ raised from self.old }
    {
        shift(&mut self.counts, &mut self.notes, from, 1);
    }

    /// Counts one less from this place on.
    pub(crate) fn lower(&mut self, from: usize)
        requires from { from < length self.old }
        requires some { All (λ n. 1 ≤ n) (drop from self.old) }
        ensures { self.new ≡ lowered from self.old }
    {
        shift(&mut self.counts, &mut self.notes, from, usize::MAX);
    }

    /// Puts a count at this place, in front of what stood there.
    pub(crate) fn insert(&mut self, place: usize, n: usize) -> Result<(), AllocError>
        requires { place ≤ length self.old }
        ensures ok { OnOk result (self.new ≡ insert self.old place n) }
        ensures err { OnErr result (self.new ≡ self.old) }
    {
        put_in(&mut self.counts, &mut self.notes, place, n)
    }

    /// Takes the count at this place out.
    pub(crate) fn remove(&mut self, place: usize)
        requires { place < length self.old }
        ensures { self.new ≡ remove self.old place }
    {
        take_out(&mut self.counts, &mut self.notes, place);
    }
}

/// Adds `by` to each, modulo 2^64.
fn add_to_all(counts: &mut [usize], by: usize)
    ensures { counts.new ≡ map (plus by) counts.old }
{
    for i in 0..counts.len() {
        counts[i] = counts[i].wrapping_add(by);
    }
}

/// Adds `by` to the counts from this place on: to those of its block, and to the notes of the blocks behind.
fn shift(counts: &mut [usize], notes: &mut [usize], from: usize, by: usize)
    requires from { from < length counts.old }
    requires noted { AreNoted notes.old counts.old }
    ensures shifted { noted notes.new counts.new ≡ shifted by from (noted notes.old counts.old) }
    ensures noted { AreNoted notes.new counts.new }
    ensures long { length counts.new ≡ length counts.old }
    ensures long_notes { length notes.new ≡ length notes.old }
{
    add_to_some(&mut counts[from..], BLOCK - from % BLOCK, by);
    add_to_all(&mut notes[from / BLOCK + 1..], by);
}

/// Adds `by` to the first `many`, or to all where there are fewer.
fn add_to_some(counts: &mut [usize], many: usize, by: usize)
    ensures { counts.new ≡ map (plus by) (take many counts.old) ++ drop many counts.old }
{
    let end = many.min(counts.len());
    add_to_all(&mut counts[..end], by);
}

/// Adds to each count the note of its block, where the counts begin with a block.
fn add_notes(counts: &mut [usize], notes: &[usize])
    requires { AreNoted notes.now counts.old }
    ensures { counts.new ≡ noted notes.now counts.old }
{
    for i in 0..counts.len() {
        counts[i] = counts[i].wrapping_add(notes[i / BLOCK]);
    }
}

fn clear(notes: &mut [usize])
    ensures { notes.new ≡ map (λ n. 0) notes.old }
{
    for i in 0..notes.len() {
        notes[i] = 0;
    }
}

/// Adds the notes to the counts from the block of this place on, so that there is nothing to be added.
fn settle(counts: &mut [usize], notes: &mut [usize], from: usize)
    requires from { from ≤ length counts.old }
    requires noted { AreNoted notes.old counts.old }
    ensures same { noted notes.new counts.new ≡ noted notes.old counts.old }
    ensures none { HasNoneFrom (from / BLOCK) notes.new }
    ensures noted { AreNoted notes.new counts.new }
    ensures long { length counts.new ≡ length counts.old }
    ensures long_notes { length notes.new ≡ length notes.old }
{
    let block = from / BLOCK;
    add_notes(&mut counts[from - from % BLOCK..], &notes[block..]);
    clear(&mut notes[block..]);
}

/// Makes a note for one count more, where there is none.
fn make_note(count: usize, notes: &mut Vec<usize>) -> Result<(), AllocError>
    requires { count ≤ BLOCK * length notes.old.items }
    ensures same { (cs : List ℕ) → noted notes.new.items cs ≡ noted notes.old.items cs }
    ensures kept { length notes.old.items ≤ length notes.new.items }
    ensures ok { OnOk result (count < BLOCK * length notes.new.items) }
{
    if count / BLOCK < notes.len() {
        return Ok(());
    }
    notes.push(0)?;
    Ok(())
}

/// Puts a count at this place. What stands behind it may come to other blocks, so nothing is left to be added to it.
fn put_in(
    counts: &mut Vec<usize>,
    notes: &mut Vec<usize>,
    place: usize,
    n: usize,
) -> Result<(), AllocError>
    requires place { place ≤ length counts.old.items }
    requires noted { AreNoted notes.old.items counts.old.items }
    ensures ok { OnOk result (noted notes.new.items counts.new.items ≡ insert (noted notes.old.items counts.old.items) place n) }
    ensures err { OnErr result (noted notes.new.items counts.new.items ≡ noted notes.old.items counts.old.items) }
    ensures noted { AreNoted notes.new.items counts.new.items }
{
    make_note(counts.len(), notes)?;
    settle(counts.as_mut_slice(), notes.as_mut_slice(), place);
    counts.insert(place, n)?;
    Ok(())
}

/// Takes the count at this place out; a note that no count is left for stays.
fn take_out(counts: &mut Vec<usize>, notes: &mut Vec<usize>, place: usize)
    requires place { place < length counts.old.items }
    requires noted { AreNoted notes.old.items counts.old.items }
    ensures gone { noted notes.new.items counts.new.items ≡ remove (noted notes.old.items counts.old.items) place }
    ensures noted { AreNoted notes.new.items counts.new.items }
{
    settle(counts.as_mut_slice(), notes.as_mut_slice(), place);
    counts.remove(place);
}
