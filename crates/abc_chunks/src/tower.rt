//! The chunks of a sequence, with the count of elements in front of each.
ghost use Rattle.std.specs.Prelude.{◌≡◌, ◌+◌, ◌-◌, ◌<◌, ◌≤◌, ◌^◌, [], ◌∷◌, length, OnOk, OnErr, IfOk, slice_index_or, slice_set};
ghost use Rattle.std.specs.List.{insert, remove};
ghost use Rattle.abc_chunks.specs.Towers.{pieces, joined, HasTotals, IsSoundTower, ClonesAreEqual};
ghost use Rattle.abc_chunks.specs.inner.Spots.{AreAround, IsChunkAt, IsSpot, piece_at, parted, without_empty};

use crate::blocks::Totals;
use std::alloc::{AllocError, Global};
use std::mem;
use std::rc::Rc;

/// The most elements of a chunk.
pub(crate) const MOST_IN_CHUNK: usize = 64;

/// By how many elements the room of a chunk grows. Room that doubles would stand half empty in chunks that were cut in halves.
const GROWTH: usize = 4;

/// Chunks, each with one element at least, and how many elements stand in front of each; last how many there are.
#[derive(Drop)]
pub(crate) struct Tower<T> {
    pub(crate) chunks: Vec<Rc<Vec<T>>>,
    pub(crate) totals: Totals,
}

/// A place in a chunk.
#[derive(Clone, Copy)]
pub(crate) struct Spot {
    pub(crate) chunk: usize,
    pub(crate) at: usize,
}

impl<T: Drop> Clone for Tower<T> {
    ghost use Rattle.std.specs.Prelude.{◌≡◌};
    ghost use Rattle.abc_chunks.specs.Towers.{pieces};

    ghost is_clone = { λ x y. (pieces y ≡ pieces x) × (y.totals ≡ x.totals) };

    fn clone(&self) -> Result<Tower<T>, AllocError> {
        Ok(Tower {
            chunks: self.chunks.clone()?,
            totals: self.totals.copy()?,
        })
    }
}

/// The chunk that has the element at this place.
fn chunk_of(totals: &Totals, place: usize) -> usize
    requires { AreAround totals.now place }
    ensures { IsChunkAt totals.now place result }
{
    let mut low = 0;
    let mut high = totals.len() - 1;
    while low + 1 < high {
        let middle = low + (high - low) / 2;
        if totals.at(middle) <= place {
            low = middle;
        } else {
            high = middle;
        }
    }
    low
}

impl<T> Tower<T> {
    /// How many elements there are.
    pub(crate) fn len(&self) -> usize
        requires { HasTotals self.now }
        ensures { result ≡ length (joined (pieces self.now)) }
    {
        self.totals.at(self.chunks.len())
    }

    /// The element at this place.
    pub(crate) fn at(&self, place: usize) -> &T
        requires totals { HasTotals self.now }
        requires place { place < length (joined (pieces self.now)) }
        ensures { result.now ≡ slice_index_or (joined (pieces self.now)) place result.now }
    {
        let k = chunk_of(&self.totals, place);
        &self.chunks[k].as_slice()[place - self.totals.at(k)]
    }

    /// The spot of the element at this place.
    fn spot_at(&self, place: usize) -> Spot
        requires totals { HasTotals self.now }
        requires place { place < length (joined (pieces self.now)) }
        ensures spot { IsSpot (pieces self.now) place result.chunk result.at }
        ensures within { result.at < length (piece_at (pieces self.now) result.chunk) }
    {
        let chunk = chunk_of(&self.totals, place);
        Spot {
            chunk,
            at: place - self.totals.at(chunk),
        }
    }

    /// A spot where an element can be put to stand at this place: behind the one in front of it.
    fn spot_for(&self, place: usize) -> Spot
        requires totals { HasTotals self.now }
        requires some { 0 < length (joined (pieces self.now)) }
        requires place { place ≤ length (joined (pieces self.now)) }
        ensures { IsSpot (pieces self.now) place result.chunk result.at }
    {
        if place == 0 {
            return Spot { chunk: 0, at: 0 };
        }
        let spot = self.spot_at(place - 1);
        Spot {
            chunk: spot.chunk,
            at: spot.at + 1,
        }
    }
}

/// Where a full chunk is cut for an element at this spot. What comes in rising or in falling order leaves full chunks.
fn cut_for(at: usize) -> usize
    ensures { (0 < result) × (result < MOST_IN_CHUNK) }
{
    if at == 0 {
        1
    } else if at >= MOST_IN_CHUNK {
        MOST_IN_CHUNK - 1
    } else {
        MOST_IN_CHUNK / 2
    }
}

/// The spot behind a cut of its chunk.
fn behind_cut(spot: Spot, cut: usize) -> Spot
    requires { spot.chunk < 2 ^ 64 - 1 }
    ensures { (spot.at ≤ cut → result ≡ spot) × (cut < spot.at → (result.chunk ≡ spot.chunk + 1) × (result.at ≡ spot.at - cut)) }
{
    if spot.at <= cut {
        spot
    } else {
        Spot {
            chunk: spot.chunk + 1,
            at: spot.at - cut,
        }
    }
}

/// Makes room for one element more, where there is none.
fn make_room<T>(items: &mut Vec<T>) -> Result<(), AllocError>
    ensures { items.new.items ≡ items.old.items }
{
    if items.len() < items.capacity() {
        return Ok(());
    }
    items.reserve_exact(GROWTH)
}

/// Puts `x` at a place of one chunk; a chunk with another owner is copied first.
fn put_in_chunk<T: Clone + Drop>(chunk: &mut Rc<Vec<T>>, at: usize, x: T) -> Result<(), AllocError>
    requires within { at ≤ length chunk.old.value.items }
    requires clones { ClonesAreEqual T.is_clone }
    ensures ok { OnOk result (chunk.new.value.items ≡ insert chunk.old.value.items at x) }
    ensures err { OnErr result (chunk.new.value.items ≡ chunk.old.value.items) }
{
    let items = Rc::make_mut(chunk)?;
    make_room(items)?;
    items.insert(at, x)?;
    Ok(())
}

/// Takes the element at a place of one chunk out; a chunk with another owner is copied first.
fn take_from_chunk<T: Clone + Drop>(chunk: &mut Rc<Vec<T>>, at: usize) -> Result<T, AllocError>
    requires within { at < length chunk.old.value.items }
    requires clones { ClonesAreEqual T.is_clone }
    ensures value { IfOk result (λ x. x ≡ slice_index_or chunk.old.value.items at x) }
    ensures ok { OnOk result (chunk.new.value.items ≡ remove chunk.old.value.items at) }
    ensures err { OnErr result (chunk.new.value.items ≡ chunk.old.value.items) }
{
    let items = Rc::make_mut(chunk)?;
    Ok(items.remove(at))
}

/// Puts `x` in place of an element of one chunk; a chunk with another owner is copied first.
fn swap_in_chunk<T: Clone + Drop>(chunk: &mut Rc<Vec<T>>, at: usize, x: T) -> Result<T, AllocError>
    requires within { at < length chunk.old.value.items }
    requires clones { ClonesAreEqual T.is_clone }
    ensures value { IfOk result (λ y. y ≡ slice_index_or chunk.old.value.items at y) }
    ensures ok { OnOk result (chunk.new.value.items ≡ slice_set chunk.old.value.items at x) }
    ensures err { OnErr result (chunk.new.value.items ≡ chunk.old.value.items) }
{
    let items = Rc::make_mut(chunk)?;
    Ok(mem::replace(&mut items[at], x))
}

/// A chunk of these elements.
fn chunk_from<T: Clone + Drop>(alloc: Global, items: &[T]) -> Result<Rc<Vec<T>>, AllocError>
    requires { ClonesAreEqual T.is_clone }
    ensures { IfOk result (λ c. c.value.items ≡ items.now) }
{
    Ok(Rc::new(alloc, Vec::from_clones(alloc, items)?)?)
}

impl<T: Clone + Drop> Tower<T> {
    /// Puts `x` at a spot whose chunk has room.
    fn put(&mut self, spot: Spot, x: T) -> Result<(), AllocError>
        requires totals { HasTotals self.old }
        requires chunk { spot.chunk < length (pieces self.old) }
        requires within { spot.at ≤ length (piece_at (pieces self.old) spot.chunk) }
        requires fits { length (joined (pieces self.old)) < 2 ^ 64 - 1 }
        requires clones { ClonesAreEqual T.is_clone }
        ensures ok { OnOk result
            (pieces self.new
            ≡ slice_set (pieces self.old) spot.chunk (insert (piece_at (pieces self.old) spot.chunk) spot.at x)) }
        ensures err { OnErr result (pieces self.new ≡ pieces self.old) }
        ensures totals { HasTotals self.new }
    {
        let chunk = &mut self.chunks[spot.chunk];
        put_in_chunk(chunk, spot.at, x)?;
        self.totals.raise(spot.chunk + 1);
        Ok(())
    }

    /// Cuts a chunk into two.
    fn split(&mut self, k: usize, cut: usize) -> Result<(), AllocError>
        requires totals { HasTotals self.old }
        requires chunk { k < length (pieces self.old) }
        requires within { cut ≤ length (piece_at (pieces self.old) k) }
        requires clones { ClonesAreEqual T.is_clone }
        ensures ok { OnOk result (pieces self.new ≡ parted (pieces self.old) k cut) }
        ensures err { OnErr result (pieces self.new ≡ pieces self.old) }
        ensures totals { HasTotals self.new }
    {
        let alloc = *self.chunks.allocator();
        let items = self.chunks[k].as_slice();
        let low = chunk_from(alloc, &items[..cut])?;
        let high = chunk_from(alloc, &items[cut..])?;
        let middle = self.totals.at(k + 1) - (items.len() - cut);
        self.totals.insert(k + 1, middle)?;
        match self.chunks.insert(k + 1, high) {
            Ok(()) => {
                self.chunks[k] = low;
                Ok(())
            }
            Err(_refused) => {
                self.totals.remove(k + 1);
                Err(AllocError)
            }
        }
    }

    /// A spot for an element at this place, in a chunk that has room; a full chunk is cut into two.
    fn room_for(&mut self, place: usize) -> Result<Spot, AllocError>
        requires sound { IsSoundTower self.old }
        requires some { 0 < length (joined (pieces self.old)) }
        requires place { place ≤ length (joined (pieces self.old)) }
        requires clones { ClonesAreEqual T.is_clone }
        ensures spot { IfOk result (λ spot. IsSpot (pieces self.new) place spot.chunk spot.at) }
        ensures room { IfOk result (λ spot. length (piece_at (pieces self.new) spot.chunk) < MOST_IN_CHUNK) }
        ensures same { joined (pieces self.new) ≡ joined (pieces self.old) }
        ensures sound { IsSoundTower self.new }
    {
        let spot = self.spot_for(place);
        if self.chunks[spot.chunk].len() < MOST_IN_CHUNK {
            return Ok(spot);
        }
        let cut = cut_for(spot.at);
        self.split(spot.chunk, cut)?;
        Ok(behind_cut(spot, cut))
    }

    /// Puts `x` at this place, in front of what stood there.
    pub(crate) fn insert(&mut self, place: usize, x: T) -> Result<(), AllocError>
        requires sound { IsSoundTower self.old }
        requires some { 0 < length (joined (pieces self.old)) }
        requires place { place ≤ length (joined (pieces self.old)) }
        requires clones { ClonesAreEqual T.is_clone }
        ensures ok { OnOk result (joined (pieces self.new) ≡ insert (joined (pieces self.old)) place x) }
        ensures err { OnErr result (joined (pieces self.new) ≡ joined (pieces self.old)) }
        ensures sound { IsSoundTower self.new }
    {
        if self.len() == usize::MAX {
            return Err(AllocError);
        }
        let spot = self.room_for(place)?;
        self.put(spot, x)
    }

    /// Takes the element at a spot out, which may leave its chunk empty.
    fn take(&mut self, spot: Spot) -> Result<T, AllocError>
        requires totals { HasTotals self.old }
        requires chunk { spot.chunk < length (pieces self.old) }
        requires within { spot.at < length (piece_at (pieces self.old) spot.chunk) }
        requires clones { ClonesAreEqual T.is_clone }
        ensures value { IfOk result (λ x. x ≡ slice_index_or (piece_at (pieces self.old) spot.chunk) spot.at x) }
        ensures ok { OnOk result
            (pieces self.new
            ≡ slice_set (pieces self.old) spot.chunk (remove (piece_at (pieces self.old) spot.chunk) spot.at)) }
        ensures err { OnErr result (pieces self.new ≡ pieces self.old) }
        ensures totals { HasTotals self.new }
    {
        let chunk = &mut self.chunks[spot.chunk];
        let gone = take_from_chunk(chunk, spot.at)?;
        self.totals.lower(spot.chunk + 1);
        Ok(gone)
    }

    /// Takes a chunk that is empty away.
    fn drop_empty(&mut self, k: usize)
        requires totals { HasTotals self.old }
        requires chunk { k < length (pieces self.old) }
        ensures pieces { pieces self.new ≡ without_empty (pieces self.old) k }
        ensures totals { HasTotals self.new }
    {
        if self.chunks[k].is_empty() {
            self.chunks.remove(k);
            self.totals.remove(k + 1);
        }
    }

    /// Takes the element at this place out.
    pub(crate) fn remove(&mut self, place: usize) -> Result<T, AllocError>
        requires sound { IsSoundTower self.old }
        requires place { place < length (joined (pieces self.old)) }
        requires clones { ClonesAreEqual T.is_clone }
        ensures value { IfOk result (λ x. x ≡ slice_index_or (joined (pieces self.old)) place x) }
        ensures ok { OnOk result (joined (pieces self.new) ≡ remove (joined (pieces self.old)) place) }
        ensures err { OnErr result (joined (pieces self.new) ≡ joined (pieces self.old)) }
        ensures sound { IsSoundTower self.new }
    {
        let spot = self.spot_at(place);
        let gone = self.take(spot)?;
        self.drop_empty(spot.chunk);
        Ok(gone)
    }

    /// Puts `x` in place of the element at this place.
    pub(crate) fn replace(&mut self, place: usize, x: T) -> Result<T, AllocError>
        requires sound { IsSoundTower self.old }
        requires place { place < length (joined (pieces self.old)) }
        requires clones { ClonesAreEqual T.is_clone }
        ensures value { IfOk result (λ y. y ≡ slice_index_or (joined (pieces self.old)) place y) }
        ensures ok { OnOk result (joined (pieces self.new) ≡ slice_set (joined (pieces self.old)) place x) }
        ensures err { OnErr result (joined (pieces self.new) ≡ joined (pieces self.old)) }
        ensures sound { IsSoundTower self.new }
    {
        let spot = self.spot_at(place);
        let chunk = &mut self.chunks[spot.chunk];
        swap_in_chunk(chunk, spot.at, x)
    }
}

/// A tower of one element.
pub(crate) fn first_tower<T: Drop>(alloc: Global, x: T) -> Result<Tower<T>, AllocError>
    ensures items { IfOk result (λ t. joined (pieces t) ≡ x ∷ []) }
    ensures sound { IfOk result (λ t. IsSoundTower t) }
{
    let mut items = Vec::new(alloc);
    items.push(x)?;
    let mut chunks = Vec::new(alloc);
    chunks.push(Rc::new(alloc, items)?)?;
    Ok(Tower {
        chunks,
        totals: Totals::of_one(alloc)?,
    })
}
