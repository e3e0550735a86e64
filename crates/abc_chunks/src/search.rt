//! The search by halves for a place in a sequence: first for its chunk, then in that.
ghost use Rattle.std.specs.Prelude.{◌≡◌, ◌<◌, ◌≤◌, true, false, length, slice_index_or};
ghost use Rattle.std.specs.List.Sorted.{IsPartitionedBy, IsPartitionPoint};
ghost use Rattle.abc_chunks.specs.Towers.{joined, pieces, IsSoundTower};
ghost use Rattle.abc_chunks.specs.inner.Spots.{in_front, IsChunkOf};

use crate::tower::Tower;

/// What is looked for in a sequence: the elements in front of its place pass, and no others.
pub trait Seek<T> {
    ghost use Rattle.std.specs.Prelude.{Bool};

    ghost passes: { Self → T → Bool };

    /// Whether the element stands in front of the place.
    fn is_past(&self, x: &T) -> bool
        ensures { result ≡ passes self.now x.now };
}

impl<T> Tower<T> {
    /// The place up to which the elements pass.
    pub(crate) fn place_of<S: Seek<T>>(&self, sought: &S) -> usize
        requires sound { IsSoundTower self.now }
        requires some { 0 < length (joined (pieces self.now)) }
        requires parted { IsPartitionedBy (S.passes sought.now) (joined (pieces self.now)) }
        ensures within { result ≤ length (joined (pieces self.now)) }
        ensures place { IsPartitionPoint (λ x. S.passes sought.now x ≡ true) (λ x. S.passes sought.now x ≡ false) (joined (pieces self.now)) result }
    {
        let k = self.chunk_for(sought);
        let items = self.chunks[k].as_slice();
        let place = place_in(items, sought);
        self.totals.at(k + 1) - (items.len() - place)
    }

    /// The chunk in which the place stands, or at whose end.
    fn chunk_for<S: Seek<T>>(&self, sought: &S) -> usize
        requires sound { IsSoundTower self.now }
        requires some { 0 < length (pieces self.now) }
        requires parted { IsPartitionedBy (S.passes sought.now) (joined (pieces self.now)) }
        ensures { IsChunkOf (S.passes sought.now) (pieces self.now) result }
    {
        let mut low = 0;
        let mut high = self.chunks.len();
        while low + 1 < high {
            let middle = low + (high - low) / 2;
            let first = self.first_of(middle);
            if sought.is_past(first) {
                low = middle;
            } else {
                high = middle;
            }
        }
        low
    }

    /// The first element of a chunk.
    fn first_of(&self, k: usize) -> &T
        requires sound { IsSoundTower self.now }
        requires chunk { k < length (pieces self.now) }
        ensures { result.now ≡ slice_index_or (joined (pieces self.now)) (in_front (pieces self.now) k) result.now }
    {
        let items = self.chunks[k].as_slice();
        &items[0]
    }
}

/// The place up to which these elements pass.
fn place_in<T, S: Seek<T>>(items: &[T], sought: &S) -> usize
    requires { IsPartitionedBy (S.passes sought.now) items.now }
    ensures within { result ≤ length items.now }
    ensures place { IsPartitionPoint (λ x. S.passes sought.now x ≡ true) (λ x. S.passes sought.now x ≡ false) items.now result }
{
    let mut low = 0;
    let mut high = items.len();
    while low < high {
        let middle = low + (high - low) / 2;
        if sought.is_past(&items[middle]) {
            low = middle + 1;
        } else {
            high = middle;
        }
    }
    low
}
