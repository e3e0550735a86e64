//! What is known of an image, so that it need not be read again.
ghost use Rattle.std.specs.Prelude.{◌≡◌, ◌<◌, ◌+◌, ◌^◌};
ghost use Rattle.abc_journal.specs.Journal.{need_of, after_record};
ghost use Rattle.abc_journal.specs.Checkpoint.{room_for as room_of, behind_need as need_behind, after_checkpoint};
ghost use Rattle.abc_journal.specs.inner.Steps.{other_closed};

use crate::format::{GATE_BYTES, HEAD_BYTES, RECORD_EXTRA};

/// Where the live region of a store stands.
#[derive(Clone, Copy, Debug, PartialEq, Eq)]
pub struct Layout {
    /// The length of the image.
    pub size: u64,
    /// The generation of the live slot.
    pub generation: u64,
    /// The place of the region's first gate.
    pub start: u64,
    /// The place of its closing gate.
    pub gate: u64,
    /// The length of the first payload where the generation is above 1, and else 0.
    pub first: u64,
    /// The number of the live slot, 0 or 1.
    pub slot: u8,
    /// Whether the other slot is open.
    pub other: bool,
}

impl Layout {
    /// The length of the image with one record more, with a payload of so many bytes.
    pub(crate) fn need(&self, payload: usize) -> u128
        ensures { result ≡ need_of self.now payload }
    {
        (self.size as u128).max(
            self.gate as u128 + (RECORD_EXTRA + GATE_BYTES) as u128 + payload as u128,
        )
    }

    /// The layout with this record.
    pub(crate) fn with_record(&self, payload: usize) -> Layout
        requires { need_of self.now payload < 2 ^ 64 }
        ensures { result ≡ after_record self.now payload }
    {
        let first = if self.gate == self.start && self.generation > 1 {
            payload as u64
        } else {
            self.first
        };
        Layout {
            size: self.need(payload) as u64,
            gate: self.gate + RECORD_EXTRA as u64 + payload as u64,
            first,
            ..*self
        }
    }

    /// The length of an image that ends with a checkpoint behind the live region, whose payload has so
    /// many bytes.
    pub(crate) fn behind_need(&self, payload: usize) -> u128
        ensures { result ≡ need_behind self.now payload }
    {
        // The closing gate stays; behind it come a record and its closing gate.
        self.gate as u128 + (RECORD_EXTRA + 2 * GATE_BYTES) as u128 + payload as u128
    }

    /// Where the region of a checkpoint goes whose payload has so many bytes: to the front where it ends
    /// before the live region, else behind that within the bound.
    pub(crate) fn room_for(&self, payload: usize, bound: u64) -> Option<u64>
        ensures { result ≡ room_of self.now bound payload }
    {
        if self.generation == u64::MAX {
            return None;
        }
        if (HEAD_BYTES + RECORD_EXTRA + GATE_BYTES) as u128 + payload as u128
            <= self.start as u128
        {
            return Some(HEAD_BYTES as u64);
        }
        if self.behind_need(payload) <= bound as u128 {
            return Some(self.gate + GATE_BYTES as u64);
        }
        None
    }

    /// The layout with the other slot closed.
    pub(crate) fn with_other_closed(&self) -> Layout
        ensures { result ≡ other_closed self.now }
    {
        Layout {
            other: false,
            ..*self
        }
    }

    /// The layout with a checkpoint at this place, whose payload has so many bytes.
    pub(crate) fn with_checkpoint(&self, place: u64, payload: usize) -> Layout
        requires end { place + (RECORD_EXTRA + GATE_BYTES) + payload < 2 ^ 64 }
        requires rises { self.now.generation + 1 < 2 ^ 64 }
        ensures { result ≡ after_checkpoint self.now place payload }
    {
        let end = place + (RECORD_EXTRA + GATE_BYTES) as u64 + payload as u64;
        let generation = self.generation + 1;
        Layout {
            size: if place == HEAD_BYTES as u64 {
                end
            } else {
                self.size.max(end)
            },
            generation,
            start: place,
            gate: place + RECORD_EXTRA as u64 + payload as u64,
            first: if 1 < generation { payload as u64 } else { 0 },
            slot: if self.slot == 0 { 1 } else { 0 },
            other: true,
        }
    }
}

/// The limits of a session, in bytes.
#[derive(Clone, Copy, Debug, PartialEq, Eq)]
pub struct Bounds {
    /// At most so many bytes of the input are read.
    pub input: u64,
    /// No record makes the image longer than this.
    pub image: u64,
    /// A checkpoint is due where the live region is as long as this and four times its first payload, which is
    /// counted if a checkpoint wrote it.
    pub checkpoint: u64,
}

/// What the head says of the live region: the number, generation and start of its slot, and whether the
/// other slot is open.
#[derive(Clone, Copy)]
pub struct Live {
    pub slot: u8,
    pub generation: u64,
    pub start: u64,
    pub other: bool,
}
