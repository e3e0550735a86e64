//! The journal: what is known of an image that is open, how a record is added to it, and how a checkpoint is taken.
ghost use Rattle.std.specs.Prelude.{◌≡◌, ◌≤◌, ◌<◌, ◌+◌, ◌↔◌, ◌⊎◌, ◌++◌, true, false, [], ◌∷◌, List, ℕ, length, Ok, Err, Some, None, IfOk, OnOk, IsErrOf, IsTrue};
ghost use Rattle.abc_outside.specs.Outside.{RoseByOne, KeepsButStore};
ghost use Rattle.abc_outside.specs.Stop.{written, Leaves, IsQuiet};
ghost use Rattle.abc_journal.specs.Image.{opened, payloads_of, fresh_image, settled_image, behind_gate};
ghost use Rattle.abc_journal.specs.Journal.{HasLayout, need_of, after_record, IfNotAStore, IsNotAStore, IsNoFault, IsFull, SaysNeed, BeginsQuiet, IsSame, IsBeforeOrAfter};
ghost use Rattle.abc_journal.specs.Checkpoint.{room_for, behind_need, after_checkpoint, image_with_checkpoint};
ghost use Rattle.abc_journal.specs.Commit.{AnswersTo, recorded, checkpointed};

use crate::checkpoint::{close_other, publish, stage};
use crate::format::{FRESH_BYTES, GATE_BYTES, OPEN, RECORD_EXTRA};
use crate::opening::{FRESH, read_image, write_fresh};
use crate::write::{fill_record, write_through};
use crate::{AppendFault, BeginFault, Bounds, Layout};
use abc_num::{OutOfMemory, Text};
use abc_outside::Host;
use std::alloc::Global;
use std::marker::Model;

/// An open store: its layout, the bounds that it was opened with, and whether it may be used.
#[derive(Drop)]
pub struct Journal {
    buffer: Vec<u8>,
    layout: Layout,
    bounds: Bounds,
    sound: bool,
}

impl Model for Journal {
    ghost use Rattle.std.specs.Prelude.{vec_capacity};
    ghost use Rattle.abc_journal.specs.View.{View};

    ghost Value = { View };

    ghost view = { λ j. record { layout = j.layout; bounds = j.bounds; sound = j.sound; reserved = vec_capacity j.buffer } };
}

impl Journal {
    /// Opens the store, and gives the payloads of its live region in order. An image of at most 65 bytes
    /// is made fresh; a longer one is only read, each byte of the head and of the live region once, and
    /// nothing behind its closing gate. Two calls of the host read a record, and the memory taken is that
    /// of the payloads.
    ///
    /// Errors: `NotAStore` with the place of what is wrong, and `Memory`, which leave the store as it was;
    /// `StoreFault` where a call of the host failed.
    pub fn begin<H: Host>(
        alloc: Global,
        host: &mut H,
        b: &Bounds,
    ) -> Result<(Journal, Vec<Text>), BeginFault>
        ensures opened { H.tells_image → IfOk result (λ found. opened (H.now host.old).image ≡ Ok (record { layout = found.0.layout; payloads = found.1.items })) }
        ensures bounds { IfOk result (λ found. found.0.bounds ≡ b.now) }
        ensures sound { IfOk result (λ found. IsTrue found.0.sound) }
        ensures layout { H.tells_image → IfOk result (λ found. HasLayout (H.now host.new).image found.0.layout) }
        ensures image { H.tells_image → OnOk result ((H.now host.new).image ≡ settled_image (H.now host.old).image) }

        ensures refused { H.tells_image → IfNotAStore result (λ at. opened (H.now host.old).image ≡ Err at) }
        ensures fault { IsErrOf result BeginFault.StoreFault → RoseByOne (H.now host.old).store_faults (H.now host.new).store_faults }
        ensures faultless { OnOk result ((H.now host.new).store_faults ≡ (H.now host.old).store_faults) }
        ensures refused_faultless { (IsNotAStore result ⊎ IsErrOf result BeginFault.Memory) → (H.now host.new).store_faults ≡ (H.now host.old).store_faults }

        ensures rest { KeepsButStore (H.now host.old) (H.now host.new) }
        ensures unchanged { (IsNotAStore result ⊎ IsErrOf result BeginFault.Memory) → (H.now host.new).image ≡ (H.now host.old).image }
        ensures long { H.tells_image → FRESH_BYTES < length (H.now host.old).image → (H.now host.new).image ≡ (H.now host.old).image }
        ensures long_stops { H.tells_image → FRESH_BYTES < length (H.now host.old).image
            → Leaves H.clock H.stopped host.old host.new (H.stopped host.old (H.clock host.old)) }
        ensures fresh { H.tells_image → (H.now host.old).image ≡ fresh_image
            → Leaves H.clock H.stopped host.old host.new (H.stopped host.old (H.clock host.old)) }
        ensures untouched { (IsNotAStore result ⊎ IsErrOf result BeginFault.Memory)
            → Leaves H.clock H.stopped host.old host.new (H.stopped host.old (H.clock host.old)) }

        // At every moment of the call, and at its end.
        ensures stops { H.tells_image → BeginsQuiet H.clock H.stopped host.old (H.now host.old).image
            → (ps : List (List ℕ)) → payloads_of (H.now host.old).image ≡ Ok ps
            → Leaves H.clock H.stopped host.old host.new (IsSame ps (H.now host.old).said) }
        ensures quiet { H.tells_image → BeginsQuiet H.clock H.stopped host.old (H.now host.old).image
            → IsNoFault result → IsQuiet H.clock H.stopped host.new (H.now host.new).image }
    {
        let size = host.size()?;
        if size <= FRESH_BYTES as u64 {
            write_fresh(host, size)?;
            return Ok((Journal::with_layout(alloc, FRESH, *b), Vec::new(alloc)));
        }
        let (layout, payloads) = read_image(alloc, host, size)?;
        Ok((Journal::with_layout(alloc, layout, *b), payloads))
    }

    /// A journal that may be used.
    fn with_layout(alloc: Global, layout: Layout, bounds: Bounds) -> Journal
        ensures { result ≡ record { layout = layout; bounds = bounds; sound = true; reserved = 0 } }
    {
        Journal {
            buffer: Vec::new(alloc),
            layout,
            bounds,
            sound: true,
        }
    }

    /// Where the live region stands.
    pub fn layout(&self) -> Layout
        ensures { result ≡ self.now.layout }
    {
        self.layout
    }

    /// Whether the journal may be used: no call of it answered StoreFault.
    pub fn sound(&self) -> bool
        ensures { result ≡ self.now.sound }
    {
        self.sound
    }

    /// Whether a record fits whose payload has so many bytes.
    pub fn fits(&self, payload: usize) -> bool
        ensures { IsTrue result ↔ (need_of self.now.layout payload ≤ self.now.bounds.image) }
    {
        self.layout.need(payload) <= self.bounds.image as u128
    }

    /// Takes memory, so that no append of a payload of at most so many bytes answers Memory.
    pub fn reserve(&mut self, bytes: usize) -> Result<(), OutOfMemory>
        ensures reserved { OnOk result (bytes + RECORD_EXTRA ≤ self.new.reserved) }
        ensures no_less { self.old.reserved ≤ self.new.reserved }
        ensures layout { self.new.layout ≡ self.old.layout }
        ensures bounds { self.new.bounds ≡ self.old.bounds }
        ensures sound { self.new.sound ≡ self.old.sound }
    {
        let Some(room) = bytes.checked_add(RECORD_EXTRA) else {
            return Err(OutOfMemory);
        };
        self.buffer.clear();
        self.buffer.reserve(room)?;
        Ok(())
    }

    /// Adds a record with this payload. Once the answer is Ok, each stop leaves an image that has it. The
    /// journal is sound.
    ///
    /// Errors: `StoreFull` where the image with the record would be longer than the bound, and `Memory`,
    /// which change nothing; `StoreFault` where a call of the host failed: then the journal isn't sound any
    /// more, and the store has the record or not, until it is opened again.
    pub fn append<H: Host>(&mut self, host: &mut H, payload: &[u8]) -> Result<(), AppendFault>
        requires sound { IsTrue self.old.sound }
        requires layout { H.tells_image → HasLayout (H.now host.old).image self.old.layout }

        ensures kept { H.tells_image → (ps : List (List ℕ)) → payloads_of (H.now host.old).image ≡ Ok ps
            → OnOk result (opened (H.now host.new).image ≡ Ok (record { layout = after_record self.old.layout (length payload.now); payloads = ps ++ payload.now ∷ [] })) }
        ensures moved { OnOk result (self.new.layout ≡ after_record self.old.layout (length payload.now)) }
        ensures layout { H.tells_image → OnOk result (HasLayout (H.now host.new).image self.new.layout) }
        ensures durable { H.tells_image → OnOk result (IsQuiet H.clock H.stopped host.new (H.now host.new).image) }
        ensures bytes { H.tells_image → OnOk result ((H.now host.new).image
            ≡ written (written (H.now host.old).image (self.old.layout.gate + GATE_BYTES) (behind_gate payload.now)) self.old.layout.gate (OPEN ∷ [])) }

        ensures layouts { AnswersTo result self.new.layout (recorded self.old.bounds self.old.layout (length payload.now)) }
        ensures full { IsFull result ↔ (self.old.bounds.image < need_of self.old.layout (length payload.now)) }
        ensures need { SaysNeed result (need_of self.old.layout (length payload.now)) self.old.bounds.image }
        ensures fault { IsErrOf result AppendFault.StoreFault → RoseByOne (H.now host.old).store_faults (H.now host.new).store_faults }
        ensures faultless { OnOk result ((H.now host.new).store_faults ≡ (H.now host.old).store_faults) }

        ensures reserved { length payload.now + RECORD_EXTRA ≤ self.old.reserved → IsErrOf result AppendFault.Memory → ⊥ }
        ensures no_less { self.old.reserved ≤ self.new.reserved }

        ensures rest { KeepsButStore (H.now host.old) (H.now host.new) }
        ensures bounds { self.new.bounds ≡ self.old.bounds }
        ensures same { (IsErrOf result AppendFault.Memory ⊎ IsFull result) → self.new ≡ self.old }
        ensures same_host { (IsErrOf result AppendFault.Memory ⊎ IsFull result) → host.new ≡ host.old }
        ensures sound_after { OnOk result (IsTrue self.new.sound) }
        ensures unsound { IsErrOf result AppendFault.StoreFault → self.new.sound ≡ false }

        // At every moment of the call.
        ensures stops { H.tells_image → IsQuiet H.clock H.stopped host.old (H.now host.old).image
            → (ps : List (List ℕ)) → payloads_of (H.now host.old).image ≡ Ok ps
            → Leaves H.clock H.stopped host.old host.new (IsBeforeOrAfter ps (ps ++ payload.now ∷ []) (H.now host.old).said) }
    {
        let need = self.layout.need(payload.len());
        if need > self.bounds.image as u128 {
            return Err(AppendFault::StoreFull {
                need: u64::try_from(need).unwrap_or(u64::MAX),
                limit: self.bounds.image,
            });
        }
        fill_record(&mut self.buffer, payload)?;
        // Until both writes are through, the layout may not be the image's.
        self.sound = false;
        // The record first, behind a gate that is still closed; then the gate.
        write_through(host, self.layout.gate + GATE_BYTES as u64, &self.buffer)?;
        write_through(host, self.layout.gate, &[OPEN])?;
        self.layout = self.layout.with_record(payload.len());
        self.sound = true;
        Ok(())
    }

    /// Makes these bytes the one payload of the store. Once the answer is Ok, each stop leaves an image
    /// that has it alone. The journal is sound. This takes no memory.
    ///
    /// Errors: `StoreFull` where the region fits neither in front of the live one nor behind it, which
    /// changes nothing; `StoreFault` where a call of the host failed: then the journal isn't sound any
    /// more, and the store has the payloads that it had or this one, until it is opened again.
    pub fn checkpoint<H: Host>(&mut self, host: &mut H, payload: &[u8]) -> Result<(), AppendFault>
        requires sound { IsTrue self.old.sound }
        requires layout { H.tells_image → HasLayout (H.now host.old).image self.old.layout }

        ensures kept { H.tells_image → (place : ℕ) → room_for self.old.layout self.old.bounds.image (length payload.now) ≡ Some place
            → OnOk result (opened (H.now host.new).image ≡ Ok (record { layout = after_checkpoint self.old.layout place (length payload.now); payloads = payload.now ∷ [] })) }
        ensures moved { (place : ℕ) → room_for self.old.layout self.old.bounds.image (length payload.now) ≡ Some place
            → OnOk result (self.new.layout ≡ after_checkpoint self.old.layout place (length payload.now)) }
        ensures layout { H.tells_image → OnOk result (HasLayout (H.now host.new).image self.new.layout) }
        ensures durable { H.tells_image → OnOk result (IsQuiet H.clock H.stopped host.new (H.now host.new).image) }

        ensures bytes { H.tells_image → (place : ℕ) → room_for self.old.layout self.old.bounds.image (length payload.now) ≡ Some place
            → OnOk result ((H.now host.new).image ≡ image_with_checkpoint (H.now host.old).image self.old.layout place payload.now) }
        ensures layouts { AnswersTo result self.new.layout (checkpointed self.old.bounds self.old.layout (length payload.now)) }
        ensures full { IsFull result ↔ (room_for self.old.layout self.old.bounds.image (length payload.now) ≡ None) }
        ensures need { SaysNeed result (behind_need self.old.layout (length payload.now)) self.old.bounds.image }
        ensures no_memory { IsErrOf result AppendFault.Memory → ⊥ }
        ensures fault { IsErrOf result AppendFault.StoreFault → RoseByOne (H.now host.old).store_faults (H.now host.new).store_faults }
        ensures faultless { OnOk result ((H.now host.new).store_faults ≡ (H.now host.old).store_faults) }

        ensures rest { KeepsButStore (H.now host.old) (H.now host.new) }
        ensures bounds { self.new.bounds ≡ self.old.bounds }
        ensures reserved { self.new.reserved ≡ self.old.reserved }
        ensures same { IsFull result → self.new ≡ self.old }
        ensures same_host { IsFull result → host.new ≡ host.old }
        ensures sound_after { OnOk result (IsTrue self.new.sound) }
        ensures unsound { IsErrOf result AppendFault.StoreFault → self.new.sound ≡ false }

        // At every moment of the call.
        ensures stops { H.tells_image → IsQuiet H.clock H.stopped host.old (H.now host.old).image
            → (ps : List (List ℕ)) → payloads_of (H.now host.old).image ≡ Ok ps
            → Leaves H.clock H.stopped host.old host.new (IsBeforeOrAfter ps (payload.now ∷ []) (H.now host.old).said) }
    {
        let Some(place) = self.layout.room_for(payload.len(), self.bounds.image) else {
            return Err(AppendFault::StoreFull {
                need: u64::try_from(self.layout.behind_need(payload.len())).unwrap_or(u64::MAX),
                limit: self.bounds.image,
            });
        };
        // Until the last step is through, the layout may not be the image's.
        self.sound = false;
        close_other(host, self.layout)?;
        let layout = self.layout.with_other_closed();
        stage(host, layout, place, payload)?;
        publish(host, layout, place, payload)?;
        self.layout = layout.with_checkpoint(place, payload.len());
        self.sound = true;
        Ok(())
    }
}
