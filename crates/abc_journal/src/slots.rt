//! The two slots of the head: which is live, and what stands in one.
ghost use Rattle.std.specs.Prelude.{◌≡◌, ◌≤◌, ◌+◌, length};
ghost use Rattle.abc_journal.specs.Image.{word_at as word_of, slot_version as version_of, slot_at as slot_of, live_slot as live_of};
ghost use Rattle.abc_journal.specs.Checkpoint.{other_place as place_of_other, slot_bytes as bytes_of_slot};

use crate::format::{
    FIRST_SLOT, GATE_BYTES, HEAD_BYTES, MAGIC, NUMBER_BYTES, SECOND_SLOT, SLOT_NUMBERS_BYTES,
    START_IN_SLOT, VERSION,
};
use crate::layout::Live;
use byteorder::{BigEndian, ByteOrder};

/// The number at this place.
fn word_at(bytes: &[u8], at: usize) -> u64
    requires { at + NUMBER_BYTES ≤ length bytes.now }
    ensures { result ≡ word_of bytes.now at }
{
    BigEndian::read_u64(&bytes[at..])
}

/// The version of the region whose slot has this gate; none where the slot is closed.
fn slot_version(gate: u8) -> Option<u8>
    ensures { result ≡ version_of gate }
{
    if gate == VERSION { Some(VERSION) } else { None }
}

/// The slot at this place.
fn slot_at(head: &[u8; HEAD_BYTES], at: usize, slot: u8, other: bool) -> Live
    requires { at ≤ SECOND_SLOT }
    ensures { result ≡ slot_of head.now at slot other }
{
    Live {
        slot,
        generation: word_at(head, at + GATE_BYTES),
        start: word_at(head, at + START_IN_SLOT),
        other,
    }
}

/// The live slot, or the place of what is wrong with the head.
pub(crate) fn live_slot(head: &[u8; HEAD_BYTES]) -> Result<Live, u64>
    ensures { result ≡ live_of head.now }
{
    if word_at(head, 0) != MAGIC {
        return Err(0);
    }
    let first_version = slot_version(head[FIRST_SLOT]);
    let second_version = slot_version(head[SECOND_SLOT]);
    let first = slot_at(head, FIRST_SLOT, 0, second_version.is_some());
    let second = slot_at(head, SECOND_SLOT, 1, first_version.is_some());
    match (first_version, second_version) {
        (None, None) => Err(FIRST_SLOT as u64),
        (Some(_), None) => Ok(first),
        (None, Some(_)) => Ok(second),
        (Some(_), Some(_)) if first.generation < second.generation => Ok(second),
        (Some(_), Some(_)) => Ok(first),
    }
}

/// The place of the slot that is not this one.
pub(crate) fn other_place(slot: u8) -> u64
    ensures { result ≡ place_of_other slot }
{
    if slot == 0 {
        SECOND_SLOT as u64
    } else {
        FIRST_SLOT as u64
    }
}

/// What stands behind the gate of a slot: a generation and the start of a region.
pub(crate) fn slot_bytes(generation: u64, start: u64) -> [u8; SLOT_NUMBERS_BYTES]
    ensures { result ≡ bytes_of_slot generation start }
{
    let mut bytes = [0; SLOT_NUMBERS_BYTES];
    BigEndian::write_u64(&mut bytes, generation);
    BigEndian::write_u64(&mut bytes[NUMBER_BYTES..], start);
    bytes
}
