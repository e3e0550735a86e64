//! The places and sizes of a store, version 1: a head of 64 bytes, and then regions of records.
ghost use Rattle.abc_journal.specs.Format.{IsFormat};

/// `ABCSTOR1`, the first eight bytes, as a number.
pub const MAGIC: u64 = 0x4142_4353_544f_5231;

/// The bytes of a gate.
pub const GATE_BYTES: usize = 1;

/// The bytes of a number: the magic, a generation, the start of a region and the length of a payload are one each.
pub const NUMBER_BYTES: usize = 8;

/// The head has the magic and two slots; the bytes behind these are not read. Regions begin past it.
pub const HEAD_BYTES: usize = 64;

/// The head and one closed gate.
pub const FRESH_BYTES: usize = HEAD_BYTES + GATE_BYTES;

/// The place of the first slot, behind the magic. A slot is a gate, a generation and the start of a region.
pub const FIRST_SLOT: usize = NUMBER_BYTES;

/// What a slot has in front of the start of its region: its gate and its generation.
pub const START_IN_SLOT: usize = GATE_BYTES + NUMBER_BYTES;

/// What a slot has behind its gate: its generation and the start of its region.
pub const SLOT_NUMBERS_BYTES: usize = 2 * NUMBER_BYTES;

/// The place of the second slot, behind the first.
pub const SECOND_SLOT: usize = FIRST_SLOT + GATE_BYTES + SLOT_NUMBERS_BYTES;

/// The gate of a record is open where it is this byte, and closed where it is another.
pub const OPEN: u8 = 1;

/// The gate of a slot is the version of its region: a slot with another byte is closed.
pub const VERSION: u8 = 1;

/// What a record has in front of its payload: its gate, and the length.
pub const RECORD_EXTRA: usize = GATE_BYTES + NUMBER_BYTES;

/// The fresh store: slot 0 open with generation 1 and start 64, and a closed gate at 64.
pub const FRESH_IMAGE: [u8; FRESH_BYTES] = [
    0x41, 0x42, 0x43, 0x53, 0x54, 0x4f, 0x52, 0x31, // magic
    1, 0, 0, 0, 0, 0, 0, 0, 1, 0, 0, 0, 0, 0, 0, 0, 64, // slot 0
    0, 0, 0, 0, 0, 0, 0, 0, 0, 0, 0, 0, 0, 0, 0, 0, 0, // slot 1
    0, 0, 0, 0, 0, 0, 0, 0, 0, 0, 0, 0, 0, 0, 0, 0, 0, 0, 0, 0, 0, 0, // not read
    0, // the gate
];

/// The places, the sizes and the bytes of a fresh store are these.
pub fn format_is_so()
    ensures { IsFormat }
{}
