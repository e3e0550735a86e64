//! Writing to the store so that it stays.
ghost use Rattle.std.specs.Prelude.{◌≡◌, ◌≤◌, ◌<◌, ◌+◌, ◌^◌, ◌++◌, List, ℕ, length, vec_len, vec_capacity, IfOk, OnOk, OnErr, IsOk};
ghost use Rattle.std.specs.Int.{w64, to_be_bytes};
ghost use Rattle.abc_outside.specs.Outside.{RoseByOne, KeepsButStore};
ghost use Rattle.abc_outside.specs.Stop.{written, Torn, Leaves};
ghost use Rattle.abc_journal.specs.Image.{behind_gate};

use crate::format::{NUMBER_BYTES, RECORD_EXTRA};
use abc_outside::{Failed, Host};
use byteorder::{BigEndian, ByteOrder};
use std::alloc::AllocError;

/// Writes and syncs. A stop in between leaves what the write may tear.
pub(crate) fn write_through<H: Host>(host: &mut H, at: u64, bytes: &[u8]) -> Result<(), Failed>
    requires { H.tells_image → at ≤ length (H.now host.old).image }
    ensures image { H.tells_image → OnOk result ((H.now host.new).image ≡ written (H.now host.old).image at bytes.now) }
    ensures durable { OnOk result ((c s : List ℕ) → H.stopped host.new (H.clock host.new) c s → c ≡ (H.now host.new).image) }
    ensures stops { Leaves H.clock H.stopped host.old host.new (λ c s. (d : List ℕ) × H.stopped host.old (H.clock host.old) d s × Torn at (length bytes.now) d c) }
    ensures rest { KeepsButStore (H.now host.old) (H.now host.new) }
    ensures cause { OnErr result (RoseByOne (H.now host.old).store_faults (H.now host.new).store_faults) }
    ensures faultless { OnOk result ((H.now host.new).store_faults ≡ (H.now host.old).store_faults) }
{
    host.write_at(at, bytes)?;
    host.sync()?;
    Ok(())
}

/// Puts bytes behind a list that has room for them.
fn put_behind(list: &mut Vec<u8>, bytes: &[u8])
    requires { vec_len list.old + length bytes.now ≤ vec_capacity list.old }
    ensures items { list.new.items ≡ list.old.items ++ bytes.now }
    ensures len { vec_len list.new ≡ vec_len list.old + length bytes.now }
    ensures capacity { vec_capacity list.old ≤ vec_capacity list.new }
{
    // There is room, so this takes no memory and does not fail.
    let _ = list.extend_from_slice(bytes);
}

/// The length of a payload as it stands in a record.
fn length_bytes(payload: usize) -> [u8; NUMBER_BYTES]
    ensures { result ≡ to_be_bytes w64 payload }
{
    let mut bytes = [0; NUMBER_BYTES];
    BigEndian::write_u64(&mut bytes, payload as u64);
    bytes
}

/// What stands behind the gate of a record, in a list that is used again: length, payload, the next gate,
/// which is closed. Memory is taken only where the list has no room.
pub(crate) fn fill_record(list: &mut Vec<u8>, payload: &[u8]) -> Result<(), AllocError>
    requires short { length payload.now + RECORD_EXTRA < 2 ^ 64 }
    ensures items { OnOk result (list.new.items ≡ behind_gate payload.now) }
    ensures room { length payload.now + RECORD_EXTRA ≤ vec_capacity list.old → IsOk result }
    ensures capacity { vec_capacity list.old ≤ vec_capacity list.new }
    ensures err { OnErr result (vec_capacity list.new ≡ vec_capacity list.old) }
{
    list.clear();
    list.reserve(payload.len() + RECORD_EXTRA)?;
    put_behind(list, &length_bytes(payload.len()));
    put_behind(list, payload);
    put_behind(list, &[0]);
    Ok(())
}
