//! Reading the records of a region from the store: each byte once, and none behind the closing gate.
ghost use Rattle.std.specs.Prelude.{◌≡◌, ◌≤◌, ◌<◌, ◌+◌, ◌⊎◌, List, ℕ, length, IfOk, OnOk, OnErr, IsErrOf};
ghost use Rattle.abc_outside.specs.Outside.{RoseByOne, KeepsButStore};
ghost use Rattle.abc_outside.specs.Stop.{Leaves};
ghost use Rattle.abc_journal.specs.Image.{word_at as word_of, record_open, follow};
ghost use Rattle.abc_journal.specs.Journal.{IfNotAStore, IsNotAStore};
ghost use Rattle.abc_journal.specs.inner.Region.{IsFound, IsCutShort, IsRegion};

use crate::BeginFault;
use crate::format::{GATE_BYTES, HEAD_BYTES, NUMBER_BYTES, OPEN, RECORD_EXTRA};
use abc_num::Text;
use abc_outside::{Failed, Host};
use byteorder::{BigEndian, ByteOrder};
use std::alloc::Global;

/// Whether the gate at this place is open.
fn gate_open<H: Host>(host: &mut H, at: u64) -> Result<bool, Failed>
    requires { H.tells_image → at < length (H.now host.old).image }
    ensures gate { H.tells_image → IfOk result (λ is_open. is_open ≡ record_open (H.now host.old).image at) }
    ensures image { (H.now host.new).image ≡ (H.now host.old).image }
    ensures rest { KeepsButStore (H.now host.old) (H.now host.new) }
    ensures stops { Leaves H.clock H.stopped host.old host.new (H.stopped host.old (H.clock host.old)) }
    ensures now { (c s : List ℕ) → H.stopped host.new (H.clock host.new) c s → H.stopped host.old (H.clock host.old) c s }
    ensures cause { OnErr result (RoseByOne (H.now host.old).store_faults (H.now host.new).store_faults) }
    ensures faultless { OnOk result ((H.now host.new).store_faults ≡ (H.now host.old).store_faults) }
{
    let mut gate = [0];
    host.read_at(at, &mut gate)?;
    Ok(gate[0] == OPEN)
}

/// The length that stands at this place.
fn length_at<H: Host>(host: &mut H, at: u64) -> Result<u64, Failed>
    requires { H.tells_image → at + NUMBER_BYTES ≤ length (H.now host.old).image }
    ensures length { H.tells_image → IfOk result (λ n. n ≡ word_of (H.now host.old).image at) }
    ensures image { (H.now host.new).image ≡ (H.now host.old).image }
    ensures rest { KeepsButStore (H.now host.old) (H.now host.new) }
    ensures stops { Leaves H.clock H.stopped host.old host.new (H.stopped host.old (H.clock host.old)) }
    ensures now { (c s : List ℕ) → H.stopped host.new (H.clock host.new) c s → H.stopped host.old (H.clock host.old) c s }
    ensures cause { OnErr result (RoseByOne (H.now host.old).store_faults (H.now host.new).store_faults) }
    ensures faultless { OnOk result ((H.now host.new).store_faults ≡ (H.now host.old).store_faults) }
{
    let mut word = [0; NUMBER_BYTES];
    host.read_at(at, &mut word)?;
    Ok(BigEndian::read_u64(&word))
}

/// The payload of the record at this place, whose gate is open, and whether the gate behind it is open.
fn record_at<H: Host>(
    alloc: Global,
    host: &mut H,
    at: u64,
    size: u64,
) -> Result<(Text, bool), BeginFault>
    requires within { at < size }
    requires size { H.tells_image → size ≡ length (H.now host.old).image }
    ensures within { IfOk result (λ found. at + RECORD_EXTRA + length found.0 < size) }
    ensures record { H.tells_image → IfOk result (λ found. IsFound (H.now host.old).image at found.0 found.1) }
    ensures refused { H.tells_image → IfNotAStore result (λ wrong. IsCutShort (H.now host.old).image at wrong) }
    ensures image { (H.now host.new).image ≡ (H.now host.old).image }
    ensures rest { KeepsButStore (H.now host.old) (H.now host.new) }
    ensures stops { Leaves H.clock H.stopped host.old host.new (H.stopped host.old (H.clock host.old)) }
    ensures now { (c s : List ℕ) → H.stopped host.new (H.clock host.new) c s → H.stopped host.old (H.clock host.old) c s }
    ensures fault { IsErrOf result BeginFault.StoreFault → RoseByOne (H.now host.old).store_faults (H.now host.new).store_faults }
    ensures faultless { OnOk result ((H.now host.new).store_faults ≡ (H.now host.old).store_faults) }
    ensures refused_faultless { (IsNotAStore result ⊎ IsErrOf result BeginFault.Memory) → (H.now host.new).store_faults ≡ (H.now host.old).store_faults }
{
    let room = size - at;
    if room < RECORD_EXTRA as u64 {
        return Err(BeginFault::NotAStore { at });
    }
    let length = length_at(host, at + GATE_BYTES as u64)?;
    let room = room - RECORD_EXTRA as u64;
    if room < length {
        return Err(BeginFault::NotAStore { at });
    }
    if room == length {
        return Err(BeginFault::NotAStore { at: size });
    }
    // The payload and the next gate in one call.
    let mut bytes = vec![in alloc; 0; length as usize + GATE_BYTES]?;
    host.read_at(at + RECORD_EXTRA as u64, &mut bytes)?;
    let next_open = bytes.pop() == Some(OPEN);
    Ok((Text::from_vec(bytes), next_open))
}

/// The payloads of the region that starts at this place of an image of so many bytes, and the place of
/// its closing gate. Nothing behind that gate is read.
pub(crate) fn read_region<H: Host>(
    alloc: Global,
    host: &mut H,
    start: u64,
    size: u64,
) -> Result<(Vec<Text>, u64), BeginFault>
    requires behind { HEAD_BYTES ≤ start }
    requires within { start < size }
    requires size { H.tells_image → size ≡ length (H.now host.old).image }
    ensures region { H.tells_image → IsRegion (follow (length (H.now host.old).image) (H.now host.old).image start) result }
    ensures image { (H.now host.new).image ≡ (H.now host.old).image }
    ensures rest { KeepsButStore (H.now host.old) (H.now host.new) }
    ensures stops { Leaves H.clock H.stopped host.old host.new (H.stopped host.old (H.clock host.old)) }
    ensures now { (c s : List ℕ) → H.stopped host.new (H.clock host.new) c s → H.stopped host.old (H.clock host.old) c s }
    ensures fault { IsErrOf result BeginFault.StoreFault → RoseByOne (H.now host.old).store_faults (H.now host.new).store_faults }
    ensures faultless { OnOk result ((H.now host.new).store_faults ≡ (H.now host.old).store_faults) }
    ensures refused_faultless { (IsNotAStore result ⊎ IsErrOf result BeginFault.Memory) → (H.now host.new).store_faults ≡ (H.now host.old).store_faults }
{
    let mut payloads = Vec::new(alloc);
    let mut at = start;
    let mut is_open = gate_open(host, start)?;
    'records: while is_open {
        let (payload, next_open) = record_at(alloc, host, at, size)?;
        at += RECORD_EXTRA as u64 + payload.bytes().len() as u64;
        is_open = next_open;
        payloads.push(payload)?;
    }
    Ok((payloads, at))
}
