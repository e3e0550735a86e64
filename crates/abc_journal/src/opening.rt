//! Opening: a short image is made fresh, a longer one is read.
ghost use Rattle.std.specs.Prelude.{◌≡◌, ◌≤◌, ◌<◌, ◌⊎◌, ◌↔◌, List, ℕ, length, Ok, Err, IfOk, OnOk, OnErr, IsErrOf, IsTrue};
ghost use Rattle.abc_outside.specs.Outside.{RoseByOne, KeepsButStore};
ghost use Rattle.abc_outside.specs.Stop.{Torn, Leaves};
ghost use Rattle.abc_journal.specs.Image.{fresh_image, opened_at, read_image as reads};
ghost use Rattle.abc_journal.specs.Journal.{IfNotAStore, IsNotAStore};

use crate::BeginFault;
use crate::format::{FRESH_BYTES, FRESH_IMAGE, HEAD_BYTES};
use crate::layout::{Layout, Live};
use crate::region::read_region;
use crate::slots::live_slot;
use crate::write::write_through;
use abc_num::Text;
use abc_outside::{Failed, Host};
use std::alloc::Global;

/// The layout of a fresh image.
pub(crate) const FRESH: Layout = Layout {
    size: FRESH_BYTES as u64,
    generation: 1,
    start: HEAD_BYTES as u64,
    gate: HEAD_BYTES as u64,
    first: 0,
    slot: 0,
    other: false,
};

/// Whether the image, of so many bytes, is the fresh one.
fn is_fresh<H: Host>(host: &mut H, size: u64) -> Result<bool, Failed>
    requires size { H.tells_image → size ≡ length (H.now host.old).image }
    ensures fresh { H.tells_image → IfOk result (λ yes. IsTrue yes ↔ ((H.now host.old).image ≡ fresh_image)) }
    ensures image { (H.now host.new).image ≡ (H.now host.old).image }
    ensures rest { KeepsButStore (H.now host.old) (H.now host.new) }
    ensures stops { Leaves H.clock H.stopped host.old host.new (H.stopped host.old (H.clock host.old)) }
    ensures now { (c s : List ℕ) → H.stopped host.new (H.clock host.new) c s → H.stopped host.old (H.clock host.old) c s }
    ensures cause { OnErr result (RoseByOne (H.now host.old).store_faults (H.now host.new).store_faults) }
    ensures faultless { OnOk result ((H.now host.new).store_faults ≡ (H.now host.old).store_faults) }
{
    if size != FRESH_BYTES as u64 {
        return Ok(false);
    }
    let mut image = [0; FRESH_BYTES];
    host.read_at(0, &mut image)?;
    Ok(image == FRESH_IMAGE)
}

/// Puts the fresh image in place of an image of at most so many bytes, if it isn't there.
pub(crate) fn write_fresh<H: Host>(host: &mut H, size: u64) -> Result<(), Failed>
    requires short { size ≤ FRESH_BYTES }
    requires size { H.tells_image → size ≡ length (H.now host.old).image }
    ensures image { H.tells_image → OnOk result ((H.now host.new).image ≡ fresh_image) }
    ensures durable { H.tells_image → OnOk result ((c s : List ℕ) → H.stopped host.new (H.clock host.new) c s
        → (H.stopped host.old (H.clock host.old) c s × ((H.now host.old).image ≡ fresh_image)) ⊎ (c ≡ fresh_image)) }
    ensures stops { Leaves H.clock H.stopped host.old host.new (λ c s. (d : List ℕ) × H.stopped host.old (H.clock host.old) d s × Torn 0 FRESH_BYTES d c) }
    ensures fresh { H.tells_image → (H.now host.old).image ≡ fresh_image → Leaves H.clock H.stopped host.old host.new (H.stopped host.old (H.clock host.old)) }
    ensures rest { KeepsButStore (H.now host.old) (H.now host.new) }
    ensures cause { OnErr result (RoseByOne (H.now host.old).store_faults (H.now host.new).store_faults) }
    ensures faultless { OnOk result ((H.now host.new).store_faults ≡ (H.now host.old).store_faults) }
{
    if is_fresh(host, size)? {
        return Ok(());
    }
    write_through(host, 0, &FRESH_IMAGE)?;
    Ok(())
}

/// The layout of an image of so many bytes, whose live region has these payloads.
fn layout_of(size: u64, live: Live, payloads: &[Text], gate: u64) -> Layout
    ensures { result ≡ (opened_at size live (record { payloads = payloads.now; gate = gate })).layout }
{
    let first = match payloads.first() {
        Some(payload) if live.generation > 1 => payload.bytes().len() as u64,
        _ => 0,
    };
    Layout {
        size,
        generation: live.generation,
        start: live.start,
        gate,
        first,
        slot: live.slot,
        other: live.other,
    }
}

/// Reads an image of so many bytes: each byte of the head and of the live region once, and none behind its
/// closing gate.
pub(crate) fn read_image<H: Host>(
    alloc: Global,
    host: &mut H,
    size: u64,
) -> Result<(Layout, Vec<Text>), BeginFault>
    requires long { FRESH_BYTES < size }
    requires size { H.tells_image → size ≡ length (H.now host.old).image }
    ensures opened { H.tells_image → IfOk result (λ found. reads (H.now host.old).image ≡ Ok (record { layout = found.0; payloads = found.1.items })) }
    ensures refused { H.tells_image → IfNotAStore result (λ at. reads (H.now host.old).image ≡ Err at) }
    ensures image { (H.now host.new).image ≡ (H.now host.old).image }
    ensures rest { KeepsButStore (H.now host.old) (H.now host.new) }
    ensures stops { Leaves H.clock H.stopped host.old host.new (H.stopped host.old (H.clock host.old)) }
    ensures now { (c s : List ℕ) → H.stopped host.new (H.clock host.new) c s → H.stopped host.old (H.clock host.old) c s }
    ensures fault { IsErrOf result BeginFault.StoreFault → RoseByOne (H.now host.old).store_faults (H.now host.new).store_faults }
    ensures faultless { OnOk result ((H.now host.new).store_faults ≡ (H.now host.old).store_faults) }
    ensures refused_faultless { (IsNotAStore result ⊎ IsErrOf result BeginFault.Memory) → (H.now host.new).store_faults ≡ (H.now host.old).store_faults }
{
    let mut head = [0; HEAD_BYTES];
    host.read_at(0, &mut head)?;
    let live = match live_slot(&head) {
        Ok(live) => live,
        Err(at) => return Err(BeginFault::NotAStore { at }),
    };
    if live.start < HEAD_BYTES as u64 || size <= live.start {
        return Err(BeginFault::NotAStore { at: live.start });
    }
    let (payloads, gate) = read_region(alloc, host, live.start, size)?;
    Ok((layout_of(size, live, &payloads, gate), payloads))
}
