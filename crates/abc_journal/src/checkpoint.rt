//! The steps of a checkpoint: the other slot is closed, the region and the slot are written, the slot is opened.
ghost use Rattle.std.specs.Prelude.{◌≡◌, ◌≤◌, ◌<◌, ◌+◌, ◌^◌, ◌++◌, ◌∷◌, [], true, false, if◌then◌else◌, ◌==◌, List, ℕ, length, take, Ok, Err, IfOk, OnOk, OnErr};
ghost use Rattle.std.specs.Int.{w64, to_be_bytes};
ghost use Rattle.abc_outside.specs.Outside.{RoseByOne, KeepsButStore};
ghost use Rattle.abc_outside.specs.Stop.{written, Torn, Shortened, Leaves, IsQuiet};
ghost use Rattle.abc_journal.specs.Image.{payloads_of};
ghost use Rattle.abc_journal.specs.Journal.{HasLayout, IsSame, IsBeforeOrAfter};
ghost use Rattle.abc_journal.specs.Checkpoint.{other_place as place_of_other, closed_image, region_of, staged, published};
ghost use Rattle.abc_journal.specs.inner.Steps.{other_closed, IsPlace, IsStaged, MayBeCut};

use crate::Layout;
use crate::format::{GATE_BYTES, HEAD_BYTES, OPEN, RECORD_EXTRA, VERSION};
use crate::slots::{other_place, slot_bytes};
use crate::write::write_through;
use abc_outside::{Failed, Host};
use byteorder::{BigEndian, ByteOrder};

/// What a region of one payload begins with: an open gate and the length.
fn region_head(payload: usize) -> [u8; RECORD_EXTRA]
    ensures { result ≡ OPEN ∷ to_be_bytes w64 payload }
{
    let mut bytes = [OPEN; RECORD_EXTRA];
    BigEndian::write_u64(&mut bytes[1..], payload as u64);
    bytes
}

/// Closes the other slot, where it is open.
pub(crate) fn close_other<H: Host>(host: &mut H, layout: Layout) -> Result<(), Failed>
    requires layout { H.tells_image → HasLayout (H.now host.old).image layout }
    ensures layout { H.tells_image → OnOk result (HasLayout (H.now host.new).image (other_closed layout)) }
    ensures kept { H.tells_image → (ps : List (List ℕ)) → payloads_of (H.now host.old).image ≡ Ok ps → OnOk result (payloads_of (H.now host.new).image ≡ Ok ps) }
    ensures size { H.tells_image → OnOk result (length (H.now host.new).image ≡ length (H.now host.old).image) }
    ensures image { H.tells_image → OnOk result ((H.now host.new).image ≡ closed_image (H.now host.old).image layout) }
    ensures quiet { H.tells_image → IsQuiet H.clock H.stopped host.old (H.now host.old).image → OnOk result (IsQuiet H.clock H.stopped host.new (H.now host.new).image) }
    ensures stops { H.tells_image → IsQuiet H.clock H.stopped host.old (H.now host.old).image
        → (ps : List (List ℕ)) → payloads_of (H.now host.old).image ≡ Ok ps
        → Leaves H.clock H.stopped host.old host.new (IsSame ps (H.now host.old).said) }
    ensures rest { KeepsButStore (H.now host.old) (H.now host.new) }
    ensures cause { OnErr result (RoseByOne (H.now host.old).store_faults (H.now host.new).store_faults) }
    ensures faultless { OnOk result ((H.now host.new).store_faults ≡ (H.now host.old).store_faults) }
{
    if !layout.other {
        return Ok(());
    }
    write_through(host, other_place(layout.slot), &[0])?;
    Ok(())
}

/// Writes the region: gate and length, then the payload, then the closing gate.
fn write_region<H: Host>(host: &mut H, place: u64, payload: &[u8]) -> Result<(), Failed>
    requires room { place + (RECORD_EXTRA + GATE_BYTES) + length payload.now < 2 ^ 64 }
    requires place { H.tells_image → place ≤ length (H.now host.old).image }
    ensures image { H.tells_image → OnOk result ((H.now host.new).image ≡ written (H.now host.old).image place (region_of payload.now)) }
    ensures stops { Leaves H.clock H.stopped host.old host.new (λ c s. (d : List ℕ) × H.stopped host.old (H.clock host.old) d s × Torn place (RECORD_EXTRA + GATE_BYTES + length payload.now) d c) }
    ensures now { (c s : List ℕ) → H.stopped host.new (H.clock host.new) c s → (d : List ℕ) × H.stopped host.old (H.clock host.old) d s × Torn place (RECORD_EXTRA + GATE_BYTES + length payload.now) d c }
    ensures rest { KeepsButStore (H.now host.old) (H.now host.new) }
    ensures cause { OnErr result (RoseByOne (H.now host.old).store_faults (H.now host.new).store_faults) }
    ensures faultless { OnOk result ((H.now host.new).store_faults ≡ (H.now host.old).store_faults) }
{
    host.write_at(place, &region_head(payload.len()))?;
    host.write_at(place + RECORD_EXTRA as u64, payload)?;
    host.write_at(place + RECORD_EXTRA as u64 + payload.len() as u64, &[0])?;
    Ok(())
}

/// Writes the region at its place, and the next generation and this place into the other slot, which stays
/// closed.
pub(crate) fn stage<H: Host>(
    host: &mut H,
    layout: Layout,
    place: u64,
    payload: &[u8],
) -> Result<(), Failed>
    requires room { place + (RECORD_EXTRA + GATE_BYTES) + length payload.now < 2 ^ 64 }
    requires rises { layout.generation + 1 < 2 ^ 64 }
    requires shut { layout.other ≡ false }
    requires place { IsPlace layout place (length payload.now) }
    requires layout { H.tells_image → HasLayout (H.now host.old).image layout }
    ensures image { H.tells_image → OnOk result ((H.now host.new).image ≡ staged (H.now host.old).image layout place payload.now) }
    ensures durable { OnOk result ((c s : List ℕ) → H.stopped host.new (H.clock host.new) c s → c ≡ (H.now host.new).image) }
    ensures stops { H.tells_image → IsQuiet H.clock H.stopped host.old (H.now host.old).image
        → (ps : List (List ℕ)) → payloads_of (H.now host.old).image ≡ Ok ps
        → Leaves H.clock H.stopped host.old host.new (IsSame ps (H.now host.old).said) }
    ensures rest { KeepsButStore (H.now host.old) (H.now host.new) }
    ensures cause { OnErr result (RoseByOne (H.now host.old).store_faults (H.now host.new).store_faults) }
    ensures faultless { OnOk result ((H.now host.new).store_faults ≡ (H.now host.old).store_faults) }
{
    write_region(host, place, payload)?;
    let slot = slot_bytes(layout.generation + 1, place);
    write_through(host, other_place(layout.slot) + GATE_BYTES as u64, &slot)?;
    Ok(())
}

/// Cuts the store to this size, where the region went to the front.
fn cut_behind<H: Host>(host: &mut H, place: u64, end: u64) -> Result<(), Failed>
    requires { H.tells_image → end ≤ length (H.now host.old).image }
    ensures image { H.tells_image → OnOk result ((H.now host.new).image ≡ (if place == HEAD_BYTES then take end (H.now host.old).image else (H.now host.old).image)) }
    ensures stops { Leaves H.clock H.stopped host.old host.new (λ c s. (d : List ℕ) × H.stopped host.old (H.clock host.old) d s × MayBeCut place end d c) }
    ensures now { (c s : List ℕ) → H.stopped host.new (H.clock host.new) c s → (d : List ℕ) × H.stopped host.old (H.clock host.old) d s × MayBeCut place end d c }
    ensures rest { KeepsButStore (H.now host.old) (H.now host.new) }
    ensures cause { OnErr result (RoseByOne (H.now host.old).store_faults (H.now host.new).store_faults) }
    ensures faultless { OnOk result ((H.now host.new).store_faults ≡ (H.now host.old).store_faults) }
{
    if place != HEAD_BYTES as u64 {
        return Ok(());
    }
    host.cut(end)?;
    Ok(())
}

/// Opens the other slot, and cuts the store to the end of the region where that went to the front. Nothing
/// syncs after the cut: a stop may leave the store longer.
pub(crate) fn publish<H: Host>(
    host: &mut H,
    layout: Layout,
    place: u64,
    payload: &[u8],
) -> Result<(), Failed>
    requires room { place + (RECORD_EXTRA + GATE_BYTES) + length payload.now < 2 ^ 64 }
    requires slot { H.tells_image → place_of_other layout.slot ≤ length (H.now host.old).image }
    requires within { H.tells_image → place + (RECORD_EXTRA + GATE_BYTES) + length payload.now ≤ length (H.now host.old).image }
    ensures image { H.tells_image → OnOk result ((H.now host.new).image ≡ published (H.now host.old).image layout place (length payload.now)) }
    ensures quiet { H.tells_image → OnOk result (IsQuiet H.clock H.stopped host.new (H.now host.new).image) }
    ensures stops { H.tells_image → (base : List ℕ) (ps : List (List ℕ)) → IsStaged base (H.now host.old).image layout place payload.now ps
        → ((c s : List ℕ) → H.stopped host.old (H.clock host.old) c s → c ≡ (H.now host.old).image)
        → Leaves H.clock H.stopped host.old host.new (IsBeforeOrAfter ps (payload.now ∷ []) (H.now host.old).said) }
    ensures rest { KeepsButStore (H.now host.old) (H.now host.new) }
    ensures cause { OnErr result (RoseByOne (H.now host.old).store_faults (H.now host.new).store_faults) }
    ensures faultless { OnOk result ((H.now host.new).store_faults ≡ (H.now host.old).store_faults) }
{
    write_through(host, other_place(layout.slot), &[VERSION])?;
    let end = place + (RECORD_EXTRA + GATE_BYTES) as u64 + payload.len() as u64;
    cut_behind(host, place, end)?;
    Ok(())
}
