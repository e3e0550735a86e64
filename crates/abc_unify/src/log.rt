//! The trail: each write of a slot goes through `write`, which keeps what the slot was, so that backtracking can take it back.
ghost use Rattle.std.specs.Prelude.{◌≡◌, ◌<◌, ◌≤◌, length, take, drop, slice_set, IfOk, OnErr};
ghost use Rattle.std.specs.List.{All};
ghost use Rattle.abc_unify.specs.inner.Slots.{SlotsIn};
ghost use Rattle.abc_unify.specs.inner.Logs.{IsLogged, rolled, EntryIn};

use crate::kind::Slot;
use abc_terms::VarId;
use std::alloc::AllocError;
use std::mem;

/// What a slot was before a write.
#[derive(Drop)]
pub struct Entry {
    pub at: VarId,
    pub was: Slot,
}

/// Writes a slot. Want of memory changes nothing.
pub fn write(
    slots: &mut [Slot],
    log: &mut Vec<Entry>,
    at: VarId,
    slot: Slot,
) -> Result<(), AllocError>
    requires slots { SlotsIn slots.old }
    requires at { at.0 < length slots.old }
    ensures slots { IfOk result (λ _. slots.new ≡ slice_set slots.old at.0 slot) }
    ensures logged { IsLogged slots.old log.old.items slots.new log.new.items }
    ensures err { OnErr result (slots.new ≡ slots.old) }
{
    log.reserve(1)?;
    let place = &mut slots[at.index()];
    let was = mem::replace(place, slot);
    // There is room, so this takes no memory and does not fail.
    let _ = log.push(Entry { at, was });
    Ok(())
}

/// Takes back the writes since the log had this length. It takes no memory.
pub fn roll_back(slots: &mut [Slot], log: &mut Vec<Entry>, keep: usize)
    requires keep { keep ≤ length log.old.items }
    requires inside { All (EntryIn (length slots.old)) log.old.items }
    ensures slots { slots.new ≡ rolled slots.old (drop keep log.old.items) }
    ensures log { log.new.items ≡ take keep log.old.items }
{
    while log.len() > keep {
        if let Some(entry) = log.pop() {
            let Entry { at, was } = entry;
            put(slots, at, was);
        }
    }
}

fn put(slots: &mut [Slot], at: VarId, slot: Slot)
    requires { at.0 < length slots.old }
    ensures { slots.new ≡ slice_set slots.old at.0 slot }
{
    slots[at.index()] = slot;
}
