//! What the records of an image make, and whether types fit it.
ghost use Rattle.std.specs.Prelude.{◌≡◌, ◌↔◌, ◌+◌, ◌-◌, ◌^◌, ℕ, min, Ok, Err, IfOk, OnOk, IsErrOf, IsTrue};
ghost use Rattle.abc_journal.specs.Journal.{IfNotAStore};
ghost use Rattle.abc_store.specs.Workspace.{empty, AreKeptUnits, IsWellTyped};
ghost use Rattle.abc_store.specs.Opening.{LeadsTo, LeadsNowhere, Make, ComeTo};
ghost use Rattle.abc_store.specs.inner.Steps.{IsSpellable};

use crate::changing::make_all;
use crate::contents::{Contents, Unmade};
use abc_check::Checker;
use abc_frames::Targets;
use abc_journal::BeginFault;
use abc_journal::format::RECORD_EXTRA;
use abc_num::{OutOfMemory, Text};
use abc_parse::regular_templates;
use abc_record::{RecordFault, read_changes};
use abc_tree::{Units, one_template};
use std::alloc::Global;

/// Why a record is not followed.
#[derive(Clone, Copy, Debug, PartialEq, Eq)]
enum Unfollowed {
    /// It spells no changes that can be made, or more is there after them than a workspace may have.
    Nowhere,
    /// There was not enough memory.
    Memory,
}

/// The contents after the records of these payloads, where types fit them. The first record has its gate at `start`.
///
/// Errors: `NotAStore` as [`replay`] has it, or at `start` where no types fit what the records make. `Memory`.
pub(crate) fn opened(alloc: Global, start: u64, payloads: &[Text]) -> Result<Contents, BeginFault>
    ensures come { IfOk result (λ contents. ComeTo start payloads.now (Ok contents)) }
    ensures spellable { IfOk result IsSpellable }
    ensures typed { IfOk result IsWellTyped }
    ensures refused { IfNotAStore result (λ at. (gate : ℕ) × ComeTo start payloads.now (Err gate) × (at ≡ min gate (2 ^ 64 - 1))) }
    ensures no_fault { IsErrOf result BeginFault.StoreFault → ⊥ }
{
    let contents = replay(alloc, start, payloads)?;
    let typed = are_typed(alloc, contents.targets(), contents.units())?;
    if !typed {
        return Err(BeginFault::NotAStore { at: start });
    }
    Ok(contents)
}

/// Whether types fit these targets and units.
fn are_typed(alloc: Global, targets: &Targets, units: &Units) -> Result<bool, OutOfMemory>
    requires kept { AreKeptUnits units.now }
    ensures { IfOk result (λ yes. IsTrue yes ↔ IsWellTyped (record { targets = targets.now; units = units.now })) }
{
    regular_templates();
    one_template();
    let mut checker = Checker::over(alloc, units)?;
    checker.fits(targets)
}

/// The contents after the records of these payloads, the first of which has its gate at `start`. Each change is made once.
///
/// Errors: `NotAStore` with the place of the gate of the first record that spells no changes which can be made, or after which there
/// are too many targets or units; a place past 2^64 - 1, which no image has, is told as that. `Memory`.
fn replay(alloc: Global, start: u64, payloads: &[Text]) -> Result<Contents, BeginFault>
    ensures made { IfOk result (λ contents. Make start empty payloads.now (Ok contents)) }
    ensures refused { IfNotAStore result (λ at. (gate : ℕ) × Make start empty payloads.now (Err gate) × (at ≡ min gate (2 ^ 64 - 1))) }
    ensures no_fault { IsErrOf result BeginFault.StoreFault → ⊥ }
{
    let mut contents = Contents::new(alloc);
    let mut gate = start;
    for payload in payloads {
        match follow(alloc, &mut contents, payload.bytes()) {
            Ok(()) => gate = gate_behind(gate, payload.bytes().len()),
            Err(Unfollowed::Nowhere) => return Err(BeginFault::NotAStore { at: gate }),
            Err(Unfollowed::Memory) => return Err(BeginFault::Memory),
        }
    }
    Ok(contents)
}

/// The place of the next gate.
fn gate_behind(gate: u64, bytes: usize) -> u64
    ensures { result ≡ min (gate + RECORD_EXTRA + bytes) (2 ^ 64 - 1) }
{
    gate.saturating_add(RECORD_EXTRA as u64)
        .saturating_add(bytes as u64)
}

/// Makes the changes of a record. After an error the contents are of no use.
///
/// Errors: `Nowhere` where it spells none that can be made, or more is there after them than a workspace may have. `Memory`.
fn follow(alloc: Global, contents: &mut Contents, payload: &[u8]) -> Result<(), Unfollowed>
    ensures leads { OnOk result (LeadsTo payload.now contents.old contents.new) }
    ensures nowhere { IsErrOf result Unfollowed.Nowhere → LeadsNowhere payload.now contents.old }
{
    let changes = match read_changes(alloc, payload) {
        Ok(changes) => changes,
        Err(RecordFault::BadRecord { .. }) => return Err(Unfollowed::Nowhere),
        Err(RecordFault::Memory) => return Err(Unfollowed::Memory),
    };
    match make_all(contents, changes) {
        Ok(()) if contents.is_within_limits() => Ok(()),
        Ok(()) => Err(Unfollowed::Nowhere),
        Err(Unmade::NoUnit) => Err(Unfollowed::Nowhere),
        Err(Unmade::Memory) => Err(Unfollowed::Memory),
    }
}
