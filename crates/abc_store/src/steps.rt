//! The writes of a commit, step by step, and what the image opens to meanwhile.
ghost use Rattle.std.specs.Prelude.{◌≡◌, ◌≤◌, ◌+◌, ◌++◌, ◌∷◌, [], List, ℕ, Bool, true, false, length, not, None, Ok, Err, IfErr, OnOk, IsErrOf, IsTrue, option_map};
ghost use Rattle.abc_outside.specs.Outside.{RoseByOne, KeepsButStore};
ghost use Rattle.abc_outside.specs.Stop.{Leaves, IsQuiet};
ghost use Rattle.abc_journal.specs.Image.{payloads_of};
ghost use Rattle.abc_journal.specs.Journal.{HasLayout, IsFull};
ghost use Rattle.abc_journal.specs.Commit.{Full, AnswersTo, recorded, checkpointed, with_room, with_due, is_due as is_due_in, committed};
ghost use Rattle.abc_store.specs.Workspace.{Workspace, empty, checkpoint_of, IsWellTyped};
ghost use Rattle.abc_store.specs.Opening.{LeadsTo, OpensTo};
ghost use Rattle.abc_store.specs.Commit.{Refusal, kept_in, payloads_with_due, payloads_committed, StillOpens, OpensToEither};
ghost use Rattle.abc_store.specs.inner.Steps.{IsNoFault, SaysLimit, IsMadeUp, IsPlan, fits, renewed_by, TakesDue};

use crate::due::is_due;
use abc_journal::format::RECORD_EXTRA;
use abc_journal::{AppendFault, Journal};
use abc_outside::Host;

/// Takes a checkpoint of the workspace that the image opens to.
fn renew<H: Host>(journal: &mut Journal, host: &mut H, payload: &[u8]) -> Result<(), AppendFault>
    requires sound { IsTrue journal.old.sound }
    requires layout { H.tells_image → HasLayout (H.now host.old).image journal.old.layout }

    ensures layouts { AnswersTo result journal.new.layout (checkpointed journal.old.bounds journal.old.layout (length payload.now)) }
    ensures limit { SaysLimit result journal.old.bounds.image }
    ensures layout { H.tells_image → IsNoFault result → HasLayout (H.now host.new).image journal.new.layout }
    ensures opens { H.tells_image → (kept : Workspace) → LeadsTo payload.now empty kept → OpensTo (H.now host.old).image kept
        → IsNoFault result → OpensTo (H.now host.new).image kept }
    ensures payloads { H.tells_image → OnOk result (payloads_of (H.now host.new).image ≡ Ok (payload.now ∷ [])) }
    ensures full_host { IsFull result → host.new ≡ host.old }
    ensures fault { IsErrOf result AppendFault.StoreFault → RoseByOne (H.now host.old).store_faults (H.now host.new).store_faults }
    ensures faultless { IsNoFault result → (H.now host.new).store_faults ≡ (H.now host.old).store_faults }
    ensures no_memory { IsErrOf result AppendFault.Memory → ⊥ }
    ensures rest { KeepsButStore (H.now host.old) (H.now host.new) }
    ensures bounds { journal.new.bounds ≡ journal.old.bounds }
    ensures reserved { journal.new.reserved ≡ journal.old.reserved }
    ensures sound_after { IsNoFault result → IsTrue journal.new.sound }
    ensures unsound { IsErrOf result AppendFault.StoreFault → journal.new.sound ≡ false }

    ensures stops { H.tells_image → IsQuiet H.clock H.stopped host.old (H.now host.old).image
        → (kept : Workspace) → LeadsTo payload.now empty kept → OpensTo (H.now host.old).image kept
        → Leaves H.clock H.stopped host.old host.new (StillOpens kept (H.now host.old).said) }
    ensures quiet { H.tells_image → IsQuiet H.clock H.stopped host.old (H.now host.old).image
        → IsNoFault result → IsQuiet H.clock H.stopped host.new (H.now host.new).image }
{
    journal.checkpoint(host, payload)
}

/// Makes room with the checkpoint that was made up for that, if one was.
fn make_room<H: Host>(
    journal: &mut Journal,
    host: &mut H,
    before: Option<&[u8]>,
) -> Result<(), AppendFault>
    requires sound { IsTrue journal.old.sound }
    requires layout { H.tells_image → HasLayout (H.now host.old).image journal.old.layout }

    ensures layouts { (bytes : ℕ) (kept : Workspace) → IsMadeUp (not (fits journal.old.bounds journal.old.layout bytes)) (option_map (λ p. p.now) before.entry) kept
        → AnswersTo result journal.new.layout (with_room journal.old.bounds journal.old.layout bytes (length (checkpoint_of kept))) }
    ensures limit { SaysLimit result journal.old.bounds.image }
    ensures layout { H.tells_image → IsNoFault result → HasLayout (H.now host.new).image journal.new.layout }
    ensures opens { H.tells_image → (wanted : Bool) (kept : Workspace) → IsMadeUp wanted (option_map (λ p. p.now) before.entry) kept → OpensTo (H.now host.old).image kept
        → IsNoFault result → OpensTo (H.now host.new).image kept }
    ensures payloads { H.tells_image → (ps : List (List ℕ)) → payloads_of (H.now host.old).image ≡ Ok ps
        → OnOk result (payloads_of (H.now host.new).image ≡ Ok (renewed_by (option_map (λ p. p.now) before.entry) ps)) }
    ensures full_host { IsFull result → host.new ≡ host.old }
    ensures fault { IsErrOf result AppendFault.StoreFault → RoseByOne (H.now host.old).store_faults (H.now host.new).store_faults }
    ensures faultless { IsNoFault result → (H.now host.new).store_faults ≡ (H.now host.old).store_faults }
    ensures no_memory { IsErrOf result AppendFault.Memory → ⊥ }
    ensures rest { KeepsButStore (H.now host.old) (H.now host.new) }
    ensures bounds { journal.new.bounds ≡ journal.old.bounds }
    ensures reserved { journal.new.reserved ≡ journal.old.reserved }
    ensures sound_after { IsNoFault result → IsTrue journal.new.sound }
    ensures unsound { IsErrOf result AppendFault.StoreFault → journal.new.sound ≡ false }

    ensures stops { H.tells_image → IsQuiet H.clock H.stopped host.old (H.now host.old).image
        → (wanted : Bool) (kept : Workspace) → IsMadeUp wanted (option_map (λ p. p.now) before.entry) kept → OpensTo (H.now host.old).image kept
        → Leaves H.clock H.stopped host.old host.new (StillOpens kept (H.now host.old).said) }
    ensures quiet { H.tells_image → IsQuiet H.clock H.stopped host.old (H.now host.old).image
        → IsNoFault result → IsQuiet H.clock H.stopped host.new (H.now host.new).image }
{
    match before {
        Some(payload) => renew(journal, host, payload),
        None => Ok(()),
    }
}

/// Adds a record, for which the memory was taken.
fn add_record<H: Host>(
    journal: &mut Journal,
    host: &mut H,
    payload: &[u8],
) -> Result<(), AppendFault>
    requires sound { IsTrue journal.old.sound }
    requires layout { H.tells_image → HasLayout (H.now host.old).image journal.old.layout }
    requires reserved { length payload.now + RECORD_EXTRA ≤ journal.old.reserved }

    ensures layouts { AnswersTo result journal.new.layout (recorded journal.old.bounds journal.old.layout (length payload.now)) }
    ensures limit { SaysLimit result journal.old.bounds.image }
    ensures layout { H.tells_image → IsNoFault result → HasLayout (H.now host.new).image journal.new.layout }
    ensures opens { H.tells_image → (kept later : Workspace) → LeadsTo payload.now kept later → IsWellTyped later → OpensTo (H.now host.old).image kept → OnOk result (OpensTo (H.now host.new).image later) }
    ensures payloads { H.tells_image → (ps : List (List ℕ)) → payloads_of (H.now host.old).image ≡ Ok ps → OnOk result (payloads_of (H.now host.new).image ≡ Ok (ps ++ payload.now ∷ [])) }
    ensures full_host { IsFull result → host.new ≡ host.old }
    ensures unfit { (full : Full) → recorded journal.old.bounds journal.old.layout (length payload.now) ≡ Err full → IsFull result }
    ensures fault { IsErrOf result AppendFault.StoreFault → RoseByOne (H.now host.old).store_faults (H.now host.new).store_faults }
    ensures faultless { IsNoFault result → (H.now host.new).store_faults ≡ (H.now host.old).store_faults }
    ensures no_memory { IsErrOf result AppendFault.Memory → ⊥ }
    ensures rest { KeepsButStore (H.now host.old) (H.now host.new) }
    ensures bounds { journal.new.bounds ≡ journal.old.bounds }
    ensures sound_after { IsNoFault result → IsTrue journal.new.sound }
    ensures unsound { IsErrOf result AppendFault.StoreFault → journal.new.sound ≡ false }

    ensures stops { H.tells_image → IsQuiet H.clock H.stopped host.old (H.now host.old).image
        → (kept later : Workspace) → LeadsTo payload.now kept later → IsWellTyped later → OpensTo (H.now host.old).image kept
        → Leaves H.clock H.stopped host.old host.new (OpensToEither kept later (H.now host.old).said) }
    ensures quiet { H.tells_image → IsQuiet H.clock H.stopped host.old (H.now host.old).image
        → IsNoFault result → IsQuiet H.clock H.stopped host.new (H.now host.new).image }
{
    journal.append(host, payload)
}

/// Takes the checkpoint that was made up, where it is due and fits.
fn take_due<H: Host>(
    journal: &mut Journal,
    host: &mut H,
    checkpoint: u64,
    after: Option<&[u8]>,
) -> Result<(), AppendFault>
    requires sound { IsTrue journal.old.sound }
    requires layout { H.tells_image → HasLayout (H.now host.old).image journal.old.layout }
    requires bound { journal.old.bounds.checkpoint ≡ checkpoint }

    ensures layouts { (later : Workspace) → TakesDue (is_due_in journal.old.bounds journal.old.layout) (option_map (λ p. p.now) after.entry) later
        → OnOk result (journal.new.layout ≡ with_due journal.old.bounds journal.old.layout (length (checkpoint_of later))) }
    ensures no_other { IfErr result (λ fault. fault ≡ AppendFault.StoreFault) }
    ensures layout { H.tells_image → OnOk result (HasLayout (H.now host.new).image journal.new.layout) }
    ensures opens { H.tells_image → (due : Bool) (later : Workspace) → TakesDue due (option_map (λ p. p.now) after.entry) later → OpensTo (H.now host.old).image later → OnOk result (OpensTo (H.now host.new).image later) }
    ensures payloads { H.tells_image → (later : Workspace) → TakesDue (is_due_in journal.old.bounds journal.old.layout) (option_map (λ p. p.now) after.entry) later
        → (ps : List (List ℕ)) → payloads_of (H.now host.old).image ≡ Ok ps
        → OnOk result (payloads_of (H.now host.new).image ≡ Ok (payloads_with_due journal.old.bounds journal.old.layout (checkpoint_of later) ps)) }
    ensures fault { IsErrOf result AppendFault.StoreFault → RoseByOne (H.now host.old).store_faults (H.now host.new).store_faults }
    ensures faultless { OnOk result ((H.now host.new).store_faults ≡ (H.now host.old).store_faults) }
    ensures rest { KeepsButStore (H.now host.old) (H.now host.new) }
    ensures bounds { journal.new.bounds ≡ journal.old.bounds }
    ensures sound_after { OnOk result (IsTrue journal.new.sound) }
    ensures unsound { IsErrOf result AppendFault.StoreFault → journal.new.sound ≡ false }

    ensures stops { H.tells_image → IsQuiet H.clock H.stopped host.old (H.now host.old).image
        → (due : Bool) (later : Workspace) → TakesDue due (option_map (λ p. p.now) after.entry) later → OpensTo (H.now host.old).image later
        → Leaves H.clock H.stopped host.old host.new (StillOpens later (H.now host.old).said) }
    ensures quiet { H.tells_image → IsQuiet H.clock H.stopped host.old (H.now host.old).image
        → OnOk result (IsQuiet H.clock H.stopped host.new (H.now host.new).image) }
{
    let Some(payload) = after else {
        return Ok(());
    };
    if !is_due(journal.layout(), checkpoint) {
        return Ok(());
    }
    match renew(journal, host, payload) {
        Ok(()) => Ok(()),
        Err(AppendFault::StoreFault) => Err(AppendFault::StoreFault),
        // It is left out where it doesn't fit.
        Err(AppendFault::StoreFull { .. }) => Ok(()),
        Err(AppendFault::Memory) => unreachable!(),
    }
}

/// Writes a commit: room is made, the record is added, and the due checkpoint is taken. This takes no memory.
pub(crate) fn write_all<H: Host>(
    journal: &mut Journal,
    host: &mut H,
    checkpoint: u64,
    before: Option<&[u8]>,
    payload: &[u8],
    after: Option<&[u8]>,
) -> Result<(), AppendFault>
    requires sound { IsTrue journal.old.sound }
    requires layout { H.tells_image → HasLayout (H.now host.old).image journal.old.layout }
    requires reserved { length payload.now + RECORD_EXTRA ≤ journal.old.reserved }
    requires bound { journal.old.bounds.checkpoint ≡ checkpoint }

    ensures layouts { (kept later : Workspace) → IsPlan journal.old.bounds journal.old.layout payload.now (option_map (λ p. p.now) before.entry) (option_map (λ p. p.now) after.entry) kept later
        → AnswersTo result journal.new.layout (committed journal.old.bounds journal.old.layout (length payload.now) (length (checkpoint_of kept)) (length (checkpoint_of later))) }
    ensures limit { SaysLimit result journal.old.bounds.image }
    ensures layout { H.tells_image → IsNoFault result → HasLayout (H.now host.new).image journal.new.layout }
    ensures opens { H.tells_image → (kept later : Workspace) → IsPlan journal.old.bounds journal.old.layout payload.now (option_map (λ p. p.now) before.entry) (option_map (λ p. p.now) after.entry) kept later
        → OpensTo (H.now host.old).image kept → OnOk result (OpensTo (H.now host.new).image later) }
    ensures payloads { H.tells_image → (kept later : Workspace) → IsPlan journal.old.bounds journal.old.layout payload.now (option_map (λ p. p.now) before.entry) (option_map (λ p. p.now) after.entry) kept later
        → (ps : List (List ℕ)) → payloads_of (H.now host.old).image ≡ Ok ps → IsNoFault result
        → payloads_of (H.now host.new).image ≡ Ok (payloads_committed journal.old.bounds journal.old.layout payload.now (checkpoint_of kept) (checkpoint_of later) ps) }
    ensures full_opens { H.tells_image → (kept later : Workspace) → IsPlan journal.old.bounds journal.old.layout payload.now (option_map (λ p. p.now) before.entry) (option_map (λ p. p.now) after.entry) kept later
        → OpensTo (H.now host.old).image kept → IsFull result → OpensTo (H.now host.new).image kept }
    ensures unfit { (kept later : Workspace) → IsPlan journal.old.bounds journal.old.layout payload.now (option_map (λ p. p.now) before.entry) (option_map (λ p. p.now) after.entry) kept later
        → IsFull result → fits journal.old.bounds journal.old.layout (length payload.now) ≡ false }
    ensures fault { IsErrOf result AppendFault.StoreFault → RoseByOne (H.now host.old).store_faults (H.now host.new).store_faults }
    ensures faultless { IsNoFault result → (H.now host.new).store_faults ≡ (H.now host.old).store_faults }
    ensures no_memory { IsErrOf result AppendFault.Memory → ⊥ }
    ensures rest { KeepsButStore (H.now host.old) (H.now host.new) }
    ensures bounds { journal.new.bounds ≡ journal.old.bounds }
    ensures sound_after { IsNoFault result → IsTrue journal.new.sound }
    ensures unsound { IsErrOf result AppendFault.StoreFault → journal.new.sound ≡ false }

    ensures stops { H.tells_image → IsQuiet H.clock H.stopped host.old (H.now host.old).image
        → (kept later : Workspace) → IsPlan journal.old.bounds journal.old.layout payload.now (option_map (λ p. p.now) before.entry) (option_map (λ p. p.now) after.entry) kept later
        → OpensTo (H.now host.old).image kept
        → Leaves H.clock H.stopped host.old host.new (OpensToEither kept later (H.now host.old).said) }
    ensures full_stops { H.tells_image → IsQuiet H.clock H.stopped host.old (H.now host.old).image
        → (kept later : Workspace) → IsPlan journal.old.bounds journal.old.layout payload.now (option_map (λ p. p.now) before.entry) (option_map (λ p. p.now) after.entry) kept later
        → OpensTo (H.now host.old).image kept
        → IsFull result → Leaves H.clock H.stopped host.old host.new (StillOpens kept (H.now host.old).said) }
    ensures unfit_stops { H.tells_image → IsQuiet H.clock H.stopped host.old (H.now host.old).image
        → (kept later : Workspace) (refusal : Refusal) → IsPlan journal.old.bounds journal.old.layout payload.now (option_map (λ p. p.now) before.entry) (option_map (λ p. p.now) after.entry) kept later
        → OpensTo (H.now host.old).image kept
        → kept_in later (committed journal.old.bounds journal.old.layout (length payload.now) (length (checkpoint_of kept)) (length (checkpoint_of later))) ≡ Err refusal
        → Leaves H.clock H.stopped host.old host.new (StillOpens kept (H.now host.old).said) }
    ensures quiet { H.tells_image → IsQuiet H.clock H.stopped host.old (H.now host.old).image
        → IsNoFault result → IsQuiet H.clock H.stopped host.new (H.now host.new).image }
{
    make_room(journal, host, before)?;
    add_record(journal, host, payload)?;
    take_due(journal, host, checkpoint, after)
}
