//! All that a commit writes, made up before the first write.
ghost use Rattle.std.specs.Prelude.{◌≡◌, ◌≤◌, ◌+◌, ◌<◌, ◌^◌, false, length, Some, IfOk, OnErr, option_map};
ghost use Rattle.abc_record.specs.Spelling.{spelled};
ghost use Rattle.abc_record.specs.Kept.{AreKept};
ghost use Rattle.abc_store.specs.Workspace.{Workspace, changed_by, IsWithinLimits, IsWellTyped};
ghost use Rattle.abc_store.specs.inner.Steps.{IsSpellable, IsPlan, fits};
ghost use Rattle.abc_store.specs.inner.Later.{later_of};

use crate::contents::Contents;
use crate::due::may_be_due;
use crate::later::{Later, made_apart, made_at_once};
use crate::whole::checkpoint_if;
use abc_journal::Journal;
use abc_journal::format::RECORD_EXTRA;
use abc_num::OutOfMemory;
use abc_record::{Change, write_changes};
use std::alloc::Global;

/// What a commit writes, and what is kept after it.
#[derive(Drop)]
pub(crate) struct Plan {
    /// The record of the changes.
    pub(crate) payload: Vec<u8>,
    /// The checkpoint that makes room, where the record doesn't fit.
    pub(crate) before: Option<Vec<u8>>,
    /// The checkpoint after it, where one may be due.
    pub(crate) after: Option<Vec<u8>>,
    pub(crate) later: Later,
}

/// Makes up a commit. Where nothing but the record is to be written, a single change is made in the contents; else they stay as they
/// are. The cost is that of the changes, and of one copy of the targets where there are several; where a checkpoint is to be taken, that of
/// all that is kept.
pub(crate) fn prepare(
    alloc: Global,
    journal: &mut Journal,
    contents: &mut Contents,
    checkpoint: u64,
    changes: Vec<Change>,
) -> Result<Plan, OutOfMemory>
    requires kept { AreKept changes.items }
    requires fits { length (spelled changes.items) < 2 ^ 64 }
    requires spellable { IsSpellable contents.old }
    requires typed { IsWellTyped contents.old }
    requires later { (later : Workspace) × (changed_by changes.items contents.old ≡ Some later) × IsWithinLimits later × IsWellTyped later }
    requires bound { journal.old.bounds.checkpoint ≡ checkpoint }

    ensures plan { IfOk result (λ plan. IsPlan journal.old.bounds journal.old.layout plan.payload.items (option_map (λ p. p.items) plan.before) (option_map (λ p. p.items) plan.after)
        contents.old (later_of contents.new plan.later)) }
    ensures later { IfOk result (λ plan. changed_by changes.items contents.old ≡ Some (later_of contents.new plan.later)) }
    ensures spellable { IfOk result (λ plan. IsSpellable (later_of contents.new plan.later)) }
    ensures typed { IfOk result (λ plan. IsWellTyped (later_of contents.new plan.later)) }
    ensures standing { IfOk result (λ _. IsSpellable contents.new × IsWellTyped contents.new) }
    ensures payload { IfOk result (λ plan. plan.payload.items ≡ spelled changes.items) }
    ensures reserved { IfOk result (λ plan. length plan.payload.items + RECORD_EXTRA ≤ journal.new.reserved) }
    ensures unfit { IfOk result (λ plan. fits journal.old.bounds journal.old.layout (length plan.payload.items) ≡ false → contents.new ≡ contents.old) }
    ensures err { OnErr result (contents.new ≡ contents.old) }
    ensures layout { journal.new.layout ≡ journal.old.layout }
    ensures bounds { journal.new.bounds ≡ journal.old.bounds }
    ensures sound { journal.new.sound ≡ journal.old.sound }
{
    let payload = write_changes(alloc, &changes)?;
    journal.reserve(payload.len())?;
    if !may_be_due(journal, payload.len(), checkpoint) {
        let later = made_at_once(alloc, contents, changes)?;
        return Ok(Plan {
            payload,
            before: None,
            after: None,
            later,
        });
    }
    let fits = journal.fits(payload.len());
    let before = checkpoint_if(!fits, alloc, contents.targets(), contents.units())?;
    let later = made_apart(alloc, contents, changes)?;
    let after = later.checkpoint(alloc, contents)?;
    Ok(Plan {
        payload,
        before,
        after: Some(after),
        later,
    })
}
