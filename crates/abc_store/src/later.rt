//! What is kept after a commit, made before its first write.
ghost use Rattle.std.specs.Prelude.{◌≡◌, true, not, Some, IfOk, OnErr};
ghost use Rattle.abc_record.specs.Kept.{AreKept};
ghost use Rattle.abc_store.specs.Workspace.{Workspace, changed_by};
ghost use Rattle.abc_store.specs.inner.Steps.{IsSpellable, IsCheckpoint};
ghost use Rattle.abc_store.specs.inner.Later.{later_of, Stands, is_of_target, are_of_targets as are_all_of_targets};

use crate::changing::make_all;
use crate::contents::{Contents, Unmade};
use crate::whole::{checkpoint_of, everything};
use abc_frames::Targets;
use abc_num::OutOfMemory;
use abc_record::Change;
use std::alloc::Global;

/// What is kept after a commit.
#[derive(Drop)]
pub(crate) enum Later {
    /// The contents as they stand, in which the change was made already.
    Standing,
    /// These targets, and the units that stand.
    Targets(Targets),
    /// All of these.
    Whole(Contents),
}

impl Later {
    /// Turns the contents that stand into the later ones. This takes no memory.
    pub(crate) fn take_place(self, contents: &mut Contents)
        ensures { contents.new ≡ later_of contents.old self }
    {
        match self {
            Later::Standing => {}
            Later::Targets(targets) => contents.set_targets(targets),
            Later::Whole(later) => *contents = later,
        }
    }

    /// The payload of a checkpoint of the later contents.
    pub(crate) fn checkpoint(
        &self,
        alloc: Global,
        contents: &Contents,
    ) -> Result<Vec<u8>, OutOfMemory>
        requires spellable { IsSpellable (later_of contents.now self.now) }
        ensures { IfOk result (λ payload. IsCheckpoint payload.items (later_of contents.now self.now)) }
    {
        match self {
            Later::Standing => checkpoint_of(alloc, contents.targets(), contents.units()),
            Later::Targets(targets) => checkpoint_of(alloc, targets, contents.units()),
            Later::Whole(later) => checkpoint_of(alloc, later.targets(), later.units()),
        }
    }
}

/// Makes the changes, and keeps what stands as it is: the targets are copied, and where a unit changes the units too.
pub(crate) fn made_apart(
    alloc: Global,
    contents: &Contents,
    changes: Vec<Change>,
) -> Result<Later, OutOfMemory>
    requires spellable { IsSpellable contents.now }
    requires kept { AreKept changes.items }
    requires later { (later : Workspace) × (changed_by changes.items contents.now ≡ Some later) }
    ensures { IfOk result (λ later. changed_by changes.items contents.now ≡ Some (later_of contents.now later)) }
{
    if are_of_targets(&changes) {
        return targets_apart(contents, changes);
    }
    let mut later = copy(alloc, contents)?;
    match make_all(&mut later, changes) {
        Ok(()) => Ok(Later::Whole(later)),
        Err(Unmade::NoUnit) => unreachable!(),
        Err(Unmade::Memory) => Err(OutOfMemory),
    }
}

/// Makes changes of targets alone.
fn targets_apart(contents: &Contents, changes: Vec<Change>) -> Result<Later, OutOfMemory>
    requires kept { AreKept changes.items }
    requires targets { are_all_of_targets changes.items ≡ true }
    ensures { IfOk result (λ later. changed_by changes.items contents.now ≡ Some (later_of contents.now later)) }
{
    let mut later = contents.targets_alone()?;
    match make_all(&mut later, changes) {
        Ok(()) => Ok(Later::Targets(later.into_targets())),
        Err(Unmade::NoUnit) => unreachable!(),
        Err(Unmade::Memory) => Err(OutOfMemory),
    }
}

/// Makes the changes where nothing but their record will be written, so that they can't be refused any more: a single one where
/// it belongs, with no copy of what else is kept.
pub(crate) fn made_at_once(
    alloc: Global,
    contents: &mut Contents,
    mut changes: Vec<Change>,
) -> Result<Later, OutOfMemory>
    requires spellable { IsSpellable contents.old }
    requires kept { AreKept changes.items }
    requires later { (later : Workspace) × (changed_by changes.items contents.old ≡ Some later) }
    ensures later { IfOk result (λ later. changed_by changes.items contents.old ≡ Some (later_of contents.new later)) }
    ensures standing { IfOk result (λ later. Stands contents.old contents.new later) }
    ensures err { OnErr result (contents.new ≡ contents.old) }
{
    if changes.len() > 1 {
        return made_apart(alloc, contents, changes);
    }
    let Some(change) = changes.pop() else {
        return Ok(Later::Standing);
    };
    match contents.make(change) {
        Ok(()) => Ok(Later::Standing),
        Err(Unmade::NoUnit) => unreachable!(),
        Err(Unmade::Memory) => Err(OutOfMemory),
    }
}

/// Whether no change is one of a unit.
fn are_of_targets(changes: &[Change]) -> bool
    ensures { result ≡ are_all_of_targets changes.now }
{
    for change in changes {
        if is_of_unit(change) {
            return false;
        }
    }
    true
}

fn is_of_unit(change: &Change) -> bool
    ensures { result ≡ not (is_of_target change.now) }
{
    match change {
        Change::SetTarget { .. } => false,
        Change::DropTarget { .. } => false,
        Change::SetUnit { .. } => true,
        Change::DropUnit { .. } => true,
    }
}

/// Equal contents. The units are read again from their lines.
fn copy(alloc: Global, contents: &Contents) -> Result<Contents, OutOfMemory>
    requires spellable { IsSpellable contents.now }
    ensures { IfOk result (λ copy. copy ≡ contents.now) }
{
    let changes = everything(alloc, contents.targets(), contents.units())?;
    let mut copy = Contents::new(alloc);
    match make_all(&mut copy, changes) {
        Ok(()) => Ok(copy),
        Err(Unmade::NoUnit) => unreachable!(),
        Err(Unmade::Memory) => Err(OutOfMemory),
    }
}
