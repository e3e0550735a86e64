//! Changes that tell what has become of targets, and those that tell all that is kept.
ghost use Rattle.std.specs.Prelude.{◌≡◌, ◌≤◌, ◌++◌, ◌∷◌, [], length, IfOk, OnOk, map, option_map};
ghost use Rattle.abc_frames.specs.Maps.{AreRising, AreRegular};
ghost use Rattle.abc_tree.specs.Units.{AreRising as AreInOrder};
ghost use Rattle.abc_store.specs.Workspace.{as_change as change_of, set_target, set_unit, everything as everything_of};
ghost use Rattle.abc_store.specs.inner.Steps.{IsSpellable, IsCheckpoint, IsMadeUp};

use abc_frames::{TargetChange, Targets};
use abc_num::OutOfMemory;
use abc_num::limits::MOST_UNITS;
use abc_record::{Change, write_changes};
use abc_tree::{Unit, Units};
use std::alloc::Global;

/// What has become of one target, as a change.
fn as_change(change: TargetChange) -> Change
    ensures { result ≡ change_of change }
{
    let TargetChange { name, value } = change;
    match value {
        Some(value) => Change::SetTarget { name, value },
        None => Change::DropTarget { name },
    }
}

/// What has become of targets, as changes.
pub(crate) fn as_changes(
    alloc: Global,
    changes: Vec<TargetChange>,
) -> Result<Vec<Change>, OutOfMemory>
    ensures { IfOk result (λ all. all.items ≡ map change_of changes.items) }
{
    let mut all = Vec::new(alloc);
    for change in changes {
        all.push(as_change(change))?;
    }
    Ok(all)
}

/// The changes that make these targets of none, in order of their names.
fn all_targets(alloc: Global, targets: &Targets) -> Result<Vec<Change>, OutOfMemory>
    ensures all { IfOk result (λ all. all.items ≡ map set_target targets.now) }
    ensures rising { IfOk result (λ _. AreRising targets.now) }
    ensures regular { IfOk result (λ _. AreRegular targets.now) }
{
    let none = Targets::new(alloc).keep()?;
    as_changes(alloc, targets.changes(&none)?)
}

/// Adds the changes that put these units, in order of their templates.
fn add_units(alloc: Global, all: &mut Vec<Change>, units: &Units) -> Result<(), OutOfMemory>
    requires { length units.now ≤ MOST_UNITS }
    ensures all { OnOk result (all.new.items ≡ all.old.items ++ map set_unit units.now) }
{
    for at in 0..MOST_UNITS {
        match units.at(at) {
            Some(unit) => add_unit(alloc, all, unit)?,
            None => return Ok(()),
        }
    }
    Ok(())
}

/// Adds the change that puts this unit.
fn add_unit(alloc: Global, all: &mut Vec<Change>, unit: &Unit) -> Result<(), OutOfMemory>
    ensures { OnOk result (all.new.items ≡ all.old.items ++ set_unit unit.now ∷ []) }
{
    let lines = unit.lines.copy(alloc)?;
    all.push(Change::SetUnit { lines })?;
    Ok(())
}

/// The changes that make a workspace of the empty one: all targets in order of their names, then all units in order of their
/// templates.
pub(crate) fn everything(
    alloc: Global,
    targets: &Targets,
    units: &Units,
) -> Result<Vec<Change>, OutOfMemory>
    requires { length units.now ≤ MOST_UNITS }
    ensures all { IfOk result (λ all. all.items ≡ everything_of (record { targets = targets.now; units = units.now })) }
    ensures rising { IfOk result (λ _. AreRising targets.now) }
    ensures regular { IfOk result (λ _. AreRegular targets.now) }
{
    let mut all = all_targets(alloc, targets)?;
    add_units(alloc, &mut all, units)?;
    Ok(all)
}

/// The payload of a checkpoint.
pub(crate) fn checkpoint_of(
    alloc: Global,
    targets: &Targets,
    units: &Units,
) -> Result<Vec<u8>, OutOfMemory>
    requires spellable { IsSpellable (record { targets = targets.now; units = units.now }) }
    requires in_order { AreInOrder units.now }
    ensures { IfOk result (λ payload. IsCheckpoint payload.items (record { targets = targets.now; units = units.now })) }
{
    let changes = everything(alloc, targets, units)?;
    write_changes(alloc, &changes)
}

/// The payload of a checkpoint, where it is wanted.
pub(crate) fn checkpoint_if(
    wanted: bool,
    alloc: Global,
    targets: &Targets,
    units: &Units,
) -> Result<Option<Vec<u8>>, OutOfMemory>
    requires spellable { IsSpellable (record { targets = targets.now; units = units.now }) }
    requires in_order { AreInOrder units.now }
    ensures { IfOk result (λ found. IsMadeUp wanted (option_map (λ payload. payload.items) found) (record { targets = targets.now; units = units.now })) }
{
    if !wanted {
        return Ok(None);
    }
    Ok(Some(checkpoint_of(alloc, targets, units)?))
}
