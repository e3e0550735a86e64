//! Laws of images and workspaces, for the crates above.
ghost use Rattle.abc_store.specs.Laws.{OpensToOne, LongerOpensToo, SettledOpensToo, CheckpointsHoldAll, ChangesLeadThere, UnitsAreSet, KeptUnitsAreRegular, DroppingStaysTyped, PayloadsAreLeft};

use abc_fewer::kept_units_stay_typable;
use abc_parse::{computed_item, numbered_items, regular_items, unit_alone};
use abc_record::laws::spellings_are_told_apart;

/// An image opens to one workspace or is wrong at one place, and what stands past its end means nothing. The image that a short one
/// is replaced by opens to the same.
pub fn images_open_to_one()
    ensures one { OpensToOne }
    ensures longer { LongerOpensToo }
    ensures settled { SettledOpensToo }
{
    spellings_are_told_apart();
}

/// A checkpoint of a workspace makes it of the empty one, and the changes between two workspaces lead from one to the other.
pub fn changes_lead_there()
    ensures checkpoints { CheckpointsHoldAll }
    ensures between { ChangesLeadThere }
{}

/// A unit that an item spells is the one that its lines put in a workspace.
pub fn units_are_set()
    ensures { UnitsAreSet }
{
    computed_item();
    unit_alone();
}

/// A unit that is kept is regular, and the numbers that are written in it are numbers.
pub fn kept_units_are_regular()
    ensures { KeptUnitsAreRegular }
{
    regular_items();
    numbered_items();
}

/// What types fit they fit without any of its units too.
pub fn dropping_stays_typed()
    ensures { DroppingStaysTyped }
{
    kept_units_stay_typable();
}

/// A commit of some changes leaves, where they are kept, what was there and its record, the checkpoint of the workspace before it and
/// its record, or the checkpoint of the later one alone; where they are too large, what was there; where the store is full, that, or
/// the checkpoint of the workspace before it alone.
pub fn payloads_are_left()
    ensures { PayloadsAreLeft }
{}
