//! Laws on what a commit does to the layout.
ghost use Rattle.abc_journal.specs.Commit.{FittingIsAdded, NeitherFits, RoomIsMade};

/// A commit is an append, with a checkpoint before it where the record doesn't fit, and one after it where
/// that is due and fits.
pub fn commits_in_steps()
    ensures fitting { FittingIsAdded }
    ensures full { NeitherFits }
    ensures room { RoomIsMade }
{}
