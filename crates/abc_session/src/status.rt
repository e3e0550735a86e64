//! The statuses of a run.
ghost use Rattle.abc_session.specs.Status.{AreNumbered};

/// The input was read to its end or to QUIT, or it was a made one, and everything was said.
pub const COMPLETE: u8 = 0;

/// The words don't read. Nothing was said or changed.
pub const USAGE: u8 = 2;

/// The input could not be opened, or a read of it failed.
pub const INPUT_FAULT: u8 = 3;

/// The store could not be opened, or a call on it failed.
pub const STORE_FAULT: u8 = 4;

/// What was to be said could not be said.
pub const SINK_FAULT: u8 = 5;

/// The store's image does not open. Nothing was changed.
pub const NOT_A_STORE: u8 = 6;

/// There was not enough memory.
pub const MEMORY: u8 = 7;

/// The bound on the input is reached, and more is wanted.
pub const INPUT_TOO_LONG: u8 = 8;

/// The statuses have these numbers.
pub fn statuses_are_numbered()
    ensures { AreNumbered }
{}
