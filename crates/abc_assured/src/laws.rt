//! The premises of soundness that a session meets.
ghost use Rattle.abc_assured.specs.Assured.{AllReached, MeetsPremises};

/// Where no unit is missing, each template that a command calls, or that is reached from one, has a unit.
pub fn none_missing()
    ensures { AllReached }
{}

/// A command that was read, over units that were read, meets the premises of soundness where no unit is missing.
pub fn session_items()
    ensures { MeetsPremises }
{}
