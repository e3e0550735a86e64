//! Laws of lines that take a unit out.
ghost use Rattle.abc_inquiry.specs.Laws.{DropsKeepWithinLimits, DroppedAreGone, AskedCanBeSpelled};

/// A workspace that is within its limits stays so where a unit is taken out of it.
pub fn dropping_keeps_within_limits()
    ensures { DropsKeepWithinLimits }
{}

/// A unit that was taken out isn't there any more.
pub fn dropped_units_are_gone()
    ensures { DroppedAreGone }
{}

/// Where a line without a fault asks for a unit to be taken out, a change can spell the template that it names.
pub fn asked_can_be_spelled()
    ensures { AskedCanBeSpelled }
{}
