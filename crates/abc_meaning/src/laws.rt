//! What holds of each part of a run, whatever it runs. All nodes at all depths are spoken of: values, actuals, tests and commands.
ghost use Rattle.abc_meaning.specs.Regular.{ValuesStayRegular, TargetsStayRegular, InputLinesAreShort};
ghost use Rattle.abc_meaning.specs.Laws.{StepsNeverRise, OutputGrows, LinesAreTaken, MoreLinesChangeNothing, CommandIsSameWithMore, NoneIsWantedAtTheEnd, CommandWantsNone, NamesStayInOrder, OnlyPlacesAreMarked, StopsTellTheirLine, CommandTellsItsLine};

use abc_print::displays_read_back;

/// The steps left never rise.
pub fn steps_never_rise()
    ensures { StepsNeverRise }
{}

/// Output only grows, behind what was there.
pub fn output_grows()
    ensures { OutputGrows }
{}

/// Lines are taken from the front alone, so the lines left are an end of those before.
pub fn lines_are_taken()
    ensures { LinesAreTaken }
{}

/// A run that doesn't want a line is the same with more lines behind: it gives the same, with the same output and steps, and these
/// lines are left too. So it is for each node, and for an immediate command as a whole.
pub fn more_lines_change_nothing()
    ensures nodes { MoreLinesChangeNothing }
    ensures command { CommandIsSameWithMore }
{}

/// Where the input ends behind the lines left, no line is wanted: a READ that finds none stops by a fault.
pub fn none_is_wanted_at_the_end()
    ensures nodes { NoneIsWantedAtTheEnd }
    ensures command { CommandWantsNone }
{}

/// Targets and names stay in order, so that none stands twice.
pub fn names_stay_in_order()
    ensures { NamesStayInOrder }
{}

/// A formal counts as changed only where its actual is an address, so that each of those has a place where it is put back.
pub fn only_places_are_marked()
    ensures { OnlyPlacesAreMarked }
{}

/// Where a part of a run stops, it tells the line of its place, or of a command or an alternative within an immediate command; in a
/// unit's body the line of the call. So an immediate command that stops tells one of its own lines.
pub fn stops_tell_their_line()
    ensures nodes { StopsTellTheirLine }
    ensures command { CommandTellsItsLine }
{}

/// Where the values of the state, the literals of the tree and those of the units are values that a program can have, so are what is
/// given and all values of the state afterwards: of targets and names, and the keys of addresses. So the targets after an immediate
/// command can be stored.
pub fn values_stay_regular()
    ensures nodes { ValuesStayRegular }
    ensures command { TargetsStayRegular }
    ensures lines { InputLinesAreShort }
{
    displays_read_back();
}
