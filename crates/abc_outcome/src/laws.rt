//! What holds of what comes of items.
ghost use Rattle.abc_outcome.specs.Laws.{AnExactCheckIsThere, CameStays, ComesAtEnd, LeavesNoMore, NoReplyIsEmpty, RefusalsChangeNothing, LeastIsMissing, LeastLineIsTold, NoneIsLeft, TypeLinesAreOne, AcceptedIsNeverWrong};

use abc_assured::session_items;
use abc_parse::{numbered_items, regular_items};
use abc_sound::checked_items_are_never_wrong;
use abc_store::laws::{kept_units_are_regular, units_are_set};

/// What an item comes to over some lines stays so whatever lines follow; it leaves no more lines than there were; and none is
/// wanted at the end of the input.
pub fn outcomes_are_steady()
    ensures came_stays { CameStays }
    ensures no_longer { LeavesNoMore }
    ensures came_at_end { ComesAtEnd }
{}

/// No reply is empty.
pub fn no_reply_is_empty()
    ensures { NoReplyIsEmpty }
{}

/// An item that is not accepted changes nothing, and doesn't quit.
pub fn refusals_change_nothing()
    ensures { RefusalsChangeNothing }
{}

/// The missing unit that is told is the least one that is reached, and its line the least one with a call of it or of a unit that
/// leads to it; where none is told, none is missing.
pub fn missing_is_least()
    ensures some { LeastIsMissing }
    ensures line { LeastLineIsTold }
    ensures none { NoneIsLeft }
{}

/// Whatever is told as the type line of an item, it comes to the same; and where each item is taken or not taken up to each line,
/// there is a check that tells exactly the type lines.
pub fn type_lines_are_one()
    ensures one { TypeLinesAreOne }
    ensures there { AnExactCheckIsThere }
{
    units_are_set();
}

/// A command that reaches no missing unit and that types fit is never wrong over what a store holds, whatever stands behind it,
/// and types fit the targets that it leaves.
pub fn accepted_commands_are_never_wrong()
    ensures { AcceptedIsNeverWrong }
{
    session_items();
    kept_units_are_regular();
    regular_items();
    numbered_items();
    checked_items_are_never_wrong();
}
