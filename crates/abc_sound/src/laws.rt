//! The law over the definitions of the rules and of the meaning; nothing runs.
ghost use Rattle.abc_sound.specs.Checked.{AcceptedIsNeverWrong, TargetsKeepTheirTypes, WorkspaceStaysTypable};

use abc_meaning::values_stay_regular;

/// A law: an immediate command that the typing rules accept in a typable workspace is never wrong, whatever the bound on the depth, the
/// lines of the input and the budget, and whatever units it calls with whatever arguments; and the types of the targets are their types
/// afterwards too, so the workspace after it is typable.
pub fn checked_items_are_never_wrong()
    ensures never { AcceptedIsNeverWrong }
    ensures types { TargetsKeepTheirTypes }
    ensures typable { WorkspaceStaysTypable }
{
    values_stay_regular();
}
