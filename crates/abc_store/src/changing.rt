//! Changes, made one after the other.
ghost use Rattle.std.specs.Prelude.{◌≡◌, Some, None, OnOk, IsErrOf};
ghost use Rattle.std.specs.List.{AllByRecursion};
ghost use Rattle.abc_record.specs.Kept.{IsKept};
ghost use Rattle.abc_store.specs.Workspace.{changed_by};

use crate::contents::{Contents, Unmade};
use abc_record::Change;

/// Makes these changes, in their order. After an error the contents are of no use.
///
/// Errors: `NoUnit` where the lines of one of them spell no unit. `Memory`.
pub(crate) fn make_all(contents: &mut Contents, changes: Vec<Change>) -> Result<(), Unmade>
    requires kept { AllByRecursion IsKept changes.items }
    ensures made { OnOk result (changed_by changes.items contents.old ≡ Some contents.new) }
    ensures no_unit { IsErrOf result Unmade.NoUnit → changed_by changes.items contents.old ≡ None }
{
    for change in changes {
        contents.make(change)?;
    }
    Ok(())
}
