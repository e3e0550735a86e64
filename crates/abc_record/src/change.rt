//! What a record holds.
use abc_num::{ItemLines, Text};
use abc_value::Value;

/// One change of a workspace.
#[derive(Drop)]
pub enum Change {
    /// The target has this value from now on.
    SetTarget { name: Text, value: Value },
    /// The target is gone.
    DropTarget { name: Text },
    /// The unit of these lines takes the place of one with its template.
    SetUnit { lines: ItemLines },
    /// The unit with this template is gone.
    DropUnit { template: Text },
}
