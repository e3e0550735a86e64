//! Records: changes of a workspace as bytes, and bytes as changes.
#![tactic(auto)]

mod bytes;
mod change;
mod faults;
pub mod laws;
mod lines;
mod names;
mod reading;
mod size;
mod tags;
mod values;
mod writing;

pub use change::Change;
pub use faults::RecordFault;
pub use lines::is_kept_line;
pub use names::is_kept_name;
pub use reading::read_changes;
pub use size::size_of;
pub use writing::write_changes;
