//! The type check: which commands and units a workspace takes, and on which line another is at fault.
#![tactic(auto)]

mod asked;
mod asking;
mod checker;
mod fault;
mod laws;
mod lines;
mod members;
mod outers;
mod shapes;
mod types;
mod units;
mod values;

pub use checker::Checker;
pub use fault::CheckFault;
pub use laws::{fewer_lines_stay_typable, nodes_are_called};
pub use types::UnitTypes;
