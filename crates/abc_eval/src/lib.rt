//! Runs an immediate command that was accepted over the targets and units of a workspace and the lines of the input.
#![tactic(auto)]

mod outcome;
mod running;

pub use abc_machine::RunStop;
pub use outcome::Outcome;
pub use running::{Ran, run_item};
