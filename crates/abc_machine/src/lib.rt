//! The machine that runs an immediate command: its pending work on a stack of its own, and one step of it.
#![tactic(auto)]

mod machine;
mod moves;
mod outcome;

pub use machine::Machine;
pub use outcome::{Outcome, RunStop, Stepped};
