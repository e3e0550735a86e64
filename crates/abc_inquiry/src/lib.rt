//! Lines that ask about the workspace: what they show, or which unit they take out.
#![tactic(auto)]

mod answering;
mod laws;
mod writing;

pub use answering::{Answered, answer_environment};
pub use laws::{asked_can_be_spelled, dropped_units_are_gone, dropping_keeps_within_limits};
