//! Steps of the machine on commands: how they begin, the turns of WHILE and FOR, and what is done with what they waited for.
#![tactic(auto)]

mod commands;
mod performing;

pub use commands::{take_action, take_spot, turn, turn_on, turns_over, unless_left};
pub use performing::{change_to, choose, perform, perform_all, perform_at, perform_rest};
