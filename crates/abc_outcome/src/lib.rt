//! What comes of an item: its reply, what it leaves in the store, and whether the session ends with it.
#![tactic(auto)]

mod answering;
mod checks;
mod commands;
mod inquiries;
mod keeping;
mod laws;
mod missing;
mod names;
mod replies;
mod spelled;
mod units;

pub use answering::{Answer, AnswerFault, answer_item};
pub use laws::{
    accepted_commands_are_never_wrong, missing_is_least, no_reply_is_empty, outcomes_are_steady,
    refusals_change_nothing, type_lines_are_one,
};
