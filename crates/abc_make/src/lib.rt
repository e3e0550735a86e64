//! The made input, and what is said of a run on it.
#![tactic(auto)]

mod input;
mod laws;
mod lines;
mod summary;
mod tally;

pub use input::input_of;
pub use laws::last_line_is_found;
pub use summary::summary_of;
pub use tally::Tally;
