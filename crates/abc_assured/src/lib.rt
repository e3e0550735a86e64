//! What a session knows of the commands that it runs.
#![tactic(auto)]

mod laws;

pub use laws::{none_missing, session_items};
