//! A session over any items: its turns, what a front of its lines settles, and what a stop leaves of it. Laws alone; nothing runs.
#![tactic(auto)]

mod laws;

pub use laws::{Opens, session_of_stops, sessions};
