//! The words of the program: what they ask for.
#![tactic(auto)]

mod numbers;
mod reading;
mod requests;

pub use reading::read_words;
pub use requests::{Request, WordsFault};
