//! Which templates the units reach by calls, which of them are missing, and which units call each other.
#![tactic(auto)]

mod explore;
mod found;
mod graph;
mod grouping;
mod indexed;
mod missing;
mod program;
mod reaching;
mod search;
mod sorted;

pub use graph::{Calls, Templates, graph_of};
pub use grouping::groups;
pub use missing::{first_missing, first_missing_in, first_missing_with};
pub use reaching::{reach, reach_from};
