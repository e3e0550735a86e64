//! Schemes: which types some variables of a graph may have together, kept apart from the graph, and copied into others.
#![tactic(auto)]

mod copying;
mod renaming;
mod saying;
mod scheme;

pub use scheme::Scheme;
