//! The calls of units that stand in a unit or a command, one for each node, in the order of the text.
#![tactic(auto)]

mod listed;

pub use listed::{command_nodes, unit_nodes};
