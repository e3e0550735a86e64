//! The workspace in a store: opened from its image, and kept by commits, each of which is whole or not there.
#![tactic(auto)]

mod changing;
mod contents;
mod due;
mod faults;
mod later;
pub mod laws;
mod opening;
mod plan;
mod steps;
mod store;
mod whole;

pub use faults::CommitFault;
pub use store::Store;
