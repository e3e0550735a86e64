//! The store of a workspace: an append log in an image, opened, read once, added to and begun anew, safe at every stop.
#![tactic(auto)]

mod checkpoint;
mod faults;
pub mod format;
mod journal;
mod laws;
mod layout;
mod opening;
mod region;
mod slots;
mod write;

pub use faults::{AppendFault, BeginFault};
pub use journal::Journal;
pub use laws::commits_in_steps;
pub use layout::{Bounds, Layout};
