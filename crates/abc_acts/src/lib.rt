//! The acts of a run: names that are bound, changes of targets and of names, and calls.
#![tactic(auto)]

mod binding;
mod calls;
mod changes;
mod changing;
mod fields;

pub use binding::{Held, Train, bind, give_back, keep_names};
pub use calls::{Entry, command_entry, enter, formal_names, leave, reported, returned};
pub use changes::{delete, insert, put, remove};
