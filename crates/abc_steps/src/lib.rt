//! The steps of the machine: how each piece of pending work begins, and how what waits goes on with a reply.
#![tactic(auto)]

mod ahead;
mod dispatch;

pub use dispatch::{begin, begin_item, take_up};
