//! Sequences in chunks, which equal sequences share.
#![tactic(auto)]

mod blocks;
mod chunks;
mod search;
mod tower;

pub use chunks::Chunks;
pub use search::Seek;
