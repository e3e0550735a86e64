//! Names and targets: finite maps to values, with old states of them.
#![tactic(auto)]

mod frames;
mod targets;

pub use frames::{Frames, KeptFrame};
pub use targets::{Kept, TargetChange, Targets};
