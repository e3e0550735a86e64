//! The world outside: input, store and sink, as one trait whose meanings every contract above speaks of.
#![tactic(auto)]

mod chosen;
mod failing;
mod files;
mod host;
mod laws;
mod lines;
mod memory;
mod memory_lines;
mod real;
mod steps;

pub use failing::{CallKind, Listed};
pub use host::{ChooseFault, Failed, Host};
pub use laws::{lines_are_in_order, stop_model};
pub use lines::{LineStop, Lines};
pub use memory::MemoryHost;
pub use memory_lines::MemoryLines;
pub use real::RealHost;
