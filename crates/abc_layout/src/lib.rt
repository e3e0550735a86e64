//! The lines of an input cut into items, one line at a time.
#![tactic(auto)]

mod laws;
mod splitter;

pub use abc_num::{ItemLines, Line, RawLine};
pub use laws::whole_stays;
pub use splitter::{Fed, Splitter};
