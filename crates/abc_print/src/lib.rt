//! Reads literals as values; gives out the printing of abc_value.
#![tactic(auto)]

mod faults;
mod frames;
mod laws;
mod lexing;
mod making;
mod marks;
mod reading;

pub use abc_value::{PrintFault, display_of, text_of};
pub use faults::LiteralFault;
pub use laws::displays_read_back;
pub use reading::read_literal_line;
