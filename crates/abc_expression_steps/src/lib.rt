//! Steps of the machine on expressions: how the work on them begins, and how it goes on with the value for which it waited.
#![tactic(auto)]

mod expressions;

pub use expressions::{fill, fill_table, see, see_row, spell, take_value};
