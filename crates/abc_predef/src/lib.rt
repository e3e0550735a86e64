//! The predefined rows: the table of names and signs, and what each row gives or tells.
#![tactic(auto)]

mod aligned;
mod answers;
mod apply;
mod characters;
mod collections;
mod extremes;
mod laws;
mod lookup;
mod numbers;
mod table;
mod takes;
mod texts;
mod trains;

pub use apply::{apply1, apply2, holds2};
pub use laws::{
    operations_are_spelled, operations_are_typed, results_have_their_types, taken_is_exact,
};
pub use lookup::{predefined, row};
pub use table::{Letter, Operands, Row, Rows, TABLE};
pub use takes::{takes1, takes2};
