//! Values: numbers, texts, compounds, lists and tables, with their order and sizes.
#![tactic(auto)]

mod common;
mod compare;
mod copy;
mod elements;
mod faults;
mod forming;
mod items;
mod joining;
pub mod laws;
mod list;
mod numeral;
mod parts;
mod printing;
mod shape;
mod sizes;
mod sorting;
mod table;
mod table_shapes;
mod value;

pub use faults::{PrintFault, RunFault, ValueFault};
pub use printing::{display_of, text_of};
pub use shape::{Shape, ShapeKind};
pub use value::{Kind, Value};
