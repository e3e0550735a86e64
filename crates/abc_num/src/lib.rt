//! Exact numbers, texts, names and lines, the wrappers that trees are built of, and the limits of the product.
#![tactic(auto)]

mod arithmetic;
mod boxed;
mod items;
mod laws;
pub mod limits;
mod lines;
mod literal;
mod memory;
mod names;
mod number;
mod power;
mod reduce;
mod rounding;
mod stack;
mod text;
mod types;

pub use boxed::Boxed;
pub use items::Items;
pub use laws::{characters_are_tested, proper_types, ratios_are_computed};
pub use lines::{ItemLines, Line, RawLine, lines_are_cut};
pub use literal::{BadNumber, read_literal};
pub use memory::OutOfMemory;
pub use names::Names;
pub use number::{Num, NumFault};
pub use stack::Stack;
pub use text::Text;
pub use types::{Ground, Grounds};
