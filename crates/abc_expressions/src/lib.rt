//! Expressions and addresses: the one tree that the tokens of a line spell, and what tests are read with.
#![tactic(auto)]

mod addresses;
mod expressions;
mod fault;
mod frames;
mod front;
mod height;
mod laws;
mod lexemes;
mod make;
mod names;
mod reading;
mod signs;
mod texts;
mod tree;
mod used;

pub use addresses::{address, address_names, whole_address};
pub use expressions::{expression, single_expression, whole_expression};
pub use fault::FormulaFault;
pub use frames::{Infix, Join, Kind, Reach};
pub use front::expression_in_front;
pub use height::{a_part_reaches, is_higher, reaches};
pub use laws::{
    address_form, address_numbers, computed_address, computed_expression, computed_single,
    conversion_end, fine_tokens, one_address, one_expression, spelled_regular,
};
pub use lexemes::{Lexeme, lexemes_of};
pub use make::with_last;
pub use names::{kind_of, sign_of};
pub use signs::Sign;
pub use tree::ExpressionFront;
pub use used::{name_tokens, used_names};
