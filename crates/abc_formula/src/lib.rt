//! Tests, and the calls for expressions and addresses given out: the one tree that the tokens of a line spell.
#![tactic(auto)]

mod binding;
mod bounds;
mod brackets;
mod test_frames;
mod test_height;
mod test_laws;
mod test_names;
mod testing;
mod whole_tests;
mod wrapping;

pub use abc_expressions::{
    FormulaFault, address, address_form, address_names, expression, one_address, one_expression,
};
pub use binding::{BoundFront, bound_in_front, formal_in_front};
pub use test_height::is_test_higher;
pub use test_laws::{bound_numbers, computed_test, one_test, predicate_forms, spelled_tests};
pub use whole_tests::{test, whole_test};
