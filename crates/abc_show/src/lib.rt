//! Trees as they are shown: a node stands in parentheses, with its name and then its parts, a space before each. Trees that
//! differ are shown differently.
//!
//! - A number is `(1/2)`, a name is `(#0)` by its number among the names of its item, and `{}` is `(empty)`.
//! - Characters stand in quotes, and a quote among them twice: `(text "a" (#0))` has a conversion.
//! - A list has its fillers, as `(list (1/1) (range (#0) (#1)))`, and a table its pairs, as `(table (pair (1/1) (#0)))`.
//! - A predefined operation is called as in `Op`: `(Add (#0) (1/1))`. A call of a unit begins with its template in quotes.
//! - A chain of relations has its sides in order and the relations between, as `(chain (#0) Less (#1) AtMost (#2))`.
//! - A quantifier is followed by the names that it binds, its train and its test, as `(Each (bound #0 #1) (#2) (not (#3)))`.
#![tactic(auto)]

mod formulas;
mod sheet;

pub use formulas::{
    show_bound, show_bounds, show_expression, show_part, show_parts, show_test, show_test_part,
};
pub use sheet::Sheet;
