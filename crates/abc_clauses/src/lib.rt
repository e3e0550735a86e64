//! What one line of an item says: the clause that its tokens spell, by the line's place in the item.
#![tactic(auto)]

mod calls;
mod clause;
mod cuts;
mod formulas;
mod headings;
mod laws;
mod lines;
mod literal;
mod simple;
mod words;

pub use clause::{Clause, Head};
pub use formulas::{is_misplaced, is_too_high};
pub use laws::{
    computed_alternative, computed_command, computed_heading, computed_refinement, computed_simple,
    edges_of_lines, lines_are_regular,
};
pub use lines::{alternative_clause, command_clause, heading_clause, refinement_clause};
pub use words::{Front, Opening, Verb};
