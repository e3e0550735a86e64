//! What the lines of an item say, with their indentations.
use abc_clauses::Clause;

/// What a line says, and its indentation.
#[derive(Drop)]
pub struct Saying {
    pub indent: u32,
    pub clause: Clause,
}
