//! The tree of an item: expressions, tests, commands, units; templates and what is called; units as a map.
#![tactic(auto)]

mod binding;
mod called;
mod commands;
mod formulas;
mod laws;
mod operations;
mod search;
mod templates;
mod units;

pub use called::{calls, command_calls};
pub use commands::{
    Action, ActionNode, Alternative, Alternatives, Command, Environment, Item, NameIds, Refinement,
    RefinementKind, Refinements, Suite, Unit,
};
pub use formulas::{
    Bound, Bounds, Expr, Exprs, Fill, Fills, Link, Links, NameId, Pair, Pairs, Piece, Pieces,
    Quantifier, Test,
};
pub use laws::one_template;
pub use operations::Op;
pub use templates::{Template, TemplateKind, Word, Words};
pub use units::Units;
