//! Types over numbered variables, and what may be asked of the variables.
#![tactic(auto)]

mod demand;
mod laws;
mod term;

pub use demand::Demand;
pub use laws::{demands_below, renamed_demands};
pub use term::{Term, Terms, VarId, Vars};
