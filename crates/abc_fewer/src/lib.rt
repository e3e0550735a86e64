//! Laws of typable workspaces: with fewer units, and with fewer lines of them, they stay typable.
#![tactic(auto)]

mod laws;

pub use laws::{fewer_stay_typable, kept_units_stay_typable, shorter_units_stay_typable};
