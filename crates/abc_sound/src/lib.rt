//! Soundness of the type check: what it accepts never works on values that no types fit.
#![tactic(auto)]

mod laws;

pub use laws::checked_items_are_never_wrong;
