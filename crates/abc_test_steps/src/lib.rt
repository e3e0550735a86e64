//! Steps of the machine on tests: how the work on them begins, and how it goes on with the value or the truth value for which it waited.
#![tactic(auto)]

mod testing;

pub use testing::{compare, quantify, take_test, take_truth, try_test};
