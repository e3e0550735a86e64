//! What is wrong with an item: what each of its lines says, the causes that stand in a line, and the first fault.
#![tactic(auto)]

mod above;
mod causes;
mod environment;
mod exits;
mod facts;
mod fault;
mod given;
mod judging;
mod laws;
mod reading;
mod sayings;
mod sight;
mod taken_names;
mod verdict;

pub use environment::{asked, asks_by, environment_fault};
pub use exits::Exits;
pub use facts::{Facts, facts_of};
pub use fault::{Fault, FaultKind};
pub use judging::{Judged, judge};
pub use laws::least_fault;
pub use sayings::Saying;
pub use sight::Sight;
pub use taken_names::{Roles, TakenNames};
