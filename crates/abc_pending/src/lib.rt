//! The pending work of the stack machine that runs commands: what waits, what is done now, what each piece of it leads to and weighs, and
//! the values that are found without work of their own.
#![tactic(auto)]

mod addressed;
mod at_once;
mod pending;
mod place;
mod replies;
mod stopped;
mod tested;

pub use addressed::spot_at_once;
pub use at_once::{HEIGHT_AT_ONCE, truth_at_once, value_at_once};
pub use pending::{
    Caller, Doing, ForAction, ForActual, ForExpression, ForFlow, ForSpot, ForTest, ForTruth, Job,
    Leaves, Next, Purpose, Reply, Waiting, Work,
};
pub use place::{Changes, Place, Wanted};
pub use replies::{actual_in, exit_in, spot_in, truth_in, value_in};
pub use stopped::{Halted, Stopped};
pub use tested::{if_tested, while_tested};
