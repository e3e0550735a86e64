//! Steps of the machine on calls and what is handed to them: actuals, the parts of addresses, bodies of units and refinements.
#![tactic(auto)]

mod actuals;
mod calls;

pub use actuals::{find, find_row, see_actual, see_actuals, see_fields, take_actual};
pub use calls::{end_call, enter, enter_command, leave_with, refine, refine_command};
