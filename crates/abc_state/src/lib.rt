//! The state of a run, and what nodes give on it once their operands are values.
#![tactic(auto)]

mod actuals;
mod displays;
mod examples;
mod halt;
mod looking;
mod reading;
mod run;
mod scope;
mod spots;
mod texts;
mod values;

pub use actuals::{Actual, located, name_actual};
pub use displays::{Filling, Tabling};
pub use halt::{Exit, Halt, halt_of};
pub use looking::{assign, look, plain_value, take};
pub use reading::{LineHalt, literal_value, raw_value, take_line};
pub use run::{CallNames, Formal, Run};
pub use scope::{Routine, Scope};
pub use spots::{Spot, Step, place, stepped, together, whole};
pub use texts::Wording;
pub use values::{
    applied, applied_to_one, compared, composed, copied, fits_key, has_type, selected, there,
};
