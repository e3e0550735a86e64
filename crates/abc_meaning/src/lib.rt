//! What commands, tests and expressions mean. The meaning is told in specs/, and the laws here hold of all runs.
#![tactic(auto)]

mod laws;

pub use laws::{
    lines_are_taken, more_lines_change_nothing, names_stay_in_order, none_is_wanted_at_the_end,
    only_places_are_marked, output_grows, steps_never_rise, stops_tell_their_line,
    values_stay_regular,
};
