//! That the laws are there to be called.
use abc_meaning::{
    lines_are_taken, more_lines_change_nothing, names_stay_in_order, none_is_wanted_at_the_end,
    only_places_are_marked, output_grows, steps_never_rise, stops_tell_their_line,
    values_stay_regular,
};
use std::test::Fail;

#[test]
fn laws_are_called(rt: HostRuntime) -> Result<(), Fail> {
    steps_never_rise();
    output_grows();
    lines_are_taken();
    more_lines_change_nothing();
    none_is_wanted_at_the_end();
    names_stay_in_order();
    only_places_are_marked();
    stops_tell_their_line();
    values_stay_regular();
    assert!(rt; true);
    Ok(())
}
