//! Tests of what no clause says: that ample memory is enough to follow the calls of units that are given as a graph.
use crate::tree::{push, unit};
use abc_groups::{first_missing, graph_of, reach};
use abc_tree::Units;
use std::test::Fail;

#[test]
fn a_unit_that_calls_itself_is_reached(rt: HostRuntime) -> Result<(), Fail> {
    let alloc = rt.alloc();
    let mut units = Units::new(alloc);
    units.put(unit(alloc)?)?;
    let graph = graph_of(alloc, &units)?;
    assert_eq!(rt; graph.len(), 1);
    let push = push(alloc)?;
    assert_eq!(rt; reach(alloc, graph.as_slice(), &push)?.len(), 1);
    Ok(())
}

#[test]
fn a_missing_template_is_found(rt: HostRuntime) -> Result<(), Fail> {
    let alloc = rt.alloc();
    let graph = graph_of(alloc, &Units::new(alloc))?;
    let push = push(alloc)?;
    assert!(rt; first_missing(alloc, graph.as_slice(), &[push])?.is_some());
    Ok(())
}
