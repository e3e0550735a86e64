//! The graph of calls: what each unit calls.
ghost use Rattle.std.specs.Prelude.{◌≡◌, IfOk};
ghost use Rattle.abc_groups.specs.Program.{EachOnce, entry_of, graph_in};

use abc_num::{Items, OutOfMemory};
use abc_tree::{Template, Unit, Units, calls};
use std::alloc::Global;

/// Templates one after the other.
pub type Templates = Items<Template>;

/// The templates that one unit calls.
#[derive(Drop)]
pub struct Calls {
    pub template: Template,
    pub called: Templates,
}

/// What this unit calls.
fn entry(alloc: Global, unit: &Unit) -> Result<Calls, OutOfMemory>
    ensures { IfOk result (λ entry. entry ≡ entry_of unit.now) }
{
    Ok(Calls {
        template: unit.template.copy(alloc)?,
        called: Items::from_vec(calls(alloc, unit, u32::MAX)?),
    })
}

/// What each of these units calls, in their order.
pub fn graph_of(alloc: Global, units: &Units) -> Result<Vec<Calls>, OutOfMemory>
    ensures graph { IfOk result (λ graph. graph.items ≡ graph_in units.now) }
    ensures once { IfOk result (λ graph. EachOnce graph.items) }
{
    let mut graph = Vec::new(alloc);
    'units: while let Some(unit) = units.at(graph.len()) {
        graph.push(entry(alloc, unit)?)?;
    }
    Ok(graph)
}
