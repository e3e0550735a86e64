//! Where the calls of a unit are looked up: the units themselves, with another one or without, or a graph of them.
ghost use Rattle.std.specs.Prelude.{◌≡◌, IfOk, option_map};
ghost use Rattle.abc_tree.specs.Templates.{template_text};
ghost use Rattle.abc_groups.specs.Program.{EachOnce, graph_in, program_of, texts};

use crate::Calls;
use abc_num::{OutOfMemory, Text};
use abc_tree::{Template, Unit, Units, calls};
use indexmap::IndexSet;
use std::alloc::Global;
use std::cmp::Ordering;
use std::marker::Model;

/// What tells the calls of each unit.
pub(crate) trait Program {
    ghost use Rattle.abc_groups.specs.Program.{Program as Tells};

    ghost tells: { Self → Tells };

    // What must hold for it to tell them.
    ghost fits: { Self → Type 0 };

    /// The templates that the unit with this template calls, if there is one.
    fn called(&self, alloc: Global, t: &Template) -> Result<Option<Vec<Template>>, OutOfMemory>
        requires { fits self.now }
        ensures { IfOk result (λ found. option_map (λ ts. texts ts.items) found ≡ tells self.now (template_text t.now)) };
}

impl Program for Units {
    ghost use Rattle.abc_groups.specs.Program.{program_of as in_graph, graph_in as graph_of_units};

    ghost tells = { λ units. in_graph (graph_of_units units) };

    ghost fits = { λ units. Unit {0} };

    fn called(&self, alloc: Global, t: &Template) -> Result<Option<Vec<Template>>, OutOfMemory> {
        match self.get(t) {
            Some(unit) => Ok(Some(calls(alloc, unit, u32::MAX)?)),
            None => Ok(None),
        }
    }
}

/// Units with one more, which takes the place of one with its template.
#[derive(Drop)]
pub(crate) struct Joined<'a> {
    pub(crate) units: &'a Units,
    pub(crate) new: &'a Unit,
}

impl<'a> Program for Joined<'a> {
    ghost use Rattle.abc_groups.specs.Program.{program_of as in_graph, graph_in as graph_of_units};
    ghost use Rattle.abc_tree.specs.Units.{with_unit};

    ghost tells = { λ joined. in_graph (graph_of_units (with_unit joined.new.now joined.units.now)) };

    ghost fits = { λ joined. Unit {0} };

    fn called(&self, alloc: Global, t: &Template) -> Result<Option<Vec<Template>>, OutOfMemory> {
        match self.new.template.cmp(t) {
            Ordering::Equal => Ok(Some(calls(alloc, self.new, u32::MAX)?)),
            Ordering::Less | Ordering::Greater => self.units.called(alloc, t),
        }
    }
}
