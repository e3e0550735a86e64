//! A unit of a group.
ghost use Rattle.std.specs.Prelude.{◌≡◌};
ghost use Rattle.abc_principal.specs.Exact.{cut_in};
ghost use Rattle.abc_principal.specs.Calls.{is_called};

use abc_tree::{Template, Unit};
use std::cmp::Ordering;

/// A unit of a group, and how many of its lines count.
#[derive(Drop)]
pub struct Member<'a> {
    pub unit: &'a Unit,
    pub lines: u32,
}

impl<'a> Member<'a> {
    /// Whether the unit has this template.
    pub(crate) fn is(&self, t: &Template) -> bool
        ensures { result ≡ is_called t.now (cut_in self.now) }
    {
        match self.unit.template.cmp(t) {
            Ordering::Less => false,
            Ordering::Equal => true,
            Ordering::Greater => false,
        }
    }
}
