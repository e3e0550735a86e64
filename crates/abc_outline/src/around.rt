//! The lines round a line.
ghost use Rattle.std.specs.Prelude.{◌≡◌, List, [], ◌∷◌, OnOk, OnErr, MatchOption};
ghost use Rattle.abc_outline.specs.declared.edges.Standing.{Standing};
ghost use Rattle.abc_outline.specs.Outline.{begins_at, is_chosen, is_command, left, not_deeper, opens_select, round_by, suites};

use crate::edges::{Edges, Role, Standing};
use abc_num::OutOfMemory;
use std::alloc::Global;
use std::marker::Model;

/// Lines round a line, which clauses see the innermost first.
#[derive(Debug, Drop)]
pub struct Around {
    lines: Vec<Standing>,
}

impl Model for Around {
    ghost use Rattle.std.specs.Prelude.{List, reverse};
    ghost use Rattle.abc_outline.specs.declared.edges.Standing.{Standing};

    ghost Value = { List Standing };

    ghost view = { λ a. reverse a.lines.items };
}

fn is_command(role: Role) -> bool
    ensures { result ≡ is_command role }
{
    match role {
        Role::Command => true,
        Role::UnitHeading | Role::RefinementHeading | Role::Alternative => false,
    }
}

pub(crate) fn opens_select(line: Edges, role: Role) -> bool
    ensures { result ≡ opens_select line role }
{
    line.selects && (line.ends_in_colon && is_command(role))
}

impl Around {
    pub(crate) fn new(alloc: Global) -> Around
        ensures { result ≡ [] }
    {
        Around {
            lines: Vec::new(alloc),
        }
    }

    pub(crate) fn push(&mut self, line: Standing) -> Result<(), OutOfMemory>
        ensures ok { OnOk result (self.new ≡ line ∷ self.old) }
        ensures err { OnErr result (self.new ≡ self.old) }
    {
        self.lines.push(line)?;
        Ok(())
    }

    fn pop(&mut self) -> Option<Standing>
        ensures { MatchOption result ((self.old ≡ []) × (self.new ≡ [])) (λ line. self.old ≡ line ∷ self.new) }
    {
        self.lines.pop()
    }

    fn innermost(&self) -> Option<Standing>
        ensures { MatchOption result (self.now ≡ []) (λ line. (more : List Standing) × (self.now ≡ line ∷ more)) }
    {
        self.lines.last().copied()
    }

    /// Drops the innermost lines, as long as they are deeper.
    pub(crate) fn drop_deeper(&mut self, indent: u32)
        ensures { self.new ≡ not_deeper indent self.old }
    {
        while let Some(line) = self.innermost() {
            if indent >= line.edges.indent {
                break;
            }
            let _ = self.pop();
        }
    }

    /// Drops the innermost lines, as long as they begin at this indentation or are deeper.
    pub(crate) fn drop_from(&mut self, indent: u32)
        ensures { self.new ≡ left indent self.old }
    {
        while let Some(line) = self.innermost() {
            if line.edges.indent < indent {
                break;
            }
            let _ = self.pop();
        }
    }

    /// Drops all lines where the role is that of a refinement heading, round which none stands.
    pub(crate) fn clear_at_heading(&mut self, role: Role)
        ensures { self.new ≡ round_by role self.old }
    {
        match role {
            Role::RefinementHeading => self.lines.clear(),
            Role::UnitHeading | Role::Alternative | Role::Command => {}
        }
    }

    pub(crate) fn begins_at(&self, indent: u32) -> bool
        ensures { result ≡ begins_at indent self.now }
    {
        match self.innermost() {
            Some(line) => line.edges.indent == indent,
            None => false,
        }
    }

    pub(crate) fn is_chosen(&self) -> bool
        ensures { result ≡ is_chosen self.now }
    {
        match self.innermost() {
            Some(line) => opens_select(line.edges, line.role),
            None => false,
        }
    }

    pub(crate) fn suites(&self) -> usize
        ensures { result ≡ suites self.now }
    {
        match self.innermost() {
            Some(line) => line.suites,
            None => 0,
        }
    }
}
