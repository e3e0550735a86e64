//! The parts of the lines behind a line, the nearest first.
ghost use Rattle.std.specs.Prelude.{◌≡◌, List, [], ◌∷◌, OnOk, OnErr, MatchOption};
ghost use Rattle.abc_parse.specs.Parts.{alternatives, commands};
ghost use Rattle.abc_parse.specs.Roots.{kept, parts_of, taken};
ghost use Rattle.abc_parse.specs.inner.Building.{Gives, IsNextDeeper, IsNoneDeeper, TakesAlternative, TakesCommand, is_deeper};

use crate::fault::Unmade;
use crate::parts::{Part, Root};
use abc_num::{Items, OutOfMemory};
use abc_tree::{Alternatives, Suite};
use std::alloc::Global;
use std::marker::Model;

/// Parts, which clauses see the nearest first.
#[derive(Drop)]
pub(crate) struct Roots {
    items: Vec<Root>,
}

impl Model for Roots {
    ghost use Rattle.std.specs.Prelude.{List, reverse};
    ghost use Rattle.std.specs.Coded.{coded_list};
    ghost use Rattle.abc_parse.specs.declared.parts.Root.{Root};
    ghost use Rattle.abc_parse.specs.contracts.parts.Root as root;

    ghost Value = { List Root };

    ghost coded = { coded_list root.the_row.coded };

    ghost view = { λ r. reverse r.items.items };
}

/// Adds what a part has of commands.
fn take_command(part: Part, suite: &mut Suite) -> Result<(), Unmade>
    ensures { TakesCommand result part suite.old suite.new }
{
    match part {
        Part::Command(action) => Ok(suite.push(action)?),
        Part::Nothing => Ok(()),
        Part::Alternative(_way) => Err(Unmade::Misfit),
    }
}

/// Adds an alternative.
fn take_alternative(part: Part, ways: &mut Alternatives) -> Result<(), Unmade>
    ensures { TakesAlternative result part ways.old ways.new }
{
    match part {
        Part::Alternative(way) => Ok(ways.push(way)?),
        Part::Command(_action) => Err(Unmade::Misfit),
        Part::Nothing => Err(Unmade::Misfit),
    }
}

impl Roots {
    pub(crate) fn new(alloc: Global) -> Roots
        ensures { result ≡ [] }
    {
        Roots {
            items: Vec::new(alloc),
        }
    }

    pub(crate) fn push(&mut self, root: Root) -> Result<(), OutOfMemory>
        ensures ok { OnOk result (self.new ≡ root ∷ self.old) }
        ensures err { OnErr result (self.new ≡ self.old) }
    {
        self.items.push(root)?;
        Ok(())
    }

    pub(crate) fn pop(&mut self) -> Option<Root>
        ensures { MatchOption result ((self.old ≡ []) × (self.new ≡ [])) (λ root. self.old ≡ root ∷ self.new) }
    {
        self.items.pop()
    }

    fn is_deeper(&self, indent: u32) -> bool
        ensures { result ≡ is_deeper indent self.now }
    {
        match self.items.last() {
            Some(root) => root.indent > indent,
            None => false,
        }
    }

    /// Takes the nearest part, if it is deeper.
    fn pop_deeper(&mut self, indent: u32) -> Option<Part>
        ensures { MatchOption result (IsNoneDeeper indent self.old self.new) (λ part. IsNextDeeper indent part self.old self.new) }
    {
        if !self.is_deeper(indent) {
            return None;
        }
        let root = self.pop()?;
        Some(root.part)
    }

    /// The commands that are deeper, where all that are deeper are commands or nothing. They are taken out.
    pub(crate) fn commands(&mut self, alloc: Global, indent: u32) -> Result<Suite, Unmade>
        ensures suite { Gives result (commands (taken indent self.old)) }
        ensures rest { OnOk result (self.new ≡ kept indent self.old) }
    {
        let mut suite = Items::new(alloc);
        while let Some(part) = self.pop_deeper(indent) {
            take_command(part, &mut suite)?;
        }
        Ok(suite)
    }

    /// The alternatives that are deeper, where all that are deeper are alternatives. They are taken out.
    pub(crate) fn alternatives(
        &mut self,
        alloc: Global,
        indent: u32,
    ) -> Result<Alternatives, Unmade>
        ensures ways { Gives result (alternatives (taken indent self.old)) }
        ensures rest { OnOk result (self.new ≡ kept indent self.old) }
    {
        let mut ways = Items::new(alloc);
        while let Some(part) = self.pop_deeper(indent) {
            take_alternative(part, &mut ways)?;
        }
        Ok(ways)
    }

    /// All commands, where all parts are commands or nothing. They are taken out.
    pub(crate) fn all_commands(&mut self, alloc: Global) -> Result<Suite, Unmade>
        ensures suite { Gives result (commands (parts_of self.old)) }
        ensures rest { OnOk result (self.new ≡ []) }
    {
        let mut suite = Items::new(alloc);
        while let Some(root) = self.pop() {
            take_command(root.part, &mut suite)?;
        }
        Ok(suite)
    }
}
