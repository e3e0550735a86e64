//! What a store keeps, in memory: targets and units, and one change of them.
ghost use Rattle.std.specs.Prelude.{◌≡◌, ◌≤◌, ◌<◌, [], true, false, None, Some, IfOk, OnOk, OnErr, IsErrOf, option_map, length};
ghost use Rattle.abc_tree.specs.Templates.{template_text};
ghost use Rattle.abc_tree.specs.Units.{AreRising as AreInOrder, with_unit};
ghost use Rattle.abc_record.specs.Kept.{IsKept, AreKeptLines};
ghost use Rattle.abc_store.specs.Workspace.{Workspace, empty, changed, unit_of_lines, unit_named, with_routine, without_named, IsWithinLimits};

use abc_frames::Targets;
use abc_num::limits::{MOST_TARGETS, MOST_UNITS};
use abc_num::{ItemLines, Items, Names, OutOfMemory, Text};
use abc_parse::{ItemFault, parse_item};
use abc_record::Change;
use abc_tree::{Item, Template, TemplateKind, Unit, Units, Word};
use std::alloc::Global;
use std::marker::Model;

/// Why a change is not made.
#[derive(Clone, Copy, Debug, PartialEq, Eq)]
pub(crate) enum Unmade {
    /// Its lines spell no unit.
    NoUnit,
    /// There was not enough memory.
    Memory,
}

impl From<OutOfMemory> for Unmade {
    ghost use Rattle.std.specs.Prelude.{◌≡◌};
    ghost use Rattle.abc_store.specs.declared.contents.Unmade.TheVariants.{Memory};

    ghost from_gives = { λ _ unmade. unmade ≡ Memory };

    fn from(_refused: OutOfMemory) -> Unmade {
        Unmade::Memory
    }
}

/// What a store keeps.
#[derive(Drop)]
pub(crate) struct Contents {
    alloc: Global,
    targets: Targets,
    units: Units,
}

impl Model for Contents {
    ghost use Rattle.std.specs.Coded.{codes};
    ghost use Rattle.abc_frames.specs.View.{coded_targets};
    ghost use Rattle.abc_store.specs.Workspace.{Workspace};
    ghost use Rattle.abc_tree.specs.contracts.formulas.Bound as bound;
    ghost use Rattle.abc_tree.specs.contracts.commands.Action as action;

    ghost Value = { Workspace };

    ghost coded = { Prim.hlevel (codes, coded_targets, bound.the_row.coded, action.the_row.coded) };

    ghost view = { λ c. record { targets = c.targets; units = c.units } };
}

impl Contents {
    /// Nothing is kept.
    pub(crate) fn new(alloc: Global) -> Contents
        ensures { result ≡ empty }
    {
        Contents {
            alloc,
            targets: Targets::new(alloc),
            units: Units::new(alloc),
        }
    }

    /// The targets of these contents, without any unit.
    pub(crate) fn targets_alone(&self) -> Result<Contents, OutOfMemory>
        ensures { IfOk result (λ contents. contents ≡ record { targets = self.now.targets; units = [] }) }
    {
        let mut targets = Targets::new(self.alloc);
        targets.back(self.targets.keep()?);
        Ok(Contents {
            alloc: self.alloc,
            targets,
            units: Units::new(self.alloc),
        })
    }

    pub(crate) fn targets(&self) -> &Targets
        ensures { result.now ≡ self.now.targets }
    {
        &self.targets
    }

    pub(crate) fn units(&self) -> &Units
        ensures units { result.now ≡ self.now.units }
        ensures in_order { AreInOrder self.now.units }
    {
        // Its clause tells that the units stand in order.
        let _first = self.units.at(0);
        &self.units
    }

    pub(crate) fn into_targets(self) -> Targets
        ensures { result ≡ self.targets }
    {
        let Contents { targets, .. } = self;
        targets
    }

    /// Other targets in place of these.
    pub(crate) fn set_targets(&mut self, targets: Targets)
        ensures { self.new ≡ record { targets = targets; units = self.old.units } }
    {
        self.targets = targets;
    }

    /// The unit whose template is written so, if there is one.
    pub(crate) fn unit(&self, template: &[u8]) -> Result<Option<&Unit>, OutOfMemory>
        ensures { IfOk result (λ found. option_map (λ unit. unit.now) found ≡ unit_named template.now self.now.units) }
    {
        let written = written_so(self.alloc, Text::of(self.alloc, template)?)?;
        Ok(self.units.get(&written))
    }

    /// Whether a workspace may have a unit with this template beside these units, or in place of one of them.
    pub(crate) fn has_room_for(&self, unit: &Unit) -> bool
        requires { length self.now.units ≤ MOST_UNITS }
        ensures room { result ≡ true → length (with_unit unit.now self.now.units) ≤ MOST_UNITS }
        ensures none { result ≡ false → MOST_UNITS < length (with_unit unit.now self.now.units) }
    {
        if self.units.get(&unit.template).is_some() {
            return true;
        }
        self.units.at(MOST_UNITS - 1).is_none()
    }

    /// Whether a workspace may have so many targets and units.
    pub(crate) fn is_within_limits(&self) -> bool
        ensures within { result ≡ true → IsWithinLimits self.now }
        ensures past { result ≡ false → IsWithinLimits self.now → ⊥ }
    {
        if self.targets.len() > MOST_TARGETS {
            return false;
        }
        self.units.at(MOST_UNITS).is_none()
    }

    /// Makes one change. After an error the contents are as before.
    ///
    /// Errors: `NoUnit` where its lines spell no unit. `Memory`.
    pub(crate) fn make(&mut self, change: Change) -> Result<(), Unmade>
        requires kept { IsKept change }
        ensures made { OnOk result (changed change self.old ≡ Some self.new) }
        ensures no_unit { IsErrOf result Unmade.NoUnit → changed change self.old ≡ None }
        ensures err { OnErr result (self.new ≡ self.old) }
    {
        match change {
            Change::SetTarget { name, value } => {
                self.targets.set(name, value)?;
                Ok(())
            }
            Change::DropTarget { name } => {
                let _gone = self.targets.drop_name(&name)?;
                Ok(())
            }
            Change::SetUnit { lines } => self.set_unit(&lines),
            Change::DropUnit { template } => {
                self.drop_unit(template)?;
                Ok(())
            }
        }
    }

    /// Puts the unit of these lines. After an error the contents are as before.
    ///
    /// Errors: `NoUnit` where they spell none. `Memory`.
    fn set_unit(&mut self, lines: &ItemLines) -> Result<(), Unmade>
        requires kept { AreKeptLines lines.now }
        ensures made { OnOk result (option_map (with_routine self.old) (unit_of_lines lines.now) ≡ Some self.new) }
        ensures no_unit { IsErrOf result Unmade.NoUnit → option_map (with_routine self.old) (unit_of_lines lines.now) ≡ None }
        ensures err { OnErr result (self.new ≡ self.old) }
    {
        match unit_of(self.alloc, lines)? {
            Some(unit) => {
                let _old = self.units.put(unit)?;
                Ok(())
            }
            None => Err(Unmade::NoUnit),
        }
    }

    /// Takes the unit away whose template is written so, if there is one.
    fn drop_unit(&mut self, template: Text) -> Result<(), OutOfMemory>
        ensures ok { OnOk result (self.new ≡ record { targets = self.old.targets; units = without_named template self.old.units }) }
        ensures err { OnErr result (self.new ≡ self.old) }
    {
        let written = written_so(self.alloc, template)?;
        let _gone = self.units.take(&written);
        Ok(())
    }
}

/// A template that is written so. Templates are told apart by their texts alone, so one word that has the whole text will do.
fn written_so(alloc: Global, text: Text) -> Result<Template, OutOfMemory>
    ensures { IfOk result (λ template. template_text template ≡ text) }
{
    let mut words = Items::new(alloc);
    words.push(Word::Key(text))?;
    Ok(Template {
        kind: TemplateKind::Command,
        words,
        places: 0,
    })
}

/// The unit that lines spell, if they spell one.
fn unit_of(alloc: Global, lines: &ItemLines) -> Result<Option<Unit>, OutOfMemory>
    requires kept { AreKeptLines lines.now }
    ensures { IfOk result (λ unit. unit ≡ unit_of_lines lines.now) }
{
    match parse_item(alloc, lines, &Names::new(alloc)) {
        Ok(Item::Unit(unit)) => Ok(Some(unit)),
        Ok(Item::Command(_)) => Ok(None),
        Ok(Item::Environment(_)) => Ok(None),
        Err(ItemFault::At(_)) => Ok(None),
        Err(ItemFault::Memory) => Err(OutOfMemory),
    }
}
