//! The units of a workspace: a map from templates to units, in the order of the templates.
ghost use Rattle.std.specs.Prelude.{◌≡◌, [], IfOk, IfErr, OnOk, OnErr, option_map, slice_get};
ghost use Rattle.abc_tree.specs.inner.Search.{IsAt, IsGap};
ghost use Rattle.abc_tree.specs.Units.{key, AreRising, unit_of, with_unit, without_unit};

use crate::search::{HasTemplate, place_of};
use crate::{Template, Unit};
use abc_num::OutOfMemory;
use std::alloc::Global;
use std::marker::Model;
use std::mem::replace;

/// Units, one for each template, in the order of their templates.
#[derive(Drop)]
pub struct Units {
    units: Vec<Unit>,
}

impl Model for Units {
    ghost use Rattle.std.specs.Prelude.{List};
    ghost use Rattle.abc_tree.specs.Units.{AreRising};
    ghost use Rattle.abc_tree.specs.declared.commands.Unit.{Unit as Routine};

    ghost Value = { List Routine };

    ghost use Rattle.std.specs.Coded.{codes};
    ghost use Rattle.abc_tree.specs.contracts.formulas.Bound as bound;
    ghost use Rattle.abc_tree.specs.contracts.commands.Action as action;

    ghost coded = { Prim.hlevel (codes, bound.the_row.coded, action.the_row.coded) };

    ghost view = { λ u. u.units.items };

    ghost invariant = { λ u. AreRising u.units.items };
}

impl HasTemplate for Unit {
    ghost use Rattle.abc_tree.specs.Units.{key as template_of};

    ghost key = { template_of };

    fn template(&self) -> &Template {
        &self.template
    }
}

impl Units {
    /// No units.
    pub fn new(alloc: Global) -> Units
        ensures { result ≡ [] }
    {
        Units {
            units: Vec::new(alloc),
        }
    }

    /// Puts a unit in place of the one with its template, which is given back, or beside the others. After OutOfMemory
    /// the units are as before.
    pub fn put(&mut self, unit: Unit) -> Result<Option<Unit>, OutOfMemory>
        ensures units { OnOk result (self.new ≡ with_unit unit self.old) }
        ensures old { IfOk result (λ old. old ≡ unit_of unit.template self.old) }
        ensures err { OnErr result (self.new ≡ self.old) }
        ensures rising { AreRising self.new }
    {
        match self.place_of(&unit.template) {
            Ok(at) => Ok(Some(replace(&mut self.units[at], unit))),
            Err(at) => {
                self.units.insert(at, unit)?;
                Ok(None)
            }
        }
    }

    /// The unit with this template, if there is one.
    pub fn get(&self, t: &Template) -> Option<&Unit>
        ensures unit { option_map (λ unit. unit.now) result ≡ unit_of t.now self.now }
        ensures rising { AreRising self.now }
    {
        match self.place_of(t) {
            Ok(at) => Some(&self.units[at]),
            Err(_) => None,
        }
    }

    /// Takes the unit with this template away, if there is one.
    pub fn take(&mut self, t: &Template) -> Option<Unit>
        ensures units { self.new ≡ without_unit t.now self.old }
        ensures old { result ≡ unit_of t.now self.old }
        ensures rising { AreRising self.new }
    {
        match self.place_of(t) {
            Ok(at) => Some(self.units.remove(at)),
            Err(_) => None,
        }
    }

    /// The unit at this place, counted from 0 in the order of the templates, if there is one.
    pub fn at(&self, i: usize) -> Option<&Unit>
        ensures unit { option_map (λ unit. unit.now) result ≡ slice_get self.now i }
        ensures rising { AreRising self.now }
    {
        self.units.get(i)
    }

    // Where the unit with this template is, or where it would go.
    fn place_of(&self, t: &Template) -> Result<usize, usize>
        ensures found { IfOk result (IsAt key self.now t.now) }
        ensures absent { IfErr result (IsGap key self.now t.now) }
    {
        place_of(&self.units, t)
    }
}
