//! The variables of targets, by name.
ghost use Rattle.std.specs.Prelude.{◌≡◌, [], ◌∷◌, ◌++◌, None, length, take, slice_get, option_map, OnOk, OnErr};
ghost use Rattle.abc_demand.specs.Typings.{var_of};

use abc_num::{OutOfMemory, Text};
use abc_terms::VarId;
use indexmap::IndexMap;
use std::alloc::Global;
use std::marker::Model;

/// Names of targets, each once, with their variables, in the order in which they came. A name is found at once.
#[derive(Drop)]
pub struct TargetVars {
    vars: IndexMap<Text, VarId>,
}

impl Model for TargetVars {
    ghost use Rattle.std.specs.Prelude.{List, ℕ};
    ghost use Rattle.abc_terms.specs.declared.term.VarId.{VarId};

    ghost Value = { List (List ℕ × VarId) };

    ghost view = { λ t. t.vars.entries };
}

impl TargetVars {
    /// No targets.
    pub fn new(alloc: Global) -> TargetVars
        ensures { result ≡ [] }
    {
        TargetVars {
            vars: IndexMap::new(alloc),
        }
    }

    /// How many targets there are.
    pub fn len(&self) -> usize
        ensures { result ≡ length self.now }
    {
        self.vars.len()
    }

    /// The variable of a target, if it has one.
    pub fn find(&self, name: &Text) -> Option<VarId>
        ensures { result ≡ var_of self.now name.now }
    {
        self.vars.get(name).copied()
    }

    /// The name of target number `i`, counted from 0, if there are so many.
    pub fn name(&self, i: usize) -> Option<&Text>
        ensures { option_map (λ name. name.now) result ≡ option_map (λ p. p.0) (slice_get self.now i) }
    {
        match self.vars.get_index(i) {
            Some((name, _)) => Some(name),
            None => None,
        }
    }

    /// Gives a variable to a target that has none. After OutOfMemory the targets are as before.
    pub fn add(&mut self, name: Text, var: VarId) -> Result<(), OutOfMemory>
        requires { var_of self.old name ≡ None }
        ensures ok { OnOk result (self.new ≡ self.old ++ (name, var) ∷ []) }
        ensures err { OnErr result (self.new ≡ self.old) }
    {
        self.vars.insert(name, var)?;
        Ok(())
    }

    /// Leaves the first `count` targets.
    pub fn truncate(&mut self, count: usize)
        ensures { self.new ≡ take count self.old }
    {
        self.vars.truncate(count);
    }
}
