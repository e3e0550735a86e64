//! The names that an item binds, as flags by their numbers; the formals of a unit, and its refinements by name.
ghost use Rattle.std.specs.Prelude.{◌≡◌, ◌++◌, ◌∷◌, [], ℕ, length, map, option_map, replicate, false, true, slice_set, IfOk, OnOk};
ghost use Rattle.abc_tree.specs.Lists.{flat};
ghost use Rattle.abc_tree.specs.RegularItems.{AreFlags, bound_names, bounds_in_test, bounds_of, formal_names, numbers, parts_of, parts_of_unit, refinement_by};
ghost use Rattle.abc_tree.specs.inner.Bindings.{bound_if_any, bound_in_action, bound_in_alternative, bound_in_node, bound_in_refinement, marked};

use crate::{Action, ActionNode, Alternative, Bound, Command, NameId, Refinement, Test, Unit};
use abc_num::{OutOfMemory, Text};
use std::alloc::Global;
use std::marker::Model;

/// A flag for each name of an item.
#[derive(Drop)]
struct Marks {
    flags: Vec<bool>,
}

impl Model for Marks {
    ghost use Rattle.std.specs.Prelude.{List, Bool};

    ghost Value = { List Bool };

    ghost view = { λ m. m.flags.items };
}

impl Marks {
    /// No name is marked.
    fn new(alloc: Global, count: usize) -> Result<Marks, OutOfMemory>
        ensures { IfOk result (λ marks. marks ≡ replicate count false) }
    {
        let flags = vec![in alloc; false; count]?;
        Ok(Marks { flags })
    }

    fn into_vec(self) -> Vec<bool>
        ensures { result.items ≡ self }
    {
        let Marks { flags } = self;
        flags
    }

    /// Marks a name. A number that no name has is passed over.
    fn name(&mut self, i: NameId)
        ensures { self.new ≡ slice_set self.old i.0 true }
    {
        if let Some(flag) = self.flags.get_mut(i.0 as usize) {
            *flag = true;
        }
    }

    #[cycle(bound)]
    fn bound(&mut self, bound: &Bound)
        ensures { self.new ≡ marked self.old (bound_names bound.now) }
    {
        match bound {
            Bound::One(i) => self.name(*i),
            Bound::Several(parts) => self.bounds(parts.as_slice()),
        }
    }

    #[cycle(bound)]
    fn bounds(&mut self, bounds: &[Bound])
        ensures { self.new ≡ marked self.old (flat (map bound_names bounds.now)) }
    {
        for bound in bounds {
            self.bound(bound);
        }
    }

    /// Marks the names that the quantifiers of a test bind.
    fn test(&mut self, test: &Test)
        ensures { self.new ≡ marked self.old (bounds_in_test test.now) }
    {
        match test {
            Test::Chain(_, _) | Test::Member(_, _, _) | Test::Call(_, _) | Test::Refinement(_) => {}
            Test::Not(inner) => self.test(inner.get()),
            Test::And(left, right) => {
                self.test(left.get());
                self.test(right.get());
            }
            Test::Or(left, right) => {
                self.test(left.get());
                self.test(right.get());
            }
            Test::Quantified(_, names, _, inner) => {
                self.bound(names);
                self.test(inner.get());
            }
        }
    }

    fn test_if_any(&mut self, test: &Option<Test>)
        ensures { self.new ≡ marked self.old (bound_if_any test.now) }
    {
        match test {
            Some(test) => self.test(test),
            None => {}
        }
    }

    /// Marks the names that FOR and quantifiers bind in a command.
    #[cycle(binding)]
    fn node(&mut self, node: &ActionNode)
        ensures { self.new ≡ marked self.old (bound_in_node node.now) }
    {
        match node {
            ActionNode::Check(test) => self.test(test),
            ActionNode::Report(test) => self.test(test),
            ActionNode::If(test, suite) => {
                self.test(test);
                self.suite(suite.as_slice());
            }
            ActionNode::Select(alternatives) => self.alternatives(alternatives.as_slice()),
            ActionNode::While(test, suite) => {
                self.test(test);
                self.suite(suite.as_slice());
            }
            ActionNode::For { names, suite, .. } => {
                self.bound(names);
                self.suite(suite.as_slice());
            }
            ActionNode::Write { .. }
            | ActionNode::Put { .. }
            | ActionNode::Insert { .. }
            | ActionNode::Remove { .. }
            | ActionNode::Delete { .. }
            | ActionNode::ReadExample { .. }
            | ActionNode::ReadRaw { .. }
            | ActionNode::Pass
            | ActionNode::Quit
            | ActionNode::Return(_)
            | ActionNode::Succeed
            | ActionNode::Fail
            | ActionNode::Refinement(_) => {}
            ActionNode::Call(_, _) => {}
        }
    }

    #[cycle(binding)]
    fn action(&mut self, action: &Action)
        ensures { self.new ≡ marked self.old (bound_in_action action.now) }
    {
        self.node(&action.node);
    }

    #[cycle(binding)]
    fn suite(&mut self, suite: &[Action])
        ensures { self.new ≡ marked self.old (flat (map bound_in_action suite.now)) }
    {
        for action in suite {
            self.action(action);
        }
    }

    #[cycle(binding)]
    fn alternative(&mut self, alternative: &Alternative)
        ensures { self.new ≡ marked self.old (bound_in_alternative alternative.now) }
    {
        self.test_if_any(&alternative.test);
        self.suite(alternative.suite.as_slice());
    }

    #[cycle(binding)]
    fn alternatives(&mut self, alternatives: &[Alternative])
        ensures { self.new ≡ marked self.old (flat (map bound_in_alternative alternatives.now)) }
    {
        for alternative in alternatives {
            self.alternative(alternative);
        }
    }

    fn refinements(&mut self, refinements: &[Refinement])
        ensures { self.new ≡ marked self.old (flat (map bound_in_refinement refinements.now)) }
    {
        for refinement in refinements {
            self.suite(refinement.suite.as_slice());
        }
    }
}

impl Command {
    /// A flag for each name of the command, by its number: whether FOR or a quantifier of the command binds it. Walks
    /// over the command once.
    pub fn bound_names(&self, alloc: Global) -> Result<Vec<bool>, OutOfMemory>
        ensures { IfOk result (λ flags. AreFlags (length self.now.names) (bounds_of (parts_of self.now.action)) flags.items) }
    {
        let mut marks = Marks::new(alloc, self.names.len())?;
        marks.action(&self.action);
        Ok(marks.into_vec())
    }
}

impl Unit {
    /// A flag for each name of the unit, by its number: whether FOR or a quantifier of its body or of a refinement binds
    /// it. Walks over the unit once: ask once for a unit, and not at each name.
    pub fn bound_names(&self, alloc: Global) -> Result<Vec<bool>, OutOfMemory>
        ensures { IfOk result (λ flags. AreFlags (length self.now.names) (bounds_of (parts_of_unit self.now)) flags.items) }
    {
        let mut marks = Marks::new(alloc, self.names.len())?;
        marks.suite(self.body.as_slice());
        marks.refinements(self.refinements.as_slice());
        Ok(marks.into_vec())
    }

    /// The names in the formals of the unit, in the order of the heading.
    pub fn formal_names(&self, alloc: Global) -> Result<Vec<NameId>, OutOfMemory>
        ensures { IfOk result (λ ids. numbers ids.items ≡ formal_names self.now) }
    {
        let mut ids = Vec::new(alloc);
        add_bounds(self.formals.as_slice(), &mut ids)?;
        Ok(ids)
    }

    /// The refinement with this name, if there is one. Compares the names one by one.
    pub fn refinement(&self, name: &Text) -> Option<&Refinement>
        ensures { option_map (λ refinement. refinement.now) result ≡ refinement_by name.now self.now.refinements }
    {
        let mut rest = self.refinements.as_slice();
        'rest: while let Some((first, behind)) = rest.split_first() {
            if first.name == *name {
                return Some(first);
            }
            rest = behind;
        }
        None
    }
}

/// Adds the names of a formal behind others.
#[cycle(formals)]
fn add_bound(bound: &Bound, ids: &mut Vec<NameId>) -> Result<(), OutOfMemory>
    ensures { OnOk result (numbers ids.new.items ≡ numbers ids.old.items ++ bound_names bound.now) }
{
    match bound {
        Bound::One(i) => {
            ids.push(*i)?;
            Ok(())
        }
        Bound::Several(parts) => add_bounds(parts.as_slice(), ids),
    }
}

#[cycle(formals)]
fn add_bounds(bounds: &[Bound], ids: &mut Vec<NameId>) -> Result<(), OutOfMemory>
    ensures { OnOk result (numbers ids.new.items ≡ numbers ids.old.items ++ flat (map bound_names bounds.now)) }
{
    for bound in bounds {
        add_bound(bound, ids)?;
    }
    Ok(())
}
