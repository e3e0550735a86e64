//! What is asked of commands on the first lines of an item.
ghost use Rattle.std.specs.Prelude.{◌≡◌, ◌<◌, ◌≤◌, [], ◌∷◌, map, IfOk, OnOk};
ghost use Rattle.abc_tree.specs.Lists.{flat};
ghost use Rattle.abc_tree.specs.Lined.{at, upto};
ghost use Rattle.abc_ground.specs.Seen.{seen, part_seen, tested, over, over_two, one_type, member, any, line_of_text, seen_action, seen_alternative, seen_refinement, place_in};
ghost use Rattle.abc_demand.specs.inner.Walks.{scope_bound, Walked, own_nodes, inner_nodes, place_node};

use crate::draft::Draft;
use crate::scope::{Place, Scope};
use abc_num::{Names, OutOfMemory};
use abc_terms::VarId;
use abc_tree::{Action, ActionNode, Alternative, Expr, NameId, Refinement, RefinementKind, Test};

impl Draft {
    /// A command by itself, without the commands in it.
    fn own(&mut self, scope: &Scope, place: Place, node: &ActionNode) -> Result<(), OutOfMemory>
        requires { scope_bound scope.now ≤ self.old.count }
        ensures walked { OnOk result (Walked scope.now self.old self.new (own_nodes (place_node place) node.now) []) }
        ensures grows { OnOk result (self.old.count ≤ self.new.count) }
    {
        match node {
            ActionNode::Pass => Ok(()),
            ActionNode::Quit => Ok(()),
            ActionNode::Succeed => Ok(()),
            ActionNode::Fail => Ok(()),
            ActionNode::Refinement(_) => Ok(()),
            ActionNode::Select(_) => Ok(()),
            ActionNode::Write { part, .. } => self.part(scope, part),
            ActionNode::Put { value, address } => self.alike(scope, value, address),
            ActionNode::Insert { value, address } => self.element(scope, value, address),
            ActionNode::Remove { value, address } => self.element(scope, value, address),
            ActionNode::Delete { address } => self.anything(scope, address),
            ActionNode::ReadExample { address, example } => self.alike(scope, address, example),
            ActionNode::ReadRaw { address } => self.line(scope, address),
            ActionNode::Check(test) => self.test(scope, test),
            ActionNode::Report(test) => self.test(scope, test),
            ActionNode::If(test, _) => self.test(scope, test),
            ActionNode::While(test, _) => self.test(scope, test),
            ActionNode::For { names, train, .. } => self.for_each(scope, names, train),
            ActionNode::Return(value) => self.given(scope, place, value),
            ActionNode::Call(template, actuals) => {
                self.call(scope, template, actuals.as_slice())
            }
        }
    }

    fn part(&mut self, scope: &Scope, part: &Option<Expr>) -> Result<(), OutOfMemory>
        requires { scope_bound scope.now ≤ self.old.count }
        ensures walked { OnOk result (Walked scope.now self.old self.new (part_seen part.now ∷ []) []) }
        ensures grows { OnOk result (self.old.count ≤ self.new.count) }
    {
        match part {
            Some(e) => {
                self.anything(scope, e)?;
                Ok(())
            }
            None => Ok(()),
        }
    }

    /// Both are one type.
    fn alike(&mut self, scope: &Scope, x: &Expr, y: &Expr) -> Result<(), OutOfMemory>
        requires { scope_bound scope.now ≤ self.old.count }
        ensures walked { OnOk result (Walked scope.now self.old self.new (over_two one_type (seen x.now) (seen y.now) ∷ []) []) }
        ensures grows { OnOk result (self.old.count ≤ self.new.count) }
    {
        let a = self.expression(scope, x)?;
        let b = self.expression(scope, y)?;
        self.equal(a, b)?;
        Ok(())
    }

    /// An element, and an address of a list of its type.
    fn element(&mut self, scope: &Scope, value: &Expr, address: &Expr) -> Result<(), OutOfMemory>
        requires { scope_bound scope.now ≤ self.old.count }
        ensures walked { OnOk result (Walked scope.now self.old self.new (over_two member (seen value.now) (seen address.now) ∷ []) []) }
        ensures grows { OnOk result (self.old.count ≤ self.new.count) }
    {
        let e = self.expression(scope, value)?;
        let t = self.expression(scope, address)?;
        self.member(e, t)?;
        Ok(())
    }

    /// An expression of any type.
    fn anything(&mut self, scope: &Scope, e: &Expr) -> Result<(), OutOfMemory>
        requires { scope_bound scope.now ≤ self.old.count }
        ensures walked { OnOk result (Walked scope.now self.old self.new (over any (seen e.now) ∷ []) []) }
        ensures grows { OnOk result (self.old.count ≤ self.new.count) }
    {
        self.expression(scope, e)?;
        Ok(())
    }

    /// An address that takes a line of the input.
    fn line(&mut self, scope: &Scope, address: &Expr) -> Result<(), OutOfMemory>
        requires { scope_bound scope.now ≤ self.old.count }
        ensures walked { OnOk result (Walked scope.now self.old self.new (over line_of_text (seen address.now) ∷ []) []) }
        ensures grows { OnOk result (self.old.count ≤ self.new.count) }
    {
        let t = self.expression(scope, address)?;
        self.line_of_text(t)?;
        Ok(())
    }

    /// The value of a RETURN, and what it is given to.
    fn given(&mut self, scope: &Scope, place: Place, value: &Expr) -> Result<(), OutOfMemory>
        requires { scope_bound scope.now ≤ self.old.count }
        ensures walked { OnOk result (Walked scope.now self.old self.new (over_two one_type (seen value.now) (place_node place) ∷ []) []) }
        ensures grows { OnOk result (self.old.count ≤ self.new.count) }
    {
        let a = self.expression(scope, value)?;
        let b = self.place(scope, place)?;
        self.equal(a, b)?;
        Ok(())
    }

    fn place(&mut self, scope: &Scope, place: Place) -> Result<VarId, OutOfMemory>
        requires { scope_bound scope.now ≤ self.old.count }
        ensures walked { IfOk result (λ a. Walked scope.now self.old self.new (place_node place ∷ []) (a.0 ∷ [])) }
        ensures there { IfOk result (λ a. a.0 < self.new.count) }
        ensures grows { IfOk result (λ _. self.old.count ≤ self.new.count) }
    {
        match place {
            Place::Result => match scope.result {
                Some(a) => Ok(a),
                None => {
                    let a = self.impossible()?;
                    Ok(a)
                }
            },
            Place::Name(i) => {
                let a = self.name(scope, i)?;
                Ok(a)
            }
            Place::Nowhere => {
                let a = self.impossible()?;
                Ok(a)
            }
        }
    }

    /// A command by itself, where its line is among the first `n`.
    fn own_upto(
        &mut self,
        scope: &Scope,
        place: Place,
        node: &ActionNode,
        line: u32,
        n: u32,
    ) -> Result<(), OutOfMemory>
        requires { scope_bound scope.now ≤ self.old.count }
        ensures walked { OnOk result (Walked scope.now self.old self.new (upto n (at line (own_nodes (place_node place) node.now))) []) }
        ensures grows { OnOk result (self.old.count ≤ self.new.count) }
    {
        if line > n {
            return Ok(());
        }
        self.own(scope, place, node)?;
        Ok(())
    }

    /// A command, and the commands in it, on the first `n` lines.
    #[cycle(lines)]
    pub fn action(
        &mut self,
        scope: &Scope,
        place: Place,
        action: &Action,
        n: u32,
    ) -> Result<(), OutOfMemory>
        requires { scope_bound scope.now ≤ self.old.count }
        ensures walked { OnOk result (Walked scope.now self.old self.new (upto n (seen_action (place_node place) action.now)) []) }
        ensures grows { OnOk result (self.old.count ≤ self.new.count) }
    {
        self.own_upto(scope, place, &action.node, action.line, n)?;
        self.inner(scope, place, &action.node, n)?;
        Ok(())
    }

    /// The commands in a command.
    #[cycle(lines)]
    fn inner(
        &mut self,
        scope: &Scope,
        place: Place,
        node: &ActionNode,
        n: u32,
    ) -> Result<(), OutOfMemory>
        requires { scope_bound scope.now ≤ self.old.count }
        ensures walked { OnOk result (Walked scope.now self.old self.new (upto n (inner_nodes (place_node place) node.now)) []) }
        ensures grows { OnOk result (self.old.count ≤ self.new.count) }
    {
        match node {
            ActionNode::If(_, suite) => {
                self.suite(scope, place, suite.as_slice(), n)?;
                Ok(())
            }
            ActionNode::While(_, suite) => {
                self.suite(scope, place, suite.as_slice(), n)?;
                Ok(())
            }
            ActionNode::For { suite, .. } => {
                self.suite(scope, place, suite.as_slice(), n)?;
                Ok(())
            }
            ActionNode::Select(alternatives) => {
                self.alternatives(scope, place, alternatives.as_slice(), n)?;
                Ok(())
            }
            ActionNode::Write { .. } => Ok(()),
            ActionNode::Put { .. } => Ok(()),
            ActionNode::Insert { .. } => Ok(()),
            ActionNode::Remove { .. } => Ok(()),
            ActionNode::Delete { .. } => Ok(()),
            ActionNode::ReadExample { .. } => Ok(()),
            ActionNode::ReadRaw { .. } => Ok(()),
            ActionNode::Check(_) => Ok(()),
            ActionNode::Pass => Ok(()),
            ActionNode::Quit => Ok(()),
            ActionNode::Return(_) => Ok(()),
            ActionNode::Report(_) => Ok(()),
            ActionNode::Succeed => Ok(()),
            ActionNode::Fail => Ok(()),
            ActionNode::Call(_, _) => Ok(()),
            ActionNode::Refinement(_) => Ok(()),
        }
    }

    #[cycle(lines)]
    pub fn suite(
        &mut self,
        scope: &Scope,
        place: Place,
        suite: &[Action],
        n: u32,
    ) -> Result<(), OutOfMemory>
        requires { scope_bound scope.now ≤ self.old.count }
        ensures walked { OnOk result (Walked scope.now self.old self.new (upto n (flat (map (seen_action (place_node place)) suite.now))) []) }
        ensures grows { OnOk result (self.old.count ≤ self.new.count) }
    {
        for action in suite {
            self.action(scope, place, action, n)?;
        }
        Ok(())
    }

    #[cycle(lines)]
    fn alternatives(
        &mut self,
        scope: &Scope,
        place: Place,
        alternatives: &[Alternative],
        n: u32,
    ) -> Result<(), OutOfMemory>
        requires { scope_bound scope.now ≤ self.old.count }
        ensures walked { OnOk result (Walked scope.now self.old self.new (upto n (flat (map (seen_alternative (place_node place)) alternatives.now))) []) }
        ensures grows { OnOk result (self.old.count ≤ self.new.count) }
    {
        for alternative in alternatives {
            self.alternative(scope, place, alternative, n)?;
        }
        Ok(())
    }

    #[cycle(lines)]
    fn alternative(
        &mut self,
        scope: &Scope,
        place: Place,
        alternative: &Alternative,
        n: u32,
    ) -> Result<(), OutOfMemory>
        requires { scope_bound scope.now ≤ self.old.count }
        ensures walked { OnOk result (Walked scope.now self.old self.new (upto n (seen_alternative (place_node place) alternative.now)) []) }
        ensures grows { OnOk result (self.old.count ≤ self.new.count) }
    {
        self.tested_upto(scope, &alternative.test, alternative.line, n)?;
        self.suite(scope, place, alternative.suite.as_slice(), n)?;
        Ok(())
    }

    /// The test of an alternative, where its line is among the first `n`.
    fn tested_upto(
        &mut self,
        scope: &Scope,
        test: &Option<Test>,
        line: u32,
        n: u32,
    ) -> Result<(), OutOfMemory>
        requires { scope_bound scope.now ≤ self.old.count }
        ensures walked { OnOk result (Walked scope.now self.old self.new (upto n (at line (tested test.now ∷ []))) []) }
        ensures grows { OnOk result (self.old.count ≤ self.new.count) }
    {
        if line > n {
            return Ok(());
        }
        self.tested(scope, test)?;
        Ok(())
    }

    fn tested(&mut self, scope: &Scope, test: &Option<Test>) -> Result<(), OutOfMemory>
        requires { scope_bound scope.now ≤ self.old.count }
        ensures walked { OnOk result (Walked scope.now self.old self.new (tested test.now ∷ []) []) }
        ensures grows { OnOk result (self.old.count ≤ self.new.count) }
    {
        match test {
            Some(t) => {
                self.test(scope, t)?;
                Ok(())
            }
            None => Ok(()),
        }
    }

    /// The refinements of a unit, on its first `n` lines.
    pub fn refinements(
        &mut self,
        scope: &Scope,
        names: &Names,
        refinements: &[Refinement],
        n: u32,
    ) -> Result<(), OutOfMemory>
        requires { scope_bound scope.now ≤ self.old.count }
        ensures walked { OnOk result (Walked scope.now self.old self.new (upto n (flat (map (seen_refinement names.now) refinements.now))) []) }
        ensures grows { OnOk result (self.old.count ≤ self.new.count) }
    {
        for refinement in refinements {
            let place = place_in(names, refinement);
            self.suite(scope, place, refinement.suite.as_slice(), n)?;
        }
        Ok(())
    }
}

/// What a RETURN in a refinement gives its value to: in an expression refinement to its name.
fn place_in(names: &Names, refinement: &Refinement) -> Place
    ensures { place_node result ≡ place_in names.now refinement.now.kind refinement.now.name }
{
    match refinement.kind {
        RefinementKind::Expression => match names.find(&refinement.name) {
            Some(i) => Place::Name(NameId(i)),
            None => Place::Nowhere,
        },
        RefinementKind::Command => Place::Result,
        RefinementKind::Test => Place::Result,
    }
}
