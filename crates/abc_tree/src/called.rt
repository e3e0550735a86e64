//! The calls of units that stand in a tree.
ghost use Rattle.std.specs.Prelude.{◌≡◌, ◌++◌, ◌∷◌, [], map, IfOk, OnOk};
ghost use Rattle.abc_tree.specs.Calls.{calls_in, calls_in_piece, calls_in_fill, calls_in_pair, calls_in_test, part_calls, test_if_any, calls_in_node, calls_in_action, calls_in_alternative, calls_in_refinement, with_call, with_calls, called_upto, command_called_upto};
ghost use Rattle.abc_tree.specs.Lined.{at, upto};
ghost use Rattle.abc_tree.specs.Lists.{flat};

use crate::search::{HasTemplate, place_of};
use crate::{
    Action, ActionNode, Alternative, Command, Expr, Fill, Link, Pair, Piece, Refinement, Template,
    Test, Unit,
};
use abc_num::OutOfMemory;
use std::alloc::Global;
use std::marker::Model;

impl HasTemplate for Template {
    ghost key = { λ t. t };

    fn template(&self) -> &Template {
        self
    }
}

/// Templates in their order, each once.
#[derive(Drop)]
pub(crate) struct Called {
    alloc: Global,
    templates: Vec<Template>,
}

impl Model for Called {
    ghost use Rattle.std.specs.Prelude.{List};
    ghost use Rattle.abc_tree.specs.Ordered.{RiseBy};
    ghost use Rattle.abc_tree.specs.declared.templates.Template.{Template};

    ghost Value = { List Template };

    ghost view = { λ c. c.templates.items };

    ghost invariant = { λ c. RiseBy (λ (t : Template). t) c.templates.items };
}

impl Called {
    pub(crate) fn new(alloc: Global) -> Called
        ensures { result ≡ [] }
    {
        Called {
            alloc,
            templates: Vec::new(alloc),
        }
    }

    pub(crate) fn into_vec(self) -> Vec<Template>
        ensures { result.items ≡ self }
    {
        let Called {
            alloc: _,
            templates,
        } = self;
        templates
    }

    /// Adds a template, if it is not there.
    pub(crate) fn add(&mut self, t: &Template) -> Result<(), OutOfMemory>
        ensures { OnOk result (self.new ≡ with_call t.now self.old) }
    {
        match place_of(&self.templates, t) {
            Ok(_) => Ok(()),
            Err(at) => {
                let copy = t.copy(self.alloc)?;
                self.templates.insert(at, copy)?;
                Ok(())
            }
        }
    }

    /// Adds the calls in an expression.
    #[cycle(calls)]
    pub(crate) fn expression(&mut self, e: &Expr) -> Result<(), OutOfMemory>
        ensures { OnOk result (self.new ≡ with_calls self.old (calls_in e.now)) }
    {
        match e {
            Expr::Number(_) | Expr::Name(_) | Expr::Empty => Ok(()),
            Expr::Text(pieces) => self.pieces(pieces.as_slice()),
            Expr::Compound(parts) => self.expressions(parts.as_slice()),
            Expr::List(fills) => self.fills(fills.as_slice()),
            Expr::Table(pairs) => self.pairs(pairs.as_slice()),
            Expr::Apply1(_, x) => self.expression(x.get()),
            Expr::Select(x, y) => {
                self.expression(x.get())?;
                self.expression(y.get())?;
                Ok(())
            }
            Expr::Apply2(_, x, y) => {
                self.expression(x.get())?;
                self.expression(y.get())?;
                Ok(())
            }
            Expr::Call(template, actuals) => {
                self.add(template)?;
                self.expressions(actuals.as_slice())
            }
        }
    }

    #[cycle(calls)]
    pub(crate) fn expressions(&mut self, es: &[Expr]) -> Result<(), OutOfMemory>
        ensures { OnOk result (self.new ≡ with_calls self.old (flat (map calls_in es.now))) }
    {
        for e in es {
            self.expression(e)?;
        }
        Ok(())
    }

    #[cycle(calls)]
    fn pieces(&mut self, pieces: &[Piece]) -> Result<(), OutOfMemory>
        ensures { OnOk result (self.new ≡ with_calls self.old (flat (map calls_in_piece pieces.now))) }
    {
        for piece in pieces {
            self.piece(piece)?;
        }
        Ok(())
    }

    #[cycle(calls)]
    fn piece(&mut self, piece: &Piece) -> Result<(), OutOfMemory>
        ensures { OnOk result (self.new ≡ with_calls self.old (calls_in_piece piece.now)) }
    {
        match piece {
            Piece::Chars(_) => Ok(()),
            Piece::Conversion(e) => self.expression(e),
        }
    }

    #[cycle(calls)]
    fn fills(&mut self, fills: &[Fill]) -> Result<(), OutOfMemory>
        ensures { OnOk result (self.new ≡ with_calls self.old (flat (map calls_in_fill fills.now))) }
    {
        for fill in fills {
            self.fill(fill)?;
        }
        Ok(())
    }

    #[cycle(calls)]
    fn fill(&mut self, fill: &Fill) -> Result<(), OutOfMemory>
        ensures { OnOk result (self.new ≡ with_calls self.old (calls_in_fill fill.now)) }
    {
        match fill {
            Fill::One(e) => self.expression(e),
            Fill::Range(from, to) => {
                self.expression(from)?;
                self.expression(to)?;
                Ok(())
            }
        }
    }

    #[cycle(calls)]
    fn pairs(&mut self, pairs: &[Pair]) -> Result<(), OutOfMemory>
        ensures { OnOk result (self.new ≡ with_calls self.old (flat (map calls_in_pair pairs.now))) }
    {
        for pair in pairs {
            self.pair(pair)?;
        }
        Ok(())
    }

    #[cycle(calls)]
    fn pair(&mut self, pair: &Pair) -> Result<(), OutOfMemory>
        ensures { OnOk result (self.new ≡ with_calls self.old (calls_in_pair pair.now)) }
    {
        self.expression(&pair.key)?;
        self.expression(&pair.associate)?;
        Ok(())
    }

    fn links(&mut self, links: &[Link]) -> Result<(), OutOfMemory>
        ensures { OnOk result (self.new ≡ with_calls self.old (flat (map (λ link. calls_in link.right) links.now))) }
    {
        for link in links {
            self.expression(&link.right)?;
        }
        Ok(())
    }

    /// Adds the calls in a test.
    pub(crate) fn test(&mut self, t: &Test) -> Result<(), OutOfMemory>
        ensures { OnOk result (self.new ≡ with_calls self.old (calls_in_test t.now)) }
    {
        match t {
            Test::Refinement(_) => Ok(()),
            Test::Not(inner) => self.test(inner.get()),
            Test::Chain(first, links) => {
                self.expression(first)?;
                self.links(links.as_slice())?;
                Ok(())
            }
            Test::Member(_, element, train) => {
                self.expression(element)?;
                self.expression(train)?;
                Ok(())
            }
            Test::And(left, right) => {
                self.test(left.get())?;
                self.test(right.get())?;
                Ok(())
            }
            Test::Or(left, right) => {
                self.test(left.get())?;
                self.test(right.get())?;
                Ok(())
            }
            Test::Quantified(_, _, train, inner) => {
                self.expression(train)?;
                self.test(inner.get())?;
                Ok(())
            }
            Test::Call(template, actuals) => {
                self.add(template)?;
                self.expressions(actuals.as_slice())
            }
        }
    }

    /// Adds the calls in two expressions that stand on a line, if it is among the first `n`.
    fn both_upto(&mut self, x: &Expr, y: &Expr, line: u32, n: u32) -> Result<(), OutOfMemory>
        ensures { OnOk result (self.new ≡ with_calls self.old (upto n (at line (calls_in x.now ++ calls_in y.now)))) }
    {
        if line > n {
            return Ok(());
        }
        self.expression(x)?;
        self.expression(y)?;
        Ok(())
    }

    fn expression_upto(&mut self, e: &Expr, line: u32, n: u32) -> Result<(), OutOfMemory>
        ensures { OnOk result (self.new ≡ with_calls self.old (upto n (at line (calls_in e.now)))) }
    {
        if line > n {
            return Ok(());
        }
        self.expression(e)?;
        Ok(())
    }

    fn part_upto(&mut self, part: &Option<Expr>, line: u32, n: u32) -> Result<(), OutOfMemory>
        ensures { OnOk result (self.new ≡ with_calls self.old (upto n (at line (part_calls part.now)))) }
    {
        match part {
            Some(e) => self.expression_upto(e, line, n),
            None => Ok(()),
        }
    }

    fn test_upto(&mut self, t: &Test, line: u32, n: u32) -> Result<(), OutOfMemory>
        ensures { OnOk result (self.new ≡ with_calls self.old (upto n (at line (calls_in_test t.now)))) }
    {
        if line > n {
            return Ok(());
        }
        self.test(t)?;
        Ok(())
    }

    fn test_if_any(&mut self, t: &Option<Test>, line: u32, n: u32) -> Result<(), OutOfMemory>
        ensures { OnOk result (self.new ≡ with_calls self.old (upto n (at line (test_if_any t.now)))) }
    {
        match t {
            Some(t) => self.test_upto(t, line, n),
            None => Ok(()),
        }
    }

    fn call_upto(
        &mut self,
        template: &Template,
        actuals: &[Expr],
        line: u32,
        n: u32,
    ) -> Result<(), OutOfMemory>
        ensures { OnOk result (self.new ≡ with_calls self.old (upto n (at line (template.now ∷ flat (map calls_in actuals.now))))) }
    {
        if line > n {
            return Ok(());
        }
        self.add(template)?;
        self.expressions(actuals)?;
        Ok(())
    }

    /// Adds the calls in a command that has this line.
    #[cycle(lines)]
    fn node(&mut self, node: &ActionNode, line: u32, n: u32) -> Result<(), OutOfMemory>
        ensures { OnOk result (self.new ≡ with_calls self.old (upto n (calls_in_node node.now line))) }
    {
        match node {
            ActionNode::Pass
            | ActionNode::Quit
            | ActionNode::Succeed
            | ActionNode::Fail
            | ActionNode::Refinement(_) => Ok(()),
            ActionNode::Write { part, .. } => self.part_upto(part, line, n),
            ActionNode::Put { value, address } => self.both_upto(value, address, line, n),
            ActionNode::Insert { value, address } => self.both_upto(value, address, line, n),
            ActionNode::Remove { value, address } => self.both_upto(value, address, line, n),
            ActionNode::Delete { address } => self.expression_upto(address, line, n),
            ActionNode::ReadExample { address, example } => {
                self.both_upto(address, example, line, n)
            }
            ActionNode::ReadRaw { address } => self.expression_upto(address, line, n),
            ActionNode::Check(test) => self.test_upto(test, line, n),
            ActionNode::Return(value) => self.expression_upto(value, line, n),
            ActionNode::Report(test) => self.test_upto(test, line, n),
            ActionNode::Call(template, actuals) => {
                self.call_upto(template, actuals.as_slice(), line, n)
            }
            ActionNode::Select(alternatives) => self.alternatives(alternatives.as_slice(), n),
            ActionNode::If(test, suite) => {
                self.test_upto(test, line, n)?;
                self.suite(suite.as_slice(), n)?;
                Ok(())
            }
            ActionNode::While(test, suite) => {
                self.test_upto(test, line, n)?;
                self.suite(suite.as_slice(), n)?;
                Ok(())
            }
            ActionNode::For { train, suite, .. } => {
                self.expression_upto(train, line, n)?;
                self.suite(suite.as_slice(), n)?;
                Ok(())
            }
        }
    }

    #[cycle(lines)]
    fn suite(&mut self, suite: &[Action], n: u32) -> Result<(), OutOfMemory>
        ensures { OnOk result (self.new ≡ with_calls self.old (upto n (flat (map calls_in_action suite.now)))) }
    {
        for action in suite {
            self.action(action, n)?;
        }
        Ok(())
    }

    #[cycle(lines)]
    fn action(&mut self, action: &Action, n: u32) -> Result<(), OutOfMemory>
        ensures { OnOk result (self.new ≡ with_calls self.old (upto n (calls_in_action action.now))) }
    {
        self.node(&action.node, action.line, n)
    }

    #[cycle(lines)]
    fn alternatives(&mut self, alternatives: &[Alternative], n: u32) -> Result<(), OutOfMemory>
        ensures { OnOk result (self.new ≡ with_calls self.old (upto n (flat (map calls_in_alternative alternatives.now)))) }
    {
        for alternative in alternatives {
            self.alternative(alternative, n)?;
        }
        Ok(())
    }

    #[cycle(lines)]
    fn alternative(&mut self, alternative: &Alternative, n: u32) -> Result<(), OutOfMemory>
        ensures { OnOk result (self.new ≡ with_calls self.old (upto n (calls_in_alternative alternative.now))) }
    {
        self.test_if_any(&alternative.test, alternative.line, n)?;
        self.suite(alternative.suite.as_slice(), n)?;
        Ok(())
    }

    fn refinements(&mut self, refinements: &[Refinement], n: u32) -> Result<(), OutOfMemory>
        ensures { OnOk result (self.new ≡ with_calls self.old (upto n (flat (map calls_in_refinement refinements.now)))) }
    {
        for refinement in refinements {
            self.suite(refinement.suite.as_slice(), n)?;
        }
        Ok(())
    }
}

/// The templates that a unit calls on its lines up to `n`, each once, in the order of templates.
pub fn calls(alloc: Global, unit: &Unit, n: u32) -> Result<Vec<Template>, OutOfMemory>
    ensures { IfOk result (λ templates. templates.items ≡ called_upto n unit.now) }
{
    let mut called = Called::new(alloc);
    called.suite(unit.body.as_slice(), n)?;
    called.refinements(unit.refinements.as_slice(), n)?;
    Ok(called.into_vec())
}

/// The templates that a command calls on its lines up to `n`, each once, in the order of templates.
pub fn command_calls(alloc: Global, command: &Command, n: u32) -> Result<Vec<Template>, OutOfMemory>
    ensures { IfOk result (λ templates. templates.items ≡ command_called_upto n command.now) }
{
    let mut called = Called::new(alloc);
    called.action(&command.action, n)?;
    Ok(called.into_vec())
}
