//! The templates of the call nodes in a tree, in the order of the text.
ghost use Rattle.std.specs.Prelude.{◌≡◌, ◌++◌, ◌∷◌, [], map, take, drop, IfOk, OnOk};
ghost use Rattle.abc_tree.specs.Calls.{in_text_order, begins_with_place, unit_nodes as nodes_of_unit, command_nodes as nodes_of_command};
ghost use Rattle.abc_tree.specs.Lined.{at, upto};
ghost use Rattle.abc_tree.specs.Lists.{flat};
ghost use Rattle.abc_calls.specs.inner.Nodes.{nodes_in, nodes_in_piece, nodes_in_fill, nodes_in_pair, nodes_in_test, part_nodes, nodes_if_any, nodes_in_node, nodes_in_action, nodes_in_alternative, nodes_in_refinement, with_nodes};

use abc_num::OutOfMemory;
use abc_tree::{
    Action, ActionNode, Alternative, Command, Expr, Fill, Link, Pair, Piece, Refinement, Template,
    Test, Unit, Word,
};
use std::alloc::Global;
use std::marker::Model;

/// Templates one behind the other.
#[derive(Drop)]
struct Listed {
    alloc: Global,
    templates: Vec<Template>,
}

impl Model for Listed {
    ghost use Rattle.std.specs.Prelude.{List};
    ghost use Rattle.abc_tree.specs.declared.templates.Template.{Template};

    ghost Value = { List Template };

    ghost view = { λ l. l.templates.items };
}

/// Whether a call of the template begins with an actual.
fn starts_with_place(t: &Template) -> bool
    ensures { result ≡ begins_with_place t.now.words }
{
    let words = t.words.as_slice();
    if words.is_empty() {
        return false;
    }
    match &words[0] {
        Word::Key(_) => false,
        Word::Place => true,
    }
}

impl Listed {
    fn new(alloc: Global) -> Listed
        ensures { result ≡ [] }
    {
        Listed {
            alloc,
            templates: Vec::new(alloc),
        }
    }

    fn into_vec(self) -> Vec<Template>
        ensures { result.items ≡ self }
    {
        let Listed {
            alloc: _,
            templates,
        } = self;
        templates
    }

    /// Adds a template behind the others.
    fn add(&mut self, t: &Template) -> Result<(), OutOfMemory>
        ensures { OnOk result (self.new ≡ self.old ++ t.now ∷ []) }
    {
        let copy = t.copy(self.alloc)?;
        self.templates.push(copy)?;
        Ok(())
    }

    /// Adds the calls in an expression.
    #[cycle(calls)]
    fn expression(&mut self, e: &Expr) -> Result<(), OutOfMemory>
        ensures { OnOk result (self.new ≡ with_nodes self.old (nodes_in e.now)) }
    {
        match e {
            Expr::Number(_) | Expr::Name(_) | Expr::Empty => Ok(()),
            Expr::Text(pieces) => self.pieces(pieces.as_slice()),
            Expr::Compound(parts) => self.expressions(parts.as_slice(), 0),
            Expr::List(fills) => self.fills(fills.as_slice()),
            Expr::Table(pairs) => self.pairs(pairs.as_slice()),
            Expr::Apply1(_, x) => self.expression(x.get()),
            Expr::Select(x, y) => {
                self.expression(x.get())?;
                self.expression(y.get())?;
                Ok(())
            }
            Expr::Apply2(_, x, y) => {
                self.expression(x.get())?;
                self.expression(y.get())?;
                Ok(())
            }
            Expr::Call(template, actuals) => self.call(template, actuals.as_slice()),
        }
    }

    /// Adds the calls in the expressions from a place on.
    #[cycle(calls)]
    fn expressions(&mut self, es: &[Expr], from: usize) -> Result<(), OutOfMemory>
        ensures { OnOk result (self.new ≡ with_nodes self.old (flat (map nodes_in (drop from es.now)))) }
    {
        for i in from..es.len() {
            self.expression(&es[i])?;
        }
        Ok(())
    }

    /// Adds a call and the calls in its actuals.
    #[cycle(calls)]
    fn call(&mut self, t: &Template, actuals: &[Expr]) -> Result<(), OutOfMemory>
        ensures { OnOk result (self.new ≡ with_nodes self.old (in_text_order t.now (map nodes_in actuals.now))) }
    {
        let front = self.front(t, actuals)?;
        self.add(t)?;
        self.expressions(actuals, front)?;
        Ok(())
    }

    /// Adds the calls in the actuals before the first word of a call, and tells how many these actuals are.
    #[cycle(calls)]
    fn front(&mut self, t: &Template, actuals: &[Expr]) -> Result<usize, OutOfMemory>
        ensures cut { IfOk result (λ n. in_text_order t.now (map nodes_in actuals.now) ≡ flat (map nodes_in (take n actuals.now)) ++ t.now ∷ flat (map nodes_in (drop n actuals.now))) }
        ensures added { IfOk result (λ n. self.new ≡ with_nodes self.old (flat (map nodes_in (take n actuals.now)))) }
    {
        if actuals.is_empty() {
            return Ok(0);
        }
        if !starts_with_place(t) {
            return Ok(0);
        }
        self.expression(&actuals[0])?;
        Ok(1)
    }

    #[cycle(calls)]
    fn pieces(&mut self, pieces: &[Piece]) -> Result<(), OutOfMemory>
        ensures { OnOk result (self.new ≡ with_nodes self.old (flat (map nodes_in_piece pieces.now))) }
    {
        for piece in pieces {
            self.piece(piece)?;
        }
        Ok(())
    }

    #[cycle(calls)]
    fn piece(&mut self, piece: &Piece) -> Result<(), OutOfMemory>
        ensures { OnOk result (self.new ≡ with_nodes self.old (nodes_in_piece piece.now)) }
    {
        match piece {
            Piece::Chars(_) => Ok(()),
            Piece::Conversion(e) => self.expression(e),
        }
    }

    #[cycle(calls)]
    fn fills(&mut self, fills: &[Fill]) -> Result<(), OutOfMemory>
        ensures { OnOk result (self.new ≡ with_nodes self.old (flat (map nodes_in_fill fills.now))) }
    {
        for fill in fills {
            self.fill(fill)?;
        }
        Ok(())
    }

    #[cycle(calls)]
    fn fill(&mut self, fill: &Fill) -> Result<(), OutOfMemory>
        ensures { OnOk result (self.new ≡ with_nodes self.old (nodes_in_fill fill.now)) }
    {
        match fill {
            Fill::One(e) => self.expression(e),
            Fill::Range(from, to) => {
                self.expression(from)?;
                self.expression(to)?;
                Ok(())
            }
        }
    }

    #[cycle(calls)]
    fn pairs(&mut self, pairs: &[Pair]) -> Result<(), OutOfMemory>
        ensures { OnOk result (self.new ≡ with_nodes self.old (flat (map nodes_in_pair pairs.now))) }
    {
        for pair in pairs {
            self.pair(pair)?;
        }
        Ok(())
    }

    #[cycle(calls)]
    fn pair(&mut self, pair: &Pair) -> Result<(), OutOfMemory>
        ensures { OnOk result (self.new ≡ with_nodes self.old (nodes_in_pair pair.now)) }
    {
        self.expression(&pair.key)?;
        self.expression(&pair.associate)?;
        Ok(())
    }

    fn links(&mut self, links: &[Link]) -> Result<(), OutOfMemory>
        ensures { OnOk result (self.new ≡ with_nodes self.old (flat (map (λ link. nodes_in link.right) links.now))) }
    {
        for link in links {
            self.expression(&link.right)?;
        }
        Ok(())
    }

    /// Adds the calls in a test.
    fn test(&mut self, t: &Test) -> Result<(), OutOfMemory>
        ensures { OnOk result (self.new ≡ with_nodes self.old (nodes_in_test t.now)) }
    {
        match t {
            Test::Refinement(_) => Ok(()),
            Test::Not(inner) => self.test(inner.get()),
            Test::Chain(first, links) => {
                self.expression(first)?;
                self.links(links.as_slice())?;
                Ok(())
            }
            Test::Member(_, element, train) => {
                self.expression(element)?;
                self.expression(train)?;
                Ok(())
            }
            Test::And(left, right) => {
                self.test(left.get())?;
                self.test(right.get())?;
                Ok(())
            }
            Test::Or(left, right) => {
                self.test(left.get())?;
                self.test(right.get())?;
                Ok(())
            }
            Test::Quantified(_, _, train, inner) => {
                self.expression(train)?;
                self.test(inner.get())?;
                Ok(())
            }
            Test::Call(template, actuals) => self.call(template, actuals.as_slice()),
        }
    }

    /// Adds the calls in two expressions that stand on a line, if it is among the first `n`.
    fn both_upto(&mut self, x: &Expr, y: &Expr, line: u32, n: u32) -> Result<(), OutOfMemory>
        ensures { OnOk result (self.new ≡ with_nodes self.old (upto n (at line (nodes_in x.now ++ nodes_in y.now)))) }
    {
        if line > n {
            return Ok(());
        }
        self.expression(x)?;
        self.expression(y)?;
        Ok(())
    }

    fn expression_upto(&mut self, e: &Expr, line: u32, n: u32) -> Result<(), OutOfMemory>
        ensures { OnOk result (self.new ≡ with_nodes self.old (upto n (at line (nodes_in e.now)))) }
    {
        if line > n {
            return Ok(());
        }
        self.expression(e)?;
        Ok(())
    }

    fn part_upto(&mut self, part: &Option<Expr>, line: u32, n: u32) -> Result<(), OutOfMemory>
        ensures { OnOk result (self.new ≡ with_nodes self.old (upto n (at line (part_nodes part.now)))) }
    {
        match part {
            Some(e) => self.expression_upto(e, line, n),
            None => Ok(()),
        }
    }

    fn test_upto(&mut self, t: &Test, line: u32, n: u32) -> Result<(), OutOfMemory>
        ensures { OnOk result (self.new ≡ with_nodes self.old (upto n (at line (nodes_in_test t.now)))) }
    {
        if line > n {
            return Ok(());
        }
        self.test(t)?;
        Ok(())
    }

    fn test_if_any(&mut self, t: &Option<Test>, line: u32, n: u32) -> Result<(), OutOfMemory>
        ensures { OnOk result (self.new ≡ with_nodes self.old (upto n (at line (nodes_if_any t.now)))) }
    {
        match t {
            Some(t) => self.test_upto(t, line, n),
            None => Ok(()),
        }
    }

    fn call_upto(
        &mut self,
        template: &Template,
        actuals: &[Expr],
        line: u32,
        n: u32,
    ) -> Result<(), OutOfMemory>
        ensures { OnOk result (self.new ≡ with_nodes self.old (upto n (at line (in_text_order template.now (map nodes_in actuals.now))))) }
    {
        if line > n {
            return Ok(());
        }
        self.call(template, actuals)?;
        Ok(())
    }

    /// Adds the calls in a command that has this line.
    #[cycle(lines)]
    fn node(&mut self, node: &ActionNode, line: u32, n: u32) -> Result<(), OutOfMemory>
        ensures { OnOk result (self.new ≡ with_nodes self.old (upto n (nodes_in_node node.now line))) }
    {
        match node {
            ActionNode::Pass
            | ActionNode::Quit
            | ActionNode::Succeed
            | ActionNode::Fail
            | ActionNode::Refinement(_) => Ok(()),
            ActionNode::Write { part, .. } => self.part_upto(part, line, n),
            ActionNode::Put { value, address } => self.both_upto(value, address, line, n),
            ActionNode::Insert { value, address } => self.both_upto(value, address, line, n),
            ActionNode::Remove { value, address } => self.both_upto(value, address, line, n),
            ActionNode::Delete { address } => self.expression_upto(address, line, n),
            ActionNode::ReadExample { address, example } => {
                self.both_upto(address, example, line, n)
            }
            ActionNode::ReadRaw { address } => self.expression_upto(address, line, n),
            ActionNode::Check(test) => self.test_upto(test, line, n),
            ActionNode::Return(value) => self.expression_upto(value, line, n),
            ActionNode::Report(test) => self.test_upto(test, line, n),
            ActionNode::Call(template, actuals) => {
                self.call_upto(template, actuals.as_slice(), line, n)
            }
            ActionNode::Select(alternatives) => self.alternatives(alternatives.as_slice(), n),
            ActionNode::If(test, suite) => {
                self.test_upto(test, line, n)?;
                self.suite(suite.as_slice(), n)?;
                Ok(())
            }
            ActionNode::While(test, suite) => {
                self.test_upto(test, line, n)?;
                self.suite(suite.as_slice(), n)?;
                Ok(())
            }
            ActionNode::For { train, suite, .. } => {
                self.expression_upto(train, line, n)?;
                self.suite(suite.as_slice(), n)?;
                Ok(())
            }
        }
    }

    #[cycle(lines)]
    fn suite(&mut self, suite: &[Action], n: u32) -> Result<(), OutOfMemory>
        ensures { OnOk result (self.new ≡ with_nodes self.old (upto n (flat (map nodes_in_action suite.now)))) }
    {
        for action in suite {
            self.action(action, n)?;
        }
        Ok(())
    }

    #[cycle(lines)]
    fn action(&mut self, action: &Action, n: u32) -> Result<(), OutOfMemory>
        ensures { OnOk result (self.new ≡ with_nodes self.old (upto n (nodes_in_action action.now))) }
    {
        self.node(&action.node, action.line, n)
    }

    #[cycle(lines)]
    fn alternatives(&mut self, alternatives: &[Alternative], n: u32) -> Result<(), OutOfMemory>
        ensures { OnOk result (self.new ≡ with_nodes self.old (upto n (flat (map nodes_in_alternative alternatives.now)))) }
    {
        for alternative in alternatives {
            self.alternative(alternative, n)?;
        }
        Ok(())
    }

    #[cycle(lines)]
    fn alternative(&mut self, alternative: &Alternative, n: u32) -> Result<(), OutOfMemory>
        ensures { OnOk result (self.new ≡ with_nodes self.old (upto n (nodes_in_alternative alternative.now))) }
    {
        self.test_if_any(&alternative.test, alternative.line, n)?;
        self.suite(alternative.suite.as_slice(), n)?;
        Ok(())
    }

    fn refinements(&mut self, refinements: &[Refinement], n: u32) -> Result<(), OutOfMemory>
        ensures { OnOk result (self.new ≡ with_nodes self.old (upto n (flat (map nodes_in_refinement refinements.now)))) }
    {
        for refinement in refinements {
            self.suite(refinement.suite.as_slice(), n)?;
        }
        Ok(())
    }
}

/// The templates of the call nodes of a unit on its lines up to `n`, one for each node, in the order of the text.
pub fn unit_nodes(alloc: Global, unit: &Unit, n: u32) -> Result<Vec<Template>, OutOfMemory>
    ensures { IfOk result (λ templates. templates.items ≡ nodes_of_unit n unit.now) }
{
    let mut listed = Listed::new(alloc);
    listed.suite(unit.body.as_slice(), n)?;
    listed.refinements(unit.refinements.as_slice(), n)?;
    Ok(listed.into_vec())
}

/// The templates of the call nodes of a command on its lines up to `n`, one for each node, in the order of the text.
pub fn command_nodes(alloc: Global, command: &Command, n: u32) -> Result<Vec<Template>, OutOfMemory>
    ensures { IfOk result (λ templates. templates.items ≡ nodes_of_command n command.now) }
{
    let mut listed = Listed::new(alloc);
    listed.action(&command.action, n)?;
    Ok(listed.into_vec())
}
