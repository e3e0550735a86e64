//! The formulas of a line: whether refinements stand in them where they may, and whether one is too high.
ghost use Rattle.std.specs.Prelude.{◌≡◌, ◌&&◌, ℕ, List, [], map};
ghost use Rattle.std.specs.List.{list_any};
ghost use Rattle.abc_tree.specs.Regular.{every, is_test_kind, is_value_kind};
ghost use Rattle.abc_expressions.specs.NamesOfTrees.{names_are};
ghost use Rattle.abc_clauses.specs.Names.{refinement_at};
ghost use Rattle.abc_clauses.specs.Fits.{part_fits, test_fits};
ghost use Rattle.abc_clauses.specs.Formulas.{beside_is_high, beside_is_placed, fit, head_is_high, head_is_placed, is_misplaced, is_too_high, node_is_high, node_is_placed, test_is_high, value_is_high};
ghost use Rattle.abc_clauses.specs.inner.Naming.{address_is_fit, names_of_fill, names_of_pair, names_of_piece, names_of_link, gives_value};

use crate::clause::{Clause, Head};
use abc_expressions::is_higher;
use abc_formula::is_test_higher;
use abc_num::limits::MOST_TREE_HEIGHT;
use abc_tree::{ActionNode, Expr, Fill, Link, NameId, Pair, Piece, RefinementKind, Test};

/// The kind of the refinement that the own name of this number is.
pub(crate) fn refinement_at(
    kinds: &[Option<RefinementKind>],
    name: NameId,
) -> Option<RefinementKind>
    ensures { result ≡ refinement_at kinds.now name.0 }
{
    match kinds.get(name.0 as usize) {
        Some(kind) => *kind,
        None => None,
    }
}

/// Whether a name gives a value: it is no refinement, or one of expressions.
fn gives_value(kinds: &[Option<RefinementKind>], name: NameId) -> bool
    ensures { result ≡ is_value_kind (refinement_at kinds.now name.0) }
{
    matches!(
        refinement_at(kinds, name),
        None | Some(RefinementKind::Expression)
    )
}

/// Whether each name of the expression gives a value.
#[cycle(values)]
fn value_fits(kinds: &[Option<RefinementKind>], tree: &Expr) -> bool
    ensures { result ≡ names_are (gives_value kinds.now) tree.now }
{
    match tree {
        Expr::Number(_) => true,
        Expr::Text(pieces) => pieces_fit(kinds, pieces.as_slice()),
        Expr::Name(name) => gives_value(kinds, *name),
        Expr::Compound(parts) => values_fit(kinds, parts.as_slice()),
        Expr::Empty => true,
        Expr::List(fills) => fills_fit(kinds, fills.as_slice()),
        Expr::Table(pairs) => pairs_fit(kinds, pairs.as_slice()),
        Expr::Select(table, key) => value_fits(kinds, table.get()) && value_fits(kinds, key.get()),
        Expr::Apply1(_, x) => value_fits(kinds, x.get()),
        Expr::Apply2(_, x, y) => value_fits(kinds, x.get()) && value_fits(kinds, y.get()),
        Expr::Call(_, actuals) => values_fit(kinds, actuals.as_slice()),
    }
}

#[cycle(values)]
fn values_fit(kinds: &[Option<RefinementKind>], parts: &[Expr]) -> bool
    ensures { result ≡ every (map (names_are (gives_value kinds.now)) parts.now) }
{
    for part in parts {
        if !value_fits(kinds, part) {
            return false;
        }
    }
    true
}

#[cycle(values)]
fn piece_fits(kinds: &[Option<RefinementKind>], piece: &Piece) -> bool
    ensures { result ≡ names_of_piece (gives_value kinds.now) piece.now }
{
    match piece {
        Piece::Chars(_) => true,
        Piece::Conversion(x) => value_fits(kinds, x),
    }
}

#[cycle(values)]
fn pieces_fit(kinds: &[Option<RefinementKind>], pieces: &[Piece]) -> bool
    ensures { result ≡ every (map (names_of_piece (gives_value kinds.now)) pieces.now) }
{
    for piece in pieces {
        if !piece_fits(kinds, piece) {
            return false;
        }
    }
    true
}

#[cycle(values)]
fn fill_fits(kinds: &[Option<RefinementKind>], fill: &Fill) -> bool
    ensures { result ≡ names_of_fill (gives_value kinds.now) fill.now }
{
    match fill {
        Fill::One(x) => value_fits(kinds, x),
        Fill::Range(from, to) => value_fits(kinds, from) && value_fits(kinds, to),
    }
}

#[cycle(values)]
fn fills_fit(kinds: &[Option<RefinementKind>], fills: &[Fill]) -> bool
    ensures { result ≡ every (map (names_of_fill (gives_value kinds.now)) fills.now) }
{
    for fill in fills {
        if !fill_fits(kinds, fill) {
            return false;
        }
    }
    true
}

#[cycle(values)]
fn pair_fits(kinds: &[Option<RefinementKind>], pair: &Pair) -> bool
    ensures { result ≡ names_of_pair (gives_value kinds.now) pair.now }
{
    value_fits(kinds, &pair.key) && value_fits(kinds, &pair.associate)
}

#[cycle(values)]
fn pairs_fit(kinds: &[Option<RefinementKind>], pairs: &[Pair]) -> bool
    ensures { result ≡ every (map (names_of_pair (gives_value kinds.now)) pairs.now) }
{
    for pair in pairs {
        if !pair_fits(kinds, pair) {
            return false;
        }
    }
    true
}

fn links_fit(kinds: &[Option<RefinementKind>], links: &[Link]) -> bool
    ensures { result ≡ every (map (names_of_link (gives_value kinds.now)) links.now) }
{
    for link in links {
        if !value_fits(kinds, &link.right) {
            return false;
        }
    }
    true
}

/// Whether the own name is a test refinement.
fn is_test(kinds: &[Option<RefinementKind>], name: NameId) -> bool
    ensures { result ≡ is_test_kind (refinement_at kinds.now name.0) }
{
    matches!(refinement_at(kinds, name), Some(RefinementKind::Test))
}

/// Whether in the test each name in an expression gives a value, and each name that stands as a test is a test refinement.
#[cycle(tests)]
fn test_fits(kinds: &[Option<RefinementKind>], test: &Test) -> bool
    ensures { result ≡ test_fits [] kinds.now test.now }
{
    match test {
        Test::Chain(first, links) => {
            value_fits(kinds, first) && links_fit(kinds, links.as_slice())
        }
        Test::Member(_, e, t) => value_fits(kinds, e) && value_fits(kinds, t),
        Test::And(a, b) => test_fits(kinds, a.get()) && test_fits(kinds, b.get()),
        Test::Or(a, b) => test_fits(kinds, a.get()) && test_fits(kinds, b.get()),
        Test::Not(a) => test_fits(kinds, a.get()),
        Test::Quantified(_, _, train, a) => value_fits(kinds, train) && test_fits(kinds, a.get()),
        Test::Call(_, actuals) => values_fit(kinds, actuals.as_slice()),
        Test::Refinement(name) => is_test(kinds, *name),
    }
}

/// Whether each name in the keys of an address gives a value. Its other names may be any here: that none has another role is
/// asked of the whole item.
#[cycle(addresses)]
#[tactic(auto, using(crate::proofs::Keys::on_select, crate::proofs::Keys::on_compound))]
fn address_fits(kinds: &[Option<RefinementKind>], address: &Expr) -> bool
    ensures { result ≡ (fit (gives_value kinds.now) address.now).address }
{
    match address {
        Expr::Select(table, key) => {
            address_fits(kinds, table.get()) && value_fits(kinds, key.get())
        }
        Expr::Compound(parts) => addresses_fit(kinds, parts.as_slice()),
        Expr::Number(_) => true,
        Expr::Text(_) => true,
        Expr::Name(_) => true,
        Expr::Empty => true,
        Expr::List(_) => true,
        Expr::Table(_) => true,
        Expr::Apply1(_, _) => true,
        Expr::Apply2(_, _, _) => true,
        Expr::Call(_, _) => true,
    }
}

#[cycle(addresses)]
fn addresses_fit(kinds: &[Option<RefinementKind>], parts: &[Expr]) -> bool
    ensures { result ≡ every (map (address_is_fit (gives_value kinds.now)) parts.now) }
{
    for part in parts {
        if !address_fits(kinds, part) {
            return false;
        }
    }
    true
}

/// Whether each name in the part of a text that is written, if there is one, gives a value.
fn part_fits(kinds: &[Option<RefinementKind>], part: &Option<Expr>) -> bool
    ensures { result ≡ part_fits [] kinds.now part.now }
{
    match part {
        Some(part) => value_fits(kinds, part),
        None => true,
    }
}

/// Whether refinements stand in the formulas of the command where they may.
fn node_is_placed(kinds: &[Option<RefinementKind>], node: &ActionNode) -> bool
    ensures { result ≡ node_is_placed [] kinds.now node.now }
{
    match node {
        ActionNode::Write { part, .. } => part_fits(kinds, part),
        ActionNode::Put { value, address } => {
            value_fits(kinds, value) && address_fits(kinds, address)
        }
        ActionNode::Insert { value, address } => {
            value_fits(kinds, value) && address_fits(kinds, address)
        }
        ActionNode::Remove { value, address } => {
            value_fits(kinds, value) && address_fits(kinds, address)
        }
        ActionNode::Delete { address } => address_fits(kinds, address),
        ActionNode::ReadExample { address, example } => {
            address_fits(kinds, address) && value_fits(kinds, example)
        }
        ActionNode::ReadRaw { address } => address_fits(kinds, address),
        ActionNode::Check(test) => test_fits(kinds, test),
        ActionNode::Pass => true,
        ActionNode::If(test, _) => test_fits(kinds, test),
        ActionNode::Select(_) => true,
        ActionNode::While(test, _) => test_fits(kinds, test),
        ActionNode::For { train, .. } => value_fits(kinds, train),
        ActionNode::Quit => true,
        ActionNode::Return(value) => value_fits(kinds, value),
        ActionNode::Report(test) => test_fits(kinds, test),
        ActionNode::Succeed => true,
        ActionNode::Fail => true,
        ActionNode::Call(_, actuals) => values_fit(kinds, actuals.as_slice()),
        ActionNode::Refinement(_) => true,
    }
}

fn head_is_placed(kinds: &[Option<RefinementKind>], head: &Head) -> bool
    ensures { result ≡ head_is_placed [] kinds.now head.now }
{
    match head {
        Head::Simple(node) => node_is_placed(kinds, node),
        Head::If(test) => test_fits(kinds, test),
        Head::While(test) => test_fits(kinds, test),
        Head::For(_, train) => value_fits(kinds, train),
        Head::Select => true,
        Head::When(test) => test_fits(kinds, test),
        Head::Otherwise => true,
        Head::Share(_) => true,
        Head::Unit(_, _) => true,
        Head::Refinement(_) => true,
    }
}

fn beside_is_placed(kinds: &[Option<RefinementKind>], beside: &Option<ActionNode>) -> bool
    ensures { result ≡ beside_is_placed [] kinds.now beside.now }
{
    match beside {
        Some(node) => node_is_placed(kinds, node),
        None => true,
    }
}

fn is_placed(kinds: &[Option<RefinementKind>], clause: &Clause) -> bool
    ensures { result ≡ (head_is_placed [] kinds.now clause.now.head && beside_is_placed [] kinds.now clause.now.beside) }
{
    head_is_placed(kinds, &clause.head) && beside_is_placed(kinds, &clause.beside)
}

/// Whether the line calls a test refinement as an expression, or an expression refinement as a test. A refinement that stands as
/// an address is none of these. Takes no memory.
pub fn is_misplaced(kinds: &[Option<RefinementKind>], clause: &Clause) -> bool
    ensures { (own : List (List ℕ)) → result ≡ is_misplaced own kinds.now clause.now }
{
    !is_placed(kinds, clause)
}

fn value_is_high(value: &Expr) -> bool
    ensures { result ≡ value_is_high value.now }
{
    is_higher(value, MOST_TREE_HEIGHT)
}

fn test_is_high(test: &Test) -> bool
    ensures { result ≡ test_is_high test.now }
{
    is_test_higher(test, MOST_TREE_HEIGHT)
}

/// Whether one of the expressions is too high.
fn one_is_high(values: &[Expr]) -> bool
    ensures { result ≡ list_any value_is_high values.now }
{
    for value in values {
        if value_is_high(value) {
            return true;
        }
    }
    false
}

/// Whether a formula of the command is too high.
fn node_is_high(node: &ActionNode) -> bool
    ensures { result ≡ node_is_high node.now }
{
    match node {
        ActionNode::Write {
            before: _,
            part,
            after: _,
        } => match part {
            Some(part) => value_is_high(part),
            None => false,
        },
        ActionNode::Put { value, address } => value_is_high(value) || value_is_high(address),
        ActionNode::Insert { value, address } => value_is_high(value) || value_is_high(address),
        ActionNode::Remove { value, address } => value_is_high(value) || value_is_high(address),
        ActionNode::Delete { address } => value_is_high(address),
        ActionNode::ReadExample { address, example } => {
            value_is_high(address) || value_is_high(example)
        }
        ActionNode::ReadRaw { address } => value_is_high(address),
        ActionNode::Check(test) => test_is_high(test),
        ActionNode::Pass => false,
        ActionNode::If(test, _) => test_is_high(test),
        ActionNode::Select(_) => false,
        ActionNode::While(test, _) => test_is_high(test),
        ActionNode::For {
            names: _,
            train,
            suite: _,
        } => value_is_high(train),
        ActionNode::Quit => false,
        ActionNode::Return(value) => value_is_high(value),
        ActionNode::Report(test) => test_is_high(test),
        ActionNode::Succeed => false,
        ActionNode::Fail => false,
        ActionNode::Call(_, actuals) => one_is_high(actuals.as_slice()),
        ActionNode::Refinement(_) => false,
    }
}

fn head_is_high(head: &Head) -> bool
    ensures { result ≡ head_is_high head.now }
{
    match head {
        Head::Simple(node) => node_is_high(node),
        Head::If(test) => test_is_high(test),
        Head::While(test) => test_is_high(test),
        Head::For(_, train) => value_is_high(train),
        Head::Select => false,
        Head::When(test) => test_is_high(test),
        Head::Otherwise => false,
        Head::Share(_) => false,
        Head::Unit(_, _) => false,
        Head::Refinement(_) => false,
    }
}

fn beside_is_high(beside: &Option<ActionNode>) -> bool
    ensures { result ≡ beside_is_high beside.now }
{
    match beside {
        Some(node) => node_is_high(node),
        None => false,
    }
}

/// Whether a formula of the line is higher than trees may be. Takes no memory.
pub fn is_too_high(clause: &Clause) -> bool
    ensures { result ≡ is_too_high clause.now }
{
    head_is_high(&clause.head) || beside_is_high(&clause.beside)
}
