//! The order of values.
ghost use Rattle.std.specs.Prelude.{◌≡◌, map};
ghost use Rattle.abc_value.specs.Tree.{trees, pairs};
ghost use Rattle.abc_value.specs.Order.{order, trees_order, pairs_order, rank};
ghost use Rattle.abc_value.specs.Regular.{IsRegular};
ghost use Rattle.abc_value.specs.View.{node_tree, as_pair};

use crate::Value;
use crate::value::{Entry, Node};
use abc_chunks::Chunks;
use std::cmp::Ordering;

impl Value {
    /// The order of the two values: numbers by size, texts by codes, compounds, lists and tables part by part; between
    /// kinds number, text, compound, `{}`, other lists, tables.
    #[cycle(compare)]
    pub fn cmp(&self, o: &Value) -> Ordering
        ensures order { result ≡ order self.now o.now }
        ensures regular { IsRegular self.now × IsRegular o.now }
    {
        match (&self.node, &o.node) {
            (Node::Number(a), Node::Number(b)) => a.cmp(b),
            (Node::Text(a), Node::Text(b)) => a.as_slice().cmp(&b.as_slice()),
            (Node::Compound(a), Node::Compound(b)) => cmp_all(a, b),
            (Node::List(a), Node::List(b)) => cmp_all(a.items(), b.items()),
            (Node::Table(a), Node::Table(b)) => cmp_entries(a.items(), b.items()),
            _ => rank_of(&self.node).cmp(&rank_of(&o.node)),
        }
    }
}

/// The place of a kind among the kinds.
fn rank_of(node: &Node) -> u8
    ensures { result ≡ rank (node_tree node.now) }
{
    match node {
        Node::Number(_) => 0,
        Node::Text(_) => 1,
        Node::Compound(_) => 2,
        Node::List(_) => 3,
        Node::Table(_) => 4,
    }
}

/// Compares part by part; a proper front is less.
#[cycle(compare)]
fn cmp_all(a: &Chunks<Value>, b: &Chunks<Value>) -> Ordering
    ensures { result ≡ trees_order (trees a.now) (trees b.now) }
{
    for i in 0..a.len().min(b.len()) {
        match a[i].cmp(&b[i]) {
            Ordering::Equal => {}
            other => return other,
        }
    }
    a.len().cmp(&b.len())
}

/// Compares pair by pair, the key first; a proper front is less.
#[cycle(compare)]
fn cmp_entries(a: &Chunks<Entry>, b: &Chunks<Entry>) -> Ordering
    ensures { result ≡ pairs_order (pairs (map as_pair a.now)) (pairs (map as_pair b.now)) }
{
    for i in 0..a.len().min(b.len()) {
        match a[i].key.cmp(&b[i].key) {
            Ordering::Equal => {}
            other => return other,
        }
        match a[i].associate.cmp(&b[i].associate) {
            Ordering::Equal => {}
            other => return other,
        }
    }
    a.len().cmp(&b.len())
}
