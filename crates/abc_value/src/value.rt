//! The value itself: its kind, its sizes and its parts.
ghost use Rattle.std.specs.Prelude.{◌≡◌};
ghost use Rattle.abc_value.specs.Tree.{number, text, list, empty};
ghost use Rattle.abc_value.specs.Sizes.{height_of, weight_of};
ghost use Rattle.abc_value.specs.Regular.{IsRegular};

use crate::elements::{Elements, Entries};
use abc_chunks::Chunks;
use abc_num::Num;
use std::alloc::{AllocError, Global};
use std::marker::Model;
use std::rc::Rc;

/// What kind of value a value is.
#[derive(Clone, Copy, PartialEq, Eq, Debug)]
pub enum Kind {
    Number,
    Text,
    Compound,
    /// `{}`, the empty list and the empty table at once.
    Empty,
    /// A list with elements.
    List,
    /// A table with pairs.
    Table,
}

/// A value, with its sizes. Contracts see it as a tree.
#[cycle(value)]
#[derive(Drop)]
pub struct Value {
    pub(crate) node: Node,
    pub(crate) height: u32,
    pub(crate) weight: u64,
}

/// A list without elements is `{}`, and a table has a pair at least. Elements and keys stand in order. Copies share what a node
/// holds; a text never changes, so it is one piece.
#[cycle(value)]
#[derive(Drop)]
pub(crate) enum Node {
    Number(Num),
    Text(Rc<Vec<u8>>),
    Compound(Chunks<Value>),
    List(Elements),
    Table(Entries),
}

/// A key of a table and its associate.
#[cycle(value)]
#[derive(Drop)]
pub(crate) struct Entry {
    pub(crate) key: Value,
    pub(crate) associate: Value,
}

impl Model for Value {
    ghost use Rattle.std.specs.Prelude.{◌≡◌};
    ghost use Rattle.abc_value.specs.Tree.{Tree};
    ghost use Rattle.abc_value.specs.Code.{coded_tree};
    ghost use Rattle.abc_value.specs.Sizes.{height_of, weight_of};

    ghost Value = { Tree };

    ghost coded = { coded_tree };

    ghost use Rattle.abc_value.specs.View.{node_tree};
    ghost use Rattle.abc_value.specs.Regular.{IsRegular};

    ghost view = { λ v. node_tree v.node };

    ghost invariant = { λ v. (v.height ≡ height_of (node_tree v.node)) × (v.weight ≡ weight_of (node_tree v.node)) × IsRegular (node_tree v.node) };

    ghost use Rattle.abc_value.specs.Measures.{value_size};

    ghost size = { value_size };

    ghost use Rattle.abc_value.specs.Falls.{deep-height};

    ghost size_decreases = { λ v h. deep-height v.node };
}

impl Clone for Entry {
    ghost use Rattle.std.specs.Prelude.{◌≡◌};

    ghost is_clone = { λ entry copy. copy ≡ entry };

    fn clone(&self) -> Result<Entry, AllocError> {
        Ok(Entry {
            key: self.key.clone()?,
            associate: self.associate.clone()?,
        })
    }
}

impl Value {
    /// The value that is this number.
    #[tactic(auto, unfolding(crate::specs::Regular::IsRegular))]
    pub fn number(n: Num) -> Value
        ensures { result ≡ number n }
    {
        let _whole = n.to_whole();
        Value {
            node: Node::Number(n),
            height: 0,
            weight: 17,
        }
    }

    /// `{}`.
    #[tactic(auto, unfolding(crate::specs::Regular::IsRegular))]
    pub fn empty(alloc: Global) -> Value
        ensures { result ≡ empty }
    {
        Value {
            node: Node::List(Elements::new(alloc)),
            height: 0,
            weight: 5,
        }
    }

    /// The height: 0 for a number, a text and `{}`, else one more than the greatest height of its parts.
    pub fn height(&self) -> u32
        ensures height { result ≡ height_of self.now }
        ensures regular { IsRegular self.now }
    {
        self.height
    }

    /// The weight: the bytes of its spelling in a store.
    pub fn weight(&self) -> u64
        ensures weight { result ≡ weight_of self.now }
        ensures regular { IsRegular self.now }
    {
        self.weight
    }
}
