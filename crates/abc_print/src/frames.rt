//! What the machine that reads literals takes, lexeme by lexeme, and what stands on its stack.

use abc_num::Items;
use abc_value::Value;

/// The signs of literals but for those of numbers.
#[derive(Clone, Copy, PartialEq, Eq, Debug)]
pub(crate) enum Mark {
    Open,
    Close,
    Brace,
    Unbrace,
    Bracket,
    Unbracket,
    Comma,
    Semicolon,
    Colon,
}

/// A number with its sign and divisor, a text, or a sign.
#[derive(Drop)]
pub(crate) enum Lexeme {
    Value(Value),
    Mark(Mark),
}

/// A bracket that is open, with the parts before the last one.
#[derive(Drop)]
pub(crate) enum Frame {
    /// The fields of the whole.
    Whole(Items<Value>),
    /// Fields in parentheses.
    Round(Items<Value>),
    /// The elements of a list; without one, of what may be a table yet.
    Elements(Items<Value>),
    /// The pairs of a table, each a key and its associate, behind which another comes.
    Pairs(Items<(Value, Value)>),
    /// Pairs, and the fields of a key.
    Key(Items<(Value, Value)>, Items<Value>),
    /// Pairs, and a key that has no associate yet.
    Associate(Items<(Value, Value)>, Value),
}

/// What comes next.
#[derive(Drop)]
pub(crate) enum Turn {
    /// A part.
    Part,
    /// The bracket of a key.
    Bracket,
    /// The colon behind a key.
    Colon,
    /// What may follow this part.
    Behind(Value),
}
