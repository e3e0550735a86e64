//! The predefined operations, one for each row of the table of predefined names and signs.

/// A predefined operation. Its comment has its spelling, where x, y and e stand for operands of any kind, t and u for
/// texts or collections, n for numbers.
#[derive(Clone, Copy, PartialEq, Eq, Debug)]
pub enum Op {
    /// `+x`
    Plus,
    /// `-x`
    Negate,
    /// `*/x`
    Numerator,
    /// `/*x`
    Denominator,
    /// `#t`
    Size,
    /// `x+y`
    Add,
    /// `x-y`
    Subtract,
    /// `x*y`
    Multiply,
    /// `x/y`
    Divide,
    /// `x**y`
    Power,
    /// `t^u`
    Join,
    /// `t^^n`
    Repeat,
    /// `t@n`
    Behead,
    /// `t|n`
    Curtail,
    /// `x<<n`
    AlignLeft,
    /// `x><n`
    Center,
    /// `x>>n`
    AlignRight,
    /// `e#t`
    Count,
    /// `abs x`
    Abs,
    /// `sign x`
    Sign,
    /// `floor x`
    Floor,
    /// `ceiling x`
    Ceiling,
    /// `round x`
    Round,
    /// `keys t`
    Keys,
    /// `min t`
    Least,
    /// `max t`
    Greatest,
    /// `lower t`
    Lower,
    /// `upper t`
    Upper,
    /// `stripped t`
    Stripped,
    /// `split t`
    Split,
    /// `n round x`
    RoundTo,
    /// `x mod y`
    Modulo,
    /// `e min t`
    LeastAbove,
    /// `e max t`
    GreatestBelow,
    /// `t item n`
    Item,
    /// `e in t`
    In,
    /// `e not.in t`
    NotIn,
    /// `x < y`
    Less,
    /// `x <= y`
    AtMost,
    /// `x = y`
    Equal,
    /// `x <> y`
    Unequal,
    /// `x >= y`
    AtLeast,
    /// `x > y`
    More,
}
