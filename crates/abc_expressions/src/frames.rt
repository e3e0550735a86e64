//! What was read and isn't joined yet.
use abc_tree::{Expr, Exprs, Fills, Op, Pairs, Template};

/// What joins operands: a predefined operation, or a function.
#[derive(Drop)]
pub enum Join {
    Op(Op),
    Call(Template),
}

/// An operator between two operands: the level of what it gives, and the least levels of its sides.
#[derive(Drop)]
pub struct Infix {
    pub gives: u8,
    pub left: u8,
    pub right: u8,
    pub join: Join,
}

/// An open bracket, or the whole, with the parts of it that are read already. Its last part ends at the sign that closes it.
#[derive(Drop)]
pub enum Group {
    /// The whole, which may be a compound.
    Whole(Exprs),
    /// The whole, which is one expression.
    Single,
    /// In parentheses.
    Round(Exprs),
    /// The key of this table.
    Select(Expr, Exprs),
    /// The key of a pair of a table display, behind these pairs.
    Key(Pairs, Exprs),
    /// A filler of a list display, behind these.
    Fill(Fills),
    /// The end of a range from this expression on.
    Range(Fills, Expr),
    /// The associate to this key.
    Associate(Pairs, Expr),
}

/// A part that waits for its last operand. The number is the least level that its place takes.
#[derive(Drop)]
pub enum Frame {
    Between(u8, Infix, Expr),
    Before(u8, Join),
    Inside(u8, Group),
}

/// What comes next. The first number is the least level that the place takes.
#[derive(Drop)]
pub enum Turn {
    /// An operand.
    Wants(u8),
    /// What may follow an operand of a level.
    Has(u8, u8, Expr),
    /// What stands in a display, or its end.
    Display(u8),
    /// The key of a further pair.
    Pair(u8, Pairs),
    /// The colon behind a key.
    Colon(u8, Pairs, Expr),
}

/// What a name is: one's own, predefined, with its operations of one and of two places, or another.
#[derive(Clone, Copy, PartialEq, Eq, Debug)]
pub enum Kind {
    Own(u32),
    Given(Option<Op>, Option<Op>),
    Free,
}

/// How a token goes on behind an operand.
#[derive(Drop)]
pub enum Reach {
    Joins(Infix),
    Selects,
    Ends,
}

/// What a token begins in operand place.
#[derive(Drop)]
pub enum Operand {
    Leaf(Expr),
    Leads(Join),
    Opens,
    Displays,
    Wrong,
}

/// What a sign makes of a group, behind its last operand.
#[derive(Drop)]
pub enum AfterPart {
    /// It goes on with a further operand.
    Goes(Group),
    /// The bracket closes.
    Gives(Expr),
    /// The bracket of a key closes.
    Keyed(Pairs, Expr),
    /// A further pair follows.
    Again(Pairs),
    /// The whole ends before the sign.
    Stops(Expr),
    Wrong,
}

/// What a token leads to.
#[derive(Drop)]
pub enum Step {
    Goes(Turn),
    /// The whole ends before the token.
    Stops(Expr),
}
