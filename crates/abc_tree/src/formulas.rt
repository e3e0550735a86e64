//! Expressions and tests, and the names that they bind.
use crate::{Op, Template};
use abc_num::{Boxed, Items, Num, Text};

/// The number of a name of a unit or of an immediate item, in the order of first use.
#[derive(Clone, Copy, PartialEq, Eq, Debug)]
pub struct NameId(pub u32);

/// A part of a text.
#[cycle(expression)]
#[derive(Drop)]
pub enum Piece {
    /// A longest run of characters, at least one.
    Chars(Text),
    Conversion(Expr),
}

pub type Pieces = Items<Piece>;

/// A filler of a list display.
#[cycle(expression)]
#[derive(Drop)]
pub enum Fill {
    One(Expr),
    /// From the first to the second.
    Range(Expr, Expr),
}

pub type Fills = Items<Fill>;

/// A filler of a table display.
#[cycle(expression)]
#[derive(Drop)]
pub struct Pair {
    pub key: Expr,
    pub associate: Expr,
}

pub type Pairs = Items<Pair>;

pub type Exprs = Items<Expr>;

/// An expression or an address.
#[cycle(expression)]
#[derive(Drop)]
pub enum Expr {
    Number(Num),
    /// The empty text has no pieces.
    Text(Pieces),
    /// A name of one's own, also the call of an expression refinement.
    Name(NameId),
    /// Of two parts or more.
    Compound(Exprs),
    /// `{}`
    Empty,
    /// Of one filler or more.
    List(Fills),
    /// Of one pair or more.
    Table(Pairs),
    /// A table and a key.
    Select(Boxed<Expr>, Boxed<Expr>),
    Apply1(Op, Boxed<Expr>),
    Apply2(Op, Boxed<Expr>, Boxed<Expr>),
    /// The call of a function, with its actuals.
    Call(Template, Exprs),
}

/// A further relation of a chain, and its right side.
#[derive(Drop)]
pub struct Link {
    pub op: Op,
    pub right: Expr,
}

pub type Links = Items<Link>;

/// Which elements a quantifier asks for.
#[derive(Clone, Copy, PartialEq, Eq, Debug)]
pub enum Quantifier {
    /// `SOME`
    Exists,
    /// `EACH`
    Each,
    /// `NO`
    No,
}

/// Names that are bound, or a formal.
#[derive(Drop)]
pub enum Bound {
    One(NameId),
    /// Two or more.
    Several(Bounds),
}

pub type Bounds = Items<Bound>;

/// A test.
#[derive(Drop)]
pub enum Test {
    /// `a < b <= c`
    Chain(Expr, Links),
    /// `e in t`, `e not.in t`
    Member(Op, Expr, Expr),
    And(Boxed<Test>, Boxed<Test>),
    Or(Boxed<Test>, Boxed<Test>),
    Not(Boxed<Test>),
    Quantified(Quantifier, Bound, Expr, Boxed<Test>),
    /// The call of a predicate, with its actuals.
    Call(Template, Exprs),
    Refinement(NameId),
}
