//! What of a test was read and isn't joined yet.
use abc_tree::{Bound, Expr, Quantifier, Test};

/// What may stand at a place of a test.
#[derive(Clone, Copy, PartialEq, Eq, Debug)]
pub enum Place {
    /// A whole test: AND or OR may follow its first part.
    Whole,
    /// Behind AND: only AND may follow.
    Conjunct,
    /// Behind OR: only OR may follow.
    Disjunct,
    /// Behind NOT: neither may follow.
    Negated,
}

/// A part that waits for the test behind it.
#[derive(Drop)]
pub enum TestFrame {
    Not,
    And(Test),
    Or(Test),
    Quantified(Quantifier, Bound, Expr),
}

/// What a test begins with.
#[derive(Clone, Copy, PartialEq, Eq, Debug)]
pub enum Front {
    Not,
    Quantifies(Quantifier),
    /// Anything else.
    Tight,
}

/// What joins a part of a test to what follows it.
#[derive(Clone, Copy, PartialEq, Eq, Debug)]
pub enum Behind {
    And,
    Or,
    Ends,
}

/// What ends names, where no bracket of theirs is open.
#[derive(Clone, Copy, PartialEq, Eq, Debug)]
pub enum NamesEnd {
    /// The keyword IN.
    In,
    /// A closing parenthesis.
    Close,
}
