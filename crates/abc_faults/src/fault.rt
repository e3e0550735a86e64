//! Why an item has no tree.
/// What is wrong in a line, in the order in which it counts there.
#[derive(Clone, Copy, Debug, PartialEq, Eq)]
pub enum FaultKind {
    /// The line had more bytes than a line may have.
    LineTooLong,
    /// The line comes behind the last one that an item may have.
    TooManyLines,
    /// A byte is no character.
    BadByte,
    /// A text or conversion isn't closed.
    OpenText,
    /// A number token's value is no number.
    BadNumber,
    /// The indentation fits no suite.
    BadIndent,
    /// The tokens say nothing.
    BadCommand,
    /// The line opens a suite, and the next isn't deeper.
    EmptySuite,
    /// A command, ELSE, SHARE or refinement where it may not stand.
    BadPlace,
    /// A name gets a second role.
    NameTwice,
    /// One name, formal, suite or level more than there may be.
    TooMany,
}

/// A fault and its line, counted from 1.
#[derive(Clone, Copy, Debug, PartialEq, Eq)]
pub struct Fault {
    pub line: u32,
    pub kind: FaultKind,
}
