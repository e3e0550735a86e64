//! What tokens and lines are.
use std::alloc::{AllocError, AllocFailed};

/// The classes of tokens.
#[derive(Clone, Copy, Debug, PartialEq, Eq)]
pub enum TokenKind {
    /// A small letter and what goes on with it.
    Name,
    /// A capital letter and what goes on with it.
    Keyword,
    Number,
    /// A text with its quotes.
    Text,
    Sign,
    /// A byte that begins no token.
    Other,
}

/// A token of a line: the bytes from `start` on up to `end`.
#[derive(Clone, Copy, Debug, PartialEq, Eq)]
pub struct Token {
    pub kind: TokenKind,
    pub start: usize,
    pub end: usize,
}

/// Why a line has no tokens.
#[derive(Clone, Copy, Debug, PartialEq, Eq)]
pub enum TokenFault {
    /// A byte outside 32 to 126.
    BadByte,
    /// A text or conversion that isn't closed.
    OpenText,
    /// A number token, perhaps in a conversion, whose value is no number.
    BadNumber,
    /// There was not enough memory.
    Memory,
}

impl From<AllocError> for TokenFault {
    ghost from_gives = { λ refused fault. fault ≡ Memory };

    ghost use Rattle.std.specs.Prelude.{◌≡◌};
    ghost use Rattle.abc_tokens.specs.declared.kinds.TokenFault.TheVariants.{Memory};

    fn from(_refused: AllocError) -> TokenFault {
        TokenFault::Memory
    }
}

impl<T: Drop> From<AllocFailed<T>> for TokenFault {
    ghost from_gives = { λ refused fault. fault ≡ Memory };

    ghost use Rattle.std.specs.Prelude.{◌≡◌};
    ghost use Rattle.abc_tokens.specs.declared.kinds.TokenFault.TheVariants.{Memory};

    fn from(_refused: AllocFailed<T>) -> TokenFault {
        TokenFault::Memory
    }
}

/// How a line begins.
#[derive(Clone, Copy, Debug, PartialEq, Eq)]
pub enum First {
    /// With the keywords HOW TO.
    HowTo,
    /// As a refinement heading: a name, or a keyword that isn't reserved, and a colon.
    Heading,
    /// At indentation 0 with `:`, `=` or `-:`.
    Environment,
    Other,
}

/// What of a line matters for the lines of an item.
#[derive(Clone, Copy, Debug, PartialEq, Eq)]
pub struct Shape {
    /// Spaces, tabs and a comment alone.
    pub blank: bool,
    /// Columns that the line is indented by.
    pub indent: u32,
    /// The last token is a colon.
    pub ends_in_colon: bool,
    pub first: First,
}
