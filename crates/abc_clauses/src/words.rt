//! The keywords that begin lines.
ghost use Rattle.std.specs.Prelude.{◌≡◌, position};
ghost use Rattle.abc_formula.specs.TestGrammar.{is_keyword};
ghost use Rattle.abc_clauses.specs.Readings.{verb_of, opening_of};

use abc_expressions::Lexeme;

/// The simple commands of the language.
#[derive(Clone, Copy, PartialEq, Eq, Debug)]
pub enum Verb {
    Write,
    Put,
    Insert,
    Remove,
    Delete,
    Read,
    Check,
    Pass,
    Quit,
    Return,
    Report,
    Succeed,
    Fail,
}

/// The other commands: those with a suite, ELSE, and SHARE.
#[derive(Clone, Copy, PartialEq, Eq, Debug)]
pub enum Opening {
    If,
    While,
    For,
    Select,
    Else,
    Share,
}

/// What stands before the colon of a line that has one.
#[derive(Clone, Copy, PartialEq, Eq, Debug)]
pub enum Front {
    /// The test of IF.
    If,
    /// The test of WHILE.
    While,
    /// The names of FOR and what they go over.
    For,
    /// The test of an alternative, or ELSE.
    Alternative,
    /// What stands behind HOW TO.
    Unit,
    /// The name of a refinement.
    Refinement,
}

/// The simple command of the language that the keyword begins, if it begins one.
pub(crate) fn verb_of(word: &[u8]) -> Option<Verb>
    ensures { result ≡ verb_of word.now }
{
    if word == "WRITE".as_bytes() {
        Some(Verb::Write)
    } else if word == "PUT".as_bytes() {
        Some(Verb::Put)
    } else if word == "INSERT".as_bytes() {
        Some(Verb::Insert)
    } else if word == "REMOVE".as_bytes() {
        Some(Verb::Remove)
    } else if word == "DELETE".as_bytes() {
        Some(Verb::Delete)
    } else if word == "READ".as_bytes() {
        Some(Verb::Read)
    } else if word == "CHECK".as_bytes() {
        Some(Verb::Check)
    } else if word == "PASS".as_bytes() {
        Some(Verb::Pass)
    } else if word == "QUIT".as_bytes() {
        Some(Verb::Quit)
    } else if word == "RETURN".as_bytes() {
        Some(Verb::Return)
    } else if word == "REPORT".as_bytes() {
        Some(Verb::Report)
    } else if word == "SUCCEED".as_bytes() {
        Some(Verb::Succeed)
    } else if word == "FAIL".as_bytes() {
        Some(Verb::Fail)
    } else {
        None
    }
}

/// The other command of the language that the keyword begins, if it begins one.
pub(crate) fn opening_of(word: &[u8]) -> Option<Opening>
    ensures { result ≡ opening_of word.now }
{
    if word == "IF".as_bytes() {
        Some(Opening::If)
    } else if word == "WHILE".as_bytes() {
        Some(Opening::While)
    } else if word == "FOR".as_bytes() {
        Some(Opening::For)
    } else if word == "SELECT".as_bytes() {
        Some(Opening::Select)
    } else if word == "ELSE".as_bytes() {
        Some(Opening::Else)
    } else if word == "SHARE".as_bytes() {
        Some(Opening::Share)
    } else {
        None
    }
}

/// Whether the token is this keyword.
pub(crate) fn is_keyword(word: &[u8], token: &Lexeme) -> bool
    ensures { result ≡ is_keyword word.now token.now }
{
    match token {
        Lexeme::Keyword(x) => x.bytes() == word,
        Lexeme::Number(_) | Lexeme::Name(_) | Lexeme::Text(_) | Lexeme::Sign(_) | Lexeme::Other => {
            false
        }
    }
}
