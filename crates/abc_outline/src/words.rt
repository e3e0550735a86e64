//! Tokens by themselves: keywords, colons, brackets.
ghost use Rattle.std.specs.Prelude.{◌≡◌, ◌<◌, ◌^◌};
ghost use Rattle.abc_formula.specs.TestGrammar.{is_keyword};
ghost use Rattle.abc_outline.specs.LineNames.{ends_address, is_from, is_in, is_quantifier, verb_of};
ghost use Rattle.abc_outline.specs.Parts.{is_colon, is_colon_sign, open_behind, open_by};
ghost use Rattle.abc_outline.specs.Refinements.{begins_report};
ghost use Rattle.abc_outline.specs.inner.Scanning.{is_quantifier_word};

use crate::naming::Verb;
use abc_expressions::{Lexeme, Sign};

/// Whether the token is this keyword.
pub(crate) fn is_keyword(word: &[u8], token: &Lexeme) -> bool
    ensures { result ≡ is_keyword word.now token.now }
{
    match token {
        Lexeme::Keyword(x) => x.bytes() == word,
        Lexeme::Number(_) | Lexeme::Name(_) | Lexeme::Text(_) | Lexeme::Sign(_) | Lexeme::Other => {
            false
        }
    }
}

pub(crate) fn is_in(token: &Lexeme) -> bool
    ensures { result ≡ is_in token.now }
{
    is_keyword(b"IN", token)
}

pub(crate) fn is_from(token: &Lexeme) -> bool
    ensures { result ≡ is_from token.now }
{
    is_keyword(b"FROM", token)
}

/// Whether the token ends the address of READ.
pub(crate) fn ends_address(token: &Lexeme) -> bool
    ensures { result ≡ ends_address token.now }
{
    is_keyword(b"EG", token) || is_keyword(b"RAW", token)
}

fn is_quantifier_word(word: &[u8]) -> bool
    ensures { result ≡ is_quantifier_word word.now }
{
    if word == b"SOME".as_slice() {
        return true;
    }
    if word == b"EACH".as_slice() {
        return true;
    }
    word == b"NO".as_slice()
}

/// Whether the token is SOME, EACH or NO.
pub(crate) fn is_quantifier(token: &Lexeme) -> bool
    ensures { result ≡ is_quantifier token.now }
{
    match token {
        Lexeme::Keyword(x) => is_quantifier_word(x.bytes()),
        Lexeme::Number(_) | Lexeme::Name(_) | Lexeme::Text(_) | Lexeme::Sign(_) | Lexeme::Other => {
            false
        }
    }
}

/// What the names of a command go by.
pub(crate) fn verb_of(token: &Lexeme) -> Verb
    ensures { result ≡ verb_of token.now }
{
    if is_keyword(b"PUT", token) {
        return Verb::Put;
    }
    if is_keyword(b"INSERT", token) {
        return Verb::Put;
    }
    if is_keyword(b"REMOVE", token) {
        return Verb::Remove;
    }
    if is_keyword(b"DELETE", token) {
        return Verb::Delete;
    }
    if is_keyword(b"READ", token) {
        return Verb::Read;
    }
    if is_keyword(b"IF", token) {
        return Verb::Test;
    }
    if is_keyword(b"WHILE", token) {
        return Verb::Test;
    }
    if is_keyword(b"CHECK", token) {
        return Verb::Test;
    }
    if is_keyword(b"REPORT", token) {
        return Verb::Test;
    }
    if is_keyword(b"FOR", token) {
        return Verb::For;
    }
    if is_keyword(b"SHARE", token) {
        return Verb::Share;
    }
    Verb::Other
}

/// Whether the tokens are a command that gives the outcome of a test.
pub(crate) fn begins_report(tokens: &[Lexeme]) -> bool
    ensures { result ≡ begins_report tokens.now }
{
    match tokens {
        [token, ..] => {
            is_keyword(b"REPORT", token)
                || (is_keyword(b"SUCCEED", token) || is_keyword(b"FAIL", token))
        }
        [] => false,
    }
}

fn is_colon_sign(sign: Sign) -> bool
    ensures { result ≡ is_colon_sign sign }
{
    matches!(sign, Sign::Colon)
}

pub(crate) fn is_colon(token: &Lexeme) -> bool
    ensures { result ≡ is_colon token.now }
{
    match token {
        Lexeme::Sign(sign) => is_colon_sign(*sign),
        Lexeme::Number(_)
        | Lexeme::Name(_)
        | Lexeme::Keyword(_)
        | Lexeme::Text(_)
        | Lexeme::Other => false,
    }
}

fn open_by(sign: Sign, depth: usize) -> usize
    requires { depth < 2 ^ 63 }
    ensures { result ≡ open_by sign depth }
{
    match sign {
        Sign::Open | Sign::Bracket | Sign::Brace => depth + 1,
        Sign::Close | Sign::Unbracket | Sign::Unbrace => depth.saturating_sub(1),
        _ => depth,
    }
}

/// How many brackets are open behind the token.
pub(crate) fn open_behind(token: &Lexeme, depth: usize) -> usize
    requires { depth < 2 ^ 63 }
    ensures { result ≡ open_behind token.now depth }
{
    match token {
        Lexeme::Sign(sign) => open_by(*sign, depth),
        Lexeme::Number(_)
        | Lexeme::Name(_)
        | Lexeme::Keyword(_)
        | Lexeme::Text(_)
        | Lexeme::Other => depth,
    }
}
