//! Which parts of a test are tests in parentheses.
ghost use Rattle.std.specs.Prelude.{◌≡◌};
ghost use Rattle.abc_formula.specs.TestGrammar.{opens_bracket, closes_bracket, behind_bracket, ends_part, closes_part, is_round};

use crate::test_names::is_keyword;
use abc_expressions::{Lexeme, Sign};

fn opens_bracket(token: &Lexeme) -> bool
    ensures { result ≡ opens_bracket token.now }
{
    match token {
        Lexeme::Sign(sign) => matches!(sign, Sign::Open | Sign::Bracket | Sign::Brace),
        Lexeme::Number(_)
        | Lexeme::Name(_)
        | Lexeme::Keyword(_)
        | Lexeme::Text(_)
        | Lexeme::Other => false,
    }
}

fn closes_bracket(token: &Lexeme) -> bool
    ensures { result ≡ closes_bracket token.now }
{
    match token {
        Lexeme::Sign(sign) => matches!(sign, Sign::Close | Sign::Unbracket | Sign::Unbrace),
        Lexeme::Number(_)
        | Lexeme::Name(_)
        | Lexeme::Keyword(_)
        | Lexeme::Text(_)
        | Lexeme::Other => false,
    }
}

/// Whether a part of a test ends before these tokens.
fn ends_part(tokens: &[Lexeme]) -> bool
    ensures { result ≡ ends_part tokens.now }
{
    let [first, ..] = tokens else {
        return true;
    };
    closes_bracket(first) || is_keyword(b"AND", first) || is_keyword(b"OR", first)
}

/// Whether a part of a test ends with the bracket that closes the one before these tokens.
fn closes_part(tokens: &[Lexeme]) -> bool
    ensures { result ≡ closes_part (behind_bracket 0 tokens.now) }
{
    let mut open: usize = 0;
    let mut ahead = tokens;
    while let Some((token, rest)) = ahead.split_first() {
        if opens_bracket(token) {
            open += 1;
        } else if closes_bracket(token) {
            if open == 0 {
                return ends_part(rest);
            }
            open -= 1;
        }
        ahead = rest;
    }
    false
}

/// Whether the tokens begin with a test in parentheses: a part of the test that ends with the `)` that closes it.
pub(crate) fn is_round(tokens: &[Lexeme]) -> bool
    ensures { result ≡ is_round tokens.now }
{
    match tokens {
        [Lexeme::Sign(Sign::Open), rest @ ..] => closes_part(rest),
        _ => false,
    }
}
