//! Where the tokens of a line are cut.
ghost use Rattle.std.specs.Prelude.{◌≡◌, ◌≤◌, ◌<◌, ◌^◌, ◌+◌, All, IfSome, length, map, option_map, reverse};
ghost use Rattle.abc_expressions.specs.Lexemes.{IsSpelled};
ghost use Rattle.abc_formula.specs.TestGrammar.{is_keyword, opens_bracket, closes_bracket};
ghost use Rattle.abc_clauses.specs.Cuts.{cut_by, word_place, cut_at, is_colon, one_less, open_behind, is_outside, colon_place, cut_at_colon, is_slash, count_slashes};
ghost use Rattle.abc_clauses.specs.inner.Views.{seen_cut, AreSpelledParts};

use crate::words::is_keyword;
use abc_expressions::{Lexeme, Sign};

/// The tokens before a cut, and those behind it.
#[derive(Clone, Copy)]
pub(crate) struct Cut<'a> {
    pub(crate) front: &'a [Lexeme],
    pub(crate) behind: &'a [Lexeme],
}

/// The place of the first keyword that is this word.
fn word_place(word: &[u8], tokens: &[Lexeme]) -> Option<usize>
    ensures place { result ≡ word_place word.now tokens.now }
    ensures within { IfSome result (λ i. i < length tokens.now) }
{
    let mut place = 0;
    let mut ahead = tokens;
    while let Some((token, rest)) = ahead.split_first() {
        if is_keyword(word, token) {
            return Some(place);
        }
        place += 1;
        ahead = rest;
    }
    None
}

/// The token at this place is cut out.
fn cut_by(tokens: &[Lexeme], place: Option<usize>) -> Option<Cut>
    requires within { IfSome place (λ i. i < length tokens.now) }
    requires spelled { All IsSpelled tokens.now }
    ensures cut { option_map seen_cut result ≡ cut_by tokens.now place }
    ensures spelled { IfSome result AreSpelledParts }
{
    match place {
        Some(place) => Some(Cut {
            front: &tokens[..place],
            behind: &tokens[place + 1..],
        }),
        None => None,
    }
}

/// Cuts at the first keyword that is this word.
pub(crate) fn cut_at<'a>(word: &[u8], tokens: &'a [Lexeme]) -> Option<Cut<'a>>
    requires { All IsSpelled tokens.now }
    ensures cut { option_map seen_cut result ≡ cut_at word.now tokens.now }
    ensures spelled { IfSome result AreSpelledParts }
{
    cut_by(tokens, word_place(word, tokens))
}

fn is_colon(token: &Lexeme) -> bool
    ensures { result ≡ is_colon token.now }
{
    matches!(token, Lexeme::Sign(Sign::Colon))
}

fn opens_bracket(token: &Lexeme) -> bool
    ensures { result ≡ opens_bracket token.now }
{
    matches!(
        token,
        Lexeme::Sign(Sign::Open | Sign::Bracket | Sign::Brace)
    )
}

fn closes_bracket(token: &Lexeme) -> bool
    ensures { result ≡ closes_bracket token.now }
{
    matches!(
        token,
        Lexeme::Sign(Sign::Close | Sign::Unbracket | Sign::Unbrace)
    )
}

fn one_less(depth: usize) -> usize
    ensures { result ≡ one_less depth }
{
    if depth == 0 { 0 } else { depth - 1 }
}

fn is_outside(depth: usize) -> bool
    ensures { result ≡ is_outside depth }
{
    depth == 0
}

/// How many brackets are open behind the token.
fn open_behind(depth: usize, token: &Lexeme) -> usize
    requires { depth < 2 ^ 63 }
    ensures count { result ≡ open_behind depth token.now }
    ensures most { result ≤ depth + 1 }
{
    if opens_bracket(token) {
        depth + 1
    } else if closes_bracket(token) {
        one_less(depth)
    } else {
        depth
    }
}

/// The place of the first colon outside brackets.
fn colon_place(tokens: &[Lexeme]) -> Option<usize>
    ensures place { result ≡ colon_place 0 tokens.now }
    ensures within { IfSome result (λ i. i < length tokens.now) }
{
    let mut depth = 0;
    let mut place = 0;
    let mut ahead = tokens;
    while let Some((token, rest)) = ahead.split_first() {
        if is_colon(token) && is_outside(depth) {
            return Some(place);
        }
        depth = open_behind(depth, token);
        place += 1;
        ahead = rest;
    }
    None
}

/// Cuts at the first colon outside brackets.
pub(crate) fn cut_at_colon(tokens: &[Lexeme]) -> Option<Cut>
    requires { All IsSpelled tokens.now }
    ensures cut { option_map seen_cut result ≡ cut_at_colon tokens.now }
    ensures spelled { IfSome result AreSpelledParts }
{
    cut_by(tokens, colon_place(tokens))
}

fn is_slash(token: &Lexeme) -> bool
    ensures { result ≡ is_slash token.now }
{
    matches!(token, Lexeme::Sign(Sign::Slash))
}

/// How many slashes stand in front.
pub(crate) fn slashes_in_front(tokens: &[Lexeme]) -> usize
    ensures count { result ≡ count_slashes tokens.now }
    ensures within { result ≤ length tokens.now }
{
    tokens.iter().take_while(|token| is_slash(token)).count()
}

/// How many slashes stand at the end.
pub(crate) fn slashes_at_end(tokens: &[Lexeme]) -> usize
    ensures count { result ≡ count_slashes (reverse tokens.now) }
    ensures within { result ≤ length tokens.now }
{
    let mut count = 0;
    let mut ahead = tokens;
    while let Some((last, front)) = ahead.split_last() {
        if !is_slash(last) {
            return count;
        }
        count += 1;
        ahead = front;
    }
    count
}
