//! The parts of a line, which a colon outside brackets ends.
ghost use Rattle.std.specs.Prelude.{◌≡◌, ◌≤◌, ◌<◌, ◌∷◌, IsTrue, length, take, drop};
ghost use Rattle.abc_outline.specs.Parts.{parts_of};
ghost use Rattle.abc_outline.specs.inner.Cutting.{colon_from, ends_part, parts_behind};

use crate::words::{is_colon, open_behind};
use abc_expressions::Lexeme;

/// The tokens up to `at`.
pub(crate) fn front(tokens: &[Lexeme], at: usize) -> &[Lexeme]
    requires { at ≤ length tokens.now }
    ensures { result.now ≡ take at tokens.now }
{
    &tokens[..at]
}

/// The tokens from `at` on.
pub(crate) fn rest(tokens: &[Lexeme], at: usize) -> &[Lexeme]
    requires { at ≤ length tokens.now }
    ensures { result.now ≡ drop at tokens.now }
{
    &tokens[at..]
}

fn ends_part(depth: usize, token: &Lexeme) -> bool
    ensures { result ≡ ends_part depth token.now }
{
    is_colon(token) && depth == 0
}

/// Where the first colon outside brackets stands.
fn colon_at(tokens: &[Lexeme]) -> Option<usize>
    ensures { result ≡ colon_from 0 0 tokens.now }
{
    let mut at = 0;
    let mut depth = 0;
    let mut ahead = tokens;
    while let Some((token, behind)) = ahead.split_first() {
        if ends_part(depth, token) {
            return Some(at);
        }
        depth = open_behind(token, depth);
        at += 1;
        ahead = behind;
    }
    None
}

/// The first part of some tokens, and those behind the colon that ends it, if one does.
#[derive(Clone, Copy)]
pub(crate) struct Cut<'a> {
    pub part: &'a [Lexeme],
    pub more: bool,
    pub behind: &'a [Lexeme],
}

/// Cuts the first part off.
pub(crate) fn first_part<'a>(tokens: &'a [Lexeme]) -> Cut<'a>
    ensures parts { parts_of tokens.now ≡ result.part.now ∷ parts_behind result.more result.behind.now }
    ensures less { IsTrue result.more → length result.behind.now < length tokens.now }
{
    match colon_at(tokens) {
        Some(at) => Cut {
            part: front(tokens, at),
            more: true,
            behind: rest(tokens, at + 1),
        },
        None => Cut {
            part: tokens,
            more: false,
            behind: rest(tokens, tokens.len()),
        },
    }
}
