//! Names, keywords, numbers and signs. Each is as long as possible.
ghost use Rattle.std.specs.Prelude.{◌≡◌, ◌≤◌, ◌+◌, ◌<◌, length, take, IsTrue, Some, [], ◌∷◌};
ghost use Rattle.abc_num.specs.Literal.{IsNumberToken};
ghost use Rattle.abc_tokens.specs.Bytes.{begins, is_digit};
ghost use Rattle.abc_tokens.specs.Scanned.{letter, continues, tail_length, digits, begins_decimals, decimals, number_length, is_double, is_single, word_in_front};
ghost use Rattle.abc_tokens.specs.Words.{goes_on, second_signs, number_of};
ghost use Rattle.abc_tokens.specs.inner.Steps.{word_of, IsSized, Judges};

use crate::TokenKind;
use crate::bytes::{is_capital, is_digit, is_quote, is_small};
use abc_num::read_literal;

/// What stands in front of some bytes, and how many of them it has.
#[derive(Clone, Copy)]
pub(crate) struct Word {
    pub(crate) kind: TokenKind,
    pub(crate) length: usize,
}

impl Word {
    fn new(kind: TokenKind, length: usize) -> Word
        ensures kind { result.kind ≡ kind }
        ensures length { result.length ≡ length }
    {
        Word { kind, length }
    }
}

/// The name, keyword, number or sign in front of these bytes.
///
/// ```text
/// name    = small { [.] more }        more = small | digit | " | '
/// keyword = the same with capitals
/// number  = digits [. digits] | . digits
/// sign    = + - * / ** */ /* # ^ ^^ @ | << >< >> < <= = <> >= > ( ) [ ] { } , ; : ..
/// ```
#[tactic(auto, unfolding(crate::specs::Scanned::word_in_front))]
pub(crate) fn word_in_front(bytes: &[u8]) -> Option<Word>
    ensures word { word_of result ≡ word_in_front bytes.now }
    ensures sized { IsSized bytes.now result }
{
    let (first, rest) = bytes.split_first()?;
    if is_small(*first) {
        return Some(Word::new(TokenKind::Name, 1 + tail_length(rest, false)));
    }
    if is_capital(*first) {
        return Some(Word::new(TokenKind::Keyword, 1 + tail_length(rest, true)));
    }
    if is_digit(*first) || begins_decimals(bytes) {
        return Some(Word::new(TokenKind::Number, number_length(bytes)));
    }
    if is_double(*first, rest) {
        return Some(Word::new(TokenKind::Sign, 2));
    }
    if is_single(*first) {
        return Some(Word::new(TokenKind::Sign, 1));
    }
    None
}

/// How many bytes the rest of a word has, in front of these.
fn tail_length(bytes: &[u8], capital: bool) -> usize
    ensures value { result ≡ tail_length (letter capital) bytes.now }
    ensures within { result ≤ length bytes.now }
{
    let mut count = 0;
    while continues(&bytes[count..], capital) {
        count += 1;
    }
    count
}

/// Whether a word goes on with the first of these bytes.
fn continues(bytes: &[u8], capital: bool) -> bool
    ensures value { result ≡ continues (letter capital) bytes.now }
    ensures some { IsTrue result → 0 < length bytes.now }
{
    let Some((first, rest)) = bytes.split_first() else {
        return false;
    };
    goes_on(*first, capital) || *first == b'.' && begins_going_on(rest, capital)
}

fn begins_going_on(bytes: &[u8], capital: bool) -> bool
    ensures { result ≡ begins (goes_on (letter capital)) bytes.now }
{
    bytes.first().is_some_and(|b| goes_on(*b, capital))
}

/// Whether a word goes on with this byte.
fn goes_on(b: u8, capital: bool) -> bool
    ensures { result ≡ goes_on (letter capital) b }
{
    is_letter(b, capital) || is_digit(b) || is_quote(b)
}

fn is_letter(b: u8, capital: bool) -> bool
    ensures { result ≡ letter capital b }
{
    if capital { is_capital(b) } else { is_small(b) }
}

/// The length of the number in front, which may begin with its point.
fn number_length(bytes: &[u8]) -> usize
    ensures value { result ≡ number_length bytes.now }
    ensures within { result ≤ length bytes.now }
{
    let whole = digits(bytes);
    whole + decimals(&bytes[whole..])
}

/// The length of the point and the digits in front.
fn decimals(bytes: &[u8]) -> usize
    ensures value { result ≡ decimals bytes.now }
    ensures within { result ≤ length bytes.now }
{
    if begins_decimals(bytes) {
        1 + digits(&bytes[1..])
    } else {
        0
    }
}

/// Whether a point and a digit stand in front.
fn begins_decimals(bytes: &[u8]) -> bool
    ensures value { result ≡ begins_decimals bytes.now }
    ensures some { IsTrue result → 0 < length bytes.now }
{
    let Some((first, rest)) = bytes.split_first() else {
        return false;
    };
    *first == b'.' && begins_with_digit(rest)
}

fn begins_with_digit(bytes: &[u8]) -> bool
    ensures { result ≡ begins is_digit bytes.now }
{
    bytes.first().is_some_and(|b| is_digit(*b))
}

/// How many digits stand in front.
fn digits(bytes: &[u8]) -> usize
    ensures value { result ≡ digits bytes.now }
    ensures within { result ≤ length bytes.now }
{
    bytes.iter().take_while(|b| is_digit(**b)).count()
}

/// Whether this byte and the next are a sign.
fn is_double(first: u8, rest: &[u8]) -> bool
    ensures value { result ≡ is_double first rest.now }
    ensures some { IsTrue result → 0 < length rest.now }
{
    rest.first()
        .is_some_and(|second| second_signs(first).contains(second))
}

/// What makes a sign of two characters with this one before it.
fn second_signs(first: u8) -> &'static [u8]
    ensures { result.now ≡ second_signs first }
{
    match first {
        b'*' => b"*/",
        b'/' => b"*",
        b'^' => b"^",
        b'<' | b'>' => b"<=>",
        b'.' => b".",
        _ => b"",
    }
}

fn is_single(b: u8) -> bool
    ensures { result ≡ is_single b }
{
    b"+-*/#^@|<=>()[]{},;:".contains(&b)
}

/// False for a number token whose value is no number; true for every other word.
pub(crate) fn is_sound(bytes: &[u8], word: Word) -> bool
    requires { word_in_front bytes.now ≡ Some (word.kind, word.length) }
    ensures { Judges result (number_of word.kind (take word.length bytes.now)) }
{
    match word.kind {
        TokenKind::Number => has_value(&bytes[..word.length]),
        _ => true,
    }
}

/// Whether the value of a number token is a number.
fn has_value(spelled: &[u8]) -> bool
    requires { IsNumberToken spelled.now }
    ensures { Judges result (spelled.now ∷ []) }
{
    read_literal(spelled).is_ok()
}
