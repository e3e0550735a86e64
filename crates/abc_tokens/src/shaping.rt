//! The shape of a line.
ghost use Rattle.std.specs.Prelude.{◌≡◌, ◌≤◌, ◌+◌, ◌*◌, ◌∷◌, ◌++◌, [], List, ℕ, true, length, drop, slice_get, IfSome};
ghost use Rattle.abc_num.specs.declared.limits.TheConstants.{MOST_LINE_BYTES};
ghost use Rattle.abc_tokens.specs.declared.kinds.Token.{Token};
ghost use Rattle.abc_tokens.specs.Shape.{indentation, text_of, is_blank, begins_environment, is_spelled, is_reserved, names_refinement, is_refinement, beginning, shape_of, IsShape, is_first, is_first_by};
ghost use Rattle.abc_tokens.specs.Tokens.{Tokens};
ghost use Rattle.abc_tokens.specs.inner.Shapes.{IsWithin, AreEnds, EndsFound, IsFirstFound};

use crate::scan::{token_at, token_start};
use crate::{First, Shape, Token, TokenKind};
use abc_num::limits::{MOST_LINE_BYTES, TAB_WIDTH};

/// The shape of a line. In it a text that isn't closed is one token up to the end of the line. Takes no memory.
pub fn shape(line: &[u8]) -> Shape
    requires { length line.now ≤ MOST_LINE_BYTES }
    ensures by_tokens { IsShape line.now result }
    ensures computed { result ≡ shape_of line.now }
{
    let front = front_of(line);
    let text = &line[front.bytes..];
    let ends = ends_of(text);
    Shape {
        blank: is_blank(text),
        indent: front.columns,
        ends_in_colon: is_spelled(text, ends.last, b":"),
        first: beginning(front.columns, text, ends.first, ends.second),
    }
}

/// Whether the first token of a line is spelled so, also where the line has a fault: a text that isn't closed is one
/// token up to the end of the line. Reads no token behind the first, and takes no memory.
pub fn is_first(line: &[u8], word: &[u8]) -> bool
    requires { length line.now ≤ MOST_LINE_BYTES }
    ensures by_tokens { (ts : List Token) (ns : List (List ℕ)) → Tokens true (length (text_of line.now)) (text_of line.now) ts ns
        → result ≡ is_first_by line.now ts word.now }
    ensures computed { result ≡ is_first line.now word.now }
{
    let front = front_of(line);
    let text = &line[front.bytes..];
    is_spelled(text, first_of(text), word)
}

/// The first token of a text, read loosely.
fn first_of(text: &[u8]) -> Option<Token>
    requires { length text.now ≤ MOST_LINE_BYTES }
    ensures first { IsFirstFound text.now result }
    ensures within { IfSome result (IsWithin text.now) }
{
    let Some(start) = token_start(text, 0) else {
        return None;
    };
    let mut marks = [0u8; MOST_LINE_BYTES];
    let Some(read) = token_at(text, start, &mut marks) else {
        return Some(Token {
            kind: TokenKind::Text,
            start,
            end: text.len(),
        });
    };
    Some(read.token)
}

/// The spaces and tabs at the front of a line.
#[derive(Clone, Copy)]
struct Front {
    bytes: usize,
    /// The column of what follows them.
    columns: u32,
}

fn front_of(line: &[u8]) -> Front
    requires { length line.now ≤ MOST_LINE_BYTES }
    ensures columns { result.columns ≡ indentation line.now }
    ensures text { drop result.bytes line.now ≡ text_of line.now }
    ensures within { result.bytes ≤ length line.now }
{
    let mut bytes = 0;
    let mut columns = 0;
    while bytes < line.len() {
        match line[bytes] {
            b' ' => columns += 1,
            b'\t' => columns = (columns / TAB_WIDTH + 1) * TAB_WIDTH,
            _ => break,
        }
        bytes += 1;
    }
    Front { bytes, columns }
}

fn is_blank(text: &[u8]) -> bool
    ensures { result ≡ is_blank text.now }
{
    text.first().is_none_or(|b| *b == b'\\')
}

/// The first two tokens of a text and its last one.
#[derive(Clone, Copy)]
pub(crate) struct Ends {
    pub(crate) first: Option<Token>,
    pub(crate) second: Option<Token>,
    pub(crate) last: Option<Token>,
}

impl Ends {
    /// The ends with one more token behind them.
    fn with(self, token: Token) -> Ends
        ensures { (text : List ℕ) (ts : List Token) → IsWithin text token → AreEnds text ts self → AreEnds text (ts ++ token ∷ []) result }
    {
        if self.first.is_none() {
            return Ends {
                first: Some(token),
                second: None,
                last: Some(token),
            };
        }
        if self.second.is_none() {
            return Ends {
                first: self.first,
                second: Some(token),
                last: Some(token),
            };
        }
        Ends {
            first: self.first,
            second: self.second,
            last: Some(token),
        }
    }
}

/// The ends of a text, read loosely.
fn ends_of(text: &[u8]) -> Ends
    requires { length text.now ≤ MOST_LINE_BYTES }
    ensures { EndsFound text.now result }
{
    let mut marks = [0u8; MOST_LINE_BYTES];
    let mut ends = Ends {
        first: None,
        second: None,
        last: None,
    };
    let mut at = 0;
    while let Some(start) = token_start(text, at) {
        let Some(read) = token_at(text, start, &mut marks) else {
            return ends.with(Token {
                kind: TokenKind::Text,
                start,
                end: text.len(),
            });
        };
        ends = ends.with(read.token);
        at = read.token.end;
    }
    ends
}

/// How a line begins that is indented by so many columns, with this text and these first tokens.
fn beginning(indent: u32, text: &[u8], first: Option<Token>, second: Option<Token>) -> First
    requires first { IfSome first (IsWithin text.now) }
    requires second { IfSome second (IsWithin text.now) }
    ensures { result ≡ beginning indent text.now first second }
{
    if is_spelled(text, first, b"HOW") && is_spelled(text, second, b"TO") {
        First::HowTo
    } else if is_refinement(text, first) && is_spelled(text, second, b":") {
        First::Heading
    } else if indent == 0 && begins_environment(text) {
        First::Environment
    } else {
        First::Other
    }
}

/// Whether there is a token, spelled so.
fn is_spelled(text: &[u8], token: Option<Token>, word: &[u8]) -> bool
    requires { IfSome token (IsWithin text.now) }
    ensures { result ≡ is_spelled text.now token word.now }
{
    match token {
        Some(token) => &text[token.start..token.end] == word,
        None => false,
    }
}

/// The keywords that begin no refinement and no command of one's own.
const RESERVED: [&[u8]; 21] = [
    b"WRITE", b"READ", b"PUT", b"INSERT", b"REMOVE", b"DELETE", b"PASS", b"CHECK", b"IF",
    b"SELECT", b"ELSE", b"WHILE", b"FOR", b"HOW", b"SHARE", b"QUIT", b"RETURN", b"REPORT",
    b"SUCCEED", b"FAIL", b"SET",
];

/// Whether the word is a keyword that begins no refinement and no command of one's own.
pub fn is_reserved(word: &[u8]) -> bool
    ensures { result ≡ is_reserved word.now }
{
    RESERVED.contains(&word)
}

/// Whether the token is a name, or a keyword that isn't reserved.
fn is_refinement(text: &[u8], token: Option<Token>) -> bool
    requires { IfSome token (IsWithin text.now) }
    ensures { result ≡ is_refinement text.now token }
{
    match token {
        Some(token) => names_refinement(&text[token.start..token.end], token.kind),
        None => false,
    }
}

fn names_refinement(word: &[u8], kind: TokenKind) -> bool
    ensures { result ≡ names_refinement word.now kind }
{
    match kind {
        TokenKind::Name => true,
        TokenKind::Keyword => !is_reserved(word),
        _ => false,
    }
}

fn begins_environment(text: &[u8]) -> bool
    ensures { result ≡ begins_environment text.now }
{
    match text {
        [b':' | b'=', ..] => true,
        [b'-', b':', ..] => true,
        _ => false,
    }
}
