//! Tokens as the lexemes of a literal.
ghost use Rattle.std.specs.Prelude.{◌≡◌, ◌≤◌, ◌↔◌, List, length, map, IfOk, IfErr, Some, None};
ghost use Rattle.abc_num.specs.Literal.{IsNumberToken};
ghost use Rattle.abc_num.specs.declared.limits.TheConstants.{MOST_LINE_BYTES};
ghost use Rattle.abc_tokens.specs.Tokens.{AreTokens};
ghost use Rattle.abc_value.specs.Regular.{AreCharacters};
ghost use Rattle.abc_tokens.specs.Shape.{IsPlaced};
ghost use Rattle.abc_print.specs.declared.frames.Lexeme.{Lexeme};
ghost use Rattle.abc_print.specs.Lexemes.{class_of, signs_class, sign_class, content, with_sign, seen};
ghost use Rattle.abc_print.specs.inner.Lexing.{Reads, ReadsToken, lexed, GivesNumber, GivesQuotient, width};

use crate::LiteralFault;
use crate::frames::{Lexeme, Mark};
use abc_num::{Num, read_literal};
use abc_tokens::{Token, TokenKind};
use abc_value::Value;
use std::alloc::Global;
use std::collections::VecDeque;

/// What a token is to a literal.
#[derive(Clone, Copy, PartialEq, Eq, Debug)]
pub(crate) enum Class {
    Number,
    Text,
    Plus,
    Minus,
    Slash,
    Mark(Mark),
    Other,
}

/// What was read of a number.
#[derive(Clone, Copy)]
pub(crate) enum State {
    /// Nothing.
    Start,
    /// A sign, and whether it is `-`.
    Signed(bool),
    /// A number, behind which a divisor may come.
    Numbered(Num),
    /// A number and the sign of a divisor.
    Divided(Num),
}

/// What the token is to a literal.
#[tactic(auto, unfolding(crate::specs::Lexemes::class_of))]
fn class_of(kind: TokenKind, bytes: &[u8]) -> Class
    ensures { result ≡ class_of kind bytes.now }
{
    match kind {
        TokenKind::Number => Class::Number,
        TokenKind::Text => Class::Text,
        TokenKind::Sign => signs_class(bytes),
        TokenKind::Name | TokenKind::Keyword | TokenKind::Other => Class::Other,
    }
}

fn signs_class(bytes: &[u8]) -> Class
    ensures { result ≡ signs_class bytes.now }
{
    if bytes.len() == 1 {
        sign_class(bytes[0])
    } else {
        Class::Other
    }
}

fn sign_class(b: u8) -> Class
    ensures { result ≡ sign_class b }
{
    match b {
        b'+' => Class::Plus,
        b'-' => Class::Minus,
        b'/' => Class::Slash,
        b'(' => Class::Mark(Mark::Open),
        b')' => Class::Mark(Mark::Close),
        b'{' => Class::Mark(Mark::Brace),
        b'}' => Class::Mark(Mark::Unbrace),
        b'[' => Class::Mark(Mark::Bracket),
        b']' => Class::Mark(Mark::Unbracket),
        b',' => Class::Mark(Mark::Comma),
        b';' => Class::Mark(Mark::Semicolon),
        b':' => Class::Mark(Mark::Colon),
        _ => Class::Other,
    }
}

/// One token, behind what was read.
pub(crate) fn read(
    alloc: Global,
    all: &mut VecDeque<Lexeme>,
    state: State,
    class: Class,
    bytes: &[u8],
) -> Result<State, LiteralFault>
    requires digits { class ≡ Class.Number → IsNumberToken bytes.now }
    requires characters { AreCharacters bytes.now }
    requires length { length bytes.now ≤ MOST_LINE_BYTES }
    ensures { Reads all.old.items class bytes.now state all.new.items result }
{
    match state {
        State::Start => start(alloc, all, class, bytes),
        State::Signed(negative) => signed(all, class, bytes, negative),
        State::Numbered(x) => numbered(alloc, all, class, bytes, x),
        State::Divided(x) => divided(all, class, bytes, x),
    }
}

/// At the start of a lexeme.
fn start(
    alloc: Global,
    all: &mut VecDeque<Lexeme>,
    class: Class,
    bytes: &[u8],
) -> Result<State, LiteralFault>
    requires digits { class ≡ Class.Number → IsNumberToken bytes.now }
    requires characters { AreCharacters bytes.now }
    requires length { length bytes.now ≤ MOST_LINE_BYTES }
    ensures { Reads all.old.items class bytes.now State.Start all.new.items result }
{
    match class {
        Class::Number => {
            let x = number(bytes)?;
            Ok(State::Numbered(x))
        }
        Class::Text => quoted(alloc, all, bytes),
        Class::Plus => Ok(State::Signed(false)),
        Class::Minus => Ok(State::Signed(true)),
        Class::Mark(mark) => {
            all.push_back(Lexeme::Mark(mark))?;
            Ok(State::Start)
        }
        Class::Slash | Class::Other => Err(LiteralFault::BadInput),
    }
}

/// Behind a sign.
fn signed(
    all: &mut VecDeque<Lexeme>,
    class: Class,
    bytes: &[u8],
    negative: bool,
) -> Result<State, LiteralFault>
    requires { class ≡ Class.Number → IsNumberToken bytes.now }
    ensures { Reads all.old.items class bytes.now (State.Signed negative) all.new.items result }
{
    match class {
        Class::Number => {
            let x = number(bytes)?;
            Ok(State::Numbered(with_sign(negative, x)))
        }
        _ => Err(LiteralFault::BadInput),
    }
}

/// Behind a number.
fn numbered(
    alloc: Global,
    all: &mut VecDeque<Lexeme>,
    class: Class,
    bytes: &[u8],
    x: Num,
) -> Result<State, LiteralFault>
    requires digits { class ≡ Class.Number → IsNumberToken bytes.now }
    requires characters { AreCharacters bytes.now }
    requires length { length bytes.now ≤ MOST_LINE_BYTES }
    ensures { Reads all.old.items class bytes.now (State.Numbered x) all.new.items result }
{
    match class {
        Class::Slash => Ok(State::Divided(x)),
        _ => {
            all.push_back(Lexeme::Value(Value::number(x)))?;
            start(alloc, all, class, bytes)
        }
    }
}

/// Behind the sign of a divisor.
fn divided(
    all: &mut VecDeque<Lexeme>,
    class: Class,
    bytes: &[u8],
    x: Num,
) -> Result<State, LiteralFault>
    requires { class ≡ Class.Number → IsNumberToken bytes.now }
    ensures { Reads all.old.items class bytes.now (State.Divided x) all.new.items result }
{
    match class {
        Class::Number => {
            let y = number(bytes)?;
            let z = quotient(&x, &y)?;
            all.push_back(Lexeme::Value(Value::number(z)))?;
            Ok(State::Start)
        }
        _ => Err(LiteralFault::BadInput),
    }
}

fn with_sign(negative: bool, x: Num) -> Num
    ensures { result ≡ with_sign negative x }
{
    if negative { x.neg() } else { x }
}

/// The value of a number token.
fn number(bytes: &[u8]) -> Result<Num, LiteralFault>
    requires { IsNumberToken bytes.now }
    ensures { GivesNumber result bytes.now }
{
    match read_literal(bytes) {
        Ok(x) => Ok(x),
        Err(_) => Err(LiteralFault::BadInput),
    }
}

/// A number over another that is not 0.
fn quotient(x: &Num, y: &Num) -> Result<Num, LiteralFault>
    ensures { GivesQuotient result x.now y.now }
{
    let _whole = x.to_whole();
    match x.div(y) {
        Ok(z) => Ok(z),
        Err(_) => Err(LiteralFault::BadInput),
    }
}

/// A text without conversions.
fn quoted(alloc: Global, all: &mut VecDeque<Lexeme>, bytes: &[u8]) -> Result<State, LiteralFault>
    requires characters { AreCharacters bytes.now }
    requires length { length bytes.now ≤ MOST_LINE_BYTES }
    ensures { Reads all.old.items Class.Text bytes.now State.Start all.new.items result }
{
    let Some((quote, rest)) = bytes.split_first() else {
        return Err(LiteralFault::BadInput);
    };
    let characters = content(alloc, *quote, rest)?;
    match Value::text(alloc, &characters) {
        Ok(text) => {
            all.push_back(Lexeme::Value(text))?;
            Ok(State::Start)
        }
        Err(_) => Err(LiteralFault::Memory),
    }
}

/// The characters of a text, from what stands behind its first quote.
fn content(alloc: Global, quote: u8, bytes: &[u8]) -> Result<Vec<u8>, LiteralFault>
    requires { AreCharacters bytes.now }
    ensures content { IfOk result (λ v. content quote bytes.now ≡ Some v.items) }
    ensures bad { IfErr result (λ e. e ≡ LiteralFault.BadInput → content quote bytes.now ≡ None) }
    ensures characters { IfOk result (λ v. AreCharacters v.items) }
    ensures length { IfOk result (λ v. length v.items ≤ length bytes.now) }
{
    let mut characters = Vec::new(alloc);
    let mut at = 0;
    while at + 1 < bytes.len() {
        let Some(width) = width(quote, bytes[at], bytes[at + 1]) else {
            return Err(LiteralFault::BadInput);
        };
        characters.push(bytes[at])?;
        at += width;
    }
    if at < bytes.len() && bytes[at] == quote {
        Ok(characters)
    } else {
        Err(LiteralFault::BadInput)
    }
}

/// How many bytes the character `c` before `d` takes in a text.
fn width(quote: u8, c: u8, d: u8) -> Option<usize>
    ensures { result ≡ width quote c d }
{
    if c != quote && c != b'`' {
        Some(1)
    } else if d == c {
        Some(2)
    } else {
        None
    }
}

/// A token of the line.
fn read_token(
    alloc: Global,
    line: &[u8],
    all: &mut VecDeque<Lexeme>,
    state: State,
    token: Token,
) -> Result<State, LiteralFault>
    requires token { IsPlaced line.now token }
    requires characters { AreCharacters line.now }
    requires length { length line.now ≤ MOST_LINE_BYTES }
    ensures { ReadsToken line.now all.old.items token state all.new.items result }
{
    let bytes = &line[token.start..token.end];
    read(alloc, all, state, class_of(token.kind, bytes), bytes)
}

/// The lexemes of the tokens of a line.
pub(crate) fn lexemes(
    alloc: Global,
    line: &[u8],
    tokens: &[Token],
) -> Result<VecDeque<Lexeme>, LiteralFault>
    requires tokens { AreTokens line.now tokens.now }
    requires length { length line.now ≤ MOST_LINE_BYTES }
    ensures ok { IfOk result
        (λ v. (ls : List Lexeme) → lexed (map (seen line.now) tokens.now) State.Start ls ↔ (ls ≡ v.items)) }
    ensures bad { IfErr result
        (λ e. e ≡ LiteralFault.BadInput → (ls : List Lexeme) → ¬ (lexed (map (seen line.now) tokens.now) State.Start ls)) }
{
    let mut all = VecDeque::new(alloc);
    let mut state = State::Start;
    for token in tokens {
        state = read_token(alloc, line, &mut all, state, *token)?;
    }
    match state {
        State::Start => Ok(all),
        State::Numbered(x) => {
            all.push_back(Lexeme::Value(Value::number(x)))?;
            Ok(all)
        }
        _ => Err(LiteralFault::BadInput),
    }
}
