//! What the grammar sees of tokens.
ghost use Rattle.std.specs.Prelude.{◌≡◌, map, All, IfOk, IfSome, Some};
ghost use Rattle.abc_expressions.specs.Lexemes.{seen, ArePart, IsWithin, IsSpelled};
ghost use Rattle.abc_expressions.specs.inner.Machine.{lexed};

use crate::signs::{Sign, sign_by};
use abc_num::{Items, OutOfMemory, Text};
use abc_tokens::{Token, TokenFault, TokenKind, one_reading, tokens};
use std::alloc::Global;

/// A token by its bytes, those of a text with its quotes.
#[derive(Drop)]
pub enum Lexeme {
    Number(Text),
    Name(Text),
    Keyword(Text),
    Text(Text),
    Sign(Sign),
    /// A byte that begins no token.
    Other,
}

fn lexeme_at(alloc: Global, line: &[u8], token: Token) -> Result<Lexeme, OutOfMemory>
    requires { IsWithin line.now token }
    ensures { IfOk result (λ l. l ≡ seen line.now token) }
{
    let bytes = &line[token.start..token.end];
    match token.kind {
        TokenKind::Name => Ok(Lexeme::Name(Text::of(alloc, bytes)?)),
        TokenKind::Keyword => Ok(Lexeme::Keyword(Text::of(alloc, bytes)?)),
        TokenKind::Number => Ok(Lexeme::Number(Text::of(alloc, bytes)?)),
        TokenKind::Text => Ok(Lexeme::Text(Text::of(alloc, bytes)?)),
        TokenKind::Sign => Ok(Lexeme::Sign(sign_by(bytes))),
        TokenKind::Other => Ok(Lexeme::Other),
    }
}

/// What the grammar sees of these tokens of the line, in time proportional to the length of the line. Those of a line
/// without a fault are spelled as the readings want them.
pub fn lexemes_of(
    alloc: Global,
    line: &[u8],
    tokens: &[Token],
) -> Result<Items<Lexeme>, OutOfMemory>
    requires { All (IsWithin line.now) tokens.now }
    ensures seen { IfOk result (λ ls. ls ≡ map (seen line.now) tokens.now) }
    ensures spelled { ArePart line.now tokens.now → IfOk result (All IsSpelled) }
{
    let mut lexemes = Items::new(alloc);
    for token in tokens {
        lexemes.push(lexeme_at(alloc, line, *token)?)?;
    }
    Ok(lexemes)
}

/// The tokens of these bytes, if they have no fault.
pub(crate) fn lexed(alloc: Global, bytes: &[u8]) -> Result<Option<Items<Lexeme>>, OutOfMemory>
    ensures found { IfOk result (λ x. x ≡ lexed bytes.now) }
    ensures spelled { IfOk result (λ x. IfSome x (All IsSpelled)) }
{
    one_reading();
    match tokens(alloc, bytes) {
        Ok(tokens) => Ok(Some(lexemes_of(alloc, bytes, &tokens)?)),
        Err(TokenFault::Memory) => Err(OutOfMemory),
        Err(TokenFault::BadByte) => Ok(None),
        Err(TokenFault::OpenText) => Ok(None),
        Err(TokenFault::BadNumber) => Ok(None),
    }
}
