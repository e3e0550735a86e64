//! Whether an example is a literal: the tree by its form, the bytes of the line by the grammar of literals.
ghost use Rattle.std.specs.Prelude.{◌≡◌, ◌≤◌, IfOk, Ok, All, is_some, length, map, int_lt, pos, reverse, slice_get};
ghost use Rattle.abc_num.specs.declared.limits.TheConstants.{MOST_LINE_BYTES};
ghost use Rattle.abc_tokens.specs.Shape.{IsPlaced};
ghost use Rattle.abc_print.specs.Computed.{literal_of};
ghost use Rattle.abc_tree.specs.Regular.{is_literal, is_divisor, is_some as is_there, every};
ghost use Rattle.abc_clauses.specs.Cuts.{bytes_behind, bytes_by, end_of};
ghost use Rattle.abc_clauses.specs.inner.Literals.{plain_of, is_signed, is_fill_literal, is_pair_literal, is_piece_literal};

use abc_num::{Num, OutOfMemory};
use abc_print::{LiteralFault, displays_read_back, read_literal_line};
use abc_tokens::{Token, TokenFault, computed_tokens, placed_tokens, tokens};
use abc_tree::{Expr, Fill, Op, Pair, Piece};
use std::alloc::Global;

/// Whether it is a number without a sign.
fn is_plain(tree: &Expr) -> bool
    ensures { result ≡ is_there (plain_of tree.now) }
{
    match tree {
        Expr::Number(_) => true,
        Expr::Text(_) => false,
        Expr::Name(_) => false,
        Expr::Compound(_) => false,
        Expr::Empty => false,
        Expr::List(_) => false,
        Expr::Table(_) => false,
        Expr::Select(_, _) => false,
        Expr::Apply1(_, _) => false,
        Expr::Apply2(_, _, _) => false,
        Expr::Call(_, _) => false,
    }
}

fn is_positive(n: &Num) -> bool
    ensures { result ≡ int_lt (pos 0) n.now.numerator }
{
    match n.numerator().to_whole() {
        Some(numerator) => numerator > 0,
        None => false,
    }
}

/// Whether it is a number that isn't 0, without a sign.
fn is_divisor(tree: &Expr) -> bool
    ensures { result ≡ is_divisor (plain_of tree.now) }
{
    match tree {
        Expr::Number(n) => is_positive(n),
        Expr::Text(_) => false,
        Expr::Name(_) => false,
        Expr::Compound(_) => false,
        Expr::Empty => false,
        Expr::List(_) => false,
        Expr::Table(_) => false,
        Expr::Select(_, _) => false,
        Expr::Apply1(_, _) => false,
        Expr::Apply2(_, _, _) => false,
        Expr::Call(_, _) => false,
    }
}

/// Whether it is a number, or a sign and a number.
fn is_signed(tree: &Expr) -> bool
    ensures { result ≡ is_signed tree.now }
{
    match tree {
        Expr::Number(_) => true,
        Expr::Apply1(Op::Plus | Op::Negate, x) => is_plain(x.get()),
        Expr::Apply1(_, _) => false,
        Expr::Text(_) => false,
        Expr::Name(_) => false,
        Expr::Compound(_) => false,
        Expr::Empty => false,
        Expr::List(_) => false,
        Expr::Table(_) => false,
        Expr::Select(_, _) => false,
        Expr::Apply2(_, _, _) => false,
        Expr::Call(_, _) => false,
    }
}

/// Whether the expression has the form of a literal without `{}`.
#[tactic(auto, using(crate::proofs::LiteralForms::compound_literal))]
#[cycle(literal)]
pub(crate) fn is_literal(tree: &Expr) -> bool
    ensures { result ≡ is_literal tree.now }
{
    match tree {
        Expr::Number(_) => true,
        Expr::Text(pieces) => are_literal_pieces(pieces.as_slice()),
        Expr::Name(_) => false,
        Expr::Compound(parts) => are_literals(parts.as_slice()),
        Expr::Empty => false,
        Expr::List(fills) => are_literal_fills(fills.as_slice()),
        Expr::Table(pairs) => are_literal_pairs(pairs.as_slice()),
        Expr::Select(_, _) => false,
        Expr::Apply1(Op::Plus | Op::Negate, x) => is_plain(x.get()),
        Expr::Apply1(_, _) => false,
        Expr::Apply2(Op::Divide, x, y) => is_signed(x.get()) && is_divisor(y.get()),
        Expr::Apply2(_, _, _) => false,
        Expr::Call(_, _) => false,
    }
}

#[cycle(literal)]
fn are_literals(parts: &[Expr]) -> bool
    ensures { result ≡ every (map is_literal parts.now) }
{
    for part in parts {
        if !is_literal(part) {
            return false;
        }
    }
    true
}

fn is_literal_piece(piece: &Piece) -> bool
    ensures { result ≡ is_piece_literal piece.now }
{
    matches!(piece, Piece::Chars(_))
}

fn are_literal_pieces(pieces: &[Piece]) -> bool
    ensures { result ≡ every (map is_piece_literal pieces.now) }
{
    for piece in pieces {
        if !is_literal_piece(piece) {
            return false;
        }
    }
    true
}

#[cycle(literal)]
fn is_literal_fill(fill: &Fill) -> bool
    ensures { result ≡ is_fill_literal fill.now }
{
    match fill {
        Fill::One(x) => is_literal(x),
        Fill::Range(_, _) => false,
    }
}

#[cycle(literal)]
fn are_literal_fills(fills: &[Fill]) -> bool
    ensures { result ≡ every (map is_fill_literal fills.now) }
{
    for fill in fills {
        if !is_literal_fill(fill) {
            return false;
        }
    }
    true
}

#[cycle(literal)]
fn are_literal_pairs(pairs: &[Pair]) -> bool
    ensures { result ≡ every (map is_pair_literal pairs.now) }
{
    for pair in pairs {
        if !is_literal(&pair.key) || !is_literal(&pair.associate) {
            return false;
        }
    }
    true
}

/// Where the token ends that has so many of these tokens behind it, and 0 where there is none.
fn end_at(tokens: &[Token], others: usize) -> usize
    ensures { result ≡ end_of (slice_get (reverse tokens.now) others) }
{
    if others >= tokens.len() {
        return 0;
    }
    tokens[tokens.len() - 1 - others].end
}

/// The bytes behind the token that has so many of these tokens behind it, if there is one.
fn bytes_from<'a>(text: &'a [u8], tokens: &[Token], others: usize) -> &'a [u8]
    requires { All (IsPlaced text.now) tokens.now }
    ensures bytes { result.now ≡ bytes_by text.now others (Ok tokens.now) }
    ensures length { length result.now ≤ length text.now }
{
    &text[end_at(tokens, others)..]
}

/// The bytes of the text behind the token that has so many others behind it. A text with a fault of tokens has none.
pub(crate) fn bytes_behind(alloc: Global, text: &[u8], others: usize) -> Result<&[u8], OutOfMemory>
    ensures bytes { IfOk result (λ bytes. bytes.now ≡ bytes_behind text.now others) }
    ensures length { IfOk result (λ bytes. length bytes.now ≤ length text.now) }
{
    computed_tokens();
    placed_tokens();
    match tokens(alloc, text) {
        Ok(tokens) => Ok(bytes_from(text, &tokens, others)),
        Err(TokenFault::Memory) => Err(OutOfMemory),
        Err(TokenFault::BadByte) => Ok(&text[..0]),
        Err(TokenFault::OpenText) => Ok(&text[..0]),
        Err(TokenFault::BadNumber) => Ok(&text[..0]),
    }
}

/// Whether the bytes are a literal.
pub(crate) fn spells_literal(alloc: Global, bytes: &[u8]) -> Result<bool, OutOfMemory>
    requires { length bytes.now ≤ MOST_LINE_BYTES }
    ensures { IfOk result (λ b. b ≡ is_some (literal_of bytes.now)) }
{
    displays_read_back();
    match read_literal_line(alloc, bytes) {
        Ok(_value) => Ok(true),
        Err(LiteralFault::BadInput) => Ok(false),
        Err(LiteralFault::Memory) => Err(OutOfMemory),
    }
}
