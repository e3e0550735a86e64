//! The tree in front of some tokens. Conversions are read by recursion, everything else with a stack of frames.
ghost use Rattle.std.specs.Prelude.{◌≡◌, ℕ, ◌+◌, ◌≤◌, ◌∷◌, All};
ghost use Rattle.abc_num.specs.Literal.{IsNumberToken};
ghost use Rattle.abc_expressions.specs.Lexemes.{IsSpelled};
ghost use Rattle.abc_expressions.specs.inner.Machine.{converter, reader, operand, at_token, tree_at, number_of, text_by, split_text, pieces_of, piece_of, conversion_at, lexed};
ghost use Rattle.abc_expressions.specs.inner.Numbers.{number_at};
ghost use Rattle.abc_expressions.specs.inner.Steps.{Steps, opens, held, group_opens, Brings, Counts};
ghost use Rattle.abc_expressions.specs.Readings.{Finds};

use crate::fault::FormulaFault;
use crate::frames::{Frame, Group, Operand, Step, Turn};
use crate::lexemes::{Lexeme, lexed};
use crate::names::{operand, sign_of};
use crate::reading::Reader;
use crate::signs::Sign;
use crate::texts::{Part, split_text};
use abc_num::{BadNumber, Items, Names, Stack, Text, read_literal};
use abc_tree::{Expr, Piece, Pieces};
use std::alloc::Global;

/// A tree, and the tokens behind it, which it doesn't take up.
#[derive(Drop)]
pub struct ExpressionFront<'a> {
    pub tree: Expr,
    pub rest: &'a [Lexeme],
}

/// The number with these digits, if its value is one.
fn number(digits: &Text) -> Option<Expr>
    requires { IsNumberToken digits.now }
    ensures { result ≡ number_of (number_at digits.now) }
{
    match read_literal(digits.bytes()) {
        Ok(value) => Some(Expr::Number(value)),
        Err(BadNumber) => None,
    }
}

/// The expression that a conversion is.
#[cycle(reading)]
fn conversion(
    alloc: Global,
    own: &Names,
    bytes: &Text,
    left: u8,
) -> Result<Option<Expr>, FormulaFault>
    ensures { (c : ℕ) → left ≤ c → Brings result (conversion_at (converter own.now c) left bytes.now) }
{
    if left == 0 {
        return Ok(None);
    }
    let Some(tokens) = lexed(alloc, bytes.bytes())? else {
        return Ok(None);
    };
    let whole = Group::Whole(Items::new(alloc));
    match read_tree(alloc, own, tokens.as_slice(), left - 1, 1, whole) {
        Ok(front) => {
            if front.rest.is_empty() {
                Ok(Some(front.tree))
            } else {
                Ok(None)
            }
        }
        Err(FormulaFault::BadCommand) => Ok(None),
        Err(fault) => Err(fault),
    }
}

/// A part of a text as a piece.
#[cycle(reading)]
fn piece(alloc: Global, own: &Names, part: &Part, left: u8) -> Result<Option<Piece>, FormulaFault>
    ensures { (c : ℕ) → left ≤ c → Brings result (piece_of (converter own.now c) left part.now) }
{
    match part {
        Part::Characters(text) => Ok(Some(Piece::Chars(Text::of(alloc, text.bytes())?))),
        Part::Conversion(bytes) => match conversion(alloc, own, bytes, left)? {
            Some(tree) => Ok(Some(Piece::Conversion(tree))),
            None => Ok(None),
        },
    }
}

/// The pieces of a text.
#[cycle(reading)]
fn pieces(
    alloc: Global,
    own: &Names,
    parts: &[Part],
    left: u8,
) -> Result<Option<Pieces>, FormulaFault>
    ensures { (c : ℕ) → left ≤ c → Brings result (pieces_of (converter own.now c) left parts.now) }
{
    let mut pieces = Items::new(alloc);
    for part in parts {
        let Some(next) = piece(alloc, own, part, left)? else {
            return Ok(None);
        };
        pieces.push(next)?;
    }
    Ok(Some(pieces))
}

/// The text of this token.
#[cycle(reading)]
fn text(alloc: Global, own: &Names, bytes: &Text, left: u8) -> Result<Option<Expr>, FormulaFault>
    ensures { (c : ℕ) → left ≤ c → Brings result (text_by (converter own.now c) left (split_text bytes.now)) }
{
    let Some(parts) = split_text(alloc, bytes.bytes())? else {
        return Ok(None);
    };
    match pieces(alloc, own, parts.as_slice(), left)? {
        Some(pieces) => Ok(Some(Expr::Text(pieces))),
        None => Ok(None),
    }
}

/// The expression that a number or text is.
#[cycle(reading)]
fn leaf(alloc: Global, own: &Names, token: &Lexeme, left: u8) -> Result<Option<Expr>, FormulaFault>
    requires { IsSpelled token.now }
    ensures { (c : ℕ) → left ≤ c → Brings result (reader own.now c left token.now) }
{
    match token {
        Lexeme::Number(digits) => Ok(number(digits)),
        Lexeme::Text(bytes) => text(alloc, own, bytes, left),
        Lexeme::Name(_) | Lexeme::Keyword(_) | Lexeme::Sign(_) | Lexeme::Other => Ok(None),
    }
}

/// What the token begins in operand place.
#[cycle(reading)]
fn operand_at(
    alloc: Global,
    own: &Names,
    token: &Lexeme,
    rest: &[Lexeme],
    left: u8,
) -> Result<Operand, FormulaFault>
    requires { IsSpelled token.now }
    ensures { (c : ℕ) → left ≤ c → Brings result (operand own.now (reader own.now c left token.now) token.now rest.now) }
{
    let leaf = leaf(alloc, own, token, left)?;
    Ok(operand(alloc, own, leaf, token, rest)?)
}

/// One token.
#[cycle(reading)]
fn advance(
    alloc: Global,
    own: &Names,
    state: &mut Reader,
    token: &Lexeme,
    rest: &[Lexeme],
    turn: Turn,
) -> Result<Step, FormulaFault>
    requires spelled { IsSpelled token.now }
    requires counted { state.old.left + (opens state.old.stack + held turn) ≤ state.old.most }
    ensures steps { (c : ℕ) → state.old.left ≤ c
        → Steps (token.now ∷ rest.now) (λ next. at_token (reader own.now c) own.now token.now rest.now next state.old.left state.old.stack turn) result state.new.left state.new.stack }
    ensures counts { Counts state.old.most result state.new.left state.new.stack }
    ensures most { state.new.most ≡ state.old.most }
{
    match turn {
        Turn::Wants(least) => {
            let operand = operand_at(alloc, own, token, rest, state.left)?;
            state.wants(operand, least)
        }
        Turn::Has(least, level, a) => state.behind(own, token, rest, least, level, a),
        Turn::Display(least) => match sign_of(token) {
            Sign::Unbrace => state.empty(least),
            Sign::Bracket => state.at_pair(Sign::Bracket, least, Items::new(alloc)),
            _ => {
                let operand = operand_at(alloc, own, token, rest, state.left)?;
                state.first_fill(operand, least)
            }
        },
        Turn::Pair(least, pairs) => state.at_pair(sign_of(token), least, pairs),
        Turn::Colon(least, pairs, key) => state.at_colon(sign_of(token), least, pairs, key),
    }
}

/// An expression in front of the tokens, or, by the group, several with commas between, as the machine reads them.
#[cycle(reading)]
pub(crate) fn read_tree<'a>(
    alloc: Global,
    own: &Names,
    tokens: &'a [Lexeme],
    left: u8,
    least: u8,
    whole: Group,
) -> Result<ExpressionFront<'a>, FormulaFault>
    requires spelled { All IsSpelled tokens.now }
    requires whole { group_opens whole ≡ 0 }
    ensures { (c : ℕ) → left ≤ c → Finds result (tree_at least whole (reader own.now c) own.now left tokens.now) }
{
    let mut stack = Stack::new(alloc);
    stack.push(Frame::Inside(least, whole))?;
    let mut state = Reader {
        alloc,
        stack,
        left,
        most: left,
    };
    let mut turn = Turn::Wants(least);
    let mut ahead = tokens;
    while let Some((token, rest)) = ahead.split_first() {
        turn = match advance(alloc, own, &mut state, token, rest, turn)? {
            Step::Goes(turn) => turn,
            Step::Stops(tree) => return Ok(ExpressionFront { tree, rest: ahead }),
        };
        ahead = rest;
    }
    match turn {
        Turn::Has(_, _, a) => Ok(ExpressionFront {
            tree: state.finish(a)?,
            rest: ahead,
        }),
        _ => Err(FormulaFault::BadCommand),
    }
}
