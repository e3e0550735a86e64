//! The expression in front of some tokens, as other crates ask for it.
ghost use Rattle.std.specs.Prelude.{◌≡◌, ◌≤◌, ℕ, All};
ghost use Rattle.abc_expressions.specs.Fronts.{IsFront, FindsOnly};
ghost use Rattle.abc_expressions.specs.Lexemes.{IsSpelled};
ghost use Rattle.abc_expressions.specs.Readings.{Finds, in_front};

use crate::fault::FormulaFault;
use crate::frames::Group;
use crate::lexemes::Lexeme;
use crate::tree::{ExpressionFront, read_tree};
use abc_num::Names;
use abc_tokens::one_reading;
use std::alloc::Global;

/// The single expression of this level at least (1 to 10, loosest first) in front of the tokens, where so many brackets may open:
/// the one tree that is spelled in front and ends there, with no `[` behind it and no operator that gives its level or a tighter
/// one. BadCommand comes exactly where there is none. Never TooMany.
pub fn expression_in_front<'a>(
    alloc: Global,
    own: &Names,
    tokens: &'a [Lexeme],
    left: u8,
    least: u8,
) -> Result<ExpressionFront<'a>, FormulaFault>
    requires spelled { All IsSpelled tokens.now }
    ensures read { (c : ℕ) → left ≤ c → Finds result (in_front own.now c least left tokens.now) }
    ensures single { least ≤ 10 → FindsOnly (IsFront own.now left least tokens.now) result }
{
    one_reading();
    read_tree(alloc, own, tokens, left, least, Group::Single)
}
