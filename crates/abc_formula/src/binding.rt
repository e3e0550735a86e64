//! The names of FOR and the formals of a unit, as a parser asks for them. Brackets round them stand in no expression.
ghost use Rattle.std.specs.Prelude.{◌≤◌, ◌∷◌, [], true, All};
ghost use Rattle.abc_num.specs.declared.limits.TheConstants.{MOST_LINE_BYTES};
ghost use Rattle.abc_expressions.specs.Lexemes.{IsSpelled};
ghost use Rattle.abc_expressions.specs.Operators.{kind_of};
ghost use Rattle.abc_formula.specs.BoundFronts.{IsBoundFront, IsFormalFront, BindsOnly};
ghost use Rattle.abc_formula.specs.declared.test_frames.NamesEnd.TheVariants.{In};
ghost use Rattle.abc_formula.specs.inner.TestMachine.{formal_in, formal_name, round_formal, gathered_found, names_in};
ghost use Rattle.abc_formula.specs.inner.TestSteps.{FindsBound};

use crate::bounds::{gathered, names_in};
use crate::test_frames::NamesEnd;
use abc_expressions::{FormulaFault, Kind, Lexeme, Sign, kind_of};
use abc_num::{Names, Text};
use abc_tree::{Bound, NameId};
use std::alloc::Global;

/// Names that are bound, and the tokens behind them.
#[derive(Drop)]
pub struct BoundFront<'a> {
    pub bound: Bound,
    pub rest: &'a [Lexeme],
}

/// What `bound_in_front` gives, by the machine.
fn names_to_in<'a>(
    alloc: Global,
    own: &Names,
    tokens: &'a [Lexeme],
    left: u32,
) -> Result<BoundFront<'a>, FormulaFault>
    requires spelled { All IsSpelled tokens.now }
    requires left { left ≤ MOST_LINE_BYTES }
    ensures { FindsBound result (gathered_found (names_in own.now 1 In tokens.now left ([] ∷ []) true)) }
{
    let named = names_in(alloc, own, tokens, left, 1, NamesEnd::In)?;
    Ok(BoundFront {
        bound: gathered(named.names),
        rest: named.rest,
    })
}

/// The own names up to IN, where so many brackets may open, and the tokens behind IN. BadCommand exactly where no names are
/// spelled up to an IN, and never TooMany. A line never has more brackets than `MOST_LINE_BYTES`.
///
/// ```text
/// names = part | part , part , ..
/// part  = name | ( names )
/// ```
pub fn bound_in_front<'a>(
    alloc: Global,
    own: &Names,
    tokens: &'a [Lexeme],
    left: u32,
) -> Result<BoundFront<'a>, FormulaFault>
    requires spelled { All IsSpelled tokens.now }
    requires left { left ≤ MOST_LINE_BYTES }
    ensures { BindsOnly (IsBoundFront own.now left tokens.now) result }
{
    names_to_in(alloc, own, tokens, left)
}

fn formal_name<'a>(
    own: &Names,
    name: &Text,
    rest: &'a [Lexeme],
) -> Result<BoundFront<'a>, FormulaFault>
    ensures { FindsBound result (formal_name (kind_of own.now name.now) rest.now) }
{
    match kind_of(own, name) {
        Kind::Own(i) => Ok(BoundFront {
            bound: Bound::One(NameId(i)),
            rest,
        }),
        Kind::Given(_, _) => Err(FormulaFault::BadCommand),
        Kind::Free => Err(FormulaFault::BadCommand),
    }
}

/// The formals up to the bracket that closes those in front of the tokens.
fn round_formal<'a>(
    alloc: Global,
    own: &Names,
    tokens: &'a [Lexeme],
    left: u32,
) -> Result<BoundFront<'a>, FormulaFault>
    requires spelled { All IsSpelled tokens.now }
    requires left { left ≤ MOST_LINE_BYTES }
    ensures { FindsBound result (round_formal own.now left tokens.now) }
{
    if left == 0 {
        return Err(FormulaFault::BadCommand);
    }
    let named = names_in(alloc, own, tokens, left - 1, 2, NamesEnd::Close)?;
    if named.names.len() < 2 {
        return Err(FormulaFault::BadCommand);
    }
    Ok(BoundFront {
        bound: Bound::Several(named.names),
        rest: named.rest,
    })
}

/// What `formal_in_front` gives, by the machine.
fn formal_in<'a>(
    alloc: Global,
    own: &Names,
    tokens: &'a [Lexeme],
    left: u32,
) -> Result<BoundFront<'a>, FormulaFault>
    requires spelled { All IsSpelled tokens.now }
    requires left { left ≤ MOST_LINE_BYTES }
    ensures { FindsBound result (formal_in own.now left tokens.now) }
{
    match tokens {
        [Lexeme::Name(x), rest @ ..] => formal_name(own, x, rest),
        [Lexeme::Sign(Sign::Open), rest @ ..] => round_formal(alloc, own, rest, left),
        _ => Err(FormulaFault::BadCommand),
    }
}

/// The formal in front of the tokens, whose names are own, where so many brackets may open, and the tokens behind it.
/// BadCommand exactly where none is spelled there, and never TooMany. A line never has more brackets than `MOST_LINE_BYTES`.
///
/// ```text
/// formal = name | ( formal , formal , .. )
/// ```
pub fn formal_in_front<'a>(
    alloc: Global,
    own: &Names,
    tokens: &'a [Lexeme],
    left: u32,
) -> Result<BoundFront<'a>, FormulaFault>
    requires spelled { All IsSpelled tokens.now }
    requires left { left ≤ MOST_LINE_BYTES }
    ensures { BindsOnly (IsFormalFront own.now left tokens.now) result }
{
    formal_in(alloc, own, tokens, left)
}
