//! The calls for expressions.
ghost use Rattle.std.specs.Prelude.{◌≡◌, ◌≤◌, ◌<◌, ℕ, [], Err, IfOk, All, map};
ghost use Rattle.abc_num.specs.declared.limits.TheConstants.{MOST_BRACKETS, MOST_TREE_HEIGHT};
ghost use Rattle.abc_tree.specs.Height.{height};
ghost use Rattle.abc_tree.specs.declared.formulas.Expr.{Expr};
ghost use Rattle.abc_expressions.specs.Grammar.{Spells, Spelled};
ghost use Rattle.abc_expressions.specs.Lexemes.{seen, ArePart, IsSpelled};
ghost use Rattle.abc_expressions.specs.Readings.{expression_of, single_of, Answers};
ghost use Rattle.abc_expressions.specs.inner.Machine.{alone, reader, tree_of};
ghost use Rattle.abc_expressions.specs.inner.Steps.{group_opens};

use crate::FormulaFault;
use crate::frames::Group;
use crate::height::is_higher;
use crate::lexemes::{Lexeme, lexemes_of};
use crate::tree::read_tree;
use abc_num::limits::{MOST_BRACKETS, MOST_TREE_HEIGHT};
use abc_num::{Items, Names};
use abc_tokens::{Token, one_reading};
use abc_tree::Expr;
use std::alloc::Global;

/// The tree of all the tokens, one expression or several by the group.
fn tree_of_all(
    alloc: Global,
    own: &Names,
    tokens: &[Lexeme],
    whole: Group,
) -> Result<Expr, FormulaFault>
    requires spelled { All IsSpelled tokens.now }
    requires whole { group_opens whole ≡ 0 }
    ensures { Answers result (alone (tree_of whole (reader own.now MOST_BRACKETS) own.now MOST_BRACKETS tokens.now)) }
{
    let front = read_tree(alloc, own, tokens, MOST_BRACKETS as u8, 1, whole)?;
    if front.rest.is_empty() {
        Ok(front.tree)
    } else {
        Err(FormulaFault::BadCommand)
    }
}

/// The one expression that these tokens spell, with these own names, however high. Without parentheses they may be several
/// with commas between, which are a compound. BadCommand exactly where they spell none, and never TooMany. It takes time
/// proportional to the length of the tokens.
///
/// ```text
/// C = E1 | E1 , E1 , .. , E1
/// ```
#[tactic(auto, unfolding(crate::specs::Readings::expression_of))]
pub fn whole_expression(alloc: Global, own: &Names, tokens: &[Lexeme]) -> Result<Expr, FormulaFault>
    requires { All IsSpelled tokens.now }
    ensures read { Answers result (expression_of own.now tokens.now) }
    ensures found { IfOk result (λ a. Spelled own.now MOST_BRACKETS a tokens.now []) }
    ensures none { result ≡ Err FormulaFault.BadCommand → (a : Expr) → ¬ Spelled own.now MOST_BRACKETS a tokens.now [] }
    ensures low { ¬ (result ≡ Err FormulaFault.TooMany) }
{
    one_reading();
    tree_of_all(alloc, own, tokens, Group::Whole(Items::new(alloc)))
}

/// The single expression that these tokens spell, with these own names, however high. BadCommand exactly where they spell
/// none, and never TooMany.
///
/// ```text
/// E1
/// ```
#[tactic(auto, unfolding(crate::specs::Readings::single_of))]
pub fn single_expression(
    alloc: Global,
    own: &Names,
    tokens: &[Lexeme],
) -> Result<Expr, FormulaFault>
    requires { All IsSpelled tokens.now }
    ensures read { Answers result (single_of own.now tokens.now) }
    ensures found { IfOk result (λ a. Spells own.now MOST_BRACKETS 1 a tokens.now []) }
    ensures none { result ≡ Err FormulaFault.BadCommand → (a : Expr) → ¬ Spells own.now MOST_BRACKETS 1 a tokens.now [] }
    ensures low { ¬ (result ≡ Err FormulaFault.TooMany) }
{
    one_reading();
    tree_of_all(alloc, own, tokens, Group::Single)
}

/// The one expression that these tokens of the line spell, with these own names. Without parentheses they may be several
/// with commas between, which are a compound. BadCommand exactly where they spell none, TooMany exactly where the tree is
/// higher than `MOST_TREE_HEIGHT`.
pub fn expression(
    alloc: Global,
    toks: &[Token],
    line: &[u8],
    own: &Names,
) -> Result<Expr, FormulaFault>
    requires { ArePart line.now toks.now }
    ensures found { IfOk result (λ a. Spelled own.now MOST_BRACKETS a (map (seen line.now) toks.now) [] × (height a ≤ MOST_TREE_HEIGHT)) }
    ensures none { result ≡ Err FormulaFault.BadCommand → (a : Expr) → ¬ Spelled own.now MOST_BRACKETS a (map (seen line.now) toks.now) [] }
    ensures high { result ≡ Err FormulaFault.TooMany → (a : Expr) × Spelled own.now MOST_BRACKETS a (map (seen line.now) toks.now) [] × (MOST_TREE_HEIGHT < height a) }
{
    let lexemes = lexemes_of(alloc, line, toks)?;
    let tree = whole_expression(alloc, own, lexemes.as_slice())?;
    if is_higher(&tree, MOST_TREE_HEIGHT) {
        return Err(FormulaFault::TooMany);
    }
    Ok(tree)
}
