//! The calls for tests.
ghost use Rattle.std.specs.Prelude.{◌≡◌, ◌≤◌, ◌<◌, ℕ, [], All, Err, IfOk, map};
ghost use Rattle.abc_num.specs.declared.limits.TheConstants.{MOST_BRACKETS, MOST_TREE_HEIGHT};
ghost use Rattle.abc_tree.specs.Height.{test_height};
ghost use Rattle.abc_tree.specs.declared.formulas.Test.{Test};
ghost use Rattle.abc_expressions.specs.Lexemes.{seen, ArePart, IsSpelled};
ghost use Rattle.abc_expressions.specs.Readings.{Answers};
ghost use Rattle.abc_formula.specs.TestGrammar.{Tests};
ghost use Rattle.abc_formula.specs.TestReadings.{test_of};
ghost use Rattle.abc_formula.specs.declared.test_frames.Place.TheVariants.{Whole};

use crate::test_height::is_test_higher;
use crate::testing::test_in_front;
use abc_expressions::{FormulaFault, Lexeme, lexemes_of};
use abc_num::Names;
use abc_num::limits::{MOST_BRACKETS, MOST_TREE_HEIGHT};
use abc_tokens::{Token, one_reading};
use abc_tree::Test;
use std::alloc::Global;

/// The test of all the tokens.
#[tactic(auto, unfolding(crate::specs::TestReadings::test_of))]
fn test_of_all(alloc: Global, own: &Names, tokens: &[Lexeme]) -> Result<Test, FormulaFault>
    requires { All IsSpelled tokens.now }
    ensures { Answers result (test_of own.now tokens.now) }
{
    let front = test_in_front(alloc, own, tokens, MOST_BRACKETS as u8)?;
    if front.rest.is_empty() {
        Ok(front.test)
    } else {
        Err(FormulaFault::BadCommand)
    }
}

/// The one test that these tokens spell, with these own names, however high. BadCommand exactly where they spell none, and
/// never TooMany.
///
/// ```text
/// test = right | tight AND conj | tight OR disj
/// ```
pub fn whole_test(alloc: Global, own: &Names, tokens: &[Lexeme]) -> Result<Test, FormulaFault>
    requires { All IsSpelled tokens.now }
    ensures read { Answers result (test_of own.now tokens.now) }
    ensures found { IfOk result (λ a. Tests own.now MOST_BRACKETS Whole a tokens.now []) }
    ensures none { result ≡ Err FormulaFault.BadCommand → (a : Test) → ¬ Tests own.now MOST_BRACKETS Whole a tokens.now [] }
    ensures low { ¬ (result ≡ Err FormulaFault.TooMany) }
{
    one_reading();
    test_of_all(alloc, own, tokens)
}

/// The one test that these tokens of the line spell, with these own names. BadCommand exactly where they spell none, TooMany
/// exactly where the test is higher than `MOST_TREE_HEIGHT`.
pub fn test(alloc: Global, toks: &[Token], line: &[u8], own: &Names) -> Result<Test, FormulaFault>
    requires { ArePart line.now toks.now }
    ensures found { IfOk result (λ a. Tests own.now MOST_BRACKETS Whole a (map (seen line.now) toks.now) [] × (test_height a ≤ MOST_TREE_HEIGHT)) }
    ensures none { result ≡ Err FormulaFault.BadCommand → (a : Test) → ¬ Tests own.now MOST_BRACKETS Whole a (map (seen line.now) toks.now) [] }
    ensures high { result ≡ Err FormulaFault.TooMany → (a : Test) × Tests own.now MOST_BRACKETS Whole a (map (seen line.now) toks.now) [] × (MOST_TREE_HEIGHT < test_height a) }
{
    let lexemes = lexemes_of(alloc, line, toks)?;
    let tree = whole_test(alloc, own, lexemes.as_slice())?;
    if is_test_higher(&tree, MOST_TREE_HEIGHT) {
        return Err(FormulaFault::TooMany);
    }
    Ok(tree)
}
