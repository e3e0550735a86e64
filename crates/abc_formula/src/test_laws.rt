//! What holds of all tests.
ghost use Rattle.std.specs.Prelude.{◌≡◌, ◌↔◌, ◌≤◌, ℕ, List, [], Some, true, false, length, map};
ghost use Rattle.abc_num.specs.declared.limits.TheConstants.{MOST_BRACKETS, MOST_TREE_HEIGHT};
ghost use Rattle.abc_tree.specs.Height.{test_height};
ghost use Rattle.abc_tree.specs.Lists.{flat};
ghost use Rattle.abc_tree.specs.Regular.{Names, is_regular_bound, is_regular_test};
ghost use Rattle.abc_tree.specs.RegularItems.{bound_names};
ghost use Rattle.abc_tree.specs.declared.formulas.Bound.{Bound};
ghost use Rattle.abc_tree.specs.declared.formulas.Expr.{Expr};
ghost use Rattle.abc_tree.specs.declared.formulas.Expr.TheVariants as e;
ghost use Rattle.abc_tree.specs.declared.formulas.Test.{Test};
ghost use Rattle.abc_tree.specs.declared.templates.Template.{Template};
ghost use Rattle.abc_expressions.specs.declared.lexemes.Lexeme.{Lexeme};
ghost use Rattle.abc_formula.specs.declared.test_frames.Place.{Place};
ghost use Rattle.abc_formula.specs.declared.test_frames.Place.TheVariants as place;
ghost use Rattle.abc_expressions.specs.Grammar.{Spells};
ghost use Rattle.abc_expressions.specs.NamesOfTrees.{AreFine};
ghost use Rattle.abc_formula.specs.BoundFronts.{AreNumbered};
ghost use Rattle.abc_formula.specs.PredicateForms.{IsCall};
ghost use Rattle.abc_formula.specs.RegularTests.{has_regular_test_parts, names_fit};
ghost use Rattle.abc_formula.specs.TestGrammar.{ends_part, gathered, is_round, Binds, Tests};
ghost use Rattle.abc_formula.specs.TestReadings.{test_of};

use abc_tokens::{computed_words, one_reading, spelled_tokens};

/// A list of tokens and a set of own names have at most one test.
pub fn one_test()
    ensures { (own : List (List ℕ)) (d : ℕ) (a c : Test) (ts : List Lexeme) → Tests own d place.Whole a ts [] → Tests own d place.Whole c ts [] → a ≡ c }
{
    one_reading();
}

/// The test that tokens spell is the one that is computed for them.
pub fn computed_test()
    ensures { (own : List (List ℕ)) (ts : List Lexeme) (a : Test) → Tests own MOST_BRACKETS place.Whole a ts [] ↔ (test_of own ts ≡ Some a) }
{
    one_reading();
}

/// The names that are bound are the name tokens in front of what ends them, in the order of the line, and no IN is among
/// these tokens.
pub fn bound_numbers()
    ensures { (own : List (List ℕ)) (fewest d : ℕ) (names : List Bound) (ts rest : List Lexeme) → Binds own fewest d names ts rest
        → (front : List Lexeme) × AreNumbered own (flat (map bound_names names)) ts front rest }
{}

/// A lone call of a predicate, which is no test in parentheses and behind which its part of a test ends, has one of the three
/// forms.
pub fn predicate_forms()
    ensures { (own : List (List ℕ)) (d : ℕ) (f : Template) (actuals : List Expr) (ts rest : List Lexeme) → is_round ts ≡ false → ends_part rest ≡ true
        → Spells own d 1 (e.Call f actuals) ts rest → IsCall own d f actuals ts rest }
{}

/// A test that fine tokens spell is regular, whatever its height, where its names fit, and so are names that are bound: each
/// is one of the names, and two or more stand in a bracket.
pub fn spelled_tests()
    ensures parts { (own : List (List ℕ)) (names : Names) → names.count ≡ length own → (d : ℕ) (p : Place) (a : Test) (ts rest : List Lexeme) → AreFine ts
        → Tests own d p a ts rest → names_fit names a ≡ true → has_regular_test_parts names a ≡ true }
    ensures low { (own : List (List ℕ)) (names : Names) → names.count ≡ length own → (d : ℕ) (a : Test) (ts : List Lexeme) → AreFine ts
        → Tests own d place.Whole a ts [] → names_fit names a ≡ true → test_height a ≤ MOST_TREE_HEIGHT → is_regular_test names a ≡ true }
    ensures bound { (own : List (List ℕ)) (names : Names) → names.count ≡ length own → (fewest d : ℕ) (several : List Bound) (ts rest : List Lexeme)
        → Binds own fewest d several ts rest → is_regular_bound names (gathered several) ≡ true }
{
    spelled_tokens();
    computed_words();
}
