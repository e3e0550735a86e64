//! What the definitions of spellings mean together: no tokens spell two trees, what they spell is what is computed for them,
//! an address is an expression that has the form of one, and a conversion ends where its tokens do.
ghost use Rattle.std.specs.Prelude.{◌≡◌, ◌↔◌, ℕ, List, [], true, Some, length, map};
ghost use Rattle.abc_num.specs.Names.{number_of};
ghost use Rattle.abc_num.specs.declared.limits.TheConstants.{MOST_BRACKETS};
ghost use Rattle.abc_tokens.specs.declared.kinds.Token.{Token};
ghost use Rattle.abc_tree.specs.Regular.{has_regular_parts, is_address, Names};
ghost use Rattle.abc_tree.specs.RegularItems.{addressed_in, address};
ghost use Rattle.abc_tree.specs.declared.formulas.Expr.{Expr};
ghost use Rattle.abc_expressions.specs.Addresses.{SpelledAddress, names_outside};
ghost use Rattle.abc_expressions.specs.Grammar.{Spells, Spelled};
ghost use Rattle.abc_expressions.specs.Lexemes.{seen, ArePart};
ghost use Rattle.abc_expressions.specs.NamesOfTrees.{names_give_values, AreFine};
ghost use Rattle.abc_expressions.specs.Readings.{expression_of, single_of, address_of};
ghost use Rattle.abc_expressions.specs.Texts.{IsConversion, ReadsConversion};
ghost use Rattle.abc_expressions.specs.declared.lexemes.Lexeme.{Lexeme};

use abc_tokens::{computed_words, one_reading, spelled_tokens};

/// No tokens spell two expressions.
pub fn one_expression()
    ensures { (own : List (List ℕ)) (d : ℕ) (ts : List Lexeme) (a b : Expr) → Spelled own d a ts [] → Spelled own d b ts [] → a ≡ b }
{
    one_reading();
}

/// No tokens spell two addresses.
pub fn one_address()
    ensures { (own : List (List ℕ)) (d : ℕ) (ts : List Lexeme) (a b : Expr) → SpelledAddress own d a ts [] → SpelledAddress own d b ts [] → a ≡ b }
{
    one_reading();
}

/// What spells an address spells that expression, and an expression that has the form of an address is spelled as one.
pub fn address_form()
    ensures { (own : List (List ℕ)) (d : ℕ) (a : Expr) (ts rest : List Lexeme) → SpelledAddress own d a ts rest ↔ (Spelled own d a ts rest × (is_address a ≡ true)) }
{}

/// The expression that tokens spell is the one that is computed for them.
pub fn computed_expression()
    ensures { (own : List (List ℕ)) (ts : List Lexeme) (a : Expr) → Spelled own MOST_BRACKETS a ts [] ↔ (expression_of own ts ≡ Some a) }
{
    one_reading();
}

/// The single expression that tokens spell is the one that is computed for them.
pub fn computed_single()
    ensures { (own : List (List ℕ)) (ts : List Lexeme) (a : Expr) → Spells own MOST_BRACKETS 1 a ts [] ↔ (single_of own ts ≡ Some a) }
{
    one_reading();
}

/// The address that tokens spell is the one that is computed for them.
pub fn computed_address()
    ensures { (own : List (List ℕ)) (ts : List Lexeme) (a : Expr) → SpelledAddress own MOST_BRACKETS a ts [] ↔ (address_of own ts ≡ Some a) }
{
    one_reading();
}

/// A conversion ends at the first backquote before which there are tokens without a fault and without a comment, and that is
/// where its tokens, read from the front, end.
pub fn conversion_end()
    ensures { (bytes inner rest : List ℕ) → IsConversion bytes inner rest ↔ ReadsConversion bytes inner rest }
{
    one_reading();
}

/// The names of an address outside keys are the name tokens that stand outside `[ ]`, in the order of the line.
pub fn address_numbers()
    ensures { (own : List (List ℕ)) (d : ℕ) (ts : List Lexeme) (a : Expr) → SpelledAddress own d a ts [] → map (number_of own) (names_outside [] ts) ≡ map (λ i. Some i) (addressed_in (address a)) }
{}

/// The tokens of a line without a fault are fine: a name among them is one, and a text has characters alone.
pub fn fine_tokens()
    ensures { (line : List ℕ) (ts : List Token) → ArePart line ts → AreFine (map (seen line) ts) }
{
    spelled_tokens();
    computed_words();
}

/// An expression that fine tokens spell, a single one too, is regular, whatever its height, where no name of it is a
/// refinement of another kind than expressions.
pub fn spelled_regular()
    ensures all { (own : List (List ℕ)) (names : Names) → names.count ≡ length own
        → (d : ℕ) (a : Expr) (ts : List Lexeme) → AreFine ts → Spelled own d a ts [] → names_give_values names a ≡ true → has_regular_parts names a ≡ true }
    ensures single { (own : List (List ℕ)) (names : Names) → names.count ≡ length own
        → (d : ℕ) (a : Expr) (ts rest : List Lexeme) → AreFine ts → Spells own d 1 a ts rest → names_give_values names a ≡ true → has_regular_parts names a ≡ true }
{
    spelled_tokens();
    computed_words();
}
