//! What the definitions of tokens and shapes mean together: each line has one list of tokens or one fault, and one shape,
//! all of which can be computed; tokens stand within their line and have bytes of their kind; texts are as long as
//! possible, as other tokens are, and what a conversion holds has tokens by itself.
ghost use Rattle.std.specs.Prelude.{◌≡◌, ◌↔◌, ◌-◌, ◌∷◌, ◌++◌, ℕ, List, Some, Ok, Err, length, true, false, All};
ghost use Rattle.abc_tokens.specs.Bytes.{is_small, is_capital, is_quote, backquote};
ghost use Rattle.abc_tokens.specs.Texts.{Closes, Converts, IsLongestText};
ghost use Rattle.abc_tokens.specs.declared.kinds.Shape.{Shape};
ghost use Rattle.abc_tokens.specs.declared.kinds.Token.{Token};
ghost use Rattle.abc_tokens.specs.declared.kinds.TokenFault.{TokenFault};
ghost use Rattle.abc_tokens.specs.declared.kinds.TokenFault.TheVariants.{Memory};
ghost use Rattle.abc_tokens.specs.Kinds.{IsSpelledSo, is_name, is_keyword};
ghost use Rattle.abc_tokens.specs.ReadLine.{read_line};
ghost use Rattle.abc_tokens.specs.Scanned.{scanned};
ghost use Rattle.abc_tokens.specs.Shape.{IsPlaced, IsShape, shape_by, shape_of, is_first_by, is_first, text_of};
ghost use Rattle.abc_tokens.specs.Tokens.{AreTokens, HasFault, HasTokens, IsBadNumber, IsSound};
ghost use Rattle.abc_tokens.specs.Values.{has_value};
ghost use Rattle.abc_tokens.specs.Words.{IsWord};

/// The tokens of a line are those that are computed for it.
pub fn one_reading()
    ensures { (line : List ℕ) (ts : List Token) (ns : List (List ℕ)) → HasTokens line ts ns ↔ (scanned false (length line) line 0 ≡ Some (ts, ns)) }
{}

/// A line has these tokens, or this fault, exactly where reading it computes so. Want of memory is no fault of a line.
pub fn computed_tokens()
    ensures tokens { (line : List ℕ) (ts : List Token) → AreTokens line ts ↔ (read_line line ≡ Ok ts) }
    ensures fault { (line : List ℕ) (fault : TokenFault) → ¬ (fault ≡ Memory) → HasFault line fault ↔ (read_line line ≡ Err fault) }
    ensures no_other { (line : List ℕ) → ¬ (read_line line ≡ Err Memory) }
{}

/// A number token has a value, or its value is no number, exactly where it is computed so.
pub fn computed_values()
    ensures sound { (n : List ℕ) → IsSound n ↔ (has_value n ≡ true) }
    ensures bad { (n : List ℕ) → IsBadNumber n ↔ (has_value n ≡ false) }
{}

/// The tokens of a line stand within it, and numbers among them are spelled as numbers.
pub fn placed_tokens()
    ensures { (line : List ℕ) (ts : List Token) → AreTokens line ts → All (IsPlaced line) ts }
{}

/// The tokens of a line have bytes of their kinds, and these are characters.
pub fn spelled_tokens()
    ensures { (line : List ℕ) (ts : List Token) → AreTokens line ts → All (IsSpelledSo line) ts }
{}

/// Bytes are a name, or a keyword, exactly where it is computed so.
pub fn computed_words()
    ensures name { (bytes : List ℕ) → IsWord is_small bytes ↔ (is_name bytes ≡ true) }
    ensures keyword { (bytes : List ℕ) → IsWord is_capital bytes ↔ (is_keyword bytes ≡ true) }
{}

/// The shape of a line by its tokens is the one that is computed for it.
pub fn one_shape()
    ensures there { (line : List ℕ) → IsShape line (shape_of line) }
    ensures only { (line : List ℕ) (s : Shape) → IsShape line s → s ≡ shape_of line }
{}

/// The shape of a line whose text has tokens without a fault is by these tokens, and so is what it begins with.
pub fn shape_by_tokens()
    ensures shape { (line : List ℕ) (ts : List Token) → AreTokens (text_of line) ts → shape_of line ≡ shape_by line ts }
    ensures first { (line word : List ℕ) (ts : List Token) → AreTokens (text_of line) ts → is_first line word ≡ is_first_by line ts word }
{}

/// A text, which ends at its quote where that isn't written twice, is the longest that is spelled where it begins.
pub fn longest_text()
    ensures { (q : ℕ) (bytes rest : List ℕ) (ns : List (List ℕ)) → is_quote q ≡ true → Closes q bytes rest ns
        → IsLongestText (length (q ∷ bytes) - length rest) (q ∷ bytes) }
{}

/// What stands in a conversion has tokens by itself, with the same numbers among them.
pub fn conversion_tokens()
    ensures { (bytes rest : List ℕ) (ns : List (List ℕ)) → Converts bytes rest ns
        → (inner : List ℕ) × (ts : List Token) × (bytes ≡ inner ++ backquote ∷ rest) × HasTokens inner ts ns }
{}
