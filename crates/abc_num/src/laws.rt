//! Laws of the definitions, for the crates above.
ghost use Rattle.std.specs.Prelude.{◌≡◌, ◌≢◌, ◌≤◌, ◌↔◌, ℕ, ℤ, pos, List, Result, IsTrue, length};
ghost use Rattle.std.specs.List.{AllByRecursion};
ghost use Rattle.abc_num.specs.declared.number.NumFault.{NumFault};
ghost use Rattle.abc_num.specs.declared.types.Ground.{Ground};
ghost use Rattle.abc_num.specs.declared.types.Ground.TheVariants as type;
ghost use Rattle.abc_num.specs.Characters.{IsCharacter, AreCharacters, is_character, are_characters};
ghost use Rattle.abc_num.specs.Number.{Fraction};
ghost use Rattle.abc_num.specs.Ratio.{IsRatio, ratio};
ghost use Rattle.abc_num.specs.Types.{IsProper};

/// The tests of characters tell which codes are characters.
pub fn characters_are_tested()
    ensures one { (c : ℕ) → IsCharacter c ↔ IsTrue (is_character c) }
    ensures all { (b : List ℕ) → AreCharacters b ↔ IsTrue (are_characters b) }
{}

/// The number a / b that is computed, or Overflow, is the one answer for a / b.
pub fn ratios_are_computed()
    ensures { (a b : ℤ) (r : Result Fraction NumFault) → b ≢ pos 0 → IsRatio a b r ↔ (r ≡ ratio a b) }
{}

/// Which types are proper.
pub fn proper_types()
    ensures number { IsProper type.Number }
    ensures text { IsProper type.Text }
    ensures compound { (fields : List Ground) → IsProper (type.Compound fields) ↔ ((2 ≤ length fields) × AllByRecursion IsProper fields) }
    ensures list { (element : Ground) → IsProper (type.List element) ↔ IsProper element }
    ensures table { (key associate : Ground) → IsProper (type.Table key associate) ↔ (IsProper key × IsProper associate) }
{}
