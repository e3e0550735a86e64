//! Worked inputs, as the definition cuts them.
ghost use Rattle.std.specs.Prelude.{◌≡◌, ℕ, List, [], ◌∷◌, ◌++◌, ◌+◌, true, false, length, map};
ghost use Rattle.abc_num.specs.Lines.{raw_line, raw_lines};
ghost use Rattle.abc_num.specs.declared.limits.TheConstants.{MOST_LINE_BYTES};
ghost use Rattle.abc_num.specs.declared.lines.RawLine.{RawLine};

/// `a` is 97, LF 10 and CR 13.
fn inputs_are_cut()
    ensures two_lines { map (λ line. line.bytes) (raw_lines true (97 ∷ 10 ∷ 98 ∷ [])) ≡ (97 ∷ []) ∷ (98 ∷ []) ∷ [] }
    ensures no_line_yet { map (λ line. line.bytes) (raw_lines false (97 ∷ 10 ∷ 98 ∷ [])) ≡ (97 ∷ []) ∷ [] }
    ensures empty_lines { map (λ line. line.bytes) (raw_lines true (10 ∷ 13 ∷ 10 ∷ [])) ≡ [] ∷ [] ∷ [] }
    ensures cr_before_lf { map (λ line. line.bytes) (raw_lines true (97 ∷ 13 ∷ 13 ∷ 10 ∷ [])) ≡ (97 ∷ 13 ∷ []) ∷ [] }
    ensures cr_before_end { map (λ line. line.bytes) (raw_lines true (13 ∷ 97 ∷ 13 ∷ [])) ≡ (13 ∷ 97 ∷ []) ∷ [] }
    ensures cr_alone { map (λ line. line.bytes) (raw_lines true (13 ∷ [])) ≡ [] ∷ [] }
    ensures nothing { raw_lines true [] ≡ [] }
    ensures full { (line : List ℕ) → length line ≡ MOST_LINE_BYTES → raw_line (line ++ 13 ∷ []) ≡ record { bytes = line; long = false } }
    ensures long { (line : List ℕ) → length line ≡ MOST_LINE_BYTES + 1 → (raw_line (line ++ 13 ∷ [])).long ≡ true }
{}
