//! Characters: the space, words, and letters in one case.
ghost use Rattle.std.specs.Prelude.{◌≡◌, ◌≤◌, length};
ghost use Rattle.std.specs.List.{position, position_or_len};
ghost use Rattle.abc_predef.specs.Texts.{in_case, is_space};

/// The code of a space.
pub(crate) const SPACE: u8 = b' ';

/// Capitals or small letters.
#[derive(Clone, Copy)]
pub(crate) enum Case {
    Capital,
    Small,
}

/// The letter in this case; any other character as it is.
pub(crate) fn letter_in(case: Case, code: u8) -> u8
    ensures { result ≡ in_case case code }
{
    match case {
        Case::Capital => code.to_ascii_uppercase(),
        Case::Small => code.to_ascii_lowercase(),
    }
}

/// How many characters stand before the first space.
pub(crate) fn word_len(b: &[u8]) -> usize
    ensures length { result ≡ position_or_len is_space b.now }
    ensures within { result ≤ length b.now }
{
    match first_space(b) {
        Some(place) => place,
        None => b.len(),
    }
}

fn first_space(b: &[u8]) -> Option<usize>
    ensures { result ≡ position is_space b.now }
{
    b.iter().position(|code| *code == SPACE)
}
