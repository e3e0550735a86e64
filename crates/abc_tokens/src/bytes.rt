//! The bytes that tokens are made of.
ghost use Rattle.std.specs.Prelude.{◌≡◌};
ghost use Rattle.abc_tokens.specs.Bytes.{is_small, is_capital, is_digit, is_quote};
ghost use Rattle.abc_tokens.specs.Tokens.{has_characters};

use abc_num::limits::{FIRST_CHARACTER, LAST_CHARACTER};

pub(crate) fn is_small(b: u8) -> bool
    ensures { result ≡ is_small b }
{
    b'a' <= b && b <= b'z'
}

pub(crate) fn is_capital(b: u8) -> bool
    ensures { result ≡ is_capital b }
{
    b'A' <= b && b <= b'Z'
}

pub(crate) fn is_digit(b: u8) -> bool
    ensures { result ≡ is_digit b }
{
    b'0' <= b && b <= b'9'
}

pub(crate) fn is_quote(b: u8) -> bool
    ensures { result ≡ is_quote b }
{
    b == b'"' || b == b'\''
}

/// Whether each byte of the line is a character.
pub(crate) fn has_characters(line: &[u8]) -> bool
    ensures { result ≡ has_characters line.now }
{
    line.iter()
        .all(|b| FIRST_CHARACTER <= *b && *b <= LAST_CHARACTER)
}
