//! Whether bytes are the text of a line.
ghost use Rattle.std.specs.Prelude.{◌≡◌};
ghost use Rattle.abc_record.specs.KeptTests.{is_flush, is_kept_line};

use crate::bytes::are_characters;
use abc_num::limits::MOST_LINE_BYTES;

/// Whether a line may have this text: characters for which it has room, without a space in front. Takes time proportional to its
/// length.
pub fn is_kept_line(text: &[u8]) -> bool
    ensures { result ≡ is_kept_line text.now }
{
    are_characters(text) && text.len() <= MOST_LINE_BYTES && is_flush(text)
}

fn is_flush(text: &[u8]) -> bool
    ensures { result ≡ is_flush text.now }
{
    text.first().is_none_or(|b| *b != b' ')
}
