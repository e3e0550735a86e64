//! Numbers and texts at the front of some bytes. None of this takes memory.
ghost use Rattle.std.specs.Prelude.{◌≡◌};
ghost use Rattle.std.specs.Option.{option_map};
ghost use Rattle.abc_num.specs.Characters.{are_characters};
ghost use Rattle.abc_record.specs.inner.Reading.{four_of, eight_of, counted_of, text_of};

use abc_num::limits::{FIRST_CHARACTER, LAST_CHARACTER};

/// 2^64: a number of 128 bits is two of 64.
pub(crate) const HALF: u128 = 1 << 64;

/// The number in the four bytes at the front, and what follows it.
#[tactic(auto, unfolding(crate::specs::inner::Reading::four_of))]
pub(crate) fn four_of(bytes: &[u8]) -> Option<(u32, &[u8])>
    ensures { option_map (λ x. (x.0, x.1.now)) result ≡ four_of bytes.now }
{
    if bytes.len() < 4 {
        return None;
    }
    let (front, rest) = bytes.split_at(4);
    let number = u32::from_be_bytes([front[0], front[1], front[2], front[3]]);
    Some((number, rest))
}

/// The number in the eight bytes at the front, and what follows it.
#[tactic(auto, unfolding(crate::specs::inner::Reading::eight_of))]
pub(crate) fn eight_of(bytes: &[u8]) -> Option<(u64, &[u8])>
    ensures { option_map (λ x. (x.0, x.1.now)) result ≡ eight_of bytes.now }
{
    if bytes.len() < 8 {
        return None;
    }
    let (front, rest) = bytes.split_at(8);
    let number = u64::from_be_bytes([
        front[0], front[1], front[2], front[3], front[4], front[5], front[6], front[7],
    ]);
    Some((number, rest))
}

/// The bytes behind their count, and what follows them.
#[tactic(auto, unfolding(crate::specs::inner::Reading::counted_of))]
pub(crate) fn counted_of(bytes: &[u8]) -> Option<(&[u8], &[u8])>
    ensures { option_map (λ x. (x.0.now, x.1.now)) result ≡ counted_of bytes.now }
{
    let (count, rest) = four_of(bytes)?;
    let count = count as usize;
    if rest.len() < count {
        return None;
    }
    Some(rest.split_at(count))
}

/// The text in front, and what follows it.
#[tactic(auto, unfolding(crate::specs::inner::Reading::text_of))]
pub(crate) fn text_of(bytes: &[u8]) -> Option<(&[u8], &[u8])>
    ensures { option_map (λ x. (x.0.now, x.1.now)) result ≡ text_of bytes.now }
{
    let (text, rest) = counted_of(bytes)?;
    if !are_characters(text) {
        return None;
    }
    Some((text, rest))
}

/// Whether each byte is a character.
pub(crate) fn are_characters(bytes: &[u8]) -> bool
    ensures { result ≡ are_characters bytes.now }
{
    bytes
        .iter()
        .all(|b| FIRST_CHARACTER <= *b && *b <= LAST_CHARACTER)
}
