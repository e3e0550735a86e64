//! The search for one byte.
ghost use Rattle.std.specs.Prelude.{◌≡◌, ◌≢◌, ◌<◌, ◌≤◌, ℕ, length, slice_index};

use memchr::memchr;

/// The first place of the byte, or the length where it stands nowhere.
pub(crate) fn place_of(byte: u8, bytes: &[u8]) -> usize
    ensures within { result ≤ length bytes.now }
    ensures before { (k : ℕ) → k < result → slice_index bytes.now k ≢ byte }
    ensures found { result < length bytes.now → slice_index bytes.now result ≡ byte }
{
    memchr(byte, bytes).unwrap_or(bytes.len())
}
