//! Where a conversion ends, its tokens read from the front.
ghost use Rattle.std.specs.Prelude.{◌≡◌, ◌≢◌, ◌≤◌, ◌<◌, ◌&&◌, ℕ, true, false, length, take, IfSome, IfNone, Some, None, if◌then◌else◌, slice_index};
ghost use Rattle.abc_tokens.specs.Bytes.{is_quote, space, backslash, backquote};
ghost use Rattle.abc_tokens.specs.ConversionEnds.{EndsAt};
ghost use Rattle.abc_tokens.specs.Tokens.{has_characters};
ghost use Rattle.abc_tokens.specs.inner.ConversionSteps.{IsFront};

use crate::bytes::{has_characters, is_quote};
use crate::texts::text_end;
use crate::words::{is_sound, word_in_front};

/// What stands first in the rest of a conversion.
#[derive(Clone, Copy)]
enum Front {
    /// The backquote that ends it.
    End,
    /// A space, a word, a text or another byte: how many bytes it has, and whether each number in it has a value.
    Over(usize, bool),
}

/// Where the conversion ends with which the bytes begin: the place of the backquote to which its tokens reach. None where they
/// reach none, where a byte before it is no character, or where a number before it has no value. Each byte is read a few times,
/// and no memory is taken: `marks` has room for the quotes of all open texts.
///
/// ```text
/// conversion = ` { space | token } `      its first backquote stands before the bytes
/// ```
pub fn conversion_end(bytes: &[u8], marks: &mut [u8]) -> Option<usize>
    requires { length bytes.now ≤ length marks.old }
    ensures some { IfSome result (EndsAt bytes.now) }
    ensures none { IfNone result ((n : ℕ) → EndsAt bytes.now n → ⊥) }
{
    let mut at = 0;
    let mut sound = true;
    while at < bytes.len() {
        match front_of(&bytes[at..], marks) {
            None => return None,
            Some(Front::End) => return end_if_fine(bytes, at, sound),
            Some(Front::Over(length, here)) => {
                at += length;
                sound &= here;
            }
        }
    }
    None
}

/// This place, where the bytes before it are characters and the numbers among them have values.
fn end_if_fine(bytes: &[u8], at: usize, sound: bool) -> Option<usize>
    requires { at ≤ length bytes.now }
    ensures { result ≡ (if sound && has_characters (take at bytes.now) then Some at else None) }
{
    if !sound {
        return None;
    }
    if !has_characters(&bytes[..at]) {
        return None;
    }
    Some(at)
}

/// What stands first; nothing where a comment begins, or a text that isn't closed.
fn front_of(bytes: &[u8], marks: &mut [u8]) -> Option<Front>
    requires some { 0 < length bytes.now }
    requires room { length bytes.now ≤ length marks.old }
    ensures { IsFront bytes.now result }
{
    let b = bytes[0];
    if b == b' ' {
        return Some(Front::Over(1, true));
    }
    if b == b'\\' {
        return None;
    }
    if b == b'`' {
        return Some(Front::End);
    }
    if is_quote(b) {
        return text_front(bytes, marks);
    }
    Some(word_front(bytes))
}

fn text_front(bytes: &[u8], marks: &mut [u8]) -> Option<Front>
    requires some { 0 < length bytes.now }
    requires room { length bytes.now ≤ length marks.old }
    requires quote { is_quote (slice_index bytes.now 0) ≡ true }
    ensures { IsFront bytes.now result }
{
    match text_end(bytes, 0, marks) {
        Some(text) => Some(Front::Over(text.end, text.sound)),
        None => None,
    }
}

fn word_front(bytes: &[u8]) -> Front
    requires some { 0 < length bytes.now }
    requires no_space { slice_index bytes.now 0 ≢ space }
    requires no_comment { slice_index bytes.now 0 ≢ backslash }
    requires no_end { slice_index bytes.now 0 ≢ backquote }
    requires no_quote { is_quote (slice_index bytes.now 0) ≡ false }
    ensures { IsFront bytes.now (Some result) }
{
    match word_in_front(bytes) {
        Some(word) => Front::Over(word.length, is_sound(bytes, word)),
        None => Front::Over(1, true),
    }
}
