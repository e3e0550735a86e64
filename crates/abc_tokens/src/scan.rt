//! The tokens of a line.
ghost use Rattle.std.specs.Prelude.{◌≡◌, ◌≢◌, ◌↔◌, ◌<◌, ◌≤◌, length, false, IfOk, IfErr, IfSome, IfNone, Err, Some, [], slice_index, Bool, true};
ghost use Rattle.abc_tokens.specs.Bytes.{is_quote, space, backslash};
ghost use Rattle.abc_tokens.specs.inner.Reads.{found_from, IsStart, IsReadAt, IsOpenAt, IsScan, ScanFault};
ghost use Rattle.abc_tokens.specs.Tokens.{AreTokens, HasFault, has_characters};

use crate::bytes::{has_characters, is_quote};
use crate::texts::text_end;
use crate::words::{is_sound, word_in_front};
use crate::{Token, TokenFault, TokenKind};
use std::alloc::Global;

/// The tokens of a line, each as long as possible. The line is what follows its indentation, or a whole line.
///
/// ```text
/// line = { space | token } [\ comment]
/// ```
pub fn tokens(alloc: Global, line: &[u8]) -> Result<Vec<Token>, TokenFault>
    ensures found { IfOk result (λ ts. AreTokens line.now ts.items) }
    ensures fault { IfErr result (HasFault line.now) }
    ensures bad_byte { (result ≡ Err TokenFault.BadByte) ↔ (has_characters line.now ≡ false) }
{
    if !has_characters(line) {
        return Err(TokenFault::BadByte);
    }
    let mut marks = vec![in alloc; 0u8; line.len()]?;
    let scan = read_all(alloc, line, &mut marks)?;
    if scan.sound {
        Ok(scan.tokens)
    } else {
        Err(TokenFault::BadNumber)
    }
}

/// The tokens of a line whatever the values of its numbers.
#[derive(Drop)]
struct Scan {
    tokens: Vec<Token>,
    /// Each number has a value, those in conversions too.
    sound: bool,
}

/// Reads the line to its end, or to a text that isn't closed. `marks` has room for the quotes of all open texts.
fn read_all(alloc: Global, line: &[u8], marks: &mut [u8]) -> Result<Scan, TokenFault>
    requires { length line.now ≤ length marks.old }
    ensures found { IfOk result (λ scan. IsScan line.now scan.tokens.items scan.sound) }
    ensures fault { IfErr result (ScanFault line.now) }
{
    let mut tokens = Vec::new(alloc);
    let mut sound = true;
    let mut at = 0;
    while let Some(start) = token_start(line, at) {
        let Some(read) = token_at(line, start, marks) else {
            return Err(TokenFault::OpenText);
        };
        tokens.push(read.token)?;
        sound &= read.sound;
        at = read.token.end;
    }
    Ok(Scan { tokens, sound })
}

/// A token, and whether each number in it has a value.
#[derive(Clone, Copy)]
pub(crate) struct Read {
    pub(crate) token: Token,
    pub(crate) sound: bool,
}

/// Where the next token begins, if one does before the end and before a comment.
pub(crate) fn token_start(line: &[u8], at: usize) -> Option<usize>
    requires { at ≤ length line.now }
    ensures some { IfSome result (IsStart line.now at) }
    ensures none { IfNone result ((loose : Bool) → found_from loose line.now at ≡ Some ([], [])) }
{
    let mut start = at;
    while start < line.len() {
        if line[start] == b'\\' {
            return None;
        }
        if line[start] != b' ' {
            return Some(start);
        }
        start += 1;
    }
    None
}

/// The token that begins at this place; none where it is a text that isn't closed.
pub(crate) fn token_at(line: &[u8], start: usize, marks: &mut [u8]) -> Option<Read>
    requires starts { start < length line.now }
    requires room { length line.now ≤ length marks.old }
    requires no_space { slice_index line.now start ≢ space }
    requires no_comment { slice_index line.now start ≢ backslash }
    ensures some { IfSome result (IsReadAt line.now start) }
    ensures none { IfNone result (IsOpenAt line.now start) }
{
    if is_quote(line[start]) {
        return text_at(line, start, marks);
    }
    Some(word_at(line, start))
}

/// The text that begins at this place, if it is closed.
fn text_at(line: &[u8], start: usize, marks: &mut [u8]) -> Option<Read>
    requires starts { start < length line.now }
    requires room { length line.now ≤ length marks.old }
    requires no_space { slice_index line.now start ≢ space }
    requires no_comment { slice_index line.now start ≢ backslash }
    requires quote { is_quote (slice_index line.now start) ≡ true }
    ensures some { IfSome result (IsReadAt line.now start) }
    ensures none { IfNone result (IsOpenAt line.now start) }
{
    let Some(text) = text_end(line, start, marks) else {
        return None;
    };
    Some(Read {
        token: Token {
            kind: TokenKind::Text,
            start,
            end: text.end,
        },
        sound: text.sound,
    })
}

/// The word that begins at this place, or the byte that begins none.
fn word_at(line: &[u8], start: usize) -> Read
    requires starts { start < length line.now }
    requires no_space { slice_index line.now start ≢ space }
    requires no_comment { slice_index line.now start ≢ backslash }
    requires no_quote { is_quote (slice_index line.now start) ≡ false }
    ensures { IsReadAt line.now start result }
{
    let bytes = &line[start..];
    match word_in_front(bytes) {
        Some(word) => Read {
            token: Token {
                kind: word.kind,
                start,
                end: start + word.length,
            },
            sound: is_sound(bytes, word),
        },
        None => Read {
            token: Token {
                kind: TokenKind::Other,
                start,
                end: start + 1,
            },
            sound: true,
        },
    }
}
