//! Where a text ends, with the tokens of its conversions.
ghost use Rattle.std.specs.Prelude.{◌≡◌, ◌<◌, ◌≤◌, ◌+◌, ◌&&◌, ◌==◌, ◌^◌, ◌∷◌, ℕ, List, IsTrue, length, drop, true, false, IfSome, IfNone, None};
ghost use Rattle.abc_tokens.specs.Bytes.{is_quote, begins};
ghost use Rattle.abc_tokens.specs.inner.Reading.{step_of, open_quotes, resumed, turned, from_here, IsStep, IsWordStep, IsPlace, GoesOn, IsTextEnd};
ghost use Rattle.abc_tokens.specs.Scanned.{ending, text_ending};

use crate::bytes::is_quote;
use crate::words::{is_sound, word_in_front};

/// Where reading stands in a text.
#[derive(Clone, Copy)]
pub(crate) struct Here {
    pub(crate) at: usize,
    /// How many texts are open, one in a conversion of the other.
    pub(crate) depth: usize,
    /// In the characters of the innermost text, and not in a conversion.
    pub(crate) in_text: bool,
    /// Each number so far has a value.
    pub(crate) sound: bool,
}

/// What a byte does to the place in a text.
#[derive(Clone, Copy)]
pub(crate) enum Turn {
    Stays,
    /// A conversion begins.
    Converts,
    /// A conversion ends.
    Returns,
    /// A text with this quote begins in a conversion.
    Opens(u8),
    /// The innermost text ends.
    Closes,
}

/// A step of reading over some bytes.
#[derive(Clone, Copy)]
pub(crate) struct Step {
    pub(crate) turn: Turn,
    pub(crate) length: usize,
    /// The step is over no number without a value.
    pub(crate) sound: bool,
}

impl Step {
    fn new(turn: Turn, length: usize) -> Step
        ensures { result ≡ step_of turn length }
    {
        Step {
            turn,
            length,
            sound: true,
        }
    }
}

/// The end of a text.
#[derive(Clone, Copy)]
pub(crate) struct TextEnd {
    pub(crate) end: usize,
    /// Each number in its conversions has a value.
    pub(crate) sound: bool,
}

/// The end of the text that begins at this place, if it is closed.
///
/// ```text
/// text       = quote { part } quote      the same quote, not written twice
/// part       = character | quote quote | ` ` | conversion
/// conversion = ` { space | token } `
/// ```
///
/// `marks` has room for the quotes of all open texts.
pub(crate) fn text_end(line: &[u8], start: usize, marks: &mut [u8]) -> Option<TextEnd>
    requires starts { start < length line.now }
    requires room { length line.now ≤ length marks.old }
    ensures some { IfSome result (IsTextEnd line.now start) }
    ensures none { IfNone result (text_ending (drop start line.now) ≡ None) }
{
    marks[0] = line[start];
    let mut here = Here {
        at: start + 1,
        depth: 1,
        in_text: true,
        sound: true,
    };
    while here.at < line.len() {
        let Some(next) = next(line, marks, here) else {
            return None;
        };
        here = next;
        if here.depth == 0 {
            return Some(TextEnd {
                end: here.at,
                sound: here.sound,
            });
        }
    }
    None
}

/// The place after one step, or nothing where a comment takes the rest of the line.
fn next(line: &[u8], marks: &mut [u8], here: Here) -> Option<Here>
    requires place { IsPlace line.now here }
    requires room { length line.now ≤ length marks.old }
    ensures some { IfSome result (GoesOn line.now marks.old marks.new here) }
    ensures none { IfNone result ((ns : List (List ℕ)) → from_here line.now marks.old here ns ≡ None) }
{
    let bytes = &line[here.at..];
    if here.in_text {
        let step = text_step(bytes, marks[here.depth - 1]);
        return Some(turned(marks, here, step));
    }
    let Some(step) = conversion_step(bytes) else {
        return None;
    };
    Some(turned(marks, here, step))
}

/// The place after this step.
fn turned(marks: &mut [u8], here: Here, step: Step) -> Here
    requires room { here.depth < length marks.old }
    requires is_open { 0 < here.depth }
    requires fits { here.at + step.length < 2 ^ 64 }
    ensures at { result.at ≡ here.at + step.length }
    ensures sound { result.sound ≡ (here.sound && step.sound) }
    ensures depth { result.depth ≤ here.depth + 1 }
    ensures same { (bytes : List ℕ) (ns : List (List ℕ)) → turned step.turn bytes here.in_text (open_quotes here.depth marks.old) ns
        ≡ resumed bytes result.in_text (open_quotes result.depth marks.new) ns }
{
    let mut next = Here {
        at: here.at + step.length,
        sound: here.sound && step.sound,
        ..here
    };
    match step.turn {
        Turn::Stays => {}
        Turn::Converts => next.in_text = false,
        Turn::Returns => next.in_text = true,
        Turn::Opens(quote) => {
            marks[here.depth] = quote;
            next.depth += 1;
            next.in_text = true;
        }
        Turn::Closes => {
            next.depth -= 1;
            next.in_text = false;
        }
    }
    next
}

/// The step over the first of these bytes, in the characters of a text.
#[tactic(auto, unfolding(crate::specs::Scanned::ending))]
fn text_step(bytes: &[u8], quote: u8) -> Step
    requires { 0 < length bytes.now }
    ensures { (quotes : List ℕ) → IsStep bytes.now true (quote ∷ quotes) result }
{
    let b = bytes[0];
    if b != quote && b != b'`' {
        return Step::new(Turn::Stays, 1);
    }
    if begins_with(&bytes[1..], b) {
        return Step::new(Turn::Stays, 2);
    }
    if b == quote {
        return Step::new(Turn::Closes, 1);
    }
    Step::new(Turn::Converts, 1)
}

fn begins_with(bytes: &[u8], b: u8) -> bool
    ensures value { result ≡ begins (λ c. c == b) bytes.now }
    ensures some { IsTrue result → 0 < length bytes.now }
{
    bytes.first().is_some_and(|c| *c == b)
}

/// The step over the first of these bytes, in the tokens of a conversion, or nothing where a comment begins.
#[tactic(auto, unfolding(crate::specs::Scanned::ending))]
fn conversion_step(bytes: &[u8]) -> Option<Step>
    requires { 0 < length bytes.now }
    ensures some { IfSome result (λ step. (q : ℕ) (quotes : List ℕ) → IsStep bytes.now false (q ∷ quotes) step) }
    ensures none { IfNone result ((quotes : List ℕ) (ns : List (List ℕ)) → ending bytes.now 0 false quotes ns ≡ None) }
{
    let b = bytes[0];
    match b {
        b' ' => Some(Step::new(Turn::Stays, 1)),
        b'\\' => None,
        b'`' => Some(Step::new(Turn::Returns, 1)),
        _ if is_quote(b) => Some(Step::new(Turn::Opens(b), 1)),
        _ => Some(word_step(bytes)),
    }
}

/// The step over a word, or over a byte that begins none.
fn word_step(bytes: &[u8]) -> Step
    requires { 0 < length bytes.now }
    ensures { IsWordStep bytes.now result }
{
    match word_in_front(bytes) {
        Some(word) => Step {
            turn: Turn::Stays,
            length: word.length,
            sound: is_sound(bytes, word),
        },
        None => Step::new(Turn::Stays, 1),
    }
}
