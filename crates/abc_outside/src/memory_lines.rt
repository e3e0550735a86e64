//! The lines of an input in memory.
ghost use Rattle.std.specs.Prelude.{◌≡◌, ◌≤◌, ◌<◌, ◌^◌, ◌-◌, ◌+◌, ◌∷◌, refl, true, vec_len, length, take, drop, IfOk};
ghost use Rattle.std.proofs.Common.{◌∙◌};
ghost use Rattle.abc_num.specs.Lines.{HasNoLf, line_feed, without_cr, raw_line};

use crate::lines::{LineStop, Lines};
use abc_num::limits::MOST_LINE_BYTES;
use abc_num::{OutOfMemory, RawLine, Text};
use std::alloc::Global;

/// The lines of an input in memory, which tells everything and fails for want of memory alone: for tests.
#[derive(Drop)]
pub struct MemoryLines {
    alloc: Global,
    input: Vec<u8>,
    /// How much of the input the lines have used.
    used: usize,
    ghost within: { used ≤ vec_len input },
}

/// How many bytes stand before the first LF, or all of them.
#[tactic(auto, using(crate::proofs::LineParts::one_more))]
fn line_length(bytes: &[u8]) -> usize
    ensures most { result ≤ length bytes.now }
    ensures no_lf { HasNoLf (take result bytes.now) }
    ensures lf { result < length bytes.now → drop result bytes.now ≡ line_feed ∷ drop (result + 1) bytes.now }
{
    for place in 0..bytes.len() {
        if bytes[place] == b'\n' {
            return place;
        }
    }
    bytes.len()
}

#[tactic(auto, using(crate::proofs::LineParts::dropped, crate::proofs::LineParts::kept, crate::proofs::LineParts::empty))]
fn without_cr(text: &[u8]) -> &[u8]
    ensures { result.now ≡ without_cr text.now }
{
    let Some((last, front)) = text.split_last() else {
        return text;
    };
    if *last == b'\r' { front } else { text }
}

/// The line that stands so in an input.
fn line_of(alloc: Global, text: &[u8]) -> Result<RawLine, OutOfMemory>
    ensures { IfOk result (λ line. line ≡ raw_line text.now) }
{
    let text = without_cr(text);
    let most = text.len().min(MOST_LINE_BYTES);
    Ok(RawLine {
        bytes: Text::of(alloc, &text[..most])?,
        long: text.len() > MOST_LINE_BYTES,
    })
}

impl MemoryLines {
    /// The lines of this input, none of which is used.
    pub fn new(alloc: Global, input: Vec<u8>) -> MemoryLines
        ensures unread { ⟦<MemoryLines as Lines>⟧.unread tt result ≡ record { bytes = input.items; ends = true } }
        ensures taken { ⟦<MemoryLines as Lines>⟧.taken result ≡ 0 }
    {
        MemoryLines {
            alloc,
            input,
            used: 0,
        }
    }
}

impl Lines for MemoryLines {
    ghost Input = { Unit {0} };

    ghost may_be = { λ _ _. Unit {0} };

    ghost unread = { λ _ lines. record { bytes = drop lines.used lines.input.items; ends = true } };

    ghost failed = { λ _ _. ⊥ };

    ghost taken = { λ lines. lines.used };

    ghost bound = { λ _. 2 ^ 64 - 1 };

    ghost faults = { λ _. 0 };

    ghost reads_on = { λ _ old new. new.input.items ≡ old.input.items };

    ghost reads_on_at_once = { λ lines. refl };

    ghost reads_on_later = { λ _ _ first later last some more. more ∙ some };

    fn next(&mut self) -> Result<Option<RawLine>, LineStop> {
        let rest = &self.input[self.used..];
        if rest.is_empty() {
            return Ok(None);
        }
        let length = line_length(rest);
        let Ok(line) = line_of(self.alloc, &rest[..length]) else {
            return Err(LineStop::Memory);
        };
        self.used += (length + 1).min(rest.len());
        Ok(Some(line))
    }
}
