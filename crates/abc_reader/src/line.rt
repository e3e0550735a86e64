//! A line of the input, as it is gathered.
ghost use Rattle.std.specs.Prelude.{◌≡◌, ◌≤◌, ◌+◌, ◌++◌, [], List, ℕ, length, OnOk, IfSome};
ghost use Rattle.abc_num.specs.Lines.{raw_line, without_cr};
ghost use Rattle.abc_reader.specs.inner.LineReading.{shown, front_of, text_of, IsLast};

use abc_num::limits::MOST_LINE_BYTES;
use abc_num::{RawLine, Text};
use std::alloc::{AllocError, Global};

/// One byte more than a line may have, since it may be a CR at the end, which is no byte of the line.
pub(crate) const MOST_GATHERED: usize = MOST_LINE_BYTES + 1;

/// The front of a line without its LF: its first bytes, and whether there are more.
#[derive(Drop)]
pub(crate) struct Gathered {
    pub(crate) bytes: Vec<u8>,
    pub(crate) more: bool,
}

/// The bytes without a CR at their end.
#[tactic(auto, using(crate::proofs::LineParts::dropped, crate::proofs::LineParts::kept, crate::proofs::LineParts::empty))]
fn without_cr(text: &[u8]) -> &[u8]
    ensures { result.now ≡ without_cr text.now }
{
    let Some((last, front)) = text.split_last() else {
        return text;
    };
    if *last == b'\r' { front } else { text }
}

impl Gathered {
    pub(crate) fn new(alloc: Global) -> Gathered
        ensures line { shown result ≡ front_of [] }
        ensures empty { result.bytes.items ≡ [] }
    {
        Gathered {
            bytes: Vec::new(alloc),
            more: false,
        }
    }

    /// Adds bytes at its end. Those that don't fit are dropped.
    pub(crate) fn add(&mut self, bytes: &[u8]) -> Result<(), AllocError>
        ensures grows { OnOk result ((front : List ℕ) → shown self.old ≡ front_of front → shown self.new ≡ front_of (front ++ bytes.now)) }
        ensures size { OnOk result (length self.new.bytes.items ≤ length self.old.bytes.items + length bytes.now) }
    {
        let room = MOST_GATHERED.saturating_sub(self.bytes.len());
        let fits = room.min(bytes.len());
        self.bytes.extend_from_slice(&bytes[..fits])?;
        self.more |= fits < bytes.len();
        Ok(())
    }

    /// What there is of the line's text, which has no CR at its end.
    fn text(&self) -> &[u8]
        ensures { result.now ≡ text_of (shown self.now) }
    {
        if self.more {
            return &self.bytes;
        }
        without_cr(&self.bytes)
    }

    /// The line of which these bytes are the front.
    pub(crate) fn finish(mut self) -> RawLine
        ensures line { (bytes : List ℕ) → shown self ≡ front_of bytes → result ≡ raw_line bytes }
        ensures most { length result.bytes ≤ MOST_LINE_BYTES }
    {
        let length = self.text().len();
        self.bytes.truncate(length.min(MOST_LINE_BYTES));
        RawLine {
            bytes: Text::from_vec(self.bytes),
            long: length > MOST_LINE_BYTES,
        }
    }

    /// The line, where it has a byte.
    pub(crate) fn if_any(self) -> Option<RawLine>
        ensures last { IsLast self result }
        ensures most { IfSome result (λ line. length line.bytes ≤ MOST_LINE_BYTES) }
    {
        if self.bytes.is_empty() {
            return None;
        }
        Some(self.finish())
    }
}
