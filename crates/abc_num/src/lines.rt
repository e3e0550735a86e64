//! The lines of an input, and the lines of an item.
ghost use Rattle.std.specs.Prelude.{◌≡◌, ◌≢◌, ◌<◌, ℕ, List, [], ◌∷◌, ◌++◌, Bool, true, false, length, take, nat_lt, IfOk};
ghost use Rattle.abc_num.specs.Lines.{HasNoLf, first_bytes, raw_line, raw_lines};
ghost use Rattle.abc_num.specs.declared.limits.TheConstants.{MOST_LINE_BYTES};

use crate::{Items, OutOfMemory, Text};
use std::alloc::Global;

/// A line as it stands in the input, without the LF that ends it and without a CR before that LF or before the end.
#[derive(Debug, Drop)]
pub struct RawLine {
    /// At most as many bytes as a line may have: the first ones.
    pub bytes: Text,
    /// The line had more bytes than a line may have.
    pub long: bool,
}

/// A line without its indentation.
#[derive(Debug, Drop)]
pub struct Line {
    /// Columns that the line is indented by.
    pub indent: u32,
    pub text: Text,
    /// The line in the input was longer than a line may be.
    pub long: bool,
}

/// The lines of one item, in their order.
pub type ItemLines = Items<Line>;

impl Line {
    /// An equal line.
    pub fn copy(&self, alloc: Global) -> Result<Line, OutOfMemory>
        ensures { IfOk result (λ line. line ≡ self.now) }
    {
        Ok(Line {
            indent: self.indent,
            text: Text::of(alloc, self.text.bytes())?,
            long: self.long,
        })
    }
}

impl Items<Line> {
    /// Equal lines.
    pub fn copy(&self, alloc: Global) -> Result<ItemLines, OutOfMemory>
        ensures { IfOk result (λ lines. lines ≡ self.now) }
    {
        let mut copies = Vec::new(alloc);
        for line in self.as_slice() {
            copies.push(line.copy(alloc)?)?;
        }
        Ok(Items::from_vec(copies))
    }
}

/// How an input is cut, whole: bytes without an LF are a line where an LF stands behind them, or where the input ends with
/// them and there is one; where the input goes on they are no line yet. A CR at the end of a line is not of the line, and
/// the line is long or not without it.
pub fn lines_are_cut()
    ensures ended { (line rest : List ℕ) (ends : Bool) → HasNoLf line → raw_lines ends (line ++ 10 ∷ rest) ≡ raw_line line ∷ raw_lines ends rest }
    ensures last { (b : ℕ) (line : List ℕ) → HasNoLf (b ∷ line) → raw_lines true (b ∷ line) ≡ raw_line (b ∷ line) ∷ [] }
    ensures unended { (line : List ℕ) → HasNoLf line → raw_lines false line ≡ [] }
    ensures none { (ends : Bool) → raw_lines ends [] ≡ [] }
    ensures cr { (line : List ℕ) → raw_line (line ++ 13 ∷ []) ≡ first_bytes line }
    ensures kept { (b : ℕ) (line : List ℕ) → b ≢ 13 → raw_line (line ++ b ∷ []) ≡ first_bytes (line ++ b ∷ []) }
{}
