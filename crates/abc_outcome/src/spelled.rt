//! Whether changes have a spelling.
ghost use Rattle.std.specs.Prelude.{◌≡◌, true};
ghost use Rattle.std.specs.List.{AllByRecursion, list_all};
ghost use Rattle.abc_record.specs.Kept.{AreKeptLines, IsKeptLine};
ghost use Rattle.abc_outcome.specs.Spelled.{are_spelled_lines, has_spelling, is_spelled_line};

use abc_num::Line;
use abc_num::limits::MOST_LINES;
use abc_record::{Change, is_kept_line, is_kept_name};

/// Whether the names and lines in all changes can be spelled.
pub(crate) fn have_spelling(changes: &[Change]) -> bool
    ensures { result ≡ list_all has_spelling changes.now }
{
    for change in changes {
        if !has_spelling(change) {
            return false;
        }
    }
    true
}

/// Whether the name or the lines in a change can be spelled. A command takes no unit out, so a change that does is answered false.
fn has_spelling(change: &Change) -> bool
    ensures { result ≡ has_spelling change.now }
{
    match change {
        Change::SetTarget { name, .. } => is_kept_name(name.bytes()),
        Change::DropTarget { name } => is_kept_name(name.bytes()),
        Change::SetUnit { lines } => are_spelled_lines(lines.as_slice()),
        Change::DropUnit { .. } => false,
    }
}

/// Whether the lines of a unit can be kept: one at least, no more than an item may have, and each of them can.
pub(crate) fn are_spelled_lines(lines: &[Line]) -> bool
    ensures is { result ≡ are_spelled_lines lines.now }
    ensures kept { result ≡ true → AreKeptLines lines.now }
{
    1 <= lines.len() && lines.len() <= MOST_LINES && are_all_spelled(lines)
}

/// Whether each of the lines can be kept.
fn are_all_spelled(lines: &[Line]) -> bool
    ensures is { result ≡ list_all is_spelled_line lines.now }
    ensures kept { result ≡ true → AllByRecursion IsKeptLine lines.now }
{
    for line in lines {
        if !is_spelled_line(line) {
            return false;
        }
    }
    true
}

/// Whether a line can be kept: its text can, and it is not too long. Its indentation always can.
#[tactic(auto, using(crate::proofs::Named::spelled_told))]
fn is_spelled_line(line: &Line) -> bool
    ensures is { result ≡ is_spelled_line line.now }
    ensures kept { result ≡ true → IsKeptLine line.now }
{
    let _within_four_bytes = line.indent;
    is_kept_line(line.text.bytes()) && !line.long
}
