//! How many bytes changes have, told without writing them.
ghost use Rattle.std.specs.Prelude.{◌≡◌, ◌<◌, ◌+◌, ◌-◌, ◌^◌, min, length};
ghost use Rattle.std.specs.List.{flat_map};
ghost use Rattle.abc_record.specs.Spelling.{spelled_line, spelled_change, spelled};
ghost use Rattle.abc_record.specs.Kept.{AreKeptLines, IsKept, AreKept};

use crate::Change;
use abc_num::{ItemLines, Text};

/// The bytes of a count.
const COUNT_BYTES: u64 = 4;

/// How many bytes the spelling of these changes has, each of which has one; 2^64 - 1 where there are more. Values know their
/// weight, so none is walked.
pub fn size_of(c: &[Change]) -> u64
    requires { AreKept c.now }
    ensures { result ≡ min (length (spelled c.now)) (2 ^ 64 - 1) }
{
    let mut size = COUNT_BYTES;
    for change in c {
        size = size.saturating_add(change_size(change));
    }
    size
}

/// A tag, and what the change holds.
fn change_size(change: &Change) -> u64
    requires { IsKept change.now }
    ensures { result ≡ length (spelled_change change.now) }
{
    match change {
        Change::SetTarget { name, value } => 1 + text_size(name) + value.weight(),
        Change::DropTarget { name } => 1 + text_size(name),
        Change::SetUnit { lines } => 1 + lines_size(lines),
        Change::DropUnit { template } => 1 + text_size(template),
    }
}

/// A count, and the bytes.
fn text_size(text: &Text) -> u64
    requires { length text.now < 2 ^ 32 }
    ensures { result ≡ length text.now + 4 }
{
    text.bytes().len() as u64 + COUNT_BYTES
}

/// A count, and for each line its indentation and its text.
fn lines_size(lines: &ItemLines) -> u64
    requires { AreKeptLines lines.now }
    ensures size { result ≡ 4 + length (flat_map spelled_line lines.now) }
    ensures bound { result < 2 ^ 32 }
{
    let mut size = COUNT_BYTES;
    for line in lines.as_slice() {
        size += COUNT_BYTES + text_size(&line.text);
    }
    size
}
