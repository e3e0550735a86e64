//! Bytes as changes.
ghost use Rattle.std.specs.Prelude.{◌≡◌, List, ℕ, IfOk, IsErrOf, MatchResult};
ghost use Rattle.abc_num.specs.declared.lines.Line.{Line};
ghost use Rattle.abc_record.specs.declared.change.Change.{Change};
ghost use Rattle.abc_record.specs.Kept.{IsSpelling};
ghost use Rattle.abc_record.specs.Place.{IsWrongAt};
ghost use Rattle.abc_record.specs.inner.Reading.{Gives, times, are_so_many, line_of, lines_of, target_of, dropped_target_of, unit_of, dropped_unit_of, tagged_change, change_of, leading};

use crate::bytes::{counted_of, four_of, text_of};
use crate::faults::ReadFault;
use crate::lines::is_kept_line;
use crate::names::name_of;
use crate::values::value_of;
use crate::{Change, RecordFault, tags};
use abc_num::limits::{MOST_LINES, MOST_VALUE_HEIGHT};
use abc_num::{Items, Line, OutOfMemory, Text};
use std::alloc::Global;

/// The changes that the bytes spell, all of them. BadRecord where they spell none: `at` is 0 where there are fewer than four
/// bytes, and else the place behind the count and the leading changes, at most as many as the count.
///
/// ```text
/// record = count change ..            change = 1 name value | 2 name | 3 count line .. | 4 text
/// line   = indentation text           text   = count character ..
/// value  = 0 bits | 1 numerator denominator | 2 text | 3 count value .. | 4 count value .. | 5 count value value ..
/// ```
pub fn read_changes(alloc: Global, b: &[u8]) -> Result<Vec<Change>, RecordFault>
    ensures spelled { IfOk result (λ changes. IsSpelling changes.items b.now) }
    ensures read { (changes : List Change) → IsSpelling changes b.now
        → MatchResult result (λ all. all.items ≡ changes) (λ fault. fault ≡ RecordFault.Memory) }
    ensures place { (at : ℕ) → IsErrOf result (RecordFault.BadRecord at) → IsWrongAt b.now at }
{
    let Some((count, bytes)) = four_of(b) else {
        return Err(RecordFault::BadRecord { at: 0 });
    };
    let (changes, rest) = leading(alloc, bytes, count)?;
    if changes.len() < count as usize || !rest.is_empty() {
        return Err(RecordFault::BadRecord {
            at: b.len() - rest.len(),
        });
    }
    Ok(changes)
}

/// The changes in front, at most so many, and what follows them. Takes memory for what is there, not for what the count
/// claims.
fn leading(alloc: Global, bytes: &[u8], count: u32) -> Result<(Vec<Change>, &[u8]), OutOfMemory>
    ensures { IfOk result (λ x. leading count bytes.now ≡ (x.0.items, x.1.now)) }
{
    let mut changes = Vec::new(alloc);
    let mut rest = bytes;
    for _ in 0..count {
        match change_of(alloc, rest) {
            Ok((change, after)) => {
                changes.push(change)?;
                rest = after;
            }
            Err(ReadFault::Bad) => return Ok((changes, rest)),
            Err(ReadFault::Memory) => return Err(OutOfMemory),
        }
    }
    Ok((changes, rest))
}

/// The change in front, and what follows it.
#[tactic(auto, unfolding(crate::specs::inner::Reading::change_of))]
fn change_of(alloc: Global, bytes: &[u8]) -> Result<(Change, &[u8]), ReadFault>
    ensures { Gives (λ x. (x.0, x.1.now)) result (change_of bytes.now) }
{
    let Some((tag, rest)) = bytes.split_first() else {
        return Err(ReadFault::Bad);
    };
    tagged_change(alloc, *tag, rest)
}

/// What stands behind the tag of a change.
#[tactic(auto, unfolding(crate::specs::inner::Reading::tagged_change))]
fn tagged_change(alloc: Global, tag: u8, bytes: &[u8]) -> Result<(Change, &[u8]), ReadFault>
    ensures { Gives (λ x. (x.0, x.1.now)) result (tagged_change tag bytes.now) }
{
    match tag {
        tags::SET_TARGET => target_of(alloc, bytes),
        tags::DROP_TARGET => dropped_target_of(alloc, bytes),
        tags::SET_UNIT => unit_of(alloc, bytes),
        tags::DROP_UNIT => dropped_unit_of(alloc, bytes),
        _ => Err(ReadFault::Bad),
    }
}

#[tactic(auto, unfolding(crate::specs::inner::Reading::target_of))]
fn target_of(alloc: Global, bytes: &[u8]) -> Result<(Change, &[u8]), ReadFault>
    ensures { Gives (λ x. (x.0, x.1.now)) result (target_of bytes.now) }
{
    let Some((name, rest)) = name_of(bytes) else {
        return Err(ReadFault::Bad);
    };
    let (value, rest) = value_of(alloc, rest, MOST_VALUE_HEIGHT + 1)?;
    let name = Text::of(alloc, name)?;
    Ok((Change::SetTarget { name, value }, rest))
}

#[tactic(auto, unfolding(crate::specs::inner::Reading::dropped_target_of))]
fn dropped_target_of(alloc: Global, bytes: &[u8]) -> Result<(Change, &[u8]), ReadFault>
    ensures { Gives (λ x. (x.0, x.1.now)) result (dropped_target_of bytes.now) }
{
    let Some((name, rest)) = name_of(bytes) else {
        return Err(ReadFault::Bad);
    };
    let name = Text::of(alloc, name)?;
    Ok((Change::DropTarget { name }, rest))
}

#[tactic(auto, unfolding(crate::specs::inner::Reading::unit_of))]
fn unit_of(alloc: Global, bytes: &[u8]) -> Result<(Change, &[u8]), ReadFault>
    ensures { Gives (λ x. (x.0, x.1.now)) result (unit_of bytes.now) }
{
    let (lines, rest) = lines_of(alloc, bytes)?;
    let lines = Items::from_vec(lines);
    Ok((Change::SetUnit { lines }, rest))
}

#[tactic(auto, unfolding(crate::specs::inner::Reading::dropped_unit_of))]
fn dropped_unit_of(alloc: Global, bytes: &[u8]) -> Result<(Change, &[u8]), ReadFault>
    ensures { Gives (λ x. (x.0, x.1.now)) result (dropped_unit_of bytes.now) }
{
    let Some((template, rest)) = text_of(bytes) else {
        return Err(ReadFault::Bad);
    };
    let template = Text::of(alloc, template)?;
    Ok((Change::DropUnit { template }, rest))
}

/// A count of lines, at least one, and so many lines.
#[tactic(auto, unfolding(crate::specs::inner::Reading::lines_of))]
fn lines_of(alloc: Global, bytes: &[u8]) -> Result<(Vec<Line>, &[u8]), ReadFault>
    ensures { Gives (λ x. (x.0.items, x.1.now)) result (lines_of bytes.now) }
{
    let Some((count, rest)) = four_of(bytes) else {
        return Err(ReadFault::Bad);
    };
    if !are_so_many(count) {
        return Err(ReadFault::Bad);
    }
    several_lines_of(alloc, count, rest)
}

fn are_so_many(count: u32) -> bool
    ensures { result ≡ are_so_many count }
{
    1 <= count && count as usize <= MOST_LINES
}

/// So many lines.
fn several_lines_of(
    alloc: Global,
    count: u32,
    bytes: &[u8],
) -> Result<(Vec<Line>, &[u8]), ReadFault>
    ensures { Gives (λ x. (x.0.items, x.1.now)) result (times line_of count bytes.now) }
{
    let mut lines = Vec::new(alloc);
    let mut rest = bytes;
    for _ in 0..count {
        let (line, after) = line_of(alloc, rest)?;
        lines.push(line)?;
        rest = after;
    }
    Ok((lines, rest))
}

/// A line: its indentation, and its text without it.
#[tactic(auto, unfolding(crate::specs::inner::Reading::line_of))]
fn line_of(alloc: Global, bytes: &[u8]) -> Result<(Line, &[u8]), ReadFault>
    ensures { Gives (λ x. (x.0, x.1.now)) result (line_of bytes.now) }
{
    let Some((indent, rest)) = four_of(bytes) else {
        return Err(ReadFault::Bad);
    };
    let Some((text, rest)) = counted_of(rest) else {
        return Err(ReadFault::Bad);
    };
    if !is_kept_line(text) {
        return Err(ReadFault::Bad);
    }
    let text = Text::of(alloc, text)?;
    let line = Line {
        indent,
        text,
        long: false,
    };
    Ok((line, rest))
}
