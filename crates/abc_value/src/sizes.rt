//! Tests and sums of the sizes of values that are to be made.
ghost use Rattle.std.specs.Prelude.{◌≡◌, ℕ, ◌<◌, ◌≤◌, ◌*◌, ◌+◌, max, length, MatchResult, IfOk, map, Some, None};
ghost use Rattle.std.specs.List.{between};
ghost use Rattle.abc_value.specs.Tree.{compound, table, trees, pairs};
ghost use Rattle.abc_value.specs.View.{as_pair};
ghost use Rattle.abc_value.specs.inner.Alike.{AreAlike};
ghost use Rattle.abc_value.specs.inner.Heights.{others_height};
ghost use Rattle.abc_value.specs.Sizes.{height_of, weight_of, sizes_fault, trees_height, pairs_height, trees_weight, pairs_weight, IsMakingOf};
ghost use Rattle.abc_value.specs.Regular.{IsRegular, AllRegular, AllRegularPairs};

use crate::elements::{Elements, Entries};
use crate::value::Entry;
use crate::{Value, ValueFault};
use abc_chunks::Chunks;
use abc_num::limits::{MOST_ELEMENTS, MOST_VALUE_HEIGHT, MOST_WEIGHT};

/// Tests sizes against their bounds.
#[tactic(auto, unfolding(crate::specs::Sizes::sizes_fault))]
pub(crate) fn check_sizes(length: usize, height: u32, weight: u64) -> Result<(), ValueFault>
    ensures { MatchResult result (λ _. sizes_fault length height weight ≡ None)
        (λ f. sizes_fault length height weight ≡ Some f) }
{
    if length > MOST_ELEMENTS {
        return Err(ValueFault::TooLong);
    }
    if height > MOST_VALUE_HEIGHT {
        return Err(ValueFault::TooDeep);
    }
    if weight > MOST_WEIGHT {
        return Err(ValueFault::TooLarge);
    }
    Ok(())
}

/// The height and the weight of a compound or a list of these parts. TooLong, TooDeep and TooLarge where a size of it is past
/// its bound.
pub(crate) fn sizes_of(parts: &Chunks<Value>) -> Result<(u32, u64), ValueFault>
    ensures height { IfOk result (λ p. p.0 ≡ trees_height (trees parts.now)) }
    ensures weight { IfOk result (λ p. p.1 ≡ trees_weight (trees parts.now) + 5) }
    ensures regular { IfOk result (λ _. AllRegular (trees parts.now)) }
    ensures sizes { IsMakingOf (compound (trees parts.now)) result }
{
    if parts.len() > MOST_ELEMENTS {
        return Err(ValueFault::TooLong);
    }
    let weight = total_weight(parts) + 5;
    let height = tallest(parts, MOST_VALUE_HEIGHT + 1);
    check_sizes(parts.len(), height, weight)?;
    Ok((height, weight))
}

/// The height and the weight of a list of these parts, each of which has the sizes of the first. TooLong, TooDeep and TooLarge
/// where a size of it is past its bound.
pub(crate) fn sizes_of_alike(parts: &Chunks<Value>) -> Result<(u32, u64), ValueFault>
    requires { AreAlike parts.now }
    ensures height { IfOk result (λ p. p.0 ≡ trees_height (trees parts.now)) }
    ensures weight { IfOk result (λ p. p.1 ≡ trees_weight (trees parts.now) + 5) }
    ensures few { IfOk result (λ _. length parts.now ≤ MOST_ELEMENTS) }
    ensures sizes { IsMakingOf (compound (trees parts.now)) result }
{
    if parts.is_empty() {
        return Ok((0, 5));
    }
    if parts.len() > MOST_ELEMENTS {
        return Err(ValueFault::TooLong);
    }
    let height = parts[0].height() + 1;
    let weight = parts[0].weight() * parts.len() as u64 + 5;
    check_sizes(parts.len(), height, weight)?;
    Ok((height, weight))
}

/// The height and the weight of a table of these entries, of which there is one at least. TooLong, TooDeep and TooLarge where
/// a size of it is past its bound.
pub(crate) fn sizes_of_entries(entries: &Chunks<Entry>) -> Result<(u32, u64), ValueFault>
    ensures height { IfOk result (λ p. p.0 ≡ pairs_height (pairs (map as_pair entries.now))) }
    ensures weight { IfOk result (λ p. p.1 ≡ pairs_weight (pairs (map as_pair entries.now)) + 5) }
    ensures sizes { IsMakingOf (table (pairs (map as_pair entries.now))) result }
{
    if entries.len() > MOST_ELEMENTS {
        return Err(ValueFault::TooLong);
    }
    let weight = total_entry_weight(entries) + 5;
    let height = tallest_entry(entries, MOST_VALUE_HEIGHT + 1);
    check_sizes(entries.len(), height, weight)?;
    Ok((height, weight))
}

/// The height of a value of these parts, which is at most `most`.
fn tallest(parts: &Chunks<Value>, most: u32) -> u32
    requires { trees_height (trees parts.now) ≤ most }
    ensures { result ≡ trees_height (trees parts.now) }
{
    let mut height: u32 = 0;
    for i in 0..parts.len() {
        height = height.max(parts[i].height() + 1);
        if height == most {
            return height;
        }
    }
    height
}

/// The height of a table of these entries, which is at most `most`.
fn tallest_entry(entries: &Chunks<Entry>, most: u32) -> u32
    requires { pairs_height (pairs (map as_pair entries.now)) ≤ most }
    ensures { result ≡ pairs_height (pairs (map as_pair entries.now)) }
{
    let mut height: u32 = 0;
    for i in 0..entries.len() {
        height = height.max(entry_height(&entries[i]));
        if height == most {
            return height;
        }
    }
    height
}

/// The height of a list of these elements, which had the height `was` with one more, of height `gone`. It is looked for
/// only where that one may have been the tallest.
pub(crate) fn height_without(parts: &Elements, was: u32, gone: u32) -> u32
    requires { was ≡ max (gone + 1) (trees_height (trees parts.now)) }
    ensures { result ≡ trees_height (trees parts.now) }
{
    if gone + 1 < was {
        return was;
    }
    tallest(parts.items(), was)
}

/// The height of a table of these entries, which had the height `was` when a part stood in it that reaches `gone`; now one
/// that reaches `came` stands there, or none, which is 0. It is looked for only where the tallest part went.
pub(crate) fn height_after(entries: &Entries, was: u32, gone: u32, came: u32) -> u32
    requires { (rest : ℕ) × (was ≡ max gone rest) × (pairs_height (pairs (map as_pair entries.now)) ≡ max came rest) }
    ensures { result ≡ pairs_height (pairs (map as_pair entries.now)) }
{
    if gone < was {
        return was.max(came);
    }
    if came >= was {
        return came;
    }
    tallest_entry(entries.items(), was)
}

/// The height of a table of these entries, which has the height `was`, once the associate at this place reaches `came`. It is
/// looked for only where the tallest part goes.
pub(crate) fn height_with(entries: &Entries, place: usize, was: u32, came: u32) -> u32
    requires place { place < length entries.now }
    requires height { was ≡ pairs_height (pairs (map as_pair entries.now)) }
    ensures { result ≡ max came (others_height entries.now place) }
{
    let gone = entries[place].associate.height() + 1;
    if gone < was {
        return was.max(came);
    }
    if came >= was {
        return came;
    }
    came.max(tallest_other(entries, place))
}

/// The height of a table of these entries, were the associate at this place not there.
fn tallest_other(entries: &Entries, place: usize) -> u32
    requires { place < length entries.now }
    ensures { result ≡ others_height entries.now place }
{
    let end = entries.len();
    let before = tallest_between(entries, 0, place);
    let here = entries[place].key.height() + 1;
    let behind = tallest_between(entries, place + 1, end);
    before.max(here).max(behind)
}

/// The height of a table of the entries at these places.
fn tallest_between(entries: &Entries, from: usize, to: usize) -> u32
    requires from { from ≤ to }
    requires to { to ≤ length entries.now }
    ensures { result ≡ pairs_height (pairs (map as_pair (between from to entries.now))) }
{
    let mut height: u32 = 0;
    for i in from..to {
        height = height.max(entry_height(&entries[i]));
    }
    height
}

/// One more than the greater height of a key and its associate.
pub(crate) fn entry_height(entry: &Entry) -> u32
    ensures height { result ≡ max (height_of entry.now.key) (height_of entry.now.associate) + 1 }
    ensures bound { result ≤ MOST_VALUE_HEIGHT + 1 }
{
    entry.key.height().max(entry.associate.height()) + 1
}

/// The weight of a key and its associate together.
pub(crate) fn entry_weight(entry: &Entry) -> u64
    ensures weight { result ≡ weight_of entry.now.key + weight_of entry.now.associate }
    ensures bound { result ≤ 2 * MOST_WEIGHT }
    ensures regular { IsRegular entry.now.key × IsRegular entry.now.associate }
{
    entry.key.weight() + entry.associate.weight()
}

/// The sum of the weights of these keys and associates.
fn total_entry_weight(entries: &Chunks<Entry>) -> u64
    requires { length entries.now ≤ MOST_ELEMENTS }
    ensures weight { result ≡ pairs_weight (pairs (map as_pair entries.now)) }
    ensures bound { result ≤ length entries.now * (2 * MOST_WEIGHT) }
    ensures regular { AllRegularPairs (pairs (map as_pair entries.now)) }
{
    let mut weight: u64 = 0;
    for i in 0..entries.len() {
        weight += entry_weight(&entries[i]);
    }
    weight
}

/// The sum of the weights of these parts.
pub(crate) fn total_weight(parts: &Chunks<Value>) -> u64
    requires { length parts.now ≤ MOST_ELEMENTS }
    ensures weight { result ≡ trees_weight (trees parts.now) }
    ensures bound { result ≤ length parts.now * MOST_WEIGHT }
    ensures regular { AllRegular (trees parts.now) }
{
    let mut weight: u64 = 0;
    for i in 0..parts.len() {
        weight += parts[i].weight();
    }
    weight
}
