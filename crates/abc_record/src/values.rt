//! Values at the front of some bytes.
ghost use Rattle.std.specs.Prelude.{◌≡◌, IfOk, true};
ghost use Rattle.abc_value.specs.Tree.{Tree};
ghost use Rattle.std.specs.Ordering.{is_lt};
ghost use Rattle.abc_value.specs.Order.{order};
ghost use Rattle.abc_value.specs.Sizes.{IsMakingOf};
ghost use Rattle.abc_record.specs.inner.Reading.{Gives, AreRegularPairs, times, with_denominator, fraction_of, whole_of_bits, whole_of, parts_of, sized, text_value_of, are_ordered, are_rising, pair_of, several_of, several_pairs_of, compound_of, list_of, table_of, tagged, value_of};

use crate::bytes::{HALF, eight_of, four_of, text_of};
use crate::faults::ReadFault;
use crate::tags;
use abc_num::{Num, NumFault};
use abc_value::{Value, ValueFault};
use std::alloc::Global;

/// The value in front, with at most so many levels, and what follows it. A value nests no deeper than it has levels, and
/// takes no more memory than there are bytes, whatever counts they claim.
#[cycle(value)]
#[tactic(auto, unfolding(crate::specs::inner::Reading::value_of))]
pub(crate) fn value_of(
    alloc: Global,
    bytes: &[u8],
    levels: u32,
) -> Result<(Value, &[u8]), ReadFault>
    ensures { Gives (λ x. (x.0, x.1.now)) result (value_of levels bytes.now) }
{
    if levels == 0 {
        return Err(ReadFault::Bad);
    }
    let Some((tag, rest)) = bytes.split_first() else {
        return Err(ReadFault::Bad);
    };
    tagged(alloc, *tag, rest, levels - 1)
}

/// What stands behind the tag of a value. Its parts have at most so many levels.
#[cycle(value)]
#[tactic(auto, unfolding(crate::specs::inner::Reading::tagged))]
fn tagged(alloc: Global, tag: u8, bytes: &[u8], levels: u32) -> Result<(Value, &[u8]), ReadFault>
    ensures { Gives (λ x. (x.0, x.1.now)) result (tagged (value_of levels) tag bytes.now) }
{
    match tag {
        tags::WHOLE => whole_of(bytes),
        tags::FRACTION => parts_of(bytes),
        tags::TEXT => text_value_of(alloc, bytes),
        tags::COMPOUND => {
            let (fields, rest) = several_of(alloc, bytes, levels)?;
            compound_of(fields, rest)
        }
        tags::LIST => {
            let (elements, rest) = several_of(alloc, bytes, levels)?;
            list_of(alloc, elements, rest)
        }
        tags::TABLE => {
            let (pairs, rest) = several_pairs_of(alloc, bytes, levels)?;
            table_of(alloc, pairs, rest)
        }
        _ => Err(ReadFault::Bad),
    }
}

/// A count, and so many values.
#[cycle(value)]
#[tactic(auto, unfolding(crate::specs::inner::Reading::several_of))]
fn several_of(alloc: Global, bytes: &[u8], levels: u32) -> Result<(Vec<Value>, &[u8]), ReadFault>
    ensures { Gives (λ x. (x.0.items, x.1.now)) result (several_of (value_of levels) bytes.now) }
{
    let Some((count, rest)) = four_of(bytes) else {
        return Err(ReadFault::Bad);
    };
    values_of(alloc, count, rest, levels)
}

/// So many values.
#[cycle(value)]
fn values_of(
    alloc: Global,
    count: u32,
    bytes: &[u8],
    levels: u32,
) -> Result<(Vec<Value>, &[u8]), ReadFault>
    ensures { Gives (λ x. (x.0.items, x.1.now)) result (times (value_of levels) count bytes.now) }
{
    let mut values = Vec::new(alloc);
    let mut rest = bytes;
    for _ in 0..count {
        let (value, after) = value_of(alloc, rest, levels)?;
        values.push(value)?;
        rest = after;
    }
    Ok((values, rest))
}

/// A count, and so many pairs.
#[cycle(value)]
#[tactic(auto, unfolding(crate::specs::inner::Reading::several_pairs_of))]
fn several_pairs_of(
    alloc: Global,
    bytes: &[u8],
    levels: u32,
) -> Result<(Vec<(Value, Value)>, &[u8]), ReadFault>
    ensures { Gives (λ x. (x.0.items, x.1.now)) result (several_pairs_of (value_of levels) bytes.now) }
{
    let Some((count, rest)) = four_of(bytes) else {
        return Err(ReadFault::Bad);
    };
    pairs_of(alloc, count, rest, levels)
}

/// So many pairs.
#[cycle(value)]
fn pairs_of(
    alloc: Global,
    count: u32,
    bytes: &[u8],
    levels: u32,
) -> Result<(Vec<(Value, Value)>, &[u8]), ReadFault>
    ensures { Gives (λ x. (x.0.items, x.1.now)) result (times (pair_of (value_of levels)) count bytes.now) }
{
    let mut pairs = Vec::new(alloc);
    let mut rest = bytes;
    for _ in 0..count {
        let (pair, after) = pair_of(alloc, rest, levels)?;
        pairs.push(pair)?;
        rest = after;
    }
    Ok((pairs, rest))
}

/// A key, and its associate.
#[cycle(value)]
#[tactic(auto, unfolding(crate::specs::inner::Reading::pair_of))]
fn pair_of(alloc: Global, bytes: &[u8], levels: u32) -> Result<((Value, Value), &[u8]), ReadFault>
    ensures { Gives (λ x. ((x.0.0, x.0.1), x.1.now)) result (pair_of (value_of levels) bytes.now) }
{
    let (key, rest) = value_of(alloc, bytes, levels)?;
    let (associate, rest) = value_of(alloc, rest, levels)?;
    Ok(((key, associate), rest))
}

/// The whole number of these bytes.
#[tactic(auto, unfolding(crate::specs::inner::Reading::whole_of))]
fn whole_of(bytes: &[u8]) -> Result<(Value, &[u8]), ReadFault>
    ensures { Gives (λ x. (x.0, x.1.now)) result (whole_of bytes.now) }
{
    let Some((high, rest)) = eight_of(bytes) else {
        return Err(ReadFault::Bad);
    };
    let Some((low, rest)) = eight_of(rest) else {
        return Err(ReadFault::Bad);
    };
    let Some(number) = whole_of_bits(u128::from(high) * HALF + u128::from(low)) else {
        return Err(ReadFault::Bad);
    };
    Ok((Value::number(number), rest))
}

/// The whole number of these 128 bits. -2^127 is none.
fn whole_of_bits(bits: u128) -> Option<Num>
    ensures { result ≡ whole_of_bits bits }
{
    Num::whole(bits.cast_signed()).ok()
}

/// The fraction of these bytes.
#[tactic(auto, unfolding(crate::specs::inner::Reading::parts_of))]
fn parts_of(bytes: &[u8]) -> Result<(Value, &[u8]), ReadFault>
    ensures { Gives (λ x. (x.0, x.1.now)) result (parts_of bytes.now) }
{
    let Some((top, rest)) = eight_of(bytes) else {
        return Err(ReadFault::Bad);
    };
    let Some((bottom, rest)) = eight_of(rest) else {
        return Err(ReadFault::Bad);
    };
    let Some(number) = fraction_of(top.cast_signed(), bottom) else {
        return Err(ReadFault::Bad);
    };
    Ok((Value::number(number), rest))
}

/// The fraction of these parts, where it is in lowest terms.
#[tactic(auto, unfolding(crate::specs::inner::Reading::fraction_of))]
fn fraction_of(top: i64, bottom: u64) -> Option<Num>
    ensures { result ≡ fraction_of top bottom }
{
    if bottom < 2 {
        return None;
    }
    with_denominator(bottom, Num::ratio(i128::from(top), i128::from(bottom)))
}

/// The number, where this is its denominator.
fn with_denominator(bottom: u64, number: Result<Num, NumFault>) -> Option<Num>
    ensures { result ≡ with_denominator bottom number }
{
    match number {
        Ok(number) => {
            let lowest = number.denominator().to_whole()?;
            if lowest == i128::from(bottom) {
                Some(number)
            } else {
                None
            }
        }
        Err(_) => None,
    }
}

/// The value that was made, unless a size of it is past its bound.
#[tactic(auto, unfolding(crate::specs::inner::Reading::sized))]
fn sized(made: Result<Value, ValueFault>, rest: &[u8]) -> Result<(Value, &[u8]), ReadFault>
    ensures { (t : Tree) → IfOk made (λ v. v ≡ t) → IsMakingOf t made → Gives (λ x. (x.0, x.1.now)) result (sized t rest.now) }
{
    match made {
        Ok(value) => Ok((value, rest)),
        Err(ValueFault::Memory) => Err(ReadFault::Memory),
        Err(_) => Err(ReadFault::Bad),
    }
}

/// A text as a value.
#[tactic(auto, unfolding(crate::specs::inner::Reading::text_value_of))]
fn text_value_of(alloc: Global, bytes: &[u8]) -> Result<(Value, &[u8]), ReadFault>
    ensures { Gives (λ x. (x.0, x.1.now)) result (text_value_of bytes.now) }
{
    let Some((text, rest)) = text_of(bytes) else {
        return Err(ReadFault::Bad);
    };
    sized(Value::text(alloc, text), rest)
}

/// The compound of these fields.
#[tactic(auto, unfolding(crate::specs::inner::Reading::compound_of))]
fn compound_of(fields: Vec<Value>, rest: &[u8]) -> Result<(Value, &[u8]), ReadFault>
    ensures { Gives (λ x. (x.0, x.1.now)) result (compound_of fields.items rest.now) }
{
    if fields.len() < 2 {
        return Err(ReadFault::Bad);
    }
    sized(Value::compound(fields), rest)
}

/// The list of these elements, where they are in order.
#[tactic(auto, unfolding(crate::specs::inner::Reading::list_of))]
fn list_of(alloc: Global, elements: Vec<Value>, rest: &[u8]) -> Result<(Value, &[u8]), ReadFault>
    ensures { Gives (λ x. (x.0, x.1.now)) result (list_of elements.items rest.now) }
{
    if !are_ordered(&elements) {
        return Err(ReadFault::Bad);
    }
    sized(Value::list(alloc, elements), rest)
}

/// The table of these pairs, where there are some and their keys rise.
#[tactic(auto, unfolding(crate::specs::inner::Reading::table_of))]
fn table_of(
    alloc: Global,
    pairs: Vec<(Value, Value)>,
    rest: &[u8],
) -> Result<(Value, &[u8]), ReadFault>
    requires { AreRegularPairs pairs.items }
    ensures { Gives (λ x. (x.0, x.1.now)) result (table_of pairs.items rest.now) }
{
    if pairs.is_empty() || !are_rising(&pairs) {
        return Err(ReadFault::Bad);
    }
    sized(Value::table(alloc, pairs), rest)
}

/// Whether no element is greater than the next.
fn are_ordered(elements: &[Value]) -> bool
    ensures { result ≡ are_ordered elements.now }
{
    for i in 1..elements.len() {
        if elements[i - 1].cmp(&elements[i]).is_gt() {
            return false;
        }
    }
    true
}

/// Whether each key is less than the next.
fn are_rising(pairs: &[(Value, Value)]) -> bool
    ensures { result ≡ are_rising pairs.now }
{
    for i in 1..pairs.len() {
        if !rises(&pairs[i - 1], &pairs[i]) {
            return false;
        }
    }
    true
}

/// Whether the key of a pair is less than that of another.
fn rises(pair: &(Value, Value), next: &(Value, Value)) -> bool
    ensures { result ≡ is_lt (order pair.now.0 next.now.0) }
{
    pair.0.cmp(&next.0).is_lt()
}
