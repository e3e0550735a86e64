//! Elements by their number, and ranges of elements.
ghost use Rattle.std.specs.Prelude.{◌≡◌, ◌<◌, ◌+◌, ◌-◌, ◌^◌, length, ℤ, pos, ◌+ℤ◌, ◌-ℤ◌, unsigned_abs, IfOk, Some, None};
ghost use Rattle.abc_num.specs.Number.{whole_of, whole_number};
ghost use Rattle.abc_value.specs.Tree.{number};
ghost use Rattle.abc_value.specs.Regular.{AreCharacters};
ghost use Rattle.abc_value.specs.Items.{IsAnswer, IsTrain, HaveRange, item_of, range_of, checked, place_in, count_of, number_range, character_range};

use crate::list::alike_list;
use crate::value::Node;
use crate::{Value, ValueFault};
use abc_chunks::Chunks;
use abc_num::Num;
use abc_num::limits::MOST_ELEMENTS;
use std::alloc::Global;

impl Value {
    /// The i-th element of a text, list or table, in order and counted from 1. NotWhole where `i` isn't whole; OutOfRange
    /// where there is no such element.
    pub fn item(&self, i: &Num) -> Result<Value, ValueFault>
        requires { IsTrain self.now }
        ensures { IsAnswer (item_of self.now i.now) result }
    {
        let place = place_of_number(i, self.len())?;
        match &self.node {
            Node::Text(codes) => Value::text(*codes.allocator(), &[codes[place]]),
            Node::List(parts) => parts[place].copy(),
            Node::Table(entries) => entries[place].associate.copy(),
            _ => unreachable!(),
        }
    }
}

/// The place, from 0, of the i-th of so many elements.
fn place_of_number(i: &Num, length: usize) -> Result<usize, ValueFault>
    ensures { result ≡ place_in length (whole_of i.now) }
{
    match i.to_whole() {
        None => Err(ValueFault::NotWhole),
        Some(n) if n < 1 || n > length as i128 => Err(ValueFault::OutOfRange),
        Some(n) => Ok((n - 1) as usize),
    }
}

impl Value {
    /// The list of the whole numbers, or of the characters, from `p` to `q`, which is `{}` where `q` is less. NotWhole where
    /// one of two numbers isn't whole; OutOfRange where one of two texts isn't of one character; TooLong where there would
    /// be too many elements.
    pub fn range(alloc: Global, p: &Value, q: &Value) -> Result<Value, ValueFault>
        requires { HaveRange p.now q.now }
        ensures { IsAnswer (range_of p.now q.now) result }
    {
        match (&p.node, &q.node) {
            (Node::Number(p), Node::Number(q)) => match (p.to_whole(), q.to_whole()) {
                (Some(first), Some(last)) => range_of_numbers(alloc, first, last),
                _ => Err(ValueFault::NotWhole),
            },
            (Node::Text(p), Node::Text(q)) => {
                range_of_characters(alloc, p.as_slice(), q.as_slice())
            }
            _ => unreachable!(),
        }
    }

    /// Whether there is a list from `p` to `q`: the faults that `range` tells, without the list.
    pub fn check_range(p: &Value, q: &Value) -> Result<(), ValueFault>
        requires { HaveRange p.now q.now }
        ensures { result ≡ checked (range_of p.now q.now) }
    {
        match (&p.node, &q.node) {
            (Node::Number(p), Node::Number(q)) => match (p.to_whole(), q.to_whole()) {
                (Some(first), Some(last)) => check_numbers(first, last),
                _ => Err(ValueFault::NotWhole),
            },
            (Node::Text(p), Node::Text(q)) => check_characters(p.as_slice(), q.as_slice()),
            _ => unreachable!(),
        }
    }
}

/// Whether a list may have as many elements as there are whole numbers from `p` to `q`. TooLong where it may not.
fn check_numbers(p: i128, q: i128) -> Result<(), ValueFault>
    requires first { unsigned_abs p < 2 ^ 127 }
    requires last { unsigned_abs q < 2 ^ 127 }
    ensures { result ≡ checked (number_range (Some p) (Some q)) }
{
    if count_between(p, q) > MOST_ELEMENTS as u128 {
        return Err(ValueFault::TooLong);
    }
    Ok(())
}

/// The list of the whole numbers from `p` to `q`.
fn range_of_numbers(alloc: Global, p: i128, q: i128) -> Result<Value, ValueFault>
    requires first { unsigned_abs p < 2 ^ 127 }
    requires last { unsigned_abs q < 2 ^ 127 }
    ensures { IsAnswer (number_range (Some p) (Some q)) result }
{
    check_numbers(p, q)?;
    let count = count_between(p, q);
    let mut items = Chunks::new(alloc);
    for k in 0..count as usize {
        items.insert(k, whole_value(p, k))?;
    }
    alike_list(items)
}

/// How many whole numbers there are from `p` to `q`.
fn count_between(p: i128, q: i128) -> u128
    requires first { unsigned_abs p < 2 ^ 127 }
    requires last { unsigned_abs q < 2 ^ 127 }
    ensures { result ≡ count_of (q -ℤ p +ℤ pos 1) }
{
    if q < p { 0 } else { q.abs_diff(p) + 1 }
}

/// The value that is the whole number `p + k`.
fn whole_value(p: i128, k: usize) -> Value
    requires first { unsigned_abs p < 2 ^ 127 }
    requires number { unsigned_abs (p +ℤ pos k) < 2 ^ 127 }
    ensures { result ≡ number (whole_number (p +ℤ pos k)) }
{
    match Num::whole(p + k as i128) {
        Ok(n) => Value::number(n),
        Err(_) => unreachable!(),
    }
}

/// Whether both texts are of one character. OutOfRange where one of them isn't.
fn check_characters(b: &[u8], c: &[u8]) -> Result<(), ValueFault>
    requires first { AreCharacters b.now }
    requires last { AreCharacters c.now }
    ensures { result ≡ checked (character_range b.now c.now) }
{
    if b.len() != 1 || c.len() != 1 {
        return Err(ValueFault::OutOfRange);
    }
    Ok(())
}

/// The list of the characters from the one of `b` to the one of `c`.
fn range_of_characters(alloc: Global, b: &[u8], c: &[u8]) -> Result<Value, ValueFault>
    requires first { AreCharacters b.now }
    requires last { AreCharacters c.now }
    ensures { IsAnswer (character_range b.now c.now) result }
{
    check_characters(b, c)?;
    let first = b[0];
    let mut items = Chunks::new(alloc);
    for k in 0..(c[0] + 1).saturating_sub(first) {
        items.insert(k as usize, Value::text(alloc, &[first + k])?)?;
    }
    alike_list(items)
}
