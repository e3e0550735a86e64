//! The elements of trains: their order, and how many equal a value.
ghost use Rattle.std.specs.Prelude.{◌≡◌, ◌<◌, ◌∷◌, [], length, Ok};
ghost use Rattle.std.specs.List.{count_by};
ghost use Rattle.abc_value.specs.Tree.{text};
ghost use Rattle.abc_value.specs.Order.{order};
ghost use Rattle.abc_value.specs.Parts.{IsText, IsList};
ghost use Rattle.abc_value.specs.Items.{IsAnswer, IsTrain, elements_of};
ghost use Rattle.abc_predef.specs.Trains.{count_of, is_in};
ghost use Rattle.abc_predef.specs.inner.Places.{IsFront, IsLike, element_at, is_on};

use crate::numbers::place_number;
use abc_value::{Kind, Value, ValueFault};
use std::cmp::Ordering;

/// The character at a place of a text, counted from 0.
fn character_at(t: &Value, i: usize) -> u8
    requires text { IsText t.now }
    requires within { i < length (elements_of t.now) }
    ensures { element_at t.now i ≡ text (result ∷ []) }
{
    let Some(code) = t.byte(i) else {
        unreachable!()
    };
    code
}

/// The order of a text of one character and a text.
fn character_order(code: u8, e: &Value) -> Ordering
    requires { IsText e.now }
    ensures { result ≡ order (text (code ∷ [])) e.now }
{
    let Some(first) = e.byte(0) else {
        return Ordering::Greater;
    };
    match code.cmp(&first) {
        Ordering::Equal if e.len() > 1 => Ordering::Less,
        other => other,
    }
}

/// The order of the element at a place, counted from 0, and `e`.
pub(crate) fn order_at(t: &Value, i: usize, e: &Value) -> Ordering
    requires train { IsTrain t.now }
    requires within { i < length (elements_of t.now) }
    requires like { IsLike e.now t.now }
    ensures { result ≡ order (element_at t.now i) e.now }
{
    match t.part(i) {
        Some(part) => part.cmp(e),
        None => character_order(character_at(t, i), e),
    }
}

/// The order of the elements at two places, counted from 0.
pub(crate) fn order_between(t: &Value, i: usize, j: usize) -> Ordering
    requires train { IsTrain t.now }
    requires first { i < length (elements_of t.now) }
    requires second { j < length (elements_of t.now) }
    ensures { result ≡ order (element_at t.now i) (element_at t.now j) }
{
    match (t.part(i), t.part(j)) {
        (Some(first), Some(second)) => first.cmp(second),
        _ => character_at(t, i).cmp(&character_at(t, j)),
    }
}

/// The element at a place, counted from 0.
pub(crate) fn element(t: &Value, i: usize) -> Result<Value, ValueFault>
    requires train { IsTrain t.now }
    requires within { i < length (elements_of t.now) }
    ensures { IsAnswer (Ok (element_at t.now i)) result }
{
    t.item(&place_number(i))
}

/// `e # t`: how many elements equal `e`.
pub(crate) fn count(e: &Value, t: &Value) -> usize
    requires train { IsTrain t.now }
    requires like { IsLike e.now t.now }
    ensures { result ≡ count_of e.now t.now }
{
    match t.kind() {
        Kind::List => count_on(t, e, Side::UpTo) - count_on(t, e, Side::Below),
        _ => count_one_by_one(e, t),
    }
}

/// How many elements equal `e`, by a look at each.
fn count_one_by_one(e: &Value, t: &Value) -> usize
    requires train { IsTrain t.now }
    requires like { IsLike e.now t.now }
    ensures { result ≡ count_of e.now t.now }
{
    let mut count: usize = 0;
    for i in 0..t.len() {
        count += usize::from(order_at(t, i, e) == Ordering::Equal);
    }
    count
}

/// `e in t`: whether an element equals `e`.
pub(crate) fn contains(e: &Value, t: &Value) -> bool
    requires train { IsTrain t.now }
    requires like { IsLike e.now t.now }
    ensures { result ≡ is_in e.now t.now }
{
    match t.kind() {
        Kind::List => count(e, t) > 0,
        _ => is_among(e, t),
    }
}

/// Whether an element equals `e`, by a look at each up to the first that does.
fn is_among(e: &Value, t: &Value) -> bool
    requires train { IsTrain t.now }
    requires like { IsLike e.now t.now }
    ensures { result ≡ is_in e.now t.now }
{
    for i in 0..t.len() {
        if order_at(t, i, e) == Ordering::Equal {
            return true;
        }
    }
    false
}

/// The values that are less than another, or those that are not greater.
#[derive(Clone, Copy)]
pub(crate) enum Side {
    Below,
    UpTo,
}

/// Whether a value is on this side, by its order to the other.
fn is_on(side: Side, order: Ordering) -> bool
    ensures { result ≡ is_on side order }
{
    match side {
        Side::Below => order == Ordering::Less,
        Side::UpTo => order != Ordering::Greater,
    }
}

/// How many elements of a list are on a side of `e`, by halves: they stand in front.
pub(crate) fn count_on(t: &Value, e: &Value, side: Side) -> usize
    requires { IsList t.now }
    ensures count { result ≡ count_by (λ x. is_on side (order x e.now)) (elements_of t.now) }
    ensures front { IsFront (λ x. is_on side (order x e.now)) t.now result }
{
    let mut low = 0;
    let mut high = t.len();
    while low < high {
        let middle = low + (high - low) / 2;
        let Some(part) = t.part(middle) else {
            unreachable!()
        };
        if is_on(side, part.cmp(e)) {
            low = middle + 1;
        } else {
            high = middle;
        }
    }
    low
}
