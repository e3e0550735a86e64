//! The rows of least and greatest elements.
ghost use Rattle.std.specs.Prelude.{◌≡◌, ◌<◌, List, [], ◌∷◌, ◌++◌, length, not, nat_lt, if◌then◌else◌, None, Some};
ghost use Rattle.std.specs.Option.{ok_or, option_map, ForSome};
ghost use Rattle.std.specs.List.{filter};
ghost use Rattle.abc_value.specs.Tree.{Tree};
ghost use Rattle.abc_value.specs.Items.{IsAnswer, IsTrain, elements_of};
ghost use Rattle.abc_value.specs.Parts.{IsList};
ghost use Rattle.abc_value.specs.Regular.{IsRegular};
ghost use Rattle.abc_predef.specs.Trains.{is_better, best_of};
ghost use Rattle.abc_predef.specs.inner.Places.{IsFront, before, IsLike, IsPlaceOfBest, element_at, is_wanted, better_with};

use crate::trains::{Side, count_on, element, order_at, order_between};
use abc_value::{Kind, Value, ValueFault};
use std::cmp::Ordering;

/// The least or the greatest.
#[derive(Clone, Copy)]
pub(crate) enum Extreme {
    Least,
    Greatest,
}

/// `min t` and `max t`, or with an `e` the least element above it and the greatest below it. NoElement where there is
/// none.
pub(crate) fn extreme_element(
    end: Extreme,
    e: Option<&Value>,
    t: &Value,
) -> Result<Value, ValueFault>
    requires train { IsTrain t.now }
    requires like { ForSome e (λ e. IsLike e.now t.now) }
    ensures { IsAnswer (ok_or (best_of end (filter (is_wanted end (option_map (λ e. e.now) e.entry)) (elements_of t.now))) ValueFault.NoElement) result }
{
    match best_place(end, e, t) {
        Some(place) => element(t, place),
        None => Err(ValueFault::NoElement),
    }
}

/// The place of the best of the elements that are wanted. A list is searched by halves.
fn best_place(end: Extreme, e: Option<&Value>, t: &Value) -> Option<usize>
    requires train { IsTrain t.now }
    requires like { ForSome e (λ e. IsLike e.now t.now) }
    ensures { IsPlaceOfBest end t.now (filter (is_wanted end (option_map (λ e. e.now) e.entry)) (elements_of t.now)) result }
{
    match t.kind() {
        Kind::List => best_in_list(end, e, t),
        _ => best_one_by_one(end, e, t),
    }
}

/// The place of the best of the elements of a list that are wanted. They stand in order, so it is the first of those
/// that are wanted, or the last.
fn best_in_list(end: Extreme, e: Option<&Value>, t: &Value) -> Option<usize>
    requires { IsList t.now }
    ensures { IsPlaceOfBest end t.now (filter (is_wanted end (option_map (λ e. e.now) e.entry)) (elements_of t.now)) result }
{
    match end {
        Extreme::Least => place_within(not_above(e, t), t.len()),
        Extreme::Greatest => place_before(below(e, t)),
    }
}

/// The place, if it is within the length.
fn place_within(place: usize, length: usize) -> Option<usize>
    ensures { result ≡ (if nat_lt place length then Some place else None) }
{
    if place < length { Some(place) } else { None }
}

/// The place before another, if there is one.
fn place_before(place: usize) -> Option<usize>
    ensures { result ≡ before place }
{
    if place > 0 { Some(place - 1) } else { None }
}

/// How many elements of a list are not above `e`; none where there is no `e`.
fn not_above(e: Option<&Value>, t: &Value) -> usize
    requires { IsList t.now }
    ensures front { IsFront (λ x. not (is_wanted Extreme.Least (option_map (λ e. e.now) e.entry) x)) t.now result }
    ensures regular { IsRegular t.now }
{
    // Its clause tells that the list is in order.
    let _all = t.len();
    match e {
        Some(e) => count_on(t, e, Side::UpTo),
        None => 0,
    }
}

/// How many elements of a list are below `e`; all where there is no `e`.
fn below(e: Option<&Value>, t: &Value) -> usize
    requires { IsList t.now }
    ensures front { IsFront (is_wanted Extreme.Greatest (option_map (λ e. e.now) e.entry)) t.now result }
    ensures regular { IsRegular t.now }
{
    let all = t.len();
    match e {
        Some(e) => count_on(t, e, Side::Below),
        None => all,
    }
}

/// The place of the best of the elements that are wanted, by a look at each.
fn best_one_by_one(end: Extreme, e: Option<&Value>, t: &Value) -> Option<usize>
    requires train { IsTrain t.now }
    requires like { ForSome e (λ e. IsLike e.now t.now) }
    ensures { IsPlaceOfBest end t.now (filter (is_wanted end (option_map (λ e. e.now) e.entry)) (elements_of t.now)) result }
{
    let mut best = None;
    for i in 0..t.len() {
        best = next_best(end, e, t, best, i);
    }
    best
}

/// The place of the best, with one more element.
fn next_best(
    end: Extreme,
    e: Option<&Value>,
    t: &Value,
    best: Option<usize>,
    i: usize,
) -> Option<usize>
    requires train { IsTrain t.now }
    requires like { ForSome e (λ e. IsLike e.now t.now) }
    requires within { i < length (elements_of t.now) }
    requires best { ForSome best (λ place. place < length (elements_of t.now)) }
    ensures { (xs : List Tree) → IsPlaceOfBest end t.now xs best
        → IsPlaceOfBest end t.now (xs ++ filter (is_wanted end (option_map (λ e. e.now) e.entry)) (element_at t.now i ∷ [])) result }
{
    if is_wanted_at(end, e, t, i) {
        Some(better_place(end, t, best, i))
    } else {
        best
    }
}

/// Whether the element at a place is wanted: above `e` for the least, below it for the greatest.
fn is_wanted_at(end: Extreme, e: Option<&Value>, t: &Value, i: usize) -> bool
    requires train { IsTrain t.now }
    requires like { ForSome e (λ e. IsLike e.now t.now) }
    requires within { i < length (elements_of t.now) }
    ensures { result ≡ is_wanted end (option_map (λ e. e.now) e.entry) (element_at t.now i) }
{
    let Some(e) = e else {
        return true;
    };
    let order = order_at(t, i, e);
    match end {
        Extreme::Least => order == Ordering::Greater,
        Extreme::Greatest => order == Ordering::Less,
    }
}

/// The place of the better one of two elements, or the second where there is no first.
fn better_place(end: Extreme, t: &Value, best: Option<usize>, i: usize) -> usize
    requires train { IsTrain t.now }
    requires within { i < length (elements_of t.now) }
    requires best { ForSome best (λ place. place < length (elements_of t.now)) }
    ensures within { result < length (elements_of t.now) }
    ensures better { element_at t.now result ≡ better_with end (option_map (element_at t.now) best) (element_at t.now i) }
{
    match best {
        Some(place) if !is_better(end, order_between(t, i, place)) => place,
        _ => i,
    }
}

/// Whether the first of two is the better one, by their order.
fn is_better(end: Extreme, order: Ordering) -> bool
    ensures { result ≡ is_better end order }
{
    match end {
        Extreme::Least => order == Ordering::Less,
        Extreme::Greatest => order == Ordering::Greater,
    }
}
