//! The rows of texts.
ghost use Rattle.std.specs.Prelude.{◌≡◌, ◌≤◌, ◌*◌, nat_lt, length, map, IfOk, IfErr, Ok};
ghost use Rattle.std.specs.List.{repeat};
ghost use Rattle.abc_num.specs.Number.{whole_of};
ghost use Rattle.abc_value.specs.Tree.{text};
ghost use Rattle.abc_value.specs.Parts.{IsText, codes_of};
ghost use Rattle.abc_value.specs.Regular.{AreCharacters};
ghost use Rattle.abc_value.specs.Items.{IsAnswer};
ghost use Rattle.abc_predef.specs.Texts.{joined, count_of, repeated, from_place, first_part, in_case, stripped, without_leading, without_trailing};

use crate::characters::{Case, SPACE, letter_in};
use abc_num::Num;
use abc_num::limits::MOST_ELEMENTS;
use abc_value::{Value, ValueFault};
use std::alloc::Global;

/// The text of these codes, which are not too many.
pub(crate) fn short_text(alloc: Global, codes: &[u8]) -> Result<Value, ValueFault>
    requires characters { AreCharacters codes.now }
    requires short { length codes.now ≤ MOST_ELEMENTS }
    ensures { IsAnswer (Ok (text codes.now)) result }
{
    Value::text(alloc, codes)
}

/// The text of these codes, which are not too many and are kept as they are.
pub(crate) fn short_text_from(codes: Vec<u8>) -> Result<Value, ValueFault>
    requires characters { AreCharacters codes.items }
    requires short { length codes.items ≤ MOST_ELEMENTS }
    ensures { IsAnswer (Ok (text codes.items)) result }
{
    Value::text_from(codes)
}

/// The number as a count. NotWhole, and OutOfRange where it is negative.
pub(crate) fn count(n: &Num) -> Result<u128, ValueFault>
    ensures { result ≡ count_of (whole_of n.now) }
{
    match n.to_whole() {
        None => Err(ValueFault::NotWhole),
        Some(whole) if whole < 0 => Err(ValueFault::OutOfRange),
        Some(whole) => Ok(whole as u128),
    }
}

/// `t ^ u`: the two texts as one.
pub(crate) fn join(alloc: Global, t: &Value, u: &Value) -> Result<Value, ValueFault>
    requires first { IsText t.now }
    requires second { IsText u.now }
    ensures { IsAnswer (joined (codes_of t.now) (codes_of u.now)) result }
{
    let front = t.codes();
    let behind = u.codes();
    let length = front.len() + behind.len();
    if length > MOST_ELEMENTS {
        return Err(ValueFault::TooLong);
    }
    let mut all = Vec::with_capacity(alloc, length)?;
    all.extend_from_slice(front)?;
    all.extend_from_slice(behind)?;
    short_text_from(all)
}

/// `t @ p`: the text from the place `p` on, which counts from 1.
pub(crate) fn behead(alloc: Global, t: &Value, p: &Num) -> Result<Value, ValueFault>
    requires { IsText t.now }
    ensures { IsAnswer (from_place (codes_of t.now) (whole_of p.now)) result }
{
    let codes = t.codes();
    let place = count(p)?;
    if place < 1 || place > codes.len() as u128 + 1 {
        return Err(ValueFault::OutOfRange);
    }
    short_text(alloc, &codes[place as usize - 1..])
}

/// `t | n`: the first `n` characters.
pub(crate) fn curtail(alloc: Global, t: &Value, n: &Num) -> Result<Value, ValueFault>
    requires { IsText t.now }
    ensures { IsAnswer (first_part (codes_of t.now) (whole_of n.now)) result }
{
    let codes = t.codes();
    let count = count(n)?;
    if count > codes.len() as u128 {
        return Err(ValueFault::OutOfRange);
    }
    short_text(alloc, &codes[..count as usize])
}

/// `t ^^ n`: the text `n` times.
pub(crate) fn repeat(alloc: Global, t: &Value, n: &Num) -> Result<Value, ValueFault>
    requires { IsText t.now }
    ensures { IsAnswer (repeated (codes_of t.now) (whole_of n.now)) result }
{
    let part = t.codes();
    let count = count(n)?;
    if is_past_limit(count, part.len()) {
        return Err(ValueFault::TooLong);
    }
    let all = repeat_codes(alloc, part, count)?;
    short_text_from(all)
}

/// Whether so many parts of a length are longer than a text may be.
fn is_past_limit(count: u128, length: usize) -> bool
    ensures { result ≡ nat_lt MOST_ELEMENTS (count * length) }
{
    match count.checked_mul(length as u128) {
        Some(all) => all > MOST_ELEMENTS as u128,
        None => true,
    }
}

/// The codes so many times.
fn repeat_codes(alloc: Global, part: &[u8], count: u128) -> Result<Vec<u8>, ValueFault>
    requires { count * length part.now ≤ MOST_ELEMENTS }
    ensures ok { IfOk result (λ v. v.items ≡ repeat count part.now) }
    ensures err { IfErr result (λ f. f ≡ ValueFault.Memory) }
{
    // However often the empty text is repeated, it takes no time.
    if part.is_empty() {
        return Ok(Vec::new(alloc));
    }
    let mut all = Vec::with_capacity(alloc, count as usize * part.len())?;
    for _ in 0..count {
        all.extend_from_slice(part)?;
    }
    Ok(all)
}

/// `lower t` and `upper t`: the text with its letters in one case.
pub(crate) fn with_case(alloc: Global, t: &Value, case: Case) -> Result<Value, ValueFault>
    requires { IsText t.now }
    ensures { IsAnswer (Ok (text (map (in_case case) (codes_of t.now)))) result }
{
    let changed = codes_in(alloc, t.codes(), case)?;
    short_text_from(changed)
}

/// The codes with letters in one case.
fn codes_in(alloc: Global, b: &[u8], case: Case) -> Result<Vec<u8>, ValueFault>
    ensures ok { IfOk result (λ v. v.items ≡ map (in_case case) b.now) }
    ensures err { IfErr result (λ f. f ≡ ValueFault.Memory) }
{
    Ok(b.iter().map(|code| letter_in(case, *code)).collect(alloc)?)
}

/// `stripped t`: the text without spaces at both ends.
pub(crate) fn strip(alloc: Global, t: &Value) -> Result<Value, ValueFault>
    requires { IsText t.now }
    ensures { IsAnswer (Ok (text (stripped (codes_of t.now)))) result }
{
    short_text(alloc, strip_end(strip_front(t.codes())))
}

/// The codes from the first on that is no space.
fn strip_front(b: &[u8]) -> &[u8]
    ensures { result.now ≡ without_leading b.now }
{
    let mut start = 0;
    while start < b.len() && b[start] == SPACE {
        start += 1;
    }
    &b[start..]
}

/// The codes up to the last that is no space.
fn strip_end(b: &[u8]) -> &[u8]
    ensures { result.now ≡ without_trailing b.now }
{
    let mut end = b.len();
    while end > 0 && b[end - 1] == SPACE {
        end -= 1;
    }
    &b[..end]
}
