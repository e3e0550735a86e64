//! The rows that align the outer text of a value.
ghost use Rattle.std.specs.Prelude.{◌≡◌, ◌≢◌, ◌<◌, ◌≤◌, length, IfOk, IfErr};
ghost use Rattle.abc_num.specs.Number.{whole_of};
ghost use Rattle.abc_value.specs.Printed.{outer};
ghost use Rattle.abc_value.specs.Regular.{AreCharacters};
ghost use Rattle.abc_value.specs.Items.{IsAnswer};
ghost use Rattle.abc_predef.specs.Aligned.{aligned, between_spaces, left_share, padded};

use crate::characters::SPACE;
use crate::texts::{count, short_text_from};
use abc_num::Num;
use abc_num::limits::MOST_ELEMENTS;
use abc_value::{PrintFault, Value, ValueFault, text_of};
use std::alloc::Global;

/// Where the text stands.
#[derive(Clone, Copy)]
pub(crate) enum Alignment {
    Left,
    Center,
    Right,
}

/// `x << n`, `x >< n` and `x >> n`: the outer text of `x`, with spaces up to the length `n`.
pub(crate) fn align(
    alloc: Global,
    x: &Value,
    n: &Num,
    alignment: Alignment,
) -> Result<Value, ValueFault>
    ensures { IsAnswer (aligned alignment (outer x.now) (whole_of n.now)) result }
{
    let text = outer_text(alloc, x)?;
    let length = count(n)?;
    if length > MOST_ELEMENTS as u128 {
        return Err(ValueFault::TooLong);
    }
    let all = pad(alloc, &text, length as usize, alignment)?;
    short_text_from(all)
}

/// The outer text of a value. TooLong where it is no text of a value.
fn outer_text(alloc: Global, x: &Value) -> Result<Vec<u8>, ValueFault>
    ensures ok { IfOk result (λ v. v.items ≡ outer x.now) }
    ensures short { IfOk result (λ _. length (outer x.now) ≤ MOST_ELEMENTS) }
    ensures err { IfErr result (λ f. f ≢ ValueFault.Memory → (f ≡ ValueFault.TooLong) × (MOST_ELEMENTS < length (outer x.now))) }
    ensures characters { AreCharacters (outer x.now) }
{
    // Its clause tells that the texts within the value are characters.
    let _height = x.height();
    match text_of(alloc, x, MOST_ELEMENTS) {
        Ok(text) => Ok(text),
        Err(PrintFault::TooLong) => Err(ValueFault::TooLong),
        Err(PrintFault::Memory) => Err(ValueFault::Memory),
    }
}

/// The text with spaces up to a length.
fn pad(alloc: Global, b: &[u8], length: usize, alignment: Alignment) -> Result<Vec<u8>, ValueFault>
    ensures ok { IfOk result (λ v. v.items ≡ padded alignment b.now length) }
    ensures err { IfErr result (λ f. f ≡ ValueFault.Memory) }
{
    let spaces = length.saturating_sub(b.len());
    let left = share(alignment, spaces);
    with_spaces(alloc, left, b, spaces - left)
}

/// How many of the spaces stand at the left.
fn share(alignment: Alignment, spaces: usize) -> usize
    ensures share { result ≡ left_share alignment spaces }
    ensures within { result ≤ spaces }
{
    match alignment {
        Alignment::Left => 0,
        Alignment::Center => spaces / 2,
        Alignment::Right => spaces,
    }
}

/// The text with so many spaces at both sides.
fn with_spaces(alloc: Global, left: usize, b: &[u8], right: usize) -> Result<Vec<u8>, ValueFault>
    ensures ok { IfOk result (λ v. v.items ≡ between_spaces left b.now right) }
    ensures err { IfErr result (λ f. f ≡ ValueFault.Memory) }
{
    let length = left.saturating_add(b.len()).saturating_add(right);
    let mut all = Vec::with_capacity(alloc, length)?;
    all.resize(left, SPACE)?;
    all.extend_from_slice(b)?;
    all.resize(length, SPACE)?;
    Ok(all)
}
