//! Numbers as they are spelled.
ghost use Rattle.std.specs.Prelude.{◌≡◌, ◌≤◌, ◌+◌, ◌*◌, ◌^◌, ℕ, All, length, take, drop, pos, IfOk, IfErr, IfSome, IfNone};
ghost use Rattle.abc_num.specs.Literal.{IsDigit, IsNumberToken, SpellsFraction, digits_value, in_front, behind, literal_numerator, literal_denominator};
ghost use Rattle.abc_num.specs.Ratio.{HasValue, IsNoNumber, IsRatio};

use crate::number::Parts;
use crate::reduce::{bounded, gcd};
use crate::{Num, NumFault};

/// The value of a spelling is no number.
#[derive(Clone, Copy, PartialEq, Eq, Debug)]
pub struct BadNumber;

/// The number that these digits spell, with at most one point among them. BadNumber where their value is no number.
pub fn read_literal(b: &[u8]) -> Result<Num, BadNumber>
    requires { IsNumberToken b.now }
    ensures ok { IfOk result
        (HasValue (pos (literal_numerator b.now)) (pos (literal_denominator b.now))) }
    ensures bad { IfErr result
        (λ _. IsNoNumber (pos (literal_numerator b.now)) (pos (literal_denominator b.now))) }
{
    let point = point_of(b);
    match read_parts(&b[..point], behind_point(b, point)) {
        Ok(number) => Ok(number),
        Err(_) => Err(BadNumber),
    }
}

/// Where the point stands, or the length where there is none.
fn point_of(b: &[u8]) -> usize
    ensures within { result ≤ length b.now }
    ensures front { take result b.now ≡ in_front b.now }
    ensures behind { drop (result + 1) b.now ≡ behind b.now }
{
    let mut at = 0;
    while at < b.len() && b[at] != b'.' {
        at += 1;
    }
    at
}

/// What stands behind this place, if it is one.
fn behind_point(b: &[u8], point: usize) -> &[u8]
    requires { point ≤ length b.now }
    ensures { result.now ≡ drop (point + 1) b.now }
{
    if point < b.len() {
        &b[point + 1..]
    } else {
        &b[point..]
    }
}

/// The number with these digits in front of the point and behind it.
fn read_parts(front: &[u8], decimals: &[u8]) -> Result<Num, NumFault>
    requires front { All IsDigit front.now }
    requires decimals { All IsDigit decimals.now }
    ensures { IsRatio
        (pos (digits_value front.now * 10 ^ length decimals.now + digits_value decimals.now))
        (pos (10 ^ length decimals.now)) result }
{
    let Some(rest) = read_decimals(decimals) else {
        return Err(NumFault::Overflow);
    };
    let Some(whole) = read_digits(front) else {
        return Err(NumFault::Overflow);
    };
    let Some(top) = whole.checked_mul(rest.bottom) else {
        return Err(NumFault::Overflow);
    };
    let Some(top) = top.checked_add(rest.top) else {
        return Err(NumFault::Overflow);
    };
    bounded(false, top, rest.bottom)
}

/// The fraction that these decimals spell, in lowest terms. There is none only where its denominator has more than
/// 63 bits; then no number ends in these decimals.
fn read_decimals(b: &[u8]) -> Option<Parts>
    requires { All IsDigit b.now }
    ensures some { IfSome result (λ x. SpellsFraction b.now x.top x.bottom) }
    ensures none { IfNone result ((whole : ℕ) →
        IsNoNumber (pos (whole * 10 ^ length b.now + digits_value b.now)) (pos (10 ^ length b.now))) }
{
    let mut top: u128 = 0;
    let mut bottom: u128 = 1;
    let mut left = b.len();
    while left > 0 {
        left -= 1;
        let tens = u128::from(b[left] - b'0') * bottom + top;
        let divisor = gcd(tens, 10 * bottom);
        top = tens / divisor;
        bottom = 10 * bottom / divisor;
        if bottom >= 1 << 63 {
            return None;
        }
    }
    Some(Parts {
        negative: false,
        top,
        bottom,
    })
}

/// The value of these digits. There is none only where it has more than 127 bits.
fn read_digits(b: &[u8]) -> Option<u128>
    requires { All IsDigit b.now }
    ensures some { IfSome result (λ value. value ≡ digits_value b.now) }
    ensures none { IfNone result (2 ^ 127 ≤ digits_value b.now) }
{
    let mut value: u128 = 0;
    for &c in b {
        value = value.checked_mul(10)?.checked_add(u128::from(c - b'0'))?;
    }
    Some(value)
}
