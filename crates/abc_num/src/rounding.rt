//! Whole numbers near a number.
ghost use Rattle.std.specs.Prelude.{◌≡◌, ◌≢◌, ◌↔◌, ◌<◌, ◌≤◌, ◌+◌, ◌*◌, ◌/◌, ◌^◌, ◌*ℤ◌, neg_ℤ, pos, IsErrOf, IsTrue, if◌then◌else◌};
ghost use Rattle.std.specs.Bool.{OnTrue, OnFalse};
ghost use Rattle.std.specs.Int.{IsGcd, ◌∣◌};
ghost use Rattle.abc_num.specs.Number.{fraction, signed, whole_number, AreParts};
ghost use Rattle.abc_num.specs.Ratio.{IsRatio};
ghost use Rattle.abc_num.specs.Rounding.{floor_of, nearest_of, away_of};
ghost use Rattle.abc_num.specs.Operations.{IsRoundedTo};

use crate::number::Parts;
use crate::reduce::{bounded, gcd};
use crate::{Num, NumFault};

impl Num {
    /// The greatest whole number that is at most `self`.
    pub fn floor(&self) -> Num
        ensures { result ≡ whole_number (floor_of self.now.numerator self.now.denominator) }
    {
        let x = self.parts();
        let away = x.negative && x.top % x.bottom != 0;
        whole_near(x, away)
    }

    /// The least whole number that is at least `self`.
    pub fn ceiling(&self) -> Num
        ensures { result ≡ whole_number (neg_ℤ (floor_of (neg_ℤ self.now.numerator) self.now.denominator)) }
    {
        self.neg().floor().neg()
    }

    /// The nearest whole number, the greater one of two.
    pub fn round(&self) -> Num
        ensures { result ≡ whole_number (nearest_of self.now.numerator self.now.denominator) }
    {
        let x = self.parts();
        let away = is_away(x.negative, x.top % x.bottom, x.bottom);
        whole_near(x, away)
    }

    /// The number of `n` decimal places that is nearest to `self`, the greater one of two; a negative `n` rounds to tens,
    /// hundreds and so on. NotWhole where `n` is a proper fraction, Overflow where no number is the result.
    pub fn round_to(&self, n: &Num) -> Result<Num, NumFault>
        ensures not_whole { IsErrOf result NumFault.NotWhole ↔ (n.now.denominator ≢ 1) }
        ensures value { n.now.denominator ≡ 1 → IsRoundedTo self.now n.now.numerator result }
    {
        let Some(places) = n.to_whole() else {
            return Err(NumFault::NotWhole);
        };
        round_parts(self.parts(), places)
    }
}

/// The number with these parts to so many decimal places.
fn round_parts(x: Parts, places: i128) -> Result<Num, NumFault>
    requires { AreParts x.top x.bottom }
    ensures { IsRoundedTo (fraction (signed x.negative x.top) x.bottom) places result }
{
    let size = places.unsigned_abs();
    if places < 0 {
        return round_to_power(x, size);
    }
    if x.bottom == 1 {
        return bounded(x.negative, x.top, 1);
    }
    round_to_places(x, size)
}

/// The quotient of the parts, or the whole number that follows it, with its sign.
fn whole_near(x: Parts, away: bool) -> Num
    requires positive { 0 < x.bottom }
    requires top { x.top < 2 ^ 127 }
    requires narrow { IsTrue away → x.top < 2 ^ 63 }
    ensures { result ≡ whole_number (signed x.negative (x.top / x.bottom + (if away then 1 else 0))) }
{
    Num::of_parts(x.negative, x.top / x.bottom + u128::from(away), 1)
}

/// Whether a number with this rest is nearer to the whole number that is further from 0.
fn is_away(negative: bool, rest: u128, bottom: u128) -> bool
    requires { (rest < bottom) × (bottom < 2 ^ 127) }
    ensures { result ≡ away_of negative rest bottom }
{
    if negative {
        2 * rest > bottom
    } else {
        2 * rest >= bottom
    }
}

/// A proper fraction to so many decimal places.
fn round_to_places(x: Parts, places: u128) -> Result<Num, NumFault>
    requires lowest { IsGcd x.top x.bottom 1 }
    requires bottom { (2 ≤ x.bottom) × (x.bottom < 2 ^ 63) }
    requires top { x.top < 2 ^ 63 }
    ensures { IsRatio (nearest_of (signed x.negative x.top *ℤ pos (10 ^ places)) x.bottom)
        (pos (10 ^ places)) result }
{
    // A number that is not `x` and so near to it has a denominator past 63 bits.
    if places > 37 {
        return if divides_power(x.bottom, places) {
            bounded(x.negative, x.top, x.bottom)
        } else {
            Err(NumFault::Overflow)
        };
    }
    let decimals = decimals_of(x.top % x.bottom, x.bottom, places);
    let away = is_away(x.negative, decimals.rest, x.bottom);
    with_whole(
        x.negative,
        x.top / x.bottom,
        decimals.digits + u128::from(away),
        decimals.power,
    )
}

/// The number that is `whole + a / b`, or its negative.
fn with_whole(negative: bool, whole: u128, a: u128, b: u128) -> Result<Num, NumFault>
    requires whole { whole < 2 ^ 63 }
    requires parts { (a ≤ b) × (0 < b) }
    ensures { IsRatio (signed negative (whole * b + a)) (pos b) result }
{
    let divisor = gcd(a, b);
    let bottom = b / divisor;
    if bottom >= 1 << 63 {
        return Err(NumFault::Overflow);
    }
    bounded(negative, whole * bottom + a / divisor, bottom)
}

/// The first decimals of a fraction: `digits / power`, and what is left of it over the same denominator.
#[derive(Clone, Copy)]
struct Decimals {
    digits: u128,
    rest: u128,
    power: u128,
}

/// The first decimals of `top / bottom`, by long division.
fn decimals_of(top: u128, bottom: u128, places: u128) -> Decimals
    requires proper { (top < bottom) × (bottom < 2 ^ 63) }
    requires places { places ≤ 37 }
    ensures power { result.power ≡ 10 ^ places }
    ensures value { top * result.power ≡ result.digits * bottom + result.rest }
    ensures rest { result.rest < bottom }
    ensures digits { result.digits < result.power }
    ensures small { result.power ≤ 10 ^ 37 }
{
    let mut decimals = Decimals {
        digits: 0,
        rest: top,
        power: 1,
    };
    for _ in 0..places {
        let tens = 10 * decimals.rest;
        decimals = Decimals {
            digits: 10 * decimals.digits + tens / bottom,
            rest: tens % bottom,
            power: 10 * decimals.power,
        };
    }
    decimals
}

/// Whether `number` divides 10 to the `exponent`.
fn divides_power(number: u128, exponent: u128) -> bool
    requires { 0 < number }
    ensures divides { OnTrue result (number ∣ (10 ^ exponent)) }
    ensures divides_not { OnFalse result (¬ (number ∣ (10 ^ exponent))) }
{
    let mut left = number;
    let mut turns = exponent;
    while left != 1 && turns > 0 {
        let common = gcd(left, 10);
        if common == 1 {
            return false;
        }
        left /= common;
        turns -= 1;
    }
    left == 1
}

/// A number to ten to the `places`.
fn round_to_power(x: Parts, places: u128) -> Result<Num, NumFault>
    requires positive { 0 < x.bottom }
    requires bottom { x.bottom < 2 ^ 63 }
    requires top { x.top < 2 ^ 127 }
    requires places { 0 < places }
    ensures { IsRatio (nearest_of (signed x.negative x.top) (x.bottom * 10 ^ places) *ℤ pos (10 ^ places))
        (pos 1) result }
{
    // Half of 10^39 is past each number.
    if places > 38 {
        return bounded(false, 0, 1);
    }
    let power = power_of_ten(places);
    let whole = x.top / x.bottom;
    // At exactly half of the power, a fraction that is left makes it more than half.
    let exact = x.top % x.bottom == 0;
    let away = is_away(x.negative && exact, whole % power, power);
    bounded(x.negative, (whole / power + u128::from(away)) * power, 1)
}

fn power_of_ten(places: u128) -> u128
    requires { places ≤ 38 }
    ensures power { result ≡ 10 ^ places }
    ensures small { result ≤ 10 ^ 38 }
{
    let mut power: u128 = 1;
    for _ in 0..places {
        power *= 10;
    }
    power
}
