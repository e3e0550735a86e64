//! Powers with whole exponents.
ghost use Rattle.std.specs.Prelude.{◌≡◌, ◌≢◌, ◌↔◌, ◌<◌, ◌≤◌, ◌^◌, ◌<ℤ◌, pos, IfSome, IfNone, IsErrOf};
ghost use Rattle.std.specs.Int.{IsGcd, int_pow};
ghost use Rattle.abc_num.specs.Number.{fraction, signed, AreParts};
ghost use Rattle.abc_num.specs.Ratio.{IsRatio};
ghost use Rattle.abc_num.specs.Operations.{IsPower, DividesByZero};

use crate::number::Parts;
use crate::reduce::bounded;
use crate::{Num, NumFault};

impl Num {
    /// `self` to the `n`; 0 to the 0 is 1. NotWhole where `n` is a proper fraction, DivisionByZero for 0 to a negative `n`,
    /// Overflow where no number is the power.
    pub fn pow(&self, n: &Num) -> Result<Num, NumFault>
        ensures not_whole { IsErrOf result NumFault.NotWhole ↔ (n.now.denominator ≢ 1) }
        ensures zero { IsErrOf result NumFault.DivisionByZero ↔
            ((n.now.denominator ≡ 1) × DividesByZero self.now n.now.numerator) }
        ensures value { n.now.denominator ≡ 1 → ¬ (DividesByZero self.now n.now.numerator) →
            IsPower self.now n.now.numerator result }
    {
        let Some(exponent) = n.to_whole() else {
            return Err(NumFault::NotWhole);
        };
        let x = self.parts();
        if exponent < 0 && x.top == 0 {
            return Err(NumFault::DivisionByZero);
        }
        power_of_parts(x, exponent)
    }
}

/// The number with these parts to the `exponent`.
fn power_of_parts(x: Parts, exponent: i128) -> Result<Num, NumFault>
    requires parts { AreParts x.top x.bottom }
    requires divisor { exponent <ℤ pos 0 → 0 < x.top }
    ensures { IsPower (fraction (signed x.negative x.top) x.bottom) exponent result }
{
    let size = exponent.unsigned_abs();
    if exponent < 0 {
        power_of_ratio(x.negative, x.bottom, x.top, size)
    } else {
        power_of_ratio(x.negative, x.top, x.bottom, size)
    }
}

/// `a / b`, or its negative, to the `exponent`, where `a / b` is in lowest terms.
fn power_of_ratio(negative: bool, a: u128, b: u128, exponent: u128) -> Result<Num, NumFault>
    requires lowest { IsGcd a b 1 }
    requires positive { 0 < b }
    ensures { IsRatio (int_pow (signed negative a) exponent) (pos (b ^ exponent)) result }
{
    let Some(top) = power(a, exponent) else {
        return Err(NumFault::Overflow);
    };
    let Some(bottom) = power(b, exponent) else {
        return Err(NumFault::Overflow);
    };
    if exponent % 2 == 0 {
        bounded(false, top, bottom)
    } else {
        bounded(negative, top, bottom)
    }
}

/// `base` to the `exponent`. There is none only where it has more than 128 bits.
fn power(base: u128, exponent: u128) -> Option<u128>
    ensures some { IfSome result (λ n. n ≡ base ^ exponent) }
    ensures none { IfNone result (2 ^ 128 ≤ base ^ exponent) }
{
    if base < 2 {
        return Some(if exponent == 0 { 1 } else { base });
    }
    // It doubles at each turn at least, so there are at most 128.
    let mut product: u128 = 1;
    for _ in 0..exponent {
        product = product.checked_mul(base)?;
    }
    Some(product)
}
