//! From any fraction to the number that it is.
ghost use Rattle.std.specs.Prelude.{◌<◌, ◌*◌, pos};
ghost use Rattle.std.specs.Int.{IsGcd};
ghost use Rattle.abc_num.specs.Number.{signed};
ghost use Rattle.abc_num.specs.Ratio.{IsRatio};

use crate::{Num, NumFault};

/// The greatest common divisor.
pub(crate) fn gcd(a: u128, b: u128) -> u128
    ensures { IsGcd a b result }
{
    let mut x = a;
    let mut y = b;
    while y != 0 {
        let rest = x % y;
        x = y;
        y = rest;
    }
    x
}

/// The number `top / bottom`, or its negative. Both have no divisor in common.
pub(crate) fn bounded(negative: bool, top: u128, bottom: u128) -> Result<Num, NumFault>
    requires lowest { IsGcd top bottom 1 }
    requires positive { 0 < bottom }
    ensures { IsRatio (signed negative top) (pos bottom) result }
{
    if bottom == 1 {
        if top < 1 << 127 {
            return Ok(Num::of_parts(negative, top, 1));
        }
        return Err(NumFault::Overflow);
    }
    if top < 1 << 63 && bottom < 1 << 63 {
        return Ok(Num::of_parts(negative, top, bottom));
    }
    Err(NumFault::Overflow)
}

/// The number that is `a / b`, or its negative.
pub(crate) fn lowest(negative: bool, a: u128, b: u128) -> Result<Num, NumFault>
    requires { 0 < b }
    ensures { IsRatio (signed negative a) (pos b) result }
{
    if b == 1 {
        return bounded(negative, a, 1);
    }
    let divisor = gcd(a, b);
    bounded(negative, a / divisor, b / divisor)
}

/// The number that is `a / b * c / d`, or its negative, where both are in lowest terms.
pub(crate) fn product(negative: bool, a: u128, b: u128, c: u128, d: u128) -> Result<Num, NumFault>
    requires left_lowest { IsGcd a b 1 }
    requires right_lowest { IsGcd c d 1 }
    requires left_positive { 0 < b }
    requires right_positive { 0 < d }
    ensures { IsRatio (signed negative (a * c)) (pos (b * d)) result }
{
    if b == 1 && d == 1 {
        return whole_product(negative, a, c);
    }
    let left = gcd(a, d);
    let right = gcd(c, b);
    let Some(top) = (a / left).checked_mul(c / right) else {
        return Err(NumFault::Overflow);
    };
    let Some(bottom) = (b / right).checked_mul(d / left) else {
        return Err(NumFault::Overflow);
    };
    bounded(negative, top, bottom)
}

/// The whole number `a * c`, or its negative.
fn whole_product(negative: bool, a: u128, c: u128) -> Result<Num, NumFault>
    ensures { IsRatio (signed negative (a * c)) (pos 1) result }
{
    let Some(size) = a.checked_mul(c) else {
        return Err(NumFault::Overflow);
    };
    bounded(negative, size, 1)
}
