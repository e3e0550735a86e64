//! Sums, products, quotients and rests of numbers.
ghost use Rattle.std.specs.Prelude.{◌≡◌, ◌≢◌, ◌↔◌, ◌<◌, ◌≤◌, ◌*◌, ◌%◌, ◌^◌, ◌+ℤ◌, pos, IsErrOf};
ghost use Rattle.abc_num.specs.Number.{fraction, signed, AreParts};
ghost use Rattle.abc_num.specs.Ratio.{IsRatio};
ghost use Rattle.abc_num.specs.Operations.{IsSum, IsDifference, IsProduct, IsQuotient, IsRest};

use crate::number::Parts;
use crate::reduce::{bounded, lowest, product};
use crate::{Num, NumFault};

impl Num {
    /// The number `p / q`. DivisionByZero where `q` is 0, Overflow where no number is the quotient.
    pub fn ratio(p: i128, q: i128) -> Result<Num, NumFault>
        ensures zero { IsErrOf result NumFault.DivisionByZero ↔ (q ≡ pos 0) }
        ensures value { q ≢ pos 0 → IsRatio p q result }
    {
        if q == 0 {
            return Err(NumFault::DivisionByZero);
        }
        lowest((p < 0) != (q < 0), p.unsigned_abs(), q.unsigned_abs())
    }

    /// The sum, or Overflow where no number is it.
    pub fn add(&self, o: &Num) -> Result<Num, NumFault>
        ensures { IsSum self.now o.now result }
    {
        sum(self.parts(), o.parts())
    }

    /// The difference `self - o`, or Overflow where no number is it.
    pub fn sub(&self, o: &Num) -> Result<Num, NumFault>
        ensures { IsDifference self.now o.now result }
    {
        sum(self.parts(), o.neg().parts())
    }

    /// The product, or Overflow where no number is it.
    pub fn mul(&self, o: &Num) -> Result<Num, NumFault>
        ensures { IsProduct self.now o.now result }
    {
        let x = self.parts();
        let y = o.parts();
        product(x.negative != y.negative, x.top, x.bottom, y.top, y.bottom)
    }

    /// The quotient `self / o`. DivisionByZero where `o` is 0, Overflow where no number is the quotient.
    pub fn div(&self, o: &Num) -> Result<Num, NumFault>
        ensures zero { IsErrOf result NumFault.DivisionByZero ↔ (o.now.numerator ≡ pos 0) }
        ensures value { o.now.numerator ≢ pos 0 → IsQuotient self.now o.now result }
    {
        let x = self.parts();
        let y = o.parts();
        if y.top == 0 {
            return Err(NumFault::DivisionByZero);
        }
        product(x.negative != y.negative, x.top, x.bottom, y.bottom, y.top)
    }

    /// The rest `self - n * floor(self / n)`, which has the sign of `n`. DivisionByZero where `n` is 0, Overflow where no
    /// number is the rest.
    pub fn modulo(&self, n: &Num) -> Result<Num, NumFault>
        ensures zero { IsErrOf result NumFault.DivisionByZero ↔ (n.now.numerator ≡ pos 0) }
        ensures value { n.now.numerator ≢ pos 0 → IsRest self.now n.now result }
    {
        let x = self.parts();
        let y = n.parts();
        if y.top == 0 {
            return Err(NumFault::DivisionByZero);
        }
        rest(x, y)
    }
}

/// The sum of two numbers by their parts.
fn sum(x: Parts, y: Parts) -> Result<Num, NumFault>
    requires left { AreParts x.top x.bottom }
    requires right { AreParts y.top y.bottom }
    ensures { IsSum (fraction (signed x.negative x.top) x.bottom)
        (fraction (signed y.negative y.top) y.bottom) result }
{
    // A whole number past 63 bits and a proper fraction have no sum.
    if x.bottom != y.bottom && x.top.max(y.top) >= 1 << 63 {
        return Err(NumFault::Overflow);
    }
    signed_sum(
        x.negative,
        x.top * y.bottom,
        y.negative,
        y.top * x.bottom,
        x.bottom * y.bottom,
    )
}

/// The number that is `(±a ± b) / bottom`.
fn signed_sum(
    a_negative: bool,
    a: u128,
    b_negative: bool,
    b: u128,
    bottom: u128,
) -> Result<Num, NumFault>
    requires sizes { (a < 2 ^ 127) × (b < 2 ^ 127) }
    requires positive { 0 < bottom }
    ensures { IsRatio (signed a_negative a +ℤ signed b_negative b) (pos bottom) result }
{
    if a_negative == b_negative {
        lowest(a_negative, a + b, bottom)
    } else if a >= b {
        lowest(a_negative, a - b, bottom)
    } else {
        lowest(b_negative, b - a, bottom)
    }
}

/// What is left of `x` when it is taken by `y`.
fn rest(x: Parts, y: Parts) -> Result<Num, NumFault>
    requires left { AreParts x.top x.bottom }
    requires right { AreParts y.top y.bottom }
    requires divisor { 0 < y.top }
    ensures { IsRest (fraction (signed x.negative x.top) x.bottom)
        (fraction (signed y.negative y.top) y.bottom) result }
{
    // The size of `y` over the common denominator. Past 128 bits it is further from 0 than `x`.
    let Some(divisor) = y.top.checked_mul(x.bottom) else {
        return far_rest(x, y);
    };
    let size = rest_size(x, y, divisor);
    if size == 0 || x.negative == y.negative {
        return lowest(y.negative, size, x.bottom * y.bottom);
    }
    lowest(y.negative, divisor - size, x.bottom * y.bottom)
}

/// The rest of `x` by a `y` that is further from 0 and whole, where the size of `y` over the denominator of `x` has more than 128
/// bits.
fn far_rest(x: Parts, y: Parts) -> Result<Num, NumFault>
    requires left { AreParts x.top x.bottom }
    requires right { AreParts y.top y.bottom }
    requires far { 2 ^ 128 ≤ y.top * x.bottom }
    ensures { IsRest (fraction (signed x.negative x.top) x.bottom)
        (fraction (signed y.negative y.top) y.bottom) result }
{
    if x.negative == y.negative {
        bounded(x.negative, x.top, x.bottom)
    } else {
        Err(NumFault::Overflow)
    }
}

/// The rest of the size of `x` by that of `y`, over the common denominator.
fn rest_size(x: Parts, y: Parts, divisor: u128) -> u128
    requires left { AreParts x.top x.bottom }
    requires right { AreParts y.top y.bottom }
    requires divisor { (divisor ≡ y.top * x.bottom) × (0 < divisor) }
    ensures { result ≡ (x.top * y.bottom) % divisor }
{
    // To take a whole number by its rest changes no rest, and keeps the product within 128 bits.
    if x.bottom == 1 {
        x.top % y.top * y.bottom % divisor
    } else {
        x.top * y.bottom % divisor
    }
}
