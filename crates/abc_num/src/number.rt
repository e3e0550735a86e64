//! Numbers: whole numbers of 127 bits, and fractions in lowest terms whose parts have 63 bits.
ghost use Rattle.std.specs.Prelude.{◌≡◌, ◌↔◌, pos, neg_ℤ, ◌^◌, ◌≤◌, ◌<◌, unsigned_abs, IfOk, IfErr, IsErrOf};
ghost use Rattle.std.specs.Bool.{OnTrue, OnFalse};
ghost use Rattle.std.specs.Int.{int_signum};
ghost use Rattle.abc_num.specs.Number.{fraction, signed, IsNumber, AreParts, whole_number, whole_of, num_cmp};

use std::cmp::Ordering;
use std::marker::Model;

/// Why an operation has no number as its result.
#[derive(Clone, Copy, PartialEq, Eq, Debug)]
pub enum NumFault {
    /// The mathematical result is no number.
    Overflow,
    /// The divisor is 0, or 0 has a negative exponent.
    DivisionByZero,
    /// An operand has to be whole and is not.
    NotWhole,
}

/// A number. Each is in lowest terms, so equal numbers have equal parts.
#[derive(Clone, Copy, PartialEq, Eq, Debug)]
pub struct Num {
    numerator: i128,
    denominator: u64,
}

impl Model for Num {
    ghost use Rattle.abc_num.specs.Number.{Fraction, IsNumber};

    ghost Value = { Fraction };

    ghost view = { λ n. record { numerator = n.numerator; denominator = n.denominator } };

    ghost invariant = { λ n. IsNumber (record { numerator = n.numerator; denominator = n.denominator }) };

    ghost inverse = { λ f. record { numerator = f.numerator; denominator = f.denominator } };
}

/// The parts of a number: its sign and the sizes of numerator and denominator.
#[derive(Clone, Copy)]
pub(crate) struct Parts {
    pub(crate) negative: bool,
    pub(crate) top: u128,
    pub(crate) bottom: u128,
}

impl Num {
    /// The whole number `n`. Overflow where `n` is -2^127, which is no number.
    pub fn whole(n: i128) -> Result<Num, NumFault>
        ensures ok { IfOk result (λ x. x ≡ whole_number n) }
        ensures overflow { IsErrOf result NumFault.Overflow ↔ (n ≡ neg_ℤ (pos (2 ^ 127))) }
        ensures fault { IfErr result (λ e. e ≡ NumFault.Overflow) }
    {
        if n == i128::MIN {
            return Err(NumFault::Overflow);
        }
        Ok(Num {
            numerator: n,
            denominator: 1,
        })
    }

    /// The number with these parts.
    pub(crate) fn of_parts(negative: bool, top: u128, bottom: u128) -> Num
        requires number { IsNumber (fraction (signed negative top) bottom) }
        requires top { top < 2 ^ 127 }
        requires bottom { bottom < 2 ^ 63 }
        ensures { result ≡ fraction (signed negative top) bottom }
    {
        Num {
            numerator: with_sign(negative, top),
            denominator: bottom as u64,
        }
    }

    /// The parts of this number.
    pub(crate) fn parts(&self) -> Parts
        ensures numerator { signed result.negative result.top ≡ self.now.numerator }
        ensures denominator { result.bottom ≡ self.now.denominator }
        ensures parts { AreParts result.top result.bottom }
    {
        Parts {
            negative: self.numerator < 0,
            top: self.numerator.unsigned_abs(),
            bottom: u128::from(self.denominator),
        }
    }

    /// The order of the two numbers by size.
    pub fn cmp(&self, o: &Num) -> Ordering
        ensures { result ≡ num_cmp self.now o.now }
    {
        compare(self.numerator, self.denominator, o.numerator, o.denominator)
    }

    /// The whole number that this is, if it is one.
    pub fn to_whole(&self) -> Option<i128>
        ensures value { result ≡ whole_of self.now }
        ensures number { IsNumber self.now }
    {
        if self.denominator == 1 {
            Some(self.numerator)
        } else {
            None
        }
    }

    /// The numerator, in lowest terms and with the number's sign.
    pub fn numerator(&self) -> Num
        ensures { result ≡ whole_number self.now.numerator }
    {
        let x = self.parts();
        Num::of_parts(x.negative, x.top, 1)
    }

    /// The denominator in lowest terms, which is 1 for a whole number.
    pub fn denominator(&self) -> Num
        ensures { result ≡ whole_number (pos self.now.denominator) }
    {
        Num::of_parts(false, self.parts().bottom, 1)
    }

    /// The number with the other sign.
    pub fn neg(&self) -> Num
        ensures { result ≡ fraction (neg_ℤ self.now.numerator) self.now.denominator }
    {
        let x = self.parts();
        Num::of_parts(!x.negative, x.top, x.bottom)
    }

    /// The size of the number, without its sign.
    pub fn abs(&self) -> Num
        ensures { result ≡ fraction (pos (unsigned_abs self.now.numerator)) self.now.denominator }
    {
        let x = self.parts();
        Num::of_parts(false, x.top, x.bottom)
    }

    /// -1, 0 or 1.
    pub fn sign(&self) -> Num
        ensures { result ≡ whole_number (int_signum self.now.numerator) }
    {
        let x = self.parts();
        Num::of_parts(x.negative, x.top.min(1), 1)
    }
}

/// `size`, or its negative.
fn with_sign(negative: bool, size: u128) -> i128
    requires { size < 2 ^ 127 }
    ensures { result ≡ signed negative size }
{
    let whole = size as i128;
    if negative { -whole } else { whole }
}

/// The order of the numbers `a / b` and `c / d`.
fn compare(a: i128, b: u64, c: i128, d: u64) -> Ordering
    requires left { IsNumber (fraction a b) }
    requires right { IsNumber (fraction c d) }
    ensures { result ≡ num_cmp (fraction a b) (fraction c d) }
{
    // A number with a wide numerator is whole, and further from 0 than the numerator of each fraction.
    if b == d || is_wide(a) || is_wide(c) {
        return a.cmp(&c);
    }
    (a * i128::from(d)).cmp(&(c * i128::from(b)))
}

/// Whether this needs more than 63 bits, so that it is no numerator of a proper fraction.
fn is_wide(numerator: i128) -> bool
    ensures wide { OnTrue result (2 ^ 63 ≤ unsigned_abs numerator) }
    ensures narrow { OnFalse result (unsigned_abs numerator < 2 ^ 63) }
{
    numerator.unsigned_abs() >= 1 << 63
}
