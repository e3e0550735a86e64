//! The rows of numbers.
ghost use Rattle.std.specs.Prelude.{◌≡◌, ◌+◌, pos};
ghost use Rattle.abc_num.specs.Number.{IsNumber, whole_number};
ghost use Rattle.abc_predef.specs.Numbers.{sum_of, difference_of, product_of, quotient_of, rest_of, power_of, rounding_of};

use abc_num::{Num, NumFault};

/// A count as a number.
pub(crate) fn count_number(count: usize) -> Num
    ensures { result ≡ whole_number (pos count) }
{
    let Ok(number) = Num::whole(count as i128) else {
        unreachable!()
    };
    number
}

/// The number of a place that counts from 0, where the first has the number 1.
pub(crate) fn place_number(place: usize) -> Num
    ensures { result ≡ whole_number (pos (place + 1)) }
{
    let Ok(number) = Num::whole(place as i128 + 1) else {
        unreachable!()
    };
    number
}

/// `x + y`.
pub(crate) fn sum(x: &Num, y: &Num) -> Result<Num, NumFault>
    requires left { IsNumber x.now }
    requires right { IsNumber y.now }
    ensures { result ≡ sum_of x.now y.now }
{
    x.add(y)
}

/// `x - y`.
pub(crate) fn difference(x: &Num, y: &Num) -> Result<Num, NumFault>
    requires left { IsNumber x.now }
    requires right { IsNumber y.now }
    ensures { result ≡ difference_of x.now y.now }
{
    x.sub(y)
}

/// `x * y`.
pub(crate) fn product(x: &Num, y: &Num) -> Result<Num, NumFault>
    requires left { IsNumber x.now }
    requires right { IsNumber y.now }
    ensures { result ≡ product_of x.now y.now }
{
    x.mul(y)
}

/// `x / y`.
pub(crate) fn quotient(x: &Num, y: &Num) -> Result<Num, NumFault>
    requires { IsNumber x.now }
    ensures { result ≡ quotient_of x.now y.now }
{
    x.div(y)
}

/// `x mod y`.
pub(crate) fn rest(x: &Num, y: &Num) -> Result<Num, NumFault>
    requires left { IsNumber x.now }
    requires right { IsNumber y.now }
    ensures { result ≡ rest_of x.now y.now }
{
    x.modulo(y)
}

/// `x ** n`.
pub(crate) fn power(x: &Num, n: &Num) -> Result<Num, NumFault>
    requires { IsNumber x.now }
    ensures { result ≡ power_of x.now n.now }
{
    x.pow(n)
}

/// `n round x`.
pub(crate) fn rounding(n: &Num, x: &Num) -> Result<Num, NumFault>
    ensures { result ≡ rounding_of n.now x.now }
{
    x.round_to(n)
}
