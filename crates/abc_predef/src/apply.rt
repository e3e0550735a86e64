//! The calls on rows: the value of a row, and whether a test holds.
ghost use Rattle.std.specs.Prelude.{◌≡◌, ◌∷◌, []};
ghost use Rattle.abc_num.specs.Number.{IsNumber};
ghost use Rattle.abc_predef.specs.Answers.{IsRowAnswer};
ghost use Rattle.abc_predef.specs.Rows.{row_of_one, row_of_two, holds, number_in};
ghost use Rattle.abc_predef.specs.Takes.{GivesValue, IsTest, IsNumeric};

use crate::aligned::{Alignment, align};
use crate::answers::{number_answer, value_answer};
use crate::characters::Case;
use crate::collections::{keys, split};
use crate::extremes::{Extreme, extreme_element};
use crate::numbers::{count_number, difference, power, product, quotient, rest, rounding, sum};
use crate::texts::{behead, curtail, join, repeat, strip, with_case};
use crate::trains::{contains, count};
use abc_num::Num;
use abc_tree::Op;
use abc_value::{RunFault, Value};
use std::alloc::Global;
use std::cmp::Ordering;

/// What the row `op` gives for one operand. The row gives a value, has one place and takes the operand.
///
/// The only fault of these rows is NoElement, of `min` and `max`; Memory at any time.
pub fn apply1(alloc: Global, op: Op, x: &Value) -> Result<Value, RunFault>
    requires { GivesValue op (x.now ∷ []) }
    ensures { IsRowAnswer (row_of_one op x.now) result }
{
    match op {
        Op::Plus => value_answer(x.copy()),
        Op::Negate => Ok(Value::number(number(x).neg())),
        Op::Numerator => Ok(Value::number(number(x).numerator())),
        Op::Denominator => Ok(Value::number(number(x).denominator())),
        Op::Size => Ok(Value::number(count_number(x.len()))),
        Op::Abs => Ok(Value::number(number(x).abs())),
        Op::Sign => Ok(Value::number(number(x).sign())),
        Op::Floor => Ok(Value::number(number(x).floor())),
        Op::Ceiling => Ok(Value::number(number(x).ceiling())),
        Op::Round => Ok(Value::number(number(x).round())),
        Op::Keys => value_answer(keys(alloc, x)),
        Op::Least => value_answer(extreme_element(Extreme::Least, None, x)),
        Op::Greatest => value_answer(extreme_element(Extreme::Greatest, None, x)),
        Op::Lower => value_answer(with_case(alloc, x, Case::Small)),
        Op::Upper => value_answer(with_case(alloc, x, Case::Capital)),
        Op::Stripped => value_answer(strip(alloc, x)),
        Op::Split => value_answer(split(alloc, x)),
        _ => unreachable!(),
    }
}

/// What the row `op` gives for two operands. The row gives a value, has two places and takes the operands.
///
/// The faults are those of the row, in its order: TooLong for an outer text, NotWhole, OutOfRange, DivisionByZero,
/// NoElement, TooLong, Overflow; Memory at any time.
pub fn apply2(alloc: Global, op: Op, x: &Value, y: &Value) -> Result<Value, RunFault>
    requires { GivesValue op (x.now ∷ y.now ∷ []) }
    ensures { IsRowAnswer (row_of_two op x.now y.now) result }
{
    match op {
        Op::Add => number_answer(sum(number(x), number(y))),
        Op::Subtract => number_answer(difference(number(x), number(y))),
        Op::Multiply => number_answer(product(number(x), number(y))),
        Op::Divide => number_answer(quotient(number(x), number(y))),
        Op::Power => number_answer(power(number(x), number(y))),
        Op::Join => value_answer(join(alloc, x, y)),
        Op::Repeat => value_answer(repeat(alloc, x, number(y))),
        Op::Behead => value_answer(behead(alloc, x, number(y))),
        Op::Curtail => value_answer(curtail(alloc, x, number(y))),
        Op::AlignLeft => value_answer(align(alloc, x, number(y), Alignment::Left)),
        Op::Center => value_answer(align(alloc, x, number(y), Alignment::Center)),
        Op::AlignRight => value_answer(align(alloc, x, number(y), Alignment::Right)),
        Op::Count => Ok(Value::number(count_number(count(x, y)))),
        Op::RoundTo => number_answer(rounding(number(x), number(y))),
        Op::Modulo => number_answer(rest(number(x), number(y))),
        Op::LeastAbove => value_answer(extreme_element(Extreme::Least, Some(x), y)),
        Op::GreatestBelow => value_answer(extreme_element(Extreme::Greatest, Some(x), y)),
        Op::Item => value_answer(x.item(number(y))),
        _ => unreachable!(),
    }
}

/// Whether the test `op` holds of two operands, which it takes: a relation, `in` or `not.in`.
pub fn holds2(op: Op, x: &Value, y: &Value) -> bool
    requires { IsTest op (x.now ∷ y.now ∷ []) }
    ensures { result ≡ holds op x.now y.now }
{
    match op {
        Op::Less => x.cmp(y) == Ordering::Less,
        Op::AtMost => x.cmp(y) != Ordering::Greater,
        Op::Equal => x.cmp(y) == Ordering::Equal,
        Op::Unequal => x.cmp(y) != Ordering::Equal,
        Op::AtLeast => x.cmp(y) != Ordering::Less,
        Op::More => x.cmp(y) == Ordering::Greater,
        Op::In => contains(x, y),
        Op::NotIn => !contains(x, y),
        _ => unreachable!(),
    }
}

/// The number that a value is.
fn number(x: &Value) -> &Num
    requires { IsNumeric x.now }
    ensures value { result.now ≡ number_in x.now }
    ensures number { IsNumber result.now }
{
    let Some(n) = x.as_number() else {
        unreachable!()
    };
    // Its clause tells that the parts are those of a number.
    let _whole = n.to_whole();
    n
}
