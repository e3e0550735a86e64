//! Whether the row of an operation takes its operands, decided by their shapes.
ghost use Rattle.std.specs.Prelude.{◌≡◌, ◌↔◌, ◌∷◌, [], IfOk, IsTrue, Some, is_some};
ghost use Rattle.abc_value.specs.Forms.{a_number, form_of, joined};
ghost use Rattle.abc_predef.specs.Signatures.{operands};
ghost use Rattle.abc_predef.specs.Takes.{AreTaken};
ghost use Rattle.abc_predef.specs.Taken.{any_of, element_of, are_taken};
ghost use Rattle.abc_predef.specs.inner.Patterns.{pattern_of, IsOfTwo};

use crate::lookup::row;
use crate::table::{Letter, Operands};
use abc_num::OutOfMemory;
use abc_tree::Op;
use abc_value::{Kind, Shape, Value};
use std::alloc::Global;

/// Whether the row `op` has one place and takes the operand. The operand is gone through once.
pub fn takes1(alloc: Global, op: Op, x: &Value) -> Result<bool, OutOfMemory>
    ensures computed { IfOk result (λ b. b ≡ are_taken (operands op) (x.now ∷ [])) }
    ensures exact { IfOk result (λ b. IsTrue b ↔ AreTaken (operands op) (x.now ∷ [])) }
{
    match row(op).operands {
        Operands::One(letter) => has_element(alloc, letter, x),
        Operands::Two(_, _) => Ok(false),
    }
}

/// Whether the row `op` has two places and takes the operands. Each operand is gone through once.
pub fn takes2(alloc: Global, op: Op, x: &Value, y: &Value) -> Result<bool, OutOfMemory>
    ensures computed { IfOk result (λ b. b ≡ are_taken (operands op) (x.now ∷ y.now ∷ [])) }
    ensures exact { IfOk result (λ b. IsTrue b ↔ AreTaken (operands op) (x.now ∷ y.now ∷ [])) }
{
    match row(op).operands {
        Operands::One(_) => Ok(false),
        Operands::Two(left, right) => have_element(alloc, left, right, x, y),
    }
}

/// Whether the value has a type for which the letter stands.
fn has_element(alloc: Global, letter: Letter, x: &Value) -> Result<bool, OutOfMemory>
    ensures { IfOk result (λ b. b ≡ is_some (element_of letter (form_of x.now))) }
{
    let Some(shape) = Shape::of(alloc, x)? else {
        return Ok(false);
    };
    match letter {
        Letter::Train => Ok(shape.elements().is_some()),
        _ => Ok(shape.join(alloc, &pattern(alloc, letter)?)?.is_some()),
    }
}

/// The shape of the types for which a letter stands; that of all types for the two that it does not tell apart.
fn pattern(alloc: Global, letter: Letter) -> Result<Shape, OutOfMemory>
    ensures { IfOk result (λ s. s ≡ pattern_of letter) }
{
    match letter {
        Letter::Number => Ok(Shape::number()),
        Letter::Text => Ok(Shape::text()),
        Letter::Element | Letter::Train => Ok(Shape::anything()),
        Letter::Table => Shape::table(alloc, Shape::anything(), Shape::anything()),
        Letter::List => Shape::list(alloc, Shape::anything()),
        Letter::Words => Shape::table(alloc, Shape::number(), Shape::text()),
    }
}

/// Whether the values have types for which the letters stand, with one type e for both. Two numbers need no shapes.
#[tactic(auto, using(crate::proofs::TwoNumbers::form_of_number))]
fn have_element(
    alloc: Global,
    left: Letter,
    right: Letter,
    x: &Value,
    y: &Value,
) -> Result<bool, OutOfMemory>
    requires left { IsOfTwo left }
    requires right { IsOfTwo right }
    ensures { IfOk result (λ b. b ≡ is_some (joined (element_of left (form_of x.now)) (element_of right (form_of y.now)))) }
{
    match (x.kind(), y.kind()) {
        (Kind::Number, Kind::Number) => Ok(have_numbers(left, right)),
        _ => have_shapes(alloc, left, right, x, y),
    }
}

/// The same of two numbers, whose shapes are known.
#[tactic(auto, using(crate::proofs::TwoNumbers::none_taken, crate::proofs::TwoNumbers::both_taken))]
fn have_numbers(left: Letter, right: Letter) -> bool
    ensures { result ≡ is_some (joined (element_of left (Some a_number)) (element_of right (Some a_number))) }
{
    if !has_number(left) {
        return false;
    }
    has_number(right)
}

/// Whether numbers have a type for which the letter stands.
fn has_number(letter: Letter) -> bool
    ensures { result ≡ is_some (element_of letter (Some a_number)) }
{
    match letter {
        Letter::Number | Letter::Element => true,
        Letter::Text | Letter::Train | Letter::Table | Letter::List | Letter::Words => false,
    }
}

/// The same of any two values, by their shapes.
fn have_shapes(
    alloc: Global,
    left: Letter,
    right: Letter,
    x: &Value,
    y: &Value,
) -> Result<bool, OutOfMemory>
    requires left { IsOfTwo left }
    requires right { IsOfTwo right }
    ensures { IfOk result (λ b. b ≡ is_some (joined (element_of left (form_of x.now)) (element_of right (form_of y.now)))) }
{
    let Some(a) = element_shape(alloc, left, x)? else {
        return Ok(false);
    };
    let Some(b) = element_shape(alloc, right, y)? else {
        return Ok(false);
    };
    Ok(a.join(alloc, &b)?.is_some())
}

/// The shape of the types e of the row, where the value has a type for which the letter stands.
fn element_shape(alloc: Global, letter: Letter, x: &Value) -> Result<Option<Shape>, OutOfMemory>
    requires { IsOfTwo letter }
    ensures { IfOk result (λ o. o ≡ element_of letter (form_of x.now)) }
{
    let Some(shape) = Shape::of(alloc, x)? else {
        return Ok(None);
    };
    match letter {
        Letter::Number => any_type(alloc, &shape, &Shape::number()),
        Letter::Text => any_type(alloc, &shape, &Shape::text()),
        Letter::Element => Ok(Some(shape)),
        Letter::Train => Ok(shape.elements()),
        _ => unreachable!(),
    }
}

/// Any type, where the shape and another have one.
fn any_type(alloc: Global, s: &Shape, other: &Shape) -> Result<Option<Shape>, OutOfMemory>
    ensures { IfOk result (λ o. o ≡ any_of (joined (Some s.now) (Some other.now))) }
{
    match s.join(alloc, other)? {
        Some(_) => Ok(Some(Shape::anything())),
        None => Ok(None),
    }
}
