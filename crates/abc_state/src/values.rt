//! What nodes make of the values of their operands.
ghost use Rattle.std.specs.Prelude.{◌≡◌, ◌∷◌, ◌&&◌, [], ℕ, Some, None, is_some, IsTrue, IfOk};
ghost use Rattle.abc_predef.specs.Takes.{GivesValue, IsTest};
ghost use Rattle.abc_value.specs.Items.{HaveRange};
ghost use Rattle.std.specs.List.{list_all};
ghost use Rattle.abc_value.specs.declared.faults.RunFault.TheVariants.{NoValue};
ghost use Rattle.abc_value.specs.Forms.{anything};
ghost use Rattle.abc_value.specs.Parts.{IsTable};
ghost use Rattle.abc_meaning.specs.State.{State};
ghost use Rattle.abc_meaning.specs.Here.{Here};
ghost use Rattle.abc_meaning.specs.Fits.{has_type, fits_table, gives_value, is_test, have_range};
ghost use Rattle.abc_meaning.specs.Value.{there, composed, selected, applied_to_one, applied};
ghost use Rattle.abc_meaning.specs.Holds.{compared};
ghost use Rattle.abc_state.specs.Words.{range_checked};
ghost use Rattle.abc_state.specs.Agrees.{Agrees};

use crate::halt::{Halt, halt_of};
use abc_num::OutOfMemory;
use abc_predef::{apply1, apply2, holds2, row, takes1, takes2};
use abc_tree::Op;
use abc_value::{Kind, RunFault, Shape, Value};
use std::alloc::Global;

/// An equal value.
pub fn copied(value: &Value) -> Result<Value, OutOfMemory>
    ensures { IfOk result (λ v. v ≡ value.now) }
{
    match value.copy() {
        Ok(value) => Ok(value),
        Err(_) => Err(OutOfMemory),
    }
}

/// A value that is there.
pub fn there(value: Option<Value>) -> Result<Value, Halt>
    ensures { (here : Here) (s : State) → Agrees (λ v. v) here.line result s (there here NoValue value s) }
{
    match value {
        Some(value) => Ok(value),
        None => Err(Halt::Fault(RunFault::NoValue)),
    }
}

/// Whether a value has some type. A step where the forms of its parts are kept, as in lists and tables.
pub fn has_type(alloc: Global, value: &Value) -> Result<bool, OutOfMemory>
    ensures { IfOk result (λ b. b ≡ has_type value.now) }
{
    Ok(Shape::of(alloc, value)?.is_some())
}

/// Whether each value has some type.
fn have_types(alloc: Global, values: &[Value]) -> Result<bool, OutOfMemory>
    ensures { IfOk result (λ b. b ≡ list_all has_type values.now) }
{
    for value in values {
        if !has_type(alloc, value)? {
            return Ok(false);
        }
    }
    Ok(true)
}

/// Whether some types fit a table and a key. A step for each, since a table keeps the forms of its keys.
pub fn fits_key(alloc: Global, table: &Value, key: &Value) -> Result<bool, OutOfMemory>
    ensures computed { IfOk result (λ b. b ≡ fits_table table.now key.now (Some anything)) }
    ensures table { IfOk result (λ b. IsTrue b → IsTable table.now) }
{
    have_table(alloc, table, key)
}

fn have_table(alloc: Global, table: &Value, key: &Value) -> Result<bool, OutOfMemory>
    ensures { IfOk result (λ b. b ≡ fits_table table.now key.now (Some anything)) }
{
    let Some(shape) = Shape::of(alloc, table)? else {
        return Ok(false);
    };
    let Some(keys) = Shape::of(alloc, key)? else {
        return Ok(false);
    };
    let wanted = Shape::table(alloc, keys, Shape::anything())?;
    Ok(shape.join(alloc, &wanted)?.is_some())
}

/// The compound of these values.
pub fn composed(alloc: Global, fields: Vec<Value>) -> Result<Value, Halt>
    ensures { (here : Here) (s : State) → Agrees (λ v. v) here.line result s (composed here fields.items s) }
{
    if fields.len() < 2 {
        return Err(Halt::Wrong);
    }
    if !have_types(alloc, &fields)? {
        return Err(Halt::Wrong);
    }
    match Value::compound(fields) {
        Ok(value) => Ok(value),
        Err(fault) => Err(halt_of(fault)),
    }
}

/// The associate of a table at a key.
pub fn selected(alloc: Global, table: &Value, key: &Value) -> Result<Value, Halt>
    ensures { (here : Here) (s : State) → Agrees (λ v. v) here.line result s (selected here table.now key.now s) }
{
    if !fits_key(alloc, table, key)? {
        return Err(Halt::Wrong);
    }
    match table.get(key) {
        Some(value) => Ok(copied(value)?),
        None => Err(Halt::Fault(RunFault::NoKey)),
    }
}

/// Whether a row of one place gives a value and takes the operand.
fn gives_one(alloc: Global, op: Op, x: &Value) -> Result<bool, OutOfMemory>
    ensures computed { IfOk result (λ b. b ≡ gives_value op (x.now ∷ [])) }
    ensures taken { IfOk result (λ b. IsTrue b → GivesValue op (x.now ∷ [])) }
{
    match row(op).result {
        Some(_) => takes1(alloc, op, x),
        None => Ok(false),
    }
}

/// Whether a row of two places gives a value and takes the operands.
fn gives_two(alloc: Global, op: Op, x: &Value, y: &Value) -> Result<bool, OutOfMemory>
    ensures computed { IfOk result (λ b. b ≡ gives_value op (x.now ∷ y.now ∷ [])) }
    ensures taken { IfOk result (λ b. IsTrue b → GivesValue op (x.now ∷ y.now ∷ [])) }
{
    match row(op).result {
        Some(_) => takes2(alloc, op, x, y),
        None => Ok(false),
    }
}

/// Whether a row of two places is a test and takes the operands.
fn tests_two(alloc: Global, op: Op, x: &Value, y: &Value) -> Result<bool, OutOfMemory>
    ensures computed { IfOk result (λ b. b ≡ is_test op (x.now ∷ y.now ∷ [])) }
    ensures taken { IfOk result (λ b. IsTrue b → IsTest op (x.now ∷ y.now ∷ [])) }
{
    match row(op).result {
        Some(_) => Ok(false),
        None => takes2(alloc, op, x, y),
    }
}

/// The value of a row of one place.
pub fn applied_to_one(alloc: Global, op: Op, x: &Value) -> Result<Value, Halt>
    ensures { (here : Here) (s : State) → Agrees (λ v. v) here.line result s (applied_to_one here op x.now s) }
{
    if !gives_one(alloc, op, x)? {
        return Err(Halt::Wrong);
    }
    match apply1(alloc, op, x) {
        Ok(value) => Ok(value),
        Err(fault) => Err(Halt::Fault(fault)),
    }
}

/// The value of a row of two places.
pub fn applied(alloc: Global, op: Op, x: &Value, y: &Value) -> Result<Value, Halt>
    ensures { (here : Here) (s : State) → Agrees (λ v. v) here.line result s (applied here op x.now y.now s) }
{
    if !gives_two(alloc, op, x, y)? {
        return Err(Halt::Wrong);
    }
    match apply2(alloc, op, x, y) {
        Ok(value) => Ok(value),
        Err(fault) => Err(Halt::Fault(fault)),
    }
}

/// Whether a relation or a membership holds.
pub fn compared(alloc: Global, op: Op, x: &Value, y: &Value) -> Result<bool, Halt>
    ensures { (here : Here) (s : State) → Agrees (λ b. b) here.line result s (compared here op x.now y.now s) }
{
    if !tests_two(alloc, op, x, y)? {
        return Err(Halt::Wrong);
    }
    Ok(holds2(op, x, y))
}

/// Whether both are numbers, or both are texts.
pub(crate) fn have_range(p: &Value, q: &Value) -> bool
    ensures computed { result ≡ have_range p.now q.now }
    ensures fits { IsTrue result → HaveRange p.now q.now }
{
    match (p.kind(), q.kind()) {
        (Kind::Number, Kind::Number) => true,
        (Kind::Text, Kind::Text) => true,
        _ => false,
    }
}

/// Whether there is a list from one value to another.
pub(crate) fn check_range(p: &Value, q: &Value) -> Result<(), Halt>
    ensures { (here : Here) (s : State) → Agrees (λ _. tt) here.line result s (range_checked here p.now q.now s) }
{
    if !have_range(p, q) {
        return Err(Halt::Wrong);
    }
    match Value::check_range(p, q) {
        Ok(()) => Ok(()),
        Err(fault) => Err(halt_of(fault)),
    }
}
