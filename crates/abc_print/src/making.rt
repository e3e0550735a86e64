//! Values from the parts of a literal.
ghost use Rattle.std.specs.Prelude.{◌≡◌, [], ◌∷◌, ◌++◌};
ghost use Rattle.abc_print.specs.Literals.{fielded, listed, tabled};
ghost use Rattle.abc_print.specs.inner.Machine.{Gives, refusal, pair_of};

use crate::LiteralFault;
use abc_num::Items;
use abc_value::{Value, ValueFault};
use std::alloc::Global;

/// A value past its bounds is spelled by no literal.
fn refused(fault: ValueFault) -> LiteralFault
    ensures { result ≡ refusal fault }
{
    match fault {
        ValueFault::Memory => LiteralFault::Memory,
        _ => LiteralFault::BadInput,
    }
}

/// One field is itself, and several are a compound.
pub(crate) fn fields_value(mut fields: Items<Value>, last: Value) -> Result<Value, LiteralFault>
    ensures { Gives result (fielded (fields ++ last ∷ [])) }
{
    if fields.is_empty() {
        return Ok(last);
    }
    fields.push(last)?;
    match Value::compound(fields.into_vec()) {
        Ok(value) => Ok(value),
        Err(fault) => Err(refused(fault)),
    }
}

/// The list of the elements.
pub(crate) fn list_value(
    alloc: Global,
    mut elements: Items<Value>,
    last: Value,
) -> Result<Value, LiteralFault>
    ensures { Gives result (listed (elements ++ last ∷ [])) }
{
    elements.push(last)?;
    match Value::list(alloc, elements.into_vec()) {
        Ok(value) => Ok(value),
        Err(fault) => Err(refused(fault)),
    }
}

/// The table of the pairs; a later pair takes the place of an earlier one with its key.
pub(crate) fn table_value(
    alloc: Global,
    mut pairs: Items<(Value, Value)>,
    key: Value,
    associate: Value,
) -> Result<Value, LiteralFault>
    ensures { Gives result (tabled (pairs ++ pair_of key associate ∷ [])) }
{
    pairs.push((key, associate))?;
    match Value::table(alloc, pairs.into_vec()) {
        Ok(value) => Ok(value),
        Err(fault) => Err(refused(fault)),
    }
}
