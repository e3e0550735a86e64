//! Answers of rows, from those of numbers and values.
ghost use Rattle.std.specs.Prelude.{◌≡◌};
ghost use Rattle.abc_predef.specs.Answers.{of_number_answer, of_value_answer};

use abc_num::{Num, NumFault};
use abc_value::{RunFault, Value, ValueFault};

/// The number as a value, or its fault.
pub(crate) fn number_answer(answer: Result<Num, NumFault>) -> Result<Value, RunFault>
    ensures { result ≡ of_number_answer answer }
{
    match answer {
        Ok(n) => Ok(Value::number(n)),
        Err(fault) => Err(RunFault::from(fault)),
    }
}

/// The value, or its fault.
pub(crate) fn value_answer(answer: Result<Value, ValueFault>) -> Result<Value, RunFault>
    ensures { result ≡ of_value_answer answer }
{
    match answer {
        Ok(v) => Ok(v),
        Err(fault) => Err(RunFault::from(fault)),
    }
}
