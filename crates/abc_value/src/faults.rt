//! Why a call on values, or a run, gives no result.
use abc_num::{NumFault, OutOfMemory};
use std::alloc::{AllocError, AllocFailed};

/// Why a call on values has no result. What it would have changed is as before.
#[derive(Clone, Copy, PartialEq, Eq, Debug)]
pub enum ValueFault {
    /// The element that was to be taken out isn't there.
    NoElement,
    /// The key isn't there.
    NoKey,
    /// A place or a bound is none of those allowed.
    OutOfRange,
    /// A number has to be whole and is not.
    NotWhole,
    /// The value would have too many characters, fields, elements or pairs.
    TooLong,
    /// The value would have too many levels.
    TooDeep,
    /// The value would take too many bytes in a store.
    TooLarge,
    /// There was not enough memory.
    Memory,
}

impl From<AllocError> for ValueFault {
    ghost use Rattle.std.specs.Prelude.{◌≡◌};
    ghost use Rattle.abc_value.specs.declared.faults.ValueFault.TheVariants.{Memory};

    ghost from_gives = { λ _ f. f ≡ Memory };

    fn from(_refused: AllocError) -> ValueFault {
        ValueFault::Memory
    }
}

impl<T: Drop> From<AllocFailed<T>> for ValueFault {
    ghost use Rattle.std.specs.Prelude.{◌≡◌};
    ghost use Rattle.abc_value.specs.declared.faults.ValueFault.TheVariants.{Memory};

    ghost from_gives = { λ _ f. f ≡ Memory };

    fn from(_refused: AllocFailed<T>) -> ValueFault {
        ValueFault::Memory
    }
}

/// Why a value has no printed form here.
#[derive(Clone, Copy, PartialEq, Eq, Debug)]
pub enum PrintFault {
    /// The text would be longer than was allowed.
    TooLong,
    /// There was not enough memory.
    Memory,
}

impl From<OutOfMemory> for ValueFault {
    ghost use Rattle.std.specs.Prelude.{◌≡◌};
    ghost use Rattle.abc_value.specs.declared.faults.ValueFault.TheVariants.{Memory};

    ghost from_gives = { λ _ f. f ≡ Memory };

    fn from(_refused: OutOfMemory) -> ValueFault {
        ValueFault::Memory
    }
}

impl From<AllocError> for PrintFault {
    ghost use Rattle.std.specs.Prelude.{◌≡◌};
    ghost use Rattle.abc_value.specs.declared.faults.PrintFault.TheVariants.{Memory};

    ghost from_gives = { λ _ f. f ≡ Memory };

    fn from(_refused: AllocError) -> PrintFault {
        PrintFault::Memory
    }
}

impl<T: Drop> From<AllocFailed<T>> for PrintFault {
    ghost use Rattle.std.specs.Prelude.{◌≡◌};
    ghost use Rattle.abc_value.specs.declared.faults.PrintFault.TheVariants.{Memory};

    ghost from_gives = { λ _ f. f ≡ Memory };

    fn from(_refused: AllocFailed<T>) -> PrintFault {
        PrintFault::Memory
    }
}

/// Why a run stopped. The commands, expressions and tests that meet it change nothing.
#[derive(Clone, Copy, PartialEq, Eq, Debug)]
pub enum RunFault {
    /// The mathematical result is no number.
    Overflow,
    /// The divisor is 0, or 0 has a negative exponent.
    DivisionByZero,
    /// A number has to be whole and is not.
    NotWhole,
    /// A place, a count or a bound is none of those allowed.
    OutOfRange,
    /// The table has no such key.
    NoKey,
    /// The list has no such element, or there is none to choose.
    NoElement,
    /// The name has no value.
    NoValue,
    /// A CHECK failed.
    CheckFailed,
    /// No alternative of a SELECT succeeded.
    NoAlternative,
    /// A function or predicate ended without its answer.
    NoReturn,
    /// A formal was changed whose actual is no address.
    NotAnAddress,
    /// The line that was read is not of the wanted form.
    BadInput,
    /// There is no line left to read.
    NoInput,
    /// A value or the output would be too long.
    TooLong,
    /// A value or an evaluation would have too many levels.
    TooDeep,
    /// The steps that were allowed are spent.
    BudgetSpent,
    /// A value would take too many bytes in a store.
    TooLarge,
    /// There was not enough memory.
    Memory,
}

impl From<ValueFault> for RunFault {
    ghost use Rattle.std.specs.Prelude.{◌≡◌};
    ghost use Rattle.abc_value.specs.Faults.{run_fault_of_value};

    ghost from_gives = { λ fault f. f ≡ run_fault_of_value fault };

    fn from(fault: ValueFault) -> RunFault {
        match fault {
            ValueFault::NoElement => RunFault::NoElement,
            ValueFault::NoKey => RunFault::NoKey,
            ValueFault::OutOfRange => RunFault::OutOfRange,
            ValueFault::NotWhole => RunFault::NotWhole,
            ValueFault::TooLong => RunFault::TooLong,
            ValueFault::TooDeep => RunFault::TooDeep,
            ValueFault::TooLarge => RunFault::TooLarge,
            ValueFault::Memory => RunFault::Memory,
        }
    }
}

impl From<NumFault> for RunFault {
    ghost use Rattle.std.specs.Prelude.{◌≡◌};
    ghost use Rattle.abc_value.specs.Faults.{run_fault_of_number};

    ghost from_gives = { λ fault f. f ≡ run_fault_of_number fault };

    fn from(fault: NumFault) -> RunFault {
        match fault {
            NumFault::Overflow => RunFault::Overflow,
            NumFault::DivisionByZero => RunFault::DivisionByZero,
            NumFault::NotWhole => RunFault::NotWhole,
        }
    }
}
