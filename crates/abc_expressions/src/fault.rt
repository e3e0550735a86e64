//! Why tokens have no tree.
use abc_num::OutOfMemory;
use std::alloc::AllocFailed;

/// Why tokens have no tree.
#[derive(Clone, Copy, Debug, PartialEq, Eq)]
pub enum FormulaFault {
    /// The tokens spell no tree.
    BadCommand,
    /// The tree is higher than trees may be.
    TooMany,
    /// There was not enough memory.
    Memory,
}

impl<T: Drop> From<AllocFailed<T>> for FormulaFault {
    ghost from_gives = { λ refused fault. fault ≡ Memory };

    ghost use Rattle.std.specs.Prelude.{◌≡◌};
    ghost use Rattle.abc_expressions.specs.declared.fault.FormulaFault.TheVariants.{Memory};

    fn from(_refused: AllocFailed<T>) -> FormulaFault {
        FormulaFault::Memory
    }
}

impl From<OutOfMemory> for FormulaFault {
    ghost from_gives = { λ refused fault. fault ≡ Memory };

    ghost use Rattle.std.specs.Prelude.{◌≡◌};
    ghost use Rattle.abc_expressions.specs.declared.fault.FormulaFault.TheVariants.{Memory};

    fn from(_refused: OutOfMemory) -> FormulaFault {
        FormulaFault::Memory
    }
}
