//! Why a line is read as no value.
use abc_num::OutOfMemory;
use std::alloc::AllocFailed;

/// Why a line is read as no value.
#[derive(Clone, Copy, PartialEq, Eq, Debug)]
pub enum LiteralFault {
    /// The line spells no literal.
    BadInput,
    /// There was not enough memory.
    Memory,
}

impl<T: Drop> From<AllocFailed<T>> for LiteralFault {
    ghost use Rattle.std.specs.Prelude.{◌≡◌};
    ghost use Rattle.abc_print.specs.declared.faults.LiteralFault.TheVariants.{Memory};

    ghost from_gives = { λ _ f. f ≡ Memory };

    fn from(_refused: AllocFailed<T>) -> LiteralFault {
        LiteralFault::Memory
    }
}

impl From<OutOfMemory> for LiteralFault {
    ghost use Rattle.std.specs.Prelude.{◌≡◌};
    ghost use Rattle.abc_print.specs.declared.faults.LiteralFault.TheVariants.{Memory};

    ghost from_gives = { λ _ f. f ≡ Memory };

    fn from(_refused: OutOfMemory) -> LiteralFault {
        LiteralFault::Memory
    }
}
