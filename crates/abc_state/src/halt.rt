//! How an act ends: with an answer, with a way out of a command, or not at all.
ghost use Rattle.std.specs.Prelude.{◌≡◌};
ghost use Rattle.abc_value.specs.Faults.{run_fault_of_value};
ghost use Rattle.abc_state.specs.declared.halt.Halt.TheVariants.{Fault};

use abc_num::OutOfMemory;
use abc_value::{RunFault, Value, ValueFault};
use std::alloc::{AllocError, AllocFailed};

/// Why a part of a run gives nothing.
#[derive(Clone, Copy, PartialEq, Eq, Debug)]
pub enum Halt {
    /// A fault of the run, at the line of the node that is evaluated; also want of memory.
    Fault(RunFault),
    /// No types fit what the node works on.
    Wrong,
}

/// How a command ends.
#[derive(Drop)]
pub enum Exit {
    /// The next command follows.
    GoesOn,
    /// It leaves the unit or refinement, or ends the session.
    Quits,
    /// It leaves the unit or refinement with this value.
    Returns(Value),
    /// It leaves the unit or refinement with this truth value.
    Reports(bool),
}

impl From<AllocError> for Halt {
    ghost use Rattle.std.specs.Prelude.{◌≡◌};
    ghost use Rattle.abc_value.specs.declared.faults.RunFault.TheVariants.{Memory};
    ghost use Rattle.abc_state.specs.declared.halt.Halt.TheVariants.{Fault};

    ghost from_gives = { λ _ h. h ≡ Fault Memory };

    fn from(_refused: AllocError) -> Halt {
        Halt::Fault(RunFault::Memory)
    }
}

impl<T: Drop> From<AllocFailed<T>> for Halt {
    ghost use Rattle.std.specs.Prelude.{◌≡◌};
    ghost use Rattle.abc_value.specs.declared.faults.RunFault.TheVariants.{Memory};
    ghost use Rattle.abc_state.specs.declared.halt.Halt.TheVariants.{Fault};

    ghost from_gives = { λ _ h. h ≡ Fault Memory };

    fn from(_refused: AllocFailed<T>) -> Halt {
        Halt::Fault(RunFault::Memory)
    }
}

impl From<OutOfMemory> for Halt {
    ghost use Rattle.std.specs.Prelude.{◌≡◌};
    ghost use Rattle.abc_value.specs.declared.faults.RunFault.TheVariants.{Memory};
    ghost use Rattle.abc_state.specs.declared.halt.Halt.TheVariants.{Fault};

    ghost from_gives = { λ _ h. h ≡ Fault Memory };

    fn from(_refused: OutOfMemory) -> Halt {
        Halt::Fault(RunFault::Memory)
    }
}

/// The halt that is a fault of values.
pub fn halt_of(fault: ValueFault) -> Halt
    ensures { result ≡ Fault (run_fault_of_value fault) }
{
    Halt::Fault(RunFault::from(fault))
}
