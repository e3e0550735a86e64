//! Why a journal can't be opened or added to.
use abc_num::OutOfMemory;
use abc_outside::Failed;
use std::alloc::{AllocError, AllocFailed};
use thiserror::Error;

#[derive(Clone, Copy, Debug, PartialEq, Eq, Error)]
pub enum BeginFault {
    /// A call on the store failed.
    #[error("the store failed")]
    StoreFault,
    /// The image is no store: something is wrong at this place.
    #[error("not a store: wrong at {at}")]
    NotAStore { at: u64 },
    /// There was not enough memory.
    #[error("out of memory")]
    Memory,
}

#[derive(Clone, Copy, Debug, PartialEq, Eq, Error)]
pub enum AppendFault {
    /// A call on the store failed. The journal is not sound any more.
    #[error("the store failed")]
    StoreFault,
    /// With the record the image would be longer than its bound.
    #[error("the store is full: {need} bytes needed, {limit} allowed")]
    StoreFull { need: u64, limit: u64 },
    /// There was not enough memory.
    #[error("out of memory")]
    Memory,
}

impl From<Failed> for BeginFault {
    ghost use Rattle.std.specs.Prelude.{◌≡◌};
    ghost use Rattle.abc_journal.specs.declared.faults.BeginFault.TheVariants.{StoreFault};

    ghost from_gives = { λ _ fault. fault ≡ StoreFault };

    fn from(_failed: Failed) -> BeginFault {
        BeginFault::StoreFault
    }
}

impl From<Failed> for AppendFault {
    ghost use Rattle.std.specs.Prelude.{◌≡◌};
    ghost use Rattle.abc_journal.specs.declared.faults.AppendFault.TheVariants.{StoreFault};

    ghost from_gives = { λ _ fault. fault ≡ StoreFault };

    fn from(_failed: Failed) -> AppendFault {
        AppendFault::StoreFault
    }
}

impl From<OutOfMemory> for BeginFault {
    ghost use Rattle.std.specs.Prelude.{◌≡◌};
    ghost use Rattle.abc_journal.specs.declared.faults.BeginFault.TheVariants.{Memory};

    ghost from_gives = { λ _ fault. fault ≡ Memory };

    fn from(_refused: OutOfMemory) -> BeginFault {
        BeginFault::Memory
    }
}

impl From<AllocError> for BeginFault {
    ghost use Rattle.std.specs.Prelude.{◌≡◌};
    ghost use Rattle.abc_journal.specs.declared.faults.BeginFault.TheVariants.{Memory};

    ghost from_gives = { λ _ fault. fault ≡ Memory };

    fn from(_refused: AllocError) -> BeginFault {
        BeginFault::Memory
    }
}

impl<T: Drop> From<AllocFailed<T>> for BeginFault {
    ghost use Rattle.std.specs.Prelude.{◌≡◌};
    ghost use Rattle.abc_journal.specs.declared.faults.BeginFault.TheVariants.{Memory};

    ghost from_gives = { λ _ fault. fault ≡ Memory };

    fn from(_refused: AllocFailed<T>) -> BeginFault {
        BeginFault::Memory
    }
}

impl From<AllocError> for AppendFault {
    ghost use Rattle.std.specs.Prelude.{◌≡◌};
    ghost use Rattle.abc_journal.specs.declared.faults.AppendFault.TheVariants.{Memory};

    ghost from_gives = { λ _ fault. fault ≡ Memory };

    fn from(_refused: AllocError) -> AppendFault {
        AppendFault::Memory
    }
}
