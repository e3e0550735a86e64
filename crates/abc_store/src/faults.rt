//! The faults of a commit.
use abc_journal::AppendFault;
use abc_num::OutOfMemory;
use thiserror::Error;

/// Why changes are not kept.
#[derive(Clone, Copy, Debug, PartialEq, Eq, Error)]
pub enum CommitFault {
    /// A call on the store failed. The store is not sound any more.
    #[error("the store failed")]
    StoreFault,
    /// The spelling of the changes is longer than that of one item may be.
    #[error("the changes are too large: {bytes} bytes")]
    TooLarge { bytes: u64 },
    /// The image would be longer than its bound: with a checkpoint that makes room, or else with the record after it.
    #[error("the store is full: {need} bytes needed, {limit} allowed")]
    StoreFull { need: u64, limit: u64 },
    /// There was not enough memory.
    #[error("out of memory")]
    Memory,
}

impl From<OutOfMemory> for CommitFault {
    ghost use Rattle.std.specs.Prelude.{◌≡◌};
    ghost use Rattle.abc_store.specs.declared.faults.CommitFault.TheVariants.{Memory};

    ghost from_gives = { λ _ fault. fault ≡ Memory };

    fn from(_refused: OutOfMemory) -> CommitFault {
        CommitFault::Memory
    }
}

impl From<AppendFault> for CommitFault {
    ghost use Rattle.std.specs.Prelude.{◌≡◌};
    ghost use Rattle.abc_store.specs.Commit.{commit_fault};

    ghost from_gives = { λ fault given. given ≡ commit_fault fault };

    fn from(fault: AppendFault) -> CommitFault {
        match fault {
            AppendFault::StoreFault => CommitFault::StoreFault,
            AppendFault::StoreFull { need, limit } => CommitFault::StoreFull { need, limit },
            AppendFault::Memory => CommitFault::Memory,
        }
    }
}
