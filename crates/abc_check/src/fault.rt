//! Why a command or a unit is not accepted.
ghost use Rattle.std.specs.Prelude.{◌≡◌, ℕ, Err, IfOk, false};

use abc_num::OutOfMemory;
use abc_unify::UnifyFault;

/// Why a command or a unit is not accepted.
#[derive(Clone, Copy, Debug, PartialEq, Eq)]
pub enum CheckFault {
    /// The first line up to which no types fit.
    TypeFault { line: u32 },
    Memory,
}

impl From<OutOfMemory> for CheckFault {
    ghost use Rattle.std.specs.Prelude.{◌≡◌};
    ghost use Rattle.abc_check.specs.declared.fault.CheckFault.TheVariants.{Memory};

    ghost from_gives = { λ _ fault. fault ≡ Memory };

    fn from(_refused: OutOfMemory) -> CheckFault {
        CheckFault::Memory
    }
}

/// Whether there are types, where demands were not added.
pub(crate) fn no_types(fault: UnifyFault) -> Result<bool, OutOfMemory>
    ensures { IfOk result (λ answer. (answer ≡ false) × (fault ≡ UnifyFault.Clash)) }
{
    match fault {
        UnifyFault::Clash => Ok(false),
        UnifyFault::Memory => Err(OutOfMemory),
    }
}

/// The fault of whatever is checked, where there are no types without it.
pub(crate) fn at_line_one(fault: UnifyFault) -> CheckFault
    ensures { (line : ℕ) → result ≡ CheckFault.TypeFault line → (line ≡ 1) × (fault ≡ UnifyFault.Clash) }
{
    match fault {
        UnifyFault::Clash => CheckFault::TypeFault { line: 1 },
        UnifyFault::Memory => CheckFault::Memory,
    }
}
