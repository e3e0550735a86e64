//! What the actuals of the call of a command unit give: a value, and an address where the actual is one.
ghost use Rattle.std.specs.Prelude.{◌≡◌, ℕ, Bool, List, Some, None, option_map, IfOk};
ghost use Rattle.abc_num.specs.declared.lines.RawLine.{RawLine};
ghost use Rattle.abc_meaning.specs.State.{place};
ghost use Rattle.abc_state.specs.Views.{actual_of, address_of, scope_of, state_of};
ghost use Rattle.abc_state.specs.Words.{name_actual};

use crate::looking::look;
use crate::run::Run;
use crate::scope::Scope;
use crate::spots::{Spot, place};
use crate::values::copied;
use abc_frames::Targets;
use abc_num::OutOfMemory;
use abc_value::Value;
use std::alloc::Global;

/// What an actual gives. A lone name alone may have no value.
#[derive(Drop)]
pub struct Actual {
    pub value: Option<Value>,
    pub address: Option<Spot>,
}

/// What a lone name gives that is no refinement: a name that is bound is no address.
pub fn name_actual(
    alloc: Global,
    scope: &Scope<'_>,
    run: &Run,
    targets: &Targets,
    name: u32,
) -> Result<Actual, OutOfMemory>
    ensures { (lines : List RawLine) (ended : Bool) → IfOk result (λ a. actual_of a ≡ name_actual (scope_of scope.now) name (state_of run.now targets.now lines ended)) }
{
    let value = match look(scope, run, targets, name) {
        Some(value) => Some(copied(value)?),
        None => None,
    };
    let address = match scope.is_bound(name)? {
        true => None,
        false => Some(place(alloc, name)),
    };
    Ok(Actual { value, address })
}

/// What an expression gives that has this value, and this address if it is one.
pub fn located(value: Value, address: Option<Spot>) -> Actual
    ensures { actual_of result ≡ record { value = Some value; address = option_map address_of address } }
{
    Actual {
        value: Some(value),
        address,
    }
}
