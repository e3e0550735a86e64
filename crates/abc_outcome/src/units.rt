//! The answer to a unit.
ghost use Rattle.std.specs.Prelude.{◌≡◌, ◌≤◌, ◌⊎◌, ◌∷◌, [], ℕ, length, Option, Some, IfOk, IsErrOf, IsTrue};
ghost use Rattle.abc_record.specs.declared.change.Change.TheVariants.{SetUnit};
ghost use Rattle.abc_store.specs.Commit.{Holds};
ghost use Rattle.abc_store.specs.View.{work_of};
ghost use Rattle.abc_store.specs.Workspace.{unit_of_lines};
ghost use Rattle.abc_tree.specs.Units.{with_unit};
ghost use Rattle.abc_outcome.specs.Checks.{IsUpToDate, TakesUnit, TellsTypeLine};
ghost use Rattle.abc_outcome.specs.Outcome.{Behind, Outcome, accepted_line, set_outcome, unit_outcome};
ghost use Rattle.abc_outcome.specs.inner.Settling.{Settles};

use crate::checks::unit_type_line;
use crate::keeping::{Ending, keep};
use crate::replies::{refusal, unit_line, waiting_line};
use crate::spelled::are_spelled_lines;
use crate::{Answer, AnswerFault};
use abc_check::Checker;
use abc_groups::first_missing_with;
use abc_num::OutOfMemory;
use abc_outside::Host;
use abc_record::Change;
use abc_store::Store;
use abc_tree::{Unit, Units};
use std::alloc::Global;
use std::slice;

/// Answers a unit, which its own lines spell. Where types fit it, what the type check knew of the units is forgotten, since the unit
/// may then be kept.
pub(crate) fn answer_unit<H: Host>(
    alloc: Global,
    store: &mut Store,
    checker: &mut Option<Checker>,
    host: &mut H,
    unit: Unit,
    k: u64,
) -> Result<Answer, AnswerFault>
    requires sound { IsTrue store.old.sound }
    requires holds { H.tells_image → Holds (H.now host.old).image (work_of store.old) }
    requires spelled { unit_of_lines unit.lines ≡ Some unit }
    requires some { 1 ≤ length unit.lines }
    requires up_to_date { IsUpToDate checker.old store.old.kept.units }
    ensures comes { (line : Option ℕ) → TellsTypeLine (TakesUnit store.old.kept unit) (length unit.lines) line → (behind : Behind) → Settles H.tells_image H.now H.clock H.stopped store.old store.new host.old host.new result behind.lines
        (unit_outcome line store.old.bounds k (work_of store.old) behind unit) }
    ensures told { ((line : Option ℕ) × TellsTypeLine (TakesUnit store.old.kept unit) (length unit.lines) line) ⊎ (IsErrOf result AnswerFault.Memory × (store.new ≡ store.old) × (host.new ≡ host.old)) }
    ensures settles { (behind : Behind) → (out : Outcome) × Settles H.tells_image H.now H.clock H.stopped store.old store.new host.old host.new result behind.lines out }
    ensures up_to_date { ¬ (IsErrOf result AnswerFault.StoreFault) → IsUpToDate checker.new store.new.kept.units }
{
    if let Some(line) = unit_type_line(alloc, store, &unit)? {
        return refusal(alloc, k, Vec::new(alloc), line, "TypeFault");
    }
    *checker = None;
    set_unit(alloc, store, host, unit, k)
}

/// Answers a unit that types fit, and which its own lines spell.
fn set_unit<H: Host>(
    alloc: Global,
    store: &mut Store,
    host: &mut H,
    unit: Unit,
    k: u64,
) -> Result<Answer, AnswerFault>
    requires sound { IsTrue store.old.sound }
    requires holds { H.tells_image → Holds (H.now host.old).image (work_of store.old) }
    requires spelled { unit_of_lines unit.lines ≡ Some unit }
    requires fits { TakesUnit store.old.kept unit (length unit.lines) }
    ensures { (behind : Behind) → Settles H.tells_image H.now H.clock H.stopped store.old store.new host.old host.new result behind.lines
        (set_outcome store.old.bounds k (work_of store.old) behind unit) }
{
    if !store.has_room_for(&unit) {
        return refusal(alloc, k, Vec::new(alloc), 1, "TooManyUnits");
    }
    if !are_spelled_lines(unit.lines.as_slice()) {
        return refusal(alloc, k, Vec::new(alloc), 1, "TooLarge");
    }
    let ending = Ending {
        output: Vec::new(alloc),
        line: ending_line(alloc, store.units(), &unit, k)?,
        quit: false,
    };
    let changes = setting(alloc, unit)?;
    keep(alloc, store, host, changes, ending, k)
}

/// The change that sets a unit.
fn setting(alloc: Global, unit: Unit) -> Result<Vec<Change>, OutOfMemory>
    ensures { IfOk result (λ changes. changes.items ≡ SetUnit unit.lines ∷ []) }
{
    let mut changes = Vec::new(alloc);
    changes.push(Change::SetUnit { lines: unit.lines })?;
    Ok(changes)
}

/// The reply line of a unit among the units that there are. Only units that it reaches are read.
fn ending_line(alloc: Global, units: &Units, unit: &Unit, k: u64) -> Result<Vec<u8>, OutOfMemory>
    ensures { IfOk result (λ line. line.items ≡ accepted_line k unit.now (with_unit unit.now units.now)) }
{
    let template = unit.template.text(alloc)?;
    let missing = first_missing_with(alloc, units, unit, slice::from_ref(&unit.template))?;
    match missing {
        None => unit_line(alloc, k, &template),
        Some(missing) => waiting_line(alloc, k, &template, &missing.text(alloc)?),
    }
}
