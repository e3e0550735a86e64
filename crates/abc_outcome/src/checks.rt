//! The type check of an item.
ghost use Rattle.std.specs.Prelude.{◌≡◌, ◌≤◌, ◌↔◌, ℕ, List, length, Ok, Err, None, Some, IfOk, IsTrue};
ghost use Rattle.abc_num.specs.declared.lines.Line.{Line};
ghost use Rattle.abc_groups.specs.Program.{LAST_LINE};
ghost use Rattle.abc_ground.specs.Groups.{whole};
ghost use Rattle.abc_check.specs.Cuts.{CutsAreSpelled};
ghost use Rattle.abc_parse.specs.RegularTemplates.{CommandIsRegular};
ghost use Rattle.abc_sound.specs.Checked.{IsReadCommand};
ghost use Rattle.abc_eval.specs.Runs.{IsAccepted};
ghost use Rattle.abc_store.specs.Workspace.{IsWellTyped, unit_of_lines, with_targets};
ghost use Rattle.abc_outcome.specs.Checks.{IsUpToDate, TakesCommand, TakesUnit, TellsTypeLine};
ghost use Rattle.abc_outcome.specs.Missing.{called_by, first_missing};

use abc_assured::session_items;
use abc_check::{CheckFault, Checker};
use abc_frames::Targets;
use abc_num::OutOfMemory;
use abc_parse::regular_templates;
use abc_store::Store;
use abc_store::laws::kept_units_are_regular;
use abc_tree::{Command, Unit, Units, one_template};
use std::alloc::Global;

/// The line up to which no types fit a command, if there is one. The checker is made first where there is none.
pub(crate) fn command_type_line(
    alloc: Global,
    store: &Store,
    checker: &mut Option<Checker>,
    command: &Command,
) -> Result<Option<u32>, OutOfMemory>
    requires up_to_date { IsUpToDate checker.old store.now.kept.units }
    requires regular { CommandIsRegular command.now }
    ensures told { IfOk result (λ line. TellsTypeLine (TakesCommand store.now.kept command.now) LAST_LINE line) }
    ensures up_to_date { IsUpToDate checker.new store.now.kept.units }
{
    regular_templates();
    one_template();
    let mut made = checker_of(alloc, checker.take(), store.units())?;
    let checked = made.check_command(store.targets(), command);
    *checker = Some(made);
    line_of(checked)
}

/// The line up to which no types fit a unit, if there is one.
pub(crate) fn unit_type_line(
    alloc: Global,
    store: &Store,
    unit: &Unit,
) -> Result<Option<u32>, OutOfMemory>
    requires spelled { unit_of_lines unit.now.lines ≡ Some unit.now }
    requires some { 1 ≤ length unit.now.lines }
    ensures { IfOk result (λ line. TellsTypeLine (TakesUnit store.now.kept unit.now) (length unit.now.lines) line) }
{
    regular_templates();
    one_template();
    line_of(Checker::check_unit(alloc, store.targets(), store.units(), unit))
}

/// Whether types fit these targets and the units of the store. The checker is made first where there is none.
pub(crate) fn targets_fit(
    alloc: Global,
    store: &Store,
    checker: &mut Option<Checker>,
    targets: &Targets,
) -> Result<bool, OutOfMemory>
    requires up_to_date { IsUpToDate checker.old store.now.kept.units }
    ensures fit { IfOk result (λ yes. IsTrue yes ↔ IsWellTyped (with_targets store.now.kept targets.now)) }
    ensures up_to_date { IsUpToDate checker.new store.now.kept.units }
{
    regular_templates();
    one_template();
    let mut made = checker_of(alloc, checker.take(), store.units())?;
    let fit = made.fits(targets);
    *checker = Some(made);
    fit
}

/// A command that was read, that reaches no missing unit and that types fit is accepted over what the store holds.
pub(crate) fn accept(store: &Store, command: &Command)
    requires read { IsReadCommand command.now }
    requires none_missing { first_missing store.now.kept.units (called_by command.now) ≡ None }
    requires fits { TakesCommand store.now.kept command.now LAST_LINE }
    ensures { IsAccepted store.now.kept.units store.now.kept.targets command.now }
{
    session_items();
    kept_units_are_regular();
    // Their clauses tell what holds of the targets and units of the store.
    let _targets = store.targets();
    let _units = store.units();
}

/// The checker of these units: the one that there is, or one that is made by a walk over all of them.
fn checker_of(
    alloc: Global,
    checker: Option<Checker>,
    units: &Units,
) -> Result<Checker, OutOfMemory>
    requires up_to_date { IsUpToDate checker units.now }
    requires spelled { CutsAreSpelled (whole units.now) }
    ensures { IfOk result (λ made. IsUpToDate (Some made) units.now) }
{
    match checker {
        Some(checker) => Ok(checker),
        None => Checker::over(alloc, units),
    }
}

/// The line at fault of what was checked, if there is one.
fn line_of(checked: Result<(), CheckFault>) -> Result<Option<u32>, OutOfMemory>
    ensures none { result ≡ Ok None → checked ≡ Ok tt }
    ensures some { (line : ℕ) → result ≡ Ok (Some line) → checked ≡ Err (CheckFault.TypeFault line) }
{
    match checked {
        Ok(()) => Ok(None),
        Err(CheckFault::TypeFault { line }) => Ok(Some(line)),
        Err(CheckFault::Memory) => Err(OutOfMemory),
    }
}
