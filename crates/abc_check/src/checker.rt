//! The checker of a workspace.
ghost use Rattle.std.specs.Prelude.{◌≡◌, ◌≤◌, ◌↔◌, ℕ, List, length, IsTrue, Err, IfOk, OnOk};
ghost use Rattle.abc_groups.specs.Program.{LAST_LINE};
ghost use Rattle.abc_tree.specs.Ordered.{RiseBy};
ghost use Rattle.abc_ground.specs.Groups.{Cut, whole, with_cut, template_of};
ghost use Rattle.abc_ground.specs.Typable.{IsTypable, IsTypableWith, IsTypeLine};
ghost use Rattle.abc_principal.specs.Exact.{cuts_of};
ghost use Rattle.abc_check.specs.Cuts.{CutsAreSpelled, AllAreSpelled};
ghost use Rattle.abc_check.specs.Standing.{CallsAreSpelled, StandsFor, IsMade};
ghost use Rattle.abc_check.specs.inner.Halves.{IsUnitBetween};

use crate::fault::{CheckFault, no_types};
use crate::members::{cut_members, line_count, whole_members};
use crate::types::UnitTypes;
use abc_frames::Targets;
use abc_num::OutOfMemory;
use abc_principal::Member;
use abc_tree::{Command, Unit, Units};
use abc_unify::UnifyFault;
use std::alloc::Global;

/// The checker of a workspace: what is known of its units. The values of targets come with each check, so nothing is to be kept
/// up to date when they change. A check of a command asks once for the types of all targets, and goes over the command three
/// times: for the units that it calls, for the names that it binds, and for what its nodes ask. It walks over no unit and no
/// value; each call copies what is known of its unit. A command that is refused is gone over once more for its last line, and
/// three times more each time that its lines are halved.
#[derive(Drop)]
pub enum Checker {
    Typable(UnitTypes),
    /// Nothing is typable with these units, whatever the values of targets are.
    Untypable,
}

/// The checker of these units.
fn checker_of(alloc: Global, members: &[Member<'_>]) -> Result<Checker, OutOfMemory>
    requires { RiseBy template_of (cuts_of members.now) }
    ensures stands { IfOk result (λ checker. CutsAreSpelled (cuts_of members.now) → StandsFor checker (cuts_of members.now)) }
    ensures made { IfOk result IsMade }
{
    match UnitTypes::over(alloc, members) {
        Ok(types) => Ok(Checker::Typable(types)),
        Err(UnifyFault::Clash) => Ok(Checker::Untypable),
        Err(UnifyFault::Memory) => Err(OutOfMemory),
    }
}

impl Checker {
    /// The checker of these units, whether they are typable or not.
    pub fn over(alloc: Global, units: &Units) -> Result<Checker, OutOfMemory>
        ensures stands { IfOk result (λ checker. CutsAreSpelled (whole units.now) → StandsFor checker (whole units.now)) }
        ensures made { IfOk result IsMade }
    {
        let members = whole_members(alloc, units)?;
        checker_of(alloc, &members)
    }

    /// Whether the workspace is typable with these values of targets. It keeps all that is known.
    pub fn fits(&mut self, targets: &Targets) -> Result<bool, OutOfMemory>
        requires { IsMade self.old }
        ensures exact { IfOk result (λ yes. (w : List Cut) → StandsFor self.old w → (IsTrue yes ↔ IsTypable targets.now w)) }
        ensures kept { self.new ≡ self.old }
    {
        match self {
            Checker::Typable(types) => types.fits(targets),
            Checker::Untypable => Ok(false),
        }
    }

    /// Accepts a command exactly where the workspace is typable with all of it and these values of targets, and else tells the
    /// line at fault: the first one up to which no types fit. It keeps all that is known.
    pub fn check_command(&mut self, targets: &Targets, command: &Command) -> Result<(), CheckFault>
        requires { IsMade self.old }
        ensures ok { OnOk result ((w : List Cut) → StandsFor self.old w → CallsAreSpelled w command.now → (n : ℕ) → n ≤ LAST_LINE → IsTypableWith targets.now w command.now n) }
        ensures fault { (line : ℕ) → result ≡ Err (CheckFault.TypeFault line) → (w : List Cut) → StandsFor self.old w → CallsAreSpelled w command.now → IsTypeLine (λ n. IsTypableWith targets.now w command.now n) line × (IsTypableWith targets.now w command.now LAST_LINE → ⊥) }
        ensures kept { self.new ≡ self.old }
    {
        match self {
            Checker::Typable(types) => types.check(targets, command),
            Checker::Untypable => Err(CheckFault::TypeFault { line: 1 }),
        }
    }

    /// Accepts a unit, in the place of the one with its template, exactly where the workspace is typable with all of it and these
    /// values of targets. Else it tells the line at fault: the first one such that nothing is typable with the unit cut after it.
    /// All that is to be known of the units is made anew, and again each time that the lines of a refused unit are halved.
    pub fn check_unit(
        alloc: Global,
        targets: &Targets,
        units: &Units,
        unit: &Unit,
    ) -> Result<(), CheckFault>
        ensures ok { OnOk result (CutsAreSpelled (with_cut unit.now (length unit.now.lines) units.now) → IsTypable targets.now (with_cut unit.now (length unit.now.lines) units.now)) }
        ensures fault { (line : ℕ) → result ≡ Err (CheckFault.TypeFault line) → AllAreSpelled unit.now units.now → 1 ≤ length unit.now.lines → IsTypeLine (λ n. IsTypable targets.now (with_cut unit.now n units.now)) line × (IsTypable targets.now (with_cut unit.now (length unit.now.lines) units.now) → ⊥) }
    {
        let lines = line_count(unit)?;
        if fits_upto(alloc, targets, units, unit, lines)? {
            Ok(())
        } else {
            Err(unit_fault(alloc, targets, units, unit, lines))
        }
    }
}

/// Whether the workspace is typable with these values of targets and this unit in its place, of which `lines` lines count.
fn fits_upto(
    alloc: Global,
    targets: &Targets,
    units: &Units,
    unit: &Unit,
    lines: u32,
) -> Result<bool, OutOfMemory>
    ensures { IfOk result (λ yes. CutsAreSpelled (with_cut unit.now lines units.now) → (IsTrue yes ↔ IsTypable targets.now (with_cut unit.now lines units.now))) }
{
    let members = cut_members(alloc, units, unit, lines)?;
    match UnitTypes::over(alloc, &members) {
        Ok(mut types) => types.fits(targets),
        Err(fault) => no_types(fault),
    }
}

/// The line at fault of a unit that is not accepted, between one up to which it is and one up to which it isn't. Fewer lines stay
/// typable, so each test halves what is left.
fn unit_line_between(
    alloc: Global,
    targets: &Targets,
    units: &Units,
    unit: &Unit,
    taken: u32,
    refused: u32,
) -> Result<u32, OutOfMemory>
    requires { taken ≤ refused }
    ensures { IfOk result (λ line. IsUnitBetween targets.now unit.now units.now taken refused line) }
{
    if refused - taken <= 1 {
        return Ok(refused);
    }
    let middle = taken + (refused - taken) / 2;
    if fits_upto(alloc, targets, units, unit, middle)? {
        unit_line_between(alloc, targets, units, unit, middle, refused)
    } else {
        unit_line_between(alloc, targets, units, unit, taken, middle)
    }
}

/// The fault of a unit that is not accepted.
fn unit_fault(
    alloc: Global,
    targets: &Targets,
    units: &Units,
    unit: &Unit,
    lines: u32,
) -> CheckFault
    ensures { (line : ℕ) → result ≡ CheckFault.TypeFault line → AllAreSpelled unit.now units.now → 1 ≤ lines → (IsTypable targets.now (with_cut unit.now lines units.now) → ⊥) → IsTypeLine (λ n. IsTypable targets.now (with_cut unit.now n units.now)) line }
{
    match unit_line_between(alloc, targets, units, unit, 0, lines) {
        Ok(line) => CheckFault::TypeFault { line },
        Err(_) => CheckFault::Memory,
    }
}
