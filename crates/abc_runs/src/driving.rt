//! A run from its start to its end, by the machine alone: no type check stands before it, so it may end as Wrong.
ghost use Rattle.abc_machine.specs.Machine.{IsBusy, IsOf};

use abc_frames::Targets;
use abc_machine::{Machine, Outcome, RunStop, Stepped};
use abc_num::Text;
use abc_outside::MemoryLines;
use abc_tree::{Command, Units};
use std::alloc::Global;

/// How a run ended, what it wrote and its steps.
#[derive(Drop)]
pub(crate) struct Ran {
    pub(crate) outcome: Outcome,
    pub(crate) output: Text,
    pub(crate) steps: u64,
}

/// Takes one step after the other, until the run ends.
fn drive<'a>(
    machine: &mut Machine<'a>,
    units: &'a Units,
    targets: &mut Targets,
    lines: &mut MemoryLines,
    steps: u64,
) -> Result<Outcome, RunStop>
    requires busy { IsBusy machine.old }
    requires of { IsOf units.now machine.old }
{
    'turn: loop {
        match machine.step(targets, units, lines, steps) {
            Ok(Stepped::More) => {}
            Ok(Stepped::End(outcome)) => return Ok(outcome),
            Err(stop) => return Err(stop),
        }
    }
}

/// Runs a command, which may take so many steps. It leaves the targets as they are at its end, whatever that is.
pub(crate) fn run_over(
    alloc: Global,
    command: &Command,
    units: &Units,
    targets: &mut Targets,
    lines: &mut MemoryLines,
    steps: u64,
) -> Result<Ran, RunStop> {
    let mut machine = match Machine::start(alloc, command) {
        Ok(machine) => machine,
        Err(_) => return Err(RunStop::Memory),
    };
    match drive(&mut machine, units, targets, lines, steps) {
        Ok(outcome) => Ok(Ran {
            outcome,
            steps: machine.steps(),
            output: machine.into_output(),
        }),
        Err(stop) => Err(stop),
    }
}
