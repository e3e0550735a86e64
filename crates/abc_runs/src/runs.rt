//! What a run leaves, in one line.

use crate::driving::run_over;
use crate::{Fault, Workspace};
use abc_frames::{Kept, TargetChange, Targets};
use abc_machine::Outcome;
use abc_num::limits::MOST_OUTPUT;
use abc_outside::{Lines, MemoryLines};
use abc_print::display_of;
use abc_tree::Command;
use std::mem;

fn print_outcome(rt: &HostRuntime, outcome: Outcome) -> Result<(), Fault> {
    match outcome {
        Outcome::Done => print!(rt; "done")?,
        Outcome::Quit => print!(rt; "quit")?,
        Outcome::Fault { line, fault } => print!(rt; "line {line}: {fault:?}")?,
        Outcome::Wrong { line } => print!(rt; "line {line}: Wrong")?,
    }
    Ok(())
}

/// Prints bytes in quotes.
fn print_quoted(rt: &HostRuntime, bytes: &[u8]) -> Result<(), Fault> {
    let text = str::from_utf8(bytes).map_err(|_| Fault::Text)?;
    print!(rt; "{text:?}")?;
    Ok(())
}

fn print_bytes(rt: &HostRuntime, bytes: &[u8]) -> Result<(), Fault> {
    let text = str::from_utf8(bytes).map_err(|_| Fault::Text)?;
    print!(rt; "{text}")?;
    Ok(())
}

fn print_change(rt: &HostRuntime, change: &TargetChange) -> Result<(), Fault> {
    print!(rt; ", ")?;
    print_bytes(rt, change.name.bytes())?;
    match &change.value {
        Some(value) => {
            print!(rt; " = ")?;
            let shown = display_of(rt.alloc(), value, MOST_OUTPUT).map_err(Fault::Print)?;
            print_bytes(rt, &shown)
        }
        None => Ok(print!(rt; " gone")?),
    }
}

fn print_changes(rt: &HostRuntime, changes: &[TargetChange]) -> Result<(), Fault> {
    for change in changes {
        print_change(rt, change)?;
    }
    Ok(())
}

/// Prints the next line that was left, if there is one.
fn print_left(rt: &HostRuntime, lines: &mut MemoryLines) -> Result<(), Fault> {
    match lines.next() {
        Ok(Some(line)) => {
            print!(rt; ", left ")?;
            print_quoted(rt, line.bytes.bytes())
        }
        Ok(None) => Ok(()),
        Err(_) => Err(Fault::Memory),
    }
}

/// Runs a command, and prints how it ended, its steps and what it wrote.
fn run(
    rt: &HostRuntime,
    workspace: &mut Workspace,
    command: &Command,
    lines: &mut MemoryLines,
) -> Result<Outcome, Fault> {
    let ran = match run_over(
        rt.alloc(),
        command,
        &workspace.units,
        &mut workspace.targets,
        lines,
        workspace.steps,
    ) {
        Ok(ran) => ran,
        Err(_) => return Err(Fault::Memory),
    };
    print_outcome(rt, ran.outcome)?;
    print!(rt; ", {} steps, wrote ", ran.steps)?;
    print_quoted(rt, ran.output.bytes())?;
    Ok(ran.outcome)
}

/// Prints the changes that stay; after a fault the targets go back to those from before.
fn settle(
    rt: &HostRuntime,
    targets: &mut Targets,
    before: Kept,
    outcome: Outcome,
) -> Result<(), Fault> {
    match outcome {
        Outcome::Done => print_changes(rt, &targets.changes(&before)?),
        Outcome::Quit => print_changes(rt, &targets.changes(&before)?),
        Outcome::Fault { line: _, fault: _ } => Ok(targets.back(before)),
        Outcome::Wrong { line: _ } => Ok(targets.back(before)),
    }
}

/// Runs a command over the lines that were given for it, and prints what it leaves.
pub(crate) fn answer_command(
    rt: &HostRuntime,
    workspace: &mut Workspace,
    command: &Command,
) -> Result<(), Fault> {
    let given = mem::replace(&mut workspace.given, Vec::new(rt.alloc()));
    let mut lines = MemoryLines::new(rt.alloc(), given);
    let before = workspace.targets.keep()?;
    let outcome = run(rt, workspace, command, &mut lines)?;
    settle(rt, &mut workspace.targets, before, outcome)?;
    print_left(rt, &mut lines)?;
    println!(rt; "")?;
    Ok(())
}
