//! Reads the units and commands of workspaces as the lines of an input. A line `!name literal` gives a target its value, and a line
//! `!` begins the next workspace. Prints for each item that it fits, or the line that is at fault; a unit that fits is put in the
//! workspace.
#![tactic(auto)]

ghost use Rattle.std.specs.Prelude.{◌≡◌, ◌<◌, ◌≤◌, true, length, All};
ghost use Rattle.abc_outline.specs.Rows.{IsShort};

use abc_check::{CheckFault, Checker};
use abc_frames::Targets;
use abc_layout::{Fed, Splitter};
use abc_num::limits::MOST_LINE_BYTES;
use abc_num::{ItemLines, Line, OutOfMemory, Text};
use abc_parse::{ItemFault, parse_item};
use abc_print::{LiteralFault, read_literal_line};
use abc_tree::{Command, Item, Unit, Units};
use std::alloc::Global;
use std::io;
use thiserror::Error;

/// Why the program ends before its input does.
#[derive(Debug, Drop, Error)]
enum Fault {
    #[error("an item has no line, or one that is too long")]
    Lines,
    #[error("a line behind `!` is no name and literal")]
    Value,
    #[error("out of memory")]
    Memory,
    #[error(transparent)]
    Io(#[from] io::Error),
}

impl From<OutOfMemory> for Fault {
    fn from(_refused: OutOfMemory) -> Fault {
        Fault::Memory
    }
}

/// What is checked against, and the item that is open.
#[derive(Drop)]
struct Workspace {
    targets: Targets,
    units: Units,
    splitter: Splitter,
}

impl Workspace {
    fn new(alloc: Global) -> Workspace {
        Workspace {
            targets: Targets::new(alloc),
            units: Units::new(alloc),
            splitter: Splitter::new(alloc),
        }
    }
}

/// Whether no line is longer than a line may be.
fn are_short(lines: &[Line]) -> bool
    ensures { result ≡ true → All IsShort lines.now }
{
    lines
        .iter()
        .all(|line| line.text.bytes().len() <= MOST_LINE_BYTES)
}

fn print_checked(rt: &HostRuntime, checked: Result<(), CheckFault>) -> Result<(), Fault> {
    match checked {
        Ok(()) => Ok(println!(rt; "fits")?),
        Err(CheckFault::TypeFault { line }) => Ok(println!(rt; "line {line}: TypeFault")?),
        Err(CheckFault::Memory) => Err(Fault::Memory),
    }
}

fn answer_command(rt: &HostRuntime, workspace: &Workspace, command: &Command) -> Result<(), Fault> {
    let mut checker = Checker::over(rt.alloc(), &workspace.units)?;
    print_checked(rt, checker.check_command(&workspace.targets, command))
}

/// Checks a unit, and puts it in the workspace if it fits.
fn answer_unit(rt: &HostRuntime, workspace: &mut Workspace, unit: Unit) -> Result<(), Fault> {
    let checked = Checker::check_unit(rt.alloc(), &workspace.targets, &workspace.units, &unit);
    print_checked(rt, checked)?;
    if checked.is_ok() {
        workspace.units.put(unit)?;
    }
    Ok(())
}

fn answer_found(
    rt: &HostRuntime,
    workspace: &mut Workspace,
    found: Result<Item, ItemFault>,
) -> Result<(), Fault> {
    match found {
        Ok(Item::Command(command)) => answer_command(rt, workspace, &command),
        Ok(Item::Unit(unit)) => answer_unit(rt, workspace, unit),
        Ok(Item::Environment(_)) => Ok(println!(rt; "asks")?),
        Err(ItemFault::At(fault)) => Ok(println!(rt; "line {}: {:?}", fault.line, fault.kind)?),
        Err(ItemFault::Memory) => Err(Fault::Memory),
    }
}

fn answer(rt: &HostRuntime, workspace: &mut Workspace, item: &ItemLines) -> Result<(), Fault> {
    if item.is_empty() {
        return Err(Fault::Lines);
    }
    if !are_short(item.as_slice()) {
        return Err(Fault::Lines);
    }
    let found = parse_item(rt.alloc(), item, &workspace.targets.names()?);
    answer_found(rt, workspace, found)
}

/// What became of a line.
#[derive(Clone, Copy, Debug, PartialEq, Eq)]
enum Fate {
    /// It was taken.
    Taken,
    /// It ends the item before it, and is taken when it comes again.
    Left,
}

/// Answers the item that is whole with this line or before it.
fn feed(rt: &HostRuntime, workspace: &mut Workspace, line: &str) -> Result<Fate, Fault> {
    let kept = line.len().min(MOST_LINE_BYTES);
    match workspace
        .splitter
        .feed_line(&line.as_bytes()[..kept], kept < line.len())?
    {
        Fed::More => Ok(Fate::Taken),
        Fed::Whole(item) => {
            answer(rt, workspace, &item)?;
            Ok(Fate::Taken)
        }
        Fed::Before(item) => {
            answer(rt, workspace, &item)?;
            Ok(Fate::Left)
        }
    }
}

/// Answers the item that the input or a line with `!` ends, if one is open.
fn finish(rt: &HostRuntime, workspace: &mut Workspace) -> Result<(), Fault> {
    match workspace.splitter.finish() {
        Some(item) => answer(rt, workspace, &item),
        None => Ok(()),
    }
}

/// Gives a target the value that is spelled behind its name.
fn set_target(rt: &HostRuntime, workspace: &mut Workspace, row: &str) -> Result<(), Fault> {
    let Some((name, literal)) = row.split_once(' ') else {
        return Err(Fault::Value);
    };
    if literal.len() > MOST_LINE_BYTES {
        return Err(Fault::Value);
    }
    let value = match read_literal_line(rt.alloc(), literal.as_bytes()) {
        Ok(value) => value,
        Err(LiteralFault::BadInput) => return Err(Fault::Value),
        Err(LiteralFault::Memory) => return Err(Fault::Memory),
    };
    Ok(
        workspace
            .targets
            .set(Text::of(rt.alloc(), name.as_bytes())?, value)?,
    )
}

fn take(rt: &HostRuntime, workspace: &mut Workspace, line: &str) -> Result<(), Fault> {
    let Some(row) = line.strip_prefix('!') else {
        // The line that ends an item is taken when it comes again.
        if let Fate::Left = feed(rt, workspace, line)? {
            feed(rt, workspace, line)?;
        }
        return Ok(());
    };
    finish(rt, workspace)?;
    if row.is_empty() {
        println!(rt; "")?;
        *workspace = Workspace::new(rt.alloc());
        return Ok(());
    }
    set_target(rt, workspace, row)
}

fn main(rt: HostRuntime) -> Result<(), Fault> {
    let mut workspace = Workspace::new(rt.alloc());
    for line in rt.lines(rt.alloc()) {
        take(&rt, &mut workspace, line?.as_str())?;
    }
    finish(&rt, &mut workspace)
}
