//! Reads units and commands as the lines of an input, and runs each command over the units and targets so far. A line `>text` is a
//! line that the next command may read, and a line `!steps` says how many steps each may take from then on. Prints for each command
//! how it ended, its steps, what it wrote, the targets that it changed and the next line that it left.
#![tactic(auto)]

mod driving;
mod runs;

ghost use Rattle.std.specs.Prelude.{◌≡◌, ◌<◌, ◌≤◌, true, length, All};
ghost use Rattle.abc_outline.specs.Rows.{IsShort};

use abc_frames::Targets;
use abc_layout::{Fed, Splitter};
use abc_num::limits::{DEFAULT_STEPS, MOST_LINE_BYTES};
use abc_num::{ItemLines, Line, OutOfMemory};
use abc_parse::{ItemFault, parse_item};
use abc_print::PrintFault;
use abc_tree::{Item, Unit, Units};
use runs::answer_command;
use std::alloc::Global;
use std::io;
use thiserror::Error;

/// Why the program ends before its input does.
#[derive(Debug, Drop, Error)]
pub(crate) enum Fault {
    #[error("an item has no line, or one that is too long")]
    Lines,
    #[error("a line behind `!` is no count of steps")]
    Steps,
    #[error("a value is not printed: {0:?}")]
    Print(PrintFault),
    #[error("what was written is no text")]
    Text,
    #[error("out of memory")]
    Memory,
    #[error(transparent)]
    Io(#[from] io::Error),
}

impl From<OutOfMemory> for Fault {
    fn from(_refused: OutOfMemory) -> Fault {
        Fault::Memory
    }
}

/// What commands run over, and the item that is open.
#[derive(Drop)]
pub(crate) struct Workspace {
    pub(crate) targets: Targets,
    pub(crate) units: Units,
    splitter: Splitter,
    /// The lines that the next command may read.
    pub(crate) given: Vec<u8>,
    pub(crate) steps: u64,
}

impl Workspace {
    fn new(alloc: Global) -> Workspace {
        Workspace {
            targets: Targets::new(alloc),
            units: Units::new(alloc),
            splitter: Splitter::new(alloc),
            given: Vec::new(alloc),
            steps: DEFAULT_STEPS,
        }
    }
}

/// Whether no line is longer than a line may be.
fn are_short(lines: &[Line]) -> bool
    ensures { result ≡ true → All IsShort lines.now }
{
    lines
        .iter()
        .all(|line| line.text.bytes().len() <= MOST_LINE_BYTES)
}

fn keep_unit(rt: &HostRuntime, workspace: &mut Workspace, unit: Unit) -> Result<(), Fault> {
    workspace.units.put(unit)?;
    println!(rt; "unit")?;
    Ok(())
}

fn answer_found(
    rt: &HostRuntime,
    workspace: &mut Workspace,
    found: Result<Item, ItemFault>,
) -> Result<(), Fault> {
    match found {
        Ok(Item::Command(command)) => answer_command(rt, workspace, &command),
        Ok(Item::Unit(unit)) => keep_unit(rt, workspace, unit),
        Ok(Item::Environment(_)) => Ok(println!(rt; "asks")?),
        Err(ItemFault::At(fault)) => Ok(println!(rt; "line {}: {:?}", fault.line, fault.kind)?),
        Err(ItemFault::Memory) => Err(Fault::Memory),
    }
}

fn answer(rt: &HostRuntime, workspace: &mut Workspace, item: &ItemLines) -> Result<(), Fault> {
    if item.is_empty() {
        return Err(Fault::Lines);
    }
    if !are_short(item.as_slice()) {
        return Err(Fault::Lines);
    }
    let found = parse_item(rt.alloc(), item, &workspace.targets.names()?);
    answer_found(rt, workspace, found)
}

/// What became of a line.
#[derive(Clone, Copy, Debug, PartialEq, Eq)]
enum Fate {
    /// It was taken.
    Taken,
    /// It ends the item before it, and is taken when it comes again.
    Left,
}

/// Answers the item that is whole with this line or before it.
fn feed(rt: &HostRuntime, workspace: &mut Workspace, line: &str) -> Result<Fate, Fault> {
    let kept = line.len().min(MOST_LINE_BYTES);
    match workspace
        .splitter
        .feed_line(&line.as_bytes()[..kept], kept < line.len())?
    {
        Fed::More => Ok(Fate::Taken),
        Fed::Whole(item) => {
            answer(rt, workspace, &item)?;
            Ok(Fate::Taken)
        }
        Fed::Before(item) => {
            answer(rt, workspace, &item)?;
            Ok(Fate::Left)
        }
    }
}

/// Answers the item that the input ends, or a line that is of no item, if one is open.
fn finish(rt: &HostRuntime, workspace: &mut Workspace) -> Result<(), Fault> {
    match workspace.splitter.finish() {
        Some(item) => answer(rt, workspace, &item),
        None => Ok(()),
    }
}

/// Keeps a line that the next command may read.
fn give(workspace: &mut Workspace, line: &str) -> Result<(), OutOfMemory> {
    workspace.given.extend_from_slice(line.as_bytes())?;
    workspace.given.push(b'\n')?;
    Ok(())
}

fn take(rt: &HostRuntime, workspace: &mut Workspace, line: &str) -> Result<(), Fault> {
    if let Some(given) = line.strip_prefix('>') {
        finish(rt, workspace)?;
        give(workspace, given)?;
        return Ok(());
    }
    if let Some(steps) = line.strip_prefix('!') {
        finish(rt, workspace)?;
        workspace.steps = steps.parse::<u64>().map_err(|_| Fault::Steps)?;
        return Ok(());
    }
    // The line that ends an item is taken when it comes again.
    if let Fate::Left = feed(rt, workspace, line)? {
        feed(rt, workspace, line)?;
    }
    Ok(())
}

fn main(rt: HostRuntime) -> Result<(), Fault> {
    let mut workspace = Workspace::new(rt.alloc());
    for line in rt.lines(rt.alloc()) {
        take(&rt, &mut workspace, line?.as_str())?;
    }
    finish(&rt, &mut workspace)
}
