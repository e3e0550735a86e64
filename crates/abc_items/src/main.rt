//! Reads the names of targets in a line, a space between, and then the lines of an input. Prints a line for each item of the input:
//! its tree, or the line and the kind of its fault.
#![tactic(auto)]

mod show;

ghost use Rattle.std.specs.Prelude.{◌≡◌, ◌<◌, ◌≤◌, true, length, All};
ghost use Rattle.abc_outline.specs.Rows.{IsShort};

use abc_layout::{Fed, Splitter};
use abc_num::limits::MOST_LINE_BYTES;
use abc_num::{ItemLines, Line, Names, OutOfMemory, Text};
use abc_parse::{ItemFault, parse_item};
use abc_show::Sheet;
use abc_tree::Item;
use show::show_item;
use std::io;
use thiserror::Error;

/// Why the program ends before its input does.
#[derive(Debug, Drop, Error)]
pub(crate) enum Fault {
    #[error("an item has no line, or one that is too long")]
    Lines,
    #[error("a part of a tree is no text")]
    Text,
    #[error("out of memory")]
    Memory,
    #[error(transparent)]
    Io(#[from] io::Error),
}

impl From<OutOfMemory> for Fault {
    fn from(_refused: OutOfMemory) -> Fault {
        Fault::Memory
    }
}

/// Whether no line is longer than a line may be.
fn are_short(lines: &[Line]) -> bool
    ensures { result ≡ true → All IsShort lines.now }
{
    lines
        .iter()
        .all(|line| line.text.bytes().len() <= MOST_LINE_BYTES)
}

/// Prints an item in one line.
fn print_item(rt: &HostRuntime, item: &Item) -> Result<(), Fault> {
    let mut sheet = Sheet::new(rt.alloc());
    show_item(&mut sheet, item)?;
    let text = str::from_utf8(sheet.bytes()).map_err(|_| Fault::Text)?;
    Ok(println!(rt; "{text}")?)
}

/// Prints an item, or its fault.
fn print_found(rt: &HostRuntime, found: Result<Item, ItemFault>) -> Result<(), Fault> {
    match found {
        Ok(tree) => print_item(rt, &tree),
        Err(ItemFault::At(fault)) => Ok(println!(rt; "line {}: {:?}", fault.line, fault.kind)?),
        Err(ItemFault::Memory) => Err(Fault::Memory),
    }
}

fn answer(rt: &HostRuntime, targets: &Names, item: &ItemLines) -> Result<(), Fault> {
    if item.is_empty() {
        return Err(Fault::Lines);
    }
    if !are_short(item.as_slice()) {
        return Err(Fault::Lines);
    }
    print_found(rt, parse_item(rt.alloc(), item, targets))
}

/// What became of a line.
#[derive(Clone, Copy, Debug, PartialEq, Eq)]
enum Fate {
    /// It was taken.
    Taken,
    /// It ends the item before it, and is taken when it comes again.
    Left,
}

/// Answers the item that is whole with this line or before it.
fn feed(
    rt: &HostRuntime,
    targets: &Names,
    splitter: &mut Splitter,
    line: &str,
) -> Result<Fate, Fault> {
    let kept = line.len().min(MOST_LINE_BYTES);
    match splitter.feed_line(&line.as_bytes()[..kept], kept < line.len())? {
        Fed::More => Ok(Fate::Taken),
        Fed::Whole(item) => {
            answer(rt, targets, &item)?;
            Ok(Fate::Taken)
        }
        Fed::Before(item) => {
            answer(rt, targets, &item)?;
            Ok(Fate::Left)
        }
    }
}

/// The words of the text as names. What is beyond the bound of names is left out.
fn names_in(rt: &HostRuntime, text: &str) -> Result<Names, Fault> {
    let mut names = Names::new(rt.alloc());
    for word in text.split_whitespace() {
        if names.len() < MOST_LINE_BYTES {
            names.number(Text::of(rt.alloc(), word.as_bytes())?)?;
        }
    }
    Ok(names)
}

fn main(rt: HostRuntime) -> Result<(), Fault> {
    let mut lines = rt.lines(rt.alloc());
    let Some(first) = lines.next() else {
        return Ok(());
    };
    let targets = names_in(&rt, first?.as_str())?;
    let mut splitter = Splitter::new(rt.alloc());
    for line in lines {
        let line = line?;
        // The line that ends an item is taken when it comes again.
        if let Fate::Left = feed(&rt, &targets, &mut splitter, line.as_str())? {
            feed(&rt, &targets, &mut splitter, line.as_str())?;
        }
    }
    if let Some(item) = splitter.finish() {
        answer(&rt, &targets, &item)?;
    }
    Ok(())
}
