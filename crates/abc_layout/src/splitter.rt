//! The splitter: it keeps one open item.
ghost use Rattle.std.specs.Prelude.{◌≡◌, ◌==◌, ◌≤◌, ◌||◌, ◌&&◌, not, nat_lt, List, [], false, length, IfOk, OnErr};
ghost use Rattle.std.specs.List.{prefix_len};
ghost use Rattle.abc_num.specs.declared.limits.TheConstants.{MOST_LINE_BYTES, MOST_LINES};
ghost use Rattle.abc_tokens.specs.Shape.{text_of, indentation, shape_of};
ghost use Rattle.abc_num.specs.declared.lines.RawLine.{RawLine};
ghost use Rattle.abc_layout.specs.Items.{line_of, is_how_to, is_heading, is_environment, most_kept};

use abc_num::limits::MOST_LINES;
use abc_num::{ItemLines, Items, Line, OutOfMemory, Text};
use abc_tokens::{First, Shape, shape};
use std::alloc::Global;
use std::marker::Model;
use std::mem;

/// What a line did.
#[derive(Debug, Drop)]
pub enum Fed {
    /// The line was taken, and no item is whole.
    More,
    /// The line was taken, and its item is whole.
    Whole(ItemLines),
    /// The item before the line is whole. The line was not taken.
    Before(ItemLines),
}

/// Lines of an input on their way into items.
#[derive(Debug, Drop)]
pub struct Splitter {
    alloc: Global,
    /// The open item is a unit.
    unit: bool,
    /// The lines of the open item; there is none where they are empty.
    lines: Vec<Line>,
}

impl Model for Splitter {
    ghost use Rattle.abc_layout.specs.SplitterView.{Open};

    ghost Value = { Open };

    ghost view = { λ s. record { unit = s.unit; lines = s.lines.items } };
}

impl Splitter {
    ghost use Rattle.abc_layout.specs.SplitterView.{Holds, Begins, GoesOn, Feeds, Finishes};

    /// A splitter that was fed no line.
    pub fn new(alloc: Global) -> Splitter
        ensures { Holds result [] }
    {
        Splitter {
            alloc,
            unit: false,
            lines: Vec::new(alloc),
        }
    }

    /// Takes a line without its LF, or gives out the item before it and doesn't take it. A longer line is fed by its
    /// first bytes, with `long`. After OutOfMemory the splitter is as before.
    pub fn feed_line(&mut self, line: &[u8], long: bool) -> Result<Fed, OutOfMemory>
        requires { length line.now ≤ MOST_LINE_BYTES }
        ensures fed { IfOk result (λ fed. (lines : List RawLine) → Holds self.old lines → Feeds lines (record { bytes = line.now; long = long }) self.new fed) }
        ensures err { OnErr result ((lines : List RawLine) → Holds self.old lines → Holds self.new lines) }
    {
        let shape = shape(line);
        if is_blank(shape, long) {
            return Ok(Fed::More);
        }
        if self.lines.is_empty() {
            return self.begin(line, long, shape);
        }
        if !belongs(self.unit, shape) {
            return Ok(Fed::Before(self.take_item()));
        }
        self.go_on(line, long, shape)
    }

    /// Gives out the open item where the input ends, if there is one. Nothing is held then.
    pub fn finish(&mut self) -> Option<ItemLines>
        ensures item { (lines : List RawLine) → Holds self.old lines → Finishes lines result }
        ensures empty { (lines : List RawLine) → Holds self.old lines → Holds self.new [] }
    {
        if self.lines.is_empty() {
            return None;
        }
        Some(self.take_item())
    }

    /// The lines of the open item, which is no longer held.
    fn take_item(&mut self) -> ItemLines
        ensures item { result ≡ self.old.lines }
        ensures rest { self.new ≡ record { unit = false; lines = [] } }
    {
        self.unit = false;
        Items::from_vec(mem::replace(&mut self.lines, Vec::new(self.alloc)))
    }

    /// Takes the first line of an item.
    fn begin(&mut self, line: &[u8], long: bool, shape: Shape) -> Result<Fed, OutOfMemory>
        requires { shape ≡ shape_of line.now }
        ensures ok { IfOk result (Begins (record { bytes = line.now; long = long }) self.old self.new) }
        ensures err { OnErr result (self.new ≡ self.old) }
    {
        let line = line_of(self.alloc, line, long, shape)?;
        if !opens(shape) {
            let mut item = Items::new(self.alloc);
            item.push(line)?;
            return Ok(Fed::Whole(item));
        }
        self.lines.push(line)?;
        self.unit = is_how_to(shape.first);
        Ok(Fed::More)
    }

    /// Whether the open item has all the lines that it keeps.
    fn is_full(&self) -> bool
        ensures { result ≡ nat_lt MOST_LINES (length self.now.lines) }
    {
        self.lines.len() > MOST_LINES
    }

    /// Takes a line that belongs to the open item. Beyond the lines that an item keeps it is dropped.
    fn go_on(&mut self, line: &[u8], long: bool, shape: Shape) -> Result<Fed, OutOfMemory>
        requires { shape ≡ shape_of line.now }
        ensures ok { length self.old.lines ≤ most_kept → IfOk result (GoesOn (record { bytes = line.now; long = long }) self.old self.new) }
        ensures err { OnErr result (self.new ≡ self.old) }
    {
        if self.is_full() {
            return Ok(Fed::More);
        }
        let line = line_of(self.alloc, line, long, shape)?;
        self.lines.push(line)?;
        Ok(Fed::More)
    }
}

/// The line as an item keeps it.
fn line_of(alloc: Global, line: &[u8], long: bool, shape: Shape) -> Result<Line, OutOfMemory>
    requires { shape.indent ≡ indentation line.now }
    ensures { IfOk result (λ kept. kept ≡ line_of (record { bytes = line.now; long = long })) }
{
    Ok(Line {
        indent: shape.indent,
        text: Text::of(alloc, text_of(line))?,
        long,
    })
}

/// What follows the spaces and tabs at the front.
fn text_of(line: &[u8]) -> &[u8]
    ensures { result.now ≡ text_of line.now }
{
    &line[front_of(line)..]
}

/// How many spaces and tabs stand at the front.
fn front_of(line: &[u8]) -> usize
    ensures count { result ≡ prefix_len (λ b. (b == 32) || (b == 9)) line.now }
    ensures within { result ≤ length line.now }
{
    line.iter()
        .take_while(|b| **b == b' ' || **b == b'\t')
        .count()
}

/// Whether a line of this shape means nothing.
fn is_blank(shape: Shape, long: bool) -> bool
    ensures { result ≡ (shape.blank && not long) }
{
    shape.blank && !long
}

/// Whether a line of this shape opens an item.
fn opens(shape: Shape) -> bool
    ensures { result ≡ (is_how_to shape.first || (shape.ends_in_colon && not (is_environment shape.first))) }
{
    is_how_to(shape.first) || shape.ends_in_colon && shape.first != First::Environment
}

/// Whether a line of this shape belongs to an open item, which may be a unit.
fn belongs(unit: bool, shape: Shape) -> bool
    ensures { result ≡ (nat_lt 0 shape.indent || (unit && is_heading shape.first)) }
{
    shape.indent > 0 || unit && shape.first == First::Heading
}

fn is_how_to(first: First) -> bool
    ensures { result ≡ is_how_to first }
{
    first == First::HowTo
}
