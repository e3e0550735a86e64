//! What lines that ask show: one line after the other, within the bound on what an item may write.
ghost use Rattle.std.specs.Prelude.{◌≡◌, ◌≤◌, ◌++◌, ◌∷◌, [], length, replicate};
ghost use Rattle.std.specs.List.{flat_map};
ghost use Rattle.abc_num.specs.declared.limits.TheConstants.{MOST_TARGETS, MOST_UNITS};
ghost use Rattle.abc_tokens.specs.Bytes.{space};
ghost use Rattle.abc_value.specs.inner.Printing.{IsAdded};
ghost use Rattle.abc_inquiry.specs.Inquiry.{with_lf, templates_shown, names_shown, shown_line, lines_shown, shown_unit};
ghost use Rattle.abc_inquiry.specs.inner.Writing.{IsWritten};

use abc_num::limits::MOST_OUTPUT;
use abc_num::{Line, Names, OutOfMemory};
use abc_tree::{Unit, Units};
use abc_value::PrintFault;
use std::alloc::Global;

/// Adds a piece to a text that may have at most `most` bytes.
fn append(bytes: &mut Vec<u8>, piece: &[u8], most: usize) -> Result<(), PrintFault>
    ensures { IsAdded bytes.old.items piece.now bytes.new.items most result }
{
    if bytes.len() + piece.len() > most {
        return Err(PrintFault::TooLong);
    }
    bytes.extend_from_slice(piece)?;
    Ok(())
}

/// Adds so many spaces.
fn add_spaces(bytes: &mut Vec<u8>, count: u32, most: usize) -> Result<(), PrintFault>
    ensures { IsAdded bytes.old.items (replicate count space) bytes.new.items most result }
{
    let mut left = count;
    'spaces: while left > 0 {
        append(bytes, b" ", most)?;
        left -= 1;
    }
    Ok(())
}

/// Adds a line and its LF.
fn add_line(bytes: &mut Vec<u8>, line: &[u8], most: usize) -> Result<(), PrintFault>
    ensures { IsAdded bytes.old.items (with_lf line.now) bytes.new.items most result }
{
    append(bytes, line, most)?;
    append(bytes, b"\n", most)?;
    Ok(())
}

/// Adds a line of a unit, behind its indentation.
fn add_unit_line(bytes: &mut Vec<u8>, line: &Line, most: usize) -> Result<(), PrintFault>
    ensures { IsAdded bytes.old.items (shown_line line.now) bytes.new.items most result }
{
    add_spaces(bytes, line.indent, most)?;
    add_line(bytes, line.text.bytes(), most)?;
    Ok(())
}

/// Adds the template of a unit.
fn add_template(bytes: &mut Vec<u8>, unit: &Unit, most: usize) -> Result<(), PrintFault>
    ensures { IsAdded bytes.old.items (shown_unit unit.now) bytes.new.items most result }
{
    match unit.template.text(*bytes.allocator()) {
        Ok(text) => add_line(bytes, &text, most),
        Err(OutOfMemory) => Err(PrintFault::Memory),
    }
}

/// Adds lines of a unit.
fn add_unit_lines(bytes: &mut Vec<u8>, lines: &[Line], most: usize) -> Result<(), PrintFault>
    ensures { IsAdded bytes.old.items (flat_map shown_line lines.now) bytes.new.items most result }
{
    for i in 0..lines.len() {
        add_unit_line(bytes, &lines[i], most)?;
    }
    Ok(())
}

/// Adds the templates of units.
fn add_templates(bytes: &mut Vec<u8>, units: &Units, most: usize) -> Result<(), PrintFault>
    requires { length units.now ≤ MOST_UNITS }
    ensures { IsAdded bytes.old.items (flat_map shown_unit units.now) bytes.new.items most result }
{
    let mut place = 0;
    'units: while let Some(unit) = units.at(place) {
        add_template(bytes, unit, most)?;
        place += 1;
    }
    Ok(())
}

/// Adds names.
fn add_names(bytes: &mut Vec<u8>, names: &Names, most: usize) -> Result<(), PrintFault>
    requires { length names.now ≤ MOST_TARGETS }
    ensures { IsAdded bytes.old.items (flat_map with_lf names.now) bytes.new.items most result }
{
    let mut place = 0;
    'names: while let Some(name) = names.get(place) {
        add_line(bytes, name.bytes(), most)?;
        place += 1;
    }
    Ok(())
}

/// The templates of units, one a line.
pub(crate) fn write_templates(alloc: Global, units: &Units) -> Result<Vec<u8>, PrintFault>
    requires { length units.now ≤ MOST_UNITS }
    ensures { IsWritten (templates_shown units.now) result }
{
    let mut bytes = Vec::new(alloc);
    add_templates(&mut bytes, units, MOST_OUTPUT)?;
    Ok(bytes)
}

/// Names, one a line.
pub(crate) fn write_names(alloc: Global, names: &Names) -> Result<Vec<u8>, PrintFault>
    requires { length names.now ≤ MOST_TARGETS }
    ensures { IsWritten (names_shown names.now) result }
{
    let mut bytes = Vec::new(alloc);
    add_names(&mut bytes, names, MOST_OUTPUT)?;
    Ok(bytes)
}

/// The lines of a unit, as a program has them.
pub(crate) fn write_lines(alloc: Global, lines: &[Line]) -> Result<Vec<u8>, PrintFault>
    ensures { IsWritten (lines_shown lines.now) result }
{
    let mut bytes = Vec::new(alloc);
    add_unit_lines(&mut bytes, lines, MOST_OUTPUT)?;
    Ok(bytes)
}
