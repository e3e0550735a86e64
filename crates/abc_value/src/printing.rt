//! The printed forms of values.
ghost use Rattle.std.specs.Prelude.{◌≡◌, ◌≤◌, ◌<◌, length, map, codes, IfOk, IsErrOf};
ghost use Rattle.std.specs.List.{flat_map};
ghost use Rattle.abc_value.specs.Tree.{trees, pairs};
ghost use Rattle.abc_value.specs.Printed.{number_text, quoted, doubled, joined, pair_display, display, displays, pair_displays, plain, plains, outer};
ghost use Rattle.abc_value.specs.Regular.{AreCharacters};
ghost use Rattle.abc_value.specs.inner.Printing.{IsAdded, lead};
ghost use Rattle.abc_value.specs.View.{as_pair};

use crate::numeral::number_bytes;
use crate::value::{Entry, Node};
use crate::{PrintFault, Value};
use abc_chunks::Chunks;
use abc_num::Num;
use std::alloc::Global;

/// The value as it is written: a text as it is, a compound as its fields with spaces between them, and any other value as its
/// display. TooLong where this is longer than `most` bytes.
pub fn text_of(alloc: Global, v: &Value, most: usize) -> Result<Vec<u8>, PrintFault>
    ensures text { IfOk result (λ b. b.items ≡ outer v.now) }
    ensures characters { IfOk result (λ b. AreCharacters b.items) }
    ensures fits { IfOk result (λ _. length (outer v.now) ≤ most) }
    ensures too_long { IsErrOf result PrintFault.TooLong → most < length (outer v.now) }
{
    let _height = v.height();
    let mut bytes = Vec::new(alloc);
    add_outer(&mut bytes, v, most)?;
    Ok(bytes)
}

/// The display of the value, which is how a program spells it. TooLong where this is longer than `most` bytes.
pub fn display_of(alloc: Global, v: &Value, most: usize) -> Result<Vec<u8>, PrintFault>
    ensures text { IfOk result (λ b. b.items ≡ display v.now) }
    ensures characters { IfOk result (λ b. AreCharacters b.items) }
    ensures fits { IfOk result (λ _. length (display v.now) ≤ most) }
    ensures too_long { IsErrOf result PrintFault.TooLong → most < length (display v.now) }
{
    let _height = v.height();
    let mut bytes = Vec::new(alloc);
    add_display(&mut bytes, v, most)?;
    Ok(bytes)
}

/// Adds a piece to a text that may have at most `most` bytes.
fn append(bytes: &mut Vec<u8>, piece: &[u8], most: usize) -> Result<(), PrintFault>
    ensures { IsAdded bytes.old.items piece.now bytes.new.items most result }
{
    if bytes.len() + piece.len() > most {
        return Err(PrintFault::TooLong);
    }
    bytes.extend_from_slice(piece)?;
    Ok(())
}

/// Adds the separator in front of each part but the first.
fn separate(
    bytes: &mut Vec<u8>,
    separator: &[u8],
    place: usize,
    most: usize,
) -> Result<(), PrintFault>
    ensures { IsAdded bytes.old.items (lead separator.now place) bytes.new.items most result }
{
    if place == 0 {
        Ok(())
    } else {
        append(bytes, separator, most)
    }
}

/// Adds the text in quotes.
fn add_quoted(bytes: &mut Vec<u8>, text: &[u8], most: usize) -> Result<(), PrintFault>
    ensures { IsAdded bytes.old.items (quoted text.now) bytes.new.items most result }
{
    append(bytes, b"\"", most)?;
    add_doubled(bytes, text, most)?;
    append(bytes, b"\"", most)?;
    Ok(())
}

/// Adds the characters, with each quote and backquote twice.
fn add_doubled(bytes: &mut Vec<u8>, text: &[u8], most: usize) -> Result<(), PrintFault>
    ensures { IsAdded bytes.old.items (flat_map doubled text.now) bytes.new.items most result }
{
    for c in text {
        add_character(bytes, *c, most)?;
    }
    Ok(())
}

/// Adds the character, and a quote or backquote twice.
fn add_character(bytes: &mut Vec<u8>, c: u8, most: usize) -> Result<(), PrintFault>
    ensures { IsAdded bytes.old.items (doubled c) bytes.new.items most result }
{
    if c == b'"' || c == b'`' {
        append(bytes, &[c, c], most)
    } else {
        append(bytes, &[c], most)
    }
}

/// Adds the number.
fn add_number(bytes: &mut Vec<u8>, n: &Num, most: usize) -> Result<(), PrintFault>
    ensures { IsAdded bytes.old.items (number_text n.now) bytes.new.items most result }
{
    let number = number_bytes(*bytes.allocator(), n)?;
    append(bytes, &number, most)?;
    Ok(())
}

/// Adds the display of the value.
#[cycle(print)]
fn add_display(bytes: &mut Vec<u8>, v: &Value, most: usize) -> Result<(), PrintFault>
    ensures { IsAdded bytes.old.items (display v.now) bytes.new.items most result }
{
    match &v.node {
        Node::Number(n) => add_number(bytes, n, most)?,
        Node::Text(text) => add_quoted(bytes, text.as_slice(), most)?,
        Node::Compound(parts) => {
            append(bytes, b"(", most)?;
            add_displays(bytes, parts, b", ", most)?;
            append(bytes, b")", most)?;
        }
        Node::List(parts) => {
            append(bytes, b"{", most)?;
            add_displays(bytes, parts.items(), b"; ", most)?;
            append(bytes, b"}", most)?;
        }
        Node::Table(entries) => {
            append(bytes, b"{", most)?;
            add_pairs(bytes, entries.items(), most)?;
            append(bytes, b"}", most)?;
        }
    }
    Ok(())
}

/// Adds the displays of the values, with the separator between each two.
#[cycle(print)]
fn add_displays(
    bytes: &mut Vec<u8>,
    parts: &Chunks<Value>,
    separator: &[u8],
    most: usize,
) -> Result<(), PrintFault>
    ensures { IsAdded bytes.old.items (joined separator.now (displays (trees parts.now))) bytes.new.items most result }
{
    for i in 0..parts.len() {
        separate(bytes, separator, i, most)?;
        add_display(bytes, &parts[i], most)?;
    }
    Ok(())
}

/// Adds the displays of the pairs.
#[cycle(print)]
fn add_pairs(bytes: &mut Vec<u8>, entries: &Chunks<Entry>, most: usize) -> Result<(), PrintFault>
    ensures { IsAdded bytes.old.items (joined (codes "; ") (pair_displays (pairs (map as_pair entries.now)))) bytes.new.items most result }
{
    for i in 0..entries.len() {
        separate(bytes, b"; ", i, most)?;
        add_pair(bytes, &entries[i], most)?;
    }
    Ok(())
}

/// Adds the display of a key and its associate.
#[cycle(print)]
fn add_pair(bytes: &mut Vec<u8>, entry: &Entry, most: usize) -> Result<(), PrintFault>
    ensures { IsAdded bytes.old.items (pair_display (as_pair entry.now)) bytes.new.items most result }
{
    append(bytes, b"[", most)?;
    add_display(bytes, &entry.key, most)?;
    append(bytes, b"]: ", most)?;
    add_display(bytes, &entry.associate, most)?;
    Ok(())
}

/// Adds the value as it is written.
fn add_outer(bytes: &mut Vec<u8>, v: &Value, most: usize) -> Result<(), PrintFault>
    ensures { IsAdded bytes.old.items (outer v.now) bytes.new.items most result }
{
    match &v.node {
        Node::Compound(fields) => add_plains(bytes, fields, most),
        _ => add_plain(bytes, v, most),
    }
}

/// Adds a text as it is, and any other value as its display.
fn add_plain(bytes: &mut Vec<u8>, v: &Value, most: usize) -> Result<(), PrintFault>
    ensures { IsAdded bytes.old.items (plain v.now) bytes.new.items most result }
{
    match &v.node {
        Node::Text(text) => append(bytes, text.as_slice(), most)?,
        _ => add_display(bytes, v, most)?,
    }
    Ok(())
}

/// Adds the fields of a compound as they are written.
fn add_plains(bytes: &mut Vec<u8>, fields: &Chunks<Value>, most: usize) -> Result<(), PrintFault>
    ensures { IsAdded bytes.old.items (joined (codes " ") (plains (trees fields.now))) bytes.new.items most result }
{
    for i in 0..fields.len() {
        separate(bytes, b" ", i, most)?;
        add_plain(bytes, &fields[i], most)?;
    }
    Ok(())
}
