//! Items that ask about the workspace.
ghost use Rattle.std.specs.Prelude.{◌≡◌, IfOk, bytes_eq, drop, length, take};
ghost use Rattle.abc_faults.specs.Environments.{asked, asked_by, asks_by, before_spaces, begins_environment, behind_mark, behind_spaces, environment_fault};

use crate::causes::is_bad_byte;
use crate::fault::FaultKind;
use abc_num::{OutOfMemory, Text};
use abc_outline::{Edges, Row};
use abc_tokens::First;
use abc_tree::Environment;
use std::alloc::Global;

fn begins_environment(first: First) -> bool
    ensures { result ≡ begins_environment first }
{
    match first {
        First::Environment => true,
        First::HowTo | First::Heading | First::Other => false,
    }
}

/// Whether a first line asks about the workspace.
pub fn asks_by(edges: Edges) -> bool
    ensures { result ≡ asks_by edges }
{
    edges.indent == 0 && begins_environment(edges.first)
}

/// The fault of a line that asks.
pub fn environment_fault(row: &Row) -> Option<FaultKind>
    ensures { result ≡ environment_fault row.now }
{
    if row.line.long {
        return Some(FaultKind::LineTooLong);
    }
    if is_bad_byte(&row.read) {
        return Some(FaultKind::BadByte);
    }
    None
}

fn behind_spaces(text: &[u8]) -> &[u8]
    ensures { result.now ≡ behind_spaces text.now }
{
    let mut ahead = text;
    while let Some((byte, behind)) = ahead.split_first() {
        if *byte != b' ' {
            return ahead;
        }
        ahead = behind;
    }
    ahead
}

fn before_spaces(text: &[u8]) -> &[u8]
    ensures { result.now ≡ before_spaces text.now }
{
    let mut ahead = text;
    while let Some((byte, front)) = ahead.split_last() {
        if *byte != b' ' {
            return ahead;
        }
        ahead = front;
    }
    ahead
}

fn begins_with(text: &[u8], mark: &[u8]) -> bool
    ensures { result ≡ bytes_eq (take (length mark.now) text.now) mark.now }
{
    &text[..mark.len().min(text.len())] == mark
}

/// The name behind a mark of so many bytes.
fn name_behind(alloc: Global, mark: usize, text: &[u8]) -> Result<Text, OutOfMemory>
    ensures { IfOk result (λ name. name ≡ behind_mark mark text.now) }
{
    Text::of(alloc, behind_spaces(&text[mark.min(text.len())..]))
}

fn asked_by(alloc: Global, text: &[u8]) -> Result<Environment, OutOfMemory>
    ensures { IfOk result (λ environment. environment ≡ asked_by text.now) }
{
    if text == b"::".as_slice() {
        return Ok(Environment::Units);
    }
    if text == b"==".as_slice() {
        return Ok(Environment::Targets);
    }
    if begins_with(text, b"-:") {
        return Ok(Environment::RemoveUnit(name_behind(alloc, 2, text)?));
    }
    if begins_with(text, b":") {
        return Ok(Environment::ShowUnit(name_behind(alloc, 1, text)?));
    }
    Ok(Environment::ShowTarget(name_behind(alloc, 1, text)?))
}

/// What a line asks.
pub fn asked(alloc: Global, row: &Row) -> Result<Environment, OutOfMemory>
    ensures { IfOk result (λ environment. environment ≡ asked row.now) }
{
    asked_by(alloc, before_spaces(row.line.text.bytes()))
}
