//! Reads a row a line: the name of an operation and its operands, which are literals, with tabs between. Prints what the
//! operation gives or tells, its fault, `Wrong` where it doesn't take the operands, `NoRow` where it has no such row, or
//! `BadInput` where an operand is no literal.
#![tactic(auto)]

mod operations;
mod values;

use abc_num::limits::MOST_LINE_BYTES;
use abc_predef::predefined;
use abc_print::{LiteralFault, PrintFault, display_of, read_literal_line};
use abc_value::{RunFault, Value};
use std::io;
use thiserror::Error;

/// Bytes of the longest display.
const MOST_BYTES: usize = 1_000_000;

/// Why the program ends before its input does.
#[derive(Debug, Drop, Error)]
pub(crate) enum Fault {
    #[error("an operand is no literal")]
    Operand,
    #[error("a value is not printed: {0:?}")]
    Print(PrintFault),
    #[error("a printed value is no text")]
    Text,
    #[error("out of memory")]
    Memory,
    #[error(transparent)]
    Io(#[from] io::Error),
}

/// The value that an operand spells.
fn operand(rt: &HostRuntime, text: &str) -> Result<Value, Fault> {
    if text.len() > MOST_LINE_BYTES {
        return Err(Fault::Operand);
    }
    read_literal_line(rt.alloc(), text.as_bytes()).map_err(operand_fault)
}

fn operand_fault(fault: LiteralFault) -> Fault {
    match fault {
        LiteralFault::BadInput => Fault::Operand,
        LiteralFault::Memory => Fault::Memory,
    }
}

pub(crate) fn say(rt: &HostRuntime, word: &str) -> Result<(), Fault> {
    println!(rt; "{word}")?;
    Ok(())
}

pub(crate) fn print_value(rt: &HostRuntime, value: &Value) -> Result<(), Fault> {
    let bytes = display_of(rt.alloc(), value, MOST_BYTES).map_err(Fault::Print)?;
    let text = String::from_utf8(bytes).map_err(|_| Fault::Text)?;
    println!(rt; "{text}")?;
    Ok(())
}

/// Prints what an operation gives, or its fault.
pub(crate) fn print_answer(rt: &HostRuntime, answer: Result<Value, RunFault>) -> Result<(), Fault> {
    match answer {
        Ok(value) => print_value(rt, &value),
        Err(RunFault::Memory) => Err(Fault::Memory),
        Err(fault) => {
            println!(rt; "{fault:?}")?;
            Ok(())
        }
    }
}

fn one(rt: &HostRuntime, name: &str, x: &str) -> Result<(), Fault> {
    let x = operand(rt, x)?;
    match predefined(name.as_bytes(), 1) {
        Some(op) => operations::one(rt, op, &x),
        None => values::one(rt, name, &x),
    }
}

fn two(rt: &HostRuntime, name: &str, x: &str, y: &str) -> Result<(), Fault> {
    let x = operand(rt, x)?;
    let y = operand(rt, y)?;
    match predefined(name.as_bytes(), 2) {
        Some(op) => operations::two(rt, op, &x, &y),
        None => values::two(rt, name, x, y),
    }
}

fn three(rt: &HostRuntime, name: &str, x: &str, y: &str, z: &str) -> Result<(), Fault> {
    let x = operand(rt, x)?;
    let y = operand(rt, y)?;
    let z = operand(rt, z)?;
    values::three(rt, name, x, y, z)
}

fn answer(rt: &HostRuntime, line: &str) -> Result<(), Fault> {
    let mut words = line.split('\t');
    let name = words.next().unwrap_or("");
    match (words.next(), words.next(), words.next()) {
        (Some(x), Some(y), Some(z)) => three(rt, name, x, y, z),
        (Some(x), Some(y), None) => two(rt, name, x, y),
        (Some(x), None, _) => one(rt, name, x),
        (None, _, _) => say(rt, "NoRow"),
    }
}

/// Prints what a line gives; that an operand is no literal ends nothing.
fn answer_line(rt: &HostRuntime, line: &str) -> Result<(), Fault> {
    match answer(rt, line) {
        Err(Fault::Operand) => say(rt, "BadInput"),
        other => other,
    }
}

fn main(rt: HostRuntime) -> Result<(), Fault> {
    for line in rt.lines(rt.alloc()) {
        answer_line(&rt, line?.as_str())?;
    }
    Ok(())
}
