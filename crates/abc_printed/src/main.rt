//! Reads lines. Of each that is a literal it prints two lines, the display and what WRITE prints; of any other it tells that it is none.
#![tactic(auto)]

use abc_num::limits::MOST_LINE_BYTES;
use abc_print::{LiteralFault, PrintFault, display_of, read_literal_line, text_of};
use abc_value::Value;
use std::io;
use thiserror::Error;

/// No line spells a value with a longer text.
const MOST_BYTES: usize = 1_000_000;

/// Why the program ends before its input does.
#[derive(Debug, Drop, Error)]
enum Fault {
    #[error("a value is not printed: {0:?}")]
    Print(PrintFault),
    #[error("a printed value is no text")]
    Text,
    #[error("out of memory")]
    Memory,
    #[error(transparent)]
    Io(#[from] io::Error),
}

fn print_text(rt: &HostRuntime, printed: Result<Vec<u8>, PrintFault>) -> Result<(), Fault> {
    let bytes = printed.map_err(Fault::Print)?;
    let text = String::from_utf8(bytes).map_err(|_| Fault::Text)?;
    println!(rt; "{text}")?;
    Ok(())
}

fn print_value(rt: &HostRuntime, value: &Value) -> Result<(), Fault> {
    print_text(rt, display_of(rt.alloc(), value, MOST_BYTES))?;
    print_text(rt, text_of(rt.alloc(), value, MOST_BYTES))
}

fn answer(rt: &HostRuntime, line: &[u8]) -> Result<(), Fault> {
    if line.len() > MOST_LINE_BYTES {
        println!(rt; "LineTooLong")?;
        return Ok(());
    }
    match read_literal_line(rt.alloc(), line) {
        Ok(value) => print_value(rt, &value),
        Err(LiteralFault::BadInput) => {
            println!(rt; "BadInput")?;
            Ok(())
        }
        Err(LiteralFault::Memory) => Err(Fault::Memory),
    }
}

fn main(rt: HostRuntime) -> Result<(), Fault> {
    for line in rt.lines(rt.alloc()) {
        answer(&rt, line?.as_str().as_bytes())?;
    }
    Ok(())
}
