//! Reads own names and a line of tokens, a line each with `:` between the two, and prints in one line which expression, which
//! address, which names of an address and which test the tokens spell, or why they spell none. Behind a `!` in front of the names
//! it prints what a parser asks besides.
#![tactic(auto)]

mod readings;

ghost use Rattle.std.specs.Prelude.{◌≤◌, length};
ghost use Rattle.abc_tokens.specs.Tokens.{AreTokens};

use abc_expressions::lexemes_of;
use abc_formula::{FormulaFault, address, address_names, expression, test};
use abc_num::limits::MOST_LINE_BYTES;
use abc_num::{Names, OutOfMemory, Text};
use abc_show::{Sheet, show_expression, show_test};
use abc_tokens::{Token, TokenFault, tokens};
use abc_tree::{Expr, Test};
use readings::print_readings;
use std::io;
use thiserror::Error;

/// Why the program ends before its input does.
#[derive(Debug, Drop, Error)]
pub(crate) enum Fault {
    #[error("a spelled part is no text")]
    Text,
    #[error("out of memory")]
    Memory,
    #[error(transparent)]
    Io(#[from] io::Error),
}

impl From<OutOfMemory> for Fault {
    fn from(_refused: OutOfMemory) -> Fault {
        Fault::Memory
    }
}

/// What is asked of a line.
#[derive(Clone, Copy, PartialEq, Eq, Debug)]
enum Asked {
    /// What its tokens spell.
    Trees,
    /// What a parser asks besides.
    Readings,
}

/// Prints why tokens spell nothing. Want of memory ends the program.
pub(crate) fn refuse(rt: &HostRuntime, fault: FormulaFault) -> Result<(), Fault> {
    match fault {
        FormulaFault::BadCommand => print!(rt; "BadCommand")?,
        FormulaFault::TooMany => print!(rt; "TooMany")?,
        FormulaFault::Memory => return Err(Fault::Memory),
    }
    Ok(())
}

/// Prints what stands on a sheet.
pub(crate) fn print_sheet(rt: &HostRuntime, sheet: &Sheet) -> Result<(), Fault> {
    let text = str::from_utf8(sheet.bytes()).map_err(|_| Fault::Text)?;
    Ok(print!(rt; "{text}")?)
}

/// Prints the names, a space before each.
pub(crate) fn print_names(rt: &HostRuntime, names: &Names) -> Result<(), Fault> {
    let mut sheet = Sheet::new(rt.alloc());
    sheet.names(names)?;
    print_sheet(rt, &sheet)
}

fn print_expression(rt: &HostRuntime, tree: &Expr) -> Result<(), Fault> {
    let mut sheet = Sheet::new(rt.alloc());
    show_expression(&mut sheet, tree)?;
    print_sheet(rt, &sheet)
}

fn print_test(rt: &HostRuntime, tree: &Test) -> Result<(), Fault> {
    let mut sheet = Sheet::new(rt.alloc());
    show_test(&mut sheet, tree)?;
    print_sheet(rt, &sheet)
}

fn print_tree(rt: &HostRuntime, found: Result<Expr, FormulaFault>) -> Result<(), Fault> {
    match found {
        Ok(tree) => print_expression(rt, &tree),
        Err(fault) => refuse(rt, fault),
    }
}

fn print_found_test(rt: &HostRuntime, found: Result<Test, FormulaFault>) -> Result<(), Fault> {
    match found {
        Ok(tree) => print_test(rt, &tree),
        Err(fault) => refuse(rt, fault),
    }
}

/// Prints what the tokens of the line spell.
fn answer_tokens(rt: &HostRuntime, own: &Names, line: &[u8], toks: &[Token]) -> Result<(), Fault>
    requires spelled { AreTokens line.now toks.now }
    requires short { length line.now ≤ MOST_LINE_BYTES }
{
    let alloc = rt.alloc();
    print_tree(rt, expression(alloc, toks, line, own))?;
    print!(rt; " | ")?;
    print_tree(rt, address(alloc, toks, line, own))?;
    print!(rt; " |")?;
    print_names(rt, &address_names(alloc, toks, line)?)?;
    print!(rt; " | ")?;
    print_found_test(rt, test(alloc, toks, line, own))?;
    println!(rt; "")?;
    Ok(())
}

/// Prints what a parser asks of the tokens of the line besides.
fn answer_readings(rt: &HostRuntime, own: &Names, line: &[u8], toks: &[Token]) -> Result<(), Fault>
    requires { AreTokens line.now toks.now }
{
    let lexemes = lexemes_of(rt.alloc(), line, toks)?;
    print_readings(rt, own, lexemes.as_slice())
}

/// Prints what is asked of the line, with these own names.
fn answer_line(rt: &HostRuntime, own: &Names, line: &[u8], asked: Asked) -> Result<(), Fault> {
    if line.len() > MOST_LINE_BYTES {
        println!(rt; "LineTooLong")?;
        return Ok(());
    }
    match tokens(rt.alloc(), line) {
        Ok(toks) => match asked {
            Asked::Trees => answer_tokens(rt, own, line, &toks),
            Asked::Readings => answer_readings(rt, own, line, &toks),
        },
        Err(TokenFault::BadByte) => Ok(println!(rt; "BadByte")?),
        Err(TokenFault::OpenText) => Ok(println!(rt; "OpenText")?),
        Err(TokenFault::BadNumber) => Ok(println!(rt; "BadNumber")?),
        Err(TokenFault::Memory) => Err(Fault::Memory),
    }
}

/// The words of the text, as own names. What is beyond the bound of names is left out.
fn names_in(rt: &HostRuntime, text: &str) -> Result<Names, Fault> {
    let mut names = Names::new(rt.alloc());
    for word in text.split_whitespace() {
        if names.len() < MOST_LINE_BYTES {
            names.number(Text::of(rt.alloc(), word.as_bytes())?)?;
        }
    }
    Ok(names)
}

fn answer(rt: &HostRuntime, row: &str) -> Result<(), Fault> {
    let Some((names, line)) = row.split_once(':') else {
        return Ok(println!(rt; "NoNames")?);
    };
    match names.strip_prefix('!') {
        Some(names) => answer_line(rt, &names_in(rt, names)?, line.as_bytes(), Asked::Readings),
        None => answer_line(rt, &names_in(rt, names)?, line.as_bytes(), Asked::Trees),
    }
}

fn main(rt: HostRuntime) -> Result<(), Fault> {
    for row in rt.lines(rt.alloc()) {
        answer(&rt, row?.as_str())?;
    }
    Ok(())
}
