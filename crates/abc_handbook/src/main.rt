//! Runs the examples of the pages that its words name, each page on a store of its own in memory, and compares what is answered with
//! what stands behind each. A word NAME.abc is one example, whose answer stands in NAME.answer. Prints a line for each word, or the
//! first answer that is not as it is written. A word made=N is the made input that puts N values: its summary is printed.
#![tactic(auto)]

mod blocks;
mod running;

use abc_session::COMPLETE;
use blocks::{Example, Page};
use running::{run_example, run_made};
use std::alloc::AllocError;
use std::{env, fs, io};
use thiserror::Error;

/// Why the program ends before its last word.
#[derive(Debug, Drop, Error)]
enum Fault {
    #[error("an answer is not as it is written")]
    Differs,
    #[error("an example has no answer")]
    Unanswered,
    #[error("a made input has no summary")]
    Unmade,
    #[error(transparent)]
    Io(#[from] io::Error),
}

impl From<AllocError> for Fault {
    fn from(error: AllocError) -> Fault {
        Fault::Io(error.into())
    }
}

/// Runs the example on a store with this image, and compares. The answer is the image afterwards.
fn compare(
    rt: &HostRuntime,
    page: &str,
    image: Vec<u8>,
    example: &Example,
) -> Result<Vec<u8>, Fault> {
    let ran = run_example(rt.alloc(), page, image, example)?;
    if ran.is_as_written(&example.answer) {
        return Ok(ran.image);
    }
    let said = str::from_utf8(&ran.said).unwrap_or_default();
    let (line, status) = (example.line, ran.status);
    println!(rt; "{page}, line {line}: status {status}, and the answer is")?;
    print!(rt; "{said}")?;
    Err(Fault::Differs)
}

/// Runs the examples of a page one after the other.
fn run_page(rt: &HostRuntime, name: &str) -> Result<(), Fault> {
    let text = fs::read_to_string(rt, name)?;
    let mut page = Page::new(rt.alloc());
    let mut image = Vec::new(rt.alloc());
    let mut count = 0u64;
    for line in text.lines() {
        if let Some(example) = page.take_line(line)? {
            image = compare(rt, name, image, &example)?;
            count = count.saturating_add(1);
        }
    }
    if page.is_open() {
        return Err(Fault::Unanswered);
    }
    Ok(println!(rt; "{name}: {count} examples, all as written")?)
}

/// Runs an example that stands in a file of its own.
fn run_file(rt: &HostRuntime, name: &str, stem: &str) -> Result<(), Fault> {
    let alloc = rt.alloc();
    let example = Example {
        typed: fs::read_to_string(rt, name)?,
        answer: fs::read_to_string(rt, format!(in alloc; "{stem}.answer")?)?,
        ..Example::new(alloc)
    };
    compare(rt, name, Vec::new(alloc), &example)?;
    Ok(println!(rt; "{name}: as written")?)
}

/// Prints the summary of the made input that puts so many values.
fn tell_made(rt: &HostRuntime, count: &str) -> Result<(), Fault> {
    let ran = run_made(rt.alloc(), count)?;
    if ran.status != COMPLETE {
        return Err(Fault::Unmade);
    }
    let summary = str::from_utf8(&ran.said).unwrap_or_default();
    Ok(print!(rt; "{summary}")?)
}

/// Does what a word of the call asks for.
fn take_word(rt: &HostRuntime, word: &str) -> Result<(), Fault> {
    if let Some(count) = word.strip_prefix("made=") {
        return tell_made(rt, count);
    }
    match word.strip_suffix(".abc") {
        Some(stem) => run_file(rt, word, stem),
        None => run_page(rt, word),
    }
}

fn main(rt: HostRuntime) -> Result<(), Fault> {
    let mut words = env::args(&rt)?;
    let _name = words.next();
    for word in words {
        take_word(&rt, &word)?;
    }
    Ok(())
}
