//! abc STORE [--from FILE] [--steps N]: lines from standard input or the file, replies to standard output, the workspace in the file STORE.
//! abc --make N [--steps N]: the made input that puts N values, in a store of its own; a summary to standard output.
#![tactic(auto)]

use abc_outside::RealHost;
use abc_session::{MEMORY, USAGE, run};
use std::alloc::AllocError;
use std::env::FillError;
use std::process::ExitCode;
use std::rt::Env;

/// Room for a word. A longer one takes more.
const SHORT_WORD: usize = 256;

/// The word of this number, or none behind the last. One that is not UTF-8 makes all of them unreadable.
fn word(rt: &HostRuntime, number: usize) -> Result<Option<String>, u8> {
    let mut bytes = vec![in rt.alloc(); 0; SHORT_WORD].map_err(|_| MEMORY)?;
    for _ in 0..usize::BITS {
        match rt.arg(number, &mut bytes) {
            Ok(length) => {
                bytes.truncate(length);
                return String::from_utf8(bytes).map(Some).map_err(|_| USAGE);
            }
            Err(FillError::NotPresent) => return Ok(None),
            Err(FillError::TooLong) => {
                let room = bytes.len().saturating_mul(2);
                bytes.resize(room, 0).map_err(|_| MEMORY)?;
            }
        }
    }
    Err(MEMORY)
}

/// The words without the program's name, which may be any bytes.
fn words_of(rt: &HostRuntime) -> Result<Vec<String>, u8> {
    let mut words = Vec::new(rt.alloc());
    for number in 1..usize::MAX {
        let Some(word) = word(rt, number)? else {
            return Ok(words);
        };
        words.push(word).map_err(|_| MEMORY)?;
    }
    Ok(words)
}

fn lend<'a>(rt: &HostRuntime, words: &'a Vec<String>) -> Result<Vec<&'a str>, AllocError> {
    words.iter().map(|word| word.as_str()).collect(rt.alloc())
}

fn answer(rt: &HostRuntime) -> Result<u8, u8> {
    let words = words_of(rt)?;
    let words = lend(rt, &words).map_err(|_| MEMORY)?;
    let mut host = RealHost::new(*rt);
    Ok(run(rt.alloc(), words.as_slice(), &mut host))
}

fn main(rt: HostRuntime) -> ExitCode {
    match answer(&rt) {
        Ok(status) => ExitCode::from(status),
        Err(status) => ExitCode::from(status),
    }
}
