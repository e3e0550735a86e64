//! The reading of the words.
ghost use Rattle.std.specs.Prelude.{◌≡◌, ◌≢◌, IfOk, IfErr, OnErr, IsErrOf, Some, None, map, option_map};
ghost use Rattle.clap.specs.Words.{app_of, found_of, rows_of};
ghost use Rattle.abc_words.specs.Words.{abc, reading, asked_in, asked_by, made_with, made_asked, steps_asked, asked_of, on_store};

use crate::numbers::number_of;
use crate::{Request, WordsFault};
use abc_num::limits::{DEFAULT_STEPS, LEAST_MADE, LEAST_STEPS, MOST_MADE, MOST_STEPS};
use clap::error::ErrorKind;
use clap::{Arg, ArgMatches, Command};
use std::alloc::{AllocError, Global};

/// The most digits of a budget of steps.
const STEPS_DIGITS: usize = 13;

/// The most digits of the count of a made input.
const MADE_DIGITS: usize = 5;

/// The command, as a reader of words sees it.
fn command<'a>(alloc: Global) -> Result<Command<'a>, AllocError>
    ensures { IfOk result (λ command. app_of command ≡ abc) }
{
    let store = Arg::new(alloc, "store");
    let from = Arg::new(alloc, "from").long("from");
    let steps = Arg::new(alloc, "steps").long("steps");
    let make = Arg::new(alloc, "make").long("make");
    let named = Command::new(alloc, "abc");
    let bare = named.no_binary_name(true);
    let plain = bare.disable_help_flag(true);
    plain.arg(store)?.arg(from)?.arg(steps)?.arg(make)
}

/// Why a parse with this error asks for nothing.
fn fault_of(kind: ErrorKind) -> WordsFault
    ensures { result ≡ WordsFault.Usage → kind ≢ ErrorKind.OutOfMemory }
{
    match kind {
        ErrorKind::OutOfMemory => WordsFault::Memory,
        _ => WordsFault::Usage,
    }
}

/// The steps that are asked for.
fn steps_of(word: Option<&str>) -> Option<u64>
    ensures { result ≡ steps_asked (option_map (λ word. word.now) word.entry) }
{
    match word {
        Some(word) => number_of(word, STEPS_DIGITS, LEAST_STEPS, MOST_STEPS),
        None => Some(DEFAULT_STEPS),
    }
}

/// A run on a store.
fn run_on<'a>(store: &'a str, input: Option<&'a str>, steps: Option<&'a str>) -> Option<Request<'a>>
    ensures { option_map asked_of result ≡ option_map (on_store store.entry.now (option_map (λ name. name.now) input.entry)) (steps_asked (option_map (λ word. word.now) steps.entry)) }
{
    let steps = steps_of(steps)?;
    Some(Request::Run {
        store,
        input,
        steps,
    })
}

/// A run on a made input.
fn run_made<'a>(count: &'a str, steps: Option<&'a str>) -> Option<Request<'a>>
    ensures { option_map asked_of result ≡ made_with (made_asked count.entry.now) (steps_asked (option_map (λ word. word.now) steps.entry)) }
{
    let count = number_of(
        count,
        MADE_DIGITS,
        u64::from(LEAST_MADE),
        u64::from(MOST_MADE),
    )?;
    let steps = steps_of(steps)?;
    Some(Request::Make { count, steps })
}

/// What the values of the store, of `--from`, of `--make` and of `--steps` ask for.
fn request_of<'a>(
    store: Option<&'a str>,
    input: Option<&'a str>,
    count: Option<&'a str>,
    steps: Option<&'a str>,
) -> Option<Request<'a>>
    ensures { option_map asked_of result ≡ asked_by (option_map (λ s. s.now) store.entry) (option_map (λ s. s.now) input.entry) (option_map (λ s. s.now) count.entry) (option_map (λ s. s.now) steps.entry) }
{
    match (store, input, count) {
        (Some(store), _, None) => run_on(store, input, steps),
        (None, None, Some(count)) => run_made(count, steps),
        _ => None,
    }
}

/// What the matches of the words ask for.
fn request_in<'a>(matches: &ArgMatches<'a>) -> Result<Request<'a>, WordsFault>
    ensures read { IfOk result (λ request. asked_in (rows_of (found_of matches.now)) ≡ Some (asked_of request)) }
    ensures usage { IfErr result (λ fault. fault ≡ WordsFault.Usage) }
    ensures none { OnErr result (asked_in (rows_of (found_of matches.now)) ≡ None) }
{
    let store = matches.get_str("store");
    let input = matches.get_str("from");
    let count = matches.get_str("make");
    let steps = matches.get_str("steps");
    match request_of(store, input, count, steps) {
        Some(request) => Ok(request),
        None => Err(WordsFault::Usage),
    }
}

/// Reads the words of the program, without its name.
///
/// Errors: `Usage` where they ask for nothing, and `Memory`.
pub fn read_words<'a>(alloc: Global, words: &'a [&'a str]) -> Result<Request<'a>, WordsFault>
    ensures read { IfOk result (λ request. reading (map (λ word. word.now) words.entry.now) ≡ Some (asked_of request)) }
    ensures usage { IsErrOf result WordsFault.Usage → reading (map (λ word. word.now) words.entry.now) ≡ None }
{
    let command = command(alloc)?;
    match command.try_get_matches_from(words) {
        Ok(matches) => request_in(&matches),
        Err(error) => Err(fault_of(error.kind())),
    }
}
