//! The parts of a text: its characters, and the bytes of its conversions.
ghost use Rattle.std.specs.Prelude.{◌≡◌, ◌≢◌, ◌≤◌, ◌∷◌, ◌++◌, List, ◌==◌, IfOk, length};
ghost use Rattle.abc_tokens.specs.Bytes.{backquote, begins};
ghost use Rattle.abc_expressions.specs.declared.texts.Part.{Part};
ghost use Rattle.abc_expressions.specs.inner.Machine.{split, split_text};
ghost use Rattle.abc_expressions.specs.inner.Splitting.{IsEndAt, Cuts, with_found, all_parts, flushed};

use abc_num::{Items, OutOfMemory, Text};
use abc_tokens::{conversion_end, one_reading};
use std::alloc::Global;

/// A part of a text.
#[derive(Drop)]
pub enum Part {
    /// A longest run of characters, where doubled signs are one.
    Characters(Text),
    /// What stands between the backquotes of a conversion.
    Conversion(Text),
}

/// What stands at a place of a text.
#[derive(Drop)]
enum Found {
    Character(u8),
    Conversion(Text),
}

/// The first of the rest of a text, and how many bytes it takes.
#[derive(Drop)]
enum Cut {
    /// The quote that ends the text.
    End,
    Part(Found, usize),
    Wrong,
}

/// The parts that were found, and the characters behind them.
#[derive(Drop)]
struct SoFar {
    parts: Vec<Part>,
    run: Vec<u8>,
}

/// Where the conversion with which the bytes begin ends. `marks` has room for the quotes of all texts in it.
fn end_of_conversion(bytes: &[u8], marks: &mut [u8]) -> Option<usize>
    requires { length bytes.now ≤ length marks.old }
    ensures { IsEndAt bytes.now result }
{
    one_reading();
    conversion_end(bytes, marks)
}

fn at_quote(quote: u8, rest: &[u8]) -> Cut
    ensures { Cuts quote (quote ∷ rest.now) result }
{
    match rest.split_first() {
        None => Cut::End,
        Some((next, _)) => {
            if *next == quote {
                Cut::Part(Found::Character(quote), 2)
            } else {
                Cut::Wrong
            }
        }
    }
}

fn begins_backquote(bytes: &[u8]) -> bool
    ensures { result ≡ begins (λ b. b == backquote) bytes.now }
{
    matches!(bytes, [b'`', ..])
}

fn at_backquote(alloc: Global, quote: u8, rest: &[u8], marks: &mut [u8]) -> Result<Cut, OutOfMemory>
    requires quote { quote ≢ backquote }
    requires room { length rest.now ≤ length marks.old }
    ensures { IfOk result (Cuts quote (backquote ∷ rest.now)) }
{
    if begins_backquote(rest) {
        return Ok(Cut::Part(Found::Character(b'`'), 2));
    }
    match end_of_conversion(rest, marks) {
        Some(end) => {
            let inner = Text::of(alloc, &rest[..end])?;
            Ok(Cut::Part(Found::Conversion(inner), end + 2))
        }
        None => Ok(Cut::Wrong),
    }
}

/// The first of what is left of a text.
fn first_of(alloc: Global, quote: u8, bytes: &[u8], marks: &mut [u8]) -> Result<Cut, OutOfMemory>
    requires { length bytes.now ≤ length marks.old }
    ensures { IfOk result (Cuts quote bytes.now) }
{
    let Some((byte, rest)) = bytes.split_first() else {
        return Ok(Cut::Wrong);
    };
    if *byte == quote {
        return Ok(at_quote(quote, rest));
    }
    if *byte == b'`' {
        return at_backquote(alloc, quote, rest, marks);
    }
    Ok(Cut::Part(Found::Character(*byte), 1))
}

/// The parts with the characters behind them as a last one, if there are any.
fn flushed(mut parts: Vec<Part>, run: Vec<u8>) -> Result<Vec<Part>, OutOfMemory>
    ensures { IfOk result (λ all. all.items ≡ parts.items ++ flushed run.items) }
{
    if !run.is_empty() {
        parts.push(Part::Characters(Text::from_vec(run)))?;
    }
    Ok(parts)
}

/// With one more behind what was found.
fn added(alloc: Global, so_far: SoFar, found: Found) -> Result<SoFar, OutOfMemory>
    ensures { IfOk result (λ new. (more : List Part) → all_parts new more ≡ all_parts so_far (with_found found more)) }
{
    let SoFar { parts, mut run } = so_far;
    match found {
        Found::Character(c) => {
            run.push(c)?;
            Ok(SoFar { parts, run })
        }
        Found::Conversion(inner) => {
            let mut parts = flushed(parts, run)?;
            parts.push(Part::Conversion(inner))?;
            Ok(SoFar {
                parts,
                run: Vec::new(alloc),
            })
        }
    }
}

fn split(alloc: Global, quote: u8, body: &[u8]) -> Result<Option<Items<Part>>, OutOfMemory>
    ensures { IfOk result (λ x. x ≡ split quote body.now 0) }
{
    let mut so_far = SoFar {
        parts: Vec::new(alloc),
        run: Vec::new(alloc),
    };
    let mut marks = vec![in alloc; 0u8; body.len()]?;
    let mut ahead = body;
    'parts: loop {
        let (found, length) = match first_of(alloc, quote, ahead, &mut marks)? {
            Cut::End => return Ok(Some(Items::from_vec(flushed(so_far.parts, so_far.run)?))),
            Cut::Wrong => return Ok(None),
            Cut::Part(found, length) => (found, length),
        };
        so_far = added(alloc, so_far, found)?;
        ahead = &ahead[length..];
    }
}

/// The parts of this text token. Each byte is read a few times, in conversions too.
///
/// ```text
/// text = quote { character | conversion } quote
/// ```
pub(crate) fn split_text(alloc: Global, text: &[u8]) -> Result<Option<Items<Part>>, OutOfMemory>
    ensures { IfOk result (λ x. x ≡ split_text text.now) }
{
    match text.split_first() {
        Some((quote, body)) => split(alloc, *quote, body),
        None => Ok(None),
    }
}
