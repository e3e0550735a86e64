//! The run of one example, on a store in memory.
ghost use Rattle.std.specs.Prelude.{◌≡◌, ◌↔◌, true, string_bytes};

use crate::blocks::Example;
use abc_outside::MemoryHost;
use abc_session::{COMPLETE, run};
use std::alloc::{AllocError, Global};

/// What a run leaves.
#[derive(Drop)]
pub(crate) struct Ran {
    pub(crate) status: u8,
    pub(crate) said: Vec<u8>,
    pub(crate) image: Vec<u8>,
}

impl Ran {
    /// Whether the run came to its end and said what is written as the answer, byte for byte.
    pub(crate) fn is_as_written(&self, answer: &String) -> bool
        ensures { result ≡ true ↔ (self.now.status ≡ COMPLETE) × (self.now.said.items ≡ string_bytes answer.now) }
    {
        self.status == COMPLETE && self.said.as_slice() == answer.as_bytes()
    }
}

/// The words of a run: the page is the name of its store.
fn words_of<'a>(
    alloc: Global,
    page: &'a str,
    example: &'a Example,
) -> Result<Vec<&'a str>, AllocError> {
    let mut words = Vec::new(alloc);
    words.push(page)?;
    for option in example.options.split_whitespace() {
        words.push(option)?;
    }
    Ok(words)
}

/// What a run with these words leaves.
fn run_over(alloc: Global, words: &[&str], mut host: MemoryHost) -> Result<Ran, AllocError> {
    let status = run(alloc, words, &mut host);
    Ok(Ran {
        status,
        said: host.said().to_vec(alloc)?,
        image: host.image().to_vec(alloc)?,
    })
}

/// Runs the example on a store with this image.
pub(crate) fn run_example(
    alloc: Global,
    page: &str,
    image: Vec<u8>,
    example: &Example,
) -> Result<Ran, AllocError> {
    let words = words_of(alloc, page, example)?;
    let host = MemoryHost::new(alloc, image, example.typed.as_bytes().to_vec(alloc)?);
    run_over(alloc, words.as_slice(), host)
}

/// Runs the made input that puts so many values. What is said is its summary.
pub(crate) fn run_made(alloc: Global, count: &str) -> Result<Ran, AllocError> {
    let host = MemoryHost::new(alloc, Vec::new(alloc), Vec::new(alloc));
    run_over(alloc, &["--make", count], host)
}
