//! A run over a host in memory, and what it leaves.
use abc_journal::Bounds;
use abc_outside::MemoryHost;
use abc_session::run_within;
use itoa::Buffer;
use std::alloc::{AllocError, Global};

pub(crate) const WORDS: [&str; 1] = ["my.store"];

/// Bounds that no test here reaches but those that are about bounds.
pub(crate) const AMPLE: Bounds = Bounds {
    input: 100_000_000,
    image: 100_000_000,
    checkpoint: 100_000_000,
};

/// What a run leaves.
#[derive(Drop)]
pub(crate) struct Remains {
    pub(crate) status: u8,
    pub(crate) said: Vec<u8>,
    pub(crate) image: Vec<u8>,
}

pub(crate) fn host_of(alloc: Global, image: &[u8], input: &[u8]) -> Result<MemoryHost, AllocError> {
    Ok(MemoryHost::new(alloc, image.to_vec(alloc)?, input.to_vec(alloc)?))
}

/// Runs over a new host.
pub(crate) fn ran(
    alloc: Global,
    image: &[u8],
    input: &[u8],
    bounds: &Bounds,
) -> Result<Remains, AllocError> {
    let mut host = host_of(alloc, image, input)?;
    let status = run_within(alloc, &WORDS, &mut host, bounds);
    Ok(Remains {
        status,
        said: host.said().to_vec(alloc)?,
        image: host.image().to_vec(alloc)?,
    })
}

/// Adds a number in decimal digits.
pub(crate) fn push_number(bytes: &mut Vec<u8>, n: u32) -> Result<(), AllocError> {
    let mut buffer = Buffer::new();
    bytes.extend_from_slice(buffer.format(n).as_bytes())?;
    Ok(())
}

/// Adds the last line of a reply to item `k`, which went well.
pub(crate) fn push_ok(said: &mut Vec<u8>, k: u32) -> Result<(), AllocError> {
    said.extend_from_slice(b"[")?;
    push_number(said, k)?;
    said.extend_from_slice(b"] ok\n")?;
    Ok(())
}
