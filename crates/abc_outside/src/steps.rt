//! The record of the calls that change the host in memory. A step keeps what its call took away,
//! never the whole image, so a call costs what it writes.
ghost use Rattle.std.specs.Prelude.{◌≡◌, ◌≤◌, ◌+◌, ◌-◌, ◌++◌, [], ◌∷◌, ℕ, length, take, drop, min, vec_len, vec_capacity, OnOk, OnErr, Vec};
ghost use Rattle.std.specs.declared.alloc.Global.{Global};
ghost use Rattle.abc_outside.specs.Stop.{written};

use std::alloc::{AllocError, Global};

#[derive(Drop)]
pub(crate) enum Step {
    /// A write of `len` bytes at `at`, made or failed, over the bytes `before`.
    Wrote {
        at: usize,
        len: usize,
        before: Vec<u8>,
    },
    /// A cut to `size` bytes, made or failed, of the bytes `before`.
    CutTo {
        size: usize,
        before: Vec<u8>,
    },
    /// A sync that was made.
    Synced,
    /// A piece was said after `before` bytes.
    Said {
        before: usize,
    },
}

/// Adds a step to the record.
pub(crate) fn record(steps: &mut Vec<Step>, step: Step) -> Result<(), AllocError>
    ensures ok { OnOk result (steps.new.items ≡ steps.old.items ++ step ∷ []) }
    ensures err { OnErr result (steps.new.items ≡ steps.old.items) }
{
    Ok(steps.push(step)?)
}

/// Records a write of `len` bytes at `at`, and takes the room that it wants.
pub(crate) fn prepare_write(
    alloc: Global,
    image: &mut Vec<u8>,
    steps: &mut Vec<Step>,
    at: usize,
    len: usize,
) -> Result<(), AllocError>
    requires { at ≤ length image.old.items }
    ensures image { image.new.items ≡ image.old.items }
    ensures room { OnOk result (vec_len image.new + (len - (vec_len image.new - at)) ≤ vec_capacity image.new) }
    ensures ok { OnOk result ((v : Vec ℕ Global) × (v.items ≡ take len (drop at image.old.items)) × (steps.new.items ≡ steps.old.items ++ Step.Wrote at len v ∷ [])) }
    ensures err { OnErr result (steps.new.items ≡ steps.old.items) }
{
    let over = len.min(image.len() - at);
    image.reserve(len - over)?;
    let before = Vec::from_slice(alloc, &image[at..at + over])?;
    record(steps, Step::Wrote { at, len, before })?;
    Ok(())
}

/// Puts bytes behind a list that has room for them.
pub(crate) fn append(list: &mut Vec<u8>, bytes: &[u8])
    requires { vec_len list.old + length bytes.now ≤ vec_capacity list.old }
    ensures { list.new.items ≡ list.old.items ++ bytes.now }
{
    // There is room, so this takes no memory and does not fail.
    let _ = list.extend_from_slice(bytes);
}

/// Writes in place, and past the end as far as it goes.
pub(crate) fn write_over(image: &mut Vec<u8>, at: usize, bytes: &[u8])
    requires within { at ≤ length image.old.items }
    requires room { vec_len image.old + (length bytes.now - (vec_len image.old - at)) ≤ vec_capacity image.old }
    ensures { image.new.items ≡ written image.old.items at bytes.now }
{
    let over = bytes.len().min(image.len() - at);
    image[at..at + over].copy_from_slice(&bytes[..over]);
    append(image, &bytes[over..]);
}

/// Records a cut to `size` bytes.
pub(crate) fn record_cut(
    alloc: Global,
    image: &[u8],
    steps: &mut Vec<Step>,
    size: usize,
) -> Result<(), AllocError>
    requires { size ≤ length image.now }
    ensures ok { OnOk result ((v : Vec ℕ Global) × (v.items ≡ drop size image.now) × (steps.new.items ≡ steps.old.items ++ Step.CutTo size v ∷ [])) }
    ensures err { OnErr result (steps.new.items ≡ steps.old.items) }
{
    let before = Vec::from_slice(alloc, &image[size..])?;
    record(steps, Step::CutTo { size, before })?;
    Ok(())
}

/// Records that a piece of `len` bytes is said, and takes the room that it wants.
pub(crate) fn prepare_say(
    said: &mut Vec<u8>,
    steps: &mut Vec<Step>,
    len: usize,
) -> Result<(), AllocError>
    ensures said { said.new.items ≡ said.old.items }
    ensures room { OnOk result (vec_len said.new + len ≤ vec_capacity said.new) }
    ensures ok { OnOk result (steps.new.items ≡ steps.old.items ++ Step.Said (length said.old.items) ∷ []) }
    ensures err { OnErr result (steps.new.items ≡ steps.old.items) }
{
    said.reserve(len)?;
    record(steps, Step::Said { before: said.len() })
}
