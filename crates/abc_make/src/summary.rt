//! What is said of a run on a made input.
ghost use Rattle.std.specs.Prelude.{◌≡◌, ◌++◌, IfOk, OnOk, decimal};
ghost use Rattle.abc_make.specs.Summary.{summary};

use crate::Tally;
use crate::input::push_number;
use abc_num::OutOfMemory;
use std::alloc::{AllocError, Global};

/// Adds what a number is of, and the number.
fn push_named(bytes: &mut Vec<u8>, name: &[u8], n: u128) -> Result<(), AllocError>
    ensures { OnOk result (bytes.new.items ≡ bytes.old.items ++ name.now ++ decimal n) }
{
    bytes.extend_from_slice(name)?;
    push_number(bytes, n)?;
    Ok(())
}

/// What is said of a run on a made input that puts so many values, whose replies were counted so.
pub fn summary_of(alloc: Global, n: u64, tally: &Tally) -> Result<Vec<u8>, OutOfMemory>
    ensures { IfOk result (λ bytes. bytes.items ≡ summary n tally.now) }
{
    let mut bytes = Vec::new(alloc);
    push_named(&mut bytes, b"made ", u128::from(n))?;
    push_named(&mut bytes, b": items ", u128::from(tally.items()))?;
    push_named(&mut bytes, b", ok ", u128::from(tally.oks()))?;
    push_named(&mut bytes, b", units ", u128::from(tally.units()))?;
    push_named(&mut bytes, b", faults ", u128::from(tally.faults()))?;
    push_named(&mut bytes, b", said ", tally.said())?;
    bytes.extend_from_slice(b" bytes\n")?;
    Ok(bytes)
}
