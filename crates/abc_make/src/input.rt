//! The input that is made.
ghost use Rattle.std.specs.Prelude.{◌≡◌, ◌++◌, IfOk, OnOk, decimal};
ghost use Rattle.abc_make.specs.Input.{made_input, put_line};

use abc_num::OutOfMemory;
use itoa::Buffer;
use std::alloc::{AllocError, Global};

/// The lines in front of those that put.
const OPENING: &[u8] = b"PUT {} IN t\nHOW TO RETURN half n: RETURN floor (n/2)\n";

/// The last line.
const CLOSING: &[u8] = b"WRITE #t\n";

/// Adds a number in decimal digits.
pub(crate) fn push_number(bytes: &mut Vec<u8>, n: u128) -> Result<(), AllocError>
    ensures { OnOk result (bytes.new.items ≡ bytes.old.items ++ decimal n) }
{
    let mut buffer = Buffer::new();
    bytes.extend_from_slice(buffer.format(n).as_bytes())?;
    Ok(())
}

/// Adds the line that puts half of a number.
fn push_put(bytes: &mut Vec<u8>, n: u64) -> Result<(), AllocError>
    ensures { OnOk result (bytes.new.items ≡ bytes.old.items ++ put_line n) }
{
    bytes.extend_from_slice(b"PUT half ")?;
    push_number(bytes, u128::from(n))?;
    bytes.extend_from_slice(b" IN t[")?;
    push_number(bytes, u128::from(n))?;
    bytes.extend_from_slice(b" mod 64]\n")?;
    Ok(())
}

/// The made input that puts so many values.
pub fn input_of(alloc: Global, n: u64) -> Result<Vec<u8>, OutOfMemory>
    ensures { IfOk result (λ input. input.items ≡ made_input n) }
{
    let mut bytes = Vec::from_slice(alloc, OPENING)?;
    let mut count = 0;
    'puts: while count < n {
        count += 1;
        push_put(&mut bytes, count)?;
    }
    bytes.extend_from_slice(CLOSING)?;
    Ok(bytes)
}
