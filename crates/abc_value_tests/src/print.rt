//! What no clause says: that ample memory is enough, where the text fits and where it doesn't. Worked lines are the rows of
//! abc_printed.

use abc_num::Num;
use abc_print::*;
use abc_value::{Value, ValueFault};
use std::alloc::Global;
use std::cmp::Ordering;

/// The compound of a half and a text with both signs that are doubled, which is `(0.5, "a""b``")` as a display and
/// `0.5 a"b` with a backquote as it is written.
fn worked(alloc: Global) -> Result<Value, ValueFault> {
    let half = match Num::ratio(1, 2) {
        Ok(n) => Value::number(n),
        Err(_) => Value::empty(alloc),
    };
    let mut fields = Vec::new(alloc);
    fields.push(half)?;
    fields.push(Value::text(alloc, b"a\"b`")?)?;
    Value::compound(fields)
}

#[test]
fn a_display_fits_exactly(rt: HostRuntime) -> Result<(), ValueFault> {
    let alloc = rt.alloc();
    let value = worked(alloc)?;
    let text = b"(0.5, \"a\"\"b``\")";
    assert!(rt;
        matches!(display_of(alloc, &value, text.len()), Ok(bytes) if bytes.as_slice() == text.as_slice())
    );
    assert_eq!(rt;
        display_of(alloc, &value, text.len() - 1).err(),
        Some(PrintFault::TooLong)
    );
    assert_eq!(rt;
        display_of(alloc, &value, 0).err(),
        Some(PrintFault::TooLong)
    );
    Ok(())
}

#[test]
fn a_written_value_fits_exactly(rt: HostRuntime) -> Result<(), ValueFault> {
    let alloc = rt.alloc();
    let value = worked(alloc)?;
    let text = b"0.5 a\"b`";
    assert!(rt;
        matches!(text_of(alloc, &value, text.len()), Ok(bytes) if bytes.as_slice() == text.as_slice())
    );
    assert_eq!(rt;
        text_of(alloc, &value, text.len() - 1).err(),
        Some(PrintFault::TooLong)
    );
    let none = text_of(alloc, &Value::text(alloc, b"")?, 0);
    assert!(rt; matches!(&none, Ok(bytes) if bytes.is_empty()));
    Ok(())
}

#[test]
fn a_line_is_read(rt: HostRuntime) -> Result<(), ValueFault> {
    displays_read_back();
    let alloc = rt.alloc();
    let read = read_literal_line(alloc, b"1/2, 'a\"b``'");
    let worked = worked(alloc)?;
    assert!(rt; matches!(&read, Ok(value) if value.cmp(&worked) == Ordering::Equal));
    Ok(())
}
