//! What no clause says: that ample memory is enough.
mod speed;

use abc_frames::*;
use abc_num::{Num, OutOfMemory, Text};
use abc_value::Value;
use std::alloc::Global;

/// The value that is this whole number.
fn whole(n: i64) -> Value {
    match Num::whole(i128::from(n)) {
        Ok(n) => Value::number(n),
        Err(_) => unreachable!(),
    }
}

/// Whether the value is this whole number.
fn is_whole(v: Option<&Value>, n: i64) -> bool {
    match v {
        Some(v) => match v.as_number() {
            Some(x) => x.to_whole() == Some(i128::from(n)),
            None => false,
        },
        None => false,
    }
}

/// Targets of these names and whole numbers.
fn targets(alloc: Global, rows: &[(&str, i64)]) -> Result<Targets, OutOfMemory> {
    let mut all = Targets::new(alloc);
    for (name, n) in rows {
        all.set(Text::of(alloc, name.as_bytes())?, whole(*n))?;
    }
    Ok(all)
}

#[test]
fn targets_are_a_map(rt: HostRuntime) -> Result<(), OutOfMemory> {
    let alloc = rt.alloc();
    let mut all = targets(alloc, &[("b", 1), ("a", 2), ("ab", 3), ("b", 4)])?;
    assert!(rt; is_whole(all.look(&Text::of(alloc, b"b")?), 4));
    assert!(rt; all.look(&Text::of(alloc, b"c")?).is_none() && all.len() == 3);
    let names = all.names()?;
    assert_eq!(rt; names.len(), 3);
    for (i, name) in ["a", "ab", "b"].iter().enumerate() {
        assert!(rt; matches!(names.get(i as u32), Some(text) if text.bytes() == name.as_bytes()));
    }
    assert!(rt; is_whole(all.drop_name(&Text::of(alloc, b"a")?)?.as_ref(), 2));
    assert!(rt; all.drop_name(&Text::of(alloc, b"a")?)?.is_none());
    assert!(rt; all.look(&Text::of(alloc, b"a")?).is_none());
    Ok(())
}

#[test]
fn changes_are_in_order_of_names(rt: HostRuntime) -> Result<(), OutOfMemory> {
    let alloc = rt.alloc();
    let mut all = targets(alloc, &[("a", 1), ("b", 2), ("d", 4)])?;
    let before = all.keep()?;
    assert!(rt; all.changes(&before)?.is_empty());
    all.set(Text::of(alloc, b"d")?, whole(5))?;
    all.set(Text::of(alloc, b"c")?, whole(3))?;
    all.set(Text::of(alloc, b"b")?, whole(2))?;
    let _gone = all.drop_name(&Text::of(alloc, b"a")?)?;
    let changes = all.changes(&before)?;
    assert_eq!(rt; changes.len(), 3);
    let rows = [("a", None), ("c", Some(3)), ("d", Some(5))];
    for (change, (name, value)) in changes.iter().zip(rows.iter()) {
        assert_eq!(rt; change.name.bytes(), name.as_bytes());
        match value {
            Some(n) => assert!(rt; is_whole(change.value.as_ref(), *n)),
            None => assert!(rt; change.value.is_none()),
        }
    }
    all.back(before);
    assert!(rt;
        is_whole(all.look(&Text::of(alloc, b"a")?), 1)
            && is_whole(all.look(&Text::of(alloc, b"d")?), 4)
    );
    assert!(rt; all.look(&Text::of(alloc, b"c")?).is_none());
    Ok(())
}

#[test]
fn the_last_frame_is_the_current_one(rt: HostRuntime) -> Result<(), OutOfMemory> {
    let mut frames = Frames::new(rt.alloc());
    frames.push()?;
    frames.set(0, whole(1))?;
    frames.push()?;
    assert!(rt; frames.look(0).is_none());
    frames.set(0, whole(2))?;
    frames.set(7, whole(3))?;
    let kept = frames.keep()?;
    assert!(rt; is_whole(frames.drop_name(7)?.as_ref(), 3) && frames.drop_name(7)?.is_none());
    frames.set(0, whole(4))?;
    frames.back(kept);
    assert!(rt; is_whole(frames.look(0), 2) && is_whole(frames.look(7), 3));
    frames.pop();
    assert!(rt; is_whole(frames.look(0), 1) && frames.look(7).is_none());
    Ok(())
}
