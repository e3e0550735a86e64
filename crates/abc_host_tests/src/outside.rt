//! What no clause says: that the calls succeed with ample memory, and what stands in real files.
use abc_outside::*;
use std::alloc::{AllocError, Global};
use std::fs;
use std::test::Fail;

const KINDS: [CallKind; 8] = [
    CallKind::Choose,
    CallKind::Read,
    CallKind::Size,
    CallKind::ReadAt,
    CallKind::WriteAt,
    CallKind::Cut,
    CallKind::Sync,
    CallKind::Say,
];

#[test]
fn laws_hold() {
    stop_model();
    lines_are_in_order();
}

/// A host over these bytes as its image and as its input.
fn host_of(alloc: Global, image: &[u8], input: &[u8]) -> Result<MemoryHost, AllocError> {
    Ok(MemoryHost::new(
        alloc,
        Vec::from_slice(alloc, image)?,
        Vec::from_slice(alloc, input)?,
    ))
}

/// Whether a call of this kind is answered by Ok.
fn succeeds(host: &mut MemoryHost, kind: CallKind) -> bool {
    match kind {
        CallKind::Choose => host.choose("a.store", Some("an.input")).is_ok(),
        CallKind::Read => host.read(&mut [0; 4]).is_ok(),
        CallKind::Size => host.size().is_ok(),
        CallKind::ReadAt => host.read_at(0, &mut []).is_ok(),
        CallKind::WriteAt => host.write_at(0, b"XY").is_ok(),
        CallKind::Cut => host.cut(0).is_ok(),
        CallKind::Sync => host.sync().is_ok(),
        CallKind::Say => host.say(b"said").is_ok(),
    }
}

/// Whether calls of this kind, five in a row, are answered by Ok.
fn answers(host: &mut MemoryHost, kind: CallKind) -> [bool; 5] {
    let mut oks = [false; 5];
    for ok in oks.iter_mut() {
        *ok = succeeds(host, kind);
    }
    oks
}

#[test]
fn memory_answers_where_no_fault_is_listed(rt: HostRuntime) -> Result<(), Fail> {
    let mut host = host_of(rt.alloc(), b"abcdef", b"one\ntwo")?;
    host.say_at_most(3);
    for kind in KINDS {
        host.fail_at(kind, 2)?;
        host.fail_at(kind, 4)?;
        host.fail_at(kind, 0)?;
        assert!(rt; answers(&mut host, kind) == [true, false, true, false, true]);
    }
    assert!(rt; host.starved() == 0);
    assert!(rt; host.image().is_empty());
    assert!(rt; host.said() == b"saisaisai".as_slice());
    Ok(())
}

/// Whether the next line has these bytes, and is not long.
fn is_next<L: Lines>(lines: &mut L, wanted: &str) -> bool {
    match lines.next() {
        Ok(Some(line)) => line.bytes.bytes() == wanted.as_bytes() && !line.long,
        _ => false,
    }
}

#[test]
fn memory_lines_are_cut(rt: HostRuntime) -> Result<(), Fail> {
    let input = Vec::from_slice(rt.alloc(), b"one\r\n\n\rtwo")?;
    let mut lines = MemoryLines::new(rt.alloc(), input);
    for wanted in ["one", "", "\rtwo"] {
        assert!(rt; is_next(&mut lines, wanted));
    }
    assert!(rt; matches!(lines.next(), Ok(None)));
    Ok(())
}

/// What the store has in the middle and at the end of some calls.
fn use_store(host: &mut RealHost) -> Result<(u64, [u8; 4], u64), Failed> {
    host.write_at(0, b"abcdef")?;
    host.write_at(4, b"EFG")?;
    let most = host.size()?;
    host.cut(6)?;
    let mut back = [0; 4];
    host.read_at(2, &mut back)?;
    host.sync()?;
    Ok((most, back, host.size()?))
}

#[test]
fn real_keeps_what_was_written(rt: HostRuntime) -> Result<(), Fail> {
    let _ = fs::remove_file(&rt, "kept.store");
    fs::write(&rt, "kept.input", "one\ntwo")?;
    for size in [0, 6] {
        let mut host = RealHost::new(rt);
        assert!(rt; host.choose("kept.store", Some("kept.input")) == Ok(()));
        assert!(rt; host.size() == Ok(size));
        assert!(rt; use_store(&mut host) == Ok((7, *b"cdEF", 6)));
        let mut piece = [0; 16];
        assert!(rt; host.read(&mut piece) == Ok(7));
        assert!(rt; &piece[..7] == b"one\ntwo".as_slice());
        assert!(rt; host.read(&mut piece) == Ok(0));
    }
    let kept = fs::read_to_string(&rt, "kept.store")?;
    assert!(rt; kept.as_str() == "abcdEF");
    fs::remove_file(&rt, "kept.store")?;
    fs::remove_file(&rt, "kept.input")?;
    Ok(())
}

#[test]
fn real_refuses_what_it_can_not_use(rt: HostRuntime) -> Result<(), Fail> {
    let _ = fs::remove_file(&rt, "refused.store");
    fs::write(&rt, "refused.input", "")?;
    let rows = [
        ("", None, ChooseFault::Store),
        (".", None, ChooseFault::Store),
        ("no.folder/a.store", None, ChooseFault::Store),
        ("refused.store", Some("no.input"), ChooseFault::Input),
        // The input of the same run.
        ("refused.input", Some("./refused.input"), ChooseFault::Store),
    ];
    let mut host = RealHost::new(rt);
    assert!(rt; host.size() == Err(Failed));
    for (store, input, fault) in rows {
        assert!(rt; host.choose(store, input) == Err(fault));
    }
    assert!(rt; !fs::exists(&rt, "refused.store")?);
    // A folder opens, and can't be read: that is no end of the input.
    assert!(rt; host.choose("refused.store", Some(".")) == Ok(()));
    assert!(rt; host.read(&mut [0; 4]) == Err(Failed));
    // The store is held by the first host, which may choose it again.
    let mut other = RealHost::new(rt);
    assert!(rt; other.choose("refused.store", None) == Err(ChooseFault::Store));
    assert!(rt; host.choose("refused.store", None) == Ok(()));
    assert!(rt; other.choose("refused.store", None) == Err(ChooseFault::Store));
    // Past 2^63 - 1 there is no place in a file.
    assert!(rt; host.write_at(1 << 63, b"x") == Err(Failed));
    assert!(rt; host.cut(1 << 63) == Err(Failed));
    fs::remove_file(&rt, "refused.store")?;
    fs::remove_file(&rt, "refused.input")?;
    Ok(())
}
