//! Items of an input that comes from a host in memory, and what is asked of it.
use abc_outside::{CallKind, Host, LineStop, Lines, MemoryHost};
use abc_reader::{Reader, ReaderLines, items_are_steady};
use std::alloc::Global;
use std::test::Fail;

/// An item of one line, one that the next line ends, and one that the end of the input ends.
const INPUT: &str = "WRITE 1\r\n\nIF a:\n  WRITE a\n\\ note\n  PASS\nFOR x IN y:\n  PASS";

fn host_of(alloc: Global, input: &str) -> Result<MemoryHost, Fail> {
    Ok(MemoryHost::new(alloc, Vec::new(alloc), input.as_bytes().to_vec(alloc)?))
}

#[test]
fn items_come_in_order(rt: HostRuntime) -> Result<(), Fail> {
    let mut host = host_of(rt.alloc(), INPUT)?;
    assert_eq!(rt; host.choose("store", None), Ok(()));
    let mut reader = Reader::new(rt.alloc(), 1000);
    let Ok(Some(item)) = reader.next_item(&mut host) else {
        panic!(rt; "no item");
    };
    assert_eq!(rt; item.as_slice()[0].text.bytes(), b"WRITE 1".as_slice());
    let Ok(Some(item)) = reader.next_item(&mut host) else {
        panic!(rt; "no second item");
    };
    assert_eq!(rt; item.len(), 3);
    assert!(rt; matches!(reader.next_item(&mut host), Ok(Some(_))));
    assert!(rt; matches!(reader.next_item(&mut host), Ok(None)));
    Ok(())
}

#[test]
fn bounds_and_faults_stop_it(rt: HostRuntime) -> Result<(), Fail> {
    let mut host = host_of(rt.alloc(), INPUT)?;
    assert_eq!(rt; host.choose("store", None), Ok(()));
    let mut reader = Reader::new(rt.alloc(), 9);
    assert!(rt; matches!(reader.next_item(&mut host), Ok(Some(_))));
    assert!(rt; matches!(reader.next_item(&mut host), Err(LineStop::Long)));

    let mut host = host_of(rt.alloc(), INPUT)?;
    assert_eq!(rt; host.choose("store", None), Ok(()));
    host.fail_at(CallKind::Read, 1)?;
    let mut reader = Reader::new(rt.alloc(), 1000);
    assert!(rt; matches!(reader.next_item(&mut host), Err(LineStop::Input)));
    items_are_steady::<u8>();
    Ok(())
}

#[test]
fn lines_come_behind_an_item(rt: HostRuntime) -> Result<(), Fail> {
    let mut host = host_of(rt.alloc(), "READ a RAW\nsome line\r\nlast")?;
    assert_eq!(rt; host.choose("store", None), Ok(()));
    let mut reader = Reader::new(rt.alloc(), 1000);
    assert!(rt; matches!(reader.next_item(&mut host), Ok(Some(_))));
    reader.is_reader();
    let mut lines = ReaderLines {
        reader: &mut reader,
        host: &mut host,
    };
    for text in ["some line", "last"] {
        let Ok(Some(line)) = lines.next() else {
            panic!(rt; "no line");
        };
        assert_eq!(rt; line.bytes.bytes(), text.as_bytes());
    }
    assert!(rt; matches!(lines.next(), Ok(None)));
    Ok(())
}
