//! Each call once with ample memory, images that are no store, a store with more behind its closing gate than
//! memory holds, and each call of the store failing in turn.
ghost use Rattle.std.specs.Prelude.{IfOk, IsTrue};
ghost use Rattle.abc_outside.specs.MemoryView.{outside_of};
ghost use Rattle.abc_journal.specs.Journal.{HasLayout};

use abc_journal::format::FRESH_IMAGE;
use abc_journal::{AppendFault, BeginFault, Bounds, Journal, Layout};
use abc_outside::{CallKind, Host, MemoryHost, RealHost};
use std::alloc::{AllocError, Global};
use std::fs;
use std::test::Fail;

const BOUNDS: Bounds = Bounds {
    input: 1000,
    image: 1000,
    checkpoint: 1000,
};

// The payload that sets the target x to 1.
const PAYLOAD: [u8; 27] = [
    0, 0, 0, 1, 1, 0, 0, 0, 1, 0x78, 0, 0, 0, 0, 0, 0, 0, 0, 0, 0, 0, 0, 0, 0, 0, 0, 1,
];

// The fresh image, cut or lengthened by zeros to a size, with these bytes at these places.
fn image_with(alloc: Global, size: usize, bytes: &[(usize, u8)]) -> Result<Vec<u8>, AllocError> {
    let mut image = FRESH_IMAGE.to_vec(alloc)?;
    image.resize(size, 0)?;
    for (place, byte) in bytes {
        if let Some(at) = image.get_mut(*place) {
            *at = *byte;
        }
    }
    Ok(image)
}

struct Opening {
    name: &'static str,
    size: usize,
    bytes: &'static [(usize, u8)],
    // how many payloads, or the place of what is wrong
    opens: Result<usize, u64>,
}

const OPENINGS: [Opening; 14] = [
    Opening {
        name: "no bytes",
        size: 0,
        bytes: &[],
        opens: Ok(0),
    },
    Opening {
        name: "fresh",
        size: 65,
        bytes: &[],
        opens: Ok(0),
    },
    Opening {
        name: "65 bytes, gate open",
        size: 65,
        bytes: &[(64, 1)],
        opens: Ok(0),
    },
    Opening {
        name: "a byte more",
        size: 66,
        bytes: &[(65, 9)],
        opens: Ok(0),
    },
    Opening {
        name: "no magic",
        size: 66,
        bytes: &[(0, 0)],
        opens: Err(0),
    },
    Opening {
        name: "no open slot",
        size: 66,
        bytes: &[(8, 0)],
        opens: Err(8),
    },
    Opening {
        name: "start in the head",
        size: 66,
        bytes: &[(24, 63)],
        opens: Err(63),
    },
    Opening {
        name: "start past the image",
        size: 66,
        bytes: &[(24, 66)],
        opens: Err(66),
    },
    Opening {
        name: "no length",
        size: 66,
        bytes: &[(64, 1)],
        opens: Err(64),
    },
    Opening {
        name: "payload past the image",
        size: 75,
        bytes: &[(64, 1), (72, 3)],
        opens: Err(64),
    },
    Opening {
        name: "no closing gate",
        size: 100,
        bytes: &[(64, 1), (72, 27)],
        opens: Err(100),
    },
    Opening {
        name: "closed record",
        size: 101,
        bytes: &[(64, 0), (72, 27)],
        opens: Ok(0),
    },
    Opening {
        name: "slot 1 is newer",
        size: 78,
        bytes: &[(25, 1), (33, 2), (41, 66), (66, 1), (74, 2)],
        opens: Ok(1),
    },
    Opening {
        name: "slot 0 on a tie",
        size: 78,
        bytes: &[(25, 1), (33, 1), (41, 66), (66, 1), (74, 2)],
        opens: Ok(0),
    },
];

#[test]
fn opens_or_says_where_it_is_wrong(rt: HostRuntime) -> Result<(), Fail> {
    let alloc = rt.alloc();
    for row in &OPENINGS {
        let image = image_with(alloc, row.size, row.bytes)?;
        let mut host = MemoryHost::new(alloc, image, Vec::new(alloc));
        let opens = match Journal::begin(alloc, &mut host, &BOUNDS) {
            Ok((_journal, payloads)) => Ok(payloads.len()),
            Err(BeginFault::NotAStore { at }) => Err(at),
            Err(fault) => return Err(fault.into()),
        };
        assert_eq!(rt; opens, row.opens, "{}", row.name);
    }
    Ok(())
}

#[test]
fn an_append_is_there_when_opened_again(rt: HostRuntime) -> Result<(), Fail> {
    let alloc = rt.alloc();
    let mut host = MemoryHost::new(alloc, Vec::new(alloc), Vec::new(alloc));
    let (mut journal, _) = Journal::begin(alloc, &mut host, &BOUNDS)?;
    assert_eq!(rt; host.image(), FRESH_IMAGE.as_slice());
    journal.reserve(PAYLOAD.len())?;
    journal.append(&mut host, &PAYLOAD)?;
    let mut image = image_with(alloc, 64, &[])?;
    image.extend_from_slice(&[1, 0, 0, 0, 0, 0, 0, 0, 27])?;
    image.extend_from_slice(&PAYLOAD)?;
    image.push(0)?;
    assert_eq!(rt; host.image(), image.as_slice());
    let layout = Layout {
        size: 101,
        generation: 1,
        start: 64,
        gate: 100,
        first: 0,
        slot: 0,
        other: false,
    };
    assert_eq!(rt; journal.layout(), layout);
    assert!(rt; journal.sound());
    let (again, payloads) = Journal::begin(alloc, &mut host, &BOUNDS)?;
    assert_eq!(rt; again.layout(), layout);
    assert_eq!(rt; payloads.len(), 1);
    assert_eq!(rt; payloads[0].bytes(), PAYLOAD.as_slice());
    Ok(())
}

// A store of 2^36 bytes, most of which the file system need not hold: to read them all would take minutes.
#[test]
fn nothing_behind_the_closing_gate_is_read(rt: HostRuntime) -> Result<(), Fail> {
    let alloc = rt.alloc();
    let _ = fs::remove_file(&rt, "long.store");
    let mut host = RealHost::new(rt);
    assert_eq!(rt; host.choose("long.store", None), Ok(()));
    let (mut journal, _) = Journal::begin(alloc, &mut host, &BOUNDS)?;
    journal.append(&mut host, &PAYLOAD)?;
    assert_eq!(rt; host.write_at((1 << 36) - 1, &[1]), Ok(()));
    let (long, payloads) = Journal::begin(alloc, &mut host, &BOUNDS)?;
    assert_eq!(rt; long.layout().size, 1 << 36);
    assert_eq!(rt; payloads.len(), 1);
    assert_eq!(rt; payloads[0].bytes(), PAYLOAD.as_slice());
    fs::remove_file(&rt, "long.store")?;
    Ok(())
}

// A store with four payloads, of which the first is a checkpoint behind the head's first region.
fn with_four(alloc: Global, host: &mut MemoryHost) -> Result<Journal, Fail>
    ensures sound { IfOk result (λ journal. IsTrue journal.sound) }
    ensures layout { IfOk result (λ journal. HasLayout (outside_of host.new).image journal.layout) }
{
    let (mut journal, _) = Journal::begin(alloc, host, &BOUNDS)?;
    journal.append(host, &PAYLOAD)?;
    journal.checkpoint(host, &PAYLOAD)?;
    journal.append(host, &PAYLOAD)?;
    journal.append(host, &PAYLOAD)?;
    journal.append(host, &PAYLOAD)?;
    Ok(journal)
}

#[test]
fn a_checkpoint_goes_behind_and_then_in_front(rt: HostRuntime) -> Result<(), Fail> {
    let alloc = rt.alloc();
    let mut host = MemoryHost::new(alloc, Vec::new(alloc), Vec::new(alloc));
    let mut journal = with_four(alloc, &mut host)?;
    let four = Layout {
        size: 246,
        generation: 2,
        start: 101,
        gate: 245,
        first: 27,
        slot: 1,
        other: true,
    };
    assert_eq!(rt; journal.layout(), four);
    assert_eq!(rt; host.image().len(), 246);
    journal.checkpoint(&mut host, &PAYLOAD)?;
    let front = Layout {
        size: 101,
        generation: 3,
        start: 64,
        gate: 100,
        first: 27,
        slot: 0,
        other: true,
    };
    assert_eq!(rt; journal.layout(), front);
    let mut image = image_with(alloc, 64, &[(16, 3), (24, 64), (25, 1), (33, 2), (41, 101)])?;
    image.extend_from_slice(&[1, 0, 0, 0, 0, 0, 0, 0, 27])?;
    image.extend_from_slice(&PAYLOAD)?;
    image.push(0)?;
    assert_eq!(rt; host.image(), image.as_slice());
    let (again, payloads) = Journal::begin(alloc, &mut host, &BOUNDS)?;
    assert_eq!(rt; again.layout(), front);
    assert_eq!(rt; payloads.len(), 1);
    assert_eq!(rt; payloads[0].bytes(), PAYLOAD.as_slice());
    Ok(())
}

#[test]
fn a_full_store_says_what_it_needs(rt: HostRuntime) -> Result<(), Fail> {
    let alloc = rt.alloc();
    let mut host = MemoryHost::new(alloc, Vec::new(alloc), Vec::new(alloc));
    let bounds = Bounds {
        image: 136,
        ..BOUNDS
    };
    let (mut journal, _) = Journal::begin(alloc, &mut host, &bounds)?;
    journal.append(&mut host, &PAYLOAD)?;
    let no_record = AppendFault::StoreFull {
        need: 137,
        limit: 136,
    };
    let no_checkpoint = AppendFault::StoreFull {
        need: 138,
        limit: 136,
    };
    assert_eq!(rt; journal.append(&mut host, &PAYLOAD), Err(no_record));
    assert_eq!(rt; journal.checkpoint(&mut host, &PAYLOAD), Err(no_checkpoint));
    assert_eq!(rt; host.image().len(), 101);
    assert!(rt; journal.sound());
    Ok(())
}

// A call that fails, and how many payloads the store opens to then.
const FAILING_APPENDS: [(CallKind, u64, usize); 4] = [
    (CallKind::WriteAt, 1, 4),
    (CallKind::Sync, 1, 4),
    (CallKind::WriteAt, 2, 4),
    (CallKind::Sync, 2, 5),
];

const FAILING_CHECKPOINTS: [(CallKind, u64, usize); 10] = [
    (CallKind::WriteAt, 1, 4),
    (CallKind::Sync, 1, 4),
    (CallKind::WriteAt, 2, 4),
    (CallKind::WriteAt, 3, 4),
    (CallKind::WriteAt, 4, 4),
    (CallKind::WriteAt, 5, 4),
    (CallKind::Sync, 2, 4),
    (CallKind::WriteAt, 6, 4),
    (CallKind::Sync, 3, 1),
    (CallKind::Cut, 1, 1),
];

#[test]
fn an_append_that_fails_leaves_the_record_or_not(rt: HostRuntime) -> Result<(), Fail> {
    let alloc = rt.alloc();
    for (kind, n, payloads) in FAILING_APPENDS {
        let mut host = MemoryHost::new(alloc, Vec::new(alloc), Vec::new(alloc));
        let mut journal = with_four(alloc, &mut host)?;
        host.fail_at(kind, n)?;
        let failed = journal.append(&mut host, &PAYLOAD);
        assert_eq!(rt; failed, Err(AppendFault::StoreFault));
        assert!(rt; !journal.sound());
        let (_journal, found) = Journal::begin(alloc, &mut host, &BOUNDS)?;
        assert_eq!(rt; found.len(), payloads);
    }
    Ok(())
}

#[test]
fn a_checkpoint_that_fails_leaves_old_or_new(rt: HostRuntime) -> Result<(), Fail> {
    let alloc = rt.alloc();
    for (kind, n, payloads) in FAILING_CHECKPOINTS {
        let mut host = MemoryHost::new(alloc, Vec::new(alloc), Vec::new(alloc));
        let mut journal = with_four(alloc, &mut host)?;
        host.fail_at(kind, n)?;
        let failed = journal.checkpoint(&mut host, &PAYLOAD);
        assert_eq!(rt; failed, Err(AppendFault::StoreFault));
        assert!(rt; !journal.sound());
        let (_journal, found) = Journal::begin(alloc, &mut host, &BOUNDS)?;
        assert_eq!(rt; found.len(), payloads);
    }
    Ok(())
}
