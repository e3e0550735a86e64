//! The session over a host in memory: what is said and kept, bad words and images, bounds, and calls that fail.
use crate::{
    COMPLETE, INPUT_FAULT, INPUT_TOO_LONG, NOT_A_STORE, SINK_FAULT, STORE_FAULT, USAGE,
    exact_checks_tell, items_are_steady, run, run_within, statuses_are_numbered,
};
use abc_journal::Bounds;
use abc_outside::{CallKind, MemoryHost, RealHost};
use std::alloc::{AllocError, Global};
use std::fs;
use std::test::Fail;

const WORDS: [&str; 1] = ["my.store"];

const BOUNDS: Bounds = Bounds {
    input: 5000,
    image: 5000,
    checkpoint: 5000,
};

// The head of a store with its one open slot: the magic, then the slot of generation 1, whose region starts at 64.
const HEAD: [u8; 25] = [
    0x41, 0x42, 0x43, 0x53, 0x54, 0x4f, 0x52, 0x31, 1, 0, 0, 0, 0, 0, 0, 0, 1, 0, 0, 0, 0, 0, 0, 0,
    64,
];

// A region of no records is a closed gate.
const NO_RECORDS: [u8; 1] = [0];

// An open gate, the length of a record, its payload that sets x to 1, and a closed gate.
const PUT_1_IN_X: [u8; 37] = [
    1, 0, 0, 0, 0, 0, 0, 0, 27, 0, 0, 0, 1, 1, 0, 0, 0, 1, 0x78, 0, 0, 0, 0, 0, 0, 0, 0, 0, 0, 0,
    0, 0, 0, 0, 0, 1, 0,
];

fn store_of(alloc: Global, region: &[u8]) -> Result<Vec<u8>, AllocError> {
    let mut image = HEAD.to_vec(alloc)?;
    image.resize(64, 0)?;
    image.extend_from_slice(region)?;
    Ok(image)
}

/// A store whose only record has this payload.
fn store_of_payload(alloc: Global, payload: &[u8]) -> Result<Vec<u8>, AllocError> {
    let mut image = store_of(alloc, &[1])?;
    image.extend_from_slice(&(payload.len() as u64).to_be_bytes())?;
    image.extend_from_slice(payload)?;
    image.push(0)?;
    Ok(image)
}

fn host_of(alloc: Global, image: &[u8], input: &str) -> Result<MemoryHost, AllocError> {
    let image = image.to_vec(alloc)?;
    let input = input.as_bytes().to_vec(alloc)?;
    Ok(MemoryHost::new(alloc, image, input))
}

/// What a run leaves.
#[derive(Drop)]
struct Remains {
    status: u8,
    said: Vec<u8>,
    image: Vec<u8>,
}

/// Runs over a new host.
fn ran(
    alloc: Global,
    words: &[&str],
    image: &[u8],
    input: &str,
    bounds: &Bounds,
) -> Result<Remains, AllocError> {
    let mut host = host_of(alloc, image, input)?;
    let status = run_within(alloc, words, &mut host, bounds);
    Ok(Remains {
        status,
        said: host.said().to_vec(alloc)?,
        image: host.image().to_vec(alloc)?,
    })
}

struct Session {
    name: &'static str,
    input: &'static str,
    said: &'static str,
    size: usize,
}

const SESSIONS: [Session; 20] = [
    Session {
        name: "no lines",
        input: "",
        said: "",
        size: 65,
    },
    Session {
        name: "put and write",
        input: "PUT 41 IN x\nWRITE x\n",
        said: "[1] ok\n41\n[2] ok\n",
        size: 101,
    },
    Session {
        name: "no such target",
        input: "WRITE y\n",
        said: "[1] fault line 1: Missing RETURN y\n",
        size: 65,
    },
    Session {
        name: "an item of several lines, which the next line ends",
        input: "IF 1 = 1:\n  WRITE 1\n\n  WRITE 2\nWRITE 3\n",
        said: "12\n[1] ok\n3\n[2] ok\n",
        size: 65,
    },
    Session {
        name: "the same value twice",
        input: "PUT 7 IN x\nPUT 7 IN x\n",
        said: "[1] ok\n[2] ok\n",
        size: 101,
    },
    Session {
        name: "no LF at the end",
        input: "PUT 1 IN x\nPUT 2 IN x",
        said: "[1] ok\n[2] ok\n",
        size: 137,
    },
    Session {
        name: "blank lines are not counted",
        input: "\n  \nWRITE 1\n\n   ",
        said: "1\n[1] ok\n",
        size: 65,
    },
    Session {
        name: "a CR before LF or the end is no byte of a line",
        input: "\r\nPUT 5 IN x\r\n  \r\nWRITE x\r",
        said: "[1] ok\n5\n[2] ok\n",
        size: 101,
    },
    Session {
        name: "another CR is",
        input: "WRITE 1\r\r\nWRITE\r1\n",
        said: "[1] fault line 1: BadByte\n[2] fault line 1: BadByte\n",
        size: 65,
    },
    Session {
        name: "more spaces",
        input: "PUT  1   IN x \nWRITE   x  \n",
        said: "[1] ok\n1\n[2] ok\n",
        size: 101,
    },
    Session {
        name: "an indented line",
        input: " WRITE 1\n",
        said: "[1] fault line 1: BadIndent\n",
        size: 65,
    },
    Session {
        name: "a target into another",
        input: "PUT 5 IN x\nPUT x IN yy\nWRITE yy\n",
        said: "[1] ok\n[2] ok\n5\n[3] ok\n",
        size: 138,
    },
    Session {
        name: "an item that quits, behind which nothing is read",
        input: "WRITE 1\nQUIT\nWRITE 2\n",
        said: "1\n[1] ok\n[2] ok\n",
        size: 65,
    },
    Session {
        name: "an open item that the end of the input ends",
        input: "IF 1 = 1:\n  WRITE 1",
        said: "1\n[1] ok\n",
        size: 65,
    },
    Session {
        name: "lines that are read",
        input: "READ n EG 0\n41\nREAD s RAW\n two words\nWRITE n + 1, s /\n",
        said: "[1] ok\n[2] ok\n42  two words\n[3] ok\n",
        size: 135,
    },
    Session {
        name: "the line that ended the item is read first, and then a blank one",
        input: "IF 1 = 1:\n  READ a RAW\n  READ b RAW\nWRITE 1\n\nWRITE a, b /\n",
        said: "[1] ok\nWRITE 1 \n[2] ok\n",
        size: 107,
    },
    Session {
        name: "no line is left to be read",
        input: "WRITE 1\nREAD x EG 0\n",
        said: "1\n[1] ok\n[2] fault line 1: NoInput\n",
        size: 65,
    },
    Session {
        name: "lines that ask about the workspace",
        input: "PUT 41 IN x\n==\n=x\n=y\n::\n",
        said: "[1] ok\nx\n[2] ok\n41\n[3] ok\n[4] fault line 1: NoTarget\n[5] ok\n",
        size: 101,
    },
    Session {
        name: "items that no types fit change nothing",
        input: "PUT {} IN t\nINSERT 1 IN t\nINSERT \"a\" IN t\nHOW TO RETURN f: RETURN 1 + \"a\"\nHOW TO RETURN f: RETURN 1 + 2\nWRITE t, f /\n",
        said: "[1] ok\n[2] ok\n[3] fault line 1: TypeFault\n[4] fault line 1: TypeFault\n[5] unit RETURN f\n{1} 3\n[6] ok\n",
        size: 185,
    },
    Session {
        name: "the largest number, and one more",
        input: "WRITE 170141183460469231731687303715884105727\nWRITE 170141183460469231731687303715884105728\n",
        said: "170141183460469231731687303715884105727\n[1] ok\n[2] fault line 1: BadNumber\n",
        size: 65,
    },
];

#[test]
fn ample_memory_is_enough(rt: HostRuntime) -> Result<(), Fail> {
    let alloc = rt.alloc();
    items_are_steady();
    exact_checks_tell();
    statuses_are_numbered();
    for row in &SESSIONS {
        let mut host = host_of(alloc, &[], row.input)?;
        let status = run(alloc, &WORDS, &mut host);
        assert_eq!(rt; status, COMPLETE, "{}", row.name);
        assert_eq!(rt; host.said(), row.said.as_bytes(), "{}", row.name);
        assert_eq!(rt; host.image().len(), row.size, "{}", row.name);
        assert_eq!(rt; host.starved(), 0, "{}", row.name);
    }
    Ok(())
}

struct Bounded {
    words: &'static [&'static str],
    input: &'static str,
    most_input: u64,
    most_image: u64,
    most_checkpoint: u64,
    status: u8,
    said: &'static str,
    size: usize,
}

const BOUNDED: [Bounded; 20] = [
    Bounded {
        words: &WORDS,
        input: "WRITE 1",
        most_input: 8,
        most_image: 1000,
        most_checkpoint: 1000,
        status: COMPLETE,
        said: "1\n[1] ok\n",
        size: 65,
    },
    Bounded {
        words: &WORDS,
        input: "WRITE 1\n",
        most_input: 8,
        most_image: 1000,
        most_checkpoint: 1000,
        status: INPUT_TOO_LONG,
        said: "1\n[1] ok\n",
        size: 65,
    },
    Bounded {
        words: &WORDS,
        input: "WRITE 12",
        most_input: 8,
        most_image: 1000,
        most_checkpoint: 1000,
        status: INPUT_TOO_LONG,
        said: "",
        size: 65,
    },
    Bounded {
        words: &WORDS,
        input: "\n\n\n\n\n\n\n\nWRITE 1\n",
        most_input: 8,
        most_image: 1000,
        most_checkpoint: 1000,
        status: INPUT_TOO_LONG,
        said: "",
        size: 65,
    },
    Bounded {
        words: &WORDS,
        input: "READ s RAW\nabc\n",
        most_input: 13,
        most_image: 1000,
        most_checkpoint: 1000,
        status: INPUT_TOO_LONG,
        said: "",
        size: 65,
    },
    Bounded {
        words: &WORDS,
        input: "PUT 1 IN x\nPUT 2 IN y\nWRITE x\n",
        most_input: 1000,
        most_image: 101,
        most_checkpoint: 1000,
        status: COMPLETE,
        said: "[1] ok\n[2] fault line 1: StoreFull\n1\n[3] ok\n",
        size: 101,
    },
    Bounded {
        words: &WORDS,
        input: "PUT 1 IN x\n",
        most_input: 1000,
        most_image: 5000,
        most_checkpoint: 36,
        status: COMPLETE,
        said: "[1] ok\n",
        size: 138,
    },
    Bounded {
        words: &WORDS,
        input: "PUT 1 IN x\nPUT 2 IN x\n",
        most_input: 1000,
        most_image: 5000,
        most_checkpoint: 36,
        status: COMPLETE,
        said: "[1] ok\n[2] ok\n",
        size: 174,
    },
    Bounded {
        words: &WORDS,
        input: "PUT 1 IN x\nPUT 2 IN x\nPUT 3 IN x\n",
        most_input: 1000,
        most_image: 5000,
        most_checkpoint: 36,
        status: COMPLETE,
        said: "[1] ok\n[2] ok\n[3] ok\n",
        size: 210,
    },
    Bounded {
        words: &WORDS,
        input: "PUT 1 IN x\nPUT 2 IN x\nPUT 3 IN x\nPUT 4 IN x\n",
        most_input: 1000,
        most_image: 5000,
        most_checkpoint: 36,
        status: COMPLETE,
        said: "[1] ok\n[2] ok\n[3] ok\n[4] ok\n",
        size: 101,
    },
    // Units are put, replaced and dropped, before a checkpoint and after it.
    Bounded {
        words: &WORDS,
        input: "PUT 1 IN x\nHOW TO RETURN one: RETURN 1\nHOW TO NIL: PASS\nHOW TO RETURN one: RETURN 2\n-:NIL\nPUT 2 IN x\nWRITE one\n",
        most_input: 1000,
        most_image: 1000,
        most_checkpoint: 36,
        status: COMPLETE,
        said: "[1] ok\n[2] unit RETURN one\n[3] unit NIL\n[4] unit RETURN one\n[5] ok\n[6] ok\n2\n[7] ok\n",
        size: 449,
    },
    Bounded {
        words: &WORDS,
        input: "PUT 1 IN x\nPUT 2 IN x\nPUT 3 IN x\n",
        most_input: 1000,
        most_image: 138,
        most_checkpoint: 1048576,
        status: COMPLETE,
        said: "[1] ok\n[2] ok\n[3] fault line 1: StoreFull\n",
        size: 137,
    },
    Bounded {
        words: &WORDS,
        input: "PUT 1 IN x\nPUT 2 IN x\nPUT 3 IN x\nPUT 4 IN x\n",
        most_input: 1000,
        most_image: 173,
        most_checkpoint: 1048576,
        status: COMPLETE,
        said: "[1] ok\n[2] ok\n[3] ok\n[4] fault line 1: StoreFull\n",
        size: 173,
    },
    Bounded {
        words: &WORDS,
        input: "PUT 1 IN x\nPUT 2 IN x\n",
        most_input: 1000,
        most_image: 101,
        most_checkpoint: 1048576,
        status: COMPLETE,
        said: "[1] ok\n[2] fault line 1: StoreFull\n",
        size: 101,
    },
    Bounded {
        words: &["my.store", "--from", "f", "--steps", "9"],
        input: "WHILE 1 = 1:\n  PASS\n\nWRITE 1\n",
        most_input: 1000,
        most_image: 1000,
        most_checkpoint: 1000,
        status: COMPLETE,
        said: "[1] fault line 1: BudgetSpent\n1\n[2] ok\n",
        size: 65,
    },
    // The bounds of a made input are those of the product, and the host's own input and image are left alone.
    Bounded {
        words: &["--make", "3"],
        input: "WRITE 1\n",
        most_input: 1,
        most_image: 1,
        most_checkpoint: 1,
        status: COMPLETE,
        said: "made 3: items 6, ok 5, units 1, faults 0, said 60 bytes\n",
        size: 0,
    },
    Bounded {
        words: &["my.store", "--steps", "0"],
        input: "WRITE 1\n",
        most_input: 1000,
        most_image: 1000,
        most_checkpoint: 1000,
        status: USAGE,
        said: "",
        size: 0,
    },
    Bounded {
        words: &[],
        input: "WRITE 1\n",
        most_input: 1000,
        most_image: 1000,
        most_checkpoint: 1000,
        status: USAGE,
        said: "",
        size: 0,
    },
    Bounded {
        words: &["my.store", "other"],
        input: "WRITE 1\n",
        most_input: 1000,
        most_image: 1000,
        most_checkpoint: 1000,
        status: USAGE,
        said: "",
        size: 0,
    },
    Bounded {
        words: &["-store"],
        input: "WRITE 1\n",
        most_input: 1000,
        most_image: 1000,
        most_checkpoint: 1000,
        status: USAGE,
        said: "",
        size: 0,
    },
];

#[test]
fn words_and_bounds_are_kept_to(rt: HostRuntime) -> Result<(), Fail> {
    let alloc = rt.alloc();
    for row in &BOUNDED {
        let bounds = Bounds {
            input: row.most_input,
            image: row.most_image,
            checkpoint: row.most_checkpoint,
        };
        let left = ran(alloc, row.words, &[], row.input, &bounds)?;
        assert_eq!(rt; left.status, row.status, "{}", row.input);
        assert_eq!(rt; left.said.as_slice(), row.said.as_bytes(), "{}", row.input);
        assert_eq!(rt; left.image.len(), row.size, "{}", row.input);
    }
    Ok(())
}

struct Failing {
    name: &'static str,
    input: &'static str,
    kind: CallKind,
    n: u64,
    status: u8,
    said: &'static str,
    // what a second run says of the target x
    found: &'static str,
}

const NO_X: &str = "[1] fault line 1: Missing RETURN x\n";

const THREE_PUTS: &str = "PUT 1 IN x\nPUT 2 IN x\nPUT 3 IN x\n";

const FAILING: [Failing; 8] = [
    Failing {
        name: "the store cannot be chosen",
        input: THREE_PUTS,
        kind: CallKind::Choose,
        n: 1,
        status: STORE_FAULT,
        said: "",
        found: NO_X,
    },
    Failing {
        name: "the first read",
        input: THREE_PUTS,
        kind: CallKind::Read,
        n: 1,
        status: INPUT_FAULT,
        said: "",
        found: NO_X,
    },
    Failing {
        name: "the read that finds the end",
        input: THREE_PUTS,
        kind: CallKind::Read,
        n: 2,
        status: INPUT_FAULT,
        said: "[1] ok\n[2] ok\n[3] ok\n",
        found: "3\n[1] ok\n",
    },
    Failing {
        name: "a read within an item",
        input: "PUT 3 IN x\nREAD s RAW\n",
        kind: CallKind::Read,
        n: 2,
        status: INPUT_FAULT,
        said: "[1] ok\n",
        found: "3\n[1] ok\n",
    },
    Failing {
        name: "the second write of the third item",
        input: THREE_PUTS,
        kind: CallKind::WriteAt,
        n: 7,
        status: STORE_FAULT,
        said: "[1] ok\n[2] ok\n",
        found: "2\n[1] ok\n",
    },
    Failing {
        name: "the last sync",
        input: THREE_PUTS,
        kind: CallKind::Sync,
        n: 7,
        status: STORE_FAULT,
        said: "[1] ok\n[2] ok\n",
        found: "3\n[1] ok\n",
    },
    Failing {
        name: "the second reply",
        input: THREE_PUTS,
        kind: CallKind::Say,
        n: 8,
        status: SINK_FAULT,
        said: "[1] ok\n",
        found: "2\n[1] ok\n",
    },
    Failing {
        name: "the second byte of a reply",
        input: "WRITE 1\n",
        kind: CallKind::Say,
        n: 2,
        status: SINK_FAULT,
        said: "1",
        found: NO_X,
    },
];

// Each reply is said byte by byte, so the eighth call that says begins the second one.
#[test]
fn a_call_that_fails_ends_the_run(rt: HostRuntime) -> Result<(), Fail> {
    let alloc = rt.alloc();
    for row in &FAILING {
        let mut host = host_of(alloc, &[], row.input)?;
        host.say_at_most(1);
        host.fail_at(row.kind, row.n)?;
        assert_eq!(rt;
            run_within(alloc, &WORDS, &mut host, &BOUNDS),
            row.status,
            "{}",
            row.name
        );
        assert_eq!(rt; host.said(), row.said.as_bytes(), "{}", row.name);
        let again = ran(alloc, &WORDS, host.image(), "WRITE x\n", &BOUNDS)?;
        assert_eq!(rt; again.said.as_slice(), row.found.as_bytes(), "{}", row.name);
    }
    Ok(())
}

struct Payload {
    name: &'static str,
    bytes: &'static [u8],
    // so many letters more in the name, and the bytes of a number behind them
    letters: usize,
    status: u8,
}

const PAYLOADS: [Payload; 12] = [
    Payload {
        name: "no changes",
        bytes: &[0, 0, 0, 0],
        letters: 0,
        status: COMPLETE,
    },
    Payload {
        name: "the name of an operation, and -1",
        bytes: &[
            0, 0, 0, 1, 1, 0, 0, 0, 3, 0x6d, 0x69, 0x6e, 0, 255, 255, 255, 255, 255, 255, 255, 255,
            255, 255, 255, 255, 255, 255, 255, 255,
        ],
        letters: 0,
        status: COMPLETE,
    },
    // A unit that types fit, and one that no commit keeps.
    Payload {
        name: "a unit",
        bytes: b"\x00\x00\x00\x01\x03\x00\x00\x00\x01\x00\x00\x00\x00\x00\x00\x00\x1bHOW TO RETURN one: RETURN 1",
        letters: 0,
        status: COMPLETE,
    },
    Payload {
        name: "a unit that no types fit",
        bytes: b"\x00\x00\x00\x01\x03\x00\x00\x00\x01\x00\x00\x00\x00\x00\x00\x00\x1fHOW TO RETURN one: RETURN 1+\"a\"",
        letters: 0,
        status: NOT_A_STORE,
    },
    Payload {
        name: "no count",
        bytes: &[0, 0, 0],
        letters: 0,
        status: NOT_A_STORE,
    },
    Payload {
        name: "fewer changes than their count",
        bytes: &[0, 0, 0, 1],
        letters: 0,
        status: NOT_A_STORE,
    },
    Payload {
        name: "a byte behind the changes",
        bytes: &[0, 0, 0, 0, 0],
        letters: 0,
        status: NOT_A_STORE,
    },
    Payload {
        name: "-2^127",
        bytes: &[
            0, 0, 0, 1, 1, 0, 0, 0, 1, 0x78, 0, 128, 0, 0, 0, 0, 0, 0, 0, 0, 0, 0, 0, 0, 0, 0, 0,
        ],
        letters: 0,
        status: NOT_A_STORE,
    },
    Payload {
        name: "a capital in the name",
        bytes: &[
            0, 0, 0, 1, 1, 0, 0, 0, 1, 0x58, 0, 0, 0, 0, 0, 0, 0, 0, 0, 0, 0, 0, 0, 0, 0, 0, 0,
        ],
        letters: 0,
        status: NOT_A_STORE,
    },
    Payload {
        name: "a value of another kind",
        bytes: &[
            0, 0, 0, 1, 1, 0, 0, 0, 1, 0x78, 1, 0, 0, 0, 0, 0, 0, 0, 0, 0, 0, 0, 0, 0, 0, 0, 0,
        ],
        letters: 0,
        status: NOT_A_STORE,
    },
    Payload {
        name: "a name as long as a line may be",
        bytes: &[0, 0, 0, 1, 1, 0, 0, 0x10, 0],
        letters: 4_096,
        status: COMPLETE,
    },
    Payload {
        name: "a longer one",
        bytes: &[0, 0, 0, 1, 1, 0, 0, 0x10, 1],
        letters: 4_097,
        status: NOT_A_STORE,
    },
];

/// A store whose only record has the payload of the row.
fn store_of_row(alloc: Global, row: &Payload) -> Result<Vec<u8>, AllocError> {
    let mut payload = row.bytes.to_vec(alloc)?;
    if row.letters > 0 {
        payload.resize(payload.len().saturating_add(row.letters), b'a')?;
        payload.resize(payload.len().saturating_add(17), 0)?;
    }
    store_of_payload(alloc, &payload)
}

#[test]
fn a_payload_is_spelled_or_the_image_is_no_store(rt: HostRuntime) -> Result<(), Fail> {
    let alloc = rt.alloc();
    for row in &PAYLOADS {
        let image = store_of_row(alloc, row)?;
        let left = ran(alloc, &WORDS, &image, "", &BOUNDS)?;
        assert_eq!(rt; left.status, row.status, "{}", row.name);
        assert_eq!(rt; left.image, image, "{}", row.name);
    }
    Ok(())
}

#[test]
fn what_stands_in_the_store(rt: HostRuntime) -> Result<(), Fail> {
    let alloc = rt.alloc();
    let fresh = store_of(alloc, &NO_RECORDS)?;
    for size in [0, 1, 64, 65] {
        let left = ran(alloc, &WORDS, &[255; 65][..size], "", &BOUNDS)?;
        assert_eq!(rt; left.image, fresh);
    }
    let other = ran(alloc, &WORDS, &[0; 66], "WRITE 1\n", &BOUNDS)?;
    assert_eq!(rt; other.status, NOT_A_STORE);
    assert_eq!(rt; other.said.len(), 0);
    assert_eq!(rt; other.image.as_slice(), [0; 66].as_slice());
    let put = ran(alloc, &WORDS, &[], "PUT 1 IN x\n", &BOUNDS)?;
    assert_eq!(rt; put.image, store_of(alloc, &PUT_1_IN_X)?);
    let again = ran(alloc, &WORDS, &put.image, "WRITE x\n", &BOUNDS)?;
    assert_eq!(rt; again.said.as_slice(), "1\n[1] ok\n".as_bytes());
    assert_eq!(rt; again.image, put.image);
    Ok(())
}

// The second call that says fails.
#[test]
fn a_summary_is_cut_short(rt: HostRuntime) -> Result<(), Fail> {
    let mut host = host_of(rt.alloc(), &[0; 66], "WRITE 1\n")?;
    host.say_at_most(4);
    host.fail_at(CallKind::Say, 2)?;
    let status = run(rt.alloc(), &["--make", "2", "--steps", "1"], &mut host);
    assert_eq!(rt; status, SINK_FAULT);
    assert_eq!(rt; host.said(), "made".as_bytes());
    assert_eq!(rt; host.image(), [0; 66].as_slice());
    Ok(())
}

/// Runs over the files run.store and run.input, the second with these bytes.
fn ran_on_files(rt: HostRuntime, input: &str) -> Result<u8, Fail> {
    fs::write(&rt, "run.input", input)?;
    let words = ["run.store", "--from", "run.input"];
    Ok(run(rt.alloc(), &words, &mut RealHost::new(rt)))
}

#[test]
fn files_keep_the_workspace(rt: HostRuntime) -> Result<(), Fail> {
    let _ = fs::remove_file(&rt, "run.store");
    for input in ["PUT 41 IN x\nWRITE x\n", "WRITE x\n"] {
        assert_eq!(rt; ran_on_files(rt, input)?, COMPLETE);
        assert_eq!(rt; fs::read(&rt, "run.store")?.len(), 101);
    }
    fs::remove_file(&rt, "run.store")?;
    fs::remove_file(&rt, "run.input")?;
    Ok(())
}
