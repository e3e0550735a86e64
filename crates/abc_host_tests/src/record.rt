//! Records from an independent program: each is read and written again, or is wrong at its place.
use abc_record::{RecordFault, read_changes, size_of, write_changes};
use std::alloc::{AllocError, Global};
use std::test::Fail;

/// A target is set to a compound with a value of each kind, a target is dropped, a unit is set, and a unit is dropped.
const EACH_TAG: [u8; 177] = [
    0, 0, 0, 4, 1, 0, 0, 0, 4, 97, 46, 98, 49, 3, 0, 0, 0, 6, 0, 255, 255, 255, 255, 255, 255, 255,
    255, 255, 255, 255, 255, 255, 255, 255, 255, 1, 255, 255, 255, 255, 255, 255, 255, 255, 0, 0,
    0, 0, 0, 0, 0, 2, 2, 0, 0, 0, 2, 104, 105, 4, 0, 0, 0, 2, 0, 0, 0, 0, 0, 0, 0, 0, 0, 0, 0, 0,
    0, 0, 0, 0, 1, 0, 0, 0, 0, 0, 0, 0, 0, 0, 0, 0, 0, 0, 0, 0, 0, 2, 5, 0, 0, 0, 1, 2, 0, 0, 0, 1,
    107, 0, 0, 0, 0, 0, 0, 0, 0, 0, 0, 0, 0, 0, 0, 0, 0, 3, 4, 0, 0, 0, 0, 2, 0, 0, 0, 1, 98, 3, 0,
    0, 0, 2, 0, 0, 0, 0, 0, 0, 0, 9, 72, 79, 87, 32, 84, 79, 32, 70, 58, 0, 0, 0, 2, 0, 0, 0, 4,
    80, 65, 83, 83, 4, 0, 0, 0, 1, 70,
];

/// Bytes that are no record, and the place where they are wrong.
struct Wrong {
    name: &'static str,
    bytes: &'static [u8],
    at: usize,
}

const WRONG: [Wrong; 17] = [
    Wrong {
        name: "there is no count",
        bytes: &[0, 0, 0],
        at: 0,
    },
    Wrong {
        name: "a byte behind the last change",
        bytes: &[0, 0, 0, 0, 9],
        at: 4,
    },
    Wrong {
        name: "more changes are counted than there are",
        bytes: &[255, 255, 255, 255, 2, 0, 0, 0, 1, 98],
        at: 10,
    },
    Wrong {
        name: "a great count",
        bytes: &[128, 0, 0, 0],
        at: 4,
    },
    Wrong {
        name: "-2^127",
        bytes: &[
            0, 0, 0, 1, 1, 0, 0, 0, 1, 97, 0, 128, 0, 0, 0, 0, 0, 0, 0, 0, 0, 0, 0, 0, 0, 0, 0,
        ],
        at: 4,
    },
    Wrong {
        name: "2 / 4",
        bytes: &[
            0, 0, 0, 1, 1, 0, 0, 0, 1, 97, 1, 0, 0, 0, 0, 0, 0, 0, 2, 0, 0, 0, 0, 0, 0, 0, 4,
        ],
        at: 4,
    },
    Wrong {
        name: "2 / 1",
        bytes: &[
            0, 0, 0, 1, 1, 0, 0, 0, 1, 97, 1, 0, 0, 0, 0, 0, 0, 0, 2, 0, 0, 0, 0, 0, 0, 0, 1,
        ],
        at: 4,
    },
    Wrong {
        name: "the byte 127",
        bytes: &[0, 0, 0, 1, 1, 0, 0, 0, 1, 97, 2, 0, 0, 0, 1, 127],
        at: 4,
    },
    Wrong {
        name: "2 before 1",
        bytes: &[
            0, 0, 0, 1, 1, 0, 0, 0, 1, 97, 4, 0, 0, 0, 2, 0, 0, 0, 0, 0, 0, 0, 0, 0, 0, 0, 0, 0, 0,
            0, 0, 2, 0, 0, 0, 0, 0, 0, 0, 0, 0, 0, 0, 0, 0, 0, 0, 0, 1,
        ],
        at: 4,
    },
    Wrong {
        name: "one field",
        bytes: &[
            0, 0, 0, 1, 1, 0, 0, 0, 1, 97, 3, 0, 0, 0, 1, 0, 0, 0, 0, 0, 0, 0, 0, 0, 0, 0, 0, 0, 0,
            0, 0, 1,
        ],
        at: 4,
    },
    Wrong {
        name: "a table without pairs",
        bytes: &[0, 0, 0, 1, 1, 0, 0, 0, 1, 97, 5, 0, 0, 0, 0],
        at: 4,
    },
    Wrong {
        name: "no such value",
        bytes: &[0, 0, 0, 1, 1, 0, 0, 0, 1, 97, 6],
        at: 4,
    },
    Wrong {
        name: "the second name is a keyword",
        bytes: &[0, 0, 0, 2, 2, 0, 0, 0, 1, 98, 2, 0, 0, 0, 1, 66],
        at: 10,
    },
    Wrong {
        name: "a text longer than the bytes",
        bytes: &[0, 0, 0, 1, 4, 255, 255, 255, 255, 70],
        at: 4,
    },
    Wrong {
        name: "a line with a space in front",
        bytes: &[0, 0, 0, 1, 3, 0, 0, 0, 1, 0, 0, 0, 0, 0, 0, 0, 1, 32],
        at: 4,
    },
    Wrong {
        name: "no lines",
        bytes: &[0, 0, 0, 1, 3, 0, 0, 0, 0],
        at: 4,
    },
    Wrong {
        name: "a key twice",
        bytes: &[
            0, 0, 0, 1, 1, 0, 0, 0, 1, 97, 5, 0, 0, 0, 2, 0, 0, 0, 0, 0, 0, 0, 0, 0, 0, 0, 0, 0, 0,
            0, 0, 1, 0, 0, 0, 0, 0, 0, 0, 0, 0, 0, 0, 0, 0, 0, 0, 0, 1, 0, 0, 0, 0, 0, 0, 0, 0, 0,
            0, 0, 0, 0, 0, 0, 0, 1, 0, 0, 0, 0, 0, 0, 0, 0, 0, 0, 0, 0, 0, 0, 0, 0, 1,
        ],
        at: 4,
    },
];

/// The bytes of what the bytes spell.
fn written_again(alloc: Global, bytes: &[u8]) -> Result<Vec<u8>, RecordFault> {
    let changes = read_changes(alloc, bytes)?;
    Ok(write_changes(alloc, &changes)?)
}

/// Where the bytes are wrong, if they are.
fn wrong_at(alloc: Global, bytes: &[u8]) -> Option<usize> {
    match read_changes(alloc, bytes) {
        Err(RecordFault::BadRecord { at }) => Some(at),
        _ => None,
    }
}

/// A target is set to lists in lists, so many round an empty one.
fn nested(alloc: Global, levels: usize) -> Result<Vec<u8>, AllocError> {
    let mut bytes = vec![in alloc; 0, 0, 0, 1, 1, 0, 0, 0, 1, b'a']?;
    for _ in 0..levels {
        bytes.extend_from_slice(&[4, 0, 0, 0, 1])?;
    }
    bytes.extend_from_slice(&[4, 0, 0, 0, 0])?;
    Ok(bytes)
}

#[test]
fn each_tag_is_read_and_written(rt: HostRuntime) -> Result<(), Fail> {
    let again = written_again(rt.alloc(), &EACH_TAG)
        .ok()
        .ok_or("the bytes are a record")?;
    assert_eq!(rt; again.as_slice(), EACH_TAG.as_slice());
    Ok(())
}

#[test]
fn size_is_that_of_the_bytes(rt: HostRuntime) -> Result<(), Fail> {
    let changes = read_changes(rt.alloc(), &EACH_TAG)
        .ok()
        .ok_or("the bytes are a record")?;
    assert_eq!(rt; size_of(&changes), 177);
    Ok(())
}

#[test]
fn wrong_bytes_are_refused_at_their_place(rt: HostRuntime) {
    for wrong in &WRONG {
        let at = wrong_at(rt.alloc(), wrong.bytes);
        assert_eq!(rt; at, Some(wrong.at), "{}", wrong.name);
    }
}

#[test]
fn values_have_at_most_200_levels(rt: HostRuntime) -> Result<(), Fail> {
    assert_eq!(rt; wrong_at(rt.alloc(), &nested(rt.alloc(), 200)?), None);
    assert_eq!(rt; wrong_at(rt.alloc(), &nested(rt.alloc(), 201)?), Some(4));
    Ok(())
}
