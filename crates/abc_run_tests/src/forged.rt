//! Images that nobody's run left: what opening them answers, and that a run leaves them alone.
use crate::runs::{AMPLE, host_of, ran};
use abc_journal::BeginFault;
use abc_journal::format::FRESH_IMAGE;
use abc_session::{COMPLETE, NOT_A_STORE};
use abc_store::Store;
use std::alloc::{AllocError, Global};
use std::test::Fail;

/// The record of `PUT 41 IN x`, from its gate to the closing one.
const PUT_41_IN_X: [u8; 37] = [
    1, 0, 0, 0, 0, 0, 0, 0, 27, 0, 0, 0, 1, 1, 0, 0, 0, 1, 0x78, 0, 0, 0, 0, 0, 0, 0, 0, 0, 0, 0,
    0, 0, 0, 0, 0, 41, 0,
];

/// A record that sets the unit `HOW TO BAD:`, whose third line fits no types.
const BAD_UNIT: &[u8] =
    b"\x01\x00\x00\x00\x00\x00\x00\x00\x40\x00\x00\x00\x01\x03\x00\x00\x00\x03\x00\x00\x00\x00\x00\x00\x00\x0bHOW TO BAD:\x00\x00\x00\x02\x00\x00\x00\x09IF 1 = 2:\x00\x00\x00\x04\x00\x00\x00\x0bWRITE 1^\"a\"\x00";

struct Forged {
    name: &'static str,
    record: &'static [u8],
    size: usize,
    /// These bytes at these places.
    bytes: &'static [(usize, u8)],
    /// The place of what is wrong, if it doesn't open.
    wrong_at: Option<u64>,
}

const FORGED: [Forged; 9] = [
    Forged {
        name: "fresh, and a byte more",
        record: &[0],
        size: 66,
        bytes: &[(65, 9)],
        wrong_at: None,
    },
    Forged {
        name: "the magic alone",
        record: &[0],
        size: 66,
        bytes: &[(8, 0), (16, 0), (24, 0)],
        wrong_at: Some(8),
    },
    Forged {
        name: "a slot that starts within the head",
        record: &[0],
        size: 66,
        bytes: &[(24, 63), (65, 9)],
        wrong_at: Some(63),
    },
    Forged {
        name: "an open gate with no record behind it",
        record: &[0],
        size: 66,
        bytes: &[(64, 1), (65, 9)],
        wrong_at: Some(64),
    },
    Forged {
        name: "a record",
        record: &PUT_41_IN_X,
        size: 101,
        bytes: &[],
        wrong_at: None,
    },
    Forged {
        name: "a change of no kind",
        record: &PUT_41_IN_X,
        size: 101,
        bytes: &[(77, 9)],
        wrong_at: Some(64),
    },
    Forged {
        name: "a record without a closing gate",
        record: &PUT_41_IN_X,
        size: 100,
        bytes: &[],
        wrong_at: Some(100),
    },
    Forged {
        name: "-2^127",
        record: &PUT_41_IN_X,
        size: 101,
        bytes: &[(84, 128), (99, 0)],
        wrong_at: Some(64),
    },
    Forged {
        name: "a unit that no types fit",
        record: BAD_UNIT,
        size: 138,
        bytes: &[],
        wrong_at: Some(64),
    },
];

/// The head of a fresh store with this record, cut or lengthened to a size, with some bytes changed.
fn image_of(alloc: Global, row: &Forged) -> Result<Vec<u8>, AllocError> {
    let mut image = FRESH_IMAGE.to_vec(alloc)?;
    image.resize(64, 0)?;
    image.extend_from_slice(row.record)?;
    image.resize(row.size, 0)?;
    for (place, byte) in row.bytes {
        if let Some(at) = image.get_mut(*place) {
            *at = *byte;
        }
    }
    Ok(image)
}

/// The place of what is wrong with an image, if it doesn't open.
fn wrong_at(alloc: Global, image: &[u8]) -> Result<Option<u64>, AllocError> {
    let mut host = host_of(alloc, image, &[])?;
    match Store::begin(alloc, &mut host, &AMPLE) {
        Ok(_store) => Ok(None),
        Err(BeginFault::NotAStore { at }) => Ok(Some(at)),
        Err(BeginFault::Memory | BeginFault::StoreFault) => Err(AllocError),
    }
}

fn status_of(wrong_at: Option<u64>) -> u8 {
    match wrong_at {
        None => COMPLETE,
        Some(_) => NOT_A_STORE,
    }
}

#[test]
fn a_forged_image_opens_or_is_wrong_at_a_place(rt: HostRuntime) -> Result<(), Fail> {
    let alloc = rt.alloc();
    for row in &FORGED {
        let image = image_of(alloc, row)?;
        let found = wrong_at(alloc, &image)?;
        assert_eq!(rt; found, row.wrong_at, "{}", row.name);
        let left = ran(alloc, &image, &[], &AMPLE)?;
        assert_eq!(rt; left.status, status_of(found), "{}", row.name);
        assert_eq!(rt; left.said.len(), 0, "{}", row.name);
        assert_eq!(rt; left.image, image, "{}", row.name);
    }
    Ok(())
}
