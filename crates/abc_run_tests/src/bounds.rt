//! Runs that meet a bound: of the input, of the image, of targets and units, of values, and of what an item may write.
use crate::runs::{AMPLE, Remains, push_number, ran};
use abc_journal::Bounds;
use abc_journal::format::FRESH_IMAGE;
use abc_num::limits::{MOST_OUTPUT, MOST_TARGETS, MOST_UNITS};
use abc_session::{COMPLETE, INPUT_TOO_LONG, NOT_A_STORE};
use std::alloc::{AllocError, Global};
use std::test::Fail;

struct Bounded {
    input: &'static [u8],
    most_input: u64,
    most_image: u64,
    checkpoint: u64,
    status: u8,
    said: &'static str,
    size: usize,
    /// What a second run says of the target x.
    found: &'static str,
}

const BOUNDED: [Bounded; 4] = [
    Bounded {
        input: b"PASS\nWRITE 1\n",
        most_input: 8,
        most_image: 5000,
        checkpoint: 5000,
        status: INPUT_TOO_LONG,
        said: "[1] ok\n",
        size: 65,
        found: "[1] fault line 1: NoTarget\n",
    },
    Bounded {
        input: b"PUT 1 IN x\nPUT 2 IN x\nPUT 3 IN x\n",
        most_input: 5000,
        most_image: 138,
        checkpoint: 1_048_576,
        status: COMPLETE,
        said: "[1] ok\n[2] ok\n[3] fault line 1: StoreFull\n",
        size: 137,
        found: "2\n[1] ok\n",
    },
    Bounded {
        input: b"PUT 1 IN x\nPUT 2 IN x\nPUT 3 IN x\nPUT 4 IN x\n",
        most_input: 5000,
        most_image: 173,
        checkpoint: 1_048_576,
        status: COMPLETE,
        said: "[1] ok\n[2] ok\n[3] ok\n[4] fault line 1: StoreFull\n",
        size: 173,
        found: "3\n[1] ok\n",
    },
    Bounded {
        input: b"PUT 1 IN x\nPUT 2 IN x\nPUT 3 IN x\nPUT 4 IN x\n",
        most_input: 5000,
        most_image: 5000,
        checkpoint: 36,
        status: COMPLETE,
        said: "[1] ok\n[2] ok\n[3] ok\n[4] ok\n",
        size: 101,
        found: "4\n[1] ok\n",
    },
];

#[test]
fn bounds_are_kept_to(rt: HostRuntime) -> Result<(), Fail> {
    let alloc = rt.alloc();
    for row in &BOUNDED {
        let bounds = Bounds {
            input: row.most_input,
            image: row.most_image,
            checkpoint: row.checkpoint,
        };
        let left = ran(alloc, &[], row.input, &bounds)?;
        assert_eq!(rt; left.status, row.status, "{}", row.said);
        assert_eq!(rt; left.said.as_slice(), row.said.as_bytes(), "{}", row.said);
        assert_eq!(rt; left.image.len(), row.size, "{}", row.said);
        let again = ran(alloc, &left.image, b"=x\n", &AMPLE)?;
        assert_eq!(rt; again.said.as_slice(), row.found.as_bytes(), "{}", row.said);
    }
    Ok(())
}

/// Adds the change that sets the target `t` with number `n` behind it to 0.
fn push_target(payload: &mut Vec<u8>, n: u32) -> Result<(), AllocError> {
    payload.extend_from_slice(&[1, 0, 0, 0, 5, b't'])?;
    push_number(payload, n)?;
    payload.extend_from_slice(&[0; 17])?;
    Ok(())
}

/// Adds the change that sets the unit `T` with number `n` behind it, which does nothing.
fn push_unit(payload: &mut Vec<u8>, n: u32) -> Result<(), AllocError> {
    payload.extend_from_slice(&[3, 0, 0, 0, 1, 0, 0, 0, 0, 0, 0, 0, 18])?;
    payload.extend_from_slice(b"HOW TO T")?;
    push_number(payload, n)?;
    payload.extend_from_slice(b": PASS")?;
    Ok(())
}

/// The changes that set so many targets, each with a number of four digits.
fn targets(alloc: Global, count: u32) -> Result<Vec<u8>, AllocError> {
    let mut payload = Vec::from_slice(alloc, &count.to_be_bytes())?;
    for n in 0..count {
        push_target(&mut payload, n.saturating_add(1000))?;
    }
    Ok(payload)
}

/// The changes that set so many units.
fn units(alloc: Global, count: u32) -> Result<Vec<u8>, AllocError> {
    let mut payload = Vec::from_slice(alloc, &count.to_be_bytes())?;
    for n in 0..count {
        push_unit(&mut payload, n.saturating_add(1000))?;
    }
    Ok(payload)
}

/// A store of one record with these changes.
fn store_of(alloc: Global, payload: &[u8]) -> Result<Vec<u8>, AllocError> {
    let mut image = FRESH_IMAGE.to_vec(alloc)?;
    image.resize(64, 0)?;
    image.push(1)?;
    image.extend_from_slice(&(payload.len() as u64).to_be_bytes())?;
    image.extend_from_slice(payload)?;
    image.push(0)?;
    Ok(image)
}

#[test]
fn so_many_targets_and_no_more(rt: HostRuntime) -> Result<(), Fail> {
    let alloc = rt.alloc();
    let most = store_of(alloc, &targets(alloc, MOST_TARGETS as u32)?)?;
    let left = ran(
        alloc,
        &most,
        b"PUT 1 IN x\nPUT 1 IN t1000\nWRITE t1000\n",
        &AMPLE,
    )?;
    assert_eq!(rt;
        left.said.as_slice(),
        "[1] fault line 1: TooManyTargets\n[2] ok\n1\n[3] ok\n".as_bytes()
    );
    let more = store_of(alloc, &targets(alloc, MOST_TARGETS as u32 + 1)?)?;
    assert_eq!(rt; ran(alloc, &more, &[], &AMPLE)?.status, NOT_A_STORE);
    Ok(())
}

#[test]
fn so_many_units_and_no_more(rt: HostRuntime) -> Result<(), Fail> {
    let alloc = rt.alloc();
    let most = store_of(alloc, &units(alloc, MOST_UNITS as u32)?)?;
    let left = ran(
        alloc,
        &most,
        b"HOW TO X: PASS\nHOW TO T1000: PASS\nT1000\n",
        &AMPLE,
    )?;
    assert_eq!(rt;
        left.said.as_slice(),
        "[1] fault line 1: TooManyUnits\n[2] unit T1000\n[3] ok\n".as_bytes()
    );
    let more = store_of(alloc, &units(alloc, MOST_UNITS as u32 + 1)?)?;
    assert_eq!(rt; ran(alloc, &more, &[], &AMPLE)?.status, NOT_A_STORE);
    Ok(())
}

/// The runs of one input over a fresh store.
fn ran_fresh(rt: HostRuntime, input: &[u8]) -> Result<Remains, AllocError> {
    ran(rt.alloc(), &[], input, &AMPLE)
}

/// A table of 255 texts of 2^20 characters is within the bound on sizes, one of 256 isn't.
#[test]
fn a_value_may_be_too_large(rt: HostRuntime) -> Result<(), Fail> {
    let input =
        b"IF 1 = 1:\n  PUT \"a\"^^1048576 IN t\n  PUT {} IN l\n  FOR i IN {1..255}: PUT t IN l[i]\n  WRITE #l\n  PUT t IN l[256]\n";
    let left = ran_fresh(rt, input)?;
    assert_eq!(rt;
        left.said.as_slice(),
        "255\n[1] fault line 6: TooLarge\n".as_bytes()
    );
    assert_eq!(rt; left.image.len(), 65);
    Ok(())
}

/// An item writes 2^24 bytes, and another one more than that, of which the last is not said.
#[test]
fn an_item_writes_so_much_and_no_more(rt: HostRuntime) -> Result<(), Fail> {
    let exact = ran_fresh(rt, b"FOR i IN {1..16}: WRITE \"a\"^^1048576\n")?;
    assert_eq!(rt; exact.said.len(), MOST_OUTPUT + 8);
    assert!(rt; exact.said.ends_with(b"a\n[1] ok\n"));
    let more = ran_fresh(
        rt,
        b"IF 1 = 1:\n  FOR i IN {1..16}: WRITE \"a\"^^1048576\n  WRITE 1\n",
    )?;
    assert_eq!(rt; more.said.len(), MOST_OUTPUT + 27);
    assert!(rt; more.said.ends_with(b"a\n[1] fault line 3: TooLong\n"));
    Ok(())
}
