//! A telephone list, with each call of each kind failing once: the status, what is said, and what a second run finds.
use crate::runs::{WORDS, host_of, ran};
use abc_journal::Bounds;
use abc_outside::CallKind;
use abc_session::{COMPLETE, INPUT_FAULT, SINK_FAULT, STORE_FAULT, run_within};
use std::alloc::Global;
use std::process::Abort;
use std::test::Fail;

const INPUT: &[u8] =
    b"PUT {} IN tel\nPUT 4141 IN tel[\"Jack\"]\nPUT 6224 IN tel[\"Jane\"]\nHOW TO LIST:\n  SHARE tel\n  FOR name IN keys tel:\n    ENTRY\nENTRY:\n  WRITE name<<8, tel[name]>>6 /\nLIST\nWRITE #tel\n";

/// What is said to its items.
const REPLIES: [&str; 6] = [
    "[1] ok\n",
    "[2] ok\n",
    "[3] ok\n",
    "[4] unit LIST\n",
    "Jack       4141\nJane       6224\n[5] ok\n",
    "2\n[6] ok\n",
];

/// Asks for the workspace.
const QUESTIONS: &[u8] = b"=tel\n::\n";

/// What is said to that after so many items.
const FOUND: [&str; 7] = [
    "[1] fault line 1: NoTarget\n[2] ok\n",
    "{}\n[1] ok\n[2] ok\n",
    "{[\"Jack\"]: 4141}\n[1] ok\n[2] ok\n",
    "{[\"Jack\"]: 4141; [\"Jane\"]: 6224}\n[1] ok\n[2] ok\n",
    "{[\"Jack\"]: 4141; [\"Jane\"]: 6224}\n[1] ok\nLIST\n[2] ok\n",
    "{[\"Jack\"]: 4141; [\"Jane\"]: 6224}\n[1] ok\nLIST\n[2] ok\n",
    "{[\"Jack\"]: 4141; [\"Jane\"]: 6224}\n[1] ok\nLIST\n[2] ok\n",
];

/// Each kind of call, and the status where one fails.
const KINDS: [(CallKind, u8); 8] = [
    (CallKind::Choose, STORE_FAULT),
    (CallKind::Read, INPUT_FAULT),
    (CallKind::Size, STORE_FAULT),
    (CallKind::ReadAt, STORE_FAULT),
    (CallKind::WriteAt, STORE_FAULT),
    (CallKind::Cut, STORE_FAULT),
    (CallKind::Sync, STORE_FAULT),
    (CallKind::Say, SINK_FAULT),
];

/// No checkpoint is taken, or one as soon as it may be.
const CHECKPOINTS: [u64; 2] = [5000, 36];

/// How many replies were said whole, and of how many a byte was said, where all bytes said are theirs.
fn heard(said: &[u8]) -> Option<(usize, usize)> {
    let mut rest = said;
    for (count, reply) in REPLIES.iter().enumerate() {
        if rest.is_empty() {
            return Some((count, count));
        }
        match rest.strip_prefix(reply.as_bytes()) {
            Some(behind) => rest = behind,
            None if reply.as_bytes().starts_with(rest) => return Some((
                count,
                count.saturating_add(1),
            )),
            None => return None,
        }
    }
    if rest.is_empty() { Some((6, 6)) } else { None }
}

/// Whether a second run finds the workspace after some number of items that is permitted.
fn is_found(found: &[u8], least: usize, most: usize) -> bool {
    FOUND.iter().enumerate().any(|(count, reply)| least <= count
        && count <= most
        && reply.as_bytes() == found)
}

/// Runs where call `n` of a kind fails: whether it failed at all.
fn fails(
    rt: &impl Abort,
    alloc: Global,
    bounds: &Bounds,
    image: &[u8],
    kind: CallKind,
    status: u8,
    n: u64,
) -> Result<bool, Fail> {
    let mut host = host_of(alloc, image, INPUT)?;
    host.say_at_most(5);
    host.fail_at(kind, n)?;
    let ended = run_within(alloc, &WORDS, &mut host, bounds);
    let Some((whole, begun)) = heard(host.said()) else {
        assert!(rt; false, "what is said is no front of the replies");
        return Ok(false);
    };
    let again = ran(alloc, host.image(), QUESTIONS, bounds)?;
    assert!(rt;
        is_found(&again.said, begun, whole.saturating_add(1)),
        "the workspace of no such items"
    );
    assert_eq!(rt; again.status, COMPLETE);
    if ended == COMPLETE {
        assert_eq!(rt; whole, 6);
        return Ok(false);
    }
    assert_eq!(rt; ended, status);
    Ok(true)
}

/// Lets the calls of a kind fail one after the other, until a run meets no failure: how many failed.
fn each_fails(
    rt: &impl Abort,
    alloc: Global,
    bounds: &Bounds,
    image: &[u8],
    kind: CallKind,
    status: u8,
) -> Result<u64, Fail> {
    for n in 1..1000u64 {
        if !fails(rt, alloc, bounds, image, kind, status, n)? {
            return Ok(n.saturating_sub(1));
        }
    }
    Ok(1000)
}

/// Lets the calls of all kinds fail in turn.
fn all_fail(rt: &impl Abort, alloc: Global, image: &[u8], checkpoint: u64) -> Result<(), Fail> {
    let bounds = Bounds {
        input: 5000,
        image: 5000,
        checkpoint,
    };
    for (kind, status) in &KINDS {
        let failed = each_fails(rt, alloc, &bounds, image, *kind, *status)?;
        assert!(rt; failed < 1000);
        assert!(rt; 0 < failed || *kind == CallKind::Cut || *kind == CallKind::ReadAt);
    }
    Ok(())
}

#[test]
fn each_call_fails_over_a_fresh_store(rt: HostRuntime) -> Result<(), Fail> {
    for checkpoint in CHECKPOINTS {
        all_fail(&rt, rt.alloc(), &[], checkpoint)?;
    }
    Ok(())
}

#[test]
fn each_call_fails_over_a_store_with_records(rt: HostRuntime) -> Result<(), Fail> {
    for checkpoint in CHECKPOINTS {
        let bounds = Bounds {
            input: 5000,
            image: 5000,
            checkpoint,
        };
        let before = ran(rt.alloc(), &[], b"PUT 1 IN x\nPUT 2 IN x\n", &bounds)?;
        assert_eq!(rt; before.status, COMPLETE);
        all_fail(&rt, rt.alloc(), &before.image, checkpoint)?;
    }
    Ok(())
}
