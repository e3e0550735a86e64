//! What an item changed, kept in the store.
ghost use Rattle.std.specs.Prelude.{◌≡◌, ◌≤◌, ◌+◌, ◌++◌, List, length, IsTrue, IfOk, OnOk, Some, vec_len, vec_capacity, codes};
ghost use Rattle.abc_num.specs.declared.lines.RawLine.{RawLine};
ghost use Rattle.abc_record.specs.Kept.{AreKept};
ghost use Rattle.abc_store.specs.Commit.{Holds, stored};
ghost use Rattle.abc_store.specs.View.{work_of};
ghost use Rattle.abc_store.specs.Workspace.{Workspace, changed_by, with_targets, IsWithinLimits, IsWellTyped};
ghost use Rattle.abc_outcome.specs.Checks.{IsUpToDate};
ghost use Rattle.abc_outcome.specs.Outcome.{kept_outcome, on_stored};
ghost use Rattle.abc_outcome.specs.Reply.{ended as ended_in, fault_line as faulty, ok_line as ok};
ghost use Rattle.abc_outcome.specs.inner.Settling.{Settles};
ghost use Rattle.abc_outcome.specs.inner.Steps.{Closes};

use crate::checks::targets_fit;
use crate::replies::{ended, fault_line, ok_line, refusal};
use crate::spelled::have_spelling;
use crate::{Answer, AnswerFault};
use abc_check::Checker;
use abc_frames::Targets;
use abc_num::limits::MOST_TARGETS;
use abc_num::{OutOfMemory, Text};
use abc_outside::Host;
use abc_record::Change;
use abc_store::{CommitFault, Store};
use std::alloc::Global;

/// What an item wrote, the reply line that it says behind it where its changes are kept, and whether it then quits.
#[derive(Drop)]
pub(crate) struct Ending {
    pub(crate) output: Vec<u8>,
    pub(crate) line: Vec<u8>,
    pub(crate) quit: bool,
}

/// The replies that may come of a commit, all made up before it: what the item wrote, with room behind it for each of the lines.
#[derive(Drop)]
struct Replies {
    written: Vec<u8>,
    kept: Vec<u8>,
    full: Vec<u8>,
    large: Vec<u8>,
    ghost kept_fits: { vec_len written + vec_len kept ≤ vec_capacity written },
    ghost full_fits: { vec_len written + vec_len full ≤ vec_capacity written },
    ghost large_fits: { vec_len written + vec_len large ≤ vec_capacity written },
}

impl Replies {
    /// The replies of item `k`, which wrote this, and which says `kept` where its changes are kept.
    fn new(alloc: Global, output: Vec<u8>, kept: Vec<u8>, k: u64) -> Result<Replies, OutOfMemory>
        ensures written { IfOk result (λ r. r.written.items ≡ ended_in output.items) }
        ensures kept { IfOk result (λ r. r.kept.items ≡ kept.items) }
        ensures full { IfOk result (λ r. r.full.items ≡ faulty k 1 (codes "StoreFull")) }
        ensures large { IfOk result (λ r. r.large.items ≡ faulty k 1 (codes "TooLarge")) }
    {
        let mut written = ended(output)?;
        let full = fault_line(alloc, k, 1, "StoreFull")?;
        let large = fault_line(alloc, k, 1, "TooLarge")?;
        written.reserve(kept.len().max(full.len()).max(large.len()))?;
        Ok(Replies {
            written,
            kept,
            full,
            large,
        })
    }

    /// What is answered after this commit. An item that isn't kept doesn't quit.
    fn told(self, committed: Result<(), CommitFault>, quit: bool) -> Result<Answer, AnswerFault>
        ensures { Closes self.written.items self.kept.items self.full.items self.large.items quit committed result }
    {
        let Replies {
            written,
            kept,
            full,
            large,
        } = self;
        match committed {
            Ok(()) => Ok(closed(written, &kept, quit)),
            Err(CommitFault::StoreFull { .. }) => Ok(closed(written, &full, false)),
            Err(CommitFault::TooLarge { .. }) => Ok(closed(written, &large, false)),
            Err(CommitFault::StoreFault) => Err(AnswerFault::StoreFault),
            Err(CommitFault::Memory) => Err(AnswerFault::Memory),
        }
    }
}

/// Keeps the targets that a command left which wrote this, and answers it.
pub(crate) fn keep_targets<H: Host>(
    alloc: Global,
    store: &mut Store,
    checker: &mut Option<Checker>,
    host: &mut H,
    targets: &Targets,
    output: Vec<u8>,
    quit: bool,
    k: u64,
) -> Result<Answer, AnswerFault>
    requires sound { IsTrue store.old.sound }
    requires holds { H.tells_image → Holds (H.now host.old).image (work_of store.old) }
    requires up_to_date { IsUpToDate checker.old store.old.kept.units }
    ensures settles { (left : List RawLine) → Settles H.tells_image H.now H.clock H.stopped store.old store.new host.old host.new result left
        (kept_outcome store.old.bounds k (work_of store.old) (record { output = output.items; left = left; line = ok k; quits = quit }) targets.now) }
    ensures up_to_date { IsUpToDate checker.new store.old.kept.units }
{
    // Its clauses tell what holds of the targets and units of the store.
    let _there = store.targets();
    if targets.len() > MOST_TARGETS {
        return refusal(alloc, k, output, 1, "TooManyTargets");
    }
    let changes = store.changes(targets)?;
    if !have_spelling(&changes) {
        return refusal(alloc, k, output, 1, "TooLarge");
    }
    assure(alloc, store, checker, targets, &changes)?;
    let line = ok_line(alloc, k)?;
    let ending = Ending { output, line, quit };
    keep(alloc, store, host, changes, ending, k)
}

/// Makes sure that types fit the targets that a command left. That a command which was accepted leaves such targets is known over a
/// host that tells its input alone; so, wherever a target has changed, all are checked. If types didn't fit them, that would be
/// told as want of memory.
fn assure(
    alloc: Global,
    store: &Store,
    checker: &mut Option<Checker>,
    targets: &Targets,
    changes: &[Change],
) -> Result<(), OutOfMemory>
    requires up_to_date { IsUpToDate checker.old store.now.kept.units }
    requires lead { changed_by changes.now store.now.kept ≡ Some (with_targets store.now.kept targets.now) }
    ensures typed { OnOk result (IsWellTyped (with_targets store.now.kept targets.now)) }
    ensures up_to_date { IsUpToDate checker.new store.now.kept.units }
{
    // Its clauses tell that types fit what the store holds.
    let _there = store.targets();
    if changes.is_empty() {
        return Ok(());
    }
    if targets_fit(alloc, store, checker, targets)? {
        return Ok(());
    }
    Err(OutOfMemory)
}

/// Keeps the changes of an item, and answers it. All memory is taken before the first write.
pub(crate) fn keep<H: Host>(
    alloc: Global,
    store: &mut Store,
    host: &mut H,
    changes: Vec<Change>,
    ending: Ending,
    k: u64,
) -> Result<Answer, AnswerFault>
    requires sound { IsTrue store.old.sound }
    requires holds { H.tells_image → Holds (H.now host.old).image (work_of store.old) }
    requires later { (later : Workspace) × (changed_by changes.items store.old.kept ≡ Some later) × IsWithinLimits later × IsWellTyped later }
    requires kept { AreKept changes.items }
    ensures { (later : Workspace) (left : List RawLine) → changed_by changes.items store.old.kept ≡ Some later
        → Settles H.tells_image H.now H.clock H.stopped store.old store.new host.old host.new result left
        (on_stored k (work_of store.old) (record { output = ending.output.items; left = left; line = ending.line.items; quits = ending.quit })
        (stored store.old.bounds (work_of store.old) changes.items later)) }
{
    let Ending { output, line, quit } = ending;
    let replies = Replies::new(alloc, output, line, k)?;
    let committed = store.commit(host, changes);
    replies.told(committed, quit)
}

/// The answer that is this reply line behind what was written. There is room for it, so no memory is taken.
fn closed(written: Vec<u8>, line: &[u8], quit: bool) -> Answer
    requires { vec_len written + length line.now ≤ vec_capacity written }
    ensures { result ≡ record { reply = written.items ++ line.now; quit = quit } }
{
    let mut reply = written;
    match reply.extend_from_slice(line) {
        Ok(()) => Answer {
            reply: Text::from_vec(reply),
            quit,
        },
        Err(_) => unreachable!(),
    }
}
