//! What a step does ahead: a value or a test that takes no work of its own is there at once for what would wait for it, and a suite
//! begins with its first command. So a command takes fewer steps of the machine.
ghost use Rattle.std.specs.Prelude.{◌≡◌, ◌≤◌, ◌+◌, ◌⊎◌, ℕ, Bool, List, drop, IfOk, IfSome};
ghost use Rattle.abc_num.specs.declared.lines.RawLine.{RawLine};
ghost use Rattle.abc_tree.specs.declared.commands.Unit.{Unit as Routine};
ghost use Rattle.abc_value.specs.Tree.{Tree};
ghost use Rattle.abc_meaning.specs.State.{Got, State};
ghost use Rattle.abc_meaning.specs.Here.{Scope as Names};
ghost use Rattle.abc_state.specs.Views.{scope_of, state_of};
ghost use Rattle.abc_pending.specs.AtOnce.{Tells};
ghost use Rattle.abc_pending.specs.Leads.{as_truth, as_val, below, now};
ghost use Rattle.abc_pending.specs.Pending.{perform_all};
ghost use Rattle.abc_pending.specs.Steps.{Resumes};
ghost use Rattle.abc_pending.specs.Views.{begin_of, below_next, frame_of, job_of, next_weight, reply_of};
ghost use Rattle.abc_pending.specs.Weights.{frame_weight, job_weight};
ghost use Rattle.abc_pending.specs.declared.pending.Next.TheVariants.{Wait};

use crate::dispatch::resumed;
use abc_command_steps::perform_all;
use abc_frames::Targets;
use abc_pending::{Halted, Job, Next, Reply, Waiting, Work, truth_at_once, value_at_once};
use abc_state::{Halt, Run, Scope};
use abc_tree::Suite;
use abc_value::Value;
use std::alloc::Global;

/// Goes on from what a step came to: with the reply for which something would wait, where it is there at once, and with the beginning of
/// a suite.
pub fn go_ahead<'a>(
    alloc: Global,
    scope: &mut Scope<'a>,
    next: Next<'a>,
    run: &mut Run,
    targets: &mut Targets,
) -> Result<Next<'a>, Halted>
    ensures leads { (units : List Routine) (lines : List RawLine) (ended : Bool) → Resumes units (scope_of scope.new) result (state_of run.new targets.new lines ended) (begin_of units (scope_of scope.old) next.entry (state_of run.old targets.old lines ended)) }
    ensures scope { IfOk result (λ on. below_next (scope_of scope.new) on ≡ below_next (scope_of scope.old) next.entry) }
    ensures stands { IfOk result (λ _. (scope_of scope.new ≡ scope_of scope.old) ⊎ (scope_of scope.new ≡ below_next (scope_of scope.old) next.entry)) }
    ensures left { run.new.left ≡ run.old.left }
    ensures falls { IfOk result (λ on. next_weight on ≤ next_weight next.entry) }
{
    match next {
        Next::Give(reply) => Ok(Next::Give(reply)),
        Next::Go(work) => Ok(begin_all(work)),
        Next::Wait(frame, work) => answer_ahead(alloc, scope, frame, work, run, targets),
    }
}

/// The same where this waits for some work: its reply is given at once where it is found so.
fn answer_ahead<'a>(
    alloc: Global,
    scope: &mut Scope<'a>,
    frame: Waiting<'a>,
    work: Work<'a>,
    run: &mut Run,
    targets: &mut Targets,
) -> Result<Next<'a>, Halted>
    ensures leads { (units : List Routine) (lines : List RawLine) (ended : Bool) → Resumes units (scope_of scope.new) result (state_of run.new targets.new lines ended) (begin_of units (scope_of scope.old) (Wait frame.entry work.entry) (state_of run.old targets.old lines ended)) }
    ensures scope { IfOk result (λ on. below_next (scope_of scope.new) on ≡ below (scope_of scope.old) (frame_of frame.entry)) }
    ensures stands { IfOk result (λ _. (scope_of scope.new ≡ scope_of scope.old) ⊎ (scope_of scope.new ≡ below (scope_of scope.old) (frame_of frame.entry))) }
    ensures left { run.new.left ≡ run.old.left }
    ensures falls { IfOk result (λ on. next_weight on ≤ frame_weight (frame_of frame.entry) + job_weight (job_of work.entry.1)) }
{
    match reply_ahead(alloc, scope, &work, run, targets) {
        Ok(Some(reply)) => {
            let next = resumed(alloc, scope, frame, reply, run, targets)?;
            Ok(begin_suite(next))
        }
        Ok(None) => Ok(wait_for_all(frame, work)),
        Err(halt) => Err(Halted {
            line: work.0.line,
            halt,
        }),
    }
}

/// The reply of work on an expression or a test, if it is found at once.
fn reply_ahead<'a>(
    alloc: Global,
    scope: &Scope<'a>,
    work: &Work<'a>,
    run: &Run,
    targets: &Targets,
) -> Result<Option<Reply>, Halt>
    ensures replies { (units : List Routine) (lines : List RawLine) (ended : Bool) → Tells reply_of work.now.0.line result (state_of run.now targets.now lines ended) (now units (scope_of scope.now) work.now.0 (job_of work.now.1) (state_of run.now targets.now lines ended)) }
{
    let Work(place, job) = work;
    match job {
        Job::See(e) => as_value(value_at_once(alloc, scope, *place, e, run, targets)),
        Job::Try(test) => as_truth(truth_at_once(alloc, scope, *place, test, run, targets)),
        _ => Ok(None),
    }
}

/// The reply that is a value, if one was found.
fn as_value(found: Result<Option<Value>, Halt>) -> Result<Option<Reply>, Halt>
    ensures replies { (line : ℕ) (s : State) (g : Got Tree) → Tells (λ v. v) line found s g → Tells reply_of line result s (as_val g) }
{
    match found? {
        Some(value) => Ok(Some(Reply::Val(value))),
        None => Ok(None),
    }
}

/// The reply that is a truth value, if one was found.
fn as_truth(found: Result<Option<bool>, Halt>) -> Result<Option<Reply>, Halt>
    ensures replies { (line : ℕ) (s : State) (g : Got Bool) → Tells (λ b. b) line found s g → Tells reply_of line result s (as_truth g) }
{
    match found? {
        Some(truth) => Ok(Some(Reply::Truth(truth))),
        None => Ok(None),
    }
}

/// The suite that some work performs, from a place on, if it is such work.
fn suite_in<'a>(job: &Job<'a>) -> Option<(&'a Suite, usize)>
    ensures some { IfSome result (λ p. job_of job.now ≡ perform_all (drop p.1 p.0.now)) }
{
    match job {
        Job::PerformAll(suite, at) => Some((suite, *at)),
        _ => None,
    }
}

/// Begins the suite that comes next: its only command, or its first one, with the others waiting, where nothing else waits newly.
fn begin_suite<'a>(next: Next<'a>) -> Next<'a>
    ensures leads { (units : List Routine) (scope : Names) (s : State) → begin_of units scope next.entry s ≡ begin_of units scope result s }
    ensures scope { (scope : Names) → below_next scope result ≡ below_next scope next.entry }
    ensures falls { next_weight result ≤ next_weight next.entry }
{
    match next {
        Next::Give(reply) => Next::Give(reply),
        Next::Go(work) => begin_all(work),
        Next::Wait(frame, work) => wait_for_all(frame, work),
    }
}

/// The same of work for which nothing waits newly.
fn begin_all<'a>(work: Work<'a>) -> Next<'a>
    ensures leads { (units : List Routine) (scope : Names) (s : State) → now units scope work.entry.0 (job_of work.entry.1) s ≡ begin_of units scope result s }
    ensures scope { (scope : Names) → below_next scope result ≡ scope }
    ensures falls { next_weight result ≤ job_weight (job_of work.entry.1) }
{
    let Work(place, job) = work;
    match suite_in(&job) {
        Some((suite, at)) => perform_all(place, suite, at),
        None => Next::Go(Work(place, job)),
    }
}

/// The same of work for which this waits.
#[tactic(auto, using(crate::proofs::Behind::same_behind))]
fn wait_for_all<'a>(frame: Waiting<'a>, work: Work<'a>) -> Next<'a>
    ensures leads { (units : List Routine) (scope : Names) (s : State) → begin_of units scope (Wait frame.entry work.entry) s ≡ begin_of units scope result s }
    ensures scope { (scope : Names) → below_next scope result ≡ below scope (frame_of frame.entry) }
    ensures falls { next_weight result ≤ frame_weight (frame_of frame.entry) + job_weight (job_of work.entry.1) }
{
    let Work(place, job) = work;
    match suite_in(&job) {
        Some((suite, at)) => match perform_all(place, suite, at) {
            Next::Go(only) => Next::Wait(frame, only),
            _ => Next::Wait(frame, Work(place, job)),
        },
        None => Next::Wait(frame, Work(place, job)),
    }
}
