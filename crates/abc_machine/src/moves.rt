//! Moves of the machine: what waits is put on the stack and taken off again.
ghost use Rattle.std.specs.Prelude.{◌≡◌, ◌≤◌, ◌+◌, ◌⊎◌, Bool, true, List, ℕ, map, Ok, Err, IfErr, IsErrOf};
ghost use Rattle.abc_num.specs.declared.lines.RawLine.{RawLine};
ghost use Rattle.abc_tree.specs.declared.commands.Unit.{Unit as Routine};
ghost use Rattle.abc_frames.specs.Maps.{Targets as Store};
ghost use Rattle.abc_outside.specs.Lines.{none_yet, Called, Failed};
ghost use Rattle.abc_outside.specs.Outside.{RoseByOne};
ghost use Rattle.abc_meaning.specs.State.{State, Got, gives};
ghost use Rattle.abc_meaning.specs.Here.{Scope as Names};
ghost use Rattle.abc_meaning.specs.Laws.{wants_line};
ghost use Rattle.abc_state.specs.Agrees.{Halts};
ghost use Rattle.abc_state.specs.Views.{scope_of, state_of};
ghost use Rattle.abc_state.specs.declared.halt.Halt.TheVariants.{Fault};
ghost use Rattle.abc_pending.specs.Pending.{Answer, Frame};
ghost use Rattle.abc_pending.specs.Leads.{leads, now};
ghost use Rattle.abc_pending.specs.Steps.{state_with};
ghost use Rattle.abc_pending.specs.Views.{begin_of, below_next, frame_of, job_of, next_weight, reply_of};
ghost use Rattle.abc_pending.specs.Weights.{Falls, IsWithin, action_size, job_weight};
ghost use Rattle.abc_pending.specs.declared.pending.Doing.TheVariants.{Item};
ghost use Rattle.abc_pending.specs.declared.pending.Reply.TheVariants.{Went};
ghost use Rattle.abc_machine.specs.Outcomes.{outcome_at, outcome_of, TellsNoMemory};
ghost use Rattle.abc_machine.specs.Pending.{given, given_weight, frames_weight, AreWithin};
ghost use Rattle.abc_machine.specs.Moves.{Follows, IfGoes, Weighs, Lessens, EndsWell};

use crate::outcome::{Outcome, RunStop};
use abc_frames::Targets;
use abc_num::Stack;
use abc_outside::Lines;
use abc_pending::{Doing, Halted, Next, Place, Reply, Stopped, Waiting, Work};
use abc_state::{Exit, Halt, Run, Scope};
use abc_steps::{begin, begin_item, take_up};
use abc_tree::{Action, Units};
use abc_value::RunFault;
use std::alloc::Global;

/// How far a move got.
#[derive(Drop)]
pub enum Moved<'a> {
    Goes(Doing<'a>),
    Ends(Outcome),
}

/// How a run ends that comes to this reply.
fn outcome(reply: Reply) -> Outcome
    ensures outcome { outcome_at (reply_of reply) ≡ outcome_of result }
    ensures memory { TellsNoMemory result }
{
    match reply {
        Reply::Went(exit) => left(exit),
        Reply::Val(_) => Outcome::Done,
        Reply::Truth(_) => Outcome::Done,
        Reply::Actual(_) => Outcome::Done,
        Reply::Spot(_) => Outcome::Done,
    }
}

/// How a run ends whose command ends so.
fn left(exit: Exit) -> Outcome
    ensures outcome { outcome_at (reply_of (Went exit)) ≡ outcome_of result }
    ensures memory { TellsNoMemory result }
{
    match exit {
        Exit::Quits => Outcome::Quit,
        Exit::GoesOn => Outcome::Done,
        Exit::Returns(_) => Outcome::Done,
        Exit::Reports(_) => Outcome::Done,
    }
}

/// How a run ends where a piece of it halts, whatever waits.
fn halted<'a>(halted: Halted) -> Result<Moved<'a>, RunStop>
    ensures leads { (units : List Routine) (old new : Names) (waiting left : List Frame) (s : State) (g : Got Answer) → Halts halted.line halted.halt s g → Follows units new result left s (leads units old waiting g) }
    ensures well { EndsWell result }
    ensures ends { IfGoes result ⊥ }
    ensures memory { IfErr result (λ e. e ≡ RunStop.Memory) }
{
    match halted.halt {
        Halt::Fault(fault) => faulted(halted.line, fault),
        Halt::Wrong => Ok(Moved::Ends(Outcome::Wrong { line: halted.line })),
    }
}

/// How a run ends on a fault, which is no end where there was not enough memory.
fn faulted<'a>(line: u32, fault: RunFault) -> Result<Moved<'a>, RunStop>
    ensures leads { (units : List Routine) (old new : Names) (waiting left : List Frame) (s : State) (g : Got Answer) → Halts line (Fault fault) s g → Follows units new result left s (leads units old waiting g) }
    ensures well { EndsWell result }
    ensures ends { IfGoes result ⊥ }
    ensures memory { IfErr result (λ e. e ≡ RunStop.Memory) }
{
    match fault {
        RunFault::Memory => Err(RunStop::Memory),
        _ => Ok(Moved::Ends(Outcome::Fault { line, fault })),
    }
}

/// Goes on with what a piece of work has come to. What waits now, if anything does, is put on the stack.
fn go_on<'a>(frames: &mut Stack<Waiting<'a>>, next: Next<'a>) -> Result<Moved<'a>, RunStop>
    ensures leads { (units : List Routine) (old new : Names) (s : State) → below_next new next.entry ≡ old → Follows units new result (map frame_of frames.new) s (leads units old (map frame_of frames.old) (begin_of units new next.entry s)) }
    ensures weighs { Weighs result (map frame_of frames.new) (next_weight next.entry + frames_weight (map frame_of frames.old)) }
    ensures within { (units : List Routine) (old new : Names) → below_next new next.entry ≡ old → IsWithin units new → AreWithin units old (map frame_of frames.old) → IfGoes result (AreWithin units new (map frame_of frames.new)) }
    ensures well { EndsWell result }
    ensures memory { IfErr result (λ e. e ≡ RunStop.Memory) }
{
    match next {
        Next::Give(reply) => Ok(Moved::Goes(Doing::Answered(reply))),
        Next::Go(work) => Ok(Moved::Goes(Doing::Work(work))),
        Next::Wait(frame, work) => match frames.push(frame) {
            Ok(()) => Ok(Moved::Goes(Doing::Work(work))),
            Err(_) => Err(RunStop::Memory),
        },
    }
}

/// Gives a reply to what waits last. Where nothing waits the run ends.
fn answer<'a>(
    alloc: Global,
    scope: &mut Scope<'a>,
    reply: Reply,
    frames: &mut Stack<Waiting<'a>>,
    run: &mut Run,
    targets: &mut Targets,
) -> Result<Moved<'a>, RunStop>
    ensures leads { (units : List Routine) (lines : List RawLine) (ended : Bool) → Follows units (scope_of scope.new) result (map frame_of frames.new) (state_of run.new targets.new lines ended) (leads units (scope_of scope.old) (map frame_of frames.old) (gives (reply_of reply) (state_of run.old targets.old lines ended))) }
    ensures within { (units : List Routine) → AreWithin units (scope_of scope.old) (map frame_of frames.old) → IfGoes result (AreWithin units (scope_of scope.new) (map frame_of frames.new)) }
    ensures left { run.new.left ≡ run.old.left }
    ensures falls { (units : List Routine) → Lessens units result (map frame_of frames.new) run.new.left (frames_weight (map frame_of frames.old)) run.old.left }
    ensures well { EndsWell result }
    ensures memory { IfErr result (λ e. e ≡ RunStop.Memory) }
{
    match frames.pop() {
        None => Ok(Moved::Ends(outcome(reply))),
        Some(frame) => match take_up(alloc, scope, frame, reply, run, targets) {
            Ok(next) => go_on(frames, next),
            Err(stop) => halted(stop),
        },
    }
}

/// Goes on with what a piece of work has come to. A reply is given at once to what waits last.
fn come_to<'a>(
    alloc: Global,
    scope: &mut Scope<'a>,
    next: Next<'a>,
    frames: &mut Stack<Waiting<'a>>,
    run: &mut Run,
    targets: &mut Targets,
) -> Result<Moved<'a>, RunStop>
    ensures leads { (units : List Routine) (old : Names) (lines : List RawLine) (ended : Bool) → below_next (scope_of scope.old) next.entry ≡ old → Follows units (scope_of scope.new) result (map frame_of frames.new) (state_of run.new targets.new lines ended) (leads units old (map frame_of frames.old) (begin_of units (scope_of scope.old) next.entry (state_of run.old targets.old lines ended))) }
    ensures within { (units : List Routine) (old : Names) → below_next (scope_of scope.old) next.entry ≡ old → IsWithin units (scope_of scope.old) → AreWithin units old (map frame_of frames.old) → IfGoes result (AreWithin units (scope_of scope.new) (map frame_of frames.new)) }
    ensures left { run.new.left ≡ run.old.left }
    ensures falls { (units : List Routine) (weight left : ℕ) → Falls units run.old.left (next_weight next.entry) left weight → Lessens units result (map frame_of frames.new) run.new.left (weight + frames_weight (map frame_of frames.old)) left }
    ensures well { EndsWell result }
    ensures memory { IfErr result (λ e. e ≡ RunStop.Memory) }
{
    match next {
        Next::Give(reply) => answer(alloc, scope, reply, frames, run, targets),
        next => go_on(frames, next),
    }
}

/// Begins some work.
fn work_on<'a, L: Lines>(
    alloc: Global,
    units: &'a Units,
    scope: &mut Scope<'a>,
    work: Work<'a>,
    frames: &mut Stack<Waiting<'a>>,
    run: &mut Run,
    targets: &mut Targets,
    lines: &mut L,
) -> Result<Moved<'a>, RunStop>
    ensures may_be { (input : L.Input) → L.may_be input lines.new → L.may_be input lines.old }
    ensures leads { (input : L.Input) → L.may_be input lines.new → Follows units.now (scope_of scope.new) result (map frame_of frames.new) (state_with run.new targets.new (L.unread input lines.new)) (leads units.now (scope_of scope.old) (map frame_of frames.old) (now units.now (scope_of scope.old) work.entry.0 (job_of work.entry.1) (state_with run.old targets.old (L.unread input lines.old)))) }
    ensures within { AreWithin units.now (scope_of scope.old) (map frame_of frames.old) → IfGoes result (AreWithin units.now (scope_of scope.new) (map frame_of frames.new)) }
    ensures left { (run.new.left ≤ run.old.left) × (run.old.left ≤ run.new.left + 1) }
    ensures falls { AreWithin units.now (scope_of scope.old) (map frame_of frames.old) → Lessens units.now result (map frame_of frames.new) run.new.left (job_weight (job_of work.entry.1) + frames_weight (map frame_of frames.old)) run.old.left }
    ensures well { EndsWell result }
    ensures bound { L.bound lines.new ≡ L.bound lines.old }
    ensures taken { L.taken lines.old ≤ L.taken lines.new }
    ensures long { IsErrOf result RunStop.Long → L.taken lines.new ≡ L.bound lines.new }
    ensures input { IsErrOf result RunStop.Input → RoseByOne (L.faults lines.old) (L.faults lines.new) }
    ensures faultless { ¬ (IsErrOf result RunStop.Input) → L.faults lines.new ≡ L.faults lines.old }
    ensures calls { Called L.reads_on (λ l. (l ≡ lines.old) × (wants_line (leads units.now (scope_of scope.old) (map frame_of frames.old) (now units.now (scope_of scope.old) work.entry.0 (job_of work.entry.1) (state_with run.old targets.old none_yet))) ≡ true)) lines.old lines.new }
    ensures failed { (IsErrOf result RunStop.Long ⊎ IsErrOf result RunStop.Input) → Failed L.failed (λ l. (l ≡ lines.old) × (wants_line (leads units.now (scope_of scope.old) (map frame_of frames.old) (now units.now (scope_of scope.old) work.entry.0 (job_of work.entry.1) (state_with run.old targets.old none_yet))) ≡ true)) lines.new }
{
    match begin(alloc, units, scope, work, run, targets, lines) {
        Ok(next) => come_to(alloc, scope, next, frames, run, targets),
        Err(Stopped::Halted(stop)) => halted(stop),
        Err(Stopped::Long) => Err(RunStop::Long),
        Err(Stopped::Input) => Err(RunStop::Input),
    }
}

/// Begins an immediate command.
fn begin_command<'a, L: Lines>(
    alloc: Global,
    scope: &Scope<'a>,
    place: Place,
    action: &'a Action,
    frames: &mut Stack<Waiting<'a>>,
    run: &mut Run,
    targets: &mut Targets,
    lines: &mut L,
) -> Result<Moved<'a>, RunStop>
    ensures may_be { (input : L.Input) → L.may_be input lines.new → L.may_be input lines.old }
    ensures leads { (units : List Routine) (input : L.Input) → L.may_be input lines.new → Follows units (scope_of scope.now) result (map frame_of frames.new) (state_with run.new targets.new (L.unread input lines.new)) (leads units (scope_of scope.now) (map frame_of frames.old) (given units (scope_of scope.now) (Item place action.entry) (state_with run.old targets.old (L.unread input lines.old)))) }
    ensures within { (units : List Routine) → AreWithin units (scope_of scope.now) (map frame_of frames.old) → IfGoes result (AreWithin units (scope_of scope.now) (map frame_of frames.new)) }
    ensures left { (run.new.left ≤ run.old.left) × (run.old.left ≤ run.new.left + 1) }
    ensures falls { (units : List Routine) → Lessens units result (map frame_of frames.new) run.new.left (action_size action.now + frames_weight (map frame_of frames.old)) run.old.left }
    ensures well { EndsWell result }
    ensures bound { L.bound lines.new ≡ L.bound lines.old }
    ensures taken { L.taken lines.old ≤ L.taken lines.new }
    ensures long { IsErrOf result RunStop.Long → L.taken lines.new ≡ L.bound lines.new }
    ensures input { IsErrOf result RunStop.Input → RoseByOne (L.faults lines.old) (L.faults lines.new) }
    ensures faultless { ¬ (IsErrOf result RunStop.Input) → L.faults lines.new ≡ L.faults lines.old }
    ensures calls { Called L.reads_on (λ l. (l ≡ lines.old) × ((units : List Routine) (held : Store) → wants_line (leads units (scope_of scope.now) (map frame_of frames.old) (given units (scope_of scope.now) (Item place action.entry) (state_with run.old held none_yet))) ≡ true)) lines.old lines.new }
    ensures failed { (IsErrOf result RunStop.Long ⊎ IsErrOf result RunStop.Input) → Failed L.failed (λ l. (l ≡ lines.old) × ((units : List Routine) (held : Store) → wants_line (leads units (scope_of scope.now) (map frame_of frames.old) (given units (scope_of scope.now) (Item place action.entry) (state_with run.old held none_yet))) ≡ true)) lines.new }
{
    match begin_item(alloc, scope, place, action, run, targets, lines) {
        Ok(next) => go_on(frames, next),
        Err(Stopped::Halted(stop)) => halted(stop),
        Err(Stopped::Long) => Err(RunStop::Long),
        Err(Stopped::Input) => Err(RunStop::Input),
    }
}

/// One move: of a command of which nothing is done yet, of some work, or of a reply.
pub fn advance<'a, L: Lines>(
    alloc: Global,
    units: &'a Units,
    scope: &mut Scope<'a>,
    doing: Doing<'a>,
    frames: &mut Stack<Waiting<'a>>,
    run: &mut Run,
    targets: &mut Targets,
    lines: &mut L,
) -> Result<Moved<'a>, RunStop>
    ensures may_be { (input : L.Input) → L.may_be input lines.new → L.may_be input lines.old }
    ensures leads { (input : L.Input) → L.may_be input lines.new → Follows units.now (scope_of scope.new) result (map frame_of frames.new) (state_with run.new targets.new (L.unread input lines.new)) (leads units.now (scope_of scope.old) (map frame_of frames.old) (given units.now (scope_of scope.old) doing.entry (state_with run.old targets.old (L.unread input lines.old)))) }
    ensures within { AreWithin units.now (scope_of scope.old) (map frame_of frames.old) → IfGoes result (AreWithin units.now (scope_of scope.new) (map frame_of frames.new)) }
    ensures left { (run.new.left ≤ run.old.left) × (run.old.left ≤ run.new.left + 1) }
    ensures falls { AreWithin units.now (scope_of scope.old) (map frame_of frames.old) → Lessens units.now result (map frame_of frames.new) run.new.left (given_weight doing.entry + frames_weight (map frame_of frames.old)) run.old.left }
    ensures well { EndsWell result }
    ensures bound { L.bound lines.new ≡ L.bound lines.old }
    ensures taken { L.taken lines.old ≤ L.taken lines.new }
    ensures long { IsErrOf result RunStop.Long → L.taken lines.new ≡ L.bound lines.new }
    ensures input { IsErrOf result RunStop.Input → RoseByOne (L.faults lines.old) (L.faults lines.new) }
    ensures faultless { ¬ (IsErrOf result RunStop.Input) → L.faults lines.new ≡ L.faults lines.old }
    ensures calls { Called L.reads_on (λ l. (l ≡ lines.old) × (wants_line (leads units.now (scope_of scope.old) (map frame_of frames.old) (given units.now (scope_of scope.old) doing.entry (state_with run.old targets.old none_yet))) ≡ true)) lines.old lines.new }
    ensures failed { (IsErrOf result RunStop.Long ⊎ IsErrOf result RunStop.Input) → Failed L.failed (λ l. (l ≡ lines.old) × (wants_line (leads units.now (scope_of scope.old) (map frame_of frames.old) (given units.now (scope_of scope.old) doing.entry (state_with run.old targets.old none_yet))) ≡ true)) lines.new }
{
    match doing {
        Doing::Item(place, action) => {
            begin_command(alloc, scope, place, action, frames, run, targets, lines)
        }
        Doing::Work(work) => work_on(alloc, units, scope, work, frames, run, targets, lines),
        Doing::Answered(reply) => answer(alloc, scope, reply, frames, run, targets),
    }
}
