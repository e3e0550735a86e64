//! How each piece of pending work begins, and how what waits goes on with a reply. The stack of what waits is the caller's.
ghost use Rattle.std.specs.Prelude.{◌≡◌, ◌≤◌, ◌<◌, ◌+◌, ◌⊎◌, Bool, true, List, IfOk, IfErr, IsErrOf, Ok, Err};
ghost use Rattle.abc_num.specs.declared.lines.RawLine.{RawLine};
ghost use Rattle.abc_tree.specs.declared.commands.Unit.{Unit as Routine};
ghost use Rattle.abc_frames.specs.Maps.{Targets as Store};
ghost use Rattle.abc_outside.specs.Outside.{RoseByOne};
ghost use Rattle.abc_outside.specs.Lines.{none_yet, Called, Failed};
ghost use Rattle.abc_meaning.specs.Laws.{wants_line};
ghost use Rattle.abc_meaning.specs.Meaning.{meaning};
ghost use Rattle.abc_state.specs.Views.{at, flow_of, scope_of, state_of};
ghost use Rattle.abc_pending.specs.Leads.{as_flow, below, caller_of, now, resume, resume_flow};
ghost use Rattle.abc_pending.specs.Steps.{state_with, IsNoCommand, Resumes, Starts};
ghost use Rattle.abc_pending.specs.Views.{Begins, below_next, flow_frame, frame_line, frame_of, job_of, next_weight, reply_of};
ghost use Rattle.abc_pending.specs.declared.stopped.Stopped.TheVariants.{Halted as OnLine};
ghost use Rattle.abc_pending.specs.Weights.{Falls, IsWithin, action_size, flow_weight, frame_weight, job_weight};

use crate::ahead::go_ahead;
use abc_call_steps::{
    end_call, enter, enter_command, find, find_row, leave_with, refine, refine_command, see_actual,
    see_actuals, see_fields, take_actual,
};
use abc_command_steps::{
    choose, perform, perform_all, perform_at, perform_rest, take_action, take_spot, turn, turn_on,
    turns_over, unless_left,
};
use abc_expression_steps::{fill, fill_table, see, see_row, spell, take_value};
use abc_frames::Targets;
use abc_outside::Lines;
use abc_pending::{
    Caller, ForFlow, Halted, Job, Next, Place, Reply, Stopped, Waiting, Work, actual_in, exit_in,
    spot_in, truth_in, value_in,
};
use abc_state::{Exit, Halt, Run, Scope};
use abc_test_steps::{compare, quantify, take_test, take_truth, try_test};
use abc_tree::{Action, Units};
use std::alloc::Global;

/// How some work begins. It goes on with one reply that is found at once, and with the beginning of a suite. The scope is afterwards that
/// of the work that is next. Each takes at most one step of the run, and walks over none of what waits.
pub fn begin<'a, L: Lines>(
    alloc: Global,
    units: &'a Units,
    scope: &mut Scope<'a>,
    work: Work<'a>,
    run: &mut Run,
    targets: &mut Targets,
    lines: &mut L,
) -> Result<Next<'a>, Stopped>
    ensures may_be { (input : L.Input) → L.may_be input lines.new → L.may_be input lines.old }
    ensures leads { (input : L.Input) → L.may_be input lines.new → Starts units.now (scope_of scope.new) result (state_with run.new targets.new (L.unread input lines.old)) (state_with run.new targets.new (L.unread input lines.new)) (now units.now (scope_of scope.old) work.entry.0 (job_of work.entry.1) (state_with run.old targets.old (L.unread input lines.old))) }
    ensures scope { IfOk result (λ next. below_next (scope_of scope.new) next ≡ scope_of scope.old) }
    ensures within { IsWithin units.now (scope_of scope.old) → IfOk result (λ _. IsWithin units.now (scope_of scope.new)) }
    ensures left { (run.new.left ≤ run.old.left) × (run.old.left ≤ run.new.left + 1) }
    ensures falls { IsWithin units.now (scope_of scope.old) → IfOk result (λ next. Falls units.now run.new.left (next_weight next) run.old.left (job_weight (job_of work.entry.1))) }
    ensures bound { L.bound lines.new ≡ L.bound lines.old }
    ensures taken { L.taken lines.old ≤ L.taken lines.new }
    ensures long { IsErrOf result Stopped.Long → L.taken lines.new ≡ L.bound lines.new }
    ensures input { IsErrOf result Stopped.Input → RoseByOne (L.faults lines.old) (L.faults lines.new) }
    ensures faultless { ¬ (IsErrOf result Stopped.Input) → L.faults lines.new ≡ L.faults lines.old }
    ensures calls { Called L.reads_on (λ l. (l ≡ lines.old) × (wants_line (now units.now (scope_of scope.old) work.entry.0 (job_of work.entry.1) (state_with run.old targets.old none_yet)) ≡ true)) lines.old lines.new }
    ensures failed { (IsErrOf result Stopped.Long ⊎ IsErrOf result Stopped.Input) → Failed L.failed (λ l. (l ≡ lines.old) × (wants_line (now units.now (scope_of scope.old) work.entry.0 (job_of work.entry.1) (state_with run.old targets.old none_yet)) ≡ true)) lines.new }
{
    let Work(place, job) = work;
    match job {
        Job::Perform(suite, at) => match perform_at(
            alloc, scope, place, suite, at, run, targets, lines,
        ) {
            Ok(next) => on_its_line(go_ahead(alloc, scope, next, run, targets)),
            Err(stopped) => Err(stopped),
        },
        job => on_its_line(begin_other(alloc, units, scope, place, job, run, targets)),
    }
}

/// What was halted takes no line.
fn on_its_line<'a>(begun: Result<Next<'a>, Halted>) -> Result<Next<'a>, Stopped>
    ensures ok { IfOk begun.entry (λ next. result ≡ Ok next) }
    ensures err { IfErr begun.entry (λ halted. result ≡ Err (OnLine halted)) }
{
    match begun {
        Ok(next) => Ok(next),
        Err(halted) => Err(Stopped::Halted(halted)),
    }
}

/// How work begins that is no command, and goes on with what is found at once.
fn begin_other<'a>(
    alloc: Global,
    units: &'a Units,
    scope: &mut Scope<'a>,
    place: Place,
    job: Job<'a>,
    run: &mut Run,
    targets: &mut Targets,
) -> Result<Next<'a>, Halted>
    requires { IsNoCommand (job_of job) }
    ensures leads { (lines : List RawLine) (ended : Bool) → Resumes units.now (scope_of scope.new) result (state_of run.new targets.new lines ended) (now units.now (scope_of scope.old) place (job_of job.entry) (state_of run.old targets.old lines ended)) }
    ensures scope { IfOk result (λ next. below_next (scope_of scope.new) next ≡ scope_of scope.old) }
    ensures within { IsWithin units.now (scope_of scope.old) → IfOk result (λ _. IsWithin units.now (scope_of scope.new)) }
    ensures left { (run.new.left ≤ run.old.left) × (run.old.left ≤ run.new.left + 1) }
    ensures falls { IsWithin units.now (scope_of scope.old) → IfOk result (λ next. Falls units.now run.new.left (next_weight next) run.old.left (job_weight (job_of job.entry))) }
{
    match begin_job(alloc, units, scope, place, job, run, targets) {
        Ok(next) => go_ahead(alloc, scope, next, run, targets),
        Err(halt) => Err(Halted {
            line: place.line,
            halt,
        }),
    }
}

/// How work begins that is no command.
#[tactic(auto, using(abc_pending::proofs::Falling::unspent, abc_pending::proofs::Falling::spent_four, abc_pending::proofs::Falling::spent_most))]
fn begin_job<'a>(
    alloc: Global,
    units: &'a Units,
    scope: &mut Scope<'a>,
    place: Place,
    job: Job<'a>,
    run: &mut Run,
    targets: &mut Targets,
) -> Result<Next<'a>, Halt>
    requires { IsNoCommand (job_of job) }
    ensures leads { (lines : List RawLine) (ended : Bool) → Begins units.now (scope_of scope.new) place.line result (state_of run.new targets.new lines ended) (now units.now (scope_of scope.old) place (job_of job.entry) (state_of run.old targets.old lines ended)) }
    ensures scope { IfOk result (λ next. below_next (scope_of scope.new) next ≡ scope_of scope.old) }
    ensures within { IsWithin units.now (scope_of scope.old) → IfOk result (λ _. IsWithin units.now (scope_of scope.new)) }
    ensures left { (run.new.left ≤ run.old.left) × (run.old.left ≤ run.new.left + 1) }
    ensures falls { IsWithin units.now (scope_of scope.old) → IfOk result (λ next. Falls units.now run.new.left (next_weight next) run.old.left (job_weight (job_of job.entry))) }
{
    match job {
        Job::See(e) => see(alloc, scope, place, e, run, targets),
        Job::SeeActual(e) => see_actual(alloc, scope, place, e, run, targets),
        Job::Try(test) => try_test(alloc, scope, place, test, run, targets),
        Job::Perform(_, _) => unreachable!(),
        Job::PerformAll(suite, at) => Ok(perform_all(place, suite, at)),
        Job::SeeRow(what, es, found) => see_row(alloc, place, what, es, found),
        Job::Spell(pieces, found) => spell(alloc, place, pieces, found),
        Job::Fill(fills, found) => fill(alloc, place, fills, found),
        Job::FillTable(pairs, found) => fill_table(alloc, place, pairs, found),
        Job::Compare(value, links) => {
            compare(alloc, scope, place, value.into_inner(), links, run, targets)
        }
        Job::Quantify(quantifier, bound, test, before, train) => {
            let train = train.into_inner();
            quantify(
                alloc, scope, place, quantifier, bound, test, before, train, run, targets,
            )
        }
        Job::SeeFields(es, values, spots) => see_fields(alloc, place, es, values, spots),
        Job::SeeActuals(template, es, found) => see_actuals(place, template, es, found),
        Job::Find(high, e) => Ok(find(alloc, place, high, e)),
        Job::FindRow(high, es, found) => find_row(alloc, place, high, es, found),
        Job::Choose(all, at) => choose(scope, place, all, at),
        Job::Turn(turns, test, suite) => {
            turn(alloc, scope, place, turns, test, suite, run, targets)
        }
        Job::TurnsOver(bound, suite, train) => {
            let train = train.into_inner();
            turns_over(alloc, scope, place, bound, suite, train, run, targets)
        }
        Job::Enter(wanted, template, actuals) => enter(
            alloc, units, scope, place, wanted, template, actuals, run, targets,
        ),
        Job::Refine(wanted, i) => refine(scope, place, wanted, i, run, targets),
        Job::EnterCommand(template, actuals) => {
            enter_command(alloc, units, scope, place, template, actuals, run)
        }
        Job::RefineCommand(name) => refine_command(scope, place, name, run),
    }
}

/// How an immediate command begins.
pub fn begin_item<'a, L: Lines>(
    alloc: Global,
    scope: &Scope<'a>,
    place: Place,
    action: &'a Action,
    run: &mut Run,
    targets: &mut Targets,
    lines: &mut L,
) -> Result<Next<'a>, Stopped>
    ensures may_be { (input : L.Input) → L.may_be input lines.new → L.may_be input lines.old }
    ensures leads { (units : List Routine) (input : L.Input) → L.may_be input lines.new → Starts units (scope_of scope.now) result (state_with run.new targets.new (L.unread input lines.old)) (state_with run.new targets.new (L.unread input lines.new)) (as_flow ((meaning units place.levels).acts (at (scope_of scope.now) place.line) action.now (state_with run.old targets.old (L.unread input lines.old)))) }
    ensures scope { IfOk result (λ next. below_next (scope_of scope.now) next ≡ scope_of scope.now) }
    ensures left { (run.new.left ≤ run.old.left) × (run.old.left ≤ run.new.left + 1) }
    ensures falls { IfOk result (λ next. (run.new.left + 1 ≡ run.old.left) × (next_weight next < action_size action.now)) }
    ensures bound { L.bound lines.new ≡ L.bound lines.old }
    ensures taken { L.taken lines.old ≤ L.taken lines.new }
    ensures long { IsErrOf result Stopped.Long → L.taken lines.new ≡ L.bound lines.new }
    ensures input { IsErrOf result Stopped.Input → RoseByOne (L.faults lines.old) (L.faults lines.new) }
    ensures faultless { ¬ (IsErrOf result Stopped.Input) → L.faults lines.new ≡ L.faults lines.old }
    ensures calls { Called L.reads_on (λ l. (l ≡ lines.old) × ((units : List Routine) (held : Store) → wants_line (as_flow ((meaning units place.levels).acts (at (scope_of scope.now) place.line) action.now (state_with run.old held none_yet))) ≡ true)) lines.old lines.new }
    ensures failed { (IsErrOf result Stopped.Long ⊎ IsErrOf result Stopped.Input) → Failed L.failed (λ l. (l ≡ lines.old) × ((units : List Routine) (held : Store) → wants_line (as_flow ((meaning units place.levels).acts (at (scope_of scope.now) place.line) action.now (state_with run.old held none_yet))) ≡ true)) lines.new }
{
    perform(alloc, scope, place, action, run, targets, lines)
}

/// How what waits goes on with a reply, and then with one more that is found at once, and with the beginning of a suite. A reply of another
/// kind than it waits for fits no type. The scope is afterwards that of the work that is next.
pub fn take_up<'a>(
    alloc: Global,
    scope: &mut Scope<'a>,
    frame: Waiting<'a>,
    reply: Reply,
    run: &mut Run,
    targets: &mut Targets,
) -> Result<Next<'a>, Halted>
    ensures leads { (units : List Routine) (lines : List RawLine) (ended : Bool) → Resumes units (scope_of scope.new) result (state_of run.new targets.new lines ended) (resume units (below (scope_of scope.old) (frame_of frame.entry)) (frame_of frame.entry) (reply_of reply) (state_of run.old targets.old lines ended)) }
    ensures scope { IfOk result (λ _. scope_of scope.new ≡ below (scope_of scope.old) (frame_of frame.entry)) }
    ensures below { IfOk result (λ next. below_next (scope_of scope.new) next ≡ scope_of scope.new) }
    ensures left { run.new.left ≡ run.old.left }
    ensures falls { IfOk result (λ next. next_weight next < frame_weight (frame_of frame.entry)) }
{
    match resumed(alloc, scope, frame, reply, run, targets) {
        Ok(next) => go_ahead(alloc, scope, next, run, targets),
        Err(halted) => Err(halted),
    }
}

/// How what waits begins to go on with a reply.
pub(crate) fn resumed<'a>(
    alloc: Global,
    scope: &mut Scope<'a>,
    frame: Waiting<'a>,
    reply: Reply,
    run: &mut Run,
    targets: &mut Targets,
) -> Result<Next<'a>, Halted>
    ensures leads { (units : List Routine) (lines : List RawLine) (ended : Bool) → Resumes units (scope_of scope.new) result (state_of run.new targets.new lines ended) (resume units (below (scope_of scope.old) (frame_of frame.entry)) (frame_of frame.entry) (reply_of reply) (state_of run.old targets.old lines ended)) }
    ensures scope { IfOk result (λ _. scope_of scope.new ≡ below (scope_of scope.old) (frame_of frame.entry)) }
    ensures below { IfOk result (λ next. below_next (scope_of scope.new) next ≡ scope_of scope.new) }
    ensures left { run.new.left ≡ run.old.left }
    ensures falls { IfOk result (λ next. next_weight next < frame_weight (frame_of frame.entry)) }
{
    let line = line_of(&frame);
    match take_reply(alloc, scope, frame, reply, run, targets) {
        Ok(next) => Ok(next),
        Err(halt) => Err(Halted { line, halt }),
    }
}

/// The same, with the halt alone.
#[tactic(auto, using(crate::proofs::Waits::expression_waits, crate::proofs::Waits::test_waits, crate::proofs::Waits::action_waits, crate::proofs::Waits::truth_waits, crate::proofs::Waits::flow_waits, crate::proofs::Waits::actual_waits, crate::proofs::Waits::address_waits))]
fn take_reply<'a>(
    alloc: Global,
    scope: &mut Scope<'a>,
    frame: Waiting<'a>,
    reply: Reply,
    run: &mut Run,
    targets: &mut Targets,
) -> Result<Next<'a>, Halt>
    ensures leads { (units : List Routine) (lines : List RawLine) (ended : Bool) → Begins units (scope_of scope.new) (frame_line (frame_of frame.entry)) result (state_of run.new targets.new lines ended) (resume units (below (scope_of scope.old) (frame_of frame.entry)) (frame_of frame.entry) (reply_of reply) (state_of run.old targets.old lines ended)) }
    ensures scope { IfOk result (λ _. scope_of scope.new ≡ below (scope_of scope.old) (frame_of frame.entry)) }
    ensures below { IfOk result (λ next. below_next (scope_of scope.new) next ≡ scope_of scope.new) }
    ensures left { run.new.left ≡ run.old.left }
    ensures falls { IfOk result (λ next. next_weight next < frame_weight (frame_of frame.entry)) }
{
    match frame {
        Waiting::Expression(place, frame) => match value_in(reply) {
            Some(value) => take_value(alloc, place, frame, value),
            None => Err(Halt::Wrong),
        },
        Waiting::Test(place, frame) => match value_in(reply) {
            Some(value) => take_test(alloc, scope, place, frame, value, run, targets),
            None => Err(Halt::Wrong),
        },
        Waiting::Action(place, frame) => match value_in(reply) {
            Some(value) => take_action(alloc, scope, place, frame, value, run, targets),
            None => Err(Halt::Wrong),
        },
        Waiting::Truth(place, frame) => match truth_in(reply) {
            Some(truth) => take_truth(place, frame, truth),
            None => Err(Halt::Wrong),
        },
        Waiting::Flow(place, frame) => match exit_in(reply) {
            Some(exit) => take_exit(alloc, scope, place, frame, exit, run, targets),
            None => Err(Halt::Wrong),
        },
        Waiting::Actual(place, frame) => match actual_in(reply) {
            Some(actual) => take_actual(alloc, place, frame, actual),
            None => Err(Halt::Wrong),
        },
        Waiting::Spot(place, frame) => match spot_in(reply) {
            Some(spot) => take_spot(alloc, scope, place, frame, spot, run, targets),
            None => Err(Halt::Wrong),
        },
    }
}

/// How it goes on behind a suite that ended so.
fn take_exit<'a>(
    alloc: Global,
    scope: &mut Scope<'a>,
    place: Place,
    frame: ForFlow<'a>,
    exit: Exit,
    run: &mut Run,
    targets: &mut Targets,
) -> Result<Next<'a>, Halt>
    ensures leads { (units : List Routine) (lines : List RawLine) (ended : Bool) → Begins units (scope_of scope.new) place.line result (state_of run.new targets.new lines ended) (resume_flow units (meaning units place.levels) (at (caller_of (scope_of scope.old) (flow_frame frame.entry)) place.line) (flow_frame frame.entry) (flow_of exit) (state_of run.old targets.old lines ended)) }
    ensures scope { IfOk result (λ _. scope_of scope.new ≡ caller_of (scope_of scope.old) (flow_frame frame.entry)) }
    ensures below { IfOk result (λ next. below_next (scope_of scope.new) next ≡ scope_of scope.new) }
    ensures left { run.new.left ≡ run.old.left }
    ensures falls { IfOk result (λ next. next_weight next < flow_weight (flow_frame frame.entry)) }
{
    match frame {
        ForFlow::CallEnd(caller) => {
            let Caller {
                how,
                entry,
                scope: outer,
            } = caller.into_inner();
            let _ended = std::mem::replace(scope, outer);
            end_call(alloc, scope, how, entry, exit, run, targets)
        }
        ForFlow::RefinementEnd(wanted, kept, names) => {
            targets.back(kept);
            run.names = names;
            leave_with(wanted, exit)
        }
        ForFlow::Refined => Ok(Next::Give(Reply::Went(Exit::GoesOn))),
        ForFlow::WhileBody(turns, test, suite) => turn_on(place, turns, test, suite, exit),
        ForFlow::ForBody(bound, suite, train) => Ok(unless_left(
            exit,
            Work(place, Job::TurnsOver(bound, suite, train)),
        )),
        ForFlow::SuiteRest(suite, at) => Ok(perform_rest(place, suite, at, exit)),
    }
}

/// The line on which the faults of what waits are told.
fn line_of(frame: &Waiting<'_>) -> u32
    ensures { result ≡ frame_line (frame_of frame.now) }
{
    match frame {
        Waiting::Expression(place, _) => place.line,
        Waiting::Test(place, _) => place.line,
        Waiting::Action(place, _) => place.line,
        Waiting::Truth(place, _) => place.line,
        Waiting::Flow(place, _) => place.line,
        Waiting::Actual(place, _) => place.line,
        Waiting::Spot(place, _) => place.line,
    }
}
