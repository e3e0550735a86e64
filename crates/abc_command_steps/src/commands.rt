//! Turns of WHILE and FOR, and how addresses and commands go on with the value, the address or the end of a suite for which they
//! waited.
ghost use Rattle.std.specs.Prelude.{◌≡◌, ◌∷◌, ◌<◌, ◌≤◌, ◌+◌, ℕ, Bool, List, IfOk};
ghost use Rattle.abc_num.specs.declared.lines.RawLine.{RawLine};
ghost use Rattle.abc_tree.specs.declared.commands.Unit.{Unit as Routine};
ghost use Rattle.abc_meaning.specs.State.{State, Got, Flow, after};
ghost use Rattle.abc_meaning.specs.Addresses.{address as address_by};
ghost use Rattle.abc_meaning.specs.Here.{Scope as Names};
ghost use Rattle.abc_meaning.specs.Calls.{then_on};
ghost use Rattle.abc_meaning.specs.Meaning.{meaning};
ghost use Rattle.std.specs.Option.{option_map};
ghost use Rattle.abc_state.specs.Agrees.{Agrees};
ghost use Rattle.abc_state.specs.Views.{at as standing_at, address_of, flow_of, scope_of, state_of};
ghost use Rattle.abc_pending.specs.Leads.{as_flow, as_truth, change_by, doing, done, now, resume, resume_action, resume_address, resume_flow};
ghost use Rattle.abc_pending.specs.Pending.{for_truth, turn, turns_over, while_body, while_test};
ghost use Rattle.abc_pending.specs.Views.{Begins, action_frame, begin_of, below_next, job_of, next_weight, spot_frame};
ghost use Rattle.abc_pending.specs.Weights.{Falls, action_weight, address_weight, expr_size, job_weight, suite_size, test_size};

use crate::performing::change_to;
use abc_acts::{Train, bind, delete, insert, put, remove};
use abc_frames::Targets;
use abc_num::Boxed;
use abc_pending::{
    Changes, ForAction, ForFlow, ForSpot, ForTruth, Job, Next, Place, Reply, Waiting, Work,
    spot_at_once, truth_at_once, while_tested,
};
use abc_state::{Exit, Halt, Run, Scope, Spot, located, selected, stepped, whole};
use abc_tree::{Bound, Expr, Suite, Test};
use abc_value::{RunFault, Value};
use std::alloc::Global;

/// A turn of WHILE, which is a step, and behind which so many may come. Where its test is found at once it is answered so.
#[tactic(auto, using(crate::proofs::Levels::meaning_turn, crate::proofs::Levels::turn_at_zero, crate::proofs::Levels::turns_begin))]
pub fn turn<'a>(
    alloc: Global,
    scope: &Scope<'a>,
    place: Place,
    turns: u64,
    test: &'a Test,
    suite: &'a Suite,
    run: &mut Run,
    targets: &Targets,
) -> Result<Next<'a>, Halt>
    ensures leads { (units : List Routine) (lines : List RawLine) (ended : Bool) → Begins units (scope_of scope.now) place.line result (state_of run.new targets.now lines ended) (doing units (meaning units place.levels) (standing_at (scope_of scope.now) place.line) (turn turns test.now suite.now) (state_of run.old targets.now lines ended)) }
    ensures scope { IfOk result (λ next. below_next (scope_of scope.now) next ≡ (scope_of scope.now)) }
    ensures left { (run.new.left ≤ run.old.left) × (run.old.left ≤ run.new.left + 1) }
    ensures falls { IfOk result (λ next. (run.new.left + 1 ≡ run.old.left) × (next_weight next ≤ 5 + test_size test.now + suite_size suite.now + suite_size suite.now + test_size test.now)) }
{
    if place.levels == 0 {
        return Err(Halt::Fault(RunFault::TooDeep));
    }
    run.spend()?;
    tested(alloc, scope, place, turns, test, suite, run, targets)
}

/// How the test of a turn goes on: with its answer, where it is found at once, and else the turn waits for it.
#[tactic(auto, using(abc_pending::proofs::GoingOn::test_stops, abc_pending::proofs::GoingOn::test_goes))]
fn tested<'a>(
    alloc: Global,
    scope: &Scope<'a>,
    place: Place,
    turns: u64,
    test: &'a Test,
    suite: &'a Suite,
    run: &Run,
    targets: &Targets,
) -> Result<Next<'a>, Halt>
    ensures leads { (units : List Routine) (lines : List RawLine) (ended : Bool) → Begins units (scope_of scope.now) place.line result (state_of run.now targets.now lines ended) (after (as_truth ((meaning units place.levels).holds (standing_at (scope_of scope.now) place.line) test.now (state_of run.now targets.now lines ended))) (resume units (scope_of scope.now) (for_truth place (while_test turns test.now suite.now)))) }
    ensures scope { IfOk result (λ next. below_next (scope_of scope.now) next ≡ (scope_of scope.now)) }
    ensures falls { IfOk result (λ next. next_weight next ≤ 5 + test_size test.now + suite_size suite.now + suite_size suite.now + test_size test.now) }
{
    match truth_at_once(alloc, scope, place, test, run, targets)? {
        Some(truth) => Ok(while_tested(place, turns, test, suite, truth)),
        None => Ok(Next::Wait(
            Waiting::Truth(place, ForTruth::WhileTest(turns, test, suite)),
            Work(place, Job::Try(test)),
        )),
    }
}

/// The next turn of WHILE, behind a suite that ended so. As many turns are left as were steps at its beginning.
#[tactic(auto, using(crate::proofs::Levels::turns_at_zero, crate::proofs::Levels::turns_less))]
pub fn turn_on<'a>(
    place: Place,
    turns: u64,
    test: &'a Test,
    suite: &'a Suite,
    exit: Exit,
) -> Result<Next<'a>, Halt>
    ensures leads { (units : List Routine) (scope : Names) (s : State) → Begins units scope place.line result s (resume_flow units (meaning units place.levels) (standing_at scope place.line) (while_body turns test.now suite.now) (flow_of exit) s) }
    ensures scope { (scope : Names) → IfOk result (λ next. below_next scope next ≡ scope) }
    ensures falls { IfOk result (λ next. next_weight next < 3 + test_size test.now + suite_size suite.now) }
{
    match exit {
        Exit::GoesOn => {
            if turns == 0 {
                return Err(Halt::Fault(RunFault::BudgetSpent));
            }
            Ok(Next::Go(Work(place, Job::Turn(turns - 1, test, suite))))
        }
        Exit::Quits => Ok(Next::Give(Reply::Went(Exit::Quits))),
        Exit::Returns(value) => Ok(Next::Give(Reply::Went(Exit::Returns(value)))),
        Exit::Reports(truth) => Ok(Next::Give(Reply::Went(Exit::Reports(truth)))),
    }
}

/// Goes on with this work behind a suite, unless a command left it.
pub fn unless_left<'a>(exit: Exit, work: Work<'a>) -> Next<'a>
    ensures leads { (units : List Routine) (scope : Names) (s : State) (others : State → Got Flow) → now units scope work.entry.0 (job_of work.entry.1) s ≡ as_flow (others s) → as_flow (then_on (flow_of exit) others s) ≡ begin_of units scope result s }
    ensures scope { (scope : Names) → below_next scope result ≡ scope }
    ensures falls { next_weight result ≤ job_weight (job_of work.entry.1) }
{
    match exit {
        Exit::GoesOn => Next::Go(work),
        Exit::Quits => Next::Give(Reply::Went(Exit::Quits)),
        Exit::Returns(value) => Next::Give(Reply::Went(Exit::Returns(value))),
        Exit::Reports(truth) => Next::Give(Reply::Went(Exit::Reports(truth))),
    }
}

/// The elements of a FOR that are left.
pub fn turns_over<'a>(
    alloc: Global,
    scope: &Scope<'a>,
    place: Place,
    bound: &'a Bound,
    suite: &'a Suite,
    mut elements: Train,
    run: &mut Run,
    targets: &mut Targets,
) -> Result<Next<'a>, Halt>
    ensures leads { (units : List Routine) (lines : List RawLine) (ended : Bool) → Begins units (scope_of scope.now) place.line result (state_of run.new targets.new lines ended) (doing units (meaning units place.levels) (standing_at (scope_of scope.now) place.line) (turns_over bound.now suite.now elements) (state_of run.old targets.old lines ended)) }
    ensures scope { IfOk result (λ next. below_next (scope_of scope.now) next ≡ scope_of scope.now) }
    ensures left { (run.new.left ≤ run.old.left) × (run.old.left ≤ run.new.left + 1) }
    ensures falls { (units : List Routine) → IfOk result (λ next. Falls units run.new.left (next_weight next) run.old.left (2 + suite_size suite.now)) }
{
    match elements.next(alloc)? {
        None => Ok(Next::Give(Reply::Went(Exit::GoesOn))),
        Some(element) => turn_over(
            alloc, scope, place, bound, suite, element, elements, run, targets,
        ),
    }
}

/// The turn of an element, which is a step, once the names are set to it.
fn turn_over<'a>(
    alloc: Global,
    scope: &Scope<'a>,
    place: Place,
    bound: &'a Bound,
    suite: &'a Suite,
    element: Value,
    elements: Train,
    run: &mut Run,
    targets: &mut Targets,
) -> Result<Next<'a>, Halt>
    ensures leads { (units : List Routine) (lines : List RawLine) (ended : Bool) → Begins units (scope_of scope.now) place.line result (state_of run.new targets.new lines ended) (doing units (meaning units place.levels) (standing_at (scope_of scope.now) place.line) (turns_over bound.now suite.now (element ∷ elements)) (state_of run.old targets.old lines ended)) }
    ensures scope { IfOk result (λ next. below_next (scope_of scope.now) next ≡ scope_of scope.now) }
    ensures left { (run.new.left ≤ run.old.left) × (run.old.left ≤ run.new.left + 1) }
    ensures falls { IfOk result (λ next. (run.new.left + 1 ≡ run.old.left) × (next_weight next ≡ 4 + suite_size suite.now + suite_size suite.now)) }
{
    run.spend()?;
    bind(alloc, scope, run, targets, bound, element)?;
    let elements = Boxed::new(alloc, elements)?;
    Ok(Next::Wait(
        Waiting::Flow(place, ForFlow::ForBody(bound, suite, elements)),
        Work(place, Job::PerformAll(suite, 0)),
    ))
}

/// Does with a value at an address what a command does.
fn change(
    alloc: Global,
    scope: &Scope<'_>,
    run: &mut Run,
    targets: &mut Targets,
    what: Changes,
    value: Value,
    spot: &Spot,
) -> Result<(), Halt>
    ensures agrees { (line : ℕ) (lines : List RawLine) (ended : Bool) → Agrees (λ _. tt) line result (state_of run.new targets.new lines ended) (change_by (standing_at (scope_of scope.now) line) what value (address_of spot.now) (state_of run.old targets.old lines ended)) }
    ensures left { run.new.left ≡ run.old.left }
{
    match what {
        Changes::Put => put(alloc, scope, run, targets, spot, value),
        Changes::Insert => insert(alloc, scope, run, targets, spot, value),
        Changes::Remove => remove(alloc, scope, run, targets, spot, value),
    }
}

/// A command that does this at an address ends with it.
fn change_there<'a>(
    alloc: Global,
    scope: &Scope<'a>,
    place: Place,
    what: Changes,
    value: Value,
    spot: &Spot,
    run: &mut Run,
    targets: &mut Targets,
) -> Result<Next<'a>, Halt>
    ensures leads { (units : List Routine) (lines : List RawLine) (ended : Bool) → Begins units (scope_of scope.now) place.line result (state_of run.new targets.new lines ended) (done (change_by (standing_at (scope_of scope.now) place.line) what value (address_of spot.now) (state_of run.old targets.old lines ended))) }
    ensures scope { IfOk result (λ next. below_next (scope_of scope.now) next ≡ scope_of scope.now) }
    ensures left { run.new.left ≡ run.old.left }
    ensures falls { IfOk result (λ next. next_weight next < 1) }
{
    change(alloc, scope, run, targets, what, value, spot)?;
    Ok(Next::Give(Reply::Went(Exit::GoesOn)))
}

/// The same at the address that an expression is: at once where it is found so.
#[tactic(auto, using(crate::proofs::Changing::address_goes, crate::proofs::Changing::address_stops))]
pub(crate) fn change_at<'a>(
    alloc: Global,
    scope: &Scope<'a>,
    place: Place,
    what: Changes,
    value: Value,
    address: &'a Expr,
    run: &mut Run,
    targets: &mut Targets,
) -> Result<Next<'a>, Halt>
    ensures leads { (units : List Routine) (lines : List RawLine) (ended : Bool) → Begins units (scope_of scope.now) place.line result (state_of run.new targets.new lines ended) (done (after (address_by (meaning units place.levels) (standing_at (scope_of scope.now) place.line) address.now (state_of run.old targets.old lines ended)) (change_by (standing_at (scope_of scope.now) place.line) what value))) }
    ensures scope { IfOk result (λ next. below_next (scope_of scope.now) next ≡ scope_of scope.now) }
    ensures left { run.new.left ≡ run.old.left }
    ensures falls { IfOk result (λ next. next_weight next < 3 + expr_size address.now) }
{
    match spot_at_once(alloc, scope, place, address, run, targets) {
        Ok(Some(spot)) => change_there(alloc, scope, place, what, value, &spot, run, targets),
        Ok(None) => Ok(change_to(place, what, value, address)),
        Err(halt) => Err(halt),
    }
}

/// How an address or a command goes on with the address for which it waited.
pub fn take_spot<'a>(
    alloc: Global,
    scope: &Scope<'a>,
    place: Place,
    frame: ForSpot<'a>,
    spot: Option<Spot>,
    run: &mut Run,
    targets: &mut Targets,
) -> Result<Next<'a>, Halt>
    ensures leads { (units : List Routine) (lines : List RawLine) (ended : Bool) → Begins units (scope_of scope.now) place.line result (state_of run.new targets.new lines ended) (resume_address units (meaning units place.levels) (standing_at (scope_of scope.now) place.line) (spot_frame frame.entry) (option_map address_of spot) (state_of run.old targets.old lines ended)) }
    ensures scope { IfOk result (λ next. below_next (scope_of scope.now) next ≡ (scope_of scope.now)) }
    ensures left { run.new.left ≡ run.old.left }
    ensures falls { IfOk result (λ next. next_weight next < address_weight (spot_frame frame.entry)) }
{
    match frame {
        ForSpot::SpotTable(key) => Ok(Next::Wait(
            Waiting::Action(place, ForAction::SpotKey(spot)),
            Work(place, Job::See(key)),
        )),
        ForSpot::SpotField(high, others, mut found) => {
            found.push(spot)?;
            Ok(Next::Go(Work(place, Job::FindRow(high, others, found))))
        }
        ForSpot::ChangePlace(what, value) => {
            let spot = whole(spot)?;
            change_there(alloc, scope, place, what, value, &spot, run, targets)
        }
        ForSpot::DeletePlace => {
            let spot = whole(spot)?;
            delete(alloc, scope, run, targets, &spot)?;
            Ok(Next::Give(Reply::Went(Exit::GoesOn)))
        }
    }
}

/// How an actual, an address or a command goes on with the value for which it waited.
pub fn take_action<'a>(
    alloc: Global,
    scope: &Scope<'a>,
    place: Place,
    frame: ForAction<'a>,
    value: Value,
    run: &mut Run,
    targets: &mut Targets,
) -> Result<Next<'a>, Halt>
    ensures leads { (units : List Routine) (lines : List RawLine) (ended : Bool) → Begins units (scope_of scope.now) place.line result (state_of run.new targets.new lines ended) (resume_action units (meaning units place.levels) (standing_at (scope_of scope.now) place.line) (action_frame frame.entry) (value) (state_of run.old targets.old lines ended)) }
    ensures scope { IfOk result (λ next. below_next (scope_of scope.now) next ≡ scope_of scope.now) }
    ensures left { run.new.left ≡ run.old.left }
    ensures falls { IfOk result (λ next. next_weight next < action_weight (action_frame frame.entry)) }
{
    match frame {
        ForAction::PlainActual => {
            let actual = Boxed::new(alloc, located(value, None))?;
            Ok(Next::Give(Reply::Actual(actual)))
        }
        ForAction::PartActual(table, spot) => {
            let part = selected(alloc, table.get(), &value)?;
            let spot = stepped(spot, value)?;
            let actual = Boxed::new(alloc, located(part, spot))?;
            Ok(Next::Give(Reply::Actual(actual)))
        }
        ForAction::SpotKey(spot) => {
            let spot = stepped(spot, value)?;
            Ok(Next::Give(Reply::Spot(spot)))
        }
        ForAction::WriteBetween(before, behind) => {
            run.write(alloc, before, Some(&value), behind)?;
            Ok(Next::Give(Reply::Went(Exit::GoesOn)))
        }
        ForAction::ChangeValue(what, address) => {
            change_at(alloc, scope, place, what, value, address, run, targets)
        }
        ForAction::ForTrain(bound, suite) => {
            let train = Train::of(alloc, value)?;
            let train = Boxed::new(alloc, train)?;
            Ok(Next::Go(Work(place, Job::TurnsOver(bound, suite, train))))
        }
        ForAction::ReturnValue => Ok(Next::Give(Reply::Went(Exit::Returns(value)))),
    }
}
