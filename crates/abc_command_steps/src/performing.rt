//! How commands begin: one of them, those of a suite, and the alternatives of a SELECT.
ghost use Rattle.std.specs.Prelude.{◌≡◌, ◌∷◌, [], ◌<◌, ◌≤◌, ◌+◌, ◌⊎◌, Bool, true, List, drop, IfNone, IfOk, IfSome, IsErrOf};
ghost use Rattle.abc_num.specs.declared.lines.RawLine.{RawLine};
ghost use Rattle.abc_tree.specs.declared.commands.Unit.{Unit as Routine};
ghost use Rattle.abc_tree.specs.declared.commands.ActionNode.{out-ActionNode};
ghost use Rattle.abc_tree.specs.declared.commands.ActionNode.TheOpen.{ActionNode-F};
ghost use Rattle.abc_frames.specs.Maps.{Targets as Store};
ghost use Rattle.abc_outside.specs.Outside.{RoseByOne};
ghost use Rattle.abc_outside.specs.Lines.{none_yet, Called, Failed};
ghost use Rattle.abc_meaning.specs.State.{State, after};
ghost use Rattle.abc_meaning.specs.Here.{Scope as Names};
ghost use Rattle.abc_meaning.specs.Changing.{delete, parts};
ghost use Rattle.abc_meaning.specs.Laws.{wants_line};
ghost use Rattle.abc_value.specs.declared.faults.RunFault.TheVariants.{TooDeep};
ghost use Rattle.abc_state.specs.declared.halt.Halt.TheVariants.{Fault};
ghost use Rattle.abc_meaning.specs.Addresses.{address as address_by};
ghost use Rattle.abc_meaning.specs.Acts.{acts_with};
ghost use Rattle.abc_meaning.specs.Calls.{suite as commands, then_on};
ghost use Rattle.abc_meaning.specs.PutBack.{command_call};
ghost use Rattle.abc_tree.specs.Units.{unit_of};
ghost use Rattle.abc_meaning.specs.Meaning.{meaning};
ghost use Rattle.abc_state.specs.Words.{with_lines};
ghost use Rattle.abc_state.specs.Views.{at as standing_at, flow_of, scope_of, state_of};
ghost use Rattle.abc_pending.specs.Leads.{as_flow, as_truth, as_val, change_by, doing, done, first_of, resume};
ghost use Rattle.abc_pending.specs.Pending.{change_value, choose, for_truth, if_test, in_action, perform_all};
ghost use Rattle.abc_pending.specs.Steps.{state_with, stop_of, Starts, TakesNoLine};
ghost use Rattle.abc_pending.specs.declared.pending.Next.TheVariants.{Give, Go, Wait};
ghost use Rattle.abc_pending.specs.declared.pending.Reply.TheVariants.{Went};
ghost use Rattle.abc_pending.specs.declared.pending.Waiting.TheVariants as waiting;
ghost use Rattle.abc_pending.specs.declared.pending.Job.TheVariants.{See, Try};
ghost use Rattle.abc_pending.specs.declared.stopped.Stopped.TheVariants.{Halted as OnLine};
ghost use Rattle.abc_pending.specs.Views.{Begins, begin_of, below_next, next_weight};
ghost use Rattle.abc_pending.specs.Weights.{Falls, action_size, alternatives_size, expr_size, exprs_size, first_size, if_expr, node_size, suite_size, test_size};

use crate::commands::change_at;
use abc_frames::Targets;
use abc_num::Items;
use abc_num::limits::MOST_TREE_HEIGHT;
use abc_outside::Lines;
use abc_pending::{
    Changes, ForAction, ForFlow, ForSpot, ForTruth, Halted, Job, Next, Place, Reply, Stopped,
    Waiting, Work, if_tested, truth_at_once, value_at_once,
};
use abc_state::{Exit, Halt, LineHalt, Run, Scope, literal_value, raw_value, take_line};
use abc_tree::{Action, ActionNode, Alternatives, Expr, Exprs, Suite, Template, Test};
use abc_value::{RunFault, Value};
use std::alloc::Global;

/// The item at this place, and the place behind it.
#[tactic(auto, using(crate::proofs::Fronts::front_is, crate::proofs::Fronts::none_behind))]
fn front<T>(items: &Items<T>, at: usize) -> Option<(&T, usize)>
    ensures some { IfSome result (λ p. drop at items.now ≡ p.0.now ∷ drop p.1 items.now) }
    ensures none { IfNone result (drop at items.now ≡ []) }
{
    if at >= items.len() {
        return None;
    }
    match items.get(at) {
        Some(item) => Some((item, at + 1)),
        None => None,
    }
}

/// The commands of a suite from this place on. Nothing waits for the end of the last one.
#[tactic(auto, using(crate::proofs::Alone::last_alone, crate::proofs::Fronts::none_behind))]
pub fn perform_all<'a>(place: Place, suite: &'a Suite, at: usize) -> Next<'a>
    ensures leads { (units : List Routine) (scope : Names) (s : State) → doing units (meaning units place.levels) (standing_at scope place.line) (perform_all (drop at suite.now)) s ≡ begin_of units scope result s }
    ensures scope { (scope : Names) → below_next scope result ≡ scope }
    ensures falls { next_weight result < 1 + suite_size (drop at suite.now) }
{
    let Some((_first, behind)) = front(suite, at) else {
        return Next::Give(Reply::Went(Exit::GoesOn));
    };
    let work = Work(place, Job::Perform(suite, at));
    if behind >= suite.len() {
        return Next::Go(work);
    }
    Next::Wait(
        Waiting::Flow(place, ForFlow::SuiteRest(suite, behind)),
        work,
    )
}

/// The same behind a command that ended so.
pub fn perform_rest<'a>(place: Place, suite: &'a Suite, at: usize, exit: Exit) -> Next<'a>
    ensures leads { (units : List Routine) (scope : Names) (s : State) → as_flow (then_on (flow_of exit) (commands (meaning units place.levels) (standing_at scope place.line) (drop at suite.now)) s) ≡ begin_of units scope result s }
    ensures scope { (scope : Names) → below_next scope result ≡ scope }
    ensures falls { next_weight result < 2 + suite_size (drop at suite.now) }
{
    match exit {
        Exit::GoesOn => perform_all(place, suite, at),
        Exit::Quits => Next::Give(Reply::Went(Exit::Quits)),
        Exit::Returns(value) => Next::Give(Reply::Went(Exit::Returns(value))),
        Exit::Reports(truth) => Next::Give(Reply::Went(Exit::Reports(truth))),
    }
}

/// The first alternative from this place on that succeeds. Its test stands on a line of its own.
pub fn choose<'a>(
    scope: &Scope<'a>,
    place: Place,
    all: &'a Alternatives,
    at: usize,
) -> Result<Next<'a>, Halt>
    ensures leads { (units : List Routine) (s : State) → Begins units (scope_of scope.now) place.line result s (doing units (meaning units place.levels) (standing_at (scope_of scope.now) place.line) (choose (drop at all.now)) s) }
    ensures scope { IfOk result (λ next. below_next (scope_of scope.now) next ≡ scope_of scope.now) }
    ensures falls { IfOk result (λ next. next_weight next < 2 + alternatives_size (drop at all.now)) }
{
    let Some((first, behind)) = front(all, at) else {
        return Err(Halt::Fault(RunFault::NoAlternative));
    };
    let there = Place {
        line: scope.line_at(first.line, place.line),
        levels: place.levels,
    };
    match &first.test {
        Some(test) => Ok(Next::Wait(
            Waiting::Truth(place, ForTruth::SelectTest(&first.suite, all, behind)),
            Work(there, Job::Try(test)),
        )),
        None => Ok(perform_all(place, &first.suite, 0)),
    }
}

/// The command of a suite at this place.
pub fn perform_at<'a, L: Lines>(
    alloc: Global,
    scope: &Scope<'a>,
    place: Place,
    suite: &'a Suite,
    at: usize,
    run: &mut Run,
    targets: &mut Targets,
    lines: &mut L,
) -> Result<Next<'a>, Stopped>
    ensures may_be { (input : L.Input) → L.may_be input lines.new → L.may_be input lines.old }
    ensures leads { (units : List Routine) (input : L.Input) → L.may_be input lines.new → Starts units (scope_of scope.now) result (state_with run.new targets.new (L.unread input lines.old)) (state_with run.new targets.new (L.unread input lines.new)) (as_flow (first_of units (meaning units place.levels) (standing_at (scope_of scope.now) place.line) (drop at suite.now) (state_with run.old targets.old (L.unread input lines.old)))) }
    ensures scope { IfOk result (λ next. below_next (scope_of scope.now) next ≡ scope_of scope.now) }
    ensures left { (run.new.left ≤ run.old.left) × (run.old.left ≤ run.new.left + 1) }
    ensures falls { (units : List Routine) → IfOk result (λ next. Falls units run.new.left (next_weight next) run.old.left (first_size (drop at suite.now))) }
    ensures bound { L.bound lines.new ≡ L.bound lines.old }
    ensures taken { L.taken lines.old ≤ L.taken lines.new }
    ensures long { IsErrOf result Stopped.Long → L.taken lines.new ≡ L.bound lines.new }
    ensures input { IsErrOf result Stopped.Input → RoseByOne (L.faults lines.old) (L.faults lines.new) }
    ensures faultless { ¬ (IsErrOf result Stopped.Input) → L.faults lines.new ≡ L.faults lines.old }
    ensures calls { Called L.reads_on (λ l. (l ≡ lines.old) × ((units : List Routine) (held : Store) → wants_line (as_flow (first_of units (meaning units place.levels) (standing_at (scope_of scope.now) place.line) (drop at suite.now) (state_with run.old held none_yet))) ≡ true)) lines.old lines.new }
    ensures failed { (IsErrOf result Stopped.Long ⊎ IsErrOf result Stopped.Input) → Failed L.failed (λ l. (l ≡ lines.old) × ((units : List Routine) (held : Store) → wants_line (as_flow (first_of units (meaning units place.levels) (standing_at (scope_of scope.now) place.line) (drop at suite.now) (state_with run.old held none_yet))) ≡ true)) lines.new }
{
    match front(suite, at) {
        None => Ok(Next::Give(Reply::Went(Exit::GoesOn))),
        Some((action, _behind)) => perform(alloc, scope, place, action, run, targets, lines),
    }
}

/// A command: its depth is tested, and then it is a step.
#[tactic(auto, using(crate::proofs::Levels::meaning_acts, crate::proofs::Levels::acts_at_zero))]
pub fn perform<'a, L: Lines>(
    alloc: Global,
    scope: &Scope<'a>,
    place: Place,
    action: &'a Action,
    run: &mut Run,
    targets: &mut Targets,
    lines: &mut L,
) -> Result<Next<'a>, Stopped>
    ensures may_be { (input : L.Input) → L.may_be input lines.new → L.may_be input lines.old }
    ensures leads { (units : List Routine) (input : L.Input) → L.may_be input lines.new → Starts units (scope_of scope.now) result (state_with run.new targets.new (L.unread input lines.old)) (state_with run.new targets.new (L.unread input lines.new)) (as_flow ((meaning units place.levels).acts (standing_at (scope_of scope.now) place.line) action.now (state_with run.old targets.old (L.unread input lines.old)))) }
    ensures scope { IfOk result (λ next. below_next (scope_of scope.now) next ≡ scope_of scope.now) }
    ensures left { (run.new.left ≤ run.old.left) × (run.old.left ≤ run.new.left + 1) }
    ensures falls { IfOk result (λ next. (run.new.left + 1 ≡ run.old.left) × (next_weight next < action_size action.now)) }
    ensures bound { L.bound lines.new ≡ L.bound lines.old }
    ensures taken { L.taken lines.old ≤ L.taken lines.new }
    ensures long { IsErrOf result Stopped.Long → L.taken lines.new ≡ L.bound lines.new }
    ensures input { IsErrOf result Stopped.Input → RoseByOne (L.faults lines.old) (L.faults lines.new) }
    ensures faultless { ¬ (IsErrOf result Stopped.Input) → L.faults lines.new ≡ L.faults lines.old }
    ensures calls { Called L.reads_on (λ l. (l ≡ lines.old) × ((units : List Routine) (held : Store) → wants_line (as_flow ((meaning units place.levels).acts (standing_at (scope_of scope.now) place.line) action.now (state_with run.old held none_yet))) ≡ true)) lines.old lines.new }
    ensures failed { (IsErrOf result Stopped.Long ⊎ IsErrOf result Stopped.Input) → Failed L.failed (λ l. (l ≡ lines.old) × ((units : List Routine) (held : Store) → wants_line (as_flow ((meaning units place.levels).acts (standing_at (scope_of scope.now) place.line) action.now (state_with run.old held none_yet))) ≡ true)) lines.new }
{
    let line = scope.line_at(action.line, place.line);
    if place.levels == 0 {
        return Err(too_deep(line));
    }
    let inner = Place {
        line,
        levels: place.levels - 1,
    };
    match run.spend() {
        Ok(()) => act(alloc, scope, inner, &action.node, run, targets, lines),
        Err(halt) => Err(Stopped::Halted(Halted { line, halt })),
    }
}

/// Too many levels, told on this line.
fn too_deep(line: u32) -> Stopped
    ensures { result ≡ OnLine (record { line = line; halt = Fault TooDeep }) }
{
    Stopped::Halted(Halted {
        line,
        halt: Halt::Fault(RunFault::TooDeep),
    })
}

/// What a command does first, once it is a step.
fn act<'a, L: Lines>(
    alloc: Global,
    scope: &Scope<'a>,
    place: Place,
    node: &'a ActionNode,
    run: &mut Run,
    targets: &mut Targets,
    lines: &mut L,
) -> Result<Next<'a>, Stopped>
    ensures may_be { (input : L.Input) → L.may_be input lines.new → L.may_be input lines.old }
    ensures leads { (units : List Routine) (input : L.Input) → L.may_be input lines.new → Starts units (scope_of scope.now) result (state_with run.new targets.new (L.unread input lines.old)) (state_with run.new targets.new (L.unread input lines.new)) (as_flow (acts_with units (meaning units place.levels) (standing_at (scope_of scope.now) place.line) (out-ActionNode node.now) (state_with run.old targets.old (L.unread input lines.old)))) }
    ensures scope { IfOk result (λ next. below_next (scope_of scope.now) next ≡ scope_of scope.now) }
    ensures left { run.new.left ≡ run.old.left }
    ensures falls { IfOk result (λ next. next_weight next < node_size node.now) }
    ensures bound { L.bound lines.new ≡ L.bound lines.old }
    ensures taken { L.taken lines.old ≤ L.taken lines.new }
    ensures long { IsErrOf result Stopped.Long → L.taken lines.new ≡ L.bound lines.new }
    ensures input { IsErrOf result Stopped.Input → RoseByOne (L.faults lines.old) (L.faults lines.new) }
    ensures faultless { ¬ (IsErrOf result Stopped.Input) → L.faults lines.new ≡ L.faults lines.old }
    ensures calls { Called L.reads_on (λ l. (l ≡ lines.old) × ((units : List Routine) (names : Names) (held : Store) → wants_line (as_flow (acts_with units (meaning units place.levels) (standing_at names place.line) (out-ActionNode node.now) (state_with run.old held none_yet))) ≡ true)) lines.old lines.new }
    ensures failed { (IsErrOf result Stopped.Long ⊎ IsErrOf result Stopped.Input) → Failed L.failed (λ l. (l ≡ lines.old) × ((units : List Routine) (names : Names) (held : Store) → wants_line (as_flow (acts_with units (meaning units place.levels) (standing_at names place.line) (out-ActionNode node.now) (state_with run.old held none_yet))) ≡ true)) lines.new }
{
    match node {
        ActionNode::ReadExample { address, example } => {
            read_example(alloc, place, address, example, lines)
        }
        ActionNode::ReadRaw { address } => read_raw(alloc, place, address, lines),
        node => match act_alone(alloc, scope, place, node, run, targets) {
            Ok(next) => Ok(next),
            Err(halt) => Err(Stopped::Halted(Halted {
                line: place.line,
                halt,
            })),
        },
    }
}

/// The same of a command that takes no line.
#[tactic(auto, using(crate::proofs::Acting::deleted, crate::proofs::Acting::check_later, crate::proofs::Acting::if_later))]
fn act_alone<'a>(
    alloc: Global,
    scope: &Scope<'a>,
    place: Place,
    node: &'a ActionNode,
    run: &mut Run,
    targets: &mut Targets,
) -> Result<Next<'a>, Halt>
    requires { TakesNoLine (out-ActionNode node.now) }
    ensures leads { (units : List Routine) (lines : List RawLine) (ended : Bool) → Begins units (scope_of scope.now) place.line result (state_of run.new targets.new lines ended) (as_flow (acts_with units (meaning units place.levels) (standing_at (scope_of scope.now) place.line) (out-ActionNode node.now) (state_of run.old targets.old lines ended))) }
    ensures scope { IfOk result (λ next. below_next (scope_of scope.now) next ≡ scope_of scope.now) }
    ensures left { run.new.left ≡ run.old.left }
    ensures falls { IfOk result (λ next. next_weight next < node_size node.now) }
{
    match node {
        ActionNode::Write {
            before,
            part,
            after,
        } => write(alloc, place, *before, part, *after, run),
        ActionNode::Put { value, address } => {
            let what = Changes::Put;
            change(alloc, scope, place, what, value, address, run, targets)
        }
        ActionNode::Insert { value, address } => {
            let what = Changes::Insert;
            change(alloc, scope, place, what, value, address, run, targets)
        }
        ActionNode::Remove { value, address } => {
            let what = Changes::Remove;
            change(alloc, scope, place, what, value, address, run, targets)
        }
        ActionNode::Delete { address } => Ok(delete(place, address)),
        ActionNode::ReadExample { .. } => unreachable!(),
        ActionNode::ReadRaw { .. } => unreachable!(),
        ActionNode::Check(test) => Ok(try_for(place, ForTruth::CheckTest, test)),
        ActionNode::Pass => Ok(leaving(Exit::GoesOn)),
        ActionNode::If(test, suite) => if_first(alloc, scope, place, test, suite, run, targets),
        ActionNode::Select(all) => Ok(go(place, Job::Choose(all, 0))),
        ActionNode::While(test, suite) => Ok(go(place, Job::Turn(run.left, test, suite))),
        ActionNode::For {
            names,
            train,
            suite,
        } => Ok(see_for(place, ForAction::ForTrain(names, suite), train)),
        ActionNode::Quit => Ok(leaving(Exit::Quits)),
        ActionNode::Return(e) => Ok(see_for(place, ForAction::ReturnValue, e)),
        ActionNode::Report(test) => Ok(try_for(place, ForTruth::ReportTest, test)),
        ActionNode::Succeed => Ok(leaving(Exit::Reports(true))),
        ActionNode::Fail => Ok(leaving(Exit::Reports(false))),
        ActionNode::Call(template, es) => Ok(call(alloc, place, template, es)),
        ActionNode::Refinement(name) => Ok(go(place, Job::RefineCommand(name))),
    }
}

/// A command that ends so.
fn leaving<'a>(exit: Exit) -> Next<'a>
    ensures { result ≡ Give (Went exit) }
{
    Next::Give(Reply::Went(exit))
}

/// A command that is other work.
fn go<'a>(place: Place, job: Job<'a>) -> Next<'a>
    ensures { result ≡ Go (record { 0 = place; 1 = job.entry }) }
{
    Next::Go(Work(place, job))
}

/// A call: its actuals come first.
fn call<'a>(alloc: Global, place: Place, template: &'a Template, es: &'a Exprs) -> Next<'a>
    ensures leads { (units : List Routine) (scope : Names) (s : State) → as_flow (command_call (meaning units place.levels) (standing_at scope place.line) (unit_of template.now units) es.now s) ≡ begin_of units scope result s }
    ensures scope { (scope : Names) → below_next scope result ≡ scope }
    ensures falls { next_weight result ≡ 3 + exprs_size es.now }
{
    let found = Vec::new(alloc);
    go(place, Job::SeeActuals(template, es.as_slice(), found))
}

/// A command that needs a value first.
fn see_for<'a>(place: Place, frame: ForAction<'a>, e: &'a Expr) -> Next<'a>
    ensures { result ≡ Wait (waiting.Action place frame.entry) (record { 0 = place; 1 = See e.entry }) }
{
    Next::Wait(Waiting::Action(place, frame), Work(place, Job::See(e)))
}

/// A command that needs a test first.
fn try_for<'a>(place: Place, frame: ForTruth<'a>, test: &'a Test) -> Next<'a>
    ensures { result ≡ Wait (waiting.Truth place frame.entry) (record { 0 = place; 1 = Try test.entry }) }
{
    Next::Wait(Waiting::Truth(place, frame), Work(place, Job::Try(test)))
}

/// IF: its test comes first. Where it is found at once the command goes on with its answer.
#[tactic(auto, using(abc_pending::proofs::GoingOn::test_stops, abc_pending::proofs::GoingOn::test_goes))]
fn if_first<'a>(
    alloc: Global,
    scope: &Scope<'a>,
    place: Place,
    test: &'a Test,
    suite: &'a Suite,
    run: &Run,
    targets: &Targets,
) -> Result<Next<'a>, Halt>
    ensures leads { (units : List Routine) (lines : List RawLine) (ended : Bool) → Begins units (scope_of scope.now) place.line result (state_of run.now targets.now lines ended) (after (as_truth ((meaning units place.levels).holds (standing_at (scope_of scope.now) place.line) test.now (state_of run.now targets.now lines ended))) (resume units (scope_of scope.now) (for_truth place (if_test suite.now)))) }
    ensures scope { IfOk result (λ next. below_next (scope_of scope.now) next ≡ scope_of scope.now) }
    ensures falls { IfOk result (λ next. next_weight next < 4 + test_size test.now + suite_size suite.now) }
{
    match truth_at_once(alloc, scope, place, test, run, targets)? {
        Some(truth) => Ok(if_tested(place, suite, truth)),
        None => Ok(try_for(place, ForTruth::IfTest(suite), test)),
    }
}

/// WRITE: without a part it is written at once.
#[tactic(auto, using(crate::proofs::Acting::write_later, abc_pending::proofs::GoingOn::goes_on_after))]
fn write<'a>(
    alloc: Global,
    place: Place,
    before: u32,
    part: &'a Option<Expr>,
    behind: u32,
    run: &mut Run,
) -> Result<Next<'a>, Halt>
    ensures leads { (units : List Routine) (scope : Names) (targets : Store) (lines : List RawLine) (ended : Bool) → Begins units scope place.line result (state_of run.new targets lines ended) (as_flow (acts_with units (meaning units place.levels) (standing_at scope place.line) (ActionNode-F.Write before part.now behind) (state_of run.old targets lines ended))) }
    ensures scope { (scope : Names) → IfOk result (λ next. below_next scope next ≡ scope) }
    ensures left { run.new.left ≡ run.old.left }
    ensures falls { IfOk result (λ next. next_weight next < 2 + if_expr part.now) }
{
    match part {
        Some(e) => Ok(see_for(place, ForAction::WriteBetween(before, behind), e)),
        None => {
            run.write(alloc, before, None, behind)?;
            Ok(leaving(Exit::GoesOn))
        }
    }
}

/// PUT, INSERT and REMOVE: the value comes before the keys of the address. Where it is found at once the change goes on with it.
#[tactic(auto, using(abc_pending::proofs::GoingOn::wait_stops, abc_pending::proofs::GoingOn::wait_goes, abc_pending::proofs::Falling::lighter))]
fn change<'a>(
    alloc: Global,
    scope: &Scope<'a>,
    place: Place,
    what: Changes,
    value: &'a Expr,
    address: &'a Expr,
    run: &mut Run,
    targets: &mut Targets,
) -> Result<Next<'a>, Halt>
    ensures leads { (units : List Routine) (lines : List RawLine) (ended : Bool) → Begins units (scope_of scope.now) place.line result (state_of run.new targets.new lines ended) (after (as_val ((meaning units place.levels).value (standing_at (scope_of scope.now) place.line) value.now (state_of run.old targets.old lines ended))) (resume units (scope_of scope.now) (in_action place (change_value what address.now)))) }
    ensures scope { IfOk result (λ next. below_next (scope_of scope.now) next ≡ scope_of scope.now) }
    ensures left { run.new.left ≡ run.old.left }
    ensures falls { IfOk result (λ next. next_weight next < 6 + expr_size value.now + expr_size address.now) }
{
    match value_at_once(alloc, scope, place, value, run, targets)? {
        Some(found) => change_at(alloc, scope, place, what, found, address, run, targets),
        None => Ok(see_for(place, ForAction::ChangeValue(what, address), value)),
    }
}

/// DELETE: the keys of the address, and then what is there.
#[tactic(auto, using(crate::proofs::Acting::delete_later))]
fn delete<'a>(place: Place, address: &'a Expr) -> Next<'a>
    ensures leads { (units : List Routine) (scope : Names) (s : State) → done (after (address_by (meaning units place.levels) (standing_at scope place.line) address.now s) (λ a. delete (standing_at scope place.line) (parts a))) ≡ begin_of units scope result s }
    ensures scope { (scope : Names) → below_next scope result ≡ scope }
    ensures falls { next_weight result ≡ 2 + expr_size address.now }
{
    Next::Wait(
        Waiting::Spot(place, ForSpot::DeletePlace),
        Work(place, Job::Find(MOST_TREE_HEIGHT + 1, address)),
    )
}

/// A value is there: the keys of the address, and then the change.
#[tactic(auto, using(crate::proofs::Acting::change_later))]
pub fn change_to<'a>(place: Place, what: Changes, value: Value, address: &'a Expr) -> Next<'a>
    ensures leads { (units : List Routine) (scope : Names) (s : State) → done (after (address_by (meaning units place.levels) (standing_at scope place.line) address.now s) (change_by (standing_at scope place.line) what value)) ≡ begin_of units scope result s }
    ensures scope { (scope : Names) → below_next scope result ≡ scope }
    ensures falls { next_weight result ≡ 2 + expr_size address.now }
{
    Next::Wait(
        Waiting::Spot(place, ForSpot::ChangePlace(what, value)),
        Work(place, Job::Find(MOST_TREE_HEIGHT + 1, address)),
    )
}

/// READ of a value: the line is taken and tested before the keys of the address.
fn read_example<'a, L: Lines>(
    alloc: Global,
    place: Place,
    address: &'a Expr,
    example: &Expr,
    lines: &mut L,
) -> Result<Next<'a>, Stopped>
    ensures may_be { (input : L.Input) → L.may_be input lines.new → L.may_be input lines.old }
    ensures leads { (units : List Routine) (scope : Names) (s : State) (input : L.Input) → L.may_be input lines.new → Starts units scope result (with_lines (L.unread input lines.old) s) (with_lines (L.unread input lines.new) s) (as_flow (acts_with units (meaning units place.levels) (standing_at scope place.line) (ActionNode-F.ReadExample address.now example.now) (with_lines (L.unread input lines.old) s))) }
    ensures scope { (scope : Names) → IfOk result (λ next. below_next scope next ≡ scope) }
    ensures falls { IfOk result (λ next. next_weight next ≡ 2 + expr_size address.now) }
    ensures bound { L.bound lines.new ≡ L.bound lines.old }
    ensures taken { L.taken lines.old ≤ L.taken lines.new }
    ensures long { IsErrOf result Stopped.Long → L.taken lines.new ≡ L.bound lines.new }
    ensures input { IsErrOf result Stopped.Input → RoseByOne (L.faults lines.old) (L.faults lines.new) }
    ensures faultless { ¬ (IsErrOf result Stopped.Input) → L.faults lines.new ≡ L.faults lines.old }
    ensures calls { Called L.reads_on (λ l. (l ≡ lines.old) × ((units : List Routine) (scope : Names) (s : State) → wants_line (as_flow (acts_with units (meaning units place.levels) (standing_at scope place.line) (ActionNode-F.ReadExample address.now example.now) (with_lines none_yet s))) ≡ true)) lines.old lines.new }
    ensures failed { (IsErrOf result Stopped.Long ⊎ IsErrOf result Stopped.Input) → Failed L.failed (λ l. (l ≡ lines.old) × ((units : List Routine) (scope : Names) (s : State) → wants_line (as_flow (acts_with units (meaning units place.levels) (standing_at scope place.line) (ActionNode-F.ReadExample address.now example.now) (with_lines none_yet s))) ≡ true)) lines.new }
{
    let line = match take_line(lines) {
        Ok(line) => line,
        Err(halt) => return Err(stopped(place, halt)),
    };
    match literal_value(alloc, example, &line) {
        Ok(value) => Ok(change_to(place, Changes::Put, value, address)),
        Err(halt) => Err(Stopped::Halted(Halted {
            line: place.line,
            halt,
        })),
    }
}

/// READ of a line as a text: the line is taken and tested before the keys of the address.
fn read_raw<'a, L: Lines>(
    alloc: Global,
    place: Place,
    address: &'a Expr,
    lines: &mut L,
) -> Result<Next<'a>, Stopped>
    ensures may_be { (input : L.Input) → L.may_be input lines.new → L.may_be input lines.old }
    ensures leads { (units : List Routine) (scope : Names) (s : State) (input : L.Input) → L.may_be input lines.new → Starts units scope result (with_lines (L.unread input lines.old) s) (with_lines (L.unread input lines.new) s) (as_flow (acts_with units (meaning units place.levels) (standing_at scope place.line) (ActionNode-F.ReadRaw address.now) (with_lines (L.unread input lines.old) s))) }
    ensures scope { (scope : Names) → IfOk result (λ next. below_next scope next ≡ scope) }
    ensures falls { IfOk result (λ next. next_weight next ≡ 2 + expr_size address.now) }
    ensures bound { L.bound lines.new ≡ L.bound lines.old }
    ensures taken { L.taken lines.old ≤ L.taken lines.new }
    ensures long { IsErrOf result Stopped.Long → L.taken lines.new ≡ L.bound lines.new }
    ensures input { IsErrOf result Stopped.Input → RoseByOne (L.faults lines.old) (L.faults lines.new) }
    ensures faultless { ¬ (IsErrOf result Stopped.Input) → L.faults lines.new ≡ L.faults lines.old }
    ensures calls { Called L.reads_on (λ l. (l ≡ lines.old) × ((units : List Routine) (scope : Names) (s : State) → wants_line (as_flow (acts_with units (meaning units place.levels) (standing_at scope place.line) (ActionNode-F.ReadRaw address.now) (with_lines none_yet s))) ≡ true)) lines.old lines.new }
    ensures failed { (IsErrOf result Stopped.Long ⊎ IsErrOf result Stopped.Input) → Failed L.failed (λ l. (l ≡ lines.old) × ((units : List Routine) (scope : Names) (s : State) → wants_line (as_flow (acts_with units (meaning units place.levels) (standing_at scope place.line) (ActionNode-F.ReadRaw address.now) (with_lines none_yet s))) ≡ true)) lines.new }
{
    let line = match take_line(lines) {
        Ok(line) => line,
        Err(halt) => return Err(stopped(place, halt)),
    };
    match raw_value(alloc, &line) {
        Ok(value) => Ok(change_to(place, Changes::Put, value, address)),
        Err(halt) => Err(Stopped::Halted(Halted {
            line: place.line,
            halt,
        })),
    }
}

/// Why no line was taken, told on the line of this place.
fn stopped(place: Place, halt: LineHalt) -> Stopped
    ensures { result ≡ stop_of place.line halt }
{
    match halt {
        LineHalt::Fault(fault) => Stopped::Halted(Halted {
            line: place.line,
            halt: Halt::Fault(fault),
        }),
        LineHalt::Long => Stopped::Long,
        LineHalt::Input => Stopped::Input,
    }
}
