//! How the work on tests begins, and how it goes on with the answer for which it waited.
ghost use Rattle.std.specs.Prelude.{◌≡◌, ◌∷◌, not, ◌<◌, ◌≤◌, ◌+◌, Bool, List, IfOk, drop};
ghost use Rattle.abc_num.specs.declared.lines.RawLine.{RawLine};
ghost use Rattle.abc_tree.specs.declared.formulas.Test.{out-Test};
ghost use Rattle.abc_tree.specs.declared.formulas.Test.TheOpen.{Test-F};
ghost use Rattle.abc_tree.specs.declared.commands.Unit.{Unit as Routine};
ghost use Rattle.abc_meaning.specs.State.{State, after};
ghost use Rattle.abc_meaning.specs.Here.{Scope as Names};
ghost use Rattle.abc_meaning.specs.Holds.{holds_with, decides, if_decided};
ghost use Rattle.abc_meaning.specs.Meaning.{meaning};
ghost use Rattle.abc_state.specs.Views.{at, scope_of, state_of};
ghost use Rattle.abc_acts.specs.Views.{held_of};
ghost use Rattle.abc_pending.specs.Leads.{as_val, as_truth, resume, resume_test, resume_truth, doing};
ghost use Rattle.abc_pending.specs.Pending.{chain_next, compare, in_test, quantify, select_test, train, try};
ghost use Rattle.abc_pending.specs.Views.{Begins, begin_of, below_next, next_weight, test_frame, truth_frame};
ghost use Rattle.abc_pending.specs.Weights.{Falls, alternatives_size, expr_size, links_size, suite_size, test_size, test_weight, truth_weight};

use abc_acts::{Held, Train, bind, give_back, keep_names};
use abc_frames::Targets;
use abc_num::{Boxed, Items};
use abc_pending::{
    ForTest, ForTruth, Job, Next, Place, Purpose, Reply, Waiting, Wanted, Work, if_tested,
    value_at_once, while_tested,
};
use abc_state::{Exit, Halt, Run, Scope, compared};
use abc_tree::{Alternatives, Bound, Expr, Link, Op, Quantifier, Suite, Test};
use abc_value::{RunFault, Value};
use std::alloc::Global;

/// The work on a test, where so many levels are left.
#[tactic(auto, using(abc_pending::proofs::Levels::meaning_holds, abc_pending::proofs::Levels::holds_at_zero))]
pub fn try_test<'a>(
    alloc: Global,
    scope: &Scope<'a>,
    place: Place,
    test: &'a Test,
    run: &Run,
    targets: &Targets,
) -> Result<Next<'a>, Halt>
    ensures leads { (units : List Routine) (lines : List RawLine) (ended : Bool) → Begins units (scope_of scope.now) place.line result (state_of run.now targets.now lines ended) (doing units (meaning units place.levels) (at (scope_of scope.now) place.line) (try test.now) (state_of run.now targets.now lines ended)) }
    ensures scope { IfOk result (λ next. below_next (scope_of scope.now) next ≡ (scope_of scope.now)) }
    ensures falls { IfOk result (λ next. next_weight next < test_size test.now) }
{
    if place.levels == 0 {
        return Err(Halt::Fault(RunFault::TooDeep));
    }
    let inner = Place {
        line: place.line,
        levels: place.levels - 1,
    };
    try_node(alloc, scope, inner, test, run, targets)
}

/// The same, one level deeper.
fn try_node<'a>(
    alloc: Global,
    scope: &Scope<'a>,
    place: Place,
    test: &'a Test,
    run: &Run,
    targets: &Targets,
) -> Result<Next<'a>, Halt>
    ensures leads { (units : List Routine) (lines : List RawLine) (ended : Bool) → Begins units (scope_of scope.now) place.line result (state_of run.now targets.now lines ended) (as_truth (holds_with units (meaning units place.levels) (at (scope_of scope.now) place.line) (out-Test test.now) (state_of run.now targets.now lines ended))) }
    ensures scope { IfOk result (λ next. below_next (scope_of scope.now) next ≡ (scope_of scope.now)) }
    ensures falls { IfOk result (λ next. next_weight next < test_size test.now) }
{
    match test {
        Test::Chain(first, links) => {
            see_chain(alloc, scope, place, first, links.as_slice(), run, targets)
        }
        Test::Member(op, e, t) => Ok(Next::Wait(
            Waiting::Test(place, ForTest::MemberLeft(*op, t)),
            Work(place, Job::See(e)),
        )),
        Test::And(left, right) => Ok(Next::Wait(
            Waiting::Truth(place, ForTruth::AndThen(right)),
            Work(place, Job::Try(left.get())),
        )),
        Test::Or(left, right) => Ok(Next::Wait(
            Waiting::Truth(place, ForTruth::OrElse(right)),
            Work(place, Job::Try(left.get())),
        )),
        Test::Not(inner) => Ok(Next::Wait(
            Waiting::Truth(place, ForTruth::Negated),
            Work(place, Job::Try(inner.get())),
        )),
        Test::Quantified(quantifier, bound, train, inner) => Ok(Next::Wait(
            Waiting::Test(place, ForTest::Train(*quantifier, bound, inner)),
            Work(place, Job::See(train)),
        )),
        Test::Call(template, es) => Ok(Next::Go(Work(
            place,
            Job::SeeRow(
                Purpose::Call(Wanted::Truth, template),
                es.as_slice(),
                Vec::new(alloc),
            ),
        ))),
        Test::Refinement(i) => Ok(Next::Go(Work(place, Job::Refine(Wanted::Truth, i.0)))),
    }
}

/// A chain of relations, from its first operand on.
#[tactic(auto, using(crate::proofs::AtOnce::truth_goes, abc_pending::proofs::Falling::lighter))]
fn see_chain<'a>(
    alloc: Global,
    scope: &Scope<'a>,
    place: Place,
    first: &'a Expr,
    links: &'a [Link],
    run: &Run,
    targets: &Targets,
) -> Result<Next<'a>, Halt>
    ensures leads { (units : List Routine) (lines : List RawLine) (ended : Bool) → Begins units (scope_of scope.now) place.line result (state_of run.now targets.now lines ended) (as_truth (holds_with units (meaning units place.levels) (at (scope_of scope.now) place.line) (Test-F.Chain first.now links.now) (state_of run.now targets.now lines ended))) }
    ensures scope { IfOk result (λ next. below_next (scope_of scope.now) next ≡ (scope_of scope.now)) }
    ensures falls { IfOk result (λ next. next_weight next < 4 + expr_size first.now + links_size links.now) }
{
    match value_at_once(alloc, scope, place, first, run, targets)? {
        Some(value) => compare(alloc, scope, place, value, links, run, targets),
        None => Ok(Next::Wait(
            Waiting::Test(place, ForTest::ChainFirst(links)),
            Work(place, Job::See(first)),
        )),
    }
}

/// What a quantifier is where no element decides it.
fn unless_decided(quantifier: Quantifier) -> bool
    ensures { result ≡ not (if_decided quantifier) }
{
    match quantifier {
        Quantifier::Exists => false,
        Quantifier::Each => true,
        Quantifier::No => true,
    }
}

/// Whether the truth value of an element's test decides a quantifier.
fn decides(quantifier: Quantifier, truth: bool) -> bool
    ensures { result ≡ decides quantifier truth }
{
    match quantifier {
        Quantifier::Exists => truth,
        Quantifier::Each => !truth,
        Quantifier::No => truth,
    }
}

/// What a quantifier is where an element decides it.
fn if_decided(quantifier: Quantifier) -> bool
    ensures { result ≡ if_decided quantifier }
{
    match quantifier {
        Quantifier::Exists => true,
        Quantifier::Each => false,
        Quantifier::No => false,
    }
}

/// A quantifier over the elements of a value, with what its names have now.
fn over_train<'a>(
    alloc: Global,
    scope: &Scope<'a>,
    place: Place,
    quantifier: Quantifier,
    bound: &'a Bound,
    test: &'a Boxed<Test>,
    value: Value,
    run: &Run,
    targets: &Targets,
) -> Result<Next<'a>, Halt>
    ensures leads { (units : List Routine) (lines : List RawLine) (ended : Bool) → Begins units (scope_of scope.now) place.line result (state_of run.now targets.now lines ended) (resume_test units (meaning units place.levels) (at (scope_of scope.now) place.line) (train quantifier bound.now test.now) (value) (state_of run.now targets.now lines ended)) }
    ensures scope { IfOk result (λ next. below_next (scope_of scope.now) next ≡ (scope_of scope.now)) }
    ensures falls { IfOk result (λ next. next_weight next < 3 + test_size test.now) }
{
    let train = Train::of(alloc, value)?;
    let train = Boxed::new(alloc, train)?;
    let before = keep_names(alloc, scope, run, targets, bound)?;
    Ok(Next::Go(Work(place, Job::Quantify(quantifier, bound, test, before, train))))
}

/// A chain of relations with the right operand of one: it ends with one that fails, and with the last.
fn take_link<'a>(
    alloc: Global,
    place: Place,
    left: &Value,
    op: Op,
    links: &'a [Link],
    value: Value,
) -> Result<Next<'a>, Halt>
    ensures leads { (units : List Routine) (scope : Names) (s : State) → Begins units scope place.line result s (resume_test units (meaning units place.levels) (at scope place.line) (chain_next left.now op links.now) value s) }
    ensures scope { (scope : Names) → IfOk result (λ next. below_next scope next ≡ scope) }
    ensures falls { IfOk result (λ next. next_weight next < 3 + links_size links.now) }
{
    if !compared(alloc, op, left, &value)? {
        return Ok(Next::Give(Reply::Truth(false)));
    }
    match links {
        [] => Ok(Next::Give(Reply::Truth(true))),
        [_next, ..] => {
            let value = Boxed::new(alloc, value)?;
            Ok(Next::Go(Work(place, Job::Compare(value, links))))
        }
    }
}

/// How a test goes on with the value for which it waited.
pub fn take_test<'a>(
    alloc: Global,
    scope: &Scope<'a>,
    place: Place,
    frame: ForTest<'a>,
    value: Value,
    run: &Run,
    targets: &Targets,
) -> Result<Next<'a>, Halt>
    ensures leads { (units : List Routine) (lines : List RawLine) (ended : Bool) → Begins units (scope_of scope.now) place.line result (state_of run.now targets.now lines ended) (resume_test units (meaning units place.levels) (at (scope_of scope.now) place.line) (test_frame frame.entry) (value) (state_of run.now targets.now lines ended)) }
    ensures scope { IfOk result (λ next. below_next (scope_of scope.now) next ≡ (scope_of scope.now)) }
    ensures falls { IfOk result (λ next. next_weight next < test_weight (test_frame frame.entry)) }
{
    match frame {
        ForTest::ChainFirst(links) => {
            let value = Boxed::new(alloc, value)?;
            Ok(Next::Go(Work(place, Job::Compare(value, links))))
        }
        ForTest::ChainNext(left, op, links) => {
            take_link(alloc, place, left.get(), op, links, value)
        }
        ForTest::MemberLeft(op, train) => Ok(Next::Wait(
            Waiting::Test(place, ForTest::MemberRight(op, value)),
            Work(place, Job::See(train)),
        )),
        ForTest::MemberRight(op, left) => {
            let truth = compared(alloc, op, &left, &value)?;
            Ok(Next::Give(Reply::Truth(truth)))
        }
        ForTest::Train(quantifier, bound, test) => over_train(
            alloc, scope, place, quantifier, bound, test, value, run, targets,
        ),
    }
}

/// How a test or a command goes on with the truth value for which it waited.
pub fn take_truth<'a>(place: Place, frame: ForTruth<'a>, truth: bool) -> Result<Next<'a>, Halt>
    ensures leads { (units : List Routine) (scope : Names) (s : State) → Begins units scope place.line result s (resume_truth units (meaning units place.levels) (at scope place.line) (truth_frame frame.entry) (truth) s) }
    ensures scope { (scope : Names) → IfOk result (λ next. below_next scope next ≡ scope) }
    ensures falls { IfOk result (λ next. next_weight next < truth_weight (truth_frame frame.entry)) }
{
    match frame {
        ForTruth::Negated => Ok(Next::Give(Reply::Truth(!truth))),
        ForTruth::AndThen(test) => {
            if truth {
                Ok(Next::Go(Work(place, Job::Try(test.get()))))
            } else {
                Ok(Next::Give(Reply::Truth(false)))
            }
        }
        ForTruth::OrElse(test) => {
            if truth {
                Ok(Next::Give(Reply::Truth(true)))
            } else {
                Ok(Next::Go(Work(place, Job::Try(test.get()))))
            }
        }
        ForTruth::ElementTest(quantifier, bound, test, before, train) => {
            if decides(quantifier, truth) {
                Ok(Next::Give(Reply::Truth(if_decided(quantifier))))
            } else {
                Ok(Next::Go(Work(place, Job::Quantify(quantifier, bound, test, before, train))))
            }
        }
        ForTruth::CheckTest => {
            if truth {
                Ok(Next::Give(Reply::Went(Exit::GoesOn)))
            } else {
                Err(Halt::Fault(RunFault::CheckFailed))
            }
        }
        ForTruth::IfTest(suite) => Ok(if_tested(place, suite, truth)),
        ForTruth::SelectTest(suite, others, at) => {
            Ok(alternative_tested(place, suite, others, at, truth))
        }
        ForTruth::WhileTest(turns, test, suite) => {
            Ok(while_tested(place, turns, test, suite, truth))
        }
        ForTruth::ReportTest => Ok(Next::Give(Reply::Went(Exit::Reports(truth)))),
    }
}

/// The suite of an alternative, where its test holds, or else the alternatives behind it.
fn alternative_tested<'a>(
    place: Place,
    suite: &'a Suite,
    others: &'a Alternatives,
    from: usize,
    truth: bool,
) -> Next<'a>
    ensures leads { (units : List Routine) (scope : Names) (s : State) → resume_truth units (meaning units place.levels) (at scope place.line) (select_test suite.now (drop from others.now)) truth s ≡ begin_of units scope result s }
    ensures scope { (scope : Names) → below_next scope result ≡ scope }
    ensures falls { next_weight result < 4 + suite_size suite.now + alternatives_size (drop from others.now) }
{
    if truth {
        Next::Go(Work(place, Job::PerformAll(suite, 0)))
    } else {
        Next::Go(Work(place, Job::Choose(others, from)))
    }
}

/// A chain of relations from this value on, up to the first that fails.
pub fn compare<'a>(
    alloc: Global,
    scope: &Scope<'a>,
    place: Place,
    value: Value,
    links: &'a [Link],
    run: &Run,
    targets: &Targets,
) -> Result<Next<'a>, Halt>
    ensures leads { (units : List Routine) (lines : List RawLine) (ended : Bool) → Begins units (scope_of scope.now) place.line result (state_of run.now targets.now lines ended) (doing units (meaning units place.levels) (at (scope_of scope.now) place.line) (compare value links.now) (state_of run.now targets.now lines ended)) }
    ensures scope { IfOk result (λ next. below_next (scope_of scope.now) next ≡ (scope_of scope.now)) }
    ensures falls { IfOk result (λ next. next_weight next < 2 + links_size links.now) }
{
    match links {
        [] => Ok(Next::Give(Reply::Truth(true))),
        [first, others @ ..] => see_link(
            alloc,
            scope,
            place,
            value,
            first.op,
            &first.right,
            others,
            run,
            targets,
        ),
    }
}

/// A relation of a chain, from its right operand on.
#[tactic(auto, using(abc_pending::proofs::GoingOn::wait_stops, abc_pending::proofs::GoingOn::wait_goes, abc_pending::proofs::Falling::lighter))]
fn see_link<'a>(
    alloc: Global,
    scope: &Scope<'a>,
    place: Place,
    left: Value,
    op: Op,
    right: &'a Expr,
    others: &'a [Link],
    run: &Run,
    targets: &Targets,
) -> Result<Next<'a>, Halt>
    ensures leads { (units : List Routine) (lines : List RawLine) (ended : Bool) → Begins units (scope_of scope.now) place.line result (state_of run.now targets.now lines ended) (after (as_val ((meaning units place.levels).value (at (scope_of scope.now) place.line) right.now (state_of run.now targets.now lines ended))) (resume units (scope_of scope.now) (in_test place (chain_next left op others.now)))) }
    ensures scope { IfOk result (λ next. below_next (scope_of scope.now) next ≡ (scope_of scope.now)) }
    ensures falls { IfOk result (λ next. next_weight next < 4 + expr_size right.now + links_size others.now) }
{
    match value_at_once(alloc, scope, place, right, run, targets)? {
        Some(value) => take_link(alloc, place, &left, op, others, value),
        None => {
            let left = Boxed::new(alloc, left)?;
            Ok(Next::Wait(
                Waiting::Test(place, ForTest::ChainNext(left, op, others)),
                Work(place, Job::See(right)),
            ))
        }
    }
}

/// The elements of a quantifier that are left: without one the names have again what they had, and no element decided it.
pub fn quantify<'a>(
    alloc: Global,
    scope: &Scope<'a>,
    place: Place,
    quantifier: Quantifier,
    bound: &'a Bound,
    test: &'a Boxed<Test>,
    before: Items<Held>,
    mut elements: Train,
    run: &mut Run,
    targets: &mut Targets,
) -> Result<Next<'a>, Halt>
    ensures leads { (units : List Routine) (lines : List RawLine) (ended : Bool) → Begins units (scope_of scope.now) place.line result (state_of run.new targets.new lines ended) (doing units (meaning units place.levels) (at (scope_of scope.now) place.line) (quantify quantifier bound.now test.now (held_of before) elements) (state_of run.old targets.old lines ended)) }
    ensures scope { IfOk result (λ next. below_next (scope_of scope.now) next ≡ scope_of scope.now) }
    ensures left { (run.new.left ≤ run.old.left) × (run.old.left ≤ run.new.left + 1) }
    ensures falls { (units : List Routine) → IfOk result (λ next. Falls units run.new.left (next_weight next) run.old.left (2 + test_size test.now)) }
{
    match elements.next(alloc)? {
        None => {
            give_back(scope, run, targets, before)?;
            Ok(Next::Give(Reply::Truth(unless_decided(quantifier))))
        }
        Some(element) => {
            test_element(
                alloc, scope, place, quantifier, bound, test, before, element, elements, run,
                targets,
            )
        }
    }
}

/// The test of an element, which is a step, once the names are set to it.
fn test_element<'a>(
    alloc: Global,
    scope: &Scope<'a>,
    place: Place,
    quantifier: Quantifier,
    bound: &'a Bound,
    test: &'a Boxed<Test>,
    before: Items<Held>,
    element: Value,
    elements: Train,
    run: &mut Run,
    targets: &mut Targets,
) -> Result<Next<'a>, Halt>
    ensures leads { (units : List Routine) (lines : List RawLine) (ended : Bool) → Begins units (scope_of scope.now) place.line result (state_of run.new targets.new lines ended) (doing units (meaning units place.levels) (at (scope_of scope.now) place.line) (quantify quantifier bound.now test.now (held_of before) (element ∷ elements)) (state_of run.old targets.old lines ended)) }
    ensures scope { IfOk result (λ next. below_next (scope_of scope.now) next ≡ scope_of scope.now) }
    ensures left { (run.new.left ≤ run.old.left) × (run.old.left ≤ run.new.left + 1) }
    ensures falls { IfOk result (λ next. (run.new.left + 1 ≡ run.old.left) × (next_weight next ≡ 3 + test_size test.now + test_size test.now)) }
{
    run.spend()?;
    bind(alloc, scope, run, targets, bound, element)?;
    let elements = Boxed::new(alloc, elements)?;
    Ok(Next::Wait(
        Waiting::Truth(
            place,
            ForTruth::ElementTest(quantifier, bound, test, before, elements),
        ),
        Work(place, Job::Try(test.get())),
    ))
}
