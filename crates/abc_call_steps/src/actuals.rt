//! The work on actuals and on the parts of addresses, and how it goes on with the actual for which it waited.
ghost use Rattle.std.specs.Prelude.{◌≡◌, ◌≢◌, ◌<◌, ◌+◌, Bool, List, IfOk};
ghost use Rattle.abc_num.specs.declared.lines.RawLine.{RawLine};
ghost use Rattle.abc_tree.specs.declared.commands.Unit.{Unit as Routine};
ghost use Rattle.abc_meaning.specs.State.{State};
ghost use Rattle.abc_meaning.specs.Here.{Scope as Names};
ghost use Rattle.abc_meaning.specs.Here.{refinement_at};
ghost use Rattle.abc_meaning.specs.Actuals.{name_actual};
ghost use Rattle.abc_meaning.specs.Addresses.{address_with, address_within};
ghost use Rattle.abc_tree.specs.declared.formulas.Expr.{out-Expr};
ghost use Rattle.abc_meaning.specs.Meaning.{meaning};
ghost use Rattle.abc_state.specs.Views.{at, actual_of, scope_of, state_of};
ghost use Rattle.abc_pending.specs.Leads.{as_actual, as_address, resume_actual, doing};
ghost use Rattle.abc_pending.specs.Pending.{see_fields, see_actuals, find_row};
ghost use Rattle.abc_pending.specs.Steps.{IsPlain};
ghost use Rattle.abc_pending.specs.Views.{Begins, begin_of, below_next, next_weight, actual_frame, actuals_of, spots_of};
ghost use Rattle.abc_pending.specs.Weights.{expr_size, exprs_size, actual_weight};

use abc_frames::Targets;
use abc_num::Boxed;
use abc_pending::{ForAction, ForActual, ForSpot, Job, Next, Place, Reply, Waiting, Wanted, Work};
use abc_state::{
    Actual, Halt, Run, Scope, Spot, composed, located, name_actual, place as place_of, there,
    together,
};
use abc_tree::{Expr, NameId, Template};
use abc_value::{RunFault, Value};
use std::alloc::Global;

/// An actual that is evaluated as an expression, at the level of the actual, and is no address.
#[tactic(auto, using(crate::proofs::Plain::plain_later))]
fn see_plain<'a>(place: Place, inner: Place, e: &'a Expr) -> Next<'a>
    requires line { inner.line ≡ place.line }
    requires level { place.levels ≢ 0 }
    requires form { IsPlain (out-Expr e.now) }
    ensures leads { (units : List Routine) (scope : Names) (s : State) → as_actual ((meaning units place.levels).actual (at scope place.line) e.now s) ≡ begin_of units scope result s }
    ensures scope { (scope : Names) → below_next scope result ≡ scope }
    ensures falls { next_weight result < 2 + expr_size e.now }
{
    Next::Wait(
        Waiting::Action(inner, ForAction::PlainActual),
        Work(place, Job::See(e)),
    )
}

/// A lone name as an actual.
fn see_name<'a>(
    alloc: Global,
    scope: &Scope<'a>,
    place: Place,
    i: NameId,
    run: &Run,
    targets: &Targets,
) -> Result<Next<'a>, Halt>
    ensures leads { (units : List Routine) (lines : List RawLine) (ended : Bool) → Begins units (scope_of scope.now) place.line result (state_of run.now targets.now lines ended) (as_actual (name_actual (meaning units place.levels) (at (scope_of scope.now) place.line) i.0 (refinement_at (scope_of scope.now) i.0) (state_of run.now targets.now lines ended))) }
    ensures scope { IfOk result (λ next. below_next (scope_of scope.now) next ≡ (scope_of scope.now)) }
    ensures falls { IfOk result (λ next. next_weight next < 4) }
{
    match scope.refinement(i.0) {
        Some(_) => Ok(Next::Wait(
            Waiting::Action(place, ForAction::PlainActual),
            Work(place, Job::Refine(Wanted::Value, i.0)),
        )),
        None => {
            let actual = name_actual(alloc, scope, run, targets, i.0)?;
            let actual = Boxed::new(alloc, actual)?;
            Ok(Next::Give(Reply::Actual(actual)))
        }
    }
}

/// The work on an actual, where so many levels are left.
#[tactic(auto, using(crate::proofs::Levels::actual_at_zero))]
pub fn see_actual<'a>(
    alloc: Global,
    scope: &Scope<'a>,
    place: Place,
    e: &'a Expr,
    run: &Run,
    targets: &Targets,
) -> Result<Next<'a>, Halt>
    ensures leads { (units : List Routine) (lines : List RawLine) (ended : Bool) → Begins units (scope_of scope.now) place.line result (state_of run.now targets.now lines ended) (as_actual ((meaning units place.levels).actual (at (scope_of scope.now) place.line) e.now (state_of run.now targets.now lines ended))) }
    ensures scope { IfOk result (λ next. below_next (scope_of scope.now) next ≡ (scope_of scope.now)) }
    ensures falls { IfOk result (λ next. next_weight next < 2 + expr_size e.now) }
{
    if place.levels == 0 {
        return Err(Halt::Fault(RunFault::TooDeep));
    }
    see_parts(alloc, scope, place, e, run, targets)
}

/// The same, where a level is left. What is no address by its form is evaluated as an expression at the level of the actual.
#[tactic(auto, using(crate::proofs::Levels::meaning_actual))]
fn see_parts<'a>(
    alloc: Global,
    scope: &Scope<'a>,
    place: Place,
    e: &'a Expr,
    run: &Run,
    targets: &Targets,
) -> Result<Next<'a>, Halt>
    requires { place.levels ≢ 0 }
    ensures leads { (units : List Routine) (lines : List RawLine) (ended : Bool) → Begins units (scope_of scope.now) place.line result (state_of run.now targets.now lines ended) (as_actual ((meaning units place.levels).actual (at (scope_of scope.now) place.line) e.now (state_of run.now targets.now lines ended))) }
    ensures scope { IfOk result (λ next. below_next (scope_of scope.now) next ≡ (scope_of scope.now)) }
    ensures falls { IfOk result (λ next. next_weight next < 2 + expr_size e.now) }
{
    let inner = Place {
        line: place.line,
        levels: place.levels - 1,
    };
    match e {
        Expr::Name(i) => see_name(alloc, scope, inner, *i, run, targets),
        Expr::Select(t, k) => Ok(Next::Wait(
            Waiting::Actual(inner, ForActual::ActualTable(k.get())),
            Work(inner, Job::SeeActual(t.get())),
        )),
        Expr::Compound(es) => Ok(Next::Go(Work(
            inner,
            Job::SeeFields(es.as_slice(), Vec::new(alloc), Vec::new(alloc)),
        ))),
        Expr::Number(_) => Ok(see_plain(place, inner, e)),
        Expr::Text(_) => Ok(see_plain(place, inner, e)),
        Expr::Empty => Ok(see_plain(place, inner, e)),
        Expr::List(_) => Ok(see_plain(place, inner, e)),
        Expr::Table(_) => Ok(see_plain(place, inner, e)),
        Expr::Apply1(_, _) => Ok(see_plain(place, inner, e)),
        Expr::Apply2(_, _, _) => Ok(see_plain(place, inner, e)),
        Expr::Call(_, _) => Ok(see_plain(place, inner, e)),
    }
}

/// The address that an expression is, if it is one. The number bounds its height.
#[tactic(auto, using(abc_pending::proofs::Levels::address_next, abc_pending::proofs::Levels::address_at_zero))]
pub fn find<'a>(alloc: Global, place: Place, high: u32, e: &'a Expr) -> Next<'a>
    ensures leads { (units : List Routine) (scope : Names) (s : State) → as_address (address_within (meaning units place.levels) (at scope place.line) high e.now s) ≡ begin_of units scope result s }
    ensures scope { (scope : Names) → below_next scope result ≡ scope }
    ensures falls { next_weight result < 1 + expr_size e.now }
{
    if high == 0 {
        return Next::Give(Reply::Spot(None));
    }
    find_node(alloc, place, high - 1, e)
}

/// The same, one layer deeper.
fn find_node<'a>(alloc: Global, place: Place, high: u32, e: &'a Expr) -> Next<'a>
    ensures leads { (units : List Routine) (scope : Names) (s : State) → as_address (address_with (meaning units place.levels) (at scope place.line) (address_within (meaning units place.levels) (at scope place.line) high) (out-Expr e.now) s) ≡ begin_of units scope result s }
    ensures scope { (scope : Names) → below_next scope result ≡ scope }
    ensures falls { next_weight result < 1 + expr_size e.now }
{
    match e {
        Expr::Name(i) => Next::Give(Reply::Spot(Some(place_of(alloc, i.0)))),
        Expr::Select(t, k) => Next::Wait(
            Waiting::Spot(place, ForSpot::SpotTable(k.get())),
            Work(place, Job::Find(high, t.get())),
        ),
        Expr::Compound(es) => {
            Next::Go(Work(place, Job::FindRow(high, es.as_slice(), Vec::new(alloc))))
        }
        Expr::Number(_) => Next::Give(Reply::Spot(None)),
        Expr::Text(_) => Next::Give(Reply::Spot(None)),
        Expr::Empty => Next::Give(Reply::Spot(None)),
        Expr::List(_) => Next::Give(Reply::Spot(None)),
        Expr::Table(_) => Next::Give(Reply::Spot(None)),
        Expr::Apply1(_, _) => Next::Give(Reply::Spot(None)),
        Expr::Apply2(_, _, _) => Next::Give(Reply::Spot(None)),
        Expr::Call(_, _) => Next::Give(Reply::Spot(None)),
    }
}

/// The fields of a compound as an actual, from left to right, behind those that were found.
pub fn see_fields<'a>(
    alloc: Global,
    place: Place,
    es: &'a [Expr],
    values: Vec<Value>,
    spots: Vec<Option<Spot>>,
) -> Result<Next<'a>, Halt>
    ensures leads { (units : List Routine) (scope : Names) (s : State) → Begins units scope place.line result s (doing units (meaning units place.levels) (at scope place.line) (see_fields es.now (record { values = values.items; addresses = spots_of spots.items })) s) }
    ensures scope { (scope : Names) → IfOk result (λ next. below_next scope next ≡ scope) }
    ensures falls { IfOk result (λ next. next_weight next < 3 + exprs_size es.now) }
{
    match es {
        [] => {
            let value = composed(alloc, values)?;
            let spot = together(alloc, spots)?;
            let actual = Boxed::new(alloc, located(value, spot))?;
            Ok(Next::Give(Reply::Actual(actual)))
        }
        [first, others @ ..] => Ok(Next::Wait(
            Waiting::Actual(place, ForActual::ActualField(others, values, spots)),
            Work(place, Job::SeeActual(first)),
        )),
    }
}

/// The actuals of the call of a command unit, from left to right, behind those that were found.
pub fn see_actuals<'a>(
    place: Place,
    template: &'a Template,
    es: &'a [Expr],
    found: Vec<Actual>,
) -> Result<Next<'a>, Halt>
    ensures leads { (units : List Routine) (scope : Names) (s : State) → Begins units scope place.line result s (doing units (meaning units place.levels) (at scope place.line) (see_actuals template.now es.now (actuals_of found.items)) s) }
    ensures scope { (scope : Names) → IfOk result (λ next. below_next scope next ≡ scope) }
    ensures falls { IfOk result (λ next. next_weight next < 3 + exprs_size es.now) }
{
    match es {
        [] => Ok(Next::Go(Work(place, Job::EnterCommand(template, found)))),
        [first, others @ ..] => Ok(Next::Wait(
            Waiting::Actual(place, ForActual::CallActual(template, others, found)),
            Work(place, Job::SeeActual(first)),
        )),
    }
}

/// The parts of an address from left to right, behind those that were found.
pub fn find_row<'a>(
    alloc: Global,
    place: Place,
    high: u32,
    es: &'a [Expr],
    found: Vec<Option<Spot>>,
) -> Result<Next<'a>, Halt>
    ensures leads { (units : List Routine) (scope : Names) (s : State) → Begins units scope place.line result s (doing units (meaning units place.levels) (at scope place.line) (find_row high es.now (spots_of found.items)) s) }
    ensures scope { (scope : Names) → IfOk result (λ next. below_next scope next ≡ scope) }
    ensures falls { IfOk result (λ next. next_weight next < 3 + exprs_size es.now) }
{
    match es {
        [] => {
            let spot = together(alloc, found)?;
            Ok(Next::Give(Reply::Spot(spot)))
        }
        [first, others @ ..] => Ok(Next::Wait(
            Waiting::Spot(place, ForSpot::SpotField(high, others, found)),
            Work(place, Job::Find(high, first)),
        )),
    }
}

/// How it goes on with the actual for which it waited.
pub fn take_actual<'a>(
    alloc: Global,
    place: Place,
    frame: ForActual<'a>,
    actual: Actual,
) -> Result<Next<'a>, Halt>
    ensures leads { (units : List Routine) (scope : Names) (s : State) → Begins units scope place.line result s (resume_actual units (meaning units place.levels) (at scope place.line) (actual_frame frame.entry) (actual_of actual) s) }
    ensures scope { (scope : Names) → IfOk result (λ next. below_next scope next ≡ scope) }
    ensures falls { IfOk result (λ next. next_weight next < actual_weight (actual_frame frame.entry)) }
{
    match frame {
        ForActual::ActualTable(key) => {
            let Actual { value, address } = actual;
            let table = there(value)?;
            let table = Boxed::new(alloc, table)?;
            Ok(Next::Wait(
                Waiting::Action(place, ForAction::PartActual(table, address)),
                Work(place, Job::See(key)),
            ))
        }
        ForActual::ActualField(others, mut values, mut spots) => {
            let Actual { value, address } = actual;
            let value = there(value)?;
            values.push(value)?;
            spots.push(address)?;
            Ok(Next::Go(Work(place, Job::SeeFields(others, values, spots))))
        }
        ForActual::CallActual(template, others, mut found) => {
            found.push(actual)?;
            Ok(Next::Go(Work(place, Job::SeeActuals(template, others, found))))
        }
    }
}
