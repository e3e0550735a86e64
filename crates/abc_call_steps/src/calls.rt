//! Calls of units and refinements: how their bodies begin, and what their ends give.
ghost use Rattle.std.specs.Prelude.{◌≡◌, ◌<◌, ◌≤◌, ◌+◌, ℕ, Bool, List, Some, map, IfOk};
ghost use Rattle.abc_num.specs.declared.lines.RawLine.{RawLine};
ghost use Rattle.abc_tree.specs.Units.{unit_of};
ghost use Rattle.abc_tree.specs.declared.commands.Unit.{Unit as Routine};
ghost use Rattle.abc_frames.specs.Maps.{Targets as Store};
ghost use Rattle.abc_meaning.specs.State.{State};
ghost use Rattle.abc_meaning.specs.Here.{Here, Scope as Names, in_unit, refinement_named};
ghost use Rattle.abc_meaning.specs.PutBack.{command_refinement};
ghost use Rattle.abc_meaning.specs.Meaning.{meaning};
ghost use Rattle.abc_state.specs.Views.{at, flow_of, formal_of, scope_of, state_of};
ghost use Rattle.abc_pending.specs.Leads.{as_flow, call_of, doing, entered_of, left_with, refined_of, resume_flow};
ghost use Rattle.abc_pending.specs.Pending.{refine};
ghost use Rattle.abc_pending.specs.Views.{Begins, actuals_of, below_next, call_end, next_weight};
ghost use Rattle.abc_pending.specs.Weights.{Falls, IsWithin, most_growth, suite_size};

use abc_acts::{Entry, command_entry, formal_names, leave, reported, returned};
use abc_frames::Targets;
use abc_num::{Boxed, Items, Text};
use abc_pending::{Caller, ForFlow, Job, Leaves, Next, Place, Reply, Waiting, Wanted, Work};
use abc_state::{Actual, Exit, Halt, Run, Scope, plain_value};
use abc_tree::{Refinement, Template, Unit, Units};
use abc_value::Value;
use std::alloc::Global;

/// The call of a function or predicate with these values.
pub fn enter<'a>(
    alloc: Global,
    units: &'a Units,
    scope: &mut Scope<'a>,
    place: Place,
    wanted: Wanted,
    template: &'a Template,
    actuals: Vec<Value>,
    run: &mut Run,
    targets: &Targets,
) -> Result<Next<'a>, Halt>
    ensures leads { (lines : List RawLine) (ended : Bool) → Begins units.now (scope_of scope.new) place.line result (state_of run.new targets.now lines ended) (call_of units.now (meaning units.now place.levels) (at (scope_of scope.old) place.line) wanted (unit_of template.now units.now) actuals.items (state_of run.old targets.now lines ended)) }
    ensures scope { IfOk result (λ next. below_next (scope_of scope.new) next ≡ scope_of scope.old) }
    ensures within { IfOk result (λ _. IsWithin units.now (scope_of scope.new)) }
    ensures left { (run.new.left ≤ run.old.left) × (run.old.left ≤ run.new.left + 1) }
    ensures falls { IfOk result (λ next. (run.new.left + 1 ≡ run.old.left) × (next_weight next < most_growth units.now)) }
{
    match units.get(template) {
        Some(unit) => enter_unit(alloc, scope, place, wanted, unit, actuals, run, targets),
        None => Err(Halt::Wrong),
    }
}

/// The call of this unit: a step, and then its body over its formals. All targets and the caller's names are kept for its end.
fn enter_unit<'a>(
    alloc: Global,
    scope: &mut Scope<'a>,
    place: Place,
    wanted: Wanted,
    unit: &'a Unit,
    actuals: Vec<Value>,
    run: &mut Run,
    targets: &Targets,
) -> Result<Next<'a>, Halt>
    ensures leads { (units : List Routine) (lines : List RawLine) (ended : Bool) → Begins units (scope_of scope.new) place.line result (state_of run.new targets.now lines ended) (call_of units (meaning units place.levels) (at (scope_of scope.old) place.line) wanted (Some unit.now) actuals.items (state_of run.old targets.now lines ended)) }
    ensures scope { IfOk result (λ next. below_next (scope_of scope.new) next ≡ scope_of scope.old) }
    ensures within { IfOk result (λ _. scope_of scope.new ≡ in_unit unit.now) }
    ensures left { (run.new.left ≤ run.old.left) × (run.old.left ≤ run.new.left + 1) }
    ensures falls { IfOk result (λ next. (run.new.left + 1 ≡ run.old.left) × (next_weight next ≡ 2 + suite_size unit.now.body)) }
{
    run.spend()?;
    let names = formal_names(alloc, unit, actuals)?;
    let kept = targets.keep()?;
    let inner = Scope::of_unit(alloc, unit)?;
    let formals = Items::new(alloc);
    let entry = abc_acts::enter(run, Entry { names, formals });
    let outer = std::mem::replace(scope, inner);
    let caller = Boxed::new(
        alloc,
        Caller {
            how: Leaves::With(wanted, kept),
            entry,
            scope: outer,
        },
    )?;
    Ok(Next::Wait(
        Waiting::Flow(place, ForFlow::CallEnd(caller)),
        Work(place, Job::PerformAll(&unit.body, 0)),
    ))
}

/// The call of a command unit with these actuals.
pub fn enter_command<'a>(
    alloc: Global,
    units: &'a Units,
    scope: &mut Scope<'a>,
    place: Place,
    template: &'a Template,
    actuals: Vec<Actual>,
    run: &mut Run,
) -> Result<Next<'a>, Halt>
    ensures leads { (targets : Store) (lines : List RawLine) (ended : Bool) → Begins units.now (scope_of scope.new) place.line result (state_of run.new targets lines ended) (entered_of (meaning units.now place.levels) (at (scope_of scope.old) place.line) (unit_of template.now units.now) (actuals_of actuals.items) (state_of run.old targets lines ended)) }
    ensures scope { IfOk result (λ next. below_next (scope_of scope.new) next ≡ scope_of scope.old) }
    ensures within { IfOk result (λ _. IsWithin units.now (scope_of scope.new)) }
    ensures left { (run.new.left ≤ run.old.left) × (run.old.left ≤ run.new.left + 1) }
    ensures falls { IfOk result (λ next. (run.new.left + 1 ≡ run.old.left) × (next_weight next < most_growth units.now)) }
{
    match units.get(template) {
        Some(unit) => enter_command_unit(alloc, scope, place, unit, actuals, run),
        None => Err(Halt::Wrong),
    }
}

/// The call of this unit: a step, and then its body over its formals. The caller's names and formals are kept for its end.
fn enter_command_unit<'a>(
    alloc: Global,
    scope: &mut Scope<'a>,
    place: Place,
    unit: &'a Unit,
    actuals: Vec<Actual>,
    run: &mut Run,
) -> Result<Next<'a>, Halt>
    ensures leads { (units : List Routine) (targets : Store) (lines : List RawLine) (ended : Bool) → Begins units (scope_of scope.new) place.line result (state_of run.new targets lines ended) (entered_of (meaning units place.levels) (at (scope_of scope.old) place.line) (Some unit.now) (actuals_of actuals.items) (state_of run.old targets lines ended)) }
    ensures scope { IfOk result (λ next. below_next (scope_of scope.new) next ≡ scope_of scope.old) }
    ensures within { IfOk result (λ _. scope_of scope.new ≡ in_unit unit.now) }
    ensures left { (run.new.left ≤ run.old.left) × (run.old.left ≤ run.new.left + 1) }
    ensures falls { IfOk result (λ next. (run.new.left + 1 ≡ run.old.left) × (next_weight next ≡ 2 + suite_size unit.now.body)) }
{
    run.spend()?;
    let entry = command_entry(alloc, unit, actuals)?;
    let inner = Scope::of_unit(alloc, unit)?;
    let entry = abc_acts::enter(run, entry);
    let outer = std::mem::replace(scope, inner);
    let caller = Boxed::new(
        alloc,
        Caller {
            how: Leaves::Formals,
            entry,
            scope: outer,
        },
    )?;
    Ok(Next::Wait(
        Waiting::Flow(place, ForFlow::CallEnd(caller)),
        Work(place, Job::PerformAll(&unit.body, 0)),
    ))
}

/// The expression or test refinement that a name is. Without one an expression is the name's value.
pub fn refine<'a>(
    scope: &Scope<'a>,
    place: Place,
    wanted: Wanted,
    i: u32,
    run: &mut Run,
    targets: &Targets,
) -> Result<Next<'a>, Halt>
    ensures leads { (units : List Routine) (lines : List RawLine) (ended : Bool) → Begins units (scope_of scope.now) place.line result (state_of run.new targets.now lines ended) (doing units (meaning units place.levels) (at (scope_of scope.now) place.line) (refine wanted i) (state_of run.old targets.now lines ended)) }
    ensures scope { IfOk result (λ next. below_next (scope_of scope.now) next ≡ scope_of scope.now) }
    ensures left { (run.new.left ≤ run.old.left) × (run.old.left ≤ run.new.left + 1) }
    ensures falls { (units : List Routine) → IsWithin units (scope_of scope.now) → IfOk result (λ next. Falls units run.new.left (next_weight next) run.old.left 1) }
{
    match scope.refinement(i) {
        Some(refinement) => refine_into(place, wanted, refinement, run, targets),
        None => match wanted {
            Wanted::Value => {
                let value = plain_value(scope, run, targets, i)?;
                Ok(Next::Give(Reply::Val(value)))
            }
            Wanted::Truth => Err(Halt::Wrong),
        },
    }
}

/// This refinement: a step, and then its suite. All targets and names are kept for its end.
fn refine_into<'a>(
    place: Place,
    wanted: Wanted,
    refinement: &'a Refinement,
    run: &mut Run,
    targets: &Targets,
) -> Result<Next<'a>, Halt>
    ensures leads { (units : List Routine) (scope : Names) (lines : List RawLine) (ended : Bool) → Begins units scope place.line result (state_of run.new targets.now lines ended) (refined_of (meaning units place.levels) (at scope place.line) wanted refinement.now (state_of run.old targets.now lines ended)) }
    ensures scope { (scope : Names) → IfOk result (λ next. below_next scope next ≡ scope) }
    ensures left { (run.new.left ≤ run.old.left) × (run.old.left ≤ run.new.left + 1) }
    ensures falls { IfOk result (λ next. (run.new.left + 1 ≡ run.old.left) × (next_weight next ≡ 2 + suite_size refinement.now.suite)) }
{
    run.spend()?;
    let kept = targets.keep()?;
    let names = run.names.copy()?;
    Ok(Next::Wait(
        Waiting::Flow(place, ForFlow::RefinementEnd(wanted, kept, names)),
        Work(place, Job::PerformAll(&refinement.suite, 0)),
    ))
}

/// The command refinement of this name: a step, and then its suite.
pub fn refine_command<'a>(
    scope: &Scope<'a>,
    place: Place,
    name: &'a Text,
    run: &mut Run,
) -> Result<Next<'a>, Halt>
    ensures leads { (units : List Routine) (targets : Store) (lines : List RawLine) (ended : Bool) → Begins units (scope_of scope.now) place.line result (state_of run.new targets lines ended) (as_flow (command_refinement (meaning units place.levels) (at (scope_of scope.now) place.line) (refinement_named (scope_of scope.now) name.now) (state_of run.old targets lines ended))) }
    ensures scope { IfOk result (λ next. below_next (scope_of scope.now) next ≡ scope_of scope.now) }
    ensures left { (run.new.left ≤ run.old.left) × (run.old.left ≤ run.new.left + 1) }
    ensures falls { (units : List Routine) → IsWithin units (scope_of scope.now) → IfOk result (λ next. Falls units run.new.left (next_weight next) run.old.left 1) }
{
    match scope.command_refinement(name) {
        Some(refinement) => perform_refinement(place, refinement, run),
        None => Err(Halt::Wrong),
    }
}

fn perform_refinement<'a>(
    place: Place,
    refinement: &'a Refinement,
    run: &mut Run,
) -> Result<Next<'a>, Halt>
    ensures leads { (units : List Routine) (scope : Names) (targets : Store) (lines : List RawLine) (ended : Bool) → Begins units scope place.line result (state_of run.new targets lines ended) (as_flow (command_refinement (meaning units place.levels) (at scope place.line) (Some refinement.now) (state_of run.old targets lines ended))) }
    ensures scope { (scope : Names) → IfOk result (λ next. below_next scope next ≡ scope) }
    ensures left { (run.new.left ≤ run.old.left) × (run.old.left ≤ run.new.left + 1) }
    ensures falls { IfOk result (λ next. (run.new.left + 1 ≡ run.old.left) × (next_weight next ≡ 2 + suite_size refinement.now.suite)) }
{
    run.spend()?;
    Ok(Next::Wait(
        Waiting::Flow(place, ForFlow::Refined),
        Work(place, Job::PerformAll(&refinement.suite, 0)),
    ))
}

/// The end of a call, in the scope of its caller: targets and names are as before it, or the formals are put back.
pub fn end_call<'a>(
    alloc: Global,
    scope: &Scope<'a>,
    how: Leaves,
    caller: Entry,
    exit: Exit,
    run: &mut Run,
    targets: &mut Targets,
) -> Result<Next<'a>, Halt>
    ensures leads { (units : List Routine) (outer : Names) (line levels : ℕ) (lines : List RawLine) (ended : Bool) → Begins units (scope_of scope.now) line result (state_of run.new targets.new lines ended) (resume_flow units (meaning units levels) (at (scope_of scope.now) line) (call_end how caller.names (map formal_of caller.formals) outer) (flow_of exit) (state_of run.old targets.old lines ended)) }
    ensures scope { (names : Names) → IfOk result (λ next. below_next names next ≡ names) }
    ensures left { run.new.left ≡ run.old.left }
    ensures falls { IfOk result (λ next. next_weight next < 1) }
{
    match how {
        Leaves::With(wanted, kept) => {
            targets.back(kept);
            let _ended = abc_acts::enter(run, caller);
            leave_with(wanted, exit)
        }
        Leaves::Formals => {
            leave(alloc, scope, run, targets, caller)?;
            Ok(Next::Give(Reply::Went(Exit::GoesOn)))
        }
    }
}

/// What a body gives that was left so.
pub fn leave_with<'a>(wanted: Wanted, exit: Exit) -> Result<Next<'a>, Halt>
    ensures leads { (units : List Routine) (scope : Names) (here : Here) (s : State) → Begins units scope here.line result s (left_with here wanted (flow_of exit) s) }
    ensures scope { (scope : Names) → IfOk result (λ next. below_next scope next ≡ scope) }
    ensures falls { IfOk result (λ next. next_weight next < 1) }
{
    match wanted {
        Wanted::Value => {
            let value = returned(exit)?;
            Ok(Next::Give(Reply::Val(value)))
        }
        Wanted::Truth => {
            let truth = reported(exit)?;
            Ok(Next::Give(Reply::Truth(truth)))
        }
    }
}
