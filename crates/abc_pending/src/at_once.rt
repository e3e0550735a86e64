//! Values and truth values that are found at once, without work of their own.
ghost use Rattle.std.specs.Prelude.{◌≡◌, ◌&&◌, ℕ, Bool, true, false, List, IfOk, IfErr, IfSome, IfNone, Ok, Err, Some, None, is_some, is_none};
ghost use Rattle.abc_num.specs.declared.lines.RawLine.{RawLine};
ghost use Rattle.abc_tree.specs.declared.formulas.Expr.{out-Expr};
ghost use Rattle.abc_tree.specs.declared.formulas.Test.{out-Test};
ghost use Rattle.abc_tree.specs.declared.commands.Unit.{Unit as Routine};
ghost use Rattle.abc_value.specs.Tree.{Tree};
ghost use Rattle.abc_meaning.specs.State.{State, Got, gives, after};
ghost use Rattle.abc_meaning.specs.Here.{Here, refinement_at};
ghost use Rattle.abc_meaning.specs.Deeper.{Deeper};
ghost use Rattle.abc_meaning.specs.Value.{applied, applied_to_one, name_value, selected, value_with};
ghost use Rattle.abc_meaning.specs.Holds.{compared};
ghost use Rattle.abc_meaning.specs.Meaning.{meaning};
ghost use Rattle.abc_state.specs.Views.{at, scope_of, state_of};
ghost use Rattle.abc_pending.specs.AtOnce.{Tells, both, is_at_once, is_truth_at_once, operands_of};
ghost use Rattle.abc_pending.specs.declared.at_once.TheConstants.{HEIGHT_AT_ONCE};

use crate::place::Place;
use abc_frames::Targets;
use abc_state::{Halt, Run, Scope, applied, applied_to_one, compared, plain_value, selected};
use abc_tree::{Expr, Op, Test};
use abc_value::{RunFault, Value};
use std::alloc::Global;

/// How many nodes may stand above a number or a name in an expression whose value is found at once. It bounds the stack that finding it
/// takes, and what the question costs where it isn't found.
pub const HEIGHT_AT_ONCE: u32 = 8;

/// The value of an expression of numbers, names that are no refinements, operations and selections, where no more than HEIGHT_AT_ONCE nodes
/// stand above a number or a name: it is found without work of its own. None for all else, and then nothing was evaluated. It looks at
/// each node twice at most. It answers the halt that the meaning gives on this line (TooDeep among them, where no levels are left), or
/// want of memory.
pub fn value_at_once(
    alloc: Global,
    scope: &Scope<'_>,
    place: Place,
    e: &Expr,
    run: &Run,
    targets: &Targets,
) -> Result<Option<Value>, Halt>
    ensures tells { (units : List Routine) (lines : List RawLine) (ended : Bool) → Tells (λ v. v) place.line result (state_of run.now targets.now lines ended) ((meaning units place.levels).value (at (scope_of scope.now) place.line) e.now (state_of run.now targets.now lines ended)) }
    ensures at_once { IfOk result (λ found. is_some found ≡ is_at_once HEIGHT_AT_ONCE (scope_of scope.now) e.now) }
    ensures none { is_at_once HEIGHT_AT_ONCE (scope_of scope.now) e.now ≡ false → result ≡ Ok None }
{
    if !is_at_once(scope, e, HEIGHT_AT_ONCE) {
        return Ok(None);
    }
    value_found(alloc, scope, place, e, run, targets)
}

/// Whether a test succeeds that is a single relation or a membership between two such expressions. None for all else, and then nothing was
/// evaluated. It looks at each node twice at most. It answers the halt that the meaning gives on this line, or want of memory.
#[tactic(auto, using(crate::proofs::Levels::meaning_holds, crate::proofs::Levels::holds_at_zero))]
pub fn truth_at_once(
    alloc: Global,
    scope: &Scope<'_>,
    place: Place,
    test: &Test,
    run: &Run,
    targets: &Targets,
) -> Result<Option<bool>, Halt>
    ensures tells { (units : List Routine) (lines : List RawLine) (ended : Bool) → Tells (λ b. b) place.line result (state_of run.now targets.now lines ended) ((meaning units place.levels).holds (at (scope_of scope.now) place.line) test.now (state_of run.now targets.now lines ended)) }
    ensures at_once { IfOk result (λ found. is_some found ≡ is_truth_at_once (scope_of scope.now) (out-Test test.now)) }
    ensures none { is_truth_at_once (scope_of scope.now) (out-Test test.now) ≡ false → result ≡ Ok None }
{
    let Some((op, x, y)) = operands(test) else {
        return Ok(None);
    };
    if !are_at_once(scope, x, y, HEIGHT_AT_ONCE) {
        return Ok(None);
    }
    if place.levels == 0 {
        return Err(Halt::Fault(RunFault::TooDeep));
    }
    let inner = Place {
        line: place.line,
        levels: place.levels - 1,
    };
    compared_found(
        alloc,
        op,
        both_found(alloc, scope, inner, x, y, run, targets),
    )
}

/// The operands of a test that is one relation or a membership, with its row.
fn operands(test: &Test) -> Option<(Op, &Expr, &Expr)>
    ensures some { IfSome result (λ p. operands_of (out-Test test.now) ≡ Some (p.0, (p.1.now, p.2.now))) }
    ensures none { IfNone result (operands_of (out-Test test.now) ≡ None) }
{
    match test {
        Test::Chain(first, links) => match links.as_slice() {
            [link] => Some((link.op, first, &link.right)),
            _ => None,
        },
        Test::Member(op, e, t) => Some((*op, e, t)),
        _ => None,
    }
}

/// Whether the value of an expression is found at once, where so many nodes may stand above its numbers and names.
#[cycle(is_at_once)]
#[tactic(auto, using(crate::proofs::AtOnce::at_once_is))]
pub(crate) fn is_at_once(scope: &Scope<'_>, e: &Expr, height: u32) -> bool
    ensures { result ≡ is_at_once height (scope_of scope.now) e.now }
{
    match e {
        Expr::Number(_) => true,
        Expr::Name(i) => is_plain(scope, i.0),
        Expr::Apply1(_, x) => height > 0 && is_at_once(scope, x.get(), height - 1),
        Expr::Apply2(_, x, y) => height > 0 && are_at_once(scope, x.get(), y.get(), height - 1),
        Expr::Select(t, k) => height > 0 && are_at_once(scope, t.get(), k.get(), height - 1),
        _ => false,
    }
}

/// Whether a name is no refinement.
fn is_plain(scope: &Scope<'_>, name: u32) -> bool
    ensures { result ≡ is_none (refinement_at (scope_of scope.now) name) }
{
    match scope.refinement(name) {
        Some(_) => false,
        None => true,
    }
}

/// Whether the values of both are.
#[cycle(is_at_once)]
fn are_at_once(scope: &Scope<'_>, x: &Expr, y: &Expr, height: u32) -> bool
    ensures { result ≡ (is_at_once height (scope_of scope.now) x.now && is_at_once height (scope_of scope.now) y.now) }
{
    is_at_once(scope, x, height) && is_at_once(scope, y, height)
}

/// The value of an expression, where the kinds of its nodes are those whose values are found at once. It walks over each node once.
#[cycle(value_found)]
#[tactic(auto, using(crate::proofs::Levels::meaning_value, crate::proofs::Levels::value_at_zero))]
pub(crate) fn value_found(
    alloc: Global,
    scope: &Scope<'_>,
    place: Place,
    e: &Expr,
    run: &Run,
    targets: &Targets,
) -> Result<Option<Value>, Halt>
    ensures tells { (units : List Routine) (lines : List RawLine) (ended : Bool) → Tells (λ v. v) place.line result (state_of run.now targets.now lines ended) ((meaning units place.levels).value (at (scope_of scope.now) place.line) e.now (state_of run.now targets.now lines ended)) }
    ensures found { (height : ℕ) → is_at_once height (scope_of scope.now) e.now ≡ true → IfOk result (λ found. is_some found ≡ true) }
{
    if place.levels == 0 {
        return Err(Halt::Fault(RunFault::TooDeep));
    }
    let inner = Place {
        line: place.line,
        levels: place.levels - 1,
    };
    node_found(alloc, scope, inner, e, run, targets)
}

/// The same, one level deeper.
#[cycle(value_found)]
#[tactic(auto, using(crate::proofs::AtOnce::at_once_is))]
fn node_found(
    alloc: Global,
    scope: &Scope<'_>,
    place: Place,
    e: &Expr,
    run: &Run,
    targets: &Targets,
) -> Result<Option<Value>, Halt>
    ensures tells { (units : List Routine) (lines : List RawLine) (ended : Bool) → Tells (λ v. v) place.line result (state_of run.now targets.now lines ended) (value_with units (meaning units place.levels) (at (scope_of scope.now) place.line) (out-Expr e.now) (state_of run.now targets.now lines ended)) }
    ensures found { (height : ℕ) → is_at_once height (scope_of scope.now) e.now ≡ true → IfOk result (λ found. is_some found ≡ true) }
{
    match e {
        Expr::Number(n) => Ok(Some(Value::number(*n))),
        Expr::Name(i) => value_of_name(scope, i.0, run, targets),
        Expr::Apply1(op, x) => applied_to_found(
            alloc,
            *op,
            value_found(alloc, scope, place, x.get(), run, targets),
        ),
        Expr::Apply2(op, x, y) => applied_found(
            alloc,
            *op,
            both_found(alloc, scope, place, x.get(), y.get(), run, targets),
        ),
        Expr::Select(t, k) => selected_found(
            alloc,
            both_found(alloc, scope, place, t.get(), k.get(), run, targets),
        ),
        _ => Ok(None),
    }
}

/// The values of two expressions, the first one's first.
#[cycle(value_found)]
fn both_found(
    alloc: Global,
    scope: &Scope<'_>,
    place: Place,
    x: &Expr,
    y: &Expr,
    run: &Run,
    targets: &Targets,
) -> Result<Option<(Value, Value)>, Halt>
    ensures tells { (units : List Routine) (lines : List RawLine) (ended : Bool) → Tells (λ p. p) place.line result (state_of run.now targets.now lines ended) (both (meaning units place.levels) (at (scope_of scope.now) place.line) x.now y.now (state_of run.now targets.now lines ended)) }
    ensures found { (height : ℕ) → (is_at_once height (scope_of scope.now) x.now && is_at_once height (scope_of scope.now) y.now) ≡ true → IfOk result (λ found. is_some found ≡ true) }
{
    match value_found(alloc, scope, place, x, run, targets)? {
        Some(first) => with_second(first, value_found(alloc, scope, place, y, run, targets)),
        None => Ok(None),
    }
}

/// Two values, where the second was found too.
fn with_second(
    first: Value,
    second: Result<Option<Value>, Halt>,
) -> Result<Option<(Value, Value)>, Halt>
    ensures tells { (line : ℕ) (s : State) (g : Got Tree) → Tells (λ v. v) line second s g → Tells (λ p. p) line result s (after g (λ w. gives (first, w))) }
    ensures found { IfOk second (λ found. is_some found ≡ true) → IfOk result (λ found. is_some found ≡ true) }
{
    match second? {
        Some(second) => Ok(Some((first, second))),
        None => Ok(None),
    }
}

/// What a row makes of an operand that was found.
fn applied_to_found(
    alloc: Global,
    op: Op,
    operand: Result<Option<Value>, Halt>,
) -> Result<Option<Value>, Halt>
    ensures tells { (here : Here) (s : State) (g : Got Tree) → Tells (λ v. v) here.line operand s g → Tells (λ v. v) here.line result s (after g (applied_to_one here op)) }
    ensures found { IfOk operand (λ found. is_some found ≡ true) → IfOk result (λ found. is_some found ≡ true) }
{
    match operand? {
        Some(value) => some(applied_to_one(alloc, op, &value)),
        None => Ok(None),
    }
}

/// And of two.
fn applied_found(
    alloc: Global,
    op: Op,
    operands: Result<Option<(Value, Value)>, Halt>,
) -> Result<Option<Value>, Halt>
    ensures tells { (here : Here) (s : State) (g : Got (Tree × Tree)) → Tells (λ p. p) here.line operands s g → Tells (λ v. v) here.line result s (after g (λ p. applied here op p.0 p.1)) }
    ensures found { IfOk operands (λ found. is_some found ≡ true) → IfOk result (λ found. is_some found ≡ true) }
{
    match operands? {
        Some((x, y)) => some(applied(alloc, op, &x, &y)),
        None => Ok(None),
    }
}

/// The selection of a table at a key, both of which were found.
fn selected_found(
    alloc: Global,
    operands: Result<Option<(Value, Value)>, Halt>,
) -> Result<Option<Value>, Halt>
    ensures tells { (here : Here) (s : State) (g : Got (Tree × Tree)) → Tells (λ p. p) here.line operands s g → Tells (λ v. v) here.line result s (after g (λ p. selected here p.0 p.1)) }
    ensures found { IfOk operands (λ found. is_some found ≡ true) → IfOk result (λ found. is_some found ≡ true) }
{
    match operands? {
        Some((table, key)) => some(selected(alloc, &table, &key)),
        None => Ok(None),
    }
}

/// How two operands that were found compare.
fn compared_found(
    alloc: Global,
    op: Op,
    operands: Result<Option<(Value, Value)>, Halt>,
) -> Result<Option<bool>, Halt>
    ensures tells { (here : Here) (s : State) (g : Got (Tree × Tree)) → Tells (λ p. p) here.line operands s g → Tells (λ b. b) here.line result s (after g (λ p. compared here op p.0 p.1)) }
    ensures found { IfOk operands (λ found. is_some found ≡ true) → IfOk result (λ found. is_some found ≡ true) }
{
    match operands? {
        Some((x, y)) => some(compared(alloc, op, &x, &y)),
        None => Ok(None),
    }
}

/// An answer that is there.
fn some<T>(answer: Result<T, Halt>) -> Result<Option<T>, Halt>
    ensures ok { IfOk answer (λ value. result ≡ Ok (Some value)) }
    ensures err { IfErr answer (λ halt. result ≡ Err halt) }
{
    Ok(Some(answer?))
}

/// The value of a name that is no refinement.
fn value_of_name(
    scope: &Scope<'_>,
    name: u32,
    run: &Run,
    targets: &Targets,
) -> Result<Option<Value>, Halt>
    ensures tells { (deep : Deeper) (line : ℕ) (lines : List RawLine) (ended : Bool) → Tells (λ v. v) line result (state_of run.now targets.now lines ended) (name_value deep (at (scope_of scope.now) line) name (refinement_at (scope_of scope.now) name) (state_of run.now targets.now lines ended)) }
    ensures found { is_none (refinement_at (scope_of scope.now) name) ≡ true → IfOk result (λ found. is_some found ≡ true) }
{
    match scope.refinement(name) {
        Some(_) => Ok(None),
        None => some(plain_value(scope, run, targets, name)),
    }
}
