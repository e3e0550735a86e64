//! How the work on expressions begins.
ghost use Rattle.std.specs.Prelude.{◌≡◌, ◌<◌, ◌+◌, Bool, List, IfOk};
ghost use Rattle.abc_num.specs.declared.lines.RawLine.{RawLine};
ghost use Rattle.abc_tree.specs.declared.formulas.Expr.{out-Expr};
ghost use Rattle.abc_tree.specs.declared.formulas.Expr.TheOpen.{Expr-F};
ghost use Rattle.abc_tree.specs.declared.commands.Unit.{Unit as Routine};
ghost use Rattle.abc_meaning.specs.State.{State};
ghost use Rattle.abc_meaning.specs.Here.{Scope as Names, refinement_at};
ghost use Rattle.abc_meaning.specs.Value.{name_value, value_with};
ghost use Rattle.abc_meaning.specs.Meaning.{meaning};
ghost use Rattle.abc_state.specs.Views.{at, scope_of, state_of, filling_of, tabling_of, wording_of};
ghost use Rattle.abc_pending.specs.Leads.{as_val, gathered, doing, resume_expression};
ghost use Rattle.abc_pending.specs.Pending.{apply_left, apply_one, converted, filler, pair_associate, pair_key, range_from, range_to, see_row, spell, fill, fill_table};
ghost use Rattle.abc_pending.specs.Views.{Begins, begin_of, below_next, next_weight, purpose_of, expression_frame};
ghost use Rattle.abc_pending.specs.Weights.{expr_size, exprs_size, pieces_size, fills_size, pairs_size, expression_weight};

use abc_frames::Targets;
use abc_num::Boxed;
use abc_pending::{
    ForExpression, Job, Next, Place, Purpose, Reply, Waiting, Wanted, Work, value_at_once,
};
use abc_state::{
    Filling, Halt, Run, Scope, Tabling, Wording, applied, applied_to_one, composed, plain_value,
    selected,
};
use abc_tree::{Expr, Fill, Op, Pair, Piece, Template};
use abc_value::{RunFault, Value};
use std::alloc::Global;

/// The work on an expression, where so many levels are left.
#[tactic(auto, using(abc_pending::proofs::Levels::meaning_value, abc_pending::proofs::Levels::value_at_zero))]
pub fn see<'a>(
    alloc: Global,
    scope: &Scope<'a>,
    place: Place,
    e: &'a Expr,
    run: &Run,
    targets: &Targets,
) -> Result<Next<'a>, Halt>
    ensures leads { (units : List Routine) (lines : List RawLine) (ended : Bool) → Begins units (scope_of scope.now) place.line result (state_of run.now targets.now lines ended) (as_val ((meaning units place.levels).value (at (scope_of scope.now) place.line) e.now (state_of run.now targets.now lines ended))) }
    ensures scope { IfOk result (λ next. below_next (scope_of scope.now) next ≡ (scope_of scope.now)) }
    ensures falls { IfOk result (λ next. next_weight next < expr_size e.now) }
{
    if place.levels == 0 {
        return Err(Halt::Fault(RunFault::TooDeep));
    }
    let inner = Place {
        line: place.line,
        levels: place.levels - 1,
    };
    see_node(alloc, scope, inner, e, run, targets)
}

/// The same, one level deeper.
fn see_node<'a>(
    alloc: Global,
    scope: &Scope<'a>,
    place: Place,
    e: &'a Expr,
    run: &Run,
    targets: &Targets,
) -> Result<Next<'a>, Halt>
    ensures leads { (units : List Routine) (lines : List RawLine) (ended : Bool) → Begins units (scope_of scope.now) place.line result (state_of run.now targets.now lines ended) (as_val (value_with units (meaning units place.levels) (at (scope_of scope.now) place.line) (out-Expr e.now) (state_of run.now targets.now lines ended))) }
    ensures scope { IfOk result (λ next. below_next (scope_of scope.now) next ≡ (scope_of scope.now)) }
    ensures falls { IfOk result (λ next. next_weight next < expr_size e.now) }
{
    match e {
        Expr::Number(n) => Ok(Next::Give(Reply::Val(Value::number(*n)))),
        Expr::Text(pieces) => Ok(Next::Go(Work(
            place,
            Job::Spell(pieces.as_slice(), Wording::new(alloc)),
        ))),
        Expr::Name(i) => see_name(scope, place, i.0, run, targets),
        Expr::Compound(es) => Ok(Next::Go(Work(
            place,
            Job::SeeRow(Purpose::Compound, es.as_slice(), Vec::new(alloc)),
        ))),
        Expr::Empty => Ok(Next::Give(Reply::Val(Value::empty(alloc)))),
        Expr::List(fills) => see_list(alloc, place, fills.as_slice()),
        Expr::Table(pairs) => see_table(alloc, place, pairs.as_slice()),
        Expr::Select(t, k) => Ok(Next::Wait(
            Waiting::Expression(place, ForExpression::SelectTable(k.get())),
            Work(place, Job::See(t.get())),
        )),
        Expr::Apply1(op, x) => Ok(Next::Wait(
            Waiting::Expression(place, ForExpression::ApplyOne(*op)),
            Work(place, Job::See(x.get())),
        )),
        Expr::Apply2(op, x, y) => {
            see_two(alloc, scope, place, *op, x.get(), y.get(), run, targets)
        }
        Expr::Call(template, es) => Ok(see_call(alloc, place, template, es.as_slice())),
    }
}

/// A list display, of which nothing is evaluated yet.
fn see_list<'a>(alloc: Global, place: Place, fills: &'a [Fill]) -> Result<Next<'a>, Halt>
    ensures leads { (units : List Routine) (scope : Names) (s : State) → Begins units scope place.line result s (as_val (value_with units (meaning units place.levels) (at scope place.line) (Expr-F.List fills.now) s)) }
    ensures scope { (scope : Names) → IfOk result (λ next. below_next scope next ≡ scope) }
    ensures falls { IfOk result (λ next. next_weight next < 3 + fills_size fills.now) }
{
    let found = Boxed::new(alloc, Filling::new(alloc))?;
    Ok(Next::Go(Work(place, Job::Fill(fills, found))))
}

/// A table display, of which nothing is evaluated yet.
fn see_table<'a>(alloc: Global, place: Place, pairs: &'a [Pair]) -> Result<Next<'a>, Halt>
    ensures leads { (units : List Routine) (scope : Names) (s : State) → Begins units scope place.line result s (as_val (value_with units (meaning units place.levels) (at scope place.line) (Expr-F.Table pairs.now) s)) }
    ensures scope { (scope : Names) → IfOk result (λ next. below_next scope next ≡ scope) }
    ensures falls { IfOk result (λ next. next_weight next < 3 + pairs_size pairs.now) }
{
    let found = Boxed::new(alloc, Tabling::new(alloc))?;
    Ok(Next::Go(Work(place, Job::FillTable(pairs, found))))
}

/// A name: of an expression refinement, which is work of its own, or one that has a value or none.
fn see_name<'a>(
    scope: &Scope<'a>,
    place: Place,
    i: u32,
    run: &Run,
    targets: &Targets,
) -> Result<Next<'a>, Halt>
    ensures leads { (units : List Routine) (lines : List RawLine) (ended : Bool) → Begins units (scope_of scope.now) place.line result (state_of run.now targets.now lines ended) (as_val (name_value (meaning units place.levels) (at (scope_of scope.now) place.line) i (refinement_at (scope_of scope.now) i) (state_of run.now targets.now lines ended))) }
    ensures scope { IfOk result (λ next. below_next (scope_of scope.now) next ≡ (scope_of scope.now)) }
    ensures falls { IfOk result (λ next. next_weight next < 2) }
{
    match scope.refinement(i) {
        Some(_) => Ok(Next::Go(Work(place, Job::Refine(Wanted::Value, i)))),
        None => {
            let value = plain_value(scope, run, targets, i)?;
            Ok(Next::Give(Reply::Val(value)))
        }
    }
}

/// The call of a function, whose actuals are a row.
fn see_call<'a>(alloc: Global, place: Place, template: &'a Template, es: &'a [Expr]) -> Next<'a>
    ensures leads { (units : List Routine) (scope : Names) (s : State) → as_val (value_with units (meaning units place.levels) (at scope place.line) (Expr-F.Call template.now es.now) s) ≡ begin_of units scope result s }
    ensures scope { (scope : Names) → below_next scope result ≡ scope }
    ensures falls { next_weight result < 4 + exprs_size es.now }
{
    Next::Go(Work(
        place,
        Job::SeeRow(Purpose::Call(Wanted::Value, template), es, Vec::new(alloc)),
    ))
}

/// An operation of two places. An operand waits only where its value isn't found at once.
#[tactic(auto, using(crate::proofs::AtOnce::val_goes, abc_pending::proofs::Falling::lighter))]
fn see_two<'a>(
    alloc: Global,
    scope: &Scope<'a>,
    place: Place,
    op: Op,
    x: &'a Expr,
    y: &'a Expr,
    run: &Run,
    targets: &Targets,
) -> Result<Next<'a>, Halt>
    ensures leads { (units : List Routine) (lines : List RawLine) (ended : Bool) → Begins units (scope_of scope.now) place.line result (state_of run.now targets.now lines ended) (as_val (value_with units (meaning units place.levels) (at (scope_of scope.now) place.line) (Expr-F.Apply2 op x.now y.now) (state_of run.now targets.now lines ended))) }
    ensures scope { IfOk result (λ next. below_next (scope_of scope.now) next ≡ (scope_of scope.now)) }
    ensures falls { IfOk result (λ next. next_weight next < 4 + expr_size x.now + expr_size y.now) }
{
    match value_at_once(alloc, scope, place, x, run, targets)? {
        Some(left) => see_right(alloc, scope, place, op, left, y, run, targets),
        None => Ok(Next::Wait(
            Waiting::Expression(place, ForExpression::ApplyLeft(op, y)),
            Work(place, Job::See(x)),
        )),
    }
}

/// The same, where the value of the left operand is there.
fn see_right<'a>(
    alloc: Global,
    scope: &Scope<'a>,
    place: Place,
    op: Op,
    left: Value,
    y: &'a Expr,
    run: &Run,
    targets: &Targets,
) -> Result<Next<'a>, Halt>
    ensures leads { (units : List Routine) (lines : List RawLine) (ended : Bool) → Begins units (scope_of scope.now) place.line result (state_of run.now targets.now lines ended) (resume_expression units (meaning units place.levels) (at (scope_of scope.now) place.line) (apply_left op y.now) left (state_of run.now targets.now lines ended)) }
    ensures scope { IfOk result (λ next. below_next (scope_of scope.now) next ≡ (scope_of scope.now)) }
    ensures falls { IfOk result (λ next. next_weight next < 2 + expr_size y.now) }
{
    match value_at_once(alloc, scope, place, y, run, targets)? {
        Some(right) => {
            let value = applied(alloc, op, &left, &right)?;
            Ok(Next::Give(Reply::Val(value)))
        }
        None => Ok(Next::Wait(
            Waiting::Expression(place, ForExpression::ApplyRight(op, left)),
            Work(place, Job::See(y)),
        )),
    }
}

/// What is done with the values of a row.
fn gathered<'a>(
    alloc: Global,
    place: Place,
    what: Purpose<'a>,
    found: Vec<Value>,
) -> Result<Next<'a>, Halt>
    ensures leads { (units : List Routine) (scope : Names) (s : State) → Begins units scope place.line result s (gathered units (meaning units place.levels) (at scope place.line) (purpose_of what.entry) (found.items) s) }
    ensures scope { (scope : Names) → IfOk result (λ next. below_next scope next ≡ scope) }
    ensures falls { IfOk result (λ next. next_weight next < 2) }
{
    match what {
        Purpose::Compound => {
            let value = composed(alloc, found)?;
            Ok(Next::Give(Reply::Val(value)))
        }
        Purpose::Call(wanted, template) => {
            Ok(Next::Go(Work(place, Job::Enter(wanted, template, found))))
        }
    }
}

/// The values of a row from left to right, behind those that were found.
pub fn see_row<'a>(
    alloc: Global,
    place: Place,
    what: Purpose<'a>,
    es: &'a [Expr],
    found: Vec<Value>,
) -> Result<Next<'a>, Halt>
    ensures leads { (units : List Routine) (scope : Names) (s : State) → Begins units scope place.line result s (doing units (meaning units place.levels) (at scope place.line) (see_row (purpose_of what.entry) es.now found.items) s) }
    ensures scope { (scope : Names) → IfOk result (λ next. below_next scope next ≡ scope) }
    ensures falls { IfOk result (λ next. next_weight next < 2 + exprs_size es.now) }
{
    match es {
        [] => gathered(alloc, place, what, found),
        [first, others @ ..] => Ok(Next::Wait(
            Waiting::Expression(place, ForExpression::RowValue(what, others, found)),
            Work(place, Job::See(first)),
        )),
    }
}

/// The pieces of a text from left to right, behind what was found.
pub fn spell<'a>(
    alloc: Global,
    place: Place,
    pieces: &'a [Piece],
    found: Wording,
) -> Result<Next<'a>, Halt>
    ensures leads { (units : List Routine) (scope : Names) (s : State) → Begins units scope place.line result s (doing units (meaning units place.levels) (at scope place.line) (spell pieces.now (wording_of found)) s) }
    ensures scope { (scope : Names) → IfOk result (λ next. below_next scope next ≡ scope) }
    ensures falls { IfOk result (λ next. next_weight next < 2 + pieces_size pieces.now) }
{
    match pieces {
        [] => {
            let text = found.text(alloc)?;
            Ok(Next::Give(Reply::Val(text)))
        }
        [Piece::Chars(characters), others @ ..] => {
            let found = found.with_characters(characters)?;
            Ok(Next::Go(Work(place, Job::Spell(others, found))))
        }
        [Piece::Conversion(e), others @ ..] => Ok(Next::Wait(
            Waiting::Expression(place, ForExpression::Converted(others, found)),
            Work(place, Job::See(e)),
        )),
    }
}

/// The fillers of a list display from left to right, behind what was found.
pub fn fill<'a>(
    alloc: Global,
    place: Place,
    fills: &'a [Fill],
    found: Boxed<Filling>,
) -> Result<Next<'a>, Halt>
    ensures leads { (units : List Routine) (scope : Names) (s : State) → Begins units scope place.line result s (doing units (meaning units place.levels) (at scope place.line) (fill fills.now (filling_of found)) s) }
    ensures scope { (scope : Names) → IfOk result (λ next. below_next scope next ≡ scope) }
    ensures falls { IfOk result (λ next. next_weight next < 2 + fills_size fills.now) }
{
    match fills {
        [] => {
            let list = found.into_inner().display(alloc)?;
            Ok(Next::Give(Reply::Val(list)))
        }
        [Fill::One(e), others @ ..] => Ok(Next::Wait(
            Waiting::Expression(place, ForExpression::Filler(others, found)),
            Work(place, Job::See(e)),
        )),
        [Fill::Range(p, q), others @ ..] => Ok(Next::Wait(
            Waiting::Expression(place, ForExpression::RangeFrom(q, others, found)),
            Work(place, Job::See(p)),
        )),
    }
}

/// The pairs of a table display from left to right, behind what was found.
pub fn fill_table<'a>(
    alloc: Global,
    place: Place,
    pairs: &'a [Pair],
    found: Boxed<Tabling>,
) -> Result<Next<'a>, Halt>
    ensures leads { (units : List Routine) (scope : Names) (s : State) → Begins units scope place.line result s (doing units (meaning units place.levels) (at scope place.line) (fill_table pairs.now (tabling_of found)) s) }
    ensures scope { (scope : Names) → IfOk result (λ next. below_next scope next ≡ scope) }
    ensures falls { IfOk result (λ next. next_weight next < 2 + pairs_size pairs.now) }
{
    match pairs {
        [] => {
            let table = found.into_inner().display(alloc)?;
            Ok(Next::Give(Reply::Val(table)))
        }
        [pair, others @ ..] => Ok(Next::Wait(
            Waiting::Expression(
                place,
                ForExpression::PairKey(&pair.associate, others, found),
            ),
            Work(place, Job::See(&pair.key)),
        )),
    }
}

/// How an expression goes on with the value for which it waited.
pub fn take_value<'a>(
    alloc: Global,
    place: Place,
    frame: ForExpression<'a>,
    value: Value,
) -> Result<Next<'a>, Halt>
    ensures leads { (units : List Routine) (scope : Names) (s : State) → Begins units scope place.line result s (resume_expression units (meaning units place.levels) (at scope place.line) (expression_frame frame.entry) (value) s) }
    ensures scope { (scope : Names) → IfOk result (λ next. below_next scope next ≡ scope) }
    ensures falls { IfOk result (λ next. next_weight next < expression_weight (expression_frame frame.entry)) }
{
    match frame {
        ForExpression::RowValue(what, others, mut found) => {
            found.push(value)?;
            Ok(Next::Go(Work(place, Job::SeeRow(what, others, found))))
        }
        ForExpression::Converted(others, found) => take_piece(alloc, place, others, found, value),
        ForExpression::Filler(others, found) => take_filler(alloc, place, others, found, value),
        ForExpression::RangeFrom(last, others, found) => {
            take_first(alloc, place, last, others, found, value)
        }
        ForExpression::RangeTo(first, others, found) => {
            take_range(alloc, place, first, others, found, value)
        }
        ForExpression::PairKey(associate, others, found) => {
            take_key(alloc, place, associate, others, found, value)
        }
        ForExpression::PairAssociate(key, others, found) => {
            take_pair(alloc, place, key, others, found, value)
        }
        ForExpression::SelectTable(key) => Ok(Next::Wait(
            Waiting::Expression(place, ForExpression::SelectKey(value)),
            Work(place, Job::See(key)),
        )),
        ForExpression::SelectKey(table) => {
            let value = selected(alloc, &table, &value)?;
            Ok(Next::Give(Reply::Val(value)))
        }
        ForExpression::ApplyOne(op) => take_operand(alloc, place, op, value),
        ForExpression::ApplyLeft(op, right) => Ok(Next::Wait(
            Waiting::Expression(place, ForExpression::ApplyRight(op, value)),
            Work(place, Job::See(right)),
        )),
        ForExpression::ApplyRight(op, left) => {
            let value = applied(alloc, op, &left, &value)?;
            Ok(Next::Give(Reply::Val(value)))
        }
    }
}

/// A text goes on behind the value of a conversion.
fn take_piece<'a>(
    alloc: Global,
    place: Place,
    others: &'a [Piece],
    found: Wording,
    value: Value,
) -> Result<Next<'a>, Halt>
    ensures leads { (units : List Routine) (scope : Names) (s : State) → Begins units scope place.line result s (resume_expression units (meaning units place.levels) (at scope place.line) (converted others.now (wording_of found)) value s) }
    ensures scope { (scope : Names) → IfOk result (λ next. below_next scope next ≡ scope) }
    ensures falls { IfOk result (λ next. next_weight next < 3 + pieces_size others.now) }
{
    let found = found.with_conversion(alloc, &value)?;
    Ok(Next::Go(Work(place, Job::Spell(others, found))))
}

/// The first end of a range waits for the last.
fn take_first<'a>(
    alloc: Global,
    place: Place,
    last: &'a Expr,
    others: &'a [Fill],
    found: Boxed<Filling>,
    value: Value,
) -> Result<Next<'a>, Halt>
    ensures leads { (units : List Routine) (scope : Names) (s : State) → Begins units scope place.line result s (resume_expression units (meaning units place.levels) (at scope place.line) (range_from last.now others.now (filling_of found)) value s) }
    ensures scope { (scope : Names) → IfOk result (λ next. below_next scope next ≡ scope) }
    ensures falls { IfOk result (λ next. next_weight next < 5 + expr_size last.now + fills_size others.now) }
{
    let first = Boxed::new(alloc, value)?;
    Ok(Next::Wait(
        Waiting::Expression(place, ForExpression::RangeTo(first, others, found)),
        Work(place, Job::See(last)),
    ))
}

/// A list display goes on behind a filler that is one value.
fn take_filler<'a>(
    alloc: Global,
    place: Place,
    others: &'a [Fill],
    found: Boxed<Filling>,
    value: Value,
) -> Result<Next<'a>, Halt>
    ensures leads { (units : List Routine) (scope : Names) (s : State) → Begins units scope place.line result s (resume_expression units (meaning units place.levels) (at scope place.line) (filler others.now (filling_of found)) value s) }
    ensures scope { (scope : Names) → IfOk result (λ next. below_next scope next ≡ scope) }
    ensures falls { IfOk result (λ next. next_weight next < 3 + fills_size others.now) }
{
    let found = found.into_inner().with_one(alloc, value)?;
    let found = Boxed::new(alloc, found)?;
    Ok(Next::Go(Work(place, Job::Fill(others, found))))
}

/// And behind one that is a range, with the value of its end.
fn take_range<'a>(
    alloc: Global,
    place: Place,
    first: Boxed<Value>,
    others: &'a [Fill],
    found: Boxed<Filling>,
    value: Value,
) -> Result<Next<'a>, Halt>
    ensures leads { (units : List Routine) (scope : Names) (s : State) → Begins units scope place.line result s (resume_expression units (meaning units place.levels) (at scope place.line) (range_to first others.now (filling_of found)) value s) }
    ensures scope { (scope : Names) → IfOk result (λ next. below_next scope next ≡ scope) }
    ensures falls { IfOk result (λ next. next_weight next < 3 + fills_size others.now) }
{
    let found = found.into_inner().with_range(alloc, first.get(), &value)?;
    let found = Boxed::new(alloc, found)?;
    Ok(Next::Go(Work(place, Job::Fill(others, found))))
}

/// The key of a pair waits for the associate.
fn take_key<'a>(
    alloc: Global,
    place: Place,
    associate: &'a Expr,
    others: &'a [Pair],
    found: Boxed<Tabling>,
    value: Value,
) -> Result<Next<'a>, Halt>
    ensures leads { (units : List Routine) (scope : Names) (s : State) → Begins units scope place.line result s (resume_expression units (meaning units place.levels) (at scope place.line) (pair_key associate.now others.now (tabling_of found)) value s) }
    ensures scope { (scope : Names) → IfOk result (λ next. below_next scope next ≡ scope) }
    ensures falls { IfOk result (λ next. next_weight next < 5 + expr_size associate.now + pairs_size others.now) }
{
    let key = Boxed::new(alloc, value)?;
    Ok(Next::Wait(
        Waiting::Expression(place, ForExpression::PairAssociate(key, others, found)),
        Work(place, Job::See(associate)),
    ))
}

/// A table display goes on behind a pair, with the associate of its key.
fn take_pair<'a>(
    alloc: Global,
    place: Place,
    key: Boxed<Value>,
    others: &'a [Pair],
    found: Boxed<Tabling>,
    value: Value,
) -> Result<Next<'a>, Halt>
    ensures leads { (units : List Routine) (scope : Names) (s : State) → Begins units scope place.line result s (resume_expression units (meaning units place.levels) (at scope place.line) (pair_associate key others.now (tabling_of found)) value s) }
    ensures scope { (scope : Names) → IfOk result (λ next. below_next scope next ≡ scope) }
    ensures falls { IfOk result (λ next. next_weight next < 3 + pairs_size others.now) }
{
    let found = found
        .into_inner()
        .with_pair(alloc, key.into_inner(), value)?;
    let found = Boxed::new(alloc, found)?;
    Ok(Next::Go(Work(place, Job::FillTable(others, found))))
}

/// The value of an operation of one place.
fn take_operand<'a>(alloc: Global, place: Place, op: Op, value: Value) -> Result<Next<'a>, Halt>
    ensures leads { (units : List Routine) (scope : Names) (s : State) → Begins units scope place.line result s (resume_expression units (meaning units place.levels) (at scope place.line) (apply_one op) value s) }
    ensures scope { (scope : Names) → IfOk result (λ next. below_next scope next ≡ scope) }
    ensures falls { IfOk result (λ next. next_weight next < 1) }
{
    let value = applied_to_one(alloc, op, &value)?;
    Ok(Next::Give(Reply::Val(value)))
}
