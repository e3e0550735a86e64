//! Addresses that are found at once, without work of their own.
ghost use Rattle.std.specs.Prelude.{◌≡◌, ◌<◌, ◌&&◌, ℕ, Bool, true, false, List, IfOk, Option, is_some, Ok, Some, None, map};
ghost use Rattle.abc_num.specs.declared.lines.RawLine.{RawLine};
ghost use Rattle.abc_tree.specs.declared.commands.Unit.{Unit as Routine};
ghost use Rattle.abc_value.specs.Tree.{Tree};
ghost use Rattle.abc_meaning.specs.State.{Address, State, Got, key as to_key, place as place_at, gives, after};
ghost use Rattle.abc_meaning.specs.Addresses.{address, address_within, stepped, whole};
ghost use Rattle.abc_meaning.specs.Here.{Here};
ghost use Rattle.abc_meaning.specs.Meaning.{meaning};
ghost use Rattle.abc_state.specs.Views.{address_of, at, scope_of, state_of, step_of};
ghost use Rattle.abc_pending.specs.AtOnce.{Tells, is_address_at_once, is_at_once};
ghost use Rattle.abc_pending.specs.declared.at_once.TheConstants.{HEIGHT_AT_ONCE};

use crate::at_once::{HEIGHT_AT_ONCE, is_at_once, value_found};
use crate::place::Place;
use abc_frames::Targets;
use abc_num::Items;
use abc_num::limits::MOST_TREE_HEIGHT;
use abc_state::{Halt, Run, Scope, Spot, Step};
use abc_tree::Expr;
use abc_value::Value;
use std::alloc::Global;

/// The address that an expression is, where it is a name, or a selection, from such an address, at a key whose value is found at once,
/// with no more than HEIGHT_AT_ONCE selections: it is found without work of its own. None for all else, and then nothing was evaluated.
/// It answers the halt that the meaning gives on this line, or want of memory.
pub fn spot_at_once(
    alloc: Global,
    scope: &Scope<'_>,
    place: Place,
    e: &Expr,
    run: &Run,
    targets: &Targets,
) -> Result<Option<Spot>, Halt>
    ensures tells { (units : List Routine) (lines : List RawLine) (ended : Bool) → Tells address_of place.line result (state_of run.now targets.now lines ended) (address (meaning units place.levels) (at (scope_of scope.now) place.line) e.now (state_of run.now targets.now lines ended)) }
    ensures at_once { IfOk result (λ found. is_some found ≡ is_address_at_once HEIGHT_AT_ONCE (scope_of scope.now) e.now) }
    ensures none { is_address_at_once HEIGHT_AT_ONCE (scope_of scope.now) e.now ≡ false → result ≡ Ok None }
{
    if !is_address_at_once(scope, e, HEIGHT_AT_ONCE) {
        return Ok(None);
    }
    as_spot(steps_found(alloc, scope, place, MOST_TREE_HEIGHT + 1, e, run, targets))
}

/// The whole address of a name and of steps that were found.
fn as_spot(found: Result<Option<(u32, Items<Step>)>, Halt>) -> Result<Option<Spot>, Halt>
    ensures tells { (here : Here) (s : State) (g : Got (Option Address)) → Tells (λ p. Some (place_at p.0 (map step_of p.1))) here.line found s g → Tells address_of here.line result s (after g (whole here)) }
    ensures found { IfOk found (λ found. is_some found ≡ true) → IfOk result (λ found. is_some found ≡ true) }
{
    match found? {
        Some((name, steps)) => Ok(Some(Spot::Place(name, steps))),
        None => Ok(None),
    }
}

/// Whether the address that an expression is is found at once, where it selects from so many tables at most.
#[cycle(is_address_at_once)]
#[tactic(auto, using(crate::proofs::AtOnce::address_is))]
fn is_address_at_once(scope: &Scope<'_>, e: &Expr, height: u32) -> bool
    ensures { result ≡ is_address_at_once height (scope_of scope.now) e.now }
{
    match e {
        Expr::Name(_) => true,
        Expr::Select(t, k) => height > 0 && is_part_at_once(scope, t.get(), k.get(), height - 1),
        _ => false,
    }
}

/// Whether the address that a table is and the value of a key are.
#[cycle(is_address_at_once)]
fn is_part_at_once(scope: &Scope<'_>, table: &Expr, key: &Expr, height: u32) -> bool
    ensures { result ≡ (is_at_once HEIGHT_AT_ONCE (scope_of scope.now) key.now && is_address_at_once height (scope_of scope.now) table.now) }
{
    is_at_once(scope, key, HEIGHT_AT_ONCE) && is_address_at_once(scope, table, height)
}

/// The name and the steps of such an address with fewer selections than this.
#[tactic(auto, using(crate::proofs::AtOnce::address_is))]
fn steps_found(
    alloc: Global,
    scope: &Scope<'_>,
    place: Place,
    high: u32,
    e: &Expr,
    run: &Run,
    targets: &Targets,
) -> Result<Option<(u32, Items<Step>)>, Halt>
    ensures tells { (units : List Routine) (lines : List RawLine) (ended : Bool) → Tells (λ p. Some (place_at p.0 (map step_of p.1))) place.line result (state_of run.now targets.now lines ended) (address_within (meaning units place.levels) (at (scope_of scope.now) place.line) high e.now (state_of run.now targets.now lines ended)) }
    ensures found { (height : ℕ) → height < high → is_address_at_once height (scope_of scope.now) e.now ≡ true → IfOk result (λ found. is_some found ≡ true) }
{
    if high == 0 {
        return Ok(None);
    }
    match e {
        Expr::Name(i) => Ok(Some((i.0, Items::new(alloc)))),
        Expr::Select(t, k) => {
            match steps_found(alloc, scope, place, high - 1, t.get(), run, targets) {
                Ok(Some((name, steps))) => with_key(
                    name,
                    steps,
                    value_found(alloc, scope, place, k.get(), run, targets),
                ),
                Ok(None) => Ok(None),
                Err(halt) => Err(halt),
            }
        }
        _ => Ok(None),
    }
}

/// The same with a step more, to a key that was found.
fn with_key(
    name: u32,
    steps: Items<Step>,
    key: Result<Option<Value>, Halt>,
) -> Result<Option<(u32, Items<Step>)>, Halt>
    ensures tells { (line : ℕ) (s : State) (g : Got Tree) → Tells (λ v. v) line key s g → Tells (λ p. Some (place_at p.0 (map step_of p.1))) line result s (after g (λ v. gives (stepped (to_key v) (Some (place_at name (map step_of steps)))))) }
    ensures found { IfOk key (λ found. is_some found ≡ true) → IfOk result (λ found. is_some found ≡ true) }
{
    match key? {
        Some(key) => {
            let mut steps = steps;
            steps.push(Step::Key(key))?;
            Ok(Some((name, steps)))
        }
        None => Ok(None),
    }
}
