//! A compound that is put at several places: its fields from left to right, if they match the address.
ghost use Rattle.std.specs.Prelude.{◌≡◌, ℕ, Bool, List, map, is_some, true};
ghost use Rattle.abc_num.specs.declared.lines.RawLine.{RawLine};
ghost use Rattle.abc_value.specs.Parts.{parts_of};
ghost use Rattle.abc_meaning.specs.Changing.{fielded, put, put_parts};
ghost use Rattle.abc_state.specs.Views.{at, address_of, scope_of, state_of};
ghost use Rattle.abc_state.specs.Agrees.{Agrees};
ghost use Rattle.abc_acts.specs.inner.Fields.{have_match, fields_at, all_fields_at};

use crate::changes::change;
use crate::changing::Change;
use abc_frames::Targets;
use abc_state::{Halt, Run, Scope, Spot, copied};
use abc_value::{Kind, Value};
use std::alloc::Global;

/// Puts the fields of a value at the places of an address.
pub(crate) fn put_fields(
    alloc: Global,
    scope: &Scope<'_>,
    run: &mut Run,
    targets: &mut Targets,
    spot: &Spot,
    value: &Value,
) -> Result<(), Halt>
    ensures agrees { (line : ℕ) (lines : List RawLine) (ended : Bool) → Agrees (λ _. tt) line result (state_of run.new targets.new lines ended) (put (at (scope_of scope.now) line) (address_of spot.now) value.now (state_of run.old targets.old lines ended)) }
    ensures left { run.new.left ≡ run.old.left }
{
    if !matches_value(spot, value) {
        return Err(Halt::Wrong);
    }
    put_matching(alloc, scope, run, targets, spot, value)
}

/// Whether an address matches a value: a compound with a field for each place, where there are several.
#[cycle(matching)]
fn matches_value(spot: &Spot, value: &Value) -> bool
    ensures { result ≡ is_some (fielded (address_of spot.now) value.now) }
{
    match spot {
        Spot::Place(_, _) => true,
        Spot::Several(all) => match value.kind() {
            Kind::Compound => match_fields(all.as_slice(), value),
            _ => false,
        },
    }
}

/// The same of each place and each field.
#[cycle(matching)]
fn match_fields(spots: &[Spot], compound: &Value) -> bool
    ensures { result ≡ have_match (map address_of spots.now) (parts_of compound.now) }
{
    for (place, spot) in spots.iter().enumerate() {
        let Some(field) = compound.part(place) else {
            return false;
        };
        if !matches_value(spot, field) {
            return false;
        }
    }
    match compound.part(spots.len()) {
        None => true,
        Some(_) => false,
    }
}

/// Puts the fields where they match.
#[cycle(putting)]
fn put_matching(
    alloc: Global,
    scope: &Scope<'_>,
    run: &mut Run,
    targets: &mut Targets,
    spot: &Spot,
    value: &Value,
) -> Result<(), Halt>
    ensures agrees { is_some (fielded (address_of spot.now) value.now) ≡ true → (line : ℕ) (lines : List RawLine) (ended : Bool) → Agrees (λ _. tt) line result (state_of run.new targets.new lines ended) (put_parts (at (scope_of scope.now) line) (fields_at (address_of spot.now) value.now) (state_of run.old targets.old lines ended)) }
    ensures left { run.new.left ≡ run.old.left }
{
    match spot {
        Spot::Place(name, steps) => {
            let what = Change::Puts(copied(value)?);
            change(alloc, scope, run, targets, *name, steps.as_slice(), what)
        }
        Spot::Several(all) => put_each(alloc, scope, run, targets, all.as_slice(), value),
    }
}

/// Puts each field at its place.
#[cycle(putting)]
fn put_each(
    alloc: Global,
    scope: &Scope<'_>,
    run: &mut Run,
    targets: &mut Targets,
    spots: &[Spot],
    compound: &Value,
) -> Result<(), Halt>
    ensures agrees { have_match (map address_of spots.now) (parts_of compound.now) ≡ true → (line : ℕ) (lines : List RawLine) (ended : Bool) → Agrees (λ _. tt) line result (state_of run.new targets.new lines ended) (put_parts (at (scope_of scope.now) line) (all_fields_at (map address_of spots.now) (parts_of compound.now)) (state_of run.old targets.old lines ended)) }
    ensures left { run.new.left ≡ run.old.left }
{
    for (place, spot) in spots.iter().enumerate() {
        let Some(field) = compound.part(place) else {
            return Err(Halt::Wrong);
        };
        put_matching(alloc, scope, run, targets, spot, field)?;
    }
    Ok(())
}
