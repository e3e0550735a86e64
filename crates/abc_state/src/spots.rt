//! Addresses of values: where a value is put.
ghost use Rattle.std.specs.Prelude.{◌≡◌, [], map, option_map, IfOk, ℕ};
ghost use Rattle.abc_meaning.specs.State.{State, key, place};
ghost use Rattle.abc_meaning.specs.Here.{Here};
ghost use Rattle.abc_meaning.specs.Addresses.{stepped, together, whole};
ghost use Rattle.abc_state.specs.Views.{address_of};
ghost use Rattle.abc_state.specs.Agrees.{Agrees};

use crate::halt::Halt;
use abc_num::{Items, OutOfMemory};
use abc_value::Value;
use std::alloc::Global;

/// A step from a value to a part of it.
#[derive(Drop)]
pub enum Step {
    /// To the associate at this key.
    Key(Value),
}

/// Where a value is put.
#[cycle(spot)]
#[derive(Drop)]
pub enum Spot {
    /// At the end of some steps from the value of the name of this number.
    Place(u32, Items<Step>),
    /// Each field of a compound at a place of its own.
    Several(Items<Spot>),
}

/// The address that is a name. It takes no memory.
pub fn place(alloc: Global, name: u32) -> Spot
    ensures { address_of result ≡ place name [] }
{
    Spot::Place(name, Items::new(alloc))
}

/// An address with a key more; what selects from several places is none.
pub fn stepped(spot: Option<Spot>, selector: Value) -> Result<Option<Spot>, OutOfMemory>
    ensures { IfOk result (λ o. option_map address_of o ≡ stepped (key selector) (option_map address_of spot)) }
{
    match spot {
        Some(Spot::Place(name, steps)) => {
            let mut steps = steps;
            steps.push(Step::Key(selector))?;
            Ok(Some(Spot::Place(name, steps)))
        }
        Some(Spot::Several(_)) => Ok(None),
        None => Ok(None),
    }
}

/// Addresses together, where all are there.
pub fn together(alloc: Global, spots: Vec<Option<Spot>>) -> Result<Option<Spot>, OutOfMemory>
    ensures { IfOk result (λ o. option_map address_of o ≡ together (map (option_map address_of) spots.items)) }
{
    let mut all = Vec::new(alloc);
    for spot in spots {
        let Some(spot) = spot else {
            return Ok(None);
        };
        all.push(spot)?;
    }
    Ok(Some(Spot::Several(Items::from_vec(all))))
}

/// An address that is there.
pub fn whole(spot: Option<Spot>) -> Result<Spot, Halt>
    ensures { (here : Here) (s : State) → Agrees address_of here.line result s (whole here (option_map address_of spot) s) }
{
    match spot {
        Some(spot) => Ok(spot),
        None => Err(Halt::Wrong),
    }
}
