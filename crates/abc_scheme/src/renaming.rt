//! Variables and demands with the variables of a table in place of theirs.
ghost use Rattle.std.specs.Prelude.{◌≡◌, ◌<◌, ◌^◌, length, map, IfOk};
ghost use Rattle.std.specs.List.{All};
ghost use Rattle.abc_terms.specs.Nodes.{DemandIn, AreIn};
ghost use Rattle.abc_terms.specs.Renamed.{renamed, number_in, variable};
ghost use Rattle.abc_scheme.specs.inner.Places.{ArePlaces, PlacedUpto, numbers, placed_vars};

use abc_num::OutOfMemory;
use abc_terms::{Demand, VarId};
use abc_unify::Known;
use std::alloc::Global;

/// The demands, renamed.
pub fn renamed_demands(
    alloc: Global,
    demands: &[Demand],
    to: &[VarId],
) -> Result<Vec<Demand>, OutOfMemory>
    requires { All (DemandIn (length to.now)) demands.now }
    ensures { IfOk result (λ all. all.items ≡ map (renamed (number_in to.now)) demands.now) }
{
    let mut all = Vec::new(alloc);
    for i in 0..demands.len() {
        all.push(demands[i].renamed(alloc, to)?)?;
    }
    Ok(all)
}

/// The variable in place of this one.
fn in_place(to: &[VarId], a: VarId) -> VarId
    requires { a.0 < length to.now }
    ensures { result ≡ variable (number_in to.now a.0) }
{
    to[a.index()]
}

/// The variables, renamed.
pub fn renamed_vars(alloc: Global, vars: &[VarId], to: &[VarId]) -> Result<Vec<VarId>, OutOfMemory>
    requires { AreIn (length to.now) vars.now }
    ensures { IfOk result (λ all. all.items ≡ placed_vars (number_in to.now) vars.now) }
{
    let mut all = Vec::new(alloc);
    for i in 0..vars.len() {
        all.push(in_place(to, vars[i]))?;
    }
    Ok(all)
}

/// Writes for each known variable its place among them.
fn number(table: &mut [VarId], all: &[Known])
    requires inside { All (λ e. e.at.0 < length table.old) all.now }
    requires few { length all.now < 2 ^ 32 }
    requires begun { PlacedUpto (numbers all.now) 0 table.old }
    ensures places { ArePlaces (numbers all.now) table.new }
    ensures count { length table.new ≡ length table.old }
{
    for i in 0..all.len() {
        table[all[i].at.index()] = VarId(i as u32);
    }
}

/// A table that has for each of so many variables its place among the known ones, where it is known.
pub fn places(alloc: Global, count: u32, all: &[Known]) -> Result<Vec<VarId>, OutOfMemory>
    requires inside { All (λ e. e.at.0 < count) all.now }
    requires few { length all.now < 2 ^ 32 }
    ensures places { IfOk result (λ table. ArePlaces (numbers all.now) table.items) }
    ensures count { IfOk result (λ table. length table.items ≡ count) }
{
    let mut table = vec![in alloc; VarId(0); count as usize]?;
    number(&mut table, all);
    Ok(table)
}
