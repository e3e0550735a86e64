//! Copies of schemes in a graph.
ghost use Rattle.std.specs.Prelude.{◌≡◌, ◌+◌, ◌≤◌, ◌++◌, length, map, take, drop, Err, IfOk, OnOk};
ghost use Rattle.abc_terms.specs.Nodes.{AreIn};
ghost use Rattle.abc_terms.specs.Renamed.{renamed, number_in};
ghost use Rattle.abc_scheme.specs.Schemes.{IsInside, IsCopied, CannotBeCopied};
ghost use Rattle.abc_scheme.specs.inner.Places.{placed_vars};
ghost use Rattle.abc_scheme.specs.inner.Copies.{AreMadeBehind, equals};
ghost use Rattle.abc_scheme.specs.Later.{IsLater};

use crate::renaming::{renamed_demands, renamed_vars};
use crate::scheme::Scheme;
use abc_num::OutOfMemory;
use abc_terms::{Demand, VarId};
use abc_unify::{Graph, UnifyFault};
use std::alloc::Global;

/// So many new variables.
fn fresh_vars(alloc: Global, g: &mut Graph, count: u32) -> Result<Vec<VarId>, OutOfMemory>
    ensures made { IfOk result (λ vars. AreMadeBehind g.old g.new vars.items) }
    ensures count { IfOk result (λ vars. length vars.items ≡ count) }
    ensures later { IsLater g.old g.new }
{
    let mut vars = Vec::new(alloc);
    for _ in 0..count {
        vars.push(g.fresh()?)?;
    }
    Ok(vars)
}

/// Adds that the variables of the first list are one type with those of the second, each with that at its place.
fn equal_all(demands: &mut Vec<Demand>, xs: &[VarId], ys: &[VarId]) -> Result<(), OutOfMemory>
    requires { length xs.now ≤ length ys.now }
    ensures { OnOk result (demands.new.items ≡ demands.old.items ++ equals xs.now ys.now) }
{
    for i in 0..xs.len() {
        demands.push(Demand::Equal(xs[i], ys[i]))?;
    }
    Ok(())
}

/// The variables in place of the first own ones of a scheme.
fn first_placed(
    alloc: Global,
    scheme: &Scheme,
    count: usize,
    table: &[VarId],
) -> Result<Vec<VarId>, OutOfMemory>
    requires inside { IsInside scheme.now }
    requires table { length table.now ≡ scheme.now.count }
    requires few { count ≤ length scheme.now.own }
    ensures { IfOk result (λ vars. vars.items ≡ placed_vars (number_in table.now) (take count scheme.now.own)) }
{
    let own = scheme.own.as_slice();
    renamed_vars(alloc, &own[..count], table)
}

/// The variables in place of the others.
fn rest_placed(
    alloc: Global,
    scheme: &Scheme,
    count: usize,
    table: &[VarId],
) -> Result<Vec<VarId>, OutOfMemory>
    requires inside { IsInside scheme.now }
    requires table { length table.now ≡ scheme.now.count }
    requires few { count ≤ length scheme.now.own }
    ensures { IfOk result (λ vars. vars.items ≡ placed_vars (number_in table.now) (drop count scheme.now.own)) }
{
    let own = scheme.own.as_slice();
    renamed_vars(alloc, &own[count..], table)
}

/// The demands of a copy over the variables of the table, the first own variables of which are those given.
fn copied_demands(
    alloc: Global,
    scheme: &Scheme,
    given: &[VarId],
    table: &[VarId],
) -> Result<Vec<Demand>, OutOfMemory>
    requires inside { IsInside scheme.now }
    requires count { length table.now ≡ scheme.now.count }
    requires few { length given.now ≤ length scheme.now.own }
    ensures { IfOk result (λ ds. ds.items ≡ map (renamed (number_in table.now)) scheme.now.demands ++ equals given.now (placed_vars (number_in table.now) (take (length given.now) scheme.now.own))) }
{
    let mut demands = renamed_demands(alloc, scheme.demands.as_slice(), table)?;
    let first = first_placed(alloc, scheme, given.len(), table)?;
    equal_all(&mut demands, given, &first)?;
    Ok(demands)
}

/// Puts a copy behind what the graph has. After a fault the graph may have more, and can go back.
pub fn copy_behind(
    alloc: Global,
    g: &mut Graph,
    scheme: &Scheme,
    given: &[VarId],
) -> Result<Vec<VarId>, UnifyFault>
    requires inside { IsInside scheme.now }
    requires given { AreIn g.old.count given.now }
    requires few { length given.now ≤ length scheme.now.own }
    ensures ok { IfOk result (λ own. IsCopied scheme.now g.old g.new given.now own.items) }
    ensures size { IfOk result (λ own. length given.now + length own.items ≡ length scheme.now.own) }
    ensures clash { result ≡ Err UnifyFault.Clash → CannotBeCopied scheme.now g.old given.now }
    ensures later { IsLater g.old g.new }
{
    let _count = g.count();
    let table = fresh_vars(alloc, g, scheme.count)?;
    let demands = copied_demands(alloc, scheme, given, &table)?;
    let own = rest_placed(alloc, scheme, given.len(), &table)?;
    g.demand_all(demands)?;
    Ok(own)
}
