//! What is kept of a solved graph about some of its variables.
ghost use Rattle.std.specs.Prelude.{◌≡◌, ◌+◌, ◌≤◌, ◌↔◌, List, length, Err, IfOk, OnErr};
ghost use Rattle.abc_num.specs.declared.types.Ground.{Ground};
ghost use Rattle.std.specs.List.{All};
ghost use Rattle.abc_terms.specs.declared.demand.Demand.{Demand};
ghost use Rattle.abc_terms.specs.Nodes.{AreIn};
ghost use Rattle.abc_unify.specs.Graphs.{HasSolution};
ghost use Rattle.abc_unify.specs.Forms.{AreForms, IsKnown};
ghost use Rattle.abc_scheme.specs.Schemes.{MayHave, StandsFor, IsInside, IsCopied, CannotBeCopied};
ghost use Rattle.abc_scheme.specs.Later.{IsLater};

use crate::copying::copy_behind;
use crate::renaming::{places, renamed_demands, renamed_vars};
use crate::saying::say_all;
use abc_num::{Items, OutOfMemory};
use abc_terms::{Demand, VarId, Vars};
use abc_unify::{Graph, Known, UnifyFault};
use std::alloc::Global;

/// Variables numbered from 0, demands on them in which the forms of a graph are said, and those of the variables that the
/// scheme is about.
#[derive(Drop)]
pub struct Scheme {
    pub count: u32,
    pub demands: Items<Demand>,
    pub own: Vars,
}

impl Scheme {
    /// What the demands of a graph leave to these of its variables, and nothing of its other variables.
    pub fn of(alloc: Global, g: &Graph, wanted: &[VarId]) -> Result<Scheme, OutOfMemory>
        requires { AreIn g.now.count wanted.now }
        ensures exact { IfOk result (λ s. (ts : List Ground) → StandsFor s ts ↔ MayHave g.now.demands wanted.now ts) }
        ensures inside { IfOk result (λ s. IsInside s) }
        ensures size { IfOk result (λ s. length s.own ≡ length wanted.now) }
    {
        let variables = g.count();
        let all = g.forms(wanted)?;
        let scheme = kept(alloc, variables, &all, wanted)?;
        Ok(scheme)
    }

    /// Puts a copy into a graph, in which the first own variables are those given, and all other variables are new. Gives the
    /// variables in place of the other own ones. Clash comes exactly where no types are left; after a fault the graph is as
    /// before.
    pub fn copy(
        &self,
        alloc: Global,
        g: &mut Graph,
        given: &[VarId],
    ) -> Result<Vec<VarId>, UnifyFault>
        requires inside { IsInside self.now }
        requires given { AreIn g.old.count given.now }
        requires few { length given.now ≤ length self.now.own }
        ensures ok { IfOk result (λ own. IsCopied self.now g.old g.new given.now own.items) }
        ensures size { IfOk result (λ own. length given.now + length own.items ≡ length self.now.own) }
        ensures clash { result ≡ Err UnifyFault.Clash → CannotBeCopied self.now g.old given.now }
        ensures err { OnErr result (g.new ≡ g.old) }
        ensures later { IsLater g.old g.new }
    {
        let before = g.mark();
        match copy_behind(alloc, g, self, given) {
            Ok(own) => Ok(own),
            Err(fault) => {
                g.undo(before);
                Err(fault)
            }
        }
    }
}

/// What these forms say of the wanted variables.
fn kept(
    alloc: Global,
    variables: u32,
    all: &[Known],
    wanted: &[VarId],
) -> Result<Scheme, OutOfMemory>
    requires told { (demands : List Demand) × AreForms variables demands all.now × HasSolution demands }
    requires there { All (λ a. IsKnown all.now a.0) wanted.now }
    requires made { AreIn variables wanted.now }
    ensures exact { IfOk result (λ s. (demands : List Demand) → AreForms variables demands all.now → HasSolution demands → (ts : List Ground) → StandsFor s ts ↔ MayHave demands wanted.now ts) }
    ensures inside { IfOk result (λ s. IsInside s) }
    ensures size { IfOk result (λ s. length s.own ≡ length wanted.now) }
{
    if all.len() > u32::MAX as usize {
        return Err(OutOfMemory);
    }
    let said = say_all(alloc, all)?;
    let table = places(alloc, variables, all)?;
    let demands = renamed_demands(alloc, &said, &table)?;
    let own = renamed_vars(alloc, wanted, &table)?;
    Ok(Scheme {
        count: all.len() as u32,
        demands: Items::from_vec(demands),
        own: Items::from_vec(own),
    })
}
