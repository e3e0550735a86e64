//! Taking what a draft made and asked into a graph.
ghost use Rattle.std.specs.Prelude.{◌≡◌, ◌+◌, ◌++◌, Err, OnOk, OnErr};
ghost use Rattle.std.specs.List.{All};
ghost use Rattle.abc_terms.specs.Nodes.{DemandIn};
ghost use Rattle.abc_unify.specs.Graphs.{IsUnsolvable};
ghost use Rattle.abc_demand.specs.Later.{IsLater};

use abc_num::OutOfMemory;
use abc_terms::Demand;
use abc_unify::{Graph, UnifyFault};

/// Makes so many variables and demands these. After a fault the graph is as before.
pub fn add(g: &mut Graph, made: u32, demands: Vec<Demand>) -> Result<(), UnifyFault>
    requires { All (DemandIn (g.old.count + made)) demands.items }
    ensures count { OnOk result (g.new.count ≡ g.old.count + made) }
    ensures demands { OnOk result (g.new.demands ≡ g.old.demands ++ demands.items) }
    ensures clash { result ≡ Err UnifyFault.Clash → IsUnsolvable (g.old.demands ++ demands.items) }
    ensures err { OnErr result (g.new ≡ g.old) }
    ensures later { IsLater g.old g.new }
{
    let before = g.mark();
    match add_all(g, made, demands) {
        Ok(()) => Ok(()),
        Err(fault) => {
            g.undo(before);
            Err(fault)
        }
    }
}

fn add_all(g: &mut Graph, made: u32, demands: Vec<Demand>) -> Result<(), UnifyFault>
    requires { All (DemandIn (g.old.count + made)) demands.items }
    ensures count { OnOk result (g.new.count ≡ g.old.count + made) }
    ensures demands { OnOk result (g.new.demands ≡ g.old.demands ++ demands.items) }
    ensures clash { result ≡ Err UnifyFault.Clash → IsUnsolvable (g.old.demands ++ demands.items) }
    ensures later { IsLater g.old g.new }
{
    make(g, made)?;
    g.demand_all(demands)
}

/// Makes so many variables.
fn make(g: &mut Graph, made: u32) -> Result<(), OutOfMemory>
    ensures count { OnOk result (g.new.count ≡ g.old.count + made) }
    ensures demands { g.new.demands ≡ g.old.demands }
    ensures later { IsLater g.old g.new }
{
    for _ in 0..made {
        g.fresh()?;
    }
    Ok(())
}
