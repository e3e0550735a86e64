//! What may be asked of variables.
ghost use Rattle.std.specs.Prelude.{◌≡◌, length, IfOk};
ghost use Rattle.abc_terms.specs.Nodes.{DemandIn};
ghost use Rattle.abc_terms.specs.Renamed.{renamed, number_in};

use crate::{Term, VarId};
use abc_num::OutOfMemory;
use std::alloc::Global;

/// What is asked of the types of variables.
#[derive(Debug, Drop)]
pub enum Demand {
    /// The variable is this type.
    Is(VarId, Term),
    /// Both are one type.
    Equal(VarId, VarId),
    /// The first is text of text, or a list of the second, or a table with such associates.
    Train(VarId, VarId),
    /// The first is a list of the second, or a table with such associates.
    Collection(VarId, VarId),
    /// The variable is number or text.
    NumberOrText(VarId),
}

impl Demand {
    /// The demand with other variables: the one of number i in `to` in place of each variable i. Fails only where memory
    /// is wanting.
    pub fn renamed(&self, alloc: Global, to: &[VarId]) -> Result<Demand, OutOfMemory>
        requires { DemandIn (length to.now) self.now }
        ensures { IfOk result (λ d. d ≡ renamed (number_in to.now) self.now) }
    {
        Ok(match self {
            Demand::Is(a, t) => Demand::Is(to[a.index()], t.renamed(alloc, to)?),
            Demand::Equal(a, b) => Demand::Equal(to[a.index()], to[b.index()]),
            Demand::Train(a, e) => Demand::Train(to[a.index()], to[e.index()]),
            Demand::Collection(a, e) => Demand::Collection(to[a.index()], to[e.index()]),
            Demand::NumberOrText(a) => Demand::NumberOrText(to[a.index()]),
        })
    }
}
