//! Numbered variables and the demands on them.
ghost use Rattle.std.specs.Prelude.{◌≡◌, ◌<◌, ◌≤◌, [], ◌∷◌, ◌++◌, length, IfOk, OnOk, OnErr};
ghost use Rattle.abc_terms.specs.declared.demand.Demand.{Demand};
ghost use Rattle.std.specs.List.{All};
ghost use Rattle.abc_terms.specs.Nodes.{IsNode, IsUnnamed, DemandIn, AreIn};
ghost use Rattle.abc_unify.specs.Graphs.{Seen, with_variable, with_demand, with_demands, with_node, back_at, HasSolution, IsUnsolvable};
ghost use Rattle.abc_unify.specs.Forms.{IsForm, AreForms, IsKnown};

use crate::forms::{Form, Known, form_at};
use crate::gather::forms_at;
use crate::kind::{Constraint, Kind};
use crate::state::State;
use abc_num::OutOfMemory;
use abc_terms::{Demand, Term, VarId};
use std::alloc::{AllocError, AllocFailed, Global};
use std::marker::Model;
use thiserror::Error;

/// Numbered variables and the demands on them, which some types meet.
#[derive(Drop)]
pub struct Graph {
    alloc: Global,
    state: State,
}

impl Model for Graph {
    ghost use Rattle.abc_unify.specs.Graphs.{Seen};
    ghost use Rattle.abc_unify.specs.inner.States.{IsState, seen};
    ghost use Rattle.abc_terms.specs.contracts.demand.Demand as demand;
    ghost use Rattle.std.specs.Coded.{codes};

    ghost Value = { Seen };

    ghost coded = { Prim.hlevel (codes, demand.the_row.coded) };

    ghost view = { λ g. seen g.state };

    ghost invariant = { λ g. IsState g.state };
}

/// A state of a graph that it can go back to, seen as the number of calls before it that added something.
#[derive(Clone, Copy)]
pub struct Mark {
    calls: usize,
}

impl Model for Mark {
    ghost use Rattle.std.specs.Prelude.{ℕ};

    ghost Value = { ℕ };

    ghost view = { λ m. m.calls };

    ghost inverse = { λ n. record { calls = n } };
}

/// Why a demand is not added.
#[derive(Clone, Copy, Debug, PartialEq, Eq, Error)]
pub enum UnifyFault {
    #[error("no types meet the demands")]
    Clash,
    #[error("out of memory")]
    Memory,
}

impl From<AllocError> for UnifyFault {
    ghost use Rattle.std.specs.Prelude.{◌≡◌};
    ghost use Rattle.abc_unify.specs.declared.graph.UnifyFault.TheVariants.{Memory};

    ghost from_gives = { λ _ fault. fault ≡ Memory };

    fn from(_refused: AllocError) -> UnifyFault {
        UnifyFault::Memory
    }
}

impl<T: Drop> From<AllocFailed<T>> for UnifyFault {
    ghost use Rattle.std.specs.Prelude.{◌≡◌};
    ghost use Rattle.abc_unify.specs.declared.graph.UnifyFault.TheVariants.{Memory};

    ghost from_gives = { λ _ fault. fault ≡ Memory };

    fn from(_refused: AllocFailed<T>) -> UnifyFault {
        UnifyFault::Memory
    }
}

impl From<OutOfMemory> for UnifyFault {
    ghost use Rattle.std.specs.Prelude.{◌≡◌};
    ghost use Rattle.abc_unify.specs.declared.graph.UnifyFault.TheVariants.{Memory};

    ghost from_gives = { λ _ fault. fault ≡ Memory };

    fn from(_refused: OutOfMemory) -> UnifyFault {
        UnifyFault::Memory
    }
}

impl Graph {
    /// No variables and no demands.
    pub fn new(alloc: Global) -> Graph
        ensures empty { result ≡ record { count = 0; demands = []; past = [] } }
        ensures solvable { HasSolution result.demands }
    {
        Graph {
            alloc,
            state: State::new(alloc),
        }
    }

    /// How many variables there are. The demands name no others, and some types meet them.
    pub fn count(&self) -> u32
        ensures count { result ≡ self.now.count }
        ensures made { All (DemandIn self.now.count) self.now.demands }
        ensures solvable { HasSolution self.now.demands }
    {
        self.state.slots.len() as u32
    }

    /// Makes the variable with the next number. After OutOfMemory the graph is as before.
    pub fn fresh(&mut self) -> Result<VarId, OutOfMemory>
        ensures number { IfOk result (λ a. a.0 ≡ self.old.count) }
        ensures ok { OnOk result (self.new ≡ with_variable self.old) }
        ensures unnamed { IfOk result (λ a. IsUnnamed a.0 self.old.demands) }
        ensures solvable { HasSolution self.new.demands }
        ensures err { OnErr result (self.new ≡ self.old) }
    {
        self.state.add_variable()
    }

    /// Makes the variable with the next number, and demands that it is this term, whose parts are variables of this
    /// graph. After OutOfMemory the graph is as before.
    pub fn node(&mut self, t: Term) -> Result<VarId, OutOfMemory>
        requires { IsNode self.old.count t }
        ensures number { IfOk result (λ a. a.0 ≡ self.old.count) }
        ensures ok { IfOk result (λ a. self.new ≡ with_node self.old a t) }
        ensures unnamed { IfOk result (λ a. IsUnnamed a.0 self.old.demands) }
        ensures solvable { HasSolution self.new.demands }
        ensures err { OnErr result (self.new ≡ self.old) }
    {
        self.state.add_node(self.alloc, t)
    }

    /// Demands that two variables are one type. After a fault the graph is as before.
    pub fn equal(&mut self, a: VarId, b: VarId) -> Result<(), UnifyFault>
        requires a { a.0 < self.old.count }
        requires b { b.0 < self.old.count }
        ensures ok { OnOk result (self.new ≡ with_demand self.old (Demand.Equal a b)) }
        ensures solvable { HasSolution self.new.demands }
        ensures clash { result ≡ Err UnifyFault.Clash → IsUnsolvable (self.old.demands ++ (Demand.Equal a b) ∷ []) }
        ensures err { OnErr result (self.new ≡ self.old) }
    {
        self.state
            .add(self.alloc, Demand::Equal(a, b), Constraint::Equal(a, b))
    }

    /// Demands that `a` is text of text, a list of `e`, or a table with associates `e`. After a fault the graph is as
    /// before.
    pub fn train(&mut self, a: VarId, e: VarId) -> Result<(), UnifyFault>
        requires a { a.0 < self.old.count }
        requires e { e.0 < self.old.count }
        ensures ok { OnOk result (self.new ≡ with_demand self.old (Demand.Train a e)) }
        ensures solvable { HasSolution self.new.demands }
        ensures clash { result ≡ Err UnifyFault.Clash → IsUnsolvable (self.old.demands ++ (Demand.Train a e) ∷ []) }
        ensures err { OnErr result (self.new ≡ self.old) }
    {
        self.state.add(
            self.alloc,
            Demand::Train(a, e),
            Constraint::Is(a, Kind::TrainOf(e)),
        )
    }

    /// Demands that `a` is a list of `e`, or a table with associates `e`. After a fault the graph is as before.
    pub fn collection(&mut self, a: VarId, e: VarId) -> Result<(), UnifyFault>
        requires a { a.0 < self.old.count }
        requires e { e.0 < self.old.count }
        ensures ok { OnOk result (self.new ≡ with_demand self.old (Demand.Collection a e)) }
        ensures solvable { HasSolution self.new.demands }
        ensures clash { result ≡ Err UnifyFault.Clash → IsUnsolvable (self.old.demands ++ (Demand.Collection a e) ∷ []) }
        ensures err { OnErr result (self.new ≡ self.old) }
    {
        self.state.add(
            self.alloc,
            Demand::Collection(a, e),
            Constraint::Is(a, Kind::CollectionOf(e)),
        )
    }

    /// Demands that `a` is number or text. After a fault the graph is as before.
    pub fn number_or_text(&mut self, a: VarId) -> Result<(), UnifyFault>
        requires { a.0 < self.old.count }
        ensures ok { OnOk result (self.new ≡ with_demand self.old (Demand.NumberOrText a)) }
        ensures solvable { HasSolution self.new.demands }
        ensures clash { result ≡ Err UnifyFault.Clash → IsUnsolvable (self.old.demands ++ (Demand.NumberOrText a) ∷ []) }
        ensures err { OnErr result (self.new ≡ self.old) }
    {
        self.state.add(
            self.alloc,
            Demand::NumberOrText(a),
            Constraint::Is(a, Kind::NumberOrText),
        )
    }

    /// Demands all of these of variables of this graph. After a fault the graph is as before.
    pub fn demand_all(&mut self, demands: Vec<Demand>) -> Result<(), UnifyFault>
        requires { All (DemandIn self.old.count) demands.items }
        ensures ok { OnOk result (self.new ≡ with_demands self.old demands.items) }
        ensures solvable { HasSolution self.new.demands }
        ensures clash { result ≡ Err UnifyFault.Clash → IsUnsolvable (self.old.demands ++ demands.items) }
        ensures err { OnErr result (self.new ≡ self.old) }
    {
        self.state.add_all(self.alloc, demands)
    }

    /// What the demands say of a variable of this graph: its outer form, or how it varies.
    pub fn form(&self, a: VarId) -> Result<Form, OutOfMemory>
        requires { a.0 < self.now.count }
        ensures { IfOk result (λ f. IsForm self.now.count self.now.demands a.0 f) }
    {
        let form = form_at(self.alloc, self.state.slots.as_slice(), a)?;
        Ok(form)
    }

    /// The forms of these variables of this graph, and of all that they lead to.
    pub fn forms(&self, wanted: &[VarId]) -> Result<Vec<Known>, OutOfMemory>
        requires { AreIn self.now.count wanted.now }
        ensures forms { IfOk result (λ all. AreForms self.now.count self.now.demands all.items) }
        ensures there { IfOk result (λ all. All (λ a. IsKnown all.items a.0) wanted.now) }
    {
        let all = forms_at(self.alloc, self.state.slots.as_slice(), wanted)?;
        Ok(all)
    }

    /// The present state, to go back to.
    pub fn mark(&self) -> Mark
        ensures { result ≡ length self.now.past }
    {
        Mark {
            calls: self.state.history.len(),
        }
    }

    /// Goes back to the state at the mark, which this graph made, and before which nothing was undone since. It takes no
    /// memory.
    pub fn undo(&mut self, m: Mark)
        requires { m ≤ length self.old.past }
        ensures back { self.new ≡ back_at self.old m }
        ensures solvable { HasSolution self.new.demands }
    {
        if m.calls < self.state.history.len() {
            self.state.go_back(m.calls);
        }
    }
}
