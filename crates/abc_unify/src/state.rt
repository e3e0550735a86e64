//! What a graph holds, and how it goes back to an earlier state.
ghost use Rattle.std.specs.Prelude.{◌≡◌, ℕ, ◌+◌, ◌<◌, ◌^◌, ◌↔◌, [], ◌∷◌, ◌++◌, length, IfOk, OnOk, OnErr};
ghost use Rattle.std.specs.List.{All};
ghost use Rattle.abc_num.specs.declared.types.Ground.{Ground};
ghost use Rattle.abc_terms.specs.declared.demand.Demand.{Demand};
ghost use Rattle.abc_terms.specs.Demands.{Holds, MeetsAll};
ghost use Rattle.abc_terms.specs.Nodes.{IsNode, DemandIn};
ghost use Rattle.abc_unify.specs.inner.Kinds.{ConstraintHolds, ConstraintIn, ConstraintsHold, ConstraintsIn};
ghost use Rattle.abc_unify.specs.inner.Slots.{SlotsIn, Stepped, IsRanked};
ghost use Rattle.abc_unify.specs.inner.Logs.{IsLogged, EntryIn};
ghost use Rattle.abc_unify.specs.inner.Naming.{AreNoted};
ghost use Rattle.abc_unify.specs.Graphs.{with_variable, with_demand, with_demands, with_node, back_at, IsUnsolvable};
ghost use Rattle.abc_unify.specs.inner.States.{IsState, seen, point_at};

use crate::acyclic::solve_without_cycles;
use crate::graph::UnifyFault;
use crate::kind::{Constraint, Kind, Slot, Solving};
use crate::log::{Entry, roll_back};
use crate::marks::Marks;
use crate::naming::note_slot;
use crate::node::slot_of;
use abc_num::OutOfMemory;
use abc_num::limits::MOST_VARIABLES;
use abc_terms::{Demand, Term, VarId};
use std::alloc::{AllocError, Global};

/// How much there was of each at an earlier state.
#[derive(Clone, Copy)]
pub struct Point {
    pub variables: usize,
    pub writes: usize,
    pub demands: usize,
}

/// The slots that the demands led to, the writes of slots, the demands, and the earlier states; which variables slots name,
/// and the marks of the searches.
#[derive(Drop)]
pub struct State {
    pub slots: Vec<Slot>,
    pub log: Vec<Entry>,
    pub demands: Vec<Demand>,
    pub history: Vec<Point>,
    pub named: Vec<bool>,
    pub marks: Marks,
}

impl State {
    pub fn new(alloc: Global) -> State
        ensures kept { IsState result }
        ensures empty { seen result ≡ record { count = 0; demands = []; past = [] } }
    {
        State {
            slots: Vec::new(alloc),
            log: Vec::new(alloc),
            demands: Vec::new(alloc),
            history: Vec::new(alloc),
            named: Vec::new(alloc),
            marks: Marks::new(alloc),
        }
    }

    fn point(&self) -> Point
        ensures { result ≡ point_at self.now.slots.items self.now.log.items self.now.demands.items }
    {
        Point {
            variables: self.slots.len(),
            writes: self.log.len(),
            demands: self.demands.len(),
        }
    }

    /// Adds a variable of which nothing is known. All memory is taken before anything is changed.
    pub fn add_variable(&mut self) -> Result<VarId, OutOfMemory>
        requires { IsState self.old }
        ensures kept { IsState self.new }
        ensures number { IfOk result (λ a. a.0 ≡ length self.old.slots.items) }
        ensures ok { OnOk result (seen self.new ≡ with_variable (seen self.old)) }
        ensures err { OnErr result (seen self.new ≡ seen self.old) }
    {
        let number = self.slots.len();
        if number >= MOST_VARIABLES {
            return Err(OutOfMemory);
        }
        let point = self.point();
        self.history.reserve(1)?;
        self.slots.reserve(1)?;
        self.named.reserve(1)?;
        // There is room, so these take no memory and do not fail.
        let _ = self.slots.push(Slot::Root(Kind::Free));
        let _ = self.history.push(point);
        let _ = self.named.push(false);
        Ok(VarId(number as u32))
    }

    /// Adds a variable that is a term. All memory is taken before anything is changed.
    pub fn add_node(&mut self, alloc: Global, t: Term) -> Result<VarId, OutOfMemory>
        requires kept { IsState self.old }
        requires node { IsNode (length self.old.slots.items) t }
        ensures kept { IsState self.new }
        ensures number { IfOk result (λ a. a.0 ≡ length self.old.slots.items) }
        ensures ok { IfOk result (λ a. seen self.new ≡ with_node (seen self.old) a t) }
        ensures err { OnErr result (seen self.new ≡ seen self.old) }
    {
        let number = self.slots.len();
        if number >= MOST_VARIABLES {
            return Err(OutOfMemory);
        }
        let slot = slot_of(alloc, &t)?;
        let point = self.point();
        self.history.reserve(1)?;
        self.slots.reserve(1)?;
        self.demands.reserve(1)?;
        self.named.reserve(1)?;
        let a = VarId(number as u32);
        // There is room, so these take no memory and do not fail.
        let _ = self.named.push(false);
        note_slot(self.named.as_mut_slice(), &slot);
        let _ = self.slots.push(slot);
        let _ = self.demands.push(Demand::Is(a, t));
        let _ = self.history.push(point);
        Ok(a)
    }

    /// Adds a demand, which is this constraint on the slots. Where no types meet it, nothing is changed.
    pub fn add(
        &mut self,
        alloc: Global,
        demand: Demand,
        constraint: Constraint,
    ) -> Result<(), UnifyFault>
        requires kept { IsState self.old }
        requires constraint { ConstraintIn (length self.old.slots.items) constraint }
        requires made { DemandIn (length self.old.slots.items) demand }
        requires same { (v : ℕ → Ground) → Holds v demand ↔ ConstraintHolds v constraint }
        ensures kept { IsState self.new }
        ensures ok { OnOk result (seen self.new ≡ with_demand (seen self.old) demand) }
        ensures clash { result ≡ Err UnifyFault.Clash → IsUnsolvable (self.old.demands.items ++ demand ∷ []) }
        ensures err { OnErr result (seen self.new ≡ seen self.old) }
    {
        let point = self.point();
        self.demands.reserve(1)?;
        self.history.reserve(1)?;
        match take_in(
            alloc,
            self.slots.as_mut_slice(),
            &mut self.log,
            constraint,
            self.named.as_mut_slice(),
            &mut self.marks,
        )? {
            Solving::Solved => {
                // There is room, so these take no memory and do not fail.
                let _ = self.demands.push(demand);
                let _ = self.history.push(point);
                Ok(())
            }
            Solving::Clash => Err(UnifyFault::Clash),
        }
    }

    /// Adds demands, all or none. Where no types meet them all, nothing is changed.
    pub fn add_all(&mut self, alloc: Global, demands: Vec<Demand>) -> Result<(), UnifyFault>
        requires kept { IsState self.old }
        requires made { All (DemandIn (length self.old.slots.items)) demands.items }
        ensures kept { IsState self.new }
        ensures ok { OnOk result (seen self.new ≡ with_demands (seen self.old) demands.items) }
        ensures clash { result ≡ Err UnifyFault.Clash → IsUnsolvable (self.old.demands.items ++ demands.items) }
        ensures err { OnErr result (seen self.new ≡ seen self.old) }
    {
        let mut work = constraints_of_all(alloc, demands.as_slice())?;
        let before = self.point();
        let mut more = demands;
        self.history.reserve(1)?;
        self.demands.append(&mut more)?;
        match take_all(
            alloc,
            self.slots.as_mut_slice(),
            &mut self.log,
            &mut work,
            self.named.as_mut_slice(),
            &mut self.marks,
        ) {
            Ok(Solving::Solved) => {
                // There is room, so this takes no memory and does not fail.
                let _ = self.history.push(before);
                Ok(())
            }
            Ok(Solving::Clash) => {
                self.demands.truncate(before.demands);
                Err(UnifyFault::Clash)
            }
            Err(_) => {
                self.demands.truncate(before.demands);
                Err(UnifyFault::Memory)
            }
        }
    }

    /// Goes back to the state before the call of this number. It takes no memory.
    pub fn go_back(&mut self, to: usize)
        requires kept { IsState self.old }
        requires to { to < length self.old.history.items }
        ensures kept { IsState self.new }
        ensures back { seen self.new ≡ back_at (seen self.old) to }
    {
        let point = self.history[to];
        roll_back(self.slots.as_mut_slice(), &mut self.log, point.writes);
        self.slots.truncate(point.variables);
        self.demands.truncate(point.demands);
        self.history.truncate(to);
        self.named.truncate(point.variables);
    }
}

/// Takes a constraint into the slots. Where no types meet it, or memory is wanting, nothing is changed.
fn take_in(
    alloc: Global,
    slots: &mut [Slot],
    log: &mut Vec<Entry>,
    constraint: Constraint,
    named: &mut [bool],
    marks: &mut Marks,
) -> Result<Solving, AllocError>
    requires slots { SlotsIn slots.old }
    requires noted { AreNoted slots.old log.old.items named.old }
    requires entries { All (EntryIn (length slots.old)) log.old.items }
    requires constraint { ConstraintIn (length slots.old) constraint }
    requires ranked { (rank : ℕ → ℕ) × IsRanked slots.old rank }
    requires few { length slots.old < 2 ^ 32 }
    ensures slots { IfOk result (λ solving. solving ≡ Solving.Solved → SlotsIn slots.new) }
    ensures solutions { IfOk result (λ solving. Stepped solving slots.old (constraint ∷ []) slots.new []) }
    ensures ranked { IfOk result (λ solving. solving ≡ Solving.Solved → (rank : ℕ → ℕ) × IsRanked slots.new rank) }
    ensures logged { IfOk result (λ solving. solving ≡ Solving.Solved → IsLogged slots.old log.old.items slots.new log.new.items) }
    ensures refused { IfOk result (λ solving. solving ≡ Solving.Clash → (slots.new ≡ slots.old) × (log.new.items ≡ log.old.items)) }
    ensures err { OnErr result ((slots.new ≡ slots.old) × (log.new.items ≡ log.old.items)) }
    ensures noted { AreNoted slots.new log.new.items named.new }
{
    let mut work = Vec::new(alloc);
    work.push(constraint)?;
    let taken = take_all(alloc, slots, log, &mut work, named, marks)?;
    Ok(taken)
}

/// The same of all pending constraints.
fn take_all(
    alloc: Global,
    slots: &mut [Slot],
    log: &mut Vec<Entry>,
    work: &mut Vec<Constraint>,
    named: &mut [bool],
    marks: &mut Marks,
) -> Result<Solving, AllocError>
    requires slots { SlotsIn slots.old }
    requires noted { AreNoted slots.old log.old.items named.old }
    requires entries { All (EntryIn (length slots.old)) log.old.items }
    requires work { ConstraintsIn (length slots.old) work.old.items }
    requires ranked { (rank : ℕ → ℕ) × IsRanked slots.old rank }
    requires few { length slots.old < 2 ^ 32 }
    ensures slots { IfOk result (λ solving. solving ≡ Solving.Solved → SlotsIn slots.new) }
    ensures solutions { IfOk result (λ solving. Stepped solving slots.old work.old.items slots.new []) }
    ensures ranked { IfOk result (λ solving. solving ≡ Solving.Solved → (rank : ℕ → ℕ) × IsRanked slots.new rank) }
    ensures logged { IfOk result (λ solving. solving ≡ Solving.Solved → IsLogged slots.old log.old.items slots.new log.new.items) }
    ensures refused { IfOk result (λ solving. solving ≡ Solving.Clash → (slots.new ≡ slots.old) × (log.new.items ≡ log.old.items)) }
    ensures err { OnErr result ((slots.new ≡ slots.old) × (log.new.items ≡ log.old.items)) }
    ensures noted { AreNoted slots.new log.new.items named.new }
{
    let before = log.len();
    match solve_without_cycles(alloc, slots, log, work, named, marks) {
        Ok(Solving::Solved) => Ok(Solving::Solved),
        Ok(Solving::Clash) => {
            roll_back(slots, log, before);
            Ok(Solving::Clash)
        }
        Err(refused) => {
            roll_back(slots, log, before);
            Err(refused)
        }
    }
}

/// The demand as a constraint.
fn constraint_of(alloc: Global, demand: &Demand) -> Result<Constraint, AllocError>
    requires { (n : ℕ) × DemandIn n demand.now }
    ensures means { IfOk result (λ q. (v : ℕ → Ground) → Holds v demand.now ↔ ConstraintHolds v q) }
    ensures inside { IfOk result (λ q. (n : ℕ) → DemandIn n demand.now → ConstraintIn n q) }
{
    match demand {
        Demand::Is(a, t) => match slot_of(alloc, t)? {
            Slot::Root(kind) => Ok(Constraint::Is(*a, kind)),
            Slot::Link(b) => Ok(Constraint::Equal(*a, b)),
        },
        Demand::Equal(a, b) => Ok(Constraint::Equal(*a, *b)),
        Demand::Train(a, e) => Ok(Constraint::Is(*a, Kind::TrainOf(*e))),
        Demand::Collection(a, e) => Ok(Constraint::Is(*a, Kind::CollectionOf(*e))),
        Demand::NumberOrText(a) => Ok(Constraint::Is(*a, Kind::NumberOrText)),
    }
}

/// The demands as constraints.
fn constraints_of_all(alloc: Global, demands: &[Demand]) -> Result<Vec<Constraint>, AllocError>
    requires { (n : ℕ) × All (DemandIn n) demands.now }
    ensures means { IfOk result (λ constraints. (v : ℕ → Ground) → MeetsAll v demands.now ↔ ConstraintsHold v constraints.items) }
    ensures inside { IfOk result (λ constraints. (n : ℕ) → All (DemandIn n) demands.now → ConstraintsIn n constraints.items) }
{
    let mut constraints = Vec::new(alloc);
    for i in 0..demands.len() {
        let constraint = constraint_of(alloc, &demands[i])?;
        constraints.push(constraint)?;
    }
    Ok(constraints)
}
