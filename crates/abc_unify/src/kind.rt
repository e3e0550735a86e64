//! What is known of a class of equal variables.

use abc_terms::{VarId, Vars};

/// What is known of a type.
#[derive(Drop)]
pub enum Kind {
    Free,
    Number,
    Text,
    NumberOrText,
    ListOf(VarId),
    TableOf(VarId, VarId),
    TrainOf(VarId),
    CollectionOf(VarId),
    Compound(Vars),
}

/// A root stands for its class and holds what is known of it. A link leads to a smaller number.
#[derive(Drop)]
pub enum Slot {
    Root(Kind),
    Link(VarId),
}

/// What is still to be taken into the slots: a demand, or a part of one.
#[derive(Drop)]
pub enum Constraint {
    Equal(VarId, VarId),
    Is(VarId, Kind),
}

/// The result of merging what is known of a class with a new constraint.
#[derive(Drop)]
pub enum Merge {
    /// No type is of both kinds.
    Clash,
    /// The kind that was held stays.
    Keep(Residue),
    /// This kind takes its place.
    Put(Kind, Residue),
}

/// The constraints that a merge leaves to be solved.
#[derive(Drop)]
pub enum Residue {
    Nothing,
    One(Constraint),
    Two(Constraint, Constraint),
    /// The parts of the kind that was held are these.
    Parts(Vars),
}

/// How a step of solving went.
#[derive(Clone, Copy)]
pub enum Solving {
    /// The slots and what is pending say the same as before.
    Solved,
    /// No types meet the slots and the constraints.
    Clash,
}
