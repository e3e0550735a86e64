//! The names of an immediate command or a unit.
ghost use Rattle.std.specs.Prelude.{length};
ghost use Rattle.abc_tree.specs.RegularItems.{AreFlags};
ghost use Rattle.abc_meaning.specs.Here.{names_in, bound_in};
ghost use Rattle.abc_state.specs.Routines.{routine_of, shared_in};

use abc_tree::{Command, Unit};

/// Whose names they are.
#[derive(Clone, Copy)]
pub enum Routine<'a> {
    /// Those of an immediate command.
    Command(&'a Command),
    /// Those of a unit.
    Unit(&'a Unit),
}

/// The names of an immediate command or a unit, and what is found of them once for a call.
#[derive(Drop)]
pub struct Scope<'a> {
    pub routine: Routine<'a>,
    /// For each name whether FOR or a quantifier binds it.
    pub(crate) bound: Vec<bool>,
    /// For each name whether it is shared.
    pub(crate) shared: Vec<bool>,
    ghost tells_bound: { AreFlags (length (names_in (routine_of routine))) (bound_in (routine_of routine)) bound.items },
    ghost tells_shared: { AreFlags (length (names_in (routine_of routine))) (shared_in (routine_of routine)) shared.items },
}
