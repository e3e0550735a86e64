//! Unification: which finite types numbered variables may have under a list of demands.
#![tactic(auto)]

mod acyclic;
mod classes;
mod cycle;
mod forms;
mod gather;
mod graph;
mod kind;
mod laws;
mod log;
mod marks;
mod merge;
mod naming;
mod node;
mod shorten;
mod solve;
mod state;

pub use forms::{Form, Known, VaryKind};
pub use graph::{Graph, Mark, UnifyFault};
pub use laws::{forms_decide, undo_model};
