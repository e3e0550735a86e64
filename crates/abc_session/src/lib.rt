//! The session: items in, replies out, and the workspace kept in the store.
#![tactic(auto)]

mod laws;
mod made;
mod product;
mod running;
mod say;
mod serve;
mod session;
mod status;

pub use laws::{exact_checks_tell, items_are_steady};
pub use running::{run, run_within};
pub use serve::{ServeStop, Served, serve_item};
pub use status::{
    COMPLETE, INPUT_FAULT, INPUT_TOO_LONG, MEMORY, NOT_A_STORE, SINK_FAULT, STORE_FAULT, USAGE,
    statuses_are_numbered,
};

#[cfg(test)]
mod tests;
