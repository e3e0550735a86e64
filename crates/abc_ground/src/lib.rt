//! The typing rules over types without variables: which units and commands fit, which signatures a unit may have, which
//! workspaces are typable, and where a unit or command is at fault.
#![tactic(auto)]

mod laws;
mod values;

pub use laws::{calls_are_seen, signatures_are_listed};
pub use values::fits_value;
