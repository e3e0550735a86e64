//! The laws at a host and a workspace.
use abc_outside::MemoryHost;
use abc_turns::*;

/// A workspace that every image opens to.
struct Any;

impl Opens for Any {
    ghost opens = { λ image workspace. Unit {0} };
}

#[test]
fn laws_hold_of_a_host() {
    sessions::<Any, u8, u8>();
    session_of_stops::<MemoryHost, Any>();
}
