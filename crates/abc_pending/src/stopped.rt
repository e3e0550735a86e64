//! Why a step of the pending work gives nothing.

use abc_state::Halt;

/// A halt, and the line of the item on which it is told.
#[derive(Clone, Copy, PartialEq, Eq, Debug)]
pub struct Halted {
    pub line: u32,
    pub halt: Halt,
}

/// Why work does not begin.
#[derive(Clone, Copy, PartialEq, Eq, Debug)]
pub enum Stopped {
    Halted(Halted),
    /// READ wants a line: as many bytes of the input as may be were taken, and the next line does not end in them.
    Long,
    /// READ wants a line, and the input failed.
    Input,
}
