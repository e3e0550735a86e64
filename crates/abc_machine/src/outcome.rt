//! How a run ends, or why it does not.
use abc_value::RunFault;

/// How a run ended. Lines are those of the command's item.
#[derive(Clone, Copy, PartialEq, Eq, Debug)]
pub enum Outcome {
    Done,
    /// It was left by QUIT.
    Quit,
    /// The fault is never want of memory.
    Fault { line: u32, fault: RunFault },
    /// No types fit what a node works on.
    Wrong { line: u32 },
}

/// Whether there is more to do.
#[derive(Clone, Copy, PartialEq, Eq, Debug)]
pub enum Stepped {
    More,
    End(Outcome),
}

/// Why a run came to no end.
#[derive(Clone, Copy, PartialEq, Eq, Debug)]
pub enum RunStop {
    /// The input failed where a line was wanted.
    Input,
    /// As many bytes of the input as may be were taken, and the line that was wanted does not end in them.
    Long,
    /// There was not enough memory.
    Memory,
}
