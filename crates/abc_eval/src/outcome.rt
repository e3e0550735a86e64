//! How a command ends that types fit.
use abc_value::RunFault;

/// How a run ended. Lines are those of the command's item.
#[derive(Clone, Copy, PartialEq, Eq, Debug)]
pub enum Outcome {
    Done,
    /// It was left by QUIT.
    Quit,
    /// The fault is never want of memory.
    Fault { line: u32, fault: RunFault },
}
