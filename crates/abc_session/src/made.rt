//! The run on a made input.
ghost use Rattle.std.specs.Prelude.{IfOk};
ghost use Rattle.abc_journal.specs.declared.layout.Bounds.{Bounds};
ghost use Rattle.abc_session.specs.Run.{IsSummary, HasCause, IsMadeRun};

use crate::product::product;
use crate::running::run_store;
use crate::say::say_all;
use crate::status::{COMPLETE, MEMORY, SINK_FAULT};
use abc_make::{Tally, input_of, summary_of};
use abc_num::OutOfMemory;
use abc_outside::{Failed, Host, MemoryHost};
use std::alloc::Global;

/// Runs the made input that puts so many values, and says its summary. The answer is the status.
pub(crate) fn run_made<H: Host>(alloc: Global, count: u64, steps: u64, host: &mut H) -> u8
    ensures run { IsMadeRun H.tells_said H.now H.clock H.stopped count steps host.old host.new result }
    ensures cause { (bounds : Bounds) → HasCause H.tells_image H.tells_input bounds (H.now host.old) (H.now host.new) result }
{
    let Ok(line) = made_summary(alloc, count, steps) else {
        return MEMORY;
    };
    match say_all(host, &line) {
        Ok(()) => COMPLETE,
        Err(Failed) => SINK_FAULT,
    }
}

/// The summary of the session over the made input that puts so many values, in a store of its own. An item may take so many
/// steps. That session ends early only for want of memory, since no call of its host is to fail.
fn made_summary(alloc: Global, count: u64, steps: u64) -> Result<Vec<u8>, OutOfMemory>
    ensures { IfOk result (λ line. IsSummary count steps line.items) }
{
    let input = input_of(alloc, count)?;
    let mut inner = MemoryHost::new(alloc, Vec::new(alloc), input);
    let mut tally = Tally::new();
    if run_store(alloc, &mut inner, &mut tally, &product(), steps) == COMPLETE {
        summary_of(alloc, count, &tally)
    } else {
        Err(OutOfMemory)
    }
}
