//! When a checkpoint is due.
ghost use Rattle.std.specs.Prelude.{◌≡◌, ◌&&◌, ◌==◌, nat_lt, if◌then◌else◌};
ghost use Rattle.abc_journal.specs.declared.layout.Bounds.{Bounds};
ghost use Rattle.abc_journal.specs.Journal.{after_record};
ghost use Rattle.abc_journal.specs.Commit.{is_due as is_due_in};
ghost use Rattle.abc_store.specs.inner.Steps.{may_be_due as may_be_due_in};

use abc_journal::format::RECORD_EXTRA;
use abc_journal::{Journal, Layout};

/// Whether a checkpoint is due: the live region, its first payload included, is at least as long as the bound on checkpoints and four
/// times that payload together. The payload counts where the region's generation is above 1.
pub(crate) fn is_due(layout: Layout, checkpoint: u64) -> bool
    ensures { (bounds : Bounds) → bounds.checkpoint ≡ checkpoint → result ≡ is_due_in bounds layout }
{
    checkpoint as u128 + 4 * layout.first as u128
        <= layout.gate.saturating_sub(layout.start) as u128
}

/// Whether one may be due after a record of so many bytes.
pub(crate) fn may_be_due(journal: &Journal, bytes: usize, checkpoint: u64) -> bool
    requires { journal.now.bounds.checkpoint ≡ checkpoint }
    ensures { result ≡ may_be_due_in journal.now.bounds journal.now.layout bytes }
{
    if !journal.fits(bytes) {
        return true;
    }
    is_due_behind(journal.layout(), bytes, checkpoint)
}

/// Whether one is due after a record of so many bytes that fits.
fn is_due_behind(layout: Layout, bytes: usize, checkpoint: u64) -> bool
    ensures { (bounds : Bounds) → bounds.checkpoint ≡ checkpoint → result ≡ is_due_in bounds (after_record layout bytes) }
{
    let gate = layout.gate as u128 + RECORD_EXTRA as u128 + bytes as u128;
    let first = first_behind(layout, bytes);
    checkpoint as u128 + 4 * first as u128 <= gate.saturating_sub(layout.start as u128)
}

/// The length of the first payload then, where a checkpoint wrote it.
fn first_behind(layout: Layout, bytes: usize) -> u64
    ensures { result ≡ (if layout.gate == layout.start && nat_lt 1 layout.generation then bytes else layout.first) }
{
    if layout.gate == layout.start && layout.generation > 1 {
        return bytes as u64;
    }
    layout.first
}
