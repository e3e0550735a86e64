//! The serving of one item.
ghost use Rattle.std.specs.Prelude.{◌≡◌, ◌≤◌, ◌<◌, ◌⊎◌, ◌+◌, ◌-◌, ◌^◌, List, ℕ, Option, true, false, length, IfOk, OnOk, OnErr, IsErrOf, IsTrue};
ghost use Rattle.std.specs.List.{AllByRecursion};
ghost use Rattle.abc_num.specs.declared.limits.TheConstants.{MOST_LINE_BYTES};
ghost use Rattle.abc_outside.specs.Outside.{RoseByOne, IsFaultless};
ghost use Rattle.abc_outside.specs.Stop.{Leaves, IsQuiet, Now};
ghost use Rattle.abc_reader.specs.Asking.{Asked};
ghost use Rattle.abc_reader.specs.Reading.{StandsAt};
ghost use Rattle.abc_store.specs.Commit.{Holds};
ghost use Rattle.abc_store.specs.View.{work_of};
ghost use Rattle.abc_outcome.specs.Answers.{behind_at, WantsInside, AsksInside, NothingDone, ReadsInside};
ghost use Rattle.abc_outcome.specs.Outcome.{outcome};
ghost use Rattle.abc_outcome.specs.Checks.{IsTypeLineOf, IsUpToDate};
ghost use Rattle.abc_session.specs.Serving.{IsItemStop, NoneFell, OnlyInputFailed, OnlyStoreFailed, OnlySinkFailed};
ghost use Rattle.abc_session.specs.Place.{place_at, WasServed, WasCut};

use crate::say::say_all;
use abc_check::Checker;
use abc_make::Tally;
use abc_num::ItemLines;
use abc_outcome::{AnswerFault, answer_item};
use abc_outside::{Failed, Host, LineStop};
use abc_reader::Reader;
use abc_store::Store;
use std::alloc::Global;

/// What was served.
#[derive(Clone, Copy, Debug, PartialEq, Eq)]
pub struct Served {
    /// The session ends with this item.
    pub quit: bool,
}

/// Why an item is not served, or a session ends before its input does.
#[derive(Clone, Copy, Debug, PartialEq, Eq)]
pub enum ServeStop {
    /// The input failed where a line is wanted.
    Input,
    /// The bytes that may be taken from the input are all taken, and a line is wanted.
    Long,
    /// A call on the store failed. The store isn't sound any more.
    StoreFault,
    /// The item was answered and kept, but its reply was not said, or a front of it alone.
    SinkFault,
    /// There was not enough memory.
    Memory,
}

impl From<AnswerFault> for ServeStop {
    ghost use Rattle.std.specs.Prelude.{◌≡◌};
    ghost use Rattle.abc_session.specs.Stops.{stop_of_answer};

    ghost from_gives = { λ fault stop. stop ≡ stop_of_answer fault };

    fn from(fault: AnswerFault) -> ServeStop {
        match fault {
            AnswerFault::Input => ServeStop::Input,
            AnswerFault::Long => ServeStop::Long,
            AnswerFault::StoreFault => ServeStop::StoreFault,
            AnswerFault::Memory => ServeStop::Memory,
        }
    }
}

impl From<LineStop> for ServeStop {
    ghost use Rattle.std.specs.Prelude.{◌≡◌};
    ghost use Rattle.abc_session.specs.Stops.{stop_of_line};

    ghost from_gives = { λ stop given. given ≡ stop_of_line stop };

    fn from(stop: LineStop) -> ServeStop {
        match stop {
            LineStop::Input => ServeStop::Input,
            LineStop::Long => ServeStop::Long,
            LineStop::Memory => ServeStop::Memory,
        }
    }
}

impl From<Failed> for ServeStop {
    ghost use Rattle.std.specs.Prelude.{◌≡◌};
    ghost use Rattle.abc_session.specs.declared.serve.ServeStop.TheVariants.{SinkFault};

    ghost from_gives = { λ _ stop. stop ≡ SinkFault };

    fn from(_failed: Failed) -> ServeStop {
        ServeStop::SinkFault
    }
}

/// Serves item `k`, which may take so many steps, and takes the lines that it wants from those behind it: what it changes
/// is kept, and then its reply is said and counted. A session hands the checker of the units and the tally of its replies from
/// item to item.
///
/// Errors: those of `answer_item`, and `SinkFault` where the reply could not be said whole; then it is not counted. After each
/// but `StoreFault` the image holds the store, and the checker, if there is one, knows its units. After `Input`, `Long` and
/// `Memory` the reader isn't used again: what it took from the input stays taken.
pub fn serve_item<H: Host>(
    alloc: Global,
    store: &mut Store,
    checker: &mut Option<Checker>,
    host: &mut H,
    reader: &mut Reader,
    item: &ItemLines,
    tally: &mut Tally,
    k: u64,
    steps: u64,
) -> Result<Served, ServeStop>
    requires sound { IsTrue store.old.sound }
    requires holds { H.tells_image → Holds (H.now host.old).image (work_of store.old) }
    requires stands { StandsAt H.tells_input reader.old (H.now host.old) }
    requires some { 0 < length item.now }
    requires up_to_date { IsUpToDate checker.old store.old.kept.units }
    requires short { AllByRecursion (λ line. length line.text ≤ MOST_LINE_BYTES) item.now }
    requires countable { tally.old.items < 2 ^ 64 - 1 }

    ensures served { (line : Option ℕ) → IsTypeLineOf store.old.kept item.now line → H.tells_input → IfOk result (λ done. WasServed (outcome line store.old.bounds steps k (work_of store.old) item.now) H.tells_said
        (place_at k (work_of store.old) reader.old (H.now host.old)) (place_at k (work_of store.new) reader.new (H.now host.new)) tally.old tally.new done.quit) }
    ensures counted { OnOk result (tally.new.items ≡ tally.old.items + 1) }
    ensures uncounted { OnErr result (tally.new ≡ tally.old) }
    ensures told { ((line : Option ℕ) × IsTypeLineOf store.old.kept item.now line) ⊎ (IsErrOf result ServeStop.Memory × NothingDone store.old store.new reader.old reader.new host.old host.new) }
    ensures cut { (line : Option ℕ) → IsTypeLineOf store.old.kept item.now line → H.tells_said → H.tells_input → IsErrOf result ServeStop.SinkFault → WasCut (outcome line store.old.bounds steps k (work_of store.old) item.now)
        (place_at k (work_of store.old) reader.old (H.now host.old)) (place_at k (work_of store.new) reader.new (H.now host.new)) }
    ensures unsaid { (IsErrOf result ServeStop.Input ⊎ IsErrOf result ServeStop.Long ⊎ IsErrOf result ServeStop.StoreFault ⊎ IsErrOf result ServeStop.Memory)
        → (H.now host.new).said ≡ (H.now host.old).said }

    ensures input_fault { IsErrOf result ServeStop.Input → RoseByOne (H.now host.old).input_faults (H.now host.new).input_faults }
    ensures store_fault { IsErrOf result ServeStop.StoreFault → RoseByOne (H.now host.old).store_faults (H.now host.new).store_faults }
    ensures sink_fault { IsErrOf result ServeStop.SinkFault → RoseByOne (H.now host.old).sink_faults (H.now host.new).sink_faults }
    ensures input_alone { IsErrOf result ServeStop.Input → OnlyInputFailed (H.now host.old) (H.now host.new) }
    ensures store_alone { IsErrOf result ServeStop.StoreFault → OnlyStoreFailed (H.now host.old) (H.now host.new) }
    ensures sink_alone { IsErrOf result ServeStop.SinkFault → OnlySinkFailed (H.now host.old) (H.now host.new) }
    ensures faultless { OnOk result (IsFaultless (H.now host.old) (H.now host.new)) }
    ensures stop_faultless { (IsErrOf result ServeStop.Memory ⊎ IsErrOf result ServeStop.Long) → IsFaultless (H.now host.old) (H.now host.new) }
    ensures long { IsErrOf result ServeStop.Long → reader.new.taken ≡ reader.new.bound }

    ensures holds { H.tells_image → ¬ (IsErrOf result ServeStop.StoreFault) → Holds (H.now host.new).image (work_of store.new) }
    ensures bounds { store.new.bounds ≡ store.old.bounds }
    ensures sound { ¬ (IsErrOf result ServeStop.StoreFault) → IsTrue store.new.sound }
    ensures unsound { IsErrOf result ServeStop.StoreFault → store.new.sound ≡ false }
    ensures same { (IsErrOf result ServeStop.Memory ⊎ IsErrOf result ServeStop.Input ⊎ IsErrOf result ServeStop.Long) → store.new ≡ store.old }
    ensures same_image { (IsErrOf result ServeStop.Memory ⊎ IsErrOf result ServeStop.Input ⊎ IsErrOf result ServeStop.Long) → (H.now host.new).image ≡ (H.now host.old).image }
    ensures up_to_date { ¬ (IsErrOf result ServeStop.StoreFault) → IsUpToDate checker.new store.new.kept.units }
    ensures chosen { (H.now host.new).chosen ≡ (H.now host.old).chosen }
    ensures none_fell { NoneFell (H.now host.old) (H.now host.new) }

    // What it asked for.
    ensures reads { ReadsInside H.tells_input H.tells_said reader.old reader.new (H.now host.old) (H.now host.new) }
    ensures asked { (line : Option ℕ) → IsTypeLineOf store.old.kept item.now line → H.tells_said → H.tells_input
        → Asked (AsksInside (outcome line store.old.bounds steps k (work_of store.old) item.now) reader.old (H.now host.old).left (length (H.now host.old).said)) (H.now host.old).asked (H.now host.new).asked }
    ensures wants { (line : Option ℕ) → IsTypeLineOf store.old.kept item.now line → H.tells_input → (IsErrOf result ServeStop.Input ⊎ IsErrOf result ServeStop.Long)
        → WantsInside (outcome line store.old.bounds steps k (work_of store.old) item.now) reader.old (H.now host.old).left reader.new.taken }
    ensures ended_ends { reader.old.ended ≡ true → (IsErrOf result ServeStop.Input ⊎ IsErrOf result ServeStop.Long) → ⊥ }

    // At every moment of the call, and at its end.
    ensures stops { (line : Option ℕ) → IsTypeLineOf store.old.kept item.now line → H.tells_image → H.tells_said → H.tells_input → IsQuiet H.clock H.stopped host.old (H.now host.old).image
        → Leaves H.clock H.stopped host.old host.new
        (IsItemStop (work_of store.old) (outcome line store.old.bounds steps k (work_of store.old) item.now (behind_at reader.old (H.now host.old).left)) (H.now host.old).said) }
    ensures quiet { H.tells_image → IsQuiet H.clock H.stopped host.old (H.now host.old).image
        → ¬ (IsErrOf result ServeStop.StoreFault) → IsQuiet H.clock H.stopped host.new (H.now host.new).image }
    ensures idle { (IsErrOf result ServeStop.Memory ⊎ IsErrOf result ServeStop.Input ⊎ IsErrOf result ServeStop.Long)
        → (c s : List ℕ) → Now H.clock H.stopped host.new c s → Now H.clock H.stopped host.old c s }
{
    let answer = answer_item(alloc, store, checker, host, reader, item, k, steps)?;
    let reply = answer.reply.bytes();
    say_all(host, reply)?;
    tally.add(reply);
    Ok(Served { quit: answer.quit })
}
