//! The run: words in, a status out.
ghost use Rattle.std.specs.Prelude.{◌≡◌, ◌≢◌, ◌⊎◌, ◌≤◌, suc, ℕ, map, length, List, Err, None, Some, option_map};
ghost use Rattle.abc_outside.specs.Stop.{Leaves, IsQuiet, Now};
ghost use Rattle.abc_journal.specs.Journal.{BeginsQuiet};
ghost use Rattle.abc_make.specs.Summary.{counted, nothing_counted};
ghost use Rattle.abc_turns.specs.Session.{replies, waiting};
ghost use Rattle.abc_reader.specs.Asking.{Asked, AskedRising};
ghost use Rattle.abc_store.specs.Opening.{Opens};
ghost use Rattle.abc_store.specs.Commit.{Work};
ghost use Rattle.abc_words.specs.Words.{on_store, reading};
ghost use Rattle.abc_session.specs.Session.{session_of};
ghost use Rattle.abc_session.specs.Told.{WithTold};
ghost use Rattle.abc_session.specs.Serving.{IsStill, IsSessionPoint};
ghost use Rattle.abc_session.specs.Product.{product_bounds};
ghost use Rattle.abc_session.specs.Settled.{AsksSettled};
ghost use Rattle.abc_session.specs.Run.{made_named, steps_named, IsStart, IsComplete, IsUntouched, IsRunStatus, HasCause, StandsSo, IsRun};

use crate::made::run_made;
use crate::product::product;
use crate::serve::ServeStop;
use crate::session::serve_all;
use crate::status::{
    COMPLETE, INPUT_FAULT, INPUT_TOO_LONG, MEMORY, NOT_A_STORE, SINK_FAULT, STORE_FAULT, USAGE,
};
use abc_journal::{BeginFault, Bounds};
use abc_make::Tally;
use abc_outside::{ChooseFault, Host};
use abc_store::Store;
use abc_store::laws::images_open_to_one;
use abc_words::{Request, WordsFault, read_words};
use std::alloc::Global;

/// Runs with the bounds of the product: 2^40 bytes of image and of input. This is the whole program.
///
/// The theorem of the program is the clause `headline`: there are type lines of some first items of its input, each of its item
/// in the workspace before it, and by all such lines, whatever is told of the items behind, this holds. Whenever the program is
/// stopped, it had said a front of the output of the session over its input, and whatever image the stop left in the store opens
/// to the workspace after some of the items. These are all the items of whose reply a byte was said, and at
/// most one more than those whose reply was said whole. Where the words ask for a made input, only its summary is said, and
/// all else is untouched.
pub fn run<H: Host>(alloc: Global, words: &[&str], host: &mut H) -> u8
    ensures headline { made_named (map (λ word. word.now) words.now) ≡ None → H.tells_image → H.tells_said → H.tells_input → IsStill H.clock H.stopped host.old (H.now host.old).image
        → (work : Work) → IsStart (H.now host.old).image work
        → WithTold product_bounds (steps_named (map (λ word. word.now) words.now)) work (H.now host.old).left (λ types. (c s : List ℕ) → H.stopped host.new (H.clock host.old) c s → IsSessionPoint work (session_of types product_bounds (steps_named (map (λ word. word.now) words.now)) work (H.now host.old).left) (H.now host.old).said c s) }
    ensures run { IsRun H.tells_chosen H.tells_image H.tells_input H.tells_said H.now H.clock H.stopped product_bounds (map (λ word. word.now) words.now) (steps_named (map (λ word. word.now) words.now)) host.old host.new result }
{
    run_within(alloc, words, host, &product())
}

/// Runs with these bounds: reads the words, chooses and opens the store and the input, serves the items of the input one
/// after the other, and says their replies. Where the words ask for a made input, it runs that in a store of its own, with the
/// bounds of the product, and says its summary. The answer is the status.
pub fn run_within<H: Host>(alloc: Global, words: &[&str], host: &mut H, b: &Bounds) -> u8
    ensures run { IsRun H.tells_chosen H.tells_image H.tells_input H.tells_said H.now H.clock H.stopped b.now (map (λ word. word.now) words.now) (steps_named (map (λ word. word.now) words.now)) host.old host.new result }
{
    match read_words(alloc, words) {
        Ok(
            Request::Run {
                store,
                input,
                steps,
            },
        ) => run_named(alloc, store, input, steps, host, b),
        Ok(Request::Make { count, steps }) => run_made(alloc, count, steps, host),
        Err(WordsFault::Usage) => USAGE,
        Err(WordsFault::Memory) => MEMORY,
    }
}

/// Chooses the store and the input that were named, and runs on them. An item may take so many steps.
fn run_named<H: Host>(
    alloc: Global,
    store: &str,
    input: Option<&str>,
    steps: u64,
    host: &mut H,
    b: &Bounds,
) -> u8
    ensures run { (words : List (List ℕ)) → reading words ≡ Some (on_store store.now (option_map (λ name. name.now) input.entry) steps)
        → IsRun H.tells_chosen H.tells_image H.tells_input H.tells_said H.now H.clock H.stopped b.now words steps host.old host.new result }
{
    images_open_to_one();
    match host.choose(store, input) {
        Ok(()) => run_store(alloc, host, &mut Tally::new(), b, steps),
        Err(ChooseFault::Store) => STORE_FAULT,
        Err(ChooseFault::Input) => INPUT_FAULT,
    }
}

/// Opens the store that was chosen, serves the items of the input, and counts the replies.
pub(crate) fn run_store<H: Host>(
    alloc: Global,
    host: &mut H,
    tally: &mut Tally,
    b: &Bounds,
    steps: u64,
) -> u8
    requires taken { (H.now host.old).taken ≡ 0 }
    requires none_counted { tally.old ≡ nothing_counted }

    ensures complete { H.tells_image → H.tells_said → H.tells_input → result ≡ COMPLETE → IsComplete b.now steps (H.now host.old) (H.now host.new) }
    ensures counted { H.tells_image → H.tells_input → result ≡ COMPLETE → (work : Work) → IsStart (H.now host.old).image work → WithTold b.now steps work (H.now host.old).left (λ types. tally.new ≡ counted (replies (session_of types b.now steps work (H.now host.old).left))) }
    ensures status { IsRunStatus result }
    ensures cause { HasCause H.tells_image H.tells_input b.now (H.now host.old) (H.now host.new) result }
    ensures refused { H.tells_image → (at : ℕ) → Opens (H.now host.old).image (Err at) → (result ≡ NOT_A_STORE) ⊎ (result ≡ STORE_FAULT) ⊎ (result ≡ MEMORY) }
    ensures waits { H.tells_image → H.tells_input → (work : Work) → IsStart (H.now host.old).image work → result ≡ INPUT_TOO_LONG → WithTold b.now steps work (H.now host.old).left (λ types. (session_of types b.now steps work (H.now host.old).left).ending ≡ waiting) }
    ensures most_taken { (H.now host.new).taken ≤ b.now.input }
    ensures untouched { H.tells_image → (at : ℕ) → Opens (H.now host.old).image (Err at) → IsUntouched (H.now host.old) (H.now host.new) }
    ensures untouched_stops { H.tells_image → (at : ℕ) → Opens (H.now host.old).image (Err at) → Leaves H.clock H.stopped host.old host.new (H.stopped host.old (H.clock host.old)) }
    ensures chosen { (H.now host.new).chosen ≡ (H.now host.old).chosen }
    ensures asked { H.tells_image → H.tells_said → H.tells_input → (work : Work) → IsStart (H.now host.old).image work
        → WithTold b.now steps work (H.now host.old).left (λ types. Asked (AsksSettled types b.now steps work (H.now host.old).left (length (H.now host.old).said)) (H.now host.old).asked (H.now host.new).asked) }
    ensures asks_rise { H.tells_said → AskedRising 0 (suc (H.now host.new).taken) (H.now host.old).asked (H.now host.new).asked }
    ensures stands { H.tells_image → H.tells_said → H.tells_input → BeginsQuiet H.clock H.stopped host.old (H.now host.old).image
        → (work : Work) → IsStart (H.now host.old).image work → StandsSo b.now steps work (H.now host.old) (H.now host.new) (Now H.clock H.stopped host.new) result }

    ensures stops { H.tells_image → H.tells_said → H.tells_input → BeginsQuiet H.clock H.stopped host.old (H.now host.old).image
        → (work : Work) → IsStart (H.now host.old).image work
        → WithTold b.now steps work (H.now host.old).left (λ types. Leaves H.clock H.stopped host.old host.new (IsSessionPoint work (session_of types b.now steps work (H.now host.old).left) (H.now host.old).said)) }
    ensures quiet { H.tells_image → BeginsQuiet H.clock H.stopped host.old (H.now host.old).image
        → result ≡ COMPLETE → IsQuiet H.clock H.stopped host.new (H.now host.new).image }
{
    images_open_to_one();
    let mut store = match Store::begin(alloc, host, b) {
        Ok(store) => store,
        Err(BeginFault::StoreFault) => return STORE_FAULT,
        Err(BeginFault::NotAStore { .. }) => return NOT_A_STORE,
        Err(BeginFault::Memory) => return MEMORY,
    };
    match serve_all(alloc, &mut store, host, tally, b.input, steps) {
        Ok(()) => COMPLETE,
        Err(stop) => status_of(stop),
    }
}

/// The status for this end of a session.
fn status_of(stop: ServeStop) -> u8
    ensures input_fault { result ≡ INPUT_FAULT → stop ≡ ServeStop.Input }
    ensures store_fault { result ≡ STORE_FAULT → stop ≡ ServeStop.StoreFault }
    ensures sink_fault { result ≡ SINK_FAULT → stop ≡ ServeStop.SinkFault }
    ensures memory { result ≡ MEMORY → stop ≡ ServeStop.Memory }
    ensures too_long { result ≡ INPUT_TOO_LONG → stop ≡ ServeStop.Long }
    ensures no_other { (result ≢ COMPLETE) × (result ≢ NOT_A_STORE) × IsRunStatus result }
{
    match stop {
        ServeStop::Input => INPUT_FAULT,
        ServeStop::StoreFault => STORE_FAULT,
        ServeStop::SinkFault => SINK_FAULT,
        ServeStop::Memory => MEMORY,
        ServeStop::Long => INPUT_TOO_LONG,
    }
}
