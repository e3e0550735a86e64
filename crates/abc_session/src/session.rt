//! The session: items one after the other, to the end of the input.
ghost use Rattle.std.specs.Prelude.{◌≡◌, ◌≤◌, ◌<◌, ◌⊎◌, ◌++◌, ◌+◌, suc, [], true, false, List, ℕ, length, Ok, OnOk, IsErrOf, IsTrue};
ghost use Rattle.abc_outside.specs.Outside.{RoseByOne, IsFaultless};
ghost use Rattle.abc_outside.specs.Stop.{Leaves, IsQuiet, Now};
ghost use Rattle.abc_turns.specs.Session.{waiting, replies, output, works, last_work};
ghost use Rattle.abc_turns.specs.Stops.{IsBetween, IsBroken, IsCutShort};
ghost use Rattle.abc_reader.specs.Asking.{Asked, AskedRising, next_ask};
ghost use Rattle.abc_make.specs.Summary.{counted, nothing_counted};
ghost use Rattle.abc_store.specs.Commit.{Holds};
ghost use Rattle.abc_store.specs.View.{work_of};
ghost use Rattle.abc_outcome.specs.Checks.{IsUpToDate};
ghost use Rattle.abc_session.specs.Session.{Told, session_of};
ghost use Rattle.abc_session.specs.Told.{WithTold};
ghost use Rattle.abc_session.specs.Serving.{OpensTo, IsSessionPoint, NoneFell, OnlyInputFailed, OnlyStoreFailed, OnlySinkFailed};
ghost use Rattle.abc_session.specs.Settled.{AsksSettled, IsWaiting};
ghost use Rattle.abc_session.specs.Run.{HasEnded};
ghost use Rattle.abc_session.specs.Place.{place_at, session_at, counted_at, AreToldAt, AreThere, WithNext, WentOn, Ended, WantsInput, AsksInput};

use crate::serve::{ServeStop, serve_item};
use abc_check::Checker;
use abc_make::Tally;
use abc_outside::Host;
use abc_reader::Reader;
use abc_store::Store;
use std::alloc::Global;

/// What the session does behind a turn.
#[derive(Clone, Copy, Debug, PartialEq, Eq)]
pub(crate) enum Course {
    /// It goes on: an item was served.
    GoesOn,
    /// It ends: its input is over, or the item quits.
    Ends,
}

/// Serves the items of the input in order, each of them kept and then answered, and counts the replies.
///
/// Errors: that of the first turn that has one.
pub(crate) fn serve_all<H: Host>(
    alloc: Global,
    store: &mut Store,
    host: &mut H,
    tally: &mut Tally,
    bound: u64,
    steps: u64,
) -> Result<(), ServeStop>
    requires sound { IsTrue store.old.sound }
    requires holds { H.tells_image → Holds (H.now host.old).image (work_of store.old) }
    requires none_taken { (H.now host.old).taken ≡ 0 }
    requires same_bound { bound ≡ store.old.bounds.input }
    requires none_counted { tally.old ≡ nothing_counted }

    ensures said { H.tells_said → H.tells_input → OnOk result (WithTold store.old.bounds steps (work_of store.old) (H.now host.old).left (λ types. (H.now host.new).said ≡ (H.now host.old).said
        ++ output (session_of types store.old.bounds steps (work_of store.old) (H.now host.old).left))) }
    ensures counted { H.tells_input → OnOk result (WithTold store.old.bounds steps (work_of store.old) (H.now host.old).left (λ types. tally.new ≡ counted (replies (session_of types store.old.bounds steps (work_of store.old) (H.now host.old).left)))) }
    ensures work { H.tells_input → OnOk result (WithTold store.old.bounds steps (work_of store.old) (H.now host.old).left (λ types. work_of store.new ≡ last_work (work_of store.old) (session_of types store.old.bounds steps (work_of store.old) (H.now host.old).left))) }
    ensures holds { H.tells_image → OnOk result (Holds (H.now host.new).image (work_of store.new)) }
    ensures ended { H.tells_input → OnOk result (WithTold store.old.bounds steps (work_of store.old) (H.now host.old).left (λ types. HasEnded (session_of types store.old.bounds steps (work_of store.old) (H.now host.old).left).ending store.old.bounds.input (H.now host.old) (H.now host.new))) }

    ensures long { IsErrOf result ServeStop.Long → (H.now host.new).taken ≡ bound }
    ensures most_taken { (H.now host.new).taken ≤ bound }
    ensures long_input { H.tells_input → IsErrOf result ServeStop.Long → bound ≤ length (H.now host.old).left }
    ensures waits { H.tells_input → IsErrOf result ServeStop.Long → WithTold store.old.bounds steps (work_of store.old) (H.now host.old).left (λ types. (session_of types store.old.bounds steps (work_of store.old) (H.now host.old).left).ending ≡ waiting) }
    ensures input_fault { IsErrOf result ServeStop.Input → RoseByOne (H.now host.old).input_faults (H.now host.new).input_faults }
    ensures store_fault { IsErrOf result ServeStop.StoreFault → RoseByOne (H.now host.old).store_faults (H.now host.new).store_faults }
    ensures sink_fault { IsErrOf result ServeStop.SinkFault → RoseByOne (H.now host.old).sink_faults (H.now host.new).sink_faults }
    ensures input_alone { IsErrOf result ServeStop.Input → OnlyInputFailed (H.now host.old) (H.now host.new) }
    ensures store_alone { IsErrOf result ServeStop.StoreFault → OnlyStoreFailed (H.now host.old) (H.now host.new) }
    ensures sink_alone { IsErrOf result ServeStop.SinkFault → OnlySinkFailed (H.now host.old) (H.now host.new) }
    ensures faultless { OnOk result (IsFaultless (H.now host.old) (H.now host.new)) }
    ensures stop_faultless { (IsErrOf result ServeStop.Memory ⊎ IsErrOf result ServeStop.Long) → IsFaultless (H.now host.old) (H.now host.new) }
    ensures chosen { (H.now host.new).chosen ≡ (H.now host.old).chosen }
    ensures none_fell { NoneFell (H.now host.old) (H.now host.new) }

    // What was asked for, and what stands where the session stops.
    ensures asked { H.tells_said → H.tells_input → WithTold store.old.bounds steps (work_of store.old) (H.now host.old).left (λ types. Asked (AsksSettled types store.old.bounds steps (work_of store.old) (H.now host.old).left (length (H.now host.old).said))
        (H.now host.old).asked (H.now host.new).asked) }
    ensures asks_rise { H.tells_said → AskedRising 0 (suc (H.now host.new).taken) (H.now host.old).asked (H.now host.new).asked }
    ensures waiting { H.tells_image → H.tells_said → H.tells_input → IsQuiet H.clock H.stopped host.old (H.now host.old).image
        → (IsErrOf result ServeStop.Input ⊎ IsErrOf result ServeStop.Long)
        → WithTold store.old.bounds steps (work_of store.old) (H.now host.old).left (λ types. IsWaiting types store.old.bounds steps (work_of store.old) (H.now host.old).left (H.now host.old).said (H.now host.new) (Now H.clock H.stopped host.new)) }
    ensures between { H.tells_image → H.tells_said → H.tells_input → IsQuiet H.clock H.stopped host.old (H.now host.old).image → IsErrOf result ServeStop.Memory
        → WithTold store.old.bounds steps (work_of store.old) (H.now host.old).left (λ types. IsBetween OpensTo (works (work_of store.old) (session_of types store.old.bounds steps (work_of store.old) (H.now host.old).left)) (replies (session_of types store.old.bounds steps (work_of store.old) (H.now host.old).left))
        (H.now host.old).said (H.now host.new).said (Now H.clock H.stopped host.new)) }
    ensures broken { H.tells_image → H.tells_said → H.tells_input → IsQuiet H.clock H.stopped host.old (H.now host.old).image → IsErrOf result ServeStop.StoreFault
        → WithTold store.old.bounds steps (work_of store.old) (H.now host.old).left (λ types. IsBroken OpensTo (works (work_of store.old) (session_of types store.old.bounds steps (work_of store.old) (H.now host.old).left)) (replies (session_of types store.old.bounds steps (work_of store.old) (H.now host.old).left))
        (H.now host.old).said (H.now host.new).said (Now H.clock H.stopped host.new)) }
    ensures cut_short { H.tells_image → H.tells_said → H.tells_input → IsQuiet H.clock H.stopped host.old (H.now host.old).image → IsErrOf result ServeStop.SinkFault
        → WithTold store.old.bounds steps (work_of store.old) (H.now host.old).left (λ types. IsCutShort OpensTo (works (work_of store.old) (session_of types store.old.bounds steps (work_of store.old) (H.now host.old).left)) (replies (session_of types store.old.bounds steps (work_of store.old) (H.now host.old).left))
        (H.now host.old).said (H.now host.new).said (Now H.clock H.stopped host.new)) }

    // At every moment of the session, and at its end.
    ensures stops { H.tells_image → H.tells_said → H.tells_input → IsQuiet H.clock H.stopped host.old (H.now host.old).image
        → WithTold store.old.bounds steps (work_of store.old) (H.now host.old).left (λ types. Leaves H.clock H.stopped host.old host.new (IsSessionPoint (work_of store.old) (session_of types store.old.bounds steps (work_of store.old) (H.now host.old).left) (H.now host.old).said)) }
    ensures quiet { H.tells_image → IsQuiet H.clock H.stopped host.old (H.now host.old).image
        → OnOk result (IsQuiet H.clock H.stopped host.new (H.now host.new).image) }
{
    let mut checker = None;
    let mut reader = Reader::new(alloc, bound);
    let mut served = 0;
    'items: while let Course::GoesOn = turn(
        alloc,
        store,
        &mut checker,
        host,
        &mut reader,
        tally,
        &mut served,
        steps,
    )? {}
    Ok(())
}

/// Serves the next item, if there is one, and counts its reply.
///
/// Errors: those of the reader where it reads no item, and those of `serve_item`.
fn turn<H: Host>(
    alloc: Global,
    store: &mut Store,
    checker: &mut Option<Checker>,
    host: &mut H,
    reader: &mut Reader,
    tally: &mut Tally,
    served: &mut u64,
    steps: u64,
) -> Result<Course, ServeStop>
    requires sound { IsTrue store.old.sound }
    requires holds { H.tells_image → Holds (H.now host.old).image (work_of store.old) }
    requires same_count { (H.now host.old).taken ≡ reader.old.taken }
    requires ended { H.tells_input → reader.old.ended ≡ true → (H.now host.old).left ≡ [] }
    requires counted { served.old ≤ reader.old.used }
    requires up_to_date { IsUpToDate checker.old store.old.kept.units }
    requires countable { tally.old.items ≤ served.old }

    ensures goes_on { (types : Told) → AreToldAt types store.old.bounds steps (place_at served.old (work_of store.old) reader.old (H.now host.old)) 1 → H.tells_input → result ≡ Ok Course.GoesOn → WentOn types store.old.bounds steps H.tells_said
        (place_at served.old (work_of store.old) reader.old (H.now host.old)) (place_at served.new (work_of store.new) reader.new (H.now host.new)) }
    ensures there { H.tells_input → OnOk result (AreThere store.old.bounds steps (place_at served.old (work_of store.old) reader.old (H.now host.old)) 1) }
    ensures counts_one { result ≡ Ok Course.GoesOn → served.new ≡ served.old + 1 }
    ensures ends { (types : Told) → AreToldAt types store.old.bounds steps (place_at served.old (work_of store.old) reader.old (H.now host.old)) 1 → H.tells_input → result ≡ Ok Course.Ends → Ended types store.old.bounds steps H.tells_said
        (place_at served.old (work_of store.old) reader.old (H.now host.old)) (place_at served.new (work_of store.new) reader.new (H.now host.new)) }

    // What is counted with the replies that are left stays, and at the end none is left.
    ensures tallied { (types : Told) → AreToldAt types store.old.bounds steps (place_at served.old (work_of store.old) reader.old (H.now host.old)) 1 → H.tells_input → result ≡ Ok Course.GoesOn → counted_at types store.old.bounds steps (place_at served.old (work_of store.old) reader.old (H.now host.old)) tally.old
        ≡ counted_at types store.old.bounds steps (place_at served.new (work_of store.new) reader.new (H.now host.new)) tally.new }
    ensures tallied_whole { (types : Told) → AreToldAt types store.old.bounds steps (place_at served.old (work_of store.old) reader.old (H.now host.old)) 1 → H.tells_input → result ≡ Ok Course.Ends → counted_at types store.old.bounds steps (place_at served.old (work_of store.old) reader.old (H.now host.old)) tally.old ≡ tally.new }

    ensures input_fault { IsErrOf result ServeStop.Input → RoseByOne (H.now host.old).input_faults (H.now host.new).input_faults }
    ensures store_fault { IsErrOf result ServeStop.StoreFault → RoseByOne (H.now host.old).store_faults (H.now host.new).store_faults }
    ensures sink_fault { IsErrOf result ServeStop.SinkFault → RoseByOne (H.now host.old).sink_faults (H.now host.new).sink_faults }
    ensures input_alone { IsErrOf result ServeStop.Input → OnlyInputFailed (H.now host.old) (H.now host.new) }
    ensures store_alone { IsErrOf result ServeStop.StoreFault → OnlyStoreFailed (H.now host.old) (H.now host.new) }
    ensures sink_alone { IsErrOf result ServeStop.SinkFault → OnlySinkFailed (H.now host.old) (H.now host.new) }
    ensures faultless { OnOk result (IsFaultless (H.now host.old) (H.now host.new)) }
    ensures stop_faultless { (IsErrOf result ServeStop.Memory ⊎ IsErrOf result ServeStop.Long) → IsFaultless (H.now host.old) (H.now host.new) }
    ensures long { IsErrOf result ServeStop.Long → reader.new.taken ≡ reader.new.bound }
    ensures most_taken { reader.new.taken ≤ reader.new.bound }

    ensures falls { result ≡ Ok Course.GoesOn → reader.old.used < reader.new.used }
    ensures counted { OnOk result (served.new ≤ reader.new.used) }
    ensures countable { OnOk result (tally.new.items ≤ served.new) }
    ensures total { H.tells_input → reader.new.taken + length (H.now host.new).left ≡ reader.old.taken + length (H.now host.old).left }
    ensures counts { (H.now host.new).taken ≡ reader.new.taken }
    ensures ended { H.tells_input → OnOk result (reader.new.ended ≡ true → (H.now host.new).left ≡ []) }
    ensures input_bound { reader.new.bound ≡ reader.old.bound }
    ensures holds { H.tells_image → OnOk result (Holds (H.now host.new).image (work_of store.new)) }
    ensures bounds { store.new.bounds ≡ store.old.bounds }
    ensures sound { OnOk result (IsTrue store.new.sound) }
    ensures up_to_date { OnOk result (IsUpToDate checker.new store.new.kept.units) }
    ensures chosen { (H.now host.new).chosen ≡ (H.now host.old).chosen }
    ensures none_fell { NoneFell (H.now host.old) (H.now host.new) }

    // What it asked for.
    ensures asked { H.tells_said → H.tells_input
        → WithNext store.old.bounds steps (place_at served.old (work_of store.old) reader.old (H.now host.old)) (λ types. Asked (AsksInput types store.old.bounds steps (place_at served.old (work_of store.old) reader.old (H.now host.old))) (H.now host.old).asked (H.now host.new).asked) }
    ensures asks_rise { H.tells_said → AskedRising (next_ask reader.old.taken reader.old.ended) (next_ask reader.new.taken reader.new.ended) (H.now host.old).asked (H.now host.new).asked }
    ensures stays_ended { reader.old.ended ≡ true → reader.new.ended ≡ true }
    ensures ended_asks { reader.old.ended ≡ true → (H.now host.new).asked ≡ (H.now host.old).asked }
    ensures ended_ends { reader.old.ended ≡ true → (IsErrOf result ServeStop.Input ⊎ IsErrOf result ServeStop.Long) → ⊥ }
    ensures wants { H.tells_input → (IsErrOf result ServeStop.Input ⊎ IsErrOf result ServeStop.Long)
        → WithNext store.old.bounds steps (place_at served.old (work_of store.old) reader.old (H.now host.old)) (λ types. WantsInput types store.old.bounds steps (place_at served.old (work_of store.old) reader.old (H.now host.old)) (H.now host.new).taken) }

    // What stands where it stops.
    ensures idle_said { (IsErrOf result ServeStop.Memory ⊎ IsErrOf result ServeStop.Input ⊎ IsErrOf result ServeStop.Long) → (H.now host.new).said ≡ (H.now host.old).said }
    ensures idle { H.tells_image → IsQuiet H.clock H.stopped host.old (H.now host.old).image
        → (IsErrOf result ServeStop.Memory ⊎ IsErrOf result ServeStop.Input ⊎ IsErrOf result ServeStop.Long)
        → (c s : List ℕ) → Now H.clock H.stopped host.new c s → OpensTo c (work_of store.old) }
    ensures broken { H.tells_image → H.tells_said → H.tells_input → IsQuiet H.clock H.stopped host.old (H.now host.old).image → IsErrOf result ServeStop.StoreFault
        → WithNext store.old.bounds steps (place_at served.old (work_of store.old) reader.old (H.now host.old)) (λ types. IsBroken OpensTo (works (work_of store.old) (session_at types store.old.bounds steps (place_at served.old (work_of store.old) reader.old (H.now host.old))))
        (replies (session_at types store.old.bounds steps (place_at served.old (work_of store.old) reader.old (H.now host.old))))
        (H.now host.old).said (H.now host.new).said (Now H.clock H.stopped host.new)) }
    ensures cut_short { H.tells_image → H.tells_said → H.tells_input → IsQuiet H.clock H.stopped host.old (H.now host.old).image → IsErrOf result ServeStop.SinkFault
        → WithNext store.old.bounds steps (place_at served.old (work_of store.old) reader.old (H.now host.old)) (λ types. IsCutShort OpensTo (works (work_of store.old) (session_at types store.old.bounds steps (place_at served.old (work_of store.old) reader.old (H.now host.old))))
        (replies (session_at types store.old.bounds steps (place_at served.old (work_of store.old) reader.old (H.now host.old))))
        (H.now host.old).said (H.now host.new).said (Now H.clock H.stopped host.new)) }

    // At every moment of the call, and at its end.
    ensures stops { H.tells_image → H.tells_said → H.tells_input → IsQuiet H.clock H.stopped host.old (H.now host.old).image
        → WithNext store.old.bounds steps (place_at served.old (work_of store.old) reader.old (H.now host.old)) (λ types. Leaves H.clock H.stopped host.old host.new (IsSessionPoint (work_of store.old)
        (session_at types store.old.bounds steps (place_at served.old (work_of store.old) reader.old (H.now host.old))) (H.now host.old).said)) }
    ensures quiet { H.tells_image → IsQuiet H.clock H.stopped host.old (H.now host.old).image
        → OnOk result (IsQuiet H.clock H.stopped host.new (H.now host.new).image) }
{
    let Some(item) = reader.next_item(host)? else {
        return Ok(Course::Ends);
    };
    *served += 1;
    let done = serve_item(
        alloc, store, checker, host, reader, &item, tally, *served, steps,
    )?;
    Ok(course_behind(done.quit))
}

/// What it does behind an item that was served.
fn course_behind(quit: bool) -> Course
    ensures goes_on { result ≡ Course.GoesOn → quit ≡ false }
    ensures ends { result ≡ Course.Ends → quit ≡ true }
{
    if quit { Course::Ends } else { Course::GoesOn }
}
