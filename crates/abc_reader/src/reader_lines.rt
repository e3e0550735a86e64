//! The reader as a reader of lines, for an item that takes lines after its own.
ghost use Rattle.std.specs.Prelude.{◌≡◌, ℕ, Option, [], true, false};
ghost use Rattle.abc_reader.specs.Lending.{Call, Calls, no_call, more_calls};
ghost use Rattle.abc_reader.specs.Reading.{MayBe, unread_in, WaitsAt};

use crate::Reader;
use abc_num::RawLine;
use abc_outside::{Host, LineStop, Lines};

/// A reader and the host that it reads from, lent to a function over any [`Lines`].
///
/// Its inputs, as [`Lines`] speaks of them: the real one, or, for each count of bytes that are not yet used, the first so many bytes
/// of it, behind which the input goes on in any way.
#[derive(Drop)]
pub struct ReaderLines<'a, H: Host> {
    pub reader: &'a mut Reader,
    pub host: &'a mut H,
    ghost counts: { (H.now host.now).taken ≡ reader.now.taken },
    ghost at_end: { H.tells_input → reader.now.ended ≡ true → (H.now host.now).left ≡ [] },
}

impl<'a, H: Host> Lines for ReaderLines<'a, H> {
    ghost Input = { Option ℕ };

    ghost may_be = { λ input lines. MayBe H.tells_input input lines.reader.now (H.now lines.host.now).left };

    ghost unread = { λ input lines. unread_in input lines.reader.now (H.now lines.host.now).left };

    ghost failed = { λ old new. (new.reader.ghost_name ≡ old.reader.ghost_name) × (new.host.ghost_name ≡ old.host.ghost_name) × (new.reader.now.ended ≡ false)
        × (H.tells_input → WaitsAt H.tells_input new.reader.now.taken old.reader.now (H.now old.host.now).left) };

    ghost taken = { λ lines. lines.reader.now.taken };

    ghost bound = { λ lines. lines.reader.now.bound };

    ghost faults = { λ lines. (H.now lines.host.now).input_faults };

    ghost reads_on = { λ called old new. Calls (λ l m. (m.reader.ghost_name ≡ l.reader.ghost_name) × (m.host.ghost_name ≡ l.host.ghost_name)
        × Call H.tells_input H.tells_said H.now H.clock H.stopped l.reader.now m.reader.now l.host.now m.host.now) called old new };

    ghost reads_on_at_once = { λ lines. no_call lines };

    ghost reads_on_later = { λ xs ys first later last some more. more_calls xs ys first later last some more };

    fn next(&mut self) -> Result<Option<RawLine>, LineStop> {
        self.reader.next(self.host)
    }
}
