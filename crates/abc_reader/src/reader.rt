//! The reader: the items of the input, one after the other.
ghost use Rattle.std.specs.Prelude.{◌≡◌, ◌⊎◌, ◌<◌, ◌≤◌, [], List, ℕ, Option, true, false, suc, length, IfOk, IfSome, IfNone, OnOk, IsErrOf, IsSome, IsNone};
ghost use Rattle.abc_num.specs.declared.limits.TheConstants.{MOST_LINE_BYTES};
ghost use Rattle.abc_outside.specs.Lines.{IsFirst, IsOver, IsWithinLine};
ghost use Rattle.abc_outside.specs.Outside.{RoseByOne};
ghost use Rattle.abc_reader.specs.Asking.{Asked};

use crate::line_reader::LineReader;
use abc_layout::{Fed, Splitter};
use abc_num::{ItemLines, OutOfMemory, RawLine};
use abc_outside::{Host, LineStop};
use std::alloc::Global;
use std::marker::Model;

/// Reads an input line by line. A line that ends the item before it is looked at and not taken, so that it is still to come.
#[derive(Drop)]
pub struct Reader {
    alloc: Global,
    lines: LineReader,
    /// The line that was looked at.
    ahead: Option<RawLine>,
}

impl Model for Reader {
    ghost use Rattle.abc_reader.specs.Reading.{Reading};
    ghost use Rattle.abc_reader.specs.inner.LineSteps.{reading_of, IsAhead};

    ghost Value = { Reading };

    ghost view = { λ r. reading_of r.ahead r.lines };

    ghost invariant = { λ r. IsAhead r.ahead r.lines };
}

impl Reader {
    ghost use Rattle.abc_reader.specs.Reading.{fresh, IsRaw, IsReader, MayBe, WaitsAt, bytes_used, unread_in, TookItem, IsFit, WantsMore, AsksMore, StandsAt, ReadsOn};
    ghost use Rattle.abc_reader.specs.Lending.{Used};
    ghost use Rattle.abc_reader.specs.inner.LineSteps.{some_line, TookLine, WantsBehind, AsksBehind};

    /// A reader that has taken nothing, and takes at most so many bytes.
    pub fn new(alloc: Global, bound: u64) -> Reader
        ensures { result ≡ fresh bound }
    {
        Reader {
            alloc,
            lines: LineReader::new(alloc, bound),
            ahead: None,
        }
    }

    /// What holds of every reader.
    pub fn is_reader(&self)
        ensures { IsReader self.now }
    {
        let _bound = self.lines.bound();
    }

    /// The next line: the one that was looked at, or one that is read.
    pub(crate) fn next<H: Host>(&mut self, host: &mut H) -> Result<Option<RawLine>, LineStop>
        requires same_count { (H.now host.old).taken ≡ self.old.taken }
        requires at_end { H.tells_input → self.old.ended ≡ true → (H.now host.old).left ≡ [] }

        ensures line { H.tells_input → IfOk result (TookLine self.old (H.now host.old).left self.new (H.now host.new).left) }
        ensures raw { IfOk result (λ found. IfSome found IsRaw) }
        ensures may_be { (input : Option ℕ) → MayBe H.tells_input input self.new (H.now host.new).left → MayBe H.tells_input input self.old (H.now host.old).left }
        ensures first { (input : Option ℕ) → MayBe H.tells_input input self.new (H.now host.new).left
            → IfOk result (λ found. IfSome found (λ line. IsFirst (unread_in input self.old (H.now host.old).left) line (unread_in input self.new (H.now host.new).left))) }
        ensures over { (input : Option ℕ) → MayBe H.tells_input input self.new (H.now host.new).left
            → IfOk result (λ found. IfNone found (IsOver (unread_in input self.old (H.now host.old).left))) }
        ensures over_stays { (input : Option ℕ) → MayBe H.tells_input input self.new (H.now host.new).left
            → IfOk result (λ found. IfNone found (unread_in input self.new (H.now host.new).left ≡ unread_in input self.old (H.now host.old).left)) }
        ensures within { (input : Option ℕ) → MayBe H.tells_input input self.new (H.now host.new).left
            → IsErrOf result LineStop.Long → IsWithinLine (unread_in input self.old (H.now host.old).left) }
        ensures used_up { H.tells_input → Used self.old (H.now host.old).left self.new (H.now host.new).left (WaitsAt H.tells_input (bytes_used self.new) self.old (H.now host.old).left) }
        ensures none_ahead { OnOk result (self.new.ahead ≡ []) }
        ensures used { IfOk result (λ found. IfSome found (λ line. suc self.old.used ≤ self.new.used)) }
        ensures short { IfOk result (λ found. IfSome found (λ line. length line.bytes ≤ MOST_LINE_BYTES)) }
        ensures end_bound { IfOk result (λ found. IsNone found → self.new.taken < self.new.bound) }
        ensures no_fewer { self.old.used ≤ self.new.used }
        ensures is_reader { IsReader self.old × IsReader self.new }

        ensures long { IsErrOf result LineStop.Long → self.new.taken ≡ self.new.bound }
        ensures input { IsErrOf result LineStop.Input → RoseByOne (H.now host.old).input_faults (H.now host.new).input_faults }
        ensures faultless { OnOk result ((H.now host.new).input_faults ≡ (H.now host.old).input_faults) }
        ensures stop_faultless { (IsErrOf result LineStop.Memory ⊎ IsErrOf result LineStop.Long) → (H.now host.new).input_faults ≡ (H.now host.old).input_faults }
        ensures wants { H.tells_input → (IsErrOf result LineStop.Long ⊎ IsErrOf result LineStop.Input)
            → WantsBehind self.old (H.now host.old).left self.new.taken }
        ensures asked { H.tells_said → H.tells_input
            → Asked (AsksBehind self.old (H.now host.old).left (length (H.now host.old).said)) (H.now host.old).asked (H.now host.new).asked }
        ensures ended_ends { self.old.ended ≡ true → (IsErrOf result LineStop.Long ⊎ IsErrOf result LineStop.Input) → ⊥ }
        ensures failed_open { (IsErrOf result LineStop.Long ⊎ IsErrOf result LineStop.Input) → self.new.ended ≡ false }
        ensures stands { StandsAt H.tells_input self.new (H.now host.new) }
        ensures reads_on { ReadsOn H.tells_input H.tells_said H.now H.clock H.stopped self.old self.new host.old host.new }
    {
        match self.ahead.take() {
            Some(line) => Ok(Some(line)),
            None => self.lines.next(host),
        }
    }

    /// Gives a line back, which was taken last.
    fn put_back(&mut self, line: RawLine)
        requires none { self.old.ahead ≡ [] }
        requires taken { 0 < self.old.used }
        requires short { length line.bytes ≤ MOST_LINE_BYTES }
        requires raw { IsRaw line }
        ensures ahead { self.new.ahead ≡ some_line (Some line) }
        ensures pending { self.new.pending ≡ self.old.pending }
        ensures used { suc self.new.used ≡ self.old.used }
        ensures taken { self.new.taken ≡ self.old.taken }
        ensures bound { self.new.bound ≡ self.old.bound }
        ensures ended { self.new.ended ≡ self.old.ended }
    {
        self.ahead = Some(line);
    }

    /// The lines of the next item, or none at the end of the input. It reads from the host where the bytes in hand hold no whole item, and no more
    /// after a read that gave nothing. The line that ends an open item is not taken.
    ///
    /// Errors: `Input` where a read failed; `Long` where as many bytes as the bound were taken and no further item is whole; `Memory`. The reader
    /// isn't used again then.
    pub fn next_item<H: Host>(&mut self, host: &mut H) -> Result<Option<ItemLines>, LineStop>
        requires same_count { (H.now host.old).taken ≡ self.old.taken }
        requires at_end { H.tells_input → self.old.ended ≡ true → (H.now host.old).left ≡ [] }

        ensures item { H.tells_input → IfOk result (TookItem self.old (H.now host.old).left self.new (H.now host.new).left) }
        ensures fit { IfOk result (λ found. IfSome found IsFit) }
        ensures used { IfOk result (λ found. IsSome found → self.old.used < self.new.used) }
        ensures no_fewer { OnOk result (self.old.used ≤ self.new.used) }
        ensures end_bound { IfOk result (λ found. IsNone found → self.new.taken < self.new.bound) }

        ensures long { IsErrOf result LineStop.Long → self.new.taken ≡ self.new.bound }
        ensures input { IsErrOf result LineStop.Input → RoseByOne (H.now host.old).input_faults (H.now host.new).input_faults }
        ensures faultless { OnOk result ((H.now host.new).input_faults ≡ (H.now host.old).input_faults) }
        ensures stop_faultless { (IsErrOf result LineStop.Memory ⊎ IsErrOf result LineStop.Long) → (H.now host.new).input_faults ≡ (H.now host.old).input_faults }
        ensures wants { H.tells_input → (IsErrOf result LineStop.Long ⊎ IsErrOf result LineStop.Input)
            → WantsMore self.old (H.now host.old).left self.new.taken }
        ensures asked { H.tells_said → H.tells_input
            → Asked (AsksMore self.old (H.now host.old).left (length (H.now host.old).said)) (H.now host.old).asked (H.now host.new).asked }
        ensures ended_ends { self.old.ended ≡ true → (IsErrOf result LineStop.Long ⊎ IsErrOf result LineStop.Input) → ⊥ }
        ensures stands { StandsAt H.tells_input self.new (H.now host.new) }
        ensures reads_on { ReadsOn H.tells_input H.tells_said H.now H.clock H.stopped self.old self.new host.old host.new }
    {
        let mut splitter = Splitter::new(self.alloc);
        'lines: loop {
            let line = match self.next(host) {
                Ok(Some(line)) => line,
                Ok(None) => return Ok(splitter.finish()),
                Err(stop) => return Err(stop),
            };
            match splitter.feed_line(line.bytes.bytes(), line.long) {
                Ok(Fed::More) => {}
                Ok(Fed::Whole(item)) => return Ok(Some(item)),
                Ok(Fed::Before(item)) => {
                    self.put_back(line);
                    return Ok(Some(item));
                }
                Err(OutOfMemory) => return Err(LineStop::Memory),
            }
        }
    }
}
