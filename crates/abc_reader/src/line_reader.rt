//! The lines of the input, one after the other.
ghost use Rattle.std.specs.Prelude.{◌≡◌, ◌⊎◌, ◌≤◌, ◌<◌, ◌+◌, ◌-◌, ◌^◌, min, ◌++◌, ◌∷◌, [], List, ℕ, false, true, length, take, IfOk, IfErr, OnOk, OnErr, IsErrOf, MatchOption, IsSome, IsNone, IfSome, IfNone};
ghost use Rattle.abc_outside.specs.Lines.{IsFirst, IsOver, IsWithinLine};
ghost use Rattle.abc_outside.specs.Outside.{RoseByOne, KeepsButInput};
ghost use Rattle.abc_outside.specs.Stop.{Leaves};
ghost use Rattle.abc_reader.specs.Asking.{Asked, AsksNow, AskedRising, next_ask};

use crate::line::Gathered;
use crate::scan::place_of;
use abc_num::RawLine;
use abc_num::limits::MOST_LINE_BYTES;
use abc_outside::{Failed, Host, LineStop};
use std::alloc::{AllocError, Global};

/// The most bytes that one read asks for.
const PIECE_BYTES: usize = 65_536;

const LF: u8 = 10;

/// The piece that was read last, whose bytes `from..to` are not yet used; how many bytes were taken in all, and how many may be.
#[derive(Drop)]
pub(crate) struct LineReader {
    alloc: Global,
    piece: Vec<u8>,
    from: usize,
    to: usize,
    taken: u64,
    bound: u64,
    /// A read gave nothing: there is no other.
    ended: bool,
    ghost in_piece: { to ≤ length piece.items },
    ghost in_order: { from ≤ to },
    ghost were_taken: { to - from ≤ taken },
    ghost in_bound: { taken ≤ bound },
    ghost before_bound: { ended ≡ true → taken < bound },
}

fn make_piece(alloc: Global, size: usize) -> Result<Vec<u8>, AllocError>
    ensures { IfOk result (λ piece. length piece.items ≡ size) }
{
    vec![in alloc; 0u8; size]
}

/// Reads once into the piece, at most so many bytes.
fn read_piece<H: Host>(host: &mut H, piece: &mut [u8], most: u64) -> Result<usize, LineStop>
    requires most { 0 < most }
    requires room { 0 < length piece.old }
    ensures within { IfOk result (λ count. count ≤ length piece.new) }
    ensures most { IfOk result (λ count. count ≤ most) }
    ensures bytes { H.tells_input → IfOk result (λ count. (H.now host.old).left ≡ take count piece.new ++ (H.now host.new).left) }
    ensures end { H.tells_input → IfOk result (λ count. count ≡ 0 → (H.now host.old).left ≡ []) }
    ensures taken { IfOk result (λ count. (H.now host.new).taken ≡ min ((H.now host.old).taken + count) (2 ^ 64 - 1)) }
    ensures stop { IfErr result (λ stop. stop ≡ LineStop.Input) }
    ensures input { OnErr result (RoseByOne (H.now host.old).input_faults (H.now host.new).input_faults) }
    ensures faultless { OnOk result ((H.now host.new).input_faults ≡ (H.now host.old).input_faults) }
    ensures failed { OnErr result ((H.now host.new).taken ≡ (H.now host.old).taken) }
    ensures failed_left { OnErr result ((H.now host.new).left ≡ (H.now host.old).left) }
    ensures asked { H.tells_said → Asked (AsksNow (H.now host.old).taken (length (H.now host.old).said)) (H.now host.old).asked (H.now host.new).asked }
    ensures asks_once { H.tells_said → OnOk result ((H.now host.new).asked ≡ (H.now host.old).asked ++ ((H.now host.old).taken, length (H.now host.old).said) ∷ []) }
    ensures failed_asked { OnErr result ((H.now host.new).asked ≡ (H.now host.old).asked) }
    ensures rest { KeepsButInput (H.now host.old) (H.now host.new) }
    ensures stops { Leaves H.clock H.stopped host.old host.new (H.stopped host.old (H.clock host.old)) }
    ensures now { (c s : List ℕ) → H.stopped host.new (H.clock host.new) c s → H.stopped host.old (H.clock host.old) c s }
{
    let room = most.min(piece.len() as u64) as usize;
    match host.read(&mut piece[..room]) {
        Ok(count) => Ok(count),
        Err(Failed) => Err(LineStop::Input),
    }
}

impl LineReader {
    ghost use Rattle.abc_reader.specs.inner.LineReading.{shown, pending_of, used_of, lines_left, unread_of, going_on, Consumes, ConsumesOpen, TookPart, WantsLine, AsksLine};
    ghost use Rattle.abc_reader.specs.Reading.{UsesLines, IsRaw};

    pub(crate) fn new(alloc: Global, bound: u64) -> LineReader
        ensures taken { result.taken ≡ 0 }
        ensures bound { result.bound ≡ bound }
        ensures pending { pending_of result ≡ [] }
        ensures ended { result.ended ≡ false }
    {
        LineReader {
            alloc,
            piece: Vec::new(alloc),
            from: 0,
            to: 0,
            taken: 0,
            bound,
            ended: false,
        }
    }

    /// How many bytes may be taken.
    pub(crate) fn bound(&self) -> u64
        ensures { result ≡ self.now.bound }
    {
        self.bound
    }

    /// Moves the pending bytes into the line, up to an LF: whether one ends it.
    fn ends_line(&mut self, line: &mut Gathered) -> Result<bool, LineStop>
        ensures part { IfOk result (λ found. TookPart (pending_of self.old) (pending_of self.new) (shown line.old) (shown line.new) found) }
        ensures used { result ≡ Ok true → used_of self.old < used_of self.new }
        ensures no_fewer { used_of self.old ≤ used_of self.new }
        ensures size { OnOk result (length line.new.bytes.items + used_of self.old ≤ length line.old.bytes.items + used_of self.new) }
        ensures memory { IfErr result (λ stop. stop ≡ LineStop.Memory) }
        ensures failed { OnErr result (self.new ≡ self.old) }
        ensures taken { self.new.taken ≡ self.old.taken }
        ensures bound { self.new.bound ≡ self.old.bound }
        ensures ended { self.new.ended ≡ self.old.ended }
    {
        let pending = &self.piece[self.from..self.to];
        let end = place_of(LF, pending);
        let Ok(()) = line.add(&pending[..end]) else {
            return Err(LineStop::Memory);
        };
        if end == pending.len() {
            self.from = self.to;
            return Ok(false);
        }
        self.from += end + 1;
        Ok(true)
    }

    /// Takes the memory of the piece before the first read.
    fn make_room(&mut self) -> Result<(), LineStop>
        requires { pending_of self.old ≡ [] }
        ensures memory { IfErr result (λ stop. stop ≡ LineStop.Memory) }
        ensures room { OnOk result (0 < length self.new.piece.items) }
        ensures used { pending_of self.new ≡ [] }
        ensures used_same { used_of self.new ≡ used_of self.old }
        ensures taken { self.new.taken ≡ self.old.taken }
        ensures bound { self.new.bound ≡ self.old.bound }
        ensures ended { self.new.ended ≡ self.old.ended }
    {
        if self.piece.is_empty() {
            let Ok(piece) = make_piece(self.alloc, PIECE_BYTES) else {
                return Err(LineStop::Memory);
            };
            self.piece = piece;
        }
        Ok(())
    }

    /// Reads once, where all bytes are used. At the end of the input it remembers that.
    fn fill<H: Host>(&mut self, host: &mut H) -> Result<(), LineStop>
        requires room { self.old.taken < self.old.bound }
        requires used { pending_of self.old ≡ [] }
        requires same_count { (H.now host.old).taken ≡ self.old.taken }

        ensures bytes { H.tells_input → OnOk result ((H.now host.old).left ≡ pending_of self.new ++ (H.now host.new).left) }
        ensures count { OnOk result (self.new.taken ≡ self.old.taken + length (pending_of self.new)) }
        ensures end { H.tells_input → OnOk result (self.new.ended ≡ true → (H.now host.old).left ≡ []) }
        ensures more { OnOk result ((self.new.ended ≡ true) ⊎ (self.old.taken < self.new.taken)) }
        ensures used_same { used_of self.new ≡ used_of self.old }
        ensures not_long { IsErrOf result LineStop.Long → ⊥ }
        ensures memory_faultless { IsErrOf result LineStop.Memory → (H.now host.new).input_faults ≡ (H.now host.old).input_faults }
        ensures input { IsErrOf result LineStop.Input → RoseByOne (H.now host.old).input_faults (H.now host.new).input_faults }
        ensures faultless { OnOk result ((H.now host.new).input_faults ≡ (H.now host.old).input_faults) }

        ensures failed { OnErr result (self.new.taken ≡ self.old.taken) }
        ensures failed_pending { OnErr result (pending_of self.new ≡ []) }
        ensures failed_ended { OnErr result (self.new.ended ≡ self.old.ended) }
        ensures failed_left { OnErr result ((H.now host.new).left ≡ (H.now host.old).left) }
        ensures counts { (H.now host.new).taken ≡ self.new.taken }
        ensures bound { self.new.bound ≡ self.old.bound }
        ensures asked { H.tells_said → Asked (AsksNow self.old.taken (length (H.now host.old).said)) (H.now host.old).asked (H.now host.new).asked }
        ensures asks_rise { H.tells_said → AskedRising self.old.taken (next_ask self.new.taken self.new.ended) (H.now host.old).asked (H.now host.new).asked }
        ensures rest { KeepsButInput (H.now host.old) (H.now host.new) }
        ensures stops { Leaves H.clock H.stopped host.old host.new (H.stopped host.old (H.clock host.old)) }
        ensures now { (c s : List ℕ) → H.stopped host.new (H.clock host.new) c s → H.stopped host.old (H.clock host.old) c s }
    {
        self.make_room()?;
        let room = self.bound - self.taken;
        let count = read_piece(host, &mut self.piece, room)?;
        self.from = 0;
        self.to = count;
        self.taken += count as u64;
        self.ended = count == 0;
        Ok(())
    }

    /// The next line, or none at the end of the input. It reads where the bytes in hand hold no whole line, and no
    /// more after a read that gave nothing.
    pub(crate) fn next<H: Host>(&mut self, host: &mut H) -> Result<Option<RawLine>, LineStop>
        requires same_count { (H.now host.old).taken ≡ self.old.taken }
        requires ended { H.tells_input → self.old.ended ≡ true → (H.now host.old).left ≡ [] }

        ensures line { H.tells_input → IfOk result (λ found. MatchOption found ((lines_left self.old (H.now host.old).left ≡ []) × (lines_left self.new (H.now host.new).left ≡ []) × (self.new.ended ≡ true))
            (λ line. lines_left self.old (H.now host.old).left ≡ line ∷ lines_left self.new (H.now host.new).left)) }
        ensures raw { IfOk result (λ found. IfSome found IsRaw) }
        ensures first { H.tells_input → IfOk result (λ found. IfSome found (λ line. IsFirst (unread_of self.old (H.now host.old).left) line (unread_of self.new (H.now host.new).left))) }
        ensures first_on { H.tells_input → IfOk result (λ found. IfSome found (λ line. self.new.ended ≡ false
            → IsFirst (going_on (pending_of self.old ++ (H.now host.old).left)) line (going_on (pending_of self.new ++ (H.now host.new).left)))) }
        ensures consumes { H.tells_input → OnOk result (Consumes (pending_of self.old ++ (H.now host.old).left) (pending_of self.new ++ (H.now host.new).left) (used_of self.old) (used_of self.new)) }
        ensures is_open { H.tells_input → OnErr result (ConsumesOpen (pending_of self.old ++ (H.now host.old).left) (pending_of self.new ++ (H.now host.new).left) (used_of self.old) (used_of self.new)) }
        ensures over { H.tells_input → IfOk result (λ found. IfNone found (IsOver (unread_of self.old (H.now host.old).left))) }
        ensures over_stays { H.tells_input → IfOk result (λ found. IfNone found (unread_of self.new (H.now host.new).left ≡ unread_of self.old (H.now host.old).left)) }
        ensures within { H.tells_input → IsErrOf result LineStop.Long → IsWithinLine (unread_of self.old (H.now host.old).left) }
        ensures uses { H.tells_input → IfOk result (λ found. IfSome found (λ line. self.new.ended ≡ false
            → UsesLines (pending_of self.old) (H.now host.old).left self.old.taken (pending_of self.new) (H.now host.new).left self.new.taken (line ∷ []))) }
        ensures used { IfOk result (λ found. IsSome found → used_of self.old < used_of self.new) }
        ensures no_fewer { used_of self.old ≤ used_of self.new }
        ensures short { IfOk result (λ found. IfSome found (λ line. length line.bytes ≤ MOST_LINE_BYTES)) }
        ensures end { H.tells_input → IfOk result (λ found. IsNone found → (H.now host.new).left ≡ []) }
        ensures none_ended { IfOk result (λ found. IsNone found → self.new.ended ≡ true) }
        ensures end_bound { IfOk result (λ found. IsNone found → self.new.taken < self.new.bound) }

        ensures long { IsErrOf result LineStop.Long → self.new.taken ≡ self.new.bound }
        ensures stop_faultless { (IsErrOf result LineStop.Memory ⊎ IsErrOf result LineStop.Long) → (H.now host.new).input_faults ≡ (H.now host.old).input_faults }
        ensures input { IsErrOf result LineStop.Input → RoseByOne (H.now host.old).input_faults (H.now host.new).input_faults }
        ensures faultless { OnOk result ((H.now host.new).input_faults ≡ (H.now host.old).input_faults) }
        ensures wants { H.tells_input → (IsErrOf result LineStop.Long ⊎ IsErrOf result LineStop.Input)
            → WantsLine (pending_of self.old) (H.now host.old).left self.old.taken self.new.taken }

        ensures total { H.tells_input → self.new.taken + length (H.now host.new).left ≡ self.old.taken + length (H.now host.old).left }
        ensures rises { self.old.taken ≤ self.new.taken }
        ensures counts { (H.now host.new).taken ≡ self.new.taken }
        ensures ended { H.tells_input → self.new.ended ≡ true → (H.now host.new).left ≡ [] }
        ensures bound { self.new.bound ≡ self.old.bound }
        ensures asked { H.tells_said → H.tells_input
            → Asked (AsksLine (pending_of self.old) (H.now host.old).left self.old.taken (length (H.now host.old).said)) (H.now host.old).asked (H.now host.new).asked }
        ensures asks_rise { H.tells_said → AskedRising (next_ask self.old.taken self.old.ended) (next_ask self.new.taken self.new.ended) (H.now host.old).asked (H.now host.new).asked }
        ensures stays_ended { self.old.ended ≡ true → self.new.ended ≡ true }
        ensures ended_asks { self.old.ended ≡ true → (H.now host.new).asked ≡ (H.now host.old).asked }
        ensures ended_ends { self.old.ended ≡ true → (IsErrOf result LineStop.Long ⊎ IsErrOf result LineStop.Input) → ⊥ }
        ensures failed_open { (IsErrOf result LineStop.Long ⊎ IsErrOf result LineStop.Input) → self.new.ended ≡ false }
        ensures rest { KeepsButInput (H.now host.old) (H.now host.new) }
        ensures stops { Leaves H.clock H.stopped host.old host.new (H.stopped host.old (H.clock host.old)) }
        ensures now { (c s : List ℕ) → H.stopped host.new (H.clock host.new) c s → H.stopped host.old (H.clock host.old) c s }
    {
        let mut line = Gathered::new(self.alloc);
        'pieces: loop {
            if self.ends_line(&mut line)? {
                return Ok(Some(line.finish()));
            }
            if self.ended {
                return Ok(line.if_any());
            }
            if self.taken == self.bound {
                return Err(LineStop::Long);
            }
            self.fill(host)?;
        }
    }
}
