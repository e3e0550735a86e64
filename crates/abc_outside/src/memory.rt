//! The host in memory: an image, an input and what was said, with calls that fail where a test wants it.
ghost use Rattle.std.specs.Prelude.{◌≡◌, ◌≢◌, ◌≤◌, ◌<◌, ◌+◌, ◌-◌, ◌^◌, ◌++◌, [], ◌∷◌, List, ℕ, option_map, length, take, drop, min, vec_len, is_err, IfOk, OnOk, OnErr, true, IsSome, IsNone, IsErrOf};
ghost use Rattle.abc_outside.specs.Outside.{RoseByOne, IsFaultless, KeepsButStore, KeepsButInput, KeepsButSaid, KeepsButChoice};
ghost use Rattle.abc_outside.specs.Stop.{written, Torn, Shortened, Passes};

use crate::chosen::{Chosen, note_choice, note_read};
use crate::failing::{CallKind, Listed, next_fails};
use crate::host::{ChooseFault, Failed, Host};
use crate::steps::{Step, append, prepare_say, prepare_write, record, record_cut, write_over};
use abc_num::OutOfMemory;
use std::alloc::Global;

/// A host in memory, which tells everything: for tests, and for input that is made.
///
/// It keeps a record of the calls that change its image or what it said, by which it tells what a
/// stop may leave. A call that finds no memory answers a fault, which [`MemoryHost::starved`]
/// counts, and changes nothing else, but that it is counted among the calls of its kind: those that
/// are to fail come nearer, as after every call.
#[derive(Drop)]
pub struct MemoryHost {
    alloc: Global,
    image: Vec<u8>,
    input: Vec<u8>,
    /// How much of the input was read.
    place: usize,
    said: Vec<u8>,
    most_said: usize,
    chosen: Vec<Chosen>,
    taken: u64,
    asked: Vec<(u64, usize)>,
    steps: Vec<Step>,
    listed: Vec<Listed>,
    starved: u64,
    input_faults: u64,
    store_faults: u64,
    sink_faults: u64,
    ghost within: { place ≤ vec_len input },
    ghost says_some: { 0 < most_said },
}

/// Raises a count, which stays at its last value.
fn raise(count: &mut u64)
    ensures rose { RoseByOne count.old count.new }
    ensures never_falls { count.old ≤ count.new }
{
    *count = count.saturating_add(1);
}

/// The fault of a call, counted.
fn fault(faults: &mut u64) -> Failed
    ensures rose { RoseByOne faults.old faults.new }
    ensures never_falls { faults.old ≤ faults.new }
{
    raise(faults);
    Failed
}

/// The fault of a call that found no memory, counted as both.
fn starve(starved: &mut u64, faults: &mut u64) -> Failed
    ensures starved { RoseByOne starved.old starved.new }
    ensures starved_never_falls { starved.old ≤ starved.new }
    ensures rose { RoseByOne faults.old faults.new }
    ensures never_falls { faults.old ≤ faults.new }
{
    raise(starved);
    fault(faults)
}

/// The fault of a choice, counted: where an input is named, it is the input's.
fn choose_fault(input: Option<&str>, input_faults: &mut u64, store_faults: &mut u64) -> ChooseFault
    ensures input { result ≡ ChooseFault.Input → IsSome input.entry × RoseByOne input_faults.old input_faults.new }
    ensures store { result ≡ ChooseFault.Store → IsNone input.entry × RoseByOne store_faults.old store_faults.new }
    ensures input_never_falls { input_faults.old ≤ input_faults.new }
    ensures store_never_falls { store_faults.old ≤ store_faults.new }
    ensures input_alone { result ≡ ChooseFault.Input → store_faults.new ≡ store_faults.old }
    ensures store_alone { result ≡ ChooseFault.Store → input_faults.new ≡ input_faults.old }
{
    match input {
        Some(_) => {
            raise(input_faults);
            ChooseFault::Input
        }
        None => {
            raise(store_faults);
            ChooseFault::Store
        }
    }
}

impl MemoryHost {
    ghost use Rattle.abc_outside.specs.MemoryView.{IsMade, KeepsWorld, MayStop, outside_of, starved_in, listed_in, most_said_in};

    /// The host of this image and this input, which takes no memory. Nothing was chosen, read, said
    /// or asked yet, no call is to fail, every count is 0, and a stop leaves the image as it is.
    pub fn new(alloc: Global, image: Vec<u8>, input: Vec<u8>) -> MemoryHost
        ensures made { IsMade image.items input.items result }
        ensures stop { (c s : List ℕ) → MayStop result c s → c ≡ image.items }
    {
        MemoryHost {
            alloc,
            image,
            input,
            place: 0,
            said: Vec::new(alloc),
            most_said: usize::MAX,
            chosen: Vec::new(alloc),
            taken: 0,
            asked: Vec::new(alloc),
            steps: Vec::new(alloc),
            listed: Vec::new(alloc),
            starved: 0,
            input_faults: 0,
            store_faults: 0,
            sink_faults: 0,
        }
    }

    /// The image as it reads.
    pub fn image(&self) -> &[u8]
        ensures { result.now ≡ (outside_of self.now).image }
    {
        &self.image
    }

    /// All that was said.
    pub fn said(&self) -> &[u8]
        ensures { result.now ≡ (outside_of self.now).said }
    {
        &self.said
    }

    /// How many calls found no memory. It stays at 2^64 - 1.
    pub fn starved(&self) -> u64
        ensures { result ≡ starved_in self.now }
    {
        self.starved
    }

    /// From now on a `say` takes at most `n` bytes of its piece. A new host takes the whole piece.
    pub fn say_at_most(&mut self, n: usize)
        requires { 1 ≤ n }
        ensures most_said { most_said_in self.new ≡ n }
        ensures listed { listed_in self.new ≡ listed_in self.old }
        ensures rest { KeepsWorld self.old self.new }
    {
        self.most_said = n;
    }

    /// Makes the `n`-th call of this kind fail, counted from 1 from now on. At 0 no call fails. A
    /// listed `choose`, `read`, `sync` or `say` does nothing. A listed `write_at` or `cut` leaves the
    /// image as it reads, but counts as made for a stop: any of its bytes may be there.
    pub fn fail_at(&mut self, kind: CallKind, n: u64) -> Result<(), OutOfMemory>
        ensures listed { OnOk result (listed_in self.new ≡ listed_in self.old ++ record { kind = kind; wait = n } ∷ []) }
        ensures refused { OnErr result (listed_in self.new ≡ listed_in self.old) }
        ensures most_said { most_said_in self.new ≡ most_said_in self.old }
        ensures rest { KeepsWorld self.old self.new }
    {
        Ok(self.listed.push(Listed { kind, wait: n })?)
    }
}

// The clauses are those of `Host`, where `now`, `clock` and `stopped` are the view of this host, and what it says
// besides: how many bytes a call moves, which calls leave the record as it is (`clock`), that a write or a cut that
// was made or listed may be torn in every way (`torn`, `shortened`), and when a call fails (`called`).
impl Host for MemoryHost {
    ghost use Rattle.abc_outside.specs.MemoryView.{IsCalled, FoundMemory, MayStop, clock_of, is_next_listed, most_said_in, outside_of, starved_in, stopped_of};
    ghost use Rattle.abc_outside.specs.MemoryLaws.{since_memory, says_now_memory, reads_now_memory};

    ghost tells_chosen = { Unit {0} };

    ghost tells_image = { Unit {0} };

    ghost tells_input = { Unit {0} };

    ghost tells_said = { Unit {0} };

    ghost now = { outside_of };

    ghost clock = { clock_of };

    ghost stopped = { stopped_of };

    ghost since = { λ h earlier later c s le stop. since_memory h.image.items h.said.items h.steps.items earlier later c s le stop };

    ghost says_now = { λ h c s stop. says_now_memory h.image.items h.said.items h.steps.items c s stop };

    ghost reads_now = { λ h told told_said. reads_now_memory h.image.items h.said.items h.steps.items };

    fn choose(&mut self, store: &str, input: Option<&str>) -> Result<(), ChooseFault>
        ensures chosen { OnOk result ((outside_of self.new).chosen ≡ (outside_of self.old).chosen ++ (store.now, option_map (λ name. name.now) input.entry) ∷ []) }
        ensures taken { OnOk result ((outside_of self.new).taken ≡ 0) }
        ensures refused { OnErr result ((outside_of self.new).chosen ≡ (outside_of self.old).chosen) }
        ensures refused_taken { OnErr result ((outside_of self.new).taken ≡ (outside_of self.old).taken) }
        ensures rest { KeepsButChoice (outside_of self.old) (outside_of self.new) }
        ensures stop { (c s : List ℕ) → MayStop self.new c s → MayStop self.old c s }
        ensures time { Passes (clock_of self.old) (clock_of self.new) (stopped_of self.old) (stopped_of self.new) }
        ensures clock { clock_of self.new ≡ clock_of self.old }
        ensures store_cause { IsErrOf result ChooseFault.Store → RoseByOne (outside_of self.old).store_faults (outside_of self.new).store_faults }
        ensures input_cause { IsErrOf result ChooseFault.Input → RoseByOne (outside_of self.old).input_faults (outside_of self.new).input_faults }
        ensures input_named { IsErrOf result ChooseFault.Input → IsSome input.entry }
        ensures store_alone { IsErrOf result ChooseFault.Store → IsNone input.entry }
        ensures store_cause_alone { IsErrOf result ChooseFault.Store → (outside_of self.new).input_faults ≡ (outside_of self.old).input_faults }
        ensures input_cause_alone { IsErrOf result ChooseFault.Input → (outside_of self.new).store_faults ≡ (outside_of self.old).store_faults }
        ensures faultless { OnOk result (IsFaultless (outside_of self.old) (outside_of self.new)) }
        ensures called { IsCalled CallKind.Choose (is_err result) self.old self.new }
        ensures listed_alone { is_next_listed CallKind.Choose self.old ≡ true → starved_in self.new ≡ starved_in self.old }
    {
        if next_fails(&mut self.listed, CallKind::Choose) {
            return Err(choose_fault(input, &mut self.input_faults, &mut self.store_faults));
        }
        let Ok(()) = note_choice(self.alloc, &mut self.chosen, store, input) else {
            raise(&mut self.starved);
            return Err(choose_fault(input, &mut self.input_faults, &mut self.store_faults));
        };
        self.taken = 0;
        Ok(())
    }

    fn read(&mut self, buf: &mut [u8]) -> Result<usize, Failed>
        requires { 0 < length buf.old }
        ensures count { IfOk result (λ n. n ≡ min (length buf.old) (length (outside_of self.old).left)) }
        ensures most { IfOk result (λ n. n ≤ length buf.old) }
        ensures taken { IfOk result (λ n. (outside_of self.new).taken ≡ min ((outside_of self.old).taken + n) (2 ^ 64 - 1)) }
        ensures bytes { IfOk result (λ n. (outside_of self.old).left ≡ take n buf.new ++ (outside_of self.new).left) }
        ensures end { IfOk result (λ n. n ≡ 0 → (outside_of self.old).left ≡ []) }
        ensures asked { OnOk result ((outside_of self.new).asked ≡ (outside_of self.old).asked ++ ((outside_of self.old).taken, length (outside_of self.old).said) ∷ []) }
        ensures err { OnErr result ((outside_of self.new).taken ≡ (outside_of self.old).taken) }
        ensures err_left { OnErr result ((outside_of self.new).left ≡ (outside_of self.old).left) }
        ensures err_asked { OnErr result ((outside_of self.new).asked ≡ (outside_of self.old).asked) }
        ensures rest { KeepsButInput (outside_of self.old) (outside_of self.new) }
        ensures stop { (c s : List ℕ) → MayStop self.new c s → MayStop self.old c s }
        ensures time { Passes (clock_of self.old) (clock_of self.new) (stopped_of self.old) (stopped_of self.new) }
        ensures clock { clock_of self.new ≡ clock_of self.old }
        ensures cause { OnErr result (RoseByOne (outside_of self.old).input_faults (outside_of self.new).input_faults) }
        ensures faultless { OnOk result (IsFaultless (outside_of self.old) (outside_of self.new)) }
        ensures called { IsCalled CallKind.Read (is_err result) self.old self.new }
        ensures behind { IfOk result (λ n. drop n buf.new ≡ drop n buf.old) }
        ensures err_buf { OnErr result (buf.new ≡ buf.old) }
        ensures listed_alone { is_next_listed CallKind.Read self.old ≡ true → starved_in self.new ≡ starved_in self.old }
    {
        if next_fails(&mut self.listed, CallKind::Read) {
            return Err(fault(&mut self.input_faults));
        }
        let Ok(()) = note_read(&mut self.asked, self.taken, self.said.len()) else {
            return Err(starve(&mut self.starved, &mut self.input_faults));
        };
        let count = buf.len().min(self.input.len() - self.place);
        buf[..count].copy_from_slice(&self.input[self.place..self.place + count]);
        self.place += count;
        self.taken = self.taken.saturating_add(count as u64);
        Ok(count)
    }

    fn size(&mut self) -> Result<u64, Failed>
        ensures size { IfOk result (λ n. n ≡ length (outside_of self.old).image) }
        ensures image { (outside_of self.new).image ≡ (outside_of self.old).image }
        ensures rest { KeepsButStore (outside_of self.old) (outside_of self.new) }
        ensures stop { (c s : List ℕ) → MayStop self.new c s → MayStop self.old c s }
        ensures time { Passes (clock_of self.old) (clock_of self.new) (stopped_of self.old) (stopped_of self.new) }
        ensures clock { clock_of self.new ≡ clock_of self.old }
        ensures cause { OnErr result (RoseByOne (outside_of self.old).store_faults (outside_of self.new).store_faults) }
        ensures faultless { OnOk result (IsFaultless (outside_of self.old) (outside_of self.new)) }
        ensures called { IsCalled CallKind.Size (is_err result) self.old self.new }
        ensures exactly { is_err result ≡ is_next_listed CallKind.Size self.old }
        ensures starved { starved_in self.new ≡ starved_in self.old }
    {
        if next_fails(&mut self.listed, CallKind::Size) {
            return Err(fault(&mut self.store_faults));
        }
        Ok(self.image.len() as u64)
    }

    fn read_at(&mut self, at: u64, buf: &mut [u8]) -> Result<(), Failed>
        requires { at + length buf.old ≤ length (outside_of self.old).image }
        ensures bytes { OnOk result (buf.new ≡ take (length buf.old) (drop at (outside_of self.old).image)) }
        ensures image { (outside_of self.new).image ≡ (outside_of self.old).image }
        ensures rest { KeepsButStore (outside_of self.old) (outside_of self.new) }
        ensures stop { (c s : List ℕ) → MayStop self.new c s → MayStop self.old c s }
        ensures time { Passes (clock_of self.old) (clock_of self.new) (stopped_of self.old) (stopped_of self.new) }
        ensures clock { clock_of self.new ≡ clock_of self.old }
        ensures cause { OnErr result (RoseByOne (outside_of self.old).store_faults (outside_of self.new).store_faults) }
        ensures faultless { OnOk result (IsFaultless (outside_of self.old) (outside_of self.new)) }
        ensures called { IsCalled CallKind.ReadAt (is_err result) self.old self.new }
        ensures err_buf { OnErr result (buf.new ≡ buf.old) }
        ensures exactly { is_err result ≡ is_next_listed CallKind.ReadAt self.old }
        ensures starved { starved_in self.new ≡ starved_in self.old }
    {
        if next_fails(&mut self.listed, CallKind::ReadAt) {
            return Err(fault(&mut self.store_faults));
        }
        let at = at as usize;
        buf.copy_from_slice(&self.image[at..at + buf.len()]);
        Ok(())
    }

    fn write_at(&mut self, at: u64, bytes: &[u8]) -> Result<(), Failed>
        requires { at ≤ length (outside_of self.old).image }
        ensures image { OnOk result ((outside_of self.new).image ≡ written (outside_of self.old).image at bytes.now) }
        ensures failed { OnErr result ((outside_of self.new).image ≡ (outside_of self.old).image) }
        ensures rest { KeepsButStore (outside_of self.old) (outside_of self.new) }
        ensures stop { (c s : List ℕ) → MayStop self.new c s → ((d : List ℕ) × MayStop self.old d s × Torn at (length bytes.now) d c) }
        ensures torn { FoundMemory self.old self.new → (d c s : List ℕ) → MayStop self.old d s → Torn at (length bytes.now) d c → MayStop self.new c s }
        ensures time { Passes (clock_of self.old) (clock_of self.new) (stopped_of self.old) (stopped_of self.new) }
        ensures cause { OnErr result (RoseByOne (outside_of self.old).store_faults (outside_of self.new).store_faults) }
        ensures starved { starved_in self.new ≢ starved_in self.old → clock_of self.new ≡ clock_of self.old }
        ensures faultless { OnOk result (IsFaultless (outside_of self.old) (outside_of self.new)) }
        ensures called { IsCalled CallKind.WriteAt (is_err result) self.old self.new }
    {
        let fails = next_fails(&mut self.listed, CallKind::WriteAt);
        let at = at as usize;
        let Ok(()) = prepare_write(
            self.alloc,
            &mut self.image,
            &mut self.steps,
            at,
            bytes.len(),
        ) else {
            return Err(starve(&mut self.starved, &mut self.store_faults));
        };
        if fails {
            return Err(fault(&mut self.store_faults));
        }
        write_over(&mut self.image, at, bytes);
        Ok(())
    }

    fn cut(&mut self, size: u64) -> Result<(), Failed>
        requires { size ≤ length (outside_of self.old).image }
        ensures image { OnOk result ((outside_of self.new).image ≡ take size (outside_of self.old).image) }
        ensures failed { OnErr result ((outside_of self.new).image ≡ (outside_of self.old).image) }
        ensures rest { KeepsButStore (outside_of self.old) (outside_of self.new) }
        ensures stop { (c s : List ℕ) → MayStop self.new c s → ((d : List ℕ) × MayStop self.old d s × Shortened size d c) }
        ensures shortened { FoundMemory self.old self.new → (d c s : List ℕ) → MayStop self.old d s → Shortened size d c → MayStop self.new c s }
        ensures time { Passes (clock_of self.old) (clock_of self.new) (stopped_of self.old) (stopped_of self.new) }
        ensures cause { OnErr result (RoseByOne (outside_of self.old).store_faults (outside_of self.new).store_faults) }
        ensures starved { starved_in self.new ≢ starved_in self.old → clock_of self.new ≡ clock_of self.old }
        ensures faultless { OnOk result (IsFaultless (outside_of self.old) (outside_of self.new)) }
        ensures called { IsCalled CallKind.Cut (is_err result) self.old self.new }
    {
        let fails = next_fails(&mut self.listed, CallKind::Cut);
        let size = size as usize;
        let Ok(()) = record_cut(self.alloc, &self.image, &mut self.steps, size) else {
            return Err(starve(&mut self.starved, &mut self.store_faults));
        };
        if fails {
            return Err(fault(&mut self.store_faults));
        }
        self.image.truncate(size);
        Ok(())
    }

    fn sync(&mut self) -> Result<(), Failed>
        ensures durable { OnOk result ((c s : List ℕ) → MayStop self.new c s → c ≡ (outside_of self.old).image) }
        ensures failed { OnErr result (clock_of self.new ≡ clock_of self.old) }
        ensures image { (outside_of self.new).image ≡ (outside_of self.old).image }
        ensures rest { KeepsButStore (outside_of self.old) (outside_of self.new) }
        ensures stop { (c s : List ℕ) → MayStop self.new c s → MayStop self.old c s }
        ensures time { Passes (clock_of self.old) (clock_of self.new) (stopped_of self.old) (stopped_of self.new) }
        ensures cause { OnErr result (RoseByOne (outside_of self.old).store_faults (outside_of self.new).store_faults) }
        ensures faultless { OnOk result (IsFaultless (outside_of self.old) (outside_of self.new)) }
        ensures called { IsCalled CallKind.Sync (is_err result) self.old self.new }
        ensures listed_alone { is_next_listed CallKind.Sync self.old ≡ true → starved_in self.new ≡ starved_in self.old }
    {
        if next_fails(&mut self.listed, CallKind::Sync) {
            return Err(fault(&mut self.store_faults));
        }
        let Ok(()) = record(&mut self.steps, Step::Synced) else {
            return Err(starve(&mut self.starved, &mut self.store_faults));
        };
        Ok(())
    }

    fn say(&mut self, bytes: &[u8]) -> Result<usize, Failed>
        requires { 0 < length bytes.now }
        ensures count { IfOk result (λ n. n ≡ min (length bytes.now) (most_said_in self.old)) }
        ensures some { IfOk result (λ n. 0 < n) }
        ensures most { IfOk result (λ n. n ≤ length bytes.now) }
        ensures said { IfOk result (λ n. (outside_of self.new).said ≡ (outside_of self.old).said ++ take n bytes.now) }
        ensures err { OnErr result ((outside_of self.new).said ≡ (outside_of self.old).said) }
        ensures rest { KeepsButSaid (outside_of self.old) (outside_of self.new) }
        ensures stop { (c s : List ℕ) → MayStop self.new c s → MayStop self.old c (outside_of self.old).said }
        ensures stays { (c s : List ℕ) → MayStop self.old c s → MayStop self.new c (outside_of self.new).said }
        ensures time { Passes (clock_of self.old) (clock_of self.new) (stopped_of self.old) (stopped_of self.new) }
        ensures cause { OnErr result (RoseByOne (outside_of self.old).sink_faults (outside_of self.new).sink_faults) }
        ensures faultless { OnOk result (IsFaultless (outside_of self.old) (outside_of self.new)) }
        ensures called { IsCalled CallKind.Say (is_err result) self.old self.new }
        ensures listed_alone { is_next_listed CallKind.Say self.old ≡ true → starved_in self.new ≡ starved_in self.old }
    {
        if next_fails(&mut self.listed, CallKind::Say) {
            return Err(fault(&mut self.sink_faults));
        }
        let count = bytes.len().min(self.most_said);
        let Ok(()) = prepare_say(&mut self.said, &mut self.steps, count) else {
            return Err(starve(&mut self.starved, &mut self.sink_faults));
        };
        append(&mut self.said, &bytes[..count]);
        Ok(count)
    }
}
