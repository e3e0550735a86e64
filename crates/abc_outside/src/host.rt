//! The trait that the whole product runs over, and the faults of its calls.
ghost use Rattle.std.specs.Prelude.{◌≡◌, ◌≤◌, ◌<◌, ◌+◌, ◌-◌, ◌^◌, ◌++◌, [], ◌∷◌, List, ℕ, option_map, length, take, drop, min, IfOk, OnOk, OnErr, IsSome, IsErrOf};
ghost use Rattle.abc_outside.specs.Outside.{Outside, RoseByOne, IsFaultless, KeepsButStore, KeepsButInput, KeepsButSaid, KeepsButChoice};
ghost use Rattle.abc_outside.specs.Stop.{written, Torn, Shortened, Passes};

/// A call of the host failed; its count of faults rose.
#[derive(Clone, Copy, Debug, PartialEq, Eq)]
pub struct Failed;

/// What could not be opened.
#[derive(Clone, Copy, Debug, PartialEq, Eq)]
pub enum ChooseFault {
    Store,
    Input,
}

/// The world outside: a store of bytes that outlives a stop, an input, and a sink that takes what is
/// said.
///
/// Contracts see it by `now` as an `Outside` (specs/Outside.antt). A host need not tell all of
/// it: a clause on what stands in the store, the input or the sink holds where its flag says that
/// the host tells it. What a stop of the machine may leave is told by `stopped`, which relates an
/// image of the store to the bytes that were said.
///
/// Three counts of faults never fall and stay at 2^64 - 1. A call that answers Err raises one of
/// them by one, a call that answers Ok none.
pub trait Host {
    /// Whether the host tells what was chosen.
    ghost tells_chosen: { Type 0 };

    /// Whether the host tells what stands in the store.
    ghost tells_image: { Type 0 };

    /// Whether the host tells what is still to read.
    ghost tells_input: { Type 0 };

    /// Whether the host tells what was said, and when it was asked for input.
    ghost tells_said: { Type 0 };

    /// What the host tells of the world outside.
    ghost now: { Self → Outside };

    /// A number that does not fall: a moment of the host's life.
    ghost clock: { Self → ℕ };

    /// Which image with which said bytes a stop at some moment since that one may leave.
    ghost stopped: { Self → ℕ → List ℕ → List ℕ → Type 0 };

    /// Opens the store `store` and the input `input`, to be used from now on. Without a name the input
    /// is standard input. A store that is not there is made empty.
    ///
    /// Errors: [`ChooseFault::Input`] only where an input is named and it could not be opened;
    /// [`ChooseFault::Store`] where the store could not, or where store, input and output can't be used
    /// together. Then what was chosen before stays.
    fn choose(&mut self, store: &str, input: Option<&str>) -> Result<(), ChooseFault>
        ensures chosen { tells_chosen → OnOk result ((now self.new).chosen ≡ (now self.old).chosen ++ (store.now, option_map (λ name. name.now) input.entry) ∷ []) }
        ensures taken { OnOk result ((now self.new).taken ≡ 0) }
        ensures refused { OnErr result ((now self.new).chosen ≡ (now self.old).chosen) }
        ensures refused_taken { OnErr result ((now self.new).taken ≡ (now self.old).taken) }
        ensures rest { KeepsButChoice (now self.old) (now self.new) }
        ensures stop { (c s : List ℕ) → stopped self.new (clock self.new) c s → stopped self.old (clock self.old) c s }
        ensures time { Passes (clock self.old) (clock self.new) (stopped self.old) (stopped self.new) }
        ensures store_cause { IsErrOf result ChooseFault.Store → RoseByOne (now self.old).store_faults (now self.new).store_faults }
        ensures input_cause { IsErrOf result ChooseFault.Input → RoseByOne (now self.old).input_faults (now self.new).input_faults }
        ensures input_named { IsErrOf result ChooseFault.Input → IsSome input.entry }
        ensures store_cause_alone { IsErrOf result ChooseFault.Store → (now self.new).input_faults ≡ (now self.old).input_faults }
        ensures input_cause_alone { IsErrOf result ChooseFault.Input → (now self.new).store_faults ≡ (now self.old).store_faults }
        ensures faultless { OnOk result (IsFaultless (now self.old) (now self.new)) };

    /// Reads the next bytes of the input into the front of `buf`, which is not empty, and answers how
    /// many there are. 0 is the end of the input. The count of the bytes taken stays at 2^64 - 1.
    ///
    /// Errors: [`Failed`]; then nothing was taken.
    fn read(&mut self, buf: &mut [u8]) -> Result<usize, Failed>
        requires { 0 < length buf.old }
        ensures most { IfOk result (λ n. n ≤ length buf.old) }
        ensures taken { IfOk result (λ n. (now self.new).taken ≡ min ((now self.old).taken + n) (2 ^ 64 - 1)) }
        ensures bytes { tells_input → IfOk result (λ n. (now self.old).left ≡ take n buf.new ++ (now self.new).left) }
        ensures end { tells_input → IfOk result (λ n. n ≡ 0 → (now self.old).left ≡ []) }
        ensures asked { tells_said → OnOk result ((now self.new).asked ≡ (now self.old).asked ++ ((now self.old).taken, length (now self.old).said) ∷ []) }
        ensures err { OnErr result ((now self.new).taken ≡ (now self.old).taken) }
        ensures err_left { OnErr result ((now self.new).left ≡ (now self.old).left) }
        ensures err_asked { OnErr result ((now self.new).asked ≡ (now self.old).asked) }
        ensures rest { KeepsButInput (now self.old) (now self.new) }
        ensures stop { (c s : List ℕ) → stopped self.new (clock self.new) c s → stopped self.old (clock self.old) c s }
        ensures time { Passes (clock self.old) (clock self.new) (stopped self.old) (stopped self.new) }
        ensures cause { OnErr result (RoseByOne (now self.old).input_faults (now self.new).input_faults) }
        ensures faultless { OnOk result (IsFaultless (now self.old) (now self.new)) };

    /// The size of the store in bytes.
    ///
    /// Errors: [`Failed`].
    fn size(&mut self) -> Result<u64, Failed>
        ensures size { tells_image → IfOk result (λ n. n ≡ length (now self.old).image) }
        ensures image { (now self.new).image ≡ (now self.old).image }
        ensures rest { KeepsButStore (now self.old) (now self.new) }
        ensures stop { (c s : List ℕ) → stopped self.new (clock self.new) c s → stopped self.old (clock self.old) c s }
        ensures time { Passes (clock self.old) (clock self.new) (stopped self.old) (stopped self.new) }
        ensures cause { OnErr result (RoseByOne (now self.old).store_faults (now self.new).store_faults) }
        ensures faultless { OnOk result (IsFaultless (now self.old) (now self.new)) };

    /// Fills `buf` with the bytes of the store from the place `at` on, all of which lie within it.
    ///
    /// Errors: [`Failed`].
    fn read_at(&mut self, at: u64, buf: &mut [u8]) -> Result<(), Failed>
        requires { tells_image → at + length buf.old ≤ length (now self.old).image }
        ensures bytes { tells_image → OnOk result (buf.new ≡ take (length buf.old) (drop at (now self.old).image)) }
        ensures image { (now self.new).image ≡ (now self.old).image }
        ensures rest { KeepsButStore (now self.old) (now self.new) }
        ensures stop { (c s : List ℕ) → stopped self.new (clock self.new) c s → stopped self.old (clock self.old) c s }
        ensures time { Passes (clock self.old) (clock self.new) (stopped self.old) (stopped self.new) }
        ensures cause { OnErr result (RoseByOne (now self.old).store_faults (now self.new).store_faults) }
        ensures faultless { OnOk result (IsFaultless (now self.old) (now self.new)) };

    /// Writes `bytes` at the place `at`, which is at most the size. What goes past the end extends the
    /// store. Until a sync a stop may leave any bytes in the range that was written, and any size
    /// between.
    ///
    /// Errors: [`Failed`]; then any part of the write may have been made. What the store reads as is one of the
    /// images that a stop may leave, by `stop` and `reads_now`; no clause of its own says so.
    fn write_at(&mut self, at: u64, bytes: &[u8]) -> Result<(), Failed>
        requires { tells_image → at ≤ length (now self.old).image }
        ensures image { tells_image → OnOk result ((now self.new).image ≡ written (now self.old).image at bytes.now) }
        ensures rest { KeepsButStore (now self.old) (now self.new) }
        ensures stop { (c s : List ℕ) → stopped self.new (clock self.new) c s
            → ((d : List ℕ) × stopped self.old (clock self.old) d s × Torn at (length bytes.now) d c) }
        ensures time { Passes (clock self.old) (clock self.new) (stopped self.old) (stopped self.new) }
        ensures cause { OnErr result (RoseByOne (now self.old).store_faults (now self.new).store_faults) }
        ensures faultless { OnOk result (IsFaultless (now self.old) (now self.new)) };

    /// Cuts the store to its first `size` bytes, which are no more than it has. Until a sync a stop may
    /// leave any size between, with any bytes past the cut.
    ///
    /// Errors: [`Failed`]; then the store may be cut or not, as after a write that failed.
    fn cut(&mut self, size: u64) -> Result<(), Failed>
        requires { tells_image → size ≤ length (now self.old).image }
        ensures image { tells_image → OnOk result ((now self.new).image ≡ take size (now self.old).image) }
        ensures rest { KeepsButStore (now self.old) (now self.new) }
        ensures stop { (c s : List ℕ) → stopped self.new (clock self.new) c s
            → ((d : List ℕ) × stopped self.old (clock self.old) d s × Shortened size d c) }
        ensures time { Passes (clock self.old) (clock self.new) (stopped self.old) (stopped self.new) }
        ensures cause { OnErr result (RoseByOne (now self.old).store_faults (now self.new).store_faults) }
        ensures faultless { OnOk result (IsFaultless (now self.old) (now self.new)) };

    /// Makes the store durable: afterwards a stop leaves it as it reads.
    ///
    /// Errors: [`Failed`]; then nothing is promised of what was written.
    fn sync(&mut self) -> Result<(), Failed>
        ensures durable { OnOk result ((c s : List ℕ) → stopped self.new (clock self.new) c s → c ≡ (now self.old).image) }
        ensures image { (now self.new).image ≡ (now self.old).image }
        ensures rest { KeepsButStore (now self.old) (now self.new) }
        ensures stop { (c s : List ℕ) → stopped self.new (clock self.new) c s → stopped self.old (clock self.old) c s }
        ensures time { Passes (clock self.old) (clock self.new) (stopped self.old) (stopped self.new) }
        ensures cause { OnErr result (RoseByOne (now self.old).store_faults (now self.new).store_faults) }
        ensures faultless { OnOk result (IsFaultless (now self.old) (now self.new)) };

    /// Says first bytes of `bytes`, which is not empty, and answers how many: at least one.
    ///
    /// Errors: [`Failed`]; then nothing was said.
    fn say(&mut self, bytes: &[u8]) -> Result<usize, Failed>
        requires { 0 < length bytes.now }
        ensures some { IfOk result (λ n. 0 < n) }
        ensures most { IfOk result (λ n. n ≤ length bytes.now) }
        ensures said { tells_said → IfOk result (λ n. (now self.new).said ≡ (now self.old).said ++ take n bytes.now) }
        ensures err { OnErr result ((now self.new).said ≡ (now self.old).said) }
        ensures rest { KeepsButSaid (now self.old) (now self.new) }
        ensures stop { (c s : List ℕ) → stopped self.new (clock self.new) c s → stopped self.old (clock self.old) c (now self.old).said }
        ensures time { Passes (clock self.old) (clock self.new) (stopped self.old) (stopped self.new) }
        ensures cause { OnErr result (RoseByOne (now self.old).sink_faults (now self.new).sink_faults) }
        ensures faultless { OnOk result (IsFaultless (now self.old) (now self.new)) };

    /// A stop since a later moment is one since an earlier moment too.
    ghost since: { (host : Self) (earlier later : ℕ) (c s : List ℕ) → earlier ≤ later → stopped host later c s → stopped host earlier c s };

    /// A stop at a moment leaves the bytes that were said until then. This stands under no flag: a host that
    /// does not tell what was said tells no stop.
    ghost says_now: { (host : Self) (c s : List ℕ) → stopped host (clock host) c s → s ≡ (now host).said };

    /// The image as it reads, with what was said, is one of the stops of its moment.
    ghost reads_now: { (host : Self) → tells_image → tells_said → stopped host (clock host) (now host).image (now host).said };
}
