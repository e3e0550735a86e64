//! The marks of a search, which are 0 at its beginning without being cleared.
ghost use Rattle.std.specs.Prelude.{◌≡◌, ℕ, ◌<◌, ◌≤◌, ◌^◌, [], length, slice_index, slice_set, IfOk};
ghost use Rattle.std.specs.List.{All};

use std::alloc::{AllocError, Global};
use std::marker::Model;

/// Past this base all stamps are cleared once.
const LAST_BASE: usize = 1 << 62;

/// A mark for each variable. What is kept is its stamp: the mark above the base of the search that set it. The next search
/// has the last stamp as its base, so that all older marks count as 0.
#[derive(Drop)]
pub struct Marks {
    stamps: Vec<usize>,
    base: usize,
    last: usize,
}

impl Model for Marks {
    ghost use Rattle.std.specs.Prelude.{ℕ, List};
    ghost use Rattle.std.specs.Coded.{coded_ℕ, coded_list};
    ghost use Rattle.abc_unify.specs.inner.Stamps.{IsStamped, marks_of};

    ghost Value = { List ℕ };

    ghost coded = { coded_list coded_ℕ };

    ghost view = { λ m. marks_of m.base m.stamps.items };

    ghost invariant = { λ m. IsStamped m.base m.last m.stamps.items };
}

impl Marks {
    /// No marks.
    pub fn new(alloc: Global) -> Marks
        ensures { result ≡ [] }
    {
        Marks {
            stamps: Vec::new(alloc),
            base: 0,
            last: 0,
        }
    }

    /// Begins a search among so many variables. It takes time only for variables that no search has met.
    pub fn begin(&mut self, count: usize) -> Result<(), AllocError>
        ensures count { IfOk result (λ _. length self.new ≡ count) }
        ensures none { IfOk result (λ _. (i : ℕ) → slice_index self.new i ≡ 0) }
    {
        let base = next_base(&mut self.stamps, self.last);
        self.base = base;
        self.last = base;
        self.stamps.truncate(count);
        fill(&mut self.stamps, count)?;
        Ok(())
    }

    /// The mark of a variable.
    pub fn get(&self, at: usize) -> usize
        requires { at < length self.now }
        ensures { result ≡ slice_index self.now at }
    {
        self.stamps[at].saturating_sub(self.base)
    }

    /// Marks a variable.
    pub fn set(&mut self, at: usize, mark: usize)
        requires at { at < length self.old }
        requires mark { mark ≤ 2 ^ 40 }
        ensures { self.new ≡ slice_set self.old at mark }
    {
        let stamp = self.base + mark;
        self.stamps[at] = stamp;
        self.last = self.last.max(stamp);
    }
}

/// The base of the next search, at or above all stamps.
fn next_base(stamps: &mut Vec<usize>, last: usize) -> usize
    requires { All (λ s. s ≤ last) stamps.old.items }
    ensures below { All (λ s. s ≤ result) stamps.new.items }
    ensures few { result ≤ 2 ^ 62 }
{
    if last > LAST_BASE {
        stamps.clear();
        return 0;
    }
    last
}

/// Adds stamps of 0 up to this count.
fn fill(stamps: &mut Vec<usize>, count: usize) -> Result<(), AllocError>
    requires { length stamps.old.items ≤ count }
    ensures count { IfOk result (λ _. length stamps.new.items ≡ count) }
    ensures below { (last : ℕ) → All (λ s. s ≤ last) stamps.old.items → All (λ s. s ≤ last) stamps.new.items }
{
    for _ in stamps.len()..count {
        stamps.push(0)?;
    }
    Ok(())
}
