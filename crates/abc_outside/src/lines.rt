//! The trait by which an item takes lines of the input that follow it.
ghost use Rattle.std.specs.Prelude.{◌≡◌, ◌≤◌, ◌⊎◌, ◌∷◌, ◌++◌, [], ℕ, List, IfOk, IfSome, IfNone, OnOk, IsErrOf};
ghost use Rattle.abc_outside.specs.Lines.{Unread, IsFirst, IsOver, IsWithinLine};
ghost use Rattle.abc_outside.specs.Outside.{RoseByOne};

use abc_num::RawLine;

/// Why there is no answer to what the next line is.
#[derive(Clone, Copy, Debug, PartialEq, Eq)]
pub enum LineStop {
    /// The input failed.
    Input,
    /// The bytes that may be taken are all taken, and another one is needed.
    Long,
    /// There was not enough memory.
    Memory,
}

/// The lines of an input, of which at most a bound of bytes is taken.
///
/// A reader that answered by an Err is not used again: bytes that it took stay taken.
pub trait Lines {
    /// The inputs that a reader may have.
    ghost Input: { Type 0 };

    /// Whether this may be its input: all that was read is the front of it.
    ghost may_be: { Input → Self → Type 0 };

    /// The bytes of such an input, up to the bound, that no line has used, and whether it ends behind them.
    ghost unread: { Input → Self → Unread };

    /// A call on the first reader failed for want of a byte, and left the second.
    ghost failed: { Self → Self → Type 0 };

    /// The count of the bytes that were taken from the input.
    ghost taken: { Self → ℕ };

    /// How many bytes may be taken.
    ghost bound: { Self → ℕ };

    /// The count of the faults of the input, which never falls and stays at 2^64 - 1.
    ghost faults: { Self → ℕ };

    /// What calls of `next` make of a reader: it reads the same input as before. The list has the readers on which
    /// they were made, in order. A reader that holds references says here that it holds the same ones, and what else
    /// its calls keep. So the caller of a function over any `Lines` knows again what it lent.
    ghost reads_on: { List Self → Self → Self → Type 0 };

    /// Takes the next line. None is the end of the input. What is told of the lines is told of each input that may
    /// still be the reader's.
    ///
    /// Errors: [`LineStop::Input`], and then the count of faults rose; [`LineStop::Long`] where as many bytes as
    /// the bound were taken and the next line does not end in them; [`LineStop::Memory`].
    fn next(&mut self) -> Result<Option<RawLine>, LineStop>
        ensures may_be { (input : Input) → may_be input self.new → may_be input self.old }
        ensures line { (input : Input) → may_be input self.new → IfOk result (λ next. IfSome next (λ line. IsFirst (unread input self.old) line (unread input self.new))) }
        ensures end { (input : Input) → may_be input self.new → IfOk result (λ next. IfNone next (IsOver (unread input self.old))) }
        ensures end_stays { (input : Input) → may_be input self.new → IfOk result (λ next. IfNone next (unread input self.new ≡ unread input self.old)) }
        ensures long { (input : Input) → may_be input self.new → IsErrOf result LineStop.Long → IsWithinLine (unread input self.old) }
        ensures failed { (IsErrOf result LineStop.Long ⊎ IsErrOf result LineStop.Input) → failed self.old self.new }
        ensures long_taken { IsErrOf result LineStop.Long → taken self.new ≡ bound self.new }
        ensures bound { bound self.new ≡ bound self.old }
        ensures taken { taken self.old ≤ taken self.new }
        ensures input { IsErrOf result LineStop.Input → RoseByOne (faults self.old) (faults self.new) }
        ensures faultless { OnOk result (faults self.new ≡ faults self.old) }
        ensures faultless_long { IsErrOf result LineStop.Long → faults self.new ≡ faults self.old }
        ensures faultless_memory { IsErrOf result LineStop.Memory → faults self.new ≡ faults self.old }
        ensures reads_on { reads_on (self.old ∷ []) self.old self.new };

    /// A reader that was not called reads on.
    ghost reads_on_at_once: { (lines : Self) → reads_on [] lines lines };

    /// Some calls, and then some more.
    ghost reads_on_later: { (xs ys : List Self) (first later last : Self) → reads_on xs first later → reads_on ys later last → reads_on (xs ++ ys) first last };
}
