//! What the words of the program ask for, and why they ask for nothing.
use std::alloc::AllocError;

/// What the words ask for.
#[derive(Clone, Copy, PartialEq, Eq, Debug)]
pub enum Request<'a> {
    /// A run on the store of this name.
    Run {
        store: &'a str,
        /// The file that the input is read from; standard input where there is none.
        input: Option<&'a str>,
        /// How many steps an item may take, from 1 to 10^12.
        steps: u64,
    },
    /// A run on a made input.
    Make {
        /// How many values the input puts, from 1 to 10,000.
        count: u64,
        /// How many steps an item may take, from 1 to 10^12.
        steps: u64,
    },
}

/// Why words ask for nothing.
#[derive(Clone, Copy, PartialEq, Eq, Debug)]
pub enum WordsFault {
    /// They are no words of the program.
    Usage,
    /// There was not enough memory.
    Memory,
}

impl From<AllocError> for WordsFault {
    ghost use Rattle.std.specs.Prelude.{◌≡◌};
    ghost use Rattle.abc_words.specs.declared.requests.WordsFault.TheVariants.{Memory};

    ghost from_gives = { λ _ f. f ≡ Memory };

    fn from(_refused: AllocError) -> WordsFault {
        WordsFault::Memory
    }
}
