//! The limits of the product. Each is the greatest that is allowed, unless its name says otherwise.
ghost use Rattle.abc_num.specs.Limits.{UnitsAreLimited, TreesAreLimited, ValuesAreLimited, RunsAreLimited};

/// Units of a workspace.
pub const MOST_UNITS: usize = 4_096;

/// Targets of a workspace.
pub const MOST_TARGETS: usize = 4_096;

/// Lines of an item.
pub const MOST_LINES: usize = 2_000;

/// Bytes of a line.
pub const MOST_LINE_BYTES: usize = 4_096;

/// Columns from one tab stop to the next.
pub const TAB_WIDTH: u32 = 8;

/// Names of a unit or of an immediate item.
pub const MOST_NAMES: usize = 1_000;

/// Formals of a unit.
pub const MOST_FORMALS: usize = 50;

/// Suites that are open at a command.
pub const MOST_SUITES: usize = 50;

/// Height of an expression or test.
pub const MOST_TREE_HEIGHT: u32 = 100;

/// Brackets and conversions that are open within an expression, test or address.
pub const MOST_BRACKETS: usize = 100;

/// The least code of a character of a text.
pub const FIRST_CHARACTER: u8 = 32;

/// The greatest code of a character of a text.
pub const LAST_CHARACTER: u8 = 126;

/// Characters, fields, elements or pairs of a value: 2^20.
pub const MOST_ELEMENTS: usize = 1_048_576;

/// Height of a value.
pub const MOST_VALUE_HEIGHT: u32 = 200;

/// Bytes of the spelling of a value: 2^28.
pub const MOST_WEIGHT: u64 = 268_435_456;

/// Bytes that an item writes: 2^24.
pub const MOST_OUTPUT: usize = 16_777_216;

/// Bytes of the spelling of an item's changes: 2^28.
pub const MOST_RECORD_BYTES: u64 = 268_435_456;

/// Depth of an evaluation.
pub const MOST_DEPTH: u32 = 1_000;

/// Variables of a unification: 2^32 - 1.
pub const MOST_VARIABLES: usize = 4_294_967_295;

/// The least budget of steps.
pub const LEAST_STEPS: u64 = 1;

/// The greatest budget of steps: 10^12.
pub const MOST_STEPS: u64 = 1_000_000_000_000;

/// The budget of steps where none is given.
pub const DEFAULT_STEPS: u64 = 10_000_000;

/// Bytes of the image of a store: 2^40.
pub const IMAGE_BOUND: u64 = 1_099_511_627_776;

/// Bytes of the input of a run: 2^40.
pub const INPUT_BOUND: u64 = 1_099_511_627_776;

/// Bytes of the live region of a store, its first payload among them, from which on a checkpoint is due: 2^20, and four times
/// that payload besides where a checkpoint wrote it.
pub const CHECKPOINT_BOUND: u64 = 1_048_576;

/// The least input that is made.
pub const LEAST_MADE: u32 = 1;

/// The greatest input that is made.
pub const MOST_MADE: u32 = 10_000;

/// The limits have these values.
pub fn limits_are_so()
    ensures units { UnitsAreLimited }
    ensures trees { TreesAreLimited }
    ensures values { ValuesAreLimited }
    ensures runs { RunsAreLimited }
{}
