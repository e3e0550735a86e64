//! Lines that READ takes, and the values that they spell.
ghost use Rattle.std.specs.Prelude.{◌≡◌, ◌≤◌, ◌⊎◌, ℕ, Some, None, false, length, IfOk, IfErr, IsErrOf};
ghost use Rattle.abc_value.specs.Forms.{form_of};
ghost use Rattle.abc_print.specs.Computed.{literal_of};
ghost use Rattle.abc_value.specs.declared.faults.RunFault.TheVariants.{Memory, BadInput};
ghost use Rattle.abc_state.specs.declared.halt.Halt.TheVariants.{Fault};
ghost use Rattle.abc_num.specs.declared.limits.TheConstants.{MOST_LINE_BYTES};
ghost use Rattle.abc_outside.specs.Outside.{RoseByOne};
ghost use Rattle.abc_outside.specs.Lines.{Called, Failed};
ghost use Rattle.abc_meaning.specs.State.{State};
ghost use Rattle.abc_meaning.specs.Here.{Here};
ghost use Rattle.abc_meaning.specs.Fits.{agree, example_form};
ghost use Rattle.abc_meaning.specs.Reading.{take_line, raw_value, literal_value};
ghost use Rattle.abc_state.specs.Agrees.{Agrees};
ghost use Rattle.abc_state.specs.Reads.{Reads};
ghost use Rattle.abc_state.specs.Words.{with_lines};

use crate::examples::example_shape;
use crate::halt::Halt;
use crate::texts::are_characters;
use abc_num::limits::MOST_LINE_BYTES;
use abc_num::{OutOfMemory, RawLine, characters_are_tested};
use abc_outside::{LineStop, Lines, lines_are_in_order};
use abc_print::{LiteralFault, displays_read_back, read_literal_line};
use abc_tree::Expr;
use abc_value::{RunFault, Shape, Value};
use std::alloc::Global;

/// Why no line is taken.
#[derive(Clone, Copy, PartialEq, Eq, Debug)]
pub enum LineHalt {
    /// The input ends, or there was not enough memory.
    Fault(RunFault),
    /// As many bytes of the input as may be were taken, and the next line does not end in them.
    Long,
    /// The input failed.
    Input,
}

/// Takes the next line of the input.
pub fn take_line<L: Lines>(lines: &mut L) -> Result<RawLine, LineHalt>
    ensures may_be { (input : L.Input) → L.may_be input lines.new → L.may_be input lines.old }
    ensures agrees { (input : L.Input) → L.may_be input lines.new → (here : Here) (s : State) → Reads here.line result (with_lines (L.unread input lines.old) s) (with_lines (L.unread input lines.new) s) (take_line here (with_lines (L.unread input lines.old) s)) }
    ensures short { (input : L.Input) → L.may_be input lines.new → IfOk result (λ line. length line.bytes ≤ MOST_LINE_BYTES) }
    ensures calls { Called L.reads_on (λ l. l ≡ lines.old) lines.old lines.new }
    ensures failed { (IsErrOf result LineHalt.Long ⊎ IsErrOf result LineHalt.Input) → Failed L.failed (λ l. l ≡ lines.old) lines.new }
    ensures bound { L.bound lines.new ≡ L.bound lines.old }
    ensures taken { L.taken lines.old ≤ L.taken lines.new }
    ensures long { IsErrOf result LineHalt.Long → L.taken lines.new ≡ L.bound lines.new }
    ensures input { IsErrOf result LineHalt.Input → RoseByOne (L.faults lines.old) (L.faults lines.new) }
    ensures faultless { ¬ (IsErrOf result LineHalt.Input) → L.faults lines.new ≡ L.faults lines.old }
{
    lines_are_in_order();
    match lines.next() {
        Ok(Some(line)) => Ok(line),
        Ok(None) => Err(LineHalt::Fault(RunFault::NoInput)),
        Err(LineStop::Input) => Err(LineHalt::Input),
        Err(LineStop::Long) => Err(LineHalt::Long),
        Err(LineStop::Memory) => Err(LineHalt::Fault(RunFault::Memory)),
    }
}

/// The line as a text.
pub fn raw_value(alloc: Global, line: &RawLine) -> Result<Value, Halt>
    ensures { length line.now.bytes ≤ MOST_LINE_BYTES → (here : Here) (s : State) → Agrees (λ v. v) here.line result s (raw_value here line.now s) }
{
    if is_long(line) {
        return Err(Halt::Fault(RunFault::BadInput));
    }
    characters_are_tested();
    if !are_characters(line.bytes.bytes()) {
        return Err(Halt::Fault(RunFault::BadInput));
    }
    match Value::text(alloc, line.bytes.bytes()) {
        Ok(value) => Ok(value),
        // A text of no more bytes than a line has is never too long, so there was not enough memory.
        Err(_) => Err(Halt::Fault(RunFault::Memory)),
    }
}

/// Whether the line has more bytes than a line may have.
fn is_long(line: &RawLine) -> bool
    ensures long { length line.now.bytes ≤ MOST_LINE_BYTES → result ≡ line.now.long }
    ensures short { result ≡ false → length line.now.bytes ≤ MOST_LINE_BYTES }
{
    if line.bytes.bytes().len() > MOST_LINE_BYTES {
        return true;
    }
    line.long
}

/// The value that the line spells, if it has the type of the example.
pub fn literal_value(alloc: Global, example: &Expr, line: &RawLine) -> Result<Value, Halt>
    ensures { length line.now.bytes ≤ MOST_LINE_BYTES → (here : Here) (s : State) → Agrees (λ v. v) here.line result s (literal_value here (example_form example.now) line.now s) }
{
    if is_long(line) {
        return Err(Halt::Fault(RunFault::BadInput));
    }
    let shape = example_shape(alloc, example)?;
    let value = spelled(alloc, line.bytes.bytes())?;
    if !has_shape(alloc, &value, shape)? {
        return Err(Halt::Fault(RunFault::BadInput));
    }
    Ok(value)
}

/// The value that a line spells.
fn spelled(alloc: Global, bytes: &[u8]) -> Result<Value, Halt>
    requires { length bytes.now ≤ MOST_LINE_BYTES }
    ensures ok { IfOk result (λ v. literal_of bytes.now ≡ Some v) }
    ensures err { IfErr result (λ h. h ≡ Fault Memory ⊎ ((h ≡ Fault BadInput) × (literal_of bytes.now ≡ None))) }
{
    displays_read_back();
    match read_literal_line(alloc, bytes) {
        Ok(value) => Ok(value),
        Err(LiteralFault::BadInput) => Err(Halt::Fault(RunFault::BadInput)),
        Err(LiteralFault::Memory) => Err(Halt::Fault(RunFault::Memory)),
    }
}

/// Whether some type of a value is of a shape.
fn has_shape(alloc: Global, value: &Value, shape: Option<Shape>) -> Result<bool, OutOfMemory>
    ensures { IfOk result (λ b. b ≡ agree (form_of value.now) shape) }
{
    let Some(wanted) = shape else {
        return Ok(false);
    };
    let Some(shape) = Shape::of(alloc, value)? else {
        return Ok(false);
    };
    Ok(shape.join(alloc, &wanted)?.is_some())
}
