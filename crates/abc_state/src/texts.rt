//! Texts with conversions, piece by piece.
ghost use Rattle.std.specs.Prelude.{◌≡◌, ◌≤◌, ◌++◌, ◌&&◌, [], ℕ, length, true, IsTrue, IfOk, IfErr, OnOk};
ghost use Rattle.std.specs.List.{flat_map};
ghost use Rattle.abc_num.specs.Characters.{are_characters};
ghost use Rattle.abc_value.specs.Sizes.{IsMakingOf};
ghost use Rattle.abc_value.specs.Tree.{text};
ghost use Rattle.abc_value.specs.Printed.{outer};
ghost use Rattle.abc_meaning.specs.State.{State};
ghost use Rattle.abc_meaning.specs.Here.{Here};
ghost use Rattle.abc_meaning.specs.Value.{worded};
ghost use Rattle.abc_state.specs.Views.{wording_of, stretch_text};
ghost use Rattle.abc_state.specs.inner.Lengths.{IsPast};
ghost use Rattle.abc_state.specs.Words.{with_characters, with_conversion};
ghost use Rattle.abc_state.specs.Agrees.{Agrees};

use crate::halt::{Halt, halt_of};
use crate::values::{copied, has_type};
use abc_num::limits::{FIRST_CHARACTER, LAST_CHARACTER, MOST_ELEMENTS};
use abc_num::{Items, OutOfMemory, Text, characters_are_tested};
use abc_value::{PrintFault, Value, ValueFault, text_of};
use std::alloc::Global;

/// A stretch of a text. A conversion is kept by its value and not by the outer text of it: hundreds of conversions fit in a line,
/// each of a text longer than any value may have, and whether the text is too long is told only once all is evaluated.
#[derive(Drop)]
pub enum Stretch {
    Characters(Text),
    /// The outer text of this value.
    Outer(Value),
}

/// What was found of a text. It takes memory by its stretches, and values are shared; the text is made by `text`.
#[derive(Drop)]
pub struct Wording {
    pub stretches: Items<Stretch>,
    /// Whether all values whose outer texts stand in it have types.
    pub typed: bool,
}

impl Wording {
    /// Nothing was found yet.
    pub fn new(alloc: Global) -> Wording
        ensures { wording_of result ≡ record { characters = []; typed = true } }
    {
        Wording {
            stretches: Items::new(alloc),
            typed: true,
        }
    }

    /// With more characters.
    pub fn with_characters(self, characters: &Text) -> Result<Wording, OutOfMemory>
        ensures { IfOk result (λ w. wording_of w ≡ with_characters (wording_of self) characters.now) }
    {
        let Wording {
            mut stretches,
            typed,
        } = self;
        stretches.push(Stretch::Characters(characters.clone()?))?;
        Ok(Wording { stretches, typed })
    }

    /// With the outer text of a value.
    pub fn with_conversion(self, alloc: Global, value: &Value) -> Result<Wording, OutOfMemory>
        ensures { IfOk result (λ w. wording_of w ≡ with_conversion (wording_of self) value.now) }
    {
        let Wording {
            mut stretches,
            typed,
        } = self;
        let has_type = has_type(alloc, value)?;
        stretches.push(Stretch::Outer(copied(value)?))?;
        Ok(Wording {
            stretches,
            typed: both(typed, has_type),
        })
    }

    /// The text, once all is evaluated. While it is made, at most `MOST_ELEMENTS` characters stand in memory, and those of one outer
    /// text, however many the stretches have together.
    pub fn text(self, alloc: Global) -> Result<Value, Halt>
        ensures { (here : Here) (s : State) → Agrees (λ v. v) here.line result s (worded here (wording_of self) s) }
    {
        if !self.typed {
            return Err(Halt::Wrong);
        }
        if !all_are_characters(self.stretches.as_slice()) {
            return Err(Halt::Wrong);
        }
        match joined(alloc, self.stretches.as_slice()) {
            Ok(value) => Ok(value),
            Err(fault) => Err(halt_of(fault)),
        }
    }
}

fn both(a: bool, b: bool) -> bool
    ensures { result ≡ (a && b) }
{
    a && b
}

/// Whether all are characters of texts.
pub(crate) fn are_characters(bytes: &[u8]) -> bool
    ensures { result ≡ are_characters bytes.now }
{
    bytes
        .iter()
        .all(|byte| FIRST_CHARACTER <= *byte && *byte <= LAST_CHARACTER)
}

/// Whether the text of each stretch has characters of texts alone.
fn all_are_characters(stretches: &[Stretch]) -> bool
    ensures { result ≡ are_characters (flat_map stretch_text stretches.now) }
{
    for stretch in stretches {
        if !has_characters(stretch) {
            return false;
        }
    }
    true
}

/// Whether the text of a stretch has characters of texts alone. No outer text has others, and so none is made here.
fn has_characters(stretch: &Stretch) -> bool
    ensures { result ≡ are_characters (stretch_text stretch.now) }
{
    match stretch {
        Stretch::Characters(text) => are_characters(text.bytes()),
        Stretch::Outer(value) => outer_has_characters(value),
    }
}

fn outer_has_characters(value: &Value) -> bool
    ensures { result ≡ are_characters (outer value.now) }
{
    // The clause of the one tells that the texts within the value are characters, that of the other how this is computed.
    let _height = value.height();
    characters_are_tested();
    true
}

/// The text of all stretches.
fn joined(alloc: Global, stretches: &[Stretch]) -> Result<Value, ValueFault>
    requires { IsTrue (are_characters (flat_map stretch_text stretches.now)) }
    ensures value { IfOk result (λ v. v ≡ text (flat_map stretch_text stretches.now)) }
    ensures sizes { IsMakingOf (text (flat_map stretch_text stretches.now)) result }
{
    characters_are_tested();
    let bytes = bytes_of(alloc, stretches)?;
    Value::text(alloc, &bytes)
}

/// The bytes of all stretches, unless they are too many for a text.
fn bytes_of(alloc: Global, stretches: &[Stretch]) -> Result<Vec<u8>, ValueFault>
    ensures ok { IfOk result (λ all. all.items ≡ flat_map stretch_text stretches.now) }
    ensures fits { IfOk result (λ all. length all.items ≤ MOST_ELEMENTS) }
    ensures err { IfErr result (IsPast (flat_map stretch_text stretches.now)) }
{
    let mut all = Vec::new(alloc);
    for stretch in stretches {
        add_stretch(alloc, &mut all, stretch)?;
    }
    Ok(all)
}

/// Adds the text of a stretch.
fn add_stretch(alloc: Global, all: &mut Vec<u8>, stretch: &Stretch) -> Result<(), ValueFault>
    ensures ok { OnOk result (all.new.items ≡ all.old.items ++ stretch_text stretch.now) }
    ensures fits { OnOk result (length all.new.items ≤ MOST_ELEMENTS) }
    ensures err { IfErr result (IsPast (all.old.items ++ stretch_text stretch.now)) }
{
    match stretch {
        Stretch::Characters(text) => add_bytes(all, text.bytes()),
        Stretch::Outer(value) => add_outer(alloc, all, value),
    }
}

/// Adds the outer text of a value.
fn add_outer(alloc: Global, all: &mut Vec<u8>, value: &Value) -> Result<(), ValueFault>
    ensures ok { OnOk result (all.new.items ≡ all.old.items ++ outer value.now) }
    ensures fits { OnOk result (length all.new.items ≤ MOST_ELEMENTS) }
    ensures err { IfErr result (IsPast (all.old.items ++ outer value.now)) }
{
    match text_of(alloc, value, MOST_ELEMENTS) {
        Ok(bytes) => add_bytes(all, &bytes),
        Err(PrintFault::TooLong) => Err(ValueFault::TooLong),
        Err(PrintFault::Memory) => Err(ValueFault::Memory),
    }
}

/// Adds bytes, unless all are more than a text may have.
fn add_bytes(all: &mut Vec<u8>, bytes: &[u8]) -> Result<(), ValueFault>
    ensures ok { OnOk result (all.new.items ≡ all.old.items ++ bytes.now) }
    ensures fits { OnOk result (length all.new.items ≤ MOST_ELEMENTS) }
    ensures err { IfErr result (IsPast (all.old.items ++ bytes.now)) }
{
    if all.len() + bytes.len() > MOST_ELEMENTS {
        return Err(ValueFault::TooLong);
    }
    all.extend_from_slice(bytes)?;
    Ok(())
}
