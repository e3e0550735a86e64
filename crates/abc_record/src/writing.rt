//! Changes as bytes.
ghost use Rattle.std.specs.Prelude.{◌≡◌, ◌≢◌, ◌<◌, ◌^◌, ◌++◌, ◌∷◌, length, OnOk, IfOk};
ghost use Rattle.std.specs.List.{flat_map};
ghost use Rattle.std.specs.Int.{cast_unsigned};
ghost use Rattle.abc_value.specs.Parts.{kind_of, codes_of, parts_of, pairs_of};
ghost use Rattle.abc_value.specs.Sizes.{length_of};
ghost use Rattle.abc_record.specs.Bytes.{in_four, in_eight, in_sixteen, spelled_text};
ghost use Rattle.abc_record.specs.Spelling.{spelled_number, spelled_value, spelled_line, spelled_change, spelled};
ghost use Rattle.abc_record.specs.Kept.{AreKeptLines, IsKept, AreKept};
ghost use Rattle.abc_record.specs.inner.Writing.{spelled_pair};

use crate::bytes::HALF;
use crate::size::size_of;
use crate::{Change, tags};
use abc_num::{ItemLines, Line, Num, OutOfMemory};
use abc_value::{Kind, Value};
use std::alloc::{AllocError, Global};

/// The spelling of these changes, each of which has one: their count, and they one after the other. Its room is taken at once.
pub fn write_changes(alloc: Global, c: &[Change]) -> Result<Vec<u8>, OutOfMemory>
    requires kept { AreKept c.now }
    requires fits { length (spelled c.now) < 2 ^ 64 }
    ensures { IfOk result (λ bytes. bytes.items ≡ spelled c.now) }
{
    let mut bytes = Vec::with_capacity(alloc, size_of(c) as usize)?;
    push_four(&mut bytes, c.len() as u32)?;
    for change in c {
        push_change(&mut bytes, change)?;
    }
    Ok(bytes)
}

#[tactic(auto, unfolding(crate::specs::Spelling::spelled_change))]
fn push_change(bytes: &mut Vec<u8>, change: &Change) -> Result<(), AllocError>
    requires { IsKept change.now }
    ensures { OnOk result (bytes.new.items ≡ bytes.old.items ++ spelled_change change.now) }
{
    match change {
        Change::SetTarget { name, value } => {
            bytes.push(tags::SET_TARGET)?;
            push_text(bytes, name.bytes())?;
            push_value(bytes, value)
        }
        Change::DropTarget { name } => {
            bytes.push(tags::DROP_TARGET)?;
            push_text(bytes, name.bytes())
        }
        Change::SetUnit { lines } => {
            bytes.push(tags::SET_UNIT)?;
            push_lines(bytes, lines)
        }
        Change::DropUnit { template } => {
            bytes.push(tags::DROP_UNIT)?;
            push_text(bytes, template.bytes())
        }
    }
}

/// The count of the lines, and they.
fn push_lines(bytes: &mut Vec<u8>, lines: &ItemLines) -> Result<(), AllocError>
    requires { AreKeptLines lines.now }
    ensures { OnOk result (bytes.new.items ≡ bytes.old.items ++ in_four (length lines.now) ++ flat_map spelled_line lines.now) }
{
    push_four(bytes, lines.len() as u32)?;
    for line in lines.as_slice() {
        push_line(bytes, line)?;
    }
    Ok(())
}

fn push_line(bytes: &mut Vec<u8>, line: &Line) -> Result<(), AllocError>
    requires { length line.now.text < 2 ^ 32 }
    ensures { OnOk result (bytes.new.items ≡ bytes.old.items ++ spelled_line line.now) }
{
    push_four(bytes, line.indent)?;
    push_text(bytes, line.text.bytes())
}

/// A value. A text has no more characters, and a list no more elements, than four bytes can count.
#[cycle(push)]
fn push_value(bytes: &mut Vec<u8>, value: &Value) -> Result<(), AllocError>
    ensures { OnOk result (bytes.new.items ≡ bytes.old.items ++ spelled_value value.now) }
{
    match value.kind() {
        Kind::Number => push_number_value(bytes, value),
        Kind::Text => {
            bytes.push(tags::TEXT)?;
            push_text(bytes, value.codes())
        }
        Kind::Compound => {
            bytes.push(tags::COMPOUND)?;
            push_parts(bytes, value)
        }
        Kind::Empty => {
            bytes.push(tags::LIST)?;
            push_parts(bytes, value)
        }
        Kind::List => {
            bytes.push(tags::LIST)?;
            push_parts(bytes, value)
        }
        Kind::Table => {
            bytes.push(tags::TABLE)?;
            push_pairs(bytes, value)
        }
    }
}

/// The count of the parts, and they.
#[cycle(push)]
fn push_parts(bytes: &mut Vec<u8>, value: &Value) -> Result<(), AllocError>
    requires { length_of value.now ≡ length (parts_of value.now) }
    ensures { OnOk result (bytes.new.items ≡ bytes.old.items ++ in_four (length (parts_of value.now)) ++ flat_map spelled_value (parts_of value.now)) }
{
    push_four(bytes, value.len() as u32)?;
    for i in 0..value.len() {
        let Some(part) = value.part(i) else {
            unreachable!()
        };
        push_value(bytes, part)?;
    }
    Ok(())
}

/// The count of the pairs, and they, each key before its associate.
#[cycle(push)]
fn push_pairs(bytes: &mut Vec<u8>, value: &Value) -> Result<(), AllocError>
    requires { length_of value.now ≡ length (pairs_of value.now) }
    ensures { OnOk result (bytes.new.items ≡ bytes.old.items ++ in_four (length (pairs_of value.now)) ++ flat_map spelled_pair (pairs_of value.now)) }
{
    push_four(bytes, value.len() as u32)?;
    for i in 0..value.len() {
        let Some(key) = value.key(i) else {
            unreachable!()
        };
        let Some(associate) = value.part(i) else {
            unreachable!()
        };
        push_value(bytes, key)?;
        push_value(bytes, associate)?;
    }
    Ok(())
}

/// A number, of a value that is one.
fn push_number_value(bytes: &mut Vec<u8>, value: &Value) -> Result<(), AllocError>
    requires { kind_of value.now ≡ Kind.Number }
    ensures { OnOk result (bytes.new.items ≡ bytes.old.items ++ spelled_value value.now) }
{
    let Some(number) = value.as_number() else {
        unreachable!()
    };
    push_number(bytes, number)
}

#[tactic(auto, unfolding(crate::specs::Spelling::spelled_number))]
fn push_number(bytes: &mut Vec<u8>, number: &Num) -> Result<(), AllocError>
    ensures { OnOk result (bytes.new.items ≡ bytes.old.items ++ spelled_number number.now) }
{
    match number.to_whole() {
        Some(whole) => {
            bytes.push(tags::WHOLE)?;
            push_sixteen(bytes, whole.cast_unsigned())
        }
        None => {
            let (top, bottom) = parts_of(number);
            bytes.push(tags::FRACTION)?;
            push_eight(bytes, top.cast_unsigned())?;
            push_eight(bytes, bottom)
        }
    }
}

/// The numerator and the denominator of a number that isn't whole.
fn parts_of(number: &Num) -> (i64, u64)
    requires { number.now.denominator ≢ 1 }
    ensures top { result.0 ≡ number.now.numerator }
    ensures bottom { result.1 ≡ number.now.denominator }
{
    let _whole = number.to_whole();
    let Some(top) = number.numerator().to_whole() else {
        unreachable!()
    };
    let Some(bottom) = number.denominator().to_whole() else {
        unreachable!()
    };
    (top as i64, bottom as u64)
}

#[tactic(auto, unfolding(crate::specs::Bytes::in_four))]
fn push_four(bytes: &mut Vec<u8>, number: u32) -> Result<(), AllocError>
    ensures { OnOk result (bytes.new.items ≡ bytes.old.items ++ in_four number) }
{
    Ok(bytes.extend_from_slice(&number.to_be_bytes())?)
}

#[tactic(auto, unfolding(crate::specs::Bytes::in_eight))]
fn push_eight(bytes: &mut Vec<u8>, number: u64) -> Result<(), AllocError>
    ensures { OnOk result (bytes.new.items ≡ bytes.old.items ++ in_eight number) }
{
    Ok(bytes.extend_from_slice(&number.to_be_bytes())?)
}

#[tactic(auto, unfolding(crate::specs::Bytes::in_sixteen))]
fn push_sixteen(bytes: &mut Vec<u8>, number: u128) -> Result<(), AllocError>
    ensures { OnOk result (bytes.new.items ≡ bytes.old.items ++ in_sixteen number) }
{
    push_eight(bytes, (number / HALF) as u64)?;
    push_eight(bytes, (number % HALF) as u64)
}

#[tactic(auto, unfolding(crate::specs::Bytes::spelled_text))]
fn push_text(bytes: &mut Vec<u8>, text: &[u8]) -> Result<(), AllocError>
    requires { length text.now < 2 ^ 32 }
    ensures { OnOk result (bytes.new.items ≡ bytes.old.items ++ spelled_text text.now) }
{
    push_four(bytes, text.len() as u32)?;
    Ok(bytes.extend_from_slice(text)?)
}
