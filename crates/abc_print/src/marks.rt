//! Signs where they stand in a literal.
ghost use Rattle.abc_print.specs.inner.Machine.{Steps, emptied, first_key, later_key, at_part, at_bracket, at_colon, with_field, with_entry, closed, unbracketed, unbraced, behind, at_mark};

use crate::LiteralFault;
use crate::frames::{Frame, Mark, Turn};
use crate::making::{fields_value, list_value, table_value};
use abc_num::{Items, Stack};
use abc_value::Value;
use std::alloc::Global;

/// The sign at this turn.
pub(crate) fn at_mark(
    alloc: Global,
    stack: &mut Stack<Frame>,
    mark: Mark,
    turn: Turn,
) -> Result<Turn, LiteralFault>
    ensures { Steps (λ next. at_mark mark next stack.old turn) result stack.new }
{
    match turn {
        Turn::Part => at_part(alloc, stack, mark),
        Turn::Bracket => at_bracket(alloc, stack, mark),
        Turn::Colon => at_colon(stack, mark),
        Turn::Behind(last) => behind(alloc, stack, mark, last),
    }
}

/// Where a part may begin.
fn at_part(alloc: Global, stack: &mut Stack<Frame>, mark: Mark) -> Result<Turn, LiteralFault>
    ensures { Steps (λ next. at_part mark next stack.old) result stack.new }
{
    match mark {
        Mark::Open => {
            stack.push(Frame::Round(Items::new(alloc)))?;
            Ok(Turn::Part)
        }
        Mark::Brace => {
            stack.push(Frame::Elements(Items::new(alloc)))?;
            Ok(Turn::Part)
        }
        Mark::Unbrace => emptied(alloc, stack),
        Mark::Bracket => first_key(alloc, stack),
        _ => Err(LiteralFault::BadInput),
    }
}

/// `{}`.
fn emptied(alloc: Global, stack: &mut Stack<Frame>) -> Result<Turn, LiteralFault>
    ensures { Steps (λ next. emptied next stack.old) result stack.new }
{
    match stack.pop() {
        Some(Frame::Elements(elements)) => {
            if !elements.is_empty() {
                return Err(LiteralFault::BadInput);
            }
            Ok(Turn::Behind(Value::empty(alloc)))
        }
        _ => Err(LiteralFault::BadInput),
    }
}

/// `{` and the bracket of a key.
fn first_key(alloc: Global, stack: &mut Stack<Frame>) -> Result<Turn, LiteralFault>
    ensures { Steps (λ next. first_key next stack.old) result stack.new }
{
    match stack.pop() {
        Some(Frame::Elements(elements)) => {
            if !elements.is_empty() {
                return Err(LiteralFault::BadInput);
            }
            stack.push(Frame::Key(Items::new(alloc), Items::new(alloc)))?;
            Ok(Turn::Part)
        }
        _ => Err(LiteralFault::BadInput),
    }
}

/// Where a further key has to begin.
fn at_bracket(alloc: Global, stack: &mut Stack<Frame>, mark: Mark) -> Result<Turn, LiteralFault>
    ensures { Steps (λ next. at_bracket mark next stack.old) result stack.new }
{
    match mark {
        Mark::Bracket => later_key(alloc, stack),
        _ => Err(LiteralFault::BadInput),
    }
}

fn later_key(alloc: Global, stack: &mut Stack<Frame>) -> Result<Turn, LiteralFault>
    ensures { Steps (λ next. later_key next stack.old) result stack.new }
{
    match stack.pop() {
        Some(Frame::Pairs(pairs)) => {
            stack.push(Frame::Key(pairs, Items::new(alloc)))?;
            Ok(Turn::Part)
        }
        _ => Err(LiteralFault::BadInput),
    }
}

/// Behind a key.
fn at_colon(stack: &mut Stack<Frame>, mark: Mark) -> Result<Turn, LiteralFault>
    ensures { Steps (λ next. at_colon mark next stack.old) result stack.new }
{
    match mark {
        Mark::Colon => Ok(Turn::Part),
        _ => Err(LiteralFault::BadInput),
    }
}

/// Behind a part.
fn behind(
    alloc: Global,
    stack: &mut Stack<Frame>,
    mark: Mark,
    last: Value,
) -> Result<Turn, LiteralFault>
    ensures { Steps (λ next. behind mark next stack.old last) result stack.new }
{
    match mark {
        Mark::Comma => comma(stack, last),
        Mark::Semicolon => semicolon(stack, last),
        Mark::Close => close(stack, last),
        Mark::Unbracket => unbracket(stack, last),
        Mark::Unbrace => unbrace(alloc, stack, last),
        _ => Err(LiteralFault::BadInput),
    }
}

fn comma(stack: &mut Stack<Frame>, last: Value) -> Result<Turn, LiteralFault>
    ensures { Steps (λ next. with_field next stack.old last) result stack.new }
{
    match stack.pop() {
        Some(Frame::Whole(mut fields)) => {
            fields.push(last)?;
            stack.push(Frame::Whole(fields))?;
            Ok(Turn::Part)
        }
        Some(Frame::Round(mut fields)) => {
            fields.push(last)?;
            stack.push(Frame::Round(fields))?;
            Ok(Turn::Part)
        }
        Some(Frame::Key(pairs, mut fields)) => {
            fields.push(last)?;
            stack.push(Frame::Key(pairs, fields))?;
            Ok(Turn::Part)
        }
        _ => Err(LiteralFault::BadInput),
    }
}

fn semicolon(stack: &mut Stack<Frame>, last: Value) -> Result<Turn, LiteralFault>
    ensures { Steps (λ next. with_entry next stack.old last) result stack.new }
{
    match stack.pop() {
        Some(Frame::Elements(mut elements)) => {
            elements.push(last)?;
            stack.push(Frame::Elements(elements))?;
            Ok(Turn::Part)
        }
        Some(Frame::Associate(mut pairs, key)) => {
            pairs.push((key, last))?;
            stack.push(Frame::Pairs(pairs))?;
            Ok(Turn::Bracket)
        }
        _ => Err(LiteralFault::BadInput),
    }
}

fn close(stack: &mut Stack<Frame>, last: Value) -> Result<Turn, LiteralFault>
    ensures { Steps (λ next. closed next stack.old last) result stack.new }
{
    match stack.pop() {
        Some(Frame::Round(fields)) => Ok(Turn::Behind(fields_value(fields, last)?)),
        _ => Err(LiteralFault::BadInput),
    }
}

fn unbracket(stack: &mut Stack<Frame>, last: Value) -> Result<Turn, LiteralFault>
    ensures { Steps (λ next. unbracketed next stack.old last) result stack.new }
{
    match stack.pop() {
        Some(Frame::Key(pairs, fields)) => {
            let key = fields_value(fields, last)?;
            stack.push(Frame::Associate(pairs, key))?;
            Ok(Turn::Colon)
        }
        _ => Err(LiteralFault::BadInput),
    }
}

fn unbrace(alloc: Global, stack: &mut Stack<Frame>, last: Value) -> Result<Turn, LiteralFault>
    ensures { Steps (λ next. unbraced next stack.old last) result stack.new }
{
    match stack.pop() {
        Some(Frame::Elements(elements)) => { Ok(Turn::Behind(list_value(alloc, elements, last)?)) }
        Some(Frame::Associate(pairs, key)) => {
            Ok(Turn::Behind(table_value(alloc, pairs, key, last)?))
        }
        _ => Err(LiteralFault::BadInput),
    }
}
