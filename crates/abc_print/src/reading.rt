//! A line as one value.
ghost use Rattle.std.specs.Prelude.{◌≡◌, ◌≤◌, length, IfOk, IfErr, ◌↔◌};
ghost use Rattle.abc_value.specs.Tree.{Tree};
ghost use Rattle.abc_print.specs.Lexemes.{IsLiteralLine};
ghost use Rattle.abc_print.specs.inner.Machine.{Steps, Gives, unread, at_value, at_lexeme, finished, value_of};

use crate::LiteralFault;
use crate::frames::{Frame, Lexeme, Turn};
use crate::lexing::lexemes;
use crate::making::fields_value;
use crate::marks::at_mark;
use abc_num::limits::MOST_LINE_BYTES;
use abc_num::{Items, Stack};
use abc_tokens::{TokenFault, one_reading, tokens};
use abc_value::Value;
use std::alloc::Global;
use std::collections::VecDeque;

/// The one value that the line spells by the grammar of literals. BadInput where it spells none.
///
/// ```text
/// literal = L | L , L , ...
/// L = number | text | ( literal ) | { } | { L ; L ; ... } | { [ literal ] : L ; ... }
/// ```
pub fn read_literal_line(alloc: Global, b: &[u8]) -> Result<Value, LiteralFault>
    requires { length b.now ≤ MOST_LINE_BYTES }
    ensures value { IfOk result (λ v. (t : Tree) → IsLiteralLine b.now t ↔ (t ≡ v)) }
    ensures none { IfErr result (λ e. e ≡ LiteralFault.BadInput → (t : Tree) → ¬ (IsLiteralLine b.now t)) }
{
    one_reading();
    let tokens = match tokens(alloc, b) {
        Ok(tokens) => tokens,
        Err(fault) => return Err(unread(fault)),
    };
    let lexemes = lexemes(alloc, b, &tokens)?;
    value(alloc, lexemes)
}

/// A line without tokens spells nothing.
fn unread(fault: TokenFault) -> LiteralFault
    ensures { result ≡ unread fault }
{
    match fault {
        TokenFault::Memory => LiteralFault::Memory,
        _ => LiteralFault::BadInput,
    }
}

/// The value that the lexemes spell.
fn value(alloc: Global, lexemes: VecDeque<Lexeme>) -> Result<Value, LiteralFault>
    ensures { Gives result (value_of lexemes.items) }
{
    let mut ahead = lexemes;
    let mut stack = Stack::new(alloc);
    stack.push(Frame::Whole(Items::new(alloc)))?;
    let mut turn = Turn::Part;
    while let Some(lexeme) = ahead.pop_front() {
        turn = step(alloc, &mut stack, lexeme, turn)?;
    }
    match turn {
        Turn::Behind(last) => finish(&mut stack, last),
        _ => Err(LiteralFault::BadInput),
    }
}

/// At the end of the lexemes.
fn finish(stack: &mut Stack<Frame>, last: Value) -> Result<Value, LiteralFault>
    ensures { Gives result (finished stack.old last) }
{
    match stack.pop() {
        Some(Frame::Whole(fields)) => match stack.pop() {
            None => fields_value(fields, last),
            Some(_) => Err(LiteralFault::BadInput),
        },
        _ => Err(LiteralFault::BadInput),
    }
}

/// One lexeme.
fn step(
    alloc: Global,
    stack: &mut Stack<Frame>,
    lexeme: Lexeme,
    turn: Turn,
) -> Result<Turn, LiteralFault>
    ensures { Steps (λ next. at_lexeme lexeme next stack.old turn) result stack.new }
{
    match lexeme {
        Lexeme::Value(value) => at_value(stack, value, turn),
        Lexeme::Mark(mark) => at_mark(alloc, stack, mark, turn),
    }
}

fn at_value(stack: &mut Stack<Frame>, value: Value, turn: Turn) -> Result<Turn, LiteralFault>
    ensures { Steps (λ next. at_value value next stack.old turn) result stack.new }
{
    match turn {
        Turn::Part => Ok(Turn::Behind(value)),
        _ => Err(LiteralFault::BadInput),
    }
}
