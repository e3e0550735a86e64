//! The rows of the predefined operations.
use crate::{Fault, print_answer, say};
use abc_predef::{apply1, apply2, holds2, row, takes1, takes2};
use abc_tree::Op;
use abc_value::Value;

fn memory<E: Drop>(_refused: E) -> Fault {
    Fault::Memory
}

#[tactic(auto, unfolding(abc_predef::specs::Takes::GivesValue))]
pub(crate) fn one(rt: &HostRuntime, op: Op, x: &Value) -> Result<(), Fault> {
    let Some(_) = row(op).result else {
        return say(rt, "NoRow");
    };
    let is_taken = takes1(rt.alloc(), op, x).map_err(memory)?;
    if !is_taken {
        return say(rt, "Wrong");
    }
    print_answer(rt, apply1(rt.alloc(), op, x))
}

#[tactic(auto, unfolding(abc_predef::specs::Takes::GivesValue, abc_predef::specs::Takes::IsTest))]
pub(crate) fn two(rt: &HostRuntime, op: Op, x: &Value, y: &Value) -> Result<(), Fault> {
    let is_taken = takes2(rt.alloc(), op, x, y).map_err(memory)?;
    if !is_taken {
        return say(rt, "Wrong");
    }
    match row(op).result {
        Some(_) => print_answer(rt, apply2(rt.alloc(), op, x, y)),
        None => say(rt, if holds2(op, x, y) { "true" } else { "false" }),
    }
}
