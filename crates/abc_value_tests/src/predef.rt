//! What no clause says: that a long list is searched by halves, so that a thousand searches in a million elements take no time.
//! Worked operands of all operations are the rows of abc_rows.
use abc_num::Num;
use abc_predef::{apply1, apply2, holds2, takes1, takes2};
use abc_tree::Op;
use abc_value::Value;
use std::alloc::Global;
use std::cmp::Ordering;
use std::test::Fail;

/// Whether `e` is found once among these elements, with a greater one behind it.
#[tactic(auto, unfolding(abc_predef::specs::Takes::GivesValue, abc_predef::specs::Takes::IsTest))]
fn is_once_among(alloc: Global, e: &Value, elements: &Value) -> Result<bool, Fail> {
    // The three rows take the same operands.
    let taken = takes2(alloc, Op::In, e, elements)?;
    if !taken || !holds2(Op::In, e, elements) {
        return Ok(false);
    }
    let count = apply2(alloc, Op::Count, e, elements)?;
    let above = apply2(alloc, Op::LeastAbove, e, elements)?;
    let one = Value::number(Num::whole(1)?);
    Ok(count.cmp(&one) == Ordering::Equal && above.cmp(e) == Ordering::Greater)
}

/// Whether no element is greater than this one.
#[tactic(auto, unfolding(abc_predef::specs::Takes::GivesValue))]
fn is_greatest_of(alloc: Global, last: &Value, elements: &Value) -> Result<bool, Fail> {
    let taken = takes1(alloc, Op::Greatest, elements)?;
    if !taken {
        return Ok(false);
    }
    let greatest = apply1(alloc, Op::Greatest, elements)?;
    Ok(greatest.cmp(last) == Ordering::Equal)
}

#[test]
fn a_long_list_is_searched(rt: HostRuntime) -> Result<(), Fail> {
    let alloc = rt.alloc();
    let one = Value::number(Num::whole(1)?);
    let last = Value::number(Num::whole(1_000_000)?);
    let long = Value::range(alloc, &one, &last)?;
    for n in 1..1_000u32 {
        let e = Value::number(Num::whole(i128::from(n) * 1_000)?);
        let found = is_once_among(alloc, &e, &long)?;
        assert!(rt; found);
    }
    let greatest = is_greatest_of(alloc, &last, &long)?;
    assert!(rt; greatest);
    Ok(())
}
