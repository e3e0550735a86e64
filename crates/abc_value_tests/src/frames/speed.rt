//! Long lists and tables. They stand here and not in abc_value, where each drop of a value is taken
//! apart in the proof of a test; worked values are the rows of abc_rows.

use super::{is_whole, whole};
use abc_value::{Shape, Value, ValueFault};

/// A list that the numbers come to in rising order, each to its end, and then one that they come to in falling order.
#[test]
fn long_lists_are_quick(rt: HostRuntime) -> Result<(), ValueFault> {
    let mut rising = Value::empty(rt.alloc());
    let mut falling = Value::empty(rt.alloc());
    for k in 0..100_000u32 {
        rising.insert(whole(i64::from(k)))?;
        falling.insert(whole(99_999 - i64::from(k)))?;
    }
    for k in 0..100_000usize {
        assert!(rt; is_whole(rising.part(k), k as i64) && is_whole(falling.part(k), k as i64));
    }
    Ok(())
}

/// A table that the keys come to in falling order, each to its front.
#[test]
fn a_long_table_is_quick(rt: HostRuntime) -> Result<(), ValueFault> {
    let mut squares = Value::empty(rt.alloc());
    for k in 0..100_000u32 {
        let key = 99_999 - i64::from(k);
        squares.put(whole(key), whole(key * key))?;
    }
    for k in 0..100_000u32 {
        let key = i64::from(k);
        assert!(rt; is_whole(squares.get(&whole(key)), key * key));
    }
    Ok(())
}

/// A table that the keys come to one by one, and whose types are asked for each time.
#[test]
fn types_of_a_long_table_are_quick(rt: HostRuntime) -> Result<(), ValueFault> {
    let mut squares = Value::empty(rt.alloc());
    for k in 0..100_000u32 {
        let key = i64::from(k);
        squares.put(whole(key), whole(key * key))?;
        let shape = Shape::of(rt.alloc(), &squares)?;
        assert!(rt; shape.is_some());
    }
    Ok(())
}

/// Numbers below 2^20 in an order like that of numbers drawn at random: the bits of `k` are mixed.
fn scattered(k: u32) -> i64 {
    let k = (k ^ k >> 16).wrapping_mul(0x85eb_ca6b);
    let k = (k ^ k >> 13).wrapping_mul(0xc2b2_ae35);
    i64::from((k ^ k >> 16) >> 12)
}

/// A list that scattered numbers come to, and then as many copies of it.
#[test]
fn any_order_is_quick(rt: HostRuntime) -> Result<(), ValueFault> {
    let mut all = Value::empty(rt.alloc());
    for k in 0..1_000_000u32 {
        all.insert(whole(scattered(k)))?;
    }
    for _ in 0..1_000_000u32 {
        let copy = all.copy()?;
        assert!(rt; copy.len() == all.len());
    }
    Ok(())
}

/// A copy that is changed leaves the list that it was taken of.
#[test]
fn a_changed_copy_leaves_the_list(rt: HostRuntime) -> Result<(), ValueFault> {
    let mut all = Value::empty(rt.alloc());
    for k in 0..1_000u32 {
        all.insert(whole(i64::from(k)))?;
    }
    let mut copy = all.copy()?;
    copy.insert(whole(-1))?;
    copy.remove(&whole(500))?;
    assert!(rt; copy.len() == 1_000 && is_whole(copy.part(0), -1));
    for k in 0..1_000usize {
        assert!(rt; is_whole(all.part(k), k as i64));
    }
    Ok(())
}
