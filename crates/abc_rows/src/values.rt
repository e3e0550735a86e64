//! The calls on values, as rows.
ghost use Rattle.std.specs.Prelude.{IsTrue};
ghost use Rattle.abc_value.specs.Items.{HaveRange};
ghost use Rattle.abc_value.specs.Parts.{IsList, IsTable};

use crate::{Fault, print_answer, print_value, say};
use abc_value::{Kind, RunFault, Shape, Value, ValueFault};

/// `sizes x`: its kind, length, height and weight.
pub(crate) fn one(rt: &HostRuntime, name: &str, x: &Value) -> Result<(), Fault> {
    match name {
        "sizes" => {
            let kind = x.kind();
            println!(rt; "{kind:?} {} {} {}", x.len(), x.height(), x.weight())?;
            Ok(())
        }
        _ => say(rt, "NoRow"),
    }
}

/// `insert t e`, `remove t e`, `delete t k`, `get t k`, `range p q`, `compare x y`, and `have.type x y`, whether both have
/// one type.
pub(crate) fn two(rt: &HostRuntime, name: &str, x: Value, y: Value) -> Result<(), Fault> {
    match name {
        "insert" => insert(rt, x, y),
        "remove" => remove(rt, x, &y),
        "delete" => delete(rt, x, &y),
        "get" => get(rt, &x, &y),
        "range" => range(rt, &x, &y),
        "compare" => compare(rt, &x, &y),
        "have.type" => have_type(rt, &x, &y),
        _ => say(rt, "NoRow"),
    }
}

/// `put t k a`.
pub(crate) fn three(
    rt: &HostRuntime,
    name: &str,
    x: Value,
    y: Value,
    z: Value,
) -> Result<(), Fault> {
    match name {
        "put" => put(rt, x, y, z),
        _ => say(rt, "NoRow"),
    }
}

fn is_list(x: &Value) -> bool
    ensures { IsTrue result → IsList x.now }
{
    match x.kind() {
        Kind::List => true,
        Kind::Empty => true,
        _ => false,
    }
}

fn is_table(x: &Value) -> bool
    ensures { IsTrue result → IsTable x.now }
{
    match x.kind() {
        Kind::Table => true,
        Kind::Empty => true,
        _ => false,
    }
}

/// Prints what a change has left, or why it was refused.
fn print_change(
    rt: &HostRuntime,
    changed: Value,
    answer: Result<(), ValueFault>,
) -> Result<(), Fault> {
    match answer {
        Ok(()) => print_value(rt, &changed),
        Err(fault) => print_answer(rt, Err(RunFault::from(fault))),
    }
}

fn insert(rt: &HostRuntime, x: Value, y: Value) -> Result<(), Fault> {
    let mut list = x;
    if !is_list(&list) {
        return say(rt, "Wrong");
    }
    let answer = list.insert(y);
    print_change(rt, list, answer)
}

fn remove(rt: &HostRuntime, x: Value, y: &Value) -> Result<(), Fault> {
    let mut list = x;
    if !is_list(&list) {
        return say(rt, "Wrong");
    }
    let answer = list.remove(y);
    print_change(rt, list, answer)
}

fn put(rt: &HostRuntime, x: Value, y: Value, z: Value) -> Result<(), Fault> {
    let mut table = x;
    if !is_table(&table) {
        return say(rt, "Wrong");
    }
    let answer = table.put(y, z);
    print_change(rt, table, answer)
}

fn delete(rt: &HostRuntime, x: Value, y: &Value) -> Result<(), Fault> {
    let mut table = x;
    if !is_table(&table) {
        return say(rt, "Wrong");
    }
    let answer = table.delete(y);
    print_change(rt, table, answer)
}

fn get(rt: &HostRuntime, x: &Value, y: &Value) -> Result<(), Fault> {
    if !is_table(x) {
        return say(rt, "Wrong");
    }
    match x.get(y) {
        Some(associate) => print_value(rt, associate),
        None => say(rt, "None"),
    }
}

/// Whether a range goes from the one to the other.
fn have_range(x: &Value, y: &Value) -> bool
    ensures { IsTrue result → HaveRange x.now y.now }
{
    match (x.kind(), y.kind()) {
        (Kind::Number, Kind::Number) => true,
        (Kind::Text, Kind::Text) => true,
        _ => false,
    }
}

/// Prints the list from the one to the other, or the fault that both calls tell. Only want of memory is told by one alone.
fn range(rt: &HostRuntime, x: &Value, y: &Value) -> Result<(), Fault> {
    if !have_range(x, y) {
        return say(rt, "Wrong");
    }
    let checked = Value::check_range(x, y);
    match Value::range(rt.alloc(), x, y) {
        Ok(all) if checked.is_ok() => print_value(rt, &all),
        Err(fault) if checked == Err(fault) => print_answer(rt, Err(RunFault::from(fault))),
        Err(ValueFault::Memory) => Err(Fault::Memory),
        _ => say(rt, "check_range and range differ"),
    }
}

fn compare(rt: &HostRuntime, x: &Value, y: &Value) -> Result<(), Fault> {
    let order = x.cmp(y);
    println!(rt; "{order:?}")?;
    Ok(())
}

fn have_type(rt: &HostRuntime, x: &Value, y: &Value) -> Result<(), Fault> {
    let Some(first) = shape(rt, x)? else {
        return say(rt, "false");
    };
    let Some(second) = shape(rt, y)? else {
        return say(rt, "false");
    };
    let joined = first.join(rt.alloc(), &second).map_err(|_| Fault::Memory)?;
    say(rt, if joined.is_some() { "true" } else { "false" })
}

fn shape(rt: &HostRuntime, x: &Value) -> Result<Option<Shape>, Fault> {
    Shape::of(rt.alloc(), x).map_err(|_| Fault::Memory)
}
