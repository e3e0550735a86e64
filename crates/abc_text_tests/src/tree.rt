//! Tests of what no clause says: that ample memory is enough, on trees made by hand.
use abc_num::{ItemLines, Items, Names, OutOfMemory, Text};
use abc_tree::*;
use std::alloc::Global;
use std::process::Abort;
use std::test::Fail;

/// A template of this kind by its words; `_` is a place.
fn template(
    alloc: Global,
    kind: TemplateKind,
    spelled: &[&'static str],
) -> Result<Template, OutOfMemory> {
    let mut words = Items::new(alloc);
    let mut places = 0;
    for word in spelled {
        if *word == "_" {
            words.push(Word::Place)?;
            places = 1;
        } else {
            words.push(Word::Key(Text::of(alloc, word.as_bytes())?))?;
        }
    }
    Ok(Template {
        kind,
        words,
        places,
    })
}

pub(crate) fn push(alloc: Global) -> Result<Template, OutOfMemory> {
    template(alloc, TemplateKind::Command, &["PUSH", "_"])
}

/// A call of PUSH on this line.
fn calling(alloc: Global, line: u32) -> Result<Action, OutOfMemory> {
    Ok(Action {
        line,
        node: ActionNode::Call(push(alloc)?, Items::new(alloc)),
    })
}

fn body(alloc: Global) -> Result<Suite, OutOfMemory> {
    let mut suite = Items::new(alloc);
    suite.push(calling(alloc, 2)?)?;
    Ok(suite)
}

fn one_name(alloc: Global) -> Result<Names, OutOfMemory> {
    let mut names = Names::new(alloc);
    names.number(Text::of(alloc, b"x")?)?;
    Ok(names)
}

fn one_formal(alloc: Global) -> Result<Bounds, OutOfMemory> {
    let mut formals = Items::new(alloc);
    formals.push(Bound::One(NameId(0)))?;
    Ok(formals)
}

/// A unit with this body and no more.
fn unit_of(alloc: Global, template: Template, names: Names, body: Suite) -> Unit {
    Unit {
        template,
        formals: Items::new(alloc),
        names,
        shared: Items::new(alloc),
        body,
        refinements: Items::new(alloc),
        lines: ItemLines::new(alloc),
    }
}

/// PUSH, which calls itself on line 2.
pub(crate) fn unit(alloc: Global) -> Result<Unit, OutOfMemory> {
    let names = one_name(alloc)?;
    let template = push(alloc)?;
    let body = body(alloc)?;
    Ok(unit_of(alloc, template, names, body))
}

fn with_formal(alloc: Global) -> Result<Unit, OutOfMemory> {
    let mut unit = unit(alloc)?;
    unit.formals = one_formal(alloc)?;
    Ok(unit)
}

#[test]
fn templates_are_texts(rt: HostRuntime) -> Result<(), Fail> {
    let alloc = rt.alloc();
    let template = push(alloc)?;
    assert_eq!(rt; template.text(alloc)?.as_slice(), b"PUSH _".as_slice());
    assert_eq!(rt; template.cmp(&template), std::cmp::Ordering::Equal);
    Ok(())
}

#[test]
fn units_are_kept(rt: HostRuntime) -> Result<(), Fail> {
    let alloc = rt.alloc();
    let template = push(alloc)?;
    let mut units = Units::new(alloc);
    units.put(unit(alloc)?)?;
    assert!(rt; units.at(0).is_some());
    assert!(rt; units.take(&template).is_some());
    assert!(rt; units.get(&template).is_none());
    Ok(())
}

fn looked_through(rt: &impl Abort, alloc: Global, unit: &Unit) -> Result<(), Fail> {
    assert_eq!(rt; calls(alloc, unit, 1)?.len(), 0);
    assert_eq!(rt; calls(alloc, unit, 2)?.len(), 1);
    assert_eq!(rt; unit.bound_names(alloc)?.as_slice(), [false].as_slice());
    assert_eq!(rt;
        unit.formal_names(alloc)?.as_slice(),
        [NameId(0)].as_slice()
    );
    Ok(())
}

#[test]
fn units_are_looked_through(rt: HostRuntime) -> Result<(), Fail> {
    let unit = with_formal(rt.alloc())?;
    looked_through(&rt, rt.alloc(), &unit)
}

fn command_looked_through(rt: &impl Abort, alloc: Global, command: &Command) -> Result<(), Fail> {
    assert_eq!(rt; command_calls(alloc, command, 1)?.len(), 1);
    assert_eq!(rt; command.bound_names(alloc)?.as_slice(), [false].as_slice());
    Ok(())
}

#[test]
fn commands_are_looked_through(rt: HostRuntime) -> Result<(), Fail> {
    let alloc = rt.alloc();
    let names = one_name(alloc)?;
    let action = calling(alloc, 1)?;
    let command = Command { names, action };
    command_looked_through(&rt, alloc, &command)
}
