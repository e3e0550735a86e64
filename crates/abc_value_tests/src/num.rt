//! What no clause says: that ample memory is enough, and worked values.
ghost use Rattle.std.specs.Prelude.{◌≡◌, IfOk};

mod lines;
mod numbers;

use abc_num::*;
use std::alloc::Global;
use std::cmp::Ordering;

/// A tree that goes through both wrappers.
#[derive(Debug, Drop)]
enum Tree {
    Leaf(u64),
    Branch(Items<Tree>),
    Fork(Boxed<Tree>, Boxed<Tree>),
}

fn copy(alloc: Global, tree: &Tree) -> Result<Tree, OutOfMemory>
    ensures { IfOk result (λ other. other ≡ tree.now) }
{
    Ok(match tree {
        Tree::Leaf(n) => Tree::Leaf(*n),
        Tree::Branch(parts) => {
            let mut copies = Items::new(alloc);
            for part in parts.as_slice() {
                copies.push(copy(alloc, part)?)?;
            }
            Tree::Branch(copies)
        }
        Tree::Fork(left, right) => Tree::Fork(
            Boxed::new(alloc, copy(alloc, left.get())?)?,
            Boxed::new(alloc, copy(alloc, right.get())?)?,
        ),
    })
}

fn small_tree(alloc: Global) -> Result<Tree, OutOfMemory> {
    let mut parts = Items::new(alloc);
    parts.push(Tree::Leaf(1))?;
    parts.push(Tree::Fork(
        Boxed::new(alloc, Tree::Leaf(2))?,
        Boxed::new(alloc, Tree::Branch(Items::new(alloc)))?,
    ))?;
    Ok(Tree::Branch(parts))
}

#[test]
fn a_copied_tree_is_the_tree(rt: HostRuntime) -> Result<(), OutOfMemory> {
    let tree = copy(rt.alloc(), &small_tree(rt.alloc())?)?;
    let Tree::Branch(parts) = tree else {
        panic!(rt; "no branch")
    };
    assert_eq!(rt; parts.len(), 2);
    assert!(rt; matches!(parts.get(0), Some(Tree::Leaf(1))));
    let mut parts = parts.into_vec();
    let Some(Tree::Fork(left, right)) = parts.pop() else {
        panic!(rt; "no fork")
    };
    assert!(rt; matches!(left.into_inner(), Tree::Leaf(2)));
    assert!(rt; matches!(right.get(), Tree::Branch(none) if none.is_empty()));
    let items = Items::from_vec(parts);
    assert!(rt; items.get(1).is_none());
    Ok(())
}

#[test]
fn texts_are_their_bytes(rt: HostRuntime) -> Result<(), OutOfMemory> {
    let alloc = rt.alloc();
    let name = Text::of(alloc, b"name")?;
    let names = Text::from_vec(b"names".to_vec(alloc)?);
    assert_eq!(rt; name.bytes(), b"name".as_slice());
    assert!(rt; name != names && name < names);
    assert_eq!(rt; name.cmp(&Text::of(alloc, b"nam")?), Ordering::Greater);
    assert!(rt; name.clone()? == name);
    assert_eq!(rt; names.into_vec().as_slice(), b"names".as_slice());
    Ok(())
}

#[test]
fn names_are_numbered_in_order(rt: HostRuntime) -> Result<(), OutOfMemory> {
    let alloc = rt.alloc();
    let mut names = Names::new(alloc);
    let rows = [("a", 0), ("b", 1), ("a", 0), ("", 2), ("ab", 3), ("b", 1)];
    for (name, want) in rows {
        let text = Text::of(alloc, name.as_bytes())?;
        assert!(rt; names.len() < 10);
        assert_eq!(rt; names.number(text)?, want, "{name}");
    }
    assert_eq!(rt; names.len(), 4);
    assert_eq!(rt; names.find(&Text::of(alloc, b"ab")?), Some(3));
    assert_eq!(rt; names.find(&Text::of(alloc, b"c")?), None);
    assert!(rt; matches!(names.get(1), Some(text) if text.bytes() == b"b".as_slice()));
    assert!(rt; names.get(4).is_none());
    let copy = names.copy(alloc)?;
    assert_eq!(rt; copy.len(), 4);
    assert_eq!(rt; copy.find(&Text::of(alloc, b"")?), Some(2));
    Ok(())
}

#[test]
fn lines_and_types_are_held(rt: HostRuntime) -> Result<(), OutOfMemory> {
    let alloc = rt.alloc();
    let mut lines: ItemLines = Items::new(alloc);
    lines.push(Line {
        indent: 2,
        text: Text::of(alloc, b"PASS")?,
        long: false,
    })?;
    let copies = lines.copy(alloc)?;
    let Some(line) = copies.get(0) else {
        panic!(rt; "no line")
    };
    assert!(rt; line.indent == 2 && !line.long && line.text.bytes() == b"PASS".as_slice());
    let mut fields: Grounds = Items::new(alloc);
    fields.push(Ground::Number)?;
    fields.push(Ground::List(Boxed::new(alloc, Ground::Text)?))?;
    let table = Ground::Table(
        Boxed::new(alloc, Ground::Text)?,
        Boxed::new(alloc, Ground::Compound(fields))?,
    );
    let Ground::Table(_, associate) = table.copy(alloc)? else {
        panic!(rt; "no table")
    };
    assert!(rt; matches!(associate.get(), Ground::Compound(_)));
    Ok(())
}

#[test]
fn a_stack_gives_the_newest_first(rt: HostRuntime) -> Result<(), OutOfMemory> {
    let alloc = rt.alloc();
    let mut stack: Stack<Text> = Stack::new(alloc);
    stack.push(Text::of(alloc, b"older")?)?;
    stack.push(Text::of(alloc, b"newer")?)?;
    assert!(rt;
        stack
            .pop()
            .is_some_and(|entry| entry.bytes() == b"newer".as_slice())
    );
    assert!(rt;
        stack
            .pop()
            .is_some_and(|entry| entry.bytes() == b"older".as_slice())
    );
    assert!(rt; stack.pop().is_none());
    Ok(())
}
