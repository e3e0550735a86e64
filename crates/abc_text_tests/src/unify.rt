//! What no clause says: that ample memory is enough, and answers from elsewhere.
ghost use Rattle.std.specs.Prelude.{◌<◌};

mod rows;

use abc_num::OutOfMemory;
use abc_terms::{Demand, Term, VarId};
use abc_unify::*;
use std::alloc::Global;
use std::process::Abort;
use std::test::Fail;

/// One call in each word: its letter, its variables from `a` on, and `!` where it clashes.
const CALLS: &[(&str, &str)] = &[
    ("train of itself, a number", "F N <aa =ab!"),
    ("train of itself, a text", "F X <aa =ab"),
    ("collection of itself", "F @aa!"),
    ("trains of each other, a list", "F F F Lc <ab <ba =ad! =ab"),
    ("number or text, train of a number", "F F N %a <ab =bc! %b"),
    ("train of a number, a list", "F F N Lc <ab =bc =ad"),
    ("a list that holds itself", "F La =ab!"),
    ("a compound that holds itself", "F F Cab =bc! =ab"),
    (
        "compounds of different counts",
        "F F F Cab Cabc Cbc =de! =df =ac",
    ),
    ("a list and a table", "F F La Kab =cd! <ca @db"),
    ("a variable that is another", "F N X Va =ab =dc! =db"),
];

#[test]
fn calls_are_answered(rt: HostRuntime) -> Result<(), Fail> {
    for &(name, calls) in CALLS {
        play(&rt, rt.alloc(), name, calls)?;
    }
    for calls in rows::RANDOM_CALLS {
        play(&rt, rt.alloc(), "random", calls)?;
    }
    Ok(())
}

fn play(rt: &impl Abort, alloc: Global, name: &str, calls: &str) -> Result<(), Fail> {
    let mut graph = Graph::new(alloc);
    for word in calls.split(' ') {
        let mut variables = Vec::new(alloc);
        let mut clashes = false;
        let mut letter = b' ';
        for byte in word.bytes() {
            match byte {
                b'a'..=b'z' => variables.push(VarId(u32::from(byte - b'a')))?,
                b'!' => clashes = true,
                _ => letter = byte,
            }
        }
        let answer = call(rt, alloc, &mut graph, letter, &variables)?;
        assert_eq!(rt; answer, !clashes, "{name}: {word} of {calls}");
    }
    Ok(())
}

/// Whether the call is answered by Ok.
fn call(
    rt: &impl Abort,
    alloc: Global,
    graph: &mut Graph,
    letter: u8,
    variables: &[VarId],
) -> Result<bool, Fail> {
    let count = graph.count();
    let answer = match variables {
        [] => match letter {
            b'N' => graph.node(Term::Number),
            b'X' => graph.node(Term::Text),
            _ => graph.fresh(),
        },
        [a] => {
            assert!(rt; a.0 < count);
            match letter {
                b'V' => graph.node(Term::Var(*a)),
                b'L' => graph.node(Term::list_of(alloc, *a)?),
                _ => return added(graph.number_or_text(*a)),
            }
        }
        [a, b] => {
            assert!(rt; a.0 < count && b.0 < count);
            match letter {
                b'K' => graph.node(Term::table_of(alloc, *a, *b)?),
                b'C' => graph.node(Term::compound_of(alloc, &[*a, *b])?),
                _ => return added(demand(graph, letter, *a, *b)),
            }
        }
        [a, b, c] => {
            assert!(rt; a.0 < count && b.0 < count && c.0 < count);
            graph.node(Term::compound_of(alloc, &[*a, *b, *c])?)
        }
        _ => panic!(rt; "no call"),
    };
    assert_eq!(rt; answer?, VarId(count));
    Ok(true)
}

fn demand(graph: &mut Graph, letter: u8, a: VarId, b: VarId) -> Result<(), UnifyFault>
    requires a { a.0 < graph.old.count }
    requires b { b.0 < graph.old.count }
{
    match letter {
        b'=' => graph.equal(a, b),
        b'<' => graph.train(a, b),
        _ => graph.collection(a, b),
    }
}

fn added(answer: Result<(), UnifyFault>) -> Result<bool, Fail> {
    match answer {
        Ok(()) => Ok(true),
        Err(UnifyFault::Clash) => Ok(false),
        Err(UnifyFault::Memory) => Err(OutOfMemory.into()),
    }
}

const MANY: u32 = 200_000;

const CHAIN: u32 = 100_000;

const CALLS_ON_ONE: u32 = 50_000;

/// None is named by another, so each demand is a step of its own.
#[test]
fn many_are_numbers_or_texts(rt: HostRuntime) -> Result<(), Fail> {
    let mut graph = Graph::new(rt.alloc());
    for _ in 0..MANY {
        let a = graph.fresh()?;
        assert!(rt; a.0 < graph.count());
        graph.number_or_text(a)?;
    }
    Ok(())
}

/// Each is equal to the next, from the last to the first. The links are then one path, at whose end the last one is asked for
/// again and again.
#[test]
fn a_chain_of_equals_is_solved(rt: HostRuntime) -> Result<(), Fail> {
    let mut graph = Graph::new(rt.alloc());
    for _ in 0..CHAIN {
        graph.fresh()?;
    }
    for i in 1..CHAIN {
        let above = CHAIN - i;
        assert!(rt; above < graph.count() && above > 0);
        graph.equal(VarId(above), VarId(above - 1))?;
    }
    let last = VarId(CHAIN - 1);
    for _ in 0..CALLS_ON_ONE {
        let a = graph.fresh()?;
        assert!(rt; a.0 < graph.count() && last.0 < graph.count());
        graph.equal(a, last)?;
    }
    Ok(())
}

/// The last is text, and each is a train of the one that was made before it.
#[test]
fn a_chain_of_trains_is_solved_from_its_end(rt: HostRuntime) -> Result<(), Fail> {
    let mut graph = Graph::new(rt.alloc());
    let mut first = graph.node(Term::Text)?;
    for _ in 0..CHAIN {
        let before = graph.fresh()?;
        assert!(rt; before.0 < graph.count() && first.0 < graph.count());
        graph.train(before, first)?;
        first = before;
    }
    Ok(())
}

#[test]
fn undone_demands_are_gone(rt: HostRuntime) -> Result<(), Fail> {
    let mut graph = Graph::new(rt.alloc());
    let a = graph.fresh()?;
    let number = graph.node(Term::Number)?;
    let before = graph.mark();
    assert!(rt; a.0 < graph.count() && number.0 < graph.count());
    graph.equal(a, number)?;
    let text = graph.node(Term::Text)?;
    assert!(rt; a.0 < graph.count() && text.0 < graph.count());
    assert_eq!(rt; graph.equal(a, text), Err(UnifyFault::Clash));
    graph.undo(before);
    assert_eq!(rt; graph.count(), 2);
    let text = graph.node(Term::Text)?;
    assert_eq!(rt; text, VarId(2));
    assert!(rt; a.0 < graph.count());
    assert_eq!(rt; graph.equal(a, text), Ok(()));
    Ok(())
}

/// The demand names the variables that stand in place of 0 and 1.
#[test]
fn a_demand_is_renamed(rt: HostRuntime) -> Result<(), Fail> {
    let renamed = Demand::Train(VarId(0), VarId(1)).renamed(rt.alloc(), &[VarId(7), VarId(4)])?;
    match renamed {
        Demand::Train(a, element) => assert_eq!(rt; (a, element), (VarId(7), VarId(4))),
        _ => panic!(rt; "another demand"),
    }
    Ok(())
}

/// The forms of a list are its own and that of its element.
#[test]
fn forms_lead_on(rt: HostRuntime) -> Result<(), Fail> {
    let mut graph = Graph::new(rt.alloc());
    let number = graph.node(Term::Number)?;
    let list = graph.node(Term::list_of(rt.alloc(), number)?)?;
    assert!(rt; list.0 < graph.count());
    let forms = graph.forms(&[list])?;
    assert_eq!(rt; forms.len(), 2);
    Ok(())
}
