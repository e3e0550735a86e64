//! Reads a list of demands a line, and prints the form of each variable, or that no types meet the demands.
//!
//! A line has a word for each variable `a`, `b`, .. and for each demand: `F` for a variable, `=ab` for a and b of one type, `<ab` for a train of b, `@ab`
//! for a collection of b, `%a` for number or text, and `Na`, `Xa`, `Lab`, `Kabc` and `Cabc` for a number, text, a list of b,
//! a table of b and c, and a compound of b, c and perhaps more. A form is printed as `n`, `t`, `L`, `K` and `C` with the
//! parts, or as `?`, `%`, `<` or `@` with its root and the variable that it is a train or collection of.
#![tactic(auto)]

ghost use Rattle.std.specs.Prelude.{◌<◌, IfOk};
ghost use Rattle.std.specs.List.{All};
ghost use Rattle.abc_terms.specs.Nodes.{DemandIn};

use abc_num::OutOfMemory;
use abc_terms::{Demand, Term, VarId};
use abc_unify::{Form, Graph, UnifyFault, VaryKind};
use std::alloc::Global;
use std::io;
use thiserror::Error;

/// Why the program ends before its input does.
#[derive(Debug, Drop, Error)]
enum Fault {
    #[error("a word is no demand")]
    Word,
    #[error(transparent)]
    Memory(#[from] OutOfMemory),
    #[error(transparent)]
    Io(#[from] io::Error),
}

/// The variables of a word, all of the first `count`.
fn variables(alloc: Global, letters: &[u8], count: u32) -> Result<Vec<VarId>, Fault>
    ensures { IfOk result (λ xs. All (λ x. x.0 < count) xs.items) }
{
    let mut variables = Vec::new(alloc);
    for i in 0..letters.len() {
        let number = u32::from(letters[i].wrapping_sub(b'a'));
        if number >= count {
            return Err(Fault::Word);
        }
        if variables.push(VarId(number)).is_err() {
            return Err(Fault::Memory(OutOfMemory));
        }
    }
    Ok(variables)
}

/// The demand that a word is.
fn demand(alloc: Global, letter: u8, xs: &[VarId], count: u32) -> Result<Demand, Fault>
    requires { All (λ x. x.0 < count) xs.now }
    ensures { IfOk result (λ d. DemandIn count d) }
{
    match xs {
        [a] => match letter {
            b'N' => Ok(Demand::Is(*a, Term::Number)),
            b'X' => Ok(Demand::Is(*a, Term::Text)),
            _ => Ok(Demand::NumberOrText(*a)),
        },
        [a, b] => match letter {
            b'L' => Ok(Demand::Is(*a, Term::list_of(alloc, *b)?)),
            b'=' => Ok(Demand::Equal(*a, *b)),
            b'<' => Ok(Demand::Train(*a, *b)),
            _ => Ok(Demand::Collection(*a, *b)),
        },
        [a, b, c] => match letter {
            b'K' => Ok(Demand::Is(*a, Term::table_of(alloc, *b, *c)?)),
            _ => Ok(Demand::Is(*a, Term::compound_of(alloc, &[*b, *c])?)),
        },
        [a, b, c, d] => Ok(Demand::Is(*a, Term::compound_of(alloc, &[*b, *c, *d])?)),
        _ => Err(Fault::Word),
    }
}

fn print_form(rt: &HostRuntime, form: &Form) -> Result<(), Fault> {
    match form {
        Form::Number => print!(rt; "n")?,
        Form::Text => print!(rt; "t")?,
        Form::Compound(fields) => print_word(rt, 'C', fields.as_slice())?,
        Form::List(c) => print_word(rt, 'L', &[*c])?,
        Form::Table(k, e) => print_word(rt, 'K', &[*k, *e])?,
        Form::Varies { root, kind } => match kind {
            VaryKind::Free => print_word(rt, '?', &[*root])?,
            VaryKind::Train(e) => print_word(rt, '<', &[*root, *e])?,
            VaryKind::Collection(e) => print_word(rt, '@', &[*root, *e])?,
            VaryKind::NumberOrText => print_word(rt, '%', &[*root])?,
        },
    }
    Ok(())
}

fn print_word(rt: &HostRuntime, letter: char, variables: &[VarId]) -> Result<(), Fault> {
    print!(rt; "{letter}")?;
    for i in 0..variables.len() {
        let name = char::from(b'a'.wrapping_add((variables[i].0 % 26) as u8));
        print!(rt; "{name}")?;
    }
    Ok(())
}

/// Prints the forms of all variables of a graph.
fn print_forms(rt: &HostRuntime, graph: &Graph) -> Result<(), Fault> {
    for at in 0..graph.count() {
        if at > 0 {
            print!(rt; " ")?;
        }
        let form = graph.form(VarId(at))?;
        print_form(rt, &form)?;
    }
    println!(rt; "")?;
    Ok(())
}

/// As many variables as the line has words `F`.
fn made(alloc: Global, line: &str) -> Result<Graph, Fault> {
    let mut graph = Graph::new(alloc);
    for word in line.split(' ') {
        if word == "F" {
            graph.fresh()?;
        }
    }
    Ok(graph)
}

/// The demands of the line's other words.
fn demands_of(alloc: Global, line: &str, count: u32) -> Result<Vec<Demand>, Fault>
    ensures { IfOk result (λ ds. All (DemandIn count) ds.items) }
{
    let mut demands = Vec::new(alloc);
    for word in line.split(' ') {
        if word == "F" {
            continue;
        }
        let one = read(alloc, word.as_bytes(), count)?;
        if demands.push(one).is_err() {
            return Err(Fault::Memory(OutOfMemory));
        }
    }
    Ok(demands)
}

fn read(alloc: Global, word: &[u8], count: u32) -> Result<Demand, Fault>
    ensures { IfOk result (λ d. DemandIn count d) }
{
    let Some((letter, letters)) = word.split_first() else {
        return Err(Fault::Word);
    };
    let xs = variables(alloc, letters, count)?;
    let demand = demand(alloc, *letter, &xs, count)?;
    Ok(demand)
}

/// Prints the answer to a list of demands.
fn answer(rt: &HostRuntime, line: &str) -> Result<(), Fault> {
    let mut graph = made(rt.alloc(), line)?;
    let demands = demands_of(rt.alloc(), line, graph.count())?;
    match graph.demand_all(demands) {
        Ok(()) => print_forms(rt, &graph),
        Err(UnifyFault::Clash) => {
            println!(rt; "clash")?;
            Ok(())
        }
        Err(UnifyFault::Memory) => Err(Fault::Memory(OutOfMemory)),
    }
}

fn main(rt: HostRuntime) -> Result<(), Fault> {
    for line in rt.lines(rt.alloc()) {
        answer(&rt, line?.as_str())?;
    }
    Ok(())
}
