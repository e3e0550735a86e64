//! What a line makes of the parts behind it.
ghost use Rattle.std.specs.Prelude.{◌≡◌, [], ◌∷◌, None, IfOk, OnOk, true, false};
ghost use Rattle.abc_faults.specs.Facts.{opens};
ghost use Rattle.abc_parse.specs.Parts.{alone, command, grown, on};
ghost use Rattle.abc_parse.specs.Roots.{kept, taken};
ghost use Rattle.abc_parse.specs.Readings.{made};
ghost use Rattle.abc_parse.specs.inner.Building.{Gives, Leaves, over_suite, shared_part};

use crate::fault::Unmade;
use crate::parts::{Part, Root};
use crate::roots::Roots;
use abc_clauses::{Clause, Head};
use abc_faults::Saying;
use abc_num::{Items, OutOfMemory};
use abc_tree::{Action, ActionNode, Alternative, Suite};
use std::alloc::Global;

/// The suite of one simple command, which stands beside a heading.
pub(crate) fn one_command(alloc: Global, line: u32, node: ActionNode) -> Result<Suite, OutOfMemory>
    ensures { IfOk result (λ suite. suite ≡ on line node ∷ []) }
{
    let mut suite = Items::new(alloc);
    suite.push(Action { line, node })?;
    Ok(suite)
}

fn command(line: u32, node: ActionNode) -> Part
    ensures { result ≡ command line node }
{
    Part::Command(Action { line, node })
}

/// What a heading makes of its suite.
fn over_suite(line: u32, head: Head, suite: Suite) -> Result<Part, Unmade>
    ensures { Gives result (over_suite line head suite) }
{
    match head {
        Head::If(test) => Ok(command(line, ActionNode::If(test, suite))),
        Head::While(test) => Ok(command(line, ActionNode::While(test, suite))),
        Head::For(names, train) => Ok(command(
            line,
            ActionNode::For {
                names,
                train,
                suite,
            },
        )),
        Head::When(test) => Ok(Part::Alternative(Alternative {
            line,
            test: Some(test),
            suite,
        })),
        Head::Otherwise => Ok(Part::Alternative(Alternative {
            line,
            test: None,
            suite,
        })),
        _ => Err(Unmade::Misfit),
    }
}

/// What a heading makes of the parts that are deeper, which are taken out.
fn grown(
    alloc: Global,
    line: u32,
    head: Head,
    indent: u32,
    roots: &mut Roots,
) -> Result<Part, Unmade>
    ensures part { Gives result (grown line head (taken indent roots.old)) }
    ensures rest { OnOk result (roots.new ≡ kept indent roots.old) }
{
    match head {
        Head::Select => {
            let ways = roots.alternatives(alloc, indent)?;
            Ok(command(line, ActionNode::Select(ways)))
        }
        head => {
            let suite = roots.commands(alloc, indent)?;
            over_suite(line, head, suite)
        }
    }
}

/// What a line makes alone: a simple command, nothing where it shares names, or a heading with the command beside it.
fn alone(alloc: Global, line: u32, head: Head, beside: Option<ActionNode>) -> Result<Part, Unmade>
    ensures { Gives result (alone line head beside) }
{
    match beside {
        Some(node) => over_suite(line, head, one_command(alloc, line, node)?),
        None => alone_bare(line, head),
    }
}

/// What a line without a command beside it makes alone.
fn alone_bare(line: u32, head: Head) -> Result<Part, Unmade>
    ensures { Gives result (alone line head None) }
{
    match head {
        Head::Simple(node) => Ok(command(line, node)),
        head => shared_part(head),
    }
}

/// What a line makes that shares names: nothing.
fn shared_part(head: Head) -> Result<Part, Unmade>
    ensures { Gives result (shared_part head) }
{
    match &head {
        Head::Share(_) => Ok(Part::Nothing),
        _ => Err(Unmade::Misfit),
    }
}

/// Whether the suite of a line stands below it.
fn opens(clause: &Clause) -> bool
    ensures { result ≡ opens clause.now }
{
    if clause.beside.is_some() {
        return false;
    }
    match &clause.head {
        Head::Simple(_) => false,
        Head::Share(_) => false,
        _ => true,
    }
}

fn add_over(alloc: Global, saying: Saying, roots: &mut Roots) -> Result<(), Unmade>
    requires { opens saying.clause ≡ true }
    ensures { Leaves result (made saying roots.old) roots.new }
{
    let Saying { indent, clause } = saying;
    let part = grown(alloc, clause.line, clause.head, indent, roots)?;
    roots.push(Root { indent, part })?;
    Ok(())
}

fn add_alone(alloc: Global, saying: Saying, roots: &mut Roots) -> Result<(), Unmade>
    requires { opens saying.clause ≡ false }
    ensures { Leaves result (made saying roots.old) roots.new }
{
    let Saying { indent, clause } = saying;
    let part = alone(alloc, clause.line, clause.head, clause.beside)?;
    roots.push(Root { indent, part })?;
    Ok(())
}

/// One line more at the front.
pub(crate) fn add(alloc: Global, saying: Saying, roots: &mut Roots) -> Result<(), Unmade>
    ensures { Leaves result (made saying roots.old) roots.new }
{
    if opens(&saying.clause) {
        add_over(alloc, saying, roots)
    } else {
        add_alone(alloc, saying, roots)
    }
}
