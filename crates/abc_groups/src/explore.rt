//! What is reached from some templates. Each unit that is reached is read once.
ghost use Rattle.std.specs.Prelude.{◌≡◌, ◌<◌, length, option_map, IfOk};
ghost use Rattle.abc_num.specs.Names.{AreDifferent};
ghost use Rattle.abc_groups.specs.Program.{if_any, texts};
ghost use Rattle.abc_groups.specs.inner.Explored.{IsExplored};

use crate::found::Found;
use crate::program::Program;
use abc_num::{Items, OutOfMemory};
use abc_tree::Template;
use std::alloc::Global;

/// The templates that were found, the numbers of those that each calls, and whether its unit is there.
#[derive(Drop)]
pub(crate) struct Explored {
    pub(crate) templates: Vec<Template>,
    pub(crate) rows: Vec<Items<usize>>,
    pub(crate) there: Vec<bool>,
}

/// The templates, if there are any.
pub(crate) fn listed(alloc: Global, called: Option<Vec<Template>>) -> Vec<Template>
    ensures { texts result.items ≡ if_any (option_map (λ ts. texts ts.items) called) }
{
    match called {
        Some(templates) => templates,
        None => Vec::new(alloc),
    }
}

/// Finds all that is reached from these templates. Each new one goes last, so those behind `rows` are still to be read.
pub(crate) fn explore<P: Program>(
    alloc: Global,
    program: &P,
    from: &[Template],
) -> Result<Explored, OutOfMemory>
    requires { P.fits program.now }
    ensures explored { IfOk result (λ e. IsExplored (P.tells program.now) (texts from.now) (texts e.templates.items) e.rows.items e.there.items) }
    ensures different { IfOk result (λ e. AreDifferent (texts e.templates.items)) }
    ensures whole { IfOk result (λ e. length e.rows.items ≡ length e.templates.items) }
{
    let mut found = Found::new(alloc);
    let mut rows = Vec::new(alloc);
    let mut there = Vec::new(alloc);
    let _seeds = found.row(from)?;
    'found: while let Some(t) = found.templates.get(rows.len()) {
        let called = program.called(alloc, t)?;
        there.push(called.is_some())?;
        let called = listed(alloc, called);
        rows.push(found.row(&called)?)?;
    }
    Ok(Explored {
        templates: found.templates,
        rows,
        there,
    })
}
