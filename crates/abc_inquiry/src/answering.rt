//! The answer to a line that asks about the workspace.
ghost use Rattle.std.specs.Prelude.{◌≡◌, List, ℕ, IfOk};
ghost use Rattle.abc_inquiry.specs.Inquiry.{within, inquiry};
ghost use Rattle.abc_inquiry.specs.inner.Writing.{IsWritten};

use crate::writing::{write_lines, write_names, write_templates};
use abc_num::limits::MOST_OUTPUT;
use abc_num::{OutOfMemory, Text};
use abc_store::Store;
use abc_tree::Environment;
use abc_value::{PrintFault, display_of};
use std::alloc::Global;

/// What is answered to a line that asks about the workspace.
#[derive(Debug, PartialEq, Eq, Drop)]
pub enum Answered {
    /// This is shown.
    Shows(Text),
    /// The unit whose template is written so is taken out.
    Drops(Text),
    /// There is no unit whose template is written so.
    NoUnit,
    /// The target has no value.
    NoTarget,
    /// What is to be shown is longer than an item may write.
    TooLong,
}

/// The answer that shows what was written.
fn shown(written: Result<Vec<u8>, PrintFault>) -> Result<Answered, OutOfMemory>
    ensures { (output : List ℕ) → IsWritten output written → IfOk result (λ answered. answered ≡ within output) }
{
    match written {
        Ok(bytes) => Ok(Answered::Shows(Text::from_vec(bytes))),
        Err(PrintFault::TooLong) => Ok(Answered::TooLong),
        Err(PrintFault::Memory) => Err(OutOfMemory),
    }
}

/// Answers a line that asks about the workspace of the store, which stays as it is. It goes through all units for their
/// templates alone, and through all targets for their names alone.
pub fn answer_environment(
    alloc: Global,
    store: &Store,
    asked: &Environment,
) -> Result<Answered, OutOfMemory>
    ensures { IfOk result (λ answered. answered ≡ inquiry store.now.kept asked.now) }
{
    match asked {
        Environment::Units => shown(write_templates(alloc, store.units())),
        Environment::Targets => {
            let names = store.targets().names()?;
            shown(write_names(alloc, &names))
        }
        Environment::ShowUnit(template) => match store.unit(template.bytes())? {
            Some(unit) => shown(write_lines(alloc, unit.lines.as_slice())),
            None => Ok(Answered::NoUnit),
        },
        Environment::ShowTarget(name) => match store.targets().look(name) {
            Some(value) => shown(display_of(alloc, value, MOST_OUTPUT)),
            None => Ok(Answered::NoTarget),
        },
        Environment::RemoveUnit(template) => {
            if store.unit(template.bytes())?.is_none() {
                return Ok(Answered::NoUnit);
            }
            Ok(Answered::Drops(Text::of(alloc, template.bytes())?))
        }
    }
}
