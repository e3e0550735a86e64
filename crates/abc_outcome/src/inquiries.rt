//! The answer to a line that asks about the workspace.
ghost use Rattle.std.specs.Prelude.{◌≡◌, ◌∷◌, [], IfOk, IsErrOf, IsTrue};
ghost use Rattle.abc_inquiry.specs.Laws.{CanBeSpelled};
ghost use Rattle.abc_record.specs.declared.change.Change.TheVariants.{DropUnit};
ghost use Rattle.abc_record.specs.Kept.{IsKeptText};
ghost use Rattle.abc_store.specs.Commit.{Holds};
ghost use Rattle.abc_store.specs.View.{work_of};
ghost use Rattle.abc_outcome.specs.Checks.{IsUpToDate};
ghost use Rattle.abc_outcome.specs.Outcome.{Behind, drop_outcome, inquiry_outcome, on_inquiry};
ghost use Rattle.abc_outcome.specs.inner.Settling.{Settles};
ghost use Rattle.abc_outcome.specs.inner.Steps.{IsSpelledAnswer};

use crate::keeping::{Ending, keep};
use crate::replies::{ok_line, refusal, showing};
use crate::{Answer, AnswerFault};
use abc_check::Checker;
use abc_inquiry::{Answered, answer_environment, dropping_keeps_within_limits};
use abc_num::{OutOfMemory, Text};
use abc_outside::Host;
use abc_record::Change;
use abc_store::Store;
use abc_store::laws::dropping_stays_typed;
use abc_tree::Environment;
use std::alloc::Global;

/// Answers a line that asks about the workspace.
pub(crate) fn answer_inquiry<H: Host>(
    alloc: Global,
    store: &mut Store,
    checker: &mut Option<Checker>,
    host: &mut H,
    asked: &Environment,
    k: u64,
) -> Result<Answer, AnswerFault>
    requires sound { IsTrue store.old.sound }
    requires holds { H.tells_image → Holds (H.now host.old).image (work_of store.old) }
    requires spelled { CanBeSpelled asked.now }
    requires up_to_date { IsUpToDate checker.old store.old.kept.units }
    ensures settles { (behind : Behind) → Settles H.tells_image H.now H.clock H.stopped store.old store.new host.old host.new result behind.lines
        (inquiry_outcome store.old.bounds k (work_of store.old) behind asked.now) }
    ensures up_to_date { ¬ (IsErrOf result AnswerFault.StoreFault) → IsUpToDate checker.new store.new.kept.units }
{
    let found = answer_environment(alloc, store, asked)?;
    answer_found(alloc, store, checker, host, found, k)
}

/// Answers a line for which this was found.
fn answer_found<H: Host>(
    alloc: Global,
    store: &mut Store,
    checker: &mut Option<Checker>,
    host: &mut H,
    found: Answered,
    k: u64,
) -> Result<Answer, AnswerFault>
    requires sound { IsTrue store.old.sound }
    requires holds { H.tells_image → Holds (H.now host.old).image (work_of store.old) }
    requires spelled { IsSpelledAnswer found }
    requires up_to_date { IsUpToDate checker.old store.old.kept.units }
    ensures settles { (behind : Behind) → Settles H.tells_image H.now H.clock H.stopped store.old store.new host.old host.new result behind.lines
        (on_inquiry store.old.bounds k (work_of store.old) behind.lines found) }
    ensures up_to_date { ¬ (IsErrOf result AnswerFault.StoreFault) → IsUpToDate checker.new store.new.kept.units }
{
    match found {
        Answered::Shows(output) => showing(alloc, k, output.into_vec()),
        Answered::Drops(template) => drop_unit(alloc, store, checker, host, template, k),
        Answered::NoUnit => refusal(alloc, k, Vec::new(alloc), 1, "NoUnit"),
        Answered::NoTarget => refusal(alloc, k, Vec::new(alloc), 1, "NoTarget"),
        Answered::TooLong => refusal(alloc, k, Vec::new(alloc), 1, "TooLong"),
    }
}

/// Takes a unit out of the store. What the type check knew of the units is forgotten.
fn drop_unit<H: Host>(
    alloc: Global,
    store: &mut Store,
    checker: &mut Option<Checker>,
    host: &mut H,
    template: Text,
    k: u64,
) -> Result<Answer, AnswerFault>
    requires sound { IsTrue store.old.sound }
    requires holds { H.tells_image → Holds (H.now host.old).image (work_of store.old) }
    requires spelled { IsKeptText template }
    requires up_to_date { IsUpToDate checker.old store.old.kept.units }
    ensures settles { (behind : Behind) → Settles H.tells_image H.now H.clock H.stopped store.old store.new host.old host.new result behind.lines
        (drop_outcome store.old.bounds k (work_of store.old) behind.lines template) }
    ensures up_to_date { ¬ (IsErrOf result AnswerFault.StoreFault) → IsUpToDate checker.new store.new.kept.units }
{
    // Their clauses tell what holds of the targets and units of the store.
    let _there = store.targets();
    let _units = store.units();
    dropping_keeps_within_limits();
    dropping_stays_typed();
    let ending = Ending {
        output: Vec::new(alloc),
        line: ok_line(alloc, k)?,
        quit: false,
    };
    let changes = dropping(alloc, template)?;
    *checker = None;
    keep(alloc, store, host, changes, ending, k)
}

/// The change that takes a unit out.
fn dropping(alloc: Global, template: Text) -> Result<Vec<Change>, OutOfMemory>
    ensures { IfOk result (λ changes. changes.items ≡ DropUnit template ∷ []) }
{
    let mut changes = Vec::new(alloc);
    changes.push(Change::DropUnit { template })?;
    Ok(changes)
}
