//! The answer to a command.
ghost use Rattle.std.specs.Prelude.{◌≡◌, ◌⊎◌, ℕ, List, Option, None, Some, true, [], IsTrue, IfOk, OnOk, IsErrOf};
ghost use Rattle.abc_num.specs.declared.lines.RawLine.{RawLine};
ghost use Rattle.abc_tree.specs.declared.commands.Item.TheVariants as item;
ghost use Rattle.abc_groups.specs.Program.{LAST_LINE};
ghost use Rattle.abc_sound.specs.Checked.{IsReadCommand};
ghost use Rattle.abc_eval.specs.Runs.{IsAccepted, outcome_of};
ghost use Rattle.abc_parse.specs.RegularTemplates.{CommandIsRegular};
ghost use Rattle.abc_reader.specs.Reading.{IsReader};
ghost use Rattle.abc_store.specs.Commit.{Holds};
ghost use Rattle.abc_store.specs.View.{work_of};
ghost use Rattle.abc_outcome.specs.Answers.{NothingDone};
ghost use Rattle.abc_outcome.specs.Outcome.{command_outcome, on_end, run_of, run_outcome};
ghost use Rattle.abc_outcome.specs.inner.Answering.{Answers, IsAnswered};
ghost use Rattle.abc_outcome.specs.Checks.{IsUpToDate, TakesCommand, TellsOf, TellsTypeLine};
ghost use Rattle.abc_outcome.specs.Missing.{called_by, first_missing};
ghost use Rattle.abc_outcome.specs.inner.Running.{Runs};
ghost use Rattle.abc_outcome.specs.inner.Settling.{Settles};
ghost use Rattle.abc_outcome.specs.inner.Steps.{Hinders, IsHindered, hindrance, if_unfit};

use crate::checks::{accept, command_type_line};
use crate::keeping::keep_targets;
use crate::missing::missing_of;
use crate::names::run_fault_name;
use crate::replies::{missing, refusal};
use crate::{Answer, AnswerFault};
use abc_check::Checker;
use abc_eval::{Outcome, Ran, run_item};
use abc_frames::Targets;
use abc_outside::Host;
use abc_reader::{Reader, ReaderLines};
use abc_store::Store;
use abc_tree::Command;
use std::alloc::Global;

/// What a command leaves: how it ended, the targets then, and what it wrote.
#[derive(Drop)]
pub(crate) struct Left {
    end: Outcome,
    targets: Targets,
    output: Vec<u8>,
}

/// Answers a command.
pub(crate) fn answer_command<H: Host>(
    alloc: Global,
    store: &mut Store,
    checker: &mut Option<Checker>,
    host: &mut H,
    reader: &mut Reader,
    command: &Command,
    k: u64,
    steps: u64,
) -> Result<Answer, AnswerFault>
    requires sound { IsTrue store.old.sound }
    requires holds { H.tells_image → Holds (H.now host.old).image (work_of store.old) }
    requires same_count { (H.now host.old).taken ≡ reader.old.taken }
    requires at_end { H.tells_input → reader.old.ended ≡ true → (H.now host.old).left ≡ [] }
    requires is_reader { IsReader reader.old }
    requires up_to_date { IsUpToDate checker.old store.old.kept.units }
    requires regular { CommandIsRegular command.now }
    requires read { IsReadCommand command.now }
    ensures comes { (line : Option ℕ) → TellsOf store.old.kept (Some (item.Command command.now)) line
        → Answers H.tells_image H.tells_input H.tells_said H.now H.clock H.stopped store.old store.new reader.old reader.new host.old host.new result
        (λ behind. command_outcome line store.old.bounds steps k (work_of store.old) behind command.now) }
    ensures told { ((line : Option ℕ) × TellsOf store.old.kept (Some (item.Command command.now)) line) ⊎ (IsErrOf result AnswerFault.Memory × NothingDone store.old store.new reader.old reader.new host.old host.new) }
    ensures answered { IsAnswered H.tells_image H.tells_input H.tells_said H.now H.clock H.stopped store.old store.new reader.old reader.new host.old host.new result }
    ensures up_to_date { ¬ (IsErrOf result AnswerFault.StoreFault) → IsUpToDate checker.new store.new.kept.units }
{
    if let Some(answer) = hindered(alloc, store, checker, command, k)? {
        return Ok(answer);
    }
    accept(store, command);
    answer_run(alloc, store, checker, host, reader, command, k, steps)
}

/// What keeps a command from running, as the answer: it reaches a missing unit, or no types fit it.
fn hindered(
    alloc: Global,
    store: &Store,
    checker: &mut Option<Checker>,
    command: &Command,
    k: u64,
) -> Result<Option<Answer>, AnswerFault>
    requires up_to_date { IsUpToDate checker.old store.now.kept.units }
    requires regular { CommandIsRegular command.now }
    ensures told { (line : Option ℕ) → TellsOf store.now.kept (Some (item.Command command.now)) line → IsHindered (hindrance line store.now.kept.units k command.now) result }
    ensures none_missing { IfOk result (λ found. found ≡ None → first_missing store.now.kept.units (called_by command.now) ≡ None) }
    ensures fits { IfOk result (λ found. found ≡ None → TakesCommand store.now.kept command.now LAST_LINE) }
    ensures hinders { Hinders result }
    ensures has_line { OnOk result ((line : Option ℕ) × TellsOf store.now.kept (Some (item.Command command.now)) line) }
    ensures up_to_date { IsUpToDate checker.new store.now.kept.units }
{
    let Some(unit) = missing_of(alloc, store.units(), command)? else {
        return unfit(alloc, store, checker, command, k);
    };
    let answer = missing(alloc, k, unit.line, unit.template.bytes())?;
    Ok(Some(answer))
}

/// What keeps a command from running that reaches no missing unit, as the answer: no types fit it.
fn unfit(
    alloc: Global,
    store: &Store,
    checker: &mut Option<Checker>,
    command: &Command,
    k: u64,
) -> Result<Option<Answer>, AnswerFault>
    requires up_to_date { IsUpToDate checker.old store.now.kept.units }
    requires regular { CommandIsRegular command.now }
    ensures told { (line : Option ℕ) → TellsTypeLine (TakesCommand store.now.kept command.now) LAST_LINE line → IsHindered (if_unfit k line) result }
    ensures fits { IfOk result (λ found. found ≡ None → TakesCommand store.now.kept command.now LAST_LINE) }
    ensures hinders { Hinders result }
    ensures has_line { OnOk result ((line : Option ℕ) × TellsTypeLine (TakesCommand store.now.kept command.now) LAST_LINE line) }
    ensures up_to_date { IsUpToDate checker.new store.now.kept.units }
{
    let Some(line) = command_type_line(alloc, store, checker, command)? else {
        return Ok(None);
    };
    let answer = refusal(alloc, k, Vec::new(alloc), line, "TypeFault")?;
    Ok(Some(answer))
}

/// Runs a command that is accepted, and answers it.
fn answer_run<H: Host>(
    alloc: Global,
    store: &mut Store,
    checker: &mut Option<Checker>,
    host: &mut H,
    reader: &mut Reader,
    command: &Command,
    k: u64,
    steps: u64,
) -> Result<Answer, AnswerFault>
    requires sound { IsTrue store.old.sound }
    requires holds { H.tells_image → Holds (H.now host.old).image (work_of store.old) }
    requires same_count { (H.now host.old).taken ≡ reader.old.taken }
    requires at_end { H.tells_input → reader.old.ended ≡ true → (H.now host.old).left ≡ [] }
    requires is_reader { IsReader reader.old }
    requires accepted { IsAccepted store.old.kept.units store.old.kept.targets command.now }
    requires up_to_date { IsUpToDate checker.old store.old.kept.units }
    ensures answers { Answers H.tells_image H.tells_input H.tells_said H.now H.clock H.stopped store.old store.new reader.old reader.new host.old host.new result
        (λ behind. run_outcome store.old.bounds steps k (work_of store.old) behind command.now) }
    ensures units { OnOk result (store.new.kept.units ≡ store.old.kept.units) }
    ensures up_to_date { IsUpToDate checker.new store.old.kept.units }
{
    let left = run(alloc, store, host, reader, command, steps)?;
    answer_left(alloc, store, checker, host, left, k)
}

/// Runs a command, which may take lines that stand behind it.
fn run<H: Host>(
    alloc: Global,
    store: &Store,
    host: &mut H,
    reader: &mut Reader,
    command: &Command,
    steps: u64,
) -> Result<Left, AnswerFault>
    requires same_count { (H.now host.old).taken ≡ reader.old.taken }
    requires at_end { H.tells_input → reader.old.ended ≡ true → (H.now host.old).left ≡ [] }
    requires is_reader { IsReader reader.old }
    requires accepted { IsAccepted store.now.kept.units store.now.kept.targets command.now }
    ensures { Runs H.tells_input H.tells_said H.now H.clock H.stopped reader.old reader.new host.old host.new result
        (λ behind. run_of steps store.now.kept behind command.now) }
{
    let mut lines = ReaderLines { reader, host };
    run_over(alloc, store, &mut lines, command, steps)
}

/// Runs a command over the units, over targets of its own, and over the lines of a reader.
fn run_over<H: Host>(
    alloc: Global,
    store: &Store,
    lines: &mut ReaderLines<'_, H>,
    command: &Command,
    steps: u64,
) -> Result<Left, AnswerFault>
    requires is_reader { IsReader lines.old.reader.now }
    requires accepted { IsAccepted store.now.kept.units store.now.kept.targets command.now }
    ensures same_reader { lines.new.reader.ghost_name ≡ lines.old.reader.ghost_name }
    ensures same_host { lines.new.host.ghost_name ≡ lines.old.host.ghost_name }
    ensures runs { Runs H.tells_input H.tells_said H.now H.clock H.stopped lines.old.reader.now lines.new.reader.now lines.old.host.now lines.new.host.now result
        (λ behind. run_of steps store.now.kept behind command.now) }
{
    let mut targets = store.working()?;
    let ran = run_item(alloc, command, store.units(), &mut targets, lines, steps);
    lines.reader.is_reader();
    let Ran {
        outcome,
        output,
        ..
    } = ran?;
    Ok(Left {
        end: outcome,
        targets,
        output: output.into_vec(),
    })
}

/// Answers a command that left this.
fn answer_left<H: Host>(
    alloc: Global,
    store: &mut Store,
    checker: &mut Option<Checker>,
    host: &mut H,
    left: Left,
    k: u64,
) -> Result<Answer, AnswerFault>
    requires sound { IsTrue store.old.sound }
    requires holds { H.tells_image → Holds (H.now host.old).image (work_of store.old) }
    requires up_to_date { IsUpToDate checker.old store.old.kept.units }
    ensures settles { (lines : List RawLine) → Settles H.tells_image H.now H.clock H.stopped store.old store.new host.old host.new result lines
        (on_end store.old.bounds k (work_of store.old) lines left.output.items left.targets (outcome_of left.end)) }
    ensures up_to_date { IsUpToDate checker.new store.old.kept.units }
{
    let Left {
        end,
        targets,
        output,
    } = left;
    match end {
        Outcome::Done => keep_targets(alloc, store, checker, host, &targets, output, false, k),
        Outcome::Quit => keep_targets(alloc, store, checker, host, &targets, output, true, k),
        Outcome::Fault { line, fault } => refusal(alloc, k, output, line, run_fault_name(fault)),
    }
}
