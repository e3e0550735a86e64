//! The answer to one item.
ghost use Rattle.std.specs.Prelude.{◌≡◌, ◌<◌, ◌⊎◌, ℕ, [], true, length, Option, IfOk, IsErrOf, IsTrue};
ghost use Rattle.std.specs.List.{AllByRecursion};
ghost use Rattle.abc_outline.specs.Rows.{IsShort};
ghost use Rattle.abc_parse.specs.RegularTemplates.{HasRegularTemplates};
ghost use Rattle.abc_parse.specs.RegularTrees.{IsNumberedItem, IsRegularItem};
ghost use Rattle.abc_reader.specs.Reading.{IsReader};
ghost use Rattle.abc_store.specs.Commit.{Holds};
ghost use Rattle.abc_store.specs.View.{work_of};
ghost use Rattle.abc_outcome.specs.Answers.{ComesTo, Keeps, NothingDone};
ghost use Rattle.abc_outcome.specs.Checks.{IsTypeLineOf, IsUpToDate, TellsOf};
ghost use Rattle.abc_outcome.specs.Outcome.{Behind, Outcome, outcome};
ghost use Rattle.abc_outcome.specs.inner.Answering.{Answers, IsAnswered};
ghost use Rattle.abc_outcome.specs.inner.Steps.{ComesOf, HasTypeLine, IsSpelledItem, item_in};

use crate::commands::answer_command;
use crate::inquiries::answer_inquiry;
use crate::names::fault_name;
use crate::replies::refusal;
use crate::units::answer_unit;
use abc_check::Checker;
use abc_eval::RunStop;
use abc_inquiry::asked_can_be_spelled;
use abc_num::{ItemLines, OutOfMemory, Text};
use abc_outside::Host;
use abc_parse::{ItemFault, parse_item};
use abc_reader::Reader;
use abc_store::Store;
use abc_store::laws::units_are_set;
use abc_tree::Item;
use std::alloc::Global;

/// What is answered to an item.
#[derive(Debug, Drop)]
pub struct Answer {
    /// What it wrote or shows, and its reply line, each line with its LF.
    pub reply: Text,
    /// The session ends with this item.
    pub quit: bool,
}

/// Why an item is not answered.
#[derive(Clone, Copy, Debug, PartialEq, Eq)]
pub enum AnswerFault {
    /// The input failed where the item wants a line.
    Input,
    /// The bytes that may be taken from the input are all taken, and the item wants a line.
    Long,
    /// A call on the store failed. The store isn't sound any more.
    StoreFault,
    /// There was not enough memory.
    Memory,
}

impl From<OutOfMemory> for AnswerFault {
    ghost use Rattle.std.specs.Prelude.{◌≡◌};
    ghost use Rattle.abc_outcome.specs.declared.answering.AnswerFault.TheVariants.{Memory};

    ghost from_gives = { λ _ fault. fault ≡ Memory };

    fn from(_refused: OutOfMemory) -> AnswerFault {
        AnswerFault::Memory
    }
}

impl From<RunStop> for AnswerFault {
    ghost use Rattle.std.specs.Prelude.{◌≡◌};
    ghost use Rattle.abc_outcome.specs.Stops.{fault_of};

    ghost from_gives = { λ stop fault. fault ≡ fault_of stop };

    fn from(stop: RunStop) -> AnswerFault {
        match stop {
            RunStop::Input => AnswerFault::Input,
            RunStop::Long => AnswerFault::Long,
            RunStop::Memory => AnswerFault::Memory,
        }
    }
}

/// Answers item `k`, which may take so many steps, and lines that stand behind it where it reads: runs it over a copy of the
/// targets, makes up its reply, and keeps what it changes. What the item does comes first of its cost; the names of the targets
/// are copied for the parser, the targets for the run, and what has changed is found by one pass over both. Of the units only
/// those that the item reaches are read; but a unit is checked together with all of them, and so is the first command after units
/// have changed, where there is no checker of them yet.
///
/// Errors: `StoreFault` where a call of the host on the store failed; then the store isn't sound any more, and its image opens to
/// the workspace before the item or after it. `Input` where a read failed, and `Long` where as many bytes as the bound were
/// taken, each while the item wants a line; and `Memory`: they change nothing in the store, and the reader isn't used again then.
/// After every answer but `StoreFault` the checker, if there is one, knows the units of the store.
pub fn answer_item<H: Host>(
    alloc: Global,
    store: &mut Store,
    checker: &mut Option<Checker>,
    host: &mut H,
    reader: &mut Reader,
    item: &ItemLines,
    k: u64,
    steps: u64,
) -> Result<Answer, AnswerFault>
    requires sound { IsTrue store.old.sound }
    requires holds { H.tells_image → Holds (H.now host.old).image (work_of store.old) }
    requires same_count { (H.now host.old).taken ≡ reader.old.taken }
    requires at_end { H.tells_input → reader.old.ended ≡ true → (H.now host.old).left ≡ [] }
    requires some { 0 < length item.now }
    requires short { AllByRecursion IsShort item.now }
    requires up_to_date { IsUpToDate checker.old store.old.kept.units }
    ensures comes { (line : Option ℕ) → IsTypeLineOf store.old.kept item.now line
        → ComesTo H.tells_image H.tells_input H.tells_said H.now H.clock H.stopped store.old store.new reader.old reader.new host.old host.new result
        (outcome line store.old.bounds steps k (work_of store.old) item.now) }
    ensures told { ((line : Option ℕ) × IsTypeLineOf store.old.kept item.now line) ⊎ (IsErrOf result AnswerFault.Memory × NothingDone store.old store.new reader.old reader.new host.old host.new) }
    ensures keeps { Keeps H.tells_image H.tells_input H.tells_said H.now H.clock H.stopped store.old store.new reader.old reader.new host.old host.new result }
    ensures up_to_date { ¬ (IsErrOf result AnswerFault.StoreFault) → IsUpToDate checker.new store.new.kept.units }
{
    reader.is_reader();
    let names = store.targets().names()?;
    units_are_set();
    asked_can_be_spelled();
    answer_parsed(
        alloc,
        store,
        checker,
        host,
        reader,
        parse_item(alloc, item, &names),
        k,
        steps,
    )
}

/// Answers an item that was read, or the fault that stands in it.
fn answer_parsed<H: Host>(
    alloc: Global,
    store: &mut Store,
    checker: &mut Option<Checker>,
    host: &mut H,
    reader: &mut Reader,
    parsed: Result<Item, ItemFault>,
    k: u64,
    steps: u64,
) -> Result<Answer, AnswerFault>
    requires sound { IsTrue store.old.sound }
    requires holds { H.tells_image → Holds (H.now host.old).image (work_of store.old) }
    requires same_count { (H.now host.old).taken ≡ reader.old.taken }
    requires at_end { H.tells_input → reader.old.ended ≡ true → (H.now host.old).left ≡ [] }
    requires is_reader { IsReader reader.old }
    requires spelled { IfOk parsed IsSpelledItem }
    requires regular { IfOk parsed HasRegularTemplates }
    requires read { IfOk parsed IsRegularItem }
    requires numbers { IfOk parsed IsNumberedItem }
    requires up_to_date { IsUpToDate checker.old store.old.kept.units }
    ensures comes { (line : Option ℕ) → TellsOf store.old.kept (item_in parsed) line → (out : Behind → Outcome) → ComesOf line store.old.bounds steps k (work_of store.old) parsed out
        → Answers H.tells_image H.tells_input H.tells_said H.now H.clock H.stopped store.old store.new reader.old reader.new host.old host.new result out }
    ensures answered { IsAnswered H.tells_image H.tells_input H.tells_said H.now H.clock H.stopped store.old store.new reader.old reader.new host.old host.new result }
    ensures told { HasTypeLine store.old.kept parsed ⊎ (IsErrOf result AnswerFault.Memory × NothingDone store.old store.new reader.old reader.new host.old host.new) }
    ensures up_to_date { ¬ (IsErrOf result AnswerFault.StoreFault) → IsUpToDate checker.new store.new.kept.units }
{
    match parsed {
        Ok(Item::Command(command)) => {
            answer_command(alloc, store, checker, host, reader, &command, k, steps)
        }
        Ok(Item::Unit(unit)) => answer_unit(alloc, store, checker, host, unit, k),
        Ok(Item::Environment(asked)) => answer_inquiry(alloc, store, checker, host, &asked, k),
        Err(ItemFault::At(fault)) => {
            refusal(
                alloc,
                k,
                Vec::new(alloc),
                fault.line,
                fault_name(fault.kind),
            )
        }
        Err(ItemFault::Memory) => Err(AnswerFault::Memory),
    }
}
