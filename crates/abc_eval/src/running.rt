//! The run of an immediate command, whole or not at all.
ghost use Rattle.std.specs.Prelude.{◌≡◌, ◌≤◌, ◌+◌, ◌⊎◌, ℕ, true, IfOk, IfErr, OnErr, IsErrOf};
ghost use Rattle.abc_num.specs.declared.limits.TheConstants.{MOST_DEPTH};
ghost use Rattle.abc_outside.specs.Lines.{lines_in, Called, Failed};
ghost use Rattle.abc_outside.specs.Outside.{RoseByOne};
ghost use Rattle.abc_meaning.specs.Laws.{wants_line};
ghost use Rattle.abc_meaning.specs.Meaning.{meaning};
ghost use Rattle.abc_meaning.specs.Ran.{ran, standing, starting};
ghost use Rattle.abc_ground.specs.Groups.{whole};
ghost use Rattle.abc_ground.specs.Typable.{IsTypable};
ghost use Rattle.abc_sound.specs.Checked.{IsNeverWrong};
ghost use Rattle.abc_value.specs.declared.faults.RunFault.{RunFault};
ghost use Rattle.abc_machine.specs.Outcomes.{TellsNoMemory as EndTellsNoMemory};
ghost use Rattle.abc_eval.specs.Runs.{TellsNoMemory, IsAccepted, IsRun, WantsLine, WantsThere};
ghost use Rattle.abc_machine.specs.Machine.{IsBusy, IsOf, pending, state_within};
ghost use Rattle.abc_eval.specs.inner.Coming.{Comes, Ends, end_as, targets_after};

use crate::Outcome;
use abc_frames::{Kept, Targets};
use abc_machine::{Machine, Outcome as End, RunStop, Stepped};
use abc_meaning::values_stay_regular;
use abc_num::Text;
use abc_outside::Lines;
use abc_sound::checked_items_are_never_wrong;
use abc_tree::{Command, Units};
use std::alloc::Global;

/// A run of an immediate command.
#[derive(Drop)]
pub struct Ran {
    pub outcome: Outcome,
    pub output: Text,
    pub steps: u64,
}

/// Runs an immediate command that was accepted, which may take so many steps. It is never wrong, and the targets stay typable with the
/// units. After a fault and after an error the targets are as before; lines that were taken stay taken. The targets are copied once,
/// before the first step.
#[tactic(auto, using(crate::proofs::PuttingBack::run_after))]
pub fn run_item<L: Lines>(
    alloc: Global,
    c: &Command,
    units: &Units,
    targets: &mut Targets,
    lines: &mut L,
    steps: u64,
) -> Result<Ran, RunStop>
    requires accepted { IsAccepted units.now targets.old c.now }
    ensures may_be { (input : L.Input) → L.may_be input lines.new → L.may_be input lines.old }
    ensures ran { (input : L.Input) → L.may_be input lines.new → IsRun result targets.new (lines_in (L.unread input lines.new)) (ran units.now MOST_DEPTH c.now targets.old (lines_in (L.unread input lines.old)) (L.unread input lines.old).ends steps) }
    ensures never { (input : L.Input) → IsNeverWrong (ran units.now MOST_DEPTH c.now targets.old (lines_in (L.unread input lines.old)) (L.unread input lines.old).ends steps).outcome }
    ensures typable { (input : L.Input) → L.may_be input lines.new → IsTypable targets.new (whole units.now) }
    ensures memory { IfOk result (λ r. TellsNoMemory r.outcome) }
    ensures steps { IfOk result (λ r. r.steps ≤ steps) }
    ensures kept { OnErr result (targets.new ≡ targets.old) }
    ensures faulted { IfOk result (λ r. (line : ℕ) (fault : RunFault) → r.outcome ≡ Outcome.Fault line fault → targets.new ≡ targets.old) }
    ensures bound { L.bound lines.new ≡ L.bound lines.old }
    ensures taken { L.taken lines.old ≤ L.taken lines.new }
    ensures long { IsErrOf result RunStop.Long → L.taken lines.new ≡ L.bound lines.new }
    ensures input { IsErrOf result RunStop.Input → RoseByOne (L.faults lines.old) (L.faults lines.new) }
    ensures faultless { ¬ (IsErrOf result RunStop.Input) → L.faults lines.new ≡ L.faults lines.old }
    ensures calls { Called L.reads_on (WantsThere L.may_be L.unread (λ input. WantsLine (ran units.now MOST_DEPTH c.now targets.old (lines_in (L.unread input lines.old)) (L.unread input lines.old).ends steps))) lines.old lines.new }
    ensures failed { (IsErrOf result RunStop.Long ⊎ IsErrOf result RunStop.Input) → Failed L.failed (WantsThere L.may_be L.unread (λ input. WantsLine (ran units.now MOST_DEPTH c.now targets.old (lines_in (L.unread input lines.old)) (L.unread input lines.old).ends steps))) lines.new }
{
    checked_items_are_never_wrong();
    values_stay_regular();
    let before = match targets.keep() {
        Ok(kept) => kept,
        Err(_) => return Err(RunStop::Memory),
    };
    let answer = run(alloc, c, units, targets, lines, steps);
    put_back_unless_done(targets, before, &answer);
    answer
}

/// Runs the command from its start, and leaves the targets as they then are.
fn run<L: Lines>(
    alloc: Global,
    c: &Command,
    units: &Units,
    targets: &mut Targets,
    lines: &mut L,
    budget: u64,
) -> Result<Ran, RunStop>
    ensures may_be { (input : L.Input) → L.may_be input lines.new → L.may_be input lines.old }
    ensures ran { (input : L.Input) → L.may_be input lines.new → Comes result targets.new (L.unread input lines.new) budget ((meaning units.now (MOST_DEPTH + 1)).acts (standing c.now) c.now.action (starting targets.old (lines_in (L.unread input lines.old)) (L.unread input lines.old).ends budget)) }
    ensures memory { IfOk result (λ r. TellsNoMemory r.outcome) }
    ensures steps { IfOk result (λ r. r.steps ≤ budget) }
    ensures bound { L.bound lines.new ≡ L.bound lines.old }
    ensures taken { L.taken lines.old ≤ L.taken lines.new }
    ensures long { IsErrOf result RunStop.Long → L.taken lines.new ≡ L.bound lines.new }
    ensures input { IsErrOf result RunStop.Input → RoseByOne (L.faults lines.old) (L.faults lines.new) }
    ensures faultless { ¬ (IsErrOf result RunStop.Input) → L.faults lines.new ≡ L.faults lines.old }
    ensures calls { Called L.reads_on (WantsThere L.may_be L.unread (λ input. wants_line ((meaning units.now (MOST_DEPTH + 1)).acts (standing c.now) c.now.action (starting targets.old (lines_in (L.unread input lines.old)) (L.unread input lines.old).ends budget)) ≡ true)) lines.old lines.new }
    ensures failed { (IsErrOf result RunStop.Long ⊎ IsErrOf result RunStop.Input) → Failed L.failed (WantsThere L.may_be L.unread (λ input. wants_line ((meaning units.now (MOST_DEPTH + 1)).acts (standing c.now) c.now.action (starting targets.old (lines_in (L.unread input lines.old)) (L.unread input lines.old).ends budget)) ≡ true)) lines.new }
{
    let mut machine = match Machine::start(alloc, c) {
        Ok(machine) => machine,
        Err(_) => return Err(RunStop::Memory),
    };
    match drive(&mut machine, units, targets, lines, budget) {
        Ok(end) => ended(machine, end),
        Err(stop) => Err(stop),
    }
}

/// Takes one step after the other, until the run ends.
fn drive<'a, L: Lines>(
    machine: &mut Machine<'a>,
    units: &'a Units,
    targets: &mut Targets,
    lines: &mut L,
    budget: u64,
) -> Result<End, RunStop>
    requires busy { IsBusy machine.old }
    requires of { IsOf units.now machine.old }
    requires steps { machine.old.steps ≤ budget }
    ensures may_be { (input : L.Input) → L.may_be input lines.new → L.may_be input lines.old }
    ensures ends { (input : L.Input) → L.may_be input lines.new → Ends result (state_within machine.new targets.new (L.unread input lines.new) budget) (pending units.now machine.old (state_within machine.old targets.old (L.unread input lines.old) budget)) }
    ensures memory { IfOk result EndTellsNoMemory }
    ensures steps { machine.new.steps ≤ budget }
    ensures bound { L.bound lines.new ≡ L.bound lines.old }
    ensures taken { L.taken lines.old ≤ L.taken lines.new }
    ensures long { IsErrOf result RunStop.Long → L.taken lines.new ≡ L.bound lines.new }
    ensures input { IsErrOf result RunStop.Input → RoseByOne (L.faults lines.old) (L.faults lines.new) }
    ensures faultless { ¬ (IsErrOf result RunStop.Input) → L.faults lines.new ≡ L.faults lines.old }
    ensures calls { Called L.reads_on (WantsThere L.may_be L.unread (λ input. wants_line (pending units.now machine.old (state_within machine.old targets.old (L.unread input lines.old) budget)) ≡ true)) lines.old lines.new }
    ensures failed { (IsErrOf result RunStop.Long ⊎ IsErrOf result RunStop.Input) → Failed L.failed (WantsThere L.may_be L.unread (λ input. wants_line (pending units.now machine.old (state_within machine.old targets.old (L.unread input lines.old) budget)) ≡ true)) lines.new }
{
    'turn: loop {
        match machine.step(targets, units, lines, budget) {
            Ok(Stepped::More) => {}
            Ok(Stepped::End(end)) => return Ok(end),
            Err(stop) => return Err(stop),
        }
    }
}

/// What a machine that has ended so leaves. No input leads an accepted command to Wrong. Where the lines tell nothing of their input
/// nothing is known of the run, so that end is told as want of memory.
fn ended(machine: Machine<'_>, end: End) -> Result<Ran, RunStop>
    ensures outcome { IfOk result (λ r. end_as r.outcome ≡ end) }
    ensures output { IfOk result (λ r. r.output ≡ machine.entry.run.output) }
    ensures steps { IfOk result (λ r. r.steps ≡ machine.entry.steps) }
    ensures memory { IfErr result (λ stop. stop ≡ RunStop.Memory) }
{
    let steps = machine.steps();
    let output = machine.into_output();
    match end {
        End::Done => Ok(Ran {
            outcome: Outcome::Done,
            output,
            steps,
        }),
        End::Quit => Ok(Ran {
            outcome: Outcome::Quit,
            output,
            steps,
        }),
        End::Fault { line, fault } => Ok(Ran {
            outcome: Outcome::Fault { line, fault },
            output,
            steps,
        }),
        End::Wrong { line: _ } => Err(RunStop::Memory),
    }
}

/// The targets go back to those from before, unless the run came to its end.
fn put_back_unless_done(targets: &mut Targets, before: Kept, answer: &Result<Ran, RunStop>)
    ensures { targets.new ≡ targets_after answer.now before targets.old }
{
    match answer {
        Ok(ran) => match ran.outcome {
            Outcome::Done => {}
            Outcome::Quit => {}
            Outcome::Fault { line: _, fault: _ } => targets.back(before),
        },
        Err(_) => targets.back(before),
    }
}
