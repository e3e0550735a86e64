//! The machine: what is pending of a run, and one step of it.
ghost use Rattle.std.specs.Prelude.{◌≡◌, ◌≤◌, ◌+◌, ◌-◌, ◌<◌, ◌⊎◌, ℕ, Bool, true, List, [], Ok, IfOk, IsErrOf, IsNone, map};
ghost use Rattle.abc_num.specs.declared.limits.TheConstants.{MOST_DEPTH};
ghost use Rattle.abc_num.specs.declared.lines.RawLine.{RawLine};
ghost use Rattle.abc_tree.specs.declared.commands.Unit.{Unit as Routine};
ghost use Rattle.abc_frames.specs.Maps.{Targets as Store};
ghost use Rattle.abc_outside.specs.Lines.{Unread, lines_in, none_yet, Called, Failed};
ghost use Rattle.abc_outside.specs.Outside.{RoseByOne};
ghost use Rattle.abc_meaning.specs.Laws.{wants_line};
ghost use Rattle.abc_meaning.specs.Meaning.{meaning};
ghost use Rattle.abc_meaning.specs.Ran.{standing, starting};
ghost use Rattle.abc_state.specs.Views.{scope_of};
ghost use Rattle.abc_pending.specs.Leads.{as_flow, leads};
ghost use Rattle.abc_pending.specs.Steps.{state_with};
ghost use Rattle.abc_pending.specs.Views.{frame_of};
ghost use Rattle.abc_pending.specs.Weights.{number_of};
ghost use Rattle.abc_machine.specs.Pending.{given, given_weight, frames_weight};

use crate::moves::{Moved, advance};
use crate::outcome::{RunStop, Stepped};
use abc_frames::Targets;
use abc_num::limits::MOST_DEPTH;
use abc_num::{OutOfMemory, Stack, Text};
use abc_outside::Lines;
use abc_pending::{Doing, Place, Waiting};
use abc_state::{Run, Scope};
use abc_tree::{Command, Units};
use std::alloc::Global;

/// The pending work of a run, which refers to nodes of the command and of the units.
#[derive(Drop)]
pub struct Machine<'a> {
    alloc: Global,
    /// What it is at. None once the run has ended.
    pub doing: Option<Doing<'a>>,
    /// What waits.
    pub frames: Stack<Waiting<'a>>,
    /// The names of the command or unit that is under way.
    pub scope: Scope<'a>,
    pub run: Run,
    /// How many steps were taken.
    pub steps: u64,
}

impl<'a> Machine<'a> {
    ghost use Rattle.abc_machine.specs.Machine.{EndsWell, IfMore, IsBusy, IsOf, Steps, number, number_at, pending, state_within};

    /// The work of an immediate command, of which nothing is done yet.
    pub fn start(alloc: Global, c: &'a Command) -> Result<Machine<'a>, OutOfMemory>
        ensures leads { IfOk result (λ m. (units : List Routine) (targets : Store) (unread : Unread) (budget : ℕ) → pending units m (state_within m targets unread budget) ≡ as_flow ((meaning units (MOST_DEPTH + 1)).acts (standing c.now) c.now.action (starting targets (lines_in unread) unread.ends budget))) }
        ensures busy { IfOk result IsBusy }
        ensures of { IfOk result (λ m. (units : List Routine) → IsOf units m) }
        ensures steps { IfOk result (λ m. m.steps ≡ 0) }
    {
        let scope = Scope::of_command(alloc, c)?;
        let place = Place {
            line: c.action.line,
            levels: MOST_DEPTH + 1,
        };
        Ok(Machine {
            alloc,
            doing: Some(Doing::Item(place, &c.action)),
            frames: Stack::new(alloc),
            scope,
            run: Run::new(alloc, 0),
            steps: 0,
        })
    }

    /// One step of the work that is pending, where the run may take so many steps.
    pub fn step<L: Lines>(
        &mut self,
        targets: &mut Targets,
        units: &'a Units,
        lines: &mut L,
        budget: u64,
    ) -> Result<Stepped, RunStop>
        requires { IsBusy self.old }
        ensures may_be { (input : L.Input) → L.may_be input lines.new → L.may_be input lines.old }
        ensures leads { (input : L.Input) → L.may_be input lines.new → Steps units.now result self.new (state_within self.new targets.new (L.unread input lines.new) budget) (pending units.now self.old (state_within self.old targets.old (L.unread input lines.old) budget)) }
        ensures busy { IfMore result (IsBusy self.new) }
        ensures more { IsBusy self.new → result ≡ Ok Stepped.More }
        ensures of { IsOf units.now self.old → IfMore result (IsOf units.now self.new) }
        ensures steps { (self.old.steps ≤ self.new.steps) × (self.new.steps ≤ self.old.steps + 1) }
        ensures budget { self.old.steps ≤ budget → self.new.steps ≤ budget }
        ensures falls { IsOf units.now self.old → IfMore result (number units.now self.new budget < number units.now self.old budget) }
        ensures memory { EndsWell result }
        ensures bound { L.bound lines.new ≡ L.bound lines.old }
        ensures taken { L.taken lines.old ≤ L.taken lines.new }
        ensures long { IsErrOf result RunStop.Long → L.taken lines.new ≡ L.bound lines.new }
        ensures input { IsErrOf result RunStop.Input → RoseByOne (L.faults lines.old) (L.faults lines.new) }
        ensures faultless { ¬ (IsErrOf result RunStop.Input) → L.faults lines.new ≡ L.faults lines.old }
        ensures calls { Called L.reads_on (λ l. (l ≡ lines.old) × (wants_line (pending units.now self.old (state_within self.old targets.old none_yet budget)) ≡ true)) lines.old lines.new }
        ensures failed { (IsErrOf result RunStop.Long ⊎ IsErrOf result RunStop.Input) → Failed L.failed (λ l. (l ≡ lines.old) × (wants_line (pending units.now self.old (state_within self.old targets.old none_yet budget)) ≡ true)) lines.new }
    {
        let left = budget.saturating_sub(self.steps);
        self.run.left = left;
        let stepped = self.turn(targets, units, lines);
        self.steps += left - self.run.left;
        stepped
    }

    /// One step, where so many steps are left as the run holds.
    fn turn<L: Lines>(
        &mut self,
        targets: &mut Targets,
        units: &'a Units,
        lines: &mut L,
    ) -> Result<Stepped, RunStop>
        requires { IsBusy self.old }
        ensures may_be { (input : L.Input) → L.may_be input lines.new → L.may_be input lines.old }
        ensures leads { (input : L.Input) → L.may_be input lines.new → Steps units.now result self.new (state_with self.new.run targets.new (L.unread input lines.new)) (pending units.now self.old (state_with self.old.run targets.old (L.unread input lines.old))) }
        ensures busy { IfMore result (IsBusy self.new) }
        ensures more { IsBusy self.new → result ≡ Ok Stepped.More }
        ensures of { IsOf units.now self.old → IfMore result (IsOf units.now self.new) }
        ensures steps { self.new.steps ≡ self.old.steps }
        ensures left { (self.new.run.left ≤ self.old.run.left) × (self.old.run.left ≤ self.new.run.left + 1) }
        ensures falls { IsOf units.now self.old → IfMore result (number_at units.now self.new < number_at units.now self.old) }
        ensures memory { EndsWell result }
        ensures bound { L.bound lines.new ≡ L.bound lines.old }
        ensures taken { L.taken lines.old ≤ L.taken lines.new }
        ensures long { IsErrOf result RunStop.Long → L.taken lines.new ≡ L.bound lines.new }
        ensures input { IsErrOf result RunStop.Input → RoseByOne (L.faults lines.old) (L.faults lines.new) }
        ensures faultless { ¬ (IsErrOf result RunStop.Input) → L.faults lines.new ≡ L.faults lines.old }
        ensures calls { Called L.reads_on (λ l. (l ≡ lines.old) × (wants_line (pending units.now self.old (state_with self.old.run targets.old none_yet)) ≡ true)) lines.old lines.new }
        ensures failed { (IsErrOf result RunStop.Long ⊎ IsErrOf result RunStop.Input) → Failed L.failed (λ l. (l ≡ lines.old) × (wants_line (pending units.now self.old (state_with self.old.run targets.old none_yet)) ≡ true)) lines.new }
    {
        let Some(doing) = self.doing.take() else {
            unreachable!()
        };
        let moved = advance(
            self.alloc,
            units,
            &mut self.scope,
            doing,
            &mut self.frames,
            &mut self.run,
            targets,
            lines,
        );
        match moved {
            Ok(Moved::Goes(doing)) => {
                self.doing = Some(doing);
                Ok(Stepped::More)
            }
            Ok(Moved::Ends(outcome)) => Ok(Stepped::End(outcome)),
            Err(stop) => Err(stop),
        }
    }

    /// What was written.
    pub fn output(&self) -> &Text
        ensures { result.now ≡ self.now.run.output }
    {
        &self.run.output
    }

    /// What was written, of a machine that isn't used again.
    pub fn into_output(self) -> Text
        ensures { result ≡ self.entry.run.output }
    {
        let Machine {
            alloc: _,
            doing: _doing,
            frames: _frames,
            scope: _scope,
            run,
            steps: _,
        } = self;
        let Run {
            names: _names,
            formals: _formals,
            output,
            left: _,
        } = run;
        output
    }

    /// How many steps were taken.
    pub fn steps(&self) -> u64
        ensures { result ≡ self.now.steps }
    {
        self.steps
    }
}
