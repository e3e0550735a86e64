//! What is known of the units of a workspace that are typable by themselves, and checks of commands over it.
ghost use Rattle.std.specs.Prelude.{◌≡◌, ◌<◌, ◌≤◌, ◌↔◌, ◌++◌, [], ℕ, List, IsTrue, Err, IfOk, OnOk};
ghost use Rattle.abc_groups.specs.Program.{LAST_LINE};
ghost use Rattle.abc_terms.specs.declared.term.VarId.{VarId as TheVar};
ghost use Rattle.abc_tree.specs.Ordered.{RiseBy};
ghost use Rattle.abc_ground.specs.Groups.{Cut, template_of};
ghost use Rattle.abc_ground.specs.Typable.{Values, IsTypable, IsTypableWith, IsTypeLine};
ghost use Rattle.abc_scheme.specs.Later.{IsLater};
ghost use Rattle.abc_principal.specs.Exact.{cuts_of};
ghost use Rattle.abc_check.specs.Cuts.{CutsAreSpelled};
ghost use Rattle.abc_check.specs.Standing.{CallsAreSpelled, KnowsTypes, AreMade};
ghost use Rattle.abc_check.specs.inner.Halves.{Tells, IsCommandBetween};

use crate::asked::{Asked, asked_units};
use crate::asking::ask;
use crate::fault::{CheckFault, at_line_one, no_types};
use crate::lines::last_line;
use crate::units::known_units;
use crate::values::hold_values;
use abc_demand::TargetVars;
use abc_frames::Targets;
use abc_num::OutOfMemory;
use abc_principal::{Member, Principals};
use abc_tree::Command;
use abc_unify::{Graph, UnifyFault};
use std::alloc::Global;

/// The signatures that each unit may have, and the types that the targets may have beside the units.
#[derive(Drop)]
pub struct UnitTypes {
    pub alloc: Global,
    pub graph: Graph,
    pub targets: TargetVars,
    pub known: Principals,
}

/// What is asked and known, together.
fn types_of(alloc: Global, asked: Asked, known: Principals) -> UnitTypes
    ensures graph { result.graph ≡ asked.graph }
    ensures targets { result.targets ≡ asked.targets }
    ensures known { result.known ≡ known }
{
    let Asked { graph, targets } = asked;
    UnitTypes {
        alloc,
        graph,
        targets,
        known,
    }
}

impl UnitTypes {
    /// What is known of these units. Clash comes only where nothing is typable with them.
    pub(crate) fn over(alloc: Global, members: &[Member<'_>]) -> Result<UnitTypes, UnifyFault>
        requires { RiseBy template_of (cuts_of members.now) }
        ensures ok { IfOk result (λ types. CutsAreSpelled (cuts_of members.now) → KnowsTypes types [] (cuts_of members.now)) }
        ensures clash { result ≡ Err UnifyFault.Clash → CutsAreSpelled (cuts_of members.now) → (values : Values) → IsTypable values (cuts_of members.now) → ⊥ }
        ensures made { IfOk result AreMade }
    {
        let known = known_units(alloc, members)?;
        let asked = asked_units(alloc, members, &known)?;
        Ok(types_of(alloc, asked, known))
    }

    /// Whether the workspace is typable with these values of targets.
    pub(crate) fn fits(&mut self, targets: &Targets) -> Result<bool, OutOfMemory>
        requires { AreMade self.old }
        ensures exact { IfOk result (λ yes. (w : List Cut) → KnowsTypes self.old [] w → (IsTrue yes ↔ IsTypable targets.now w)) }
        ensures kept { self.new ≡ self.old }
    {
        let before = self.graph.mark();
        let count = self.targets.len();
        let answer = hold_values(self.alloc, &mut self.graph, &mut self.targets, targets);
        let _count = self.graph.count();
        self.graph.undo(before);
        self.targets.truncate(count);
        match answer {
            Ok(()) => Ok(true),
            Err(fault) => no_types(fault),
        }
    }

    /// Accepts a command exactly where the workspace is typable with all of it and these values of targets, and else tells the
    /// line at fault. It keeps all that is known.
    pub(crate) fn check(&mut self, targets: &Targets, command: &Command) -> Result<(), CheckFault>
        requires { AreMade self.old }
        ensures ok { OnOk result ((w : List Cut) → KnowsTypes self.old [] w → CallsAreSpelled w command.now → (n : ℕ) → n ≤ LAST_LINE → IsTypableWith targets.now w command.now n) }
        ensures fault { (line : ℕ) → result ≡ Err (CheckFault.TypeFault line) → (w : List Cut) → KnowsTypes self.old [] w → CallsAreSpelled w command.now → IsTypeLine (λ n. IsTypableWith targets.now w command.now n) line × (IsTypableWith targets.now w command.now LAST_LINE → ⊥) }
        ensures kept { self.new ≡ self.old }
    {
        let before = self.graph.mark();
        let count = self.targets.len();
        let answer = self.check_behind(targets, command);
        self.graph.undo(before);
        self.targets.truncate(count);
        answer
    }

    /// The same, where after any answer the graph and the variables of targets may have more, and can go back.
    fn check_behind(&mut self, targets: &Targets, command: &Command) -> Result<(), CheckFault>
        requires { AreMade self.old }
        ensures ok { OnOk result ((w : List Cut) → KnowsTypes self.old [] w → CallsAreSpelled w command.now → (n : ℕ) → n ≤ LAST_LINE → IsTypableWith targets.now w command.now n) }
        ensures fault { (line : ℕ) → result ≡ Err (CheckFault.TypeFault line) → (w : List Cut) → KnowsTypes self.old [] w → CallsAreSpelled w command.now → IsTypeLine (λ n. IsTypableWith targets.now w command.now n) line × (IsTypableWith targets.now w command.now LAST_LINE → ⊥) }
        ensures alloc { self.new.alloc ≡ self.old.alloc }
        ensures known { self.new.known ≡ self.old.known }
        ensures later { IsLater self.old.graph self.new.graph }
        ensures behind { (added : List (List ℕ × TheVar)) × (self.new.targets ≡ self.old.targets ++ added) }
    {
        match hold_values(self.alloc, &mut self.graph, &mut self.targets, targets) {
            Ok(()) => self.check_held(command),
            Err(fault) => Err(at_line_one(fault)),
        }
    }

    /// Checks a command where the values of targets are asked for already.
    fn check_held(&mut self, command: &Command) -> Result<(), CheckFault>
        requires { AreMade self.old }
        ensures ok { OnOk result ((values : Values) (w : List Cut) → KnowsTypes self.old values w → CallsAreSpelled w command.now → (n : ℕ) → n ≤ LAST_LINE → IsTypableWith values w command.now n) }
        ensures fault { (line : ℕ) → result ≡ Err (CheckFault.TypeFault line) → (values : Values) (w : List Cut) → KnowsTypes self.old values w → CallsAreSpelled w command.now → IsTypeLine (λ n. IsTypableWith values w command.now n) line × (IsTypableWith values w command.now LAST_LINE → ⊥) }
        ensures kept { self.new ≡ self.old }
    {
        if self.takes(command, u32::MAX)? {
            Ok(())
        } else {
            self.refuse(command)
        }
    }

    /// Whether the workspace is typable with the command on its lines up to `upto`.
    fn takes(&mut self, command: &Command, upto: u32) -> Result<bool, OutOfMemory>
        requires { AreMade self.old }
        ensures exact { IfOk result (λ yes. Tells self.old command.now upto yes) }
        ensures kept { self.new ≡ self.old }
    {
        let before = self.graph.mark();
        let count = self.targets.len();
        let answer = ask(
            self.alloc,
            &mut self.graph,
            &mut self.targets,
            &self.known,
            command,
            upto,
        );
        self.graph.undo(before);
        self.targets.truncate(count);
        match answer {
            Ok(()) => Ok(true),
            Err(fault) => no_types(fault),
        }
    }

    /// The line at fault of a command that is not accepted, between one up to which it is and one up to which it isn't.
    fn line_between(
        &mut self,
        command: &Command,
        taken: u32,
        refused: u32,
    ) -> Result<u32, OutOfMemory>
        requires made { AreMade self.old }
        requires order { taken < refused }
        ensures line { IfOk result (λ line. IsCommandBetween self.old command.now taken refused line) }
        ensures kept { self.new ≡ self.old }
    {
        if refused - taken == 1 {
            return Ok(refused);
        }
        let middle = taken + (refused - taken) / 2;
        if self.takes(command, middle)? {
            self.line_between(command, middle, refused)
        } else {
            self.line_between(command, taken, middle)
        }
    }

    /// The fault of a command that is not accepted, by as many tests as halve its lines. One line needs none.
    fn refuse(&mut self, command: &Command) -> Result<(), CheckFault>
        requires { AreMade self.old }
        ensures fault { (line : ℕ) → result ≡ Err (CheckFault.TypeFault line) → (values : Values) (w : List Cut) → KnowsTypes self.old values w → CallsAreSpelled w command.now → (IsTypableWith values w command.now LAST_LINE → ⊥) → IsTypeLine (λ n. IsTypableWith values w command.now n) line }
        ensures refused { OnOk result ⊥ }
        ensures kept { self.new ≡ self.old }
    {
        let line = self.line_between(command, 0, last_line(command))?;
        Err(CheckFault::TypeFault { line })
    }
}
