//! What a run holds: the names and formals of the call that is under way, the output and the steps left.
ghost use Rattle.std.specs.Prelude.{◌≡◌, ◌+◌, [], ◌++◌, Bool, List, ℕ, option_map, length as std_length, not, nat_lt, ◌<◌, ◌^◌, IfOk, IfErr, IfSome, OnOk, OnErr, None};
ghost use Rattle.abc_value.specs.Tree.{Tree};
ghost use Rattle.abc_num.specs.declared.lines.RawLine.{RawLine};
ghost use Rattle.abc_frames.specs.Maps.{Targets, IsRising, value_at, with_value_at, without_at};
ghost use Rattle.abc_meaning.specs.State.{State, gives};
ghost use Rattle.abc_meaning.specs.Here.{Here, spend};
ghost use Rattle.abc_meaning.specs.Ran.{starting};
ghost use Rattle.abc_state.specs.Views.{state_of};
ghost use Rattle.abc_state.specs.Agrees.{Agrees, Halts};
ghost use Rattle.abc_num.specs.declared.limits.TheConstants.{MOST_OUTPUT};
ghost use Rattle.abc_meaning.specs.Acts.{newlines, say};
ghost use Rattle.abc_state.specs.Words.{outer_text, write_out};

use crate::halt::Halt;
use crate::spots::Spot;
use crate::values::has_type;
use abc_num::limits::MOST_OUTPUT;
use abc_num::{Items, OutOfMemory, Text};
use abc_value::{PrintFault, RunFault, Value, text_of};
use std::alloc::Global;
use std::collections::BTreeMap;
use std::marker::Model;

/// The values of the names of one call, by their numbers. Contracts see numbers in order, each with its value.
#[derive(Drop)]
pub struct CallNames {
    values: BTreeMap<u32, Value>,
}

impl Model for CallNames {
    ghost use Rattle.std.specs.Prelude.{List, ℕ};
    ghost use Rattle.abc_value.specs.Tree.{Tree};
    ghost use Rattle.abc_frames.specs.View.{coded_frame};

    ghost Value = { List (ℕ × Tree) };

    ghost coded = { coded_frame };

    ghost view = { λ n. n.values.entries };
}

impl CallNames {
    /// No name has a value.
    pub fn new(alloc: Global) -> CallNames
        ensures { result ≡ [] }
    {
        CallNames {
            values: BTreeMap::new(alloc),
        }
    }

    /// The value of a name, if it has one.
    pub fn look(&self, name: u32) -> Option<&Value>
        ensures value { option_map (λ v. v.now) result ≡ value_at name self.now }
        ensures rising { IsRising self.now }
    {
        // Its clause tells that the numbers stand in order.
        let _count = self.values.len();
        self.values.get(&name)
    }

    /// Gives a name its value, in place of an old one.
    pub fn set(&mut self, name: u32, value: Value) -> Result<(), OutOfMemory>
        ensures ok { OnOk result (self.new ≡ with_value_at name value self.old) }
        ensures err { OnErr result (self.new ≡ self.old) }
        ensures rising { IsRising self.new }
    {
        self.values.insert(name, value)?;
        Ok(())
    }

    /// Takes the value of a name away, and answers it. It can be given back, or another one in its place.
    #[tactic(auto, using(crate::proofs::Restoring::name_none))]
    pub fn take(&mut self, name: u32) -> Option<Value>
        ensures value { result ≡ value_at name self.old }
        ensures names { self.new ≡ without_at name self.old }
        ensures rising { IsRising self.new }
        ensures again { (v : Tree) → with_value_at name v self.new ≡ with_value_at name v self.old }
        ensures back { IfSome result (λ v. with_value_at name v self.old ≡ self.old) }
        ensures none { result ≡ None → self.new ≡ self.old }
    {
        // Its clause tells that the numbers stand in order.
        let _count = self.values.len();
        self.values.remove(&name)
    }

    /// Equal names and values.
    pub fn copy(&self) -> Result<CallNames, OutOfMemory>
        ensures { IfOk result (λ names. names ≡ self.now) }
    {
        Ok(CallNames {
            values: self.values.clone()?,
        })
    }
}

/// A formal of the command unit that is under way.
#[derive(Drop)]
pub struct Formal {
    /// The number of its name.
    pub name: u32,
    /// The address of its actual, if that is one.
    pub address: Option<Spot>,
    /// Whether it was changed.
    pub changed: bool,
}

/// What a run holds beside the targets and the lines of the input.
#[derive(Drop)]
pub struct Run {
    /// The values of the names of the call that is under way.
    pub names: CallNames,
    /// Its formals, where it is the call of a command unit.
    pub formals: Items<Formal>,
    pub output: Text,
    /// How many steps may still be taken.
    pub left: u64,
}

impl Run {
    /// A run of an immediate command, which may take so many steps.
    pub fn new(alloc: Global, budget: u64) -> Run
        ensures { (targets : Targets) (lines : List RawLine) (ended : Bool) → state_of result targets lines ended ≡ starting targets lines ended budget }
    {
        Run {
            names: CallNames::new(alloc),
            formals: Items::new(alloc),
            output: Text::from_vec(Vec::new(alloc)),
            left: budget,
        }
    }

    /// Takes a step.
    pub fn spend(&mut self) -> Result<(), Halt>
        ensures agrees { (targets : Targets) (lines : List RawLine) (ended : Bool) (here : Here) → Agrees (λ _. tt) here.line result (state_of self.new targets lines ended) (spend here (state_of self.old targets lines ended)) }
        ensures spent { OnOk result (self.new.left + 1 ≡ self.old.left) }
        ensures unspent { OnErr result (self.new.left ≡ self.old.left) }
    {
        if self.left == 0 {
            return Err(Halt::Fault(RunFault::BudgetSpent));
        }
        self.left -= 1;
        Ok(())
    }

    /// Writes the outer text of a value, with so many ends of lines before it and behind it.
    pub fn write(
        &mut self,
        alloc: Global,
        before: u32,
        part: Option<&Value>,
        behind: u32,
    ) -> Result<(), Halt>
        ensures agrees { (targets : Targets) (lines : List RawLine) (ended : Bool) (here : Here) → Agrees (λ _. tt) here.line result (state_of self.new targets lines ended) (write_out here before (option_map (λ v. v.now) part.entry) behind (state_of self.old targets lines ended)) }
        ensures left { self.new.left ≡ self.old.left }
    {
        let text = written(alloc, part)?;
        say(&mut self.output, alloc, before, &text, behind)
    }
}

/// The outer text of what is written, if it has a type. No more of it is made than an item may write at all: a longer one is
/// TooLong whatever was written before.
fn written(alloc: Global, part: Option<&Value>) -> Result<Vec<u8>, Halt>
    ensures ok { (here : Here) (s : State) → IfOk result (λ text. outer_text here (option_map (λ v. v.now) part.entry) s ≡ gives text.items s) }
    ensures err { (here : Here) (before behind : ℕ) (s : State) → IfErr result (λ h. Halts here.line h s (write_out here before (option_map (λ v. v.now) part.entry) behind s)) }
{
    let Some(value) = part else {
        return Ok(Vec::new(alloc));
    };
    if !has_type(alloc, value)? {
        return Err(Halt::Wrong);
    }
    match text_of(alloc, value, MOST_OUTPUT) {
        Ok(text) => Ok(text),
        Err(PrintFault::TooLong) => Err(Halt::Fault(RunFault::TooLong)),
        Err(PrintFault::Memory) => Err(Halt::Fault(RunFault::Memory)),
    }
}

/// Adds a text to the output, with so many ends of lines before it and behind it. Where the output would be too long nothing
/// is added.
fn say(output: &mut Text, alloc: Global, before: u32, text: &[u8], behind: u32) -> Result<(), Halt>
    ensures { (here : Here) (s : State) → s.output ≡ output.old → Agrees (λ _. tt) here.line result (record s { output = output.new }) (say here (newlines before ++ text.now ++ newlines behind) s) }
{
    if !has_room(output.bytes().len(), before, text, behind) {
        return Err(Halt::Fault(RunFault::TooLong));
    }
    let mut bytes = std::mem::replace(output, Text::from_vec(Vec::new(alloc))).into_vec();
    let added = add(&mut bytes, before, text, behind);
    *output = Text::from_vec(bytes);
    added?;
    Ok(())
}

/// Whether so much is still within the output of an item.
fn has_room(length: usize, before: u32, text: &[u8], behind: u32) -> bool
    requires { length < 2 ^ 63 }
    ensures { result ≡ not (nat_lt MOST_OUTPUT (length + std_length (newlines before ++ text.now ++ newlines behind))) }
{
    let added = before as usize + text.len() + behind as usize;
    length <= MOST_OUTPUT && added <= MOST_OUTPUT - length
}

/// Adds a text and ends of lines.
fn add(bytes: &mut Vec<u8>, before: u32, text: &[u8], behind: u32) -> Result<(), OutOfMemory>
    ensures { OnOk result (bytes.new.items ≡ bytes.old.items ++ (newlines before ++ text.now ++ newlines behind)) }
{
    add_ends(bytes, before)?;
    bytes.extend_from_slice(text)?;
    add_ends(bytes, behind)
}

/// Adds ends of lines.
fn add_ends(bytes: &mut Vec<u8>, count: u32) -> Result<(), OutOfMemory>
    ensures { OnOk result (bytes.new.items ≡ bytes.old.items ++ newlines count) }
{
    for _place in 0..count {
        bytes.push(b'\n')?;
    }
    Ok(())
}
