//! What keeps a command from running.
ghost use Rattle.std.specs.Prelude.{◌≡◌, ◌<◌, ◌≤◌, ◌-◌, ◌^◌, ℕ, Bool, true, IfOk, IfSome, option_map};
ghost use Rattle.std.specs.List.{list_any};
ghost use Rattle.abc_tree.specs.Templates.{template_text};
ghost use Rattle.abc_outcome.specs.Missing.{called_by, first_missing, line_to};
ghost use Rattle.abc_outcome.specs.inner.Lines.{are_one as is_same, is_reached as reached_from, IsWithin};

use abc_groups::{first_missing_in, reach_from};
use abc_num::{OutOfMemory, Text};
use abc_tree::{Command, Template, Units, command_calls};
use std::alloc::Global;
use std::cmp::Ordering;

/// A missing unit: the text of its template, and the line of the command from which it is reached.
#[derive(Drop)]
pub(crate) struct Missing {
    pub(crate) template: Text,
    pub(crate) line: u32,
}

/// Lines between which the first is that is looked for.
#[derive(Clone, Copy, Debug)]
struct Between {
    first: u32,
    last: u32,
}

impl Between {
    /// One half, by whether the template is reached from the lines up to the middle.
    fn halved(self, middle: u32, is: bool) -> Between
        requires inside { self.first ≤ middle }
        requires before { middle < self.last }
        ensures within { (reached : ℕ → Bool) → IsWithin reached self.first self.last → reached middle ≡ is → IsWithin reached result.first result.last }
        ensures less { result.last - result.first < self.last - self.first }
    {
        if is {
            Between {
                first: self.first,
                last: middle,
            }
        } else {
            Between {
                first: middle + 1,
                last: self.last,
            }
        }
    }
}

/// The least missing unit that a command reaches. Only units that are reached are read; where none is missing, each once.
pub(crate) fn missing_of(
    alloc: Global,
    units: &Units,
    command: &Command,
) -> Result<Option<Missing>, OutOfMemory>
    ensures template { IfOk result (λ found. option_map (λ m. m.template) found ≡ first_missing units.now (called_by command.now)) }
    ensures line { IfOk result (λ found. IfSome found (λ m. m.line ≡ line_to units.now m.template command.now)) }
{
    let calls = command_calls(alloc, command, u32::MAX)?;
    match first_missing_in(alloc, units, &calls)? {
        None => Ok(None),
        Some(t) => Ok(Some(Missing {
            line: first_line(alloc, units, command, &t)?,
            template: Text::from_vec(t.text(alloc)?),
        })),
    }
}

/// The first line up to which the template is reached, by halves: as many readings of the command as twice the digits of that
/// line in base two.
fn first_line(
    alloc: Global,
    units: &Units,
    command: &Command,
    t: &Template,
) -> Result<u32, OutOfMemory>
    requires { reached_from units.now command.now (template_text t.now) (2 ^ 32 - 1) ≡ true }
    ensures { IfOk result (λ n. n ≡ line_to units.now (template_text t.now) command.now) }
{
    let last = some_line(alloc, units, command, t)?;
    let mut between = Between { first: 0, last };
    'halves: while between.first < between.last {
        let middle = between.first + (between.last - between.first) / 2;
        let is = is_reached(alloc, units, command, t, middle)?;
        between = between.halved(middle, is);
    }
    Ok(between.first)
}

/// A line up to which the template is reached: of 1, 2, 4 and so on the first.
fn some_line(
    alloc: Global,
    units: &Units,
    command: &Command,
    t: &Template,
) -> Result<u32, OutOfMemory>
    requires { reached_from units.now command.now (template_text t.now) (2 ^ 32 - 1) ≡ true }
    ensures { IfOk result (λ n. reached_from units.now command.now (template_text t.now) n ≡ true) }
{
    let mut n: u32 = 1;
    'doubled: for _ in 0..32 {
        if is_reached(alloc, units, command, t, n)? {
            return Ok(n);
        }
        n = n.saturating_mul(2);
    }
    Ok(u32::MAX)
}

/// Whether the template is called on the lines of a command up to `n`, or is reached from one that is. Only these calls and the
/// units that they reach are read.
fn is_reached(
    alloc: Global,
    units: &Units,
    command: &Command,
    t: &Template,
    n: u32,
) -> Result<bool, OutOfMemory>
    ensures { IfOk result (λ is. is ≡ reached_from units.now command.now (template_text t.now) n) }
{
    let calls = command_calls(alloc, command, n)?;
    let reached = reach_from(alloc, units, &calls)?;
    Ok(is_among(reached.as_slice(), t))
}

/// Whether the template is one of these.
fn is_among(templates: &[Template], t: &Template) -> bool
    ensures { result ≡ list_any (is_same t.now) templates.now }
{
    for template in templates {
        if are_one(t, template) {
            return true;
        }
    }
    false
}

/// Whether both templates have the same text.
#[tactic(auto, using(crate::proofs::Finding::one_template, crate::proofs::Finding::two_templates))]
fn are_one(t: &Template, other: &Template) -> bool
    ensures { result ≡ is_same t.now other.now }
{
    match t.cmp(other) {
        Ordering::Equal => true,
        Ordering::Less => false,
        Ordering::Greater => false,
    }
}
