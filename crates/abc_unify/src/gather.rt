//! The forms of some variables and of all that they lead to.
ghost use Rattle.std.specs.Prelude.{◌≡◌, ℕ, ◌<◌, List, [], ◌∷◌, length, slice_index, IfOk};
ghost use Rattle.std.specs.List.{All};
ghost use Rattle.abc_terms.specs.declared.demand.Demand.{Demand};
ghost use Rattle.abc_unify.specs.inner.States.{IsSolved};
ghost use Rattle.abc_terms.specs.Nodes.{AreIn};
ghost use Rattle.abc_unify.specs.Forms.{AreForms, IsKnown, leads_on};
ghost use Rattle.abc_unify.specs.inner.Reading.{IsQueued};

use crate::forms::{Form, Known, VaryKind, form_at};
use crate::kind::Slot;
use abc_terms::VarId;
use std::alloc::{AllocError, Global};

/// Marks a variable and puts it onto the list of those to look at, unless it is marked.
fn queue(marks: &mut [usize], work: &mut Vec<VarId>, x: VarId) -> Result<(), AllocError>
    requires x { x.0 < length marks.old }
    requires small { (i : ℕ) → slice_index marks.old i < 2 }
    ensures { IfOk result (λ _. IsQueued marks.old work.old.items marks.new work.new.items (x ∷ [])) }
{
    if marks[x.index()] != 0 {
        return Ok(());
    }
    work.push(x)?;
    marks[x.index()] = 1;
    Ok(())
}

/// The same of all of these.
fn queue_all(marks: &mut [usize], work: &mut Vec<VarId>, xs: &[VarId]) -> Result<(), AllocError>
    requires xs { AreIn (length marks.old) xs.now }
    requires small { (i : ℕ) → slice_index marks.old i < 2 }
    ensures { IfOk result (λ _. IsQueued marks.old work.old.items marks.new work.new.items xs.now) }
{
    for i in 0..xs.len() {
        queue(marks, work, xs[i])?;
    }
    Ok(())
}

/// The same of all that a form leads to.
fn queue_form(marks: &mut [usize], work: &mut Vec<VarId>, form: &Form) -> Result<(), AllocError>
    requires form { AreIn (length marks.old) (leads_on form.now) }
    requires small { (i : ℕ) → slice_index marks.old i < 2 }
    ensures { IfOk result (λ _. IsQueued marks.old work.old.items marks.new work.new.items (leads_on form.now)) }
{
    match form {
        Form::Number => queue_all(marks, work, &[]),
        Form::Text => queue_all(marks, work, &[]),
        Form::Compound(fields) => queue_all(marks, work, fields.as_slice()),
        Form::List(c) => queue_all(marks, work, &[*c]),
        Form::Table(k, e) => queue_all(marks, work, &[*k, *e]),
        Form::Varies { root, kind } => match kind {
            VaryKind::Free => queue_all(marks, work, &[*root]),
            VaryKind::Train(e) => queue_all(marks, work, &[*root, *e]),
            VaryKind::Collection(e) => queue_all(marks, work, &[*root, *e]),
            VaryKind::NumberOrText => queue_all(marks, work, &[*root]),
        },
    }
}

/// The forms, where no variable is marked yet.
fn gather(
    alloc: Global,
    slots: &[Slot],
    wanted: &[VarId],
    marks: &mut [usize],
) -> Result<Vec<Known>, AllocError>
    requires wanted { AreIn (length slots.now) wanted.now }
    requires solved { (demands : List Demand) × IsSolved slots.now demands }
    requires count { length marks.old ≡ length slots.now }
    requires none { (i : ℕ) → slice_index marks.old i ≡ 0 }
    ensures forms { IfOk result (λ all. (demands : List Demand) → IsSolved slots.now demands → AreForms (length slots.now) demands all.items) }
    ensures there { IfOk result (λ all. All (λ a. IsKnown all.items a.0) wanted.now) }
{
    let mut work = Vec::new(alloc);
    queue_all(marks, &mut work, wanted)?;
    let mut all = Vec::new(alloc);
    while let Some(at) = work.pop() {
        let form = form_at(alloc, slots, at)?;
        queue_form(marks, &mut work, &form)?;
        all.push(Known { at, form })?;
    }
    Ok(all)
}

/// The forms of these variables and of all that they lead to.
pub fn forms_at(alloc: Global, slots: &[Slot], wanted: &[VarId]) -> Result<Vec<Known>, AllocError>
    requires wanted { AreIn (length slots.now) wanted.now }
    requires solved { (demands : List Demand) × IsSolved slots.now demands }
    ensures forms { IfOk result (λ all. (demands : List Demand) → IsSolved slots.now demands → AreForms (length slots.now) demands all.items) }
    ensures there { IfOk result (λ all. All (λ a. IsKnown all.items a.0) wanted.now) }
{
    let mut marks = vec![in alloc; 0; slots.len()]?;
    let all = gather(alloc, slots, wanted, &mut marks)?;
    Ok(all)
}
