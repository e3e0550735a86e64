//! What the demands say of one variable.
ghost use Rattle.std.specs.Prelude.{◌≡◌, ℕ, ◌<◌, ◌↔◌, List, length, slice_index, slice_index_or, IfOk, IsTrue};
ghost use Rattle.abc_terms.specs.declared.demand.Demand.{Demand};
ghost use Rattle.abc_unify.specs.inner.Kinds.{KindIn};
ghost use Rattle.abc_unify.specs.inner.Slots.{SlotsIn, IsRanked, IsRoot};
ghost use Rattle.abc_unify.specs.inner.States.{IsSolved};
ghost use Rattle.abc_unify.specs.Forms.{IsForm};
ghost use Rattle.abc_unify.specs.inner.Reading.{TextAt, IsTextual, IsRead};

use crate::classes::{find, kind_at};
use crate::kind::{Kind, Slot};
use abc_terms::{VarId, Vars};
use std::alloc::{AllocError, Global};

/// What the demands say of a variable: its outer form and parts, or that it varies.
#[derive(Drop)]
pub enum Form {
    Number,
    Text,
    Compound(Vars),
    List(VarId),
    Table(VarId, VarId),
    /// Variables that vary have one root where they agree in all solutions.
    Varies { root: VarId, kind: VaryKind },
}

/// Which types a variable that varies may have.
#[derive(Clone, Copy, Debug, PartialEq, Eq)]
pub enum VaryKind {
    Free,
    /// Text, or a list of this, or a table with such associates.
    Train(VarId),
    /// The same where it cannot be text.
    Collection(VarId),
    NumberOrText,
}

/// A variable and its form.
#[derive(Drop)]
pub struct Known {
    pub at: VarId,
    pub form: Form,
}

/// Whether a class that is no train may be text.
fn is_textual(kind: &Kind) -> bool
    ensures { IsTrue result ↔ IsTextual kind.now }
{
    match kind {
        Kind::Free => true,
        Kind::Number => false,
        Kind::Text => true,
        Kind::NumberOrText => true,
        Kind::ListOf(_) => false,
        Kind::TableOf(_, _) => false,
        Kind::TrainOf(_) => false,
        Kind::CollectionOf(_) => false,
        Kind::Compound(_) => false,
    }
}

/// Whether text is among the types of the variable: so it is exactly where it is among those of the class at which the chain
/// of trains ends. The chain is no longer than there are variables.
fn may_be_text(slots: &[Slot], a: VarId) -> bool
    requires slots { SlotsIn slots.now }
    requires a { a.0 < length slots.now }
    requires ranked { (rank : ℕ → ℕ) × IsRanked slots.now rank }
    ensures { IsTrue result ↔ TextAt slots.now a.0 }
{
    let mut at = find(slots, a);
    for _ in 0..slots.len() {
        let kind = kind_at(slots, at);
        let Kind::TrainOf(e) = kind else {
            return is_textual(kind);
        };
        at = find(slots, *e);
    }
    unreachable!()
}

/// The form of a train with this root.
fn form_of_train(slots: &[Slot], root: VarId, e: VarId) -> Form
    requires slots { SlotsIn slots.now }
    requires e { e.0 < length slots.now }
    requires ranked { (rank : ℕ → ℕ) × IsRanked slots.now rank }
    ensures { IsRead slots.now root (Kind.TrainOf e) result }
{
    if may_be_text(slots, e) {
        return varies(root, VaryKind::Train(e));
    }
    varies(root, VaryKind::Collection(e))
}

/// The form of a class with this root that varies so.
fn varies(root: VarId, kind: VaryKind) -> Form
    ensures { result ≡ Form.Varies root kind }
{
    Form::Varies { root, kind }
}

/// The form of a class of this kind.
fn form_of_kind(alloc: Global, slots: &[Slot], root: VarId, kind: &Kind) -> Result<Form, AllocError>
    requires slots { SlotsIn slots.now }
    requires kind { KindIn (length slots.now) kind.now }
    requires ranked { (rank : ℕ → ℕ) × IsRanked slots.now rank }
    ensures { IfOk result (λ f. IsRead slots.now root kind.now f) }
{
    match kind {
        Kind::Free => Ok(varies(root, VaryKind::Free)),
        Kind::Number => Ok(Form::Number),
        Kind::Text => Ok(Form::Text),
        Kind::NumberOrText => Ok(varies(root, VaryKind::NumberOrText)),
        Kind::ListOf(c) => Ok(Form::List(*c)),
        Kind::TableOf(k, a) => Ok(Form::Table(*k, *a)),
        Kind::TrainOf(e) => Ok(form_of_train(slots, root, *e)),
        Kind::CollectionOf(e) => Ok(varies(root, VaryKind::Collection(*e))),
        Kind::Compound(fields) => Ok(Form::Compound(Vars::from_vec(Vec::from_slice(
            alloc,
            fields.as_slice(),
        )?))),
    }
}

/// What is known of the variable.
pub fn form_at(alloc: Global, slots: &[Slot], a: VarId) -> Result<Form, AllocError>
    requires a { a.0 < length slots.now }
    requires solved { (demands : List Demand) × IsSolved slots.now demands }
    ensures { IfOk result (λ f. (demands : List Demand) → IsSolved slots.now demands → IsForm (length slots.now) demands a.0 f) }
{
    let root = find(slots, a);
    let kind = kind_at(slots, root);
    let form = form_of_kind(alloc, slots, root, kind)?;
    Ok(form)
}
