//! Merges two kinds of one class: into one kind and a residue of constraints on its parts, or a clash.
ghost use Rattle.std.specs.Prelude.{ℕ, ◌+◌, ◌≤◌};
ghost use Rattle.abc_unify.specs.inner.Kinds.{IsMerge, MergeIn, KindIn, kind_weight, merge_weight, MergeFits};
ghost use Rattle.abc_terms.specs.declared.term.VarId.{VarId};

use crate::kind::{Constraint, Kind, Merge, Residue};
use abc_terms::{VarId, Vars};

/// The result of merging what is known of a class with a new constraint on it.
pub fn merge_kinds(held: &Kind, added: Kind) -> Merge
    ensures exact { IsMerge held.now added result }
    ensures inside { (n : ℕ) → KindIn n held.now → KindIn n added → MergeIn n result }
    ensures light { merge_weight held.now result ≤ kind_weight held.now + kind_weight added }
    ensures parts { MergeFits held.now result }
{
    match held {
        Kind::Free => Merge::Put(added, Residue::Nothing),
        Kind::Number => merge_number(added),
        Kind::Text => merge_text(added),
        Kind::NumberOrText => merge_number_or_text(added),
        Kind::ListOf(c) => merge_list(*c, added),
        Kind::TableOf(k, a) => merge_table(*k, *a, added),
        Kind::TrainOf(e) => merge_train(*e, added),
        Kind::CollectionOf(e) => merge_collection(*e, added),
        Kind::Compound(fields) => merge_compound(fields, added),
    }
}

fn merge_number(added: Kind) -> Merge
    ensures exact { IsMerge Kind.Number added result }
    ensures inside { (n : ℕ) → KindIn n Kind.Number → KindIn n added → MergeIn n result }
    ensures light { merge_weight Kind.Number result ≤ kind_weight Kind.Number + kind_weight added }
    ensures parts { MergeFits Kind.Number result }
{
    match added {
        Kind::Free => Merge::Keep(Residue::Nothing),
        Kind::Number => Merge::Keep(Residue::Nothing),
        Kind::NumberOrText => Merge::Keep(Residue::Nothing),
        _ => Merge::Clash,
    }
}

fn merge_text(added: Kind) -> Merge
    ensures exact { IsMerge Kind.Text added result }
    ensures inside { (n : ℕ) → KindIn n Kind.Text → KindIn n added → MergeIn n result }
    ensures light { merge_weight Kind.Text result ≤ kind_weight Kind.Text + kind_weight added }
    ensures parts { MergeFits Kind.Text result }
{
    match added {
        Kind::Free => Merge::Keep(Residue::Nothing),
        Kind::Text => Merge::Keep(Residue::Nothing),
        Kind::NumberOrText => Merge::Keep(Residue::Nothing),
        Kind::TrainOf(e) => Merge::Keep(Residue::One(Constraint::Is(e, Kind::Text))),
        _ => Merge::Clash,
    }
}

fn merge_number_or_text(added: Kind) -> Merge
    ensures exact { IsMerge Kind.NumberOrText added result }
    ensures inside { (n : ℕ) → KindIn n Kind.NumberOrText → KindIn n added → MergeIn n result }
    ensures light { merge_weight Kind.NumberOrText result ≤ kind_weight Kind.NumberOrText + kind_weight added }
    ensures parts { MergeFits Kind.NumberOrText result }
{
    match added {
        Kind::Free => Merge::Keep(Residue::Nothing),
        Kind::Number => Merge::Put(Kind::Number, Residue::Nothing),
        Kind::Text => Merge::Put(Kind::Text, Residue::Nothing),
        Kind::NumberOrText => Merge::Keep(Residue::Nothing),
        Kind::TrainOf(e) => Merge::Put(Kind::Text, Residue::One(Constraint::Is(e, Kind::Text))),
        _ => Merge::Clash,
    }
}

fn merge_list(c: VarId, added: Kind) -> Merge
    ensures exact { IsMerge (Kind.ListOf c) added result }
    ensures inside { (n : ℕ) → KindIn n (Kind.ListOf c) → KindIn n added → MergeIn n result }
    ensures light { merge_weight (Kind.ListOf c) result ≤ kind_weight (Kind.ListOf c) + kind_weight added }
    ensures parts { MergeFits (Kind.ListOf c) result }
{
    match added {
        Kind::Free => Merge::Keep(Residue::Nothing),
        Kind::ListOf(e) => Merge::Keep(Residue::One(Constraint::Equal(c, e))),
        Kind::TrainOf(e) => Merge::Keep(Residue::One(Constraint::Equal(c, e))),
        Kind::CollectionOf(e) => Merge::Keep(Residue::One(Constraint::Equal(c, e))),
        _ => Merge::Clash,
    }
}

fn merge_table(k: VarId, a: VarId, added: Kind) -> Merge
    ensures exact { IsMerge (Kind.TableOf k a) added result }
    ensures inside { (n : ℕ) → KindIn n (Kind.TableOf k a) → KindIn n added → MergeIn n result }
    ensures light { merge_weight (Kind.TableOf k a) result ≤ kind_weight (Kind.TableOf k a) + kind_weight added }
    ensures parts { MergeFits (Kind.TableOf k a) result }
{
    match added {
        Kind::Free => Merge::Keep(Residue::Nothing),
        Kind::TableOf(l, b) => Merge::Keep(Residue::Two(
            Constraint::Equal(k, l),
            Constraint::Equal(a, b),
        )),
        Kind::TrainOf(e) => Merge::Keep(Residue::One(Constraint::Equal(a, e))),
        Kind::CollectionOf(e) => Merge::Keep(Residue::One(Constraint::Equal(a, e))),
        _ => Merge::Clash,
    }
}

fn merge_train(e: VarId, added: Kind) -> Merge
    ensures exact { IsMerge (Kind.TrainOf e) added result }
    ensures inside { (n : ℕ) → KindIn n (Kind.TrainOf e) → KindIn n added → MergeIn n result }
    ensures light { merge_weight (Kind.TrainOf e) result ≤ kind_weight (Kind.TrainOf e) + kind_weight added }
    ensures parts { MergeFits (Kind.TrainOf e) result }
{
    match added {
        Kind::Free => Merge::Keep(Residue::Nothing),
        Kind::Text => Merge::Put(Kind::Text, Residue::One(Constraint::Is(e, Kind::Text))),
        Kind::NumberOrText => Merge::Put(Kind::Text, Residue::One(Constraint::Is(e, Kind::Text))),
        Kind::ListOf(c) => Merge::Put(Kind::ListOf(c), Residue::One(Constraint::Equal(e, c))),
        Kind::TableOf(k, a) => Merge::Put(
            Kind::TableOf(k, a),
            Residue::One(Constraint::Equal(e, a)),
        ),
        Kind::TrainOf(f) => Merge::Keep(Residue::One(Constraint::Equal(e, f))),
        Kind::CollectionOf(f) => Merge::Put(
            Kind::CollectionOf(f),
            Residue::One(Constraint::Equal(e, f)),
        ),
        Kind::Number => Merge::Clash,
        Kind::Compound(_) => Merge::Clash,
    }
}

fn merge_collection(element: VarId, added: Kind) -> Merge
    ensures exact { IsMerge (Kind.CollectionOf element) added result }
    ensures inside { (n : ℕ) → KindIn n (Kind.CollectionOf element) → KindIn n added → MergeIn n result }
    ensures light { merge_weight (Kind.CollectionOf element) result ≤ kind_weight (Kind.CollectionOf element) + kind_weight added }
    ensures parts { MergeFits (Kind.CollectionOf element) result }
{
    match added {
        Kind::Free => Merge::Keep(Residue::Nothing),
        Kind::ListOf(c) => Merge::Put(Kind::ListOf(c), Residue::One(Constraint::Equal(element, c))),
        Kind::TableOf(k, a) => Merge::Put(
            Kind::TableOf(k, a),
            Residue::One(Constraint::Equal(element, a)),
        ),
        Kind::TrainOf(f) => Merge::Keep(Residue::One(Constraint::Equal(element, f))),
        Kind::CollectionOf(f) => Merge::Keep(Residue::One(Constraint::Equal(element, f))),
        _ => Merge::Clash,
    }
}

fn merge_compound(fields: &Vars, added: Kind) -> Merge
    ensures exact { IsMerge (Kind.Compound fields.now) added result }
    ensures inside { (n : ℕ) → KindIn n (Kind.Compound fields.now) → KindIn n added → MergeIn n result }
    ensures light { merge_weight (Kind.Compound fields.now) result ≤ kind_weight (Kind.Compound fields.now) + kind_weight added }
    ensures parts { MergeFits (Kind.Compound fields.now) result }
{
    match added {
        Kind::Free => Merge::Keep(Residue::Nothing),
        Kind::Compound(others) => {
            if fields.len() == others.len() {
                Merge::Keep(Residue::Parts(others))
            } else {
                Merge::Clash
            }
        }
        _ => Merge::Clash,
    }
}
