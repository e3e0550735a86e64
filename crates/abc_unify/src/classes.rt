//! Union-find: classes of equal variables. Each has a root, to which links lead, and which holds what is known of the class.
ghost use Rattle.std.specs.Prelude.{◌≡◌, ℕ, ◌<◌, length, slice_index_or, IfOk};
ghost use Rattle.abc_num.specs.declared.types.Ground.{Ground};
ghost use Rattle.abc_unify.specs.inner.Slots.{SlotsIn, IsRoot, Meets, root_of};

use crate::kind::{Kind, Slot};
use abc_terms::{VarId, Vars};
use std::alloc::{AllocError, Global};

/// The variable that stands for the class of `a`.
#[tactic(auto, using(crate::proofs::Solutions::roots))]
pub fn find(slots: &[Slot], a: VarId) -> VarId
    requires slots { SlotsIn slots.now }
    requires a { a.0 < length slots.now }
    ensures inside { result.0 < length slots.now }
    ensures root { IsRoot (slice_index_or slots.now result.0 (Slot.Root Kind.Free)) }
    ensures same { (v : ℕ → Ground) → Meets v slots.now → v a.0 ≡ v result.0 }
    ensures class { result.0 ≡ root_of slots.now a.0 }
{
    let mut at = a;
    while let Slot::Link(next) = &slots[at.index()] {
        at = *next;
    }
    at
}

/// What is known of the class of a root.
pub fn kind_at(slots: &[Slot], root: VarId) -> &Kind
    requires root { root.0 < length slots.now }
    requires is_root { IsRoot (slice_index_or slots.now root.0 (Slot.Root Kind.Free)) }
    ensures { slice_index_or slots.now root.0 (Slot.Root Kind.Free) ≡ Slot.Root result.now }
{
    match &slots[root.index()] {
        Slot::Root(kind) => kind,
        Slot::Link(_) => unreachable!(),
    }
}

/// A copy of a kind.
pub fn copy_of(alloc: Global, kind: &Kind) -> Result<Kind, AllocError>
    ensures { IfOk result (λ copy. copy ≡ kind.now) }
{
    Ok(match kind {
        Kind::Free => Kind::Free,
        Kind::Number => Kind::Number,
        Kind::Text => Kind::Text,
        Kind::NumberOrText => Kind::NumberOrText,
        Kind::ListOf(c) => Kind::ListOf(*c),
        Kind::TableOf(k, a) => Kind::TableOf(*k, *a),
        Kind::TrainOf(e) => Kind::TrainOf(*e),
        Kind::CollectionOf(e) => Kind::CollectionOf(*e),
        Kind::Compound(fields) => {
            Kind::Compound(Vars::from_vec(Vec::from_slice(alloc, fields.as_slice())?))
        }
    })
}
