//! The slot of a variable that is a term.
ghost use Rattle.std.specs.Prelude.{◌≡◌, ℕ, ◌<◌, ◌↔◌, map, IfOk};
ghost use Rattle.std.specs.List.{All};
ghost use Rattle.abc_num.specs.declared.types.Ground.{Ground};
ghost use Rattle.abc_terms.specs.Demands.{stands_for};
ghost use Rattle.abc_terms.specs.Nodes.{IsVariable, IsNode};
ghost use Rattle.abc_terms.specs.declared.term.Term.{Term};
ghost use Rattle.abc_unify.specs.inner.Slots.{SlotHolds, SlotIn};

use crate::kind::{Kind, Slot};
use abc_terms::{Term, Terms, Vars};
use std::alloc::{AllocError, Global};

/// The variables that the terms are.
fn variables_of(alloc: Global, terms: &Terms) -> Result<Vars, AllocError>
    requires { (n : ℕ) × All (IsVariable n) terms.now }
    ensures { IfOk result (λ vars. terms.now ≡ map Term.Var vars) }
{
    let terms = terms.as_slice();
    let mut vars = Vec::new(alloc);
    for i in 0..terms.len() {
        vars.push(terms[i].variable())?;
    }
    Ok(Vars::from_vec(vars))
}

/// What the slot of a variable says that is this term.
pub fn slot_of(alloc: Global, term: &Term) -> Result<Slot, AllocError>
    requires { (n : ℕ) × IsNode n term.now }
    ensures means { IfOk result (λ s. (v : ℕ → Ground) (g : Ground) → (g ≡ stands_for v term.now) ↔ SlotHolds v g s) }
    ensures inside { IfOk result (λ s. (n : ℕ) → IsNode n term.now → SlotIn n n s) }
{
    match term {
        Term::Var(a) => Ok(Slot::Link(*a)),
        Term::Number => Ok(Slot::Root(Kind::Number)),
        Term::Text => Ok(Slot::Root(Kind::Text)),
        Term::Compound(fields) => Ok(Slot::Root(Kind::Compound(variables_of(alloc, fields)?))),
        Term::List(element) => Ok(Slot::Root(Kind::ListOf(element.get().variable()))),
        Term::Table(key, associate) => Ok(Slot::Root(Kind::TableOf(
            key.get().variable(),
            associate.get().variable(),
        ))),
    }
}
