//! The principals that are known.
ghost use Rattle.std.specs.Prelude.{◌≡◌, [], List, ℕ, Some, IfSome, OnOk, OnErr, option_map};
ghost use Rattle.abc_principal.specs.Exact.{known_of};
ghost use Rattle.abc_principal.specs.Principals.{IsWhole};

use crate::principal::Principal;
use abc_num::{OutOfMemory, Text};
use indexmap::IndexMap;
use std::alloc::Global;
use std::marker::Model;

/// Principals by the texts of their units' templates. One is found at once.
#[derive(Drop)]
pub struct Principals {
    entries: IndexMap<Text, Principal>,
}

impl Model for Principals {
    ghost use Rattle.std.specs.Prelude.{List, ℕ};
    ghost use Rattle.abc_principal.specs.declared.principal.Principal.{Principal};
    ghost use Rattle.abc_principal.specs.Exact.{AreWhole};
    ghost use Rattle.abc_principal.specs.contracts.principal.Principal as kept;
    ghost use Rattle.std.specs.Coded.{codes};

    ghost Value = { List (List ℕ × Principal) };

    ghost coded = { Prim.hlevel (codes, kept.the_row.coded) };

    ghost view = { λ p. p.entries.entries };

    ghost invariant = { λ p. AreWhole p.entries.entries };
}

impl Principals {
    /// None is known.
    pub fn new(alloc: Global) -> Principals
        ensures { result ≡ [] }
    {
        Principals {
            entries: IndexMap::new(alloc),
        }
    }

    /// The principal of the unit with a template of this text, if it is known.
    pub fn find(&self, text: &Text) -> Option<&Principal>
        ensures found { option_map (λ p. p.now) result ≡ known_of self.now text.now }
        ensures whole { IfSome result (λ p. IsWhole p.now) }
    {
        self.entries.get(text)
    }

    /// Keeps a principal, in place of one for the same text. After OutOfMemory all are as before.
    pub fn put(&mut self, text: Text, p: Principal) -> Result<(), OutOfMemory>
        requires { IsWhole p }
        ensures same { OnOk result (known_of self.new text ≡ Some p) }
        ensures others { OnOk result ((t : List ℕ) → (t ≡ text → ⊥) → known_of self.new t ≡ known_of self.old t) }
        ensures err { OnErr result (self.new ≡ self.old) }
    {
        self.entries.insert(text, p)?;
        Ok(())
    }
}
