//! Types in which variables may stand.
ghost use Rattle.std.specs.Prelude.{◌≡◌, ℕ, ◌<◌, ◌≤◌, length, map, IfOk};
ghost use Rattle.std.specs.List.{All};
ghost use Rattle.abc_terms.specs.Nodes.{IsVariable, IsNode};
ghost use Rattle.abc_terms.specs.Renamed.{renamed_term, number_in};

use abc_num::{Boxed, Items, OutOfMemory};
use std::alloc::Global;

/// The number of a variable.
#[derive(Clone, Copy, Debug, PartialEq, Eq)]
pub struct VarId(pub u32);

impl VarId {
    /// The number as a place in a list.
    pub fn index(self) -> usize
        ensures { result ≡ self.0 }
    {
        self.0 as usize
    }
}

/// A type, or a variable for one.
#[derive(Debug, Drop)]
pub enum Term {
    Var(VarId),
    Number,
    Text,
    /// Of two fields or more.
    Compound(Terms),
    List(Boxed<Term>),
    /// Of keys and associates.
    Table(Boxed<Term>, Boxed<Term>),
}

/// The types of the fields of a compound, in their order.
pub type Terms = Items<Term>;

/// Variables, in their order.
pub type Vars = Items<VarId>;

impl Term {
    /// A list of this variable.
    pub fn list_of(alloc: Global, element: VarId) -> Result<Term, OutOfMemory>
        ensures term { IfOk result (λ t. t ≡ Term.List (Term.Var element)) }
        ensures node { IfOk result (λ t. (n : ℕ) → element.0 < n → IsNode n t) }
    {
        Ok(Term::List(Boxed::new(alloc, Term::Var(element))?))
    }

    /// A table of these variables.
    pub fn table_of(alloc: Global, key: VarId, associate: VarId) -> Result<Term, OutOfMemory>
        ensures term { IfOk result (λ t. t ≡ Term.Table (Term.Var key) (Term.Var associate)) }
        ensures node { IfOk result (λ t. (n : ℕ) → key.0 < n → associate.0 < n → IsNode n t) }
    {
        let key = Boxed::new(alloc, Term::Var(key))?;
        let associate = Boxed::new(alloc, Term::Var(associate))?;
        Ok(Term::Table(key, associate))
    }

    /// A compound of these variables.
    pub fn compound_of(alloc: Global, fields: &[VarId]) -> Result<Term, OutOfMemory>
        requires { 2 ≤ length fields.now }
        ensures term { IfOk result (λ t. t ≡ Term.Compound (map Term.Var fields.now)) }
        ensures node { IfOk result (λ t. (n : ℕ) → All (λ a. a.0 < n) fields.now → IsNode n t) }
    {
        let mut terms = Terms::new(alloc);
        for i in 0..fields.len() {
            terms.push(Term::Var(fields[i]))?;
        }
        Ok(Term::Compound(terms))
    }

    /// The variable that the term is.
    pub fn variable(&self) -> VarId
        requires { (n : ℕ) × IsVariable n self.now }
        ensures { self.now ≡ Term.Var result }
    {
        match self {
            Term::Var(a) => *a,
            Term::Number => unreachable!(),
            Term::Text => unreachable!(),
            Term::Compound(_) => unreachable!(),
            Term::List(_) => unreachable!(),
            Term::Table(_, _) => unreachable!(),
        }
    }

    /// The term, whose parts are variables, with the variable of number i in `to` in place of each variable i.
    pub fn renamed(&self, alloc: Global, to: &[VarId]) -> Result<Term, OutOfMemory>
        requires { IsNode (length to.now) self.now }
        ensures { IfOk result (λ t. t ≡ renamed_term (number_in to.now) self.now) }
    {
        match self {
            Term::Var(a) => Ok(Term::Var(to[a.index()])),
            Term::Number => Ok(Term::Number),
            Term::Text => Ok(Term::Text),
            Term::Compound(fields) => renamed_compound(alloc, fields.as_slice(), to),
            Term::List(element) => Term::list_of(alloc, renamed_part(element.get(), to)),
            Term::Table(key, associate) => Term::table_of(
                alloc,
                renamed_part(key.get(), to),
                renamed_part(associate.get(), to),
            ),
        }
    }
}

/// The variable in place of the one that the term is.
fn renamed_part(part: &Term, to: &[VarId]) -> VarId
    requires { IsVariable (length to.now) part.now }
    ensures { Term.Var result ≡ renamed_term (number_in to.now) part.now }
{
    let a = part.variable();
    to[a.index()]
}

/// The compound of the variables in place of these.
fn renamed_compound(alloc: Global, fields: &[Term], to: &[VarId]) -> Result<Term, OutOfMemory>
    requires { All (IsVariable (length to.now)) fields.now }
    ensures { IfOk result (λ t. t ≡ Term.Compound (map (renamed_term (number_in to.now)) fields.now)) }
{
    let mut terms = Terms::new(alloc);
    for at in 0..fields.len() {
        terms.push(Term::Var(renamed_part(&fields[at], to)))?;
    }
    Ok(Term::Compound(terms))
}
