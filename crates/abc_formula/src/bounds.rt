//! The names that a quantifier or FOR binds, and those of formals. They are read without recursion.
ghost use Rattle.std.specs.Prelude.{◌≡◌, ◌+◌, ◌≤◌, ◌<◌, ◌==◌, ◌^◌, ◌∷◌, [], ◌++◌, true, length, All, IfOk, OnOk, OnErr, MatchOption};
ghost use Rattle.abc_num.specs.declared.limits.TheConstants.{MOST_LINE_BYTES};
ghost use Rattle.abc_expressions.specs.declared.signs.Sign.TheVariants.{Open, Close};
ghost use Rattle.abc_formula.specs.TestGrammar.{gathered};
ghost use Rattle.abc_formula.specs.inner.TestMachine.{at_name, at_names_sign, behind_name, ends, is_end, names_end, names_in, name_read};
ghost use Rattle.abc_formula.specs.inner.TestSteps.{Fewer, NameSteps, NameCounts, FindsNames};
ghost use Rattle.abc_expressions.specs.Lexemes.{IsSpelled};

use crate::test_frames::NamesEnd;
use crate::test_names::is_keyword;
use abc_expressions::{FormulaFault, Kind, Lexeme, Sign, kind_of, sign_of, with_last};
use abc_num::{Items, Names, OutOfMemory};
use abc_tree::{Bound, Bounds, NameId};
use std::alloc::Global;
use std::marker::Model;

/// Names, and the tokens behind what ends them.
#[derive(Drop)]
pub(crate) struct Named<'a> {
    pub(crate) names: Bounds,
    pub(crate) rest: &'a [Lexeme],
}

/// The names so far in each bracket, which contracts see as a list, the innermost first.
#[derive(Drop)]
pub(crate) struct NameGroups {
    groups: Vec<Bounds>,
}

impl Model for NameGroups {
    ghost use Rattle.std.specs.Prelude.{List, reverse};
    ghost use Rattle.abc_tree.specs.declared.formulas.Bound.{Bound};
    ghost use Rattle.abc_tree.specs.contracts.formulas.Bound as bound;
    ghost use Rattle.std.specs.Coded.{codes};

    ghost Value = { List (List Bound) };

    ghost coded = { Prim.hlevel (codes, bound.the_row.coded) };

    ghost view = { λ s. reverse s.groups.items };
}

impl NameGroups {
    fn new(alloc: Global) -> NameGroups
        ensures { result ≡ [] }
    {
        NameGroups {
            groups: Vec::new(alloc),
        }
    }

    /// Puts a group inside the others. After OutOfMemory the groups are as before.
    fn push(&mut self, names: Bounds) -> Result<(), OutOfMemory>
        ensures ok { OnOk result (self.new ≡ names ∷ self.old) }
        ensures err { OnErr result (self.new ≡ self.old) }
    {
        self.groups.push(names)?;
        Ok(())
    }

    /// Whether it's the outermost group alone.
    fn is_outermost(&self) -> bool
        ensures { result ≡ (length self.now == 1) }
    {
        self.groups.len() == 1
    }

    /// Takes the innermost group.
    fn pop(&mut self) -> Option<Bounds>
        ensures { MatchOption result ((self.old ≡ []) × (self.new ≡ [])) (λ names. self.old ≡ names ∷ self.new) }
    {
        self.groups.pop()
    }
}

/// One part is itself, and several stand together.
pub(crate) fn gathered(names: Bounds) -> Bound
    ensures { result ≡ gathered names }
{
    if names.len() != 1 {
        return Bound::Several(names);
    }
    let mut names = names.into_vec();
    match names.pop() {
        Some(only) => only,
        None => unreachable!(),
    }
}

/// Names on their way.
#[derive(Drop)]
pub(crate) struct Naming {
    pub(crate) alloc: Global,
    pub(crate) groups: NameGroups,
    /// How many brackets may still open.
    pub(crate) left: u32,
    /// How many names a bracket has at least.
    pub(crate) fewest: usize,
}

impl Naming {
    /// A name, which goes behind those of the innermost group. A name is no longer wanted.
    fn name(&mut self, kind: Kind) -> Result<bool, FormulaFault>
        ensures steps { NameSteps (λ next. name_read kind next self.old.left self.old.groups) result self.new.left self.new.groups }
        ensures counts { NameCounts result self.old.left self.old.groups self.new.left self.new.groups }
        ensures fewest { self.new.fewest ≡ self.old.fewest }
    {
        let Kind::Own(i) = kind else {
            return Err(FormulaFault::BadCommand);
        };
        match self.groups.pop() {
            Some(names) => {
                let names = with_last(names, Bound::One(NameId(i)))?;
                self.groups.push(names)?;
                Ok(false)
            }
            None => Err(FormulaFault::BadCommand),
        }
    }

    /// A bracket opens within the others.
    fn open(&mut self) -> Result<bool, FormulaFault>
        ensures steps { NameSteps (λ next. at_names_sign Open next self.old.left self.old.groups) result self.new.left self.new.groups }
        ensures counts { NameCounts result self.old.left self.old.groups self.new.left self.new.groups }
        ensures fewest { self.new.fewest ≡ self.old.fewest }
    {
        if self.left == 0 {
            return Err(FormulaFault::BadCommand);
        }
        self.left -= 1;
        self.groups.push(Items::new(self.alloc))?;
        Ok(true)
    }

    /// Where a name is wanted.
    ///
    /// ```text
    /// part = name | ( names )
    /// ```
    fn wanted(&mut self, own: &Names, token: &Lexeme) -> Result<bool, FormulaFault>
        ensures steps { NameSteps (λ next. at_name own.now token.now next self.old.left self.old.groups) result self.new.left self.new.groups }
        ensures counts { NameCounts result self.old.left self.old.groups self.new.left self.new.groups }
        ensures fewest { self.new.fewest ≡ self.old.fewest }
    {
        match token {
            Lexeme::Name(x) => self.name(kind_of(own, x)),
            Lexeme::Sign(Sign::Open) => self.open(),
            Lexeme::Sign(_) => Err(FormulaFault::BadCommand),
            Lexeme::Number(_) => Err(FormulaFault::BadCommand),
            Lexeme::Keyword(_) => Err(FormulaFault::BadCommand),
            Lexeme::Text(_) => Err(FormulaFault::BadCommand),
            Lexeme::Other => Err(FormulaFault::BadCommand),
        }
    }

    /// A bracket closes: its names are one part of those outside it.
    fn close(&mut self) -> Result<bool, FormulaFault>
        requires counted { self.old.left + length self.old.groups < 2 ^ 32 }
        ensures steps { NameSteps (λ next. behind_name self.old.fewest Close next self.old.left self.old.groups) result self.new.left self.new.groups }
        ensures counts { NameCounts result self.old.left self.old.groups self.new.left self.new.groups }
        ensures fewest { self.new.fewest ≡ self.old.fewest }
    {
        let Some(names) = self.groups.pop() else {
            return Err(FormulaFault::BadCommand);
        };
        if names.len() < self.fewest {
            return Err(FormulaFault::BadCommand);
        }
        match self.groups.pop() {
            Some(outer) => {
                let outer = with_last(outer, gathered(names))?;
                self.groups.push(outer)?;
                self.left += 1;
                Ok(false)
            }
            None => Err(FormulaFault::BadCommand),
        }
    }

    /// Behind a part.
    ///
    /// ```text
    /// names = part | part , part , ..
    /// ```
    fn behind(&mut self, sign: Sign) -> Result<bool, FormulaFault>
        requires counted { self.old.left + length self.old.groups < 2 ^ 32 }
        ensures steps { NameSteps (λ next. behind_name self.old.fewest sign next self.old.left self.old.groups) result self.new.left self.new.groups }
        ensures counts { NameCounts result self.old.left self.old.groups self.new.left self.new.groups }
        ensures fewest { self.new.fewest ≡ self.old.fewest }
    {
        match sign {
            Sign::Comma => Ok(true),
            Sign::Close => self.close(),
            _ => Err(FormulaFault::BadCommand),
        }
    }

    /// Whether the token ends the names.
    fn is_end(&self, how: NamesEnd, token: &Lexeme) -> bool
        ensures { result ≡ is_end how token.now self.now.groups }
    {
        ends(how, token) && self.groups.is_outermost()
    }

    /// At what ends the names.
    fn end<'a>(&mut self, rest: &'a [Lexeme]) -> Result<Named<'a>, FormulaFault>
        ensures finds { FindsNames result (names_end rest.now self.old.groups) }
        ensures rest { IfOk result (λ named. named.rest.now ≡ rest.now) }
    {
        let Some(names) = self.groups.pop() else {
            return Err(FormulaFault::BadCommand);
        };
        match self.groups.pop() {
            Some(_outer) => Err(FormulaFault::BadCommand),
            None => Ok(Named { names, rest }),
        }
    }
}

/// Whether the token ends names.
fn ends(how: NamesEnd, token: &Lexeme) -> bool
    ensures { result ≡ ends how token.now }
{
    match how {
        NamesEnd::In => is_keyword(b"IN", token),
        NamesEnd::Close => matches!(token, Lexeme::Sign(Sign::Close)),
    }
}

/// The names up to what ends them, where so many brackets may open, with so many names each at least.
pub(crate) fn names_in<'a>(
    alloc: Global,
    own: &Names,
    tokens: &'a [Lexeme],
    left: u32,
    fewest: usize,
    how: NamesEnd,
) -> Result<Named<'a>, FormulaFault>
    requires spelled { All IsSpelled tokens.now }
    requires left { left ≤ MOST_LINE_BYTES }
    ensures finds { FindsNames result (names_in own.now fewest how tokens.now left ([] ∷ []) true) }
    ensures rest { IfOk result (λ named. Fewer named.rest.now tokens.now) }
{
    let mut groups = NameGroups::new(alloc);
    groups.push(Items::new(alloc))?;
    let mut naming = Naming {
        alloc,
        groups,
        left,
        fewest,
    };
    let mut wants = true;
    let mut ahead = tokens;
    while let Some((token, rest)) = ahead.split_first() {
        if wants {
            wants = naming.wanted(own, token)?;
        } else if naming.is_end(how, token) {
            return naming.end(rest);
        } else {
            wants = naming.behind(sign_of(token))?;
        }
        ahead = rest;
    }
    Err(FormulaFault::BadCommand)
}
