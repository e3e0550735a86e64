//! Reading tokens by an operator-precedence parser with a stack of its own. A frame waits for its last operand: an operator,
//! or an open bracket. A token behind an operand goes on with it where it binds tightly enough; else the frame on top is
//! reduced. So no function calls itself, and time is proportional to the number of tokens.
ghost use Rattle.std.specs.Prelude.{◌≡◌, ◌+◌, ◌<◌, ◌≤◌, [], ◌∷◌, List, suc, None};
ghost use Rattle.abc_expressions.specs.inner.Machine.{opened, displayed, wanted, taken, after_part, go_on_after, at_pair, at_colon, finished, whole_found, wholly};
ghost use Rattle.abc_expressions.specs.inner.Steps.{Steps, behind, opens, Counts, Gives};
ghost use Rattle.abc_expressions.specs.declared.frames.Frame.TheVariants.{Inside};
ghost use Rattle.abc_expressions.specs.declared.lexemes.Lexeme.{Lexeme};
ghost use Rattle.abc_expressions.specs.declared.frames.Group.TheVariants as grp;
ghost use Rattle.abc_expressions.specs.declared.frames.Turn.TheVariants.{Has};
ghost use Rattle.abc_tree.specs.declared.formulas.Expr.TheVariants.{Empty};

use crate::fault::FormulaFault;
use crate::frames::{AfterPart, Frame, Group, Operand, Reach, Step, Turn};
use crate::lexemes::Lexeme;
use crate::make::{after_part, joined1, joined2, wholly};
use crate::names::{goes_on, reach, sign_of};
use crate::signs::Sign;
use abc_num::{Items, Names, Stack};
use abc_tree::{Expr, Pairs};
use std::alloc::Global;

/// What was read so far: the frames, and how many brackets may still open.
#[derive(Drop)]
pub(crate) struct Reader {
    pub(crate) alloc: Global,
    pub(crate) stack: Stack<Frame>,
    pub(crate) left: u8,
    /// How many brackets could open at first.
    pub(crate) most: u8,
}

impl Reader {
    /// A bracket opens.
    fn open(&mut self, group: Group, least: u8) -> Result<Step, FormulaFault>
        requires counted { self.old.left + opens (Inside least group ∷ self.old.stack) ≤ self.old.most + 1 }
        ensures steps { (here : List Lexeme) → Steps here (λ next. opened group least next self.old.left self.old.stack) result self.new.left self.new.stack }
        ensures counts { Counts self.old.most result self.new.left self.new.stack }
        ensures most { self.new.most ≡ self.old.most }
    {
        if self.left == 0 {
            return Err(FormulaFault::BadCommand);
        }
        self.left -= 1;
        self.stack.push(Frame::Inside(least, group))?;
        Ok(Step::Goes(Turn::Wants(1)))
    }

    /// A display opens.
    fn display(&mut self, least: u8) -> Result<Step, FormulaFault>
        requires counted { self.old.left + opens self.old.stack ≤ self.old.most }
        ensures steps { (here : List Lexeme) → Steps here (λ next. displayed least next self.old.left self.old.stack) result self.new.left self.new.stack }
        ensures counts { Counts self.old.most result self.new.left self.new.stack }
        ensures most { self.new.most ≡ self.old.most }
    {
        if self.left == 0 {
            return Err(FormulaFault::BadCommand);
        }
        self.left -= 1;
        Ok(Step::Goes(Turn::Display(least)))
    }

    /// In operand place.
    pub(crate) fn wants(&mut self, operand: Operand, least: u8) -> Result<Step, FormulaFault>
        requires counted { self.old.left + opens self.old.stack ≤ self.old.most }
        ensures steps { (here : List Lexeme) → Steps here (λ next. wanted operand next self.old.left self.old.stack least) result self.new.left self.new.stack }
        ensures counts { Counts self.old.most result self.new.left self.new.stack }
        ensures most { self.new.most ≡ self.old.most }
    {
        match operand {
            Operand::Leaf(a) => Ok(Step::Goes(Turn::Has(least, 10, a))),
            Operand::Leads(join) => {
                if least > 7 {
                    return Err(FormulaFault::BadCommand);
                }
                self.stack.push(Frame::Before(least, join))?;
                Ok(Step::Goes(Turn::Wants(7)))
            }
            Operand::Opens => self.open(Group::Round(Items::new(self.alloc)), least),
            Operand::Displays => self.display(least),
            Operand::Wrong => Err(FormulaFault::BadCommand),
        }
    }

    /// An operator or a bracket behind an operand.
    fn go_on(&mut self, reached: Reach, least: u8, a: Expr) -> Result<Step, FormulaFault>
        requires counted { self.old.left + opens self.old.stack ≤ self.old.most }
        ensures steps { (here : List Lexeme) → Steps here (λ next. taken reached next self.old.left self.old.stack least a None) result self.new.left self.new.stack }
        ensures counts { Counts self.old.most result self.new.left self.new.stack }
        ensures most { self.new.most ≡ self.old.most }
    {
        match reached {
            Reach::Joins(infix) => {
                let right = infix.right;
                self.stack.push(Frame::Between(least, infix, a))?;
                Ok(Step::Goes(Turn::Wants(right)))
            }
            Reach::Selects => self.open(Group::Select(a, Items::new(self.alloc)), least),
            Reach::Ends => Err(FormulaFault::BadCommand),
        }
    }

    /// The last operand of a group, at the sign behind it.
    fn reduce(&mut self, least: u8, group: Group, sign: Sign, a: Expr) -> Result<Step, FormulaFault>
        requires counted { self.old.left + opens (Inside least group ∷ self.old.stack) ≤ self.old.most }
        ensures steps { (here : List Lexeme) → Steps here (λ next. go_on_after (after_part group sign a) next self.old.left self.old.stack least here) result self.new.left self.new.stack }
        ensures counts { Counts self.old.most result self.new.left self.new.stack }
        ensures most { self.new.most ≡ self.old.most }
    {
        match after_part(self.alloc, group, sign, a)? {
            AfterPart::Goes(group) => {
                self.stack.push(Frame::Inside(least, group))?;
                Ok(Step::Goes(Turn::Wants(1)))
            }
            AfterPart::Gives(a) => {
                self.left += 1;
                Ok(Step::Goes(Turn::Has(least, 10, a)))
            }
            AfterPart::Keyed(pairs, key) => {
                self.left += 1;
                Ok(Step::Goes(Turn::Colon(least, pairs, key)))
            }
            AfterPart::Again(pairs) => Ok(Step::Goes(Turn::Pair(least, pairs))),
            AfterPart::Stops(a) => Ok(Step::Stops(a)),
            AfterPart::Wrong => Err(FormulaFault::BadCommand),
        }
    }

    /// Behind an operand of this level, at a place of this least level.
    pub(crate) fn behind(
        &mut self,
        own: &Names,
        token: &Lexeme,
        rest: &[Lexeme],
        mut least: u8,
        mut level: u8,
        mut a: Expr,
    ) -> Result<Step, FormulaFault>
        requires counted { self.old.left + opens self.old.stack ≤ self.old.most }
        ensures steps { Steps (token.now ∷ rest.now) (behind own.now token.now rest.now self.old.left self.old.stack least level a) result self.new.left self.new.stack }
        ensures counts { Counts self.old.most result self.new.left self.new.stack }
        ensures most { self.new.most ≡ self.old.most }
    {
        let reached = reach(self.alloc, own, token)?;
        loop {
            if goes_on(&reached, least, level) {
                return self.go_on(reached, least, a);
            }
            match self.stack.pop() {
                None => return Err(FormulaFault::BadCommand),
                Some(Frame::Between(outer, infix, left)) => {
                    level = infix.gives;
                    a = joined2(self.alloc, infix.join, left, a)?;
                    least = outer;
                }
                Some(Frame::Before(outer, join)) => {
                    level = 7;
                    a = joined1(self.alloc, join, a)?;
                    least = outer;
                }
                Some(Frame::Inside(outer, group)) => {
                    return self.reduce(outer, group, sign_of(token), a);
                }
            }
        }
    }

    /// A display with nothing in it.
    pub(crate) fn empty(&mut self, least: u8) -> Result<Step, FormulaFault>
        requires counted { self.old.left + (opens self.old.stack + 1) ≤ self.old.most }
        ensures steps { (here : List Lexeme) → Steps here (λ next. next (suc self.old.left) self.old.stack (Has least 10 Empty)) result self.new.left self.new.stack }
        ensures counts { Counts self.old.most result self.new.left self.new.stack }
        ensures most { self.new.most ≡ self.old.most }
    {
        self.left += 1;
        Ok(Step::Goes(Turn::Has(least, 10, Expr::Empty)))
    }

    /// Where the first filler of a list display begins.
    pub(crate) fn first_fill(&mut self, operand: Operand, least: u8) -> Result<Step, FormulaFault>
        requires counted { self.old.left + (opens self.old.stack + 1) ≤ self.old.most }
        ensures steps { (here : List Lexeme) → Steps here (λ next. wanted operand next self.old.left (Inside least (grp.Fill []) ∷ self.old.stack) 1) result self.new.left self.new.stack }
        ensures counts { Counts self.old.most result self.new.left self.new.stack }
        ensures most { self.new.most ≡ self.old.most }
    {
        let group = Group::Fill(Items::new(self.alloc));
        self.stack.push(Frame::Inside(least, group))?;
        self.wants(operand, 1)
    }

    /// Where a pair of a table display begins.
    pub(crate) fn at_pair(
        &mut self,
        sign: Sign,
        least: u8,
        pairs: Pairs,
    ) -> Result<Step, FormulaFault>
        requires counted { self.old.left + (opens self.old.stack + 1) ≤ self.old.most }
        ensures steps { (here : List Lexeme) → Steps here (λ next. at_pair sign next self.old.left self.old.stack least pairs) result self.new.left self.new.stack }
        ensures counts { Counts self.old.most result self.new.left self.new.stack }
        ensures most { self.new.most ≡ self.old.most }
    {
        match sign {
            Sign::Bracket => self.open(Group::Key(pairs, Items::new(self.alloc)), least),
            _ => Err(FormulaFault::BadCommand),
        }
    }

    /// Behind a key of a table display.
    pub(crate) fn at_colon(
        &mut self,
        sign: Sign,
        least: u8,
        pairs: Pairs,
        key: Expr,
    ) -> Result<Step, FormulaFault>
        requires counted { self.old.left + (opens self.old.stack + 1) ≤ self.old.most }
        ensures steps { (here : List Lexeme) → Steps here (λ next. at_colon sign next self.old.left self.old.stack least pairs key) result self.new.left self.new.stack }
        ensures counts { Counts self.old.most result self.new.left self.new.stack }
        ensures most { self.new.most ≡ self.old.most }
    {
        match sign {
            Sign::Colon => {
                self.stack
                    .push(Frame::Inside(least, Group::Associate(pairs, key)))?;
                Ok(Step::Goes(Turn::Wants(1)))
            }
            _ => Err(FormulaFault::BadCommand),
        }
    }

    /// At the end of the tokens, behind an operand.
    pub(crate) fn finish(&mut self, mut a: Expr) -> Result<Expr, FormulaFault>
        ensures { Gives result (finished self.old.stack a) }
    {
        loop {
            match self.stack.pop() {
                Some(Frame::Between(_, infix, left)) => {
                    a = joined2(self.alloc, infix.join, left, a)?;
                }
                Some(Frame::Before(_, join)) => {
                    a = joined1(self.alloc, join, a)?;
                }
                Some(Frame::Inside(_, group)) => return whole(group, a),
                None => return Err(FormulaFault::BadCommand),
            }
        }
    }
}

fn whole(group: Group, a: Expr) -> Result<Expr, FormulaFault>
    ensures { Gives result (whole_found (wholly group a)) }
{
    match wholly(group, a)? {
        Some(tree) => Ok(tree),
        None => Err(FormulaFault::BadCommand),
    }
}
