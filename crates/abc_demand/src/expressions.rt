//! What is asked of expressions, addresses and bound names.
ghost use Rattle.std.specs.Prelude.{◌≡◌, ◌<◌, ◌≤◌, ℕ, List, [], ◌∷◌, map, take, drop, true, false, IfOk, OnOk};
ghost use Rattle.abc_tree.specs.Lists.{flat};
ghost use Rattle.abc_tree.specs.Calls.{begins_with_place};
ghost use Rattle.abc_ground.specs.Seen.{seen, seen_piece, seen_fill, seen_pair, seen_bound, any_ranged, leaf, node, nodes, name, characters, fields, elements, entries};
ghost use Rattle.abc_demand.specs.Typings.{AreMade};
ghost use Rattle.abc_demand.specs.inner.Leads.{Leads};
ghost use Rattle.abc_demand.specs.inner.Walks.{scope_bound, call_scene, Walked, Found, Passed, CalledAt, front_count};

use crate::draft::Draft;
use crate::scope::Scope;
use abc_num::OutOfMemory;
use abc_terms::VarId;
use abc_tree::{Bound, Expr, Fill, NameId, Pair, Piece, Template, Word};

/// The variables of the actuals of a call, and how many calls were passed before it.
#[derive(Drop)]
pub struct Actuals {
    pub vars: Vec<VarId>,
    pub at: usize,
}

impl Draft {
    /// Asks what an expression asks, and answers the variable of its type.
    #[cycle(expression)]
    pub fn expression(&mut self, scope: &Scope, e: &Expr) -> Result<VarId, OutOfMemory>
        requires { scope_bound scope.now ≤ self.old.count }
        ensures walked { IfOk result (λ a. Walked scope.now self.old self.new (seen e.now ∷ []) (a.0 ∷ [])) }
        ensures there { IfOk result (λ a. a.0 < self.new.count) }
        ensures grows { IfOk result (λ _. self.old.count ≤ self.new.count) }
    {
        match e {
            Expr::Number(_) => {
                let a = self.number()?;
                Ok(a)
            }
            Expr::Name(i) => self.name(scope, *i),
            Expr::Text(pieces) => self.characters(scope, pieces.as_slice()),
            Expr::Compound(parts) => self.compound(scope, parts.as_slice()),
            Expr::Empty => {
                let a = self.nothing()?;
                Ok(a)
            }
            Expr::List(fills) => self.list(scope, fills.as_slice()),
            Expr::Table(pairs) => self.table(scope, pairs.as_slice()),
            Expr::Select(t, k) => {
                let table = self.expression(scope, t.get())?;
                let key = self.expression(scope, k.get())?;
                let a = self.selection(table, key)?;
                Ok(a)
            }
            Expr::Apply1(op, x) => {
                let operand = self.expression(scope, x.get())?;
                let a = self.apply_one(*op, operand)?;
                Ok(a)
            }
            Expr::Apply2(op, x, y) => {
                let first = self.expression(scope, x.get())?;
                let second = self.expression(scope, y.get())?;
                let a = self.apply_two(*op, first, second)?;
                Ok(a)
            }
            Expr::Call(template, actuals) => {
                let called = self.actuals(scope, template, actuals.as_slice())?;
                let a = self.called_value(scope, called.at, &called.vars)?;
                Ok(a)
            }
        }
    }

    /// The expressions from a place on; their variables go behind the others.
    #[cycle(expression)]
    fn expressions(
        &mut self,
        scope: &Scope,
        es: &[Expr],
        from: usize,
        vars: &mut Vec<VarId>,
    ) -> Result<(), OutOfMemory>
        requires { scope_bound scope.now ≤ self.old.count }
        ensures found { OnOk result (Found scope.now self.old self.new (map seen (drop from es.now)) vars.old.items vars.new.items) }
        ensures grows { OnOk result (self.old.count ≤ self.new.count) }
    {
        for i in from..es.len() {
            let a = self.expression(scope, &es[i])?;
            vars.push(a)?;
        }
        Ok(())
    }

    /// The actuals of a call in the order of the text, and the call at its first word.
    #[cycle(expression)]
    pub fn actuals(
        &mut self,
        scope: &Scope,
        t: &Template,
        actuals: &[Expr],
    ) -> Result<Actuals, OutOfMemory>
        requires { scope_bound scope.now ≤ self.old.count }
        ensures found { IfOk result (λ called. Passed scope.now self.old self.new t.now (map seen actuals.now) called.at called.vars.items) }
        ensures grows { OnOk result (self.old.count ≤ self.new.count) }
    {
        let mut vars = Vec::new(self.alloc);
        let front = self.front(scope, t, actuals, &mut vars)?;
        let at = self.pass()?;
        self.expressions(scope, actuals, front, &mut vars)?;
        Ok(Actuals { vars, at })
    }

    /// The actuals before the first word of a call, and how many they are.
    #[cycle(expression)]
    fn front(
        &mut self,
        scope: &Scope,
        t: &Template,
        actuals: &[Expr],
        vars: &mut Vec<VarId>,
    ) -> Result<usize, OutOfMemory>
        requires { scope_bound scope.now ≤ self.old.count }
        ensures count { IfOk result (λ n. n ≡ front_count t.now actuals.now) }
        ensures grows { OnOk result (self.old.count ≤ self.new.count) }
        ensures found { IfOk result (λ n. Found scope.now self.old self.new (map seen (take n actuals.now)) vars.old.items vars.new.items) }
    {
        if actuals.is_empty() {
            return Ok(0);
        }
        if !starts_with_place(t) {
            return Ok(0);
        }
        let a = self.expression(scope, &actuals[0])?;
        vars.push(a)?;
        Ok(1)
    }

    /// A text; what stands in its conversions may have any types.
    #[cycle(expression)]
    fn characters(&mut self, scope: &Scope, pieces: &[Piece]) -> Result<VarId, OutOfMemory>
        requires { scope_bound scope.now ≤ self.old.count }
        ensures walked { IfOk result (λ a. Walked scope.now self.old self.new (node characters (nodes (flat (map seen_piece pieces.now))) ∷ []) (a.0 ∷ [])) }
        ensures there { IfOk result (λ a. a.0 < self.new.count) }
        ensures grows { IfOk result (λ _. self.old.count ≤ self.new.count) }
    {
        for piece in pieces {
            self.piece(scope, piece)?;
        }
        let a = self.text()?;
        Ok(a)
    }

    #[cycle(expression)]
    fn piece(&mut self, scope: &Scope, piece: &Piece) -> Result<(), OutOfMemory>
        requires { scope_bound scope.now ≤ self.old.count }
        ensures found { OnOk result ((own : List ℕ) × Walked scope.now self.old self.new (seen_piece piece.now) own) }
        ensures grows { OnOk result (self.old.count ≤ self.new.count) }
    {
        match piece {
            Piece::Chars(_) => Ok(()),
            Piece::Conversion(e) => {
                self.expression(scope, e)?;
                Ok(())
            }
        }
    }

    /// A compound of these fields.
    #[cycle(expression)]
    fn compound(&mut self, scope: &Scope, parts: &[Expr]) -> Result<VarId, OutOfMemory>
        requires { scope_bound scope.now ≤ self.old.count }
        ensures walked { IfOk result (λ a. Walked scope.now self.old self.new (node fields (nodes (map seen parts.now)) ∷ []) (a.0 ∷ [])) }
        ensures there { IfOk result (λ a. a.0 < self.new.count) }
        ensures grows { IfOk result (λ _. self.old.count ≤ self.new.count) }
    {
        let mut vars = Vec::new(self.alloc);
        self.expressions(scope, parts, 0, &mut vars)?;
        let a = self.fields(&vars)?;
        Ok(a)
    }

    /// A list display with these fillers.
    #[cycle(expression)]
    fn list(&mut self, scope: &Scope, fills: &[Fill]) -> Result<VarId, OutOfMemory>
        requires { scope_bound scope.now ≤ self.old.count }
        ensures walked { IfOk result (λ a. Walked scope.now self.old self.new (node (elements (any_ranged (map seen_fill fills.now))) (nodes (flat (map (λ fill. (seen_fill fill).parts) fills.now))) ∷ []) (a.0 ∷ [])) }
        ensures there { IfOk result (λ a. a.0 < self.new.count) }
        ensures grows { IfOk result (λ _. self.old.count ≤ self.new.count) }
    {
        let mut vars = Vec::new(self.alloc);
        for fill in fills {
            self.fill(scope, fill, &mut vars)?;
        }
        let a = self.elements(&vars, has_range(fills))?;
        Ok(a)
    }

    #[cycle(expression)]
    fn fill(&mut self, scope: &Scope, fill: &Fill, vars: &mut Vec<VarId>) -> Result<(), OutOfMemory>
        requires { scope_bound scope.now ≤ self.old.count }
        ensures found { OnOk result (Found scope.now self.old self.new (seen_fill fill.now).parts vars.old.items vars.new.items) }
        ensures grows { OnOk result (self.old.count ≤ self.new.count) }
    {
        match fill {
            Fill::One(e) => {
                let a = self.expression(scope, e)?;
                vars.push(a)?;
                Ok(())
            }
            Fill::Range(from, to) => {
                let a = self.expression(scope, from)?;
                let b = self.expression(scope, to)?;
                vars.push(a)?;
                vars.push(b)?;
                Ok(())
            }
        }
    }

    /// A table display with these pairs.
    #[cycle(expression)]
    fn table(&mut self, scope: &Scope, pairs: &[Pair]) -> Result<VarId, OutOfMemory>
        requires { scope_bound scope.now ≤ self.old.count }
        ensures walked { IfOk result (λ a. Walked scope.now self.old self.new (node entries (nodes (flat (map seen_pair pairs.now))) ∷ []) (a.0 ∷ [])) }
        ensures there { IfOk result (λ a. a.0 < self.new.count) }
        ensures grows { IfOk result (λ _. self.old.count ≤ self.new.count) }
    {
        let mut vars = Vec::new(self.alloc);
        for pair in pairs {
            self.pair(scope, pair, &mut vars)?;
        }
        let a = self.entries(&vars)?;
        Ok(a)
    }

    #[cycle(expression)]
    fn pair(&mut self, scope: &Scope, pair: &Pair, vars: &mut Vec<VarId>) -> Result<(), OutOfMemory>
        requires { scope_bound scope.now ≤ self.old.count }
        ensures found { OnOk result (Found scope.now self.old self.new (seen_pair pair.now) vars.old.items vars.new.items) }
        ensures grows { OnOk result (self.old.count ≤ self.new.count) }
    {
        let k = self.expression(scope, &pair.key)?;
        let a = self.expression(scope, &pair.associate)?;
        vars.push(k)?;
        vars.push(a)?;
        Ok(())
    }

    /// The variable of a name. No type fits a name that is not there.
    pub fn name(&mut self, scope: &Scope, i: NameId) -> Result<VarId, OutOfMemory>
        requires { scope_bound scope.now ≤ self.old.count }
        ensures walked { IfOk result (λ a. Walked scope.now self.old self.new (leaf (name i.0) ∷ []) (a.0 ∷ [])) }
        ensures there { IfOk result (λ a. a.0 < self.new.count) }
        ensures grows { IfOk result (λ _. self.old.count ≤ self.new.count) }
    {
        let names = scope.names.as_slice();
        let at = i.0 as usize;
        if at >= names.len() {
            let a = self.impossible()?;
            return Ok(a);
        }
        let a = names[at];
        Ok(a)
    }

    /// Names that are bound, or a formal.
    #[cycle(bound)]
    pub fn bound(&mut self, scope: &Scope, bound: &Bound) -> Result<VarId, OutOfMemory>
        requires { scope_bound scope.now ≤ self.old.count }
        ensures walked { IfOk result (λ a. Walked scope.now self.old self.new (seen_bound bound.now ∷ []) (a.0 ∷ [])) }
        ensures there { IfOk result (λ a. a.0 < self.new.count) }
        ensures grows { IfOk result (λ _. self.old.count ≤ self.new.count) }
    {
        match bound {
            Bound::One(i) => {
                let a = self.name(scope, *i)?;
                Ok(a)
            }
            Bound::Several(parts) => {
                let mut vars = Vec::new(self.alloc);
                self.bounds(scope, parts.as_slice(), &mut vars)?;
                let a = self.fields(&vars)?;
                Ok(a)
            }
        }
    }

    #[cycle(bound)]
    pub fn bounds(
        &mut self,
        scope: &Scope,
        bounds: &[Bound],
        vars: &mut Vec<VarId>,
    ) -> Result<(), OutOfMemory>
        requires { scope_bound scope.now ≤ self.old.count }
        ensures found { OnOk result (Found scope.now self.old self.new (map seen_bound bounds.now) vars.old.items vars.new.items) }
        ensures grows { OnOk result (self.old.count ≤ self.new.count) }
    {
        for bound in bounds {
            let a = self.bound(scope, bound)?;
            vars.push(a)?;
        }
        Ok(())
    }

    /// The variable of what the call number `at` gives, of actuals with these variables.
    fn called_value(
        &mut self,
        scope: &Scope,
        at: usize,
        vars: &[VarId],
    ) -> Result<VarId, OutOfMemory>
        requires scope { scope_bound scope.now ≤ self.old.count }
        requires vars { AreMade self.old.count vars.now }
        ensures leads { IfOk result (λ a. Leads (call_scene scope.now vars.now) self.old self.new (λ z ts. CalledAt at true z ts) (a.0 ∷ [])) }
        ensures there { IfOk result (λ a. a.0 < self.new.count) }
        ensures grows { IfOk result (λ _. self.old.count ≤ self.new.count) }
        ensures calls { OnOk result (self.new.calls ≡ self.old.calls) }
    {
        let calls = scope.calls.as_slice();
        if at >= calls.len() {
            let a = self.impossible()?;
            return Ok(a);
        }
        match &calls[at] {
            None => {
                let a = self.fresh()?;
                Ok(a)
            }
            Some(signature) => {
                self.formals(signature.formals.as_slice(), vars)?;
                match signature.result {
                    Some(a) => Ok(a),
                    None => {
                        let a = self.impossible()?;
                        Ok(a)
                    }
                }
            }
        }
    }

    /// The same of a call that gives no value.
    pub fn called(&mut self, scope: &Scope, at: usize, vars: &[VarId]) -> Result<(), OutOfMemory>
        requires scope { scope_bound scope.now ≤ self.old.count }
        requires vars { AreMade self.old.count vars.now }
        ensures leads { OnOk result (Leads (call_scene scope.now vars.now) self.old self.new (λ z ts. CalledAt at false z ts) []) }
        ensures grows { OnOk result (self.old.count ≤ self.new.count) }
        ensures calls { OnOk result (self.new.calls ≡ self.old.calls) }
    {
        let calls = scope.calls.as_slice();
        if at >= calls.len() {
            self.impossible()?;
            return Ok(());
        }
        match &calls[at] {
            None => Ok(()),
            Some(signature) => {
                self.formals(signature.formals.as_slice(), vars)?;
                match signature.result {
                    Some(_) => {
                        self.impossible()?;
                        Ok(())
                    }
                    None => Ok(()),
                }
            }
        }
    }
}

/// Whether one of the fillers is a range.
fn has_range(fills: &[Fill]) -> bool
    ensures { result ≡ any_ranged (map seen_fill fills.now) }
{
    for fill in fills {
        if is_range(fill) {
            return true;
        }
    }
    false
}

fn is_range(fill: &Fill) -> bool
    ensures { result ≡ (seen_fill fill.now).ranged }
{
    match fill {
        Fill::One(_) => false,
        Fill::Range(_, _) => true,
    }
}

/// Whether a call of the template begins with an actual.
fn starts_with_place(t: &Template) -> bool
    ensures { result ≡ begins_with_place t.now.words }
{
    let words = t.words.as_slice();
    if words.is_empty() {
        return false;
    }
    match &words[0] {
        Word::Key(_) => false,
        Word::Place => true,
    }
}
