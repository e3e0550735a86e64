//! Trees from their parts.
ghost use Rattle.std.specs.Prelude.{◌≡◌, ◌++◌, ◌∷◌, [], IfOk};
ghost use Rattle.abc_expressions.specs.Operators.{nullary, unary, binary, joined1, joined2};
ghost use Rattle.abc_expressions.specs.Grammar.{compound, paired};
ghost use Rattle.abc_expressions.specs.inner.Machine.{after_part, wholly};
ghost use Rattle.abc_expressions.specs.declared.frames.Group.TheVariants as grp;

use crate::frames::{AfterPart, Group, Join};
use crate::signs::Sign;
use abc_num::{Boxed, Items, OutOfMemory, Text};
use abc_tree::{Expr, Exprs, Fill, Fills, Pair, Pairs, Template, TemplateKind, Word};
use std::alloc::Global;

fn key(alloc: Global, name: &Text) -> Result<Word, OutOfMemory>
    ensures { IfOk result (λ w. w ≡ Word.Key name.now) }
{
    Ok(Word::Key(Text::of(alloc, name.bytes())?))
}

/// The function of this name without a place.
pub(crate) fn nullary(alloc: Global, name: &Text) -> Result<Template, OutOfMemory>
    ensures { IfOk result (λ t. t ≡ nullary name.now) }
{
    let mut words = Items::new(alloc);
    words.push(key(alloc, name)?)?;
    Ok(Template {
        kind: TemplateKind::Function,
        words,
        places: 0,
    })
}

/// The function of this name with a place behind it.
pub(crate) fn unary(alloc: Global, name: &Text) -> Result<Template, OutOfMemory>
    ensures { IfOk result (λ t. t ≡ unary name.now) }
{
    let mut words = Items::new(alloc);
    words.push(key(alloc, name)?)?;
    words.push(Word::Place)?;
    Ok(Template {
        kind: TemplateKind::Function,
        words,
        places: 1,
    })
}

/// The function of this name with a place on each side.
pub(crate) fn binary(alloc: Global, name: &Text) -> Result<Template, OutOfMemory>
    ensures { IfOk result (λ t. t ≡ binary name.now) }
{
    let mut words = Items::new(alloc);
    words.push(Word::Place)?;
    words.push(key(alloc, name)?)?;
    words.push(Word::Place)?;
    Ok(Template {
        kind: TemplateKind::Function,
        words,
        places: 2,
    })
}

pub(crate) fn joined1(alloc: Global, join: Join, a: Expr) -> Result<Expr, OutOfMemory>
    ensures { IfOk result (λ e. e ≡ joined1 join a) }
{
    match join {
        Join::Op(op) => Ok(Expr::Apply1(op, Boxed::new(alloc, a)?)),
        Join::Call(template) => {
            let mut actuals = Items::new(alloc);
            actuals.push(a)?;
            Ok(Expr::Call(template, actuals))
        }
    }
}

pub(crate) fn joined2(alloc: Global, join: Join, a: Expr, b: Expr) -> Result<Expr, OutOfMemory>
    ensures { IfOk result (λ e. e ≡ joined2 join a b) }
{
    match join {
        Join::Op(op) => Ok(Expr::Apply2(op, Boxed::new(alloc, a)?, Boxed::new(alloc, b)?)),
        Join::Call(template) => {
            let mut actuals = Items::new(alloc);
            actuals.push(a)?;
            actuals.push(b)?;
            Ok(Expr::Call(template, actuals))
        }
    }
}

/// One part is itself, and several are a compound.
fn compound(parts: Exprs) -> Expr
    ensures { result ≡ compound parts }
{
    if parts.len() != 1 {
        return Expr::Compound(parts);
    }
    let mut parts = parts.into_vec();
    match parts.pop() {
        Some(only) => only,
        None => unreachable!(),
    }
}

/// The list with one element more, at its end.
pub fn with_last<T: Drop>(mut items: Items<T>, last: T) -> Result<Items<T>, OutOfMemory>
    ensures { IfOk result (λ xs. xs ≡ items ++ last ∷ []) }
{
    items.push(last)?;
    Ok(items)
}

fn with_pair(pairs: Pairs, key: Expr, associate: Expr) -> Result<Pairs, OutOfMemory>
    ensures { IfOk result (λ xs. xs ≡ pairs ++ paired key associate ∷ []) }
{
    with_last(pairs, Pair { key, associate })
}

/// The compound of these parts and a further one.
fn compound_with(mut parts: Exprs, last: Expr) -> Result<Expr, OutOfMemory>
    ensures { IfOk result (λ e. e ≡ compound (parts ++ last ∷ [])) }
{
    parts.push(last)?;
    Ok(compound(parts))
}

fn after_whole(parts: Exprs, sign: Sign, a: Expr) -> Result<AfterPart, OutOfMemory>
    ensures { IfOk result (λ x. x ≡ after_part (grp.Whole parts) sign a) }
{
    match sign {
        Sign::Comma => Ok(AfterPart::Goes(Group::Whole(with_last(parts, a)?))),
        _ => Ok(AfterPart::Stops(compound_with(parts, a)?)),
    }
}

fn after_round(parts: Exprs, sign: Sign, a: Expr) -> Result<AfterPart, OutOfMemory>
    ensures { IfOk result (λ x. x ≡ after_part (grp.Round parts) sign a) }
{
    match sign {
        Sign::Comma => Ok(AfterPart::Goes(Group::Round(with_last(parts, a)?))),
        Sign::Close => Ok(AfterPart::Gives(compound_with(parts, a)?)),
        _ => Ok(AfterPart::Wrong),
    }
}

fn after_select(
    alloc: Global,
    table: Expr,
    parts: Exprs,
    sign: Sign,
    a: Expr,
) -> Result<AfterPart, OutOfMemory>
    ensures { IfOk result (λ x. x ≡ after_part (grp.Select table parts) sign a) }
{
    match sign {
        Sign::Comma => Ok(AfterPart::Goes(Group::Select(table, with_last(parts, a)?))),
        Sign::Unbracket => {
            let key = Boxed::new(alloc, compound_with(parts, a)?)?;
            Ok(AfterPart::Gives(Expr::Select(Boxed::new(alloc, table)?, key)))
        }
        _ => Ok(AfterPart::Wrong),
    }
}

fn after_key(pairs: Pairs, parts: Exprs, sign: Sign, a: Expr) -> Result<AfterPart, OutOfMemory>
    ensures { IfOk result (λ x. x ≡ after_part (grp.Key pairs parts) sign a) }
{
    match sign {
        Sign::Comma => Ok(AfterPart::Goes(Group::Key(pairs, with_last(parts, a)?))),
        Sign::Unbracket => Ok(AfterPart::Keyed(pairs, compound_with(parts, a)?)),
        _ => Ok(AfterPart::Wrong),
    }
}

fn after_fill(fills: Fills, sign: Sign, a: Expr) -> Result<AfterPart, OutOfMemory>
    ensures { IfOk result (λ x. x ≡ after_part (grp.Fill fills) sign a) }
{
    match sign {
        Sign::PointPoint => Ok(AfterPart::Goes(Group::Range(fills, a))),
        Sign::Semicolon => Ok(AfterPart::Goes(Group::Fill(with_last(fills, Fill::One(a))?))),
        Sign::Unbrace => Ok(AfterPart::Gives(Expr::List(with_last(fills, Fill::One(a))?))),
        _ => Ok(AfterPart::Wrong),
    }
}

fn after_range(fills: Fills, from: Expr, sign: Sign, a: Expr) -> Result<AfterPart, OutOfMemory>
    ensures { IfOk result (λ x. x ≡ after_part (grp.Range fills from) sign a) }
{
    match sign {
        Sign::Semicolon => {
            let fills = with_last(fills, Fill::Range(from, a))?;
            Ok(AfterPart::Goes(Group::Fill(fills)))
        }
        Sign::Unbrace => {
            let fills = with_last(fills, Fill::Range(from, a))?;
            Ok(AfterPart::Gives(Expr::List(fills)))
        }
        _ => Ok(AfterPart::Wrong),
    }
}

fn after_associate(pairs: Pairs, key: Expr, sign: Sign, a: Expr) -> Result<AfterPart, OutOfMemory>
    ensures { IfOk result (λ x. x ≡ after_part (grp.Associate pairs key) sign a) }
{
    match sign {
        Sign::Semicolon => Ok(AfterPart::Again(with_pair(pairs, key, a)?)),
        Sign::Unbrace => Ok(AfterPart::Gives(Expr::Table(with_pair(pairs, key, a)?))),
        _ => Ok(AfterPart::Wrong),
    }
}

/// What the sign makes of the group, behind its last operand.
///
/// ```text
/// C       = E1 | E1 , E1 , ..
/// E10     = E10 [ C ] | ( C ) | display
/// display = { } | { F ; F ; .. } | { [ C ] : E1 ; .. }
/// F       = E1 | E1 .. E1
/// ```
pub(crate) fn after_part(
    alloc: Global,
    group: Group,
    sign: Sign,
    a: Expr,
) -> Result<AfterPart, OutOfMemory>
    ensures { IfOk result (λ x. x ≡ after_part group sign a) }
{
    match group {
        Group::Whole(parts) => after_whole(parts, sign, a),
        Group::Single => Ok(AfterPart::Stops(a)),
        Group::Round(parts) => after_round(parts, sign, a),
        Group::Select(table, parts) => after_select(alloc, table, parts, sign, a),
        Group::Key(pairs, parts) => after_key(pairs, parts, sign, a),
        Group::Fill(fills) => after_fill(fills, sign, a),
        Group::Range(fills, from) => after_range(fills, from, sign, a),
        Group::Associate(pairs, key) => after_associate(pairs, key, sign, a),
    }
}

/// What the whole is where the tokens end, if the group is the whole.
pub(crate) fn wholly(group: Group, a: Expr) -> Result<Option<Expr>, OutOfMemory>
    ensures { IfOk result (λ x. x ≡ wholly group a) }
{
    match group {
        Group::Whole(parts) => Ok(Some(compound_with(parts, a)?)),
        Group::Single => Ok(Some(a)),
        _ => Ok(None),
    }
}
