//! Tests. AND, OR, NOT and quantifiers are read with a stack of frames, tests in parentheses by recursion.
ghost use Rattle.std.specs.Prelude.{◌≡◌, ℕ, suc, ◌<◌, ◌≤◌, ◌++◌, ◌∷◌, [], All, IfOk, IfErr, IfSome, length};
ghost use Rattle.std.specs.Option.{option_map};
ghost use Rattle.abc_expressions.specs.Lexemes.{IsSpelled};
ghost use Rattle.abc_expressions.specs.inner.Machine.{reader, expression_of};
ghost use Rattle.abc_formula.specs.TestGrammar.{takes_and, takes_or};
ghost use Rattle.abc_formula.specs.inner.TestMachine.{Reads, joined, quantifies, links_in, lone, part_of, tight, rounded, from_front, front_of, behind_of, rest_of, from_keyword, test_in};
ghost use Rattle.abc_formula.specs.inner.TestSteps.{Fewer, FindsLinks, FindsTest, behind_close, Advances, AdvanceRest, NoMore, Begins};
ghost use Rattle.abc_expressions.specs.Readings.{Finds};
ghost use Rattle.abc_formula.specs.declared.test_frames.Place.TheVariants.{Whole};

use crate::bounds::{gathered, names_in};
use crate::brackets::is_round;
use crate::test_frames::{Behind, Front, NamesEnd, Place, TestFrame};
use crate::test_names::{is_keyword, membership_of, quantifier_of, relation_of};
use crate::wrapping::wrapped_by_all;
use abc_expressions::{
    ExpressionFront, FormulaFault, Lexeme, Sign, expression_in_front, with_last,
};
use abc_num::{Items, Names, Stack};
use abc_tokens::one_reading;
use abc_tree::{Expr, Link, Links, Quantifier, Template, TemplateKind, Test};
use std::alloc::Global;

/// The relations of a chain, and the tokens behind them.
#[derive(Drop)]
pub(crate) struct Chain<'a> {
    pub(crate) links: Links,
    pub(crate) rest: &'a [Lexeme],
}

/// A test, and the tokens behind it.
#[derive(Drop)]
pub(crate) struct TestFront<'a> {
    pub(crate) test: Test,
    pub(crate) rest: &'a [Lexeme],
}

/// What a quantifier begins, and the tokens of the test behind HAS.
#[derive(Drop)]
pub(crate) struct Opened<'a> {
    pub(crate) frame: TestFrame,
    pub(crate) rest: &'a [Lexeme],
}

/// What one part of a test leads to.
#[derive(Drop)]
pub(crate) enum Advance<'a> {
    Goes(Place, &'a [Lexeme]),
    Ends(TestFront<'a>),
}

/// One expression of this level at least in front of the tokens.
fn single<'a>(
    alloc: Global,
    own: &Names,
    tokens: &'a [Lexeme],
    left: u8,
    least: u8,
) -> Result<ExpressionFront<'a>, FormulaFault>
    requires spelled { All IsSpelled tokens.now }
    requires least { least ≤ 10 }
    ensures finds { (c : ℕ) → left ≤ c → Finds result (expression_of (reader own.now c) own.now least left tokens.now) }
    ensures rest { IfOk result (λ front. Fewer front.rest.now tokens.now) }
{
    one_reading();
    expression_in_front(alloc, own, tokens, left, least)
}

fn with_link(links: Links, last: Link) -> Result<Links, FormulaFault>
    ensures ok { IfOk result (λ xs. xs ≡ links ++ last ∷ []) }
    ensures err { IfErr result (λ f. f ≡ FormulaFault.Memory) }
{
    Ok(with_last(links, last)?)
}

/// The relations of a chain behind its first expression.
///
/// ```text
/// R E1 R E1 .. R E1
/// ```
fn links_in<'a>(
    alloc: Global,
    own: &Names,
    tokens: &'a [Lexeme],
    left: u8,
) -> Result<Chain<'a>, FormulaFault>
    requires { All IsSpelled tokens.now }
    ensures finds { (c n : ℕ) → left ≤ c → length tokens.now ≤ n → FindsLinks result (links_in (reader own.now c) own.now n left tokens.now) }
    ensures rest { IfOk result (λ chain. (length chain.rest.now ≤ length tokens.now) × All IsSpelled chain.rest.now) }
{
    let mut links = Items::new(alloc);
    let mut ahead = tokens;
    while let Some((token, rest)) = ahead.split_first() {
        let Some(op) = relation_of(token) else {
            return Ok(Chain { links, rest: ahead });
        };
        let front = single(alloc, own, rest, left, 1)?;
        links = with_link(
            links,
            Link {
                op,
                right: front.tree,
            },
        )?;
        ahead = front.rest;
    }
    Ok(Chain { links, rest: ahead })
}

/// An expression that stands alone: the call of a predicate, or a test refinement.
///
/// ```text
/// predicate = name | name E7 | E1 name E2
/// ```
fn lone<'a>(a: Expr, rest: &'a [Lexeme]) -> Result<TestFront<'a>, FormulaFault>
    ensures finds { FindsTest result (lone a rest.now) }
    ensures rest { IfOk result (λ front. front.rest.now ≡ rest.now) }
{
    let test = match a {
        Expr::Call(Template { words, places, .. }, actuals) => Test::Call(
            Template {
                kind: TemplateKind::Predicate,
                words,
                places,
            },
            actuals,
        ),
        Expr::Name(i) => Test::Refinement(i),
        Expr::Number(_) => return Err(FormulaFault::BadCommand),
        Expr::Text(_) => return Err(FormulaFault::BadCommand),
        Expr::Compound(_) => return Err(FormulaFault::BadCommand),
        Expr::Empty => return Err(FormulaFault::BadCommand),
        Expr::List(_) => return Err(FormulaFault::BadCommand),
        Expr::Table(_) => return Err(FormulaFault::BadCommand),
        Expr::Select(_, _) => return Err(FormulaFault::BadCommand),
        Expr::Apply1(_, _) => return Err(FormulaFault::BadCommand),
        Expr::Apply2(_, _, _) => return Err(FormulaFault::BadCommand),
    };
    Ok(TestFront { test, rest })
}

/// A part of a test by what follows its first expression.
///
/// ```text
/// E1 R E1 R .. E1 | predicate | E1 in E2 | E1 not.in E2
/// ```
fn part_behind<'a>(
    alloc: Global,
    own: &Names,
    a: Expr,
    rest: &'a [Lexeme],
    left: u8,
) -> Result<TestFront<'a>, FormulaFault>
    requires { All IsSpelled rest.now }
    ensures finds { (c n : ℕ) → left ≤ c → length rest.now ≤ n → FindsTest result (part_of (reader own.now c) own.now n left a rest.now) }
    ensures rest { IfOk result (λ front. (length front.rest.now ≤ length rest.now) × All IsSpelled front.rest.now) }
{
    let Some((token, ahead)) = rest.split_first() else {
        return lone(a, rest);
    };
    if relation_of(token).is_some() {
        let chain = links_in(alloc, own, rest, left)?;
        return Ok(TestFront {
            test: Test::Chain(a, chain.links),
            rest: chain.rest,
        });
    }
    match membership_of(own, token) {
        Some(op) => {
            let right = single(alloc, own, ahead, left, 2)?;
            Ok(TestFront {
                test: Test::Member(op, a, right.tree),
                rest: right.rest,
            })
        }
        None => lone(a, rest),
    }
}

/// What the tokens begin with.
fn front_of(tokens: &[Lexeme]) -> Front
    ensures { result ≡ front_of tokens.now }
{
    let [first, ..] = tokens else {
        return Front::Tight;
    };
    if is_keyword(b"NOT", first) {
        return Front::Not;
    }
    match quantifier_of(first) {
        Some(quantifier) => Front::Quantifies(quantifier),
        None => Front::Tight,
    }
}

/// How a part is joined to what follows it.
fn behind_of(place: Place, tokens: &[Lexeme]) -> Behind
    ensures { result ≡ behind_of place tokens.now }
{
    let [first, ..] = tokens else {
        return Behind::Ends;
    };
    if takes_and(place) && is_keyword(b"AND", first) {
        Behind::And
    } else if takes_or(place) && is_keyword(b"OR", first) {
        Behind::Or
    } else {
        Behind::Ends
    }
}

fn takes_and(place: Place) -> bool
    ensures { result ≡ takes_and place }
{
    matches!(place, Place::Whole | Place::Conjunct)
}

fn takes_or(place: Place) -> bool
    ensures { result ≡ takes_or place }
{
    matches!(place, Place::Whole | Place::Disjunct)
}

/// The tokens behind the first.
fn rest_of(tokens: &[Lexeme]) -> &[Lexeme]
    ensures { result.now ≡ rest_of tokens.now }
{
    match tokens {
        [_, rest @ ..] => rest,
        [] => tokens,
    }
}

/// The tokens behind this keyword, if it is the first.
fn from_keyword<'a>(word: &[u8], tokens: &'a [Lexeme]) -> Option<&'a [Lexeme]>
    ensures found { option_map (λ rest. rest.now) result ≡ from_keyword word.now tokens.now }
    ensures fewer { All IsSpelled tokens.now → IfSome result (λ rest. Fewer rest.now tokens.now) }
{
    match tokens {
        [first, rest @ ..] => {
            if is_keyword(word, first) {
                Some(rest)
            } else {
                None
            }
        }
        [] => None,
    }
}

/// What a quantifier begins, up to HAS.
///
/// ```text
/// Q names IN E1 HAS test
/// ```
fn quantified<'a>(
    alloc: Global,
    own: &Names,
    quantifier: Quantifier,
    tokens: &'a [Lexeme],
    left: u8,
) -> Result<Opened<'a>, FormulaFault>
    requires spelled { All IsSpelled tokens.now }
    requires left { left ≤ 100 }
    ensures begins { (c : ℕ) → left ≤ c → Begins left (λ next. quantifies (reader own.now c) own.now next quantifier left tokens.now) result }
    ensures rest { IfOk result (λ opened. Fewer opened.rest.now tokens.now) }
{
    let named = names_in(alloc, own, tokens, u32::from(left), 1, NamesEnd::In)?;
    let front = single(alloc, own, named.rest, left, 1)?;
    match from_keyword(b"HAS", front.rest) {
        Some(rest) => Ok(Opened {
            frame: TestFrame::Quantified(quantifier, gathered(named.names), front.tree),
            rest,
        }),
        None => Err(FormulaFault::BadCommand),
    }
}

/// A part of a test, at what follows it.
///
/// ```text
/// test = right | tight AND conj | tight OR disj
/// conj = right | tight AND conj
/// disj = right | tight OR disj
/// ```
fn join<'a>(
    alloc: Global,
    frames: &mut Stack<TestFrame>,
    place: Place,
    test: Test,
    rest: &'a [Lexeme],
) -> Result<Advance<'a>, FormulaFault>
    requires { All IsSpelled rest.now }
    ensures joins { (next : Reads) (d : ℕ) → Advances frames.old (joined next d test rest.now (behind_of place rest.now)) (λ p ts. next p d ts) result frames.new }
    ensures rest { IfOk result (NoMore rest.now) }
{
    match behind_of(place, rest) {
        Behind::And => {
            frames.push(TestFrame::And(test))?;
            Ok(Advance::Goes(Place::Conjunct, rest_of(rest)))
        }
        Behind::Or => {
            frames.push(TestFrame::Or(test))?;
            Ok(Advance::Goes(Place::Disjunct, rest_of(rest)))
        }
        Behind::Ends => {
            let test = wrapped_by_all(alloc, frames, test)?;
            Ok(Advance::Ends(TestFront { test, rest }))
        }
    }
}

/// The tokens behind a closing parenthesis, if it is the first.
fn behind_close(tokens: &[Lexeme]) -> Option<&[Lexeme]>
    ensures found { option_map (λ rest. rest.now) result ≡ behind_close tokens.now }
    ensures fewer { All IsSpelled tokens.now → IfSome result (λ rest. Fewer rest.now tokens.now) }
{
    match tokens {
        [Lexeme::Sign(Sign::Close), rest @ ..] => Some(rest),
        _ => None,
    }
}

/// A test in parentheses.
///
/// ```text
/// ( test )
/// ```
#[cycle(testing)]
fn round<'a>(
    alloc: Global,
    own: &Names,
    tokens: &'a [Lexeme],
    left: u8,
) -> Result<TestFront<'a>, FormulaFault>
    requires spelled { All IsSpelled tokens.now }
    requires left { left ≤ 100 }
    ensures finds { (c n : ℕ) → left ≤ c → length tokens.now ≤ suc n → FindsTest result (rounded (test_in (reader own.now c) own.now n) left tokens.now) }
    ensures rest { IfOk result (λ front. Fewer front.rest.now tokens.now) }
{
    let [_, inner @ ..] = tokens else {
        return Err(FormulaFault::BadCommand);
    };
    if left == 0 {
        return Err(FormulaFault::BadCommand);
    }
    let front = test_in_front(alloc, own, inner, left - 1)?;
    match behind_close(front.rest) {
        Some(rest) => Ok(TestFront {
            test: front.test,
            rest,
        }),
        None => Err(FormulaFault::BadCommand),
    }
}

/// A part of a test that AND and OR can't take apart.
#[cycle(testing)]
fn part_in_front<'a>(
    alloc: Global,
    own: &Names,
    tokens: &'a [Lexeme],
    left: u8,
) -> Result<TestFront<'a>, FormulaFault>
    requires spelled { All IsSpelled tokens.now }
    requires left { left ≤ 100 }
    ensures finds { (c n : ℕ) → left ≤ c → length tokens.now ≤ suc n → FindsTest result (tight (reader own.now c) own.now (test_in (reader own.now c) own.now n) n left tokens.now) }
    ensures rest { IfOk result (λ front. Fewer front.rest.now tokens.now) }
{
    if is_round(tokens) {
        return round(alloc, own, tokens, left);
    }
    let front = single(alloc, own, tokens, left, 1)?;
    part_behind(alloc, own, front.tree, front.rest, left)
}

/// One part of a test, with what stands before it.
///
/// ```text
/// right = tight | NOT right | Q names IN E1 HAS test
/// ```
#[cycle(testing)]
fn read_part<'a>(
    alloc: Global,
    own: &Names,
    frames: &mut Stack<TestFrame>,
    place: Place,
    tokens: &'a [Lexeme],
    left: u8,
) -> Result<Advance<'a>, FormulaFault>
    requires spelled { All IsSpelled tokens.now }
    requires left { left ≤ 100 }
    ensures advances { (c n : ℕ) → left ≤ c → length tokens.now ≤ suc n
        → Advances frames.old (from_front (reader own.now c) own.now (test_in (reader own.now c) own.now n) n (front_of tokens.now) place left tokens.now)
        (λ p ts. test_in (reader own.now c) own.now n p left ts) result frames.new }
    ensures rest { IfOk result (AdvanceRest tokens.now) }
{
    match front_of(tokens) {
        Front::Not => {
            frames.push(TestFrame::Not)?;
            Ok(Advance::Goes(Place::Negated, rest_of(tokens)))
        }
        Front::Quantifies(quantifier) => {
            let opened = quantified(alloc, own, quantifier, rest_of(tokens), left)?;
            frames.push(opened.frame)?;
            Ok(Advance::Goes(Place::Whole, opened.rest))
        }
        Front::Tight => {
            let part = part_in_front(alloc, own, tokens, left)?;
            join(alloc, frames, place, part.test, part.rest)
        }
    }
}

/// The test in front of the tokens, where so many brackets may open.
#[cycle(testing)]
pub(crate) fn test_in_front<'a>(
    alloc: Global,
    own: &Names,
    tokens: &'a [Lexeme],
    left: u8,
) -> Result<TestFront<'a>, FormulaFault>
    requires spelled { All IsSpelled tokens.now }
    requires left { left ≤ 100 }
    ensures finds { (c n : ℕ) → left ≤ c → length tokens.now ≤ n → FindsTest result (test_in (reader own.now c) own.now n Whole left tokens.now) }
    ensures rest { IfOk result (λ front. Fewer front.rest.now tokens.now) }
{
    let mut frames = Stack::new(alloc);
    let mut place = Place::Whole;
    let mut ahead = tokens;
    loop {
        match read_part(alloc, own, &mut frames, place, ahead, left)? {
            Advance::Goes(next, rest) => {
                place = next;
                ahead = rest;
            }
            Advance::Ends(front) => return Ok(front),
        }
    }
}
