//! The headings of units: templates and formals.
ghost use Rattle.std.specs.Prelude.{◌≡◌, ◌∷◌, [], Some, IfOk, All};
ghost use Rattle.abc_num.specs.declared.limits.TheConstants.{MOST_LINE_BYTES};
ghost use Rattle.abc_expressions.specs.Lexemes.{IsSpelled};
ghost use Rattle.abc_expressions.specs.Operators.{kind_of, nullary, unary, binary};
ghost use Rattle.abc_expressions.specs.Readings.{Answers, Tells};
ghost use Rattle.abc_expressions.specs.declared.lexemes.Lexeme.TheVariants as lexeme;
ghost use Rattle.abc_formula.specs.TestGrammar.{predicate};
ghost use Rattle.abc_clauses.specs.Readings.{bound_of, formal_of, last_formal, before_of, between_name, between_of, is_name_before, named_of, function_of, place_of, formal_place, places_of, command_by, pattern_by, pattern_of};
ghost use Rattle.abc_clauses.specs.inner.Views.{seen_front, seen_command, seen_title, TakesPlace};

use crate::calls::{command_template, ends_place};
use abc_expressions::{Kind, Lexeme, kind_of};
use abc_formula::{BoundFront, FormulaFault, bound_in_front, formal_in_front};
use abc_num::limits::MOST_LINE_BYTES;
use abc_num::{Items, Names, OutOfMemory, Text};
use abc_tokens::is_reserved;
use abc_tree::{Bound, Bounds, NameId, Template, TemplateKind, Word, Words};
use std::alloc::Global;

/// The words and formals of a command.
#[derive(Drop)]
struct CommandTitle {
    words: Words,
    formals: Bounds,
}

/// What a unit is called by, and its formals.
#[derive(Drop)]
pub(crate) struct Title {
    pub(crate) template: Template,
    pub(crate) formals: Bounds,
}

/// The names up to IN, and the tokens behind it.
pub(crate) fn bound<'a>(
    alloc: Global,
    own: &Names,
    tokens: &'a [Lexeme],
) -> Result<BoundFront<'a>, FormulaFault>
    requires { All IsSpelled tokens.now }
    ensures tells { Tells seen_front result (bound_of own.now tokens.now) }
    ensures spelled { IfOk result (λ front. All IsSpelled front.rest.now) }
{
    bound_in_front(alloc, own, tokens, MOST_LINE_BYTES as u32)
}

/// The formal in front, and the tokens behind it.
fn formal<'a>(
    alloc: Global,
    own: &Names,
    tokens: &'a [Lexeme],
) -> Result<BoundFront<'a>, FormulaFault>
    requires { All IsSpelled tokens.now }
    ensures tells { Tells seen_front result (formal_of own.now tokens.now) }
    ensures spelled { IfOk result (λ front. All IsSpelled front.rest.now) }
{
    formal_in_front(alloc, own, tokens, MOST_LINE_BYTES as u32)
}

/// The formal that is all of the tokens.
fn last_formal(alloc: Global, own: &Names, tokens: &[Lexeme]) -> Result<Bound, FormulaFault>
    requires { All IsSpelled tokens.now }
    ensures { Answers result (last_formal (formal_of own.now tokens.now)) }
{
    let front = formal(alloc, own, tokens)?;
    if front.rest.is_empty() {
        Ok(front.bound)
    } else {
        Err(FormulaFault::BadCommand)
    }
}

impl CommandTitle {
    /// Takes a single formal with these tokens behind it.
    fn take_formal(&mut self, kind: Kind, rest: &[Lexeme]) -> Result<(), FormulaFault>
        ensures { TakesPlace result (formal_place kind rest.now) (seen_command self.old) (seen_command self.new) }
    {
        let Kind::Own(i) = kind else {
            return Err(FormulaFault::BadCommand);
        };
        if !ends_place(rest) {
            return Err(FormulaFault::BadCommand);
        }
        self.words.push(Word::Place)?;
        self.formals.push(Bound::One(NameId(i)))?;
        Ok(())
    }

    /// Takes a keyword or a single formal with these tokens behind it.
    fn take(
        &mut self,
        alloc: Global,
        own: &Names,
        token: &Lexeme,
        rest: &[Lexeme],
    ) -> Result<(), FormulaFault>
        ensures { TakesPlace result (place_of own.now token.now rest.now) (seen_command self.old) (seen_command self.new) }
    {
        match token {
            Lexeme::Keyword(x) => {
                self.words.push(Word::Key(Text::of(alloc, x.bytes())?))?;
                Ok(())
            }
            Lexeme::Name(x) => self.take_formal(kind_of(own, x), rest),
            Lexeme::Number(_) => Err(FormulaFault::BadCommand),
            Lexeme::Text(_) => Err(FormulaFault::BadCommand),
            Lexeme::Sign(_) => Err(FormulaFault::BadCommand),
            Lexeme::Other => Err(FormulaFault::BadCommand),
        }
    }
}

/// The words and formals of a command.
///
/// ```text
/// places = keyword { [formal] keyword } [formal]      (formal = name)
/// ```
fn places(alloc: Global, own: &Names, tokens: &[Lexeme]) -> Result<CommandTitle, FormulaFault>
    ensures { Tells seen_command result (places_of own.now tokens.now) }
{
    let mut title = CommandTitle {
        words: Items::new(alloc),
        formals: Items::new(alloc),
    };
    let mut ahead = tokens;
    while let Some((token, rest)) = ahead.split_first() {
        title.take(alloc, own, token, rest)?;
        ahead = rest;
    }
    Ok(title)
}

fn key(alloc: Global, name: &Text) -> Result<Word, OutOfMemory>
    ensures { IfOk result (λ w. w ≡ Word.Key name.now) }
{
    Ok(Word::Key(Text::of(alloc, name.bytes())?))
}

/// The function of this name without a formal.
fn nullary(alloc: Global, name: &Text) -> Result<Title, FormulaFault>
    ensures { Tells seen_title result (Some (nullary name.now, [])) }
{
    let mut words = Items::new(alloc);
    words.push(key(alloc, name)?)?;
    Ok(Title {
        template: Template {
            kind: TemplateKind::Function,
            words,
            places: 0,
        },
        formals: Items::new(alloc),
    })
}

/// The function of this name with a formal behind it.
fn unary(alloc: Global, name: &Text, a: Bound) -> Result<Title, FormulaFault>
    ensures { Tells seen_title result (Some (unary name.now, a ∷ [])) }
{
    let mut words = Items::new(alloc);
    words.push(key(alloc, name)?)?;
    words.push(Word::Place)?;
    let mut formals = Items::new(alloc);
    formals.push(a)?;
    Ok(Title {
        template: Template {
            kind: TemplateKind::Function,
            words,
            places: 1,
        },
        formals,
    })
}

/// The function of this name between two formals.
fn binary(alloc: Global, name: &Text, a: Bound, c: Bound) -> Result<Title, FormulaFault>
    ensures { Tells seen_title result (Some (binary name.now, a ∷ c ∷ [])) }
{
    let mut words = Items::new(alloc);
    words.push(Word::Place)?;
    words.push(key(alloc, name)?)?;
    words.push(Word::Place)?;
    let mut formals = Items::new(alloc);
    formals.push(a)?;
    formals.push(c)?;
    Ok(Title {
        template: Template {
            kind: TemplateKind::Function,
            words,
            places: 2,
        },
        formals,
    })
}

fn before(alloc: Global, own: &Names, name: &Text, rest: &[Lexeme]) -> Result<Title, FormulaFault>
    requires { All IsSpelled rest.now }
    ensures { Tells seen_title result (before_of own.now name.now rest.now) }
{
    let a = last_formal(alloc, own, rest)?;
    unary(alloc, name, a)
}

/// A formal with these tokens behind it, which are the name and the last formal.
fn between_name(
    alloc: Global,
    own: &Names,
    a: Bound,
    rest: &[Lexeme],
) -> Result<Title, FormulaFault>
    requires { All IsSpelled rest.now }
    ensures { Tells seen_title result (between_name own.now a rest.now) }
{
    match rest {
        [Lexeme::Name(x), rest @ ..] => {
            let c = last_formal(alloc, own, rest)?;
            binary(alloc, x, a, c)
        }
        _ => Err(FormulaFault::BadCommand),
    }
}

fn between(alloc: Global, own: &Names, tokens: &[Lexeme]) -> Result<Title, FormulaFault>
    requires { All IsSpelled tokens.now }
    ensures { Tells seen_title result (between_of own.now tokens.now) }
{
    let front = formal(alloc, own, tokens)?;
    between_name(alloc, own, front.bound, front.rest)
}

/// Whether a name stands there with something behind it.
fn is_name_before(tokens: &[Lexeme]) -> bool
    ensures { result ≡ is_name_before tokens.now }
{
    matches!(tokens, [Lexeme::Name(_), _, ..])
}

/// The function that the tokens say, which are this name and those behind it.
fn named(
    alloc: Global,
    own: &Names,
    name: &Text,
    rest: &[Lexeme],
    tokens: &[Lexeme],
) -> Result<Title, FormulaFault>
    requires spelled { All IsSpelled tokens.now }
    requires rest { All IsSpelled rest.now }
    requires all { tokens.now ≡ lexeme.Name name.now ∷ rest.now }
    ensures { Tells seen_title result (named_of own.now name.now rest.now) }
{
    if rest.is_empty() {
        nullary(alloc, name)
    } else if is_name_before(rest) {
        between(alloc, own, tokens)
    } else {
        before(alloc, own, name, rest)
    }
}

/// The function that the tokens say.
///
/// ```text
/// function = name | name formal | formal name formal
/// formal   = name | ( formal , formal , .. )
/// ```
fn function(alloc: Global, own: &Names, tokens: &[Lexeme]) -> Result<Title, FormulaFault>
    requires { All IsSpelled tokens.now }
    ensures { Tells seen_title result (function_of own.now tokens.now) }
{
    match tokens {
        [Lexeme::Name(x), rest @ ..] => named(alloc, own, x, rest, tokens),
        _ => between(alloc, own, tokens),
    }
}

/// The same as a predicate.
fn as_predicate(function: Title) -> Title
    ensures template { result.template ≡ predicate function.template }
    ensures formals { result.formals ≡ function.formals }
{
    let Title { template, formals } = function;
    Title {
        template: Template {
            kind: TemplateKind::Predicate,
            words: template.words,
            places: template.places,
        },
        formals,
    }
}

fn command(alloc: Global, own: &Names, tokens: &[Lexeme]) -> Result<Title, FormulaFault>
    ensures { Tells seen_title result (command_by (places_of own.now tokens.now)) }
{
    let CommandTitle { words, formals } = places(alloc, own, tokens)?;
    Ok(Title {
        template: command_template(words, formals.len())?,
        formals,
    })
}

/// What stands behind HOW TO.
///
/// ```text
/// pattern = places | RETURN function | REPORT function
/// ```
pub(crate) fn pattern(alloc: Global, own: &Names, tokens: &[Lexeme]) -> Result<Title, FormulaFault>
    requires { All IsSpelled tokens.now }
    ensures { Tells seen_title result (pattern_of own.now tokens.now) }
{
    let [Lexeme::Keyword(x), rest @ ..] = tokens else {
        return Err(FormulaFault::BadCommand);
    };
    if x.bytes() == "RETURN".as_bytes() {
        function(alloc, own, rest)
    } else if x.bytes() == "REPORT".as_bytes() {
        Ok(as_predicate(function(alloc, own, rest)?))
    } else if is_reserved(x.bytes()) {
        Err(FormulaFault::BadCommand)
    } else {
        command(alloc, own, tokens)
    }
}
