//! Calls of command units: words and actuals by turns.
ghost use Rattle.std.specs.Prelude.{◌≡◌, ◌≤◌, ◌<◌, ◌∷◌, true, Some, IfOk, All, length};
ghost use Rattle.abc_expressions.specs.declared.lexemes.Lexeme.TheVariants as lexeme;
ghost use Rattle.std.specs.List.{prefix_len};
ghost use Rattle.abc_expressions.specs.Lexemes.{IsSpelled};
ghost use Rattle.abc_expressions.specs.Readings.{Answers, Tells};
ghost use Rattle.abc_clauses.specs.Names.{is_refinement};
ghost use Rattle.abc_clauses.specs.Readings.{words_of, call_of};
ghost use Rattle.abc_clauses.specs.Says.{calls_refinement, command_template, ends_place};
ghost use Rattle.abc_clauses.specs.inner.Views.{seen_call, is_plain, starts_plain, TakesWord};

use abc_expressions::{Lexeme, single_expression};
use abc_formula::FormulaFault;
use abc_num::{Items, Names, Text};
use abc_tokens::is_reserved;
use abc_tree::{ActionNode, Exprs, Template, TemplateKind, Word, Words};
use std::alloc::Global;

/// The words and actuals of a call.
#[derive(Drop)]
struct Calling {
    words: Words,
    actuals: Exprs,
}

/// Whether an actual or a single formal ends before these tokens: at the end, or before a keyword.
pub(crate) fn ends_place(tokens: &[Lexeme]) -> bool
    ensures { result ≡ ends_place tokens.now }
{
    match tokens {
        [] => true,
        [Lexeme::Keyword(_), ..] => true,
        _ => false,
    }
}

/// Whether the token is no keyword.
fn is_plain(token: &Lexeme) -> bool
    ensures { result ≡ is_plain token.now }
{
    !matches!(token, Lexeme::Keyword(_))
}

/// How many tokens stand before the next keyword.
fn stretch_length(tokens: &[Lexeme]) -> usize
    ensures count { result ≡ prefix_len is_plain tokens.now }
    ensures within { result ≤ length tokens.now }
{
    tokens.iter().take_while(|token| is_plain(token)).count()
}

/// The number of places of a template. A line never has so many that they can't be counted.
pub(crate) fn counted(places: usize) -> Result<u16, FormulaFault>
    ensures { Answers result (Some places) }
{
    if places > usize::from(u16::MAX) {
        return Err(FormulaFault::Memory);
    }
    Ok(places as u16)
}

/// The template of a command with these words.
pub(crate) fn command_template(words: Words, places: usize) -> Result<Template, FormulaFault>
    ensures { Answers result (Some (command_template words places)) }
{
    Ok(Template {
        kind: TemplateKind::Command,
        words,
        places: counted(places)?,
    })
}

impl Calling {
    /// Takes the actual in front of the tokens, which don't begin with a keyword, and gives those behind it.
    fn take_actual<'a>(
        &mut self,
        alloc: Global,
        own: &Names,
        tokens: &'a [Lexeme],
    ) -> Result<&'a [Lexeme], FormulaFault>
        requires plain { starts_plain tokens.now ≡ true }
        requires spelled { All IsSpelled tokens.now }
        ensures takes { TakesWord result (λ rest. rest.now) own.now tokens.now (seen_call self.old) (seen_call self.new) }
        ensures fewer { IfOk result (λ rest. length rest.now < length tokens.now) }
        ensures spelled { IfOk result (λ rest. All IsSpelled rest.now) }
    {
        let length = stretch_length(tokens);
        let actual = single_expression(alloc, own, &tokens[..length])?;
        self.actuals.push(actual)?;
        self.words.push(Word::Place)?;
        Ok(&tokens[length..])
    }

    /// Takes the keyword or the actual in front of the tokens, which are this one and those behind it, and gives those behind
    /// what was taken.
    fn take<'a>(
        &mut self,
        alloc: Global,
        own: &Names,
        first: &Lexeme,
        rest: &'a [Lexeme],
        tokens: &'a [Lexeme],
    ) -> Result<&'a [Lexeme], FormulaFault>
        requires all { tokens.now ≡ first.now ∷ rest.now }
        requires spelled { All IsSpelled tokens.now }
        ensures takes { TakesWord result (λ rest. rest.now) own.now tokens.now (seen_call self.old) (seen_call self.new) }
        ensures fewer { IfOk result (λ rest. length rest.now < length tokens.now) }
        ensures spelled { IfOk result (λ rest. All IsSpelled rest.now) }
    {
        match first {
            Lexeme::Keyword(x) => {
                self.words.push(Word::Key(Text::of(alloc, x.bytes())?))?;
                Ok(rest)
            }
            Lexeme::Number(_) => self.take_actual(alloc, own, tokens),
            Lexeme::Name(_) => self.take_actual(alloc, own, tokens),
            Lexeme::Text(_) => self.take_actual(alloc, own, tokens),
            Lexeme::Sign(_) => self.take_actual(alloc, own, tokens),
            Lexeme::Other => self.take_actual(alloc, own, tokens),
        }
    }
}

/// The words and actuals that the tokens say.
///
/// ```text
/// call = keyword { [actual] keyword } [actual]
/// ```
fn words(alloc: Global, own: &Names, tokens: &[Lexeme]) -> Result<Calling, FormulaFault>
    requires { All IsSpelled tokens.now }
    ensures { Tells seen_call result (words_of own.now tokens.now) }
{
    let mut calling = Calling {
        words: Items::new(alloc),
        actuals: Items::new(alloc),
    };
    let mut ahead = tokens;
    while let Some((first, rest)) = ahead.split_first() {
        ahead = calling.take(alloc, own, first, rest, ahead)?;
    }
    Ok(calling)
}

fn is_refinement(commands: &Names, keyword: &Text) -> bool
    ensures { result ≡ is_refinement commands.now keyword.now }
{
    commands.find(keyword).is_some()
}

/// Whether a keyword with these tokens behind it calls a command refinement.
fn calls_refinement(commands: &Names, keyword: &Text, rest: &[Lexeme]) -> bool
    ensures { result ≡ calls_refinement commands.now keyword.now rest.now }
{
    match rest {
        [] => is_refinement(commands, keyword),
        _ => false,
    }
}

/// The call that the tokens say, which are this keyword and those behind it: of a command refinement where the keyword
/// stands alone and is one, else of a command unit.
pub(crate) fn call(
    alloc: Global,
    own: &Names,
    commands: &Names,
    keyword: &Text,
    rest: &[Lexeme],
    tokens: &[Lexeme],
) -> Result<ActionNode, FormulaFault>
    requires spelled { All IsSpelled tokens.now }
    requires all { tokens.now ≡ lexeme.Keyword keyword.now ∷ rest.now }
    ensures { Answers result (call_of own.now commands.now keyword.now rest.now) }
{
    if is_reserved(keyword.bytes()) {
        return Err(FormulaFault::BadCommand);
    }
    if calls_refinement(commands, keyword, rest) {
        return Ok(ActionNode::Refinement(Text::of(alloc, keyword.bytes())?));
    }
    let Calling { words, actuals } = words(alloc, own, tokens)?;
    Ok(ActionNode::Call(command_template(words, actuals.len())?, actuals))
}
