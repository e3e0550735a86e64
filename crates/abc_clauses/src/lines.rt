//! What lines say, by their places in an item.
ghost use Rattle.std.specs.Prelude.{◌≡◌, ◌≤◌, Option, None, IfOk, All, length, option_map};
ghost use Rattle.abc_num.specs.declared.limits.TheConstants.{MOST_LINE_BYTES};
ghost use Rattle.abc_expressions.specs.Lexemes.{IsSpelled};
ghost use Rattle.abc_expressions.specs.Readings.{Answers, Tells};
ghost use Rattle.abc_clauses.specs.Readings.{Said, clause_at, by_opening, head_by, headed, pattern_of, refinement_head, refined_test, simple_of, said_alternative, said_command, said_heading, said_refinement, select_of, shared_of, stray_of, train_of, bound_of, way_of, command_of, alternative_of, heading_of, refinement_of};
ghost use Rattle.abc_clauses.specs.inner.Views.{is_comma, seen_saying};

use crate::clause::{Clause, Head};
use crate::cuts::cut_at_colon;
use crate::headings::{bound, pattern};
use crate::simple::{beside, refined_test, simple};
use crate::words::{Front, Opening, opening_of};
use abc_expressions::{Lexeme, Sign, single_expression};
use abc_formula::FormulaFault;
use abc_num::{Items, Names, OutOfMemory, Text};
use abc_tokens::is_reserved;
use abc_tree::{ActionNode, RefinementKind};
use std::alloc::Global;

/// What a line says without its number.
#[derive(Drop)]
struct Saying {
    head: Head,
    beside: Option<ActionNode>,
}

fn is_comma(token: &Lexeme) -> bool
    ensures { result ≡ is_comma token.now }
{
    matches!(token, Lexeme::Sign(Sign::Comma))
}

/// Names with commas between.
///
/// ```text
/// name , name , ..
/// ```
fn shared(alloc: Global, tokens: &[Lexeme]) -> Result<Items<Text>, FormulaFault>
    ensures { Answers result (shared_of tokens.now) }
{
    let mut names = Items::new(alloc);
    let mut ahead = tokens;
    while let Some((token, rest)) = ahead.split_first() {
        let Lexeme::Name(x) = token else {
            return Err(FormulaFault::BadCommand);
        };
        names.push(Text::of(alloc, x.bytes())?)?;
        let Some((comma, more)) = rest.split_first() else {
            return Ok(names);
        };
        if !is_comma(comma) {
            return Err(FormulaFault::BadCommand);
        }
        ahead = more;
    }
    Err(FormulaFault::BadCommand)
}

/// What stands between FOR and the colon.
///
/// ```text
/// names IN E
/// ```
fn for_head(alloc: Global, own: &Names, tokens: &[Lexeme]) -> Result<Head, FormulaFault>
    requires { All IsSpelled tokens.now }
    ensures { Answers result (train_of own.now (bound_of own.now tokens.now)) }
{
    let front = bound(alloc, own, tokens)?;
    let train = single_expression(alloc, own, front.rest)?;
    Ok(Head::For(front.bound, train))
}

/// What stands before the colon of an alternative: ELSE, or a test.
fn way(
    alloc: Global,
    own: &Names,
    kinds: &[Option<RefinementKind>],
    tokens: &[Lexeme],
) -> Result<Head, FormulaFault>
    requires { All IsSpelled tokens.now }
    ensures { Answers result (way_of own.now kinds.now tokens.now) }
{
    if let [Lexeme::Keyword(x)] = tokens {
        return if x.bytes() == "ELSE".as_bytes() {
            Ok(Head::Otherwise)
        } else {
            Err(FormulaFault::BadCommand)
        };
    }
    Ok(Head::When(refined_test(alloc, own, kinds, tokens)?))
}

/// The name of a refinement: a name, or a keyword that isn't reserved.
fn refinement_head(alloc: Global, tokens: &[Lexeme]) -> Result<Head, FormulaFault>
    ensures { Answers result (refinement_head tokens.now) }
{
    match tokens {
        [Lexeme::Name(x)] => Ok(Head::Refinement(Text::of(alloc, x.bytes())?)),
        [Lexeme::Keyword(x)] => {
            if is_reserved(x.bytes()) {
                return Err(FormulaFault::BadCommand);
            }
            Ok(Head::Refinement(Text::of(alloc, x.bytes())?))
        }
        _ => Err(FormulaFault::BadCommand),
    }
}

fn unit_head(alloc: Global, own: &Names, tokens: &[Lexeme]) -> Result<Head, FormulaFault>
    requires { All IsSpelled tokens.now }
    ensures { Answers result (option_map (λ read. Head.Unit read.0 read.1) (pattern_of own.now tokens.now)) }
{
    let title = pattern(alloc, own, tokens)?;
    Ok(Head::Unit(title.template, title.formals))
}

fn if_head(
    alloc: Global,
    own: &Names,
    kinds: &[Option<RefinementKind>],
    tokens: &[Lexeme],
) -> Result<Head, FormulaFault>
    requires { All IsSpelled tokens.now }
    ensures { Answers result (option_map (λ test. Head.If test) (refined_test own.now kinds.now tokens.now)) }
{
    Ok(Head::If(refined_test(alloc, own, kinds, tokens)?))
}

fn while_head(
    alloc: Global,
    own: &Names,
    kinds: &[Option<RefinementKind>],
    tokens: &[Lexeme],
) -> Result<Head, FormulaFault>
    requires { All IsSpelled tokens.now }
    ensures { Answers result (option_map (λ test. Head.While test) (refined_test own.now kinds.now tokens.now)) }
{
    Ok(Head::While(refined_test(alloc, own, kinds, tokens)?))
}

/// What stands before the colon.
fn head_by(
    alloc: Global,
    own: &Names,
    kinds: &[Option<RefinementKind>],
    front: Front,
    tokens: &[Lexeme],
) -> Result<Head, FormulaFault>
    requires { All IsSpelled tokens.now }
    ensures { Answers result (head_by own.now kinds.now front tokens.now) }
{
    match front {
        Front::If => if_head(alloc, own, kinds, tokens),
        Front::While => while_head(alloc, own, kinds, tokens),
        Front::For => for_head(alloc, own, tokens),
        Front::Alternative => way(alloc, own, kinds, tokens),
        Front::Unit => unit_head(alloc, own, tokens),
        Front::Refinement => refinement_head(alloc, tokens),
    }
}

/// A head, the first colon outside brackets, and what stands behind that.
fn headed(
    alloc: Global,
    own: &Names,
    kinds: &[Option<RefinementKind>],
    commands: &Names,
    text: &[u8],
    front: Front,
    tokens: &[Lexeme],
) -> Result<Saying, FormulaFault>
    requires short { length text.now ≤ MOST_LINE_BYTES }
    requires spelled { All IsSpelled tokens.now }
    ensures { Tells seen_saying result (headed own.now kinds.now commands.now text.now front tokens.now) }
{
    let Some(cut) = cut_at_colon(tokens) else {
        return Err(FormulaFault::BadCommand);
    };
    let beside = beside(alloc, own, kinds, commands, text, cut.behind)?;
    let head = head_by(alloc, own, kinds, front, cut.front)?;
    Ok(Saying { head, beside })
}

/// The tokens behind SELECT.
fn select(tokens: &[Lexeme]) -> Result<Saying, FormulaFault>
    ensures { Tells seen_saying result (select_of tokens.now) }
{
    match tokens {
        [Lexeme::Sign(Sign::Colon)] => Ok(Saying {
            head: Head::Select,
            beside: None,
        }),
        _ => Err(FormulaFault::BadCommand),
    }
}

/// The tokens behind an ELSE that is no alternative.
fn stray(
    alloc: Global,
    own: &Names,
    kinds: &[Option<RefinementKind>],
    commands: &Names,
    text: &[u8],
    tokens: &[Lexeme],
) -> Result<Saying, FormulaFault>
    requires short { length text.now ≤ MOST_LINE_BYTES }
    requires spelled { All IsSpelled tokens.now }
    ensures { Tells seen_saying result (stray_of own.now kinds.now commands.now text.now tokens.now) }
{
    let [Lexeme::Sign(Sign::Colon), rest @ ..] = tokens else {
        return Err(FormulaFault::BadCommand);
    };
    let beside = beside(alloc, own, kinds, commands, text, rest)?;
    Ok(Saying {
        head: Head::Otherwise,
        beside,
    })
}

fn share(alloc: Global, tokens: &[Lexeme]) -> Result<Saying, FormulaFault>
    ensures { Tells seen_saying result (option_map (λ names. (Head.Share names, None)) (shared_of tokens.now)) }
{
    let names = shared(alloc, tokens)?;
    Ok(Saying {
        head: Head::Share(names),
        beside: None,
    })
}

/// The tokens behind the keyword of a line that says more than a simple command.
fn by_opening(
    alloc: Global,
    own: &Names,
    kinds: &[Option<RefinementKind>],
    commands: &Names,
    text: &[u8],
    opening: Opening,
    tokens: &[Lexeme],
) -> Result<Saying, FormulaFault>
    requires short { length text.now ≤ MOST_LINE_BYTES }
    requires spelled { All IsSpelled tokens.now }
    ensures { Tells seen_saying result (by_opening own.now kinds.now commands.now text.now opening tokens.now) }
{
    match opening {
        Opening::If => headed(alloc, own, kinds, commands, text, Front::If, tokens),
        Opening::While => headed(alloc, own, kinds, commands, text, Front::While, tokens),
        Opening::For => headed(alloc, own, kinds, commands, text, Front::For, tokens),
        Opening::Select => select(tokens),
        Opening::Else => stray(alloc, own, kinds, commands, text, tokens),
        Opening::Share => share(alloc, tokens),
    }
}

fn simple_line(
    alloc: Global,
    own: &Names,
    kinds: &[Option<RefinementKind>],
    commands: &Names,
    text: &[u8],
    tokens: &[Lexeme],
) -> Result<Saying, FormulaFault>
    requires short { length text.now ≤ MOST_LINE_BYTES }
    requires spelled { All IsSpelled tokens.now }
    ensures { Tells seen_saying result (option_map (λ node. (Head.Simple node, None)) (simple_of own.now kinds.now commands.now text.now tokens.now)) }
{
    let node = simple(alloc, own, kinds, commands, text, tokens)?;
    Ok(Saying {
        head: Head::Simple(node),
        beside: None,
    })
}

fn command(
    alloc: Global,
    own: &Names,
    kinds: &[Option<RefinementKind>],
    commands: &Names,
    text: &[u8],
    tokens: &[Lexeme],
) -> Result<Saying, FormulaFault>
    requires short { length text.now ≤ MOST_LINE_BYTES }
    requires spelled { All IsSpelled tokens.now }
    ensures { Tells seen_saying result (said_command own.now kinds.now commands.now text.now tokens.now) }
{
    let [Lexeme::Keyword(x), rest @ ..] = tokens else {
        return Err(FormulaFault::BadCommand);
    };
    match opening_of(x.bytes()) {
        Some(opening) => by_opening(alloc, own, kinds, commands, text, opening, rest),
        None => simple_line(alloc, own, kinds, commands, text, tokens),
    }
}

fn heading(
    alloc: Global,
    own: &Names,
    kinds: &[Option<RefinementKind>],
    commands: &Names,
    text: &[u8],
    tokens: &[Lexeme],
) -> Result<Saying, FormulaFault>
    requires short { length text.now ≤ MOST_LINE_BYTES }
    requires spelled { All IsSpelled tokens.now }
    ensures { Tells seen_saying result (said_heading own.now kinds.now commands.now text.now tokens.now) }
{
    let [Lexeme::Keyword(x), Lexeme::Keyword(y), rest @ ..] = tokens else {
        return Err(FormulaFault::BadCommand);
    };
    if x.bytes() == "HOW".as_bytes() && y.bytes() == "TO".as_bytes() {
        headed(alloc, own, kinds, commands, text, Front::Unit, rest)
    } else {
        Err(FormulaFault::BadCommand)
    }
}

/// The clause of the line of this number, or None where it says none.
fn numbered(line: u32, said: Result<Saying, FormulaFault>) -> Result<Option<Clause>, OutOfMemory>
    ensures { (found : Option Said) → Tells seen_saying said found → IfOk result (λ c. c ≡ option_map (clause_at line) found) }
{
    match said {
        Ok(said) => Ok(Some(Clause {
            line,
            head: said.head,
            beside: said.beside,
        })),
        Err(FormulaFault::Memory) => Err(OutOfMemory),
        Err(FormulaFault::BadCommand) => Ok(None),
        Err(FormulaFault::TooMany) => Ok(None),
    }
}

/// What the line of a command says: a simple command; IF, WHILE, FOR, SELECT or a stray ELSE, with what stands behind the
/// colon; or SHARE. None exactly where it says nothing. The names are those of the item, with the refinement that each is, by
/// its number, and the keywords of the command refinements; the text is the line's without its indentation. It takes time
/// proportional to the line.
#[tactic(auto, unfolding(crate::specs::Readings::command_of))]
pub fn command_clause(
    alloc: Global,
    own: &Names,
    kinds: &[Option<RefinementKind>],
    commands: &Names,
    text: &[u8],
    tokens: &[Lexeme],
    line: u32,
) -> Result<Option<Clause>, OutOfMemory>
    requires short { length text.now ≤ MOST_LINE_BYTES }
    requires spelled { All IsSpelled tokens.now }
    ensures { IfOk result (λ c. c ≡ command_of own.now kinds.now commands.now text.now line tokens.now) }
{
    numbered(line, command(alloc, own, kinds, commands, text, tokens))
}

/// What an alternative of a SELECT says: a test or ELSE, and what stands behind the colon. None exactly where it says
/// nothing. The arguments are as for the line of a command.
#[tactic(auto, unfolding(crate::specs::Readings::alternative_of))]
pub fn alternative_clause(
    alloc: Global,
    own: &Names,
    kinds: &[Option<RefinementKind>],
    commands: &Names,
    text: &[u8],
    tokens: &[Lexeme],
    line: u32,
) -> Result<Option<Clause>, OutOfMemory>
    requires short { length text.now ≤ MOST_LINE_BYTES }
    requires spelled { All IsSpelled tokens.now }
    ensures { IfOk result (λ c. c ≡ alternative_of own.now kinds.now commands.now text.now line tokens.now) }
{
    let said = headed(
        alloc,
        own,
        kinds,
        commands,
        text,
        Front::Alternative,
        tokens,
    );
    numbered(line, said)
}

/// What the first line of a unit says: its template and formals, and what stands behind the colon. None exactly where it
/// says nothing. The arguments are as for the line of a command.
#[tactic(auto, unfolding(crate::specs::Readings::heading_of))]
pub fn heading_clause(
    alloc: Global,
    own: &Names,
    kinds: &[Option<RefinementKind>],
    commands: &Names,
    text: &[u8],
    tokens: &[Lexeme],
    line: u32,
) -> Result<Option<Clause>, OutOfMemory>
    requires short { length text.now ≤ MOST_LINE_BYTES }
    requires spelled { All IsSpelled tokens.now }
    ensures { IfOk result (λ c. c ≡ heading_of own.now kinds.now commands.now text.now line tokens.now) }
{
    numbered(line, heading(alloc, own, kinds, commands, text, tokens))
}

/// What the heading of a refinement says: its name, and what stands behind the colon. None exactly where it says nothing.
/// The arguments are as for the line of a command.
#[tactic(auto, unfolding(crate::specs::Readings::refinement_of))]
pub fn refinement_clause(
    alloc: Global,
    own: &Names,
    kinds: &[Option<RefinementKind>],
    commands: &Names,
    text: &[u8],
    tokens: &[Lexeme],
    line: u32,
) -> Result<Option<Clause>, OutOfMemory>
    requires short { length text.now ≤ MOST_LINE_BYTES }
    requires spelled { All IsSpelled tokens.now }
    ensures { IfOk result (λ c. c ≡ refinement_of own.now kinds.now commands.now text.now line tokens.now) }
{
    let said = headed(alloc, own, kinds, commands, text, Front::Refinement, tokens);
    numbered(line, said)
}
