//! Simple commands.
ghost use Rattle.std.specs.Prelude.{◌≡◌, ◌≤◌, Some, All, codes, is_some, length, option_map};
ghost use Rattle.abc_num.specs.declared.limits.TheConstants.{MOST_LINE_BYTES};
ghost use Rattle.abc_tree.specs.declared.commands.ActionNode.TheVariants as action;
ghost use Rattle.abc_expressions.specs.Lexemes.{IsSpelled};
ghost use Rattle.abc_expressions.specs.Readings.{Answers, address_of, expression_of};
ghost use Rattle.abc_clauses.specs.Names.{lone_names_refine, refinement_at};
ghost use Rattle.abc_clauses.specs.Readings.{by_verb, example_of, only_if, placed_of, read_by, read_example_of, read_of, read_raw_of, refined_test, simple_of, write_of, written_by, written_lines, written_with, beside_of, of_cut};
ghost use Rattle.abc_clauses.specs.Cuts.{bytes_behind, cut_at};

use crate::calls::call;
use crate::cuts::{Cut, cut_at, slashes_at_end, slashes_in_front};
use crate::formulas::refinement_at;
use crate::literal::{bytes_behind, is_literal, spells_literal};
use crate::words::{Verb, verb_of};
use abc_expressions::{Lexeme, whole_address, whole_expression};
use abc_formula::{FormulaFault, whole_test};
use abc_num::Names;
use abc_tree::{ActionNode, Expr, NameId, RefinementKind, Test};
use std::alloc::Global;

/// How many slashes there are. A line never has so many that they can't be counted.
fn counted(slashes: usize) -> Result<u32, FormulaFault>
    ensures { Answers result (Some slashes) }
{
    if slashes > u32::MAX as usize {
        return Err(FormulaFault::Memory);
    }
    Ok(slashes as u32)
}

/// WRITE with slashes alone.
fn write_lines(slashes: usize) -> Result<ActionNode, FormulaFault>
    ensures { Answers result (written_lines slashes) }
{
    if slashes == 0 {
        return Err(FormulaFault::BadCommand);
    }
    Ok(ActionNode::Write {
        before: counted(slashes)?,
        part: None,
        after: 0,
    })
}

/// WRITE with so many slashes before these tokens, which begin with none.
fn write_part(
    alloc: Global,
    own: &Names,
    before: usize,
    tokens: &[Lexeme],
) -> Result<ActionNode, FormulaFault>
    requires { All IsSpelled tokens.now }
    ensures { Answers result (written_with own.now before tokens.now) }
{
    let after = slashes_at_end(tokens);
    let part = whole_expression(alloc, own, &tokens[..tokens.len() - after])?;
    Ok(ActionNode::Write {
        before: counted(before)?,
        part: Some(part),
        after: counted(after)?,
    })
}

/// The tokens behind WRITE.
///
/// ```text
/// { / } C { / } | / { / }
/// ```
fn write(alloc: Global, own: &Names, tokens: &[Lexeme]) -> Result<ActionNode, FormulaFault>
    requires { All IsSpelled tokens.now }
    ensures { Answers result (write_of own.now tokens.now) }
{
    let before = slashes_in_front(tokens);
    let rest = &tokens[before..];
    if rest.is_empty() {
        write_lines(before)
    } else {
        write_part(alloc, own, before, rest)
    }
}

/// The tokens behind PUT.
///
/// ```text
/// C IN A
/// ```
fn put(alloc: Global, own: &Names, tokens: &[Lexeme]) -> Result<ActionNode, FormulaFault>
    requires { All IsSpelled tokens.now }
    ensures { Answers result (placed_of own.now (codes "IN") (λ value address. action.Put value address) tokens.now) }
{
    let Some(cut) = cut_at(b"IN", tokens) else {
        return Err(FormulaFault::BadCommand);
    };
    let value = whole_expression(alloc, own, cut.front)?;
    let address = whole_address(alloc, own, cut.behind)?;
    Ok(ActionNode::Put { value, address })
}

/// The tokens behind INSERT.
///
/// ```text
/// C IN A
/// ```
fn insert(alloc: Global, own: &Names, tokens: &[Lexeme]) -> Result<ActionNode, FormulaFault>
    requires { All IsSpelled tokens.now }
    ensures { Answers result (placed_of own.now (codes "IN") (λ value address. action.Insert value address) tokens.now) }
{
    let Some(cut) = cut_at(b"IN", tokens) else {
        return Err(FormulaFault::BadCommand);
    };
    let value = whole_expression(alloc, own, cut.front)?;
    let address = whole_address(alloc, own, cut.behind)?;
    Ok(ActionNode::Insert { value, address })
}

/// The tokens behind REMOVE.
///
/// ```text
/// C FROM A
/// ```
fn remove(alloc: Global, own: &Names, tokens: &[Lexeme]) -> Result<ActionNode, FormulaFault>
    requires { All IsSpelled tokens.now }
    ensures { Answers result (placed_of own.now (codes "FROM") (λ value address. action.Remove value address) tokens.now) }
{
    let Some(cut) = cut_at(b"FROM", tokens) else {
        return Err(FormulaFault::BadCommand);
    };
    let value = whole_expression(alloc, own, cut.front)?;
    let address = whole_address(alloc, own, cut.behind)?;
    Ok(ActionNode::Remove { value, address })
}

/// The tokens behind DELETE.
///
/// ```text
/// A
/// ```
fn delete(alloc: Global, own: &Names, tokens: &[Lexeme]) -> Result<ActionNode, FormulaFault>
    requires { All IsSpelled tokens.now }
    ensures { Answers result (option_map (λ address. action.Delete address) (address_of own.now tokens.now)) }
{
    let address = whole_address(alloc, own, tokens)?;
    Ok(ActionNode::Delete { address })
}

/// The example that the tokens are, where these bytes are a literal.
fn example(
    alloc: Global,
    own: &Names,
    bytes: &[u8],
    tokens: &[Lexeme],
) -> Result<Expr, FormulaFault>
    requires short { length bytes.now ≤ MOST_LINE_BYTES }
    requires spelled { All IsSpelled tokens.now }
    ensures { Answers result (example_of own.now bytes.now tokens.now) }
{
    if !spells_literal(alloc, bytes)? {
        return Err(FormulaFault::BadCommand);
    }
    let example = whole_expression(alloc, own, tokens)?;
    if is_literal(&example) {
        Ok(example)
    } else {
        Err(FormulaFault::BadCommand)
    }
}

/// READ of an address, with an example.
fn read_example(
    alloc: Global,
    own: &Names,
    text: &[u8],
    address: &[Lexeme],
    tokens: &[Lexeme],
) -> Result<ActionNode, FormulaFault>
    requires short { length text.now ≤ MOST_LINE_BYTES }
    requires address { All IsSpelled address.now }
    requires spelled { All IsSpelled tokens.now }
    ensures { Answers result (read_example_of own.now text.now address.now tokens.now) }
{
    let address = whole_address(alloc, own, address)?;
    let bytes = bytes_behind(alloc, text, tokens.len())?;
    let example = example(alloc, own, bytes, tokens)?;
    Ok(ActionNode::ReadExample { address, example })
}

/// READ of an address with RAW, behind which nothing may stand.
fn read_raw(
    alloc: Global,
    own: &Names,
    address: &[Lexeme],
    rest: &[Lexeme],
) -> Result<ActionNode, FormulaFault>
    requires { All IsSpelled address.now }
    ensures { Answers result (read_raw_of own.now address.now rest.now) }
{
    let address = whole_address(alloc, own, address)?;
    if !rest.is_empty() {
        return Err(FormulaFault::BadCommand);
    }
    Ok(ActionNode::ReadRaw { address })
}

/// READ without EG.
fn read_line(alloc: Global, own: &Names, tokens: &[Lexeme]) -> Result<ActionNode, FormulaFault>
    requires { All IsSpelled tokens.now }
    ensures { Answers result (of_cut (read_raw_of own.now) (cut_at (codes "RAW") tokens.now)) }
{
    let Some(cut) = cut_at(b"RAW", tokens) else {
        return Err(FormulaFault::BadCommand);
    };
    read_raw(alloc, own, cut.front, cut.behind)
}

/// The tokens behind READ.
///
/// ```text
/// A EG literal | A RAW
/// ```
fn read(
    alloc: Global,
    own: &Names,
    text: &[u8],
    tokens: &[Lexeme],
) -> Result<ActionNode, FormulaFault>
    requires short { length text.now ≤ MOST_LINE_BYTES }
    requires spelled { All IsSpelled tokens.now }
    ensures { Answers result (read_of own.now text.now tokens.now) }
{
    match cut_at(b"EG", tokens) {
        Some(cut) => read_example(alloc, own, text, cut.front, cut.behind),
        None => read_line(alloc, own, tokens),
    }
}

/// Whether the own name of this number is a refinement.
fn is_refinement(kinds: &[Option<RefinementKind>], name: NameId) -> bool
    ensures { result ≡ is_some (refinement_at kinds.now name.0) }
{
    refinement_at(kinds, name).is_some()
}

/// Whether each lone own name of the test is a refinement.
fn lone_names_refine(kinds: &[Option<RefinementKind>], test: &Test) -> bool
    ensures { result ≡ lone_names_refine kinds.now test.now }
{
    match test {
        Test::Chain(_, _) => true,
        Test::Member(_, _, _) => true,
        Test::And(a, b) => lone_names_refine(kinds, a.get()) && lone_names_refine(kinds, b.get()),
        Test::Or(a, b) => lone_names_refine(kinds, a.get()) && lone_names_refine(kinds, b.get()),
        Test::Not(a) => lone_names_refine(kinds, a.get()),
        Test::Quantified(_, _, _, a) => lone_names_refine(kinds, a.get()),
        Test::Call(_, _) => true,
        Test::Refinement(name) => is_refinement(kinds, *name),
    }
}

/// The test that the tokens are, in which each lone own name is a refinement.
pub(crate) fn refined_test(
    alloc: Global,
    own: &Names,
    kinds: &[Option<RefinementKind>],
    tokens: &[Lexeme],
) -> Result<Test, FormulaFault>
    requires { All IsSpelled tokens.now }
    ensures { Answers result (refined_test own.now kinds.now tokens.now) }
{
    let test = whole_test(alloc, own, tokens)?;
    if lone_names_refine(kinds, &test) {
        Ok(test)
    } else {
        Err(FormulaFault::BadCommand)
    }
}

/// CHECK and REPORT, behind which a test stands.
fn check(
    alloc: Global,
    own: &Names,
    kinds: &[Option<RefinementKind>],
    tokens: &[Lexeme],
) -> Result<ActionNode, FormulaFault>
    requires { All IsSpelled tokens.now }
    ensures { Answers result (option_map (λ test. action.Check test) (refined_test own.now kinds.now tokens.now)) }
{
    Ok(ActionNode::Check(refined_test(alloc, own, kinds, tokens)?))
}

fn report(
    alloc: Global,
    own: &Names,
    kinds: &[Option<RefinementKind>],
    tokens: &[Lexeme],
) -> Result<ActionNode, FormulaFault>
    requires { All IsSpelled tokens.now }
    ensures { Answers result (option_map (λ test. action.Report test) (refined_test own.now kinds.now tokens.now)) }
{
    Ok(ActionNode::Report(refined_test(alloc, own, kinds, tokens)?))
}

/// RETURN, behind which a value stands.
fn return_value(alloc: Global, own: &Names, tokens: &[Lexeme]) -> Result<ActionNode, FormulaFault>
    requires { All IsSpelled tokens.now }
    ensures { Answers result (option_map (λ value. action.Return value) (expression_of own.now tokens.now)) }
{
    Ok(ActionNode::Return(whole_expression(alloc, own, tokens)?))
}

/// The tokens behind the keyword of a command of the language.
fn by_verb(
    alloc: Global,
    own: &Names,
    kinds: &[Option<RefinementKind>],
    text: &[u8],
    verb: Verb,
    tokens: &[Lexeme],
) -> Result<ActionNode, FormulaFault>
    requires short { length text.now ≤ MOST_LINE_BYTES }
    requires spelled { All IsSpelled tokens.now }
    ensures { Answers result (by_verb own.now kinds.now text.now verb tokens.now) }
{
    match verb {
        Verb::Write => write(alloc, own, tokens),
        Verb::Put => put(alloc, own, tokens),
        Verb::Insert => insert(alloc, own, tokens),
        Verb::Remove => remove(alloc, own, tokens),
        Verb::Delete => delete(alloc, own, tokens),
        Verb::Read => read(alloc, own, text, tokens),
        Verb::Check => check(alloc, own, kinds, tokens),
        Verb::Pass if tokens.is_empty() => Ok(ActionNode::Pass),
        Verb::Quit if tokens.is_empty() => Ok(ActionNode::Quit),
        Verb::Return => return_value(alloc, own, tokens),
        Verb::Report => report(alloc, own, kinds, tokens),
        Verb::Succeed if tokens.is_empty() => Ok(ActionNode::Succeed),
        Verb::Fail if tokens.is_empty() => Ok(ActionNode::Fail),
        Verb::Pass | Verb::Quit | Verb::Succeed | Verb::Fail => Err(FormulaFault::BadCommand),
    }
}

/// The simple command that the tokens say.
pub(crate) fn simple(
    alloc: Global,
    own: &Names,
    kinds: &[Option<RefinementKind>],
    commands: &Names,
    text: &[u8],
    tokens: &[Lexeme],
) -> Result<ActionNode, FormulaFault>
    requires short { length text.now ≤ MOST_LINE_BYTES }
    requires spelled { All IsSpelled tokens.now }
    ensures { Answers result (simple_of own.now kinds.now commands.now text.now tokens.now) }
{
    let [Lexeme::Keyword(x), rest @ ..] = tokens else {
        return Err(FormulaFault::BadCommand);
    };
    match verb_of(x.bytes()) {
        Some(verb) => by_verb(alloc, own, kinds, text, verb, rest),
        None => call(alloc, own, commands, x, rest, tokens),
    }
}

/// What stands behind a colon: nothing, or a simple command.
pub(crate) fn beside(
    alloc: Global,
    own: &Names,
    kinds: &[Option<RefinementKind>],
    commands: &Names,
    text: &[u8],
    tokens: &[Lexeme],
) -> Result<Option<ActionNode>, FormulaFault>
    requires short { length text.now ≤ MOST_LINE_BYTES }
    requires spelled { All IsSpelled tokens.now }
    ensures { Answers result (beside_of own.now kinds.now commands.now text.now tokens.now) }
{
    if tokens.is_empty() {
        return Ok(None);
    }
    Ok(Some(simple(alloc, own, kinds, commands, text, tokens)?))
}
