//! The calls for addresses.
ghost use Rattle.std.specs.Prelude.{◌≡◌, ◌≤◌, ◌<◌, ◌-◌, ◌^◌, [], Err, IfOk, OnOk, All, length, map};
ghost use Rattle.abc_num.specs.declared.limits.TheConstants.{MOST_BRACKETS, MOST_LINE_BYTES, MOST_TREE_HEIGHT};
ghost use Rattle.abc_tree.specs.Height.{height};
ghost use Rattle.abc_tree.specs.Regular.{is_address, every};
ghost use Rattle.abc_tree.specs.declared.formulas.Expr.{Expr};
ghost use Rattle.abc_expressions.specs.Addresses.{SpelledAddress, names_of_address};
ghost use Rattle.abc_expressions.specs.inner.AddressSteps.{depth_behind, depth_by, names_behind};
ghost use Rattle.abc_expressions.specs.Lexemes.{seen, ArePart, IsSpelled};
ghost use Rattle.abc_expressions.specs.Readings.{address_of, Answers};

use crate::FormulaFault;
use crate::expressions::whole_expression;
use crate::height::is_higher;
use crate::lexemes::{Lexeme, lexemes_of};
use crate::signs::Sign;
use abc_num::limits::MOST_TREE_HEIGHT;
use abc_num::{Names, OutOfMemory, Text};
use abc_tokens::{Token, one_reading};
use abc_tree::Expr;
use std::alloc::Global;

/// Whether the expression has the form of an address.
#[cycle(address)]
fn is_address(tree: &Expr) -> bool
    ensures { result ≡ is_address tree.now }
{
    match tree {
        Expr::Name(_) => true,
        Expr::Select(table, _) => is_address(table.get()),
        Expr::Compound(parts) => are_addresses(parts.as_slice()),
        Expr::Number(_) => false,
        Expr::Text(_) => false,
        Expr::Empty => false,
        Expr::List(_) => false,
        Expr::Table(_) => false,
        Expr::Apply1(_, _) => false,
        Expr::Apply2(_, _, _) => false,
        Expr::Call(_, _) => false,
    }
}

#[cycle(address)]
fn are_addresses(parts: &[Expr]) -> bool
    ensures { result ≡ every (map is_address parts.now) }
{
    for part in parts {
        if !is_address(part) {
            return false;
        }
    }
    true
}

/// The one address that these tokens spell, with these own names, however high. BadCommand exactly where they spell none, and
/// never TooMany.
///
/// ```text
/// A  = A1 | A1 , A1 , .. , A1
/// A1 = own name | A1 [ C ] | ( A )
/// ```
#[tactic(auto, unfolding(crate::specs::Readings::address_of))]
pub fn whole_address(alloc: Global, own: &Names, tokens: &[Lexeme]) -> Result<Expr, FormulaFault>
    requires { All IsSpelled tokens.now }
    ensures read { Answers result (address_of own.now tokens.now) }
    ensures found { IfOk result (λ a. SpelledAddress own.now MOST_BRACKETS a tokens.now []) }
    ensures none { result ≡ Err FormulaFault.BadCommand → (a : Expr) → ¬ SpelledAddress own.now MOST_BRACKETS a tokens.now [] }
    ensures low { ¬ (result ≡ Err FormulaFault.TooMany) }
{
    one_reading();
    let tree = whole_expression(alloc, own, tokens)?;
    if is_address(&tree) {
        Ok(tree)
    } else {
        Err(FormulaFault::BadCommand)
    }
}

/// The one address that these tokens of the line spell, with these own names. BadCommand exactly where they spell none,
/// TooMany exactly where the tree is higher than `MOST_TREE_HEIGHT`.
pub fn address(
    alloc: Global,
    toks: &[Token],
    line: &[u8],
    own: &Names,
) -> Result<Expr, FormulaFault>
    requires { ArePart line.now toks.now }
    ensures found { IfOk result (λ a. SpelledAddress own.now MOST_BRACKETS a (map (seen line.now) toks.now) [] × (height a ≤ MOST_TREE_HEIGHT)) }
    ensures none { result ≡ Err FormulaFault.BadCommand → (a : Expr) → ¬ SpelledAddress own.now MOST_BRACKETS a (map (seen line.now) toks.now) [] }
    ensures high { result ≡ Err FormulaFault.TooMany → (a : Expr) × SpelledAddress own.now MOST_BRACKETS a (map (seen line.now) toks.now) [] × (MOST_TREE_HEIGHT < height a) }
{
    let lexemes = lexemes_of(alloc, line, toks)?;
    let tree = whole_address(alloc, own, lexemes.as_slice())?;
    if is_higher(&tree, MOST_TREE_HEIGHT) {
        return Err(FormulaFault::TooMany);
    }
    Ok(tree)
}

/// How many brackets are open from the outermost open `[` on, behind this sign. A closing one closes the last open one.
fn depth_behind(depth: usize, sign: Sign) -> usize
    requires { depth < 2 ^ 63 }
    ensures { result ≡ depth_behind depth sign }
{
    if depth == 0 {
        return usize::from(matches!(sign, Sign::Bracket));
    }
    match sign {
        Sign::Open | Sign::Bracket | Sign::Brace => depth + 1,
        Sign::Close | Sign::Unbracket | Sign::Unbrace => depth - 1,
        _ => depth,
    }
}

/// Takes up the name that the token is, if it stands outside `[ ]`.
fn take_up(
    alloc: Global,
    names: &mut Names,
    depth: usize,
    token: &Lexeme,
) -> Result<(), OutOfMemory>
    requires { length names.old < 2 ^ 32 - 1 }
    ensures { OnOk result (names.new ≡ names_behind depth token.now names.old) }
{
    match token {
        Lexeme::Name(x) => {
            if depth > 0 {
                return Ok(());
            }
            names.number(Text::of(alloc, x.bytes())?)?;
            Ok(())
        }
        _ => Ok(()),
    }
}

fn depth_by(depth: usize, token: &Lexeme) -> usize
    requires { depth < 2 ^ 63 }
    ensures { result ≡ depth_by depth token.now }
{
    match token {
        Lexeme::Sign(sign) => depth_behind(depth, *sign),
        _ => depth,
    }
}

fn names_outside(alloc: Global, tokens: &[Lexeme]) -> Result<Names, OutOfMemory>
    requires { length tokens.now < 2 ^ 32 - 1 }
    ensures { IfOk result (λ names. names ≡ names_of_address tokens.now) }
{
    let mut names = Names::new(alloc);
    let mut depth = 0;
    for token in tokens {
        take_up(alloc, &mut names, depth, token)?;
        depth = depth_by(depth, token);
    }
    Ok(names)
}

/// The name tokens among these tokens of the line that stand in no brackets that `[` opens, each once, in the order of
/// first use. Those of a text count for nothing.
pub fn address_names(alloc: Global, toks: &[Token], line: &[u8]) -> Result<Names, OutOfMemory>
    requires part { ArePart line.now toks.now }
    requires short { length line.now ≤ MOST_LINE_BYTES }
    ensures { IfOk result (λ names. names ≡ names_of_address (map (seen line.now) toks.now)) }
{
    let lexemes = lexemes_of(alloc, line, toks)?;
    names_outside(alloc, lexemes.as_slice())
}
