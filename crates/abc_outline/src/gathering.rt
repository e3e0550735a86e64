//! Names among tokens: each function puts those of one rule behind a list.
ghost use Rattle.std.specs.Prelude.{◌≡◌, ◌<◌, ◌^◌, ◌++◌, List, [], ◌∷◌, IfOk, OnOk, false};
ghost use Rattle.abc_expressions.specs.Addresses.{names_outside};
ghost use Rattle.abc_expressions.specs.declared.lexemes.Lexeme.{Lexeme};
ghost use Rattle.abc_expressions.specs.inner.AddressSteps.{depth_behind, depth_by};
ghost use Rattle.abc_formula.specs.BoundFronts.{plain_names};
ghost use Rattle.abc_outline.specs.LineNames.{but_first, formals, is_in, is_name, name_at, pattern_formals, quantified, word_in_front};
ghost use Rattle.abc_outline.specs.inner.Scanning.{ends_name, in_count, ins, outside_at};

use crate::words::{is_in, is_keyword, is_quantifier, open_behind};
use abc_expressions::{Lexeme, Sign};
use abc_num::{Items, OutOfMemory, Text};
use std::alloc::Global;

/// The token's name, if it is one.
fn add_name(alloc: Global, token: &Lexeme, names: &mut Items<Text>) -> Result<(), OutOfMemory>
    ensures { OnOk result (names.new ≡ names.old ++ name_at token.now) }
{
    match token {
        Lexeme::Name(x) => names.push(Text::of(alloc, x.bytes())?),
        Lexeme::Number(_)
        | Lexeme::Keyword(_)
        | Lexeme::Text(_)
        | Lexeme::Sign(_)
        | Lexeme::Other => Ok(()),
    }
}

/// All name tokens.
pub(crate) fn add_plain(
    alloc: Global,
    tokens: &[Lexeme],
    names: &mut Items<Text>,
) -> Result<(), OutOfMemory>
    ensures { OnOk result (names.new ≡ names.old ++ plain_names tokens.now) }
{
    let mut ahead = tokens;
    while let Some((token, behind)) = ahead.split_first() {
        add_name(alloc, token, names)?;
        ahead = behind;
    }
    Ok(())
}

// ---- addresses

/// How many brackets are open from the outermost open `[` on, behind this sign.
fn depth_behind(depth: usize, sign: Sign) -> usize
    requires { depth < 2 ^ 63 }
    ensures { result ≡ depth_behind depth sign }
{
    if depth == 0 {
        return usize::from(matches!(sign, Sign::Bracket));
    }
    match sign {
        Sign::Open | Sign::Bracket | Sign::Brace => depth + 1,
        Sign::Close | Sign::Unbracket | Sign::Unbrace => depth - 1,
        _ => depth,
    }
}

fn depth_by(depth: usize, token: &Lexeme) -> usize
    requires { depth < 2 ^ 63 }
    ensures { result ≡ depth_by depth token.now }
{
    match token {
        Lexeme::Sign(sign) => depth_behind(depth, *sign),
        Lexeme::Number(_)
        | Lexeme::Name(_)
        | Lexeme::Keyword(_)
        | Lexeme::Text(_)
        | Lexeme::Other => depth,
    }
}

/// The token's name, if it is one and stands outside `[ ]`.
fn add_outside_at(
    alloc: Global,
    depth: usize,
    token: &Lexeme,
    names: &mut Items<Text>,
) -> Result<(), OutOfMemory>
    ensures { OnOk result (names.new ≡ names.old ++ outside_at depth token.now) }
{
    if depth == 0 {
        return add_name(alloc, token, names);
    }
    Ok(())
}

/// The name tokens outside `[ ]`.
pub(crate) fn add_outside(
    alloc: Global,
    tokens: &[Lexeme],
    names: &mut Items<Text>,
) -> Result<(), OutOfMemory>
    ensures { OnOk result (names.new ≡ names.old ++ names_outside [] tokens.now) }
{
    let mut depth = 0;
    let mut ahead = tokens;
    while let Some((token, behind)) = ahead.split_first() {
        add_outside_at(alloc, depth, token, names)?;
        depth = depth_by(depth, token);
        ahead = behind;
    }
    Ok(())
}

// ---- bound names

/// One for an IN.
fn in_count(token: &Lexeme) -> usize
    ensures { result ≡ in_count token.now }
{
    if is_in(token) { 1 } else { 0 }
}

/// How many IN there are.
fn ins(tokens: &[Lexeme]) -> usize
    ensures { result ≡ ins tokens.now }
{
    let mut count = 0;
    let mut ahead = tokens;
    while let Some((token, behind)) = ahead.split_first() {
        count += in_count(token);
        ahead = behind;
    }
    count
}

/// Where a reading of bound names stands.
#[derive(Clone, Copy)]
struct Binding {
    /// A quantifier stands before the tokens that are left, with no IN between.
    begun: bool,
    /// How many IN are left.
    left: usize,
}

/// Reads one token of a test.
fn add_bound(
    alloc: Global,
    token: &Lexeme,
    binding: Binding,
    names: &mut Items<Text>,
) -> Result<Binding, OutOfMemory>
    ensures left { (ts : List Lexeme) → binding.left ≡ ins (token.now ∷ ts) → IfOk result (λ after. after.left ≡ ins ts) }
    ensures names { (ts : List Lexeme) → binding.left ≡ ins (token.now ∷ ts)
        → IfOk result (λ after. names.new ++ quantified after.begun ts ≡ names.old ++ quantified binding.begun (token.now ∷ ts)) }
{
    let left = binding.left.saturating_sub(in_count(token));
    if !binding.begun {
        return Ok(Binding {
            begun: is_quantifier(token),
            left,
        });
    }
    if is_in(token) {
        return Ok(Binding { begun: false, left });
    }
    if left > 0 {
        add_name(alloc, token, names)?;
        return Ok(Binding { begun: true, left });
    }
    Ok(Binding { begun: true, left })
}

/// The names that quantifiers bind.
pub(crate) fn add_quantified(
    alloc: Global,
    tokens: &[Lexeme],
    names: &mut Items<Text>,
) -> Result<(), OutOfMemory>
    ensures { OnOk result (names.new ≡ names.old ++ quantified false tokens.now) }
{
    let mut binding = Binding {
        begun: false,
        left: ins(tokens),
    };
    let mut ahead = tokens;
    while let Some((token, behind)) = ahead.split_first() {
        binding = add_bound(alloc, token, binding, names)?;
        ahead = behind;
    }
    Ok(())
}

// ---- headings

fn is_name(token: &Lexeme) -> bool
    ensures { result ≡ is_name token.now }
{
    match token {
        Lexeme::Name(_) => true,
        Lexeme::Number(_)
        | Lexeme::Keyword(_)
        | Lexeme::Text(_)
        | Lexeme::Sign(_)
        | Lexeme::Other => false,
    }
}

fn ends_name(depth: usize, token: &Lexeme) -> bool
    ensures { result ≡ ends_name depth token.now }
{
    is_name(token) && depth == 0
}

/// All names but the first outside brackets.
fn add_but_first(
    alloc: Global,
    tokens: &[Lexeme],
    names: &mut Items<Text>,
) -> Result<(), OutOfMemory>
    ensures { OnOk result (names.new ≡ names.old ++ but_first 0 tokens.now) }
{
    let mut depth = 0;
    let mut ahead = tokens;
    while let Some((token, behind)) = ahead.split_first() {
        if ends_name(depth, token) {
            return add_plain(alloc, behind, names);
        }
        add_name(alloc, token, names)?;
        depth = open_behind(token, depth);
        ahead = behind;
    }
    Ok(())
}

/// The formals of a function or predicate.
fn add_pattern_formals(
    alloc: Global,
    tokens: &[Lexeme],
    names: &mut Items<Text>,
) -> Result<(), OutOfMemory>
    ensures { OnOk result (names.new ≡ names.old ++ pattern_formals tokens.now) }
{
    match tokens {
        [Lexeme::Name(x), Lexeme::Name(_), rest @ ..] => {
            if rest.is_empty() {
                return add_but_first(alloc, tokens, names);
            }
            names.push(Text::of(alloc, x.bytes())?)?;
            add_plain(alloc, rest, names)
        }
        _ => add_but_first(alloc, tokens, names),
    }
}

/// The formals of a unit, by the front of its heading.
pub(crate) fn add_formals(
    alloc: Global,
    tokens: &[Lexeme],
    names: &mut Items<Text>,
) -> Result<(), OutOfMemory>
    ensures { OnOk result (names.new ≡ names.old ++ formals tokens.now) }
{
    match tokens {
        [_, _, token, rest @ ..] => {
            if is_keyword(b"RETURN", token) {
                return add_pattern_formals(alloc, rest, names);
            }
            if is_keyword(b"REPORT", token) {
                return add_pattern_formals(alloc, rest, names);
            }
            add_name(alloc, token, names)?;
            add_plain(alloc, rest, names)
        }
        _ => Ok(()),
    }
}

/// The name or keyword in front.
pub(crate) fn add_word_in_front(
    alloc: Global,
    tokens: &[Lexeme],
    names: &mut Items<Text>,
) -> Result<(), OutOfMemory>
    ensures { OnOk result (names.new ≡ names.old ++ word_in_front tokens.now) }
{
    match tokens {
        [Lexeme::Name(x), ..] => names.push(Text::of(alloc, x.bytes())?),
        [Lexeme::Keyword(x), ..] => names.push(Text::of(alloc, x.bytes())?),
        _ => Ok(()),
    }
}
