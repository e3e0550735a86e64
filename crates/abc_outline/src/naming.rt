//! The names of a line, by its place and its keywords.
ghost use Rattle.std.specs.Prelude.{◌≡◌, IfOk, OnOk};
ghost use Rattle.abc_outline.specs.LineNames.{behind, command_names, commands_names, ends_address, front_names, is_from, is_in, joined, names_by, names_of, no_names, parts_names, up_to};
ghost use Rattle.abc_outline.specs.Parts.{parts_of};
ghost use Rattle.abc_outline.specs.inner.Cutting.{first_from, parts_behind};

use crate::edges::Role;
use crate::gathering::{add_formals, add_outside, add_plain, add_quantified, add_word_in_front};
use crate::parts::{first_part, front, rest};
use crate::rows::Row;
use crate::words::{ends_address, is_from, is_in, verb_of};
use abc_expressions::Lexeme;
use abc_num::{Items, OutOfMemory, Text};
use std::alloc::Global;

/// What names a command has, by the keyword that it begins with.
#[derive(Clone, Copy, Debug, PartialEq, Eq)]
pub enum Verb {
    /// PUT and INSERT: an address behind IN.
    Put,
    /// REMOVE: an address behind FROM.
    Remove,
    /// DELETE: an address.
    Delete,
    /// READ: an address before EG or RAW.
    Read,
    /// IF, WHILE, CHECK and REPORT: a test.
    Test,
    /// FOR: names before IN.
    For,
    /// SHARE: names.
    Share,
    /// No names of these kinds.
    Other,
}

/// The names that a line gives its item, each kind in the order of the line.
#[derive(Drop)]
pub struct LineNames {
    /// Formals and shared names.
    pub named: Items<Text>,
    /// The name or keyword of a refinement heading.
    pub refined: Items<Text>,
    /// Names that FOR and quantifiers bind.
    pub bound: Items<Text>,
    /// Names in addresses, outside keys.
    pub put: Items<Text>,
}

fn no_names(alloc: Global) -> LineNames
    ensures { result ≡ no_names }
{
    LineNames {
        named: Items::new(alloc),
        refined: Items::new(alloc),
        bound: Items::new(alloc),
        put: Items::new(alloc),
    }
}

// ---- the tokens that an address or bound names stand among

/// The tokens behind the first IN.
fn behind_in(tokens: &[Lexeme]) -> &[Lexeme]
    ensures { result.now ≡ behind is_in tokens.now }
{
    let mut ahead = tokens;
    while let Some((token, behind)) = ahead.split_first() {
        if is_in(token) {
            return behind;
        }
        ahead = behind;
    }
    ahead
}

/// The tokens behind the first FROM.
fn behind_from(tokens: &[Lexeme]) -> &[Lexeme]
    ensures { result.now ≡ behind is_from tokens.now }
{
    let mut ahead = tokens;
    while let Some((token, behind)) = ahead.split_first() {
        if is_from(token) {
            return behind;
        }
        ahead = behind;
    }
    ahead
}

/// Where the first IN stands.
fn in_at(tokens: &[Lexeme]) -> Option<usize>
    ensures { result ≡ first_from is_in 0 tokens.now }
{
    let mut at = 0;
    let mut ahead = tokens;
    while let Some((token, behind)) = ahead.split_first() {
        if is_in(token) {
            return Some(at);
        }
        at += 1;
        ahead = behind;
    }
    None
}

/// Where the first EG or RAW stands.
fn example_at(tokens: &[Lexeme]) -> Option<usize>
    ensures { result ≡ first_from ends_address 0 tokens.now }
{
    let mut at = 0;
    let mut ahead = tokens;
    while let Some((token, behind)) = ahead.split_first() {
        if ends_address(token) {
            return Some(at);
        }
        at += 1;
        ahead = behind;
    }
    None
}

/// The tokens before the first IN, none if there is none.
fn up_to_in(tokens: &[Lexeme]) -> &[Lexeme]
    ensures { result.now ≡ up_to is_in tokens.now }
{
    match in_at(tokens) {
        Some(at) => front(tokens, at),
        None => front(tokens, 0),
    }
}

/// The tokens before the first EG or RAW, none if there is none.
fn up_to_example(tokens: &[Lexeme]) -> &[Lexeme]
    ensures { result.now ≡ up_to ends_address tokens.now }
{
    match example_at(tokens) {
        Some(at) => front(tokens, at),
        None => front(tokens, 0),
    }
}

// ---- the names of the parts of a line

fn add_shared(
    alloc: Global,
    unit: bool,
    tokens: &[Lexeme],
    names: &mut LineNames,
) -> Result<(), OutOfMemory>
    ensures { OnOk result (names.new ≡ joined names.old (names_by unit Verb.Share tokens.now)) }
{
    if unit {
        return add_plain(alloc, tokens, &mut names.named);
    }
    Ok(())
}

/// Puts the names of a command with this keyword behind the others.
fn add_by(
    alloc: Global,
    unit: bool,
    verb: Verb,
    tokens: &[Lexeme],
    names: &mut LineNames,
) -> Result<(), OutOfMemory>
    ensures { OnOk result (names.new ≡ joined names.old (names_by unit verb tokens.now)) }
{
    match verb {
        Verb::Put => add_outside(alloc, behind_in(tokens), &mut names.put),
        Verb::Remove => add_outside(alloc, behind_from(tokens), &mut names.put),
        Verb::Delete => add_outside(alloc, tokens, &mut names.put),
        Verb::Read => add_outside(alloc, up_to_example(tokens), &mut names.put),
        Verb::Test => add_quantified(alloc, tokens, &mut names.bound),
        Verb::For => add_plain(alloc, up_to_in(tokens), &mut names.bound),
        Verb::Share => add_shared(alloc, unit, tokens, names),
        Verb::Other => Ok(()),
    }
}

/// Puts the names of a command behind the others.
fn add_command(
    alloc: Global,
    unit: bool,
    tokens: &[Lexeme],
    names: &mut LineNames,
) -> Result<(), OutOfMemory>
    ensures { OnOk result (names.new ≡ joined names.old (command_names unit tokens.now)) }
{
    match tokens {
        [token, rest @ ..] => add_by(alloc, unit, verb_of(token), rest, names),
        [] => Ok(()),
    }
}

/// Puts the names of the front of a line behind the others.
fn add_front(
    alloc: Global,
    unit: bool,
    role: Role,
    tokens: &[Lexeme],
    names: &mut LineNames,
) -> Result<(), OutOfMemory>
    ensures { OnOk result (names.new ≡ joined names.old (front_names unit role tokens.now)) }
{
    match role {
        Role::UnitHeading => add_formals(alloc, tokens, &mut names.named),
        Role::RefinementHeading => add_word_in_front(alloc, tokens, &mut names.refined),
        Role::Alternative => add_quantified(alloc, tokens, &mut names.bound),
        Role::Command => add_command(alloc, unit, tokens, names),
    }
}

/// Puts the names of the commands behind a colon, if there is one, behind the others.
fn add_commands(
    alloc: Global,
    unit: bool,
    colon: bool,
    tokens: &[Lexeme],
    names: &mut LineNames,
) -> Result<(), OutOfMemory>
    ensures { OnOk result (names.new ≡ joined names.old (commands_names unit (parts_behind colon tokens.now))) }
{
    let mut more = colon;
    let mut ahead = tokens;
    while more {
        let cut = first_part(ahead);
        add_command(alloc, unit, cut.part, names)?;
        more = cut.more;
        ahead = cut.behind;
    }
    Ok(())
}

/// Puts the names of the parts of a line behind the others.
fn add_parts(
    alloc: Global,
    unit: bool,
    role: Role,
    tokens: &[Lexeme],
    names: &mut LineNames,
) -> Result<(), OutOfMemory>
    ensures { OnOk result (names.new ≡ joined names.old (parts_names unit role (parts_of tokens.now))) }
{
    let cut = first_part(tokens);
    add_front(alloc, unit, role, cut.part, names)?;
    add_commands(alloc, unit, cut.more, cut.behind, names)
}

/// The names that a line gives its item, in time proportional to its tokens.
pub fn line_names(
    alloc: Global,
    unit: bool,
    role: Role,
    row: &Row,
) -> Result<LineNames, OutOfMemory>
    ensures { IfOk result (λ names. names ≡ names_of unit role row.now.read) }
{
    let mut names = no_names(alloc);
    match &row.read {
        Ok(tokens) => {
            add_parts(alloc, unit, role, tokens.as_slice(), &mut names)?;
            Ok(names)
        }
        Err(_) => Ok(names),
    }
}
