//! The refinements of a unit by their headings.
ghost use Rattle.std.specs.Prelude.{◌≡◌, [], IfOk, OnOk, Result};
ghost use Rattle.abc_outline.specs.OwnNames.{refinements};
ghost use Rattle.abc_outline.specs.Refinements.{begins_report, command_parts, heading_name, kind_by, kind_by_tokens, name_in_front, named_kind, reports};
ghost use Rattle.abc_outline.specs.Parts.{parts_of};
ghost use Rattle.std.specs.List.{list_any};
ghost use Rattle.abc_outline.specs.inner.Cutting.{parts_behind};
ghost use Rattle.abc_outline.specs.inner.Scanning.{refined_behind, told_kind, with_told};

use crate::edges::Role;
use crate::outlining::{Outline, setting_of};
use crate::parts::first_part;
use crate::rows::Row;
use crate::words::begins_report;
use abc_expressions::Lexeme;
use abc_num::{Items, OutOfMemory, Text};
use abc_tree::RefinementKind;
use std::alloc::Global;

/// A refinement by its heading.
#[derive(Drop)]
pub struct Refined {
    /// Its name or keyword. It is empty where the heading has a fault of its tokens.
    pub name: Text,
    pub kind: RefinementKind,
}

/// Whether one of the commands behind a colon, if there is one, gives the outcome of a test.
fn any_reports(colon: bool, tokens: &[Lexeme]) -> bool
    ensures { result ≡ list_any begins_report (parts_behind colon tokens.now) }
{
    let mut more = colon;
    let mut ahead = tokens;
    while more {
        let cut = first_part(ahead);
        if begins_report(cut.part) {
            return true;
        }
        more = cut.more;
        ahead = cut.behind;
    }
    false
}

/// Whether a command among the parts of a line gives the outcome of a test.
fn parts_report(role: Role, tokens: &[Lexeme]) -> bool
    ensures { result ≡ list_any begins_report (command_parts role (parts_of tokens.now)) }
{
    match role {
        Role::Command => any_reports(true, tokens),
        Role::UnitHeading => behind_front_reports(tokens),
        Role::RefinementHeading => behind_front_reports(tokens),
        Role::Alternative => behind_front_reports(tokens),
    }
}

fn behind_front_reports(tokens: &[Lexeme]) -> bool
    ensures { result ≡ list_any begins_report (command_parts Role.Alternative (parts_of tokens.now)) }
{
    let cut = first_part(tokens);
    any_reports(cut.more, cut.behind)
}

/// Whether a command on a line gives the outcome of a test.
fn reports(role: Role, row: &Row) -> bool
    ensures { result ≡ reports role row.now.read }
{
    match &row.read {
        Ok(tokens) => parts_report(role, tokens.as_slice()),
        Err(_) => false,
    }
}

fn named_kind(told: bool) -> RefinementKind
    ensures { result ≡ named_kind told }
{
    if told {
        RefinementKind::Test
    } else {
        RefinementKind::Expression
    }
}

fn kind_by_tokens(told: bool, tokens: &[Lexeme]) -> RefinementKind
    ensures { result ≡ kind_by_tokens told tokens.now }
{
    match tokens {
        [Lexeme::Keyword(_), ..] => RefinementKind::Command,
        _ => named_kind(told),
    }
}

/// The kind of a refinement by the tokens of its heading and whether one of its commands gives the outcome of a test.
fn kind_by(told: bool, row: &Row) -> RefinementKind
    ensures { result ≡ kind_by told row.now.read }
{
    match &row.read {
        Ok(tokens) => kind_by_tokens(told, tokens.as_slice()),
        Err(_) => named_kind(told),
    }
}

fn name_in_front(alloc: Global, tokens: &[Lexeme]) -> Result<Text, OutOfMemory>
    ensures { IfOk result (λ name. name ≡ name_in_front tokens.now) }
{
    match tokens {
        [Lexeme::Name(x), ..] => Text::of(alloc, x.bytes()),
        [Lexeme::Keyword(x), ..] => Text::of(alloc, x.bytes()),
        _ => Text::of(alloc, &[]),
    }
}

fn heading_name(alloc: Global, row: &Row) -> Result<Text, OutOfMemory>
    ensures { IfOk result (λ name. name ≡ heading_name row.now.read) }
{
    match &row.read {
        Ok(tokens) => name_in_front(alloc, tokens.as_slice()),
        Err(_) => Text::of(alloc, &[]),
    }
}

fn told_kind(told: bool, kind: RefinementKind) -> RefinementKind
    ensures { result ≡ told_kind told kind }
{
    match kind {
        RefinementKind::Expression => named_kind(told),
        RefinementKind::Test => RefinementKind::Test,
        RefinementKind::Command => RefinementKind::Command,
    }
}

/// A line with or without such a command in the last refinement.
fn tell(found: &mut Vec<Refined>, told: bool)
    ensures { found.new.items ≡ with_told told found.old.items }
{
    if let Some(last) = found.last_mut() {
        last.kind = told_kind(told, last.kind);
    }
}

/// Takes up a line of this role.
fn take_up(
    alloc: Global,
    role: Role,
    row: &Row,
    found: &mut Vec<Refined>,
) -> Result<(), OutOfMemory>
    ensures { OnOk result (found.new.items ≡ refined_behind role row.now.read found.old.items) }
{
    let told = reports(role, row);
    match role {
        Role::RefinementHeading => {
            let name = heading_name(alloc, row)?;
            let kind = kind_by(told, row);
            found.push(Refined { name, kind })?;
            Ok(())
        }
        Role::UnitHeading => Ok(tell(found, told)),
        Role::Alternative => Ok(tell(found, told)),
        Role::Command => Ok(tell(found, told)),
    }
}

/// The refinements of an item, one for each heading, in time proportional to its tokens.
pub fn refinements(alloc: Global, rows: &[Row]) -> Result<Items<Refined>, OutOfMemory>
    ensures { IfOk result (λ found. found ≡ refinements rows.now) }
{
    let mut found = Vec::new(alloc);
    let mut outline = Outline::new(alloc, setting_of(rows));
    let mut ahead = rows;
    while let Some((row, below)) = ahead.split_first() {
        let place = outline.next(row.edges)?;
        take_up(alloc, place.role, row, &mut found)?;
        ahead = below;
    }
    Ok(Items::from_vec(found))
}
