//! What is wrong with a line, kind by kind.
ghost use Rattle.std.specs.Prelude.{◌≡◌, ◌+◌, nat_lt};
ghost use Rattle.abc_outline.specs.Outline.{is_refinement};
ghost use Rattle.abc_num.specs.declared.limits.TheConstants.{MOST_SUITES};
ghost use Rattle.abc_faults.specs.Causes.{bad_indent, bad_place, begins_share, behind_refinement, beside_leaves_badly, count_beside, goes_on, head_misplaced, is_alternative, is_bad_byte, is_bad_number, is_deeper_next, is_open_text, is_share, may_share, places_in, too_many};
ghost use Rattle.abc_faults.specs.inner.Verdicts.{early_fault, late_fault};

use crate::exits::{Exits, exits_at, leaves_badly};
use crate::facts::Facts;
use crate::fault::FaultKind;
use crate::given::is_given_name;
use crate::sight::Sight;
use abc_clauses::{Clause, Head, is_misplaced, is_too_high};
use abc_expressions::Lexeme;
use abc_num::Items;
use abc_num::limits::{MOST_FORMALS, MOST_LINES, MOST_NAMES, MOST_SUITES};
use abc_outline::{Edges, Place, Role, Row, Section};
use abc_tokens::TokenFault;
use abc_tree::ActionNode;
use std::alloc::Global;

/// Whether a byte of the line is no character.
pub fn is_bad_byte(read: &Result<Items<Lexeme>, TokenFault>) -> bool
    ensures { result ≡ is_bad_byte read.now }
{
    match read {
        Err(TokenFault::BadByte) => true,
        _ => false,
    }
}

fn is_open_text(read: &Result<Items<Lexeme>, TokenFault>) -> bool
    ensures { result ≡ is_open_text read.now }
{
    match read {
        Err(TokenFault::OpenText) => true,
        _ => false,
    }
}

fn is_bad_number(read: &Result<Items<Lexeme>, TokenFault>) -> bool
    ensures { result ≡ is_bad_number read.now }
{
    match read {
        Err(TokenFault::BadNumber) => true,
        _ => false,
    }
}

fn is_refinement(role: Role) -> bool
    ensures { result ≡ is_refinement role }
{
    match role {
        Role::RefinementHeading => true,
        Role::UnitHeading | Role::Alternative | Role::Command => false,
    }
}

fn is_alternative(role: Role) -> bool
    ensures { result ≡ is_alternative role }
{
    match role {
        Role::Alternative => true,
        Role::UnitHeading | Role::RefinementHeading | Role::Command => false,
    }
}

fn bad_indent(before: Option<Edges>, level: bool, role: Role, indent: u32) -> bool
    ensures { result ≡ bad_indent before level role indent }
{
    match before {
        None => indent > 0,
        Some(before) => {
            if before.indent < indent {
                !before.ends_in_colon
            } else {
                !is_refinement(role) && (indent == 0 || !level)
            }
        }
    }
}

/// The first fault of those that are seen before it is known what the line says.
pub fn early_fault(place: Place, row: &Row) -> Option<FaultKind>
    ensures { result ≡ early_fault place row.now }
{
    if row.line.long {
        return Some(FaultKind::LineTooLong);
    }
    if place.number > MOST_LINES {
        return Some(FaultKind::TooManyLines);
    }
    if is_bad_byte(&row.read) {
        return Some(FaultKind::BadByte);
    }
    if is_open_text(&row.read) {
        return Some(FaultKind::OpenText);
    }
    if is_bad_number(&row.read) {
        return Some(FaultKind::BadNumber);
    }
    if bad_indent(place.before, place.level, place.role, row.edges.indent) {
        return Some(FaultKind::BadIndent);
    }
    None
}

fn is_deeper_next(indent: u32, below: &[Row]) -> bool
    ensures { result ≡ is_deeper_next indent below.now }
{
    match below {
        [] => false,
        [row, ..] => indent < row.edges.indent,
    }
}

/// Whether another line of the same suite follows. Reads the lines that are deeper, and one more.
fn goes_on(indent: u32, below: &[Row]) -> bool
    ensures { result ≡ goes_on indent below.now }
{
    for row in below {
        if row.edges.indent <= indent {
            return row.edges.indent == indent;
        }
    }
    false
}

fn may_share(facts: &Facts, sight: Sight) -> bool
    ensures { result ≡ may_share facts.now sight }
{
    facts.setting.unit
        && (sight.place.section.is_none() && (sight.place.suites == 1 && sight.shares))
}

fn head_misplaced(facts: &Facts, sight: Sight, indent: u32, below: &[Row], head: &Head) -> bool
    ensures { result ≡ head_misplaced facts.now sight indent below.now head.now }
{
    match head {
        Head::Simple(node) => leaves_badly(exits_at(facts, sight.place), node),
        Head::Share(_) => !may_share(facts, sight),
        Head::Otherwise => !is_alternative(sight.place.role) || goes_on(indent, below),
        _ => false,
    }
}

fn beside_leaves_badly(exits: Exits, beside: &Option<ActionNode>) -> bool
    ensures { result ≡ beside_leaves_badly exits beside.now }
{
    match beside {
        Some(node) => leaves_badly(exits, node),
        None => false,
    }
}

fn behind_refinement(role: Role, indent: u32, section: Option<Section>) -> bool
    ensures { result ≡ behind_refinement role indent section }
{
    match section {
        None => false,
        Some(section) => !is_refinement(role) && indent <= section.indent,
    }
}

fn bad_place(facts: &Facts, sight: Sight, row: &Row, below: &[Row], clause: &Clause) -> bool
    ensures { result ≡ bad_place facts.now sight row.now below.now clause.now }
{
    head_misplaced(facts, sight, row.edges.indent, below, &clause.head)
        || (beside_leaves_badly(exits_at(facts, sight.place), &clause.beside)
            || (behind_refinement(sight.place.role, row.edges.indent, sight.place.section)
                || is_misplaced(facts.kinds.as_slice(), clause)))
}

fn places_in(head: &Head) -> usize
    ensures { result ≡ places_in head.now }
{
    match head {
        Head::Unit(_, formals) => formals.len(),
        _ => 0,
    }
}

fn are_too_many_suites(suites: usize, beside: &Option<ActionNode>) -> bool
    ensures { result ≡ nat_lt MOST_SUITES (suites + count_beside beside.now) }
{
    match beside {
        None => suites > MOST_SUITES,
        Some(_) => suites >= MOST_SUITES,
    }
}

fn too_many(sight: Sight, clause: &Clause) -> bool
    ensures { result ≡ too_many sight clause.now }
{
    are_too_many_suites(sight.place.suites, &clause.beside)
        || (is_too_high(clause)
            || (sight.names > MOST_NAMES || places_in(&clause.head) > MOST_FORMALS))
}

/// The first fault of those that are seen where it is known what the line says.
pub fn late_fault(
    alloc: Global,
    facts: &Facts,
    sight: Sight,
    row: &Row,
    below: &[Row],
    clause: &Clause,
) -> Option<FaultKind>
    ensures { result ≡ late_fault facts.now sight row.now below.now clause.now }
{
    if row.edges.ends_in_colon && !is_deeper_next(row.edges.indent, below) {
        return Some(FaultKind::EmptySuite);
    }
    if bad_place(facts, sight, row, below, clause) {
        return Some(FaultKind::BadPlace);
    }
    if sight.twice || is_given_name(alloc, clause) {
        return Some(FaultKind::NameTwice);
    }
    if too_many(sight, clause) {
        return Some(FaultKind::TooMany);
    }
    None
}

fn begins_share(tokens: &[Lexeme]) -> bool
    ensures { result ≡ begins_share tokens.now }
{
    match tokens {
        [Lexeme::Keyword(word), ..] => word.bytes() == b"SHARE".as_slice(),
        _ => false,
    }
}

/// Whether the line begins with SHARE.
pub fn is_share(read: &Result<Items<Lexeme>, TokenFault>) -> bool
    ensures { result ≡ is_share read.now }
{
    match read {
        Ok(tokens) => begins_share(tokens.as_slice()),
        Err(_) => false,
    }
}
