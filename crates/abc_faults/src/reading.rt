//! What a line says, by its place.
ghost use Rattle.std.specs.Prelude.{◌≡◌, ◌≤◌, All, None, IfOk, length};
ghost use Rattle.abc_num.specs.declared.limits.TheConstants.{MOST_LINE_BYTES};
ghost use Rattle.abc_expressions.specs.Lexemes.{IsSpelled};
ghost use Rattle.abc_outline.specs.Rows.{IsShort, IsRead};
ghost use Rattle.abc_outline.specs.Outline.{is_command, opens_select};
ghost use Rattle.abc_clauses.specs.Edges.{has_suite_below, is_select};
ghost use Rattle.abc_faults.specs.Facts.{agrees, clause_by, clause_read, is_command_head, suits};

use crate::facts::Facts;
use abc_clauses::{
    Clause, Head, alternative_clause, command_clause, heading_clause, refinement_clause,
};
use abc_expressions::Lexeme;
use abc_num::OutOfMemory;
use abc_outline::{Edges, Role, Row};
use abc_tree::ActionNode;
use std::alloc::Global;

/// Whether the suite of a head stands below it.
pub fn has_suite_below(head: &Head, beside: &Option<ActionNode>) -> bool
    ensures { result ≡ has_suite_below head.now beside.now }
{
    if beside.is_some() {
        return false;
    }
    match head {
        Head::Simple(_) => false,
        Head::Share(_) => false,
        _ => true,
    }
}

fn is_select(head: &Head) -> bool
    ensures { result ≡ is_select head.now }
{
    match head {
        Head::Select => true,
        _ => false,
    }
}

/// Whether a line with this place may say this.
fn suits(role: Role, head: &Head, beside: &Option<ActionNode>) -> bool
    ensures { result ≡ suits role head.now beside.now }
{
    match role {
        Role::UnitHeading => is_unit(head),
        Role::RefinementHeading => is_refinement(head),
        Role::Alternative => is_way(head),
        Role::Command => is_command(head, beside.is_none()),
    }
}

fn is_unit(head: &Head) -> bool
    ensures { result ≡ suits Role.UnitHeading head.now None }
{
    match head {
        Head::Unit(_, _) => true,
        _ => false,
    }
}

fn is_refinement(head: &Head) -> bool
    ensures { result ≡ suits Role.RefinementHeading head.now None }
{
    match head {
        Head::Refinement(_) => true,
        _ => false,
    }
}

fn is_way(head: &Head) -> bool
    ensures { result ≡ suits Role.Alternative head.now None }
{
    match head {
        Head::When(_) => true,
        Head::Otherwise => true,
        _ => false,
    }
}

/// A command, where nothing or something stands beside it.
fn is_command(head: &Head, alone: bool) -> bool
    ensures { result ≡ is_command_head head.now alone }
{
    match head {
        Head::Simple(_) => alone,
        Head::Share(_) => alone,
        Head::If(_) => true,
        Head::While(_) => true,
        Head::For(_, _) => true,
        Head::Select => true,
        Head::Otherwise => true,
        _ => false,
    }
}

fn opens_select(edges: Edges, role: Role) -> bool
    ensures { result ≡ opens_select edges role }
{
    edges.selects && (edges.ends_in_colon && is_command_role(role))
}

fn is_command_role(role: Role) -> bool
    ensures { result ≡ is_command role }
{
    match role {
        Role::Command => true,
        Role::UnitHeading | Role::RefinementHeading | Role::Alternative => false,
    }
}

/// Whether what a line says is seen at its edges.
pub fn agrees(edges: Edges, role: Role, clause: &Clause) -> bool
    ensures { result ≡ agrees edges role clause.now }
{
    suits(role, &clause.head, &clause.beside)
        && (edges.ends_in_colon == has_suite_below(&clause.head, &clause.beside)
            && opens_select(edges, role) == is_select(&clause.head))
}

/// What tokens say.
fn clause_by(
    alloc: Global,
    facts: &Facts,
    role: Role,
    line: u32,
    text: &[u8],
    tokens: &[Lexeme],
) -> Result<Option<Clause>, OutOfMemory>
    requires short { length text.now ≤ MOST_LINE_BYTES }
    requires spelled { All IsSpelled tokens.now }
    ensures { IfOk result (λ clause. clause ≡ clause_by facts.now role line text.now tokens.now) }
{
    let kinds = facts.kinds.as_slice();
    match role {
        Role::UnitHeading => heading_clause(
            alloc,
            &facts.names,
            kinds,
            &facts.commands,
            text,
            tokens,
            line,
        ),
        Role::RefinementHeading => refinement_clause(
            alloc,
            &facts.names,
            kinds,
            &facts.commands,
            text,
            tokens,
            line,
        ),
        Role::Alternative => alternative_clause(
            alloc,
            &facts.names,
            kinds,
            &facts.commands,
            text,
            tokens,
            line,
        ),
        Role::Command => command_clause(
            alloc,
            &facts.names,
            kinds,
            &facts.commands,
            text,
            tokens,
            line,
        ),
    }
}

/// What the tokens of a line say, if it has tokens.
pub fn clause_read(
    alloc: Global,
    facts: &Facts,
    role: Role,
    line: u32,
    row: &Row,
) -> Result<Option<Clause>, OutOfMemory>
    requires short { IsShort row.now.line }
    requires spelled { IsRead row.now }
    ensures { IfOk result (λ clause. clause ≡ clause_read facts.now role line row.now.line.text row.now.read) }
{
    match &row.read {
        Ok(tokens) => clause_by(
            alloc,
            facts,
            role,
            line,
            row.line.text.bytes(),
            tokens.as_slice(),
        ),
        Err(_) => Ok(None),
    }
}
