//! What is known of an item before its lines are judged.
ghost use Rattle.std.specs.Prelude.{◌≡◌, IfOk};
ghost use Rattle.abc_clauses.specs.Edges.{kind_by_tokens, kind_by_word};
ghost use Rattle.abc_faults.specs.Facts.{facts_of, kind_by_read, unit_kind};

use abc_expressions::Lexeme;
use abc_num::{Items, Names, OutOfMemory};
use abc_outline::{
    Refined, Row, Setting, commands_of, item_names, name_kinds, refinements, setting_of,
};
use abc_tokens::First;
use abc_tree::{RefinementKind, TemplateKind};
use std::alloc::Global;

/// What is known of an item before its lines are judged.
#[derive(Drop)]
pub struct Facts {
    pub setting: Setting,
    /// What the item is: a command, where it is no unit.
    pub kind: TemplateKind,
    /// The own names that stand in it, in the order of first use.
    pub names: Names,
    /// Which refinement each of them is, if it is one.
    pub kinds: Items<Option<RefinementKind>>,
    /// The command refinements.
    pub commands: Names,
    /// The refinements, one for each heading.
    pub sections: Items<Refined>,
}

fn kind_by_tokens(tokens: &[Lexeme]) -> TemplateKind
    ensures { result ≡ kind_by_tokens tokens.now }
{
    match tokens {
        [_, _, Lexeme::Keyword(word), ..] => kind_by_word(word.bytes()),
        _ => TemplateKind::Command,
    }
}

fn kind_by_word(word: &[u8]) -> TemplateKind
    ensures { result ≡ kind_by_word word.now }
{
    if word == b"RETURN".as_slice() {
        return TemplateKind::Function;
    }
    if word == b"REPORT".as_slice() {
        return TemplateKind::Predicate;
    }
    TemplateKind::Command
}

/// What an item is: a command, where it is no unit.
fn unit_kind(rows: &[Row]) -> TemplateKind
    ensures { result ≡ unit_kind rows.now }
{
    match rows {
        [row, ..] => match row.edges.first {
            First::HowTo => kind_by_read(row),
            First::Heading | First::Environment | First::Other => TemplateKind::Command,
        },
        [] => TemplateKind::Command,
    }
}

/// What a unit with this first line is.
fn kind_by_read(row: &Row) -> TemplateKind
    ensures { result ≡ kind_by_read row.now.read }
{
    match &row.read {
        Ok(tokens) => kind_by_tokens(tokens.as_slice()),
        Err(_) => TemplateKind::Command,
    }
}

/// The facts of an item with these lines, where these are the names of targets. It takes time proportional to the bytes of
/// the lines.
pub fn facts_of(alloc: Global, targets: &Names, rows: &[Row]) -> Result<Facts, OutOfMemory>
    ensures { IfOk result (λ facts. facts ≡ facts_of targets.now rows.now) }
{
    let names = item_names(alloc, targets, rows)?;
    let sections = refinements(alloc, rows)?;
    let kinds = name_kinds(alloc, &names, sections.as_slice())?;
    let commands = commands_of(alloc, sections.as_slice())?;
    Ok(Facts {
        setting: setting_of(rows),
        kind: unit_kind(rows),
        names,
        kinds,
        commands,
        sections,
    })
}
