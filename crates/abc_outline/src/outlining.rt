//! The outline of an item: the places of its lines, one after the other.
ghost use Rattle.std.specs.Prelude.{◌≡◌, ◌<◌, ◌^◌, ◌-◌, ◌∷◌, [], List, IfOk};
ghost use Rattle.abc_outline.specs.declared.edges.Edges.{Edges};
ghost use Rattle.abc_outline.specs.declared.edges.Setting.{Setting};
ghost use Rattle.abc_outline.specs.Outline.{IsBelow, body_of, first_role, is_heading, is_how_to, is_unit, may_be_heading, next_number, outline_of, place_of, role_by, section_by, setting_of, suites_below};

use crate::around::{Around, opens_select};
use crate::edges::{Edges, Place, Role, Section, Setting, Standing};
use crate::rows::Row;
use abc_num::OutOfMemory;
use abc_tokens::First;
use std::alloc::Global;

/// The lines above a line, as far as the places of it and of those below go by them.
#[derive(Drop)]
pub struct Outline {
    pub setting: Setting,
    /// How many lines stand above.
    pub number: usize,
    /// The last of them.
    pub before: Option<Edges>,
    /// The refinement whose heading is the last one among them.
    pub section: Option<Section>,
    /// The last line and those round it.
    pub around: Around,
}

fn is_how_to(first: First) -> bool
    ensures { result ≡ is_how_to first }
{
    match first {
        First::HowTo => true,
        First::Heading | First::Environment | First::Other => false,
    }
}

fn is_heading(first: First) -> bool
    ensures { result ≡ is_heading first }
{
    match first {
        First::Heading => true,
        First::HowTo | First::Environment | First::Other => false,
    }
}

fn is_unit(rows: &[Row]) -> bool
    ensures { result ≡ is_unit rows.now }
{
    match rows {
        [row, ..] => is_how_to(row.edges.first),
        [] => false,
    }
}

fn body_of(rows: &[Row]) -> u32
    ensures { result ≡ body_of rows.now }
{
    match rows {
        [_, row, ..] => row.edges.indent,
        _ => 0,
    }
}

/// What the places of all lines of an item go by.
pub fn setting_of(rows: &[Row]) -> Setting
    ensures { result ≡ setting_of rows.now }
{
    Setting {
        unit: is_unit(rows),
        body: body_of(rows),
    }
}

fn may_be_heading(setting: Setting, before: Edges, line: Edges) -> bool
    ensures { result ≡ may_be_heading setting before line }
{
    setting.unit
        && (is_heading(line.first)
            && (line.indent <= before.indent && (line.indent == 0 || line.indent == setting.body)))
}

fn first_role(unit: bool) -> Role
    ensures { result ≡ first_role unit }
{
    if unit {
        Role::UnitHeading
    } else {
        Role::Command
    }
}

/// What a line is, by the line before it and those round it.
fn role_by(setting: Setting, before: Option<Edges>, around: &Around, line: Edges) -> Role
    ensures { result ≡ role_by setting before around.now line }
{
    let Some(before) = before else {
        return first_role(setting.unit);
    };
    if around.is_chosen() {
        return Role::Alternative;
    }
    if may_be_heading(setting, before, line) {
        return Role::RefinementHeading;
    }
    Role::Command
}

/// The suites that are open in what stands below a line, where so many are open at it.
fn suites_below(line: Edges, role: Role, suites: usize) -> usize
    requires { suites < 2 ^ 64 - 1 }
    ensures { result ≡ suites_below line role suites }
{
    match role {
        Role::RefinementHeading => 1,
        Role::UnitHeading => suites + 1,
        Role::Alternative => suites + 1,
        Role::Command => {
            if opens_select(line, role) {
                suites
            } else {
                suites + 1
            }
        }
    }
}

fn next_number(section: Option<Section>) -> usize
    requires { next_number section < 2 ^ 64 }
    ensures { result ≡ next_number section }
{
    match section {
        Some(section) => section.number + 1,
        None => 0,
    }
}

/// The refinement in which what stands behind a line stands.
fn section_by(role: Role, line: Edges, section: Option<Section>) -> Option<Section>
    requires { next_number section < 2 ^ 64 }
    ensures { result ≡ section_by role line section }
{
    match role {
        Role::RefinementHeading => Some(Section {
            number: next_number(section),
            indent: line.indent,
        }),
        Role::UnitHeading => section,
        Role::Alternative => section,
        Role::Command => section,
    }
}

impl Outline {
    /// The outline of no lines.
    pub fn new(alloc: Global, setting: Setting) -> Outline
        ensures { result ≡ outline_of setting [] }
    {
        Outline {
            setting,
            number: 0,
            before: None,
            section: None,
            around: Around::new(alloc),
        }
    }

    /// The place of the next line, which then stands above those to come. All lines of an item together take time
    /// proportional to their number. After OutOfMemory the outline is of no use.
    pub fn next(&mut self, line: Edges) -> Result<Place, OutOfMemory>
        requires { IsBelow self.old }
        ensures place { (setting : Setting) (above : List Edges) → self.old ≡ outline_of setting above → IfOk result (λ place. place ≡ place_of setting above line) }
        ensures above { (setting : Setting) (above : List Edges) → self.old ≡ outline_of setting above → IfOk result (λ place. self.new ≡ outline_of setting (line ∷ above)) }
    {
        self.around.drop_deeper(line.indent);
        let level = self.around.begins_at(line.indent);
        self.around.drop_from(line.indent);
        let role = role_by(self.setting, self.before, &self.around, line);
        self.around.clear_at_heading(role);
        let suites = self.around.suites();
        let section = section_by(role, line, self.section);
        let place = Place {
            number: self.number + 1,
            before: self.before,
            level,
            suites,
            role,
            section,
        };
        self.around.push(Standing {
            edges: line,
            role,
            suites: suites_below(line, role, suites),
        })?;
        self.number = place.number;
        self.before = Some(line);
        self.section = section;
        Ok(place)
    }
}
