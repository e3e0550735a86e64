//! How a line may leave what it stands in.
ghost use Rattle.std.specs.Prelude.{◌≡◌};
ghost use Rattle.abc_faults.specs.Exits.{exits_at, exits_in, exits_of, leaves_badly, refinement_exits, section_kind};

use crate::facts::Facts;
use abc_outline::{Place, Refined, Section};
use abc_tree::{ActionNode, RefinementKind, TemplateKind};

/// How a body may be left.
#[derive(Clone, Copy)]
pub struct Exits {
    /// By QUIT.
    pub quit: bool,
    /// By RETURN.
    pub returns: bool,
    /// By REPORT, SUCCEED and FAIL.
    pub reports: bool,
}

/// How a unit, or an immediate command, may be left.
fn exits_of(kind: TemplateKind) -> Exits
    ensures { result ≡ exits_of kind }
{
    match kind {
        TemplateKind::Command => Exits {
            quit: true,
            returns: false,
            reports: false,
        },
        TemplateKind::Function => Exits {
            quit: false,
            returns: true,
            reports: false,
        },
        TemplateKind::Predicate => Exits {
            quit: false,
            returns: false,
            reports: true,
        },
    }
}

/// How a refinement of a unit may be left.
fn refinement_exits(unit: TemplateKind, kind: RefinementKind) -> Exits
    ensures { result ≡ refinement_exits unit kind }
{
    match kind {
        RefinementKind::Command => Exits {
            quit: exits_of(unit).quit,
            returns: false,
            reports: false,
        },
        RefinementKind::Expression => Exits {
            quit: false,
            returns: true,
            reports: false,
        },
        RefinementKind::Test => Exits {
            quit: false,
            returns: false,
            reports: true,
        },
    }
}

/// The kind of the refinement in which a line stands.
fn section_kind(sections: &[Refined], section: Option<Section>) -> Option<RefinementKind>
    ensures { result ≡ section_kind sections.now section }
{
    match section {
        Some(section) => match sections.get(section.number) {
            Some(refined) => Some(refined.kind),
            None => None,
        },
        None => None,
    }
}

fn exits_in(unit: TemplateKind, section: Option<RefinementKind>) -> Exits
    ensures { result ≡ exits_in unit section }
{
    match section {
        Some(kind) => refinement_exits(unit, kind),
        None => exits_of(unit),
    }
}

/// How a line with this place may leave what it stands in.
pub fn exits_at(facts: &Facts, place: Place) -> Exits
    ensures { result ≡ exits_at facts.now place }
{
    exits_in(
        facts.kind,
        section_kind(facts.sections.as_slice(), place.section),
    )
}

/// Whether the command leaves where it may not.
pub fn leaves_badly(exits: Exits, node: &ActionNode) -> bool
    ensures { result ≡ leaves_badly exits node.now }
{
    match node {
        ActionNode::Quit => !exits.quit,
        ActionNode::Return(_) => !exits.returns,
        ActionNode::Report(_) => !exits.reports,
        ActionNode::Succeed => !exits.reports,
        ActionNode::Fail => !exits.reports,
        _ => false,
    }
}
