//! What the outline of an item sees of a line, and the place that it gives it.
use abc_tokens::First;

/// How a line begins and ends: all that the outline sees of it.
#[derive(Clone, Copy, Debug, PartialEq, Eq)]
pub struct Edges {
    /// Columns that the line is indented by.
    pub indent: u32,
    pub first: First,
    /// Its first token is SELECT.
    pub selects: bool,
    pub ends_in_colon: bool,
}

/// What a line is in its item, by its place.
#[derive(Clone, Copy, Debug, PartialEq, Eq)]
pub enum Role {
    /// The first line of a unit.
    UnitHeading,
    RefinementHeading,
    /// One of the alternatives of a SELECT.
    Alternative,
    Command,
}

/// What the places of all lines of an item go by.
#[derive(Clone, Copy, Debug, PartialEq, Eq)]
pub struct Setting {
    /// The item is a unit.
    pub unit: bool,
    /// Columns that its second line is indented by, and 0 if there is none.
    pub body: u32,
}

/// A line round those below it.
#[derive(Clone, Copy, Debug, PartialEq, Eq)]
pub struct Standing {
    pub edges: Edges,
    pub role: Role,
    /// How many suites are open in what stands below it.
    pub suites: usize,
}

/// The refinement in which a line stands.
#[derive(Clone, Copy, Debug, PartialEq, Eq)]
pub struct Section {
    /// How many refinement headings stand above its heading.
    pub number: usize,
    /// Columns that its heading is indented by.
    pub indent: u32,
}

/// The place of a line.
#[derive(Clone, Copy, Debug, PartialEq, Eq)]
pub struct Place {
    /// The number of the line, from 1.
    pub number: usize,
    /// The line before it.
    pub before: Option<Edges>,
    /// Of the line before and those round it, the innermost that isn't deeper stands at the indentation of the line.
    pub level: bool,
    /// How many suites are open at the line.
    pub suites: usize,
    pub role: Role,
    /// The refinement whose heading is the line or the last one above.
    pub section: Option<Section>,
}
