//! What a line says.
use abc_num::{Items, Text};
use abc_tree::{ActionNode, Bound, Bounds, Expr, Template, Test};

/// What a line says without the command behind its colon.
#[derive(Drop)]
pub enum Head {
    /// A simple command, which is all of the line.
    Simple(ActionNode),
    If(Test),
    While(Test),
    /// FOR: the names, and what they go over.
    For(Bound, Expr),
    Select,
    /// An alternative with a test.
    When(Test),
    /// `ELSE:`
    Otherwise,
    /// SHARE: the names.
    Share(Items<Text>),
    /// The heading of a unit: its template and its formals.
    Unit(Template, Bounds),
    /// The heading of a refinement: its name.
    Refinement(Text),
}

/// What a line says.
#[derive(Drop)]
pub struct Clause {
    /// The number of the line in its item, from 1.
    pub line: u32,
    pub head: Head,
    /// The simple command behind the colon, if one stands there.
    pub beside: Option<ActionNode>,
}
