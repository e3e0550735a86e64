//! Commands, units and what else an item may be.
use crate::{Bound, Bounds, Expr, Exprs, NameId, Template, Test};
use abc_num::{ItemLines, Items, Names, Text};

/// An alternative of a SELECT. ELSE has no test.
#[cycle(action)]
#[derive(Drop)]
pub struct Alternative {
    pub line: u32,
    pub test: Option<Test>,
    pub suite: Suite,
}

pub type Alternatives = Items<Alternative>;

/// A command wherever it stands, and its line in its item, counted from 1.
#[cycle(action)]
#[derive(Drop)]
pub struct Action {
    pub line: u32,
    pub node: ActionNode,
}

/// Commands one after the other.
pub type Suite = Items<Action>;

/// A command without its line.
#[cycle(action)]
#[derive(Drop)]
pub enum ActionNode {
    /// The slashes before and after the part. Without a part all are before it.
    Write {
        before: u32,
        part: Option<Expr>,
        after: u32,
    },
    Put {
        value: Expr,
        address: Expr,
    },
    Insert {
        value: Expr,
        address: Expr,
    },
    Remove {
        value: Expr,
        address: Expr,
    },
    Delete {
        address: Expr,
    },
    ReadExample {
        address: Expr,
        example: Expr,
    },
    ReadRaw {
        address: Expr,
    },
    Check(Test),
    Pass,
    If(Test, Suite),
    Select(Alternatives),
    While(Test, Suite),
    For {
        names: Bound,
        train: Expr,
        suite: Suite,
    },
    Quit,
    Return(Expr),
    Report(Test),
    Succeed,
    Fail,
    /// The call of a command unit, with its actuals.
    Call(Template, Exprs),
    /// The call of a command refinement.
    Refinement(Text),
}

/// What a refinement is.
#[derive(Clone, Copy, PartialEq, Eq, Debug)]
pub enum RefinementKind {
    Command,
    Expression,
    Test,
}

#[derive(Drop)]
pub struct Refinement {
    pub name: Text,
    pub kind: RefinementKind,
    /// The line of its heading.
    pub line: u32,
    pub suite: Suite,
}

pub type Refinements = Items<Refinement>;

pub type NameIds = Items<NameId>;

/// An immediate command, and the names that stand in it.
#[derive(Drop)]
pub struct Command {
    pub names: Names,
    pub action: Action,
}

/// A unit: its heading, its names, its commands and its lines as they were written.
#[derive(Drop)]
pub struct Unit {
    pub template: Template,
    pub formals: Bounds,
    pub names: Names,
    pub shared: NameIds,
    pub body: Suite,
    pub refinements: Refinements,
    pub lines: ItemLines,
}

/// A line that asks about the workspace, or takes a unit out of it.
#[derive(Drop)]
pub enum Environment {
    /// `::`
    Units,
    /// `==`
    Targets,
    /// `:T`
    ShowUnit(Text),
    /// `=name`
    ShowTarget(Text),
    /// `-:T`
    RemoveUnit(Text),
}

/// What one item of the input is.
#[derive(Drop)]
pub enum Item {
    Command(Command),
    Unit(Unit),
    Environment(Environment),
}
