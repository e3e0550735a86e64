//! Items as they are shown, in the notation of abc_show: a node stands in parentheses, with its name and then its parts.
//!
//! - What is done begins with its word and its line: `(Put 1 (1/1) (#0))`. A suite is `(suite (Pass 2))`.
//! - WRITE has its slashes before and after, and `none` where it has no part: `(Write 1 0 (#0) 1)`, `(Write 1 2 none 0)`.
//! - The alternatives of SELECT are `(Test 2 (refinement #0) (suite (Pass 2)))` and `(Else 3 (suite (Pass 3)))`.
//! - A command has its names in front: `(command (names x) (Write 1 0 (#0) 0))`.
//! - A unit has its template, formals, names, shared names, body, refinements and lines:
//!   `(unit "FOO _" (formals #0) (names x) (shared) (suite (Pass 1)) (refinements) (lines (line 0 "HOW TO FOO x: PASS")))`.

use abc_num::{Line, Names, OutOfMemory, Text};
use abc_show::{Sheet, show_bound, show_bounds, show_part, show_parts, show_test_part};
use abc_tree::{
    Action, ActionNode, Alternative, Bound, Command, Environment, Expr, Item, NameId, Refinement,
    RefinementKind, Template, Test, Unit,
};

/// What is done, as it is called.
fn word_of(node: &ActionNode) -> &'static [u8] {
    match node {
        ActionNode::Write { .. } => b"Write",
        ActionNode::Put { .. } => b"Put",
        ActionNode::Insert { .. } => b"Insert",
        ActionNode::Remove { .. } => b"Remove",
        ActionNode::Delete { .. } => b"Delete",
        ActionNode::ReadExample { .. } => b"ReadExample",
        ActionNode::ReadRaw { .. } => b"ReadRaw",
        ActionNode::Check(_) => b"Check",
        ActionNode::Pass => b"Pass",
        ActionNode::If(_, _) => b"If",
        ActionNode::Select(_) => b"Select",
        ActionNode::While(_, _) => b"While",
        ActionNode::For { .. } => b"For",
        ActionNode::Quit => b"Quit",
        ActionNode::Return(_) => b"Return",
        ActionNode::Report(_) => b"Report",
        ActionNode::Succeed => b"Succeed",
        ActionNode::Fail => b"Fail",
        ActionNode::Call(_, _) => b"Call",
        ActionNode::Refinement(_) => b"Refinement",
    }
}

/// Adds what is written, or `none`, between the slashes before and after it.
fn show_written(
    sheet: &mut Sheet,
    before: u32,
    part: &Option<Expr>,
    after: u32,
) -> Result<(), OutOfMemory> {
    sheet.count(before)?;
    match part {
        Some(part) => show_part(sheet, part)?,
        None => sheet.word(b" none")?,
    }
    sheet.count(after)
}

fn show_both(sheet: &mut Sheet, first: &Expr, second: &Expr) -> Result<(), OutOfMemory> {
    show_part(sheet, first)?;
    show_part(sheet, second)
}

fn show_range(sheet: &mut Sheet, names: &Bound, train: &Expr) -> Result<(), OutOfMemory> {
    sheet.word(b" ")?;
    show_bound(sheet, names)?;
    show_part(sheet, train)
}

fn show_call(sheet: &mut Sheet, template: &Template, actuals: &[Expr]) -> Result<(), OutOfMemory> {
    sheet.word(b" ")?;
    sheet.template(template)?;
    show_parts(sheet, actuals)
}

/// Adds a space, and a word as it is.
fn show_plain(sheet: &mut Sheet, word: &Text) -> Result<(), OutOfMemory> {
    sheet.word(b" ")?;
    sheet.word(word.bytes())
}

/// Adds the parts of what is done, a space before each.
#[cycle(action)]
fn show_inside(sheet: &mut Sheet, node: &ActionNode) -> Result<(), OutOfMemory> {
    match node {
        ActionNode::Write {
            before,
            part,
            after,
        } => show_written(sheet, *before, part, *after),
        ActionNode::Put { value, address } => show_both(sheet, value, address),
        ActionNode::Insert { value, address } => show_both(sheet, value, address),
        ActionNode::Remove { value, address } => show_both(sheet, value, address),
        ActionNode::Delete { address } => show_part(sheet, address),
        ActionNode::ReadExample { address, example } => show_both(sheet, address, example),
        ActionNode::ReadRaw { address } => show_part(sheet, address),
        ActionNode::Check(test) => show_test_part(sheet, test),
        ActionNode::If(test, suite) => {
            show_test_part(sheet, test)?;
            show_suite(sheet, suite.as_slice())
        }
        ActionNode::Select(alternatives) => show_alternatives(sheet, alternatives.as_slice()),
        ActionNode::While(test, suite) => {
            show_test_part(sheet, test)?;
            show_suite(sheet, suite.as_slice())
        }
        ActionNode::For {
            names,
            train,
            suite,
        } => {
            show_range(sheet, names, train)?;
            show_suite(sheet, suite.as_slice())
        }
        ActionNode::Return(value) => show_part(sheet, value),
        ActionNode::Report(test) => show_test_part(sheet, test),
        ActionNode::Call(template, actuals) => show_call(sheet, template, actuals.as_slice()),
        ActionNode::Refinement(name) => show_plain(sheet, name),
        ActionNode::Pass | ActionNode::Quit | ActionNode::Succeed | ActionNode::Fail => Ok(()),
    }
}

#[cycle(action)]
fn show_action(sheet: &mut Sheet, action: &Action) -> Result<(), OutOfMemory> {
    sheet.word(b" (")?;
    sheet.word(word_of(&action.node))?;
    sheet.count(action.line)?;
    show_inside(sheet, &action.node)?;
    sheet.word(b")")
}

#[cycle(action)]
fn show_suite(sheet: &mut Sheet, suite: &[Action]) -> Result<(), OutOfMemory> {
    sheet.word(b" (suite")?;
    for action in suite {
        show_action(sheet, action)?;
    }
    sheet.word(b")")
}

/// Adds the front of an alternative.
fn show_front(sheet: &mut Sheet, line: u32, test: &Option<Test>) -> Result<(), OutOfMemory> {
    match test {
        Some(test) => {
            sheet.word(b" (Test")?;
            sheet.count(line)?;
            show_test_part(sheet, test)
        }
        None => {
            sheet.word(b" (Else")?;
            sheet.count(line)
        }
    }
}

#[cycle(action)]
fn show_alternative(sheet: &mut Sheet, alternative: &Alternative) -> Result<(), OutOfMemory> {
    show_front(sheet, alternative.line, &alternative.test)?;
    show_suite(sheet, alternative.suite.as_slice())?;
    sheet.word(b")")
}

#[cycle(action)]
fn show_alternatives(sheet: &mut Sheet, alternatives: &[Alternative]) -> Result<(), OutOfMemory> {
    for alternative in alternatives {
        show_alternative(sheet, alternative)?;
    }
    Ok(())
}

fn show_names(sheet: &mut Sheet, names: &Names) -> Result<(), OutOfMemory> {
    sheet.word(b" (names")?;
    sheet.names(names)?;
    sheet.word(b")")
}

fn show_command(sheet: &mut Sheet, command: &Command) -> Result<(), OutOfMemory> {
    sheet.word(b"(command")?;
    show_names(sheet, &command.names)?;
    show_action(sheet, &command.action)?;
    sheet.word(b")")
}

fn show_formals(sheet: &mut Sheet, formals: &[Bound]) -> Result<(), OutOfMemory> {
    sheet.word(b" (formals")?;
    show_bounds(sheet, formals)?;
    sheet.word(b")")
}

fn show_shared(sheet: &mut Sheet, shared: &[NameId]) -> Result<(), OutOfMemory> {
    sheet.word(b" (shared")?;
    for name in shared {
        sheet.word(b" ")?;
        sheet.name(*name)?;
    }
    sheet.word(b")")
}

fn kind_word(kind: RefinementKind) -> &'static [u8] {
    match kind {
        RefinementKind::Command => b" (Command",
        RefinementKind::Expression => b" (Expression",
        RefinementKind::Test => b" (Test",
    }
}

fn show_refinement(sheet: &mut Sheet, refinement: &Refinement) -> Result<(), OutOfMemory> {
    sheet.word(kind_word(refinement.kind))?;
    sheet.count(refinement.line)?;
    show_plain(sheet, &refinement.name)?;
    show_suite(sheet, refinement.suite.as_slice())?;
    sheet.word(b")")
}

fn show_refinements(sheet: &mut Sheet, refinements: &[Refinement]) -> Result<(), OutOfMemory> {
    sheet.word(b" (refinements")?;
    for refinement in refinements {
        show_refinement(sheet, refinement)?;
    }
    sheet.word(b")")
}

/// Adds the columns and the text of a line.
fn show_line(sheet: &mut Sheet, line: &Line) -> Result<(), OutOfMemory> {
    sheet.word(if line.long { b" (long" } else { b" (line" })?;
    sheet.count(line.indent)?;
    sheet.word(b" ")?;
    sheet.quoted(line.text.bytes())?;
    sheet.word(b")")
}

fn show_lines(sheet: &mut Sheet, lines: &[Line]) -> Result<(), OutOfMemory> {
    sheet.word(b" (lines")?;
    for line in lines {
        show_line(sheet, line)?;
    }
    sheet.word(b")")
}

fn show_unit(sheet: &mut Sheet, unit: &Unit) -> Result<(), OutOfMemory> {
    sheet.word(b"(unit ")?;
    sheet.template(&unit.template)?;
    show_formals(sheet, unit.formals.as_slice())?;
    show_names(sheet, &unit.names)?;
    show_shared(sheet, unit.shared.as_slice())?;
    show_suite(sheet, unit.body.as_slice())?;
    show_refinements(sheet, unit.refinements.as_slice())?;
    show_lines(sheet, unit.lines.as_slice())?;
    sheet.word(b")")
}

/// Adds what is asked, and what it is asked of.
fn show_question(sheet: &mut Sheet, word: &[u8], asked: &Text) -> Result<(), OutOfMemory> {
    sheet.word(word)?;
    sheet.quoted(asked.bytes())?;
    sheet.word(b")")
}

fn show_environment(sheet: &mut Sheet, asked: &Environment) -> Result<(), OutOfMemory> {
    match asked {
        Environment::Units => sheet.word(b"(Units)"),
        Environment::Targets => sheet.word(b"(Targets)"),
        Environment::ShowUnit(text) => show_question(sheet, b"(ShowUnit ", text),
        Environment::ShowTarget(text) => show_question(sheet, b"(ShowTarget ", text),
        Environment::RemoveUnit(text) => show_question(sheet, b"(RemoveUnit ", text),
    }
}

/// Adds an item.
pub(crate) fn show_item(sheet: &mut Sheet, item: &Item) -> Result<(), OutOfMemory> {
    match item {
        Item::Command(command) => show_command(sheet, command),
        Item::Unit(unit) => show_unit(sheet, unit),
        Item::Environment(asked) => show_environment(sheet, asked),
    }
}
