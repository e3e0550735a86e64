//! Expressions and tests, and the names that they bind.
use crate::Sheet;
use abc_num::OutOfMemory;
use abc_tree::{Bound, Expr, Fill, Link, Pair, Piece, Quantifier, Test};

#[cycle(expression)]
fn show_piece(sheet: &mut Sheet, piece: &Piece) -> Result<(), OutOfMemory> {
    match piece {
        Piece::Chars(text) => {
            sheet.word(b" ")?;
            sheet.quoted(text.bytes())
        }
        Piece::Conversion(part) => show_part(sheet, part),
    }
}

#[cycle(expression)]
fn show_fill(sheet: &mut Sheet, fill: &Fill) -> Result<(), OutOfMemory> {
    match fill {
        Fill::One(part) => show_part(sheet, part),
        Fill::Range(first, last) => {
            sheet.word(b" (range")?;
            show_part(sheet, first)?;
            show_part(sheet, last)?;
            sheet.word(b")")
        }
    }
}

#[cycle(expression)]
fn show_pair(sheet: &mut Sheet, pair: &Pair) -> Result<(), OutOfMemory> {
    sheet.word(b" (pair")?;
    show_part(sheet, &pair.key)?;
    show_part(sheet, &pair.associate)?;
    sheet.word(b")")
}

/// Adds a space, and the expression.
#[cycle(expression)]
pub fn show_part(sheet: &mut Sheet, part: &Expr) -> Result<(), OutOfMemory> {
    sheet.word(b" ")?;
    show_expression(sheet, part)
}

/// Adds the expressions, a space before each.
#[cycle(expression)]
pub fn show_parts(sheet: &mut Sheet, parts: &[Expr]) -> Result<(), OutOfMemory> {
    for part in parts {
        show_part(sheet, part)?;
    }
    Ok(())
}

#[cycle(expression)]
fn show_pieces(sheet: &mut Sheet, pieces: &[Piece]) -> Result<(), OutOfMemory> {
    for piece in pieces {
        show_piece(sheet, piece)?;
    }
    Ok(())
}

#[cycle(expression)]
fn show_fills(sheet: &mut Sheet, fills: &[Fill]) -> Result<(), OutOfMemory> {
    for fill in fills {
        show_fill(sheet, fill)?;
    }
    Ok(())
}

#[cycle(expression)]
fn show_pairs(sheet: &mut Sheet, pairs: &[Pair]) -> Result<(), OutOfMemory> {
    for pair in pairs {
        show_pair(sheet, pair)?;
    }
    Ok(())
}

/// Adds the name and the parts of a node.
#[cycle(expression)]
fn show_node(sheet: &mut Sheet, tree: &Expr) -> Result<(), OutOfMemory> {
    match tree {
        Expr::Number(number) => sheet.number(number),
        Expr::Name(name) => sheet.name(*name),
        Expr::Empty => sheet.word(b"empty"),
        Expr::Text(pieces) => {
            sheet.word(b"text")?;
            show_pieces(sheet, pieces.as_slice())
        }
        Expr::Compound(parts) => {
            sheet.word(b"compound")?;
            show_parts(sheet, parts.as_slice())
        }
        Expr::List(fills) => {
            sheet.word(b"list")?;
            show_fills(sheet, fills.as_slice())
        }
        Expr::Table(pairs) => {
            sheet.word(b"table")?;
            show_pairs(sheet, pairs.as_slice())
        }
        Expr::Select(table, key) => {
            sheet.word(b"select")?;
            show_part(sheet, table.get())?;
            show_part(sheet, key.get())
        }
        Expr::Apply1(op, x) => {
            sheet.operation(*op)?;
            show_part(sheet, x.get())
        }
        Expr::Apply2(op, x, y) => {
            sheet.operation(*op)?;
            show_part(sheet, x.get())?;
            show_part(sheet, y.get())
        }
        Expr::Call(template, actuals) => {
            sheet.template(template)?;
            show_parts(sheet, actuals.as_slice())
        }
    }
}

/// Adds an expression or an address.
#[cycle(expression)]
pub fn show_expression(sheet: &mut Sheet, tree: &Expr) -> Result<(), OutOfMemory> {
    sheet.word(b"(")?;
    show_node(sheet, tree)?;
    sheet.word(b")")
}

fn show_link(sheet: &mut Sheet, link: &Link) -> Result<(), OutOfMemory> {
    sheet.word(b" ")?;
    sheet.operation(link.op)?;
    show_part(sheet, &link.right)
}

fn show_links(sheet: &mut Sheet, links: &[Link]) -> Result<(), OutOfMemory> {
    for link in links {
        show_link(sheet, link)?;
    }
    Ok(())
}

/// Adds names that are bound, a space before each.
#[cycle(bound)]
pub fn show_bounds(sheet: &mut Sheet, bounds: &[Bound]) -> Result<(), OutOfMemory> {
    for bound in bounds {
        sheet.word(b" ")?;
        show_bound(sheet, bound)?;
    }
    Ok(())
}

/// Adds a name that is bound, or names in parentheses.
#[cycle(bound)]
pub fn show_bound(sheet: &mut Sheet, bound: &Bound) -> Result<(), OutOfMemory> {
    match bound {
        Bound::One(name) => sheet.name(*name),
        Bound::Several(bounds) => {
            sheet.word(b"(bound")?;
            show_bounds(sheet, bounds.as_slice())?;
            sheet.word(b")")
        }
    }
}

/// Adds the name of the quantifier, and the names that it binds.
fn show_quantifier(
    sheet: &mut Sheet,
    quantifier: Quantifier,
    bound: &Bound,
) -> Result<(), OutOfMemory> {
    sheet.quantifier(quantifier)?;
    sheet.word(b" ")?;
    show_bound(sheet, bound)
}

/// Adds a space, and the test.
#[cycle(test_node)]
pub fn show_test_part(sheet: &mut Sheet, part: &Test) -> Result<(), OutOfMemory> {
    sheet.word(b" ")?;
    show_test(sheet, part)
}

/// Adds the name and the parts of a node.
#[cycle(test_node)]
fn show_test_node(sheet: &mut Sheet, tree: &Test) -> Result<(), OutOfMemory> {
    match tree {
        Test::Chain(first, links) => {
            sheet.word(b"chain")?;
            show_part(sheet, first)?;
            show_links(sheet, links.as_slice())
        }
        Test::Member(op, element, train) => {
            sheet.operation(*op)?;
            show_part(sheet, element)?;
            show_part(sheet, train)
        }
        Test::And(left, right) => {
            sheet.word(b"and")?;
            show_test_part(sheet, left.get())?;
            show_test_part(sheet, right.get())
        }
        Test::Or(left, right) => {
            sheet.word(b"or")?;
            show_test_part(sheet, left.get())?;
            show_test_part(sheet, right.get())
        }
        Test::Not(denied) => {
            sheet.word(b"not")?;
            show_test_part(sheet, denied.get())
        }
        Test::Quantified(quantifier, bound, train, asked) => {
            show_quantifier(sheet, *quantifier, bound)?;
            show_part(sheet, train)?;
            show_test_part(sheet, asked.get())
        }
        Test::Call(template, actuals) => {
            sheet.template(template)?;
            show_parts(sheet, actuals.as_slice())
        }
        Test::Refinement(name) => {
            sheet.word(b"refinement ")?;
            sheet.name(*name)
        }
    }
}

/// Adds a test.
#[cycle(test_node)]
pub fn show_test(sheet: &mut Sheet, tree: &Test) -> Result<(), OutOfMemory> {
    sheet.word(b"(")?;
    show_test_node(sheet, tree)?;
    sheet.word(b")")
}
