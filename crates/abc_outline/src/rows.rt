//! The lines of an item with what is read of each by itself.
ghost use Rattle.std.specs.Prelude.{◌≡◌, All, IfOk};
ghost use Rattle.abc_outline.specs.Rows.{read_of, edges_of, row_of, rows_of, IsShort, IsRead, AreSpelled};

use crate::edges::Edges;
use abc_expressions::{Lexeme, lexemes_of};
use abc_num::{Items, Line, OutOfMemory};
use abc_tokens::{TokenFault, computed_tokens, is_first, shape, tokens};
use std::alloc::Global;

/// A line, what the outline goes by, and its tokens or their fault.
#[derive(Drop)]
pub struct Row {
    pub line: Line,
    pub edges: Edges,
    pub read: Result<Items<Lexeme>, TokenFault>,
}

/// The tokens of a text, or their fault.
fn read_of(alloc: Global, text: &[u8]) -> Result<Result<Items<Lexeme>, TokenFault>, OutOfMemory>
    ensures read { IfOk result (λ read. read ≡ read_of text.now) }
    ensures spelled { IfOk result AreSpelled }
{
    computed_tokens();
    match tokens(alloc, text) {
        Ok(tokens) => Ok(Ok(lexemes_of(alloc, text, &tokens)?)),
        Err(TokenFault::Memory) => Err(OutOfMemory),
        Err(TokenFault::BadByte) => Ok(Err(TokenFault::BadByte)),
        Err(TokenFault::OpenText) => Ok(Err(TokenFault::OpenText)),
        Err(TokenFault::BadNumber) => Ok(Err(TokenFault::BadNumber)),
    }
}

#[tactic(auto, unfolding(crate::specs::Rows::edges_of))]
fn edges_of(line: &Line) -> Edges
    requires { IsShort line.now }
    ensures { result ≡ edges_of line.now }
{
    let text = line.text.bytes();
    let shape = shape(text);
    Edges {
        indent: line.indent,
        first: shape.first,
        selects: is_first(text, b"SELECT"),
        ends_in_colon: shape.ends_in_colon,
    }
}

/// What is read of a line by itself. Its tokens are spelled as the readings of formulas want them.
pub fn row_of(alloc: Global, line: &Line) -> Result<Row, OutOfMemory>
    requires { IsShort line.now }
    ensures row { IfOk result (λ row. row ≡ row_of line.now) }
    ensures spelled { IfOk result IsRead }
{
    let read = read_of(alloc, line.text.bytes())?;
    Ok(Row {
        line: line.copy(alloc)?,
        edges: edges_of(line),
        read,
    })
}

/// The lines of an item with what is read of each, in time proportional to their bytes.
pub fn rows_of(alloc: Global, lines: &[Line]) -> Result<Items<Row>, OutOfMemory>
    requires { All IsShort lines.now }
    ensures rows { IfOk result (λ rows. rows ≡ rows_of lines.now) }
    ensures spelled { IfOk result (All IsRead) }
{
    let mut rows = Items::new(alloc);
    for line in lines {
        rows.push(row_of(alloc, line)?)?;
    }
    Ok(rows)
}
