//! Tests of what no clause says: that ample memory is enough, for lines at the bounds too.
mod lines;

use abc_tokens::*;
use lines::LINES;
use std::alloc::{AllocError, Global};
use std::test::Fail;

fn letter(kind: TokenKind) -> char {
    match kind {
        TokenKind::Name => 'N',
        TokenKind::Keyword => 'K',
        TokenKind::Number => 'D',
        TokenKind::Text => 'T',
        TokenKind::Sign => 'S',
        TokenKind::Other => 'O',
    }
}

fn kinds_of(alloc: Global, line: &[u8]) -> Result<String, AllocError> {
    let front = line
        .iter()
        .take_while(|b| **b == b' ' || **b == b'\t')
        .count();
    let tokens = match tokens(alloc, line.get(front..).unwrap_or(line)) {
        Ok(tokens) => tokens,
        Err(fault) => return format!(in alloc; "{fault:?}"),
    };
    let mut kinds = String::new(alloc);
    for token in tokens.as_slice() {
        kinds.push(letter(token.kind))?;
    }
    Ok(kinds)
}

fn shape_of(alloc: Global, line: &[u8]) -> Result<String, AllocError> {
    if line.len() > 4_096 {
        return String::from_str(alloc, "too long");
    }
    let shape = shape(line);
    let blank = if shape.blank { " blank" } else { "" };
    let colon = if shape.ends_in_colon { " colon" } else { "" };
    let indent = shape.indent;
    let first = shape.first;
    format!(in alloc; "{indent}{blank}{colon} {first:?}")
}

#[test]
fn lines_are_read_as_elsewhere(rt: HostRuntime) -> Result<(), Fail> {
    let alloc = rt.alloc();
    for (line, kinds, shape) in &LINES {
        assert_eq!(rt; kinds_of(alloc, line)?.as_str(), *kinds);
        assert_eq!(rt; shape_of(alloc, line)?.as_str(), *shape);
    }
    Ok(())
}

/// Texts one in a conversion of the other, so many: all are closed, or none is.
fn nested(alloc: Global, texts: u16, closed: bool) -> Result<Vec<u8>, AllocError> {
    let mut line = Vec::new(alloc);
    for _ in 0..texts {
        line.extend_from_slice(b"\"`")?;
    }
    line.push(b'1')?;
    for _ in 0..if closed { texts } else { 0 } {
        line.extend_from_slice(b"`\"")?;
    }
    Ok(line)
}

#[test]
fn lines_are_read_to_their_bounds(rt: HostRuntime) -> Result<(), Fail> {
    let alloc = rt.alloc();
    let even = vec![in alloc; b'"'; 4_096]?;
    assert_eq!(rt; kinds_of(alloc, &even)?.as_str(), "T");
    let closed = nested(alloc, 5_000, true)?;
    assert_eq!(rt; kinds_of(alloc, &closed)?.as_str(), "T");
    let open = nested(alloc, 2_048, false)?;
    assert_eq!(rt; kinds_of(alloc, &open)?.as_str(), "OpenText");
    assert!(rt; is_first(b"  SELECT \x80:", b"SELECT"));
    assert!(rt; is_reserved(b"SELECT"));
    Ok(())
}
