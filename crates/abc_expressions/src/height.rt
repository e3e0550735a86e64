//! Whether an expression is higher than so many levels.
ghost use Rattle.std.specs.Prelude.{◌<◌, ◌+◌, ◌↔◌, IsTrue, map};
ghost use Rattle.abc_tree.specs.Height.{height, above};
ghost use Rattle.abc_tree.specs.Lists.{flat};
ghost use Rattle.abc_expressions.specs.inner.Heights.{fill_height, piece_height, pair_height};

use abc_tree::{Expr, Fill, Pair, Piece};

/// Whether the expression is higher than `most` levels. It takes no memory.
#[cycle(height)]
pub fn is_higher(tree: &Expr, most: u32) -> bool
    ensures { IsTrue result ↔ (most < height tree.now) }
{
    match tree {
        Expr::Number(_) => false,
        Expr::Name(_) => false,
        Expr::Empty => false,
        Expr::Text(pieces) => a_piece_reaches(pieces.as_slice(), most),
        Expr::Compound(parts) => a_part_reaches(parts.as_slice(), most),
        Expr::List(fills) => a_fill_reaches(fills.as_slice(), most),
        Expr::Table(pairs) => a_pair_reaches(pairs.as_slice(), most),
        Expr::Select(table, key) => reaches(table.get(), most) || reaches(key.get(), most),
        Expr::Apply1(_, x) => reaches(x.get(), most),
        Expr::Apply2(_, x, y) => reaches(x.get(), most) || reaches(y.get(), most),
        Expr::Call(_, actuals) => a_part_reaches(actuals.as_slice(), most),
    }
}

/// Whether the expression is at least so high, in levels. It takes no memory.
#[cycle(height)]
pub fn reaches(tree: &Expr, least: u32) -> bool
    ensures { IsTrue result ↔ (least < height tree.now + 1) }
{
    least == 0 || is_higher(tree, least - 1)
}

/// Whether one of the parts is at least so high, in levels. It takes no memory.
#[cycle(height)]
pub fn a_part_reaches(parts: &[Expr], least: u32) -> bool
    ensures { IsTrue result ↔ (least < above (map height parts.now)) }
{
    for part in parts {
        if reaches(part, least) {
            return true;
        }
    }
    false
}

#[cycle(height)]
fn fill_reaches(fill: &Fill, least: u32) -> bool
    ensures { IsTrue result ↔ (least < above (fill_height fill.now)) }
{
    match fill {
        Fill::One(x) => reaches(x, least),
        Fill::Range(from, to) => reaches(from, least) || reaches(to, least),
    }
}

#[cycle(height)]
fn a_fill_reaches(fills: &[Fill], least: u32) -> bool
    ensures { IsTrue result ↔ (least < above (flat (map fill_height fills.now))) }
{
    for fill in fills {
        if fill_reaches(fill, least) {
            return true;
        }
    }
    false
}

#[cycle(height)]
fn pair_reaches(pair: &Pair, least: u32) -> bool
    ensures { IsTrue result ↔ (least < above (pair_height pair.now)) }
{
    reaches(&pair.key, least) || reaches(&pair.associate, least)
}

#[cycle(height)]
fn a_pair_reaches(pairs: &[Pair], least: u32) -> bool
    ensures { IsTrue result ↔ (least < above (flat (map pair_height pairs.now))) }
{
    for pair in pairs {
        if pair_reaches(pair, least) {
            return true;
        }
    }
    false
}

#[cycle(height)]
fn piece_reaches(piece: &Piece, least: u32) -> bool
    ensures { IsTrue result ↔ (least < above (piece_height piece.now)) }
{
    match piece {
        Piece::Chars(_) => false,
        Piece::Conversion(x) => reaches(x, least),
    }
}

#[cycle(height)]
fn a_piece_reaches(pieces: &[Piece], least: u32) -> bool
    ensures { IsTrue result ↔ (least < above (flat (map piece_height pieces.now))) }
{
    for piece in pieces {
        if piece_reaches(piece, least) {
            return true;
        }
    }
    false
}
