//! Looking up in the table of the predefined rows.
ghost use Rattle.std.specs.Prelude.{◌≡◌, ◌<◌, Some, slice_get};
ghost use Rattle.std.specs.Option.{option_map};
ghost use Rattle.abc_predef.specs.declared.table.TheConstants.{TABLE};
ghost use Rattle.abc_predef.specs.Order.{named, key_of, places_of};
ghost use Rattle.abc_predef.specs.Signatures.{operands, result_of};
ghost use Rattle.abc_predef.specs.Spellings.{spelling};

use crate::table::{ROWS, Row, TABLE};
use abc_tree::Op;

/// The operation of the predefined row that has this name and number of places. None where no row has them.
pub fn predefined(name: &[u8], places: u8) -> Option<Op>
    ensures { result ≡ named TABLE (name.now, places) }
{
    // The rows are lent here, so it is proved here that they stand in order.
    ROWS.find(name, places)
}

/// The row of an operation: its name or sign, and the types of its operands and of its result.
pub fn row(op: Op) -> Row
    ensures op { result.op ≡ op }
    ensures operands { result.operands ≡ operands op }
    ensures result { result.result ≡ result_of op }
    ensures spelled { key_of result ≡ spelling op }
{
    row_at(&TABLE, place_of(op))
}

/// The row at a place.
fn row_at(rows: &[Row; 43], place: usize) -> Row
    requires { place < 43 }
    ensures { slice_get rows.now place ≡ Some result }
{
    rows[place]
}

/// The place of the row of an operation in the table.
fn place_of(op: Op) -> usize
    ensures within { result < 43 }
    ensures op { option_map (λ r. r.op) (slice_get TABLE result) ≡ Some op }
    ensures operands { option_map (λ r. r.operands) (slice_get TABLE result) ≡ Some (operands op) }
    ensures result { option_map (λ r. r.result) (slice_get TABLE result) ≡ Some (result_of op) }
    ensures spelled { option_map key_of (slice_get TABLE result) ≡ Some (spelling op) }
{
    match op {
        Op::Size => 0,
        Op::Numerator => 4,
        Op::Plus => 5,
        Op::Negate => 7,
        Op::Denominator => 10,
        Op::Abs => 23,
        Op::Ceiling => 24,
        Op::Floor => 25,
        Op::Keys => 28,
        Op::Lower => 29,
        Op::Greatest => 30,
        Op::Least => 32,
        Op::Round => 36,
        Op::Sign => 38,
        Op::Split => 39,
        Op::Stripped => 40,
        Op::Upper => 41,
        _ => place_of_pair(op),
    }
}

/// The same of an operation that has two places.
fn place_of_pair(op: Op) -> usize
    requires { places_of (operands op) ≡ 2 }
    ensures within { result < 43 }
    ensures op { option_map (λ r. r.op) (slice_get TABLE result) ≡ Some op }
    ensures operands { option_map (λ r. r.operands) (slice_get TABLE result) ≡ Some (operands op) }
    ensures result { option_map (λ r. r.result) (slice_get TABLE result) ≡ Some (result_of op) }
    ensures spelled { option_map key_of (slice_get TABLE result) ≡ Some (spelling op) }
{
    match op {
        Op::Count => 1,
        Op::Multiply => 2,
        Op::Power => 3,
        Op::Add => 6,
        Op::Subtract => 8,
        Op::Divide => 9,
        Op::Less => 11,
        Op::AlignLeft => 12,
        Op::AtMost => 13,
        Op::Unequal => 14,
        Op::Equal => 15,
        Op::More => 16,
        Op::Center => 17,
        Op::AtLeast => 18,
        Op::AlignRight => 19,
        Op::Behead => 20,
        Op::Join => 21,
        Op::Repeat => 22,
        Op::In => 26,
        Op::Item => 27,
        Op::GreatestBelow => 31,
        Op::LeastAbove => 33,
        Op::Modulo => 34,
        Op::NotIn => 35,
        Op::RoundTo => 37,
        Op::Curtail => 42,
        _ => unreachable!(),
    }
}
