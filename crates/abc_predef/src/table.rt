//! The table of the predefined rows: their names, and the types of their operands and results.
ghost use Rattle.std.specs.Prelude.{◌≡◌, IsTrue};
ghost use Rattle.abc_predef.specs.Order.{are_rising, key_of, key_order, name_of, places_of};

use crate::characters::word_len;
use Letter::{Element, List, Number, Table, Text, Train, Words};
use Operands::{One, Two};
use abc_tree::Op;
use std::cmp::Ordering;

/// The types that an operand or a result of a row may have. In one row all letters speak of one type e.
#[derive(Clone, Copy, PartialEq, Eq, Debug)]
pub enum Letter {
    /// Numbers.
    Number,
    /// Texts.
    Text,
    /// The type e, which is any.
    Element,
    /// A train of e: texts where e is text, lists of e, tables with associates e.
    Train,
    /// Tables with keys e and associates of any type.
    Table,
    /// Lists of e.
    List,
    /// Tables with numbers as keys and texts as associates.
    Words,
}

/// The operands of a row.
#[derive(Clone, Copy, PartialEq, Eq, Debug)]
pub enum Operands {
    One(Letter),
    Two(Letter, Letter),
}

/// A row: its name, its operands, its result, which is none for a test, and its operation.
#[derive(Clone, Copy, PartialEq, Eq, Debug)]
pub struct Row {
    /// A name or sign, with spaces behind it up to the length of the longest.
    pub name: [u8; 8],
    pub operands: Operands,
    pub result: Option<Letter>,
    pub op: Op,
}

/// Rows in the order of their names and, under one name, of the count of places.
pub struct Rows<const N: usize> {
    pub rows: [Row; N],
    ghost rising: { IsTrue (are_rising rows) },
}

macro_rules! rows {
    ($(($name:expr, $operands:expr, $result:expr, $op:ident)),* $(,)?) => {
        [$(Row { name: $name, operands: $operands, result: $result, op: Op::$op }),*]
    };
}

/// The 43 rows.
pub const TABLE: [Row; 43] = rows![
    (*b"#       ", One(Train), Some(Number), Size),
    (*b"#       ", Two(Element, Train), Some(Number), Count),
    (*b"*       ", Two(Number, Number), Some(Number), Multiply),
    (*b"**      ", Two(Number, Number), Some(Number), Power),
    (*b"*/      ", One(Number), Some(Number), Numerator),
    (*b"+       ", One(Number), Some(Number), Plus),
    (*b"+       ", Two(Number, Number), Some(Number), Add),
    (*b"-       ", One(Number), Some(Number), Negate),
    (*b"-       ", Two(Number, Number), Some(Number), Subtract),
    (*b"/       ", Two(Number, Number), Some(Number), Divide),
    (*b"/*      ", One(Number), Some(Number), Denominator),
    (*b"<       ", Two(Element, Element), None, Less),
    (*b"<<      ", Two(Element, Number), Some(Text), AlignLeft),
    (*b"<=      ", Two(Element, Element), None, AtMost),
    (*b"<>      ", Two(Element, Element), None, Unequal),
    (*b"=       ", Two(Element, Element), None, Equal),
    (*b">       ", Two(Element, Element), None, More),
    (*b"><      ", Two(Element, Number), Some(Text), Center),
    (*b">=      ", Two(Element, Element), None, AtLeast),
    (*b">>      ", Two(Element, Number), Some(Text), AlignRight),
    (*b"@       ", Two(Text, Number), Some(Text), Behead),
    (*b"^       ", Two(Text, Text), Some(Text), Join),
    (*b"^^      ", Two(Text, Number), Some(Text), Repeat),
    (*b"abs     ", One(Number), Some(Number), Abs),
    (*b"ceiling ", One(Number), Some(Number), Ceiling),
    (*b"floor   ", One(Number), Some(Number), Floor),
    (*b"in      ", Two(Element, Train), None, In),
    (*b"item    ", Two(Train, Number), Some(Element), Item),
    (*b"keys    ", One(Table), Some(List), Keys),
    (*b"lower   ", One(Text), Some(Text), Lower),
    (*b"max     ", One(Train), Some(Element), Greatest),
    (
        *b"max     ",
        Two(Element, Train),
        Some(Element),
        GreatestBelow
    ),
    (*b"min     ", One(Train), Some(Element), Least),
    (*b"min     ", Two(Element, Train), Some(Element), LeastAbove),
    (*b"mod     ", Two(Number, Number), Some(Number), Modulo),
    (*b"not.in  ", Two(Element, Train), None, NotIn),
    (*b"round   ", One(Number), Some(Number), Round),
    (*b"round   ", Two(Number, Number), Some(Number), RoundTo),
    (*b"sign    ", One(Number), Some(Number), Sign),
    (*b"split   ", One(Text), Some(Words), Split),
    (*b"stripped", One(Text), Some(Text), Stripped),
    (*b"upper   ", One(Text), Some(Text), Upper),
    (*b"|       ", Two(Text, Number), Some(Text), Curtail),
];

/// The rows, in order.
pub(crate) const ROWS: Rows<43> = Rows { rows: TABLE };

impl Row {
    /// The name or sign of the row.
    pub fn name(&self) -> &[u8]
        ensures { result.now ≡ name_of self.now }
    {
        &self.name[..word_len(&self.name)]
    }

    /// How many operands the row has: 1 or 2.
    pub fn places(&self) -> u8
        ensures { result ≡ places_of self.now.operands }
    {
        match self.operands {
            One(_) => 1,
            Two(_, _) => 2,
        }
    }

    /// The order of the row and a name with a number of places.
    fn order(&self, name: &[u8], places: u8) -> Ordering
        ensures { result ≡ key_order (key_of self.now) (name.now, places) }
    {
        self.name().cmp(name).then(self.places().cmp(&places))
    }
}

impl<const N: usize> Rows<N> {
    ghost use Rattle.abc_predef.specs.Order.{named};

    /// The operation of the row that has this name and number of places. None where no row has them.
    pub fn find(&self, name: &[u8], places: u8) -> Option<Op>
        ensures { result ≡ named self.now.rows (name.now, places) }
    {
        let mut low = 0;
        let mut high = self.rows.len();
        while low < high {
            let middle = low + (high - low) / 2;
            match self.rows[middle].order(name, places) {
                Ordering::Less => low = middle + 1,
                Ordering::Equal => return Some(self.rows[middle].op),
                Ordering::Greater => high = middle,
            }
        }
        None
    }
}
