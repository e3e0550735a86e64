//! What a token is, by the names that are own and those that are predefined.
ghost use Rattle.std.specs.Prelude.{◌≡◌, ◌<◌, ◌+◌, IfOk};
ghost use Rattle.abc_expressions.specs.Operators.{given, kind_of, may_begin, begins, sign_infix, infix_by, infix_of, sign_of};
ghost use Rattle.abc_expressions.specs.inner.Machine.{role_of, sign_operand, leaf_operand, operand, reach, goes_on};

use crate::frames::{Infix, Join, Kind, Operand, Reach};
use crate::lexemes::Lexeme;
use crate::make::{binary, nullary, unary};
use crate::signs::Sign;
use abc_num::{Items, Names, OutOfMemory, Text};
use abc_predef::predefined;
use abc_tree::{Expr, NameId, Op};
use std::alloc::Global;

fn given(one: Option<Op>, two: Option<Op>) -> Kind
    ensures { result ≡ given one two }
{
    match (one, two) {
        (None, None) => Kind::Free,
        (one, two) => Kind::Given(one, two),
    }
}

/// What a name is: its number where it is own, else its predefined operations, if it has any. It takes no memory.
#[tactic(auto, unfolding(crate::specs::Operators::kind_of))]
pub fn kind_of(own: &Names, name: &Text) -> Kind
    ensures { result ≡ kind_of own.now name.now }
{
    match own.find(name) {
        Some(i) => Kind::Own(i),
        None => given(predefined(name.bytes(), 1), predefined(name.bytes(), 2)),
    }
}

fn may_begin(kind: Kind) -> bool
    ensures { result ≡ may_begin kind }
{
    !matches!(kind, Kind::Given(None, _))
}

/// Whether the next token begins an operand.
fn begins(own: &Names, tokens: &[Lexeme]) -> bool
    ensures { result ≡ begins own.now tokens.now }
{
    let [first, ..] = tokens else {
        return false;
    };
    match first {
        Lexeme::Number(_) | Lexeme::Text(_) => true,
        Lexeme::Name(x) => may_begin(kind_of(own, x)),
        Lexeme::Sign(sign) => matches!(sign, Sign::Open | Sign::Brace),
        Lexeme::Keyword(_) | Lexeme::Other => false,
    }
}

/// What a name begins in operand place, where an operand begins behind it or not.
fn role_of(alloc: Global, kind: Kind, name: &Text, more: bool) -> Result<Operand, OutOfMemory>
    ensures { IfOk result (λ x. x ≡ role_of kind name.now more) }
{
    match kind {
        Kind::Own(i) => Ok(Operand::Leaf(Expr::Name(NameId(i)))),
        Kind::Given(None, _) => Ok(Operand::Wrong),
        Kind::Given(Some(one), _) => Ok(Operand::Leads(Join::Op(one))),
        Kind::Free => {
            if more {
                Ok(Operand::Leads(Join::Call(unary(alloc, name)?)))
            } else {
                Ok(Operand::Leaf(Expr::Call(nullary(alloc, name)?, Items::new(alloc))))
            }
        }
    }
}

fn sign_operand(sign: Sign) -> Operand
    ensures { result ≡ sign_operand sign }
{
    match sign {
        Sign::Plus => Operand::Leads(Join::Op(Op::Plus)),
        Sign::Minus => Operand::Leads(Join::Op(Op::Negate)),
        Sign::Hash => Operand::Leads(Join::Op(Op::Size)),
        Sign::StarSlash => Operand::Leads(Join::Op(Op::Numerator)),
        Sign::SlashStar => Operand::Leads(Join::Op(Op::Denominator)),
        Sign::Open => Operand::Opens,
        Sign::Brace => Operand::Displays,
        _ => Operand::Wrong,
    }
}

fn leaf_operand(leaf: Option<Expr>) -> Operand
    ensures { result ≡ leaf_operand leaf }
{
    match leaf {
        Some(a) => Operand::Leaf(a),
        None => Operand::Wrong,
    }
}

/// What the token begins in operand place.
///
/// ```text
/// E7  = E8 | + E7 | - E7 | # E7 | */ E7 | /* E7 | name E7
/// E10 = number | text | name | E10 [ C ] | ( C ) | display
/// ```
pub(crate) fn operand(
    alloc: Global,
    own: &Names,
    leaf: Option<Expr>,
    token: &Lexeme,
    rest: &[Lexeme],
) -> Result<Operand, OutOfMemory>
    ensures { IfOk result (λ x. x ≡ operand own.now leaf token.now rest.now) }
{
    match token {
        Lexeme::Name(x) => role_of(alloc, kind_of(own, x), x, begins(own, rest)),
        Lexeme::Sign(sign) => Ok(sign_operand(*sign)),
        Lexeme::Number(_) => Ok(leaf_operand(leaf)),
        Lexeme::Text(_) => Ok(leaf_operand(leaf)),
        Lexeme::Keyword(_) => Ok(Operand::Wrong),
        Lexeme::Other => Ok(Operand::Wrong),
    }
}

/// An operator of a level that groups to the left.
fn leftward(level: u8, join: Join) -> Infix
    requires { level < 200 }
    ensures gives { result.gives ≡ level }
    ensures left { result.left ≡ level }
    ensures right { result.right ≡ level + 1 }
    ensures join { result.join ≡ join }
{
    Infix {
        gives: level,
        left: level,
        right: level + 1,
        join,
    }
}

/// The operators that are signs, loosest first, and a power.
///
/// ```text
/// E2 = E3  | E2 << E3 | E2 >< E3 | E2 >> E3
/// E3 = E4  | E3 ^ E4
/// E4 = E5  | E4 ^^ E5
/// E5 = E6  | E5 + E6 | E5 - E6
/// E6 = E7  | E6 * E7 | E6 / E7 | E6 # E7
/// E8 = E9  | E9 ** E7
/// E9 = E10 | E9 @ E10 | E9 | E10     (the last bar is the sign)
/// ```
fn sign_infix(sign: Sign) -> Option<Infix>
    ensures { result ≡ sign_infix sign }
{
    let infix = match sign {
        Sign::LessLess => leftward(2, Join::Op(Op::AlignLeft)),
        Sign::MoreLess => leftward(2, Join::Op(Op::Center)),
        Sign::MoreMore => leftward(2, Join::Op(Op::AlignRight)),
        Sign::Caret => leftward(3, Join::Op(Op::Join)),
        Sign::CaretCaret => leftward(4, Join::Op(Op::Repeat)),
        Sign::Plus => leftward(5, Join::Op(Op::Add)),
        Sign::Minus => leftward(5, Join::Op(Op::Subtract)),
        Sign::Star => leftward(6, Join::Op(Op::Multiply)),
        Sign::Slash => leftward(6, Join::Op(Op::Divide)),
        Sign::Hash => leftward(6, Join::Op(Op::Count)),
        Sign::StarStar => Infix {
            gives: 8,
            left: 9,
            right: 7,
            join: Join::Op(Op::Power),
        },
        Sign::At => leftward(9, Join::Op(Op::Behead)),
        Sign::Bar => leftward(9, Join::Op(Op::Curtail)),
        _ => return None,
    };
    Some(infix)
}

/// What a name joins between two operands.
///
/// ```text
/// E1 = E2 | E1 name E2
/// ```
fn name_infix(alloc: Global, kind: Kind, name: &Text) -> Result<Option<Infix>, OutOfMemory>
    ensures { IfOk result (λ x. x ≡ infix_by kind name.now) }
{
    match kind {
        Kind::Own(_) | Kind::Given(_, None) => Ok(None),
        Kind::Given(_, Some(Op::In | Op::NotIn)) => Ok(None),
        Kind::Given(_, Some(two)) => Ok(Some(leftward(1, Join::Op(two)))),
        Kind::Free => Ok(Some(leftward(1, Join::Call(binary(alloc, name)?)))),
    }
}

/// What the token joins between two operands.
fn infix_of(alloc: Global, own: &Names, token: &Lexeme) -> Result<Option<Infix>, OutOfMemory>
    ensures { IfOk result (λ x. x ≡ infix_of own.now token.now) }
{
    match token {
        Lexeme::Name(x) => name_infix(alloc, kind_of(own, x), x),
        Lexeme::Sign(sign) => Ok(sign_infix(*sign)),
        Lexeme::Number(_) | Lexeme::Keyword(_) | Lexeme::Text(_) | Lexeme::Other => Ok(None),
    }
}

/// How the token goes on behind an operand.
#[tactic(auto, unfolding(crate::specs::inner::Machine::reach))]
pub(crate) fn reach(alloc: Global, own: &Names, token: &Lexeme) -> Result<Reach, OutOfMemory>
    ensures { IfOk result (λ x. x ≡ reach own.now token.now) }
{
    match infix_of(alloc, own, token)? {
        Some(infix) => Ok(Reach::Joins(infix)),
        None => match token {
            Lexeme::Sign(Sign::Bracket) => Ok(Reach::Selects),
            _ => Ok(Reach::Ends),
        },
    }
}

/// Whether what follows an operand of level `level` goes on with it, where an expression of at least level `least` is wanted.
pub(crate) fn goes_on(reach: &Reach, least: u8, level: u8) -> bool
    ensures { result ≡ goes_on reach.now least level }
{
    match reach {
        Reach::Joins(infix) => least <= infix.gives && infix.left <= level,
        Reach::Selects => 10 <= level,
        Reach::Ends => false,
    }
}

/// The sign that the token is, and `Other` where it is none.
pub fn sign_of(token: &Lexeme) -> Sign
    ensures { result ≡ sign_of token.now }
{
    match token {
        Lexeme::Sign(sign) => *sign,
        Lexeme::Number(_)
        | Lexeme::Name(_)
        | Lexeme::Keyword(_)
        | Lexeme::Text(_)
        | Lexeme::Other => Sign::Other,
    }
}
