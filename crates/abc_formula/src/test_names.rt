//! What a token is in a test.
ghost use Rattle.std.specs.Prelude.{◌≡◌};
ghost use Rattle.abc_formula.specs.TestGrammar.{is_keyword, quantifier_by, quantifier_of, relation_by, relation_of, membership_by, membership_of};

use abc_expressions::{Kind, Lexeme, Sign, kind_of};
use abc_num::Names;
use abc_tree::{Op, Quantifier};

/// Whether the token is this keyword.
pub(crate) fn is_keyword(word: &[u8], token: &Lexeme) -> bool
    ensures { result ≡ is_keyword word.now token.now }
{
    match token {
        Lexeme::Keyword(x) => x.bytes() == word,
        Lexeme::Number(_) | Lexeme::Name(_) | Lexeme::Text(_) | Lexeme::Sign(_) | Lexeme::Other => {
            false
        }
    }
}

fn quantifier_by(word: &[u8]) -> Option<Quantifier>
    ensures { result ≡ quantifier_by word.now }
{
    if word == "SOME".as_bytes() {
        Some(Quantifier::Exists)
    } else if word == "EACH".as_bytes() {
        Some(Quantifier::Each)
    } else if word == "NO".as_bytes() {
        Some(Quantifier::No)
    } else {
        None
    }
}

/// SOME, EACH and NO.
pub(crate) fn quantifier_of(token: &Lexeme) -> Option<Quantifier>
    ensures { result ≡ quantifier_of token.now }
{
    match token {
        Lexeme::Keyword(x) => quantifier_by(x.bytes()),
        Lexeme::Number(_) | Lexeme::Name(_) | Lexeme::Text(_) | Lexeme::Sign(_) | Lexeme::Other => {
            None
        }
    }
}

fn relation_by(sign: Sign) -> Option<Op>
    ensures { result ≡ relation_by sign }
{
    match sign {
        Sign::Less => Some(Op::Less),
        Sign::AtMost => Some(Op::AtMost),
        Sign::Equal => Some(Op::Equal),
        Sign::Unequal => Some(Op::Unequal),
        Sign::AtLeast => Some(Op::AtLeast),
        Sign::More => Some(Op::More),
        _ => None,
    }
}

/// The relation that the token is, if it is one.
///
/// ```text
/// R = < | <= | = | <> | >= | >
/// ```
pub(crate) fn relation_of(token: &Lexeme) -> Option<Op>
    ensures { result ≡ relation_of token.now }
{
    match token {
        Lexeme::Sign(sign) => relation_by(*sign),
        Lexeme::Number(_)
        | Lexeme::Name(_)
        | Lexeme::Keyword(_)
        | Lexeme::Text(_)
        | Lexeme::Other => None,
    }
}

fn membership_by(kind: Kind) -> Option<Op>
    ensures { result ≡ membership_by kind }
{
    match kind {
        Kind::Given(_, Some(Op::In)) => Some(Op::In),
        Kind::Given(_, Some(Op::NotIn)) => Some(Op::NotIn),
        Kind::Given(_, Some(_)) => None,
        Kind::Given(_, None) => None,
        Kind::Own(_) => None,
        Kind::Free => None,
    }
}

/// `in` and `not.in`, where they are no own names.
pub(crate) fn membership_of(own: &Names, token: &Lexeme) -> Option<Op>
    ensures { result ≡ membership_of own.now token.now }
{
    match token {
        Lexeme::Name(x) => membership_by(kind_of(own, x)),
        Lexeme::Number(_)
        | Lexeme::Keyword(_)
        | Lexeme::Text(_)
        | Lexeme::Sign(_)
        | Lexeme::Other => None,
    }
}
