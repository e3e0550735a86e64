//! The signs by their spelling.
ghost use Rattle.std.specs.Prelude.{◌≡◌};
ghost use Rattle.abc_expressions.specs.Signs.{single_sign, double_sign, sign_by};

/// A sign.
#[derive(Clone, Copy, Debug, PartialEq, Eq)]
pub enum Sign {
    /// `+`
    Plus,
    /// `-`
    Minus,
    /// `*`
    Star,
    /// `/`
    Slash,
    /// `**`
    StarStar,
    /// `*/`
    StarSlash,
    /// `/*`
    SlashStar,
    /// `#`
    Hash,
    /// `^`
    Caret,
    /// `^^`
    CaretCaret,
    /// `@`
    At,
    /// `|`
    Bar,
    /// `<<`
    LessLess,
    /// `><`
    MoreLess,
    /// `>>`
    MoreMore,
    /// `<`
    Less,
    /// `<=`
    AtMost,
    /// `=`
    Equal,
    /// `<>`
    Unequal,
    /// `>=`
    AtLeast,
    /// `>`
    More,
    /// `(`
    Open,
    /// `)`
    Close,
    /// `[`
    Bracket,
    /// `]`
    Unbracket,
    /// `{`
    Brace,
    /// `}`
    Unbrace,
    /// `,`
    Comma,
    /// `;`
    Semicolon,
    /// `:`
    Colon,
    /// `..`
    PointPoint,
    /// No sign.
    Other,
}

fn single_sign(b: u8) -> Sign
    ensures { result ≡ single_sign b }
{
    match b {
        b'+' => Sign::Plus,
        b'-' => Sign::Minus,
        b'*' => Sign::Star,
        b'/' => Sign::Slash,
        b'#' => Sign::Hash,
        b'^' => Sign::Caret,
        b'@' => Sign::At,
        b'|' => Sign::Bar,
        b'<' => Sign::Less,
        b'=' => Sign::Equal,
        b'>' => Sign::More,
        b'(' => Sign::Open,
        b')' => Sign::Close,
        b'[' => Sign::Bracket,
        b']' => Sign::Unbracket,
        b'{' => Sign::Brace,
        b'}' => Sign::Unbrace,
        b',' => Sign::Comma,
        b';' => Sign::Semicolon,
        b':' => Sign::Colon,
        _ => Sign::Other,
    }
}

fn double_sign(b: u8, c: u8) -> Sign
    ensures { result ≡ double_sign b c }
{
    match (b, c) {
        (b'*', b'*') => Sign::StarStar,
        (b'*', b'/') => Sign::StarSlash,
        (b'/', b'*') => Sign::SlashStar,
        (b'^', b'^') => Sign::CaretCaret,
        (b'<', b'<') => Sign::LessLess,
        (b'>', b'<') => Sign::MoreLess,
        (b'>', b'>') => Sign::MoreMore,
        (b'<', b'=') => Sign::AtMost,
        (b'<', b'>') => Sign::Unequal,
        (b'>', b'=') => Sign::AtLeast,
        (b'.', b'.') => Sign::PointPoint,
        _ => Sign::Other,
    }
}

/// The sign that these bytes spell.
pub(crate) fn sign_by(bytes: &[u8]) -> Sign
    ensures { result ≡ sign_by bytes.now }
{
    match bytes {
        [b] => single_sign(*b),
        [b, c] => double_sign(*b, *c),
        _ => Sign::Other,
    }
}
