//! Whether bytes are a name.
ghost use Rattle.std.specs.Prelude.{◌≡◌, ◌↔◌, IsTrue};
ghost use Rattle.abc_record.specs.Kept.{IsKeptName};
ghost use Rattle.std.specs.Option.{option_map};
ghost use Rattle.abc_tokens.specs.Bytes.{is_small, begins};
ghost use Rattle.abc_tokens.specs.Words.{goes_on};
ghost use Rattle.abc_record.specs.inner.Reading.{name_of};
ghost use Rattle.abc_record.specs.KeptTests.{goes_on_with, is_tail, is_name, is_kept_name};

use crate::bytes::counted_of;
use abc_num::limits::MOST_LINE_BYTES;

/// The name in front, and what follows it.
#[tactic(auto, unfolding(crate::specs::inner::Reading::name_of))]
pub(crate) fn name_of(bytes: &[u8]) -> Option<(&[u8], &[u8])>
    ensures { option_map (λ x. (x.0.now, x.1.now)) result ≡ name_of bytes.now }
{
    let (name, rest) = counted_of(bytes)?;
    if !is_kept_name(name) {
        return None;
    }
    Some((name, rest))
}

/// Whether a target of this name can be kept: it is a name, and a line has room for it. Takes time proportional to its length.
#[tactic(auto, using(crate::proofs::Changes::name_told, crate::proofs::Changes::name_tested))]
pub fn is_kept_name(bytes: &[u8]) -> bool
    ensures is { result ≡ is_kept_name bytes.now }
    ensures kept { IsTrue result ↔ IsKeptName bytes.now }
{
    is_name(bytes) && bytes.len() <= MOST_LINE_BYTES
}

/// A small letter, and the rest of a name.
///
/// ```text
/// name = small { [.] more }        more = small | digit | " | '
/// ```
#[tactic(auto, unfolding(crate::specs::KeptTests::is_name))]
fn is_name(bytes: &[u8]) -> bool
    ensures { result ≡ is_name bytes.now }
{
    let Some((first, rest)) = bytes.split_first() else {
        return false;
    };
    is_small(*first) && is_tail(rest)
}

/// The rest of a name.
#[tactic(auto, unfolding(crate::specs::KeptTests::is_tail))]
fn is_tail(bytes: &[u8]) -> bool
    ensures { result ≡ is_tail bytes.now }
{
    let mut rest = bytes;
    while let Some((_, more)) = rest.split_first() {
        if !goes_on_with(rest) {
            return false;
        }
        rest = more;
    }
    true
}

/// Whether a name goes on with the first of these bytes.
fn goes_on_with(bytes: &[u8]) -> bool
    ensures { result ≡ goes_on_with bytes.now }
{
    let Some((first, rest)) = bytes.split_first() else {
        return false;
    };
    goes_on(*first) || *first == b'.' && begins_going_on(rest)
}

fn begins_going_on(bytes: &[u8]) -> bool
    ensures { result ≡ begins (goes_on is_small) bytes.now }
{
    bytes.first().is_some_and(|b| goes_on(*b))
}

/// A byte that a name goes on with.
fn goes_on(b: u8) -> bool
    ensures { result ≡ goes_on is_small b }
{
    is_small(b) || b'0' <= b && b <= b'9' || b == b'"' || b == b'\''
}

fn is_small(b: u8) -> bool
    ensures { result ≡ is_small b }
{
    b'a' <= b && b <= b'z'
}
