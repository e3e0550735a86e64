//! The names that the tokens of a line use, those in conversions too.
ghost use Rattle.std.specs.Prelude.{◌≡◌, ◌<◌, ◌-◌, ◌^◌, ◌++◌, ◌∷◌, [], ℕ, IfOk, OnOk, OnErr, length, take};
ghost use Rattle.abc_expressions.specs.Addresses.{each_once};
ghost use Rattle.abc_expressions.specs.NameTokens.{part_names, text_names, names_at, names_among, conversion_names, name_tokens, own_at, own_among};
ghost use Rattle.abc_num.specs.Names.{number_of, with_name};
ghost use Rattle.abc_expressions.specs.inner.Machine.{split_text};

use crate::lexemes::{Lexeme, lexed};
use crate::texts::{Part, split_text};
use abc_num::limits::MOST_BRACKETS;
use abc_num::{Items, Names, OutOfMemory, Text};
use std::alloc::Global;

/// One number less than there are.
const MOST_USED: usize = u32::MAX as usize - 1;

/// Puts those of a conversion with these bytes behind the names.
#[cycle(names)]
fn in_conversion(
    alloc: Global,
    names: &mut Items<Text>,
    bytes: &Text,
    left: u8,
) -> Result<(), OutOfMemory>
    ensures { OnOk result (names.new ≡ names.old ++ conversion_names left bytes.now) }
{
    if left == 0 {
        return Ok(());
    }
    match lexed(alloc, bytes.bytes())? {
        Some(tokens) => in_tokens(alloc, names, tokens.as_slice(), left - 1),
        None => Ok(()),
    }
}

/// Puts those in the conversion behind the names, if the part is one.
#[cycle(names)]
fn in_part(alloc: Global, names: &mut Items<Text>, part: &Part, left: u8) -> Result<(), OutOfMemory>
    ensures { OnOk result (names.new ≡ names.old ++ part_names (conversion_names left) (part.now ∷ [])) }
{
    match part {
        Part::Characters(_) => Ok(()),
        Part::Conversion(bytes) => in_conversion(alloc, names, bytes, left),
    }
}

/// Puts those in the conversions of a text behind the names.
#[cycle(names)]
fn in_parts(
    alloc: Global,
    names: &mut Items<Text>,
    parts: &[Part],
    left: u8,
) -> Result<(), OutOfMemory>
    ensures { OnOk result (names.new ≡ names.old ++ part_names (conversion_names left) parts.now) }
{
    for part in parts {
        in_part(alloc, names, part, left)?;
    }
    Ok(())
}

/// Puts those of a token behind the names.
#[cycle(names)]
fn in_token(
    alloc: Global,
    names: &mut Items<Text>,
    token: &Lexeme,
    left: u8,
) -> Result<(), OutOfMemory>
    ensures { OnOk result (names.new ≡ names.old ++ names_at (conversion_names left) token.now) }
{
    match token {
        Lexeme::Name(x) => {
            names.push(Text::of(alloc, x.bytes())?)?;
            Ok(())
        }
        Lexeme::Text(bytes) => match split_text(alloc, bytes.bytes())? {
            Some(parts) => in_parts(alloc, names, parts.as_slice(), left),
            None => Ok(()),
        },
        Lexeme::Number(_) | Lexeme::Keyword(_) | Lexeme::Sign(_) | Lexeme::Other => Ok(()),
    }
}

/// Puts those of the tokens behind the names.
#[cycle(names)]
fn in_tokens(
    alloc: Global,
    names: &mut Items<Text>,
    tokens: &[Lexeme],
    left: u8,
) -> Result<(), OutOfMemory>
    ensures { OnOk result (names.new ≡ names.old ++ names_among (conversion_names left) tokens.now) }
{
    for token in tokens {
        in_token(alloc, names, token, left)?;
    }
    Ok(())
}

/// The names of these tokens, in the order of the line, those in the conversions of its texts too. Each stands there as often
/// as in the line. It takes time proportional to the length of the tokens.
#[tactic(auto, unfolding(crate::specs::NameTokens::name_tokens))]
pub fn name_tokens(alloc: Global, tokens: &[Lexeme]) -> Result<Items<Text>, OutOfMemory>
    ensures { IfOk result (λ names. names ≡ name_tokens tokens.now) }
{
    let mut names = Items::new(alloc);
    in_tokens(alloc, &mut names, tokens, MOST_BRACKETS as u8)?;
    Ok(names)
}

/// Takes up a name. After OutOfMemory, which comes too where no further name can be numbered, the used ones are as before.
fn take_up(alloc: Global, name: &Text, used: &mut Names) -> Result<(), OutOfMemory>
    ensures ok { OnOk result (used.new ≡ with_name used.old name.now) }
    ensures err { OnErr result (used.new ≡ used.old) }
{
    if used.len() >= MOST_USED {
        return Err(OutOfMemory);
    }
    used.number(Text::of(alloc, name.bytes())?)?;
    Ok(())
}

/// Takes up a name, if it is own. After OutOfMemory the used ones are as before.
fn take_up_own(alloc: Global, own: &Names, name: &Text, used: &mut Names) -> Result<(), OutOfMemory>
    ensures ok { OnOk result (used.new ≡ each_once used.old (own_at (number_of own.now name.now) name.now)) }
    ensures err { OnErr result (used.new ≡ used.old) }
{
    match own.find(name) {
        Some(_) => take_up(alloc, name, used),
        None => Ok(()),
    }
}

/// Takes up those of the names that are own. After OutOfMemory those in front were taken up.
fn take_up_all(
    alloc: Global,
    own: &Names,
    names: &[Text],
    used: &mut Names,
) -> Result<(), OutOfMemory>
    ensures ok { OnOk result (used.new ≡ each_once used.old (own_among own.now names.now)) }
    ensures err { OnErr result ((n : ℕ) × (used.new ≡ each_once used.old (own_among own.now (take n names.now)))) }
{
    for name in names {
        take_up_own(alloc, own, name, used)?;
    }
    Ok(())
}

/// Adds the own names that stand among the tokens to the used ones, each once, in the order of first use; those in conversions
/// count too. After OutOfMemory, which comes too where no further name can be numbered, those in front were added.
pub fn used_names(
    alloc: Global,
    own: &Names,
    tokens: &[Lexeme],
    used: &mut Names,
) -> Result<(), OutOfMemory>
    ensures ok { OnOk result (used.new ≡ each_once used.old (own_among own.now (name_tokens tokens.now))) }
    ensures err { OnErr result ((n : ℕ) × (used.new ≡ each_once used.old (own_among own.now (take n (name_tokens tokens.now))))) }
{
    let names = name_tokens(alloc, tokens)?;
    take_up_all(alloc, own, names.as_slice(), used)
}
