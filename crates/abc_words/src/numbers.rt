//! Numbers that words write.
ghost use Rattle.std.specs.Prelude.{◌≡◌, ◌≤◌, ◌^◌};
ghost use Rattle.abc_words.specs.Words.{counted};

/// The number that a word writes in decimal digits, of which there may be so many, where it is within these bounds.
pub(crate) fn number_of(word: &str, most_digits: usize, least: u64, most: u64) -> Option<u64>
    ensures { result ≡ counted most_digits least most word.now }
{
    if word.len() > most_digits || word.as_bytes().first() == Some(&b'+') {
        return None;
    }
    match word.parse::<u64>() {
        Ok(number) if number >= least && number <= most => Some(number),
        _ => None,
    }
}
