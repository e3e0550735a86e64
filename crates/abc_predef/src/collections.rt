//! The rows that make lists and tables: the keys of a table, the words of a text.
ghost use Rattle.std.specs.Prelude.{◌≡◌, ◌≢◌, ◌+◌, ◌≤◌, min, length, drop, Ok, Some, IfErr, OnOk};
ghost use Rattle.abc_value.specs.Tree.{list, trees};
ghost use Rattle.abc_value.specs.Sizes.{size_fault};
ghost use Rattle.abc_value.specs.Parts.{IsTable, IsText, keys_of, codes_of};
ghost use Rattle.abc_value.specs.Regular.{AreCharacters};
ghost use Rattle.abc_value.specs.Items.{IsAnswer};
ghost use Rattle.abc_predef.specs.Texts.{split_of};
ghost use Rattle.abc_predef.specs.inner.Places.{with_word};

use crate::characters::word_len;
use crate::numbers::place_number;
use crate::texts::short_text;
use abc_num::limits::MOST_ELEMENTS;
use abc_value::{Value, ValueFault};
use std::alloc::Global;

/// `keys t`: the list of the keys of a table.
pub(crate) fn keys(alloc: Global, t: &Value) -> Result<Value, ValueFault>
    requires { IsTable t.now }
    ensures { IsAnswer (Ok (list (trees (keys_of t.now)))) result }
{
    // Its clause tells that the table is in order and within the sizes.
    let _length = t.len();
    let mut keys = Value::empty(alloc);
    while let Some(key) = t.key(keys.len()) {
        let key = key.copy()?;
        keys.insert(key)?;
    }
    Ok(keys)
}

/// `split t`: the table of the longest runs of characters other than space, with the keys 1, 2 and so on.
pub(crate) fn split(alloc: Global, t: &Value) -> Result<Value, ValueFault>
    requires { IsText t.now }
    ensures { IsAnswer (Ok (split_of (codes_of t.now))) result }
{
    table_of_words(alloc, t.codes())
}

/// The table of the words of a text.
fn table_of_words(alloc: Global, b: &[u8]) -> Result<Value, ValueFault>
    requires characters { AreCharacters b.now }
    requires short { length b.now ≤ MOST_ELEMENTS }
    ensures { IsAnswer (Ok (split_of b.now)) result }
{
    let mut words = Value::empty(alloc);
    let mut rest = b;
    while !rest.is_empty() {
        let end = word_len(rest);
        put_word(alloc, &mut words, &rest[..end])?;
        rest = behind(rest, end);
    }
    Ok(words)
}

/// What stands behind a place.
fn behind(b: &[u8], place: usize) -> &[u8]
    requires { place ≤ length b.now }
    ensures { result.now ≡ drop (min (place + 1) (length b.now)) b.now }
{
    &b[(place + 1).min(b.len())..]
}

/// Puts a word into the table of the words before it, with the next number as its key. An empty word changes nothing.
fn put_word(alloc: Global, words: &mut Value, word: &[u8]) -> Result<(), ValueFault>
    requires table { IsTable words.old }
    requires characters { AreCharacters word.now }
    requires short { length word.now ≤ MOST_ELEMENTS }
    ensures ok { OnOk result (words.new ≡ with_word words.old word.now) }
    ensures fault { IfErr result (λ f. f ≢ ValueFault.Memory → size_fault (with_word words.old word.now) ≡ Some f) }
{
    if word.is_empty() {
        return Ok(());
    }
    let key = place_number(words.len());
    let text = short_text(alloc, word)?;
    words.put(Value::number(key), text)
}
