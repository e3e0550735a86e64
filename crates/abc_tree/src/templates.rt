//! Templates: how a unit is called, with its words in order and a place for each actual.
ghost use Rattle.std.specs.Prelude.{◌≡◌, ◌∷◌, [], map, MatchOption, IfOk};
ghost use Rattle.abc_tree.specs.Templates.{written, spaced, behind, template_text, template_cmp};

use abc_num::{Items, OutOfMemory, Text};
use std::alloc::Global;
use std::cmp::Ordering;

/// What a unit is.
#[derive(Clone, Copy, PartialEq, Eq, Debug)]
pub enum TemplateKind {
    /// `HOW TO`
    Command,
    /// `HOW TO RETURN`
    Function,
    /// `HOW TO REPORT`
    Predicate,
}

/// A word of a template.
#[derive(Drop)]
pub enum Word {
    /// A keyword of a command; the name of a function or predicate.
    Key(Text),
    /// The place of an actual.
    Place,
}

/// The words of a template, in their order.
pub type Words = Items<Word>;

/// How a unit is called. The words are those of its heading without `RETURN` and `REPORT`.
#[derive(Drop)]
pub struct Template {
    pub kind: TemplateKind,
    pub words: Words,
    /// How many of the words are places.
    pub places: u16,
}

/// What of a template's text is still to come: the rest of one word, and the words behind it.
#[derive(Drop)]
struct Letters<'a> {
    bytes: &'a [u8],
    words: &'a [Word],
}

impl Word {
    /// The word as it is written.
    fn bytes(&self) -> &[u8]
        ensures { result.now ≡ written self.now }
    {
        match self {
            Word::Key(text) => text.bytes(),
            Word::Place => b"_",
        }
    }

    fn copy(&self, alloc: Global) -> Result<Word, OutOfMemory>
        ensures { IfOk result (λ word. word ≡ self.now) }
    {
        match self {
            Word::Key(text) => Ok(Word::Key(Text::of(alloc, text.bytes())?)),
            Word::Place => Ok(Word::Place),
        }
    }
}

impl<'a> Letters<'a> {
    ghost use Rattle.abc_tree.specs.inner.TemplatesView.{letters_of};

    /// The text of this template.
    fn of(template: &'a Template) -> Letters<'a>
        ensures { letters_of result ≡ template_text template.now }
    {
        let words = template.words.as_slice();
        let keyword: &[u8] = match template.kind {
            TemplateKind::Command => return Letters::of_words(words),
            TemplateKind::Function => b"RETURN",
            TemplateKind::Predicate => b"REPORT",
        };
        Letters {
            bytes: keyword,
            words,
        }
    }

    fn of_words(words: &'a [Word]) -> Letters<'a>
        ensures { letters_of result ≡ spaced (map written words.now) }
    {
        match words.split_first() {
            Some((first, words)) => Letters {
                bytes: first.bytes(),
                words,
            },
            None => Letters { bytes: b"", words },
        }
    }

    /// The next byte, if there is one.
    fn next(&mut self) -> Option<u8>
        ensures { MatchOption result ((letters_of self.old ≡ []) × (letters_of self.new ≡ [])) (λ byte. letters_of self.old ≡ byte ∷ letters_of self.new) }
    {
        if let Some((first, rest)) = self.bytes.split_first() {
            self.bytes = rest;
            return Some(*first);
        }
        let (word, words) = self.words.split_first()?;
        self.bytes = word.bytes();
        self.words = words;
        Some(b' ')
    }
}

impl Template {
    /// The text of the template: its words with one space between them, behind `RETURN` or `REPORT` for a function or
    /// a predicate; a place is `_`.
    pub fn text(&self, alloc: Global) -> Result<Vec<u8>, OutOfMemory>
        ensures { IfOk result (λ text. text.items ≡ template_text self.now) }
    {
        let mut letters = Letters::of(self);
        let mut text = Vec::new(alloc);
        'letters: while let Some(byte) = letters.next() {
            text.push(byte)?;
        }
        Ok(text)
    }

    /// A template that is equal to this one.
    pub fn copy(&self, alloc: Global) -> Result<Template, OutOfMemory>
        ensures { IfOk result (λ t. t ≡ self.now) }
    {
        let mut words = Items::new(alloc);
        for word in self.words.as_slice() {
            words.push(word.copy(alloc)?)?;
        }
        Ok(Template {
            kind: self.kind,
            words,
            places: self.places,
        })
    }

    /// The order of the templates, by the bytes of their texts.
    pub fn cmp(&self, o: &Template) -> Ordering
        ensures { result ≡ template_cmp self.now o.now }
    {
        let mut left = Letters::of(self);
        let mut right = Letters::of(o);
        'letters: loop {
            match (left.next(), right.next()) {
                (None, None) => return Ordering::Equal,
                (None, Some(_)) => return Ordering::Less,
                (Some(_), None) => return Ordering::Greater,
                (Some(x), Some(y)) if x != y => return x.cmp(&y),
                (Some(_), Some(_)) => {}
            }
        }
    }
}
