//! The text that trees are shown in.
use abc_num::{Names, Num, OutOfMemory};
use abc_tree::{NameId, Op, Quantifier, Template};
use std::alloc::Global;

/// A text that grows.
#[derive(Drop)]
pub struct Sheet {
    alloc: Global,
    bytes: Vec<u8>,
}

impl Sheet {
    /// No text.
    pub fn new(alloc: Global) -> Sheet {
        Sheet {
            alloc,
            bytes: Vec::new(alloc),
        }
    }

    /// The text.
    pub fn bytes(&self) -> &[u8] {
        &self.bytes
    }

    /// Adds a word as it is.
    pub fn word(&mut self, word: &[u8]) -> Result<(), OutOfMemory> {
        Ok(self.bytes.extend_from_slice(word)?)
    }

    /// Adds a space, and a count.
    pub fn count(&mut self, count: u32) -> Result<(), OutOfMemory> {
        let digits = format!(in self.alloc; " {count}")?;
        self.word(digits.as_bytes())
    }

    /// Adds a text in quotes. A quote in it is doubled, so that its end is seen.
    pub fn quoted(&mut self, text: &[u8]) -> Result<(), OutOfMemory> {
        self.word(b"\"")?;
        for byte in text {
            if *byte == b'"' {
                self.bytes.push(b'"')?;
            }
            self.bytes.push(*byte)?;
        }
        self.word(b"\"")
    }

    /// Adds the names in their order, a space before each.
    pub fn names(&mut self, names: &Names) -> Result<(), OutOfMemory> {
        for number in 0..u32::MAX {
            let Some(name) = names.get(number) else {
                return Ok(());
            };
            self.word(b" ")?;
            self.word(name.bytes())?;
        }
        Ok(())
    }

    /// Adds a name by its number.
    pub fn name(&mut self, name: NameId) -> Result<(), OutOfMemory> {
        let NameId(number) = name;
        let digits = format!(in self.alloc; "#{number}")?;
        self.word(digits.as_bytes())
    }

    /// Adds what an operation is called.
    pub(crate) fn operation(&mut self, op: Op) -> Result<(), OutOfMemory> {
        let word = format!(in self.alloc; "{op:?}")?;
        self.word(word.as_bytes())
    }

    /// Adds what a quantifier is called.
    pub(crate) fn quantifier(&mut self, quantifier: Quantifier) -> Result<(), OutOfMemory> {
        let word = format!(in self.alloc; "{quantifier:?}")?;
        self.word(word.as_bytes())
    }

    /// Adds a number as a ratio in lowest terms.
    pub(crate) fn number(&mut self, number: &Num) -> Result<(), OutOfMemory> {
        let (Some(top), Some(bottom)) = (
            number.numerator().to_whole(),
            number.denominator().to_whole(),
        ) else {
            return Ok(());
        };
        let digits = format!(in self.alloc; "{top}/{bottom}")?;
        self.word(digits.as_bytes())
    }

    /// Adds the text of a template in quotes.
    pub fn template(&mut self, template: &Template) -> Result<(), OutOfMemory> {
        let text = template.text(self.alloc)?;
        self.quoted(&text)
    }
}
