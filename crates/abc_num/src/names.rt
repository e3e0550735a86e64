//! Lists of different texts, whose numbers are found at once.
ghost use Rattle.std.specs.Prelude.{◌≡◌, ◌<◌, ◌-◌, ◌^◌, [], length, Some, slice_get, IfOk, OnOk, OnErr};
ghost use Rattle.std.specs.Option.{option_map};
ghost use Rattle.abc_num.specs.Names.{AreDifferent, number_of, with_name};

use crate::{OutOfMemory, Text};
use indexmap::IndexSet;
use std::alloc::Global;
use std::marker::Model;

/// Different texts in the order in which they came, numbered from 0.
#[derive(Drop)]
pub struct Names {
    texts: IndexSet<Text>,
}

impl Model for Names {
    ghost use Rattle.std.specs.Prelude.{List, ℕ, ◌<◌, ◌^◌, length};
    ghost use Rattle.std.specs.List.{IsDistinct};
    ghost use Rattle.abc_num.specs.Text.{text_eq};

    ghost Value = { List (List ℕ) };

    ghost view = { λ n. n.texts.keys };

    ghost invariant = { λ n. IsDistinct text_eq n.texts.keys × (length n.texts.keys < 2 ^ 32) };
}

impl Names {
    /// No texts.
    pub fn new(alloc: Global) -> Names
        ensures { result ≡ [] }
    {
        Names {
            texts: IndexSet::new(alloc),
        }
    }

    /// The number of a text, which is added last if it is new. After OutOfMemory the texts are as before.
    pub fn number(&mut self, t: Text) -> Result<u32, OutOfMemory>
        requires { length self.old < 2 ^ 32 - 1 }
        ensures names { OnOk result (self.new ≡ with_name self.old t) }
        ensures number { IfOk result (λ i. number_of self.new t ≡ Some i) }
        ensures err { OnErr result (self.new ≡ self.old) }
        ensures different { AreDifferent self.new }
    {
        let (i, _) = self.texts.insert_full(t)?;
        Ok(i as u32)
    }

    /// The number of a text, if it is there.
    pub fn find(&self, t: &Text) -> Option<u32>
        ensures number { result ≡ number_of self.now t.now }
        ensures different { AreDifferent self.now }
    {
        let i = self.texts.get_index_of(t)?;
        Some(i as u32)
    }

    /// The text of number `i`, if there is one.
    pub fn get(&self, i: u32) -> Option<&Text>
        ensures { option_map (λ t. t.now) result ≡ slice_get self.now i }
    {
        self.texts.get_index(i as usize)
    }

    /// How many texts there are.
    pub fn len(&self) -> usize
        ensures count { result ≡ length self.now }
        ensures different { AreDifferent self.now }
    {
        self.texts.len()
    }

    /// The same texts with the same numbers.
    pub fn copy(&self, alloc: Global) -> Result<Names, OutOfMemory>
        ensures { IfOk result (λ names. names ≡ self.now) }
    {
        let mut texts = IndexSet::with_capacity(alloc, self.texts.len())?;
        for text in self.texts.as_slice() {
            texts.insert(Text::of(alloc, text.bytes())?)?;
        }
        Ok(Names { texts })
    }
}
