//! Templates that have been found, each once, numbered from 0 in the order in which they came.
ghost use Rattle.std.specs.Prelude.{◌≡◌, ◌<◌, ◌∷◌, [], length, IfOk, OnOk};
ghost use Rattle.abc_num.specs.Names.{AreDifferent};
ghost use Rattle.abc_tree.specs.Templates.{template_text};
ghost use Rattle.abc_groups.specs.Program.{texts};
ghost use Rattle.abc_groups.specs.inner.Found.{IsNumbered};

use abc_num::{Items, OutOfMemory, Text};
use abc_tree::Template;
use indexmap::IndexSet;
use std::alloc::Global;

/// The templates, and their texts in the same order, by which they are found again.
#[derive(Drop)]
pub(crate) struct Found {
    alloc: Global,
    pub(crate) texts: IndexSet<Text>,
    pub(crate) templates: Vec<Template>,
}

impl Found {
    pub(crate) fn new(alloc: Global) -> Found
        ensures texts { result.texts.keys ≡ [] }
        ensures templates { result.templates.items ≡ [] }
    {
        Found {
            alloc,
            texts: IndexSet::new(alloc),
            templates: Vec::new(alloc),
        }
    }

    /// The number of this template, which is added if it is new.
    fn number(&mut self, t: &Template) -> Result<usize, OutOfMemory>
        requires { self.old.texts.keys ≡ texts self.old.templates.items }
        ensures same { OnOk result (self.new.texts.keys ≡ texts self.new.templates.items) }
        ensures number { IfOk result (λ i. IsNumbered self.old.texts.keys (template_text t.now ∷ []) (i ∷ []) self.new.texts.keys) }
        ensures different { OnOk result (AreDifferent self.new.texts.keys) }
    {
        let text = Text::from_vec(t.text(self.alloc)?);
        let (i, added) = self.texts.insert_full(text)?;
        if added {
            self.templates.push(t.copy(self.alloc)?)?;
        }
        Ok(i)
    }

    /// The numbers of these templates.
    pub(crate) fn row(&mut self, ts: &[Template]) -> Result<Items<usize>, OutOfMemory>
        requires same { self.old.texts.keys ≡ texts self.old.templates.items }
        requires different { AreDifferent self.old.texts.keys }
        ensures same { OnOk result (self.new.texts.keys ≡ texts self.new.templates.items) }
        ensures different { OnOk result (AreDifferent self.new.texts.keys) }
        ensures row { IfOk result (λ row. IsNumbered self.old.texts.keys (texts ts.now) row self.new.texts.keys) }
    {
        let mut row = Items::new(self.alloc);
        for t in ts {
            row.push(self.number(t)?)?;
        }
        Ok(row)
    }
}
