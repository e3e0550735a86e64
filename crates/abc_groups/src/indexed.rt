//! A graph in which each entry is found at once.
ghost use Rattle.std.specs.Prelude.{◌≡◌, IfOk, is_some, position};
ghost use Rattle.std.specs.List.{list_any};
ghost use Rattle.abc_num.specs.Text.{text_eq};
ghost use Rattle.abc_tree.specs.Templates.{template_text};
ghost use Rattle.abc_groups.specs.Program.{EachOnce, entry_texts};

use crate::Calls;
use crate::program::Program;
use abc_num::{OutOfMemory, Text};
use abc_tree::Template;
use indexmap::IndexSet;
use std::alloc::Global;

/// The entries of a graph, and the texts of their templates in the same order.
#[derive(Drop)]
pub(crate) struct Indexed<'a> {
    entries: &'a [Calls],
    texts: IndexSet<Text>,
}

impl<'a> Indexed<'a> {
    pub(crate) fn new(alloc: Global, graph: &'a [Calls]) -> Result<Indexed<'a>, OutOfMemory>
        requires { EachOnce graph.now }
        ensures entries { IfOk result (λ i. i.entries.now ≡ graph.now) }
        ensures texts { IfOk result (λ i. i.texts.keys ≡ entry_texts graph.now) }
    {
        let mut texts = IndexSet::new(alloc);
        for entry in graph {
            texts.insert(Text::from_vec(entry.template.text(alloc)?))?;
        }
        Ok(Indexed {
            entries: graph,
            texts,
        })
    }

    /// The place of the entry with this template, if there is one.
    fn place(&self, alloc: Global, t: &Template) -> Result<Option<usize>, OutOfMemory>
        ensures place { IfOk result (λ at. at ≡ position (text_eq (template_text t.now)) self.now.texts.keys) }
        ensures found { IfOk result (λ at. is_some at ≡ list_any (text_eq (template_text t.now)) self.now.texts.keys) }
    {
        let text = Text::from_vec(t.text(alloc)?);
        Ok(self.texts.get_index_of(&text))
    }
}

/// Templates that are equal to these.
fn copies(alloc: Global, templates: &[Template]) -> Result<Vec<Template>, OutOfMemory>
    ensures { IfOk result (λ copies. copies.items ≡ templates.now) }
{
    let mut copies = Vec::new(alloc);
    for t in templates {
        copies.push(t.copy(alloc)?)?;
    }
    Ok(copies)
}

impl<'a> Program for Indexed<'a> {
    ghost use Rattle.abc_groups.specs.Program.{entry_texts as texts_of, program_of as in_graph};

    ghost tells = { λ indexed. in_graph indexed.entries.now };

    ghost fits = { λ indexed. indexed.texts.keys ≡ texts_of indexed.entries.now };

    fn called(&self, alloc: Global, t: &Template) -> Result<Option<Vec<Template>>, OutOfMemory> {
        match self.place(alloc, t)? {
            Some(at) => Ok(Some(copies(alloc, self.entries[at].called.as_slice())?)),
            None => Ok(None),
        }
    }
}
