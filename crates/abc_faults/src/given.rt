//! Whether the heading of a unit has a predefined name.
ghost use Rattle.std.specs.Prelude.{◌≡◌};
ghost use Rattle.std.specs.List.{list_any};
ghost use Rattle.abc_tree.specs.Regular.{is_command};
ghost use Rattle.abc_faults.specs.Given.{is_given, is_given_head, is_given_name, is_given_word};

use abc_clauses::{Clause, Head};
use abc_expressions::{Kind, kind_of};
use abc_num::Names;
use abc_tree::{TemplateKind, Word};
use std::alloc::Global;

fn is_given(kind: Kind) -> bool
    ensures { result ≡ is_given kind }
{
    match kind {
        Kind::Given(_, _) => true,
        Kind::Own(_) | Kind::Free => false,
    }
}

/// Whether the word is a predefined name. It takes no memory.
fn is_given_word(alloc: Global, word: &Word) -> bool
    ensures { result ≡ is_given_word word.now }
{
    match word {
        Word::Key(name) => {
            let none = Names::new(alloc);
            is_given(kind_of(&none, name))
        }
        Word::Place => false,
    }
}

fn is_command(kind: TemplateKind) -> bool
    ensures { result ≡ is_command kind }
{
    match kind {
        TemplateKind::Command => true,
        TemplateKind::Function | TemplateKind::Predicate => false,
    }
}

fn has_given_word(alloc: Global, words: &[Word]) -> bool
    ensures { result ≡ list_any is_given_word words.now }
{
    for word in words {
        if is_given_word(alloc, word) {
            return true;
        }
    }
    false
}

/// Whether a line is the heading of a function or predicate with a predefined name.
pub fn is_given_name(alloc: Global, clause: &Clause) -> bool
    ensures { result ≡ is_given_name clause.now }
{
    match &clause.head {
        Head::Unit(template, _) => {
            !is_command(template.kind) && has_given_word(alloc, template.words.as_slice())
        }
        _ => false,
    }
}
