//! Templates in their order.
ghost use Rattle.std.specs.Prelude.{◌≡◌, ◌↔◌, ℕ, List, IfOk};
ghost use Rattle.std.specs.List.{Contains};
ghost use Rattle.std.specs.List.Sorted.{IsStrictlySortedBy};
ghost use Rattle.std.specs.Map.{keys_of, values_of};
ghost use Rattle.abc_num.specs.Text.{text_cmp};
ghost use Rattle.abc_tree.specs.Ordered.{RiseBy};
ghost use Rattle.abc_groups.specs.Program.{texts};
ghost use Rattle.abc_groups.specs.inner.Sorted.{IsByText};

use crate::Templates;
use abc_num::{Items, OutOfMemory, Text};
use abc_tree::Template;
use std::alloc::Global;
use std::collections::BTreeMap;

/// These templates by their texts.
fn by_text(alloc: Global, templates: &[Template]) -> Result<BTreeMap<Text, Template>, OutOfMemory>
    ensures { IfOk result (λ m. IsByText (texts templates.now) m.entries) }
{
    let mut named = BTreeMap::new(alloc);
    for t in templates {
        let text = Text::from_vec(t.text(alloc)?);
        named.insert(text, t.copy(alloc)?)?;
    }
    Ok(named)
}

/// The templates of the map, by their texts in order.
fn all_values(alloc: Global, named: &BTreeMap<Text, Template>) -> Result<Templates, OutOfMemory>
    ensures values { IfOk result (λ all. all ≡ values_of named.now.entries) }
    ensures sorted { IfOk result (λ _. IsStrictlySortedBy text_cmp (keys_of named.now.entries)) }
{
    let mut all = Items::new(alloc);
    for t in named.values() {
        all.push(t.copy(alloc)?)?;
    }
    Ok(all)
}

/// These templates in their order, each once. It takes time n log n.
pub(crate) fn in_order(alloc: Global, templates: &[Template]) -> Result<Templates, OutOfMemory>
    ensures same { IfOk result (λ all. (x : List ℕ) → (Contains (texts all) x ↔ Contains (texts templates.now) x)) }
    ensures rising { IfOk result (λ all. RiseBy (λ t. t) all) }
{
    let named = by_text(alloc, templates)?;
    let all = all_values(alloc, &named)?;
    Ok(all)
}
