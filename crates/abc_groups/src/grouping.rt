//! The groups of templates that reach each other.
ghost use Rattle.std.specs.Prelude.{◌≡◌, ◌<◌, ℕ, length, map, IfOk};
ghost use Rattle.std.specs.List.{All};
ghost use Rattle.abc_tree.specs.Ordered.{RiseBy};
ghost use Rattle.abc_groups.specs.Groups.{AreGroups};
ghost use Rattle.abc_groups.specs.Program.{EachOnce, entry_texts, program_of, texts};
ghost use Rattle.abc_groups.specs.inner.Explored.{row_of};
ghost use Rattle.abc_groups.specs.inner.Found.{name_of};
ghost use Rattle.abc_groups.specs.inner.Named.{AreNamed};

use crate::explore::explore;
use crate::indexed::Indexed;
use crate::search::number_groups;
use crate::sorted::in_order;
use crate::{Calls, Templates};
use abc_num::{Items, OutOfMemory};
use abc_tree::Template;
use std::alloc::Global;

/// The templates of the entries.
fn entry_templates(alloc: Global, graph: &[Calls]) -> Result<Vec<Template>, OutOfMemory>
    ensures { IfOk result (λ ts. texts ts.items ≡ entry_texts graph.now) }
{
    let mut templates = Vec::new(alloc);
    for entry in graph {
        templates.push(entry.template.copy(alloc)?)?;
    }
    Ok(templates)
}

/// The templates with these numbers.
fn members(
    alloc: Global,
    templates: &[Template],
    row: &[usize],
) -> Result<Vec<Template>, OutOfMemory>
    requires { All (λ i. i < length templates.now) row.now }
    ensures { IfOk result (λ ts. texts ts.items ≡ map (name_of (texts templates.now)) row.now) }
{
    let mut all = Vec::new(alloc);
    for i in row {
        all.push(templates[*i].copy(alloc)?)?;
    }
    Ok(all)
}

/// The groups with these numbers, each in order.
fn named(
    alloc: Global,
    templates: &[Template],
    numbers: &[Items<usize>],
) -> Result<Vec<Templates>, OutOfMemory>
    requires { (g : ℕ) → All (λ i. i < length templates.now) (row_of numbers.now g) }
    ensures named { IfOk result (λ groups. AreNamed (texts templates.now) numbers.now (map texts groups.items)) }
    ensures rising { IfOk result (λ groups. All (RiseBy (λ t. t)) groups.items) }
{
    let mut groups = Vec::new(alloc);
    for row in numbers {
        let group = members(alloc, templates, row.as_slice())?;
        groups.push(in_order(alloc, &group)?)?;
    }
    Ok(groups)
}

/// The groups of the entries that reach each other, each in the order of templates, and each behind those that it calls.
pub fn groups(alloc: Global, graph: &[Calls]) -> Result<Vec<Templates>, OutOfMemory>
    requires { EachOnce graph.now }
    ensures groups { IfOk result (λ groups. AreGroups (program_of graph.now) (map texts groups.items)) }
    ensures rising { IfOk result (λ groups. All (RiseBy (λ t. t)) groups.items) }
{
    let indexed = Indexed::new(alloc, graph)?;
    let entries = entry_templates(alloc, graph)?;
    let explored = explore(alloc, &indexed, &entries)?;
    let numbers = number_groups(alloc, &explored.rows, &explored.there)?;
    named(alloc, &explored.templates, &numbers)
}
