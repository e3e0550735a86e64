//! What one item says: its tree, or its fault.
ghost use Rattle.std.specs.Prelude.{◌≡◌, ◌<◌, All, Some, None, Err, IfOk, length};
ghost use Rattle.abc_outline.specs.Rows.{IsShort};
ghost use Rattle.abc_faults.specs.Facts.{facts_of};
ghost use Rattle.abc_faults.specs.Faults.{fault_of_rows, item_fault};
ghost use Rattle.abc_faults.specs.Judging.{AreFit};
ghost use Rattle.abc_faults.specs.declared.fault.Fault.{Fault};
ghost use Rattle.abc_parse.specs.Items.{SpellsItem};
ghost use Rattle.abc_parse.specs.Readings.{item_of, item_of_rows};
ghost use Rattle.abc_parse.specs.RegularTemplates.{HasRegularTemplates};
ghost use Rattle.abc_parse.specs.RegularTrees.{IsNumberedItem, IsRegularItem};
ghost use Rattle.abc_parse.specs.inner.Building.{Answers, AsksAlone, SaysSpelled};

use crate::building::build;
use crate::fault::ItemFault;
use crate::laws::{numbered_items, regular_items, regular_templates};
use abc_faults::{Fault, Judged, asked, asks_by, environment_fault, facts_of, judge};
use abc_num::{ItemLines, Names};
use abc_outline::{Row, rows_of};
use abc_tree::Item;
use std::alloc::Global;

/// What a line says that asks about the workspace.
fn environment(alloc: Global, row: &Row) -> Result<Item, ItemFault>
    ensures { AsksAlone result row.now }
{
    if let Some(kind) = environment_fault(row) {
        return Err(ItemFault::At(Fault { line: 1, kind }));
    }
    Ok(Item::Environment(asked(alloc, row)?))
}

/// What rows say, the first of which doesn't ask about the workspace.
fn spelled(
    alloc: Global,
    lines: &ItemLines,
    rows: &[Row],
    targets: &Names,
) -> Result<Item, ItemFault>
    requires fit { AreFit rows.now }
    requires some { 0 < length rows.now }
    ensures { SaysSpelled result (facts_of targets.now rows.now) lines.now rows.now }
{
    let facts = facts_of(alloc, targets, rows)?;
    match judge(alloc, &facts, rows)? {
        Judged::Says(sayings) => Ok(build(alloc, facts, lines, sayings)?),
        Judged::Fault(fault) => Err(ItemFault::At(fault)),
    }
}

/// What the rows of an item say.
fn parse_rows(
    alloc: Global,
    lines: &ItemLines,
    rows: &[Row],
    targets: &Names,
) -> Result<Item, ItemFault>
    requires fit { AreFit rows.now }
    requires some { 0 < length rows.now }
    ensures { Answers (item_of_rows lines.now targets.now rows.now) (fault_of_rows targets.now rows.now) result }
{
    let Some(first) = rows.first() else {
        unreachable!()
    };
    if asks_by(first.edges) {
        return environment(alloc, first);
    }
    spelled(alloc, lines, rows, targets)
}

/// The tree of an item, or its fault: the first faulty line, with the first kind that stands there. The names of targets
/// tell which names an immediate command may use. It takes time proportional to the bytes of the lines and of the names.
pub fn parse_item(alloc: Global, lines: &ItemLines, targets: &Names) -> Result<Item, ItemFault>
    requires some { 0 < length lines.now }
    requires short { All IsShort lines.now }
    ensures computed { IfOk result (λ item. item_of lines.now targets.now ≡ Some item) }
    ensures tree { IfOk result (λ item. SpellsItem lines.now targets.now item × (item_fault lines.now targets.now ≡ None)) }
    ensures regular { IfOk result IsRegularItem }
    ensures numbers { IfOk result IsNumberedItem }
    ensures templates { IfOk result HasRegularTemplates }
    ensures fault { (at : Fault) → result ≡ Err (ItemFault.At at) → item_fault lines.now targets.now ≡ Some at }
{
    regular_items();
    numbered_items();
    regular_templates();
    let rows = rows_of(alloc, lines.as_slice())?;
    parse_rows(alloc, lines, rows.as_slice(), targets)
}
