//! The own names of an item, and those that it uses.
ghost use Rattle.std.specs.Prelude.{◌≡◌, IfOk, OnOk};
ghost use Rattle.abc_expressions.specs.Addresses.{each_once};
ghost use Rattle.abc_expressions.specs.NameTokens.{own_among};
ghost use Rattle.abc_num.specs.Names.{with_name};
ghost use Rattle.abc_outline.specs.OwnNames.{all_of, given_names, item_names, own_names, row_tokens, used_names};

use crate::naming::{LineNames, line_names};
use crate::outlining::{Outline, setting_of};
use crate::rows::Row;
use abc_num::{Names, OutOfMemory, Text};
use std::alloc::Global;

/// One number less than there are.
const MOST_NUMBERED: usize = u32::MAX as usize - 1;

/// Takes up a name. OutOfMemory comes too where no further name can be numbered.
pub(crate) fn take_up(alloc: Global, name: &Text, names: &mut Names) -> Result<(), OutOfMemory>
    ensures { OnOk result (names.new ≡ with_name names.old name.now) }
{
    if names.len() >= MOST_NUMBERED {
        return Err(OutOfMemory);
    }
    names.number(Text::of(alloc, name.bytes())?)?;
    Ok(())
}

fn take_up_all(alloc: Global, added: &[Text], names: &mut Names) -> Result<(), OutOfMemory>
    ensures { OnOk result (names.new ≡ each_once names.old added.now) }
{
    let mut ahead = added;
    while let Some((name, behind)) = ahead.split_first() {
        take_up(alloc, name, names)?;
        ahead = behind;
    }
    Ok(())
}

/// Takes up all names of a line.
fn take_up_line(alloc: Global, line: &LineNames, names: &mut Names) -> Result<(), OutOfMemory>
    ensures { OnOk result (names.new ≡ each_once names.old (all_of line.now)) }
{
    take_up_all(alloc, line.named.as_slice(), names)?;
    take_up_all(alloc, line.refined.as_slice(), names)?;
    take_up_all(alloc, line.bound.as_slice(), names)?;
    take_up_all(alloc, line.put.as_slice(), names)
}

fn given_names(alloc: Global, unit: bool, targets: &Names) -> Result<Names, OutOfMemory>
    ensures { IfOk result (λ names. names ≡ given_names unit targets.now) }
{
    if unit {
        return Ok(Names::new(alloc));
    }
    targets.copy(alloc)
}

/// The own names of an item: those of its lines, and the targets' where it is no unit. It takes time proportional to the
/// bytes of both.
#[tactic(auto, unfolding(crate::specs::OwnNames::own_names))]
pub fn own_names(alloc: Global, targets: &Names, rows: &[Row]) -> Result<Names, OutOfMemory>
    ensures { IfOk result (λ own. own ≡ own_names targets.now rows.now) }
{
    let setting = setting_of(rows);
    let mut own = given_names(alloc, setting.unit, targets)?;
    let mut outline = Outline::new(alloc, setting);
    let mut ahead = rows;
    while let Some((row, below)) = ahead.split_first() {
        let place = outline.next(row.edges)?;
        let names = line_names(alloc, setting.unit, place.role, row)?;
        take_up_line(alloc, &names, &mut own)?;
        ahead = below;
    }
    Ok(own)
}

/// Takes up the own names that stand in a line as name tokens.
fn use_row(alloc: Global, own: &Names, row: &Row, used: &mut Names) -> Result<(), OutOfMemory>
    ensures { OnOk result (used.new ≡ each_once used.old (own_among own.now (row_tokens row.now.read))) }
{
    match &row.read {
        Ok(tokens) => abc_expressions::used_names(alloc, own, tokens.as_slice(), used),
        Err(_) => Ok(()),
    }
}

/// The own names that stand in an item as name tokens, each once, in the order of first use.
#[tactic(auto, unfolding(crate::specs::OwnNames::used_names))]
pub fn used_names(alloc: Global, own: &Names, rows: &[Row]) -> Result<Names, OutOfMemory>
    ensures { IfOk result (λ used. used ≡ used_names own.now rows.now) }
{
    let mut used = Names::new(alloc);
    let mut ahead = rows;
    while let Some((row, below)) = ahead.split_first() {
        use_row(alloc, own, row, &mut used)?;
        ahead = below;
    }
    Ok(used)
}

/// The names of an item: those by whose numbers its tree speaks of them.
#[tactic(auto, unfolding(crate::specs::OwnNames::item_names))]
pub fn item_names(alloc: Global, targets: &Names, rows: &[Row]) -> Result<Names, OutOfMemory>
    ensures { IfOk result (λ names. names ≡ item_names targets.now rows.now) }
{
    let own = own_names(alloc, targets, rows)?;
    used_names(alloc, &own, rows)
}
