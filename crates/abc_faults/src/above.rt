//! What is kept of the lines above a line.
ghost use Rattle.std.specs.Prelude.{◌≡◌, ◌==◌, ◌<◌, ◌^◌, ◌||◌, ◌&&◌, List, [], ◌∷◌, IfOk, OnOk, length};
ghost use Rattle.abc_expressions.specs.Addresses.{each_once};
ghost use Rattle.abc_expressions.specs.NameTokens.{own_among};
ghost use Rattle.abc_outline.specs.OwnNames.{row_tokens};
ghost use Rattle.abc_outline.specs.declared.rows.Row.{Row};
ghost use Rattle.abc_faults.specs.Causes.{is_share, sight_of};
ghost use Rattle.abc_faults.specs.inner.Verdicts.{above_of};

use crate::causes::is_share;
use crate::facts::Facts;
use crate::sight::Sight;
use crate::taken_names::TakenNames;
use abc_expressions::used_names;
use abc_num::{Names, OutOfMemory};
use abc_outline::{Outline, Place, Row, line_names};
use std::alloc::Global;

/// What is kept of the lines above a line.
#[derive(Drop)]
pub struct Above {
    pub outline: Outline,
    pub taken: TakenNames,
    /// The names of the item that were used.
    pub used: Names,
    /// All lines between the first and this share names.
    pub shares: bool,
}

/// Adds the names of the item that stand in a line to those that were used.
fn use_row(alloc: Global, facts: &Facts, row: &Row, used: &mut Names) -> Result<(), OutOfMemory>
    ensures { OnOk result (used.new ≡ each_once used.old (own_among facts.now.names (row_tokens row.now.read))) }
{
    match &row.read {
        Ok(tokens) => used_names(alloc, &facts.names, tokens.as_slice(), used),
        Err(_) => Ok(()),
    }
}

/// Whether all lines but the first share names, up to this one, where those above do.
fn share_on(place: Place, row: &Row, shares: bool) -> bool
    ensures { result ≡ ((place.number == 1) || (is_share row.now.read && shares)) }
{
    place.number == 1 || (is_share(&row.read) && shares)
}

impl Above {
    /// Nothing stands above.
    pub fn new(alloc: Global, facts: &Facts) -> Above
        ensures { result ≡ above_of facts.now [] }
    {
        Above {
            outline: Outline::new(alloc, facts.setting),
            taken: TakenNames::new(alloc),
            used: Names::new(alloc),
            shares: true,
        }
    }

    /// What the lines above decide of the next line, which then stands above those to come.
    pub fn look(&mut self, alloc: Global, facts: &Facts, row: &Row) -> Result<Sight, OutOfMemory>
        requires { (above : List Row) × (self.old ≡ above_of facts.now above) × (length above < 2 ^ 32) }
        ensures sight { (above : List Row) → self.old ≡ above_of facts.now above → IfOk result (λ sight. sight ≡ sight_of facts.now above row.now) }
        ensures above { (above : List Row) → self.old ≡ above_of facts.now above → IfOk result (λ sight. self.new ≡ above_of facts.now (row.now ∷ above)) }
    {
        let place = self.outline.next(row.edges)?;
        let here = line_names(alloc, facts.setting.unit, place.role, row)?;
        let roles = self.taken.take_up(alloc, &here)?;
        use_row(alloc, facts, row, &mut self.used)?;
        let shares = self.shares;
        self.shares = share_on(place, row, shares);
        Ok(Sight {
            place,
            shares,
            twice: roles.is_second(),
            names: self.used.len(),
        })
    }
}
