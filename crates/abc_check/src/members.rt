//! The units of a workspace as members, each with the lines of it that count.
ghost use Rattle.std.specs.Prelude.{◌≡◌, length, IfOk, IfErr};
ghost use Rattle.abc_tree.specs.Ordered.{RiseBy};
ghost use Rattle.abc_tree.specs.inner.Search.{IsAt, IsGap};
ghost use Rattle.abc_ground.specs.Groups.{whole, with_cut, template_of};
ghost use Rattle.abc_principal.specs.Exact.{cuts_of};

use abc_num::OutOfMemory;
use abc_principal::Member;
use abc_tree::{Template, Unit, Units};
use std::alloc::Global;
use std::cmp::Ordering;

/// How many lines a unit has.
pub(crate) fn line_count(unit: &Unit) -> Result<u32, OutOfMemory>
    ensures { IfOk result (λ count. count ≡ length unit.now.lines) }
{
    match u32::try_from(unit.lines.len()) {
        Ok(count) => Ok(count),
        Err(_) => Err(OutOfMemory),
    }
}

/// The units of a workspace, in the order of their templates.
pub(crate) fn whole_members<'a>(
    alloc: Global,
    units: &'a Units,
) -> Result<Vec<Member<'a>>, OutOfMemory>
    ensures cuts { IfOk result (λ members. cuts_of members.items ≡ whole units.now) }
    ensures rising { IfOk result (λ members. RiseBy template_of (cuts_of members.items)) }
{
    // Its clause tells that the units stand in order.
    let _first = units.at(0);
    let mut members = Vec::new(alloc);
    while let Some(unit) = units.at(members.len()) {
        let lines = line_count(unit)?;
        members.push(Member { unit, lines })?;
    }
    Ok(members)
}

/// Where the unit with this template is, or where it would go, among units in the order of their templates. It is looked for by
/// halves.
pub(crate) fn place_of(members: &[Member<'_>], t: &Template) -> Result<usize, usize>
    requires { RiseBy template_of (cuts_of members.now) }
    ensures found { IfOk result (IsAt template_of (cuts_of members.now) t.now) }
    ensures absent { IfErr result (IsGap template_of (cuts_of members.now) t.now) }
{
    let mut low = 0;
    let mut high = members.len();
    'halves: while low < high {
        let middle = low + (high - low) / 2;
        let member = &members[middle];
        match member.unit.template.cmp(t) {
            Ordering::Less => low = middle + 1,
            Ordering::Equal => return Ok(middle),
            Ordering::Greater => high = middle,
        }
    }
    Err(low)
}

/// The units of a workspace with this one in the place of the one with its template, of which `lines` lines count.
pub(crate) fn cut_members<'a>(
    alloc: Global,
    units: &'a Units,
    unit: &'a Unit,
    lines: u32,
) -> Result<Vec<Member<'a>>, OutOfMemory>
    ensures cuts { IfOk result (λ members. cuts_of members.items ≡ with_cut unit.now lines units.now) }
    ensures rising { IfOk result (λ members. RiseBy template_of (cuts_of members.items)) }
{
    let mut members = whole_members(alloc, units)?;
    match place_of(&members, &unit.template) {
        Ok(at) => {
            members[at] = Member { unit, lines };
            Ok(members)
        }
        Err(at) => {
            members.insert(at, Member { unit, lines })?;
            Ok(members)
        }
    }
}
