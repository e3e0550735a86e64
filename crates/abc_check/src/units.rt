//! What is known of the units of a workspace, group by group.
ghost use Rattle.std.specs.Prelude.{◌≡◌, ◌<◌, ◌+◌, ℕ, List, length, option_map, Err, IfOk, OnOk, IsSome};
ghost use Rattle.std.specs.List.{All, AllByRecursion};
ghost use Rattle.abc_tree.specs.Ordered.{RiseBy};
ghost use Rattle.abc_groups.specs.Groups.{AreGroups, group_at};
ghost use Rattle.abc_groups.specs.Program.{program_of, texts};
ghost use Rattle.abc_ground.specs.Groups.{cut_of, template_of};
ghost use Rattle.abc_ground.specs.Typable.{Values, IsTypable};
ghost use Rattle.abc_principal.specs.Principals.{IsWhole};
ghost use Rattle.abc_principal.specs.Exact.{cut_in, cuts_of};
ghost use Rattle.abc_check.specs.Cuts.{entry_in, entries_in, CutsAreSpelled};
ghost use Rattle.abc_check.specs.Standing.{KnowsUnits};
ghost use Rattle.abc_check.specs.inner.Groupwise.{AreFound, ArePut, KnowsGroups};

use crate::members::place_of;
use abc_groups::{Calls, groups};
use abc_num::{Items, OutOfMemory, Text};
use abc_principal::{Member, Principal, Principals, group_principals};
use abc_tree::{Template, calls};
use abc_unify::UnifyFault;
use std::alloc::Global;

/// What one unit calls on the lines that count.
fn entry(alloc: Global, member: &Member<'_>) -> Result<Calls, OutOfMemory>
    ensures { IfOk result (λ entry. entry ≡ entry_in (cut_in member.now)) }
{
    Ok(Calls {
        template: member.unit.template.copy(alloc)?,
        called: Items::from_vec(calls(alloc, member.unit, member.lines)?),
    })
}

/// What each of these units calls.
fn entries(alloc: Global, members: &[Member<'_>]) -> Result<Vec<Calls>, OutOfMemory>
    ensures { IfOk result (λ graph. graph.items ≡ entries_in (cuts_of members.now)) }
{
    let mut graph = Vec::new(alloc);
    for member in members {
        graph.push(entry(alloc, member)?)?;
    }
    Ok(graph)
}

/// The unit with this template, if there is one.
fn found<'a>(members: &[Member<'a>], t: &Template) -> Option<Member<'a>>
    requires { RiseBy template_of (cuts_of members.now) }
    ensures { option_map cut_in result ≡ cut_of t.now (cuts_of members.now) }
{
    match place_of(members, t) {
        Ok(at) => {
            let member = &members[at];
            Some(Member {
                unit: member.unit,
                lines: member.lines,
            })
        }
        Err(_) => None,
    }
}

/// The units with these templates, each found by halves.
fn group_members<'a>(
    alloc: Global,
    members: &[Member<'a>],
    templates: &[Template],
) -> Result<Vec<Member<'a>>, OutOfMemory>
    requires rising { RiseBy template_of (cuts_of members.now) }
    requires there { AllByRecursion (λ t. IsSome (cut_of t (cuts_of members.now))) templates.now }
    ensures { IfOk result (λ group. AreFound (cuts_of members.now) templates.now (cuts_of group.items)) }
{
    let mut group = Vec::new(alloc);
    for t in templates {
        let Some(member) = found(members, t) else {
            unreachable!()
        };
        group.push(member)?;
    }
    Ok(group)
}

/// Keeps the principals of a group.
fn put_all(
    alloc: Global,
    known: &mut Principals,
    principals: Vec<Principal>,
) -> Result<(), OutOfMemory>
    requires { All IsWhole principals.items }
    ensures { OnOk result (ArePut known.old known.new principals.items) }
{
    let mut principals = principals;
    while let Some(principal) = principals.pop() {
        let text = Text::from_vec(principal.template.text(alloc)?);
        known.put(text, principal)?;
    }
    Ok(())
}

/// Makes the principals of the next group, whose units call only each other, units that are known and missing ones.
fn know_group(
    alloc: Global,
    members: &[Member<'_>],
    templates: &[Template],
    known: &mut Principals,
) -> Result<(), UnifyFault>
    requires rising { RiseBy template_of (cuts_of members.now) }
    requires ordered { RiseBy (λ t. t) templates.now }
    requires there { AllByRecursion (λ t. IsSome (cut_of t (cuts_of members.now))) templates.now }
    ensures ok { OnOk result (CutsAreSpelled (cuts_of members.now) → (groups : List (List (List ℕ))) (k : ℕ) → AreGroups (program_of (entries_in (cuts_of members.now))) groups → k < length groups → group_at groups k ≡ texts templates.now → KnowsGroups (cuts_of members.now) groups k known.old → KnowsGroups (cuts_of members.now) groups (k + 1) known.new) }
    ensures clash { result ≡ Err UnifyFault.Clash → CutsAreSpelled (cuts_of members.now) → (groups : List (List (List ℕ))) (k : ℕ) → AreGroups (program_of (entries_in (cuts_of members.now))) groups → k < length groups → group_at groups k ≡ texts templates.now → KnowsGroups (cuts_of members.now) groups k known.old → (values : Values) → IsTypable values (cuts_of members.now) → ⊥ }
{
    let group = group_members(alloc, members, templates)?;
    let principals = group_principals(alloc, &group, known)?;
    put_all(alloc, known, principals)?;
    Ok(())
}

/// The principals of all units, which are in the order of their templates. Clash comes only where nothing is typable with
/// these units.
pub fn known_units(alloc: Global, members: &[Member<'_>]) -> Result<Principals, UnifyFault>
    requires { RiseBy template_of (cuts_of members.now) }
    ensures ok { IfOk result (λ known. CutsAreSpelled (cuts_of members.now) → KnowsUnits known (cuts_of members.now)) }
    ensures clash { result ≡ Err UnifyFault.Clash → CutsAreSpelled (cuts_of members.now) → (values : Values) → IsTypable values (cuts_of members.now) → ⊥ }
{
    let graph = entries(alloc, members)?;
    let all = groups(alloc, &graph)?;
    let mut known = Principals::new(alloc);
    for group in &all {
        know_group(alloc, members, group.as_slice(), &mut known)?;
    }
    Ok(known)
}
