//! Which of the names are refinements, and of which kind.
ghost use Rattle.std.specs.Prelude.{◌≡◌, ◌∷◌, [], List, length, IfOk, OnOk};
ghost use Rattle.abc_expressions.specs.Addresses.{each_once};
ghost use Rattle.abc_outline.specs.declared.refining.Refined.{Refined};
ghost use Rattle.abc_outline.specs.OwnNames.{command_words, commands_of, name_kinds};

use crate::own::take_up;
use crate::refining::Refined;
use abc_num::{Items, Names, OutOfMemory};
use abc_tree::RefinementKind;
use std::alloc::Global;

/// Takes up the keyword of a refinement, if it is one of commands.
fn take_up_command(
    alloc: Global,
    refinement: &Refined,
    commands: &mut Names,
) -> Result<(), OutOfMemory>
    ensures { OnOk result (commands.new ≡ each_once commands.old (command_words (refinement.now ∷ []))) }
{
    match refinement.kind {
        RefinementKind::Command => take_up(alloc, &refinement.name, commands),
        RefinementKind::Expression => Ok(()),
        RefinementKind::Test => Ok(()),
    }
}

/// The keywords of command refinements, each once.
pub fn commands_of(alloc: Global, refined: &[Refined]) -> Result<Names, OutOfMemory>
    ensures { IfOk result (λ commands. commands ≡ commands_of refined.now) }
{
    let mut commands = Names::new(alloc);
    let mut ahead = refined;
    while let Some((refinement, behind)) = ahead.split_first() {
        take_up_command(alloc, refinement, &mut commands)?;
        ahead = behind;
    }
    Ok(commands)
}

/// No kind for any of the names.
fn no_kinds(alloc: Global, names: &Names) -> Result<Vec<Option<RefinementKind>>, OutOfMemory>
    ensures { IfOk result (λ kinds. kinds.items ≡ name_kinds names.now []) }
{
    let mut kinds = Vec::new(alloc);
    for i in 0..names.len() {
        kinds.push(None)?;
    }
    Ok(kinds)
}

/// Tells the kind of a refinement, where its name is one of these, over what the refinements behind it told.
fn tell_kind(names: &Names, refinement: &Refined, kinds: &mut [Option<RefinementKind>])
    requires { length kinds.old ≡ length names.now }
    ensures { (behind : List Refined) → kinds.old ≡ name_kinds names.now behind → kinds.new ≡ name_kinds names.now (refinement.now ∷ behind) }
{
    if let Some(i) = names.find(&refinement.name) {
        kinds[i as usize] = Some(refinement.kind);
    }
}

/// Which refinement each of the names is, if it is one, in time proportional to both.
pub fn name_kinds(
    alloc: Global,
    names: &Names,
    refined: &[Refined],
) -> Result<Items<Option<RefinementKind>>, OutOfMemory>
    ensures { IfOk result (λ kinds. kinds ≡ name_kinds names.now refined.now) }
{
    let mut kinds = no_kinds(alloc, names)?;
    let mut ahead = refined;
    while let Some((refinement, front)) = ahead.split_last() {
        tell_kind(names, refinement, &mut kinds);
        ahead = front;
    }
    Ok(Items::from_vec(kinds))
}
