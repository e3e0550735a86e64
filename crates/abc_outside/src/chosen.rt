//! What the host in memory keeps of its choices and reads.
ghost use Rattle.std.specs.Prelude.{◌≡◌, ◌++◌, [], ◌∷◌, map, option_map, string_bytes, IfOk, OnOk, OnErr};
ghost use Rattle.abc_outside.specs.Names.{names_of};

use std::alloc::{AllocError, Global};

#[derive(Drop)]
pub(crate) struct Chosen {
    store: String,
    input: Option<String>,
}

fn input_name(alloc: Global, input: Option<&str>) -> Result<Option<String>, AllocError>
    ensures { IfOk result (λ name. option_map string_bytes name ≡ option_map (λ name. name.now) input.entry) }
{
    match input {
        None => Ok(None),
        Some(name) => Ok(Some(String::from_str(alloc, name)?)),
    }
}

fn names(alloc: Global, store: &str, input: Option<&str>) -> Result<Chosen, AllocError>
    ensures { IfOk result (λ choice. names_of choice ≡ (store.now, option_map (λ name. name.now) input.entry)) }
{
    let input = input_name(alloc, input)?;
    let store = String::from_str(alloc, store)?;
    Ok(Chosen { store, input })
}

/// Adds a choice to those that were made.
pub(crate) fn note_choice(
    alloc: Global,
    chosen: &mut Vec<Chosen>,
    store: &str,
    input: Option<&str>,
) -> Result<(), AllocError>
    ensures ok { OnOk result (map names_of chosen.new.items ≡ map names_of chosen.old.items ++ (store.now, option_map (λ name. name.now) input.entry) ∷ []) }
    ensures err { OnErr result (chosen.new.items ≡ chosen.old.items) }
{
    let choice = names(alloc, store, input)?;
    Ok(chosen.push(choice)?)
}

/// Adds a read: how many bytes were taken and how many were said before it.
pub(crate) fn note_read(
    asked: &mut Vec<(u64, usize)>,
    taken: u64,
    said: usize,
) -> Result<(), AllocError>
    ensures ok { OnOk result (asked.new.items ≡ asked.old.items ++ (taken, said) ∷ []) }
    ensures err { OnErr result (asked.new.items ≡ asked.old.items) }
{
    Ok(asked.push((taken, said))?)
}
