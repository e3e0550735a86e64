//! The names of the lines above, by their roles.
ghost use Rattle.std.specs.Prelude.{◌≡◌, Bool, IfOk, OnOk};
ghost use Rattle.abc_num.specs.Names.{with_name};
ghost use Rattle.abc_expressions.specs.Addresses.{each_once};
ghost use Rattle.abc_faults.specs.Names.{again, clashes_above, clashes_with, is_one, meet, no_names, roles_of, taken_up, twice};

use abc_num::{Names, OutOfMemory, Text};
use abc_outline::LineNames;
use std::alloc::Global;

/// One less than there may be numbers.
const MOST_TAKEN: usize = u32::MAX as usize - 1;

/// The names of some lines, by their roles.
#[derive(Drop)]
pub struct TakenNames {
    /// Formals, shared names and refinements.
    pub roles: Names,
    pub refined: Names,
    pub bound: Names,
    /// Names that stand in addresses.
    pub put: Names,
}

/// Whether names that are taken up have one role each.
#[derive(Clone, Copy, Debug, PartialEq, Eq)]
pub enum Roles {
    /// Each has one.
    Single,
    /// One of them gets a second.
    Second,
}

impl Roles {
    /// By whether a name gets a second role.
    fn of(second: bool) -> Roles
        ensures { result ≡ roles_of second }
    {
        if second { Roles::Second } else { Roles::Single }
    }

    /// Whether a name gets a second role.
    pub fn is_second(self) -> bool
        ensures { (second : Bool) → self ≡ roles_of second → result ≡ second }
    {
        match self {
            Roles::Single => false,
            Roles::Second => true,
        }
    }
}

fn is_one(names: &Names, name: &Text) -> bool
    ensures { result ≡ is_one names.now name.now }
{
    names.find(name).is_some()
}

/// Whether one of the others is among the names.
fn meet(names: &Names, others: &[Text]) -> bool
    ensures { result ≡ meet names.now others.now }
{
    for name in others {
        if is_one(names, name) {
            return true;
        }
    }
    false
}

/// Takes up a name, if it is new.
fn take_name(alloc: Global, names: &mut Names, name: &Text) -> Result<(), OutOfMemory>
    ensures { OnOk result (names.new ≡ with_name names.old name.now) }
{
    if names.len() >= MOST_TAKEN {
        return Err(OutOfMemory);
    }
    names.number(Text::of(alloc, name.bytes())?)?;
    Ok(())
}

/// Takes up those of the names that are new.
fn take_all(alloc: Global, names: &mut Names, others: &[Text]) -> Result<(), OutOfMemory>
    ensures { OnOk result (names.new ≡ each_once names.old others.now) }
{
    let mut ahead = others;
    while let Some((name, behind)) = ahead.split_first() {
        take_name(alloc, names, name)?;
        ahead = behind;
    }
    Ok(())
}

/// Takes up those of the names that are new. One that was there already gets a second role.
fn take_again(alloc: Global, names: &mut Names, others: &[Text]) -> Result<Roles, OutOfMemory>
    ensures again { IfOk result (λ roles. roles ≡ roles_of (again names.old others.now)) }
    ensures taken { OnOk result (names.new ≡ each_once names.old others.now) }
{
    let mut found = false;
    let mut ahead = others;
    while let Some((name, behind)) = ahead.split_first() {
        found = found || is_one(names, name);
        take_name(alloc, names, name)?;
        ahead = behind;
    }
    Ok(Roles::of(found))
}

impl TakenNames {
    /// No names.
    pub fn new(alloc: Global) -> TakenNames
        ensures { result ≡ no_names }
    {
        TakenNames {
            roles: Names::new(alloc),
            refined: Names::new(alloc),
            bound: Names::new(alloc),
            put: Names::new(alloc),
        }
    }

    /// Whether a name of a line is one of these in a role that doesn't go with its own.
    fn clashes_above(&self, here: &LineNames) -> bool
        ensures { result ≡ clashes_above self.now here.now }
    {
        meet(&self.bound, here.named.as_slice())
            || (meet(&self.bound, here.refined.as_slice())
                || (meet(&self.bound, here.put.as_slice())
                    || meet(&self.refined, here.put.as_slice())))
    }

    /// Whether a name of a line, which is taken up, is one of these in a role that doesn't go with its own.
    fn clashes_with(&self, here: &LineNames) -> bool
        ensures { result ≡ clashes_with self.now here.now }
    {
        meet(&self.roles, here.bound.as_slice())
            || (meet(&self.put, here.bound.as_slice()) || meet(&self.put, here.refined.as_slice()))
    }

    /// Takes up the names of a line.
    pub fn take_up(&mut self, alloc: Global, here: &LineNames) -> Result<Roles, OutOfMemory>
        ensures twice { IfOk result (λ roles. roles ≡ roles_of (twice self.old here.now)) }
        ensures taken { OnOk result (self.new ≡ taken_up self.old here.now) }
    {
        let above = self.clashes_above(here);
        let named = take_again(alloc, &mut self.roles, here.named.as_slice())?.is_second();
        let refined = take_again(alloc, &mut self.roles, here.refined.as_slice())?.is_second();
        take_all(alloc, &mut self.refined, here.refined.as_slice())?;
        take_all(alloc, &mut self.bound, here.bound.as_slice())?;
        take_all(alloc, &mut self.put, here.put.as_slice())?;
        let with = self.clashes_with(here);
        Ok(Roles::of((named || refined) || (above || with)))
    }
}
