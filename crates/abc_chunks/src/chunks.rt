//! A sequence whose copies share its elements: clauses see the list of them.
ghost use Rattle.std.specs.Prelude.{◌≡◌, ◌<◌, ◌≤◌, true, false, [], length, nat_eq, slice_get, slice_set, slice_index_or, IfOk, OnOk, OnErr};
ghost use Rattle.std.specs.List.{insert, remove};
ghost use Rattle.std.specs.List.Sorted.{IsPartitionedBy, IsPartitionPoint};
ghost use Rattle.std.specs.Option.{option_copied};
ghost use Rattle.abc_chunks.specs.Towers.{pieces, joined, IsSoundTower, ClonesAreEqual};

use crate::search::Seek;
use crate::tower::{Tower, first_tower};
use std::alloc::{AllocError, Global};
use std::marker::Model;
use std::ops::Index;
use std::rc::Rc;

/// A sequence in chunks of at most 64 elements. A copy is a further owner of the same chunks.
#[derive(Drop)]
pub struct Chunks<T> {
    alloc: Global,
    tower: Option<Rc<Tower<T>>>,
}

impl<T> Model for Chunks<T> {
    ghost use Rattle.std.specs.Prelude.{List};
    ghost use Rattle.std.specs.Coded.{coded_list};

    ghost Value = { List T };

    ghost coded = { coded_list T.code };

    ghost use Rattle.abc_chunks.specs.Towers.{items_of, IsSound};

    ghost view = { λ c. items_of c.tower };

    ghost invariant = { λ c. IsSound c.tower };
}

impl<T> Chunks<T> {
    /// No elements. This takes no memory.
    pub fn new(alloc: Global) -> Chunks<T>
        ensures { result ≡ [] }
    {
        Chunks { alloc, tower: None }
    }

    /// Where the memory of the sequence comes from.
    pub fn allocator(&self) -> Global {
        self.alloc
    }

    /// How many elements there are.
    pub fn len(&self) -> usize
        ensures { result ≡ length self.now }
    {
        match &self.tower {
            Some(tower) => tower.len(),
            None => 0,
        }
    }

    /// Whether there is no element.
    pub fn is_empty(&self) -> bool
        ensures { result ≡ nat_eq (length self.now) 0 }
    {
        self.len() == 0
    }

    /// The element at this place, counted from 0, if there is one.
    pub fn get(&self, place: usize) -> Option<&T>
        ensures { option_copied result ≡ slice_get self.now place }
    {
        if place < self.len() {
            Some(&self[place])
        } else {
            None
        }
    }

    /// The place up to which the elements pass, where none that passes stands behind one that doesn't.
    pub fn place_of<S: Seek<T>>(&self, sought: &S) -> usize
        requires { IsPartitionedBy (S.passes sought.now) self.now }
        ensures within { result ≤ length self.now }
        ensures place { IsPartitionPoint (λ x. S.passes sought.now x ≡ true) (λ x. S.passes sought.now x ≡ false) self.now result }
    {
        if self.is_empty() {
            return 0;
        }
        let Some(tower) = &self.tower else {
            unreachable!()
        };
        tower.place_of(sought)
    }
}

impl<T> Index<usize> for Chunks<T> {
    type Output = T;

    ghost can_index = { λ c i. i < length c };

    ghost index_gives = { λ c i x. x ≡ slice_index_or c i x };

    fn index(&self, index: usize) -> &T
        requires { index < length self.now }
        ensures { result.now ≡ slice_index_or self.now index result.now }
    {
        let Some(tower) = &self.tower else {
            unreachable!()
        };
        tower.at(index)
    }
}

impl<T: Drop> Chunks<T> {
    /// The same sequence: its chunks have one more owner.
    pub fn copy(&self) -> Result<Chunks<T>, AllocError>
        ensures { IfOk result (λ c. c ≡ self.now) }
    {
        let tower = match &self.tower {
            Some(tower) => Some(tower.clone()?),
            None => None,
        };
        Ok(Chunks {
            alloc: self.alloc,
            tower,
        })
    }
}

impl<T: Clone + Drop> Chunks<T> {
    /// The sequence of these elements.
    pub fn from_vec(items: Vec<T>) -> Result<Chunks<T>, AllocError>
        requires { ClonesAreEqual T.is_clone }
        ensures { IfOk result (λ c. c ≡ items.items) }
    {
        let mut all = Chunks::new(*items.allocator());
        for x in items {
            let end = all.len();
            all.insert(end, x)?;
        }
        Ok(all)
    }

    /// Puts `x` at this place, in front of what stood there. What has another owner is copied first.
    pub fn insert(&mut self, place: usize, x: T) -> Result<(), AllocError>
        requires place { place ≤ length self.old }
        requires clones { ClonesAreEqual T.is_clone }
        ensures ok { OnOk result (self.new ≡ insert self.old place x) }
        ensures err { OnErr result (self.new ≡ self.old) }
    {
        if self.is_empty() {
            let tower = first_tower(self.alloc, x)?;
            self.tower = Some(Rc::new(self.alloc, tower)?);
            return Ok(());
        }
        let Some(shared) = &mut self.tower else {
            unreachable!()
        };
        insert_in(shared, place, x)
    }

    /// Takes the element at this place out. What has another owner is copied first.
    pub fn remove(&mut self, place: usize) -> Result<T, AllocError>
        requires place { place < length self.old }
        requires clones { ClonesAreEqual T.is_clone }
        ensures value { IfOk result (λ x. x ≡ slice_index_or self.old place x) }
        ensures ok { OnOk result (self.new ≡ remove self.old place) }
        ensures err { OnErr result (self.new ≡ self.old) }
    {
        let Some(shared) = &mut self.tower else {
            unreachable!()
        };
        remove_from(shared, place)
    }

    /// Puts `x` in place of the element at this place, and answers that. What has another owner is copied first.
    pub fn replace(&mut self, place: usize, x: T) -> Result<T, AllocError>
        requires place { place < length self.old }
        requires clones { ClonesAreEqual T.is_clone }
        ensures value { IfOk result (λ y. y ≡ slice_index_or self.old place y) }
        ensures ok { OnOk result (self.new ≡ slice_set self.old place x) }
        ensures err { OnErr result (self.new ≡ self.old) }
    {
        let Some(shared) = &mut self.tower else {
            unreachable!()
        };
        replace_in(shared, place, x)
    }
}

fn insert_in<T: Clone + Drop>(
    shared: &mut Rc<Tower<T>>,
    place: usize,
    x: T,
) -> Result<(), AllocError>
    requires sound { IsSoundTower shared.old.value }
    requires some { 0 < length (joined (pieces shared.old.value)) }
    requires place { place ≤ length (joined (pieces shared.old.value)) }
    requires clones { ClonesAreEqual T.is_clone }
    ensures ok { OnOk result (joined (pieces shared.new.value) ≡ insert (joined (pieces shared.old.value)) place x) }
    ensures err { OnErr result (joined (pieces shared.new.value) ≡ joined (pieces shared.old.value)) }
    ensures sound { IsSoundTower shared.new.value }
{
    let tower = Rc::make_mut(shared)?;
    tower.insert(place, x)
}

fn remove_from<T: Clone + Drop>(shared: &mut Rc<Tower<T>>, place: usize) -> Result<T, AllocError>
    requires sound { IsSoundTower shared.old.value }
    requires place { place < length (joined (pieces shared.old.value)) }
    requires clones { ClonesAreEqual T.is_clone }
    ensures value { IfOk result (λ x. x ≡ slice_index_or (joined (pieces shared.old.value)) place x) }
    ensures ok { OnOk result (joined (pieces shared.new.value) ≡ remove (joined (pieces shared.old.value)) place) }
    ensures err { OnErr result (joined (pieces shared.new.value) ≡ joined (pieces shared.old.value)) }
    ensures sound { IsSoundTower shared.new.value }
{
    let tower = Rc::make_mut(shared)?;
    tower.remove(place)
}

fn replace_in<T: Clone + Drop>(
    shared: &mut Rc<Tower<T>>,
    place: usize,
    x: T,
) -> Result<T, AllocError>
    requires sound { IsSoundTower shared.old.value }
    requires place { place < length (joined (pieces shared.old.value)) }
    requires clones { ClonesAreEqual T.is_clone }
    ensures value { IfOk result (λ y. y ≡ slice_index_or (joined (pieces shared.old.value)) place y) }
    ensures ok { OnOk result (joined (pieces shared.new.value) ≡ slice_set (joined (pieces shared.old.value)) place x) }
    ensures err { OnErr result (joined (pieces shared.new.value) ≡ joined (pieces shared.old.value)) }
    ensures sound { IsSoundTower shared.new.value }
{
    let tower = Rc::make_mut(shared)?;
    tower.replace(place, x)
}
