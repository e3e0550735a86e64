//! The store: a workspace, and the journal that keeps it.
ghost use Rattle.std.specs.Prelude.{◌≡◌, ◌⊎◌, ◌<◌, [], false, List, ℕ, length, IfOk, OnOk, IsErrOf, IsTrue, true, option_map, Ok, Err, Some};
ghost use Rattle.abc_outside.specs.Outside.{RoseByOne, KeepsButStore};
ghost use Rattle.abc_outside.specs.Stop.{Leaves, IsQuiet};
ghost use Rattle.abc_tree.specs.Units.{AreRising as AreInOrder};
ghost use Rattle.abc_frames.specs.Maps.{AreRegular};
ghost use Rattle.abc_num.specs.declared.limits.TheConstants.{MOST_UNITS};
ghost use Rattle.abc_journal.specs.declared.format.TheConstants.{FRESH_BYTES};
ghost use Rattle.abc_journal.specs.Image.{fresh_image, settled_image, payloads_of};
ghost use Rattle.abc_journal.specs.Journal.{BeginsQuiet, IfNotAStore, IsNotAStore};
ghost use Rattle.abc_record.specs.Kept.{AreKept};
ghost use Rattle.abc_store.specs.Workspace.{Workspace, changed_by, changes_between, with_targets, with_routine, unit_named, IsWithinLimits, IsWellTyped, AreNamed, AreKeptUnits};
ghost use Rattle.abc_store.specs.Opening.{Opens, OpensTo};
ghost use Rattle.abc_store.specs.Commit.{Holds, Refusal, stored, work_after, payloads_after, Tells, IsNoFault, IsDecided, IsTooLarge, IsStoreFull, StillOpens, OpensToEither};
ghost use Rattle.abc_store.specs.View.{work_of};

use crate::CommitFault;
use crate::contents::Contents;
use crate::opening::opened;
use crate::plan::{Plan, prepare};
use crate::steps::write_all;
use crate::whole::as_changes;
use abc_frames::Targets;
use abc_journal::{BeginFault, Bounds, Journal};
use abc_num::OutOfMemory;
use abc_num::limits::MOST_RECORD_BYTES;
use abc_outside::Host;
use abc_record::{Change, size_of};
use abc_tree::{Unit, Units};
use std::alloc::Global;
use std::marker::Model;

/// An open store: the workspace that its image opens to, and where that stands.
#[derive(Drop)]
pub struct Store {
    alloc: Global,
    journal: Journal,
    /// The bound on checkpoints, which the journal has too.
    checkpoint: u64,
    contents: Contents,
}

impl Model for Store {
    ghost use Rattle.std.specs.Prelude.{◌≡◌};
    ghost use Rattle.std.specs.Coded.{codes};
    ghost use Rattle.abc_frames.specs.View.{coded_targets};
    ghost use Rattle.abc_store.specs.View.{View};
    ghost use Rattle.abc_store.specs.Workspace.{IsWellTyped};
    ghost use Rattle.abc_store.specs.inner.Steps.{IsSpellable};
    ghost use Rattle.abc_tree.specs.contracts.formulas.Bound as bound;
    ghost use Rattle.abc_tree.specs.contracts.commands.Action as action;

    ghost Value = { View };

    ghost coded = { Prim.hlevel (codes, coded_targets, bound.the_row.coded, action.the_row.coded) };

    ghost view = { λ s. record { kept = s.contents; layout = s.journal.layout; bounds = s.journal.bounds; sound = s.journal.sound } };

    ghost invariant = { λ s. IsSpellable s.contents × IsWellTyped s.contents × (s.journal.bounds.checkpoint ≡ s.checkpoint) };
}

impl Store {
    /// Opens the store. An image of at most 65 bytes is made fresh; a longer one is only read, whatever the answer, each record
    /// once, and then its workspace is checked: one that no types fit is wrong at the start of its region.
    ///
    /// Errors: `NotAStore` with the place of what is wrong, which leaves the store as it was; `Memory`, after which an image of at
    /// most 65 bytes may have been made fresh; `StoreFault` where a call of the host failed.
    pub fn begin<H: Host>(alloc: Global, host: &mut H, b: &Bounds) -> Result<Store, BeginFault>
        ensures opened { H.tells_image → IfOk result (λ store. OpensTo (H.now host.old).image store.kept) }
        ensures holds { H.tells_image → IfOk result (λ store. Holds (H.now host.new).image (work_of store)) }
        ensures image { H.tells_image → OnOk result ((H.now host.new).image ≡ settled_image (H.now host.old).image) }
        ensures bounds { IfOk result (λ store. store.bounds ≡ b.now) }
        ensures sound { IfOk result (λ store. IsTrue store.sound) }

        ensures refused { H.tells_image → IfNotAStore result (λ at. Opens (H.now host.old).image (Err at)) }
        ensures fault { IsErrOf result BeginFault.StoreFault → RoseByOne (H.now host.old).store_faults (H.now host.new).store_faults }
        ensures faultless { OnOk result ((H.now host.new).store_faults ≡ (H.now host.old).store_faults) }
        ensures refused_faultless { (IsNotAStore result ⊎ IsErrOf result BeginFault.Memory) → (H.now host.new).store_faults ≡ (H.now host.old).store_faults }

        ensures rest { KeepsButStore (H.now host.old) (H.now host.new) }
        ensures long { H.tells_image → FRESH_BYTES < length (H.now host.old).image → (H.now host.new).image ≡ (H.now host.old).image }
        ensures long_stops { H.tells_image → FRESH_BYTES < length (H.now host.old).image
            → Leaves H.clock H.stopped host.old host.new (H.stopped host.old (H.clock host.old)) }
        ensures unchanged { H.tells_image → (at : ℕ) → Opens (H.now host.old).image (Err at) → (H.now host.new).image ≡ (H.now host.old).image }
        ensures untouched { H.tells_image → (at : ℕ) → Opens (H.now host.old).image (Err at)
            → Leaves H.clock H.stopped host.old host.new (H.stopped host.old (H.clock host.old)) }

        // A fresh image is not written again.
        ensures fresh { H.tells_image → (H.now host.old).image ≡ fresh_image
            → Leaves H.clock H.stopped host.old host.new (H.stopped host.old (H.clock host.old)) }

        // At every moment of the call, and at its end.
        ensures stops { H.tells_image → BeginsQuiet H.clock H.stopped host.old (H.now host.old).image
            → (kept : Workspace) → OpensTo (H.now host.old).image kept
            → Leaves H.clock H.stopped host.old host.new (StillOpens kept (H.now host.old).said) }
        ensures quiet { H.tells_image → BeginsQuiet H.clock H.stopped host.old (H.now host.old).image
            → OnOk result (IsQuiet H.clock H.stopped host.new (H.now host.new).image) }
    {
        let (journal, payloads) = Journal::begin(alloc, host, b)?;
        let contents = opened(alloc, journal.layout().start, &payloads)?;
        Ok(Store {
            alloc,
            journal,
            checkpoint: b.checkpoint,
            contents,
        })
    }

    /// The targets.
    pub fn targets(&self) -> &Targets
        ensures targets { result.now ≡ self.now.kept.targets }
        ensures named { AreNamed self.now.kept.targets }
        ensures regular { AreRegular self.now.kept.targets }
        ensures limits { IsWithinLimits self.now.kept }
        ensures typed { IsWellTyped self.now.kept }
    {
        self.contents.targets()
    }

    /// The units, in the order of their templates.
    pub fn units(&self) -> &Units
        ensures units { result.now ≡ self.now.kept.units }
        ensures in_order { AreInOrder self.now.kept.units }
        ensures kept { AreKeptUnits self.now.kept.units }
        ensures limits { IsWithinLimits self.now.kept }
        ensures typed { IsWellTyped self.now.kept }
    {
        self.contents.units()
    }

    /// The unit whose template is written so, if there is one. The search takes memory for one template.
    pub fn unit(&self, template: &[u8]) -> Result<Option<&Unit>, OutOfMemory>
        ensures { IfOk result (λ found. option_map (λ unit. unit.now) found ≡ unit_named template.now self.now.kept.units) }
    {
        self.contents.unit(template)
    }

    /// Whether there may be this unit too, in place of one with its template or beside the others.
    pub fn has_room_for(&self, unit: &Unit) -> bool
        ensures room { result ≡ true → IsWithinLimits (with_routine self.now.kept unit.now) }
        ensures none { result ≡ false → MOST_UNITS < length (with_routine self.now.kept unit.now).units }
    {
        self.contents.has_room_for(unit)
    }

    /// Targets equal to those of the store, for an item to change.
    pub fn working(&self) -> Result<Targets, OutOfMemory>
        ensures { IfOk result (λ targets. targets ≡ self.now.kept.targets) }
    {
        let mut targets = Targets::new(self.alloc);
        targets.back(self.contents.targets().keep()?);
        Ok(targets)
    }

    /// The changes that lead from the targets of the store to these, in order of the names.
    pub fn changes(&self, working: &Targets) -> Result<Vec<Change>, OutOfMemory>
        ensures changes { IfOk result (λ changes. changes.items ≡ changes_between self.now.kept (with_targets self.now.kept working.now)) }
        ensures lead { IfOk result (λ changes. changed_by changes.items self.now.kept ≡ Some (with_targets self.now.kept working.now)) }
        ensures kept { AreNamed working.now → IsWithinLimits (with_targets self.now.kept working.now) → IfOk result (λ changes. AreKept changes.items) }
    {
        let before = self.contents.targets().keep()?;
        as_changes(self.alloc, working.changes(&before)?)
    }

    /// Keeps these changes, all of them or none. The workspace with them is within the limits of a store, and types fit it. Once
    /// the answer is Ok, each stop leaves an image that opens to that workspace. All memory is taken before the first write.
    /// Where the record doesn't fit, a checkpoint of the workspace is tried first; a checkpoint that is due after it is taken
    /// where it fits.
    ///
    /// Errors: `TooLarge` where the spelling of the changes has more than 2^28 bytes, and `Memory`, which change nothing;
    /// `StoreFull` where the checkpoint doesn't fit, or the record doesn't fit after it: then the workspace is as before, and
    /// the checkpoint stays; `StoreFault` where a call of the host failed: then the store isn't sound any more, and its image
    /// opens to the workspace before the changes or with them.
    pub fn commit<H: Host>(&mut self, host: &mut H, changes: Vec<Change>) -> Result<(), CommitFault>
        requires sound { IsTrue self.old.sound }
        requires holds { H.tells_image → Holds (H.now host.old).image (work_of self.old) }
        requires kept { AreKept changes.items }
        requires later { (later : Workspace) × (changed_by changes.items self.old.kept ≡ Some later) × IsWithinLimits later × IsWellTyped later }

        ensures answer { (later : Workspace) → changed_by changes.items self.old.kept ≡ Some later
            → Tells result self.old.bounds (work_of self.new) (stored self.old.bounds (work_of self.old) changes.items later) }
        ensures work { (later : Workspace) → changed_by changes.items self.old.kept ≡ Some later → IsDecided result
            → work_of self.new ≡ work_after (work_of self.old) (stored self.old.bounds (work_of self.old) changes.items later) }
        ensures holds { H.tells_image → IsNoFault result → Holds (H.now host.new).image (work_of self.new) }

        ensures payloads { H.tells_image → (ps : List (List ℕ)) (later : Workspace) → payloads_of (H.now host.old).image ≡ Ok ps
            → changed_by changes.items self.old.kept ≡ Some later → IsDecided result
            → payloads_of (H.now host.new).image ≡ Ok (payloads_after self.old.bounds (work_of self.old) changes.items later ps) }

        ensures fault { IsErrOf result CommitFault.StoreFault → RoseByOne (H.now host.old).store_faults (H.now host.new).store_faults }
        ensures faultless { IsNoFault result → (H.now host.new).store_faults ≡ (H.now host.old).store_faults }
        ensures nothing { changes.items ≡ [] → (result ≡ Ok tt) × (self.new ≡ self.old) × (host.new ≡ host.old) }
        ensures same { (IsErrOf result CommitFault.Memory ⊎ IsTooLarge result) → self.new ≡ self.old }
        ensures same_host { (IsErrOf result CommitFault.Memory ⊎ IsTooLarge result) → host.new ≡ host.old }
        ensures full { IsStoreFull result → self.new.kept ≡ self.old.kept }
        ensures rest { KeepsButStore (H.now host.old) (H.now host.new) }
        ensures bounds { self.new.bounds ≡ self.old.bounds }
        ensures sound { IsNoFault result → IsTrue self.new.sound }
        ensures unsound { IsErrOf result CommitFault.StoreFault → self.new.sound ≡ false }

        // At every moment of the call, and at its end.
        ensures stops { H.tells_image → IsQuiet H.clock H.stopped host.old (H.now host.old).image
            → (later : Workspace) → changed_by changes.items self.old.kept ≡ Some later
            → Leaves H.clock H.stopped host.old host.new (OpensToEither self.old.kept later (H.now host.old).said) }
        ensures refused_stops { H.tells_image → IsQuiet H.clock H.stopped host.old (H.now host.old).image
            → (IsStoreFull result ⊎ IsTooLarge result ⊎ IsErrOf result CommitFault.Memory)
            → Leaves H.clock H.stopped host.old host.new (StillOpens self.old.kept (H.now host.old).said) }
        // Changes that are to be refused leave the workspace, whatever the answer.
        ensures unfit_stops { H.tells_image → IsQuiet H.clock H.stopped host.old (H.now host.old).image
            → (later : Workspace) (refusal : Refusal) → changed_by changes.items self.old.kept ≡ Some later
            → stored self.old.bounds (work_of self.old) changes.items later ≡ Err refusal
            → Leaves H.clock H.stopped host.old host.new (StillOpens self.old.kept (H.now host.old).said) }
        ensures quiet { H.tells_image → IsQuiet H.clock H.stopped host.old (H.now host.old).image
            → IsNoFault result → IsQuiet H.clock H.stopped host.new (H.now host.new).image }
    {
        if changes.is_empty() {
            return Ok(());
        }
        let bytes = size_of(&changes);
        if bytes > MOST_RECORD_BYTES {
            return Err(CommitFault::TooLarge { bytes });
        }
        let Plan {
            payload,
            before,
            after,
            later,
        } = prepare(
            self.alloc,
            &mut self.journal,
            &mut self.contents,
            self.checkpoint,
            changes,
        )?;
        match write_all(
            &mut self.journal,
            host,
            self.checkpoint,
            before.as_deref(),
            &payload,
            after.as_deref(),
        ) {
            Ok(()) => {
                later.take_place(&mut self.contents);
                Ok(())
            }
            Err(fault) => Err(CommitFault::from(fault)),
        }
    }
}
