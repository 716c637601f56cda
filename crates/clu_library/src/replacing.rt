//! Specifications, entered in the place of kept ones.

ghost use Rattle.std.specs.Prelude.{◌≡◌, ◌<◌, ◌↔◌, ◌∷◌, [], IfOk, IfErr, OnOk, OnErr, IsTrue, Contains, List, ℕ};
ghost use Rattle.std.specs.Option.{option_copied};
ghost use Rattle.clu_specs.specs.Specifications.{SpecHolds};
ghost use Rattle.clu_library.specs.Contents.{spec_of};
ghost use Rattle.clu_library.specs.Replacing.{last_revision, with_change, with_replaced, without_any, AreLostIfAny, AreStaleOf, IsKept, IsReplaced, NotChanged, NotReplaced, Replaces};
ghost use Rattle.clu_library.specs.Resting.{with_changed};
ghost use Rattle.clu_library.specs.Staleness.{IsStaleBody};
ghost use Rattle.clu_types.specs.Specs.{with_spec};
ghost use Rattle.clu_library.specs.Bounds.{in_table, rank_in, AreBounds, AreReached};
ghost use Rattle.clu_library.specs.ByName.{AreAscending, with_item};

use crate::body::{Change, ModuleBody};
use crate::by_name::ByName;
use crate::errors::EnterError;
use crate::latest::Latest;
use crate::library::{Library, have_same_text};
use crate::staleness::later_change;
use clu_base::{Bytes, Memory};
use clu_types::{Spec, Specs};
use indexmap::IndexSet;
use std::alloc::Global;

/// What is kept of the module of a specification that is entered.
#[derive(Clone, Copy)]
enum Kept {
    Nothing,
    Same,
    Other,
}

impl Library {
    /// Enters a specification in the place of the kept one of its module. Gives whether it is new or differs. Where it
    /// differs the revision rises by one and is the one at which it changed, the module's body goes, and with it each
    /// program that has a module whose body is gone or stale. `Full` where it is new and 4,096 modules are kept, or where
    /// it differs and the revision is the last one, 4,294,967,295. After an error nothing has changed.
    #[tactic(auto, using(crate::proofs::Replaced::replacings))]
    pub fn replace_spec(&mut self, alloc: Global, s: Spec) -> Result<bool, EnterError>
        requires { SpecHolds s }
        ensures replaced { IfOk result (λ changed. Replaces self.old s (spec_of self.old s.name) self.new changed) }
        ensures unchanged { OnErr result (self.new ≡ self.old) }
        ensures refused { IfErr result (λ e. NotReplaced e self.old s (spec_of self.old s.name)) }
    {
        match self.kept(alloc, &s)? {
            Kept::Nothing => {
                self.add_spec(s)?;
                Ok(true)
            }
            Kept::Same => Ok(false),
            Kept::Other => {
                self.change_spec(alloc, s)?;
                Ok(true)
            }
        }
    }

    #[tactic(auto, using(crate::proofs::Replaced::keepings))]
    fn kept(&self, alloc: Global, s: &Spec) -> Result<Kept, Memory>
        requires { SpecHolds s.now }
        ensures { IfOk result (λ kept. IsKept kept s.now (spec_of self.now s.now.name)) }
    {
        match self.spec(&s.name) {
            Some(kept) => if have_same_text(alloc, kept, s)? {
                Ok(Kept::Same)
            } else {
                Ok(Kept::Other)
            },
            None => Ok(Kept::Nothing),
        }
    }

    /// Changes the specification of a module. All that takes memory comes first.
    #[tactic(auto, using(crate::proofs::Replaced::changings))]
    fn change_spec(&mut self, alloc: Global, s: Spec) -> Result<(), EnterError>
        requires { SpecHolds s }
        ensures replaced { OnOk result (IsReplaced self.old s self.new) }
        ensures room { OnOk result (self.old.revision < last_revision) }
        ensures unchanged { OnErr result (self.new ≡ self.old) }
        ensures refused { IfErr result (λ e. NotChanged e self.old) }
    {
        if self.revision == u32::MAX {
            return Err(EnterError::Full);
        }
        let changes = self.changes_with(alloc, &s.name)?;
        let lost = self.lost(alloc, &s, &changes)?;
        Ok(self.put_changed(alloc, s, changes, &lost)?)
    }

    /// The changes, with the next one, of the module `name`.
    fn changes_with(&self, alloc: Global, name: &Bytes) -> Result<ByName<Change>, Memory>
        requires { self.now.revision < last_revision }
        ensures { IfOk result (λ made. made ≡ with_change self.now.changes name.now self.now.revision) }
    {
        let mut changes = copied(alloc, self.changes.as_slice())?;
        add_change(alloc, &mut changes, name, self.revision + 1)?;
        Ok(changes)
    }

    /// Puts a specification in the place of the kept one of its module, with the changes and without the programs that have
    /// a module which is lost.
    #[tactic(auto, using(crate::proofs::Entering::laws))]
    fn put_changed(
        &mut self,
        alloc: Global,
        s: Spec,
        changes: ByName<Change>,
        lost: &IndexSet<Bytes>,
    ) -> Result<(), Memory>
        requires holds { SpecHolds s }
        requires room { self.old.revision < last_revision }
        requires changed { changes ≡ with_change self.old.changes s.name self.old.revision }
        ensures put { OnOk result (self.new ≡ record (with_replaced self.old s) { programs = without_any lost.now.keys self.old.programs }) }
        ensures unchanged { OnErr result (self.new ≡ self.old) }
    {
        let name = s.name.copy(alloc)?;
        self.specs.with(s)?;
        self.bodies.leave_out(&name);
        self.programs.leave_without_any(lost);
        self.changes = changes;
        self.revision += 1;
        Ok(())
    }

    /// The module of a specification and those whose bodies will be stale, once it stands in the place of the kept one and
    /// these are the changes; of a library without programs none.
    fn lost(
        &self,
        alloc: Global,
        s: &Spec,
        changes: &ByName<Change>,
    ) -> Result<IndexSet<Bytes>, Memory>
        requires { changes.now ≡ with_change self.now.changes s.now.name self.now.revision }
        ensures { IfOk result (λ lost. AreLostIfAny self.now s.now lost.keys) }
    {
        let mut lost = IndexSet::new(alloc);
        self.add_lost(alloc, &mut lost, s, changes)?;
        Ok(lost)
    }

    #[tactic(auto, using(crate::proofs::Losing::losings))]
    fn add_lost(
        &self,
        alloc: Global,
        lost: &mut IndexSet<Bytes>,
        s: &Spec,
        changes: &ByName<Change>,
    ) -> Result<(), Memory>
        requires empty { lost.old.keys ≡ [] }
        requires changed { changes.now ≡ with_change self.now.changes s.now.name self.now.revision }
        ensures { OnOk result (AreLostIfAny self.now s.now lost.new.keys) }
    {
        if self.programs.len() == 0 {
            return Ok(());
        }
        self.add_bodies(alloc, lost, s, changes)
    }

    #[tactic(auto, using(crate::proofs::Losing::losings))]
    fn add_bodies(
        &self,
        alloc: Global,
        lost: &mut IndexSet<Bytes>,
        s: &Spec,
        changes: &ByName<Change>,
    ) -> Result<(), Memory>
        requires empty { lost.old.keys ≡ [] }
        ensures stale { OnOk result (AreStaleOf (with_spec self.now.specs s.now) changes.now self.now.bodies (s.now.name ∷ []) lost.new.keys) }
        ensures bodies { OnOk result (AreAscending (λ (b : ModuleBody). b.name) self.now.bodies) }
    {
        let latest = Latest::find(alloc, &self.specs, Some(s), changes)?;
        lost.insert(s.name.copy(alloc)?)?;
        add_stale(
            alloc,
            lost,
            &latest,
            &self.specs,
            Some(s),
            changes.as_slice(),
            self.bodies.as_slice(),
        )
    }
}

/// Adds the modules of the bodies that are stale, if the specification `changed` stands in the place of the kept one of its
/// module.
#[tactic(auto, using(crate::proofs::Losing::steps))]
pub fn add_stale(
    alloc: Global,
    lost: &mut IndexSet<Bytes>,
    latest: &Latest,
    specs: &Specs,
    changed: Option<&Spec>,
    changes: &[Change],
    bodies: &[ModuleBody],
) -> Result<(), Memory>
    requires ascending { AreAscending (λ (c : Change). c.name) changes.now }
    requires bounds { IsTrue latest.now.are_bounds → AreBounds (with_changed specs.now (option_copied changed)) changes.now (in_table latest.now.table) }
    requires reached { IsTrue latest.now.are_reached → AreReached (with_changed specs.now (option_copied changed)) changes.now (in_table latest.now.table) (rank_in latest.now.table) }
    ensures { OnOk result (AreStaleOf (with_changed specs.now (option_copied changed.entry)) changes.now bodies.now lost.old.keys lost.new.keys) }
{
    for kept in bodies {
        if !is_stale(alloc, latest, specs, changed, changes, kept)? {
            continue;
        }
        lost.insert(kept.name.copy(alloc)?)?;
    }
    Ok(())
}

/// Whether a body is stale. Of nearly all that list their names the table of revisions tells it.
#[tactic(auto, using(crate::proofs::Losing::stalenesses))]
fn is_stale(
    alloc: Global,
    latest: &Latest,
    specs: &Specs,
    changed: Option<&Spec>,
    changes: &[Change],
    kept: &ModuleBody,
) -> Result<bool, Memory>
    requires ascending { AreAscending (λ (c : Change). c.name) changes.now }
    requires bounds { IsTrue latest.now.are_bounds → AreBounds (with_changed specs.now (option_copied changed)) changes.now (in_table latest.now.table) }
    requires reached { IsTrue latest.now.are_reached → AreReached (with_changed specs.now (option_copied changed)) changes.now (in_table latest.now.table) (rank_in latest.now.table) }
    ensures { IfOk result (λ stale. IsTrue stale ↔ IsStaleBody (with_changed specs.now (option_copied changed.entry)) changes.now kept.now.name kept.now.body) }
{
    if latest.excludes(&kept.body) {
        return Ok(false);
    }
    if latest.includes(specs, changed, &kept.name, &kept.body) {
        return Ok(true);
    }
    match later_change(alloc, specs, changed, changes, &kept.name, &kept.body)? {
        Some(_) => Ok(true),
        None => Ok(false),
    }
}

/// An equal list of changes of its own.
fn copied(alloc: Global, changes: &[Change]) -> Result<ByName<Change>, Memory>
    requires { AreAscending (λ (c : Change). c.name) changes.now }
    ensures { IfOk result (λ copied. copied ≡ changes.now) }
{
    let mut items = Vec::new(alloc);
    for change in changes {
        items.push(change.copy(alloc)?)?;
    }
    Ok(ByName { items })
}

fn add_change(
    alloc: Global,
    changes: &mut ByName<Change>,
    name: &Bytes,
    revision: u32,
) -> Result<(), Memory>
    ensures { OnOk result (changes.new ≡ with_item (λ (c : Change). c.name) changes.old (record { name = name.now; revision = revision })) }
{
    let name = name.copy(alloc)?;
    changes.put(Change { name, revision })
}
