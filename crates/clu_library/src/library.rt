//! The library.

ghost use Rattle.std.specs.Prelude.{◌≡◌, ◌<◌, ◌↔◌, All, length, slice_get, IfErr, IfOk, IfSome, OnOk, OnErr, IsSome, IsTrue};
ghost use Rattle.std.specs.Option.{option_copied};
ghost use Rattle.clu_specs.specs.Specifications.{SpecHolds};
ghost use Rattle.clu_types.specs.Specs.{AreAscending};
ghost use Rattle.clu_library.specs.Contents.{nothing, spec_of, last_change, limit, changed_of, body_of, program_of, HaveSameText, IsDifference, KeepsFirst, MayEnter, NotAdded, NotEntered, NotKept, HasRoom, with_entered, with_new_spec, with_body, with_program};

use crate::body::{Body, Change, ModuleBody};
use crate::by_name::ByName;
use crate::errors::EnterError;
use crate::program::Program;
use clu_base::{Bytes, Memory};
use clu_specs::spec_text;
use clu_types::{Spec, Specs};
use std::alloc::Global;
use std::marker::Model;

/// The most modules of a library, and the most programs.
pub const LIMIT: u32 = 4096;

/// What is kept of modules, and programs.
#[derive(Drop)]
pub struct Library {
    pub(crate) revision: u32,
    pub(crate) specs: Specs,
    /// Of the modules whose specification was replaced.
    pub(crate) changes: ByName<Change>,
    pub(crate) bodies: ByName<ModuleBody>,
    pub(crate) programs: ByName<Program>,
}

impl Model for Library {
    ghost use Rattle.std.specs.Prelude.{All};
    ghost use Rattle.clu_specs.specs.Specifications.{SpecHolds};
    ghost use Rattle.clu_library.specs.Contents.{Contents};

    ghost Value = { Contents };

    ghost view = { λ l. record { revision = l.revision; specs = l.specs; changes = l.changes; bodies = l.bodies; programs = l.programs } };

    ghost invariant = { λ l. All SpecHolds l.specs };
}

impl Library {
    /// A library in which nothing is kept.
    pub fn empty(alloc: Global) -> Library
        ensures { result ≡ nothing }
    {
        Library {
            revision: 0,
            specs: Specs::new(alloc),
            changes: ByName::new(alloc),
            bodies: ByName::new(alloc),
            programs: ByName::new(alloc),
        }
    }

    /// How often a specification was replaced.
    pub fn revision(&self) -> u32
        ensures { result ≡ self.now.revision }
    {
        self.revision
    }

    /// The kept specifications.
    pub fn specs(&self) -> &Specs
        ensures { result.now ≡ self.now.specs }
    {
        &self.specs
    }

    /// Does nothing: its contract says what holds of the kept specifications, for callers that tell it on.
    pub fn sound(&self)
        ensures { All SpecHolds self.now.specs }
    {
        let _opened = &self.specs;
    }

    /// The kept specification of a module.
    #[tactic(auto, using(crate::proofs::Entering::laws))]
    pub fn spec(&self, name: &Bytes) -> Option<&Spec>
        ensures kept { option_copied result ≡ spec_of self.now name.now }
        ensures whole { IfSome result (λ s. SpecHolds s.now) }
    {
        match self.specs.get(name) {
            Some(kept) => Some(kept),
            None => None,
        }
    }

    /// The n-th kept specification in ascending order of names, from 0.
    #[tactic(auto, using(crate::proofs::Entering::laws))]
    pub(crate) fn nth_spec(&self, n: u32) -> Option<&Spec>
        ensures nth { option_copied result ≡ slice_get self.now.specs n }
        ensures whole { IfSome result (λ s. SpecHolds s.now) }
        ensures ascending { AreAscending self.now.specs }
    {
        match self.specs.at(n) {
            Some(kept) => Some(kept),
            None => None,
        }
    }

    /// The revision at which the specification of a module was replaced last, 0 where it never was. None exactly where no
    /// such module is kept.
    pub fn changed(&self, name: &Bytes) -> Option<u32>
        ensures { result ≡ changed_of self.now name.now }
    {
        match self.specs.get(name) {
            Some(_) => Some(self.last_change(name)),
            None => None,
        }
    }

    /// The revision at which the specification of a module was replaced last, or 0.
    pub(crate) fn last_change(&self, name: &Bytes) -> u32
        ensures { result ≡ last_change self.now name.now }
    {
        self.changes.last(name)
    }

    /// The kept body of a module.
    pub fn body(&self, name: &Bytes) -> Option<&Body>
        ensures { option_copied result ≡ body_of self.now name.now }
    {
        match self.bodies.get(name) {
            Some(kept) => Some(&kept.body),
            None => None,
        }
    }

    /// The program of this name.
    pub fn program(&self, name: &Bytes) -> Option<&Program>
        ensures { option_copied result ≡ program_of self.now name.now }
    {
        self.programs.get(name)
    }

    /// Enters the specification of a module. `Differs` where another one is kept of the module, `Full` where 4,096
    /// modules are kept and this is none of them. If an equal one is kept nothing changes.
    #[tactic(auto, using(crate::proofs::Entering::laws, crate::proofs::Found::firsts))]
    pub fn enter_spec(&mut self, alloc: Global, s: Spec) -> Result<(), EnterError>
        requires { SpecHolds s }
        ensures entered { OnOk result (self.new ≡ with_entered self.old s) }
        ensures of_names { OnOk result (KeepsFirst self.old self.new s) }
        ensures unchanged { OnErr result (self.new ≡ self.old) }
        ensures allowed { OnOk result (MayEnter self.old s (spec_of self.old s.name)) }
        ensures refused { IfErr result (λ e. NotEntered e self.old s (spec_of self.old s.name)) }
    {
        match self.spec(&s.name) {
            Some(kept) => same_spec(alloc, kept, &s),
            None => self.add_spec(s),
        }
    }

    /// Adds the specification of a module of which none is kept.
    #[tactic(auto, using(crate::proofs::Entering::laws))]
    pub(crate) fn add_spec(&mut self, s: Spec) -> Result<(), EnterError>
        requires { SpecHolds s }
        ensures added { OnOk result (self.new ≡ with_new_spec self.old s) }
        ensures unchanged { OnErr result (self.new ≡ self.old) }
        ensures room { OnOk result (length self.old.specs < limit) }
        ensures refused { IfErr result (λ e. NotAdded e self.old) }
    {
        if self.specs.at(LIMIT - 1).is_some() {
            return Err(EnterError::Full);
        }
        Ok(self.specs.with(s)?)
    }

    /// Enters the body of a module whose specification is kept, as one that was checked at this revision. Each program
    /// that reaches the module goes. When memory runs out nothing has changed.
    pub fn enter_body(&mut self, alloc: Global, name: &Bytes, b: Body) -> Result<(), Memory>
        requires { IsSome (spec_of self.old name.now) }
        ensures entered { OnOk result (self.new ≡ with_body self.old name.now b) }
        ensures unchanged { OnErr result (self.new ≡ self.old) }
    {
        let mut body = b;
        body.checked = self.revision;
        let name_kept = name.copy(alloc)?;
        self.bodies.put(ModuleBody {
            name: name_kept,
            body,
        })?;
        self.programs.leave_without(name);
        Ok(())
    }

    /// Enters a program; a kept one of its name is replaced. `Full` where 4,096 are kept and this is none of them.
    pub fn enter_program(&mut self, p: Program) -> Result<(), EnterError>
        ensures entered { OnOk result (self.new ≡ with_program self.old p) }
        ensures unchanged { OnErr result (self.new ≡ self.old) }
        ensures allowed { OnOk result (HasRoom (length self.old.programs) (program_of self.old p.name)) }
        ensures refused { IfErr result (λ e. NotKept e (length self.old.programs) (program_of self.old p.name)) }
    {
        if self.programs.get(&p.name).is_none() && self.programs.len() >= LIMIT as usize {
            return Err(EnterError::Full);
        }
        Ok(self.programs.put(p)?)
    }
}

/// Refuses a specification whose text is another one than that of the kept one.
fn same_spec(alloc: Global, kept: &Spec, entered: &Spec) -> Result<(), EnterError>
    requires kept_holds { SpecHolds kept.now }
    requires entered_holds { SpecHolds entered.now }
    ensures same { OnOk result (HaveSameText kept.now entered.now) }
    ensures refused { IfErr result (λ e. IsDifference e kept.now entered.now) }
{
    if have_same_text(alloc, kept, entered)? {
        Ok(())
    } else {
        Err(EnterError::Differs)
    }
}

/// Whether the two specifications are the same, by their texts.
pub fn have_same_text(alloc: Global, kept: &Spec, entered: &Spec) -> Result<bool, Memory>
    requires kept_holds { SpecHolds kept.now }
    requires entered_holds { SpecHolds entered.now }
    ensures { IfOk result (λ same. IsTrue same ↔ HaveSameText kept.now entered.now) }
{
    let before = spec_text(alloc, kept)?;
    let after = spec_text(alloc, entered)?;
    Ok(before == after)
}
