//! What is found wrong with a program while it is reached, and which of it is refused first.

ghost use Rattle.std.specs.Prelude.{◌≡◌, ◌↔◌, ℕ, IfOk, IfSome, IsTrue, List, OnOk, Option, Some, []};
ghost use Rattle.clu_library.specs.Contents.{Contents, body_of};
ghost use Rattle.clu_library.specs.Staleness.{AreStale, IsStale};
ghost use Rattle.clu_reach.specs.Causes.{HasBody, IsRefusalOf};
ghost use Rattle.clu_reach.specs.Found.{AreFaults, IsStaleModule};
ghost use Rattle.clu_reach.specs.Reach.{Fate, Refusal, bodiless, is_stale, misfit, stale_body, taken};
ghost use Rattle.clu_reach.specs.Refused.{ErrorIs, IsFirst, IsRefused, IsRefusedFrom};
ghost use Rattle.clu_reach.specs.Walked.{AreFirst, IsNoted, IsStaleNamed};
ghost use Rattle.clu_reach.specs.declared.member.Member.{Member};

use crate::errors::LinkError;
use clu_base::{Bytes, Memory};
use clu_library::{Library, StaleBy};
use indexmap::IndexSet;
use std::alloc::Global;

/// The most that the instances of a program may weigh.
const MAX_WEIGHT: u64 = 262_144;

/// A module whose body is stale, and by what.
#[derive(Drop)]
struct StaleModule {
    name: Bytes,
    by: StaleBy,
}

/// The first module of each kind of fault, and what the instances weigh.
#[derive(Drop)]
pub struct Faults {
    no_body: Option<Bytes>,
    stale: Option<StaleModule>,
    misfit: Option<Bytes>,
    weight: u64,
    /// The modules of the library whose bodies are stale.
    stale_modules: IndexSet<Bytes>,
}

impl Faults {
    /// No faults; these are the modules whose bodies are stale.
    pub fn new(stale_modules: IndexSet<Bytes>) -> Faults
        ensures faults { (library : Contents) → AreStale library stale_modules.keys → AreFaults library result }
        ensures first { AreFirst [] result }
    {
        Faults {
            no_body: None,
            stale: None,
            misfit: None,
            weight: 0,
            stale_modules,
        }
    }

    /// No body is kept of the module.
    pub fn add_bodiless(&mut self, name: Bytes)
        ensures noted { IsNoted (bodiless name) self.old self.new }
        ensures faults { (library : Contents) → body_of library name ≡ None → AreFaults library self.old → AreFaults library self.new }
    {
        if self.no_body.is_some() {
            return;
        }
        self.no_body = Some(name);
    }

    /// The module's object does not fit what is kept.
    pub fn add_misfit(&mut self, name: Bytes)
        ensures noted { IsNoted (misfit name) self.old self.new }
        ensures faults { (library : Contents) → HasBody library name → AreFaults library self.old → AreFaults library self.new }
    {
        if self.misfit.is_some() {
            return;
        }
        self.misfit = Some(name);
    }

    pub fn add_weight(&mut self, weight: u64)
        ensures noted { (us : List Member) → IsNoted (taken weight us) self.old self.new }
        ensures faults { (library : Contents) → AreFaults library self.old → AreFaults library self.new }
    {
        self.weight = self.weight.saturating_add(weight);
    }

    /// Whether the kept body of a module is stale.
    #[tactic(auto, using(crate::proofs::Keeping::causes))]
    pub fn is_stale(&self, name: &Bytes) -> bool
        ensures { (library : Contents) → AreFaults library self.now → (IsTrue result ↔ IsStale library name.now) }
    {
        self.stale_modules.contains(name)
    }

    /// The body of the module is stale. Why, is told of the first one.
    pub fn add_stale(&mut self, alloc: Global, lib: &Library, name: &Bytes) -> Result<(), Memory>
        requires faults { AreFaults lib.now self.old }
        requires stale { IsStale lib.now name.now }
        ensures found { OnOk result (AreFaults lib.now self.new) }
        ensures noted { OnOk result (IsNoted (is_stale name.now) self.old self.new) }
    {
        if self.stale.is_some() {
            return Ok(());
        }
        match stale_module(alloc, lib, name)? {
            Some(found) => {
                self.stale = Some(found);
                Ok(())
            }
            None => Ok(()),
        }
    }

    /// What is refused first, if there are not too many instances.
    #[tactic(auto, using(crate::proofs::Firsts::firsts))]
    pub fn first(self) -> Option<LinkError>
        ensures exact { (fates : List Fate) → AreFirst fates self → IsFirst fates result }
        ensures cause { (library : Contents) → (start : List ℕ) → AreFaults library self → IfSome result (λ e. IsRefusalOf e library start) }
    {
        let Faults {
            no_body,
            stale,
            misfit,
            weight,
            stale_modules: _,
        } = self;
        if let Some(name) = no_body {
            return Some(LinkError::NoBody(name));
        }
        if let Some(stale) = stale {
            return Some(stale_error(stale));
        }
        match misfit {
            Some(name) => Some(LinkError::Misfit(name)),
            None if weight > MAX_WEIGHT => Some(LinkError::ProgramTooLarge),
            None => None,
        }
    }
}

/// A module and why its body is stale.
#[tactic(auto, using(crate::proofs::Keeping::causes))]
fn stale_module(alloc: Global, lib: &Library, name: &Bytes) -> Result<Option<StaleModule>, Memory>
    ensures { IfOk result (IsStaleNamed lib.now name.now) }
{
    match lib.stale(alloc, name)? {
        Some(by) => {
            let name = name.copy(alloc)?;
            Ok(Some(StaleModule { name, by }))
        }
        None => Ok(None),
    }
}

fn stale_error(stale: StaleModule) -> LinkError
    ensures named { (refusal : Option Refusal) → refusal ≡ Some (stale_body stale.name) → ErrorIs refusal result }
    ensures cause { (library : Contents) → (start : List ℕ) → IsStaleModule library stale → IsRefusalOf result library start }
{
    let StaleModule { name, by } = stale;
    let StaleBy {
        by,
        changed,
        checked,
    } = by;
    LinkError::Stale {
        name,
        by,
        changed,
        checked,
    }
}

/// The error of a step that refuses no program.
pub fn of_step(error: LinkError) -> LinkError
    ensures exact { (library : Contents) → (first : Member) → IsRefused library first result }
    ensures exact_from { (library : Contents) → (start : List ℕ) → IsRefusedFrom library start result }
    ensures cause { (library : Contents) → (start : List ℕ) → IsRefusalOf result library start }
{
    match error {
        LinkError::Memory => LinkError::Memory,
        _ => LinkError::NotYet,
    }
}
