//! Bodies that were checked before a specification that they rest on was replaced.

ghost use Rattle.std.specs.Prelude.{◌≡◌, ◌&&◌, [], IfOk, OnOk, Some};
ghost use Rattle.std.specs.List.{list_any};
ghost use Rattle.std.specs.Option.{option_copied};
ghost use Rattle.std.specs.Str.{bytes_eq};
ghost use Rattle.clu_library.specs.ByName.{AreAscending};
ghost use Rattle.clu_library.specs.Contents.{body_of};
ghost use Rattle.clu_library.specs.Resting.{with_changed};
ghost use Rattle.clu_library.specs.Staleness.{Tells, AreStale, comes_after, first_other, first_among, IsChangeOf, IsFirstReached};

use crate::body::{Body, Change};
use crate::closure::{closure, spec_of};
use crate::latest::Latest;
use crate::library::Library;
use crate::replacing::add_stale;
use clu_base::{Bytes, Memory};
use clu_types::{Spec, Specs};
use indexmap::IndexSet;
use std::alloc::Global;

/// Why a body is stale.
#[derive(Drop)]
pub struct StaleBy {
    /// The least name of a module that the body rests on and whose specification was replaced after the body was checked.
    pub by: Bytes,
    /// The revision at which it was replaced.
    pub changed: u32,
    /// The revision at which the body was checked.
    pub checked: u32,
}

impl Library {
    /// Why the kept body of a module is stale. None exactly where no body of that name is kept or it isn't stale. A body
    /// rests on the modules that its text names, and on all that the specifications of these name, and so on; its own
    /// module is left out. The only error is that memory runs out.
    #[tactic(auto, using(crate::proofs::Causes::tellings))]
    pub fn stale(&self, alloc: Global, name: &Bytes) -> Result<Option<StaleBy>, Memory>
        ensures { IfOk result (Tells self.now name.now (body_of self.now name.now)) }
    {
        match self.body(name) {
            Some(body) => self.cause(alloc, name, body),
            None => Ok(None),
        }
    }

    /// The modules whose kept bodies are stale: those for which `stale` tells a cause, in one search for all. The only error
    /// is that memory runs out.
    pub fn stale_modules(&self, alloc: Global) -> Result<IndexSet<Bytes>, Memory>
        ensures { IfOk result (λ found. AreStale self.now found.keys) }
    {
        let mut found = IndexSet::new(alloc);
        self.add_stale_modules(alloc, &mut found)?;
        Ok(found)
    }

    #[tactic(auto, using(crate::proofs::Losing::are_stale))]
    fn add_stale_modules(&self, alloc: Global, found: &mut IndexSet<Bytes>) -> Result<(), Memory>
        requires { found.old.keys ≡ [] }
        ensures { OnOk result (AreStale self.now found.new.keys) }
    {
        let latest = Latest::find(alloc, &self.specs, None, &self.changes)?;
        add_stale(
            alloc,
            found,
            &latest,
            &self.specs,
            None,
            self.changes.as_slice(),
            self.bodies.as_slice(),
        )
    }

    /// Why a body of the module `own` is stale.
    #[tactic(auto, using(crate::proofs::Causes::tellings))]
    fn cause(&self, alloc: Global, own: &Bytes, body: &Body) -> Result<Option<StaleBy>, Memory>
        ensures { IfOk result (Tells self.now own.now (Some body.now)) }
    {
        match later_change(alloc, &self.specs, None, self.changes.as_slice(), own, body)? {
            Some(change) => Ok(Some(StaleBy {
                by: change.name.copy(alloc)?,
                changed: change.revision,
                checked: body.checked,
            })),
            None => Ok(None),
        }
    }
}

/// The first change after a body of the module `own` was checked of a module that it rests on, if the specification `changed`
/// stands in the place of the kept one of its module.
#[tactic(auto, using(crate::proofs::Causes::causes))]
pub fn later_change<'a>(
    alloc: Global,
    specs: &Specs,
    changed: Option<&Spec>,
    changes: &'a [Change],
    own: &Bytes,
    body: &Body,
) -> Result<Option<&'a Change>, Memory>
    requires { AreAscending (λ (c : Change). c.name) changes.now }
    ensures { IfOk result (λ found. IsChangeOf (with_changed specs.now (option_copied changed.entry)) changes.now own.now body.now (option_copied found)) }
{
    let other = first_other(specs, changed, changes, own, body.checked);
    match &body.names {
        None => Ok(other),
        Some(names) => match other {
            None => Ok(None),
            Some(_) => {
                first_reached(
                    alloc,
                    specs,
                    changed,
                    changes,
                    own,
                    names.as_slice(),
                    body.checked,
                )
            }
        },
    }
}

/// The first change after a revision of a module other than `own`.
fn first_other<'a>(
    specs: &Specs,
    changed: Option<&Spec>,
    changes: &'a [Change],
    own: &Bytes,
    checked: u32,
) -> Option<&'a Change>
    ensures { option_copied result ≡ first_other (with_changed specs.now (option_copied changed.entry)) changes.now own.now checked }
{
    for change in changes {
        if comes_after(specs, changed, checked, change) && change.name != *own {
            return Some(change);
        }
    }
    None
}

/// The first change after a revision of a module on which a body of the module `own` rests that has these names.
fn first_reached<'a>(
    alloc: Global,
    specs: &Specs,
    changed: Option<&Spec>,
    changes: &'a [Change],
    own: &Bytes,
    names: &[Bytes],
    checked: u32,
) -> Result<Option<&'a Change>, Memory>
    ensures { IfOk result (λ found. IsFirstReached (with_changed specs.now (option_copied changed.entry)) changes.now own.now names.now checked (option_copied found)) }
{
    let found = closure(alloc, specs, changed, own, names)?;
    Ok(first_among(specs, changed, changes, &found, checked))
}

/// The first change after a revision of a module among these.
fn first_among<'a>(
    specs: &Specs,
    changed: Option<&Spec>,
    changes: &'a [Change],
    found: &IndexSet<Bytes>,
    checked: u32,
) -> Option<&'a Change>
    ensures { option_copied result ≡ first_among (with_changed specs.now (option_copied changed.entry)) changes.now found.now.keys checked }
{
    for change in changes {
        if is_among(specs, changed, change, found, checked) {
            return Some(change);
        }
    }
    None
}

/// Whether a change comes after a revision, and its module is among these.
fn is_among(
    specs: &Specs,
    changed: Option<&Spec>,
    change: &Change,
    found: &IndexSet<Bytes>,
    checked: u32,
) -> bool
    ensures { result ≡ (comes_after (with_changed specs.now (option_copied changed.entry)) checked change.now && list_any (bytes_eq change.now.name) found.now.keys) }
{
    comes_after(specs, changed, checked, change) && found.contains(&change.name)
}

/// Whether a change comes after a revision, and its module is kept.
fn comes_after(specs: &Specs, changed: Option<&Spec>, revision: u32, change: &Change) -> bool
    ensures { result ≡ comes_after (with_changed specs.now (option_copied changed.entry)) revision change.now }
{
    change.revision > revision && spec_of(specs, changed, &change.name).is_some()
}
