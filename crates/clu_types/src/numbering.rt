//! What numbers of one arena become in another.

ghost use Rattle.std.specs.Prelude.{◌≡◌, ℕ, None, OnOk};
ghost use Rattle.clu_types.specs.Renumbered.{number_in};
ghost use Rattle.clu_types.specs.Carried.{AreAdded, IsFirstFrom, IsLastBelow, IsPut};
ghost use Rattle.clu_types.specs.Numbering.{numbers_of};

use crate::term::TypeId;
use clu_base::Memory;
use std::alloc::Global;
use std::collections::BTreeMap;

/// Numbers by the numbers that become them.
#[derive(Drop)]
pub struct Numbering {
    entries: BTreeMap<u64, TypeId>,
}

impl Numbering {
    /// No entries.
    pub fn new(alloc: Global) -> Numbering
        ensures { (n : ℕ) → numbers_of result n ≡ None }
    {
        Numbering {
            entries: BTreeMap::new(alloc),
        }
    }

    /// What the number of a type becomes; one that has no entry stays.
    pub fn of(&self, id: TypeId) -> TypeId
        ensures { result ≡ number_in (numbers_of self.now) id }
    {
        match self.entries.get(&id.0) {
            Some(made) => *made,
            None => id,
        }
    }

    /// Puts the entry of a number.
    pub fn put(&mut self, n: u64, id: TypeId) -> Result<(), Memory>
        ensures { OnOk result (IsPut (numbers_of self.old) (numbers_of self.new) n id) }
    {
        self.entries.insert(n, id)?;
        Ok(())
    }

    /// Gives each of these numbers an entry, which is itself.
    pub fn need(&mut self, ids: &[TypeId]) -> Result<(), Memory>
        ensures { OnOk result (AreAdded (numbers_of self.old) (numbers_of self.new) ids.now) }
    {
        for id in ids {
            self.put(id.0, *id)?;
        }
        Ok(())
    }

    /// The greatest number below n that has an entry.
    pub fn last_below(&self, n: u64) -> Option<u64>
        ensures { IsLastBelow (numbers_of self.now) n result }
    {
        match self.entries.range(..n).next_back() {
            Some((last, _)) => Some(*last),
            None => None,
        }
    }

    /// The least number from n on that has an entry.
    pub fn first_from(&self, n: u64) -> Option<u64>
        ensures { IsFirstFrom (numbers_of self.now) n result }
    {
        match self.entries.range(n..).next() {
            Some((first, _)) => Some(*first),
            None => None,
        }
    }
}
