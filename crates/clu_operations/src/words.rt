//! Names of operations and exceptions, each by a number.

ghost use Rattle.std.specs.Prelude.{◌≡◌, ◌++◌, [], IfOk, option_copied, slice_get};
ghost use Rattle.clu_operations.specs.Words.{named, IsNumber};

use clu_base::{Bytes, Memory};
use indexmap::IndexSet;
use std::alloc::Global;
use std::marker::Model;

/// A name, by its place among those that are kept.
#[derive(Clone, Copy, PartialEq, Eq, Hash)]
pub struct NameId(pub usize);

/// Names that are kept.
#[derive(Drop)]
pub struct Words {
    names: IndexSet<Bytes>,
}

impl Model for Words {
    ghost use Rattle.std.specs.Prelude.{List, ℕ};

    ghost Value = { List (List ℕ) };

    ghost view = { λ w. w.names.keys };
}

impl Words {
    pub fn new(alloc: Global) -> Words
        ensures { result ≡ [] }
    {
        Words {
            names: IndexSet::new(alloc),
        }
    }

    /// The name of this number.
    pub fn name(&self, id: NameId) -> Option<&Bytes>
        ensures { option_copied result ≡ slice_get self.now id.0 }
    {
        self.names.get_index(id.0)
    }

    /// The number of a name, if it is kept.
    pub fn named(&self, name: &Bytes) -> Option<NameId>
        ensures { result ≡ named self.now name.now }
    {
        match self.names.get_index_of(name) {
            Some(place) => Some(NameId(place)),
            None => None,
        }
    }

    /// The number of a name, which is kept now.
    fn keep(&mut self, name: Bytes) -> Result<NameId, Memory>
        ensures { IfOk result (IsNumber self.old self.new name) }
    {
        let (place, _) = self.names.insert_full(name)?;
        Ok(NameId(place))
    }

    /// The same of a name of which others have need.
    pub fn number(&mut self, alloc: Global, name: &Bytes) -> Result<NameId, Memory>
        ensures { IfOk result (IsNumber self.old self.new name.now) }
    {
        match self.names.get_index_of(name) {
            Some(place) => Ok(NameId(place)),
            None => self.keep(name.copy(alloc)?),
        }
    }

    pub fn number_of(&mut self, alloc: Global, name: &[u8]) -> Result<NameId, Memory>
        ensures { IfOk result (IsNumber self.old self.new name.now) }
    {
        self.keep(Bytes::from_slice(alloc, name)?)
    }

    /// The number of a name with these letters before it.
    pub fn number_behind(
        &mut self,
        alloc: Global,
        front: &[u8],
        name: &Bytes,
    ) -> Result<NameId, Memory>
        ensures { IfOk result (IsNumber self.old self.new (front.now ++ name.now)) }
    {
        let mut joined = front.to_vec(alloc)?;
        joined.extend_from_slice(name.as_slice())?;
        self.keep(Bytes::from_vec(joined))
    }
}
