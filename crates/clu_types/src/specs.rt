//! Specifications, ascending by the names of their modules.

ghost use Rattle.std.specs.Prelude.{◌≡◌, [], find, length, slice_get, IfOk, OnOk, OnErr};
ghost use Rattle.std.specs.Str.{bytes_eq};
ghost use Rattle.std.specs.Option.{option_copied};
ghost use Rattle.clu_types.specs.Specs.{with_spec, place_of, name_order, AreAscending};
ghost use Rattle.std.specs.List.Sorted.{IsSearchInRange};

use crate::spec::Spec;
use clu_base::{Bytes, Memory};
use std::alloc::Global;
use std::cmp::Ordering;
use std::marker::Model;

/// Specifications of differing names, in ascending order of these.
#[derive(Drop)]
pub struct Specs {
    items: Vec<Spec>,
}

impl Model for Specs {
    ghost use Rattle.std.specs.Prelude.{List};
    ghost use Rattle.clu_types.specs.declared.spec.Spec.{Spec};
    ghost use Rattle.clu_types.specs.Specs.{AreAscending};

    ghost Value = { List Spec };

    ghost view = { λ s. s.items.items };

    ghost invariant = { λ s. AreAscending s.items.items };
}

impl Specs {
    /// No specifications.
    pub fn new(alloc: Global) -> Specs
        ensures { result ≡ [] }
    {
        Specs {
            items: Vec::new(alloc),
        }
    }

    /// The specification of this name.
    pub fn get(&self, name: &Bytes) -> Option<&Spec>
        ensures { option_copied result ≡ find (λ s. bytes_eq s.name name.now) self.now }
    {
        match self.search(name) {
            Ok(i) => self.nth(i),
            Err(_) => None,
        }
    }

    /// Adds a specification; a kept one of its name is replaced. When memory runs out the list is as before.
    pub fn with(&mut self, s: Spec) -> Result<(), Memory>
        ensures ok { OnOk result (self.new ≡ with_spec self.old s) }
        ensures err { OnErr result (self.new ≡ self.old) }
    {
        match self.search(&s.name) {
            Ok(i) => {
                self.items[i] = s;
                Ok(())
            }
            Err(i) => Ok(self.items.insert(i, s)?),
        }
    }

    /// Where the specification of a name is, or where it belongs.
    fn search(&self, name: &Bytes) -> Result<usize, usize>
        ensures place { result ≡ place_of self.now name.now }
        ensures in_range { IsSearchInRange result (length self.now) }
        ensures ascending { AreAscending self.now }
    {
        self.items.binary_search_by(
            |s| -> Ordering
                ensures { result ≡ name_order s.now.name name.entry.now }
            { s.name.cmp(name) },
        )
    }

    /// The n-th specification in ascending order of names, from 0.
    pub fn at(&self, n: u32) -> Option<&Spec>
        ensures nth { option_copied result ≡ slice_get self.now n }
        ensures ascending { AreAscending self.now }
    {
        self.nth(n as usize)
    }

    fn nth(&self, i: usize) -> Option<&Spec>
        ensures nth { option_copied result ≡ slice_get self.now i }
        ensures ascending { AreAscending self.now }
    {
        self.items.get(i)
    }

    /// An equal list of its own.
    pub fn copy(&self, alloc: Global) -> Result<Specs, Memory>
        ensures { IfOk result (λ copied. copied ≡ self.now) }
    {
        let mut items = Vec::new(alloc);
        let kept = self.items.as_slice();
        for s in kept {
            items.push(s.copy(alloc)?)?;
        }
        Ok(Specs { items })
    }
}
