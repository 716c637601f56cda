//! Lists of items that ascend by name.

ghost use Rattle.std.specs.Prelude.{◌≡◌, not, [], find, length, slice_get, OnOk, OnErr};
ghost use Rattle.std.specs.Str.{bytes_eq};
ghost use Rattle.std.specs.Option.{option_copied};
ghost use Rattle.std.specs.List.{filter};
ghost use Rattle.std.specs.List.Sorted.{IsSearchInRange};
ghost use Rattle.clu_types.specs.Specs.{name_order};
ghost use Rattle.clu_library.specs.ByName.{AreAscending, place_of, with_item};

use clu_base::{Bytes, Memory};
use std::alloc::Global;
use std::cmp::Ordering;
use std::marker::Model;

/// What has a name.
pub trait Named {
    ghost use Rattle.std.specs.Prelude.{List, ℕ, ◌≡◌};

    ghost name_of: { Self → List ℕ };

    fn name(&self) -> &Bytes
        ensures { result.now ≡ name_of self.now };
}

/// Items of differing names, in ascending order of these.
#[derive(Drop)]
pub struct ByName<T: Named> {
    pub(crate) items: Vec<T>,
}

impl<T: Named> Model for ByName<T> {
    ghost use Rattle.std.specs.Prelude.{List};
    ghost use Rattle.clu_library.specs.ByName.{AreAscending};

    ghost Value = { List T };

    ghost view = { λ s. s.items.items };

    ghost invariant = { λ s. AreAscending T.name_of s.items.items };
}

impl<T: Named> ByName<T> {
    /// No items.
    pub fn new(alloc: Global) -> ByName<T>
        ensures { result ≡ [] }
    {
        ByName {
            items: Vec::new(alloc),
        }
    }

    pub fn len(&self) -> usize
        ensures { result ≡ length self.now }
    {
        self.items.len()
    }

    /// All of them, ascending.
    pub fn as_slice(&self) -> &[T]
        ensures all { result.now ≡ self.now }
        ensures ascending { AreAscending T.name_of self.now }
    {
        self.items.as_slice()
    }

    /// The item of this name.
    pub fn get(&self, name: &Bytes) -> Option<&T>
        ensures { option_copied result ≡ find (λ x. bytes_eq (T.name_of x) name.now) self.now }
    {
        match self.search(name) {
            Ok(i) => self.nth(i),
            Err(_) => None,
        }
    }

    fn nth(&self, i: usize) -> Option<&T>
        ensures nth { option_copied result ≡ slice_get self.now i }
        ensures ascending { AreAscending T.name_of self.now }
    {
        self.items.get(i)
    }

    /// Where the item of a name is, or where it belongs.
    fn search(&self, name: &Bytes) -> Result<usize, usize>
        ensures place { result ≡ place_of T.name_of self.now name.now }
        ensures in_range { IsSearchInRange result (length self.now) }
        ensures ascending { AreAscending T.name_of self.now }
    {
        self.items.binary_search_by(
            |x| -> Ordering
                ensures { result ≡ name_order (T.name_of x.now) name.entry.now }
            { x.name().cmp(name) },
        )
    }
}

impl<T: Named + Drop> ByName<T> {
    /// Adds an item; a kept one of its name is replaced. When memory runs out the list is as before.
    pub fn put(&mut self, item: T) -> Result<(), Memory>
        ensures ok { OnOk result (self.new ≡ with_item T.name_of self.old item) }
        ensures err { OnErr result (self.new ≡ self.old) }
    {
        match self.search(item.name()) {
            Ok(i) => {
                self.items[i] = item;
                Ok(())
            }
            Err(i) => Ok(self.items.insert(i, item)?),
        }
    }

    /// Leaves the items of other names.
    pub fn leave_out(&mut self, name: &Bytes)
        ensures { self.new ≡ filter (λ x. not (bytes_eq (T.name_of x) name.now)) self.old }
    {
        self.items.retain(
            |x| -> bool
                ensures { result ≡ not (bytes_eq (T.name_of x.now) name.entry.now) }
            { x.name() != name },
        );
    }
}
