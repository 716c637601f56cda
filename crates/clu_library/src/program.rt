//! Programs that were linked.

ghost use Rattle.std.specs.Prelude.{◌≡◌, not};
ghost use Rattle.std.specs.List.{filter};
ghost use Rattle.clu_library.specs.Contents.{has};
ghost use Rattle.clu_library.specs.Replacing.{has_any, without_any};

use crate::by_name::{ByName, Named};
use clu_base::{Bytes, Sequence};
use indexmap::IndexSet;
use rv_isa::Image;

/// A program.
#[derive(Drop)]
pub struct Program {
    /// Its name, of 1 to 200 bytes.
    pub name: Bytes,
    /// The module with which it starts.
    pub start: Bytes,
    /// The modules whose bodies it has, ascending.
    pub modules: Sequence<Bytes>,
    pub image: Image,
}

impl Named for Program {
    ghost name_of = { λ p. p.name };

    fn name(&self) -> &Bytes {
        &self.name
    }
}

impl Program {
    /// Whether it has the body of the module.
    pub fn has(&self, name: &Bytes) -> bool
        ensures { result ≡ has self.now name.now }
    {
        self.modules.as_slice().contains(name)
    }

    /// Whether it has the body of one of the modules.
    fn has_any(&self, names: &IndexSet<Bytes>) -> bool
        ensures { result ≡ has_any names.now.keys self.now }
    {
        for name in self.modules.as_slice() {
            if names.contains(name) {
                return true;
            }
        }
        false
    }
}

impl ByName<Program> {
    /// Leaves the programs that do not have the body of the module.
    pub fn leave_without(&mut self, name: &Bytes)
        ensures { self.new ≡ filter (λ p. not (has p name.now)) self.old }
    {
        self.items.retain(
            |p| -> bool
                ensures { result ≡ not (has p.now name.entry.now) }
            { !p.has(name) },
        );
    }

    /// Leaves the programs that have the body of none of the modules.
    pub fn leave_without_any(&mut self, names: &IndexSet<Bytes>)
        ensures { self.new ≡ without_any names.now.keys self.old }
    {
        self.items.retain(
            |p| -> bool
                ensures { result ≡ not (has_any names.entry.now.keys p.now) }
            { !p.has_any(names) },
        );
    }
}
