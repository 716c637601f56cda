//! What is kept of a module beside its specification.

ghost use Rattle.std.specs.Prelude.{◌≡◌, IfOk, find};
ghost use Rattle.std.specs.Str.{bytes_eq};
ghost use Rattle.clu_library.specs.Contents.{revision_of};

use crate::by_name::{ByName, Named};
use clu_base::{Bytes, Memory, Sequence};
use clu_object::Object;
use std::alloc::Global;

/// The text of a module, and what was made of it.
#[derive(Drop)]
pub struct Body {
    /// The slice of the source file from the module's first token to its last.
    pub text: Bytes,
    /// The other modules that names of the text denote, ascending. None stands for all of the library.
    pub names: Option<Sequence<Bytes>>,
    /// The revision of the library when the text was checked.
    pub checked: u32,
    pub object: Object,
}

/// A body with the name of its module.
#[derive(Drop)]
pub struct ModuleBody {
    pub name: Bytes,
    pub body: Body,
}

impl Named for ModuleBody {
    ghost name_of = { λ b. b.name };

    fn name(&self) -> &Bytes {
        &self.name
    }
}

/// The revision at which the specification of a module was replaced last.
#[derive(Drop)]
pub struct Change {
    pub name: Bytes,
    pub revision: u32,
}

impl Named for Change {
    ghost name_of = { λ c. c.name };

    fn name(&self) -> &Bytes {
        &self.name
    }
}

impl Change {
    /// An equal change of its own. The only error is that memory runs out.
    pub fn copy(&self, alloc: Global) -> Result<Change, Memory>
        ensures { IfOk result (λ copied. copied ≡ self.now) }
    {
        let name = self.name.copy(alloc)?;
        Ok(Change {
            name,
            revision: self.revision,
        })
    }
}

impl ByName<Change> {
    /// The revision at which the specification of a module was replaced last, or 0.
    pub fn last(&self, name: &Bytes) -> u32
        ensures { result ≡ revision_of (find (λ c. bytes_eq c.name name.now) self.now) }
    {
        match self.get(name) {
            Some(change) => change.revision,
            None => 0,
        }
    }
}
