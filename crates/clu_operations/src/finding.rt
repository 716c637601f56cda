//! What was found so far: operations of types and modules with actual parameters, each once.

ghost use Rattle.std.specs.Prelude.{◌≡◌, length, IfOk};
ghost use Rattle.clu_operations.specs.Finding.{found_at, asked_by, IsOneMore};
ghost use Rattle.clu_operations.specs.Wished.{FindsNothing};
ghost use Rattle.clu_operations.specs.Words.{named};

use crate::bundles::Shown;
use crate::found::{Asked, Found, FoundId, Given, Wished};
use crate::words::{NameId, Words};
use clu_base::{Bytes, Memory};
use clu_bindings::ModuleId;
use clu_types::TypeId;
use std::alloc::Global;
use std::collections::HashMap;

/// What was found so far.
#[derive(Drop)]
pub struct Finding {
    pub words: Words,
    pub founds: Vec<Found>,
    pub asked: Vec<Asked>,
    /// What was looked for, with what was found.
    pub wished: HashMap<Wished, Option<FoundId>>,
    /// What where clauses and type sets give.
    pub given: HashMap<Given, FoundId>,
    /// What the modules of the file show, of those of which it was needed.
    pub shown: HashMap<ModuleId, Box<Shown>>,
}

impl Finding {
    /// Where nothing was found.
    pub fn new(alloc: Global) -> Finding
        ensures { FindsNothing result }
    {
        Finding {
            words: Words::new(alloc),
            founds: Vec::new(alloc),
            asked: Vec::new(alloc),
            wished: HashMap::new(alloc),
            given: HashMap::new(alloc),
            shown: HashMap::new(alloc),
        }
    }

    /// What was found at a place.
    pub fn found(&self, id: FoundId) -> Found
        ensures { result ≡ found_at self.now.founds.items id }
    {
        match self.founds.as_slice().get(id.0) {
            Some(found) => *found,
            None => Found {
                of: None,
                from: 0,
                to: 0,
            },
        }
    }

    /// What it asks.
    pub fn asked_by(&self, id: FoundId) -> &[Asked]
        ensures { result.now ≡ asked_by self.now id }
    {
        let found = self.found(id);
        let asked = self.asked.as_slice().get(found.from..found.to);
        asked.unwrap_or(&[])
    }

    /// How much is asked so far.
    pub fn asked_count(&self) -> usize
        ensures { result ≡ length self.now.asked.items }
    {
        self.asked.as_slice().len()
    }

    /// The number of a name, if it is kept.
    pub fn named(&self, name: &Bytes) -> Option<NameId>
        ensures { result ≡ named self.now.words name.now }
    {
        self.words.named(name)
    }

    /// Keeps what was found, of this type, that asks what stands behind this place.
    pub fn keep(&mut self, of: Option<TypeId>, from: usize) -> Result<FoundId, Memory>
        ensures { IfOk result (IsOneMore self.old self.new of from) }
    {
        let id = FoundId(self.founds.as_slice().len());
        let to = self.asked.as_slice().len();
        self.founds.push(Found { of, from, to })?;
        Ok(id)
    }
}
