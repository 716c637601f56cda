//! The names of a tree by numbers, equal ones by one number, so that names are found in maps without memory.

ghost use Rattle.std.specs.Prelude.{◌≡◌, List, ℕ, IfOk, OnOk, length};
ghost use Rattle.clu_name_rules.specs.Words.{number_of, place_of, with_name, with_names, words_to};

use clu_base::{Bytes, Memory};
use clu_tree::Tree;
use indexmap::IndexSet;
use std::alloc::Global;
use std::marker::Model;

/// The names of all nodes of a tree, each once.
#[derive(Drop)]
pub struct Words {
    all: IndexSet<Bytes>,
}

impl Model for Words {
    ghost use Rattle.std.specs.Prelude.{List, ℕ};

    ghost Value = { List (List ℕ) };

    ghost view = { λ w. w.all.keys };
}

impl Words {
    fn put(&mut self, alloc: Global, name: &Bytes) -> Result<(), Memory>
        ensures { OnOk result (self.new ≡ with_name self.old name.now) }
    {
        if !self.all.contains(name) {
            self.all.insert(name.copy(alloc)?)?;
        }
        Ok(())
    }

    fn put_names(&mut self, alloc: Global, names: &[Bytes]) -> Result<(), Memory>
        ensures { OnOk result (self.new ≡ with_names self.old names.now) }
    {
        for name in names {
            self.put(alloc, name)?;
        }
        Ok(())
    }

    fn put_nodes(&mut self, alloc: Global, tree: &Tree) -> Result<(), Memory>
        requires { self.old ≡ words_to tree.now 0 }
        ensures { OnOk result (self.new ≡ words_to tree.now (length tree.now)) }
    {
        for n in 0..tree.len() {
            self.put_names(alloc, tree.node(n).names.as_slice())?;
        }
        Ok(())
    }

    /// The names of a tree. The only error is that memory runs out.
    pub fn of_tree(alloc: Global, tree: &Tree) -> Result<Box<Words>, Memory>
        ensures { IfOk result (λ words. words.value ≡ words_to tree.now (length tree.now)) }
    {
        let words = Words {
            all: IndexSet::new(alloc),
        };
        let mut words = Box::new(alloc, words)?;
        words.put_nodes(alloc, tree)?;
        Ok(words)
    }

    /// The number of a name, if a node has it.
    pub fn find(&self, name: &Bytes) -> Option<usize>
        ensures { result ≡ place_of self.now name.now }
    {
        self.all.get_index_of(name)
    }

    /// The number of a name; that of one which no node has is behind all others.
    pub fn number(&self, name: &Bytes) -> usize
        ensures { result ≡ number_of self.now name.now }
    {
        self.find(name).unwrap_or(self.all.len())
    }
}
