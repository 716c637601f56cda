//! The declarations of a file, by the nodes that make them and by those that name them.

ghost use Rattle.std.specs.Prelude.{◌≡◌, IfOk, Some};
ghost use Rattle.clu_lower_types.specs.Declarations.{denoted, made, node_of, AreTables};

use crate::errors::{LowerError, Result};
use clu_base::Memory;
use clu_names::{Declared, Names, names_of};
use clu_syntax::rounds;
use clu_tree::Tree;
use std::alloc::Global;
use std::marker::Model;

/// The declarations of a file, which are given by their places in its list.
#[derive(Drop)]
pub struct Declarations {
    names: Names,
    /// For each node the place of the first declaration that it makes; the length of the list if it makes none.
    firsts: Vec<usize>,
}

impl Model for Declarations {
    ghost use Rattle.clu_lower_types.specs.Declarations.{Tables};

    ghost Value = { Tables };

    ghost view = { λ d. record { declared = d.names.declared.items; firsts = d.firsts.items; bound = d.names.bound.items; starts = d.names.starts.items } };
}

/// The declarations of a tree. The only error is that memory runs out.
pub fn declarations_of(alloc: Global, tree: &Tree) -> Result<Declarations, Memory>
    ensures { IfOk result (λ tables. AreTables tree.now tables) }
{
    let rounds = rounds(alloc, tree)?;
    let names = names_of(alloc, tree, rounds.as_slice())?;
    let firsts = firsts_of(alloc, names.declared.as_slice(), tree.len())?;
    Ok(Declarations { names, firsts })
}

fn firsts_of(alloc: Global, declared: &[Declared], nodes: u32) -> Result<Vec<usize>, Memory> {
    let mut firsts = vec![in alloc; declared.len(); nodes as usize]?;
    for (place, one) in declared.iter().enumerate() {
        if let Some(first) = firsts.get_mut(one.node as usize) {
            *first = place.min(*first);
        }
    }
    Ok(firsts)
}

impl Declarations {
    /// The first declaration that a node makes; those of its further names follow.
    pub fn made(&self, n: u32) -> Result<usize>
        ensures { IfOk result (λ place. made self.now n ≡ Some place) }
    {
        match self.firsts.get(n as usize) {
            Some(place) if *place < self.names.declared.len() => Ok(*place),
            _ => Err(LowerError::NotYet),
        }
    }

    /// The declaration that the k-th name of a node denotes.
    pub fn denoted(&self, n: u32, k: usize) -> Result<usize>
        ensures { IfOk result (λ place. denoted self.now n k ≡ Some place) }
    {
        let Some(start) = self.names.starts.get(n as usize) else {
            return Err(LowerError::NotYet);
        };
        let Some(at) = start.checked_add(k) else {
            return Err(LowerError::NotYet);
        };
        match self.names.bound.get(at) {
            Some(Some(place)) => Ok(*place),
            _ => Err(LowerError::NotYet),
        }
    }

    /// The node that makes a declaration.
    pub fn node(&self, place: usize) -> Result<u32>
        ensures { IfOk result (λ n. node_of self.now place ≡ Some n) }
    {
        match self.names.declared.get(place) {
            Some(declared) => Ok(declared.node),
            None => Err(LowerError::NotYet),
        }
    }
}
