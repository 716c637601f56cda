//! What the where clauses of a file ask, and what its type sets ask of their variables, as a table by node.

ghost use Rattle.std.specs.Prelude.{◌≡◌, length, slice_get};
ghost use Rattle.clu_head.specs.Asked.{start_in, demands_of};

use crate::head::Demanded;

/// What the where clause of each Routine and Cluster asks, and what each TypeSet asks of its variable, which is a parameter of
/// a number that no other has; in the order of the text.
#[derive(Drop)]
pub struct Asked {
    pub demands: Vec<Demanded>,
    /// For each node where its own begin.
    pub starts: Vec<usize>,
}

impl Asked {
    fn start(&self, n: usize) -> usize
        ensures { result ≡ start_in (length self.now.demands.items) (slice_get self.now.starts.items n) }
    {
        match self.starts.as_slice().get(n) {
            Some(start) => *start,
            None => self.demands.len(),
        }
    }

    /// What the node n asks.
    #[tactic(auto, unfolding(crate::specs::Asked::demands_of))]
    pub fn of(&self, n: u32) -> &[Demanded]
        ensures { result.now ≡ demands_of self.now.demands.items self.now.starts.items n }
    {
        let from = self.start(n as usize);
        let to = self.start(n as usize + 1);
        match self.demands.as_slice().get(from..to) {
            Some(demands) => demands,
            None => &[],
        }
    }
}
