//! The own variables of a program: those that the code of its instances names.

use crate::errors::LinkError;
use crate::program::Code;
use clu_object::HoleKind;
use clu_types::TypeId;
use indexmap::IndexSet;
use std::alloc::Global;

/// Whose an own variable is.
#[derive(Clone, Copy, PartialEq, Eq, Hash)]
pub enum Owner {
    /// A routine's: the instance of this number.
    Routine(usize),
    /// That of an instance of a cluster, for all its routines.
    Cluster(TypeId),
    /// That of the cluster round the instance of this number, which is in none.
    NoCluster(usize),
}

/// An own variable, by its owner and its number there.
#[derive(Clone, Copy, PartialEq, Eq, Hash)]
pub struct Variable {
    pub owner: Owner,
    pub number: u32,
}

/// Whose own variables an instance names: its own number, and the instance of a cluster whose routine it is.
#[derive(Clone, Copy)]
pub struct Owners {
    pub number: usize,
    pub cluster: Option<TypeId>,
}

impl Owners {
    /// The numbers of the own variables that the holes of a code name, in the order of the holes. Those that are new are
    /// added.
    pub fn variables(
        self,
        alloc: Global,
        variables: &mut IndexSet<Variable>,
        codes: &[Code<'_>],
        code: usize,
    ) -> Result<Vec<usize>, LinkError> {
        let Some(code) = codes.get(code) else {
            return Err(LinkError::NotYet);
        };
        let mut named = Vec::new(alloc);
        for hole in code.routine().holes.as_slice() {
            if let Some(owner) = self.owner(hole.kind) {
                let number = hole.number;
                let (place, _) = variables.insert_full(Variable { owner, number })?;
                named.push(place)?;
            }
        }
        Ok(named)
    }

    /// Whose own variable a hole of this kind names.
    fn owner(self, kind: u8) -> Option<Owner> {
        if kind == HoleKind::RoutineOwn.number() {
            Some(Owner::Routine(self.number))
        } else if kind == HoleKind::ClusterOwn.number() {
            Some(self.owner_round())
        } else {
            None
        }
    }

    fn owner_round(self) -> Owner {
        match self.cluster {
            Some(of) => Owner::Cluster(of),
            None => Owner::NoCluster(self.number),
        }
    }
}
