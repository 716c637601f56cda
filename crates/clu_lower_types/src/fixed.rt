//! What is fixed while the statements of a routine are lowered: the checked file, the routine's heading as its body sees
//! it, what is given of type parameters, and own variables.

ghost use Rattle.std.specs.Prelude.{◌≡◌, [], IfOk, None};
ghost use Rattle.std.specs.List.{find};
ghost use Rattle.std.specs.Option.{option_copied};
ghost use Rattle.clu_lower_types.specs.Given.{given, is_demand};

use crate::declarations::Declarations;
use crate::errors::Result;
use clu_base::{Bytes, Memory};
use clu_core::{Checked, carry};
use clu_syntax::Syntax;
use clu_types::{Actual, Demand, TypeArena, TypeId};
use clu_wir::HoleKind;
use indexmap::IndexMap;
use std::alloc::Global;

/// An own variable: its kind and number in the link table.
#[derive(Clone, Copy)]
pub struct OwnVariable {
    pub kind: HoleKind,
    pub number: u32,
    /// Whether its type is any.
    pub is_any: bool,
}

/// What stands round the statements of a routine.
#[derive(Drop)]
pub struct Fixed<'a> {
    pub alloc: Global,
    pub c: &'a Checked,
    pub syntax: &'a Syntax,
    pub declarations: &'a Declarations,
    /// The representation of the cluster round the routine.
    pub rep: Option<TypeId>,
    /// What the where clauses round the statements give of type parameters, and the arena of the types there. Of two
    /// that give the same operation the first counts.
    given: Vec<Demand>,
    pub given_types: TypeArena,
    /// For each result whether its type is any.
    pub results: Vec<bool>,
    /// For each exception of the heading, and for each of its objects, whether that one's type is any.
    pub signals: IndexMap<Bytes, Vec<bool>>,
    /// For each exception of the heading that has objects the place of the first of their types, as callers see them,
    /// in the routine's table.
    pub object_types: IndexMap<Bytes, u32>,
    /// Own variables by their declarations.
    pub owns: IndexMap<usize, OwnVariable>,
}

impl<'a> Fixed<'a> {
    /// Nothing is known yet but the file.
    pub fn new(alloc: Global, c: &'a Checked, declarations: &'a Declarations) -> Fixed<'a>
        ensures syntax { result.syntax.now ≡ c.entry.now.syntax }
        ensures file { result.c.now ≡ c.entry.now }
        ensures declarations { result.declarations.now ≡ declarations.entry.now }
        ensures rep { result.rep ≡ None }
        ensures given { result.given.items ≡ [] }
        ensures results { result.results.items ≡ [] }
    {
        Fixed {
            alloc,
            c,
            syntax: &c.syntax,
            declarations,
            rep: None,
            given: Vec::new(alloc),
            given_types: TypeArena::new(alloc),
            results: Vec::new(alloc),
            signals: IndexMap::new(alloc),
            object_types: IndexMap::new(alloc),
            owns: IndexMap::new(alloc),
        }
    }

    /// Adds what a where clause gives, after what others give, with these actuals put in, which are of the arena of
    /// what is given. Without actuals the parameters stay.
    pub fn give(&mut self, from: &TypeArena, demands: &[Demand], actuals: &[Actual]) -> Result<()>
        ensures { self.new.syntax ≡ self.old.syntax }
    {
        for demand in demands {
            let types = &mut self.given_types;
            let wanted = carry(self.alloc, types, from, demand.wanted, actuals)?;
            self.given.push(Demand {
                param: demand.param,
                op: demand.op.copy(self.alloc)?,
                wanted,
            })?;
        }
        Ok(())
    }

    /// The type of the operation of this name that a where clause gives of a type parameter.
    pub fn given(&self, param: u32, op: &Bytes) -> Option<TypeId>
        ensures { result ≡ given self.now param op.now }
    {
        match demand_of(self.given.as_slice(), param, op) {
            Some(demand) => Some(demand.wanted),
            None => None,
        }
    }

    /// For each object of a signal whether its type is any.
    pub fn signal(&self, name: &Bytes) -> &[bool] {
        match self.signals.get(name) {
            Some(objects) => objects.as_slice(),
            None => &[],
        }
    }
}

/// The first of these demands on an operation of this name of a type parameter.
fn demand_of<'a>(demands: &'a [Demand], param: u32, op: &Bytes) -> Option<&'a Demand>
    ensures { option_copied result ≡ find (is_demand param op.now) demands.now }
{
    for demand in demands {
        if is_demand(demand, param, op) {
            return Some(demand);
        }
    }
    None
}

fn is_demand(demand: &Demand, param: u32, op: &Bytes) -> bool
    ensures { result ≡ is_demand param op.now demand.now }
{
    demand.param == param && demand.op == *op
}

/// Copies of names.
pub fn copied_names(alloc: Global, names: &[Bytes]) -> Result<Vec<Bytes>, Memory>
    ensures { IfOk result (λ copies. copies.items ≡ names.now) }
{
    let mut copies = Vec::new(alloc);
    for name in names {
        copies.push(name.copy(alloc)?)?;
    }
    Ok(copies)
}
