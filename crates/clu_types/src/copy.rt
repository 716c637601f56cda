//! Equal copies of terms, of the parts of a specification and of an arena. The only error of each copy is
//! that memory runs out. A term is copied as one whose parts keep their numbers.

ghost use Rattle.std.specs.Prelude.{◌≡◌, IfOk};

use crate::TypeArena;
use crate::numbering::Numbering;
use crate::renumbered::{heading, renumbered, signal};
use crate::spec::{Demand, Form, OpSpec, Spec};
use crate::term::{Actual, Exception, Field, Heading, Term};
use clu_base::{Memory, Sequence};
use std::alloc::Global;

fn copy_demands(alloc: Global, demands: &[Demand]) -> Result<Sequence<Demand>, Memory>
    ensures { IfOk result (λ copied. copied ≡ demands.now) }
{
    let mut copied = Vec::new(alloc);
    for demand in demands {
        copied.push(demand.copy(alloc)?)?;
    }
    Ok(Sequence::from_vec(copied))
}

fn copy_ops(alloc: Global, ops: &[OpSpec]) -> Result<Sequence<OpSpec>, Memory>
    ensures { IfOk result (λ copied. copied ≡ ops.now) }
{
    let mut copied = Vec::new(alloc);
    for op in ops {
        copied.push(op.copy(alloc)?)?;
    }
    Ok(Sequence::from_vec(copied))
}

impl Field {
    /// An equal field of its own.
    pub fn copy(&self, alloc: Global) -> Result<Field, Memory>
        ensures { IfOk result (λ copied. copied ≡ self.now) }
    {
        Ok(Field {
            name: self.name.copy(alloc)?,
            of: self.of,
        })
    }
}

impl Exception {
    /// An equal exception of its own.
    pub fn copy(&self, alloc: Global) -> Result<Exception, Memory>
        ensures { IfOk result (λ copied. copied ≡ self.now) }
    {
        signal(alloc, &Numbering::new(alloc), self)
    }
}

impl Heading {
    /// An equal heading of its own.
    pub fn copy(&self, alloc: Global) -> Result<Heading, Memory>
        ensures { IfOk result (λ copied. copied ≡ self.now) }
    {
        heading(alloc, &Numbering::new(alloc), self)
    }
}

impl Actual {
    /// An equal actual of its own.
    pub fn copy(&self, alloc: Global) -> Result<Actual, Memory>
        ensures { IfOk result (λ copied. copied ≡ self.now) }
    {
        match self {
            Actual::Of(id) => Ok(Actual::Of(*id)),
            Actual::Const(c) => Ok(Actual::Const(c.copy(alloc)?)),
            Actual::ConstParam(n) => Ok(Actual::ConstParam(*n)),
        }
    }
}

impl Term {
    /// An equal term of its own.
    pub fn copy(&self, alloc: Global) -> Result<Term, Memory>
        ensures { IfOk result (λ copied. copied ≡ self.now) }
    {
        renumbered(alloc, &Numbering::new(alloc), &[], self)
    }
}

impl TypeArena {
    /// An equal arena of its own: each type has the number that it has here.
    pub fn copy(&self, alloc: Global) -> Result<TypeArena, Memory>
        ensures { IfOk result (λ copied. copied ≡ self.now) }
    {
        let mut copied = TypeArena::new(alloc);
        let terms = self.terms.as_slice();
        for term in terms {
            copied.intern(term.copy(alloc)?)?;
        }
        Ok(copied)
    }
}

impl Demand {
    /// An equal demand of its own.
    pub fn copy(&self, alloc: Global) -> Result<Demand, Memory>
        ensures { IfOk result (λ copied. copied ≡ self.now) }
    {
        Ok(Demand {
            param: self.param,
            op: self.op.copy(alloc)?,
            wanted: self.wanted,
        })
    }
}

impl OpSpec {
    /// An equal operation of its own.
    pub fn copy(&self, alloc: Global) -> Result<OpSpec, Memory>
        ensures { IfOk result (λ copied. copied ≡ self.now) }
    {
        Ok(OpSpec {
            name: self.name.copy(alloc)?,
            iter: self.iter,
            heading: self.heading.copy(alloc)?,
            demands: copy_demands(alloc, self.demands.as_slice())?,
        })
    }
}

impl Form {
    /// An equal form of its own.
    pub fn copy(&self, alloc: Global) -> Result<Form, Memory>
        ensures { IfOk result (λ copied. copied ≡ self.now) }
    {
        match self {
            Form::Routine(op) => Ok(Form::Routine(op.copy(alloc)?)),
            Form::Cluster(demands, ops) => Ok(Form::Cluster(
                copy_demands(alloc, demands.as_slice())?,
                copy_ops(alloc, ops.as_slice())?,
            )),
        }
    }
}

impl Spec {
    /// An equal specification of its own.
    pub fn copy(&self, alloc: Global) -> Result<Spec, Memory>
        ensures { IfOk result (λ copied. copied ≡ self.now) }
    {
        Ok(Spec {
            name: self.name.copy(alloc)?,
            kinds: Sequence::from_vec(self.kinds.as_slice().to_vec(alloc)?),
            types: self.types.copy(alloc)?,
            form: self.form.copy(alloc)?,
        })
    }
}
