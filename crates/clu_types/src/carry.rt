//! Types with actual parameters put in for their parameters, within an arena and from one to another.
//! Going down from the type, what it is made of gets entries in a table; going up, each of these types is made once, over
//! the numbers of its parts. So the cost is that of the type, however large the arenas are.

ghost use Rattle.std.specs.Prelude.{◌≡◌, ℕ, ◌<◌, List, length, IfOk, IfSome, MatchOption, OnOk};
ghost use Rattle.clu_types.specs.CluType.{CluType};
ghost use Rattle.clu_types.specs.Arena.{type_at, type_of, actuals_at, types_of, ActualsBelow, Grows};
ghost use Rattle.clu_types.specs.Substituted.{substituted};
ghost use Rattle.clu_types.specs.Numbering.{numbers_of};
ghost use Rattle.clu_types.specs.Carried.{AreNeeded, AreSpread, ArePartsMade, Stays};

use crate::TypeArena;
use crate::actuals::type_actual;
use crate::components::parts_of;
use crate::numbering::Numbering;
use crate::renumbered::renumbered;
use crate::term::{Actual, Term, TypeId};
use clu_base::Memory;
use std::alloc::Global;

impl TypeArena {
    /// The type with the actuals put in for its parameters. A parameter that has no actual of its kind stays.
    /// After `Memory` the arena may have grown.
    pub fn subst(&mut self, alloc: Global, t: TypeId, actuals: &[Actual]) -> Result<TypeId, Memory>
        requires t_in { t.0 < length self.old }
        requires actuals_in { ActualsBelow (length self.old) actuals.now }
        ensures of_type { IfOk result (λ id. type_at (types_of self.new) id ≡ substituted (actuals_at (types_of self.old) actuals.now) (type_at (types_of self.old) t)) }
        ensures within { IfOk result (λ id. id.0 < length self.new) }
        ensures kept { Grows self.old self.new }
    {
        let mut apart = TypeArena::new(alloc);
        let copied = apart.carry(alloc, self, t, &[])?;
        self.carry(alloc, &apart, copied, actuals)
    }

    /// The type that `t` has in the other arena, in this one, with actuals of this one put in for its parameters.
    /// A parameter that has no actual of its kind stays. After `Memory` this arena may have grown.
    pub fn carry(
        &mut self,
        alloc: Global,
        from: &TypeArena,
        t: TypeId,
        actuals: &[Actual],
    ) -> Result<TypeId, Memory>
        requires t_in { t.0 < length from.now }
        requires actuals_in { ActualsBelow (length self.old) actuals.now }
        ensures of_type { IfOk result (λ id. type_at (types_of self.new) id ≡ substituted (actuals_at (types_of self.old) actuals.now) (type_at (types_of from.now) t)) }
        ensures within { IfOk result (λ id. id.0 < length self.new) }
        ensures kept { Grows self.old self.new }
    {
        let mut table = from.needed(alloc, t)?;
        self.make_needed(alloc, from, t, &mut table, actuals)?;
        self.make(alloc, from, t, &table, actuals)
    }

    /// A table with an entry for each type of which `t` is made, itself left out.
    fn needed(&self, alloc: Global, t: TypeId) -> Result<Numbering, Memory>
        requires { t.0 < length self.now }
        ensures { IfOk result (λ table. AreNeeded self.now t.0 (numbers_of table)) }
    {
        let mut table = Numbering::new(alloc);
        self.need_parts(alloc, t, &mut table)?;
        let mut least = t.0;
        'types: while let Some(n) = table.last_below(least) {
            self.need_parts(alloc, TypeId(n), &mut table)?;
            least = n;
        }
        Ok(table)
    }

    /// Gives the parts of a type entries.
    fn need_parts(&self, alloc: Global, n: TypeId, table: &mut Numbering) -> Result<(), Memory>
        requires { n.0 < length self.now }
        ensures { OnOk result (AreSpread self.now n.0 (numbers_of table.old) (numbers_of table.new)) }
    {
        let parts = parts_of(alloc, self.view(n))?;
        table.need(parts.as_slice())
    }

    /// Makes each type of the other arena that has an entry, of which `t` is made, and puts its number here.
    fn make_needed(
        &mut self,
        alloc: Global,
        from: &TypeArena,
        t: TypeId,
        table: &mut Numbering,
        actuals: &[Actual],
    ) -> Result<(), Memory>
        requires t_in { t.0 < length from.now }
        requires needed { AreNeeded from.now t.0 (numbers_of table.old) }
        requires actuals_in { ActualsBelow (length self.old) actuals.now }
        ensures made { OnOk result (ArePartsMade from.now actuals.now self.new (numbers_of table.new) t.0) }
        ensures kept { Grows self.old self.new }
    {
        let mut next = 0;
        'types: while let Some(n) = table.first_from(next) {
            let made = self.make(alloc, from, TypeId(n), table, actuals)?;
            table.put(n, made)?;
            next = n + 1;
        }
        Ok(())
    }

    /// The number here of a type of the other arena, over the numbers of its parts.
    fn make(
        &mut self,
        alloc: Global,
        from: &TypeArena,
        n: TypeId,
        table: &Numbering,
        actuals: &[Actual],
    ) -> Result<TypeId, Memory>
        requires n_in { n.0 < length from.now }
        requires actuals_in { ActualsBelow (length self.old) actuals.now }
        requires parts { ArePartsMade from.now actuals.now self.old (numbers_of table.now) n.0 }
        ensures of_type { IfOk result (λ id. type_at (types_of self.new) id ≡ substituted (actuals_at (types_of self.old) actuals.now) (type_at (types_of from.now) n)) }
        ensures within { IfOk result (λ id. id.0 < length self.new) }
        ensures kept { Grows self.old self.new }
    {
        let term = from.view(n);
        match put_in(term, actuals) {
            Some(id) => Ok(id),
            None => self.intern(renumbered(alloc, table, actuals, term)?),
        }
    }
}

/// The actual that is put in for the whole term, if it is a parameter that has one of its kind.
fn put_in(term: &Term, actuals: &[Actual]) -> Option<TypeId>
    ensures put { MatchOption result (Stays actuals.now term.now) (λ id. (types source : List CluType) → type_at types id ≡ substituted (actuals_at types actuals.now) (type_of source term.now)) }
    ensures below { IfSome result (λ id. (m : ℕ) → ActualsBelow m actuals.now → id.0 < m) }
{
    match term {
        Term::Param(n) => type_actual(actuals, *n),
        _ => None,
    }
}
