//! A parameter put in the place of the variable of a type set.

ghost use Rattle.std.specs.Prelude.{◌≡◌, ◌<◌, ◌≤◌, length, set, IfOk, OnOk};
ghost use Rattle.clu_types.specs.Arena.{type_at, types_of, actuals_at, Grows};
ghost use Rattle.clu_types.specs.Substituted.{substituted};
ghost use Rattle.clu_types.specs.declared.term.Actual.TheVariants as actual;
ghost use Rattle.clu_head.specs.Unchanged.{AreUnchanged};
ghost use Rattle.clu_head.specs.Wanted.{IsPutIn, IsPut};

use crate::known::number_at;
use clu_base::Memory;
use clu_types::{Actual, Term, TypeArena, TypeId};
use std::alloc::Global;
use std::marker::Model;

/// Actual parameters by which nothing is changed: each is the constant parameter of its own number, and a constant changes no
/// type.
#[derive(Drop)]
pub struct Unchanged {
    actuals: Vec<Actual>,
}

impl Model for Unchanged {
    ghost use Rattle.std.specs.Prelude.{List};
    ghost use Rattle.clu_types.specs.declared.term.Actual.{Actual};
    ghost use Rattle.clu_head.specs.Unchanged.{AreUnchanged};

    ghost Value = { List Actual };

    ghost view = { λ u. u.actuals.items };

    ghost invariant = { λ u. AreUnchanged 0 u.actuals.items };
}

/// The type with another one put in for the parameter at a place. The actual parameters are as before.
fn put_at(
    alloc: Global,
    types: &mut TypeArena,
    actuals: &mut [Actual],
    at: usize,
    of: TypeId,
    t: TypeId,
) -> Result<TypeId, Memory>
    requires at_in { at < length actuals.old }
    requires numbered { at < 4294967295 }
    requires unchanged { AreUnchanged 0 actuals.old }
    requires of_in { of.0 < length types.old }
    requires t_in { t.0 < length types.old }
    ensures unchanged { AreUnchanged 0 actuals.new }
    ensures of_type { IfOk result (λ id. type_at (types_of types.new) id ≡ substituted (actuals_at (types_of types.old) (set actuals.old at (actual.Of of))) (type_at (types_of types.old) t)) }
    ensures within { IfOk result (λ id. id.0 < length types.new) }
    ensures kept { Grows types.old types.new }
{
    actuals[at] = Actual::Of(of);
    let made = types.subst(alloc, t, actuals);
    actuals[at] = Actual::ConstParam(number_at(at));
    made
}

/// Makes them at least so many.
fn fill(actuals: &mut Vec<Actual>, many: u32) -> Result<(), Memory>
    requires { AreUnchanged 0 actuals.old.items }
    ensures unchanged { AreUnchanged 0 actuals.new.items }
    ensures many { OnOk result (many ≤ length actuals.new.items) }
{
    for at in actuals.len()..many as usize {
        actuals.push(Actual::ConstParam(number_at(at)))?;
    }
    Ok(())
}

impl Unchanged {
    pub fn new(alloc: Global) -> Unchanged {
        Unchanged {
            actuals: Vec::new(alloc),
        }
    }

    /// The same, of a parameter and a type that are there.
    fn put_there(
        &mut self,
        alloc: Global,
        types: &mut TypeArena,
        variable: u32,
        parameter: u32,
        t: TypeId,
    ) -> Result<TypeId, Memory>
        requires first { 0 < variable }
        requires t_in { t.0 < length types.old }
        ensures put { IfOk result (IsPutIn types.new variable parameter t) }
        ensures kept { Grows types.old types.new }
    {
        fill(&mut self.actuals, variable)?;
        let of = types.intern(Term::Param(parameter))?;
        let at = variable as usize - 1;
        let made = put_at(alloc, types, &mut self.actuals, at, of, t)?;
        Ok(made)
    }

    /// The type with the parameter `parameter` put in for the parameter `variable`; None if there is no such parameter or type.
    #[tactic(auto, unfolding(crate::specs::Wanted::IsPut))]
    pub fn put(
        &mut self,
        alloc: Global,
        types: &mut TypeArena,
        variable: u32,
        parameter: u32,
        t: TypeId,
    ) -> Result<Option<TypeId>, Memory>
        ensures put { IfOk result (IsPut types.old types.new variable parameter t) }
        ensures kept { Grows types.old types.new }
    {
        if variable == 0 {
            Ok(None)
        } else if types.contains(t) {
            Ok(Some(self.put_there(alloc, types, variable, parameter, t)?))
        } else {
            Ok(None)
        }
    }
}
