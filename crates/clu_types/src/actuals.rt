//! What a parameter becomes where actual parameters are put in. Parameters are numbered from 1.

ghost use Rattle.std.specs.Prelude.{◌≡◌, ℕ, ◌<◌, List, IfOk, IfSome, MatchOption};
ghost use Rattle.std.specs.Option.{option_copied};
ghost use Rattle.clu_types.specs.CluType.{CluType, parameter};
ghost use Rattle.clu_types.specs.Arena.{type_at, actuals_at, ActualsBelow};
ghost use Rattle.clu_types.specs.Substituted.{type_put};
ghost use Rattle.clu_types.specs.Actual.{nth};
ghost use Rattle.clu_types.specs.Renumbered.{constant_by};

use crate::term::{Actual, TypeId};
use clu_base::Memory;
use std::alloc::Global;

/// The n-th actual.
fn nth_actual(actuals: &[Actual], n: u32) -> Option<&Actual>
    ensures { option_copied result ≡ nth actuals.now n }
{
    if n == 0 {
        return None;
    }
    actuals.get(n as usize - 1)
}

/// The type that is put in for the n-th parameter, if the n-th actual is one.
pub fn type_actual(actuals: &[Actual], n: u32) -> Option<TypeId>
    ensures put { MatchOption result ((types : List CluType) → type_put (actuals_at types actuals.now) n ≡ parameter n) (λ id. (types : List CluType) → type_put (actuals_at types actuals.now) n ≡ type_at types id) }
    ensures below { IfSome result (λ id. (m : ℕ) → ActualsBelow m actuals.now → id.0 < m) }
{
    match nth_actual(actuals, n) {
        Some(Actual::Of(id)) => Some(*id),
        Some(Actual::Const(_)) => None,
        Some(Actual::ConstParam(_)) => None,
        None => None,
    }
}

/// The constant or constant parameter that is put in for the constant parameter n, or n itself.
pub fn constant_actual(alloc: Global, actuals: &[Actual], n: u32) -> Result<Actual, Memory>
    ensures { IfOk result (λ made. made ≡ constant_by (nth actuals.now n) n) }
{
    match nth_actual(actuals, n) {
        Some(Actual::Const(c)) => Ok(Actual::Const(c.copy(alloc)?)),
        Some(Actual::ConstParam(p)) => Ok(Actual::ConstParam(*p)),
        Some(Actual::Of(_)) => Ok(Actual::ConstParam(n)),
        None => Ok(Actual::ConstParam(n)),
    }
}
