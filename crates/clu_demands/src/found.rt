//! What is found by name: the exported operations of a cluster; and the actual parameters by their numbers.

ghost use Rattle.std.specs.Prelude.{◌≡◌, ◌<◌, ℕ, List, find, option_map, IfSome};
ghost use Rattle.std.specs.Option.{option_copied};
ghost use Rattle.std.specs.Str.{bytes_eq};
ghost use Rattle.clu_types.specs.Arena.{actuals_at, type_at, ActualsBelow};
ghost use Rattle.clu_types.specs.CluType.{CluType};
ghost use Rattle.clu_types.specs.Actual.{nth};
ghost use Rattle.clu_demands.specs.Meeting.{op_named, type_numbered};

use clu_base::Bytes;
use clu_types::{Actual, Form, OpSpec, TypeId};

/// The first routine of this name among the exported ones of a cluster.
pub fn op_named<'a>(form: &'a Form, name: &Bytes) -> Option<&'a OpSpec>
    ensures { option_copied result ≡ op_named form.now name.now }
{
    match form {
        Form::Cluster(_, ops) => op_among(ops.as_slice(), name),
        Form::Routine(_) => None,
    }
}

fn op_among<'a>(ops: &'a [OpSpec], name: &Bytes) -> Option<&'a OpSpec>
    ensures { option_copied result ≡ find (λ o. bytes_eq o.name name.now) ops.now }
{
    for op in ops {
        if has_name(op, name) {
            return Some(op);
        }
    }
    None
}

fn has_name(op: &OpSpec, name: &Bytes) -> bool
    ensures { result ≡ bytes_eq op.now.name name.now }
{
    op.name == *name
}

/// The type that is the actual parameter of a number, from 1.
pub fn type_actual(actuals: &[Actual], n: u32) -> Option<TypeId>
    ensures found { (types : List CluType) → option_map (type_at types) result ≡ type_numbered (actuals_at types actuals.now) n }
    ensures below { IfSome result (λ id. (m : ℕ) → ActualsBelow m actuals.now → id.0 < m) }
{
    match nth_actual(actuals, n) {
        Some(Actual::Of(id)) => Some(*id),
        Some(Actual::Const(_)) => None,
        Some(Actual::ConstParam(_)) => None,
        None => None,
    }
}

fn nth_actual(actuals: &[Actual], n: u32) -> Option<&Actual>
    ensures { option_copied result ≡ nth actuals.now n }
{
    if n == 0 {
        return None;
    }
    actuals.get(n as usize - 1)
}
