//! What the where clauses round the body of a routine give of type parameters (CLU Reference Manual, section 12.4).

ghost use Rattle.std.specs.Prelude.{◌≡◌, IfOk, length};
ghost use Rattle.clu_syntax.specs.Parts.{equated_parts};
ghost use Rattle.clu_lower_ctl.specs.Inside.{AreNodes, IsNode};

use clu_base::Bytes;
use clu_core::intern;
use clu_lower_types::{Fixed, LowerError, Result, denoted_type};
use clu_syntax::{Equated, Restriction, Syntax};
use clu_tree::NodeKind;
use clu_types::{Actual, Demand, Form, OpSpec, ParamKind, Spec, Term, TypeArena, TypeId};
use std::alloc::Global;

/// Adds what the where clause of a cluster gives.
pub fn give_cluster(fixed: &mut Fixed, spec: &Spec) -> Result<()>
    ensures { fixed.new.syntax ≡ fixed.old.syntax }
{
    match &spec.form {
        Form::Cluster(demands, _) => fixed.give(&spec.types, demands.as_slice(), &[]),
        Form::Routine(_) => Err(LowerError::NotYet),
    }
}

/// Adds what the where clause of the routine n gives, which stands in a cluster with these parameters and this
/// specification. One that is exported has it there; of any other its text is read.
pub fn give_member(fixed: &mut Fixed, n: u32, parameters: &[u32], spec: &Spec) -> Result<()>
    requires routine { IsNode fixed.old.syntax.now NodeKind.Routine n }
    requires parameters { AreNodes fixed.old.syntax.now NodeKind.Parm parameters.now }
    ensures { fixed.new.syntax ≡ fixed.old.syntax }
{
    let routine = fixed.syntax.routine(n);
    if let Some(op) = exported(spec, routine.name) {
        return fixed.give(&spec.types, op.demands.as_slice(), &[]);
    }
    for restriction in routine.restrictions {
        give_restriction(fixed, *restriction, parameters, spec)?;
    }
    Ok(())
}

/// The operation of this name that a cluster exports, whose names ascend.
fn exported<'a>(spec: &'a Spec, name: &Bytes) -> Option<&'a OpSpec> {
    match &spec.form {
        Form::Cluster(_, ops) => operation_named(ops.as_slice(), name),
        Form::Routine(_) => None,
    }
}

fn operation_named<'a>(ops: &'a [OpSpec], name: &Bytes) -> Option<&'a OpSpec> {
    let place = ops.partition_point(|one: &OpSpec| -> bool { one.name < *name });
    let op = ops.get(place)?;
    if op.name == *name { Some(op) } else { None }
}

fn give_restriction(fixed: &mut Fixed, n: u32, parameters: &[u32], spec: &Spec) -> Result<()>
    requires restriction { IsNode fixed.old.syntax.now NodeKind.Restrict n }
    requires parameters { AreNodes fixed.old.syntax.now NodeKind.Parm parameters.now }
    ensures { fixed.new.syntax ≡ fixed.old.syntax }
{
    match fixed.syntax.restriction(n) {
        Restriction::Has { name, operations } => {
            let param = parameter_named(fixed.syntax, parameters, name)?;
            give_operations(fixed, operations, param, &[])
        }
        Restriction::In { name, .. } => {
            let param = parameter_named(fixed.syntax, parameters, name)?;
            give_set(fixed, set_named(fixed, n, 1)?, spec, param)
        }
        Restriction::InSet { name, set } => {
            let param = parameter_named(fixed.syntax, parameters, name)?;
            give_set(fixed, set, spec, param)
        }
    }
}

/// Adds what a TypeSet asks of a parameter that is in it. The types in the set name its variable as a parameter after those
/// of the module, which stay as they are; its actual is the parameter that is in the set.
fn give_set(fixed: &mut Fixed, n: u32, spec: &Spec, param: u32) -> Result<()>
    requires { IsNode fixed.old.syntax.now NodeKind.TypeSet n }
    ensures { fixed.new.syntax ≡ fixed.old.syntax }
{
    let types = &mut fixed.given_types;
    let mut actuals = own_actuals(fixed.alloc, types, spec.kinds.as_slice())?;
    actuals.push(Actual::Of(intern(types, Term::Param(param))?))?;
    give_operations(
        fixed,
        fixed.syntax.type_set(n).operations,
        param,
        actuals.as_slice(),
    )
}

/// The parameters of a module as actuals of their own.
pub fn own_actuals(
    alloc: Global,
    types: &mut TypeArena,
    kinds: &[ParamKind],
) -> Result<Vec<Actual>> {
    let mut actuals = Vec::new(alloc);
    let mut number = 0u32;
    for kind in kinds {
        number = number.saturating_add(1);
        actuals.push(match kind {
            ParamKind::OfType => Actual::Of(intern(types, Term::Param(number))?),
            _ => Actual::ConstParam(number),
        })?;
    }
    Ok(actuals)
}

/// Adds what these Opers ask of a parameter.
fn give_operations(
    fixed: &mut Fixed,
    operations: &[u32],
    param: u32,
    actuals: &[Actual],
) -> Result<()>
    requires { AreNodes fixed.old.syntax.now NodeKind.Oper operations.now }
    ensures { fixed.new.syntax ≡ fixed.old.syntax }
{
    for operation in operations {
        let typed = fixed.syntax.operation(*operation);
        let wanted = denoted_type(fixed, typed.declared)?;
        give_names(fixed, typed.names, wanted, param, actuals)?;
    }
    Ok(())
}

/// Adds that a parameter has operations of these names and this type.
fn give_names(
    fixed: &mut Fixed,
    names: &[Bytes],
    wanted: TypeId,
    param: u32,
    actuals: &[Actual],
) -> Result<()>
    ensures { fixed.new.syntax ≡ fixed.old.syntax }
{
    let mut demands = Vec::new(fixed.alloc);
    for name in names {
        demands.push(Demand {
            param,
            op: name.copy(fixed.alloc)?,
            wanted,
        })?;
    }
    let c = fixed.c;
    fixed.give(&c.types, demands.as_slice(), actuals)
}

/// The TypeSet that the k-th name of a node comes to, through no more equates than there are nodes.
fn set_named(fixed: &Fixed, n: u32, k: usize) -> Result<u32>
    ensures { IfOk result (IsNode fixed.now.syntax.now NodeKind.TypeSet) }
{
    let mut place = fixed.declarations.denoted(n, k)?;
    for _ in 0..fixed.syntax.tree().len() {
        match equated(fixed, place)? {
            Equated::Set(set) => return Ok(set),
            Equated::Constant(right) => place = fixed.declarations.denoted(right, 0)?,
        }
    }
    Err(LowerError::NotYet)
}

/// The right side of the equate that a declaration is.
fn equated(fixed: &Fixed, place: usize) -> Result<Equated>
    ensures { IfOk result (equated_parts fixed.now.syntax.now (length fixed.now.syntax.now)) }
{
    let n = fixed.declarations.node(place)?;
    let tree = fixed.syntax.tree();
    if n < tree.len() {
        if let NodeKind::Equate = tree.node(n).kind {
            return Ok(fixed.syntax.equate(n).value);
        }
    }
    Err(LowerError::NotYet)
}

/// The number of the parameter of this name among those of a cluster.
fn parameter_named(syntax: &Syntax, parameters: &[u32], name: &Bytes) -> Result<u32>
    requires { AreNodes syntax.now NodeKind.Parm parameters.now }
{
    let mut before = 0u32;
    for parameter in parameters {
        let names = syntax.parameter(*parameter).names;
        if let Some(place) = names.iter().position(|known| known == name) {
            return Ok(before.saturating_add(number(place)).saturating_add(1));
        }
        before = before.saturating_add(number(names.len()));
    }
    Err(LowerError::NotYet)
}

/// A number of parameters, of which there are fewer than bytes in a file.
fn number(count: usize) -> u32 {
    u32::try_from(count).unwrap_or(u32::MAX)
}
