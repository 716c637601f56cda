//! Whether the types that a specification names are sound.

ghost use Rattle.std.specs.Prelude.{◌≡◌, ◌↔◌, ◌++◌, [], false, find, map, length, IfOk, OnOk, IsTrue};
ghost use Rattle.std.specs.Option.{option_copied};
ghost use Rattle.std.specs.Str.{bytes_eq};
ghost use Rattle.clu_types.specs.Arena.{types_of, Grows};
ghost use Rattle.clu_types.specs.declared.spec.Form.{Form};
ghost use Rattle.clu_specs.specs.Seen.{demand_seen};
ghost use Rattle.clu_specs.specs.Specifications.{DemandsBelow, OpBelow, OpsBelow, FormBelow, SpecHolds};
ghost use Rattle.clu_sound.specs.Sound.{IsInstanceOf, IsInstance, IsFormed, AreFormed, AreTypesMet, IsRoutineMet, AreRoutinesMet, IsFormMet, IsSound};
ghost use Rattle.clu_sound.specs.Visiting.{DemandsNothing, FormDemandsNothing, TermDemandsNothing, NothingDemanded};

use crate::parts::{add_op, add_wanted};
use crate::visiting::are_met;
use clu_base::{Bytes, Memory, Sequence};
use clu_demands::are_of_kinds;
use clu_types::{Actual, Demand, Form, OpSpec, ParamKind, Spec, Specs, Term, TypeArena, TypeId};
use indexmap::IndexSet;
use std::alloc::Global;

/// Whether each type of a cluster that the specification names is that of a kept one, with actual parameters of its kinds
/// that meet its demands. The only error is that memory runs out.
pub fn is_sound(alloc: Global, spec: &Spec, specs: &Specs) -> Result<bool, Memory>
    requires { SpecHolds spec.now }
    ensures { IfOk result (λ sound. IsTrue sound ↔ IsSound specs.now spec.now) }
{
    if are_formed(spec, specs) {
        are_demands_met(alloc, spec, specs)
    } else {
        Ok(false)
    }
}

/// The same where the types are those of kept clusters.
fn are_demands_met(alloc: Global, spec: &Spec, specs: &Specs) -> Result<bool, Memory>
    requires holds { SpecHolds spec.now }
    requires formed { AreFormed specs.now spec.now }
    ensures { IfOk result (λ met. IsTrue met ↔ IsFormMet specs.now (types_of spec.now.types) spec.now.form) }
{
    if is_any_demanding(&spec.types, specs) {
        is_copy_met(alloc, spec, specs)
    } else {
        Ok(true)
    }
}

/// Needs are asked in a copy of the arena, which grows by what they ask.
fn is_copy_met(alloc: Global, spec: &Spec, specs: &Specs) -> Result<bool, Memory>
    requires { SpecHolds spec.now }
    ensures { IfOk result (λ met. IsTrue met ↔ IsFormMet specs.now (types_of spec.now.types) spec.now.form) }
{
    let mut types = spec.types.copy(alloc)?;
    is_form_met(alloc, &spec.form, specs, &mut types)
}

/// Whether each cluster that the types of a specification name is kept, with actual parameters of its kinds.
fn are_formed(spec: &Spec, specs: &Specs) -> bool
    ensures { IsTrue result ↔ AreFormed specs.now spec.now }
{
    for n in 0..spec.types.len() {
        if !is_formed(
            spec.kinds.as_slice(),
            spec.types.view(TypeId(n as u64)),
            specs,
        ) {
            return false;
        }
    }
    true
}

/// The same of one type, in a module with parameters of these kinds.
fn is_formed(own: &[ParamKind], term: &Term, specs: &Specs) -> bool
    ensures { IsTrue result ↔ IsFormed specs.now own.now term.now }
{
    match term {
        Term::Cluster(name, actuals) => is_kept(own, name, actuals.as_slice(), specs),
        Term::Null
        | Term::Bool
        | Term::Int
        | Term::Char
        | Term::Str
        | Term::Any
        | Term::Stream
        | Term::Array(_)
        | Term::Sequence(_)
        | Term::Record(_)
        | Term::Struct(_)
        | Term::Oneof(_)
        | Term::Variant(_)
        | Term::Proc(_)
        | Term::Iter(_)
        | Term::Param(_) => true,
    }
}

fn is_kept(own: &[ParamKind], name: &Bytes, actuals: &[Actual], specs: &Specs) -> bool
    ensures { IsTrue result ↔ IsInstance own.now actuals.now (find (λ s. bytes_eq s.name name.now) specs.now) }
{
    match specs.get(name) {
        Some(spec) => is_instance(own, actuals, &spec.form, spec.kinds.as_slice()),
        None => false,
    }
}

/// Whether a module is a cluster with parameters of the kinds of these actuals.
fn is_instance(own: &[ParamKind], actuals: &[Actual], form: &Form, kinds: &[ParamKind]) -> bool
    ensures { IsTrue result ↔ IsInstanceOf own.now actuals.now form.now kinds.now }
{
    match form {
        Form::Cluster(_, _) => are_of_kinds(own, actuals, kinds),
        Form::Routine(_) => false,
    }
}

/// Whether a cluster among the types may demand something of its actual parameters.
fn is_any_demanding(types: &TypeArena, specs: &Specs) -> bool
    ensures { result ≡ false → NothingDemanded specs.now types.now }
{
    for n in 0..types.len() {
        if is_demanding(types.view(TypeId(n as u64)), specs) {
            return true;
        }
    }
    false
}

fn is_demanding(term: &Term, specs: &Specs) -> bool
    ensures { result ≡ false → TermDemandsNothing specs.now term.now }
{
    match term {
        Term::Cluster(name, _) => is_named_demanding(name, specs),
        Term::Null
        | Term::Bool
        | Term::Int
        | Term::Char
        | Term::Str
        | Term::Any
        | Term::Stream
        | Term::Array(_)
        | Term::Sequence(_)
        | Term::Record(_)
        | Term::Struct(_)
        | Term::Oneof(_)
        | Term::Variant(_)
        | Term::Proc(_)
        | Term::Iter(_)
        | Term::Param(_) => false,
    }
}

fn is_named_demanding(name: &Bytes, specs: &Specs) -> bool
    ensures { result ≡ false → DemandsNothing (find (λ s. bytes_eq s.name name.now) specs.now) }
{
    match specs.get(name) {
        Some(spec) => has_demands(&spec.form),
        None => false,
    }
}

fn has_demands(form: &Form) -> bool
    ensures { result ≡ false → FormDemandsNothing form.now }
{
    match form {
        Form::Cluster(demands, _) => are_any(demands.as_slice()),
        Form::Routine(_) => false,
    }
}

fn are_any(demands: &[Demand]) -> bool
    ensures { result ≡ false → demands.now ≡ [] }
{
    match demands {
        [] => false,
        [_, ..] => true,
    }
}

/// Whether the types of a module meet what is demanded of them.
fn is_form_met(
    alloc: Global,
    form: &Form,
    specs: &Specs,
    types: &mut TypeArena,
) -> Result<bool, Memory>
    requires { FormBelow (length types.old) form.now }
    ensures { IfOk result (λ met. IsTrue met ↔ IsFormMet specs.now (types_of types.old) form.now) }
{
    match form {
        Form::Routine(op) => { is_routine_met(alloc, op, op.demands.as_slice(), specs, types) }
        Form::Cluster(demands, ops) => {
            is_cluster_met(alloc, demands.as_slice(), ops.as_slice(), specs, types)
        }
    }
}

fn is_cluster_met(
    alloc: Global,
    demands: &[Demand],
    ops: &[OpSpec],
    specs: &Specs,
    types: &mut TypeArena,
) -> Result<bool, Memory>
    requires demands_in { DemandsBelow (length types.old) demands.now }
    requires ops_in { OpsBelow (length types.old) ops.now }
    ensures { IfOk result (λ met. IsTrue met ↔ IsFormMet specs.now (types_of types.old) (Form.Cluster demands.now ops.now)) }
{
    let are_own_met = are_wanted_met(alloc, demands, specs, types)?;
    if are_own_met {
        are_routines_met(alloc, demands, ops, specs, types)
    } else {
        Ok(false)
    }
}

/// Whether the types that a cluster demands meet what is demanded of them.
fn are_wanted_met(
    alloc: Global,
    demands: &[Demand],
    specs: &Specs,
    types: &mut TypeArena,
) -> Result<bool, Memory>
    requires demands_in { DemandsBelow (length types.old) demands.now }
    ensures met { IfOk result (λ met. IsTrue met ↔ AreTypesMet (map (demand_seen (types_of types.old)) demands.now) specs.now (map (demand_seen (types_of types.old)) demands.now)) }
    ensures kept { Grows types.old types.new }
{
    let mut ids = IndexSet::new(alloc);
    are_wanted_met_in(alloc, &mut ids, demands, specs, types)
}

fn are_wanted_met_in(
    alloc: Global,
    ids: &mut IndexSet<TypeId>,
    demands: &[Demand],
    specs: &Specs,
    types: &mut TypeArena,
) -> Result<bool, Memory>
    requires none { ids.old.keys ≡ [] }
    requires demands_in { DemandsBelow (length types.old) demands.now }
    ensures met { IfOk result (λ met. IsTrue met ↔ AreTypesMet (map (demand_seen (types_of types.old)) demands.now) specs.now (map (demand_seen (types_of types.old)) demands.now)) }
    ensures kept { Grows types.old types.new }
{
    add_wanted(ids, demands)?;
    are_met(alloc, ids, demands, specs, types)
}

/// Whether the types of a cluster's operations meet what is demanded of them.
fn are_routines_met(
    alloc: Global,
    demands: &[Demand],
    ops: &[OpSpec],
    specs: &Specs,
    types: &mut TypeArena,
) -> Result<bool, Memory>
    requires demands_in { DemandsBelow (length types.old) demands.now }
    requires ops_in { OpsBelow (length types.old) ops.now }
    ensures met { IfOk result (λ met. IsTrue met ↔ AreRoutinesMet specs.now (types_of types.old) demands.now ops.now) }
    ensures kept { Grows types.old types.new }
{
    for op in ops {
        let is_one_met = is_op_met(alloc, op, demands, specs, types)?;
        if !is_one_met {
            return Ok(false);
        }
    }
    Ok(true)
}

fn is_op_met(
    alloc: Global,
    op: &OpSpec,
    demands: &[Demand],
    specs: &Specs,
    types: &mut TypeArena,
) -> Result<bool, Memory>
    requires op_in { OpBelow (length types.old) op.now }
    requires demands_in { DemandsBelow (length types.old) demands.now }
    ensures met { IfOk result (λ met. IsTrue met ↔ IsRoutineMet specs.now (types_of types.old) (op.now.demands ++ demands.now) op.now) }
    ensures kept { Grows types.old types.new }
{
    let given = given_in(alloc, op, demands)?;
    is_given_met(alloc, op, &given, specs, types)
}

fn is_given_met(
    alloc: Global,
    op: &OpSpec,
    given: &Sequence<Demand>,
    specs: &Specs,
    types: &mut TypeArena,
) -> Result<bool, Memory>
    requires op_in { OpBelow (length types.old) op.now }
    requires given_in { DemandsBelow (length types.old) given.now }
    ensures met { IfOk result (λ met. IsTrue met ↔ IsRoutineMet specs.now (types_of types.old) given.now op.now) }
    ensures kept { Grows types.old types.new }
{
    is_routine_met(alloc, op, given.as_slice(), specs, types)
}

/// What is given in an operation of a cluster: its own demands before those of the cluster.
fn given_in(alloc: Global, op: &OpSpec, demands: &[Demand]) -> Result<Sequence<Demand>, Memory>
    ensures { IfOk result (λ given. given ≡ op.now.demands ++ demands.now) }
{
    let mut given = Vec::new(alloc);
    add_copies(alloc, &mut given, op.demands.as_slice())?;
    add_copies(alloc, &mut given, demands)?;
    Ok(Sequence::from_vec(given))
}

fn add_copies(alloc: Global, given: &mut Vec<Demand>, demands: &[Demand]) -> Result<(), Memory>
    ensures { OnOk result (given.new.items ≡ given.old.items ++ demands.now) }
{
    for demand in demands {
        given.push(demand.copy(alloc)?)?;
    }
    Ok(())
}

/// Whether the types of a routine meet what is demanded of them, if this is given.
fn is_routine_met(
    alloc: Global,
    op: &OpSpec,
    given: &[Demand],
    specs: &Specs,
    types: &mut TypeArena,
) -> Result<bool, Memory>
    requires op_in { OpBelow (length types.old) op.now }
    requires given_in { DemandsBelow (length types.old) given.now }
    ensures met { IfOk result (λ met. IsTrue met ↔ IsRoutineMet specs.now (types_of types.old) given.now op.now) }
    ensures kept { Grows types.old types.new }
{
    let mut ids = IndexSet::new(alloc);
    is_routine_met_in(alloc, &mut ids, op, given, specs, types)
}

fn is_routine_met_in(
    alloc: Global,
    ids: &mut IndexSet<TypeId>,
    op: &OpSpec,
    given: &[Demand],
    specs: &Specs,
    types: &mut TypeArena,
) -> Result<bool, Memory>
    requires none { ids.old.keys ≡ [] }
    requires op_in { OpBelow (length types.old) op.now }
    requires given_in { DemandsBelow (length types.old) given.now }
    ensures met { IfOk result (λ met. IsTrue met ↔ IsRoutineMet specs.now (types_of types.old) given.now op.now) }
    ensures kept { Grows types.old types.new }
{
    add_op(ids, op)?;
    are_met(alloc, ids, given, specs, types)
}
