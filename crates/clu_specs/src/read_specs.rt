//! Specifications, read from their texts.

ghost use Rattle.std.specs.Prelude.{◌≡◌, ◌<◌, ◌==◌, [], length, map, if◌then◌else◌, IfOk, IfErr, Ok};
ghost use Rattle.std.specs.Option.{option_copied};
ghost use Rattle.clu_types.specs.Arena.{types_of, Grows};
ghost use Rattle.clu_specs.specs.Reading.{Gives};
ghost use Rattle.clu_specs.specs.TypeReading.{type_read};
ghost use Rattle.clu_specs.specs.Seen.{Specification, spec_text, seen, demand_seen, op_seen, form_seen};
ghost use Rattle.clu_specs.specs.Offsets.{BeginsSpec, SoFar, NoFurther};
ghost use Rattle.clu_specs.specs.Grammar.{IsSpecification};
ghost use Rattle.clu_specs.specs.SpecReading.{routine_word_read, least_behind, asked_read, next_demand, demand_read, demands_read, all_demands_read, operation_read, operation_word_read, next_operation, named_operation_read, operations_read, cluster_form_read, last_operation_read, last_form_read, routine_over, routine_read, cluster_over, cluster_read, whole_spec};
ghost use Rattle.clu_specs.specs.Specifications.{DemandsBelow, OpBelow, OpsBelow, FormBelow, SpecHolds};

use crate::marks::{at_offset, begins_with, behind, end, fault, literal};
use crate::names::{LONGEST, has_later, name_after};
use crate::read_headings::heading_at;
use crate::read_kinds::parameters_at;
use crate::read_types::type_at;
use crate::scope::{Scope, Sort, scope_of};
use clu_base::{Bytes, FormatError, Sequence};
use clu_types::{Demand, Form, OpSpec, ParamKind, Spec, TypeArena};
use std::alloc::Global;

/// Reads the text of a specification: exactly the texts of the grammar in docs/formats.md. `Bad` has the length of
/// the longest front that begins some specification's text.
pub fn read_spec(alloc: Global, b: &[u8]) -> Result<Spec, FormatError>
    ensures spelled { IfOk result (λ spec. b.now ≡ spec_text (seen spec)) }
    ensures grammar { IfOk result (λ spec. IsSpecification (seen spec)) }
    ensures complete { (s : Specification) → IsSpecification s → b.now ≡ spec_text s → Gives seen result (Ok s) }
    ensures so_far { IfErr result (SoFar BeginsSpec b.now) }
    ensures no_further { IfErr result (NoFurther BeginsSpec b.now) }
    ensures within { IfOk result SpecHolds }
{
    match whole_spec(alloc, b) {
        Ok(spec) => Ok(spec),
        Err(error) => Err(at_offset(b, error)),
    }
}

#[tactic(auto, unfolding(crate::specs::SpecReading::whole_spec))]
fn whole_spec(alloc: Global, b: &[u8]) -> Result<Spec, FormatError>
    ensures reads { Gives seen result (whole_spec b.now) }
    ensures within { IfOk result SpecHolds }
{
    let (name, rest) = name_after(&[], LONGEST, b)?;
    if name == b"stream".as_slice() {
        return Err(fault(rest));
    }
    let rest = literal(b"=", rest)?;
    if begins_with(b'c', rest) {
        cluster_at(alloc, name, rest, b.len())
    } else {
        routine_at(alloc, name, rest, b.len())
    }
}

/// The specification of a routine, after `=`, up to the end.
#[tactic(auto, unfolding(crate::specs::SpecReading::routine_read))]
fn routine_at(alloc: Global, name: &[u8], bytes: &[u8], depth: usize) -> Result<Spec, FormatError>
    ensures reads { Gives seen result (routine_read name.now depth bytes.now) }
    ensures within { IfOk result SpecHolds }
{
    let (iter, rest) = routine_word(bytes)?;
    let (kinds, rest) = parameters_at(alloc, rest)?;
    routine_over(alloc, name, iter, kinds, rest, depth)
}

/// The specification of a routine with these parameters, after them, up to the end.
fn routine_over(
    alloc: Global,
    name: &[u8],
    iter: bool,
    kinds: Vec<ParamKind>,
    bytes: &[u8],
    depth: usize,
) -> Result<Spec, FormatError>
    ensures reads { Gives seen result (routine_over name.now iter kinds.items depth bytes.now) }
    ensures within { IfOk result SpecHolds }
{
    let scope = scope_of(kinds);
    let name_of_spec = Bytes::from_slice(alloc, name)?;
    let mut types = TypeArena::new(alloc);
    let op = last_operation_at(alloc, &mut types, &scope, name, iter, bytes, depth)?;
    Ok(Spec {
        name: name_of_spec,
        kinds: scope.kinds,
        types,
        form: Form::Routine(op),
    })
}

/// A routine after its parameters, up to the end.
#[tactic(auto, unfolding(crate::specs::SpecReading::last_operation_read))]
fn last_operation_at(
    alloc: Global,
    types: &mut TypeArena,
    scope: &Scope,
    name: &[u8],
    iter: bool,
    bytes: &[u8],
    depth: usize,
) -> Result<OpSpec, FormatError>
    ensures reads { Gives (λ op. op_seen (types_of types.new) op) result (last_operation_read scope.now (type_read scope.now depth) name.now iter bytes.now) }
    ensures within { IfOk result (λ op. OpBelow (length types.new) op) }
{
    let (op, rest) = operation_at(alloc, types, scope, name, iter, bytes, depth)?;
    end(rest)?;
    Ok(op)
}

/// The specification of a cluster, after `=`, up to the end.
#[tactic(auto, unfolding(crate::specs::SpecReading::cluster_read))]
fn cluster_at(alloc: Global, name: &[u8], bytes: &[u8], depth: usize) -> Result<Spec, FormatError>
    ensures reads { Gives seen result (cluster_read name.now depth bytes.now) }
    ensures within { IfOk result SpecHolds }
{
    let rest = literal(b"cluster", bytes)?;
    let (kinds, rest) = parameters_at(alloc, rest)?;
    cluster_over(alloc, name, kinds, rest, depth)
}

/// The specification of a cluster with these parameters, after them, up to the end.
fn cluster_over(
    alloc: Global,
    name: &[u8],
    kinds: Vec<ParamKind>,
    bytes: &[u8],
    depth: usize,
) -> Result<Spec, FormatError>
    ensures reads { Gives seen result (cluster_over name.now kinds.items depth bytes.now) }
    ensures within { IfOk result SpecHolds }
{
    let scope = scope_of(kinds);
    let name = Bytes::from_slice(alloc, name)?;
    let mut types = TypeArena::new(alloc);
    let form = last_form_at(alloc, &mut types, &scope, bytes, depth)?;
    Ok(Spec {
        name,
        kinds: scope.kinds,
        types,
        form,
    })
}

/// The demands and operations of a cluster, up to the end.
#[tactic(auto, unfolding(crate::specs::SpecReading::last_form_read))]
fn last_form_at(
    alloc: Global,
    types: &mut TypeArena,
    scope: &Scope,
    bytes: &[u8],
    depth: usize,
) -> Result<Form, FormatError>
    ensures reads { Gives (λ form. form_seen (types_of types.new) form) result (last_form_read scope.now (type_read scope.now depth) bytes.now) }
    ensures within { IfOk result (λ form. FormBelow (length types.new) form) }
{
    let (form, rest) = cluster_form_at(alloc, types, scope, bytes, depth)?;
    end(rest)?;
    Ok(form)
}

/// The demands and operations of a cluster.
#[tactic(auto, unfolding(crate::specs::SpecReading::cluster_form_read))]
fn cluster_form_at<'a>(
    alloc: Global,
    types: &mut TypeArena,
    scope: &Scope,
    bytes: &'a [u8],
    depth: usize,
) -> Result<(Form, &'a [u8]), FormatError>
    ensures reads { Gives (λ x. (form_seen (types_of types.new) x.0, x.1.now)) result (cluster_form_read scope.now (type_read scope.now depth) bytes.now) }
    ensures within { IfOk result (λ x. FormBelow (length types.new) x.0) }
    ensures kept { Grows types.old types.new }
{
    let (demands, rest) = all_demands_at(alloc, types, scope, bytes, depth)?;
    let rest = literal(b"is", rest)?;
    let (ops, rest) = operations_at(alloc, types, scope, rest, depth)?;
    Ok((Form::Cluster(demands, ops), rest))
}

/// `proc` or `iter`, and whether it is the second.
#[tactic(auto, unfolding(crate::specs::SpecReading::routine_word_read))]
fn routine_word(bytes: &[u8]) -> Result<(bool, &[u8]), FormatError>
    ensures { Gives (λ x. (x.0, x.1.now)) result (routine_word_read bytes.now) }
{
    if begins_with(b'i', bytes) {
        Ok((true, literal(b"iter", bytes)?))
    } else {
        Ok((false, literal(b"proc", bytes)?))
    }
}

/// What a where clause demands, or nothing.
#[tactic(auto, unfolding(crate::specs::SpecReading::all_demands_read))]
fn all_demands_at<'a>(
    alloc: Global,
    types: &mut TypeArena,
    scope: &Scope,
    bytes: &'a [u8],
    depth: usize,
) -> Result<(Sequence<Demand>, &'a [u8]), FormatError>
    ensures reads { Gives (λ x. (map (demand_seen (types_of types.new)) x.0, x.1.now)) result (all_demands_read scope.now (type_read scope.now depth) bytes.now) }
    ensures within { IfOk result (λ x. DemandsBelow (length types.new) x.0) }
    ensures kept { Grows types.old types.new }
{
    if !begins_with(b' ', bytes) || !scope.has_from(Sort::Type, 1) {
        return Ok((Sequence::from_vec(Vec::new(alloc)), bytes));
    }
    let rest = literal(b" where ", bytes)?;
    let (demands, rest) = demands_at(alloc, types, scope, rest, depth)?;
    let rest = literal(b" ", rest)?;
    Ok((demands, rest))
}

/// Demands in ascending order of parameters and then names, with commas between them.
#[tactic(auto, unfolding(crate::specs::SpecReading::demands_read))]
fn demands_at<'a>(
    alloc: Global,
    types: &mut TypeArena,
    scope: &Scope,
    bytes: &'a [u8],
    depth: usize,
) -> Result<(Sequence<Demand>, &'a [u8]), FormatError>
    ensures reads { Gives (λ x. (map (demand_seen (types_of types.new)) x.0, x.1.now)) result (demands_read scope.now (type_read scope.now depth) bytes.now) }
    ensures within { IfOk result (λ x. DemandsBelow (length types.new) x.0) }
    ensures kept { Grows types.old types.new }
{
    let mut made = Vec::new(alloc);
    let mut param = 0;
    let mut previous: &[u8] = &[];
    let mut rest = bytes;
    for _ in 0..bytes.len() {
        let (demand, name, after) = demand_at(alloc, types, scope, param, previous, rest, depth)?;
        let asked = demand.param;
        made.push(demand)?;
        match next_demand(scope, asked, name, after) {
            Some(next) => rest = next,
            None => return Ok((Sequence::from_vec(made), after)),
        }
        param = asked;
        previous = name;
    }
    Err(fault(rest))
}

/// A demand after that of `param` and `previous`, its name, and what follows.
#[tactic(auto, unfolding(crate::specs::SpecReading::demand_read))]
fn demand_at<'a>(
    alloc: Global,
    types: &mut TypeArena,
    scope: &Scope,
    param: u32,
    previous: &[u8],
    bytes: &'a [u8],
    depth: usize,
) -> Result<(Demand, &'a [u8], &'a [u8]), FormatError>
    ensures reads { Gives (λ x. (demand_seen (types_of types.new) x.0, x.2.now)) result (demand_read scope.now (type_read scope.now depth) param previous.now bytes.now) }
    ensures name { IfOk result (λ x. x.1.now ≡ x.0.op) }
    ensures within { IfOk result (λ x. x.0.wanted.0 < length types.new) }
    ensures kept { Grows types.old types.new }
{
    let (asked, name, rest) = asked_at(scope, param, previous, bytes)?;
    let (wanted, rest) = type_at(alloc, types, scope, rest, depth)?;
    let op = Bytes::from_slice(alloc, name)?;
    let demand = Demand {
        param: asked,
        op,
        wanted,
    };
    Ok((demand, name, rest))
}

/// The parameter and the name of a demand after that of `param` and `previous`, and what follows the `:`.
#[tactic(auto, unfolding(crate::specs::SpecReading::asked_read))]
fn asked_at<'a>(
    scope: &Scope,
    param: u32,
    previous: &[u8],
    bytes: &'a [u8],
) -> Result<(u32, &'a [u8], &'a [u8]), FormatError>
    ensures { Gives (λ x. ((x.0, x.1.now), x.2.now)) result (asked_read scope.now param previous.now bytes.now) }
{
    let rest = literal(b"#", bytes)?;
    let (asked, rest) = scope.number_at(Sort::Type, least_behind(param, previous), rest)?;
    let rest = literal(b" has ", rest)?;
    let (name, rest) = name_after(name_of(asked, param, previous), LONGEST, rest)?;
    Ok((asked, name, literal(b":", rest)?))
}

/// The name after which a demand of the parameter `asked` comes: that of the demand before, where it is of the
/// same parameter.
fn name_of<'a>(asked: u32, param: u32, previous: &'a [u8]) -> &'a [u8]
    ensures { result.now ≡ (if asked == param then previous.now else []) }
{
    if asked == param { previous } else { &[] }
}

/// The least parameter of a demand after that of `param` and `name`.
fn least_behind(param: u32, name: &[u8]) -> u64
    ensures { result ≡ least_behind param name.now }
{
    if has_later(name) {
        param as u64
    } else {
        param as u64 + 1
    }
}

/// What follows the comma, where a demand after that of `param` and `name` is possible.
fn next_demand<'a>(scope: &Scope, param: u32, name: &[u8], bytes: &'a [u8]) -> Option<&'a [u8]>
    ensures { option_copied result ≡ next_demand scope.now param name.now bytes.now }
{
    if scope.has_from(Sort::Type, least_behind(param, name)) {
        behind(b',', bytes)
    } else {
        None
    }
}

/// A routine of this name after its parameters: its heading and demands.
#[tactic(auto, unfolding(crate::specs::SpecReading::operation_read))]
fn operation_at<'a>(
    alloc: Global,
    types: &mut TypeArena,
    scope: &Scope,
    name: &[u8],
    iter: bool,
    bytes: &'a [u8],
    depth: usize,
) -> Result<(OpSpec, &'a [u8]), FormatError>
    ensures reads { Gives (λ x. (op_seen (types_of types.new) x.0, x.1.now)) result (operation_read scope.now (type_read scope.now depth) name.now iter bytes.now) }
    ensures name { IfOk result (λ x. name.now ≡ x.0.name) }
    ensures within { IfOk result (λ x. OpBelow (length types.new) x.0) }
    ensures kept { Grows types.old types.new }
{
    let (heading, rest) = heading_at(alloc, types, scope, iter, bytes, depth)?;
    let (demands, rest) = all_demands_at(alloc, types, scope, rest, depth)?;
    let name = Bytes::from_slice(alloc, name)?;
    Ok((
        OpSpec {
            name,
            iter,
            heading,
            demands,
        },
        rest,
    ))
}

/// The name after `;` of an operation after `previous`, whether it is an iterator, and what follows.
#[tactic(auto, unfolding(crate::specs::SpecReading::operation_word_read))]
fn operation_word<'a>(
    previous: &[u8],
    bytes: &'a [u8],
) -> Result<(&'a [u8], bool, &'a [u8]), FormatError>
    ensures { Gives (λ x. ((x.0.now, x.1), x.2.now)) result (operation_word_read previous.now bytes.now) }
{
    let rest = literal(b";", bytes)?;
    let (name, rest) = name_after(previous, LONGEST, rest)?;
    let (iter, rest) = routine_word(literal(b":", rest)?)?;
    Ok((name, iter, rest))
}

/// An operation after that of `previous`, its name, and what follows.
#[tactic(auto, unfolding(crate::specs::SpecReading::named_operation_read))]
fn named_operation_at<'a>(
    alloc: Global,
    types: &mut TypeArena,
    scope: &Scope,
    previous: &[u8],
    bytes: &'a [u8],
    depth: usize,
) -> Result<(OpSpec, &'a [u8], &'a [u8]), FormatError>
    ensures reads { Gives (λ x. (op_seen (types_of types.new) x.0, x.2.now)) result (named_operation_read scope.now (type_read scope.now depth) previous.now bytes.now) }
    ensures name { IfOk result (λ x. x.1.now ≡ x.0.name) }
    ensures within { IfOk result (λ x. OpBelow (length types.new) x.0) }
    ensures kept { Grows types.old types.new }
{
    let (name, iter, rest) = operation_word(previous, bytes)?;
    let (op, rest) = operation_at(alloc, types, scope, name, iter, rest, depth)?;
    Ok((op, name, rest))
}

/// The operations of a cluster in ascending order, each after `;`.
#[tactic(auto, unfolding(crate::specs::SpecReading::operations_read))]
fn operations_at<'a>(
    alloc: Global,
    types: &mut TypeArena,
    scope: &Scope,
    bytes: &'a [u8],
    depth: usize,
) -> Result<(Sequence<OpSpec>, &'a [u8]), FormatError>
    ensures reads { Gives (λ x. (map (op_seen (types_of types.new)) x.0, x.1.now)) result (operations_read scope.now (type_read scope.now depth) bytes.now) }
    ensures within { IfOk result (λ x. OpsBelow (length types.new) x.0) }
    ensures kept { Grows types.old types.new }
{
    let mut made = Vec::new(alloc);
    let mut previous: &[u8] = &[];
    let mut rest = bytes;
    for _ in 0..bytes.len() {
        let (op, name, after) = named_operation_at(alloc, types, scope, previous, rest, depth)?;
        made.push(op)?;
        match next_operation(name, after) {
            Some(next) => rest = next,
            None => return Ok((Sequence::from_vec(made), after)),
        }
        previous = name;
    }
    Err(fault(rest))
}

/// The text of the next operation, which begins with its `;`, where one may follow that of this name.
fn next_operation<'a>(name: &[u8], bytes: &'a [u8]) -> Option<&'a [u8]>
    ensures { option_copied result ≡ next_operation name.now bytes.now }
{
    if !has_later(name) || !begins_with(b';', bytes) {
        None
    } else {
        Some(bytes)
    }
}
