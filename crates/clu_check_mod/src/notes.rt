//! What a check notes of nodes for lowering: the types that they denote, their constants and their operations.

ghost use Rattle.std.specs.Prelude.{◌≡◌, IfOk, slice_get};
ghost use Rattle.clu_settle.specs.Lists.{value_of};
ghost use Rattle.clu_check_mod.specs.Notes.{constant_at, constant_in, constants_of, denoted_at, denoted_of, module_in, module_of_term, operation, operation_at, operation_if, operations_of};

use clu_base::{Bytes, Memory};
use clu_bindings::optional_at;
use clu_core::{NamedConstant, OpRef};
use clu_head::is_at;
use clu_operations::{NameId, Words};
use clu_settle::Value;
use clu_tree::{NodeKind, Tree};
use clu_types::{Term, TypeArena, TypeId};
use clu_typing::{Facts, Invoked};
use std::alloc::Global;

fn denoted_at(values: &[Value], n: u32) -> Option<TypeId>
    ensures { result ≡ denoted_at values.now n }
{
    match values.get(n as usize) {
        Some(Value::Type(of)) => Some(*of),
        _ => None,
    }
}

/// For each node the type that it denotes.
#[tactic(auto, unfolding(clu_bindings::specs::Tables::table_to))]
pub fn denoted(alloc: Global, tree: &Tree, values: &[Value]) -> Result<Vec<Option<TypeId>>, Memory>
    ensures { IfOk result (λ all. all.items ≡ denoted_of values.now tree.now) }
{
    let mut all = Vec::new(alloc);
    for n in 0..tree.len() {
        all.push(denoted_at(values, n))?;
    }
    Ok(all)
}

fn constant_of(values: &[Value], n: u32) -> Option<NamedConstant>
    ensures { result ≡ constant_in (value_of values.now n) }
{
    match values.get(n as usize) {
        Some(Value::Constant(place)) => Some(NamedConstant::Known(*place)),
        Some(Value::Parameter(number)) => Some(NamedConstant::Parameter(*number)),
        _ => None,
    }
}

fn constant_at(tree: &Tree, values: &[Value], n: u32) -> Option<NamedConstant>
    ensures { result ≡ constant_at tree.now values.now n }
{
    if is_at(tree, n, NodeKind::Name) {
        constant_of(values, n)
    } else {
        None
    }
}

/// For each name that stands for a constant, that constant.
#[tactic(auto, unfolding(clu_bindings::specs::Tables::table_to))]
pub fn named_constants(
    alloc: Global,
    tree: &Tree,
    values: &[Value],
) -> Result<Vec<Option<NamedConstant>>, Memory>
    ensures { IfOk result (λ all. all.items ≡ constants_of tree.now values.now) }
{
    let mut all = Vec::new(alloc);
    for n in 0..tree.len() {
        all.push(constant_at(tree, values, n))?;
    }
    Ok(all)
}

/// For each node the operation that it invokes or names.
#[tactic(auto, unfolding(clu_bindings::specs::Tables::table_to))]
pub fn operations(
    alloc: Global,
    tree: &Tree,
    types: &TypeArena,
    facts: &Facts,
) -> Result<Vec<Option<OpRef>>, Memory>
    ensures { IfOk result (λ all. all.items ≡ operations_of types.now facts.now tree.now) }
{
    let mut all = Vec::new(alloc);
    for n in 0..tree.len() {
        all.push(operation_at(alloc, types, facts, n)?)?;
    }
    Ok(all)
}

fn operation_at(
    alloc: Global,
    types: &TypeArena,
    facts: &Facts,
    n: u32,
) -> Result<Option<OpRef>, Memory>
    ensures { IfOk result (λ its. its ≡ operation_at types.now facts.now n) }
{
    let invoked = optional_at(facts.invoked.as_slice(), n as usize);
    Ok(operation_if(alloc, types, &facts.finding.words, invoked)?)
}

fn operation_if(
    alloc: Global,
    types: &TypeArena,
    words: &Words,
    invoked: Option<Invoked>,
) -> Result<Option<OpRef>, Memory>
    ensures { IfOk result (λ its. its ≡ operation_if types.now words.now invoked) }
{
    match invoked {
        Some(invoked) => operation(alloc, types, words, invoked),
        None => Ok(None),
    }
}

fn operation(
    alloc: Global,
    types: &TypeArena,
    words: &Words,
    invoked: Invoked,
) -> Result<Option<OpRef>, Memory>
    ensures { IfOk result (λ its. its ≡ operation types.now words.now invoked) }
{
    match invoked {
        Invoked::Builtin(of, name) => match name_of(alloc, words, name)? {
            Some(name) => Ok(Some(OpRef::Builtin(of, name))),
            None => Ok(None),
        },
        Invoked::Cluster(of, name) => match name_of(alloc, words, name)? {
            Some(name) => Ok(Some(OpRef::Cluster(of, name))),
            None => Ok(None),
        },
        Invoked::Parameter(number, name) => match name_of(alloc, words, name)? {
            Some(name) => Ok(Some(OpRef::Param(number, name))),
            None => Ok(None),
        },
        Invoked::Module(of) => module(alloc, types, of),
        Invoked::Stored => Ok(Some(OpRef::Stored)),
    }
}

fn name_of(alloc: Global, words: &Words, id: NameId) -> Result<Option<Bytes>, Memory>
    ensures { IfOk result (λ name. name ≡ slice_get words.now id.0) }
{
    match words.name(id) {
        Some(name) => Ok(Some(name.copy(alloc)?)),
        None => Ok(None),
    }
}

/// The routine of a module, whose name and actual parameters are those of a cluster type of the arena.
fn module(alloc: Global, types: &TypeArena, of: TypeId) -> Result<Option<OpRef>, Memory>
    ensures { IfOk result (λ its. its ≡ module_in (slice_get types.now of.0)) }
{
    if types.contains(of) {
        Ok(module_of_term(types.view(of).copy(alloc)?))
    } else {
        Ok(None)
    }
}

fn module_of_term(term: Term) -> Option<OpRef>
    ensures { result ≡ module_of_term term }
{
    match term {
        Term::Cluster(name, actuals) => Some(OpRef::Module(name, actuals)),
        _ => None,
    }
}
