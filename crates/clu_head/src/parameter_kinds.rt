//! The kinds of the parameters of modules, and a module's type with its own parameters.

ghost use Rattle.std.specs.Prelude.{◌≡◌, ◌++◌, IfOk, OnOk, slice_get};
ghost use Rattle.clu_syntax.specs.Kinds.{is_type, kind_at};
ghost use Rattle.clu_syntax.specs.Splits.{type_of};
ghost use Rattle.clu_types.specs.Arena.{Grows};
ghost use Rattle.clu_head.specs.Outside.{times};
ghost use Rattle.clu_head.specs.OwnTypes.{is_type_parameter, IsOwnActual, AreOwn, IsOwnType};
ghost use Rattle.clu_head.specs.ParameterKinds.{kind_of_term, kind_of_type, kind_declared, kinds_in, kinds_at, kinds_of};

use crate::known::{interned, is_of, number_at, type_in, value_of};
use clu_base::{Bytes, Memory, Sequence};
use clu_settle::Value;
use clu_syntax::{Syntax, is_type};
use clu_tree::{Node, NodeKind, Tree};
use clu_types::{Actual, ParamKind, Term, TypeArena, TypeId};
use std::alloc::Global;

/// The kind of constants that a parameter of this type takes.
fn kind_of_term(term: &Term) -> Option<ParamKind>
    ensures { result ≡ kind_of_term term.now }
{
    match term {
        Term::Null => Some(ParamKind::Null),
        Term::Bool => Some(ParamKind::Bool),
        Term::Int => Some(ParamKind::Int),
        Term::Char => Some(ParamKind::Char),
        Term::Str => Some(ParamKind::Str),
        _ => None,
    }
}

/// The same of a type that is known.
pub fn kind_of_type(types: &TypeArena, of: Option<TypeId>) -> Option<ParamKind>
    ensures { result ≡ kind_of_type types.now of }
{
    match of {
        Some(id) => {
            if types.contains(id) {
                kind_of_term(types.view(id))
            } else {
                None
            }
        }
        None => None,
    }
}

/// The kind of a parameter that is declared with the type at a node, if it is no type parameter.
fn kind_declared(types: &TypeArena, values: &[Value], declared: Option<u32>) -> Option<ParamKind>
    ensures { result ≡ kind_declared types.now values.now declared }
{
    match declared {
        Some(n) => kind_of_type(types, type_in(value_of(values, n))),
        None => Some(ParamKind::OfType),
    }
}

/// Appends the kind, once for each name.
fn push_times(
    kinds: &mut Vec<Option<ParamKind>>,
    mut names: &[Bytes],
    kind: Option<ParamKind>,
) -> Result<(), Memory>
    ensures { OnOk result (kinds.new.items ≡ kinds.old.items ++ times kind names.entry.now) }
{
    while let [_, more @ ..] = names {
        kinds.push(kind)?;
        names = more;
    }
    Ok(())
}

/// Whether a type stands at the node n.
fn is_type_at(tree: &Tree, n: u32) -> bool
    ensures { result ≡ is_type (kind_at tree.now n) }
{
    if n < tree.len() {
        is_type(tree.node(n).kind)
    } else {
        false
    }
}

/// The first of these nodes, if it is a type.
pub fn type_of(tree: &Tree, nodes: &[u32]) -> Option<u32>
    ensures { result ≡ type_of tree.now nodes.now }
{
    match nodes {
        [] => None,
        [n, ..] => { if is_type_at(tree, *n) { Some(*n) } else { None } }
    }
}

/// Appends those of a node, if it is a Parm.
fn push_kinds_of(
    tree: &Tree,
    types: &TypeArena,
    values: &[Value],
    kinds: &mut Vec<Option<ParamKind>>,
    node: &Node,
) -> Result<(), Memory>
    ensures { OnOk result (kinds.new.items ≡ kinds.old.items ++ kinds_in types.now values.now tree.now node.now) }
{
    if is_of(NodeKind::Parm, node.kind) {
        let declared = type_of(tree, node.children.as_slice());
        push_times(
            kinds,
            node.names.as_slice(),
            kind_declared(types, values, declared),
        )
    } else {
        Ok(())
    }
}

/// The same of the node n.
fn push_kinds(
    tree: &Tree,
    types: &TypeArena,
    values: &[Value],
    kinds: &mut Vec<Option<ParamKind>>,
    n: u32,
) -> Result<(), Memory>
    ensures { OnOk result (kinds.new.items ≡ kinds.old.items ++ kinds_at types.now values.now tree.now (slice_get tree.now n)) }
{
    if n < tree.len() {
        push_kinds_of(tree, types, values, kinds, tree.node(n))
    } else {
        Ok(())
    }
}

#[tactic(auto, unfolding(crate::specs::ParameterKinds::kinds_of))]
fn push_all_kinds(
    tree: &Tree,
    types: &TypeArena,
    values: &[Value],
    kinds: &mut Vec<Option<ParamKind>>,
    mut parameters: &[u32],
) -> Result<(), Memory>
    ensures { OnOk result (kinds.new.items ≡ kinds.old.items ++ kinds_of types.now values.now tree.now parameters.entry.now) }
{
    while let [n, more @ ..] = parameters {
        push_kinds(tree, types, values, kinds, *n)?;
        parameters = more;
    }
    Ok(())
}

/// The kinds of actuals for the parameters of these Parms, by the values of the nodes of their tree; None for a parameter that
/// has no legal type. The only error is that memory runs out.
pub fn kinds(
    alloc: Global,
    syntax: &Syntax,
    types: &TypeArena,
    values: &[Value],
    parameters: &[u32],
) -> Result<Sequence<Option<ParamKind>>, Memory>
    ensures { IfOk result (λ kinds. kinds ≡ kinds_of types.now values.now syntax.now parameters.now) }
{
    let mut kinds = Vec::new(alloc);
    push_all_kinds(syntax.tree(), types, values, &mut kinds, parameters)?;
    Ok(Sequence::from_vec(kinds))
}

fn is_type_parameter(kind: Option<ParamKind>) -> bool
    ensures { result ≡ is_type_parameter kind }
{
    match kind {
        Some(ParamKind::OfType) => true,
        _ => false,
    }
}

/// The parameter of this kind and number as an actual for itself.
#[tactic(auto, using(crate::proofs::Owning::own_type_parameter, crate::proofs::Owning::own_constant))]
fn own_actual(types: &mut TypeArena, kind: Option<ParamKind>, number: u32) -> Result<Actual, Memory>
    ensures own { IfOk result (λ a. IsOwnActual types.new kind number a) }
    ensures kept { Grows types.old types.new }
{
    if is_type_parameter(kind) {
        Ok(Actual::Of(types.intern(Term::Param(number))?))
    } else {
        Ok(Actual::ConstParam(number))
    }
}

/// Parameters of these kinds as actuals for themselves.
fn own_actuals(
    alloc: Global,
    types: &mut TypeArena,
    kinds: &[Option<ParamKind>],
) -> Result<Sequence<Actual>, Memory>
    ensures own { IfOk result (λ actuals. AreOwn types.new 0 kinds.now actuals) }
    ensures kept { Grows types.old types.new }
{
    let mut actuals = Vec::new(alloc);
    for kind in kinds {
        let own = own_actual(types, *kind, number_at(actuals.len()))?;
        actuals.push(own)?;
    }
    Ok(Sequence::from_vec(actuals))
}

/// The type of the cluster of this name, with its own parameters, which have these kinds. The only error is that memory runs
/// out.
pub fn own_type(
    alloc: Global,
    types: &mut TypeArena,
    name: &Bytes,
    kinds: &[Option<ParamKind>],
) -> Result<Option<TypeId>, Memory>
    ensures own { IfOk result (λ found. IsOwnType types.new name.now kinds.now found) }
    ensures kept { Grows types.old types.new }
{
    let actuals = own_actuals(alloc, types, kinds)?;
    let name = name.copy(alloc)?;
    let found = interned(types, Term::Cluster(name, actuals))?;
    Ok(found)
}
