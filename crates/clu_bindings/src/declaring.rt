//! What each declaration of a file declares, and so what names denote.

ghost use Rattle.std.specs.Prelude.{◌≡◌, ◌++◌, IfOk, OnOk, Some, drop, option_map, slice_get};
ghost use Rattle.clu_settle.specs.Parameters.{count_in};
ghost use Rattle.clu_bindings.specs.Modules.{named};
ghost use Rattle.clu_bindings.specs.Declaring.{equated_by, right_of, parameter_as, parameter_in, variable_in, definition_in, local_in, owned_by, own_in, variables_in, outer_kind, declared_at, declared_of, unbound, meant_by, meant_of, meanings_of};

use crate::bindings::{Modules, ParameterTypes};
use crate::meaning::Meaning;
use crate::nodes::{children_of, kind_of, names_of, round_of, type_of};
use crate::tables::{items_of, number_at};
use clu_base::{Bytes, Memory};
use clu_names::{Declared, Names};
use clu_syntax::Round;
use clu_tree::{NodeKind, Tree};
use std::alloc::Global;

/// What is no declaration.
const NOTHING: Meaning = Meaning::Module(None);

/// A constant, a type or a type set that is equated to a name, by its node.
fn equated_by(kind: NodeKind, c: u32) -> Meaning
    ensures { result ≡ equated_by kind c }
{
    match kind {
        NodeKind::TypeSet => Meaning::TypeSet,
        _ => Meaning::Equate(c),
    }
}

/// The right side of an Equate, of which these are the children.
fn right_of(tree: &Tree, children: &[u32]) -> Meaning
    ensures { result ≡ right_of tree.now children.now }
{
    match children {
        [] => NOTHING,
        [c, ..] => equated_by(kind_of(tree, *c), *c),
    }
}

fn parameter_as(declared: Option<u32>, number: u32) -> Meaning
    ensures { result ≡ parameter_as declared number }
{
    match declared {
        None => Meaning::TypeParameter(number),
        Some(_) => Meaning::ConstantParameter(number),
    }
}

/// A parameter of this number, which is declared with a type if it is a constant. Without a number none is declared.
fn parameter(modules: &Modules, name: &Bytes, declared: Option<u32>, number: u32) -> Meaning
    ensures { result ≡ parameter_in (named modules.now name.now) declared number }
{
    if number == 0 {
        Meaning::Module(modules.named(name))
    } else {
        parameter_as(declared, number)
    }
}

/// How many parameters the module has in which a declaration stands.
fn count_in(counts: &[u32], unit: Option<u32>) -> u32
    ensures { result ≡ count_in counts.now unit }
{
    match unit {
        Some(unit) => number_at(counts, unit as usize),
        None => 0,
    }
}

/// The variable of the type set n is a parameter after those of its module, of a number that no other set has.
fn variable_of_set(n: u32, count: u32) -> Meaning
    ensures { result ≡ variable_in n count }
{
    Meaning::TypeParameter(n.saturating_add(1).saturating_add(count))
}

/// A module, or a routine of a cluster.
fn definition(modules: &Modules, name: &Bytes, unit: Option<u32>) -> Meaning
    ensures { result ≡ definition_in (named modules.now name.now) unit }
{
    match unit {
        Some(_) => Meaning::RoutineOfCluster,
        None => Meaning::Module(modules.named(name)),
    }
}

/// Variables, whose type stands first of these children.
fn local(children: &[u32]) -> Meaning
    ensures { result ≡ local_in children.now }
{
    match children {
        [] => NOTHING,
        [c, ..] => Meaning::Local(*c),
    }
}

fn owned_by(routine: Option<u32>, c: u32) -> Meaning
    ensures { result ≡ owned_by routine c }
{
    match routine {
        Some(_) => Meaning::OwnOfRoutine(c),
        None => Meaning::OwnOfCluster(c),
    }
}

/// Own variables of a routine, or of a cluster, whose type stands first of these children.
fn own(routine: Option<u32>, children: &[u32]) -> Meaning
    ensures { result ≡ own_in routine children.now }
{
    match children {
        [] => NOTHING,
        [c, ..] => owned_by(routine, *c),
    }
}

/// The variables of a Decl with these children, by the kind of its parent.
fn variables(parent: NodeKind, routine: Option<u32>, children: &[u32]) -> Meaning
    ensures { result ≡ variables_in parent routine children.now }
{
    match parent {
        NodeKind::Own => own(routine, children),
        _ => local(children),
    }
}

/// The kind of the parent of the node n; File if it has none.
fn outer_kind(tree: &Tree, rounds: &[Round], n: u32) -> NodeKind
    ensures { result ≡ outer_kind tree.now rounds.now n }
{
    match round_of(rounds, n).parent {
        Some(parent) => kind_of(tree, parent),
        None => NodeKind::File,
    }
}

/// What a declaration declares, whose parameter has this number, if it is one.
fn declared_at(
    tree: &Tree,
    rounds: &[Round],
    modules: &Modules,
    counts: &[u32],
    one: &Declared,
    number: u32,
) -> Meaning
    ensures { result ≡ declared_at tree.now rounds.now (named modules.now) counts.now number (Some one.now) }
{
    let n = one.node;
    let children = children_of(tree, n);
    match kind_of(tree, n) {
        NodeKind::Equate => right_of(tree, children),
        NodeKind::Parm => parameter(modules, &one.name, type_of(tree, children), number),
        NodeKind::TypeSet => variable_of_set(n, count_in(counts, one.unit)),
        NodeKind::Routine | NodeKind::Cluster => definition(modules, &one.name, one.unit),
        NodeKind::Decl => variables(
            outer_kind(tree, rounds, n),
            round_of(rounds, n).routine,
            children,
        ),
        NodeKind::Init | NodeKind::TagArm | NodeKind::Others => local(children),
        NodeKind::Own => own(round_of(rounds, n).routine, children),
        _ => NOTHING,
    }
}

/// What each declaration declares. The only error is that memory runs out.
#[tactic(auto, unfolding(crate::specs::Tables::table_to))]
pub fn declared_of(
    alloc: Global,
    tree: &Tree,
    rounds: &[Round],
    declared: &[Declared],
    parameters: &ParameterTypes,
    modules: &Modules,
) -> Result<Vec<Meaning>, Memory>
    ensures { IfOk result (λ all. all.items ≡ declared_of tree.now rounds.now (named modules.now) parameters.now.counts.items parameters.now.numbers.items declared.now) }
{
    let counts = parameters.counts.as_slice();
    let mut all = Vec::new(alloc);
    for place in 0..declared.len() {
        let number = number_at(parameters.numbers.as_slice(), place);
        let one = &declared[place];
        all.push(declared_at(tree, rounds, modules, counts, one, number))?;
    }
    Ok(all)
}

/// A name that no declaration declares is that of a module; the word `rep` then denotes nothing.
fn unbound(modules: &Modules, name: Option<&Bytes>) -> Meaning
    ensures { result ≡ unbound (named modules.now) (option_map (λ name. name.now) name.entry) }
{
    match name {
        Some(name) => Meaning::Module(modules.named(name)),
        None => NOTHING,
    }
}

/// What a name denotes that is bound so.
fn meant_by(
    modules: &Modules,
    declared: &[Meaning],
    bound: Option<usize>,
    name: Option<&Bytes>,
) -> Meaning
    ensures { result ≡ meant_by (named modules.now) declared.now bound (option_map (λ name. name.now) name.entry) }
{
    match bound {
        Some(place) => declared.get(place).copied().unwrap_or(NOTHING),
        None => unbound(modules, name),
    }
}

fn first_of(names: &[Bytes]) -> Option<&Bytes>
    ensures { option_map (λ name. name.now) result ≡ slice_get names.now 0 }
{
    match names {
        [name, ..] => Some(name),
        [] => None,
    }
}

fn rest_of(names: &[Bytes]) -> &[Bytes]
    ensures { result.now ≡ drop 1 names.now }
{
    match names {
        [_, rest @ ..] => rest,
        [] => &[],
    }
}

/// Appends what the names of one node denote.
#[tactic(auto, unfolding(crate::specs::Declaring::meant_of))]
fn push_meanings(
    modules: &Modules,
    declared: &[Meaning],
    all: &mut Vec<Meaning>,
    mut bounds: &[Option<usize>],
    mut names: &[Bytes],
) -> Result<(), Memory>
    ensures { OnOk result (all.new.items ≡ all.old.items ++ meant_of (named modules.now) declared.now bounds.entry.now names.entry.now) }
{
    while let [bound, more @ ..] = bounds {
        all.push(meant_by(modules, declared, *bound, first_of(names)))?;
        bounds = more;
        names = rest_of(names);
    }
    Ok(())
}

/// What each name of each node denotes, in the order of `names.bound`. The only error is that memory runs out.
#[tactic(auto, unfolding(crate::specs::Tables::joined_to))]
pub fn meanings_of(
    alloc: Global,
    tree: &Tree,
    names: &Names,
    modules: &Modules,
    declared: &[Meaning],
) -> Result<Vec<Meaning>, Memory>
    ensures { IfOk result (λ all. all.items ≡ meanings_of (named modules.now) declared.now tree.now names.now) }
{
    let mut all = Vec::with_capacity(alloc, names.bound.len())?;
    for n in 0..tree.len() {
        let bounds = items_of(names.bound.as_slice(), names.starts.as_slice(), n);
        push_meanings(modules, declared, &mut all, bounds, names_of(tree, n))?;
    }
    Ok(all)
}
