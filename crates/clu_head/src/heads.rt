//! The heads of the modules of a file.

ghost use Rattle.std.specs.Prelude.{◌≡◌, ◌<◌, ◌||◌, ℕ, List, length, bytes_eq, slice_get, is_some, true, IfOk, IfSome, OnOk};
ghost use Rattle.std.specs.List.{list_any};
ghost use Rattle.clu_tree.specs.declared.node.NodeKind.{NodeKind};
ghost use Rattle.clu_syntax.specs.Kinds.{kind_at};
ghost use Rattle.clu_names.specs.Denotes.{bound_to, starts_to};
ghost use Rattle.clu_types.specs.Arena.{Grows};
ghost use Rattle.clu_head.specs.Adding.{Adds};
ghost use Rattle.clu_head.specs.There.{is_there};
ghost use Rattle.clu_head.specs.Routines.{once_if};
ghost use Rattle.clu_head.specs.Modules.{has_head, definition_at, is_defined, IsRoutineForm, IsClusterForm, IsOfRoutine, IsOfCluster, IsOfDefinition, IsOfModule, AreOfModules, AreOf, AreHeadsOf};

use crate::asked::Asked;
use crate::clauses::asked_of;
use crate::head::{Head, HeadForm};
use crate::known::{Known, is_at};
use crate::listed::listed;
use crate::parameter_kinds::{kinds, own_type};
use crate::refusals::counts_of;
use crate::restricted::restricted_of;
use crate::routines::{routine_head, routines_of};
use crate::sets::sets_of;
use clu_base::{Bytes, Memory, Sequence};
use clu_names::Names;
use clu_settle::{Value, number_parameters};
use clu_syntax::{Cluster, Definition, Round, Syntax};
use clu_tree::NodeKind;
use clu_types::{ParamKind, TypeArena, TypeId};
use indexmap::IndexSet;
use std::alloc::Global;

/// What a file shows of its modules, and what its where clauses ask.
#[derive(Drop)]
pub struct Heads {
    /// For each module, in the order of the text.
    pub modules: Vec<Head>,
    pub asked: Asked,
}

fn push_export(alloc: Global, exports: &mut IndexSet<Bytes>, name: &Bytes) -> Result<(), Memory>
    ensures { OnOk result ((x : List ℕ) → list_any (bytes_eq x) exports.new.keys ≡ (list_any (bytes_eq x) exports.old.keys || bytes_eq x name.now)) }
{
    exports.insert(name.copy(alloc)?)?;
    Ok(())
}

/// A set of these names.
fn exports_of(alloc: Global, names: &[Bytes]) -> Result<Box<IndexSet<Bytes>>, Memory>
    ensures { IfOk result (λ exports. (x : List ℕ) → list_any (bytes_eq x) exports.value.keys ≡ list_any (bytes_eq x) names.now) }
{
    let mut exports = Box::new(alloc, IndexSet::new(alloc))?;
    for name in names {
        push_export(alloc, &mut exports, name)?;
    }
    Ok(exports)
}

/// A head of a copy of this name.
fn head_with(
    alloc: Global,
    name: &Bytes,
    kinds: Sequence<Option<ParamKind>>,
    form: Box<HeadForm>,
) -> Result<Box<Head>, Memory>
    ensures name { IfOk result (λ head. head.value.name ≡ name.now) }
    ensures kinds { IfOk result (λ head. head.value.kinds ≡ kinds) }
    ensures form { IfOk result (λ head. head.value.form ≡ form.value) }
{
    let name = name.copy(alloc)?;
    let head = Head {
        name,
        kinds,
        form: Box::into_inner(form),
    };
    Ok(Box::new(alloc, head)?)
}

/// The form of a module that is the Routine n.
#[tactic(auto, using(crate::proofs::OfModules::routine_formed))]
fn routine_form(
    known: Known<'_>,
    asked: &Asked,
    types: &mut TypeArena,
    n: u32,
) -> Result<Option<Box<HeadForm>>, Memory>
    ensures form { IfOk result (λ found. IfSome found (λ form. IsRoutineForm known.entry asked.now types.old types.new n form.value)) }
    ensures there { IfOk result (λ found. is_some found ≡ is_there NodeKind.Routine (slice_get known.entry.syntax.now n)) }
    ensures kept { Grows types.old types.new }
{
    let exports = exports_of(known.alloc, &[])?;
    match routine_head(known, asked, types, None, &exports, n)? {
        Some(routine) => {
            let form = HeadForm::Routine(Box::into_inner(routine));
            Ok(Some(Box::new(known.alloc, form)?))
        }
        None => Ok(None),
    }
}

/// The head of a module that is the Routine n.
fn of_routine(
    known: Known<'_>,
    asked: &Asked,
    types: &mut TypeArena,
    n: u32,
) -> Result<Option<Box<Head>>, Memory>
    requires inside { n < length known.syntax.now }
    requires kind { kind_at known.syntax.now n ≡ NodeKind.Routine }
    ensures head { IfOk result (λ found. IfSome found (λ head. IsOfRoutine known.entry asked.now types.old types.new n head.value)) }
    ensures there { IfOk result (λ found. is_some found ≡ is_there NodeKind.Routine (slice_get known.entry.syntax.now n)) }
    ensures kept { Grows types.old types.new }
{
    let routine = known.syntax.routine(n);
    match routine_form(known, asked, types, n)? {
        Some(form) => {
            let kinds = kinds(
                known.alloc,
                known.syntax,
                types,
                known.values,
                routine.parameters,
            )?;
            Ok(Some(head_with(known.alloc, routine.name, kinds, form)?))
        }
        None => Ok(None),
    }
}

/// The form of a module that is a cluster, the node n, whose type is `own`.
#[tactic(auto, using(crate::proofs::OfModules::cluster_formed))]
fn cluster_form(
    known: Known<'_>,
    asked: &Asked,
    types: &mut TypeArena,
    own: Option<TypeId>,
    cluster: Cluster<'_>,
    n: u32,
) -> Result<Box<HeadForm>, Memory>
    ensures form { IfOk result (λ form. IsClusterForm known.entry asked.now types.old types.new own cluster.entry.exports.now cluster.entry.routines.now n form.value) }
    ensures kept { Grows types.old types.new }
{
    let exports = exports_of(known.alloc, cluster.exports)?;
    let demands = listed(known.alloc, asked.of(n))?;
    let routines = routines_of(known, asked, types, own, &exports, cluster.routines)?;
    Ok(Box::new(known.alloc, HeadForm::Cluster(demands, routines))?)
}

/// The head of a module that is the Cluster n.
#[tactic(auto, using(crate::proofs::OfModules::of_cluster_made))]
fn of_cluster(
    known: Known<'_>,
    asked: &Asked,
    types: &mut TypeArena,
    n: u32,
) -> Result<Box<Head>, Memory>
    requires inside { n < length known.syntax.now }
    requires kind { kind_at known.syntax.now n ≡ NodeKind.Cluster }
    ensures head { IfOk result (λ head. IsOfCluster known.entry asked.now types.old types.new n head.value) }
    ensures kept { Grows types.old types.new }
{
    let cluster = known.syntax.cluster(n);
    let kinds = kinds(
        known.alloc,
        known.syntax,
        types,
        known.values,
        cluster.parameters,
    )?;
    let own = own_type(known.alloc, types, cluster.name, kinds.as_slice())?;
    let form = cluster_form(known, asked, types, own, cluster, n)?;
    head_with(known.alloc, cluster.name, kinds, form)
}

/// The head of what a module defines.
#[tactic(auto, unfolding(crate::specs::Modules::IsOfDefinition, crate::specs::Modules::is_defined))]
fn of_definition(
    known: Known<'_>,
    asked: &Asked,
    types: &mut TypeArena,
    definition: Definition,
) -> Result<Option<Box<Head>>, Memory>
    ensures head { IfOk result (λ found. IfSome found (λ head. IsOfDefinition known.entry asked.now types.old types.new definition head.value)) }
    ensures there { IfOk result (λ found. is_some found ≡ is_defined known.entry.syntax.now definition) }
    ensures kept { Grows types.old types.new }
{
    match definition {
        Definition::Routine(n) => {
            if is_at(known.syntax.tree(), n, NodeKind::Routine) {
                of_routine(known, asked, types, n)
            } else {
                Ok(None)
            }
        }
        Definition::Cluster(n) => {
            if is_at(known.syntax.tree(), n, NodeKind::Cluster) {
                Ok(Some(of_cluster(known, asked, types, n)?))
            } else {
                Ok(None)
            }
        }
    }
}

/// What the Module n defines.
fn definition_at(syntax: &Syntax, n: u32) -> Definition
    requires inside { n < length syntax.now }
    requires kind { kind_at syntax.now n ≡ NodeKind.Module }
    ensures { result ≡ definition_at syntax.now (slice_get syntax.now n) }
{
    syntax.module(n).definition
}

/// The head of the Module n.
#[tactic(auto, unfolding(crate::specs::Modules::IsOfModule, crate::specs::Modules::has_head))]
fn of_module(
    known: Known<'_>,
    asked: &Asked,
    types: &mut TypeArena,
    n: u32,
) -> Result<Option<Box<Head>>, Memory>
    ensures head { IfOk result (λ found. IfSome found (λ head. IsOfModule known.entry asked.now types.old types.new n head.value)) }
    ensures there { IfOk result (λ found. is_some found ≡ has_head known.entry.syntax.now n) }
    ensures kept { Grows types.old types.new }
{
    if is_at(known.syntax.tree(), n, NodeKind::Module) {
        of_definition(known, asked, types, definition_at(known.syntax, n))
    } else {
        Ok(None)
    }
}

#[tactic(auto, using(crate::proofs::OfModules::module_made, crate::proofs::OfModules::no_module))]
fn push_module(
    known: Known<'_>,
    asked: &Asked,
    types: &mut TypeArena,
    modules: &mut Vec<Head>,
    n: u32,
) -> Result<(), Memory>
    ensures more { OnOk result (Adds (IsOfModule known.entry asked.now types.old types.new) (once_if (has_head known.entry.syntax.now n) n) modules.old.items modules.new.items) }
    ensures kept { Grows types.old types.new }
{
    match of_module(known, asked, types, n)? {
        Some(head) => {
            modules.push(Box::into_inner(head))?;
            Ok(())
        }
        None => Ok(()),
    }
}

/// The heads of these Modules.
fn of_modules(
    known: Known<'_>,
    asked: &Asked,
    types: &mut TypeArena,
    nodes: &[u32],
) -> Result<Vec<Head>, Memory>
    ensures modules { IfOk result (λ all. AreOfModules known.entry asked.now types.old types.new nodes.now all.items) }
    ensures kept { Grows types.old types.new }
{
    let mut modules = Vec::new(known.alloc);
    for n in nodes {
        push_module(known, asked, types, &mut modules, *n)?;
    }
    Ok(modules)
}

fn of_file(known: Known<'_>, types: &mut TypeArena) -> Result<Heads, Memory>
    ensures heads { IfOk result (AreOf known.entry types.old types.new) }
    ensures kept { Grows types.old types.new }
{
    let asked = asked_of(known, types)?;
    let modules = of_modules(known, &asked, types, known.syntax.tree().modules())?;
    Ok(Heads { modules, asked })
}

/// The heads of the modules of a tree, whose names are bound so and whose nodes come to these values, with types of the arena.
/// Types that stand at or round a node that is refused are no part of them. The only error is that memory runs out.
pub fn heads_of(
    alloc: Global,
    syntax: &Syntax,
    rounds: &[Round],
    names: &Names,
    types: &mut TypeArena,
    values: &[Value],
    refused: &[bool],
) -> Result<Heads, Memory>
    requires bound { names.now.bound.items ≡ bound_to syntax.now names.now.declared.items (length syntax.now) }
    requires starts { names.now.starts.items ≡ starts_to syntax.now names.now.declared.items (length syntax.now) }
    ensures heads { IfOk result (AreHeadsOf syntax.now rounds.now names.now.declared.items values.now refused.now types.old types.new) }
    ensures kept { Grows types.old types.new }
{
    let declared = names.declared.as_slice();
    let parameters = number_parameters(alloc, syntax.tree(), rounds, declared)?;
    let sets = sets_of(alloc, syntax, names)?;
    let numbers = parameters.numbers.as_slice();
    let led = sets.as_slice();
    let all = restricted_of(alloc, syntax, names, numbers, led)?;
    let counted = counts_of(alloc, refused)?;
    let refused = counted.as_slice();
    let restricted = all.as_slice();
    let counts = parameters.counts.as_slice();
    let known = Known {
        alloc,
        syntax,
        rounds,
        values,
        refused,
        restricted,
        counts,
    };
    of_file(known, types)
}
