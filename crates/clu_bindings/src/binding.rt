//! The tables of what names denote and what is wanted, made in their order.

ghost use Rattle.std.specs.Prelude.{◌≡◌, false, IfOk, List, Some, length, slice_get};
ghost use Rattle.clu_tree.specs.declared.node.Node.{Node};
ghost use Rattle.clu_tree.specs.declared.node.NodeKind.{NodeKind};
ghost use Rattle.clu_types.specs.Arena.{Grows};
ghost use Rattle.clu_names.specs.Denotes.{bound_to, starts_to};
ghost use Rattle.clu_syntax.specs.Syntax.{Identifier};
ghost use Rattle.clu_bindings.specs.declared.bindings.ModuleKnown.{ModuleKnown};
ghost use Rattle.clu_bindings.specs.Headlines.{headline_told, headline_of};
ghost use Rattle.clu_bindings.specs.Modules.{named, AreModules, modules_in};
ghost use Rattle.clu_bindings.specs.Numbered.{AreNumbered};
ghost use Rattle.clu_bindings.specs.Owned.{IsOwned, AreOwned};
ghost use Rattle.clu_bindings.specs.Parameters.{AreParameters};
ghost use Rattle.clu_bindings.specs.Declaring.{declared_of};
ghost use Rattle.clu_bindings.specs.Bindings.{placed, places_to, AreBindings};

use crate::bindings::{Bindings, Modules, ParameterTypes};
use crate::declaring::{declared_of, meanings_of};
use crate::headline::{Headline, cluster_at};
use crate::meaning::Meaning;
use crate::modules::modules_of;
use crate::nodes::children_of;
use crate::parameters::parameters_of;
use crate::reps::reps_of;
use crate::wanting::{takers_of, wanted_of};
use clu_base::Memory;
use clu_head::{is_at, kinds, own_type, sets_of};
use clu_names::Names;
use clu_settle::Value;
use clu_syntax::{Round, Syntax};
use clu_tree::{NodeKind, Tree};
use clu_types::{Specs, TypeArena, TypeId};
use std::alloc::Global;

/// Writes the place of each of these children of a node.
#[tactic(auto, unfolding(crate::specs::Bindings::placed))]
fn place_all(places: &mut [usize], children: &[u32])
    ensures { places.new ≡ placed places.old 0 children.now }
{
    for at in 0..children.len() {
        let child = children[at] as usize;
        if child < places.len() {
            places[child] = at;
        }
    }
}

/// For each node its place among its parent's children.
#[tactic(auto, unfolding(crate::specs::Bindings::places_to))]
fn places_of(alloc: Global, tree: &Tree) -> Result<Vec<usize>, Memory>
    ensures { IfOk result (λ places. places.items ≡ places_to tree.now (length tree.now)) }
{
    let mut places = vec![in alloc; 0usize; tree.len() as usize]?;
    for n in 0..tree.len() {
        place_all(&mut places, children_of(tree, n));
    }
    Ok(places)
}

/// The type of the cluster that is read so, with its own parameters.
fn own_headed(
    alloc: Global,
    syntax: &Syntax,
    types: &mut TypeArena,
    values: &[Value],
    headline: Headline<'_>,
) -> Result<Option<TypeId>, Memory>
    ensures own { IfOk result (λ found. IsOwned types.new values.now syntax.now (headline_told headline.entry) found) }
    ensures kept { Grows types.old types.new }
{
    let kinds = kinds(alloc, syntax, types, values, headline.parameters)?;
    own_type(alloc, types, headline.name, kinds.as_slice())
}

/// That of the node n, if it is a Cluster.
fn own_at(
    alloc: Global,
    syntax: &Syntax,
    types: &mut TypeArena,
    values: &[Value],
    n: u32,
) -> Result<Option<TypeId>, Memory>
    ensures own { IfOk result (λ found. (node : Node) → slice_get syntax.now n ≡ Some node → node.kind ≡ NodeKind.Cluster → IsOwned types.new values.now syntax.now (headline_of syntax.now false node) found) }
    ensures kept { Grows types.old types.new }
{
    if is_at(syntax.tree(), n, NodeKind::Cluster) {
        own_headed(alloc, syntax, types, values, cluster_at(syntax, n))
    } else {
        Ok(None)
    }
}

/// Those of the first so many nodes.
fn own_to(
    alloc: Global,
    syntax: &Syntax,
    types: &mut TypeArena,
    values: &[Value],
    count: u32,
) -> Result<Vec<Option<TypeId>>, Memory>
    ensures own { IfOk result (λ all. AreOwned types.new values.now syntax.now count all.items) }
    ensures kept { Grows types.old types.new }
{
    let mut all = Vec::new(alloc);
    for n in 0..count {
        let found = own_at(alloc, syntax, types, values, n)?;
        all.push(found)?;
    }
    Ok(all)
}

/// For each Cluster its type with its own parameters.
fn own_of(
    alloc: Global,
    syntax: &Syntax,
    types: &mut TypeArena,
    values: &[Value],
) -> Result<Vec<Option<TypeId>>, Memory>
    ensures own { IfOk result (λ all. AreOwned types.new values.now syntax.now (length syntax.now) all.items) }
    ensures kept { Grows types.old types.new }
{
    own_to(alloc, syntax, types, values, syntax.tree().len())
}

/// The tables, where this is known of modules, parameters, declarations and names.
fn tables_of(
    alloc: Global,
    syntax: &Syntax,
    rounds: &[Round],
    names: &Names,
    types: &mut TypeArena,
    values: &[Value],
    modules: Modules,
    parameters: ParameterTypes,
    declared: Vec<Meaning>,
) -> Result<Box<Bindings>, Memory>
    requires bound { names.now.bound.items ≡ bound_to syntax.now names.now.declared.items (length syntax.now) }
    requires starts { names.now.starts.items ≡ starts_to syntax.now names.now.declared.items (length syntax.now) }
    requires parameters { AreParameters syntax.now rounds.now names.now.declared.items parameters }
    requires declared { declared.items ≡ declared_of syntax.now rounds.now (named modules) parameters.counts.items parameters.numbers.items names.now.declared.items }
    ensures tables { IfOk result (λ all. AreBindings syntax.now rounds.now names.now values.now all.value) }
    ensures modules { IfOk result (λ all. (known : List (Identifier × ModuleKnown)) → AreModules modules known → AreModules all.value.modules known) }
    ensures numbered { IfOk result (λ all. AreNumbered syntax.now modules → AreNumbered syntax.now all.value.modules) }
    ensures own { IfOk result (λ all. AreOwned types.new values.now syntax.now (length syntax.now) all.value.own.items) }
    ensures kept { Grows types.old types.new }
{
    let tree = syntax.tree();
    let meanings = meanings_of(alloc, tree, names, &modules, declared.as_slice())?;
    let sets = sets_of(alloc, syntax, names)?;
    let takes_actuals = takers_of(
        alloc,
        tree,
        names,
        values,
        meanings.as_slice(),
        sets.as_slice(),
    )?;
    let wanted = wanted_of(alloc, tree, rounds, takes_actuals.as_slice())?;
    let bindings = Bindings {
        modules,
        parameters,
        declared,
        meanings,
        sets,
        places: places_of(alloc, tree)?,
        reps: reps_of(alloc, names.declared.as_slice(), tree.len())?,
        own: own_of(alloc, syntax, types, values)?,
        takes_actuals,
        wanted,
    };
    Ok(Box::new(alloc, bindings)?)
}

/// What the names of a file denote and what is wanted at its nodes, which come to these values. The only error is that memory
/// runs out.
pub fn bindings_of(
    alloc: Global,
    syntax: &Syntax,
    rounds: &[Round],
    names: &Names,
    types: &mut TypeArena,
    values: &[Value],
    library: &Specs,
) -> Result<Box<Bindings>, Memory>
    requires bound { names.now.bound.items ≡ bound_to syntax.now names.now.declared.items (length syntax.now) }
    requires starts { names.now.starts.items ≡ starts_to syntax.now names.now.declared.items (length syntax.now) }
    ensures tables { IfOk result (λ all. AreBindings syntax.now rounds.now names.now values.now all.value) }
    ensures modules { IfOk result (λ all. AreModules all.value.modules (modules_in types.old values.now syntax.now library.now)) }
    ensures numbered { IfOk result (λ all. AreNumbered syntax.now all.value.modules) }
    ensures own { IfOk result (λ all. AreOwned types.new values.now syntax.now (length syntax.now) all.value.own.items) }
    ensures kept { Grows types.old types.new }
{
    let modules = modules_of(alloc, syntax, types, values, library)?;
    let parameters = parameters_of(alloc, syntax, rounds, names)?;
    let declared = declared_of(
        alloc,
        syntax.tree(),
        rounds,
        names.declared.as_slice(),
        &parameters,
        &modules,
    )?;
    let tables = tables_of(
        alloc, syntax, rounds, names, types, values, modules, parameters, declared,
    )?;
    Ok(tables)
}
