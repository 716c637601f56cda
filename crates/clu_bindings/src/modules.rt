//! The modules that a file may name, by name: its own before those of the library.

ghost use Rattle.std.specs.Prelude.{◌≡◌, ◌++◌, ◌∷◌, [], List, IfOk, OnOk, length, map, take, Some};
ghost use Rattle.std.specs.Str.{bytes_eq};
ghost use Rattle.std.specs.HashMap.{get};
ghost use Rattle.clu_syntax.specs.Syntax.{Identifier};
ghost use Rattle.clu_names.specs.Scopes.{is_stream};
ghost use Rattle.clu_bindings.specs.declared.bindings.ModuleKnown.{ModuleKnown};
ghost use Rattle.clu_bindings.specs.Headlines.{headline_told, headline_at};
ghost use Rattle.clu_bindings.specs.Modules.{AreModules, is_new, with_name, with_module, is_routine_form, kept_known, kept_in, own_known, own_headed, own_in, modules_in};
ghost use Rattle.clu_bindings.specs.Numbered.{AreNumbered, modules_to, more_if, number_if, unit_at};
ghost use Rattle.clu_bindings.specs.Tables.{table_to};

use crate::bindings::{ModuleKnown, Modules};
use crate::headline::{Headline, headline_at};
use crate::meaning::ModuleId;
use clu_base::{Bytes, Memory, Sequence};
use clu_head::{is_at, kinds};
use clu_settle::Value;
use clu_syntax::Syntax;
use clu_tree::{NodeKind, Tree};
use clu_types::{Form, ParamKind, Spec, Specs, TypeArena};
use std::alloc::Global;
use std::collections::HashMap;

/// Whether the name is that of the built-in type `stream`, by which no module is known.
pub fn is_stream(name: &Bytes) -> bool
    ensures { result ≡ is_stream name.now }
{
    name.as_slice() == b"stream".as_slice()
}

/// The module that is found by a name.
fn found_by(by_name: &HashMap<Bytes, ModuleId>, name: &Bytes) -> Option<ModuleId>
    ensures { result ≡ get bytes_eq by_name.now name.now }
{
    by_name.get(name).copied()
}

/// Whether a module of this name is to be found by it, where this is found so far: by `stream` none is.
fn is_new(name: &Bytes, found: Option<ModuleId>) -> bool
    ensures { result ≡ is_new name.now found }
{
    match found {
        Some(_) => false,
        None => !is_stream(name),
    }
}

fn put(
    alloc: Global,
    by_name: &mut HashMap<Bytes, ModuleId>,
    name: &Bytes,
    id: ModuleId,
) -> Result<(), Memory>
    ensures { OnOk result ((q : Identifier) → get bytes_eq by_name.new q ≡ with_name name.now id (get bytes_eq by_name.old) q) }
{
    by_name.insert(name.copy(alloc)?, id)?;
    Ok(())
}

/// Enters a module by its name, unless one of this name is known, or it is that of the type `stream`.
fn enter(
    alloc: Global,
    by_name: &mut HashMap<Bytes, ModuleId>,
    name: &Bytes,
    id: ModuleId,
) -> Result<(), Memory>
    ensures { OnOk result ((q : Identifier) → get bytes_eq by_name.new q ≡ with_module name.now id (get bytes_eq by_name.old) q) }
{
    if is_new(name, found_by(by_name, name)) {
        put(alloc, by_name, name, id)
    } else {
        Ok(())
    }
}

/// Appends a module, and enters its name, unless a module of this name is known.
fn push(
    alloc: Global,
    modules: &mut Modules,
    name: &Bytes,
    known: ModuleKnown,
) -> Result<ModuleId, Memory>
    ensures { OnOk result ((all : List (Identifier × ModuleKnown)) → AreModules modules.old all → AreModules modules.new (all ++ (name.now, known) ∷ [])) }
{
    let module = ModuleId(modules.count());
    modules.known.push(known)?;
    enter(alloc, &mut modules.by_name, name, module)?;
    Ok(module)
}

/// Appends the module that this is read of.
fn push_own(
    alloc: Global,
    syntax: &Syntax,
    types: &TypeArena,
    values: &[Value],
    modules: &mut Modules,
    headline: Headline<'_>,
) -> Result<ModuleId, Memory>
    ensures { OnOk result ((all : List (Identifier × ModuleKnown)) → AreModules modules.old all → AreModules modules.new (all ++ (headline.entry.name.now, own_known types.now values.now syntax.now (headline_told headline.entry)) ∷ [])) }
{
    let known = ModuleKnown {
        kinds: kinds(alloc, syntax, types, values, headline.parameters)?,
        is_routine: headline.is_routine,
    };
    push(alloc, modules, headline.name, known)
}

/// Appends the module of the node n, if it is a Module.
fn push_module(
    alloc: Global,
    syntax: &Syntax,
    types: &TypeArena,
    values: &[Value],
    modules: &mut Modules,
    n: u32,
) -> Result<(), Memory>
    ensures { OnOk result ((all : List (Identifier × ModuleKnown)) → AreModules modules.old all → AreModules modules.new (all ++ own_headed types.now values.now syntax.now (headline_at syntax.now n))) }
{
    match headline_at(syntax, n) {
        Some(headline) => {
            push_own(alloc, syntax, types, values, modules, headline)?;
            Ok(())
        }
        None => Ok(()),
    }
}

fn push_modules(
    alloc: Global,
    syntax: &Syntax,
    types: &TypeArena,
    values: &[Value],
    modules: &mut Modules,
    nodes: &[u32],
) -> Result<(), Memory>
    ensures { OnOk result ((all : List (Identifier × ModuleKnown)) → AreModules modules.old all → AreModules modules.new (all ++ own_in types.now values.now syntax.now nodes.now)) }
{
    for n in nodes {
        push_module(alloc, syntax, types, values, modules, *n)?;
    }
    Ok(())
}

fn known_kinds(alloc: Global, kinds: &[ParamKind]) -> Result<Sequence<Option<ParamKind>>, Memory>
    ensures { IfOk result (λ known. known ≡ map (λ k. Some k) kinds.now) }
{
    let mut known = Vec::new(alloc);
    for kind in kinds {
        known.push(Some(*kind))?;
    }
    Ok(Sequence::from_vec(known))
}

fn is_routine(form: &Form) -> bool
    ensures { result ≡ is_routine_form form.now }
{
    match form {
        Form::Routine(_) => true,
        Form::Cluster(_, _) => false,
    }
}

fn push_kept(alloc: Global, modules: &mut Modules, spec: &Spec) -> Result<(), Memory>
    ensures { OnOk result ((all : List (Identifier × ModuleKnown)) → AreModules modules.old all → AreModules modules.new (all ++ (spec.now.name, kept_known spec.now) ∷ [])) }
{
    let known = ModuleKnown {
        kinds: known_kinds(alloc, spec.kinds.as_slice())?,
        is_routine: is_routine(&spec.form),
    };
    push(alloc, modules, &spec.name, known)?;
    Ok(())
}

fn push_library(alloc: Global, modules: &mut Modules, library: &Specs) -> Result<(), Memory>
    ensures { OnOk result ((all : List (Identifier × ModuleKnown)) → AreModules modules.old all → AreModules modules.new (all ++ kept_in (take 4294967295 library.now))) }
{
    for n in 0..u32::MAX {
        match library.at(n) {
            Some(spec) => push_kept(alloc, modules, spec)?,
            None => return Ok(()),
        }
    }
    Ok(())
}

fn no_modules(alloc: Global) -> Modules
    ensures { AreModules result [] }
{
    let by_name = HashMap::new(alloc);
    let known = Vec::new(alloc);
    Modules {
        by_name,
        known,
        of_file: 0,
        units: Vec::new(alloc),
    }
}

/// One more, as far as 32 bits count.
fn more_if(is: bool, many: u32) -> u32
    ensures { result ≡ more_if is many }
{
    if is { many.saturating_add(1) } else { many }
}

fn number_if(is: bool, many: u32) -> Option<ModuleId>
    ensures { result ≡ number_if is many }
{
    if is { Some(ModuleId(many)) } else { None }
}

/// For each Module of a tree which it is, and how many there are.
#[tactic(auto, unfolding(crate::specs::Tables::table_to, crate::specs::Numbered::modules_to))]
fn units_of(alloc: Global, tree: &Tree) -> Result<(Vec<Option<ModuleId>>, u32), Memory>
    ensures units { IfOk result (λ both. both.0.items ≡ table_to (unit_at tree.now) (length tree.now)) }
    ensures many { IfOk result (λ both. both.1 ≡ modules_to tree.now (length tree.now)) }
{
    let mut units = Vec::new(alloc);
    let mut many = 0;
    for n in 0..tree.len() {
        let is = is_at(tree, n, NodeKind::Module);
        units.push(number_if(is, many))?;
        many = more_if(is, many);
    }
    Ok((units, many))
}

/// The same modules, of which it is known which are those of this tree.
fn numbered(alloc: Global, tree: &Tree, modules: Modules) -> Result<Modules, Memory>
    ensures modules { IfOk result (λ all. (known : List (Identifier × ModuleKnown)) → AreModules modules known → AreModules all known) }
    ensures numbered { IfOk result (λ all. AreNumbered tree.now all) }
{
    let (units, of_file) = units_of(alloc, tree)?;
    Ok(Modules {
        by_name: modules.by_name,
        known: modules.known,
        of_file,
        units,
    })
}

/// The modules of a file, and those of its library. The only error is that memory runs out.
pub fn modules_of(
    alloc: Global,
    syntax: &Syntax,
    types: &TypeArena,
    values: &[Value],
    library: &Specs,
) -> Result<Modules, Memory>
    ensures known { IfOk result (λ modules. AreModules modules (modules_in types.now values.now syntax.now library.now)) }
    ensures numbered { IfOk result (λ modules. AreNumbered syntax.now modules) }
{
    let mut modules = no_modules(alloc);
    let nodes = syntax.tree().modules();
    push_modules(alloc, syntax, types, values, &mut modules, nodes)?;
    push_library(alloc, &mut modules, library)?;
    numbered(alloc, syntax.tree(), modules)
}
