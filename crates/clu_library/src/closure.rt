//! The modules that a body rests on.

ghost use Rattle.std.specs.Prelude.{◌≡◌, ◌≢◌, [], ℕ, List, Contains, find, fold, slice_get, IfOk, OnOk};
ghost use Rattle.std.specs.Option.{option_copied};
ghost use Rattle.std.specs.List.{cons_option, filter_map};
ghost use Rattle.std.specs.Str.{bytes_eq};
ghost use Rattle.clu_types.specs.Specs.{with_spec};
ghost use Rattle.clu_library.specs.Resting.{cluster_name, with_changed, IsClosure};
ghost use Rattle.clu_library.specs.Growing.{with_name, named_at, spec_named};

use clu_base::{Bytes, Memory};
use clu_types::{Spec, Specs, Term, TypeArena, TypeId};
use indexmap::IndexSet;
use std::alloc::Global;

/// These names, and those of all modules that the specification of one of them names; `own` is left out. The specification
/// `changed` stands in the place of the kept one of its module.
pub fn closure(
    alloc: Global,
    specs: &Specs,
    changed: Option<&Spec>,
    own: &Bytes,
    names: &[Bytes],
) -> Result<IndexSet<Bytes>, Memory>
    ensures { IfOk result (λ found. IsClosure (with_changed specs.now (option_copied changed.entry)) own.now names.now found.keys) }
{
    let mut found = IndexSet::new(alloc);
    fill(alloc, &mut found, specs, changed, own, names)?;
    Ok(found)
}

#[tactic(auto, using(crate::proofs::Closing::closure_from_start))]
fn fill(
    alloc: Global,
    found: &mut IndexSet<Bytes>,
    specs: &Specs,
    changed: Option<&Spec>,
    own: &Bytes,
    names: &[Bytes],
) -> Result<(), Memory>
    requires { found.old.keys ≡ [] }
    ensures { OnOk result (IsClosure (with_changed specs.now (option_copied changed.entry)) own.now names.now found.new.keys) }
{
    add_names(alloc, found, own, names)?;
    add_reached(alloc, found, specs, changed, own)
}

fn add_name(
    alloc: Global,
    found: &mut IndexSet<Bytes>,
    own: &Bytes,
    name: &Bytes,
) -> Result<(), Memory>
    ensures { OnOk result (found.new.keys ≡ with_name own.now found.old.keys name.now) }
{
    if name == own || found.contains(name) {
        return Ok(());
    }
    found.insert(name.copy(alloc)?)?;
    Ok(())
}

fn add_names(
    alloc: Global,
    found: &mut IndexSet<Bytes>,
    own: &Bytes,
    names: &[Bytes],
) -> Result<(), Memory>
    ensures { OnOk result (found.new.keys ≡ fold (with_name own.now) found.old.keys names.now) }
{
    for name in names {
        add_name(alloc, found, own, name)?;
    }
    Ok(())
}

/// Goes over the names in the order in which they were found, and adds what their specifications name.
#[tactic(auto, using(crate::proofs::Closing::reaching_first))]
fn add_reached(
    alloc: Global,
    found: &mut IndexSet<Bytes>,
    specs: &Specs,
    changed: Option<&Spec>,
    own: &Bytes,
) -> Result<(), Memory>
    requires { (m : List ℕ) → Contains found.old.keys m → m ≢ own.now }
    ensures { OnOk result (IsClosure (with_changed specs.now (option_copied changed.entry)) own.now found.old.keys found.new.keys) }
{
    for n in 0..usize::MAX {
        if n >= found.len() {
            return Ok(());
        }
        add_next(alloc, found, specs, changed, own, n)?;
    }
    Ok(())
}

/// Adds what the specification of the n-th module names.
fn add_next(
    alloc: Global,
    found: &mut IndexSet<Bytes>,
    specs: &Specs,
    changed: Option<&Spec>,
    own: &Bytes,
    n: usize,
) -> Result<(), Memory>
    ensures { OnOk result (found.new.keys ≡ fold (with_name own.now) found.old.keys (named_at (with_changed specs.now (option_copied changed.entry)) (slice_get found.old.keys n))) }
{
    match spec_at(found, specs, changed, n) {
        Some(spec) => add_named(alloc, found, own, &spec.types),
        None => Ok(()),
    }
}

/// The specification of the n-th module, if there is one.
fn spec_at<'a>(
    found: &IndexSet<Bytes>,
    specs: &'a Specs,
    changed: Option<&'a Spec>,
    n: usize,
) -> Option<&'a Spec>
    ensures { option_copied result ≡ spec_named (with_changed specs.now (option_copied changed.entry)) (slice_get found.now.keys n) }
{
    match found.get_index(n) {
        Some(name) => spec_of(specs, changed, name),
        None => None,
    }
}

/// The specification of a module; that of `changed` is this one.
pub fn spec_of<'a>(specs: &'a Specs, changed: Option<&'a Spec>, name: &Bytes) -> Option<&'a Spec>
    ensures { option_copied result ≡ find (λ s. bytes_eq s.name name.now) (with_changed specs.now (option_copied changed.entry)) }
{
    match changed {
        Some(spec) => spec_or(spec, specs, name),
        None => specs.get(name),
    }
}

/// The specification if it is that of the module, or else the kept one.
fn spec_or<'a>(spec: &'a Spec, specs: &'a Specs, name: &Bytes) -> Option<&'a Spec>
    ensures { option_copied result ≡ find (λ s. bytes_eq s.name name.now) (with_spec specs.now spec.now) }
{
    if spec.name == *name {
        Some(spec)
    } else {
        specs.get(name)
    }
}

/// Adds the names of the clusters among these types.
#[tactic(auto, using(crate::proofs::Terms::all_added))]
fn add_named(
    alloc: Global,
    found: &mut IndexSet<Bytes>,
    own: &Bytes,
    types: &TypeArena,
) -> Result<(), Memory>
    ensures { OnOk result (found.new.keys ≡ fold (with_name own.now) found.old.keys (filter_map cluster_name types.now)) }
{
    for n in 0..types.len() {
        add_term(alloc, found, own, types.view(TypeId(n as u64)))?;
    }
    Ok(())
}

fn add_term(
    alloc: Global,
    found: &mut IndexSet<Bytes>,
    own: &Bytes,
    term: &Term,
) -> Result<(), Memory>
    ensures { OnOk result (found.new.keys ≡ fold (with_name own.now) found.old.keys (cons_option (cluster_name term.now) [])) }
{
    match cluster_name(term) {
        Some(name) => add_name(alloc, found, own, name),
        None => Ok(()),
    }
}

/// The module of a type, if it is that of a cluster.
pub fn cluster_name(term: &Term) -> Option<&Bytes>
    ensures { option_copied result ≡ cluster_name term.now }
{
    match term {
        Term::Cluster(name, _) => Some(name),
        Term::Null
        | Term::Bool
        | Term::Int
        | Term::Char
        | Term::Str
        | Term::Any
        | Term::Stream
        | Term::Array(_)
        | Term::Sequence(_)
        | Term::Record(_)
        | Term::Struct(_)
        | Term::Oneof(_)
        | Term::Variant(_)
        | Term::Proc(_)
        | Term::Iter(_)
        | Term::Param(_) => None,
    }
}
