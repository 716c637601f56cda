//! The declaration that counts of each name: the first module of the file, and among those of a text whose scope has
//! begun the one whose scope ends last.

ghost use Rattle.std.specs.Prelude.{◌≡◌, ◌<◌, List, ℕ, OnOk, length, slice_get, Some, if◌then◌else◌};
ghost use Rattle.std.specs.Str.{bytes_eq};
ghost use Rattle.indexmap.specs.IndexMap.{get};
ghost use Rattle.clu_names.specs.Denotes.{found};
ghost use Rattle.clu_names.specs.Latest.{is_local, is_none, at, outlasts, with_local, local_at, with_module, module_at, reaches, denoted, AreModules, AreLocals};
ghost use Rattle.clu_names.specs.Order.{AreChains};

use crate::scopes::Declared;
use clu_base::{Bytes, Memory};
use indexmap::IndexMap;
use std::alloc::Global;

/// For each name the place of a declaration in the list of declarations.
pub type Places = IndexMap<Bytes, usize>;

/// The place that is kept for a name.
fn place_of(places: &Places, name: &Bytes) -> Option<usize>
    ensures { result ≡ get bytes_eq places.now name.now }
{
    places.get(name).copied()
}

/// Keeps a place for a name.
fn put(alloc: Global, places: &mut Places, name: &Bytes, place: usize) -> Result<(), Memory>
    ensures { OnOk result ((q : List ℕ) → get bytes_eq places.new q ≡ (if bytes_eq name.now q then Some place else get bytes_eq places.old q)) }
{
    places.insert(name.copy(alloc)?, place)?;
    Ok(())
}

fn is_local(unit: Option<u32>) -> bool
    ensures { result ≡ is_local unit }
{
    match unit {
        Some(_) => true,
        None => false,
    }
}

/// Whether the declaration at a place counts where the one at `best` did.
fn outlasts(declared: &[Declared], one: &Declared, place: usize, best: Option<usize>) -> bool
    ensures { result ≡ outlasts one.now place (at declared.now best) best }
{
    match best {
        None => true,
        Some(b) => match declared.get(b) {
            None => true,
            Some(other) => other.to < one.to || (other.to == one.to && place < b),
        },
    }
}

/// Keeps the place of a declaration of a text, if it counts now.
fn enter_one(
    alloc: Global,
    locals: &mut Places,
    declared: &[Declared],
    place: usize,
    one: &Declared,
) -> Result<(), Memory>
    ensures { OnOk result ((q : List ℕ) → get bytes_eq locals.new q ≡ with_local declared.now one.now place (get bytes_eq locals.old) q) }
{
    if is_local(one.unit) && outlasts(declared, one, place, place_of(locals, &one.name)) {
        put(alloc, locals, &one.name, place)
    } else {
        Ok(())
    }
}

/// The same of the declaration at a place.
fn enter(
    alloc: Global,
    locals: &mut Places,
    declared: &[Declared],
    place: usize,
) -> Result<(), Memory>
    ensures { OnOk result ((q : List ℕ) → get bytes_eq locals.new q ≡ local_at declared.now (slice_get declared.now place) place (get bytes_eq locals.old) q) }
{
    match declared.get(place) {
        Some(one) => enter_one(alloc, locals, declared, place, one),
        None => Ok(()),
    }
}

/// The declarations whose scope begins at the node n come into play.
pub fn enter_from(
    alloc: Global,
    locals: &mut Places,
    declared: &[Declared],
    heads: &[usize],
    nexts: &[usize],
    n: u32,
) -> Result<(), Memory>
    requires inside { n < length heads.now }
    requires chains { AreChains declared.now 0 heads.now nexts.now }
    requires before { AreLocals declared.now n 0 (get bytes_eq locals.old) }
    ensures { OnOk result (AreLocals declared.now n (length declared.now) (get bytes_eq locals.new)) }
{
    let mut place = heads[n as usize];
    while place < declared.len() {
        enter(alloc, locals, declared, place)?;
        place = nexts[place];
    }
    Ok(())
}

/// Whether no place is kept.
fn is_none(place: Option<usize>) -> bool
    ensures { result ≡ is_none place }
{
    match place {
        Some(_) => false,
        None => true,
    }
}

/// Keeps the place of a module, if it is the first of its name.
fn note_one(alloc: Global, modules: &mut Places, place: usize, one: &Declared) -> Result<(), Memory>
    ensures { OnOk result ((q : List ℕ) → get bytes_eq modules.new q ≡ with_module one.now place (get bytes_eq modules.old) q) }
{
    if !is_local(one.unit) && is_none(place_of(modules, &one.name)) {
        put(alloc, modules, &one.name, place)
    } else {
        Ok(())
    }
}

/// The same of the declaration at a place.
fn note(
    alloc: Global,
    modules: &mut Places,
    declared: &[Declared],
    place: usize,
) -> Result<(), Memory>
    ensures { OnOk result ((q : List ℕ) → get bytes_eq modules.new q ≡ module_at (slice_get declared.now place) place (get bytes_eq modules.old) q) }
{
    match declared.get(place) {
        Some(one) => note_one(alloc, modules, place, one),
        None => Ok(()),
    }
}

/// Keeps the first module of each name.
pub fn note_modules(
    alloc: Global,
    modules: &mut Places,
    declared: &[Declared],
) -> Result<(), Memory>
    requires before { AreModules declared.now 0 (get bytes_eq modules.old) }
    ensures { OnOk result (AreModules declared.now (length declared.now) (get bytes_eq modules.new)) }
{
    for place in 0..declared.len() {
        note(alloc, modules, declared, place)?;
    }
    Ok(())
}

/// Whether the scope of the declaration at a place goes to the node n.
fn reaches(declared: &[Declared], n: u32, place: Option<usize>) -> bool
    ensures { result ≡ reaches n (at declared.now place) }
{
    match place {
        None => false,
        Some(b) => match declared.get(b) {
            None => false,
            Some(one) => n <= one.to,
        },
    }
}

/// The declaration of the text that counts, if its scope goes to the node n, else the module.
fn chosen(
    declared: &[Declared],
    modules: &Places,
    locals: &Places,
    n: u32,
    name: &Bytes,
) -> Option<usize>
    ensures { result ≡ denoted declared.now n (get bytes_eq locals.now name.now) (get bytes_eq modules.now name.now) }
{
    let latest = place_of(locals, name);
    if reaches(declared, n, latest) {
        latest
    } else {
        place_of(modules, name)
    }
}

/// The place of the declaration that a name denotes at the node n, where the scopes that begin up to it are in play.
pub fn denoted(
    declared: &[Declared],
    modules: &Places,
    locals: &Places,
    n: u32,
    name: &Bytes,
) -> Option<usize>
    requires modules { AreModules declared.now (length declared.now) (get bytes_eq modules.now) }
    requires locals { AreLocals declared.now n (length declared.now) (get bytes_eq locals.now) }
    ensures { result ≡ found declared.now name.now n }
{
    chosen(declared, modules, locals, n, name)
}
