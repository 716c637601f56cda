//! How late the modules were replaced that a specification leads to.

ghost use Rattle.std.specs.Prelude.{◌≡◌, ◌+◌, [], ℕ, List, IfOk, IsTrue, Some, find, is_some};
ghost use Rattle.std.specs.List.{cons_option, filter_map, list_all, list_any};
ghost use Rattle.std.specs.Option.{option_copied};
ghost use Rattle.std.specs.Str.{bytes_eq};
ghost use Rattle.clu_library.specs.Bounds.{in_table, rank_in, AreBounds, AreReached, bounds_spec, bounds_change, passes_if, at_most, leads, reaches_spec};
ghost use Rattle.clu_library.specs.Resting.{cluster_name, with_changed};

use crate::body::{Body, Change};
use crate::by_name::ByName;
use crate::closure::{cluster_name, spec_of};
use clu_base::{Bytes, Memory};
use clu_types::{Spec, Specs, Term, TypeArena, TypeId};
use indexmap::IndexSet;
use std::alloc::Global;

/// For each kept module the latest revision at which a module was replaced that its specification leads to, or it itself.
/// That these are bounds, and that each is reached, is asked of the table when it is made, so nothing rests on how it is
/// made.
#[derive(Drop)]
pub struct Latest {
    table: Table,
    are_bounds: bool,
    are_reached: bool,
}

/// Modules are numbered in ascending order of their names.
#[derive(Drop)]
pub struct Table {
    modules: IndexSet<Bytes>,
    /// The modules whose specifications name the module.
    named_by: Vec<Vec<usize>>,
    latest: Vec<u32>,
    /// The order in which the modules got their revisions.
    ranks: Vec<usize>,
    /// How many have one.
    reached: usize,
}

impl Latest {
    /// The revisions by these changes, if the specification `changed` stands in the place of the kept one of its module.
    pub fn find(
        alloc: Global,
        specs: &Specs,
        changed: Option<&Spec>,
        changes: &ByName<Change>,
    ) -> Result<Latest, Memory>
        ensures bounds { IfOk result (λ found. IsTrue found.are_bounds → AreBounds (with_changed specs.now (option_copied changed.entry)) changes.now (in_table found.table)) }
        ensures reached { IfOk result (λ found. IsTrue found.are_reached → AreReached (with_changed specs.now (option_copied changed.entry)) changes.now (in_table found.table) (rank_in found.table)) }
    {
        let mut table = Table::new(alloc);
        table.fill(alloc, specs, changed, changes.as_slice())?;
        let are_bounds = table.are_bounds(specs, changed, changes.as_slice());
        let are_reached = table.are_reached(specs, changed, changes);
        Ok(Latest {
            table,
            are_bounds,
            are_reached,
        })
    }

    /// Whether no module on which a body rests was replaced after the body was checked. If it says no, one may have been.
    pub fn excludes(&self, body: &Body) -> bool
        ensures { IsTrue result → IsTrue self.now.are_bounds × ((names : List (List ℕ)) × (body.now.names ≡ Some names) × IsTrue (at_most (in_table self.now.table) body.now.checked names)) }
    {
        match &body.names {
            Some(names) => self.are_bounds
                && self.table.are_at_most(names.as_slice(), body.checked),
            None => false,
        }
    }

    /// Whether a module was replaced after a body of the module `own` was checked that rests on it. If it says no, one may
    /// have been.
    pub fn includes(&self, specs: &Specs, changed: Option<&Spec>, own: &Bytes, body: &Body) -> bool
        ensures { IsTrue result → IsTrue self.now.are_reached × ((names : List (List ℕ)) × (body.now.names ≡ Some names) × IsTrue (list_any (leads (with_changed specs.now (option_copied changed.entry)) (in_table self.now.table) (rank_in self.now.table) own.now (body.now.checked + 1)) names)) }
    {
        match &body.names {
            Some(names) => self.are_reached
                && self.table.any_leads(
                    specs,
                    changed,
                    own,
                    u64::from(body.checked) + 1,
                    names.as_slice(),
                ),
            None => false,
        }
    }
}

impl Table {
    fn new(alloc: Global) -> Table {
        Table {
            modules: IndexSet::new(alloc),
            named_by: Vec::new(alloc),
            latest: Vec::new(alloc),
            ranks: Vec::new(alloc),
            reached: 0,
        }
    }

    /// The revision of a module; 0 if none is kept.
    fn of(&self, name: &Bytes) -> u32
        ensures { result ≡ in_table self.now name.now }
    {
        match self.modules.get_index_of(name) {
            Some(n) => match self.latest.get(n) {
                Some(revision) => *revision,
                None => 0,
            },
            None => 0,
        }
    }

    /// The place of a module in the order in which they got their revisions.
    fn rank(&self, name: &Bytes) -> usize
        ensures { result ≡ rank_in self.now name.now }
    {
        match self.modules.get_index_of(name) {
            Some(n) => match self.ranks.get(n) {
                Some(rank) => *rank,
                None => 0,
            },
            None => 0,
        }
    }

    /// Whether the revisions of these modules are at most this one.
    fn are_at_most(&self, names: &[Bytes], most: u32) -> bool
        ensures { result ≡ at_most (in_table self.now) most names.now }
    {
        for name in names {
            if self.of(name) > most {
                return false;
            }
        }
        true
    }

    /// Whether the revisions are bounds.
    #[tactic(auto, using(crate::proofs::Bounding::are_bounds))]
    fn are_bounds(&self, specs: &Specs, changed: Option<&Spec>, changes: &[Change]) -> bool
        ensures { IsTrue result → AreBounds (with_changed specs.now (option_copied changed.entry)) changes.now (in_table self.now) }
    {
        self.bounds_changed(changed) && self.bounds_specs(specs) && self.bounds_changes(changes)
    }

    fn bounds_changed(&self, changed: Option<&Spec>) -> bool
        ensures { result ≡ passes_if (bounds_spec (in_table self.now)) (option_copied changed.entry) }
    {
        match changed {
            Some(spec) => self.bounds_spec(spec),
            None => true,
        }
    }

    /// Whether the revision of a module is at least that of each which its specification names.
    fn bounds_spec(&self, spec: &Spec) -> bool
        ensures { result ≡ bounds_spec (in_table self.now) spec.now }
    {
        self.bounds_types(&spec.types, self.of(&spec.name))
    }

    #[tactic(auto, using(crate::proofs::Terms::bounded))]
    fn bounds_types(&self, types: &TypeArena, most: u32) -> bool
        ensures { result ≡ at_most (in_table self.now) most (filter_map cluster_name types.now) }
    {
        for n in 0..types.len() {
            if !self.bounds_term(types.view(TypeId(n as u64)), most) {
                return false;
            }
        }
        true
    }

    fn bounds_term(&self, term: &Term, most: u32) -> bool
        ensures { result ≡ at_most (in_table self.now) most (cons_option (cluster_name term.now) []) }
    {
        match cluster_name(term) {
            Some(name) => self.of(name) <= most,
            None => true,
        }
    }

    #[tactic(auto, using(crate::proofs::Walking::walks))]
    fn bounds_specs(&self, specs: &Specs) -> bool
        ensures { IsTrue result → IsTrue (list_all (bounds_spec (in_table self.now)) specs.now) }
    {
        for n in 0..u32::MAX {
            let Some(spec) = specs.at(n) else {
                return true;
            };
            if !self.bounds_spec(spec) {
                return false;
            }
        }
        false
    }

    /// Whether the revision of each module is at least the one at which it was replaced.
    fn bounds_changes(&self, changes: &[Change]) -> bool
        ensures { result ≡ list_all (bounds_change (in_table self.now)) changes.now }
    {
        for change in changes {
            if change.revision > self.of(&change.name) {
                return false;
            }
        }
        true
    }

    /// Whether each kept module was replaced at its revision, or its specification leads on to one that was reached before
    /// it and has a revision as late.
    #[tactic(auto, using(crate::proofs::Leading::are_reached))]
    fn are_reached(&self, specs: &Specs, changed: Option<&Spec>, changes: &ByName<Change>) -> bool
        ensures { IsTrue result → AreReached (with_changed specs.now (option_copied changed.entry)) changes.now (in_table self.now) (rank_in self.now) }
    {
        self.reaches_changed(specs, changed, changes) && self.reaches_specs(specs, changed, changes)
    }

    fn reaches_changed(
        &self,
        specs: &Specs,
        changed: Option<&Spec>,
        changes: &ByName<Change>,
    ) -> bool
        ensures { result ≡ passes_if (reaches_spec (with_changed specs.now (option_copied changed.entry)) changes.now (in_table self.now) (rank_in self.now)) (option_copied changed.entry) }
    {
        match changed {
            Some(spec) => self.reaches_spec(specs, changed, changes, spec),
            None => true,
        }
    }

    #[tactic(auto, using(crate::proofs::Walking::walks))]
    fn reaches_specs(&self, specs: &Specs, changed: Option<&Spec>, changes: &ByName<Change>) -> bool
        ensures { IsTrue result → IsTrue (list_all (reaches_spec (with_changed specs.now (option_copied changed.entry)) changes.now (in_table self.now) (rank_in self.now)) specs.now) }
    {
        for n in 0..u32::MAX {
            let Some(spec) = specs.at(n) else {
                return true;
            };
            if !self.reaches_spec(specs, changed, changes, spec) {
                return false;
            }
        }
        false
    }

    /// Whether the module of a specification was replaced at its revision, or the specification leads on to such a one.
    fn reaches_spec(
        &self,
        specs: &Specs,
        changed: Option<&Spec>,
        changes: &ByName<Change>,
        spec: &Spec,
    ) -> bool
        ensures { result ≡ reaches_spec (with_changed specs.now (option_copied changed.entry)) changes.now (in_table self.now) (rank_in self.now) spec.now }
    {
        let latest = self.of(&spec.name);
        latest <= changes.last(&spec.name)
            || self.any_type_leads(specs, changed, &spec.name, u64::from(latest), &spec.types)
    }

    #[tactic(auto, using(crate::proofs::Terms::passing))]
    fn any_type_leads(
        &self,
        specs: &Specs,
        changed: Option<&Spec>,
        own: &Bytes,
        least: u64,
        types: &TypeArena,
    ) -> bool
        ensures { result ≡ list_any (leads (with_changed specs.now (option_copied changed.entry)) (in_table self.now) (rank_in self.now) own.now least) (filter_map cluster_name types.now) }
    {
        for n in 0..types.len() {
            if self.term_leads(specs, changed, own, least, types.view(TypeId(n as u64))) {
                return true;
            }
        }
        false
    }

    fn term_leads(
        &self,
        specs: &Specs,
        changed: Option<&Spec>,
        own: &Bytes,
        least: u64,
        term: &Term,
    ) -> bool
        ensures { result ≡ list_any (leads (with_changed specs.now (option_copied changed.entry)) (in_table self.now) (rank_in self.now) own.now least) (cons_option (cluster_name term.now) []) }
    {
        match cluster_name(term) {
            Some(name) => self.leads(specs, changed, own, least, name),
            None => false,
        }
    }

    /// Whether one of these modules leads to a revision from `least` on, and not by the module `own`.
    fn any_leads(
        &self,
        specs: &Specs,
        changed: Option<&Spec>,
        own: &Bytes,
        least: u64,
        names: &[Bytes],
    ) -> bool
        ensures { result ≡ list_any (leads (with_changed specs.now (option_copied changed.entry)) (in_table self.now) (rank_in self.now) own.now least) names.now }
    {
        for name in names {
            if self.leads(specs, changed, own, least, name) {
                return true;
            }
        }
        false
    }

    /// Whether a module is kept, has a revision from `least` on, and was reached before the module `own`.
    fn leads(
        &self,
        specs: &Specs,
        changed: Option<&Spec>,
        own: &Bytes,
        least: u64,
        name: &Bytes,
    ) -> bool
        ensures { result ≡ leads (with_changed specs.now (option_copied changed.entry)) (in_table self.now) (rank_in self.now) own.now least name.now }
    {
        u64::from(self.of(name)) >= least
            && self.rank(name) < self.rank(own)
            && is_kept(specs, changed, name)
    }

    fn fill(
        &mut self,
        alloc: Global,
        specs: &Specs,
        changed: Option<&Spec>,
        changes: &[Change],
    ) -> Result<(), Memory> {
        self.number(alloc, specs)?;
        self.link(specs)?;
        self.link_changed(changed)?;
        self.spread_all(alloc, changes)
    }

    /// Notes which modules the changed specification names.
    fn link_changed(&mut self, changed: Option<&Spec>) -> Result<(), Memory> {
        let Some(spec) = changed else {
            return Ok(());
        };
        match self.modules.get_index_of(&spec.name) {
            Some(n) => self.link_types(n, &spec.types),
            None => Ok(()),
        }
    }

    /// Numbers the kept modules.
    fn number(&mut self, alloc: Global, specs: &Specs) -> Result<(), Memory> {
        for n in 0..u32::MAX {
            let Some(spec) = specs.at(n) else {
                return Ok(());
            };
            self.add_module(alloc, &spec.name)?;
        }
        Ok(())
    }

    /// Gives a module the next number. Nothing names it yet, and it has no revision.
    fn add_module(&mut self, alloc: Global, name: &Bytes) -> Result<(), Memory> {
        self.modules.insert(name.copy(alloc)?)?;
        self.named_by.push(Vec::new(alloc))?;
        self.latest.push(0)?;
        Ok(self.ranks.push(usize::MAX)?)
    }

    /// Notes of each module which specifications name it.
    fn link(&mut self, specs: &Specs) -> Result<(), Memory> {
        for n in 0..u32::MAX {
            let Some(spec) = specs.at(n) else {
                return Ok(());
            };
            self.link_types(n as usize, &spec.types)?;
        }
        Ok(())
    }

    fn link_types(&mut self, by: usize, types: &TypeArena) -> Result<(), Memory> {
        for n in 0..types.len() {
            if let Some(name) = cluster_name(types.view(TypeId(n as u64))) {
                self.link_name(by, name)?;
            }
        }
        Ok(())
    }

    fn link_name(&mut self, by: usize, name: &Bytes) -> Result<(), Memory> {
        match self.modules.get_index_of(name) {
            Some(n) => match self.named_by.get_mut(n) {
                Some(named_by) => Ok(named_by.push(by)?),
                None => Ok(()),
            },
            None => Ok(()),
        }
    }

    /// Spreads the changes, the latest first, so that no module is met twice.
    fn spread_all(&mut self, alloc: Global, changes: &[Change]) -> Result<(), Memory> {
        let revisions = by_revision(alloc, changes)?;
        for found in revisions.as_slice().iter().rev() {
            if let Some(change) = changes.get(found.1) {
                self.spread_from(alloc, &change.name, found.0)?;
            }
        }
        Ok(())
    }

    fn spread_from(&mut self, alloc: Global, name: &Bytes, revision: u32) -> Result<(), Memory> {
        match self.modules.get_index_of(name) {
            Some(n) => self.spread(alloc, n, revision),
            None => Ok(()),
        }
    }

    /// Notes a revision of a module and of all whose specifications lead to it, unless they have one as late.
    fn spread(&mut self, alloc: Global, module: usize, revision: u32) -> Result<(), Memory> {
        let mut open = vec![in alloc; module]?;
        for _ in 0..u64::MAX {
            let Some(n) = open.pop() else {
                return Ok(());
            };
            if self.is_raised(n, revision) {
                self.note_reached(n);
                self.add_naming(&mut open, n)?;
            }
        }
        Ok(())
    }

    /// Raises the revision of a module, if it is lower.
    fn is_raised(&mut self, n: usize, revision: u32) -> bool {
        match self.latest.get_mut(n) {
            Some(latest) => {
                let lower = *latest < revision;
                *latest = (*latest).max(revision);
                lower
            }
            None => false,
        }
    }

    /// Notes that a module is the next one that is reached.
    fn note_reached(&mut self, n: usize) {
        let next = self.reached;
        if let Some(rank) = self.ranks.get_mut(n) {
            *rank = next;
        }
        self.reached = next.saturating_add(1);
    }

    /// Adds the modules whose specifications name the module.
    fn add_naming(&self, open: &mut Vec<usize>, n: usize) -> Result<(), Memory> {
        match self.named_by.get(n) {
            Some(named_by) => Ok(open.extend_from_slice(named_by)?),
            None => Ok(()),
        }
    }
}

/// Whether a module is kept, if the specification `changed` stands in the place of the kept one of its module.
fn is_kept(specs: &Specs, changed: Option<&Spec>, name: &Bytes) -> bool
    ensures { result ≡ is_some (find (λ s. bytes_eq s.name name.now) (with_changed specs.now (option_copied changed.entry))) }
{
    spec_of(specs, changed, name).is_some()
}

/// The revisions of the changes with their places, ascending.
fn by_revision(alloc: Global, changes: &[Change]) -> Result<Vec<(u32, usize)>, Memory> {
    let mut revisions = Vec::new(alloc);
    for (n, change) in changes.iter().enumerate() {
        revisions.push((change.revision, n))?;
    }
    revisions.sort()?;
    Ok(revisions)
}
