//! The files that the program reads and writes: the trait of what holds files by name, and a
//! store in memory.

ghost use Rattle.std.specs.Prelude.{◌≡◌, ℕ, ◌≤◌, ◌↔◌, List, Option, Some, None, IsErr, IfOk, IfSome, OnOk, OnErr, Contains, option_map, take, IsTrue, IfErr, ◌<◌, if◌then◌else◌};
ghost use Rattle.clu_base.specs.Outside.{with_file, next_count, Files, IsTorn, Rose};

use std::alloc::{AllocError, AllocFailed, Global};
use std::collections::BTreeMap;

/// Why a file was not read or written.
#[derive(Clone, Copy, Debug)]
pub enum StoreError {
    /// The store failed; its count of faults has risen.
    Failed,
    /// Memory was refused.
    Memory,
}

impl From<AllocError> for StoreError {
    ghost use Rattle.std.specs.Prelude.{◌≡◌};
    ghost use Rattle.clu_base.specs.declared.files.StoreError.TheVariants.{Memory};

    ghost from_gives = { λ _ e. e ≡ Memory };

    fn from(_error: AllocError) -> StoreError {
        StoreError::Memory
    }
}

impl<T: Drop> From<AllocFailed<T>> for StoreError {
    ghost use Rattle.std.specs.Prelude.{◌≡◌};
    ghost use Rattle.clu_base.specs.declared.files.StoreError.TheVariants.{Memory};

    ghost from_gives = { λ _ e. e ≡ Memory };

    fn from(_error: AllocFailed<T>) -> StoreError {
        StoreError::Memory
    }
}

/// What holds files by name.
///
/// `files` gives the content of each file where the store tells it, and None where it does not,
/// as for a disk. `faults` counts the calls that failed; it never falls, and stands still at its
/// type's end.
pub trait Store {
    ghost files: { Self → Option Files };

    ghost faults: { Self → ℕ };

    /// The content of the file of this name, or None where there is none. No file changes.
    /// `Failed` comes only where the count of faults rose.
    fn get(&mut self, alloc: Global, name: &str) -> Result<Option<Vec<u8>>, StoreError>
        ensures counts { faults self.old ≤ faults self.new }
        ensures failed { result ≡ Err StoreError.Failed → Rose (faults self.old) (faults self.new) }
        ensures kept { files self.new ≡ files self.old }
        ensures found { IfOk result (λ got. IfSome (files self.old) (λ all. all name.now ≡ option_map (λ v. v.items) got)) };

    /// The first bytes of the file of this name, `most` of them or all where there are fewer, or None where there is no
    /// such file. No file changes. `Failed` comes only where the count of faults rose.
    fn get_first(
        &mut self,
        alloc: Global,
        name: &str,
        most: usize,
    ) -> Result<Option<Vec<u8>>, StoreError>
        ensures counts { faults self.old ≤ faults self.new }
        ensures failed { result ≡ Err StoreError.Failed → Rose (faults self.old) (faults self.new) }
        ensures kept { files self.new ≡ files self.old }
        ensures found { IfOk result (λ got. IfSome (files self.old) (λ all. option_map (take most) (all name.now) ≡ option_map (λ v. v.items) got)) };

    /// Gives the file of this name the bytes, and changes no other. After `Failed`, which comes
    /// only where the count of faults rose, the file is as before or holds some first bytes of
    /// the new content. After `Memory` nothing is changed.
    fn put(&mut self, alloc: Global, name: &str, bytes: &[u8]) -> Result<(), StoreError>
        ensures counts { faults self.old ≤ faults self.new }
        ensures failed { result ≡ Err StoreError.Failed → Rose (faults self.old) (faults self.new) }
        ensures done { OnOk result (files self.new ≡ option_map (λ all. with_file all name.now bytes.now) (files self.old)) }
        ensures torn { result ≡ Err StoreError.Failed → IsTorn (files self.old) (files self.new) name.now bytes.now }
        ensures kept { result ≡ Err StoreError.Memory → files self.new ≡ files self.old };
}

/// The first bytes, `most` of them or all where there are fewer.
fn first_bytes(alloc: Global, bytes: &[u8], most: usize) -> Result<Vec<u8>, StoreError>
    ensures taken { IfOk result (λ first. first.items ≡ take most bytes.now) }
    ensures only_memory { IfErr result (λ e. e ≡ StoreError.Memory) }
{
    let (first, _) = bytes.split_at(most.min(bytes.len()));
    Ok(first.to_vec(alloc)?)
}

/// A store in memory, which fails at chosen calls.
#[derive(Drop)]
pub struct MemStore {
    files: BTreeMap<String, Vec<u8>>,
    failing: Vec<u64>,
    torn: usize,
    calls: u64,
    faults: u64,
}

impl MemStore {
    ghost use Rattle.clu_base.specs.StoredFiles.{files_of, failing_of, torn_of, calls_of, faults_of};

    /// A store without files. Gets and puts are numbered together from 0, and those whose numbers
    /// are in `failing` fail. A failing put leaves the old file where `torn` is 0, else the first
    /// `torn` bytes of the new content, or all of them where they are fewer.
    pub fn new(alloc: Global, failing: Vec<u64>, torn: usize) -> MemStore
        ensures empty { (name : List ℕ) → files_of result name ≡ None }
        ensures failing { failing_of result ≡ failing.items }
        ensures torn { torn_of result ≡ torn }
        ensures calls { calls_of result ≡ 0 }
        ensures faults { faults_of result ≡ 0 }
    {
        MemStore {
            files: BTreeMap::new(alloc),
            failing,
            torn,
            calls: 0,
            faults: 0,
        }
    }

    /// The content of the file of this name, or None where there is none.
    pub fn file(&self, name: &str) -> Option<&[u8]>
        ensures { option_map (λ bytes. bytes.now) result ≡ files_of self.now name.now }
    {
        match self.files.get(name) {
            Some(bytes) => Some(bytes.as_slice()),
            None => None,
        }
    }

    // Counts a call, and tells whether it is to fail.
    fn next_call_fails(&mut self) -> bool
        ensures fails { IsTrue result ↔ Contains (failing_of self.old) (calls_of self.old) }
        ensures called { calls_of self.new ≡ next_count (calls_of self.old) }
        ensures fault { IsTrue result → faults_of self.new ≡ next_count (faults_of self.old) }
        ensures rose { IsTrue result → Rose (faults_of self.old) (faults_of self.new) }
        ensures no_fault { ¬ (IsTrue result) → faults_of self.new ≡ faults_of self.old }
        ensures counts { faults_of self.old ≤ faults_of self.new }
        ensures files { files_of self.new ≡ files_of self.old }
        ensures failing { failing_of self.new ≡ failing_of self.old }
        ensures torn { torn_of self.new ≡ torn_of self.old }
    {
        let fails = self.failing.contains(&self.calls);
        self.calls = self.calls.saturating_add(1);
        if fails {
            self.faults = self.faults.saturating_add(1);
        }
        fails
    }

    // Gives a file its content; after an error the files are as before.
    fn keep(&mut self, alloc: Global, name: &str, bytes: &[u8]) -> Result<(), StoreError>
        ensures kept { OnOk result (files_of self.new ≡ with_file (files_of self.old) name.now bytes.now) }
        ensures memory { OnErr result (files_of self.new ≡ files_of self.old) }
        ensures only_memory { IfErr result (λ e. e ≡ StoreError.Memory) }
        ensures calls { calls_of self.new ≡ calls_of self.old }
        ensures faults { faults_of self.new ≡ faults_of self.old }
        ensures failing { failing_of self.new ≡ failing_of self.old }
        ensures torn { torn_of self.new ≡ torn_of self.old }
    {
        let name = String::from_str(alloc, name)?;
        let content = bytes.to_vec(alloc)?;
        self.files.insert(name, content)?;
        Ok(())
    }
}

impl Store for MemStore {
    ghost use Rattle.std.specs.Prelude.{◌≡◌, ℕ, ◌≤◌, ◌↔◌, List, Option, Some, None, IsErr, IfOk, IfSome, OnOk, OnErr, Contains, option_map, take, IsTrue, IfErr, ◌<◌, if◌then◌else◌};
    ghost use Rattle.clu_base.specs.Outside.{with_file, next_count, Files, IsTorn, Rose};
    ghost use Rattle.clu_base.specs.StoredFiles.{files_of, failing_of, torn_of, calls_of, faults_of};

    ghost files = { λ s. Some (files_of s) };

    ghost faults = { faults_of };

    fn get(&mut self, alloc: Global, name: &str) -> Result<Option<Vec<u8>>, StoreError>
        ensures counts { faults_of self.old ≤ faults_of self.new }
        ensures failed { result ≡ Err StoreError.Failed → Rose (faults_of self.old) (faults_of self.new) }
        ensures kept { Some (files_of self.new) ≡ Some (files_of self.old) }
        ensures found { IfOk result (λ got. IfSome (Some (files_of self.old)) (λ all. all name.now ≡ option_map (λ v. v.items) got)) }

        // More than the trait says: which calls fail, and the counts.
        ensures fails { (result ≡ Err StoreError.Failed) ↔ Contains (failing_of self.old) (calls_of self.old) }
        ensures called { calls_of self.new ≡ next_count (calls_of self.old) }
        ensures fault { result ≡ Err StoreError.Failed → faults_of self.new ≡ next_count (faults_of self.old) }
        ensures no_fault { OnOk result (faults_of self.new ≡ faults_of self.old) }
    {
        if self.next_call_fails() {
            return Err(StoreError::Failed);
        }
        match self.file(name) {
            Some(bytes) => Ok(Some(bytes.to_vec(alloc)?)),
            None => Ok(None),
        }
    }

    fn get_first(
        &mut self,
        alloc: Global,
        name: &str,
        most: usize,
    ) -> Result<Option<Vec<u8>>, StoreError>
        ensures counts { faults_of self.old ≤ faults_of self.new }
        ensures failed { result ≡ Err StoreError.Failed → Rose (faults_of self.old) (faults_of self.new) }
        ensures kept { Some (files_of self.new) ≡ Some (files_of self.old) }
        ensures found { IfOk result (λ got. IfSome (Some (files_of self.old)) (λ all. option_map (take most) (all name.now) ≡ option_map (λ v. v.items) got)) }

        // More than the trait says: which calls fail, and the counts.
        ensures fails { (result ≡ Err StoreError.Failed) ↔ Contains (failing_of self.old) (calls_of self.old) }
        ensures called { calls_of self.new ≡ next_count (calls_of self.old) }
        ensures fault { result ≡ Err StoreError.Failed → faults_of self.new ≡ next_count (faults_of self.old) }
        ensures no_fault { OnOk result (faults_of self.new ≡ faults_of self.old) }
    {
        if self.next_call_fails() {
            return Err(StoreError::Failed);
        }
        match self.file(name) {
            Some(bytes) => Ok(Some(first_bytes(alloc, bytes, most)?)),
            None => Ok(None),
        }
    }

    fn put(&mut self, alloc: Global, name: &str, bytes: &[u8]) -> Result<(), StoreError>
        ensures counts { faults_of self.old ≤ faults_of self.new }
        ensures failed { result ≡ Err StoreError.Failed → Rose (faults_of self.old) (faults_of self.new) }
        ensures done { OnOk result (Some (files_of self.new) ≡ option_map (λ all. with_file all name.now bytes.now) (Some (files_of self.old))) }
        ensures torn { result ≡ Err StoreError.Failed → IsTorn (Some (files_of self.old)) (Some (files_of self.new)) name.now bytes.now }
        ensures kept { result ≡ Err StoreError.Memory → Some (files_of self.new) ≡ Some (files_of self.old) }

        // More than the trait says: which calls fail, what they leave, and the counts.
        ensures fails { result ≡ Err StoreError.Failed → Contains (failing_of self.old) (calls_of self.old) }
        ensures succeeds { OnOk result (¬ (Contains (failing_of self.old) (calls_of self.old))) }
        ensures left_old { result ≡ Err StoreError.Failed → torn_of self.old ≡ 0 → files_of self.new ≡ files_of self.old }
        ensures left_part { result ≡ Err StoreError.Failed → 0 < torn_of self.old → files_of self.new ≡ with_file (files_of self.old) name.now (take (torn_of self.old) bytes.now) }
        ensures called { calls_of self.new ≡ next_count (calls_of self.old) }
        ensures fault { result ≡ Err StoreError.Failed → faults_of self.new ≡ next_count (faults_of self.old) }
        ensures no_fault { OnOk result (faults_of self.new ≡ faults_of self.old) }
    {
        if !self.next_call_fails() {
            return self.keep(alloc, name, bytes);
        }
        if self.torn > 0 {
            let (first, _) = bytes.split_at(self.torn.min(bytes.len()));
            self.keep(alloc, name, first)?;
        }
        Err(StoreError::Failed)
    }
}
