//! Reading and putting the files that the words name.

ghost use Rattle.std.specs.Prelude.{◌≡◌, ◌≤◌, IfErr, IfOk, OnOk, option_map, take};
ghost use Rattle.clu_driver.specs.Puts.{IsPut, NotPut};
ghost use Rattle.clu_driver.specs.Found.{IsFound, IsUnder, NotHad, NotRead};

use clu_base::{Store, StoreError};
use clu_outcome::Outcome;
use std::alloc::Global;

/// The content of a file. The outcomes are `NoFile`, `FileFault` and `Memory`.
pub fn content<'a, F: Store>(
    alloc: Global,
    name: &'a str,
    files: &mut F,
) -> Result<Vec<u8>, Outcome<'a>>
    ensures counts { F.faults files.old ≤ F.faults files.new }
    ensures kept { F.files files.new ≡ F.files files.old }
    ensures found { IfOk result (λ content. IsFound (F.files files.old) name.now (λ bytes. bytes ≡ content.items)) }
    ensures refused { IfErr result (λ how. NotRead how name.now (F.files files.old) (F.faults files.old) (F.faults files.new)) }
{
    match files.get(alloc, name) {
        Ok(Some(bytes)) => Ok(bytes),
        Ok(None) => Err(Outcome::NoFile(name)),
        Err(StoreError::Failed) => Err(Outcome::FileFault(name)),
        Err(StoreError::Memory) => Err(Outcome::Memory),
    }
}

/// The content of a file, or that there is none. The outcomes are `FileFault` and `Memory`.
pub fn content_if_any<'a, F: Store>(
    alloc: Global,
    name: &'a str,
    files: &mut F,
) -> Result<Option<Vec<u8>>, Outcome<'a>>
    ensures counts { F.faults files.old ≤ F.faults files.new }
    ensures kept { F.files files.new ≡ F.files files.old }
    ensures found { IfOk result (λ got. IsUnder (F.files files.old) name.now (λ content. content ≡ option_map (λ v. v.items) got)) }
    ensures refused { IfErr result (λ how. NotHad how name.now (F.faults files.old) (F.faults files.new)) }
{
    match files.get(alloc, name) {
        Ok(content) => Ok(content),
        Err(StoreError::Failed) => Err(Outcome::FileFault(name)),
        Err(StoreError::Memory) => Err(Outcome::Memory),
    }
}

/// The first bytes of a file, `most` of them or all if there are fewer. The outcomes are `NoFile`, `FileFault` and `Memory`.
pub fn first_content<'a, F: Store>(
    alloc: Global,
    name: &'a str,
    most: usize,
    files: &mut F,
) -> Result<Vec<u8>, Outcome<'a>>
    ensures counts { F.faults files.old ≤ F.faults files.new }
    ensures kept { F.files files.new ≡ F.files files.old }
    ensures found { IfOk result (λ first. IsFound (F.files files.old) name.now (λ bytes. take most bytes ≡ first.items)) }
    ensures refused { IfErr result (λ how. NotRead how name.now (F.files files.old) (F.faults files.old) (F.faults files.new)) }
{
    match files.get_first(alloc, name, most) {
        Ok(Some(bytes)) => Ok(bytes),
        Ok(None) => Err(Outcome::NoFile(name)),
        Err(StoreError::Failed) => Err(Outcome::FileFault(name)),
        Err(StoreError::Memory) => Err(Outcome::Memory),
    }
}

/// Gives a file its content. The outcomes are `FileFault` and `Memory`.
pub fn put<'a, F: Store>(
    alloc: Global,
    name: &'a str,
    bytes: &[u8],
    files: &mut F,
) -> Result<(), Outcome<'a>>
    ensures counts { F.faults files.old ≤ F.faults files.new }
    ensures done { OnOk result (IsPut name.now bytes.now (F.files files.old) (F.files files.new)) }
    ensures refused { IfErr result (λ how. NotPut how name.now bytes.now (F.files files.old) (F.files files.new) (F.faults files.old) (F.faults files.new)) }
{
    match files.put(alloc, name, bytes) {
        Ok(()) => Ok(()),
        Err(StoreError::Failed) => Err(Outcome::FileFault(name)),
        Err(StoreError::Memory) => Err(Outcome::Memory),
    }
}
