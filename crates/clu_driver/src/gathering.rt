//! What the commands that enter a source into a library read: the library and the source.

ghost use Rattle.std.specs.Prelude.{◌≡◌, ◌≤◌, ◌⊎◌, IfErr, IfOk, length, option_map};
ghost use Rattle.clu_checked.specs.Sources.{AreKept, IsRead, IsSource};
ghost use Rattle.clu_driver.specs.Found.{IsFound};
ghost use Rattle.clu_driver.specs.Held.{HasLibrary, IsLibraryFile, IsLibraryOf, IsUnreadable};
ghost use Rattle.clu_driver.specs.Libraries.{NotGathered};
ghost use Rattle.clu_driver.specs.Sources.{NotSource};

use crate::file::content_if_any;
use crate::libraries::library_of;
use crate::sources::{Parsed, source, source_content};
use clu_base::Store;
use clu_library::Library;
use clu_outcome::Outcome;
use std::alloc::Global;

/// A library and a source that is a file of the grammar.
#[derive(Drop)]
pub struct Gathered {
    pub library: Box<Library>,
    pub source: Box<Parsed>,
}

/// The library and the source in two files. Both are read before either is looked at. The outcomes are those of
/// `library_in` and `parse_file`.
pub fn gather<'a, F: Store>(
    alloc: Global,
    library: &'a str,
    file: &'a str,
    files: &mut F,
) -> Result<Gathered, Outcome<'a>>
    ensures counts { F.faults files.old ≤ F.faults files.new }
    ensures kept { F.files files.new ≡ F.files files.old }
    ensures library { IfOk result (λ g. HasLibrary (F.files files.old) library.now g.library.value) }
    ensures specs { IfOk result (λ g. AreKept g.library.value.specs) }
    ensures found { IfOk result (λ g. IsFound (F.files files.old) file.now (λ bytes. bytes ≡ g.source.value.bytes.items)) }
    ensures parsed { IfOk result (λ g. IsSource g.source.value.bytes.items g.source.value.tokens.items g.source.value.syntax) }
    ensures read { IfOk result (λ g. IsRead g.source.value.bytes.items g.source.value.tokens.items g.source.value.syntax) }
    ensures refused { IfErr result (λ how. NotGathered how library.now file.now (F.files files.old) (F.faults files.old) (F.faults files.new)) }
{
    match content_if_any(alloc, library, files) {
        Ok(content) => match source_content(alloc, file, files) {
            Ok(bytes) => read_both(alloc, content, file, bytes),
            Err(how) => Err(how),
        },
        Err(how) => Err(how),
    }
}

// The library and the source of these contents.
fn read_both<'a>(
    alloc: Global,
    content: Option<Vec<u8>>,
    name: &'a str,
    bytes: Vec<u8>,
) -> Result<Gathered, Outcome<'a>>
    requires { length bytes.items ≤ 1_048_576 }
    ensures library { IfOk result (λ g. IsLibraryOf (option_map (λ v. v.items) content) g.library.value) }
    ensures specs { IfOk result (λ g. AreKept g.library.value.specs) }
    ensures same { IfOk result (λ g. g.source.value.bytes.items ≡ bytes.items) }
    ensures parsed { IfOk result (λ g. IsSource g.source.value.bytes.items g.source.value.tokens.items g.source.value.syntax) }
    ensures read { IfOk result (λ g. IsRead g.source.value.bytes.items g.source.value.tokens.items g.source.value.syntax) }
    ensures refused { IfErr result (λ how. IsUnreadable how (option_map (λ v. v.items) content) ⊎ (IsLibraryFile (option_map (λ v. v.items) content) × NotSource how name.now bytes.items)) }
{
    let library = library_of(alloc, content)?;
    let source = boxed(alloc, name, bytes)?;
    Ok(Gathered { library, source })
}

// The source of these bytes.
fn boxed<'a>(alloc: Global, name: &'a str, bytes: Vec<u8>) -> Result<Box<Parsed>, Outcome<'a>>
    requires { length bytes.items ≤ 1_048_576 }
    ensures same { IfOk result (λ source. source.value.bytes.items ≡ bytes.items) }
    ensures parsed { IfOk result (λ source. IsSource source.value.bytes.items source.value.tokens.items source.value.syntax) }
    ensures read { IfOk result (λ source. IsRead source.value.bytes.items source.value.tokens.items source.value.syntax) }
    ensures refused { IfErr result (λ how. NotSource how name.now bytes.items) }
{
    let source = source(alloc, name, bytes)?;
    match Box::new(alloc, source) {
        Ok(source) => Ok(source),
        Err(_) => Err(Outcome::Memory),
    }
}
