//! Which modules of a library name which.

ghost use Rattle.std.specs.Prelude.{◌≡◌, ◌++◌, ◌∷◌, IfOk, OnOk};
ghost use Rattle.clu_library.specs.Contents.{body_of};
ghost use Rattle.clu_build.specs.References.{body_text, cross_reference as references_of, module_text, names_text, those_of};

use clu_base::{Bytes, Memory};
use clu_library::{Body, LIMIT, Library};
use std::alloc::Global;

/// The cross-reference of a library: a line for each module in ascending order, its name and `:`, and then, each after
/// a blank, the modules that its body names; `*` stands for all, `-` for no body.
pub fn cross_reference(alloc: Global, library: &Library) -> Result<Vec<u8>, Memory>
    ensures { IfOk result (λ text. text.items ≡ references_of library.now) }
{
    let mut text = Vec::new(alloc);
    for number in 0..LIMIT {
        let Some(spec) = library.specs().at(number) else {
            break;
        };
        put_module(&mut text, library, &spec.name)?;
    }
    Ok(text)
}

fn put_module(text: &mut Vec<u8>, library: &Library, name: &Bytes) -> Result<(), Memory>
    ensures { OnOk result (text.new.items ≡ text.old.items ++ module_text library.now name.now) }
{
    text.extend_from_slice(name.as_slice())?;
    text.push(b':')?;
    put_body(text, library, name)?;
    Ok(text.push(b'\n')?)
}

fn put_body(text: &mut Vec<u8>, library: &Library, name: &Bytes) -> Result<(), Memory>
    ensures { OnOk result (text.new.items ≡ text.old.items ++ body_text (body_of library.now name.now)) }
{
    match library.body(name) {
        None => Ok(text.extend_from_slice(b" -")?),
        Some(body) => put_those(text, body),
    }
}

fn put_those(text: &mut Vec<u8>, body: &Body) -> Result<(), Memory>
    ensures { OnOk result (text.new.items ≡ text.old.items ++ those_of body.now.names) }
{
    match &body.names {
        None => Ok(text.extend_from_slice(b" *")?),
        Some(names) => put_names(text, names.as_slice()),
    }
}

fn put_names(text: &mut Vec<u8>, names: &[Bytes]) -> Result<(), Memory>
    ensures { OnOk result (text.new.items ≡ text.old.items ++ names_text names.now) }
{
    for name in names {
        put_name(text, name)?;
    }
    Ok(())
}

fn put_name(text: &mut Vec<u8>, name: &Bytes) -> Result<(), Memory>
    ensures { OnOk result (text.new.items ≡ text.old.items ++ 32 ∷ name.now) }
{
    text.push(b' ')?;
    Ok(text.extend_from_slice(name.as_slice())?)
}
