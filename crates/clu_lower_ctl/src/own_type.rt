//! The types of a routine's heading as callers see it: its own type, and those of its exceptions' objects.

use clu_base::Bytes;
use clu_core::{intern, term};
use clu_lower_expr::Lowering;
use clu_lower_types::{LowerError, Result, carried, text_of, texts_of};
use clu_types::{Exception, Heading, OpSpec, Term, TypeArena, TypeId};
use indexmap::IndexMap;
use std::alloc::Global;
use std::boxed::Box;

/// The own types of routines, of one arena, with their texts. Each text is written once, as many routines of a cluster may
/// have the same type.
#[derive(Drop)]
pub struct OwnTypes {
    texts: IndexMap<TypeId, Bytes>,
}

impl OwnTypes {
    pub fn new(alloc: Global) -> OwnTypes {
        OwnTypes {
            texts: IndexMap::new(alloc),
        }
    }

    /// The text of a type of the arena.
    fn text(&mut self, alloc: Global, types: &TypeArena, own: TypeId) -> Result<Bytes> {
        if let Some(text) = self.texts.get(&own) {
            return Ok(text.copy(alloc)?);
        }
        let text = text_of(alloc, types, own)?;
        self.texts.insert(own, text.copy(alloc)?)?;
        Ok(text)
    }
}

/// Notes the types of a routine by its specification, whose types are in this arena, and by the names of its exceptions
/// where the types of their objects begin.
pub fn note_operation(
    out: &mut Lowering,
    objects: &mut IndexMap<Bytes, u32>,
    from: &TypeArena,
    op: &OpSpec,
) -> Result<()> {
    let mut types = Box::new(out.alloc, TypeArena::new(out.alloc))?;
    let heading = carried(out.alloc, &mut types, from, &op.heading, &[])?;
    let heading = Box::new(out.alloc, heading)?;
    let mut owns = OwnTypes::new(out.alloc);
    note_types(out, objects, &mut owns, &mut types, heading, op.iter)
}

/// Notes the types of a routine with this heading, whose types are of this arena: its own is the first of its table.
pub fn note_types(
    out: &mut Lowering,
    objects: &mut IndexMap<Bytes, u32>,
    owns: &mut OwnTypes,
    types: &mut TypeArena,
    heading: Box<Heading>,
    iter: bool,
) -> Result<()> {
    let own = intern(types, routine_term(Box::into_inner(heading), iter))?;
    let text = owns.text(out.alloc, types, own)?;
    let _own = out.add_type(text)?;
    match term(types, own)? {
        Term::Iter(heading) => note_objects(out, objects, types, heading.signals.as_slice()),
        Term::Proc(heading) => note_objects(out, objects, types, heading.signals.as_slice()),
        _ => Err(LowerError::NotYet),
    }
}

fn routine_term(heading: Heading, iter: bool) -> Term {
    if iter {
        Term::Iter(heading)
    } else {
        Term::Proc(heading)
    }
}

/// The types of the objects of each exception that has any.
fn note_objects(
    out: &mut Lowering,
    objects: &mut IndexMap<Bytes, u32>,
    types: &TypeArena,
    signals: &[Exception],
) -> Result<()> {
    for signal in signals {
        if !signal.objects.as_slice().is_empty() {
            let texts = texts_of(out.alloc, types, signal.objects.as_slice())?;
            let first = out.add_types(texts)?;
            let name = signal.name.copy(out.alloc)?;
            objects.insert(name, first)?;
        }
    }
    Ok(())
}
