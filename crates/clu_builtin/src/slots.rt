//! The types that a row names, for the type that has the operation, and the headings made of them.

ghost use Rattle.std.specs.Prelude.{◌≡◌, ◌<◌, length, IfOk};
ghost use Rattle.clu_types.specs.Arena.{type_at, types_of, Grows};

use crate::names::Signal;
use crate::row::{Gives, Raises, Row, Slot, Takes};
use clu_base::{Bytes, Memory, Sequence};
use clu_types::{Exception, Heading, Term, TypeArena, TypeId};
use std::alloc::Global;

/// The numbers of the types that a row may name.
#[derive(Clone, Copy)]
pub struct Slots {
    pub own: TypeId,
    pub part: TypeId,
    pub bool: TypeId,
    pub int: TypeId,
    pub char: TypeId,
    pub string: TypeId,
    pub array: TypeId,
}

impl Slots {
    ghost use Rattle.clu_builtin.specs.Slots.{AreSlots, slot_id, taken_ids, given_ids, object_ids, exception, exceptions};

    /// The slots for the type `own` with the element or component type `part`.
    pub fn new(types: &mut TypeArena, own: TypeId, part: TypeId) -> Result<Slots, Memory>
        requires own_in { own.0 < length types.old }
        requires part_in { part.0 < length types.old }
        ensures slots { IfOk result (AreSlots (types_of types.new) (length types.new) (type_at (types_of types.old) own) (type_at (types_of types.old) part)) }
        ensures kept { Grows types.old types.new }
    {
        let bool = types.intern(Term::Bool)?;
        let int = types.intern(Term::Int)?;
        let char = types.intern(Term::Char)?;
        let string = types.intern(Term::Str)?;
        let array = types.intern(Term::Array(part))?;
        Ok(Slots {
            own,
            part,
            bool,
            int,
            char,
            string,
            array,
        })
    }

    fn id(&self, slot: Slot) -> TypeId
        ensures { result ≡ slot_id self.now slot }
    {
        match slot {
            Slot::Own => self.own,
            Slot::Part => self.part,
            Slot::Bool => self.bool,
            Slot::Int => self.int,
            Slot::Char => self.char,
            Slot::Str => self.string,
            Slot::Array => self.array,
        }
    }

    /// The heading of a row.
    pub fn heading(&self, alloc: Global, row: &Row) -> Result<Heading, Memory>
        ensures args { IfOk result (λ h. h.args ≡ taken_ids self.now row.now.1) }
        ensures results { IfOk result (λ h. h.results ≡ given_ids self.now row.now.2) }
        ensures signals { IfOk result (λ h. h.signals ≡ exceptions self.now row.now.3) }
    {
        Ok(Heading {
            args: self.args(alloc, row.1)?,
            results: self.results(alloc, row.2)?,
            signals: self.signals(alloc, row.3)?,
        })
    }

    fn args(&self, alloc: Global, takes: Takes) -> Result<Sequence<TypeId>, Memory>
        ensures { IfOk result (λ ids. ids ≡ taken_ids self.now takes) }
    {
        match takes {
            Takes::Nothing => Ok(Sequence::from_vec(Vec::new(alloc))),
            Takes::One(a) => Ok(Sequence::from_vec([self.id(a)].to_vec(alloc)?)),
            Takes::Two(a, b) => Ok(Sequence::from_vec([self.id(a), self.id(b)].to_vec(alloc)?)),
            Takes::Three(a, b, c) => Ok(Sequence::from_vec([
                self.id(a),
                self.id(b),
                self.id(c),
            ].to_vec(alloc)?)),
        }
    }

    fn results(&self, alloc: Global, gives: Gives) -> Result<Sequence<TypeId>, Memory>
        ensures { IfOk result (λ ids. ids ≡ given_ids self.now gives) }
    {
        match gives {
            Gives::Nothing => Ok(Sequence::from_vec(Vec::new(alloc))),
            Gives::Value(a) => Ok(Sequence::from_vec([self.id(a)].to_vec(alloc)?)),
            Gives::Yields(a) => Ok(Sequence::from_vec([self.id(a)].to_vec(alloc)?)),
        }
    }

    fn signals(&self, alloc: Global, raises: Raises) -> Result<Sequence<Exception>, Memory>
        ensures { IfOk result (λ signals. signals ≡ exceptions self.now raises) }
    {
        match raises {
            Raises::Nothing => Ok(Sequence::from_vec(Vec::new(alloc))),
            Raises::One(a) => Ok(Sequence::from_vec(vec![in alloc; self.exception(alloc, a)?]?)),
            Raises::Two(a, b) => Ok(Sequence::from_vec(vec![in alloc;
                self.exception(alloc, a)?,
                self.exception(alloc, b)?,
            ]?)),
        }
    }

    fn exception(&self, alloc: Global, signal: Signal) -> Result<Exception, Memory>
        ensures { IfOk result (λ s. s ≡ exception self.now signal) }
    {
        Ok(Exception {
            name: Bytes::from_slice(alloc, signal.name().as_bytes())?,
            objects: self.objects(alloc, signal)?,
        })
    }

    fn objects(&self, alloc: Global, signal: Signal) -> Result<Sequence<TypeId>, Memory>
        ensures { IfOk result (λ ids. ids ≡ object_ids self.now signal) }
    {
        match signal {
            Signal::NotPossible => Ok(Sequence::from_vec([self.string].to_vec(alloc)?)),
            _ => Ok(Sequence::from_vec(Vec::new(alloc))),
        }
    }
}
