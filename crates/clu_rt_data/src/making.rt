//! The word code of a scheme: one call for each component, the n-th of which is of the n-th use.

ghost use Rattle.std.specs.Prelude.{◌≡◌, ◌+◌, ◌*◌, length, IfOk, OnOk};
ghost use Rattle.clu_rt_data.specs.Schemes.{IsScheme, in_32_bits};

use crate::schemes::{Deed, Plan, Shape};
use clu_base::{Bytes, Memory};
use clu_specs::{Target, use_text};
use clu_types::{Term, TypeArena};
use clu_wir::{HoleKind, Primitive, WExpr, WOp, WRoutine, WStmt};
use std::alloc::Global;
use std::boxed::Box;

/// The routine of a plan, with this name. The only error is that memory runs out.
pub fn made(alloc: Global, plan: Plan, op: &Bytes) -> Result<WRoutine, Memory>
    ensures scheme { IfOk result (IsScheme op.now (in_32_bits (in_32_bits (8 * plan.count) + 8))) }
    ensures uses { IfOk result (λ code. length code.uses.items ≡ plan.count) }
{
    let mut making = Making {
        alloc,
        uses: Vec::new(alloc),
        body: Vec::new(alloc),
    };
    making.follow(plan)?;
    making.finish(op, plan)
}

/// How many arguments a routine takes and how many slots it has: after the arguments what the comparison or the copy of
/// its components works with.
fn frame(plan: Plan) -> (u32, u32) {
    match plan.deed {
        Deed::Equal | Deed::Similar => match plan.shape {
            Shape::Record => (2, 3),
            Shape::Tagged(_) => (2, 5),
        },
        Deed::Copy => match plan.shape {
            Shape::Record => (1, plan.count.saturating_add(2)),
            Shape::Tagged(_) => (1, 4),
        },
    }
}

/// A scheme in the making.
#[derive(Drop)]
struct Making {
    alloc: Global,
    uses: Vec<Bytes>,
    body: Vec<WStmt>,
}

impl Making {
    /// Adds what a plan does.
    fn follow(&mut self, plan: Plan) -> Result<(), Memory>
        ensures { OnOk result (length self.new.uses.items ≡ length self.old.uses.items + plan.count) }
    {
        match plan.deed {
            Deed::Equal => self.compare(plan, b"equal"),
            Deed::Similar => self.compare(plan, b"similar"),
            Deed::Copy => self.copy(plan),
        }
    }

    fn compare(&mut self, plan: Plan, by: &[u8]) -> Result<(), Memory>
        ensures { OnOk result (length self.new.uses.items ≡ length self.old.uses.items + plan.count) }
    {
        match plan.shape {
            Shape::Record => self.compare_components(plan.count, by),
            Shape::Tagged(_) => self.compare_tagged(plan.count, by),
        }
    }

    fn copy(&mut self, plan: Plan) -> Result<(), Memory>
        ensures { OnOk result (length self.new.uses.items ≡ length self.old.uses.items + plan.count) }
    {
        match plan.shape {
            Shape::Record => self.copy_components(plan.count),
            Shape::Tagged(words) => self.copy_tagged(plan.count, words),
        }
    }

    /// The routine; a scheme over k selectors counts 8 + 8 k nodes.
    fn finish(self, op: &Bytes, plan: Plan) -> Result<WRoutine, Memory>
        ensures scheme { IfOk result (IsScheme op.now (in_32_bits (in_32_bits (8 * plan.count) + 8))) }
        ensures uses { IfOk result (λ code. code.uses ≡ self.uses) }
    {
        let Making { alloc, uses, body } = self;
        let (args, slots) = frame(plan);
        Ok(WRoutine {
            name: op.copy(alloc)?,
            args,
            slots,
            body,
            nodes: 8u32.saturating_mul(plan.count).saturating_add(8),
            uses,
            constants: Vec::new(alloc),
            types: Vec::new(alloc),
        })
    }

    /// The components one after the other, up to the first that differ.
    fn compare_components(&mut self, count: u32, by: &[u8]) -> Result<(), Memory>
        ensures { OnOk result (length self.new.uses.items ≡ length self.old.uses.items + count) }
    {
        for place in 0..count {
            self.compare_component(place, by)?;
        }
        self.answer(WExpr::Word(1))
    }

    fn compare_component(&mut self, place: u32, by: &[u8]) -> Result<(), Memory>
        ensures { OnOk result (length self.new.uses.items ≡ length self.old.uses.items + 1) }
    {
        let distance = place.saturating_add(1).saturating_mul(8);
        let left = load(self.alloc, 0, distance)?;
        let right = load(self.alloc, 1, distance)?;
        self.call(place, by, vec![in self.alloc; left, right]?, 2)?;
        self.end_unless(WExpr::Slot(2))
    }

    /// Different tags are answered at once. In slot 4 the tag, in slots 2 and 3 its two objects.
    fn compare_tagged(&mut self, count: u32, by: &[u8]) -> Result<(), Memory>
        ensures { OnOk result (length self.new.uses.items ≡ length self.old.uses.items + count) }
    {
        let same = same_tags(self.alloc)?;
        self.end_unless(same)?;
        self.set(4, 0, 0)?;
        self.set(2, 0, 8)?;
        self.set(3, 1, 8)?;
        self.compare_objects(count, by)
    }

    fn compare_objects(&mut self, count: u32, by: &[u8]) -> Result<(), Memory>
        ensures { OnOk result (length self.new.uses.items ≡ length self.old.uses.items + count) }
    {
        for tag in 0..count {
            self.compare_object(tag, by)?;
        }
        self.answer(WExpr::Word(1))
    }

    fn compare_object(&mut self, tag: u32, by: &[u8]) -> Result<(), Memory>
        ensures { OnOk result (length self.new.uses.items ≡ length self.old.uses.items + 1) }
    {
        let objects = vec![in self.alloc; WExpr::Slot(2), WExpr::Slot(3)]?;
        let call = self.called(tag, by, objects, 2)?;
        let end = answer(self.alloc, WExpr::Slot(2))?;
        self.where_tag(4, tag, vec![in self.alloc; call, end]?)
    }

    /// The components' copies in the slots after the argument, then the new object in the slot after them.
    fn copy_components(&mut self, count: u32) -> Result<(), Memory>
        ensures { OnOk result (length self.new.uses.items ≡ length self.old.uses.items + count) }
    {
        for place in 0..count {
            self.copy_component(place)?;
        }
        let slot = count.saturating_add(1);
        self.allocate(u64::from(slot), slot)?;
        self.put_components(slot)
    }

    fn copy_component(&mut self, place: u32) -> Result<(), Memory>
        ensures { OnOk result (length self.new.uses.items ≡ length self.old.uses.items + 1) }
    {
        let slot = place.saturating_add(1);
        let component = load(self.alloc, 0, slot.saturating_mul(8))?;
        self.call(place, b"copy", vec![in self.alloc; component]?, slot)
    }

    /// Puts each slot after the argument into the new object, which is in the slot after them.
    fn put_components(&mut self, slot: u32) -> Result<(), Memory>
        ensures { self.new.uses ≡ self.old.uses }
    {
        for copied in 1..slot {
            self.put(slot, copied.saturating_mul(8), copied)?;
        }
        self.answer(WExpr::Slot(slot))
    }

    /// In slot 1 the tag, in slot 2 its object and then the copy of it.
    fn copy_tagged(&mut self, count: u32, words: u64) -> Result<(), Memory>
        ensures { OnOk result (length self.new.uses.items ≡ length self.old.uses.items + count) }
    {
        self.set(1, 0, 0)?;
        self.set(2, 0, 8)?;
        for tag in 0..count {
            self.copy_object(tag)?;
        }
        self.allocate(words, 3)?;
        self.put(3, 0, 1)?;
        self.put(3, 8, 2)?;
        self.answer(WExpr::Slot(3))
    }

    fn copy_object(&mut self, tag: u32) -> Result<(), Memory>
        ensures { OnOk result (length self.new.uses.items ≡ length self.old.uses.items + 1) }
    {
        let object = vec![in self.alloc; WExpr::Slot(2)]?;
        let call = self.called(tag, b"copy", object, 2)?;
        self.where_tag(1, tag, vec![in self.alloc; call]?)
    }

    /// A call of the operation of the component at a place, from 0, which is the next use; its result goes into a slot.
    fn called(
        &mut self,
        place: u32,
        op: &[u8],
        objects: Vec<WExpr>,
        to: u32,
    ) -> Result<WStmt, Memory>
        ensures { OnOk result (length self.new.uses.items ≡ length self.old.uses.items + 1) }
    {
        self.uses
            .push(used(self.alloc, place.saturating_add(1), op)?)?;
        let operation = WExpr::Hole(HoleKind::Descriptor, place);
        Ok(WStmt::Call(operation, objects, vec![in self.alloc; to]?))
    }

    /// The same, as the next statement.
    fn call(&mut self, place: u32, op: &[u8], objects: Vec<WExpr>, to: u32) -> Result<(), Memory>
        ensures { OnOk result (length self.new.uses.items ≡ length self.old.uses.items + 1) }
    {
        let call = self.called(place, op, objects, to)?;
        self.add(call)
    }

    /// Into a slot the word so many bytes after the address in another.
    fn set(&mut self, to: u32, from: u32, distance: u32) -> Result<(), Memory>
        ensures { self.new.uses ≡ self.old.uses }
    {
        let value = load(self.alloc, from, distance)?;
        self.add(WStmt::Set(to, value))
    }

    /// The word in a slot so many bytes after the address in another.
    fn put(&mut self, slot: u32, distance: u32, value: u32) -> Result<(), Memory>
        ensures { self.new.uses ≡ self.old.uses }
    {
        self.add(WStmt::Put(WExpr::Slot(slot), distance, WExpr::Slot(value)))
    }

    fn allocate(&mut self, words: u64, slot: u32) -> Result<(), Memory>
        ensures { self.new.uses ≡ self.old.uses }
    {
        let count = vec![in self.alloc; WExpr::Word(words)]?;
        let to = vec![in self.alloc; slot]?;
        self.add(WStmt::Prim(Primitive::Allocate.number(), count, to))
    }

    /// Ends with false where the word is 0.
    fn end_unless(&mut self, condition: WExpr) -> Result<(), Memory>
        ensures { self.new.uses ≡ self.old.uses }
    {
        let end = answer(self.alloc, WExpr::Word(0))?;
        let other = vec![in self.alloc; end]?;
        self.add(WStmt::If(condition, Vec::new(self.alloc), other))
    }

    /// The statements where the slot has this tag.
    fn where_tag(&mut self, slot: u32, tag: u32, chosen: Vec<WStmt>) -> Result<(), Memory>
        ensures { self.new.uses ≡ self.old.uses }
    {
        let tag = WExpr::Word(u64::from(tag));
        let has = equal(self.alloc, WExpr::Slot(slot), tag)?;
        self.add(WStmt::If(has, chosen, Vec::new(self.alloc)))
    }

    fn answer(&mut self, value: WExpr) -> Result<(), Memory>
        ensures { self.new.uses ≡ self.old.uses }
    {
        let end = answer(self.alloc, value)?;
        self.add(end)
    }

    fn add(&mut self, statement: WStmt) -> Result<(), Memory>
        ensures { self.new.uses ≡ self.old.uses }
    {
        self.body.push(statement)?;
        Ok(())
    }
}

/// The text of the use of an operation of the parameter of this number.
fn used(alloc: Global, parameter: u32, op: &[u8]) -> Result<Bytes, Memory> {
    let mut types = TypeArena::new(alloc);
    let of = types.intern(Term::Param(parameter))?;
    let target = Target::Op(of, Bytes::from_slice(alloc, op)?);
    use_text(alloc, &types, &target)
}

/// The word so many bytes after the address in a slot.
fn load(alloc: Global, slot: u32, distance: u32) -> Result<WExpr, Memory> {
    Ok(WExpr::Load(Box::new(alloc, WExpr::Slot(slot))?, distance))
}

/// Whether the tags of both arguments are equal.
fn same_tags(alloc: Global) -> Result<WExpr, Memory> {
    let left = load(alloc, 0, 0)?;
    let right = load(alloc, 1, 0)?;
    equal(alloc, left, right)
}

fn equal(alloc: Global, left: WExpr, right: WExpr) -> Result<WExpr, Memory> {
    let left = Box::new(alloc, left)?;
    let right = Box::new(alloc, right)?;
    Ok(WExpr::Binary(WOp::Equal, left, right))
}

/// The end of the routine with this result.
fn answer(alloc: Global, value: WExpr) -> Result<WStmt, Memory> {
    Ok(WStmt::Return(vec![in alloc; value]?))
}
