//! Word code from its constant data.

ghost use Rattle.std.specs.Prelude.{◌≡◌, IfOk};
ghost use Rattle.clu_rt_text.specs.Operations.{IsCode, IsCodeNamed, NamesStringAtMost};

use crate::code::{Deed, Expr, Operation, Step};
use clu_base::{Bytes, Const, Memory, ObjConst};
use clu_wir::{HoleKind, Primitive, WArm, WCode, WDeed, WExpr, WLeaf, WRoutine, WStmt};
use std::alloc::Global;
use std::boxed::Box;

/// The code of an operation. The only error is that memory runs out.
pub fn code_of(alloc: Global, operation: &Operation) -> Result<WCode, Memory>
    ensures { IfOk result (IsCodeNamed operation.now.name.now) }
{
    let name = operation.name;
    let mut assembly = Assembly::new(alloc);
    match &operation.deed {
        Deed::Value(value) => {
            let deed = assembly.value_deed(value)?;
            Ok(WCode::Leaf(assembly.leaf(name, deed)?))
        }
        Deed::Put(address, by, value) => {
            let deed = assembly.put_deed(address, *by, value)?;
            Ok(WCode::Leaf(assembly.leaf(name, deed)?))
        }
        Deed::Steps(slots, steps) => {
            let made = routine(alloc, name, operation.args, *slots, steps)?;
            Ok(WCode::Routine(made))
        }
    }
}

/// What an operation does in the place of its call: with these arguments for its slots, each of which it evaluates once and
/// from left to right but for a word that is put, and these words for the constants of the type. None if it has steps. The
/// only error is that memory runs out.
pub fn in_place(
    alloc: Global,
    operation: &Operation,
    args: &[WExpr],
    known: &[u64],
) -> Result<Option<WDeed>, Memory> {
    let mut assembly = Assembly::with(alloc, args, known);
    match &operation.deed {
        Deed::Value(value) => Ok(Some(assembly.value_deed(value)?)),
        Deed::Put(address, by, value) => Ok(Some(assembly.put_deed(address, *by, value)?)),
        Deed::Steps(_, _) => Ok(None),
    }
}

/// A routine of this name that does steps in a frame of so many slots, of which the first are its arguments. The only
/// error is that memory runs out.
pub fn routine(
    alloc: Global,
    name: &[u8],
    args: u32,
    slots: u32,
    steps: &[Step],
) -> Result<WRoutine, Memory>
    ensures code { IfOk result (IsCode name.now) }
    ensures args { IfOk result (λ code. code.args ≡ args) }
    ensures slots { IfOk result (λ code. code.slots ≡ slots) }
{
    let mut assembly = Assembly::new(alloc);
    let body = assembly.steps(steps)?;
    Ok(WRoutine {
        name: Bytes::from_slice(alloc, name)?,
        args,
        slots,
        body,
        nodes: 0,
        uses: Vec::new(alloc),
        constants: assembly.constants,
        types: object_types(alloc, assembly.signals_text)?,
    })
}

/// The types that a routine names: that of a string, if it signals one.
fn object_types(alloc: Global, signals_text: bool) -> Result<Vec<Bytes>, Memory>
    ensures { IfOk result (λ types. NamesStringAtMost types.items) }
{
    let mut types = Vec::new(alloc);
    if signals_text {
        types.push(Bytes::from_slice(alloc, b"string")?)?;
    }
    Ok(types)
}

/// A routine in the making: its constants so far, each once, and whether it signals an exception with an object, which
/// is a string.
#[derive(Drop)]
struct Assembly<'a> {
    alloc: Global,
    /// What stands for the first slots, and for the constants of the type.
    args: &'a [WExpr],
    known: &'a [u64],
    constants: Vec<ObjConst>,
    signals_text: bool,
}

impl<'a> Assembly<'a> {
    fn new(alloc: Global) -> Assembly<'a> {
        Assembly::with(alloc, &[], &[])
    }

    fn with(alloc: Global, args: &'a [WExpr], known: &'a [u64]) -> Assembly<'a> {
        Assembly {
            alloc,
            args,
            known,
            constants: Vec::new(alloc),
            signals_text: false,
        }
    }

    /// A routine without a frame, of this name.
    fn leaf(self, name: &[u8], deed: WDeed) -> Result<WLeaf, Memory>
        ensures { IfOk result (λ leaf. leaf.name ≡ name.now) }
    {
        let Assembly {
            alloc,
            constants,
            ..
        } = self;
        Ok(WLeaf {
            name: Bytes::from_slice(alloc, name)?,
            deed,
            constants,
        })
    }

    fn value_deed(&mut self, value: &Expr) -> Result<WDeed, Memory> {
        Ok(WDeed::Value(self.expression(value)?))
    }

    fn put_deed(&mut self, address: &Expr, by: u32, value: &Expr) -> Result<WDeed, Memory> {
        let address = self.expression(address)?;
        let value = self.expression(value)?;
        Ok(WDeed::Put(address, by, value))
    }

    fn steps(&mut self, steps: &[Step]) -> Result<Vec<WStmt>, Memory> {
        let mut made = Vec::new(self.alloc);
        for step in steps {
            let inner = match step {
                Step::When(_, inner)
                | Step::Unless(_, inner)
                | Step::Loop(inner)
                | Step::Handle(_, inner)
                | Step::Iterate(_, _, _, inner) => self.steps(inner)?,
                _ => Vec::new(self.alloc),
            };
            made.push(self.step(step, inner)?)?;
        }
        Ok(made)
    }

    /// A step whose inner steps are made.
    fn step(&mut self, step: &Step, inner: Vec<WStmt>) -> Result<WStmt, Memory> {
        match step {
            Step::Set(slot, value) => self.set(*slot, value),
            Step::Put(address, by, value) => self.put(address, *by, value),
            Step::Do(primitive, values) => self.primitive(*primitive, values, &[]),
            Step::Get(slot, primitive, values) => self.primitive(*primitive, values, &[*slot]),
            Step::When(condition, _) => self.branch(condition, inner, Vec::new(self.alloc)),
            Step::Unless(condition, _) => self.branch(condition, Vec::new(self.alloc), inner),
            Step::Loop(_) => Ok(WStmt::Loop(inner)),
            Step::Break => Ok(WStmt::Break),
            Step::Handle(name, _) => self.handle(name, inner),
            Step::Signal(name, objects) => self.signal(name, objects),
            Step::Return(values) => self.leave(values),
            Step::Call(used, values, results) => self.call(*used, values, results),
            Step::Iterate(used, values, slot, _) => self.iterate(*used, values, *slot, inner),
            Step::Yield(values) => self.give(values),
        }
    }

    fn set(&mut self, slot: u32, value: &Expr) -> Result<WStmt, Memory> {
        Ok(WStmt::Set(slot, self.expression(value)?))
    }

    fn branch(
        &mut self,
        condition: &Expr,
        then: Vec<WStmt>,
        otherwise: Vec<WStmt>,
    ) -> Result<WStmt, Memory> {
        let condition = self.expression(condition)?;
        Ok(WStmt::If(condition, then, otherwise))
    }

    fn leave(&mut self, values: &[Expr]) -> Result<WStmt, Memory> {
        Ok(WStmt::Return(self.expressions(values)?))
    }

    fn give(&mut self, values: &[Expr]) -> Result<WStmt, Memory> {
        Ok(WStmt::Yield(self.expressions(values)?))
    }

    /// An arm that does nothing takes the exceptions of this name.
    fn handle(&self, name: &[u8], body: Vec<WStmt>) -> Result<WStmt, Memory> {
        let name = Bytes::from_slice(self.alloc, name)?;
        let arm = WArm {
            names: vec![in self.alloc; name]?,
            others: false,
            slots: Vec::new(self.alloc),
            body: Vec::new(self.alloc),
        };
        Ok(WStmt::Guard(body, vec![in self.alloc; arm]?))
    }

    fn call(&mut self, used: u32, values: &[Expr], results: &[u32]) -> Result<WStmt, Memory> {
        let values = self.expressions(values)?;
        let results = results.to_vec(self.alloc)?;
        Ok(WStmt::Call(descriptor(used), values, results))
    }

    fn iterate(
        &mut self,
        used: u32,
        values: &[Expr],
        slot: u32,
        body: Vec<WStmt>,
    ) -> Result<WStmt, Memory> {
        let values = self.expressions(values)?;
        let slots = vec![in self.alloc; slot]?;
        Ok(WStmt::Iterate(descriptor(used), values, slots, body))
    }

    fn put(&mut self, address: &Expr, by: u32, value: &Expr) -> Result<WStmt, Memory> {
        let address = self.expression(address)?;
        let value = self.expression(value)?;
        Ok(WStmt::Put(address, by, value))
    }

    fn primitive(
        &mut self,
        primitive: Primitive,
        values: &[Expr],
        results: &[u32],
    ) -> Result<WStmt, Memory> {
        let values = self.expressions(values)?;
        let results = results.to_vec(self.alloc)?;
        Ok(WStmt::Prim(primitive.number(), values, results))
    }

    /// The name of an exception is one of the routine's constants. After its object comes the address of the number of
    /// that one's type; a failure, which may come from anywhere, has its string alone.
    fn signal(&mut self, name: &[u8], objects: &[Expr]) -> Result<WStmt, Memory> {
        let mut objects = self.expressions(objects)?;
        if !objects.is_empty() && name != b"failure".as_slice() {
            self.signals_text = true;
            objects.push(WExpr::Hole(HoleKind::TypeCell, 0))?;
        }
        let _place = self.text(name)?;
        Ok(WStmt::Signal(Bytes::from_slice(self.alloc, name)?, objects))
    }

    #[cycle(expressions)]
    fn expressions(&mut self, values: &[Expr]) -> Result<Vec<WExpr>, Memory> {
        let mut made = Vec::new(self.alloc);
        for value in values {
            made.push(self.expression(value)?)?;
        }
        Ok(made)
    }

    #[cycle(expressions)]
    fn expression(&mut self, value: &Expr) -> Result<WExpr, Memory> {
        match value {
            Expr::Slot(slot) => self.slot(*slot),
            Expr::Word(word) => Ok(WExpr::Word(*word)),
            Expr::Bound(number) => Ok(WExpr::Bound(*number)),
            Expr::Text(text) => Ok(WExpr::Hole(HoleKind::Constant, self.text(text)?)),
            Expr::Known(number) => self.constant(*number),
            Expr::Load(address, by) => Ok(WExpr::Load(self.boxed(address)?, *by)),
            Expr::Byte(address) => Ok(WExpr::Byte(self.boxed(address)?)),
            Expr::Op(op, left, right) => {
                let left = self.boxed(left)?;
                Ok(WExpr::Binary(*op, left, self.boxed(right)?))
            }
            Expr::If(condition, then, other) => {
                let condition = self.boxed(condition)?;
                let then = self.boxed(then)?;
                Ok(WExpr::If(condition, then, self.boxed(other)?))
            }
            Expr::Check(condition, trap, value) => {
                let condition = self.boxed(condition)?;
                Ok(WExpr::Check(condition, *trap, self.boxed(value)?))
            }
            Expr::With(values, body) => {
                let values = self.expressions(values)?;
                Ok(WExpr::With(values, self.boxed(body)?))
            }
        }
    }

    #[cycle(expressions)]
    fn boxed(&mut self, value: &Expr) -> Result<Box<WExpr>, Memory> {
        let made = self.expression(value)?;
        Ok(Box::new(self.alloc, made)?)
    }

    fn slot(&self, slot: u32) -> Result<WExpr, Memory> {
        match self.args.get(slot as usize) {
            Some(argument) => argument.copy(self.alloc),
            None => Ok(WExpr::Slot(slot)),
        }
    }

    /// The constant of the type that has this number, from 1.
    fn constant(&mut self, number: u32) -> Result<WExpr, Memory> {
        match self.known.get((number as usize).saturating_sub(1)) {
            Some(word) => Ok(WExpr::Word(*word)),
            None => {
                let place = self.place(ObjConst::Param(number))?;
                Ok(WExpr::Hole(HoleKind::Constant, place))
            }
        }
    }

    /// The number of the constant that is the string of these bytes.
    fn text(&mut self, bytes: &[u8]) -> Result<u32, Memory> {
        let text = Bytes::from_slice(self.alloc, bytes)?;
        self.place(ObjConst::Value(Const::Str(text)))
    }

    /// The number of a constant.
    fn place(&mut self, constant: ObjConst) -> Result<u32, Memory> {
        let count = self.constants.len();
        let place = self.constants.iter().position(|known| *known == constant);
        if place.is_none() {
            self.constants.push(constant)?;
        }
        Ok(u32::try_from(place.unwrap_or(count)).unwrap_or(u32::MAX))
    }
}

/// The descriptor of the operation of this number among those that are used.
fn descriptor(used: u32) -> WExpr {
    WExpr::Hole(HoleKind::Descriptor, used)
}
