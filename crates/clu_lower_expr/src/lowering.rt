//! A routine in the making: the statements so far, what they use, and the slots that are taken.

ghost use Rattle.std.specs.Prelude.{◌≡◌, [], IfOk, OnOk, Some, map};
ghost use Rattle.clu_wir.specs.Plain.{expr_of, stmt_of};
ghost use Rattle.clu_lower_expr.specs.Low.{appended, declared, empty, low_of, number_of_constant, number_of_operation, pushed, released, took, type_place, used, variable_of, with_code, with_named, with_operation, with_type, with_types};
ghost use Rattle.clu_lower_expr.specs.Values.{constant_word, string_word, type_cells, type_number};
ghost use Rattle.clu_lower_expr.specs.Bounds.{IsBounded, IsNamed};

use crate::arms::OpenArm;
use crate::bounds::is_bounded;
use crate::variables::Variable;
use clu_base::{Bytes, Const, ObjConst};
use clu_lower_types::{LowerError, Result};
use clu_types::TypeId;
use clu_wir::{HoleKind, WExpr, WRoutine, WStmt};
use indexmap::{IndexMap, IndexSet};
use std::alloc::Global;
use std::boxed::Box;
use std::hash::Hash;
use std::mem;

/// An operation of a type of the file's arena.
#[derive(PartialEq, Eq, Hash, Drop)]
pub struct TypeOperation {
    pub of: TypeId,
    pub name: Bytes,
}

/// A routine in the making. Slots are taken and given back like a stack: a statement's own slots stand after those of
/// the variables in scope.
#[derive(Drop)]
pub struct Lowering {
    pub alloc: Global,
    /// The list of statements to which is added.
    statements: Vec<WStmt>,
    /// Texts of uses, and constants, each once, in the order in which they are met.
    uses: IndexSet<Bytes>,
    constants: IndexSet<ObjConst>,
    /// By the operations of the file's types that are used, their numbers among the uses.
    operation_numbers: IndexMap<TypeOperation, u32>,
    /// By the places of the file's constants that are named, their numbers among these.
    constant_numbers: IndexMap<usize, u32>,
    /// Texts of types, and the place of each that is asked for alone.
    types: Vec<Bytes>,
    type_places: IndexMap<Bytes, u32>,
    /// Variables by their declarations.
    variables: IndexMap<usize, Variable>,
    /// The arms of the guards round the statement, those of the innermost guard last.
    pub guards: Vec<Vec<OpenArm>>,
    /// How many slots are taken, and how many were taken at most.
    taken: u32,
    most: u32,
}

impl Lowering {
    /// A routine without statements.
    pub fn new(alloc: Global) -> Lowering
        ensures { low_of result ≡ empty }
    {
        Lowering {
            alloc,
            statements: Vec::new(alloc),
            uses: IndexSet::new(alloc),
            constants: IndexSet::new(alloc),
            operation_numbers: IndexMap::new(alloc),
            constant_numbers: IndexMap::new(alloc),
            types: Vec::new(alloc),
            type_places: IndexMap::new(alloc),
            variables: IndexMap::new(alloc),
            guards: Vec::new(alloc),
            taken: 0,
            most: 0,
        }
    }

    /// The routine, which is taken out. What it takes comes in its first slots. No contract shows yet that it is
    /// well formed and takes no more than its nodes allow: it is tested.
    pub fn finish(&mut self, name: Bytes, args: u32, nodes: u32) -> Result<WRoutine>
        ensures named { IfOk result (IsNamed name args nodes) }
        ensures bounded { IfOk result IsBounded }
    {
        let routine = self.made(name, args, nodes)?;
        if !is_bounded(&routine) {
            return Err(LowerError::NotYet);
        }
        Ok(Box::into_inner(routine))
    }

    fn made(&mut self, name: Bytes, args: u32, nodes: u32) -> Result<Box<WRoutine>>
        ensures { IfOk result (λ made. IsNamed name args nodes made.value) }
    {
        let mut made = Box::new(self.alloc, self.begun(name, args, nodes))?;
        list(&mut made.uses, &mut self.uses)?;
        list(&mut made.constants, &mut self.constants)?;
        Ok(made)
    }

    /// A routine of the statements and the types, which are taken out. What it uses, and its constants, come next.
    fn begun(&mut self, name: Bytes, args: u32, nodes: u32) -> WRoutine
        ensures named { IsNamed name args nodes result }
        ensures body { map stmt_of result.body.items ≡ (low_of self.old).code }
        ensures slots { result.slots ≡ (low_of self.old).most }
        ensures types { result.types.items ≡ (low_of self.old).types }
        ensures uses { (low_of self.new).uses ≡ (low_of self.old).uses }
        ensures constants { (low_of self.new).constants ≡ (low_of self.old).constants }
    {
        WRoutine {
            name,
            args,
            slots: self.most,
            body: mem::replace(&mut self.statements, Vec::new(self.alloc)),
            nodes,
            uses: Vec::new(self.alloc),
            constants: Vec::new(self.alloc),
            types: mem::replace(&mut self.types, Vec::new(self.alloc)),
        }
    }

    /// Adds a statement.
    pub fn push(&mut self, statement: WStmt) -> Result<()>
        ensures { OnOk result (low_of self.new ≡ pushed (stmt_of statement) (low_of self.old)) }
    {
        self.statements.push(statement)?;
        Ok(())
    }

    /// Adds statements that were made before.
    pub fn append(&mut self, mut statements: Vec<WStmt>) -> Result<()>
        ensures { OnOk result (low_of self.new ≡ appended (map stmt_of statements.items) (low_of self.old)) }
    {
        self.statements.append(&mut statements)?;
        Ok(())
    }

    /// Begins a list of statements inside the current one, which is handed out.
    pub fn open(&mut self) -> Vec<WStmt>
        ensures outer { map stmt_of result.items ≡ (low_of self.old).code }
        ensures inner { low_of self.new ≡ with_code [] (low_of self.old) }
    {
        mem::replace(&mut self.statements, Vec::new(self.alloc))
    }

    /// Ends a list of statements, which is handed out; the one round it goes on.
    pub fn close(&mut self, outer: Vec<WStmt>) -> Vec<WStmt>
        ensures inner { map stmt_of result.items ≡ (low_of self.old).code }
        ensures outer { low_of self.new ≡ with_code (map stmt_of outer.items) (low_of self.old) }
    {
        mem::replace(&mut self.statements, outer)
    }

    /// How many slots are taken.
    pub fn taken(&self) -> u32
        ensures { result ≡ (low_of self.now).taken }
    {
        self.taken
    }

    /// Takes a slot.
    pub fn take(&mut self) -> Result<u32>
        ensures slot { IfOk result (λ slot. slot ≡ (low_of self.old).taken) }
        ensures took { OnOk result (low_of self.new ≡ took (low_of self.old)) }
    {
        let slot = self.taken;
        let Some(taken) = slot.checked_add(1) else {
            return Err(LowerError::NotYet);
        };
        self.taken = taken;
        self.most = self.most.max(self.taken);
        Ok(slot)
    }

    /// Gives back all slots but the first `taken`.
    pub fn release(&mut self, taken: u32)
        ensures { low_of self.new ≡ released taken (low_of self.old) }
    {
        self.taken = self.taken.min(taken);
    }

    /// The number of what a use names, by its text.
    pub fn use_number(&mut self, text: Bytes) -> Result<u32>
        ensures { IfOk result (λ n. used text (low_of self.old) ≡ (n, low_of self.new)) }
    {
        let (number, _) = self.uses.insert_full(text)?;
        place(number)
    }

    /// The number of the use of an operation, if it was noted.
    pub fn named_operation(&self, operation: &TypeOperation) -> Option<u32>
        ensures { result ≡ number_of_operation operation.now (low_of self.now) }
    {
        self.operation_numbers.get(operation).copied()
    }

    /// Notes the number of the use of an operation.
    pub fn note_operation(&mut self, operation: TypeOperation, number: u32) -> Result<()>
        ensures { OnOk result (low_of self.new ≡ with_operation operation number (low_of self.old)) }
    {
        self.operation_numbers.insert(operation, number)?;
        Ok(())
    }

    /// The word of a constant that only the linker knows.
    pub fn constant(&mut self, constant: ObjConst) -> Result<WExpr>
        ensures { IfOk result (λ e. constant_word constant (low_of self.old) ≡ (expr_of e, low_of self.new)) }
    {
        let (number, _) = self.constants.insert_full(constant)?;
        Ok(WExpr::Hole(HoleKind::Constant, place(number)?))
    }

    /// The number of the file's constant at this place, if it was noted.
    pub fn named_constant(&self, place: usize) -> Option<u32>
        ensures { result ≡ number_of_constant place (low_of self.now) }
    {
        self.constant_numbers.get(&place).copied()
    }

    /// Notes the number of the file's constant at this place.
    pub fn note_constant(&mut self, place: usize, number: u32) -> Result<()>
        ensures { OnOk result (low_of self.new ≡ with_named place number (low_of self.old)) }
    {
        self.constant_numbers.insert(place, number)?;
        Ok(())
    }

    /// The word of a string.
    pub fn string(&mut self, bytes: &[u8]) -> Result<WExpr>
        ensures { IfOk result (λ e. string_word bytes.now (low_of self.old) ≡ (expr_of e, low_of self.new)) }
    {
        let bytes = Bytes::from_slice(self.alloc, bytes)?;
        self.constant(ObjConst::Value(Const::Str(bytes)))
    }

    /// Adds a type, by its text, after all others; the answer is its place.
    pub fn add_type(&mut self, text: Bytes) -> Result<u32>
        ensures { IfOk result (λ n. with_type text (low_of self.old) ≡ (n, low_of self.new)) }
    {
        let number = place(self.types.len())?;
        self.types.push(text)?;
        Ok(number)
    }

    /// Adds types, by their texts, one after the other; the answer is the place of the first.
    pub fn add_types(&mut self, mut texts: Vec<Bytes>) -> Result<u32>
        ensures { IfOk result (λ n. with_types texts.items (low_of self.old) ≡ (n, low_of self.new)) }
    {
        let first = place(self.types.len())?;
        self.types.append(&mut texts)?;
        Ok(first)
    }

    /// The address of cells with the numbers of types, by their texts, one after the other.
    pub fn type_cells(&mut self, texts: Vec<Bytes>) -> Result<WExpr>
        ensures { IfOk result (λ e. type_cells texts.items (low_of self.old) ≡ (expr_of e, low_of self.new)) }
    {
        Ok(WExpr::Hole(HoleKind::TypeCell, self.add_types(texts)?))
    }

    /// The number that a type, by its text, has in the program.
    pub fn type_number(&mut self, text: Bytes) -> Result<WExpr>
        ensures { IfOk result (λ e. type_number text (low_of self.old) ≡ (expr_of e, low_of self.new)) }
    {
        Ok(WExpr::Hole(HoleKind::TypeWord, self.type_place(text)?))
    }

    /// The place of a type that was asked for before, or is added now.
    fn type_place(&mut self, text: Bytes) -> Result<u32>
        ensures { IfOk result (λ n. type_place text (low_of self.old) ≡ (n, low_of self.new)) }
    {
        if let Some(known) = self.type_places.get(&text) {
            return Ok(*known);
        }
        let number = self.add_type(text.copy(self.alloc)?)?;
        self.type_places.insert(text, number)?;
        Ok(number)
    }

    /// The variable of this declaration.
    pub fn variable(&self, place: usize) -> Result<Variable>
        ensures { IfOk result (λ v. variable_of place (low_of self.now) ≡ Some v) }
    {
        match self.variables.get(&place) {
            Some(variable) => Ok(*variable),
            None => Err(LowerError::NotYet),
        }
    }

    /// Notes the variable of a declaration.
    pub fn declare(&mut self, place: usize, variable: Variable) -> Result<()>
        ensures { OnOk result (low_of self.new ≡ declared place variable (low_of self.old)) }
    {
        self.variables.insert(place, variable)?;
        Ok(())
    }
}

/// A number in a table of a routine.
fn place(number: usize) -> Result<u32>
    ensures { IfOk result (λ n. n ≡ number) }
{
    match u32::try_from(number) {
        Ok(place) => Ok(place),
        Err(_) => Err(LowerError::NotYet),
    }
}

/// Adds the items of a set to a list, in their order; they are taken out.
fn list<T: Eq + Hash + Drop>(listed: &mut Vec<T>, items: &mut IndexSet<T>) -> Result<()> {
    for item in items.drain(..) {
        listed.push(item)?;
    }
    Ok(())
}
