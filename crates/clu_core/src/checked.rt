//! A file that was checked.

ghost use Rattle.std.specs.Prelude.{◌≡◌, [], None, IfOk, length, replicate};

use crate::op_ref::OpRef;
use crate::tables::unknown;
use clu_base::Memory;
use clu_constants::Constants;
use clu_syntax::Syntax;
use clu_types::{Spec, TypeArena, TypeId};
use std::alloc::Global;

/// A constant that a name stands for.
#[derive(Clone, Copy)]
pub enum NamedConstant {
    /// That of this place among the constants of the file.
    Known(usize),
    /// The constant parameter of this number, from 1.
    Parameter(u32),
}

/// A file with what its check found.
#[derive(Drop)]
pub struct Checked {
    pub syntax: Syntax,
    pub types: TypeArena,
    /// For each node the type of the expression that it is.
    pub type_of: Vec<Option<TypeId>>,
    /// For each node the operation that it invokes or names.
    pub op_of: Vec<Option<OpRef>>,
    /// For each node of a type outside equates, the type that it denotes.
    pub denoted: Vec<Option<TypeId>>,
    /// For each name that stands for a constant in an expression, that constant.
    pub constant_of: Vec<Option<NamedConstant>>,
    /// The constants to which expressions come, that of an equate once however often it is named.
    pub constants: Constants,
    /// The specifications of the file's modules in the order of the text, and after them, ascending
    /// by name, those of all other modules under which it was checked.
    pub specs: Vec<Spec>,
}

impl Checked {
    /// A file of which nothing is known yet: no types, no specifications, and nothing at any node. The only
    /// error is that memory runs out.
    pub fn new(alloc: Global, syntax: Syntax) -> Result<Checked, Memory>
        ensures syntax { IfOk result (λ checked. checked.syntax ≡ syntax) }
        ensures types { IfOk result (λ checked. checked.types ≡ []) }
        ensures type_of { IfOk result (λ checked. checked.type_of.items ≡ replicate (length syntax) None) }
        ensures op_of { IfOk result (λ checked. checked.op_of.items ≡ replicate (length syntax) None) }
        ensures denoted { IfOk result (λ checked. checked.denoted.items ≡ replicate (length syntax) None) }
        ensures constant_of { IfOk result (λ checked. checked.constant_of.items ≡ replicate (length syntax) None) }
        ensures constants { IfOk result (λ checked. checked.constants ≡ []) }
        ensures specs { IfOk result (λ checked. checked.specs.items ≡ []) }
    {
        let nodes = syntax.tree().len() as usize;
        Ok(Checked {
            types: TypeArena::new(alloc),
            type_of: unknown(alloc, nodes)?,
            op_of: unknown(alloc, nodes)?,
            denoted: unknown(alloc, nodes)?,
            constant_of: unknown(alloc, nodes)?,
            constants: Constants::new(alloc),
            specs: Vec::new(alloc),
            syntax,
        })
    }
}
