//! The code of all that a program reaches: that of routines as the library keeps it, and that of operations and of the
//! runtime, which is made here.

use crate::bounds::RUNTIME_PARTS;
use crate::errors::LinkError;
use crate::member::Member;
use crate::operation_codes::{Chosen, CodeName, Family, choose};
use crate::operations::{code_of, operation_code, type_of_force, type_of_operation, type_of_plain};
use crate::parameters::types_of;
use crate::program::{Callable, Code, Program};
use crate::reaching::{Callee, Instance, Reached, RoutineName};
use crate::variables::Owners;
use clu_base::{Bytes, Const};
use clu_object::ObjRoutine;
use clu_rt_data::force_code;
use clu_rt_text::Operation;
use clu_types::{Actual, TypeArena, TypeId};
use indexmap::{IndexMap, IndexSet};
use rv_select::{bind_part, search_part, start_part, trap_part};
use std::alloc::Global;
use std::boxed::Box;
use std::mem;

/// The program of what was reached.
pub fn collect<'a>(
    alloc: Global,
    reached: &mut Reached<'a>,
) -> Result<Box<Program<'a>>, LinkError> {
    let mut program = Box::new(alloc, begun(alloc, reached))?;
    add_codes(alloc, &mut program.codes, &mut reached.routines)?;
    add_callables(alloc, &mut program, reached)?;
    Ok(program)
}

/// A program with the types of what was reached, and nothing else yet.
fn begun<'a>(alloc: Global, reached: &mut Reached<'a>) -> Program<'a> {
    Program {
        types: mem::replace(&mut reached.types, TypeArena::new(alloc)),
        codes: Vec::new(alloc),
        callables: Vec::new(alloc),
        variables: IndexSet::new(alloc),
    }
}

/// The parts of the runtime, each at its number.
fn runtime_parts(alloc: Global) -> Result<Vec<ObjRoutine>, LinkError> {
    let mut parts = Vec::new(alloc);
    parts.push(start_part(alloc)?)?;
    parts.push(search_part(alloc)?)?;
    parts.push(bind_part(alloc)?)?;
    parts.push(trap_part(alloc)?)?;
    Ok(parts)
}

/// Adds the parts of the runtime, and after them the routines.
fn add_codes<'a>(
    alloc: Global,
    codes: &mut Vec<Code<'a>>,
    routines: &mut IndexMap<RoutineName, Code<'a>>,
) -> Result<(), LinkError> {
    for part in runtime_parts(alloc)? {
        codes.push(Code::Made(part))?;
    }
    for (_, code) in routines.drain(..) {
        codes.push(code)?;
    }
    Ok(())
}

/// Adds the instances, and after them the operations.
fn add_callables(
    alloc: Global,
    program: &mut Program<'_>,
    reached: &mut Reached<'_>,
) -> Result<(), LinkError> {
    let count = reached.instances.len();
    let members = &reached.members;
    for instance in reached.instances.drain(..) {
        add_instance(alloc, program, members, instance, count)?;
    }
    let mut placed = IndexMap::new(alloc);
    add_operations(alloc, program, &reached.operations, &mut placed)
}

/// Adds an instance, which is the next callable.
fn add_instance(
    alloc: Global,
    program: &mut Program<'_>,
    members: &IndexSet<Member>,
    instance: Instance,
    count: usize,
) -> Result<(), LinkError> {
    let number = program.callables.len();
    let Some(member) = members.get_index(number) else {
        return Err(LinkError::NotYet);
    };
    let Instance {
        routine,
        actuals,
        uses,
        types,
        cluster,
    } = instance;
    let code = (RUNTIME_PARTS as usize).saturating_add(routine);
    let own = own_type(alloc, &mut program.types, member, types.as_slice())?;
    let owners = Owners { number, cluster };
    let codes = program.codes.as_slice();
    let variables = owners.variables(alloc, &mut program.variables, codes, code)?;
    program.callables.push(Callable {
        code,
        own,
        uses: callables_of(alloc, uses.as_slice(), count)?,
        types,
        actuals,
        variables,
    })?;
    Ok(())
}

/// The own type of an instance: the first of its types, or that of the operation that it is. The routine of a module that
/// names no type has that of a procedure without arguments.
fn own_type(
    alloc: Global,
    types: &mut TypeArena,
    member: &Member,
    named: &[TypeId],
) -> Result<TypeId, LinkError> {
    match named.first() {
        Some(own) => Ok(*own),
        None => match member {
            Member::Op(of, op) => type_of_operation(alloc, types, *of, op),
            _ => type_of_plain(alloc, types),
        },
    }
}

/// The numbers of the callables that uses come to: operations follow the instances.
fn callables_of(alloc: Global, uses: &[Callee], instances: usize) -> Result<Vec<usize>, LinkError> {
    let mut callables = Vec::new(alloc);
    for callee in uses {
        callables.push(match callee {
            Callee::Instance(n) => *n,
            Callee::Operation(n) => instances.saturating_add(*n),
        })?;
    }
    Ok(callables)
}

/// Adds the operations, and each code that serves them once.
fn add_operations(
    alloc: Global,
    program: &mut Program<'_>,
    operations: &IndexSet<Member>,
    placed: &mut IndexMap<CodeName, usize>,
) -> Result<(), LinkError> {
    for member in operations {
        match member {
            Member::Op(of, name) => add_operation(alloc, program, placed, *of, name)?,
            Member::ForceOf(of) => add_force(alloc, program, placed, *of)?,
            _ => return Err(LinkError::NotYet),
        }
    }
    Ok(())
}

fn add_operation(
    alloc: Global,
    program: &mut Program<'_>,
    placed: &mut IndexMap<CodeName, usize>,
    of: TypeId,
    name: &Bytes,
) -> Result<(), LinkError> {
    let Chosen {
        code,
        operation,
        known,
    } = choose(alloc, &program.types, of, name)?;
    let number = number_of(alloc, program, placed, code, operation)?;
    let types = types_of_code(alloc, &mut program.types, program.codes.as_slice(), number)?;
    let own = type_of_operation(alloc, &mut program.types, of, name)?;
    program.callables.push(Callable {
        code: number,
        own,
        uses: Vec::new(alloc),
        types,
        actuals: as_actuals(alloc, known)?,
        variables: Vec::new(alloc),
    })?;
    Ok(())
}

/// What the types of an operation's code are, in which no parameter stands.
fn types_of_code(
    alloc: Global,
    types: &mut TypeArena,
    codes: &[Code<'_>],
    number: usize,
) -> Result<Vec<TypeId>, LinkError> {
    let Some(code) = codes.get(number) else {
        return Err(LinkError::NotYet);
    };
    let texts = code.routine().types.as_slice();
    types_of(alloc, types, texts, &[])?.ok_or(LinkError::NotYet)
}

/// The number of an operation's code, which is added if it is new.
fn number_of(
    alloc: Global,
    program: &mut Program<'_>,
    placed: &mut IndexMap<CodeName, usize>,
    name: CodeName,
    operation: &Operation,
) -> Result<usize, LinkError> {
    match placed.get(&name).copied() {
        Some(number) => Ok(number),
        None => {
            let made = operation_code(alloc, operation)?;
            add_code(program, placed, name, made)
        }
    }
}

/// Adds a code; the answer is its number.
fn add_code(
    program: &mut Program<'_>,
    placed: &mut IndexMap<CodeName, usize>,
    name: CodeName,
    made: ObjRoutine,
) -> Result<usize, LinkError> {
    let number = program.codes.len();
    program.codes.push(Code::Made(made))?;
    placed.insert(name, number)?;
    Ok(number)
}

/// Constants as actual parameters.
fn as_actuals(alloc: Global, constants: Vec<Const>) -> Result<Vec<Actual>, LinkError> {
    let mut actuals = Vec::new(alloc);
    for constant in constants {
        actuals.push(Actual::Const(constant))?;
    }
    Ok(actuals)
}

fn add_force(
    alloc: Global,
    program: &mut Program<'_>,
    placed: &mut IndexMap<CodeName, usize>,
    of: TypeId,
) -> Result<(), LinkError> {
    let code = force_number(alloc, program, placed)?;
    let own = type_of_force(alloc, &mut program.types, of)?;
    program.callables.push(Callable {
        code,
        own,
        uses: Vec::new(alloc),
        types: vec![in alloc; of]?,
        actuals: Vec::new(alloc),
        variables: Vec::new(alloc),
    })?;
    Ok(())
}

/// The number of the code of `force`, which is added if it is new.
fn force_number(
    alloc: Global,
    program: &mut Program<'_>,
    placed: &mut IndexMap<CodeName, usize>,
) -> Result<usize, LinkError> {
    let name = CodeName {
        family: Family::Force,
        name: Bytes::from_slice(alloc, b"force")?,
    };
    match placed.get(&name).copied() {
        Some(number) => Ok(number),
        None => {
            let made = code_of(alloc, &force_code(alloc)?)?;
            add_code(program, placed, name, made)
        }
    }
}
