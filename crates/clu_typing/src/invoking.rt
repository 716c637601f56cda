//! What is invoked at each node, by a call or by sugar, and what is asked of types there.

ghost use Rattle.std.specs.Prelude.{◌≡◌, length, OnOk};
ghost use Rattle.clu_types.specs.Arena.{Grows};
ghost use Rattle.clu_operations.specs.Finding.{IsBelowIf};
ghost use Rattle.clu_operations.specs.Wished.{IsFinding};
ghost use Rattle.clu_typing.specs.Found.{FindsMore};
ghost use Rattle.clu_typing.specs.Invoking.{lists_of, begun, with_found, with_asker, with_operation, with_invocation, with_invocation_of, with_arguments, invoked, called, with_applied, noted, module_at, NotesModule};

use crate::applied::{Applied, module_operation};
use crate::facts::{Invocation, Invocations, Operation};
use crate::nodes::is_used;
use clu_base::Memory;
use clu_bindings::{File, Headed, has_fitting_kinds, named_at, optional_at, type_of_value};
use clu_operations::{Asked, Finding, FoundId};
use clu_tree::NodeKind;
use clu_types::{TypeArena, TypeId};

/// Appends what was found, if it asks something of types.
fn push_found(list: &mut Invocations, asks: &[Asked], found: FoundId) -> Result<(), Memory>
    ensures { OnOk result (lists_of list.new ≡ with_found asks.now found (lists_of list.old)) }
{
    match asks {
        [] => Ok(()),
        [_, ..] => {
            list.askers.push(found)?;
            Ok(())
        }
    }
}

/// Appends an operation or a module, if it asks something of types.
fn push_asker(finding: &Finding, list: &mut Invocations, operation: Operation) -> Result<(), Memory>
    ensures { OnOk result (lists_of list.new ≡ with_asker finding.now operation (lists_of list.old)) }
{
    match operation {
        Operation::Found(found) => push_found(list, finding.asked_by(found), found),
        _ => Ok(()),
    }
}

/// Appends an operation that is invoked or named.
fn push_operation(
    finding: &Finding,
    list: &mut Invocations,
    operation: Operation,
) -> Result<(), Memory>
    ensures { OnOk result (lists_of list.new ≡ with_operation finding.now operation (lists_of list.old)) }
{
    list.operations.push(operation)?;
    push_asker(finding, list, operation)
}

/// Appends an invocation with the arguments from a place on.
fn push_invocation(
    finding: &Finding,
    list: &mut Invocations,
    operation: Operation,
    from: usize,
) -> Result<(), Memory>
    ensures { OnOk result (lists_of list.new ≡ with_invocation finding.now operation from (lists_of list.old)) }
{
    let to = list.arguments.as_slice().len();
    list.all.push(Invocation {
        operation,
        from,
        to,
    })?;
    push_operation(finding, list, operation)
}

/// Appends the types of these nodes as arguments.
fn push_arguments(
    types: &[Option<TypeId>],
    list: &mut Invocations,
    nodes: &[u32],
) -> Result<(), Memory>
    ensures { OnOk result (lists_of list.new ≡ with_arguments types.now nodes.now (lists_of list.old)) }
{
    for n in nodes {
        list.arguments.push(optional_at(types, *n as usize))?;
    }
    Ok(())
}

/// Appends an invocation with these nodes as arguments.
fn invoke(
    types: &[Option<TypeId>],
    finding: &Finding,
    list: &mut Invocations,
    operation: Operation,
    nodes: &[u32],
) -> Result<(), Memory>
    ensures { OnOk result (lists_of list.new ≡ invoked types.now finding.now operation nodes.now (lists_of list.old)) }
{
    let from = list.arguments.as_slice().len();
    push_arguments(types, list, nodes)?;
    push_invocation(finding, list, operation, from)
}

/// Appends the invocation of an operation of one argument of this type.
fn invoke_of(
    finding: &Finding,
    list: &mut Invocations,
    operation: Operation,
    of: TypeId,
) -> Result<(), Memory>
    ensures { OnOk result (lists_of list.new ≡ with_invocation_of finding.now operation of (lists_of list.old)) }
{
    let from = list.arguments.as_slice().len();
    list.arguments.push(Some(of))?;
    push_invocation(finding, list, operation, from)
}

/// Appends that of a routine object with arguments, which are these nodes.
fn call(
    types: &[Option<TypeId>],
    finding: &Finding,
    list: &mut Invocations,
    nodes: &[u32],
) -> Result<(), Memory>
    ensures { OnOk result (lists_of list.new ≡ called types.now finding.now nodes.now (lists_of list.old)) }
{
    match nodes {
        [routine, arguments @ ..] => match optional_at(types, *routine as usize) {
            Some(of) => invoke(types, finding, list, Operation::Object(of), arguments),
            None => Ok(()),
        },
        [] => Ok(()),
    }
}

/// Appends what is invoked and named at a node of this kind with these children, by that for which it stands. The operand is
/// its first child, and behind it stand the other arguments.
fn push_applied(
    types: &[Option<TypeId>],
    finding: &Finding,
    list: &mut Invocations,
    applied: Applied,
    kind: NodeKind,
    children: &[u32],
) -> Result<(), Memory>
    ensures { OnOk result (lists_of list.new ≡ with_applied types.now finding.now applied kind children.now (lists_of list.old)) }
{
    match applied {
        Applied::Invoked(used, None) => invoke(types, finding, list, used.operation, children),
        Applied::Invoked(first, Some(second)) => {
            invoke(types, finding, list, first.operation, children)?;
            invoke_of(finding, list, second.operation, second.of)
        }
        Applied::Named(Some(used)) => push_operation(finding, list, used.operation),
        Applied::Named(None) => push_operation(finding, list, Operation::Missing),
        Applied::Nothing => match kind {
            NodeKind::Call => call(types, finding, list, children),
            _ => Ok(()),
        },
    }
}

/// The same of the node n, if it stands for an object or for an operation that changes one.
fn push_operations(
    file: File<'_>,
    types: &[Option<TypeId>],
    finding: &Finding,
    list: &mut Invocations,
    applied: Applied,
    n: u32,
) -> Result<(), Memory>
    ensures { OnOk result (lists_of list.new ≡ noted file.entry types.now finding.now applied n (lists_of list.old)) }
{
    if is_used(file, n) {
        push_applied(
            types,
            finding,
            list,
            applied,
            file.kind(n),
            file.children(n),
        )
    } else {
        Ok(())
    }
}

/// The type of the module that the node n names with actual parameters of the kinds that it takes.
fn module_at(file: File<'_>, types: &TypeArena, n: u32) -> Option<TypeId>
    ensures { result ≡ module_at file.entry types.now n }
{
    let named = named_at(file, n)?;
    if file.is_of_module(named.node) && has_fitting_kinds(file, types, named) {
        type_of_value(file.value(n))
    } else {
        None
    }
}

/// What the next node invokes begins here.
fn begin(list: &mut Invocations) -> Result<(), Memory>
    ensures { OnOk result (lists_of list.new ≡ begun (lists_of list.old)) }
{
    list.starts.push(list.all.as_slice().len())?;
    list.operation_starts
        .push(list.operations.as_slice().len())?;
    list.asker_starts.push(list.askers.as_slice().len())?;
    Ok(())
}

/// Notes what is invoked and named at the node n.
fn note_operations(
    file: File<'_>,
    types: &[Option<TypeId>],
    finding: &Finding,
    list: &mut Invocations,
    applied: Applied,
    n: u32,
) -> Result<(), Memory>
    ensures { OnOk result (lists_of list.new ≡ noted file.entry types.now finding.now applied n (begun (lists_of list.old))) }
{
    begin(list)?;
    push_operations(file, types, finding, list, applied, n)
}

/// Notes the module that the node n names, if it asks something of types.
fn note_module(
    headed: Headed<'_>,
    types: &mut TypeArena,
    finding: &mut Finding,
    list: &mut Invocations,
    n: u32,
) -> Result<(), Memory>
    ensures lists { OnOk result (NotesModule headed.entry types.old types.new finding.old finding.new (module_at headed.entry.file types.old n) (lists_of list.old) (lists_of list.new)) }
    ensures found { IsBelowIf (length types.old) (module_at headed.entry.file types.old n) → IsFinding headed.entry types.old finding.old → OnOk result (FindsMore headed.entry types.new finding.old finding.new) }
    ensures kept { Grows types.old types.new }
{
    let of = module_at(headed.file, types, n);
    let module = module_operation(headed, types, finding, of)?;
    push_asker(finding, list, module)
}

/// Notes what is invoked, named and asked at the node n, by what is known of the nodes before it.
pub fn note_invocations(
    headed: Headed<'_>,
    types: &mut TypeArena,
    known: &[Option<TypeId>],
    finding: &mut Finding,
    list: &mut Invocations,
    applied: Applied,
    n: u32,
) -> Result<(), Memory>
    ensures lists { OnOk result (NotesModule headed.entry types.old types.new finding.old finding.new (module_at headed.entry.file types.old n) (noted headed.entry.file known.now finding.old applied n (begun (lists_of list.old))) (lists_of list.new)) }
    ensures found { IsBelowIf (length types.old) (module_at headed.entry.file types.old n) → IsFinding headed.entry types.old finding.old → OnOk result (FindsMore headed.entry types.new finding.old finding.new) }
    ensures kept { Grows types.old types.new }
{
    note_operations(headed.file, known, finding, list, applied, n)?;
    note_module(headed, types, finding, list, n)
}
