//! The operation that is named or invoked at a node, as it is compiled.

ghost use Rattle.std.specs.Prelude.{◌≡◌};
ghost use Rattle.clu_typing.specs.Invoked.{operation_of, by_applied, instance_at, names_routine, called, invoked_at};

use crate::applied::{Applied, Use};
use crate::facts::Invoked;
use crate::nodes::{has_actuals, is_used};
use clu_bindings::{File, Meaning, named_at, optional_at, type_of_value};
use clu_operations::{Shape, shape_of};
use clu_tree::NodeKind;
use clu_types::TypeArena;

fn operation_of(types: &TypeArena, used: Use) -> Invoked
    ensures { result ≡ operation_of types.now used }
{
    match shape_of(types, used.of) {
        Shape::Builtin => Invoked::Builtin(used.of, used.name),
        Shape::Cluster => Invoked::Cluster(used.of, used.name),
        Shape::Parameter(number) => Invoked::Parameter(number, used.name),
    }
}

/// Of a comparison with `~` it is the comparison's.
fn by_applied(types: &TypeArena, applied: Applied) -> Option<Invoked>
    ensures { result ≡ by_applied types.now applied }
{
    match applied {
        Applied::Invoked(used, _) | Applied::Named(Some(used)) => Some(operation_of(types, used)),
        _ => None,
    }
}

/// The module with actual parameters, which the node n comes to as a cluster type of its name.
fn instance_at(file: File<'_>, n: u32) -> Option<Invoked>
    ensures { result ≡ instance_at file.entry n }
{
    match file.meaning(named_at(file, n)?.node) {
        Meaning::Module(_) => Some(Invoked::Module(type_of_value(file.value(n))?)),
        _ => None,
    }
}

/// Whether what is invoked at the node n is the routine that is called.
fn names_routine(file: File<'_>, n: u32) -> bool
    ensures { result ≡ names_routine file.entry n }
{
    match file.kind(n) {
        NodeKind::Name | NodeKind::OperOf => true,
        NodeKind::Index => has_actuals(file, n),
        _ => false,
    }
}

/// What the Call n invokes, by what the nodes before name and invoke.
fn called(file: File<'_>, invoked: &[Option<Invoked>], n: u32) -> Option<Invoked>
    ensures { result ≡ called file.entry invoked.now n }
{
    match file.children(n) {
        [routine, ..] => {
            if names_routine(file, *routine) {
                optional_at(invoked, *routine as usize)
            } else {
                None
            }
        }
        [] => None,
    }
}

/// What is named or invoked at the node n, if anything is.
pub fn invoked_at(
    file: File<'_>,
    types: &TypeArena,
    invoked: &[Option<Invoked>],
    applied: Applied,
    n: u32,
) -> Option<Invoked>
    ensures { result ≡ invoked_at file.entry types.now invoked.now applied n }
{
    if !is_used(file, n) {
        return None;
    }
    match file.kind(n) {
        NodeKind::Call => Some(called(file, invoked, n).unwrap_or(Invoked::Stored)),
        _ => by_applied(types, applied).or(instance_at(file, n)),
    }
}
