//! What kinds of type have operations.

ghost use Rattle.std.specs.Prelude.{◌≡◌, option_map};
ghost use Rattle.clu_operations.specs.Shapes.{cluster_name, name_of_term, shape_of, shape_of_term};

use clu_base::Bytes;
use clu_types::{Term, TypeArena, TypeId};

/// What kind of type has operations.
#[derive(Clone, Copy)]
pub enum Shape {
    Builtin,
    Cluster,
    Parameter(u32),
}

fn shape_of_term(term: &Term) -> Shape
    ensures { result ≡ shape_of_term term.now }
{
    match term {
        Term::Cluster(_, _) => Shape::Cluster,
        Term::Param(number) => Shape::Parameter(*number),
        _ => Shape::Builtin,
    }
}

/// The kind of a type.
pub fn shape_of(types: &TypeArena, of: TypeId) -> Shape
    ensures { result ≡ shape_of types.now of }
{
    if types.contains(of) {
        shape_of_term(types.view(of))
    } else {
        Shape::Builtin
    }
}

fn name_of_term(term: &Term) -> Option<&Bytes>
    ensures { option_map (λ name. name.now) result ≡ name_of_term term.now }
{
    match term {
        Term::Cluster(name, _) => Some(name),
        _ => None,
    }
}

/// The name of the module whose cluster type this is.
pub fn cluster_name(types: &TypeArena, of: TypeId) -> Option<&Bytes>
    ensures { option_map (λ name. name.now) result ≡ cluster_name types.now of }
{
    if types.contains(of) {
        name_of_term(types.view(of))
    } else {
        None
    }
}
