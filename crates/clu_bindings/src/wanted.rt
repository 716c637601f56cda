//! What is wanted where a node stands.

ghost use Rattle.std.specs.Prelude.{◌≡◌};
ghost use Rattle.clu_bindings.specs.Wanted.{is_object_wanted};
ghost use Rattle.clu_bindings.specs.Wanting.{wanted_by_role};

use clu_syntax::Role;

/// What is wanted where a node stands.
#[derive(Clone, Copy, PartialEq, Eq)]
pub enum Wanted {
    /// One object.
    Object,
    /// Any number of objects: a call statement, or what several variables name.
    Objects,
    /// The call of a loop.
    LoopCall,
    /// A constant or a type: the right side of an equate, or an actual parameter.
    Constant,
    Type,
    /// The name before actual parameters.
    NameWithActuals,
    Nothing,
}

/// Whether one object is wanted, or any number of them.
pub fn is_object_wanted(wanted: Wanted) -> bool
    ensures { result ≡ is_object_wanted wanted }
{
    match wanted {
        Wanted::Object | Wanted::Objects | Wanted::LoopCall => true,
        _ => false,
    }
}

/// What a role wants.
pub fn wanted_by_role(role: Role) -> Wanted
    ensures { result ≡ wanted_by_role role }
{
    match role {
        Role::Part => Wanted::Nothing,
        Role::Object => Wanted::Object,
        Role::Constant => Wanted::Constant,
        Role::Type => Wanted::Type,
        Role::Instance => Wanted::Object,
        Role::Results => Wanted::Objects,
        Role::LoopCall => Wanted::LoopCall,
    }
}
