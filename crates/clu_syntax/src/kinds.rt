//! What nodes of a kind are to the node round them.

ghost use Rattle.std.specs.Prelude.{◌≡◌};
ghost use Rattle.clu_syntax.specs.Kinds.{is_expression, is_type, is_head, is_outside, is_arm, is_of_heading, is_equate};

use clu_tree::NodeKind;

/// Whether nodes of this kind are expressions.
pub fn is_expression(kind: NodeKind) -> bool
    ensures { result ≡ is_expression kind }
{
    match kind {
        NodeKind::Infix
        | NodeKind::Prefix
        | NodeKind::Paren
        | NodeKind::Literal
        | NodeKind::Name
        | NodeKind::Index
        | NodeKind::Get
        | NodeKind::Call
        | NodeKind::Fields
        | NodeKind::Elems
        | NodeKind::OperOf
        | NodeKind::Force
        | NodeKind::Up
        | NodeKind::Down => true,
        _ => false,
    }
}

/// Whether nodes of this kind are types.
pub fn is_type(kind: NodeKind) -> bool
    ensures { result ≡ is_type kind }
{
    match kind {
        NodeKind::Simple
        | NodeKind::ListT
        | NodeKind::FieldsT
        | NodeKind::RoutineT
        | NodeKind::NameT => true,
        _ => false,
    }
}

/// Whether a child of this kind stands before a body of its parent and not in one: a condition, the call and the
/// declarations of a loop, the variables of an arm, the arms of a Tagcase before its `others`.
pub fn is_head(kind: NodeKind) -> bool
    ensures { result ≡ is_head kind }
{
    match kind {
        NodeKind::Decl | NodeKind::TagArm => true,
        _ => is_expression(kind) || is_type(kind),
    }
}

/// Whether nodes of this kind are arms of an Except.
pub fn is_arm(kind: NodeKind) -> bool
    ensures { result ≡ is_arm kind }
{
    match kind {
        NodeKind::When | NodeKind::Others => true,
        _ => false,
    }
}

/// Whether a child of this kind stands outside of the bodies of its parent: a condition, the call of a loop, an arm of a
/// Tagcase.
pub fn is_outside(kind: NodeKind) -> bool
    ensures { result ≡ is_outside kind }
{
    match kind {
        NodeKind::TagArm => true,
        _ => is_expression(kind),
    }
}

/// Whether a child of a Routine of this kind belongs to its heading.
pub fn is_of_heading(kind: NodeKind) -> bool
    ensures { result ≡ is_of_heading kind }
{
    match kind {
        NodeKind::Parm | NodeKind::Decl | NodeKind::Results | NodeKind::Signals | NodeKind::Where =>
            true,
        _ => false,
    }
}

/// Whether nodes of this kind are equates.
pub fn is_equate(kind: NodeKind) -> bool
    ensures { result ≡ is_equate kind }
{
    match kind {
        NodeKind::Equate => true,
        _ => false,
    }
}
