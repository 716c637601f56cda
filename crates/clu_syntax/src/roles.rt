//! What is wanted where a child of a node stands.

ghost use Rattle.std.specs.Prelude.{◌≡◌, ◌<◌, All, length};
ghost use Rattle.clu_syntax.specs.Roles.{role_of, role_or, is_name, begins_with_name, has_no_name, is_call, is_shared, role_in};

use crate::kinds::{is_expression, is_type};
use crate::round::Role;
use clu_tree::{Node, NodeKind, Tree};

/// What is wanted where a node of this kind stands, if its parent wants nothing more.
fn role_of(kind: NodeKind) -> Role
    ensures { result ≡ role_of kind }
{
    if is_expression(kind) {
        Role::Object
    } else if is_type(kind) {
        Role::Type
    } else {
        Role::Part
    }
}

/// The role if it is given, else what the kind wants.
fn role_or(role: Role, is_given: bool, kind: NodeKind) -> Role
    ensures { result ≡ role_or role is_given kind }
{
    if is_given { role } else { role_of(kind) }
}

fn is_name(kind: NodeKind) -> bool
    ensures { result ≡ is_name kind }
{
    match kind {
        NodeKind::Name => true,
        _ => false,
    }
}

fn is_call(kind: NodeKind) -> bool
    ensures { result ≡ is_call kind }
{
    match kind {
        NodeKind::Call => true,
        _ => false,
    }
}

/// Whether no name stands directly in the node, as in an Init or an Own with Decls.
pub fn has_no_name(node: &Node) -> bool
    ensures { result ≡ has_no_name node.now.names }
{
    match node.names.as_slice() {
        [] => true,
        _ => false,
    }
}

/// Whether several names stand before one right side.
fn is_shared(node: &Node) -> bool
    ensures { result ≡ is_shared node.now.names node.now.children }
{
    match node.names.as_slice() {
        [_, _, ..] => match node.children.as_slice() {
            [_] => true,
            _ => false,
        },
        _ => false,
    }
}

/// Whether the first child is a Name.
fn begins_with_name(tree: &Tree, node: &Node) -> bool
    requires { All (λ c. c < length tree.now) node.now.children }
    ensures { result ≡ begins_with_name tree.now node.now.children }
{
    match node.children.as_slice() {
        [child, ..] => is_name(tree.node(*child).kind),
        [] => false,
    }
}

/// What is wanted where a child of this kind stands.
pub fn role_in(tree: &Tree, node: &Node, child: NodeKind) -> Role
    requires { All (λ c. c < length tree.now) node.now.children }
    ensures { result ≡ role_in node.now.kind tree.now node.now child }
{
    match node.kind {
        NodeKind::Equate | NodeKind::NameT => Role::Constant,
        NodeKind::Index => role_or(Role::Instance, begins_with_name(tree, node), child),
        NodeKind::CallS => Role::Results,
        NodeKind::For => role_or(Role::LoopCall, is_expression(child), child),
        NodeKind::Init | NodeKind::Own => role_or(
            Role::Results,
            is_expression(child) && has_no_name(node),
            child,
        ),
        NodeKind::Assign => role_or(Role::Results, is_call(child) && is_shared(node), child),
        _ => role_of(child),
    }
}
