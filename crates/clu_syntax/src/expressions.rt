//! Expressions and types as their parts. Nodes are given by their numbers; docs/language.md has the productions.

ghost use Rattle.std.specs.Prelude.{◌≡◌, ◌<◌, All, ℕ, List, length, take, drop};
ghost use Rattle.clu_tree.specs.declared.node.Node.{Node};
ghost use Rattle.clu_syntax.specs.Enough.{HasEnough};
ghost use Rattle.clu_syntax.specs.Items.{Item};
ghost use Rattle.clu_syntax.specs.Nodes.{constant_of, elements_of, expression_of, routine_type_of, type_expression_of};
ghost use Rattle.clu_syntax.specs.Kinds.{is_type};
ghost use Rattle.clu_syntax.specs.Parts.{expression_parts, type_parts};
ghost use Rattle.clu_syntax.specs.Splits.{leading_types};
ghost use Rattle.clu_syntax.specs.Views.{constant_told, expression_told, type_told};

use crate::kinds::is_type;
use crate::splits::{child, leading_types, name_at, parts, run};
use crate::words::{
    FieldsType, ListType, Literal, Operator, RoutineKind, Sign, SimpleType, fields_type,
    infix_operator, list_type, literal_in, prefix_operator, routine_kind, simple_type,
};
use clu_base::Bytes;
use clu_tree::{Node, NodeKind, Tree};

/// An expression (CLU Reference Manual, section 10).
#[derive(Clone, Copy)]
pub enum Expression<'a> {
    /// `left operator right`
    Infix {
        operator: Operator,
        left: u32,
        right: u32,
    },
    /// `~operand`, `-operand`
    Prefix {
        sign: Sign,
        operand: u32,
    },
    /// `(inside)`
    Paren {
        inside: u32,
    },
    /// A literal, or `nil`, `true` or `false`.
    Literal(Literal<'a>),
    /// An identifier.
    Name(&'a Bytes),
    /// `of[constant, ..]`: an index, or the actual parameters of a routine.
    Index {
        of: u32,
        constants: &'a [u32],
    },
    /// `of.selector`
    Get {
        of: u32,
        selector: &'a Bytes,
    },
    /// `routine(argument, ..)`
    Call {
        routine: u32,
        arguments: &'a [u32],
    },
    /// `of${component, ..}`; each component is a FieldE.
    Fields {
        of: u32,
        components: &'a [u32],
    },
    /// `of$[element, ..]`
    Elements {
        of: u32,
        elements: &'a [u32],
    },
    /// `of$[low: element, ..]`
    ElementsFrom {
        of: u32,
        low: u32,
        elements: &'a [u32],
    },
    /// `of$operation`
    Operation {
        of: u32,
        operation: &'a Bytes,
    },
    /// `force[to]`
    Force {
        to: u32,
    },
    /// `up(inside)`
    Up {
        inside: u32,
    },
    /// `down(inside)`
    Down {
        inside: u32,
    },
}

/// A type as it is written (CLU Reference Manual, section 4).
#[derive(Clone, Copy)]
pub enum TypeExpression<'a> {
    /// A type that is one word.
    Simple(SimpleType),
    /// `array[of]`, `sequence[of]`
    List {
        word: ListType,
        of: u32,
    },
    /// `record[selector, ..]` and its like; each selector is a FieldT.
    Fields {
        word: FieldsType,
        selectors: &'a [u32],
    },
    /// `proctype(argument, ..) returns (result, ..) signals (exception, ..)`, and likewise `itertype`; the first two are
    /// types, each exception is an Exc.
    Routine {
        kind: RoutineKind,
        arguments: &'a [u32],
        results: &'a [u32],
        exceptions: &'a [u32],
    },
    /// `name[constant, ..]`
    Named {
        name: &'a Bytes,
        constants: &'a [u32],
    },
}

/// An actual parameter, or the right side of an equate.
#[derive(Clone, Copy)]
pub enum Constant {
    Expression(u32),
    Type(u32),
}

/// What stands in the brackets of a constructor with elements; the value is the `:` after a low bound.
fn elements_in<'a>(
    tree: &Tree,
    n: u32,
    of: u32,
    value: Option<u32>,
    children: &'a [u32],
) -> Expression<'a>
    requires of { of < n }
    requires below { All (λ c. c < n) children.now }
    ensures told { (items : ℕ → Item) (nodes : List Node) (n : ℕ) → expression_told items n result ≡ elements_of items nodes n (items of).type value children.now }
    ensures parts { expression_parts tree.now n result }
{
    match value {
        None => Expression::Elements {
            of,
            elements: children,
        },
        Some(_) => match children {
            [] => Expression::Elements {
                of,
                elements: children,
            },
            [low, elements @ ..] => Expression::ElementsFrom {
                of,
                low: *low,
                elements,
            },
        },
    }
}

/// What an expression is made of.
pub fn expression_in<'a>(tree: &'a Tree, n: u32, node: &'a Node) -> Expression<'a>
    requires enough { HasEnough node.now }
    requires inside { n < length tree.now }
    requires below { All (λ c. c < n) node.now.children }
    ensures told { (items : ℕ → Item) (n : ℕ) → expression_told items n result ≡ expression_of items tree.now n node.now node.now.kind }
    ensures parts { expression_parts tree.now n result }
{
    let children = node.children.as_slice();
    let names = node.names.as_slice();
    let value = node.value.as_slice();
    match node.kind {
        NodeKind::Infix => Expression::Infix {
            operator: infix_operator(value),
            left: child(n, node, 0),
            right: child(n, node, 1),
        },
        NodeKind::Prefix => Expression::Prefix {
            sign: prefix_operator(value),
            operand: child(n, node, 0),
        },
        NodeKind::Paren => Expression::Paren {
            inside: child(n, node, 0),
        },
        NodeKind::Literal => Expression::Literal(literal_in(value)),
        NodeKind::Name => Expression::Name(name_at(names, 0)),
        NodeKind::Index => Expression::Index {
            of: child(n, node, 0),
            constants: &children[1..],
        },
        NodeKind::Get => Expression::Get {
            of: child(n, node, 0),
            selector: name_at(names, 0),
        },
        NodeKind::Call => Expression::Call {
            routine: child(n, node, 0),
            arguments: &children[1..],
        },
        NodeKind::Fields => Expression::Fields {
            of: child(n, node, 0),
            components: run(tree, n, NodeKind::FieldE, &children[1..]).0,
        },
        NodeKind::Elems => elements_in(
            tree,
            n,
            child(n, node, 0),
            node.value_token,
            &children[1..],
        ),
        NodeKind::OperOf => Expression::Operation {
            of: child(n, node, 0),
            operation: name_at(names, 0),
        },
        NodeKind::Force => Expression::Force {
            to: child(n, node, 0),
        },
        NodeKind::Up => Expression::Up {
            inside: child(n, node, 0),
        },
        NodeKind::Down => Expression::Down {
            inside: child(n, node, 0),
        },
        _ => Expression::Name(&node.value),
    }
}

/// What a type of routines is made of.
fn routine_type_in<'a>(tree: &'a Tree, n: u32, node: &'a Node) -> TypeExpression<'a>
    requires inside { n < length tree.now }
    requires below { All (λ c. c < n) node.now.children }
    ensures told { (items : ℕ → Item) (n : ℕ) → type_told items n result ≡ routine_type_of items tree.now n node.now (take (leading_types tree.now node.now.children) node.now.children) (drop (leading_types tree.now node.now.children) node.now.children) }
    ensures parts { type_parts tree.now n result }
{
    let children = node.children.as_slice();
    let (arguments, rest) = children.split_at(leading_types(tree, n, children));
    let (results, rest) = parts(tree, n, NodeKind::Results, rest);
    let (exceptions, _) = parts(tree, n, NodeKind::Signals, rest);
    TypeExpression::Routine {
        kind: routine_kind(node.value.as_slice()),
        arguments,
        results,
        exceptions: run(tree, n, NodeKind::Exc, exceptions).0,
    }
}

/// What a type is made of.
pub fn type_in<'a>(tree: &'a Tree, n: u32, node: &'a Node) -> TypeExpression<'a>
    requires enough { HasEnough node.now }
    requires inside { n < length tree.now }
    requires below { All (λ c. c < n) node.now.children }
    ensures told { (items : ℕ → Item) (n : ℕ) → type_told items n result ≡ type_expression_of items tree.now n node.now node.now.kind }
    ensures parts { type_parts tree.now n result }
{
    let children = node.children.as_slice();
    let value = node.value.as_slice();
    match node.kind {
        NodeKind::ListT => TypeExpression::List {
            word: list_type(value),
            of: child(n, node, 0),
        },
        NodeKind::FieldsT => TypeExpression::Fields {
            word: fields_type(value),
            selectors: run(tree, n, NodeKind::FieldT, children).0,
        },
        NodeKind::RoutineT => routine_type_in(tree, n, node),
        NodeKind::NameT => TypeExpression::Named {
            name: name_at(node.names.as_slice(), 0),
            constants: children,
        },
        _ => TypeExpression::Simple(simple_type(value)),
    }
}

/// Which of the two a constant is; its node has this number.
pub fn constant_in(node: &Node, n: u32) -> Constant
    ensures { (items : ℕ → Item) → constant_told items result ≡ constant_of (is_type node.now.kind) (items n).expression (items n).type }
{
    if is_type(node.kind) {
        Constant::Type(n)
    } else {
        Constant::Expression(n)
    }
}
