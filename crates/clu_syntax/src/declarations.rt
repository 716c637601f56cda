//! Declarations, equates and what a heading lists, as their parts.

ghost use Rattle.std.specs.Prelude.{◌≡◌, ◌<◌, All, ℕ, List, Option, length, option_map};
ghost use Rattle.clu_tree.specs.declared.node.Node.{Node};
ghost use Rattle.clu_syntax.specs.Items.{Item};
ghost use Rattle.clu_syntax.specs.Kinds.{kind_at};
ghost use Rattle.clu_syntax.specs.Nodes.{component_from, equate_name, equated, exception_from, owned, parameter_from, restricted, type_set_from, typed_of};
ghost use Rattle.clu_syntax.specs.Parts.{AreBefore, AreOf, TypeSetParts, equated_parts, option_parts, own_parts, restriction_parts};
ghost use Rattle.clu_syntax.specs.Splits.{after_run, child, one_of, run};
ghost use Rattle.clu_syntax.specs.Syntax.{Identifier};
ghost use Rattle.clu_syntax.specs.Views.{component_told, equate_told, equated_told, exception_told, own_told, parameter_told, restriction_told, type_set_told, typed_told};

use crate::splits::{child, name_at, one_of, run, type_of};
use clu_base::Bytes;
use clu_tree::{Node, NodeKind, Tree};

/// `name, ..: declared`: a Decl, a FieldT, or the operations of an Oper.
#[derive(Clone, Copy)]
pub struct Typed<'a> {
    pub names: &'a [Bytes],
    pub declared: u32,
}

/// `selector, ..: value` of a constructor.
#[derive(Clone, Copy)]
pub struct Component<'a> {
    pub selectors: &'a [Bytes],
    pub value: u32,
}

/// `name (type, ..)` of a heading's signals.
#[derive(Clone, Copy)]
pub struct Exception<'a> {
    pub name: &'a Bytes,
    pub types: &'a [u32],
}

/// `name, ..: type`, or with a type expression for a parameter that is a constant.
#[derive(Clone, Copy)]
pub struct Parameter<'a> {
    pub names: &'a [Bytes],
    pub declared: Option<u32>,
}

/// One restriction of a where clause.
#[derive(Clone, Copy)]
pub enum Restriction<'a> {
    /// `name has operation, ..`; each is an Oper.
    Has {
        name: &'a Bytes,
        operations: &'a [u32],
    },
    /// `name in set`
    In {
        name: &'a Bytes,
        set: &'a Bytes,
    },
    /// `name in {..}`, a TypeSet.
    InSet {
        name: &'a Bytes,
        set: u32,
    },
}

/// `{name | variable has operation, .. equate ..}`; each operation is an Oper.
#[derive(Clone, Copy)]
pub struct TypeSet<'a> {
    pub name: &'a Bytes,
    pub variable: &'a Bytes,
    pub operations: &'a [u32],
    pub equates: &'a [u32],
}

/// The right side of an equate.
#[derive(Clone, Copy)]
pub enum Equated {
    /// A constant or a type.
    Constant(u32),
    /// A TypeSet.
    Set(u32),
}

/// `name = value`, or `rep = value`.
#[derive(Clone, Copy)]
pub struct Equate<'a> {
    /// None of `rep`.
    pub name: Option<&'a Bytes>,
    pub value: Equated,
}

/// Own variables; each declaration is a Decl.
#[derive(Clone, Copy)]
pub enum Own<'a> {
    /// `own declaration, ..`
    Declare {
        declarations: &'a [u32],
    },
    /// `own name: declared := value`
    Init {
        name: &'a Bytes,
        declared: u32,
        value: u32,
    },
    /// `own declaration, .. := call`
    InitByCall {
        declarations: &'a [u32],
        call: u32,
    },
}

/// What a Decl, a FieldT or an Oper is made of.
pub fn typed_in(n: u32, node: &Node) -> Typed<'_>
    requires enough { 0 < length node.now.children }
    requires below { All (λ c. c < n) node.now.children }
    ensures told { (items : ℕ → Item) (nodes : List Node) (n : ℕ) → typed_told items n result ≡ typed_of items nodes n node.now }
    ensures parts { result.declared < n }
{
    Typed {
        names: node.names.as_slice(),
        declared: child(n, node, 0),
    }
}

/// What a FieldE is made of.
pub fn component_in(n: u32, node: &Node) -> Component<'_>
    requires enough { 0 < length node.now.children }
    requires below { All (λ c. c < n) node.now.children }
    ensures told { (items : ℕ → Item) (nodes : List Node) (n : ℕ) → component_told items n result ≡ component_from items nodes n node.now }
    ensures parts { result.value < n }
{
    Component {
        selectors: node.names.as_slice(),
        value: child(n, node, 0),
    }
}

/// What an Exc is made of.
pub fn exception_in(n: u32, node: &Node) -> Exception<'_>
    requires names { 0 < length node.now.names }
    requires below { All (λ c. c < n) node.now.children }
    ensures told { (items : ℕ → Item) (nodes : List Node) (n : ℕ) → exception_told items n result ≡ exception_from items nodes n node.now }
    ensures parts { AreBefore n result.types.now }
{
    Exception {
        name: name_at(node.names.as_slice(), 0),
        types: node.children.as_slice(),
    }
}

/// What a Parm is made of.
pub fn parameter_in<'a>(tree: &Tree, n: u32, node: &'a Node) -> Parameter<'a>
    requires inside { n < length tree.now }
    requires below { All (λ c. c < n) node.now.children }
    ensures { (items : ℕ → Item) (n : ℕ) → parameter_told items n result ≡ parameter_from items tree.now n node.now }
{
    Parameter {
        names: node.names.as_slice(),
        declared: type_of(tree, n, node.children.as_slice()),
    }
}

/// What a restriction is made of, whose child is a type set or whose children are operations.
fn restricted<'a>(
    tree: &Tree,
    n: u32,
    names: &'a [Bytes],
    set: Option<u32>,
    operations: &'a [u32],
) -> Restriction<'a>
    requires names { 0 < length names.now }
    requires set { option_parts tree.now NodeKind.TypeSet n set }
    requires operations { AreOf tree.now NodeKind.Oper n operations.now }
    ensures told { (items : ℕ → Item) (nodes : List Node) (n : ℕ) → restriction_told items n result ≡ restricted items nodes n names.now set operations.now }
    ensures parts { restriction_parts tree.now n result }
{
    match set {
        Some(set) => Restriction::InSet {
            name: name_at(names, 0),
            set,
        },
        None => match names {
            [name, set, ..] => Restriction::In { name, set },
            _ => Restriction::Has {
                name: name_at(names, 0),
                operations,
            },
        },
    }
}

/// What a Restrict is made of.
pub fn restriction_in<'a>(tree: &Tree, n: u32, node: &'a Node) -> Restriction<'a>
    requires names { 0 < length node.now.names }
    requires inside { n < length tree.now }
    requires below { All (λ c. c < n) node.now.children }
    ensures told { (items : ℕ → Item) (n : ℕ) → restriction_told items n result ≡ restricted items tree.now n node.now.names (one_of tree.now NodeKind.TypeSet node.now.children) (run tree.now NodeKind.Oper node.now.children) }
    ensures parts { restriction_parts tree.now n result }
{
    let children = node.children.as_slice();
    restricted(
        tree,
        n,
        node.names.as_slice(),
        one_of(tree, n, NodeKind::TypeSet, children),
        run(tree, n, NodeKind::Oper, children).0,
    )
}

/// What a TypeSet is made of.
pub fn type_set_in<'a>(tree: &Tree, n: u32, node: &'a Node) -> TypeSet<'a>
    requires names { 1 < length node.now.names }
    requires inside { n < length tree.now }
    requires below { All (λ c. c < n) node.now.children }
    ensures told { (items : ℕ → Item) (n : ℕ) → type_set_told items n result ≡ type_set_from items tree.now n node.now }
    ensures parts { TypeSetParts tree.now n result }
{
    let names = node.names.as_slice();
    let (operations, rest) = run(tree, n, NodeKind::Oper, node.children.as_slice());
    TypeSet {
        name: name_at(names, 0),
        variable: name_at(names, 1),
        operations,
        equates: run(tree, n, NodeKind::Equate, rest).0,
    }
}

fn name_of(names: &[Bytes]) -> Option<&Bytes>
    ensures { option_map (λ name. name.now) result ≡ equate_name names.now }
{
    match names {
        [] => None,
        [name, ..] => Some(name),
    }
}

fn right_side(tree: &Tree, n: u32, c: u32) -> Equated
    requires inside { n < length tree.now }
    requires below { c < n }
    ensures told { (items : ℕ → Item) (nodes : List Node) (n : ℕ) (name : Option Identifier) → equated_told items n name result ≡ equated items nodes n name (kind_at tree.now c) c }
    ensures parts { equated_parts tree.now n result }
{
    match tree.node(c).kind {
        NodeKind::TypeSet => Equated::Set(c),
        _ => Equated::Constant(c),
    }
}

/// What an Equate is made of.
pub fn equate_in<'a>(tree: &Tree, n: u32, node: &'a Node) -> Equate<'a>
    requires enough { 0 < length node.now.children }
    requires inside { n < length tree.now }
    requires below { All (λ c. c < n) node.now.children }
    ensures told { (items : ℕ → Item) (n : ℕ) → equate_told items n result ≡ equated items tree.now n (equate_name node.now.names) (kind_at tree.now (child 0 node.now)) (child 0 node.now) }
    ensures parts { equated_parts tree.now n result.value }
{
    Equate {
        name: name_of(node.names.as_slice()),
        value: right_side(tree, n, child(n, node, 0)),
    }
}

/// What own variables are made of, by their names, declarations and what stands after these.
fn owned<'a>(
    tree: &Tree,
    n: u32,
    names: &'a [Bytes],
    declarations: &'a [u32],
    rest: &'a [u32],
) -> Own<'a>
    requires declarations { AreOf tree.now NodeKind.Decl n declarations.now }
    requires rest { All (λ c. c < n) rest.now }
    ensures told { (items : ℕ → Item) (nodes : List Node) (n : ℕ) → own_told items n result ≡ owned items nodes n names.now declarations.now rest.now }
    ensures parts { own_parts tree.now n result }
{
    match names {
        [] => match rest {
            [] => Own::Declare { declarations },
            [call, ..] => Own::InitByCall {
                declarations,
                call: *call,
            },
        },
        [name, ..] => match rest {
            [declared, value, ..] => Own::Init {
                name,
                declared: *declared,
                value: *value,
            },
            _ => Own::Declare { declarations },
        },
    }
}

/// What an Own is made of.
pub fn own_in<'a>(tree: &Tree, n: u32, node: &'a Node) -> Own<'a>
    requires inside { n < length tree.now }
    requires below { All (λ c. c < n) node.now.children }
    ensures told { (items : ℕ → Item) (n : ℕ) → own_told items n result ≡ owned items tree.now n node.now.names (run tree.now NodeKind.Decl node.now.children) (after_run tree.now NodeKind.Decl node.now.children) }
    ensures parts { own_parts tree.now n result }
{
    let (declarations, rest) = run(tree, n, NodeKind::Decl, node.children.as_slice());
    owned(tree, n, node.names.as_slice(), declarations, rest)
}
