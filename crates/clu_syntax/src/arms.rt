//! The arms of a Tagcase and an Except as their parts.

ghost use Rattle.std.specs.Prelude.{◌≡◌, ◌<◌, All, ℕ, List, length, option_map};
ghost use Rattle.clu_tree.specs.declared.node.Node.{Node};
ghost use Rattle.clu_syntax.specs.Items.{Item, variable_of};
ghost use Rattle.clu_syntax.specs.Nodes.{others_with, tag_arm_with, taken_of, tags_of, when_from};
ghost use Rattle.clu_syntax.specs.Parts.{AreOf, OthersParts, TagArmParts, WhenParts, taken_parts, type_option_parts, variable_parts};
ghost use Rattle.clu_syntax.specs.Splits.{last_option, run, type_of};
ghost use Rattle.clu_syntax.specs.Views.{others_told, tag_arm_told, taken_told, variable_told, when_told};

use crate::splits::{after_option, but_last, last_option, run, type_of};
use crate::statements::{Body, body_in};
use clu_base::Bytes;
use clu_tree::{Node, NodeKind, Tree};

/// `name: declared`, the one variable of an arm.
#[derive(Clone, Copy)]
pub struct Variable<'a> {
    pub name: &'a Bytes,
    pub declared: u32,
}

/// `tag tag, .. (variable): body`
#[derive(Clone, Copy)]
pub struct TagArm<'a> {
    pub tags: &'a [Bytes],
    pub variable: Option<Variable<'a>>,
    pub body: Body<'a>,
}

/// What a when arm takes.
#[derive(Clone, Copy)]
pub enum Taken<'a> {
    /// `(declaration, ..)`, or nothing; each declaration is a Decl.
    Objects(&'a [u32]),
    /// `(*)`
    Any,
}

/// `when name, .. taken: body`
#[derive(Clone, Copy)]
pub struct When<'a> {
    pub names: &'a [Bytes],
    pub taken: Taken<'a>,
    pub body: Body<'a>,
}

/// `others (variable): body`
#[derive(Clone, Copy)]
pub struct Others<'a> {
    pub variable: Option<Variable<'a>>,
    pub body: Body<'a>,
}

/// The variable of an arm, whose name is its last one and whose type stands before its body.
fn variable_in(n: u32, name: Option<&Bytes>, declared: Option<u32>) -> Option<Variable<'_>>
    requires { type_option_parts n declared }
    ensures parts { variable_parts n result }
    ensures told { (items : ℕ → Item) → variable_told items result ≡ variable_of items (option_map (λ name. name.now) name.entry) declared }
{
    match name {
        None => None,
        Some(name) => match declared {
            None => None,
            Some(declared) => Some(Variable { name, declared }),
        },
    }
}

fn tags_in(declared: Option<u32>, names: &[Bytes]) -> &[Bytes]
    requires { 0 < length names.now }
    ensures { result.now ≡ tags_of declared names.now }
{
    match declared {
        Some(_) => but_last(names),
        None => names,
    }
}

/// What an arm of a Tagcase is made of.
pub fn tag_arm_in<'a>(tree: &Tree, n: u32, node: &'a Node) -> TagArm<'a>
    requires names { 0 < length node.now.names }
    requires inside { n < length tree.now }
    requires below { All (λ c. c < n) node.now.children }
    ensures told { (items : ℕ → Item) (n : ℕ) → tag_arm_told items n result ≡ tag_arm_with items tree.now n node.now (type_of tree.now node.now.children) }
    ensures parts { TagArmParts tree.now n result }
{
    let names = node.names.as_slice();
    let children = node.children.as_slice();
    let declared = type_of(tree, n, children);
    TagArm {
        tags: tags_in(declared, names),
        variable: variable_in(n, last_option(names), declared),
        body: body_in(tree, n, after_option(n, declared, children)),
    }
}

fn taken_in<'a>(tree: &Tree, n: u32, value: Option<u32>, declarations: &'a [u32]) -> Taken<'a>
    requires { AreOf tree.now NodeKind.Decl n declarations.now }
    ensures told { (items : ℕ → Item) (nodes : List Node) → taken_told items result ≡ taken_of items nodes value declarations.now }
    ensures parts { taken_parts tree.now n result }
{
    match value {
        Some(_) => Taken::Any,
        None => Taken::Objects(declarations),
    }
}

/// What a when arm is made of.
pub fn when_in<'a>(tree: &Tree, n: u32, node: &'a Node) -> When<'a>
    requires inside { n < length tree.now }
    requires below { All (λ c. c < n) node.now.children }
    ensures told { (items : ℕ → Item) (n : ℕ) → when_told items n result ≡ when_from items tree.now n node.now }
    ensures parts { WhenParts tree.now n result }
{
    let (declarations, body) = run(tree, n, NodeKind::Decl, node.children.as_slice());
    When {
        names: node.names.as_slice(),
        taken: taken_in(tree, n, node.value_token, declarations),
        body: body_in(tree, n, body),
    }
}

/// What an others arm is made of.
pub fn others_in<'a>(tree: &Tree, n: u32, node: &'a Node) -> Others<'a>
    requires inside { n < length tree.now }
    requires below { All (λ c. c < n) node.now.children }
    ensures told { (items : ℕ → Item) (n : ℕ) → others_told items n result ≡ others_with items tree.now n node.now (type_of tree.now node.now.children) }
    ensures parts { OthersParts tree.now n result }
{
    let children = node.children.as_slice();
    let declared = type_of(tree, n, children);
    Others {
        variable: variable_in(n, last_option(node.names.as_slice()), declared),
        body: body_in(tree, n, after_option(n, declared, children)),
    }
}
