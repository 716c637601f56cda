//! A tree of the grammar: each of its nodes is made as one production says, so that its parts are always there.

ghost use Rattle.std.specs.Prelude.{◌≡◌, ◌<◌, All, ℕ, length, slice_get, Some};
ghost use Rattle.clu_tree.specs.Nodes.{modules};
ghost use Rattle.clu_parser.specs.Shape.{HaveForms};
ghost use Rattle.clu_syntax.specs.Enough.{HasEnough};
ghost use Rattle.clu_syntax.specs.Items.{Item};
ghost use Rattle.clu_syntax.specs.Kinds.{kind_at};
ghost use Rattle.clu_syntax.specs.Nodes.{clauses_of, item_with};
ghost use Rattle.clu_syntax.specs.Parts.{AreBefore, AreOf, ClusterParts, OthersParts, RoutineParts, TagArmParts, TypeSetParts, WhenParts, are_fewer, clause_parts, definition_parts, equated_parts, expression_parts, own_parts, restriction_parts, statement_parts, type_parts};
ghost use Rattle.clu_syntax.specs.Views.{clauses_told, cluster_told, component_told, constant_told, equate_told, exception_told, expression_told, module_told, others_told, own_told, parameter_told, restriction_told, routine_told, statement_told, tag_arm_told, type_set_told, type_told, typed_told, when_told};

use crate::arms::{Others, TagArm, When, others_in, tag_arm_in, when_in};
use crate::declarations::{
    Component, Equate, Exception, Own, Parameter, Restriction, TypeSet, Typed, component_in,
    equate_in, exception_in, own_in, parameter_in, restriction_in, type_set_in, typed_in,
};
use crate::expressions::{
    Constant, Expression, TypeExpression, constant_in, expression_in, type_in,
};
use crate::modules::{Cluster, Module, Routine, cluster_in, module_in, routine_in};
use crate::statements::{Clause, Clauses, Statement, clause_in, statement_in};
use clu_tree::{Node, NodeKind, Tree};
use std::marker::Model;

/// A tree whose nodes are made as the grammar says, like each tree that was parsed.
#[derive(Drop)]
pub struct Syntax {
    tree: Tree,
}

impl Model for Syntax {
    ghost use Rattle.std.specs.Prelude.{List};
    ghost use Rattle.clu_tree.specs.declared.node.Node.{Node};
    ghost use Rattle.clu_parser.specs.Shape.{HaveForms};

    ghost Value = { List Node };

    ghost view = { λ s. s.tree };

    ghost invariant = { λ s. HaveForms s.tree };
}

impl Syntax {
    pub fn new(tree: Tree) -> Syntax
        requires { HaveForms tree }
        ensures { result ≡ tree }
    {
        Syntax { tree }
    }

    pub fn tree(&self) -> &Tree
        ensures same { result.now ≡ self.now }
        ensures forms { HaveForms self.now }
    {
        &self.tree
    }

    /// The numbers of the modules, in the order of the text.
    pub fn modules(&self) -> &[u32]
        ensures are { result.now ≡ modules self.now }
        ensures parts { AreOf self.now NodeKind.Module (length self.now) result.now }
    {
        self.tree.modules()
    }

    /// The node n, which has as many children and names as its kind wants.
    #[tactic(auto, using(crate::proofs::Enough::enough))]
    fn node(&self, n: u32) -> &Node
        requires { n < length self.now }
        ensures node { slice_get self.now n ≡ Some result.now }
        ensures enough { HasEnough result.now }
        ensures below { All (λ c. c < n) result.now.children }
    {
        self.tree.node(n)
    }

    /// What the expression at the node n is made of.
    pub fn expression(&self, n: u32) -> Expression<'_>
        requires { n < length self.now }
        ensures told { (items : ℕ → Item) → expression_told items n result ≡ (item_with items self.now n (slice_get self.now n)).expression }
        ensures parts { expression_parts self.now n result }
    {
        expression_in(&self.tree, n, self.node(n))
    }

    /// What the type at the node n is made of.
    pub fn type_expression(&self, n: u32) -> TypeExpression<'_>
        requires { n < length self.now }
        ensures told { (items : ℕ → Item) → type_told items n result ≡ (item_with items self.now n (slice_get self.now n)).type }
        ensures parts { type_parts self.now n result }
    {
        type_in(&self.tree, n, self.node(n))
    }

    /// Whether the constant at the node n is an expression or a type.
    pub fn constant(&self, n: u32) -> Constant
        requires { n < length self.now }
        ensures { (items : ℕ → Item) → items n ≡ item_with items self.now n (slice_get self.now n) → constant_told items result ≡ (items n).constant }
    {
        constant_in(self.node(n), n)
    }

    /// What the statement at the node n is made of.
    #[tactic(auto, using(crate::proofs::Classes::declared_kind))]
    pub fn statement(&self, n: u32) -> Statement<'_>
        requires { n < length self.now }
        ensures told { (items : ℕ → Item) → statement_told items self.now n result ≡ (item_with items self.now n (slice_get self.now n)).statement }
        ensures parts { statement_parts self.now n result }
    {
        statement_in(&self.tree, n, self.node(n))
    }

    /// The first of these clauses of the If n, and those after it; None if there are no more.
    pub fn clause<'a>(&self, n: u32, clauses: Clauses<'a>) -> Option<(Clause<'a>, Clauses<'a>)>
        requires inside { n < length self.now }
        requires below { AreBefore n clauses.rest.now }
        ensures told { (items : ℕ → Item) → clauses_told items self.now result ≡ clauses_of items self.now clauses.entry.rest.now }
        ensures parts { clause_parts self.now n result }
        ensures shorter { are_fewer result clauses.entry.rest.now }
    {
        clause_in(&self.tree, n, clauses)
    }

    /// What the Decl at the node n is made of.
    pub fn declaration(&self, n: u32) -> Typed<'_>
        requires inside { n < length self.now }
        requires kind { kind_at self.now n ≡ NodeKind.Decl }
        ensures told { (items : ℕ → Item) → typed_told items n result ≡ (item_with items self.now n (slice_get self.now n)).declaration }
        ensures parts { result.declared < n }
    {
        typed_in(n, self.node(n))
    }

    /// What the FieldT at the node n is made of.
    pub fn selector(&self, n: u32) -> Typed<'_>
        requires inside { n < length self.now }
        requires kind { kind_at self.now n ≡ NodeKind.FieldT }
        ensures told { (items : ℕ → Item) → typed_told items n result ≡ (item_with items self.now n (slice_get self.now n)).selector }
        ensures parts { result.declared < n }
    {
        typed_in(n, self.node(n))
    }

    /// What the Oper at the node n is made of.
    pub fn operation(&self, n: u32) -> Typed<'_>
        requires inside { n < length self.now }
        requires kind { kind_at self.now n ≡ NodeKind.Oper }
        ensures told { (items : ℕ → Item) → typed_told items n result ≡ (item_with items self.now n (slice_get self.now n)).operation }
        ensures parts { result.declared < n }
    {
        typed_in(n, self.node(n))
    }

    /// What the FieldE at the node n is made of.
    pub fn component(&self, n: u32) -> Component<'_>
        requires inside { n < length self.now }
        requires kind { kind_at self.now n ≡ NodeKind.FieldE }
        ensures told { (items : ℕ → Item) → component_told items n result ≡ (item_with items self.now n (slice_get self.now n)).component }
        ensures parts { result.value < n }
    {
        component_in(n, self.node(n))
    }

    /// What the Exc at the node n is made of.
    pub fn exception(&self, n: u32) -> Exception<'_>
        requires inside { n < length self.now }
        requires kind { kind_at self.now n ≡ NodeKind.Exc }
        ensures told { (items : ℕ → Item) → exception_told items n result ≡ (item_with items self.now n (slice_get self.now n)).exception }
        ensures parts { AreBefore n result.types.now }
    {
        exception_in(n, self.node(n))
    }

    /// What the Parm at the node n is made of.
    pub fn parameter(&self, n: u32) -> Parameter<'_>
        requires inside { n < length self.now }
        requires kind { kind_at self.now n ≡ NodeKind.Parm }
        ensures { (items : ℕ → Item) → parameter_told items n result ≡ (item_with items self.now n (slice_get self.now n)).parameter }
    {
        parameter_in(&self.tree, n, self.node(n))
    }

    /// What the Restrict at the node n is made of.
    pub fn restriction(&self, n: u32) -> Restriction<'_>
        requires inside { n < length self.now }
        requires kind { kind_at self.now n ≡ NodeKind.Restrict }
        ensures told { (items : ℕ → Item) → restriction_told items n result ≡ (item_with items self.now n (slice_get self.now n)).restriction }
        ensures parts { restriction_parts self.now n result }
    {
        restriction_in(&self.tree, n, self.node(n))
    }

    /// What the TypeSet at the node n is made of.
    pub fn type_set(&self, n: u32) -> TypeSet<'_>
        requires inside { n < length self.now }
        requires kind { kind_at self.now n ≡ NodeKind.TypeSet }
        ensures told { (items : ℕ → Item) → type_set_told items n result ≡ (item_with items self.now n (slice_get self.now n)).type_set }
        ensures parts { TypeSetParts self.now n result }
    {
        type_set_in(&self.tree, n, self.node(n))
    }

    /// What the Equate at the node n is made of.
    pub fn equate(&self, n: u32) -> Equate<'_>
        requires inside { n < length self.now }
        requires kind { kind_at self.now n ≡ NodeKind.Equate }
        ensures told { (items : ℕ → Item) → equate_told items n result ≡ (item_with items self.now n (slice_get self.now n)).equate }
        ensures parts { equated_parts self.now n result.value }
    {
        equate_in(&self.tree, n, self.node(n))
    }

    /// What the Own at the node n is made of.
    pub fn own(&self, n: u32) -> Own<'_>
        requires inside { n < length self.now }
        requires kind { kind_at self.now n ≡ NodeKind.Own }
        ensures told { (items : ℕ → Item) → own_told items n result ≡ (item_with items self.now n (slice_get self.now n)).own }
        ensures parts { own_parts self.now n result }
    {
        own_in(&self.tree, n, self.node(n))
    }

    /// What the TagArm at the node n is made of.
    pub fn tag_arm(&self, n: u32) -> TagArm<'_>
        requires inside { n < length self.now }
        requires kind { kind_at self.now n ≡ NodeKind.TagArm }
        ensures told { (items : ℕ → Item) → tag_arm_told items n result ≡ (item_with items self.now n (slice_get self.now n)).tag_arm }
        ensures parts { TagArmParts self.now n result }
    {
        tag_arm_in(&self.tree, n, self.node(n))
    }

    /// What the When at the node n is made of.
    pub fn when(&self, n: u32) -> When<'_>
        requires inside { n < length self.now }
        requires kind { kind_at self.now n ≡ NodeKind.When }
        ensures told { (items : ℕ → Item) → when_told items n result ≡ (item_with items self.now n (slice_get self.now n)).when }
        ensures parts { WhenParts self.now n result }
    {
        when_in(&self.tree, n, self.node(n))
    }

    /// What the Others at the node n is made of.
    pub fn others(&self, n: u32) -> Others<'_>
        requires inside { n < length self.now }
        requires kind { kind_at self.now n ≡ NodeKind.Others }
        ensures told { (items : ℕ → Item) → others_told items n result ≡ (item_with items self.now n (slice_get self.now n)).others }
        ensures parts { OthersParts self.now n result }
    {
        others_in(&self.tree, n, self.node(n))
    }

    /// What the Routine at the node n is made of.
    pub fn routine(&self, n: u32) -> Routine<'_>
        requires inside { n < length self.now }
        requires kind { kind_at self.now n ≡ NodeKind.Routine }
        ensures told { (items : ℕ → Item) → routine_told items n result ≡ (item_with items self.now n (slice_get self.now n)).routine }
        ensures parts { RoutineParts self.now n result }
    {
        routine_in(&self.tree, n, self.node(n))
    }

    /// What the Cluster at the node n is made of.
    pub fn cluster(&self, n: u32) -> Cluster<'_>
        requires inside { n < length self.now }
        requires kind { kind_at self.now n ≡ NodeKind.Cluster }
        ensures told { (items : ℕ → Item) → cluster_told items n result ≡ (item_with items self.now n (slice_get self.now n)).cluster }
        ensures parts { ClusterParts self.now n result }
    {
        cluster_in(&self.tree, n, self.node(n))
    }

    /// What the Module at the node n is made of.
    #[tactic(auto, using(crate::proofs::Classes::defined_kind))]
    pub fn module(&self, n: u32) -> Module<'_>
        requires inside { n < length self.now }
        requires kind { kind_at self.now n ≡ NodeKind.Module }
        ensures told { (items : ℕ → Item) → module_told items n result ≡ (item_with items self.now n (slice_get self.now n)).module_ }
        ensures parts { definition_parts self.now n result.definition }
    {
        module_in(&self.tree, n, self.node(n))
    }
}
