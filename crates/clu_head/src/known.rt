//! What heads are made from.

ghost use Rattle.std.specs.Prelude.{◌≡◌, ◌<◌, ℕ, IsTrue, IfOk, Some, length, slice_get};
ghost use Rattle.clu_syntax.specs.Kinds.{kind_at};
ghost use Rattle.clu_syntax.specs.Splits.{is_of};
ghost use Rattle.clu_syntax.specs.Items.{Item};
ghost use Rattle.clu_syntax.specs.Nodes.{item_at};
ghost use Rattle.clu_syntax.specs.Views.{type_told};
ghost use Rattle.clu_types.specs.Arena.{Grows};
ghost use Rattle.clu_settle.specs.Lists.{type_id, value_of};
ghost use Rattle.clu_head.specs.There.{is_there};
ghost use Rattle.clu_head.specs.Seen.{is_cvt, is_cvt_word};
ghost use Rattle.clu_head.specs.Outside.{type_outside};
ghost use Rattle.clu_head.specs.Terms.{IsNumbered};
ghost use Rattle.clu_head.specs.OwnTypes.{number_at};

use crate::restricted::Restricted;
use clu_base::Memory;
use clu_settle::Value;
use clu_syntax::{Round, SimpleType, Syntax, TypeExpression};
use clu_tree::{NodeKind, Tree};
use clu_types::{Term, TypeArena, TypeId};
use std::alloc::Global;

/// What heads are made from: for each node of the tree what is known of it.
#[derive(Clone, Copy)]
pub struct Known<'a> {
    pub alloc: Global,
    pub syntax: &'a Syntax,
    pub rounds: &'a [Round],
    pub values: &'a [Value],
    /// How many of the nodes before it are refused.
    pub refused: &'a [usize],
    /// Of a Restrict what it restricts.
    pub restricted: &'a [Restricted],
    /// Of a Module how many parameters it has.
    pub counts: &'a [u32],
}

/// Whether the second kind is the first.
pub fn is_of(kind: NodeKind, other: NodeKind) -> bool
    ensures same { result ≡ is_of kind other }
    ensures kind { IsTrue result → other ≡ kind }
{
    other == kind
}

/// Whether the node n is there and of this kind.
pub fn is_at(tree: &Tree, n: u32, kind: NodeKind) -> bool
    ensures exact { result ≡ is_there kind (slice_get tree.now n) }
    ensures inside { IsTrue result → n < length tree.now }
    ensures kind { IsTrue result → kind_at tree.now n ≡ kind }
{
    if n < tree.len() {
        is_of(kind, tree.node(n).kind)
    } else {
        false
    }
}

fn is_cvt_word(word: SimpleType) -> bool
    ensures { result ≡ is_cvt_word word }
{
    match word {
        SimpleType::Cvt => true,
        _ => false,
    }
}

fn is_cvt_type(of: TypeExpression<'_>) -> bool
    ensures { (items : ℕ → Item) (n : ℕ) → result ≡ is_cvt (type_told items n of.entry) }
{
    match of {
        TypeExpression::Simple(word) => is_cvt_word(word),
        TypeExpression::List { .. } => false,
        TypeExpression::Fields { .. } => false,
        TypeExpression::Routine { .. } => false,
        TypeExpression::Named { .. } => false,
    }
}

/// Whether the word `cvt` stands at the node n.
fn is_cvt(syntax: &Syntax, n: u32) -> bool
    ensures { result ≡ is_cvt (item_at syntax.now n).type }
{
    if n < syntax.tree().len() {
        is_cvt_type(syntax.type_expression(n))
    } else {
        false
    }
}

/// The type that a value is, if it is one that is known.
pub fn type_in(value: Value) -> Option<TypeId>
    ensures { result ≡ type_id value }
{
    match value {
        Value::Type(id) => Some(id),
        _ => None,
    }
}

/// The value of the node n.
pub fn value_of(values: &[Value], n: u32) -> Value
    ensures { result ≡ value_of values.now n }
{
    match values.get(n as usize) {
        Some(value) => *value,
        None => Value::Lost,
    }
}

/// The number of a type, if its parts are of the arena.
pub fn interned(types: &mut TypeArena, term: Term) -> Result<Option<TypeId>, Memory>
    ensures numbered { IfOk result (λ found. IsNumbered types.old types.new (Some term) found) }
    ensures kept { Grows types.old types.new }
{
    if types.holds(&term) {
        Ok(Some(types.intern(term)?))
    } else {
        Ok(None)
    }
}

/// The number of the parameter at a place among those of its module.
pub fn number_at(place: usize) -> u32
    ensures { result ≡ number_at place }
{
    if place < 0xffff_ffff {
        place as u32 + 1
    } else {
        0xffff_ffff
    }
}

/// The type at the node n as callers see it, where `cvt` stands for the cluster round it, if there is one. None if it is lost.
#[tactic(auto, unfolding(crate::specs::Outside::type_outside))]
pub fn type_outside(known: Known<'_>, own: Option<TypeId>, n: u32) -> Option<TypeId>
    ensures { result ≡ type_outside own known.entry.syntax.now known.entry.values.now n }
{
    if is_cvt(known.syntax, n) {
        own
    } else {
        type_in(value_of(known.values, n))
    }
}
