//! The rules on statements: V15 AssignType, V16 NotBool, V21 NotTagged, V22 TagMissingOrTwice, V28 NotInLoop,
//! V29 NotInIterator, V30 ReturnValues, V36 IteratorUse.

ghost use Rattle.std.specs.Prelude.{◌≡◌, ℕ, IfNone, IfSome, List, None, Some, slice_get};
ghost use Rattle.clu_tree.specs.declared.node.Node.{Node};
ghost use Rattle.clu_syntax.specs.Items.{Item};
ghost use Rattle.clu_syntax.specs.Nodes.{item_with};
ghost use Rattle.clu_syntax.specs.Views.{statement_told};
ghost use Rattle.clu_name_rules.specs.Components.{AreAscending, leaves_some};
ghost use Rattle.clu_name_rules.specs.Repeated.{tags_at};
ghost use Rattle.clu_type_rules.specs.Known.{kind_in, parts_round};
ghost use Rattle.clu_type_rules.specs.Routines.{is_in_procedure};
ghost use Rattle.clu_type_rules.specs.Leaving.{is_outside_loop, is_outside_iterator};
ghost use Rattle.clu_type_rules.specs.InvocationRules.{is_loop_call, misuses_iterator};
ghost use Rattle.clu_type_rules.specs.StatementRules.{has_no_condition, tagged_by, tags_by, is_on_no_tags, results_round, returned, gives_other, call_in, invoked_in, loops_over_other};
ghost use Rattle.clu_type_rules.specs.Bindings.{v15};
ghost use Rattle.clu_type_rules.specs.Tags.{TagsAscend, has_no_others, tags_round, takes_tags, arm_misfits_by, arm_misfits_if, arm_misfits, names_bad_tag, has_bad_tag, leaves_tag, v22};

use crate::binding_rules::binds_misfit;
use crate::expression_rules::has_no_bool;
use crate::invocation_rules::{Fault, some_has_fault};
use crate::known::{
    Known, first_type, invoked_by, is_iterator, may_be, routine_round, some_no_condition, term,
};
use crate::objects::fit_values;
use crate::routines::Parts;
use clu_base::Bytes;
use clu_bindings::{File, Wanted, type_inside};
use clu_name_rules::{are_selectors, component_type, is_kind, is_repeated, leading_type, tags_of};
use clu_syntax::Statement;
use clu_tree::NodeKind;
use clu_types::{Field, Term, TypeId};

// ---- tagcase

/// The type on which the Tagcase n selects: that of its first child.
fn tagged_by(k: &Known<'_>, n: u32) -> Option<TypeId>
    ensures { result ≡ tagged_by k.now n }
{
    if is_kind(k.tables.file, NodeKind::Tagcase, n) {
        first_type(k, k.tables.file.children(n))
    } else {
        None
    }
}

/// The tags of that type, if it is a oneof or variant.
fn tags_by<'a>(k: &Known<'a>, n: u32) -> Option<&'a [Field]>
    ensures some { IfSome result (λ fields. tags_by k.now n ≡ Some fields.now) }
    ensures none { IfNone result (tags_by k.now n ≡ None) }
{
    match term(k, tagged_by(k, n)) {
        Some(Term::Oneof(fields) | Term::Variant(fields)) => Some(fields.as_slice()),
        _ => None,
    }
}

/// The tags of the type on which the Tagcase round the arm n selects.
fn tags_round<'a>(k: &Known<'a>, n: u32) -> Option<&'a [Field]>
    ensures some { IfSome result (λ fields. tags_round k.now n ≡ Some fields.now) }
    ensures none { IfNone result (tags_round k.now n ≡ None) }
{
    match k.tables.file.parent(n) {
        Some(p) => tags_by(k, p),
        None => None,
    }
}

// ---- V15

/// Whether a variable of this type may name the objects of all these tags.
fn takes_tags(k: &Known<'_>, wanted: Option<TypeId>, fields: &[Field], mut tags: &[Bytes]) -> bool
    ensures { AreAscending fields.now → result ≡ takes_tags k.now wanted fields.now tags.entry.now }
{
    while let [tag, rest @ ..] = tags {
        if !may_be(
            k.tables.types,
            component_type(fields, tag.as_slice()),
            wanted,
        ) {
            return false;
        }
        tags = rest;
    }
    true
}

/// Whether the variable of the arm n, whose type is at the node t, may not name the object of a tag.
fn arm_misfits_by(k: &Known<'_>, n: u32, t: u32) -> bool
    ensures { (items : ℕ → Item) → TagsAscend k.now n → result ≡ arm_misfits_by k.now items n t (tags_round k.now n) }
{
    let f = k.tables.file;
    match tags_round(k, n) {
        Some(fields) => !takes_tags(k, type_inside(f, n, t), fields, tags_of(f.syntax, n)),
        None => false,
    }
}

fn arm_misfits_if(k: &Known<'_>, n: u32, declared: Option<u32>) -> bool
    ensures { (items : ℕ → Item) → TagsAscend k.now n → result ≡ arm_misfits_if k.now items n declared }
{
    match declared {
        Some(t) => arm_misfits_by(k, n, t),
        None => false,
    }
}

/// The same of the arm n, if it has a variable.
fn arm_misfits(k: &Known<'_>, n: u32) -> bool
    ensures { (items : ℕ → Item) → TagsAscend k.now n → result ≡ arm_misfits k.now items (kind_in k.now n) n }
{
    let f = k.tables.file;
    match f.kind(n) {
        NodeKind::TagArm => arm_misfits_if(k, n, leading_type(f, f.children(n))),
        _ => false,
    }
}

/// V15: an object's type isn't included in the variable's, or what is assigned to is no variable (section 9). In
/// `x: any := 1 y: int := x` at `y`.
pub fn v15(k: &Known<'_>, n: u32) -> bool
    ensures { (items : ℕ → Item) → TagsAscend k.now n → result ≡ v15 k.now items n }
{
    arm_misfits(k, n) || binds_misfit(k, n)
}

// ---- V16

/// V16: a condition, or an operand of `cand` or `cor`, isn't bool (sections 10.15, 11.4 and 11.5). In `true cand 1` at `cand`.
pub fn v16(k: &Known<'_>, n: u32) -> bool
    ensures { (items : ℕ → Item) → result ≡ has_no_condition k.now items (kind_in k.now n) n }
{
    match k.tables.file.kind(n) {
        NodeKind::If | NodeKind::While => some_no_condition(k, n),
        NodeKind::Infix => has_no_bool(k, n),
        _ => false,
    }
}

// ---- V21

/// V21: `tagcase` on what is no oneof or variant (section 11.6). In `tagcase x tag a: end`, where `x` is a record, at `tagcase`.
pub fn v21(k: &Known<'_>, n: u32) -> bool
    ensures { result ≡ is_on_no_tags k.now n }
{
    match tags_by(k, n) {
        Some(_) => false,
        None => tagged_by(k, n).is_some(),
    }
}

// ---- V22

/// Whether the arm n names a tag that is none of these, or one that stands before it.
fn names_bad_tag(k: &Known<'_>, n: u32, fields: &[Field]) -> bool
    ensures { AreAscending fields.now → result ≡ names_bad_tag k.now n fields.now }
{
    !are_selectors(fields, tags_of(k.tables.file.syntax, n)) || is_repeated(&k.tables, n)
}

fn has_bad_tag(k: &Known<'_>, n: u32) -> bool
    ensures { TagsAscend k.now n → result ≡ has_bad_tag k.now n (tags_round k.now n) }
{
    match tags_round(k, n) {
        Some(fields) => names_bad_tag(k, n, fields),
        None => false,
    }
}

/// Whether of so many tags some are left, where the arms among these nodes take those that they name.
fn leaves_some(f: File<'_>, mut arms: &[u32], many: usize) -> bool
    ensures { result ≡ leaves_some (tags_at f.entry.syntax.now) many arms.entry.now }
{
    let mut left = many;
    while let [arm, rest @ ..] = arms {
        left = left.saturating_sub(tags_of(f.syntax, *arm).len());
        arms = rest;
    }
    left > 0
}

/// Whether the Tagcase n leaves a tag. A foreign tag and one that stands twice are refused at their arm before; so none is left
/// if the arms name as many.
fn leaves_tag(k: &Known<'_>, n: u32) -> bool
    ensures { result ≡ leaves_tag k.now n (tags_by k.now n) }
{
    let f = k.tables.file;
    match tags_by(k, n) {
        Some(fields) => leaves_some(f, f.children(n), fields.len()),
        None => false,
    }
}

fn has_no_others(statement: Statement<'_>) -> bool
    ensures { (items : ℕ → Item) (nodes : List Node) (n : ℕ) → result ≡ has_no_others (statement_told items nodes n statement.entry) }
{
    match statement {
        Statement::Tagcase {
            otherwise: None,
            ..
        } => true,
        _ => false,
    }
}

/// Whether the node n is a Tagcase without `others`.
fn has_no_others_at(f: File<'_>, n: u32) -> bool
    ensures { (items : ℕ → Item) → result ≡ has_no_others (item_with items f.entry.syntax.now n (slice_get f.entry.syntax.now n)).statement }
{
    n < f.syntax.tree().len() && has_no_others(f.syntax.statement(n))
}

/// V22: an arm names a foreign tag or one that stands before it, or a tag is left without `others` (section 11.6). In
/// `tagcase x tag a: tag b, c: end`, where `x` has `a` and `b`, at the second `tag`.
pub fn v22(k: &Known<'_>, n: u32) -> bool
    ensures { (items : ℕ → Item) → TagsAscend k.now n → result ≡ v22 k.now items n }
{
    match k.tables.file.kind(n) {
        NodeKind::TagArm => has_bad_tag(k, n),
        NodeKind::Tagcase => has_no_others_at(k.tables.file, n) && leaves_tag(k, n),
        _ => false,
    }
}

// ---- V28 and V29

/// V28: `break` or `continue` outside a loop of the routine (section 11). At that word.
pub fn v28(f: File<'_>, n: u32) -> bool
    ensures { result ≡ is_outside_loop f.entry.syntax.now f.entry.rounds.now n }
{
    match f.kind(n) {
        NodeKind::Break | NodeKind::Continue => !f.round(n).in_loop,
        _ => false,
    }
}

fn is_in_procedure(k: &Known<'_>, n: u32) -> bool
    ensures { result ≡ is_in_procedure (parts_round k.now n) }
{
    match routine_round(k, n) {
        Some(parts) => parts.is_procedure,
        None => true,
    }
}

/// V29: `yield` outside an iterator (section 11). In `p = proc () yield (1)` at `yield`.
pub fn v29(k: &Known<'_>, n: u32) -> bool
    ensures { result ≡ is_outside_iterator k.now.tables.file.syntax.now k.now.tables.file.rounds.now k.now.routines.now.parts.items n }
{
    is_kind(k.tables.file, NodeKind::Yield, n) && is_in_procedure(k, n)
}

// ---- V30

/// The nodes of the types that the routine round the node n gives.
fn results_round<'a>(k: &Known<'a>, n: u32) -> &'a [u32]
    ensures { result.now ≡ results_round k.now n }
{
    match routine_round(k, n) {
        Some(
            Parts {
                results: Some(results),
                ..
            },
        ) => k.tables.file.children(results),
        _ => &[],
    }
}

/// What a `return` at the node n gives: an iterator nothing.
fn returned<'a>(k: &Known<'a>, n: u32) -> &'a [u32]
    ensures { result.now ≡ returned k.now n }
{
    if is_in_procedure(k, n) {
        results_round(k, n)
    } else {
        &[]
    }
}

/// V30: the number or the types of what is returned or yielded don't fit the heading; a `return` of an iterator gives nothing
/// (section 11). In `p = proc () returns (int) return ("a")` at `return`.
pub fn v30(k: &Known<'_>, n: u32) -> bool
    ensures { (items : ℕ → Item) → result ≡ gives_other k.now items (kind_in k.now n) n }
{
    let values = k.tables.file.children(n);
    match k.tables.file.kind(n) {
        NodeKind::Return => !fit_values(k, n, values, returned(k, n)),
        NodeKind::Yield => !fit_values(k, n, values, results_round(k, n)),
        _ => false,
    }
}

// ---- V36

fn is_loop_call(wanted: Wanted) -> bool
    ensures { result ≡ is_loop_call wanted }
{
    match wanted {
        Wanted::LoopCall => true,
        _ => false,
    }
}

/// The call of a loop: the first of its children that declares nothing.
fn call_in(f: File<'_>, mut children: &[u32]) -> Option<u32>
    ensures { result ≡ call_in f.entry.syntax.now children.entry.now }
{
    while let [c, rest @ ..] = children {
        if !is_kind(f, NodeKind::Decl, *c) {
            return Some(*c);
        }
        children = rest;
    }
    None
}

/// The type of what the For n invokes.
fn invoked_in(k: &Known<'_>, n: u32) -> Option<TypeId>
    ensures { result ≡ invoked_in k.now n }
{
    let f = k.tables.file;
    invoked_by(k, call_in(f, f.children(n))?)
}

/// Whether the type of what the For n invokes is known and that of no iterator.
fn loops_over_other(k: &Known<'_>, n: u32) -> bool
    ensures { result ≡ loops_over_other k.now n }
{
    let of = invoked_in(k, n);
    of.is_some() && !is_iterator(k, of)
}

/// V36: an iterator is invoked outside of `for`, or `for` is over none (sections 8 and 11.5). In
/// `for i: int in int$add(1, 2) do end` at `for`.
pub fn v36(k: &Known<'_>, n: u32) -> bool
    ensures { result ≡ misuses_iterator k.now (kind_in k.now n) n }
{
    match k.tables.file.kind(n) {
        NodeKind::For => loops_over_other(k, n),
        _ => !is_loop_call(k.tables.file.wanted(n)) && some_has_fault(k, n, Fault::Iterator),
    }
}
