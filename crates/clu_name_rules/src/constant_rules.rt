//! The rules on constants and types: V8 NotConstant, V9 NotType, V10 Real, V19 ParameterKind, V31 CvtPlace.

ghost use Rattle.std.specs.Prelude.{◌≡◌, ℕ, false, option_map, slice_get};
ghost use Rattle.std.specs.List.{list_any};
ghost use Rattle.clu_syntax.specs.Items.{Item};
ghost use Rattle.clu_syntax.specs.Nodes.{item_with};
ghost use Rattle.clu_syntax.specs.Splits.{type_of};
ghost use Rattle.clu_syntax.specs.Views.{expression_told, type_told, restriction_told};
ghost use Rattle.clu_bindings.specs.Readers.{kind_in, meaning_in, wanted_in};
ghost use Rattle.clu_name_rules.specs.ConstantRules.{is_type_value, is_constant_value, is_long_type, is_long_constant, is_real_literal, is_word, is_word_at, names_set, is_constant_wanted, is_type_parameter, is_second_other, second_bound, is_of_cluster, names_object, is_no_constant_index, is_no_constant, is_neither, is_rep, is_rep_at, is_right_side, is_no_type_side, is_bad_rep, names_no_type, names_equated_type, is_no_type_rep, has_no_set, is_no_type, is_type_wanted, is_bad, is_bad_first, has_bad_constant, has_bad_type, is_misfit, is_illegal_type, is_illegal_use, is_illegal_parameter, is_in_routine, is_of_heading, is_misplaced_word, has_one_rep, v8, v9, v10, v19, v31};

use crate::tables::{Tables, is_bad_name, stands_in};
use crate::views::is_kind;
use clu_base::Bytes;
use clu_bindings::{
    File, Meaning, Named, Wanted, has_fitting_kinds, is_object_wanted, is_set, named_at,
    parameter_type, type_of_value, wants_type,
};
use clu_head::kind_of_type;
use clu_settle::Value;
use clu_syntax::{
    Expression, Literal, Restriction, SimpleType, TypeExpression, is_expression, is_type,
};
use clu_tree::NodeKind;

/// Whether a value is a type. What is lost may be one.
fn is_type_value(value: Value) -> bool
    ensures { result ≡ is_type_value value }
{
    matches!(value, Value::Type(_) | Value::Lost)
}

/// Whether it is a constant. What is lost may be one.
fn is_constant_value(value: Value) -> bool
    ensures { result ≡ is_constant_value value }
{
    matches!(
        value,
        Value::Constant(_) | Value::Parameter(_) | Value::Lost
    )
}

fn is_real_expression(expression: Expression<'_>) -> bool
    ensures { (items : ℕ → Item) (n : ℕ) → result ≡ is_real_literal (expression_told items n expression.entry) }
{
    match expression {
        Expression::Literal(Literal::Real(_)) => true,
        _ => false,
    }
}

fn is_real_literal(f: File<'_>, n: u32) -> bool
    ensures { (items : ℕ → Item) → result ≡ is_real_literal (item_with items f.entry.syntax.now n (slice_get f.entry.syntax.now n)).expression }
{
    match f.expression(n) {
        Some(expression) => is_real_expression(expression),
        None => false,
    }
}

fn is_this_word(word: SimpleType, type_expression: TypeExpression<'_>) -> bool
    ensures { (items : ℕ → Item) (n : ℕ) → result ≡ is_word word (type_told items n type_expression.entry) }
{
    match type_expression {
        TypeExpression::Simple(other) => other == word,
        _ => false,
    }
}

/// Whether the type at the node n is this word.
fn is_word(f: File<'_>, word: SimpleType, n: u32) -> bool
    ensures { (items : ℕ → Item) → result ≡ is_word_at f.entry items word n }
{
    match f.type_expression(n) {
        Some(type_expression) => is_this_word(word, type_expression),
        None => false,
    }
}

fn is_of_cluster(f: File<'_>, n: u32) -> bool
    ensures { result ≡ is_of_cluster f.entry n }
{
    f.round(n).cluster.is_some()
}

// ---- what is no constant and no type, as a whole

fn is_constant_wanted(f: File<'_>, n: u32) -> bool
    ensures { result ≡ is_constant_wanted (wanted_in f.entry n) }
{
    match f.wanted(n) {
        Wanted::Constant => true,
        _ => false,
    }
}

/// Whether a name is that of an object or a routine, which are no constants.
fn names_object(f: File<'_>, meaning: Meaning) -> bool
    ensures { result ≡ names_object f.entry meaning }
{
    match meaning {
        Meaning::Local(_)
        | Meaning::OwnOfRoutine(_)
        | Meaning::OwnOfCluster(_)
        | Meaning::RoutineOfCluster => true,
        Meaning::Module(module) => f.is_routine(module),
        _ => false,
    }
}

/// Brackets after what is no module make no constant, unless it is a type, of which V19 is asked.
fn is_no_constant_index(f: File<'_>, children: &[u32]) -> bool
    ensures { result ≡ is_no_constant_index f.entry children.now }
{
    match children {
        [of, ..] => {
            if f.takes_actuals(*of) {
                names_object(f, f.meaning(*of))
            } else {
                true
            }
        }
        [] => true,
    }
}

fn is_no_constant(f: File<'_>, n: u32) -> bool
    ensures { result ≡ is_no_constant f.entry (kind_in f.entry n) n }
{
    let kind = f.kind(n);
    match kind {
        NodeKind::Literal => false,
        NodeKind::Name => names_object(f, f.meaning(n)),
        NodeKind::Index => is_no_constant_index(f, f.children(n)),
        NodeKind::Infix | NodeKind::Prefix | NodeKind::Paren => !is_constant_value(f.value(n)),
        _ => is_expression(kind),
    }
}

/// Whether a whole constant is neither a constant nor a type.
fn is_neither(f: File<'_>, n: u32) -> bool
    ensures { result ≡ is_neither f.entry n }
{
    is_constant_wanted(f, n) && is_no_constant(f, n)
}

/// Whether the node e is the equate of `rep`.
fn is_rep(f: File<'_>, e: u32) -> bool
    ensures { result ≡ is_rep f.entry e }
{
    is_kind(f, NodeKind::Equate, e) && f.names(e).is_empty()
}

fn is_rep_at(f: File<'_>, e: Option<u32>) -> bool
    ensures { result ≡ is_rep_at f.entry e }
{
    match e {
        Some(e) => is_rep(f, e),
        None => false,
    }
}

fn is_no_type_side(f: File<'_>, n: u32) -> bool
    ensures { (items : ℕ → Item) → result ≡ is_no_type_side f.entry items (kind_in f.entry n) n }
{
    match f.kind(n) {
        NodeKind::TypeSet => true,
        _ => !is_type_value(f.value(n)) && !is_real_literal(f, n),
    }
}

/// Whether the node is the right side of `rep`, and no type.
fn is_bad_rep(f: File<'_>, n: u32) -> bool
    ensures { (items : ℕ → Item) → result ≡ is_bad_rep f.entry items n }
{
    is_rep_at(f, f.parent(n)) && is_no_type_side(f, n)
}

fn is_right_side(f: File<'_>, n: u32) -> bool
    ensures { result ≡ is_right_side f.entry n }
{
    stands_in(f, NodeKind::Equate, n) && !is_kind(f, NodeKind::TypeSet, n)
}

/// Whether a value is a type whose text is too long.
fn is_long_type(long: &[bool], value: Value) -> bool
    ensures { result ≡ is_long_type long.now value }
{
    match value {
        Value::Type(of) => is_set(long, of.0 as usize),
        _ => false,
    }
}

fn is_long_constant(long: &[bool], value: Value) -> bool
    ensures { result ≡ is_long_constant long.now value }
{
    match value {
        Value::Constant(place) => is_set(long, place),
        _ => false,
    }
}

/// Whether a Name stands alone where a type is wanted.
fn is_type_wanted(f: File<'_>, n: u32) -> bool
    ensures { result ≡ is_type_wanted f.entry (wanted_in f.entry n) n }
{
    match f.wanted(n) {
        Wanted::Constant => wants_type(f, n),
        _ => false,
    }
}

fn is_bad_first(t: &Tables<'_>, bad: &[bool], n: u32) -> bool
    ensures { result ≡ is_bad_first t.now bad.now n }
{
    is_bad_name(t, bad, t.file.declaration(n))
}

fn has_bad_constant(t: &Tables<'_>, bad: &[bool], n: u32) -> bool
    ensures { result ≡ has_bad_constant t.now bad.now (kind_in t.now.file n) n }
{
    match t.file.kind(n) {
        NodeKind::Name => is_bad_first(t, bad, n) && !is_type_wanted(t.file, n),
        _ => false,
    }
}

/// V8: a constant is wanted and this is none, its text is too long, or it is the name of a bad equate (CLU Reference Manual,
/// section 7.2). In `n = 9223372036854775807 + 1` at `+`.
pub fn v8(t: &Tables<'_>, bad: &[bool], n: u32) -> bool
    ensures { result ≡ v8 t.now bad.now n }
{
    (is_neither(t.file, n) && !wants_type(t.file, n))
        || (has_bad_constant(t, bad, n)
            || (is_right_side(t.file, n) && is_long_constant(t.long_constants, t.file.value(n))))
}

fn names_no_type(f: File<'_>, meaning: Meaning) -> bool
    ensures { result ≡ names_no_type f.entry meaning }
{
    match meaning {
        Meaning::Equate(c) => !is_type_value(f.value(c)),
        Meaning::TypeParameter(_) => false,
        Meaning::Module(module) => f.is_routine(module),
        _ => true,
    }
}

/// Whether a name is that of an equate whose right side is a type.
fn names_equated_type(f: File<'_>, meaning: Meaning) -> bool
    ensures { result ≡ names_equated_type f.entry meaning }
{
    match meaning {
        Meaning::Equate(c) => is_type_value(f.value(c)),
        _ => false,
    }
}

/// `rep` in a cluster that has none, or in one whose `rep` is no type.
fn is_no_type_rep(f: File<'_>, n: u32) -> bool
    ensures { (items : ℕ → Item) → result ≡ is_no_type_rep f.entry items n }
{
    is_word(f, SimpleType::Rep, n) && (is_of_cluster(f, n) && !names_equated_type(f, f.meaning(n)))
}

fn second_bound(bounds: &[Option<usize>]) -> Option<usize>
    ensures { result ≡ second_bound bounds.now }
{
    match bounds {
        [_, bound, ..] => *bound,
        _ => None,
    }
}

fn names_set(restriction: Restriction<'_>) -> bool
    ensures { (items : ℕ → Item) (n : ℕ) → result ≡ names_set (restriction_told items n restriction.entry) }
{
    match restriction {
        Restriction::In { .. } => true,
        _ => false,
    }
}

/// Whether the Restrict n is by the name of no type set.
fn has_no_set(f: File<'_>, n: u32) -> bool
    ensures { (items : ℕ → Item) → result ≡ has_no_set f.entry items n }
{
    if is_kind(f, NodeKind::Restrict, n) {
        names_set(f.syntax.restriction(n)) && f.set_at(second_bound(f.bound(n))).is_none()
    } else {
        false
    }
}

fn is_type_parameter(meaning: Meaning) -> bool
    ensures { result ≡ is_type_parameter meaning }
{
    match meaning {
        Meaning::TypeParameter(_) => true,
        _ => false,
    }
}

/// Whether what a type set asks is asked of another name than its variable.
fn is_second_other(names: &[Bytes]) -> bool
    ensures { result ≡ is_second_other names.now }
{
    match names {
        [variable, asked, ..] => asked != variable,
        _ => false,
    }
}

fn is_no_type(f: File<'_>, n: u32) -> bool
    ensures { (items : ℕ → Item) → result ≡ is_no_type f.entry items (kind_in f.entry n) n }
{
    match f.kind(n) {
        NodeKind::NameT => names_no_type(f, f.meaning(n)),
        NodeKind::Simple => is_no_type_rep(f, n),
        NodeKind::Restrict => !is_type_parameter(f.meaning(n)) || has_no_set(f, n),
        NodeKind::TypeSet => is_second_other(f.names(n)),
        _ => false,
    }
}

fn has_bad(t: &Tables<'_>, bad: &[bool], mut bounds: &[Option<usize>]) -> bool
    ensures { result ≡ list_any (is_bad t.now bad.now) bounds.entry.now }
{
    while let [bound, rest @ ..] = bounds {
        if is_bad_name(t, bad, *bound) {
            return true;
        }
        bounds = rest;
    }
    false
}

fn has_bad_type(t: &Tables<'_>, bad: &[bool], n: u32) -> bool
    ensures { result ≡ has_bad_type t.now bad.now (kind_in t.now.file n) n }
{
    match t.file.kind(n) {
        NodeKind::Name => is_bad_first(t, bad, n) && is_type_wanted(t.file, n),
        NodeKind::NameT | NodeKind::Simple => is_bad_first(t, bad, n),
        NodeKind::Restrict => has_bad(t, bad, t.file.bound(n)),
        _ => false,
    }
}

/// V9: a type or a type set is wanted and this is none, its text is too long, or it is the name of a bad equate (sections 7.2
/// and 12.4). In `n = 1 x: n` at the second `n`.
pub fn v9(t: &Tables<'_>, bad: &[bool], n: u32) -> bool
    ensures { (items : ℕ → Item) → result ≡ v9 t.now bad.now items n }
{
    (is_neither(t.file, n) && wants_type(t.file, n))
        || (is_bad_rep(t.file, n)
            || (is_no_type(t.file, n)
                || (has_bad_type(t, bad, n)
                    || (is_right_side(t.file, n) && is_long_type(t.long_types, t.file.value(n))))))
}

/// V10: the type `real` or a real literal, which this CLU leaves out (appendix II). In `x: any := 1.5` at the literal.
pub fn v10(t: &Tables<'_>, n: u32) -> bool
    ensures { (items : ℕ → Item) → result ≡ v10 t.now.file items n }
{
    match t.file.kind(n) {
        NodeKind::Simple => is_word(t.file, SimpleType::Real, n),
        NodeKind::Literal => is_real_literal(t.file, n),
        _ => false,
    }
}

fn is_misfit(t: &Tables<'_>, named: Option<Named<'_>>) -> bool
    ensures { result ≡ is_misfit t.now (option_map (λ named. (named.node, named.constants.now)) named.entry) }
{
    match named {
        Some(named) => !has_fitting_kinds(t.file, t.types, named),
        None => false,
    }
}

/// The first of the children, if it is a type.
pub fn leading_type(f: File<'_>, children: &[u32]) -> Option<u32>
    ensures { result ≡ type_of f.entry.syntax.now children.now }
{
    match children {
        [child, ..] => {
            if is_type(f.kind(*child)) {
                Some(*child)
            } else {
                None
            }
        }
        [] => None,
    }
}

/// Whether a parameter is declared with no legal type.
fn is_illegal_type(t: &Tables<'_>, declared: Option<u32>) -> bool
    ensures { result ≡ is_illegal_type t.now declared }
{
    match declared {
        Some(declared) => { kind_of_type(t.types, type_of_value(t.file.value(declared))).is_none() }
        None => false,
    }
}

/// Whether the Name n is that of a parameter of no legal type.
fn is_illegal_use(t: &Tables<'_>, n: u32) -> bool
    ensures { result ≡ is_illegal_use t.now n (meaning_in t.now.file n) }
{
    match t.file.meaning(n) {
        Meaning::ConstantParameter(number) => {
            parameter_type(t.file, t.types, n, number).is_none()
        }
        _ => false,
    }
}

fn is_illegal_parameter(t: &Tables<'_>, n: u32) -> bool
    ensures { result ≡ is_illegal_parameter t.now (kind_in t.now.file n) n }
{
    match t.file.kind(n) {
        NodeKind::Parm => is_illegal_type(t, leading_type(t.file, t.file.children(n))),
        NodeKind::Name => is_object_wanted(t.file.wanted(n)) && is_illegal_use(t, n),
        _ => false,
    }
}

/// V19: another number or kind of actual parameters, or some after what is no module; or a constant parameter of another type
/// than null, bool, int, char and string (section 12). In `p["a"]()`, where `p = proc [n: int] ()`, at `[`.
pub fn v19(t: &Tables<'_>, n: u32) -> bool
    ensures { result ≡ v19 t.now n }
{
    is_misfit(t, named_at(t.file, n)) || is_illegal_parameter(t, n)
}

fn is_in_routine(f: File<'_>, part: Option<u32>) -> bool
    ensures { result ≡ is_in_routine f.entry part }
{
    match part {
        Some(part) => stands_in(f, NodeKind::Routine, part),
        None => false,
    }
}

/// Whether the children of a node are whole types of the heading of a routine.
fn is_of_heading(f: File<'_>, parent: Option<u32>) -> bool
    ensures { result ≡ is_of_heading f.entry parent }
{
    match parent {
        Some(p) => match f.kind(p) {
            NodeKind::Decl | NodeKind::Results => is_in_routine(f, parent),
            NodeKind::Exc => is_in_routine(f, f.parent(p)),
            _ => false,
        },
        None => false,
    }
}

fn is_misplaced_word(f: File<'_>, n: u32) -> bool
    ensures { (items : ℕ → Item) → result ≡ is_misplaced_word f.entry items n }
{
    (is_word(f, SimpleType::Cvt, n) && !(is_of_cluster(f, n) && is_of_heading(f, f.parent(n))))
        || (is_word(f, SimpleType::Rep, n) && !is_of_cluster(f, n))
}

/// Whether exactly one of the nodes is an equate of `rep`.
fn has_one_rep(f: File<'_>, mut nodes: &[u32]) -> bool
    ensures { result ≡ has_one_rep f.entry false nodes.entry.now }
{
    let mut known = false;
    while let [node, rest @ ..] = nodes {
        if is_rep(f, *node) {
            if known {
                return false;
            }
            known = true;
        }
        nodes = rest;
    }
    known
}

/// V31: `cvt` elsewhere than as a whole type in the heading of a cluster's routine, `rep` outside a cluster, or a cluster
/// without exactly one `rep` (section 13.3). In `f = proc (x: array[cvt])` at `cvt`.
pub fn v31(t: &Tables<'_>, n: u32) -> bool
    ensures { (items : ℕ → Item) → result ≡ v31 t.now.file items n }
{
    match t.file.kind(n) {
        NodeKind::Simple => is_misplaced_word(t.file, n),
        NodeKind::Cluster => !has_one_rep(t.file, t.file.children(n)),
        _ => false,
    }
}
