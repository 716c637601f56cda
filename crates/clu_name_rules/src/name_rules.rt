//! The rules on names: V4 LiteralRange, V5 UnknownName, V6 DefinedTwice, V7 CircularEquate, V37 OwnPlace.

ghost use Rattle.std.specs.Prelude.{◌≡◌, ◌||◌, ◌+◌, ◌-◌, ◌*◌, ℕ, IsFalse, Some, drop, get_or, is_some, length, min, slice_get, take};
ghost use Rattle.std.specs.List.{list_any, range_with_len};
ghost use Rattle.clu_tree.specs.declared.node.Node.{Node};
ghost use Rattle.clu_syntax.specs.Kinds.{kind_at};
ghost use Rattle.clu_syntax.specs.Items.{Item};
ghost use Rattle.clu_syntax.specs.Nodes.{item_with};
ghost use Rattle.clu_syntax.specs.Views.{expression_told, variable_told};
ghost use Rattle.clu_syntax.specs.Words.{literal_told};
ghost use Rattle.clu_settle.specs.declared.value.Value.TheVariants as value;
ghost use Rattle.clu_names.specs.Denotes.{rank};
ghost use Rattle.clu_bindings.specs.Tables.{items_at};
ghost use Rattle.clu_settle.specs.Names.{names_of};
ghost use Rattle.clu_bindings.specs.Files.{bound_in};
ghost use Rattle.clu_name_rules.specs.Closed.{has_long_name, is_long};
ghost use Rattle.clu_name_rules.specs.NameRules.{declares_variable, if_named, last_if, bound_defined, is_module_node, begins_with_stream, is_listed_once, is_defined_twice, is_unusable, disagrees_by, same_unit, comes_before, is_redefined, has_redefined, number_after, is_large, is_out_of_range, is_literal_out_of_range, is_known, has_unknown, uses_unknown, is_marked, leads_to_mark, is_argument, names_argument, takes_argument};

use crate::tables::{Tables, is_bad_name, is_repeated, leads_to_circle, stands_in};
use crate::views::is_kind;
use clu_base::Bytes;
use clu_bindings::{File, Meaning, is_set, is_stream};
use clu_literal::char_byte;
use clu_names::Declared;
use clu_settle::Value;
use clu_syntax::{Expression, Literal, Variable};
use clu_tree::NodeKind;

/// The longest identifier, in bytes.
const LONGEST_NAME: usize = 200;

// ---- V4

fn is_long(name: &Bytes) -> bool
    ensures { result ≡ is_long name.now }
{
    name.as_slice().len() > LONGEST_NAME
}

fn has_long(mut names: &[Bytes]) -> bool
    ensures { result ≡ list_any is_long names.entry.now }
{
    while let [name, rest @ ..] = names {
        if is_long(name) {
            return true;
        }
        names = rest;
    }
    false
}

/// What a decimal digit writes after a number; what has no 64 bits stays too large.
fn with_digit(number: u64, digit: u8) -> u64
    ensures { result ≡ min (10 * number + (digit - 48)) 18446744073709551615 }
{
    number
        .saturating_mul(10)
        .saturating_add(u64::from(digit.saturating_sub(b'0')))
}

fn is_large(digits: &[u8]) -> bool
    ensures { result ≡ is_large (number_after 0 digits.now) }
{
    let mut number = 0u64;
    for digit in digits {
        number = with_digit(number, *digit);
    }
    number > 9_223_372_036_854_775_807
}

/// A string that comes to no constant has an octal code that is too large.
fn is_out_of_range(literal: Literal<'_>, value: Value) -> bool
    ensures { result ≡ is_out_of_range (literal_told literal.entry) value }
{
    match literal {
        Literal::Integer(digits) => is_large(digits),
        Literal::Character(text) => char_byte(text).is_none(),
        Literal::String(_) => matches!(value, Value::Nothing),
        _ => false,
    }
}

fn is_literal_out_of_range(expression: Expression<'_>, value: Value) -> bool
    ensures { (items : ℕ → Item) (n : ℕ) → result ≡ is_literal_out_of_range (expression_told items n expression.entry) value }
{
    match expression {
        Expression::Literal(literal) => is_out_of_range(literal, value),
        _ => false,
    }
}

/// Whether the expression at the node n is such a literal.
fn is_bad_literal(f: File<'_>, n: u32) -> bool
    ensures { (items : ℕ → Item) → result ≡ is_literal_out_of_range (item_with items f.entry.syntax.now n (slice_get f.entry.syntax.now n)).expression (get_or f.entry.values.now n value.Lost) }
{
    match f.expression(n) {
        Some(expression) => is_literal_out_of_range(expression, f.value(n)),
        None => false,
    }
}

/// The same; only the node of a literal is looked into.
#[tactic(auto, using(crate::proofs::Literals::no_literal))]
fn has_bad_literal(f: File<'_>, n: u32) -> bool
    ensures { (items : ℕ → Item) → result ≡ is_literal_out_of_range (item_with items f.entry.syntax.now n (slice_get f.entry.syntax.now n)).expression (get_or f.entry.values.now n value.Lost) }
{
    is_kind(f, NodeKind::Literal, n) && is_bad_literal(f, n)
}

/// V4: an integer literal above 9223372036854775807, an octal code above 377, an identifier of more than 200 bytes (CLU
/// Reference Manual, section 5). In `x: int := 9223372036854775808` at the literal.
pub fn v4(t: &Tables<'_>, n: u32) -> bool
    ensures lengths { (node : Node) → slice_get t.now.file.syntax.now n ≡ Some node → IsFalse result → IsFalse (has_long_name node) }
    ensures exact { (items : ℕ → Item) → result ≡ (list_any is_long (names_of (slice_get t.now.file.syntax.now n)) || is_literal_out_of_range (item_with items t.now.file.syntax.now n (slice_get t.now.file.syntax.now n)).expression (get_or t.now.file.values.now n value.Lost)) }
{
    has_long(t.file.names(n)) || has_bad_literal(t.file, n)
}

// ---- V5

/// Whether a name denotes a declaration of the file, a module of the library, or the type `stream`.
fn is_known(name: &Bytes, bound: Option<usize>, meaning: Meaning) -> bool
    ensures { result ≡ is_known name.now bound meaning }
{
    bound.is_some() || matches!(meaning, Meaning::Module(Some(_))) || is_stream(name)
}

/// Whether one of these names denotes nothing, by what each is bound to and means.
fn has_unknown(mut names: &[Bytes], mut bounds: &[Option<usize>], mut meanings: &[Meaning]) -> bool
    ensures { result ≡ has_unknown names.entry.now bounds.entry.now meanings.entry.now }
{
    while let [name, more_names @ ..] = names
        && let [bound, more_bounds @ ..] = bounds
        && let [meaning, more_meanings @ ..] = meanings
    {
        if !is_known(name, *bound, *meaning) {
            return true;
        }
        names = more_names;
        bounds = more_bounds;
        meanings = more_meanings;
    }
    false
}

/// V5: the name denotes nothing in scope, no module of the file and none of the library (section 4.2). In `x: int := y + 1`
/// at `y`.
pub fn v5(t: &Tables<'_>, n: u32) -> bool
    ensures { result ≡ uses_unknown (kind_at t.now.file.syntax.now n) (names_of (slice_get t.now.file.syntax.now n)) (bound_in t.now.file.names.now n) (items_at t.now.file.bindings.now.meanings.items t.now.file.names.now.starts.items n) }
{
    let names = t.file.names(n);
    let bounds = t.file.bound(n);
    let meanings = t.file.meanings(n);
    match t.file.kind(n) {
        NodeKind::Name | NodeKind::NameT | NodeKind::Assign | NodeKind::For | NodeKind::Restrict =>
            has_unknown(names, bounds, meanings),
        NodeKind::TypeSet => has_unknown(
            names.get(1..).unwrap_or(&[]),
            bounds.get(1..).unwrap_or(&[]),
            meanings.get(1..).unwrap_or(&[]),
        ),
        _ => false,
    }
}

// ---- V6

/// How far out a declaration stands: further, the later its scope ends.
fn rank(one: &Declared) -> u64
    ensures { result ≡ rank one.now }
{
    match one.unit {
        Some(_) => u64::from(one.to).saturating_add(1),
        None => 0,
    }
}

/// Whether both declarations are of one module.
fn same_unit(a: Option<u32>, b: Option<u32>) -> bool
    ensures { result ≡ same_unit a b }
{
    match a {
        Some(a) => match b {
            Some(b) => a == b,
            None => false,
        },
        None => false,
    }
}

/// Whether the declaration d at the place k counts before another one of its module.
fn comes_before(k: usize, d: &Declared, own: usize, e: &Declared) -> bool
    ensures { result ≡ comes_before k d.now own e.now }
{
    same_unit(d.unit, e.unit) && (rank(e) < rank(d) || (rank(d) == rank(e) && k < own))
}

/// Whether a name that is declared at this place is in scope already: what it is bound to there is another declaration of the
/// module.
fn is_redefined(declared: &[Declared], own: usize, bound: Option<usize>) -> bool
    ensures { result ≡ is_redefined declared.now own bound }
{
    match bound {
        Some(k) => {
            k < declared.len()
                && own < declared.len()
                && comes_before(k, &declared[k], own, &declared[own])
        }
        None => false,
    }
}

/// Whether one of the names is, whose declarations follow one another from a place on.
fn has_redefined(declared: &[Declared], own: usize, mut bounds: &[Option<usize>]) -> bool
    ensures { result ≡ has_redefined declared.now own bounds.entry.now }
{
    let mut place = own;
    while let [bound, rest @ ..] = bounds {
        if place >= declared.len() {
            return false;
        }
        if is_redefined(declared, place, *bound) {
            return true;
        }
        place += 1;
        bounds = rest;
    }
    false
}

fn is_declared(variable: Option<Variable<'_>>) -> bool
    ensures { (items : ℕ → Item) → result ≡ is_some (variable_told items variable.entry) }
{
    match variable {
        Some(_) => true,
        None => false,
    }
}

fn declares_variable(f: File<'_>, n: u32) -> bool
    ensures { (items : ℕ → Item) → result ≡ declares_variable items f.entry.syntax.now n }
{
    if is_kind(f, NodeKind::TagArm, n) {
        is_declared(f.syntax.tag_arm(n).variable)
    } else {
        false
    }
}

fn if_named<'a>(names: &[Bytes], bounds: &'a [Option<usize>]) -> &'a [Option<usize>]
    ensures { result.now ≡ if_named names.now bounds.now }
{
    match names {
        [] => &[],
        [_, ..] => bounds,
    }
}

fn first_only(bounds: &[Option<usize>]) -> &[Option<usize>]
    ensures { result.now ≡ take 1 bounds.now }
{
    match bounds {
        [] => bounds,
        [_, ..] => &bounds[..1],
    }
}

fn last_if(with_variable: bool, bounds: &[Option<usize>]) -> &[Option<usize>]
    ensures { result.now ≡ last_if with_variable bounds.now }
{
    if with_variable {
        let before = bounds.len().saturating_sub(1);
        &bounds[before..]
    } else {
        &[]
    }
}

/// What the names that a node declares in its module are bound to there: of an arm that is the last name, if it declares a
/// variable, of a type set and a routine the first. The word `rep` is no name.
fn bound_defined<'a>(f: File<'a>, n: u32) -> &'a [Option<usize>]
    ensures { (items : ℕ → Item) → result.now ≡ bound_defined (kind_at f.entry.syntax.now n) (names_of (slice_get f.entry.syntax.now n)) (declares_variable items f.entry.syntax.now n) (bound_in f.entry.names.now n) }
{
    let bounds = f.bound(n);
    match f.kind(n) {
        NodeKind::Equate => if_named(f.names(n), bounds),
        NodeKind::Parm | NodeKind::Decl | NodeKind::Init | NodeKind::Own | NodeKind::Others =>
            bounds,
        NodeKind::Routine | NodeKind::TypeSet => first_only(bounds),
        NodeKind::TagArm => last_if(declares_variable(f, n), bounds),
        _ => &[],
    }
}

fn is_module(f: File<'_>, n: u32) -> bool
    ensures { result ≡ is_module_node f.entry.syntax.now f.entry.rounds.now n }
{
    is_kind(f, NodeKind::Cluster, n)
        || (is_kind(f, NodeKind::Routine, n) && stands_in(f, NodeKind::Module, n))
}

fn begins_with_stream(names: &[Bytes]) -> bool
    ensures { result ≡ begins_with_stream names.now }
{
    match names {
        [name, ..] => is_stream(name),
        [] => false,
    }
}

/// Where the declarations of the node n begin; behind all if it has none.
fn own_place(t: &Tables<'_>, n: u32) -> usize
    ensures { result ≡ get_or t.now.own.now n (length t.now.file.names.now.declared.items) }
{
    t.own
        .get(n as usize)
        .copied()
        .unwrap_or(t.file.names.declared.len())
}

/// Whether names that stand twice at a node of this kind are defined twice. Of selectors, tags and arms other rules are asked.
fn is_listed_once(kind: NodeKind) -> bool
    ensures { result ≡ is_listed_once kind }
{
    match kind {
        NodeKind::Equate
        | NodeKind::Parm
        | NodeKind::Decl
        | NodeKind::Init
        | NodeKind::Own
        | NodeKind::Others
        | NodeKind::Exc
        | NodeKind::Routine
        | NodeKind::Cluster => true,
        _ => false,
    }
}

fn has_redefined_name(t: &Tables<'_>, n: u32) -> bool
    ensures { (items : ℕ → Item) → result ≡ has_redefined t.now.file.names.now.declared.items (get_or t.now.own.now n (length t.now.file.names.now.declared.items)) (bound_defined (kind_at t.now.file.syntax.now n) (names_of (slice_get t.now.file.syntax.now n)) (declares_variable items t.now.file.syntax.now n) (bound_in t.now.file.names.now n)) }
{
    let declared = t.file.names.declared.as_slice();
    has_redefined(declared, own_place(t, n), bound_defined(t.file, n))
}

/// A name that the node declares stands twice or is in scope already, or it is a module of the name `stream`.
fn is_defined_twice(t: &Tables<'_>, n: u32) -> bool
    ensures { (items : ℕ → Item) → result ≡ is_defined_twice items t.now.file.syntax.now t.now.file.rounds.now t.now.file.names.now t.now.items.now.repeated.items t.now.own.now n }
{
    (is_listed_once(t.file.kind(n)) && is_repeated(t, n))
        || ((is_module(t.file, n) && begins_with_stream(t.file.names(n)))
            || has_redefined_name(t, n))
}

/// Whether nothing is asked by a type set of one of these names, since it is bad or circular.
fn has_unusable(t: &Tables<'_>, bad: &[bool], mut bounds: &[Option<usize>]) -> bool
    ensures { result ≡ list_any (is_unusable t.now.file.syntax.now t.now.file.names.now t.now.circular.now bad.now) bounds.entry.now }
{
    while let [bound, rest @ ..] = bounds {
        if leads_to_circle(t, *bound) || is_bad_name(t, bad, *bound) {
            return true;
        }
        bounds = rest;
    }
    false
}

fn disagrees_at(t: &Tables<'_>, bad: &[bool], disagrees: &[bool], n: u32) -> bool
    ensures { result ≡ disagrees_by t.now.file.syntax.now t.now.file.names.now t.now.circular.now bad.now disagrees.now (kind_at t.now.file.syntax.now n) n }
{
    match t.file.kind(n) {
        NodeKind::Oper => is_set(disagrees, n as usize),
        NodeKind::Restrict => {
            is_set(disagrees, n as usize) && !has_unusable(t, bad, t.file.bound(n))
        }
        _ => false,
    }
}

/// V6: the name is in scope already from the same module, or stands twice among modules, parameters, exports or signals; or a
/// demand on a parameter disagrees with one before it (sections 4.2 and 12.4). In `x: int begin x: string end` at the second
/// `x`. `disagrees` says of each node whether a demand of it does.
pub fn v6(t: &Tables<'_>, bad: &[bool], disagrees: &[bool], n: u32) -> bool
    ensures { (items : ℕ → Item) → result ≡ (is_defined_twice items t.now.file.syntax.now t.now.file.rounds.now t.now.file.names.now t.now.items.now.repeated.items t.now.own.now n || disagrees_by t.now.file.syntax.now t.now.file.names.now t.now.circular.now bad.now disagrees.now (kind_at t.now.file.syntax.now n) n) }
{
    is_defined_twice(t, n) || disagrees_at(t, bad, disagrees, n)
}

// ---- V7

fn has_circle(t: &Tables<'_>, mut bound: &[Option<usize>]) -> bool
    ensures { result ≡ list_any (is_marked t.now.circular.now) bound.entry.now }
{
    while let [first, rest @ ..] = bound {
        if leads_to_circle(t, *first) {
            return true;
        }
        bound = rest;
    }
    false
}

/// V7: the unfolding of the equate that is named meets itself (section 7.2). In `a = b b = a + 1` at `b`.
pub fn v7(t: &Tables<'_>, n: u32) -> bool
    ensures { result ≡ leads_to_mark t.now.circular.now (kind_at t.now.file.syntax.now n) (bound_in t.now.file.names.now n) }
{
    match t.file.kind(n) {
        NodeKind::Name | NodeKind::NameT | NodeKind::Simple | NodeKind::Restrict => {
            has_circle(t, t.file.bound(n))
        }
        _ => false,
    }
}

// ---- V37

fn is_argument(f: File<'_>, declaring: Option<u32>) -> bool
    ensures { result ≡ is_argument f.entry.syntax.now f.entry.rounds.now f.entry.names.now declaring }
{
    match declaring {
        Some(d) => is_kind(f, NodeKind::Decl, d) && stands_in(f, NodeKind::Routine, d),
        None => false,
    }
}

fn names_argument(f: File<'_>, n: u32) -> bool
    ensures { result ≡ names_argument f.entry.syntax.now f.entry.rounds.now f.entry.names.now n }
{
    is_kind(f, NodeKind::Name, n) && is_argument(f, f.declared_by(n))
}

fn has_argument(f: File<'_>, from: u32, to: u32) -> bool
    ensures { result ≡ list_any (names_argument f.entry.syntax.now f.entry.rounds.now f.entry.names.now) (range_with_len from (to - from)) }
{
    for n in from..to {
        if names_argument(f, n) {
            return true;
        }
    }
    false
}

/// V37: the initial object of an own variable names an argument of the routine (section 8.3). In
/// `p = proc (x: int) own n: int := x` at `own`.
pub fn v37(t: &Tables<'_>, n: u32) -> bool
    ensures { result ≡ takes_argument t.now.file.syntax.now t.now.file.rounds.now t.now.file.names.now n }
{
    is_kind(t.file, NodeKind::Own, n) && has_argument(t.file, t.file.round(n).first, n)
}
