//! The rules on invocations: V11 NoOperation, V12 ArgumentCount, V13 ArgumentType, and of V14 ResultCount and V36 IteratorUse what
//! is asked of them. An expression without a type violates a rule by itself, so nothing is asked of it here.

ghost use Rattle.std.specs.Prelude.{◌≡◌, ℕ};
ghost use Rattle.clu_syntax.specs.Items.{Item};
ghost use Rattle.clu_types.specs.declared.term.Heading.{Heading};
ghost use Rattle.clu_type_rules.specs.declared.invocation_rules.Fault.TheVariants as fault;
ghost use Rattle.clu_name_rules.specs.Constructors.{ValuesAscend};
ghost use Rattle.clu_type_rules.specs.Constructors.{v13};
ghost use Rattle.clu_type_rules.specs.Included.{all_may_be};
ghost use Rattle.clu_type_rules.specs.InvocationRules.{is_missing, lacks_operation, breaks, breaks_by, has_fault, some_has_fault};

use crate::known::{Known, heading_of, is_iterator, may_be};
use crate::misfits::is_misfit;
use clu_types::{Heading, TypeArena, TypeId};
use clu_typing::{Invocation, Operation};

/// What may be wrong of an invocation.
#[derive(Clone, Copy)]
pub enum Fault {
    /// It has another number of arguments than the heading.
    ArgumentCount,
    /// An argument's type isn't included in the formal's, or what is invoked is no routine.
    ArgumentTypes,
    /// It has not exactly one result.
    ResultCount,
    /// An iterator is invoked.
    Iterator,
}

/// Whether each type is included in the one at its place, as far as there are both.
fn all_may_be(types: &TypeArena, mut given: &[Option<TypeId>], mut wanted: &[TypeId]) -> bool
    ensures { result ≡ all_may_be types.now given.entry.now wanted.entry.now }
{
    while let [one, more @ ..] = given
        && let [other, rest @ ..] = wanted
    {
        if !may_be(types, *one, Some(*other)) {
            return false;
        }
        given = more;
        wanted = rest;
    }
    true
}

/// Whether this is wrong where a routine of this type is invoked with arguments of these types.
fn breaks(
    k: &Known<'_>,
    fault: Fault,
    given: &[Option<TypeId>],
    of: Option<TypeId>,
    heading: &Heading,
) -> bool
    ensures { result ≡ breaks k.now fault given.now of heading.now }
{
    match fault {
        Fault::ArgumentCount => heading.args.as_slice().len() != given.len(),
        Fault::ArgumentTypes => !all_may_be(k.tables.types, given, heading.args.as_slice()),
        Fault::ResultCount => heading.results.as_slice().len() != 1,
        Fault::Iterator => is_iterator(k, of),
    }
}

fn has_fault(k: &Known<'_>, fault: Fault, invocation: Invocation) -> bool
    ensures { result ≡ has_fault k.now fault invocation }
{
    let of = k.facts.operation_type(invocation.operation);
    match heading_of(k, of) {
        Some(heading) => breaks(k, fault, k.facts.arguments(invocation), of, heading),
        None => of.is_some() && matches!(fault, Fault::ArgumentTypes),
    }
}

/// Whether this is wrong of something that is invoked at the node n.
pub fn some_has_fault(k: &Known<'_>, n: u32, fault: Fault) -> bool
    ensures { result ≡ some_has_fault k.now fault n }
{
    let mut invocations = k.facts.invocations(n);
    while let [invocation, rest @ ..] = invocations {
        if has_fault(k, fault, *invocation) {
            return true;
        }
        invocations = rest;
    }
    false
}

fn is_missing(operation: Operation) -> bool
    ensures { result ≡ is_missing operation }
{
    match operation {
        Operation::Missing => true,
        _ => false,
    }
}

/// V11: the type gives no operation of that name, also where sugar stands for one (CLU Reference Manual, section 10.13).
/// In `nil < nil` at `<`.
pub fn v11(k: &Known<'_>, n: u32) -> bool
    ensures { result ≡ lacks_operation k.now n }
{
    let mut operations = k.facts.operations_at(n);
    while let [operation, rest @ ..] = operations {
        if is_missing(*operation) {
            return true;
        }
        operations = rest;
    }
    false
}

/// V12: an invocation has another number of arguments (section 10). In `q()`, where `q = proc (x: int)`, at `(`.
pub fn v12(k: &Known<'_>, n: u32) -> bool
    ensures { result ≡ some_has_fault k.now fault.ArgumentCount n }
{
    some_has_fault(k, n, Fault::ArgumentCount)
}

/// V13: an argument's type isn't included in the formal's, or what is invoked is no routine; a component's or element's type
/// isn't included in that of the constructor, or the low bound isn't an int (section 10). In `1 + "a"` at `+`.
pub fn v13(k: &Known<'_>, n: u32) -> bool
    ensures { (items : ℕ → Item) → ValuesAscend k.now.tables → result ≡ v13 k.now items n }
{
    some_has_fault(k, n, Fault::ArgumentTypes) || is_misfit(k, n)
}
