//! The operation for which a node stands, found in the type of its operand (CLU Reference Manual, section 10).

ghost use Rattle.std.specs.Prelude.{◌≡◌, ◌<◌, ◌++◌, ℕ, List, true, false, length, IfOk, Some, codes, slice_get};
ghost use Rattle.clu_syntax.specs.Items.{Item};
ghost use Rattle.clu_syntax.specs.Views.{expression_told};
ghost use Rattle.clu_syntax.specs.Kinds.{is_expression};
ghost use Rattle.clu_types.specs.Arena.{Grows};
ghost use Rattle.clu_settle.specs.Names.{names_of};
ghost use Rattle.clu_bindings.specs.Readers.{kind_in, meaning_in};
ghost use Rattle.clu_bindings.specs.Inside.{own_type};
ghost use Rattle.clu_operations.specs.Finding.{IsBelowIf};
ghost use Rattle.clu_operations.specs.Words.{number_with};
ghost use Rattle.clu_operations.specs.Wished.{IsFinding};
ghost use Rattle.clu_typing.specs.Facts.{type_found};
ghost use Rattle.clu_typing.specs.Nodes.{has_actuals};
ghost use Rattle.clu_typing.specs.Applied.{only, result_of, results_of};
ghost use Rattle.clu_typing.specs.Invoking.{IsSought};
ghost use Rattle.clu_typing.specs.Found.{FindsMore, HaveOperands, IsModuleTold, IsUseTold, IsUseToldIf, IsBehindTold, IsInvokedTold, IsNamedTold, IsAppliedTold};
ghost use Rattle.clu_typing.specs.Stands.{infix_stands, index_stands, operation_stands, name_stands, field_stands, stands_by, expression_stands, stands_at, IsUse, IsUseOf, IsBehind, IsNegation, IsInvoked, IsNamed, IsApplied};

use crate::facts::{Operation, operation_of, type_found};
use crate::nodes::{first_settled, first_type, has_actuals};
use crate::operators::{infix_operation, is_negated, prefix_operation};
use clu_base::{Bytes, Memory};
use clu_bindings::{Headed, Meaning, own_type};
use clu_operations::{Finding, NameId, module_found, operation_found};
use clu_syntax::{Expression, Operator, is_expression};
use clu_tree::NodeKind;
use clu_types::{Term, TypeArena, TypeId};

/// An operation of a name of a type, with what was found.
#[derive(Clone, Copy)]
pub struct Use {
    pub of: TypeId,
    pub name: NameId,
    pub operation: Operation,
}

/// For what a node stands.
#[derive(Clone, Copy)]
pub enum Applied {
    /// For no operation, or for one of an operand without a type.
    Nothing,
    /// An operation that is invoked, and behind a comparison with `~` also `not`, which is of what the comparison gives.
    Invoked(Use, Option<Use>),
    /// An operation that is named, unless it is named of no type.
    Named(Option<Use>),
}

fn only(types: &[TypeId]) -> Option<TypeId>
    ensures { result ≡ only types.now }
{
    match types {
        [one] => Some(*one),
        _ => None,
    }
}

fn results_of(term: &Term) -> &[TypeId]
    ensures { result.now ≡ results_of term.now }
{
    match term {
        Term::Proc(heading) | Term::Iter(heading) => heading.results.as_slice(),
        _ => &[],
    }
}

/// The only result of a routine; another number of results, and what is no routine, gives none.
pub fn result_of(types: &TypeArena, of: Option<TypeId>) -> Option<TypeId>
    ensures only { result ≡ result_of types.now of }
    ensures below { IsBelowIf (length types.now) result }
{
    let of = of?;
    if types.contains(of) {
        only(results_of(types.view(of)))
    } else {
        None
    }
}

/// The routine of a module with actual parameters, which stand in the arena as a cluster type of its name.
#[tactic(auto, using(crate::proofs::Telling::steps))]
pub fn module_operation(
    headed: Headed<'_>,
    types: &mut TypeArena,
    finding: &mut Finding,
    of: Option<TypeId>,
) -> Result<Operation, Memory>
    ensures sought { IfOk result (IsSought of) }
    ensures found { IsBelowIf (length types.old) of → IsFinding headed.entry types.old finding.old → IfOk result (λ its. FindsMore headed.entry types.new finding.old finding.new × IsModuleTold headed.entry types.new finding.new of its) }
    ensures kept { Grows types.old types.new }
{
    match of {
        Some(of) => Ok(operation_of(module_found(headed, types, finding, of)?)),
        None => Ok(Operation::Missing),
    }
}

fn used(
    headed: Headed<'_>,
    types: &mut TypeArena,
    finding: &mut Finding,
    n: u32,
    of: TypeId,
    name: NameId,
) -> Result<Use, Memory>
    ensures stands { IfOk result (IsUse of name) }
    ensures found { (text : List ℕ) → slice_get finding.old.words name.0 ≡ Some text → of.0 < length types.old → IsFinding headed.entry types.old finding.old → IfOk result (λ its. FindsMore headed.entry types.new finding.old finding.new × IsUseTold headed.entry types.new finding.new n of text its) }
    ensures kept { Grows types.old types.new }
{
    let found = operation_found(headed, types, finding, n, of, name)?;
    Ok(Use {
        of,
        name,
        operation: operation_of(found),
    })
}

// ---- operations that are invoked

/// The operation `not` of what a comparison gives, if that has a type.
#[tactic(auto, using(crate::proofs::Telling::steps))]
fn negation(
    headed: Headed<'_>,
    types: &mut TypeArena,
    finding: &mut Finding,
    n: u32,
    of: Option<TypeId>,
) -> Result<Option<Use>, Memory>
    ensures stands { IfOk result (IsUseOf of (number_with finding.old.words (codes "not"))) }
    ensures found { IsBelowIf (length types.old) of → IsFinding headed.entry types.old finding.old → IfOk result (λ its. FindsMore headed.entry types.new finding.old finding.new × IsUseToldIf headed.entry types.new finding.new n of (codes "not") its) }
    ensures kept { Grows types.old types.new }
{
    match of {
        Some(of) => {
            let words = &mut finding.words;
            let name = words.number_of(headed.file.alloc, b"not".as_slice())?;
            Ok(Some(used(headed, types, finding, n, of, name)?))
        }
        None => Ok(None),
    }
}

/// What is invoked behind an operation: behind a comparison with `~` it is `not`.
#[tactic(auto, using(crate::proofs::Telling::steps))]
fn behind(
    headed: Headed<'_>,
    types: &mut TypeArena,
    finding: &mut Finding,
    n: u32,
    first: Use,
    negated: bool,
) -> Result<Option<Use>, Memory>
    ensures behind { IfOk result (IsBehind negated) }
    ensures negation { IfOk result (IsNegation negated (result_of types.old (type_found finding.old first.operation)) (number_with finding.old.words (codes "not"))) }
    ensures found { IsFinding headed.entry types.old finding.old → IfOk result (λ its. FindsMore headed.entry types.new finding.old finding.new × IsBehindTold headed.entry types.new finding.new n negated (result_of types.old (type_found finding.old first.operation)) its) }
    ensures kept { Grows types.old types.new }
{
    if negated {
        let of = result_of(types, type_found(finding, first.operation));
        negation(headed, types, finding, n, of)
    } else {
        Ok(None)
    }
}

/// The operation of this name of an operand of this type.
#[tactic(auto, using(crate::proofs::Telling::steps))]
fn invoked(
    headed: Headed<'_>,
    types: &mut TypeArena,
    finding: &mut Finding,
    n: u32,
    name: NameId,
    negated: bool,
    of: Option<TypeId>,
) -> Result<Applied, Memory>
    ensures stands { IfOk result (IsInvoked of name negated) }
    ensures found { (text : List ℕ) → slice_get finding.old.words name.0 ≡ Some text → IsBelowIf (length types.old) of → IsFinding headed.entry types.old finding.old → IfOk result (λ its. FindsMore headed.entry types.new finding.old finding.new × IsInvokedTold headed.entry types.new finding.new n of text negated its) }
    ensures kept { Grows types.old types.new }
{
    match of {
        Some(of) => {
            let first = used(headed, types, finding, n, of, name)?;
            let second = behind(headed, types, finding, n, first, negated)?;
            Ok(Applied::Invoked(first, second))
        }
        None => Ok(Applied::Nothing),
    }
}

fn by_word(
    headed: Headed<'_>,
    types: &mut TypeArena,
    finding: &mut Finding,
    n: u32,
    word: &str,
    negated: bool,
    of: Option<TypeId>,
) -> Result<Applied, Memory>
    ensures stands { IfOk result (IsInvoked of (number_with finding.old.words word.now) negated) }
    ensures found { IsBelowIf (length types.old) of → IsFinding headed.entry types.old finding.old → IfOk result (λ its. FindsMore headed.entry types.new finding.old finding.new × IsInvokedTold headed.entry types.new finding.new n of word.now negated its) }
    ensures kept { Grows types.old types.new }
{
    let words = &mut finding.words;
    let name = words.number_of(headed.file.alloc, word.as_bytes())?;
    invoked(headed, types, finding, n, name, negated, of)
}

/// The operation whose name is a front and a selector.
fn selected(
    headed: Headed<'_>,
    types: &mut TypeArena,
    finding: &mut Finding,
    n: u32,
    front: &str,
    selector: &Bytes,
    of: Option<TypeId>,
) -> Result<Applied, Memory>
    ensures stands { IfOk result (IsInvoked of (number_with finding.old.words (front.now ++ selector.now)) false) }
    ensures found { IsBelowIf (length types.old) of → IsFinding headed.entry types.old finding.old → IfOk result (λ its. FindsMore headed.entry types.new finding.old finding.new × IsInvokedTold headed.entry types.new finding.new n of (front.now ++ selector.now) false its) }
    ensures kept { Grows types.old types.new }
{
    let words = &mut finding.words;
    let name = words.number_behind(headed.file.alloc, front.as_bytes(), selector)?;
    invoked(headed, types, finding, n, name, false, of)
}

#[tactic(auto, using(crate::proofs::Telling::steps))]
fn infix(
    headed: Headed<'_>,
    types: &mut TypeArena,
    finding: &mut Finding,
    n: u32,
    operator: Operator,
    of: Option<TypeId>,
) -> Result<Applied, Memory>
    ensures stands { IfOk result (IsApplied finding.old.words (infix_stands operator of)) }
    ensures found { IsBelowIf (length types.old) of → IsFinding headed.entry types.old finding.old → IfOk result (λ its. FindsMore headed.entry types.new finding.old finding.new × IsAppliedTold headed.entry types.new finding.new n (infix_stands operator of) its) }
    ensures kept { Grows types.old types.new }
{
    match infix_operation(operator) {
        Some(word) => by_word(headed, types, finding, n, word, is_negated(operator), of),
        None => Ok(Applied::Nothing),
    }
}

#[tactic(auto, using(crate::proofs::Telling::steps))]
fn index(
    headed: Headed<'_>,
    types: &mut TypeArena,
    finding: &mut Finding,
    n: u32,
    of: Option<TypeId>,
) -> Result<Applied, Memory>
    ensures stands { IfOk result (IsApplied finding.old.words (index_stands (has_actuals headed.entry.file n) of)) }
    ensures found { IsBelowIf (length types.old) of → IsFinding headed.entry types.old finding.old → IfOk result (λ its. FindsMore headed.entry types.new finding.old finding.new × IsAppliedTold headed.entry types.new finding.new n (index_stands (has_actuals headed.entry.file n) of) its) }
    ensures kept { Grows types.old types.new }
{
    if has_actuals(headed.file, n) {
        Ok(Applied::Nothing)
    } else {
        by_word(headed, types, finding, n, "fetch", false, of)
    }
}

// ---- operations that are named

#[tactic(auto, using(crate::proofs::Telling::steps))]
fn named(
    headed: Headed<'_>,
    types: &mut TypeArena,
    finding: &mut Finding,
    n: u32,
    of: Option<TypeId>,
    name: &Bytes,
) -> Result<Applied, Memory>
    ensures stands { IfOk result (IsNamed of (number_with finding.old.words name.now)) }
    ensures found { IsBelowIf (length types.old) of → IsFinding headed.entry types.old finding.old → IfOk result (λ its. FindsMore headed.entry types.new finding.old finding.new × IsNamedTold headed.entry types.new finding.new n of name.now its) }
    ensures kept { Grows types.old types.new }
{
    match of {
        Some(of) => {
            let name = finding.words.number(headed.file.alloc, name)?;
            let used = used(headed, types, finding, n, of, name)?;
            Ok(Applied::Named(Some(used)))
        }
        None => Ok(Applied::Named(None)),
    }
}

/// The operation of a type that is written out.
#[tactic(auto, using(crate::proofs::Telling::steps))]
fn of_type(
    headed: Headed<'_>,
    types: &mut TypeArena,
    finding: &mut Finding,
    n: u32,
    of: Option<TypeId>,
    name: &Bytes,
) -> Result<Applied, Memory>
    ensures stands { IfOk result (IsApplied finding.old.words (operation_stands of name.now)) }
    ensures found { IsBelowIf (length types.old) of → IsFinding headed.entry types.old finding.old → IfOk result (λ its. FindsMore headed.entry types.new finding.old finding.new × IsAppliedTold headed.entry types.new finding.new n (operation_stands of name.now) its) }
    ensures kept { Grows types.old types.new }
{
    match of {
        Some(_) => named(headed, types, finding, n, of, name),
        None => Ok(Applied::Nothing),
    }
}

/// The routine of the cluster round the node n that a Name denotes.
#[tactic(auto, using(crate::proofs::Telling::steps))]
fn own_named(
    headed: Headed<'_>,
    types: &mut TypeArena,
    finding: &mut Finding,
    n: u32,
    name: &Bytes,
) -> Result<Applied, Memory>
    ensures stands { IfOk result (IsApplied finding.old.words (name_stands (meaning_in headed.entry.file n) (own_type headed.entry.file n) name.now)) }
    ensures found { IsBelowIf (length types.old) (own_type headed.entry.file n) → IsFinding headed.entry types.old finding.old → IfOk result (λ its. FindsMore headed.entry types.new finding.old finding.new × IsAppliedTold headed.entry types.new finding.new n (name_stands (meaning_in headed.entry.file n) (own_type headed.entry.file n) name.now) its) }
    ensures kept { Grows types.old types.new }
{
    match headed.file.meaning(n) {
        Meaning::RoutineOfCluster => {
            named(headed, types, finding, n, own_type(headed.file, n), name)
        }
        _ => Ok(Applied::Nothing),
    }
}

// ---- nodes

/// That for which the expression of the node n stands.
#[tactic(auto, using(crate::proofs::Telling::steps), unfolding(crate::specs::Stands::stands_by))]
fn by_expression(
    headed: Headed<'_>,
    types: &mut TypeArena,
    known: &[Option<TypeId>],
    finding: &mut Finding,
    n: u32,
    expression: Expression<'_>,
) -> Result<Applied, Memory>
    ensures stands { (items : ℕ → Item) → IfOk result (IsApplied finding.old.words (stands_by headed.entry.file known.now n (expression_told items n expression.entry))) }
    ensures found { (items : ℕ → Item) → HaveOperands headed.entry.file known.now (length types.old) → IsFinding headed.entry types.old finding.old → IfOk result (λ its. FindsMore headed.entry types.new finding.old finding.new × IsAppliedTold headed.entry types.new finding.new n (stands_by headed.entry.file known.now n (expression_told items n expression.entry)) its) }
    ensures kept { Grows types.old types.new }
{
    let of = first_type(headed.file, known, n);
    match expression {
        Expression::Infix { operator, .. } => infix(headed, types, finding, n, operator, of),
        Expression::Prefix { sign, .. } => {
            by_word(headed, types, finding, n, prefix_operation(sign), false, of)
        }
        Expression::Index { .. } => index(headed, types, finding, n, of),
        Expression::Get { selector, .. } => {
            selected(headed, types, finding, n, "get_", selector, of)
        }
        Expression::Operation { operation, .. } => {
            of_type(
                headed,
                types,
                finding,
                n,
                first_settled(headed.file, n),
                operation,
            )
        }
        Expression::Name(name) => own_named(headed, types, finding, n, name),
        _ => Ok(Applied::Nothing),
    }
}

/// The same of the node n, if it is an expression.
#[tactic(auto, using(crate::proofs::Telling::steps))]
fn by_view(
    headed: Headed<'_>,
    types: &mut TypeArena,
    known: &[Option<TypeId>],
    finding: &mut Finding,
    n: u32,
) -> Result<Applied, Memory>
    ensures stands { is_expression (kind_in headed.entry.file n) ≡ true → (items : ℕ → Item) → IfOk result (IsApplied finding.old.words (expression_stands headed.entry.file known.now n items)) }
    ensures found { is_expression (kind_in headed.entry.file n) ≡ true → (items : ℕ → Item) → HaveOperands headed.entry.file known.now (length types.old) → IsFinding headed.entry types.old finding.old → IfOk result (λ its. FindsMore headed.entry types.new finding.old finding.new × IsAppliedTold headed.entry types.new finding.new n (expression_stands headed.entry.file known.now n items) its) }
    ensures kept { Grows types.old types.new }
{
    match headed.file.expression(n) {
        Some(expression) => by_expression(headed, types, known, finding, n, expression),
        None => Ok(Applied::Nothing),
    }
}

/// The same of the node n, if it is a SetField.
#[tactic(auto, using(crate::proofs::Telling::steps))]
fn by_field(
    headed: Headed<'_>,
    types: &mut TypeArena,
    finding: &mut Finding,
    n: u32,
    of: Option<TypeId>,
) -> Result<Applied, Memory>
    ensures stands { IfOk result (IsApplied finding.old.words (field_stands (names_of (slice_get headed.entry.file.syntax.now n)) of)) }
    ensures found { IsBelowIf (length types.old) of → IsFinding headed.entry types.old finding.old → IfOk result (λ its. FindsMore headed.entry types.new finding.old finding.new × IsAppliedTold headed.entry types.new finding.new n (field_stands (names_of (slice_get headed.entry.file.syntax.now n)) of) its) }
    ensures kept { Grows types.old types.new }
{
    match headed.file.names(n) {
        [selector, ..] => selected(headed, types, finding, n, "set_", selector, of),
        [] => Ok(Applied::Nothing),
    }
}

/// For what the node n stands, by the types of the nodes before it. The operand is its first child.
#[tactic(auto, using(crate::proofs::Telling::steps), unfolding(crate::specs::Stands::stands_as))]
pub fn applied_at(
    headed: Headed<'_>,
    types: &mut TypeArena,
    known: &[Option<TypeId>],
    finding: &mut Finding,
    n: u32,
) -> Result<Applied, Memory>
    ensures stands { (items : ℕ → Item) → IfOk result (IsApplied finding.old.words (stands_at headed.entry.file known.now n items)) }
    ensures found { (items : ℕ → Item) → HaveOperands headed.entry.file known.now (length types.old) → IsFinding headed.entry types.old finding.old → IfOk result (λ its. FindsMore headed.entry types.new finding.old finding.new × IsAppliedTold headed.entry types.new finding.new n (stands_at headed.entry.file known.now n items) its) }
    ensures kept { Grows types.old types.new }
{
    let of = first_type(headed.file, known, n);
    match headed.file.kind(n) {
        NodeKind::SetField => by_field(headed, types, finding, n, of),
        NodeKind::SetIndex => by_word(headed, types, finding, n, "store", false, of),
        kind => {
            if is_expression(kind) {
                by_view(headed, types, known, finding, n)
            } else {
                Ok(Applied::Nothing)
            }
        }
    }
}
