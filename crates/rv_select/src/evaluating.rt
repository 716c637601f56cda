//! Expressions in registers: the word of each is known, or in a register from its first use to its last.

ghost use Rattle.std.specs.Prelude.{◌≡◌, IfOk, OnOk, if◌then◌else◌, map, pos};
ghost use Rattle.clu_wir.specs.Plain.{expr_of, exprs_of};
ghost use Rattle.rv_select.specs.Evaluation.{at_of, bound_onto, byte_at_onto, cell_onto, check_onto, held as held_at, held_onto, hole_word_onto, in_register_at, in_register_onto, inner_scope, is_held as holds_known, jump_of, jump_to, last_onto, load_word_onto, loaded_onto, loaded_whole_onto, onto_of, part_of, parts_of, plain_jump, same as same_sense, slot_onto};
ghost use Rattle.rv_select.specs.Operands.{free};
ghost use Rattle.rv_select.specs.Written.{written};
ghost use Rattle.rv_select.specs.declared.operand.Operand.TheVariants.{At};

use crate::combining::{combine, small};
use crate::conditions::{Comparison, Target};
use crate::error::{Answer, SelectError};
use crate::knowing::{Way, added, known_of, ready_side, short, told_by};
use crate::operand::{Operand, Scope};
use crate::parts::raise_trap;
use crate::register::Register;
use crate::register::Register::{Table, Value};
use crate::slots::{load_at, load_slot, word_distance};
use crate::words::Words;
use clu_wir::{HoleKind, Trap, WExpr, WOp};
use rv_isa::Op;

/// Where the word of an expression is. What the scope keeps stays as it is.
#[cycle(evaluation)]
pub(crate) fn value(words: &mut Words, expression: &WExpr, scope: Scope) -> Answer<Operand>
    ensures operand { IfOk result (λ operand. operand ≡ at_of (part_of (expr_of expression.now)) scope) }
    ensures written { OnOk result (written words.new ≡ onto_of (part_of (expr_of expression.now)) scope (written words.old)) }
{
    match known_of(expression, scope) {
        Some(word) => Ok(Operand::Known(word)),
        None => unknown(words, expression, scope),
    }
}

/// The same of an expression that isn't known.
#[cycle(evaluation)]
fn unknown(words: &mut Words, expression: &WExpr, scope: Scope) -> Answer<Operand>
    ensures operand { IfOk result (λ operand. operand ≡ (part_of (expr_of expression.now)).at scope) }
    ensures written { OnOk result (written words.new ≡ (part_of (expr_of expression.now)).onto scope (written words.old)) }
{
    match expression {
        WExpr::Slot(slot) => slot_word(words, *slot, scope),
        WExpr::Word(word) => Ok(Operand::Known(*word)),
        WExpr::Hole(kind, number) => hole_word(words, *kind, *number, scope),
        WExpr::Load(address, bytes) => load(words, address, *bytes, scope),
        WExpr::Byte(address) => {
            let address = value(words, address, scope)?;
            load_byte(words, address, scope)
        }
        WExpr::Binary(op, left, right) => {
            let left = value(words, left, scope)?;
            let right = value(words, right, scope.keeping(left))?;
            combine(words, *op, left, right, scope)
        }
        WExpr::If(condition, then, other) => {
            let to = scope.free()?;
            let otherwise = words.fresh()?;
            let end = words.fresh()?;
            match ready_side(condition, then, other, scope) {
                Some((word, is_first)) => {
                    // It stays there unless the other one takes its place.
                    word.put(words, to)?;
                    let kept = scope.keeping(Operand::At(to));
                    branch(words, condition, is_first, Target::near(end), kept)?;
                    if is_first {
                        give(words, other, to, end, scope)
                    } else {
                        give(words, then, to, end, scope)
                    }
                }
                None => {
                    branch(words, condition, false, Target::far(otherwise), scope)?;
                    value(words, then, scope)?.put(words, to)?;
                    words.go(end)?;
                    words.label(otherwise)?;
                    give(words, other, to, end, scope)
                }
            }
        }
        WExpr::Check(condition, trap, word) => {
            check(words, condition, *trap, scope)?;
            value(words, word, scope)
        }
        WExpr::With(values, body) => {
            let inner = bind_all(words, values.as_slice(), scope)?;
            value(words, body, inner)
        }
        WExpr::Bound(number) => scope.bound(*number).ok_or(SelectError::NotYet),
    }
}

/// Gives a register the word of the side that is evaluated last, after which both sides meet.
#[cycle(evaluation)]
fn give(words: &mut Words, side: &WExpr, to: Register, end: u32, scope: Scope) -> Answer<Operand>
    ensures operand { IfOk result (λ operand. operand ≡ At to) }
    ensures written { OnOk result (written words.new ≡ last_onto (part_of (expr_of side.now)) to end scope (written words.old)) }
{
    value(words, side, scope)?.put(words, to)?;
    words.label(end)?;
    Ok(Operand::At(to))
}

/// The word of an expression in a register.
pub(crate) fn in_register(words: &mut Words, expression: &WExpr, scope: Scope) -> Answer<Register>
    ensures register { IfOk result (λ register. register ≡ in_register_at (part_of (expr_of expression.now)) scope) }
    ensures written { OnOk result (written words.new ≡ in_register_onto (part_of (expr_of expression.now)) scope (written words.old)) }
{
    let word = value(words, expression, scope)?;
    word.register(words, scope.free()?)
}

/// The scope of a body in which the words of these expressions are bound.
#[cycle(evaluation)]
fn bind_all(words: &mut Words, values: &[WExpr], scope: Scope) -> Answer<Scope>
    ensures scope { IfOk result (λ inner. inner ≡ inner_scope (parts_of (exprs_of (map expr_of values.now))) scope) }
    ensures written { OnOk result (written words.new ≡ bound_onto (parts_of (exprs_of (map expr_of values.now))) 0 scope (written words.old)) }
{
    let mut kept = scope;
    let mut inner = Scope::new(scope.is_leaf);
    let mut number = 0usize;
    for each in values {
        let word = value(words, each, kept)?;
        let operand = held(words, word, kept)?;
        kept = kept.keeping(operand);
        inner.bind(number, operand)?;
        number = number.saturating_add(1);
    }
    Ok(kept.with_bound(inner))
}

/// The word so many bytes after an address. A small number that is added last is one of the distance.
#[cycle(evaluation)]
fn load(words: &mut Words, address: &WExpr, bytes: u32, scope: Scope) -> Answer<Operand>
    ensures operand { IfOk result (λ operand. operand ≡ At (free scope)) }
    ensures written { OnOk result (written words.new ≡ loaded_onto (part_of (expr_of address.now)) (pos bytes) scope (written words.old)) }
{
    let distance = i32::try_from(bytes)?;
    load_from(words, address, distance, scope)
}

/// The same for a distance of 32 bits.
#[cycle(evaluation)]
fn load_from(words: &mut Words, address: &WExpr, distance: i32, scope: Scope) -> Answer<Operand>
    ensures operand { IfOk result (λ operand. operand ≡ At (free scope)) }
    ensures written { OnOk result (written words.new ≡ loaded_onto (part_of (expr_of address.now)) distance scope (written words.old)) }
{
    match address {
        WExpr::Binary(op, base, last) => match added(*op, last, scope) {
            Some(number) => {
                let base = value(words, base, scope)?;
                load_word(words, base, distance.saturating_add(number), scope)
            }
            None => load_whole(words, address, distance, scope),
        },
        WExpr::Slot(_)
        | WExpr::Word(_)
        | WExpr::Hole(_, _)
        | WExpr::Load(_, _)
        | WExpr::Byte(_)
        | WExpr::If(_, _, _)
        | WExpr::Check(_, _, _)
        | WExpr::With(_, _)
        | WExpr::Bound(_) => load_whole(words, address, distance, scope),
    }
}

#[cycle(evaluation)]
fn load_whole(words: &mut Words, address: &WExpr, distance: i32, scope: Scope) -> Answer<Operand>
    ensures operand { IfOk result (λ operand. operand ≡ At (free scope)) }
    ensures written { OnOk result (written words.new ≡ loaded_whole_onto (part_of (expr_of address.now)) distance scope (written words.old)) }
{
    let address = value(words, address, scope)?;
    load_word(words, address, distance, scope)
}

/// Raises a trap where the condition is 0. One that is known to hold becomes no word.
#[cycle(evaluation)]
fn check(words: &mut Words, condition: &WExpr, trap: Trap, scope: Scope) -> Answer<()>
    ensures { OnOk result (written words.new ≡ check_onto (part_of (expr_of condition.now)) trap scope (written words.old)) }
{
    if is_held(known_of(condition, scope)) {
        return Ok(());
    }
    let holds = words.fresh()?;
    branch(words, condition, true, Target::near(holds), scope)?;
    raise_trap(words, trap, scope.is_leaf)?;
    words.label(holds)
}

/// Goes on at the target if the word isn't 0 where `sense` is true, and if it is 0 where `sense` is false.
#[cycle(evaluation)]
pub(crate) fn branch(
    words: &mut Words,
    condition: &WExpr,
    sense: bool,
    target: Target,
    scope: Scope,
) -> Answer<()>
    ensures { OnOk result (written words.new ≡ jump_of (part_of (expr_of condition.now)) sense target scope (written words.old)) }
{
    match known_of(condition, scope) {
        Some(word) => target.go_always(words, same(sense, word != 0)),
        None => jump(words, condition, sense, target, scope),
    }
}

/// The same on an expression that isn't known.
#[cycle(evaluation)]
fn jump(
    words: &mut Words,
    condition: &WExpr,
    sense: bool,
    target: Target,
    scope: Scope,
) -> Answer<()>
    ensures { OnOk result (written words.new ≡ (part_of (expr_of condition.now)).jump sense target scope (written words.old)) }
{
    match condition {
        WExpr::Binary(op, left, right) => match told_by(*op, left, right, scope) {
            Way::Left => branch(words, left, !sense, target, scope),
            Way::Right(is_same) => branch(words, right, same(sense, is_same), target, scope),
            Way::Both => {
                let op = *op;
                let left = value(words, left, scope)?;
                let right = value(words, right, scope.keeping(left))?;
                Comparison { op, left, right }.go(words, sense, target, scope)
            }
            Way::Word => jump_on_word(words, condition, sense, target, scope),
        },
        WExpr::If(first, second, other) => match short(second, other, scope) {
            Some(is_both) => {
                let around = words.fresh()?;
                let label = chosen(same(sense, is_both), around, target.label);
                branch(words, first, !is_both, Target::far(label), scope)?;
                if is_both {
                    branch_to(words, second, sense, target, around, scope)
                } else {
                    branch_to(words, other, sense, target, around, scope)
                }
            }
            None => jump_on_word(words, condition, sense, target, scope),
        },
        WExpr::Check(test, trap, word) => {
            check(words, test, *trap, scope)?;
            branch(words, word, sense, target, scope)
        }
        WExpr::With(values, body) => {
            let inner = bind_all(words, values.as_slice(), scope)?;
            branch(words, body, sense, target, inner)
        }
        WExpr::Slot(_)
        | WExpr::Word(_)
        | WExpr::Hole(_, _)
        | WExpr::Load(_, _)
        | WExpr::Byte(_)
        | WExpr::Bound(_) => jump_on_word(words, condition, sense, target, scope),
    }
}

/// The same, after which a label stands.
#[cycle(evaluation)]
fn branch_to(
    words: &mut Words,
    condition: &WExpr,
    sense: bool,
    target: Target,
    around: u32,
    scope: Scope,
) -> Answer<()>
    ensures { OnOk result (written words.new ≡ jump_to (part_of (expr_of condition.now)) sense target around scope (written words.old)) }
{
    branch(words, condition, sense, target, scope)?;
    words.label(around)
}

/// The same by a comparison of the word with 0.
#[cycle(evaluation)]
fn jump_on_word(
    words: &mut Words,
    condition: &WExpr,
    sense: bool,
    target: Target,
    scope: Scope,
) -> Answer<()>
    ensures { OnOk result (written words.new ≡ plain_jump (part_of (expr_of condition.now)) sense target scope (written words.old)) }
{
    let left = value(words, condition, scope)?;
    let right = Operand::Known(0);
    let op = WOp::Equal;
    Comparison { op, left, right }.go(words, !sense, target, scope)
}

/// Whether the word is wanted to be no 0, if it is so and it is wanted, or neither.
fn same(sense: bool, is_so: bool) -> bool
    ensures { result ≡ same_sense sense is_so }
{
    if is_so { sense } else { !sense }
}

fn is_held(known: Option<u64>) -> bool
    ensures { result ≡ holds_known known }
{
    match known {
        Some(word) => word != 0,
        None => false,
    }
}

fn chosen(is_first: bool, first: u32, second: u32) -> u32
    ensures { result ≡ (if is_first then first else second) }
{
    if is_first { first } else { second }
}

/// A word that is bound: a known one that no immediate holds goes into a register.
#[tactic(auto, unfolding(crate::specs::Evaluation::held, crate::specs::Evaluation::held_onto))]
fn held(words: &mut Words, operand: Operand, scope: Scope) -> Answer<Operand>
    ensures operand { IfOk result (λ held. held ≡ held_at operand scope) }
    ensures written { OnOk result (written words.new ≡ held_onto operand scope (written words.old)) }
{
    match operand {
        Operand::At(_) => Ok(operand),
        Operand::Known(word) => match small(word.cast_signed()) {
            Some(_) => Ok(operand),
            None => Ok(Operand::At(operand.register(words, scope.free()?)?)),
        },
    }
}

/// The word of a slot. Those of a routine without a frame are where its arguments are.
#[tactic(auto, unfolding(crate::specs::Evaluation::slot_onto))]
fn slot_word(words: &mut Words, slot: u32, scope: Scope) -> Answer<Operand>
    ensures operand { IfOk result (λ operand. operand ≡ At (free scope)) }
    ensures written { OnOk result (written words.new ≡ slot_onto slot scope (written words.old)) }
{
    let to = scope.free()?;
    if scope.is_leaf {
        load_at(words, to, Value, word_distance(slot)?)?;
        return Ok(Operand::At(to));
    }
    load_slot(words, to, slot)?;
    Ok(Operand::At(to))
}

/// What the linker knows is in a cell of the link table, is the address of one, or is the number of the hole itself.
#[tactic(auto, unfolding(crate::specs::Evaluation::hole_word_onto))]
fn hole_word(words: &mut Words, kind: HoleKind, number: u32, scope: Scope) -> Answer<Operand>
    ensures operand { IfOk result (λ operand. operand ≡ At (free scope)) }
    ensures written { OnOk result (written words.new ≡ hole_word_onto kind number scope (written words.old)) }
{
    let to = scope.free()?;
    words.hole(to, kind, number)?;
    cell(words, kind, to)?;
    Ok(Operand::At(to))
}

fn cell(words: &mut Words, kind: HoleKind, to: Register) -> Answer<()>
    ensures { OnOk result (written words.new ≡ cell_onto kind to (written words.old)) }
{
    match kind {
        HoleKind::Regions | HoleKind::Runtime | HoleKind::Code => Ok(()),
        HoleKind::TypeCell => words.three(Op::Add, to, to, Table),
        _ => {
            words.three(Op::Add, to, to, Table)?;
            words.ld(to, to, 0)
        }
    }
}

/// The word so many bytes from an address in a register.
#[tactic(auto, unfolding(crate::specs::Evaluation::load_word_onto))]
fn load_word(words: &mut Words, address: Operand, distance: i32, scope: Scope) -> Answer<Operand>
    ensures operand { IfOk result (λ operand. operand ≡ At (free scope)) }
    ensures written { OnOk result (written words.new ≡ load_word_onto address distance scope (written words.old)) }
{
    let to = scope.free()?;
    let base = address.register(words, to)?;
    load_at(words, to, base, distance)?;
    Ok(Operand::At(to))
}

#[tactic(auto, unfolding(crate::specs::Evaluation::byte_at_onto))]
fn load_byte(words: &mut Words, address: Operand, scope: Scope) -> Answer<Operand>
    ensures operand { IfOk result (λ operand. operand ≡ At (free scope)) }
    ensures written { OnOk result (written words.new ≡ byte_at_onto address scope (written words.old)) }
{
    let to = scope.free()?;
    let base = address.register(words, to)?;
    words.load(Op::Lbu, to, base, 0)?;
    Ok(Operand::At(to))
}
