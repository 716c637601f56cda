//! Jumps that depend on a comparison.

ghost use Rattle.std.specs.Prelude.{◌≡◌, OnOk};
ghost use Rattle.rv_select.specs.Conditions.{always_onto, branching as branching_of, compared_onto, far, jump_onto, near};
ghost use Rattle.rv_select.specs.Written.{written};

use crate::combining::registers;
use crate::error::Answer;
use crate::operand::{Operand, Scope};
use crate::register::Register;
use crate::words::Words;
use clu_wir::WOp;
use rv_isa::Op;

/// Where a jump goes.
#[derive(Clone, Copy)]
pub struct Target {
    pub label: u32,
    /// Whether a branch after the last comparison reaches it.
    pub is_near: bool,
}

impl Target {
    pub(crate) fn near(label: u32) -> Target
        ensures { result ≡ near label }
    {
        Target {
            label,
            is_near: true,
        }
    }

    pub(crate) fn far(label: u32) -> Target
        ensures { result ≡ far label }
    {
        Target {
            label,
            is_near: false,
        }
    }

    /// Goes on there or not, as is known.
    pub(crate) fn go_always(self, words: &mut Words, is_so: bool) -> Answer<()>
        ensures { OnOk result (written words.new ≡ always_onto self is_so (written words.old)) }
    {
        if is_so { words.go(self.label) } else { Ok(()) }
    }

    /// Goes on there where the comparison of two registers holds, if `sense` is true, else where it doesn't hold.
    fn go(
        self,
        words: &mut Words,
        op: WOp,
        left: Register,
        right: Register,
        sense: bool,
    ) -> Answer<()>
        ensures { OnOk result (written words.new ≡ jump_onto op left right sense self (written words.old)) }
    {
        if self.is_near {
            words.branch(branching(op, sense), left, right, self.label)
        } else {
            words.go_unless(branching(op, !sense), left, right, self.label)
        }
    }
}

/// A comparison of two words.
#[derive(Clone, Copy)]
pub struct Comparison {
    pub op: WOp,
    pub left: Operand,
    pub right: Operand,
}

impl Comparison {
    /// Goes on at the target where it holds, if `sense` is true, else where it doesn't hold. The words go into registers.
    #[tactic(auto, unfolding(crate::specs::Conditions::compared_onto))]
    pub(crate) fn go(
        self,
        words: &mut Words,
        sense: bool,
        target: Target,
        scope: Scope,
    ) -> Answer<()>
        ensures { OnOk result (written words.new ≡ compared_onto self sense target scope (written words.old)) }
    {
        let (left, right) = registers(words, self.left, self.right, scope)?;
        target.go(words, self.op, left, right, sense)
    }
}

/// The branch where a comparison holds, if `sense` is true, else where it doesn't hold.
fn branching(op: WOp, sense: bool) -> Op
    ensures { result ≡ branching_of op sense }
{
    match op {
        WOp::Slt if sense => Op::Blt,
        WOp::Slt => Op::Bge,
        WOp::Sltu if sense => Op::Bltu,
        WOp::Sltu => Op::Bgeu,
        _ if sense => Op::Beq,
        _ => Op::Bne,
    }
}
