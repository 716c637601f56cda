//! The part of the runtime that searches for the arm of what was raised (CLU Reference Manual, section 12).
//!
//! It is entered with the return address after the place where the exception was raised, the place of the frame and the
//! link table there, the name and the address of the objects. In the table of the frame's routine, whose layout `regions_table` says, it
//! bisects the cuts and goes outward from region to region. At an arm it cuts the stack to the arm's mark. Where no arm
//! of the routine takes the exception it becomes failure, if it isn't failure, and the search goes on where the routine
//! was called. Outside all routines the run ends with the text of failure.

ghost use Rattle.std.specs.Prelude.{◌≡◌, IfOk, OnOk, codes};
ghost use Rattle.rv_select.specs.Finished.{blank};
ghost use Rattle.rv_select.specs.Runtime.{HasWords};
ghost use Rattle.rv_select.specs.Selected.{IsPart};
ghost use Rattle.rv_select.specs.Searching.{bisect_onto, bottom_onto, copy_bytes_onto, halve_onto, load_failure_onto, outward_onto, regions_onto, search_onto, take_arm_onto, take_store_onto, text_onto};
ghost use Rattle.rv_select.specs.Written.{written};

use crate::calls::{STORE_FULL, caller_frame};
use crate::error::{Answer, SelectError};
use crate::parts::{FAILURE, UNHANDLED, make_part};
use crate::register::Register;
use crate::register::Register::{
    A2, A3, A4, A5, Back, First, Frame, Second, StackEnd, Store, StoreEnd, T3, T4, T5, Table, Top,
    Value, Words as Objects, Zero,
};
use crate::words::Words;
use clu_object::ObjRoutine;
use clu_wir::HoleKind;
use rv_isa::Op;
use std::alloc::Global;

/// The labels of the part.
#[derive(Clone, Copy)]
enum Goal {
    Search,
    Bisect,
    Lower,
    Bisected,
    Region,
    Arm,
    Arms,
    Take,
    Outward,
    Leave,
    Bottom,
    Unhandled,
    Halt,
    Text,
    Prefix,
    Prefixed,
    Name,
    Named,
}

/// How many labels there are.
const GOALS: usize = 18;

/// The start of the stack region.
const STACK: i32 = 0x2000_0000;

/// The environment's call that ends a run as failed.
const FAILED: i32 = 1;

/// The part that searches for an arm. For a table of at most 8,001 cuts it comes to the arm, or to the next routine
/// outward, within `2048 + 256 * a` steps, where a is the number of arms that it looks at and of regions that it leaves,
/// and names have at most 200 bytes.
pub fn search_part(alloc: Global) -> Result<ObjRoutine, SelectError>
    ensures part { IfOk result (IsPart (codes "search")) }
    ensures words { IfOk result (HasWords (search_onto (blank 18))) }
{
    let mut words = Words::new(alloc, GOALS)?;
    search(&mut words)?;
    make_part(alloc, b"search", words)
}

#[tactic(auto, unfolding(crate::specs::Searching::search_onto))]
fn search(words: &mut Words) -> Answer<()>
    ensures { OnOk result (written words.new ≡ search_onto (written words.old)) }
{
    bisect(words)?;
    regions(words)?;
    take(words)?;
    outward(words)?;
    bottom(words)?;
    text(words)
}

/// From the return address to the region in which it was raised.
fn bisect(words: &mut Words) -> Answer<()>
    ensures { OnOk result (written words.new ≡ bisect_onto (written words.old)) }
{
    // The word where the part is entered is one that nothing inside jumps to, so that each raise is seen there.
    words.copy(Zero, Zero)?;
    // The place is in First, the address of the cut below it in Second, how many cuts are left in T3.
    words.label(Goal::Search as u32)?;
    words.go_unless(Op::Bne, Frame, Zero, Goal::Bottom as u32)?;
    words.addi(First, Back, -4)?;
    words.ld(Second, Table, 0)?;
    words.ld(T3, Second, 0)?;
    words.addi(Second, Second, 8)?;
    words.addi(A2, Zero, 1)?;
    words.label(Goal::Bisect as u32)?;
    words.go_unless(Op::Bltu, A2, T3, Goal::Bisected as u32)?;
    halve(words)?;
    words.label(Goal::Bisected as u32)?;
    words.ld(Second, Second, 8)
}

/// Half of the cuts that are left.
fn halve(words: &mut Words) -> Answer<()>
    ensures { OnOk result (written words.new ≡ halve_onto (written words.old)) }
{
    words.imm(Op::Srli, T4, T3, 1)?;
    words.imm(Op::Slli, T5, T4, 4)?;
    words.three(Op::Add, T5, T5, Second)?;
    words.ld(A3, T5, 0)?;
    words.go_unless(Op::Bgeu, First, A3, Goal::Lower as u32)?;
    words.copy(Second, T5)?;
    words.three(Op::Sub, T3, T3, T4)?;
    words.go(Goal::Bisect as u32)?;
    words.label(Goal::Lower as u32)?;
    words.copy(T3, T4)?;
    words.go(Goal::Bisect as u32)
}

/// From region to region outward; the row of the region, or 0, is in Second.
fn regions(words: &mut Words) -> Answer<()>
    ensures { OnOk result (written words.new ≡ regions_onto (written words.old)) }
{
    words.label(Goal::Region as u32)?;
    words.go_unless(Op::Bne, Second, Zero, Goal::Outward as u32)?;
    words.ld(First, Second, 8)?;
    words.ld(T3, Second, 16)?;
    words.label(Goal::Arm as u32)?;
    words.go_unless(Op::Bne, First, T3, Goal::Arms as u32)?;
    words.ld(T4, First, 0)?;
    words.go_unless(Op::Bne, T4, Zero, Goal::Take as u32)?;
    words.go_unless(Op::Bne, T4, Value, Goal::Take as u32)?;
    words.addi(First, First, 24)?;
    words.go(Goal::Arm as u32)?;
    words.label(Goal::Arms as u32)?;
    words.ld(Second, Second, 0)?;
    words.go(Goal::Region as u32)
}

/// The arm whose row is at First takes it.
fn take(words: &mut Words) -> Answer<()>
    ensures { OnOk result (written words.new ≡ take_arm_onto (written words.old)) }
{
    words.label(Goal::Take as u32)?;
    words.ld(Second, First, 8)?;
    words.ld(T3, First, 16)?;
    words.three(Op::Add, T3, T3, Frame)?;
    words.ld(Top, T3, 0)?;
    words.jalr(Zero, Second, 0)
}

/// No arm of the routine takes it: out of the frame. The place of the frame holds the object of a failure that is made
/// here, since nothing on the stack above it is wanted any more.
fn outward(words: &mut Words) -> Answer<()>
    ensures { OnOk result (written words.new ≡ outward_onto (written words.old)) }
{
    words.label(Goal::Outward as u32)?;
    load_failure(words)?;
    words.go_unless(Op::Bne, Value, Second, Goal::Leave as u32)?;
    words.jal(T5, Goal::Text as u32)?;
    words.ld(Back, Frame, 0)?;
    words.copy(Objects, Frame)?;
    caller_frame(words)?;
    words.sd(A2, Objects, 0)?;
    words.go(Goal::Search as u32)?;
    words.label(Goal::Leave as u32)?;
    words.ld(Back, Frame, 0)?;
    caller_frame(words)?;
    words.go(Goal::Search as u32)
}

/// Outside all routines: the run ends with the text of failure. A text that is made here goes to the start of the stack,
/// which nothing needs any more, and costs no store.
fn bottom(words: &mut Words) -> Answer<()>
    ensures { OnOk result (written words.new ≡ bottom_onto (written words.old)) }
{
    words.label(Goal::Bottom as u32)?;
    load_failure(words)?;
    words.go_unless(Op::Beq, Value, Second, Goal::Unhandled as u32)?;
    words.ld(A2, Objects, 0)?;
    words.go(Goal::Halt as u32)?;
    words.label(Goal::Unhandled as u32)?;
    words.upper(Op::Lui, Store, STACK)?;
    words.copy(StoreEnd, StackEnd)?;
    words.jal(T5, Goal::Text as u32)?;
    words.label(Goal::Halt as u32)?;
    words.ld(Objects, A2, 0)?;
    words.addi(Value, A2, 8)?;
    words.service(FAILED)
}

/// The runtime's table to First, and the name of failure to Second.
fn load_failure(words: &mut Words) -> Answer<()>
    ensures { OnOk result (written words.new ≡ load_failure_onto (written words.old)) }
{
    words.hole(First, HoleKind::Regions, 0)?;
    words.ld(Second, First, FAILURE)
}

/// Called with the link in T5: to A2 the address of the text of a failure that is made of the exception, and the name of
/// failure in place of the exception's.
fn text(words: &mut Words) -> Answer<()>
    ensures { OnOk result (written words.new ≡ text_onto (written words.old)) }
{
    words.label(Goal::Text as u32)?;
    words.ld(First, First, UNHANDLED)?;
    words.ld(T3, First, 0)?;
    words.ld(T4, Value, 0)?;
    words.three(Op::Add, A3, T3, T4)?;
    take_store(words)?;
    words.sd(A3, A2, 0)?;
    words.addi(A4, A2, 8)?;
    copy_bytes(words, First, T3, Goal::Prefix as u32, Goal::Prefixed as u32)?;
    copy_bytes(words, Value, T4, Goal::Name as u32, Goal::Named as u32)?;
    words.copy(Value, Second)?;
    words.jalr(Zero, T5, 0)
}

/// To A2 the address of a string of A3 bytes in the store.
fn take_store(words: &mut Words) -> Answer<()>
    ensures { OnOk result (written words.new ≡ take_store_onto (written words.old)) }
{
    words.addi(A4, A3, 15)?;
    words.imm(Op::Andi, A4, A4, -8)?;
    words.three(Op::Sub, A5, StoreEnd, Store)?;
    words.service_unless(Op::Bgeu, A5, A4, STORE_FULL)?;
    words.copy(A2, Store)?;
    words.three(Op::Add, Store, Store, A4)
}

/// Copies the bytes of a string of `count` bytes to A4 and on. Both registers are used up.
fn copy_bytes(
    words: &mut Words,
    string: Register,
    count: Register,
    next: u32,
    done: u32,
) -> Answer<()>
    ensures { OnOk result (written words.new ≡ copy_bytes_onto string count next done (written words.old)) }
{
    words.addi(string, string, 8)?;
    words.three(Op::Add, count, count, string)?;
    words.label(next)?;
    words.go_unless(Op::Bne, string, count, done)?;
    words.load(Op::Lbu, A5, string, 0)?;
    words.save(Op::Sb, A5, A4, 0)?;
    words.addi(string, string, 1)?;
    words.addi(A4, A4, 1)?;
    words.go(next)?;
    words.label(done)
}
