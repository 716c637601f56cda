//! The machine: a hart, the calls of its environment over a source of input and a sink of output, and
//! how the run ended.

ghost use Rattle.std.specs.Prelude.{◌≡◌, ◌≢◌, ◌≤◌, ℕ, List, None, Some, Err, IfOk, IfErr, IsSome, unwrap_or};
ghost use Rattle.std.specs.Int.{w64};
ghost use Rattle.clu_base.specs.Outside.{Rose};
ghost use Rattle.rv_machine.specs.State.{State, read_at, register};

use crate::call::Call;
use crate::ending::Ending;
use crate::hart::Hart;
use crate::intake::Intake;
use crate::limits::Limits;
use crate::trap::Trap;
use clu_base::{Memory, Sink, Source, write_all};
use rv_isa::{Image, Reg};
use std::alloc::Global;
use std::marker::Model;

/// A run of an image.
#[derive(Drop)]
pub struct Machine {
    hart: Hart,
    intake: Intake,
    ended: Option<Ending>,
}

impl Model for Machine {
    ghost use Rattle.std.specs.Prelude.{◌≢◌, Some};
    ghost use Rattle.rv_machine.specs.declared.ending.Ending.TheVariants.{StepsSpent};
    ghost use Rattle.rv_machine.specs.Snapshot.{Snapshot};

    ghost Value = { Snapshot };

    ghost view = { λ m. record { state = m.hart; kept = m.intake; ended = m.ended } };

    ghost invariant = { λ m. m.ended ≢ Some StepsSpent };
}

impl Machine {
    ghost use Rattle.rv_machine.specs.Calls.{failed, wrote, took, peeked, served, call_of, range_of, bytes_at};
    ghost use Rattle.rv_machine.specs.Emulation.{trapped, stepped, emulated};
    ghost use Rattle.rv_machine.specs.Input.{input_left};
    ghost use Rattle.rv_machine.specs.Snapshot.{Snapshot, fresh, configuration, from_pc, gone, HasText, Does, Reads, Writes};

    /// The machine as a run of the image with these limits starts. It takes all the memory of the
    /// run, and the only error is that memory runs out.
    pub fn new(alloc: Global, image: &Image, limits: Limits) -> Result<Machine, Memory>
        ensures { IfOk result (λ m. m ≡ fresh image.now limits) }
    {
        Ok(Machine {
            hart: Hart::new(alloc, image, limits)?,
            intake: Intake::new(alloc)?,
            ended: None,
        })
    }

    /// The address of the instruction that comes next.
    pub fn pc(&self) -> u64
        ensures { result ≡ self.now.state.pc }
    {
        self.hart.pc()
    }

    /// The number in a register.
    pub fn reg(&self, r: Reg) -> u64
        ensures { result ≡ register self.now.state r }
    {
        self.hart.register(r)
    }

    /// The eight bytes at an address as a number, lowest byte first. The address is a multiple of 8
    /// inside one region.
    pub fn word(&self, at: u64) -> u64
        requires { IsSome (read_at w64 self.now.state at) }
        ensures { Some result ≡ read_at w64 self.now.state at }
    {
        self.hart.word(at)
    }

    /// The `count` bytes at an address, as `Ending::Failure` names them. They lie inside one region.
    pub fn text(&self, at: u64, count: u64) -> &[u8]
        requires { IsSome (bytes_at self.now.state at count) }
        ensures { Some result.now ≡ bytes_at self.now.state at count }
    {
        self.hart.range(at, count).unwrap()
    }

    /// One step. The answer is how the run ended, if it did, now or before. After it ended a call
    /// answers the ending again and does nothing.
    ///
    /// `ReadFault` and `WriteFault` come only where the count of faults of the input or the output
    /// rose in this call, or where the run had ended so before.
    #[inline(always)]
    pub fn step<S: Source, K: Sink>(&mut self, input: &mut S, output: &mut K) -> Option<Ending>
        ensures did { Does (λ i o. stepped (configuration self.old i o)) self.old (S.left input.old) (K.written output.old) self.new (S.left input.new) (K.written output.new) }
        ensures answer { result ≡ self.new.ended }
        ensures not_spent { result ≢ Some Ending.StepsSpent }
        ensures text { self.old.ended ≡ None → HasText result self.new.state }

        // After the end nothing happens.
        ensures stays { IsSome self.old.ended → self.new ≡ self.old }
        ensures input_stays { IsSome self.old.ended → input.new ≡ input.old }
        ensures output_stays { IsSome self.old.ended → output.new ≡ output.old }

        // A fault comes only where the count rose.
        ensures reads { S.faults input.old ≤ S.faults input.new }
        ensures writes { K.faults output.old ≤ K.faults output.new }
        ensures read_fault { self.old.ended ≡ None → result ≡ Some Ending.ReadFault → Rose (S.faults input.old) (S.faults input.new) }
        ensures write_fault { self.old.ended ≡ None → result ≡ Some Ending.WriteFault → Rose (K.faults output.old) (K.faults output.new) }
    {
        if let Some(ending) = self.ended {
            return Some(ending);
        }
        let pc = self.hart.pc();
        match self.go(pc, input, output) {
            Ok(next) => {
                self.hart.set_pc(next);
                None
            }
            Err(ending) => Some(ending),
        }
    }

    /// At most this many steps. The answer is how the run ended, now or before, and `StepsSpent`
    /// exactly where so many steps were executed and none ended it. After it ended a call answers the
    /// ending again and does nothing.
    #[inline(never)]
    pub fn run<S: Source, K: Sink>(&mut self, steps: u64, input: &mut S, output: &mut K) -> Ending
        ensures did { Does (λ i o. emulated steps (configuration self.old i o)) self.old (S.left input.old) (K.written output.old) self.new (S.left input.new) (K.written output.new) }
        ensures answer { result ≡ unwrap_or self.new.ended Ending.StepsSpent }
        ensures spent { result ≡ Ending.StepsSpent → self.new.ended ≡ None }
        ensures text { self.old.ended ≡ None → HasText (Some result) self.new.state }

        // After the end nothing happens.
        ensures stays { IsSome self.old.ended → self.new ≡ self.old }
        ensures input_stays { IsSome self.old.ended → input.new ≡ input.old }
        ensures output_stays { IsSome self.old.ended → output.new ≡ output.old }

        // A fault comes only where the count rose.
        ensures reads { S.faults input.old ≤ S.faults input.new }
        ensures writes { K.faults output.old ≤ K.faults output.new }
        ensures read_fault { self.old.ended ≡ None → result ≡ Ending.ReadFault → Rose (S.faults input.old) (S.faults input.new) }
        ensures write_fault { self.old.ended ≡ None → result ≡ Ending.WriteFault → Rose (K.faults output.old) (K.faults output.new) }
    {
        if let Some(ending) = self.ended {
            return ending;
        }
        let mut pc = self.hart.pc();
        for done in 0..steps {
            match self.go(pc, input, output) {
                Ok(next) => pc = next,
                Err(ending) => return ending,
            }
        }
        self.hart.set_pc(pc);
        Ending::StepsSpent
    }

    fn end(&mut self, ending: Ending) -> Option<Ending>
        requires { ending ≢ Ending.StepsSpent }
        ensures ended { self.new ≡ record self.old { ended = Some ending } }
        ensures answer { result ≡ Some ending }
    {
        self.ended = Some(ending);
        Some(ending)
    }

    fn fail(&mut self) -> Option<Ending>
        ensures did { (input output : List ℕ) → configuration self.new input output ≡ failed (range_of self.old.state) (configuration self.old input output) }
        ensures kept { self.new.kept ≡ self.old.kept }
        ensures answer { result ≡ self.new.ended }
        ensures not_spent { result ≢ Some Ending.StepsSpent }
        ensures text { HasText result self.new.state }
        ensures read_fault { result ≢ Some Ending.ReadFault }
        ensures write_fault { result ≢ Some Ending.WriteFault }
    {
        let at = self.hart.x(10);
        let count = self.hart.x(11);
        match self.hart.range(at, count) {
            Some(_) => self.end(Ending::Failure { at, count }),
            None => self.end(Ending::BadAccess { address: at }),
        }
    }

    fn write<K: Sink>(&mut self, output: &mut K) -> Option<Ending>
        requires { self.old.ended ≡ None }
        ensures did { Writes (λ i o. wrote (range_of self.old.state) (configuration self.old i o)) (K.written output.old) self.new (K.written output.new) }
        ensures kept { self.new.kept ≡ self.old.kept }
        ensures answer { result ≡ self.new.ended }
        ensures not_spent { result ≢ Some Ending.StepsSpent }
        ensures text { HasText result self.new.state }
        ensures writes { K.faults output.old ≤ K.faults output.new }
        ensures read_fault { result ≢ Some Ending.ReadFault }
        ensures write_fault { result ≡ Some Ending.WriteFault → Rose (K.faults output.old) (K.faults output.new) }
    {
        let at = self.hart.x(10);
        let count = self.hart.x(11);
        match self.hart.range(at, count) {
            Some(bytes) => match write_all(output, bytes) {
                Ok(()) => {
                    self.hart.advance();
                    None
                }
                Err(_) => self.end(Ending::WriteFault),
            },
            None => self.end(Ending::BadAccess { address: at }),
        }
    }

    fn take<S: Source>(&mut self, input: &mut S) -> Option<Ending>
        requires { self.old.ended ≡ None }
        ensures did { Reads (λ i o. took i (configuration self.old i o)) self.old (S.left input.old) self.new (S.left input.new) }
        ensures answer { result ≡ self.new.ended }
        ensures not_spent { result ≢ Some Ending.StepsSpent }
        ensures text { HasText result self.new.state }
        ensures reads { S.faults input.old ≤ S.faults input.new }
        ensures read_fault { result ≡ Some Ending.ReadFault → Rose (S.faults input.old) (S.faults input.new) }
        ensures write_fault { result ≢ Some Ending.WriteFault }
    {
        match self.intake.fill(input) {
            Ok(()) => match self.intake.first() {
                Some(byte) => {
                    self.intake.drop_first();
                    self.hart.answer(byte as u64);
                    None
                }
                None => {
                    self.hart.answer(u64::MAX);
                    None
                }
            },
            Err(_) => self.end(Ending::ReadFault),
        }
    }

    fn peek<S: Source>(&mut self, input: &mut S) -> Option<Ending>
        requires { self.old.ended ≡ None }
        ensures did { Reads (λ i o. peeked i (configuration self.old i o)) self.old (S.left input.old) self.new (S.left input.new) }
        ensures answer { result ≡ self.new.ended }
        ensures not_spent { result ≢ Some Ending.StepsSpent }
        ensures text { HasText result self.new.state }
        ensures reads { S.faults input.old ≤ S.faults input.new }
        ensures read_fault { result ≡ Some Ending.ReadFault → Rose (S.faults input.old) (S.faults input.new) }
        ensures write_fault { result ≢ Some Ending.WriteFault }
    {
        match self.intake.fill(input) {
            Ok(()) => match self.intake.first() {
                Some(byte) => {
                    self.hart.answer(byte as u64);
                    None
                }
                None => {
                    self.hart.answer(u64::MAX);
                    None
                }
            },
            Err(_) => self.end(Ending::ReadFault),
        }
    }

    fn call<S: Source, K: Sink>(&mut self, input: &mut S, output: &mut K) -> Option<Ending>
        requires { self.old.ended ≡ None }
        ensures did { Does (λ i o. served (call_of (register self.old.state 17)) (configuration self.old i o)) self.old (S.left input.old) (K.written output.old) self.new (S.left input.new) (K.written output.new) }
        ensures answer { result ≡ self.new.ended }
        ensures not_spent { result ≢ Some Ending.StepsSpent }
        ensures text { HasText result self.new.state }
        ensures reads { S.faults input.old ≤ S.faults input.new }
        ensures writes { K.faults output.old ≤ K.faults output.new }
        ensures read_fault { result ≡ Some Ending.ReadFault → Rose (S.faults input.old) (S.faults input.new) }
        ensures write_fault { result ≡ Some Ending.WriteFault → Rose (K.faults output.old) (K.faults output.new) }
    {
        match Call::of(self.hart.x(17)) {
            Call::Return => self.end(Ending::Returned),
            Call::Fail => self.fail(),
            Call::StoreFull => self.end(Ending::StoreFull),
            Call::StackFull => self.end(Ending::StackFull),
            Call::Write => self.write(output),
            Call::Take => self.take(input),
            Call::Peek => self.peek(input),
            Call::Unknown(number) => self.end(Ending::BadEcall { number }),
        }
    }

    #[inline(never)]
    fn trapped<S: Source, K: Sink>(
        &mut self,
        trap: Trap,
        input: &mut S,
        output: &mut K,
    ) -> Option<Ending>
        requires { self.old.ended ≡ None }
        ensures did { Does (λ i o. trapped trap (configuration self.old i o)) self.old (S.left input.old) (K.written output.old) self.new (S.left input.new) (K.written output.new) }
        ensures answer { result ≡ self.new.ended }
        ensures not_spent { result ≢ Some Ending.StepsSpent }
        ensures text { HasText result self.new.state }
        ensures reads { S.faults input.old ≤ S.faults input.new }
        ensures writes { K.faults output.old ≤ K.faults output.new }
        ensures read_fault { result ≡ Some Ending.ReadFault → Rose (S.faults input.old) (S.faults input.new) }
        ensures write_fault { result ≡ Some Ending.WriteFault → Rose (K.faults output.old) (K.faults output.new) }
    {
        match trap {
            Trap::Instruction { pc } => self.end(Ending::BadInstruction { pc }),
            Trap::Access { address } => self.end(Ending::BadAccess { address }),
            Trap::Jump { target } => self.end(Ending::BadJump { target }),
            Trap::Call => self.call(input, output),
        }
    }

    /// One step from this pc in place of the hart's own; the answer is the next pc, or how the run ended.
    #[inline(always)]
    fn go<S: Source, K: Sink>(
        &mut self,
        pc: u64,
        input: &mut S,
        output: &mut K,
    ) -> Result<u64, Ending>
        requires { self.old.ended ≡ None }
        ensures did { Does (λ i o. stepped (configuration (from_pc pc self.old) i o)) (from_pc pc self.old) (S.left input.old) (K.written output.old) (gone result self.new) (S.left input.new) (K.written output.new) }
        ensures goes_on { IfOk result (λ _. self.new.ended ≡ None) }
        ensures ended { IfErr result (λ ending. self.new.ended ≡ Some ending) }
        ensures not_spent { IfErr result (λ ending. ending ≢ Ending.StepsSpent) }
        ensures text { IfErr result (λ ending. HasText (Some ending) self.new.state) }
        ensures reads { S.faults input.old ≤ S.faults input.new }
        ensures writes { K.faults output.old ≤ K.faults output.new }
        ensures read_fault { result ≡ Err Ending.ReadFault → Rose (S.faults input.old) (S.faults input.new) }
        ensures write_fault { result ≡ Err Ending.WriteFault → Rose (K.faults output.old) (K.faults output.new) }
    {
        match self.hart.step_at(pc) {
            Ok(next) => Ok(next),
            Err(trap) => {
                self.hart.set_pc(pc);
                match self.trapped(trap, input, output) {
                    None => Ok(self.hart.pc()),
                    Some(ending) => Err(ending),
                }
            }
        }
    }
}
