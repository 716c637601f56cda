//! A run that is watched.

ghost use Rattle.std.specs.Prelude.{◌≡◌, ◌≤◌, length, None, Some, unwrap_or};
ghost use Rattle.clu_base.specs.Outside.{Rose};
ghost use Rattle.rv_machine.specs.Emulation.{emulated};
ghost use Rattle.rv_machine.specs.Snapshot.{configuration, Does};

use crate::trace::Trace;
use clu_base::{Sink, Source};
use rv_machine::{Ending, Machine};

impl Trace {
    /// At most this many steps of a machine whose run has not ended, each of them watched. The run is the same as that of
    /// `Machine::run`, and so is the answer.
    pub fn run<S: Source, K: Sink>(
        &mut self,
        machine: &mut Machine,
        steps: u64,
        input: &mut S,
        output: &mut K,
    ) -> Ending
        requires live { machine.old.ended ≡ None }
        requires stack { self.old.stack ≤ length machine.old.state.stack }
        ensures did { Does (λ i o. emulated steps (configuration machine.old i o)) machine.old (S.left input.old) (K.written output.old) machine.new (S.left input.new) (K.written output.new) }
        ensures answer { result ≡ unwrap_or machine.new.ended Ending.StepsSpent }
        ensures spent { result ≡ Ending.StepsSpent → machine.new.ended ≡ None }
        ensures map { self.new.map ≡ self.old.map }

        // A fault comes only where the count rose.
        ensures reads { S.faults input.old ≤ S.faults input.new }
        ensures writes { K.faults output.old ≤ K.faults output.new }
        ensures read_fault { result ≡ Ending.ReadFault → Rose (S.faults input.old) (S.faults input.new) }
        ensures write_fault { result ≡ Ending.WriteFault → Rose (K.faults output.old) (K.faults output.new) }
    {
        for done in 0..steps {
            self.watch(machine);
            if let Some(ending) = machine.step(input, output) {
                return ending;
            }
        }
        Ending::StepsSpent
    }
}
