//! A trace: it looks at a machine before each step.

ghost use Rattle.std.specs.Prelude.{◌≡◌, ◌<◌, ◌≤◌, ◌+◌, ◌/◌, All, [], length, IfOk};
ghost use Rattle.clu_trace.specs.Traces.{raised as raising, raised_at, watched};

use crate::live::add_live;
use crate::map::TraceMap;
use crate::place::Place;
use crate::registers::Register;
use clu_base::Memory;
use rv_machine::{Limits, Machine};
use std::alloc::Global;
use std::marker::Model;

/// The instances that were live at the last raise of a run.
#[derive(Drop)]
pub struct Trace {
    map: TraceMap,
    /// The bytes of the stack.
    stack: u64,
    /// The numbers of their names.
    entries: Vec<u32>,
}

impl Model for Trace {
    ghost use Rattle.std.specs.Prelude.{◌<◌, ◌≤◌, All, length, vec_capacity};
    ghost use Rattle.clu_trace.specs.Traces.{Watched};

    ghost Value = { Watched };

    ghost view = { λ t. record { map = t.map; stack = t.stack; room = vec_capacity t.entries; entries = t.entries.items } };

    ghost invariant = { λ t. (t.stack ≤ 0x4000000) × All (λ n. n < length t.map.names) t.entries.items };
}

impl Trace {
    /// A trace of no raise, for runs within these limits of an image with this map. It takes all the memory that it needs,
    /// an entry for each word of the stack and one more, and the only error is that memory runs out.
    pub fn new(alloc: Global, map: TraceMap, limits: Limits) -> Result<Trace, Memory>
        ensures { IfOk result (λ t. t ≡ record { map = map; stack = limits.stack; room = limits.stack / 8 + 1; entries = [] }) }
    {
        let words = limits.stack() / 8;
        Ok(Trace {
            map,
            stack: limits.stack(),
            entries: Vec::with_capacity(alloc, words as usize + 1)?,
        })
    }

    /// Looks at the machine before its next step. It takes no memory.
    pub fn watch(&mut self, m: &Machine)
        requires { self.old.stack ≤ length m.now.state.stack }
        ensures { self.new ≡ watched self.old m.now.state }
    {
        if m.pc() == self.map.search && m.reg(Register::Frame.reg()) != 0 {
            self.raised(m);
        }
    }

    /// Notes what is live where an exception is raised.
    #[tactic(auto, using(crate::proofs::Entries::laws))]
    fn raised(&mut self, m: &Machine)
        requires { self.old.stack ≤ length m.now.state.stack }
        ensures { self.new ≡ raising self.old m.now.state }
    {
        self.entries.clear();
        add_live(
            &mut self.entries,
            &self.map,
            m,
            self.stack,
            raising_place(m),
        );
    }

    /// The numbers of the names of the instances that were live at the last raise, the latest begun first. There are none
    /// where no exception was raised in a frame.
    pub fn entries(&self) -> &[u32]
        ensures entries { result.now ≡ self.now.entries }
        ensures known { All (λ n. n < length self.now.map.names) result.now }
    {
        self.entries.as_slice()
    }

    pub fn map(&self) -> &TraceMap
        ensures { result.now ≡ self.now.map }
    {
        &self.map
    }
}

/// Where an exception is raised.
fn raising_place(m: &Machine) -> Place
    ensures { result ≡ raised_at m.now.state }
{
    Place {
        frame: m.reg(Register::Frame.reg()),
        top: m.reg(Register::Top.reg()),
        table: m.reg(Register::Table.reg()),
    }
}
