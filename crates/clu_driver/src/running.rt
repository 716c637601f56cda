//! Running an image on the machine, and what its ending comes to.

ghost use Rattle.std.specs.Prelude.{◌≡◌, ◌≤◌, ◌%◌, IsSome, true};
ghost use Rattle.std.specs.Option.{is_some};
ghost use Rattle.rv_machine.specs.Calls.{bytes_at};
ghost use Rattle.clu_words.specs.Command.{seen_limits};
ghost use Rattle.clu_driver.specs.Shows.{HasText, IsAsked, OutcomeOf, Reported, RunShows, untraced};
ghost use Rattle.clu_driver.specs.World.{streams_of};

use clu_base::{Memory, Sink, Source};
use clu_outcome::{Outcome, report};
use clu_trace::{Trace, TraceMap};
use clu_words::RunLimits;
use rv_isa::Image;
use rv_machine::{Ending, Limits, Machine};
use std::alloc::Global;

/// Runs an image within the limits and reports how it ended. From the first step on no memory is
/// taken.
pub fn run<S: Source, K: Sink, E: Sink>(
    alloc: Global,
    image: &Image,
    limits: RunLimits,
    input: &mut S,
    output: &mut K,
    errors: &mut E,
) -> u8
    ensures told { Reported (λ how. RunShows how image.now (seen_limits limits)
        (streams_of (S.left input.old) (S.faults input.old) (K.written output.old) (K.faults output.old))
        (streams_of (S.left input.new) (S.faults input.new) (K.written output.new) (K.faults output.new)))
        result (E.written errors.old) (E.written errors.new) (E.faults errors.old) (E.faults errors.new) }
{
    match Machine::new(alloc, image, sizes(limits)) {
        Ok(mut machine) => {
            let ending = machine.run(limits.steps, input, output);
            report(errors, &outcome(&machine, ending))
        }
        Err(Memory) => report(errors, &Outcome::Memory),
    }
}

/// Runs an image as `run` does. If a map of it is given, the run is traced.
pub fn run_with<S: Source, K: Sink, E: Sink>(
    alloc: Global,
    image: &Image,
    map: Option<TraceMap>,
    limits: RunLimits,
    input: &mut S,
    output: &mut K,
    errors: &mut E,
) -> u8
    ensures told { Reported (λ how. IsAsked how (is_some map) × RunShows (untraced how) image.now (seen_limits limits)
        (streams_of (S.left input.old) (S.faults input.old) (K.written output.old) (K.faults output.old))
        (streams_of (S.left input.new) (S.faults input.new) (K.written output.new) (K.faults output.new)))
        result (E.written errors.old) (E.written errors.new) (E.faults errors.old) (E.faults errors.new) }
{
    match map {
        Some(map) => run_traced(alloc, image, map, limits, input, output, errors),
        None => run(alloc, image, limits, input, output, errors),
    }
}

// Runs an image within the limits, traced, and reports how it ended. From the first step on no memory is taken.
fn run_traced<S: Source, K: Sink, E: Sink>(
    alloc: Global,
    image: &Image,
    map: TraceMap,
    limits: RunLimits,
    input: &mut S,
    output: &mut K,
    errors: &mut E,
) -> u8
    ensures told { Reported (λ how. IsAsked how true × RunShows (untraced how) image.now (seen_limits limits)
        (streams_of (S.left input.old) (S.faults input.old) (K.written output.old) (K.faults output.old))
        (streams_of (S.left input.new) (S.faults input.new) (K.written output.new) (K.faults output.new)))
        result (E.written errors.old) (E.written errors.new) (E.faults errors.old) (E.faults errors.new) }
{
    match Machine::new(alloc, image, sizes(limits)) {
        Ok(mut machine) => match Trace::new(alloc, map, sizes(limits)) {
            Ok(mut trace) => {
                let ending = trace.run(&mut machine, limits.steps, input, output);
                report(errors, &traced(&machine, &trace, ending))
            }
            Err(Memory) => report(errors, &Outcome::Memory),
        },
        Err(Memory) => report(errors, &Outcome::Memory),
    }
}

// The sizes of the regions.
fn sizes(limits: RunLimits) -> Limits
    ensures { result ≡ record { store = limits.store; stack = limits.stack } }
{
    match Limits::new(limits.store, limits.stack) {
        Some(sizes) => sizes,
        None => unreachable!(),
    }
}

// What the ending of a run that was traced comes to.
fn traced<'a>(machine: &'a Machine, trace: &'a Trace, ending: Ending) -> Outcome<'a>
    requires { HasText ending machine.now.state }
    ensures asked { IsAsked result true }
    ensures meant { OutcomeOf ending machine.now.state (untraced result) }
{
    match ending {
        Ending::Failure { at, count } => Outcome::Traced(machine.text(at, count), trace),
        _ => outcome(machine, ending),
    }
}

// What the ending of a run comes to.
fn outcome(machine: &Machine, ending: Ending) -> Outcome<'_>
    requires { HasText ending machine.now.state }
    ensures { OutcomeOf ending machine.now.state result }
{
    match ending {
        Ending::Returned => Outcome::Done,
        Ending::Failure { at, count } => Outcome::Failure(machine.text(at, count)),
        Ending::StoreFull => Outcome::StoreFull,
        Ending::StackFull => Outcome::StackFull,
        Ending::StepsSpent => Outcome::StepsSpent,
        Ending::BadInstruction { pc } => Outcome::BadInstruction(pc),
        Ending::BadAccess { address } => Outcome::BadAccess(address),
        Ending::BadJump { target } => Outcome::BadJump(target),
        Ending::BadEcall { number } => Outcome::BadEcall(number),
        Ending::ReadFault => Outcome::ReadFault,
        Ending::WriteFault => Outcome::WriteFault,
    }
}
