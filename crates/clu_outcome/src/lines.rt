//! The lines of outcomes, and the one place that turns an outcome into its line and its status.

ghost use Rattle.std.specs.Prelude.{◌≡◌, ◌<◌, ◌≤◌, ◌⊎◌, ◌++◌, All, length, OnOk, OnErr, decimal};
ghost use Rattle.clu_base.specs.Outside.{appended, GrewWithin, Rose};
ghost use Rattle.clu_base.specs.Rules.{name_of};
ghost use Rattle.clu_outcome.specs.Outcome.{IsTold, detail_of, difference_text, entries_text, hexadecimal_of, line_of, mark_text, place_text, refused_text, revisions_text, rule_text, stale_text, traced_text};

use crate::outcome::Outcome;
use clu_base::{Failed, Place, Refused, Rule, Sink, write_all};
use clu_build::{Difference, StaleBody};
use clu_trace::{Trace, TraceMap};
use itoa::Buffer;

// Sixteen lower-case hexadecimal digits of a number, the highest first.
fn write_hexadecimal<E: Sink>(errors: &mut E, n: u64) -> Result<(), Failed>
    ensures counts { E.faults errors.old ≤ E.faults errors.new }
    ensures failed { OnErr result (Rose (E.faults errors.old) (E.faults errors.new)) }
    ensures whole { OnOk result (E.written errors.new ≡ appended (E.written errors.old) (hexadecimal_of n)) }
    ensures part { OnErr result (GrewWithin (E.written errors.old) (E.written errors.new) (hexadecimal_of n)) }
{
    let mut digits = [0; 16];
    match hex::encode_to_slice(n.to_be_bytes(), &mut digits) {
        Ok(()) => write_all(errors, &digits),
        Err(_) => unreachable!(),
    }
}

// The decimal digits of a number.
fn write_decimal<E: Sink>(errors: &mut E, n: u64) -> Result<(), Failed>
    ensures counts { E.faults errors.old ≤ E.faults errors.new }
    ensures failed { OnErr result (Rose (E.faults errors.old) (E.faults errors.new)) }
    ensures whole { OnOk result (E.written errors.new ≡ appended (E.written errors.old) (decimal n)) }
    ensures part { OnErr result (GrewWithin (E.written errors.old) (E.written errors.new) (decimal n)) }
{
    write_all(errors, Buffer::new().format(n).as_bytes())
}

/// What stands before a part of a refusal's lines.
#[derive(Clone, Copy)]
enum Mark {
    /// Before a line or a column.
    Place,
    /// Before a rule's number.
    Rule,
    /// Before a rule's name.
    Name,
    /// Before a line of its own.
    Line,
    /// Before the module by which a body is stale.
    By,
    /// Before the revision at which that module's specification was replaced.
    Changed,
    /// Before the revision at which the body was checked.
    Checked,
    /// Before an instance that was live.
    Live,
}

impl Mark {
    #[tactic(auto, unfolding(crate::specs::Outcome::mark_text))]
    fn text(self) -> &'static str
        ensures { result.now ≡ mark_text self }
    {
        match self {
            Mark::Place => ":",
            Mark::Rule => ": V",
            Mark::Name => " ",
            Mark::Line => "\n",
            Mark::By => ": ",
            Mark::Changed => " changed at ",
            Mark::Checked => ", checked at ",
            Mark::Live => "\nat ",
        }
    }
}

// A mark and a number after it.
#[tactic(auto, using(clu_base::proofs::Written::laws))]
fn write_numbered<E: Sink>(errors: &mut E, mark: Mark, n: u64) -> Result<(), Failed>
    ensures counts { E.faults errors.old ≤ E.faults errors.new }
    ensures failed { OnErr result (Rose (E.faults errors.old) (E.faults errors.new)) }
    ensures whole { OnOk result (E.written errors.new ≡ appended (E.written errors.old) (mark_text mark ++ decimal n)) }
    ensures part { OnErr result (GrewWithin (E.written errors.old) (E.written errors.new) (mark_text mark ++ decimal n)) }
{
    write_all(errors, mark.text().as_bytes())?;
    write_decimal(errors, n)
}

// The file, line and column of a place.
#[tactic(auto, using(clu_base::proofs::Written::laws))]
fn write_place<E: Sink>(errors: &mut E, name: &str, place: Place) -> Result<(), Failed>
    ensures counts { E.faults errors.old ≤ E.faults errors.new }
    ensures failed { OnErr result (Rose (E.faults errors.old) (E.faults errors.new)) }
    ensures whole { OnOk result (E.written errors.new ≡ appended (E.written errors.old) (place_text name.now place)) }
    ensures part { OnErr result (GrewWithin (E.written errors.old) (E.written errors.new) (place_text name.now place)) }
{
    write_all(errors, name.as_bytes())?;
    write_numbered(errors, Mark::Place, place.line as u64)?;
    write_numbered(errors, Mark::Place, place.col as u64)
}

// The number and name of a rule.
#[tactic(auto, using(clu_base::proofs::Written::laws))]
fn write_rule<E: Sink>(errors: &mut E, rule: Rule) -> Result<(), Failed>
    ensures counts { E.faults errors.old ≤ E.faults errors.new }
    ensures failed { OnErr result (Rose (E.faults errors.old) (E.faults errors.new)) }
    ensures whole { OnOk result (E.written errors.new ≡ appended (E.written errors.old) (rule_text rule)) }
    ensures part { OnErr result (GrewWithin (E.written errors.old) (E.written errors.new) (rule_text rule)) }
{
    write_numbered(errors, Mark::Rule, rule.number() as u64)?;
    write_rule_name(errors, rule)
}

#[tactic(auto, using(clu_base::proofs::Written::laws))]
fn write_rule_name<E: Sink>(errors: &mut E, rule: Rule) -> Result<(), Failed>
    ensures counts { E.faults errors.old ≤ E.faults errors.new }
    ensures failed { OnErr result (Rose (E.faults errors.old) (E.faults errors.new)) }
    ensures whole { OnOk result (E.written errors.new ≡ appended (E.written errors.old) (mark_text Mark.Name ++ name_of rule)) }
    ensures part { OnErr result (GrewWithin (E.written errors.old) (E.written errors.new) (mark_text Mark.Name ++ name_of rule)) }
{
    write_all(errors, Mark::Name.text().as_bytes())?;
    write_all(errors, rule.name().as_bytes())
}

#[tactic(auto, using(clu_base::proofs::Written::laws))]
fn write_refused<E: Sink>(errors: &mut E, name: &str, refused: &Refused) -> Result<(), Failed>
    ensures counts { E.faults errors.old ≤ E.faults errors.new }
    ensures failed { OnErr result (Rose (E.faults errors.old) (E.faults errors.new)) }
    ensures whole { OnOk result (E.written errors.new ≡ appended (E.written errors.old) (refused_text name.now refused.now)) }
    ensures part { OnErr result (GrewWithin (E.written errors.old) (E.written errors.new) (refused_text name.now refused.now)) }
{
    write_place(errors, name, refused.place)?;
    write_rule(errors, refused.rule)
}

// A mark and a text after it.
#[tactic(auto, using(clu_base::proofs::Written::laws))]
fn write_marked<E: Sink>(errors: &mut E, mark: Mark, text: &[u8]) -> Result<(), Failed>
    ensures counts { E.faults errors.old ≤ E.faults errors.new }
    ensures failed { OnErr result (Rose (E.faults errors.old) (E.faults errors.new)) }
    ensures whole { OnOk result (E.written errors.new ≡ appended (E.written errors.old) (mark_text mark ++ text.now)) }
    ensures part { OnErr result (GrewWithin (E.written errors.old) (E.written errors.new) (mark_text mark ++ text.now)) }
{
    write_all(errors, mark.text().as_bytes())?;
    write_all(errors, text)
}

// A module's name, and the texts of both specifications on lines of their own.
#[tactic(auto, using(clu_base::proofs::Written::laws))]
fn write_difference<E: Sink>(errors: &mut E, difference: &Difference) -> Result<(), Failed>
    ensures counts { E.faults errors.old ≤ E.faults errors.new }
    ensures failed { OnErr result (Rose (E.faults errors.old) (E.faults errors.new)) }
    ensures whole { OnOk result (E.written errors.new ≡ appended (E.written errors.old) (difference_text difference.now)) }
    ensures part { OnErr result (GrewWithin (E.written errors.old) (E.written errors.new) (difference_text difference.now)) }
{
    write_all(errors, difference.name.as_slice())?;
    write_marked(errors, Mark::Line, difference.kept.as_slice())?;
    write_marked(errors, Mark::Line, difference.given.as_slice())
}

// The revisions by which a body is stale.
#[tactic(auto, using(clu_base::proofs::Written::laws), unfolding(crate::specs::Outcome::revisions_text))]
fn write_revisions<E: Sink>(errors: &mut E, changed: u32, checked: u32) -> Result<(), Failed>
    ensures counts { E.faults errors.old ≤ E.faults errors.new }
    ensures failed { OnErr result (Rose (E.faults errors.old) (E.faults errors.new)) }
    ensures whole { OnOk result (E.written errors.new ≡ appended (E.written errors.old) (revisions_text changed checked)) }
    ensures part { OnErr result (GrewWithin (E.written errors.old) (E.written errors.new) (revisions_text changed checked)) }
{
    write_numbered(errors, Mark::Changed, changed as u64)?;
    write_numbered(errors, Mark::Checked, checked as u64)
}

// A module's name, the module by which its body is stale, and the revisions.
#[tactic(auto, using(clu_base::proofs::Written::laws))]
fn write_stale<E: Sink>(errors: &mut E, stale: &StaleBody) -> Result<(), Failed>
    ensures counts { E.faults errors.old ≤ E.faults errors.new }
    ensures failed { OnErr result (Rose (E.faults errors.old) (E.faults errors.new)) }
    ensures whole { OnOk result (E.written errors.new ≡ appended (E.written errors.old) (stale_text stale.now)) }
    ensures part { OnErr result (GrewWithin (E.written errors.old) (E.written errors.new) (stale_text stale.now)) }
{
    write_all(errors, stale.name.as_slice())?;
    write_marked(errors, Mark::By, stale.by.as_slice())?;
    write_revisions(errors, stale.changed, stale.checked)
}

// The entries of a trace.
#[tactic(auto, using(clu_base::proofs::Written::laws))]
fn write_entries<E: Sink>(errors: &mut E, map: &TraceMap, entries: &[u32]) -> Result<(), Failed>
    requires { All (λ n. n < length map.now.names) entries.now }
    ensures counts { E.faults errors.old ≤ E.faults errors.new }
    ensures failed { OnErr result (Rose (E.faults errors.old) (E.faults errors.new)) }
    ensures whole { OnOk result (E.written errors.new ≡ appended (E.written errors.old) (entries_text map.now.names entries.now)) }
    ensures part { OnErr result (GrewWithin (E.written errors.old) (E.written errors.new) (entries_text map.now.names entries.now)) }
{
    for n in entries {
        write_marked(errors, Mark::Live, map.name(*n).as_slice())?;
    }
    Ok(())
}

// The text of a failure, and the trace of its run.
#[tactic(auto, using(clu_base::proofs::Written::laws))]
fn write_traced<E: Sink>(errors: &mut E, text: &[u8], trace: &Trace) -> Result<(), Failed>
    ensures counts { E.faults errors.old ≤ E.faults errors.new }
    ensures failed { OnErr result (Rose (E.faults errors.old) (E.faults errors.new)) }
    ensures whole { OnOk result (E.written errors.new ≡ appended (E.written errors.old) (traced_text text.now trace.now)) }
    ensures part { OnErr result (GrewWithin (E.written errors.old) (E.written errors.new) (traced_text text.now trace.now)) }
{
    write_all(errors, text)?;
    write_entries(errors, trace.map(), trace.entries())
}

// What the line tells of this outcome, after its text.
#[tactic(auto, using(clu_base::proofs::Written::laws))]
fn write_detail<E: Sink>(errors: &mut E, outcome: &Outcome<'_>) -> Result<(), Failed>
    ensures counts { E.faults errors.old ≤ E.faults errors.new }
    ensures failed { OnErr result (Rose (E.faults errors.old) (E.faults errors.new)) }
    ensures whole { OnOk result (E.written errors.new ≡ appended (E.written errors.old) (detail_of outcome.now)) }
    ensures part { OnErr result (GrewWithin (E.written errors.old) (E.written errors.new) (detail_of outcome.now)) }
{
    match outcome {
        Outcome::Failure(text) => write_all(errors, text),
        Outcome::Traced(text, trace) => write_traced(errors, text, trace),
        Outcome::NoFile(name)
        | Outcome::NoProgram(name)
        | Outcome::FileFault(name)
        | Outcome::SourceTooLarge(name) => write_all(errors, name.as_bytes()),
        Outcome::NoModule(name)
        | Outcome::NoBody(name)
        | Outcome::BadStart(name)
        | Outcome::SpecNeeded(name)
        | Outcome::Misfit(name) => write_all(errors, name),
        Outcome::SpecDiffers(difference) => write_difference(errors, difference),
        Outcome::Stale(stale) => write_stale(errors, stale),
        Outcome::Refused(name, refused) => write_refused(errors, name, refused),
        Outcome::BadInstruction(at) | Outcome::BadAccess(at) | Outcome::BadJump(at) => {
            write_hexadecimal(errors, *at)
        }
        Outcome::BadEcall(n) | Outcome::LibraryBad(n) | Outcome::ImageBad(n) | Outcome::AsmBad(n) =>
            write_decimal(errors, *n),
        Outcome::Done
        | Outcome::Usage
        | Outcome::StoreFull
        | Outcome::StackFull
        | Outcome::StepsSpent
        | Outcome::TooManyInstances
        | Outcome::ProgramTooLarge
        | Outcome::LibraryFull
        | Outcome::ReadFault
        | Outcome::WriteFault
        | Outcome::Memory
        | Outcome::NotYet => Ok(()),
    }
}

#[tactic(auto, using(clu_base::proofs::Written::laws))]
fn write_line<E: Sink>(errors: &mut E, outcome: &Outcome<'_>) -> Result<(), Failed>
    ensures counts { E.faults errors.old ≤ E.faults errors.new }
    ensures failed { OnErr result (Rose (E.faults errors.old) (E.faults errors.new)) }
    ensures whole { OnOk result (E.written errors.new ≡ appended (E.written errors.old) (line_of outcome.now)) }
    ensures part { OnErr result (GrewWithin (E.written errors.old) (E.written errors.new) (line_of outcome.now)) }
{
    write_all(errors, outcome.text().as_bytes())?;
    write_detail(errors, outcome)?;
    write_all(errors, outcome.line_end().as_bytes())
}

/// Writes the line of an outcome to the errors and gives its status: 23 in place of its own where
/// the line could not be written. `Done` has no line.
pub fn report<E: Sink>(errors: &mut E, outcome: &Outcome<'_>) -> u8
    ensures counts { E.faults errors.old ≤ E.faults errors.new }
    ensures told { IsTold outcome.now result (E.written errors.old) (E.written errors.new) (E.faults errors.old) (E.faults errors.new) }
{
    match write_line(errors, outcome) {
        Ok(()) => outcome.status(),
        Err(_) => 23,
    }
}
