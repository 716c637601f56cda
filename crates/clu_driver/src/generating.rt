//! The command `gen`: writes a large valid source, whose run prints one number.

ghost use Rattle.std.specs.Prelude.{◌≡◌, ◌≤◌, ◌++◌, OnErr, OnOk, decimal};
ghost use Rattle.clu_base.specs.Outside.{GrewWithin, Rose, appended};
ghost use Rattle.clu_driver.specs.Generated.{call_text, end_text, generated_text, piece_text, procedure_text, repeated};
ghost use Rattle.clu_driver.specs.Commands.{GenShows};
ghost use Rattle.clu_driver.specs.Shows.{Reported};

use clu_base::{Failed, Sink, write_all};
use clu_outcome::{Outcome, report};
use itoa::Buffer;

/// Writes the source with this many procedures and reports how that ended.
pub fn generate<K: Sink, E: Sink>(procedures: u64, output: &mut K, errors: &mut E) -> u8
    ensures told { Reported (λ how. GenShows how procedures (K.written output.old) (K.written output.new) (K.faults output.old) (K.faults output.new))
        result (E.written errors.old) (E.written errors.new) (E.faults errors.old) (E.faults errors.new) }
{
    match write_source(procedures, output) {
        Ok(()) => report(errors, &Outcome::Done),
        Err(Failed) => report(errors, &Outcome::WriteFault),
    }
}

#[tactic(auto, using(clu_base::proofs::Written::laws))]
fn write_source<K: Sink>(procedures: u64, output: &mut K) -> Result<(), Failed>
    ensures counts { K.faults output.old ≤ K.faults output.new }
    ensures failed { OnErr result (Rose (K.faults output.old) (K.faults output.new)) }
    ensures whole { OnOk result (K.written output.new ≡ appended (K.written output.old) (generated_text procedures)) }
    ensures part { OnErr result (GrewWithin (K.written output.old) (K.written output.new) (generated_text procedures)) }
{
    write_procedures(procedures, output)?;
    write_all(output, Piece::Start.text().as_bytes())?;
    write_calls(procedures, output)?;
    write_all(output, Piece::End.text().as_bytes())
}

#[tactic(auto, using(clu_base::proofs::Written::laws))]
fn write_procedures<K: Sink>(procedures: u64, output: &mut K) -> Result<(), Failed>
    ensures counts { K.faults output.old ≤ K.faults output.new }
    ensures failed { OnErr result (Rose (K.faults output.old) (K.faults output.new)) }
    ensures whole { OnOk result (K.written output.new ≡ appended (K.written output.old) (repeated procedure_text procedures)) }
    ensures part { OnErr result (GrewWithin (K.written output.old) (K.written output.new) (repeated procedure_text procedures)) }
{
    for k in 0..procedures {
        write_procedure(k + 1, output)?;
    }
    Ok(())
}

#[tactic(auto, using(clu_base::proofs::Written::laws))]
fn write_calls<K: Sink>(procedures: u64, output: &mut K) -> Result<(), Failed>
    ensures counts { K.faults output.old ≤ K.faults output.new }
    ensures failed { OnErr result (Rose (K.faults output.old) (K.faults output.new)) }
    ensures whole { OnOk result (K.written output.new ≡ appended (K.written output.old) (repeated call_text procedures)) }
    ensures part { OnErr result (GrewWithin (K.written output.old) (K.written output.new) (repeated call_text procedures)) }
{
    for k in 0..procedures {
        write_call(k + 1, output)?;
    }
    Ok(())
}

#[tactic(auto, using(clu_base::proofs::Written::laws))]
fn write_procedure<K: Sink>(k: u64, output: &mut K) -> Result<(), Failed>
    ensures counts { K.faults output.old ≤ K.faults output.new }
    ensures failed { OnErr result (Rose (K.faults output.old) (K.faults output.new)) }
    ensures whole { OnOk result (K.written output.new ≡ appended (K.written output.old) (procedure_text k)) }
    ensures part { OnErr result (GrewWithin (K.written output.old) (K.written output.new) (procedure_text k)) }
{
    write_numbered(Piece::Name, k, output)?;
    write_numbered(Piece::Heading, k, output)?;
    write_end(k, output)
}

// The rest of a procedure after its heading.
#[tactic(auto, using(clu_base::proofs::Written::laws))]
fn write_end<K: Sink>(k: u64, output: &mut K) -> Result<(), Failed>
    ensures counts { K.faults output.old ≤ K.faults output.new }
    ensures failed { OnErr result (Rose (K.faults output.old) (K.faults output.new)) }
    ensures whole { OnOk result (K.written output.new ≡ appended (K.written output.old) (end_text k)) }
    ensures part { OnErr result (GrewWithin (K.written output.old) (K.written output.new) (end_text k)) }
{
    write_numbered(Piece::Body, k, output)?;
    write_all(output, b"\n")
}

#[tactic(auto, using(clu_base::proofs::Written::laws))]
fn write_call<K: Sink>(k: u64, output: &mut K) -> Result<(), Failed>
    ensures counts { K.faults output.old ≤ K.faults output.new }
    ensures failed { OnErr result (Rose (K.faults output.old) (K.faults output.new)) }
    ensures whole { OnOk result (K.written output.new ≡ appended (K.written output.old) (call_text k)) }
    ensures part { OnErr result (GrewWithin (K.written output.old) (K.written output.new) (call_text k)) }
{
    write_numbered(Piece::Call, k, output)?;
    write_all(output, b"(x)\n")
}

// A piece and a number after it.
#[tactic(auto, using(clu_base::proofs::Written::laws))]
fn write_numbered<K: Sink>(piece: Piece, k: u64, output: &mut K) -> Result<(), Failed>
    ensures counts { K.faults output.old ≤ K.faults output.new }
    ensures failed { OnErr result (Rose (K.faults output.old) (K.faults output.new)) }
    ensures whole { OnOk result (K.written output.new ≡ appended (K.written output.old) (piece_text piece ++ decimal k)) }
    ensures part { OnErr result (GrewWithin (K.written output.old) (K.written output.new) (piece_text piece ++ decimal k)) }
{
    write_all(output, piece.text().as_bytes())?;
    write_all(output, Buffer::new().format(k).as_bytes())
}

/// The parts of the source between its numbers.
#[derive(Clone, Copy)]
enum Piece {
    Name,
    Heading,
    Body,
    Start,
    Call,
    End,
}

impl Piece {
    #[tactic(auto, unfolding(crate::specs::Generated::piece_text))]
    fn text(self) -> &'static str
        ensures { result.now ≡ piece_text self }
    {
        match self {
            Piece::Name => "m",
            Piece::Heading => " = proc (x: int) returns (int)\nfor i: int in int$from_to(1, ",
            Piece::Body => ") do\nx := (x * 31 + i) // 1000000\nend\nreturn (x)\nend m",
            Piece::Start => "start_up = proc ()\nx: int := 1\n",
            Piece::Call => "x := m",
            Piece::End => "stream$putl(stream$primary_output(), int$unparse(x))\nend start_up\n",
        }
    }
}
