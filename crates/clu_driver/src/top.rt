//! The top call: the words of a command line become a command, and what the command came to
//! becomes a status and a line.

ghost use Rattle.std.specs.Prelude.{◌≡◌, ◌⊎◌, None, Some, map, string_bytes};
ghost use Rattle.clu_words.specs.Command.{command_of, meant};
ghost use Rattle.clu_driver.specs.Commands.{CluShows, CommandShows, IsRefusal};
ghost use Rattle.clu_driver.specs.Shows.{Reported};
ghost use Rattle.clu_driver.specs.World.{streams_of, world_of};

use crate::assembling::assemble;
use crate::building::Flags;
use crate::compiling::go;
use crate::executing::exec;
use crate::generating::generate;
use crate::launching::run;
use crate::linking::link;
use crate::listing::list;
use crate::printing::print;
use crate::referring::refer;
use crate::separate::compile;
use crate::specifying::{Kept, specify};
use clu_base::{Sink, Source, Store};
use clu_outcome::{Outcome, report};
use clu_words::{Command, WordsError, read_command};
use std::alloc::Global;

/// Does what the words say, and gives the exit status. The words leave out the program's own
/// name. A status other than 0 has its line on the errors; docs/commands.md has them all.
pub fn clu<S: Source, K: Sink, E: Sink, F: Store>(
    alloc: Global,
    words: &[String],
    input: &mut S,
    output: &mut K,
    errors: &mut E,
    files: &mut F,
) -> u8
    ensures told { Reported (λ how. CluShows (command_of (map string_bytes words.now)) how
        (world_of (F.files files.old) (F.faults files.old) (streams_of (S.left input.old) (S.faults input.old) (K.written output.old) (K.faults output.old)))
        (world_of (F.files files.new) (F.faults files.new) (streams_of (S.left input.new) (S.faults input.new) (K.written output.new) (K.faults output.new))))
        result (E.written errors.old) (E.written errors.new) (E.faults errors.old) (E.faults errors.new) }

    // Status 2 comes exactly where the words are no command, but for a line that could not be
    // written and when memory runs out.
    ensures usage_only { result ≡ 2 → command_of (map string_bytes words.now) ≡ None }
    ensures usage_always { command_of (map string_bytes words.now) ≡ None → (result ≡ 2) ⊎ ((result ≡ 23) ⊎ (result ≡ 25)) }

    // A command that was done tells nothing, and one that was refused writes no output.
    ensures quiet { result ≡ 0 → E.written errors.new ≡ E.written errors.old }
    ensures refused { IsRefusal result → K.written output.new ≡ K.written output.old }
{
    called(alloc, words, input, output, errors, files)
}

// The same, with the one clause from which the others follow.
fn called<S: Source, K: Sink, E: Sink, F: Store>(
    alloc: Global,
    words: &[String],
    input: &mut S,
    output: &mut K,
    errors: &mut E,
    files: &mut F,
) -> u8
    ensures told { Reported (λ how. CluShows (command_of (map string_bytes words.now)) how
        (world_of (F.files files.old) (F.faults files.old) (streams_of (S.left input.old) (S.faults input.old) (K.written output.old) (K.faults output.old)))
        (world_of (F.files files.new) (F.faults files.new) (streams_of (S.left input.new) (S.faults input.new) (K.written output.new) (K.faults output.new))))
        result (E.written errors.old) (E.written errors.new) (E.faults errors.old) (E.faults errors.new) }
{
    match read_command(alloc, words) {
        Ok(command) => run_command(alloc, command, input, output, errors, files),
        Err(WordsError::Usage) => report(errors, &Outcome::Usage),
        Err(WordsError::Memory) => report(errors, &Outcome::Memory),
    }
}

// Does a command.
fn run_command<S: Source, K: Sink, E: Sink, F: Store>(
    alloc: Global,
    command: Command<'_>,
    input: &mut S,
    output: &mut K,
    errors: &mut E,
    files: &mut F,
) -> u8
    ensures told { Reported (λ how. CommandShows (Some (meant command.entry)) how
        (world_of (F.files files.old) (F.faults files.old) (streams_of (S.left input.old) (S.faults input.old) (K.written output.old) (K.faults output.old)))
        (world_of (F.files files.new) (F.faults files.new) (streams_of (S.left input.new) (S.faults input.new) (K.written output.new) (K.faults output.new))))
        result (E.written errors.old) (E.written errors.new) (E.faults errors.old) (E.faults errors.new) }
{
    match command {
        Command::Go {
            file,
            image,
            limits,
            peep,
            trace,
        } => {
            let flags = Flags { peep, trace };
            go(
                alloc, file, image, limits, flags, input, output, errors, files,
            )
        }
        Command::Exec { image, limits } => {
            exec(alloc, image, limits, input, output, errors, files)
        }
        Command::Print { file } => print(alloc, file, output, errors, files),
        Command::List { image } => list(alloc, image, output, errors, files),
        Command::Asm { file, image } => assemble(alloc, file, image, errors, files),
        Command::Gen { procedures } => generate(procedures, output, errors),
        Command::Spec { library, file } => {
            specify(alloc, Kept::Stays, library, file, errors, files)
        }
        Command::Replace { library, file } => {
            specify(alloc, Kept::Goes, library, file, errors, files)
        }
        Command::Compile {
            library,
            file,
            peep,
        } => compile(alloc, library, file, peep, errors, files),
        Command::Link {
            library,
            program,
            start,
        } => link(alloc, library, program, start, errors, files),
        Command::Run {
            library,
            program,
            limits,
        } => run(
            alloc, library, program, limits, input, output, errors, files,
        ),
        Command::Xref { library } => refer(alloc, library, output, errors, files),
    }
}
