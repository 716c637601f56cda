//! How a command ends: one value for each status of the program, with what its line tells.

ghost use Rattle.std.specs.Prelude.{◌≡◌};
ghost use Rattle.clu_outcome.specs.Outcome.{line_end_of, status_of, text_of};

use clu_base::Refused;
use clu_build::{Difference, StaleBody};
use clu_trace::Trace;

/// How a command ended. A name of text is that of a file or a program as the words give it, one of bytes that of a module.
#[derive(Clone, Copy)]
pub enum Outcome<'a> {
    /// The command was done, or the program returned.
    Done,
    /// The program ended by a failure with this text.
    Failure(&'a [u8]),
    /// The same of a run that was traced, with the instances that were live at its last raise.
    Traced(&'a [u8], &'a Trace),
    /// The words are none that the program takes.
    Usage,
    /// The store is full.
    StoreFull,
    /// The stack is full.
    StackFull,
    /// The given number of steps was executed and none ended the run.
    StepsSpent,
    /// No instruction at this address.
    BadInstruction(u64),
    /// A load, a store or a text at an address where it may not be.
    BadAccess(u64),
    /// A jump to an address where no instruction can be.
    BadJump(u64),
    /// No service of this number.
    BadEcall(u64),
    /// The store has no such file.
    NoFile(&'a str),
    /// The source breaks this rule at this place, the first that it breaks.
    Refused(&'a str, Refused),
    /// The file is no library; the number is the offset of the fault.
    LibraryBad(u64),
    /// Another specification is kept of a module.
    SpecDiffers(&'a Difference),
    /// No module of this name, at which a program is to start.
    NoModule(&'a [u8]),
    /// No body is kept of this module.
    NoBody(&'a [u8]),
    /// A module of this name, at which no program starts.
    BadStart(&'a [u8]),
    /// A program of more than 4,096 instances.
    TooManyInstances,
    /// A program that weighs more than 262,144.
    ProgramTooLarge,
    /// The library has no program of this name.
    NoProgram(&'a str),
    /// The file is no image; the number is the offset of the fault.
    ImageBad(u64),
    /// More than 4,096 modules or programs of a library, or more revisions than it counts.
    LibraryFull,
    /// A read of the input failed.
    ReadFault,
    /// A write of the output or of the errors failed.
    WriteFault,
    /// A read or write of this file failed.
    FileFault(&'a str),
    /// Memory was refused.
    Memory,
    /// The source has more than 1,048,576 bytes.
    SourceTooLarge(&'a str),
    /// What this program cannot do yet.
    NotYet,
    /// The body of a module is stale.
    Stale(&'a StaleBody),
    /// The kept specification of this module needs one that would be replaced.
    SpecNeeded(&'a [u8]),
    /// The file is no assembly text; the number is the offset of the fault.
    AsmBad(u64),
    /// The object of this module does not fit what is kept.
    Misfit(&'a [u8]),
}

impl Outcome<'_> {
    /// The exit status.
    pub fn status(&self) -> u8
        ensures { result ≡ status_of self.now }
    {
        match self {
            Outcome::Done => 0,
            Outcome::Failure(_) | Outcome::Traced(_, _) => 1,
            Outcome::Usage => 2,
            Outcome::StoreFull => 3,
            Outcome::StackFull => 4,
            Outcome::StepsSpent => 5,
            Outcome::BadInstruction(_) => 6,
            Outcome::BadAccess(_) => 7,
            Outcome::BadJump(_) => 8,
            Outcome::BadEcall(_) => 9,
            Outcome::NoFile(_) => 10,
            Outcome::Refused(_, _) => 11,
            Outcome::LibraryBad(_) => 12,
            Outcome::SpecDiffers(_) => 13,
            Outcome::NoModule(_) => 14,
            Outcome::NoBody(_) => 15,
            Outcome::BadStart(_) => 16,
            Outcome::TooManyInstances => 17,
            Outcome::ProgramTooLarge => 18,
            Outcome::NoProgram(_) => 19,
            Outcome::ImageBad(_) => 20,
            Outcome::LibraryFull => 21,
            Outcome::ReadFault => 22,
            Outcome::WriteFault => 23,
            Outcome::FileFault(_) => 24,
            Outcome::Memory => 25,
            Outcome::SourceTooLarge(_) => 26,
            Outcome::NotYet => 27,
            Outcome::Stale(_) => 28,
            Outcome::SpecNeeded(_) => 29,
            Outcome::AsmBad(_) => 30,
            Outcome::Misfit(_) => 31,
        }
    }

    /// What the line says before its detail.
    #[tactic(auto, unfolding(crate::specs::Outcome::text_of))]
    pub(crate) fn text(&self) -> &'static str
        ensures { result.now ≡ text_of self.now }
    {
        match self {
            Outcome::Done | Outcome::Refused(_, _) => "",
            Outcome::Failure(_) | Outcome::Traced(_, _) => "failure: ",
            Outcome::Usage => USAGE,
            Outcome::StoreFull => "store full",
            Outcome::StackFull => "stack full",
            Outcome::StepsSpent => "steps spent",
            Outcome::BadInstruction(_) => "bad instruction at ",
            Outcome::BadAccess(_) => "bad access at ",
            Outcome::BadJump(_) => "bad jump to ",
            Outcome::BadEcall(_) => "bad ecall ",
            Outcome::NoFile(_) => "no file: ",
            Outcome::LibraryBad(_) => "library bad at ",
            Outcome::SpecDiffers(_) => "spec differs: ",
            Outcome::NoModule(_) => "no module: ",
            Outcome::NoBody(_) => "no body: ",
            Outcome::BadStart(_) => "bad start: ",
            Outcome::TooManyInstances => "too many instances",
            Outcome::ProgramTooLarge => "program too large",
            Outcome::NoProgram(_) => "no program: ",
            Outcome::ImageBad(_) => "image bad at ",
            Outcome::LibraryFull => "library full",
            Outcome::ReadFault => "read fault",
            Outcome::WriteFault => "write fault",
            Outcome::FileFault(_) => "file fault: ",
            Outcome::Memory => "out of memory",
            Outcome::SourceTooLarge(_) => "source too large: ",
            Outcome::NotYet => "not yet",
            Outcome::Stale(_) => "stale: ",
            Outcome::SpecNeeded(_) => "spec needed: ",
            Outcome::AsmBad(_) => "asm bad at ",
            Outcome::Misfit(_) => "object misfit: ",
        }
    }

    /// What ends the line; nothing where there is none.
    pub(crate) fn line_end(&self) -> &'static str
        ensures { result.now ≡ line_end_of self.now }
    {
        match self {
            Outcome::Done => "",
            _ => "\n",
        }
    }
}

/// The line of status 2.
const USAGE: &str = "usage: clu go|spec|replace|compile|link|run|exec|gen|list|asm|print|xref";
