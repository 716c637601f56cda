//! The forms that words after a command's name can have, as commands of `clap` with texts for
//! values.

ghost use Rattle.std.specs.Prelude.{◌≡◌, IfOk};
ghost use Rattle.clap.specs.Words.{app_of, new_app, with_rule};
ghost use Rattle.clu_words.specs.Form.{app_of_form, bare, flag, option, positional, with_run_options};

use clap::{Arg, ArgAction, Command};
use std::alloc::{AllocError, Global};

/// The positional words, options and flags that a command takes.
#[derive(Clone, Copy)]
pub enum Form {
    /// One positional word.
    One,
    /// Two positional words.
    Two,
    /// Three positional words.
    Three,
    /// One positional word and the limits of a run.
    OneRun,
    /// Two positional words and the limits of a run.
    TwoRun,
    /// Two positional words and `--peep`.
    TwoPeep,
    /// Two positional words, the limits of a run, `--peep` and `--trace`.
    TwoAll,
}

/// The command of `clap` that reads words of this form.
pub fn form_command<'a>(alloc: Global, form: Form) -> Result<Command<'a>, AllocError>
    ensures { IfOk result (λ c. app_of c ≡ app_of_form form) }
{
    match form {
        Form::One => one(alloc),
        Form::Two => two(alloc),
        Form::Three => with_positional(alloc, two(alloc)?, "third"),
        Form::OneRun => run_options(alloc, one(alloc)?),
        Form::TwoRun => run_options(alloc, two(alloc)?),
        Form::TwoPeep => with_flag(alloc, two(alloc)?, "peep"),
        Form::TwoAll => all(alloc),
    }
}

fn one<'a>(alloc: Global) -> Result<Command<'a>, AllocError>
    ensures { IfOk result (λ c. app_of c ≡ app_of_form Form.One) }
{
    with_positional(alloc, bare(alloc), "first")
}

fn two<'a>(alloc: Global) -> Result<Command<'a>, AllocError>
    ensures { IfOk result (λ c. app_of c ≡ app_of_form Form.Two) }
{
    with_positional(alloc, one(alloc)?, "second")
}

fn all<'a>(alloc: Global) -> Result<Command<'a>, AllocError>
    ensures { IfOk result (λ c. app_of c ≡ app_of_form Form.TwoAll) }
{
    let limited = run_options(alloc, two(alloc)?)?;
    let peeping = with_flag(alloc, limited, "peep")?;
    with_flag(alloc, peeping, "trace")
}

fn run_options<'a>(alloc: Global, command: Command<'a>) -> Result<Command<'a>, AllocError>
    ensures { IfOk result (λ c. app_of c ≡ with_run_options (app_of command.entry)) }
{
    let steps = with_option(alloc, command, "steps")?;
    let store = with_option(alloc, steps, "store")?;
    with_option(alloc, store, "stack")
}

// A command whose words are all its own: no program name before them, and no help.
fn bare<'a>(alloc: Global) -> Command<'a>
    ensures { app_of result ≡ bare }
{
    Command::new(alloc, "clu")
        .no_binary_name(true)
        .disable_help_flag(true)
}

fn with_positional<'a>(
    alloc: Global,
    command: Command<'a>,
    id: &'a str,
) -> Result<Command<'a>, AllocError>
    ensures { IfOk result (λ c. app_of c ≡ with_rule (app_of command.entry) (positional id.now)) }
{
    let argument = Arg::new(alloc, id).required(true);
    command.arg(argument)
}

fn with_option<'a>(
    alloc: Global,
    command: Command<'a>,
    id: &'a str,
) -> Result<Command<'a>, AllocError>
    ensures { IfOk result (λ c. app_of c ≡ with_rule (app_of command.entry) (option id.now)) }
{
    let argument = Arg::new(alloc, id).long(id);
    command.arg(argument)
}

fn with_flag<'a>(
    alloc: Global,
    command: Command<'a>,
    id: &'a str,
) -> Result<Command<'a>, AllocError>
    ensures { IfOk result (λ c. app_of c ≡ with_rule (app_of command.entry) (flag id.now)) }
{
    let argument = Arg::new(alloc, id).long(id).action(ArgAction::SetTrue);
    command.arg(argument)
}
