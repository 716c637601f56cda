//! The names of the commands, and the form of each one's words.

ghost use Rattle.std.specs.Prelude.{◌≡◌};
ghost use Rattle.clu_words.specs.Names.{form_of, name_of};

use crate::form::Form;

/// The name of a command.
#[derive(Clone, Copy)]
pub enum Name {
    Go,
    Spec,
    Replace,
    Compile,
    Link,
    Run,
    Exec,
    Gen,
    List,
    Asm,
    Print,
    Xref,
}

impl Name {
    /// The command that this word names.
    #[tactic(auto, unfolding(crate::specs::Names::name_of))]
    pub fn of(word: &str) -> Option<Name>
        ensures { result ≡ name_of word.now }
    {
        match word {
            "go" => Some(Name::Go),
            "spec" => Some(Name::Spec),
            "replace" => Some(Name::Replace),
            "compile" => Some(Name::Compile),
            "link" => Some(Name::Link),
            "run" => Some(Name::Run),
            "exec" => Some(Name::Exec),
            "gen" => Some(Name::Gen),
            "list" => Some(Name::List),
            "asm" => Some(Name::Asm),
            "print" => Some(Name::Print),
            "xref" => Some(Name::Xref),
            _ => None,
        }
    }

    /// The form of the words after the name.
    pub fn form(self) -> Form
        ensures { result ≡ form_of self }
    {
        match self {
            Name::Go => Form::TwoAll,
            Name::Compile => Form::TwoPeep,
            Name::Link => Form::Three,
            Name::Run => Form::TwoRun,
            Name::Exec => Form::OneRun,
            Name::Spec | Name::Replace | Name::Asm => Form::Two,
            Name::Gen | Name::List | Name::Print | Name::Xref => Form::One,
        }
    }
}
