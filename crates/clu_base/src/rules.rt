//! The rules that a CLU source can violate, numbered V1 to V37 in the order in which they are
//! asked, and the refusal that names one with its place.

ghost use Rattle.std.specs.Prelude.{◌≡◌};
ghost use Rattle.clu_base.specs.Rules.{number_of, name_of};

use crate::tokens::Place;

/// A rule of the language; `docs/language.md` has each with examples.
#[derive(Clone, Copy, Debug, PartialEq, Eq)]
pub enum Rule {
    /// No token begins at these bytes.
    Token,
    /// The tokens up to and including this one begin no file of the grammar.
    Syntax,
    /// Marks and words that nest stand more than 200 deep.
    TooDeep,
    /// An integer literal, an octal code or an identifier is too large.
    LiteralRange,
    /// The name denotes nothing in scope, in the file or in the library.
    UnknownName,
    /// The name is in scope already, or stands twice in one list.
    DefinedTwice,
    /// The unfolding of an equate meets itself.
    CircularEquate,
    /// A constant is wanted and this is none.
    NotConstant,
    /// A type or type set is wanted and this is none.
    NotType,
    /// The type `real` or a real literal, which this CLU leaves out.
    Real,
    /// The type gives no operation of that name.
    NoOperation,
    /// An invocation has another number of arguments.
    ArgumentCount,
    /// An argument's type isn't included in the formal's, or what is invoked is no routine.
    ArgumentType,
    /// An expression has not exactly one result, or a statement another number of variables.
    ResultCount,
    /// The object's type isn't included in the variable's, or the target is no variable.
    AssignType,
    /// A condition or an operand of `cand` or `cor` isn't bool.
    NotBool,
    /// A constructor's selectors are not exactly the type's.
    Selectors,
    /// An actual parameter doesn't meet a `has` clause.
    WhereNotMet,
    /// Another number or kind of actual parameters.
    ParameterKind,
    /// An actual parameter doesn't meet an `in` clause.
    NotInTypeSet,
    /// `tagcase` on no oneof or variant.
    NotTagged,
    /// An arm names a foreign tag or one twice, or a tag is left without `others`.
    TagMissingOrTwice,
    /// The declarations of an arm don't fit what is raised.
    ArmTypes,
    /// A name in two arms of one `except`.
    ArmTwice,
    /// The signalled name is neither in the heading nor `failure`.
    SignalNotListed,
    /// Number or types of the signalled objects don't fit.
    SignalTypes,
    /// No enclosing `when` arm of that name in the routine.
    ExitNoArm,
    /// `break` or `continue` outside a loop.
    NotInLoop,
    /// `yield` outside an iterator.
    NotInIterator,
    /// Number or types of `return` or `yield` don't fit the heading.
    ReturnValues,
    /// `cvt` or `rep` where it may not stand, or a cluster without exactly one `rep`.
    CvtPlace,
    /// `up` or `down` outside a cluster, or on another type.
    UpDown,
    /// An exported name without a routine.
    ExportMissing,
    /// The name after `end` differs.
    EndName,
    /// A routine, or a cluster's own declarations, have more than 4,000 nodes.
    RoutineTooLarge,
    /// An iterator invoked outside `for`, or `for` over no iterator.
    IteratorUse,
    /// An own initialiser names a formal argument.
    OwnPlace,
}

impl Rule {
    /// The rule's number, from 1 to 37.
    pub fn number(&self) -> u8
        ensures { result ≡ number_of self.now }
    {
        match self {
            Rule::Token => 1,
            Rule::Syntax => 2,
            Rule::TooDeep => 3,
            Rule::LiteralRange => 4,
            Rule::UnknownName => 5,
            Rule::DefinedTwice => 6,
            Rule::CircularEquate => 7,
            Rule::NotConstant => 8,
            Rule::NotType => 9,
            Rule::Real => 10,
            Rule::NoOperation => 11,
            Rule::ArgumentCount => 12,
            Rule::ArgumentType => 13,
            Rule::ResultCount => 14,
            Rule::AssignType => 15,
            Rule::NotBool => 16,
            Rule::Selectors => 17,
            Rule::WhereNotMet => 18,
            Rule::ParameterKind => 19,
            Rule::NotInTypeSet => 20,
            Rule::NotTagged => 21,
            Rule::TagMissingOrTwice => 22,
            Rule::ArmTypes => 23,
            Rule::ArmTwice => 24,
            Rule::SignalNotListed => 25,
            Rule::SignalTypes => 26,
            Rule::ExitNoArm => 27,
            Rule::NotInLoop => 28,
            Rule::NotInIterator => 29,
            Rule::ReturnValues => 30,
            Rule::CvtPlace => 31,
            Rule::UpDown => 32,
            Rule::ExportMissing => 33,
            Rule::EndName => 34,
            Rule::RoutineTooLarge => 35,
            Rule::IteratorUse => 36,
            Rule::OwnPlace => 37,
        }
    }

    /// The rule's name, as it stands in a refusal's line.
    #[tactic(auto, unfolding(crate::specs::Rules::name_of))]
    pub fn name(&self) -> &'static str
        ensures { result.now ≡ name_of self.now }
    {
        match self {
            Rule::Token => "Token",
            Rule::Syntax => "Syntax",
            Rule::TooDeep => "TooDeep",
            Rule::LiteralRange => "LiteralRange",
            Rule::UnknownName => "UnknownName",
            Rule::DefinedTwice => "DefinedTwice",
            Rule::CircularEquate => "CircularEquate",
            Rule::NotConstant => "NotConstant",
            Rule::NotType => "NotType",
            Rule::Real => "Real",
            Rule::NoOperation => "NoOperation",
            Rule::ArgumentCount => "ArgumentCount",
            Rule::ArgumentType => "ArgumentType",
            Rule::ResultCount => "ResultCount",
            Rule::AssignType => "AssignType",
            Rule::NotBool => "NotBool",
            Rule::Selectors => "Selectors",
            Rule::WhereNotMet => "WhereNotMet",
            Rule::ParameterKind => "ParameterKind",
            Rule::NotInTypeSet => "NotInTypeSet",
            Rule::NotTagged => "NotTagged",
            Rule::TagMissingOrTwice => "TagMissingOrTwice",
            Rule::ArmTypes => "ArmTypes",
            Rule::ArmTwice => "ArmTwice",
            Rule::SignalNotListed => "SignalNotListed",
            Rule::SignalTypes => "SignalTypes",
            Rule::ExitNoArm => "ExitNoArm",
            Rule::NotInLoop => "NotInLoop",
            Rule::NotInIterator => "NotInIterator",
            Rule::ReturnValues => "ReturnValues",
            Rule::CvtPlace => "CvtPlace",
            Rule::UpDown => "UpDown",
            Rule::ExportMissing => "ExportMissing",
            Rule::EndName => "EndName",
            Rule::RoutineTooLarge => "RoutineTooLarge",
            Rule::IteratorUse => "IteratorUse",
            Rule::OwnPlace => "OwnPlace",
        }
    }
}

/// The first violation of a source: its rule and the place where the rule is violated.
#[derive(Clone, Copy, Debug)]
pub struct Refused {
    pub rule: Rule,
    pub place: Place,
}
