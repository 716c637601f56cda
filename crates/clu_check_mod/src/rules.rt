//! The table of rules: which of them a node of each kind may violate, and which the two walks ask. V1 to V3 are asked before there
//! is a tree.

ghost use Rattle.std.specs.Prelude.{◌≡◌};
ghost use Rattle.clu_type_rules.specs.Asked.{rules_at, rules_if};
ghost use Rattle.clu_check_mod.specs.Walks.{rules_of};

use clu_base::Rule;
use clu_tree::NodeKind;

/// The walk over the headings, and the walk over the rest.
#[derive(Clone, Copy)]
pub enum Walk {
    Headings,
    Rest,
}

// At a node of another kind a rule is never violated, so it isn't asked there. Each list ascends.

const PART: [Rule; 1] = [Rule::LiteralRange];

const ROUTINE: [Rule; 4] = [
    Rule::LiteralRange,
    Rule::DefinedTwice,
    Rule::EndName,
    Rule::RoutineTooLarge,
];

const ROUTINE_HEADING: [Rule; 1] = [Rule::DefinedTwice];

const ROUTINE_REST: [Rule; 3] = [Rule::LiteralRange, Rule::EndName, Rule::RoutineTooLarge];

const CLUSTER: [Rule; 6] = [
    Rule::LiteralRange,
    Rule::DefinedTwice,
    Rule::CvtPlace,
    Rule::ExportMissing,
    Rule::EndName,
    Rule::RoutineTooLarge,
];

const CLUSTER_HEADING: [Rule; 2] = [Rule::DefinedTwice, Rule::ExportMissing];

const CLUSTER_REST: [Rule; 4] = [
    Rule::LiteralRange,
    Rule::CvtPlace,
    Rule::EndName,
    Rule::RoutineTooLarge,
];

const PARM: [Rule; 3] = [Rule::LiteralRange, Rule::DefinedTwice, Rule::ParameterKind];

const EXC: [Rule; 3] = [Rule::LiteralRange, Rule::DefinedTwice, Rule::SignalTypes];

const RESTRICT: [Rule; 5] = [
    Rule::LiteralRange,
    Rule::UnknownName,
    Rule::DefinedTwice,
    Rule::CircularEquate,
    Rule::NotType,
];

const DECLARING: [Rule; 2] = [Rule::LiteralRange, Rule::DefinedTwice];

const TYPE_SET: [Rule; 4] = [
    Rule::LiteralRange,
    Rule::UnknownName,
    Rule::DefinedTwice,
    Rule::NotType,
];

const OWN: [Rule; 5] = [
    Rule::LiteralRange,
    Rule::DefinedTwice,
    Rule::ResultCount,
    Rule::AssignType,
    Rule::OwnPlace,
];

const SIMPLE: [Rule; 5] = [
    Rule::CircularEquate,
    Rule::NotType,
    Rule::Real,
    Rule::ResultCount,
    Rule::CvtPlace,
];

const TYPE: [Rule; 2] = [Rule::NotType, Rule::ResultCount];

const NAMED_TYPE: [Rule; 8] = [
    Rule::LiteralRange,
    Rule::UnknownName,
    Rule::CircularEquate,
    Rule::NotType,
    Rule::ResultCount,
    Rule::WhereNotMet,
    Rule::ParameterKind,
    Rule::NotInTypeSet,
];

const SELECTOR: [Rule; 2] = [Rule::LiteralRange, Rule::Selectors];

const INIT: [Rule; 4] = [
    Rule::LiteralRange,
    Rule::DefinedTwice,
    Rule::ResultCount,
    Rule::AssignType,
];

const ASSIGN: [Rule; 4] = [
    Rule::LiteralRange,
    Rule::UnknownName,
    Rule::ResultCount,
    Rule::AssignType,
];

const STORE: [Rule; 7] = [
    Rule::LiteralRange,
    Rule::NoOperation,
    Rule::ArgumentCount,
    Rule::ArgumentType,
    Rule::WhereNotMet,
    Rule::NotInTypeSet,
    Rule::IteratorUse,
];

const FOR: [Rule; 5] = [
    Rule::LiteralRange,
    Rule::UnknownName,
    Rule::ResultCount,
    Rule::AssignType,
    Rule::IteratorUse,
];

const CONDITION: [Rule; 1] = [Rule::NotBool];

const TAGCASE: [Rule; 2] = [Rule::NotTagged, Rule::TagMissingOrTwice];

const TAG_ARM: [Rule; 4] = [
    Rule::LiteralRange,
    Rule::DefinedTwice,
    Rule::AssignType,
    Rule::TagMissingOrTwice,
];

const RETURN: [Rule; 1] = [Rule::ReturnValues];

const YIELD: [Rule; 2] = [Rule::NotInIterator, Rule::ReturnValues];

const SIGNAL: [Rule; 3] = [Rule::LiteralRange, Rule::SignalNotListed, Rule::SignalTypes];

const EXIT: [Rule; 3] = [Rule::LiteralRange, Rule::SignalTypes, Rule::ExitNoArm];

const JUMP: [Rule; 1] = [Rule::NotInLoop];

const WHEN: [Rule; 3] = [Rule::LiteralRange, Rule::ArmTypes, Rule::ArmTwice];

const OTHERS: [Rule; 3] = [Rule::LiteralRange, Rule::DefinedTwice, Rule::ArmTypes];

const INVOKING: [Rule; 11] = [
    Rule::LiteralRange,
    Rule::NotConstant,
    Rule::NotType,
    Rule::NoOperation,
    Rule::ArgumentCount,
    Rule::ArgumentType,
    Rule::ResultCount,
    Rule::NotBool,
    Rule::WhereNotMet,
    Rule::NotInTypeSet,
    Rule::IteratorUse,
];

const PAREN: [Rule; 2] = [Rule::NotConstant, Rule::NotType];

const LITERAL: [Rule; 4] = [
    Rule::LiteralRange,
    Rule::NotConstant,
    Rule::NotType,
    Rule::Real,
];

const NAME: [Rule; 10] = [
    Rule::LiteralRange,
    Rule::UnknownName,
    Rule::CircularEquate,
    Rule::NotConstant,
    Rule::NotType,
    Rule::NoOperation,
    Rule::ResultCount,
    Rule::WhereNotMet,
    Rule::ParameterKind,
    Rule::NotInTypeSet,
];

const INDEX: [Rule; 10] = [
    Rule::NotConstant,
    Rule::NotType,
    Rule::NoOperation,
    Rule::ArgumentCount,
    Rule::ArgumentType,
    Rule::ResultCount,
    Rule::WhereNotMet,
    Rule::ParameterKind,
    Rule::NotInTypeSet,
    Rule::IteratorUse,
];

const CONSTRUCTOR: [Rule; 4] = [
    Rule::NotConstant,
    Rule::NotType,
    Rule::ArgumentType,
    Rule::Selectors,
];

const OPERATION: [Rule; 6] = [
    Rule::LiteralRange,
    Rule::NotConstant,
    Rule::NotType,
    Rule::NoOperation,
    Rule::WhereNotMet,
    Rule::NotInTypeSet,
];

const UP_DOWN: [Rule; 3] = [Rule::NotConstant, Rule::NotType, Rule::UpDown];

/// The rules that a node of this kind may violate, in ascending order.
pub fn rules_at(kind: NodeKind) -> &'static [Rule]
    ensures { result.now ≡ rules_at kind }
{
    match kind {
        NodeKind::Routine => &ROUTINE,
        NodeKind::Cluster => &CLUSTER,
        NodeKind::Parm => &PARM,
        NodeKind::Exc => &EXC,
        NodeKind::Restrict => &RESTRICT,
        NodeKind::Oper | NodeKind::Equate | NodeKind::Decl => &DECLARING,
        NodeKind::TypeSet => &TYPE_SET,
        NodeKind::Own => &OWN,
        NodeKind::Simple => &SIMPLE,
        NodeKind::ListT | NodeKind::FieldsT | NodeKind::RoutineT => &TYPE,
        NodeKind::NameT => &NAMED_TYPE,
        NodeKind::FieldT | NodeKind::FieldE => &SELECTOR,
        NodeKind::Init => &INIT,
        NodeKind::Assign => &ASSIGN,
        NodeKind::SetField | NodeKind::SetIndex => &STORE,
        NodeKind::For => &FOR,
        NodeKind::While | NodeKind::If => &CONDITION,
        NodeKind::Tagcase => &TAGCASE,
        NodeKind::TagArm => &TAG_ARM,
        NodeKind::Return => &RETURN,
        NodeKind::Yield => &YIELD,
        NodeKind::Signal | NodeKind::Resignal => &SIGNAL,
        NodeKind::Exit => &EXIT,
        NodeKind::Break | NodeKind::Continue => &JUMP,
        NodeKind::When => &WHEN,
        NodeKind::Others => &OTHERS,
        NodeKind::Infix | NodeKind::Prefix | NodeKind::Get | NodeKind::Call => &INVOKING,
        NodeKind::Paren | NodeKind::Force => &PAREN,
        NodeKind::Literal => &LITERAL,
        NodeKind::Name => &NAME,
        NodeKind::Index => &INDEX,
        NodeKind::Fields | NodeKind::Elems => &CONSTRUCTOR,
        NodeKind::OperOf => &OPERATION,
        NodeKind::Up | NodeKind::Down => &UP_DOWN,
        _ => &PART,
    }
}

/// The rules that a walk asks at a node of this kind, which belongs to a heading or doesn't. At the node of a module, routine or
/// cluster the first walk asks V6 and V33 alone, of names and exports.
pub fn rules_asked(walk: Walk, kind: NodeKind, in_heading: bool) -> &'static [Rule]
    ensures { result.now ≡ rules_of walk kind in_heading }
{
    match walk {
        Walk::Headings => match kind {
            NodeKind::Module => &[],
            NodeKind::Routine => &ROUTINE_HEADING,
            NodeKind::Cluster => &CLUSTER_HEADING,
            _ => rules_if(in_heading, kind),
        },
        Walk::Rest => match kind {
            NodeKind::Module => &PART,
            NodeKind::Routine => &ROUTINE_REST,
            NodeKind::Cluster => &CLUSTER_REST,
            _ => rules_if(!in_heading, kind),
        },
    }
}

fn rules_if(is_asked: bool, kind: NodeKind) -> &'static [Rule]
    ensures { result.now ≡ rules_if is_asked kind }
{
    if is_asked { rules_at(kind) } else { &[] }
}
