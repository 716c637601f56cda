//! The nodes of syntax trees: one kind for each construct of the grammar.

use clu_base::{Bytes, Place, Sequence};

/// The constructs of the grammar of CLU; docs/language.md has their productions.
#[derive(Clone, Copy, Debug, PartialEq, Eq)]
pub enum NodeKind {
    /// All modules of a file.
    File,
    /// Leading equates and a routine or a cluster.
    Module,
    /// A procedure or an iterator.
    Routine,
    /// A cluster with its routines.
    Cluster,
    /// Parameters of a module with their type.
    Parm,
    /// What a routine returns or yields.
    Results,
    /// The exceptions of a heading.
    Signals,
    /// One exception of a heading.
    Exc,
    /// The demands on the parameters.
    Where,
    /// What one parameter must have.
    Restrict,
    /// Operations of one type that a parameter must have.
    Oper,
    /// A set of types by their operations.
    TypeSet,
    /// A name for a constant, a type or a type set.
    Equate,
    /// Own variables.
    Own,
    /// Names with their type.
    Decl,
    /// A type that is one word.
    Simple,
    /// An array or sequence type.
    ListT,
    /// A record, struct, oneof or variant type.
    FieldsT,
    /// Selectors of one type.
    FieldT,
    /// A procedure or iterator type.
    RoutineT,
    /// A type by its name, with actual parameters.
    NameT,
    /// The statement that declares variables.
    Declare,
    /// A declaration with initial objects.
    Init,
    /// An assignment to variables.
    Assign,
    /// `r.s := v`
    SetField,
    /// `a[i] := v`
    SetIndex,
    /// A call that is a statement.
    CallS,
    /// `while`
    While,
    /// `for`
    For,
    /// `if`
    If,
    /// `tagcase`
    Tagcase,
    /// An arm of a `tagcase`.
    TagArm,
    /// `return`
    Return,
    /// `yield`
    Yield,
    /// `signal`
    Signal,
    /// `exit`
    Exit,
    /// `break`
    Break,
    /// `continue`
    Continue,
    /// `begin`
    Begin,
    /// A statement with `resignal`.
    Resignal,
    /// A statement with `except`.
    Except,
    /// A `when` arm.
    When,
    /// An `others` arm of an `except`.
    Others,
    /// Two operands and an infix operator.
    Infix,
    /// `~` or `-` and its operand.
    Prefix,
    /// An expression in parentheses.
    Paren,
    /// A literal, or nil, true or false.
    Literal,
    /// An identifier.
    Name,
    /// `a[i]`, or a name with actual parameters.
    Index,
    /// `r.s`
    Get,
    /// A call.
    Call,
    /// A constructor by selectors.
    Fields,
    /// Selectors of a constructor with their expression.
    FieldE,
    /// A constructor of an array or a sequence.
    Elems,
    /// `t$op`
    OperOf,
    /// `force`
    Force,
    /// `up`
    Up,
    /// `down`
    Down,
}

/// A node of a syntax tree. Nodes are named by their numbers in the tree.
#[derive(Drop)]
pub struct Node {
    pub kind: NodeKind,
    /// Where a fault at this node is reported.
    pub place: Place,
    /// The number of the node's first token in the source.
    pub first: u32,
    /// The number of its last token.
    pub last: u32,
    /// The nodes that stand directly in it, in the order of the text.
    pub children: Sequence<u32>,
    /// The identifiers that stand directly in it, in lower case.
    pub names: Sequence<Bytes>,
    /// The operator, the reserved word that chooses a form, or a literal as it is spelled; words
    /// are in lower case.
    pub value: Bytes,
    /// The number of the token that is the value, if there is one. The body after the `else` of an
    /// If begins after it.
    pub value_token: Option<u32>,
}
