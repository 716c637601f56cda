//! The nonterminals and the rows of the grammar: what stands where in a source. A file of the
//! grammar is what can be made of `Nonterminal::File` by putting rows in the place of nonterminals.

use clu_lexer::Symbol;
use clu_tree::NodeKind;

/// The nonterminals, in the order of the grammar's text. Those that end in `Rest` read what
/// follows a first symbol that has been taken; the endings `Expr`, `Call` and `Stmt` stand for a
/// chain of postfixes in an expression, where only a call may stand, and at the front of a
/// statement.
#[derive(Clone, Copy)]
pub enum Nonterminal {
    File,
    Modules,
    Definition,
    ModuleItem,
    Proc,
    Iter,
    RoutineBody,
    RoutineBodyIdn,
    Owns,
    ClusterBody,
    ClusterDefinition,
    ClusterOwns,
    Routines,
    Routine,
    Parms,
    ParmsRest,
    ParmRest,
    ParmType,
    Names,
    Returns,
    Yields,
    Signals,
    ExcsRest,
    ExcRest,
    Where,
    Restrict,
    Opers,
    OperIdn,
    InRest,
    RestrictsRest,
    OperRest,
    TypeSetRest,
    TypeSetOpers,
    TypeSetEquates,
    EquateRest,
    Semicolon,
    OwnRest,
    OwnOne,
    OwnMany,
    OwnEnd,
    DeclRest,
    DeclsRest,
    Decls,
    Constant,
    ConstantRest,
    ConstantsRest,
    AnyType,
    Actuals,
    WordType,
    Types,
    TypesRest,
    FieldTRest,
    FieldTsRest,
    Body,
    BodyIdn,
    Stmts,
    StmtsByWord,
    AfterStmt,
    AfterSemicolon,
    StmtByIdn,
    StmtByNames,
    DeclOne,
    DeclMany,
    DeclEnd,
    PostfixStmt,
    SelectorStmt,
    GetStmt,
    AfterCallStmt,
    IndexStmt,
    IndexTypeStmt,
    IndexOneStmt,
    IndexEndStmt,
    BaseIndexStmt,
    BaseIndexTypeStmt,
    BaseIndexOneStmt,
    BaseIndexEndStmt,
    BaseStmt,
    ForVars,
    ForKind,
    Elses,
    TagArmRest,
    TagArms,
    Variable,
    ExprsInParens,
    Whens,
    WhenParens,
    WhenInside,
    Expr,
    ExprsRest,
    Arguments,
    Unary,
    Operand,
    Operators,
    Pow,
    Mul,
    Add,
    Compare,
    And,
    Or,
    Primary,
    Atom,
    IdnExpr,
    BaseExpr,
    PostfixExpr,
    SelectorExpr,
    Call,
    IdnCall,
    BaseCall,
    PostfixCall,
    SelectorCall,
    AfterCall,
    Dollar,
    AfterDollar,
    FieldERest,
    FieldEsRest,
    Elems,
    ElemsRest,
    ElemsLow,
}

/// What the parser does to the tree after a symbol.
#[derive(Clone, Copy)]
pub enum Action {
    /// A node begins at the symbol just taken.
    Open,
    /// A node begins where the last whole node begins, and holds it; its mark is the symbol just
    /// taken.
    Wrap,
    /// The symbol just taken is the innermost open node's next name if it is an identifier, else
    /// its value.
    Note,
    /// The innermost open node is whole, of this kind, and ends with the symbol just taken.
    Close(NodeKind),
    /// A `[` after an identifier was taken. If it closes before a `$`, the identifier names a
    /// type, and nothing is done; else the innermost open node is closed as a Name, which a new
    /// node holds.
    Base,
    /// The innermost open node is none; its names and children are those of the node around it.
    Give,
}

/// A part of a row.
#[derive(Clone, Copy)]
pub enum Item {
    Terminal(Symbol),
    Nonterminal(Nonterminal),
    Action(Action),
}

/// One way to go on at a nonterminal.
#[derive(Clone, Copy)]
pub enum Row {
    /// One of these symbols, and then the items.
    Take(&'static [Symbol], &'static [Item]),
    /// The items, where one of these symbols comes next.
    Peek(&'static [Symbol], &'static [Item]),
    /// The items, whatever comes next.
    Otherwise(&'static [Item]),
}
