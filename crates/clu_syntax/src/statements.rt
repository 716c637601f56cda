//! Statements and bodies as their parts.

ghost use Rattle.std.specs.Prelude.{◌≡◌, ◌<◌, ◌≤◌, All, ℕ, length, take, drop, Some};
ghost use Rattle.clu_syntax.specs.Enough.{HasEnough};
ghost use Rattle.clu_syntax.specs.Items.{Item};
ghost use Rattle.clu_syntax.specs.Nodes.{body_of, clauses_of, except_of, for_of, if_of, init_of, otherwise_of, statement_of, tagcase_of};
ghost use Rattle.clu_syntax.specs.Kinds.{kind_at};
ghost use Rattle.clu_syntax.specs.Parts.{are_fewer, body_parts, clause_parts, otherwise_parts, statement_parts};
ghost use Rattle.clu_syntax.specs.Splits.{after_run, child, leading_before, leading_items, run};
ghost use Rattle.clu_syntax.specs.Syntax.{clause_and};
ghost use Rattle.clu_syntax.specs.Views.{body_told, clauses_told, otherwise_told, statement_told};

use crate::splits::{child, last_child, leading_before, leading_items, name_at, one_of, run};
use clu_base::Bytes;
use clu_tree::{Node, NodeKind, Tree};

/// The equates of a body and its statements.
#[derive(Clone, Copy)]
pub struct Body<'a> {
    pub equates: &'a [u32],
    pub statements: &'a [u32],
}

/// The clauses of an If, each a condition and a body.
#[derive(Clone, Copy)]
pub struct Clauses<'a> {
    rest: &'a [u32],
}

/// `condition then body`
#[derive(Clone, Copy)]
pub struct Clause<'a> {
    pub condition: u32,
    pub body: Body<'a>,
}

/// A statement (CLU Reference Manual, sections 9 and 11).
#[derive(Clone, Copy)]
pub enum Statement<'a> {
    /// `name, ..: type`, a Decl.
    Declare {
        declaration: u32,
    },
    /// `name: declared := value`
    Init {
        name: &'a Bytes,
        declared: u32,
        value: u32,
    },
    /// `declaration, .. := call`; each declaration is a Decl.
    InitByCall {
        declarations: &'a [u32],
        call: u32,
    },
    /// `name, .. := value, ..`, as many as there are names, or one call.
    Assign {
        names: &'a [Bytes],
        values: &'a [u32],
    },
    /// `of.selector := value`
    SetField {
        of: u32,
        selector: &'a Bytes,
        value: u32,
    },
    /// `of[index] := value`
    SetIndex {
        of: u32,
        index: u32,
        value: u32,
    },
    /// A call.
    Call {
        call: u32,
    },
    /// `while condition do body end`
    While {
        condition: u32,
        body: Body<'a>,
    },
    /// `for declaration, .. in call do body end`; each declaration is a Decl.
    For {
        declarations: &'a [u32],
        call: u32,
        body: Body<'a>,
    },
    /// `for name, .. in call do body end`
    ForNames {
        names: &'a [Bytes],
        call: u32,
        body: Body<'a>,
    },
    /// `if clause elseif clause .. else otherwise end`
    If {
        clauses: Clauses<'a>,
        otherwise: Option<Body<'a>>,
    },
    /// `tagcase of arm .. others: otherwise end`; each arm is a TagArm.
    Tagcase {
        of: u32,
        arms: &'a [u32],
        otherwise: Option<Body<'a>>,
    },
    /// `return (value, ..)`
    Return {
        values: &'a [u32],
    },
    /// `yield (value, ..)`
    Yield {
        values: &'a [u32],
    },
    /// `signal name (value, ..)`
    Signal {
        name: &'a Bytes,
        values: &'a [u32],
    },
    /// `exit name (value, ..)`
    Exit {
        name: &'a Bytes,
        values: &'a [u32],
    },
    /// `break`
    Break,
    /// `continue`
    Continue,
    /// `begin body end`
    Begin {
        body: Body<'a>,
    },
    /// `statement resignal name, ..`
    Resignal {
        statement: u32,
        names: &'a [Bytes],
    },
    /// `statement except arm .. others end`; each arm is a When, `others` an Others.
    Except {
        statement: u32,
        arms: &'a [u32],
        others: Option<u32>,
    },
}

/// A body by its nodes.
pub fn body_in<'a>(tree: &Tree, n: u32, children: &'a [u32]) -> Body<'a>
    requires inside { n < length tree.now }
    requires below { All (λ c. c < n) children.now }
    ensures told { (items : ℕ → Item) → body_told items result ≡ body_of items tree.now children.now }
    ensures parts { body_parts tree.now n result }
{
    let (equates, statements) = run(tree, n, NodeKind::Equate, children);
    Body {
        equates,
        statements,
    }
}

/// The body after the value of a node, if it has one.
fn otherwise_in<'a>(
    tree: &Tree,
    n: u32,
    value: Option<u32>,
    children: &'a [u32],
) -> Option<Body<'a>>
    requires inside { n < length tree.now }
    requires below { All (λ c. c < n) children.now }
    ensures told { (items : ℕ → Item) → otherwise_told items result ≡ otherwise_of items tree.now value children.now }
    ensures parts { otherwise_parts tree.now n result }
{
    match value {
        Some(_) => Some(body_in(tree, n, children)),
        None => None,
    }
}

/// The first of these clauses, and those after it; None if there are no more. Of an If no item stands before its first
/// condition.
pub fn clause_in<'a>(tree: &Tree, n: u32, clauses: Clauses<'a>) -> Option<(Clause<'a>, Clauses<'a>)>
    requires inside { n < length tree.now }
    requires below { All (λ c. c < n) clauses.rest.now }
    ensures told { (items : ℕ → Item) → clauses_told items tree.now result ≡ clauses_of items tree.now clauses.entry.rest.now }
    ensures parts { clause_parts tree.now n result }
    ensures shorter { are_fewer result clauses.entry.rest.now }
{
    let (_, clauses) = clauses.rest.split_at(leading_items(tree, n, clauses.rest));
    match clauses {
        [] => None,
        [condition, rest @ ..] => Some(clause_at(tree, n, *condition, rest)),
    }
}

/// The clause with this condition, and the clauses after it.
fn clause_at<'a>(tree: &Tree, n: u32, condition: u32, rest: &'a [u32]) -> (Clause<'a>, Clauses<'a>)
    requires condition { condition < n }
    requires inside { n < length tree.now }
    requires below { All (λ c. c < n) rest.now }
    ensures told { (items : ℕ → Item) → clauses_told items tree.now (Some result) ≡ clause_and (items condition).expression (body_of items tree.now (take (leading_items tree.now rest.now) rest.now)) (clauses_of items tree.now (drop (leading_items tree.now rest.now) rest.now)) }
    ensures parts { clause_parts tree.now n (Some result) }
    ensures shorter { length result.1.rest.now ≤ length rest.now }
{
    let (body, rest) = rest.split_at(leading_items(tree, n, rest));
    let clause = Clause {
        condition,
        body: body_in(tree, n, body),
    };
    (clause, Clauses { rest })
}

fn if_in<'a>(tree: &Tree, n: u32, node: &'a Node) -> Statement<'a>
    requires inside { n < length tree.now }
    requires below { All (λ c. c < n) node.now.children }
    ensures told { (items : ℕ → Item) (n : ℕ) → statement_told items tree.now n result ≡ if_of items tree.now n node.now (leading_before tree.now node.now node.now.children) }
    ensures parts { statement_parts tree.now n result }
{
    let children = node.children.as_slice();
    let (rest, otherwise) = children.split_at(leading_before(tree, n, node, children));
    Statement::If {
        clauses: Clauses { rest },
        otherwise: otherwise_in(tree, n, node.value_token, otherwise),
    }
}

fn init_in<'a>(tree: &Tree, n: u32, node: &'a Node) -> Statement<'a>
    requires enough { 1 < length node.now.children }
    requires inside { n < length tree.now }
    requires below { All (λ c. c < n) node.now.children }
    ensures told { (items : ℕ → Item) (n : ℕ) → statement_told items tree.now n result ≡ init_of items tree.now n node.now node.now.names }
    ensures parts { statement_parts tree.now n result }
{
    match node.names.as_slice() {
        [] => Statement::InitByCall {
            declarations: run(tree, n, NodeKind::Decl, node.children.as_slice()).0,
            call: last_child(n, node),
        },
        [name, ..] => Statement::Init {
            name,
            declared: child(n, node, 0),
            value: child(n, node, 1),
        },
    }
}

fn for_in<'a>(tree: &Tree, n: u32, names: &'a [Bytes], children: &'a [u32]) -> Statement<'a>
    requires inside { n < length tree.now }
    requires below { All (λ c. c < n) children.now }
    ensures told { (items : ℕ → Item) (n : ℕ) → statement_told items tree.now n result ≡ for_of items tree.now n names.now (run tree.now NodeKind.Decl children.now) (after_run tree.now NodeKind.Decl children.now) }
    ensures parts { statement_parts tree.now n result }
{
    let (declarations, rest) = run(tree, n, NodeKind::Decl, children);
    match rest {
        [] => Statement::Break,
        [call, rest @ ..] => {
            let body = body_in(tree, n, rest);
            match names {
                [] => Statement::For {
                    declarations,
                    call: *call,
                    body,
                },
                _ => Statement::ForNames {
                    names,
                    call: *call,
                    body,
                },
            }
        }
    }
}

fn tagcase_in<'a>(tree: &Tree, n: u32, node: &Node, of: u32, children: &'a [u32]) -> Statement<'a>
    requires of { of < n }
    requires inside { n < length tree.now }
    requires below { All (λ c. c < n) children.now }
    ensures told { (items : ℕ → Item) (n : ℕ) → statement_told items tree.now n result ≡ tagcase_of items tree.now n of node.now.value_token children.now }
    ensures parts { statement_parts tree.now n result }
{
    let (arms, otherwise) = run(tree, n, NodeKind::TagArm, children);
    Statement::Tagcase {
        of,
        arms,
        otherwise: otherwise_in(tree, n, node.value_token, otherwise),
    }
}

fn except_in<'a>(tree: &Tree, n: u32, statement: u32, children: &'a [u32]) -> Statement<'a>
    requires statement { statement < n }
    requires inside { n < length tree.now }
    requires below { All (λ c. c < n) children.now }
    ensures told { (items : ℕ → Item) (n : ℕ) → statement_told items tree.now n result ≡ except_of items tree.now n statement children.now }
    ensures parts { statement_parts tree.now n result }
{
    let (arms, rest) = run(tree, n, NodeKind::When, children);
    Statement::Except {
        statement,
        arms,
        others: one_of(tree, n, NodeKind::Others, rest),
    }
}

/// What a statement is made of.
pub fn statement_in<'a>(tree: &Tree, n: u32, node: &'a Node) -> Statement<'a>
    requires enough { HasEnough node.now }
    requires inside { n < length tree.now }
    requires below { All (λ c. c < n) node.now.children }
    requires declared { node.now.kind ≡ NodeKind.Declare → kind_at tree.now (child 0 node.now) ≡ NodeKind.Decl }
    ensures told { (items : ℕ → Item) (n : ℕ) → statement_told items tree.now n result ≡ statement_of items tree.now n node.now node.now.kind }
    ensures parts { statement_parts tree.now n result }
{
    let children = node.children.as_slice();
    let names = node.names.as_slice();
    match node.kind {
        NodeKind::Declare => Statement::Declare {
            declaration: child(n, node, 0),
        },
        NodeKind::Init => init_in(tree, n, node),
        NodeKind::Assign => Statement::Assign {
            names,
            values: children,
        },
        NodeKind::SetField => Statement::SetField {
            of: child(n, node, 0),
            selector: name_at(names, 0),
            value: child(n, node, 1),
        },
        NodeKind::SetIndex => Statement::SetIndex {
            of: child(n, node, 0),
            index: child(n, node, 1),
            value: child(n, node, 2),
        },
        NodeKind::CallS => Statement::Call {
            call: child(n, node, 0),
        },
        NodeKind::While => Statement::While {
            condition: child(n, node, 0),
            body: body_in(tree, n, &children[1..]),
        },
        NodeKind::For => for_in(tree, n, names, children),
        NodeKind::If => if_in(tree, n, node),
        NodeKind::Tagcase => tagcase_in(tree, n, node, child(n, node, 0), &children[1..]),
        NodeKind::Return => Statement::Return { values: children },
        NodeKind::Yield => Statement::Yield { values: children },
        NodeKind::Signal => Statement::Signal {
            name: name_at(names, 0),
            values: children,
        },
        NodeKind::Exit => Statement::Exit {
            name: name_at(names, 0),
            values: children,
        },
        NodeKind::Continue => Statement::Continue,
        NodeKind::Begin => Statement::Begin {
            body: body_in(tree, n, children),
        },
        NodeKind::Resignal => Statement::Resignal {
            statement: child(n, node, 0),
            names,
        },
        NodeKind::Except => except_in(tree, n, child(n, node, 0), &children[1..]),
        _ => Statement::Break,
    }
}
