//! What surrounds a node.

/// What is wanted where a node stands.
#[derive(Clone, Copy, Debug)]
pub enum Role {
    /// A module, a declaration, a statement or a part of one of these: neither an expression nor a type.
    Part,
    /// An expression with exactly one result.
    Object,
    /// A constant or a type: the right side of an Equate, or an actual parameter of a NameT.
    Constant,
    /// A type.
    Type,
    /// A child of an Index after whose first child, a Name, the `[` stands: the name of an object or of a module, and an
    /// index or actual parameters.
    Instance,
    /// A call with any number of results: a statement, or what several variables name.
    Results,
    /// The call of a loop.
    LoopCall,
}

/// What surrounds a node of a tree. Nodes are given by their numbers. Nodes come after their children, in the order of
/// the text, so what stands in a body is a range of numbers.
#[derive(Clone, Copy)]
pub struct Round {
    /// The node whose child it is.
    pub parent: Option<u32>,
    /// The first node of its own subtree, which ends with itself.
    pub first: u32,
    /// The first and the last node of the innermost body, type set, routine, cluster, module or file round it. A Decl or a
    /// type before the body of a loop or an arm counts to that body; a condition and the call of a loop stand outside of
    /// it. No node stands in a body whose last node is below its first one.
    pub body_first: u32,
    pub body_last: u32,
    /// The Module node round it.
    pub unit: Option<u32>,
    /// The Cluster node round it.
    pub cluster: Option<u32>,
    /// The Routine node round it.
    pub routine: Option<u32>,
    /// The innermost Except or Resignal of the routine in whose statement, not in whose arms, it stands. That node's own
    /// `guard` is the next one outward.
    pub guard: Option<u32>,
    /// Whether a loop of the routine stands round it.
    pub in_loop: bool,
    /// Whether it belongs to the heading of a module: its leading equates, its parameters, arguments, results, signals
    /// and where clauses, and a cluster's equates but `rep`.
    pub heading: bool,
    /// What is wanted where it stands.
    pub role: Role,
}

/// What surrounds the root of a tree.
pub const OUTSIDE: Round = Round {
    parent: None,
    first: 0,
    body_first: 0,
    body_last: 0,
    unit: None,
    cluster: None,
    routine: None,
    guard: None,
    in_loop: false,
    heading: false,
    role: Role::Part,
};
