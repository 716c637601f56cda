//! That what a file binds is what its nodes declare, and so what `settle` of clu_settle says that its names stand for. The
//! functions do nothing: their contracts are the laws.
#![tactic(auto)]

ghost use Rattle.std.specs.Prelude.{◌≡◌, ◌≤◌, ◌^◌, ℕ, true, List, length};
ghost use Rattle.clu_base.specs.declared.tokens.Token.{Token};
ghost use Rattle.clu_lexer.specs.Tokens.{Tokens};
ghost use Rattle.clu_tree.specs.declared.node.Node.{Node};
ghost use Rattle.clu_parser.specs.Trees.{Text};
ghost use Rattle.clu_parser.specs.Order.{IsFileOver};
ghost use Rattle.clu_syntax.specs.declared.round.Round.{Round};
ghost use Rattle.clu_syntax.specs.Rounds.{AreRounds};
ghost use Rattle.clu_syntax.specs.Syntax.{Identifier};
ghost use Rattle.clu_names.specs.Scopes.{declarations};
ghost use Rattle.clu_meaning.specs.Scoping.{Scope, bound_at};
ghost use Rattle.clu_checking.specs.Files.{scope_in};
ghost use Rattle.clu_settle.specs.declared.settling.Values.{Values};
ghost use Rattle.clu_settle.specs.Names.{AreMeanings};
ghost use Rattle.clu_settle.specs.Meant.{meanings_of};
ghost use Rattle.clu_settle.specs.Settled.{AreSettled};
ghost use Rattle.clu_declares.specs.Declares.{IsParsed, AreFew, has, declared_by};

/// What a file binds at a node is what this node says.
pub fn bindings_said()
    ensures { (t : Text) (nodes : List Node) (rounds : List Round) → IsParsed t nodes → AreRounds nodes rounds → (n : ℕ) (name : Identifier) → has (scope_in nodes rounds).bindings n name ≡ true → bound_at (scope_in nodes rounds).bindings n name ≡ bound_at (declared_by nodes rounds n) n name }
{}

/// What a node declares is bound by its file.
pub fn declared_bound()
    ensures { (t : Text) (nodes : List Node) (rounds : List Round) → IsParsed t nodes → AreRounds nodes rounds → (n : ℕ) (name : Identifier) → has (declared_by nodes rounds n) n name ≡ true → has (scope_in nodes rounds).bindings n name ≡ true }
{}

/// What `settle` of clu_settle says that names stand for is what they mean in the scope of the file.
pub fn meanings_said()
    ensures { (t : Text) (nodes : List Node) (rounds : List Round) → IsParsed t nodes → AreRounds nodes rounds → AreFew nodes rounds → AreMeanings nodes (scope_in nodes rounds) (meanings_of nodes rounds (declarations nodes rounds)) }
{}

/// So the values that it gives are those of the nodes in the scope of the file.
pub fn values_said()
    ensures { (t : Text) (nodes : List Node) (rounds : List Round) → IsParsed t nodes → AreRounds nodes rounds → AreFew nodes rounds → (all : Values) → all.meanings.items ≡ meanings_of nodes rounds (declarations nodes rounds) → ((scope : Scope) → AreMeanings nodes scope all.meanings.items → AreSettled nodes scope all.types all.constants all.values.items) → AreSettled nodes (scope_in nodes rounds) all.types all.constants all.values.items }
{}

/// A tree over so many tokens as a source of a MiB may have has few nodes and declarations.
pub fn few_declared()
    ensures { (t : Text) (nodes : List Node) (rounds : List Round) (tokens : ℕ) → IsParsed t nodes → IsFileOver tokens nodes → tokens ≤ 2 ^ 20 → AreFew nodes rounds }
{}

/// So has that of a source of at most a MiB, since each token takes a byte.
pub fn few_of_source()
    ensures { (bytes : List ℕ) (tokens : List Token) (t : Text) (nodes : List Node) (rounds : List Round) → Tokens bytes tokens → IsParsed t nodes → IsFileOver (length tokens) nodes → length bytes ≤ 2 ^ 20 → AreFew nodes rounds }
{}
