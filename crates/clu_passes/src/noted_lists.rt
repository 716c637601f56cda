//! That the lists of what is invoked and named have of each node what was noted there.

ghost use Rattle.std.specs.Prelude.{◌≡◌, ◌<◌, ℕ, suc, List, Option};
ghost use Rattle.clu_types.specs.declared.term.Term.{Term};
ghost use Rattle.clu_types.specs.declared.term.TypeId.{TypeId};
ghost use Rattle.clu_syntax.specs.Kinds.{kind_at};
ghost use Rattle.clu_meaning.specs.Scoping.{Scope};
ghost use Rattle.clu_bindings.specs.declared.file.File.{File as Read};
ghost use Rattle.clu_bindings.specs.Readers.{children_in, wanted_in};
ghost use Rattle.clu_operations.specs.declared.finding.Finding.{Finding};
ghost use Rattle.clu_checking.specs.Specifications.{Specification};
ghost use Rattle.clu_checking.specs.Wanted.{wanted};
ghost use Rattle.clu_checking.specs.Invocations as invoking;
ghost use Rattle.clu_typing.specs.declared.applied.Applied.{Applied};
ghost use Rattle.clu_typing.specs.declared.facts.Facts.{Facts};
ghost use Rattle.clu_typing.specs.declared.facts.Operation.{Operation};
ghost use Rattle.clu_typing.specs.Facts as tables;
ghost use Rattle.clu_typing.specs.Invoking.{Lists, lists_of, begun, with_asker, noted};
ghost use Rattle.clu_passes.specs.ConstantTables.{file_with, wanted_told};
ghost use Rattle.clu_passes.specs.FactTables.{AreInvocations};
ghost use Rattle.clu_passes.specs.NotedLists.{Noted, types_given, node_noted, operations_of, AreNoted, AreOnes, AreWhollyFound};
ghost use Rattle.clu_passes.specs.StandsFor.{AreOperands, NodeStandsFor};

/// What is noted of a node comes behind what was noted of those before it, also with what asks something.
pub fn nodes_noted()
    ensures node { (of : ℕ → Noted) (f : Read) (types : List (Option TypeId)) (finding : Finding) (its : Applied) (l : Lists) (m : ℕ) → AreNoted of l m → of m ≡ node_noted types f its m → AreNoted of (noted f types finding its m (begun l)) (suc m) }
    ensures asker { (of : ℕ → Noted) (finding : Finding) (its : Operation) (l : Lists) (m : ℕ) → AreNoted of l m → AreNoted of (with_asker finding its l) m }
{}

/// What was noted of each node is what is read there.
pub fn nodes_read()
    ensures invocations { (terms : List Term) (facts : Facts) (of : ℕ → Noted) (m : ℕ) → AreNoted of (lists_of facts.invocations) m → (n : ℕ) → n < m → (xs : List invoking.Invocation) → AreOnes terms facts (of n).invoked xs → AreInvocations terms facts (tables.invocations facts n) xs }
    ensures operations { (facts : Facts) (of : ℕ → Noted) (m : ℕ) → AreNoted of (lists_of facts.invocations) m → (n : ℕ) → n < m → tables.operations_at facts n ≡ operations_of (of n) }
{}

/// Where that for which a node stands and the types of its children are so, what is read of it is what is invoked and named there.
pub fn node_read()
    ensures { (r : Read) (scope : Scope) (library : List Specification) (refused : List ℕ) (terms : List Term) (facts : Facts) (types : List (Option TypeId)) (n : ℕ) (its : Applied)
        → wanted_told (wanted_in r n) ≡ wanted (file_with r scope library refused) n
        → (of : ℕ → Noted) (m : ℕ) → AreNoted of (lists_of facts.invocations) m → n < m → of n ≡ node_noted types r its n
        → NodeStandsFor (file_with r scope library refused) terms facts (kind_at r.syntax.now n) n its
        → AreOperands (file_with r scope library refused) terms (types_given types (children_in r n)) (kind_at r.syntax.now n) n
        → AreInvocations terms facts (tables.invocations facts n) (invoking.invocations (file_with r scope library refused) n) × AreWhollyFound terms facts (tables.operations_at facts n) (invoking.operations_at (file_with r scope library refused) n) }
{}
