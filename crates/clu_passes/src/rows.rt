//! That the row of a node, as `clu_typing` reads it from what is known of the node and of those before it, has the raises of its row
//! of the definitions.

ghost use Rattle.std.specs.Prelude.{◌≡◌, ℕ, List, true};
ghost use Rattle.clu_grammar.specs.Kinds.{is_statement};
ghost use Rattle.clu_parser.specs.Trees.{Text};
ghost use Rattle.clu_meaning.specs.Scoping.{Scope};
ghost use Rattle.clu_declares.specs.Declares.{IsParsed};
ghost use Rattle.clu_checking.specs.Specifications.{Specification};
ghost use Rattle.clu_checking.specs.Files as files;
ghost use Rattle.clu_checking.specs.Files.{File, item};
ghost use Rattle.clu_checking.specs.Raising.{by_statement};
ghost use Rattle.clu_bindings.specs.Readers.{children_in, kind_in};
ghost use Rattle.clu_name_rules.specs.declared.tables.Tables.{Tables};
ghost use Rattle.clu_type_rules.specs.declared.known.Known.{Known};
ghost use Rattle.clu_typing.specs.declared.applied.Applied.{Applied};
ghost use Rattle.clu_typing.specs.declared.facts.Facts.{Facts};
ghost use Rattle.clu_typing.specs.Facts.{raised_at};
ghost use Rattle.clu_typing.specs.Raised as kept;
ghost use Rattle.clu_typing.specs.Raises.{raised_told, row_told};
ghost use Rattle.clu_typing.specs.Raising.{AreRaises, IsSet};
ghost use Rattle.clu_typing.specs.Sets.{HaveSame};
ghost use Rattle.clu_passes.specs.ConstantTables.{file_with, AreTables, IsIndexKnown};
ghost use Rattle.clu_passes.specs.NotedLists.{types_given};
ghost use Rattle.clu_passes.specs.Raised.{raises_of, row_of};
ghost use Rattle.clu_passes.specs.RowsTold.{StandsElsewhere};
ghost use Rattle.clu_passes.specs.StandsFor.{AreOperands, NodeStandsFor};
ghost use Rattle.clu_passes.specs.TableRaises.{AreSame};

/// Where that for which the node stands and the types of its children are so.
pub fn rows_told()
    ensures { (t : Text) (tables : Tables) (scope : Scope) (library : List Specification) (refused : List ℕ) → IsParsed t tables.file.syntax.now → AreTables (file_with tables.file scope library refused) tables → (facts : Facts) (n : ℕ) (its : Applied) → IsIndexKnown tables.file n → NodeStandsFor (file_with tables.file scope library refused) tables.types.now facts (kind_in tables.file n) n its → StandsElsewhere (kind_in tables.file n) its → AreOperands (file_with tables.file scope library refused) tables.types.now (types_given facts.types.items (children_in tables.file n)) (kind_in tables.file n) n → HaveSame (row_told tables.file tables.types.now facts its n) (row_of (file_with tables.file scope library refused) (raised_told tables.types.now facts) n) }
{}

/// A set of raises that is right, and tells what a statement raises, has each raise that the definition has, and no other.
pub fn sets_judged()
    ensures { (k : Known) → AreRaises k.tables.types.now k.facts.now.finding.words k.facts.now.raising → (f : File) (n : ℕ) → is_statement (files.kind_in f n) ≡ true → IsSet k.facts.now.raising (raised_at k.facts.now n) → HaveSame (raised_told k.tables.types.now k.facts.now n) (raises_of f n) → AreSame k (kept.raises_of k.facts.now.raising (raised_at k.facts.now n)) (by_statement f (item f n).statement) }
{}
