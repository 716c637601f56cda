//! That the names of modules that `named` of `clu_check_mod` gives of an accepted source are those of the modules that each of its
//! modules names.

ghost use Rattle.std.specs.Prelude.{List, None};
ghost use Rattle.clu_tree.specs.declared.node.Node.{Node};
ghost use Rattle.clu_syntax.specs.Syntax.{Identifier};
ghost use Rattle.clu_types.specs.declared.spec.Spec.{Spec};
ghost use Rattle.clu_check_mod.specs.Naming.{AreNamed};
ghost use Rattle.clu_check_mod.specs.declared.walk.Extent.TheVariants as extent;
ghost use Rattle.clu_checked.specs.Naming.{AreModulesNamed};
ghost use Rattle.clu_checked.specs.Sources.{HasSource};
ghost use Rattle.clu_checked.specs.Violations.{IsFirstViolation};

/// If no rule is violated in the tree of a source, the names that are noted of its modules are, module by module, those of the other
/// modules of the file and of the library that the definitions say that it names.
pub fn named_of_source()
    ensures { (nodes : List Node) (library : List Spec) → HasSource nodes → IsFirstViolation nodes library extent.Whole None → (named : List (List Identifier)) → AreNamed nodes named → AreModulesNamed nodes library named }
{}
