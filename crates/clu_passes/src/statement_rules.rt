//! That the rules on statements, as `clu_type_rules` asks them of tables, are those of the definitions, where each table is what
//! its own definition says.

ghost use Rattle.std.specs.Prelude.{◌≡◌, ℕ, List, Option};
ghost use Rattle.clu_tree.specs.Nodes.{IsTree};
ghost use Rattle.clu_syntax.specs.Rounds.{AreRounds};
ghost use Rattle.clu_checking.specs.Files.{File};
ghost use Rattle.clu_checking.specs.StatementRules.{v28, v29};
ghost use Rattle.clu_type_rules.specs.declared.routines.Parts.{Parts};
ghost use Rattle.clu_type_rules.specs.Leaving.{is_outside_loop, is_outside_iterator};
ghost use Rattle.clu_passes.specs.Routines.{StandInRoutines, AreParts};

/// V28.
pub fn v28_by_tables()
    ensures { (f : File) (n : ℕ) → v28 f n ≡ is_outside_loop f.nodes f.rounds n }
{}

/// The routine round a node is one, in a tree whose nodes are surrounded as their parents say.
pub fn stands_in_routine()
    ensures { (f : File) → IsTree f.nodes → AreRounds f.nodes f.rounds → StandInRoutines f }
{}

/// V29, where the table has the parts of each routine.
pub fn v29_by_tables()
    ensures { (f : File) → StandInRoutines f → (parts : List (Option Parts)) → AreParts f parts → (n : ℕ) → v29 f n ≡ is_outside_iterator f.nodes f.rounds parts n }
{}
