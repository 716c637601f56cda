//! What holds of each run of word code. The functions do nothing: their contracts are the laws.

ghost use Rattle.std.specs.Prelude.{◌≡◌, ◌+◌, ℕ, zero, false, Option};
ghost use Rattle.clu_wir.specs.Plain.{Stmt, Stmts, stmt_and};
ghost use Rattle.clu_word_meaning.specs.Growing.{Front, Lasts, output_of};
ghost use Rattle.clu_word_meaning.specs.Levels.{Callee, run};
ghost use Rattle.clu_word_meaning.specs.World.{World};
ghost use Rattle.clu_word_meaning.specs.Words.{Body, Entry, Linked, State, exec_all, is_around, out_of_turns};

/// A program that is out of turns has spent all that it was given.
pub fn spends_all()
    ensures { (program : ℕ → Option Callee) (start live : ℕ) (world : World) (turns : ℕ) (st : State) → run program start live world turns ≡ out_of_turns st → st.meters.spent ≡ turns }
{}

/// Without turns a list stops before its first statement, as the state is there, unless this is one whose list begins first.
pub fn stops_before()
    ensures { (l : Linked) (entries : ℕ → Entry) (body : Body) (live : ℕ) (s : Stmt) (rest : Stmts) (st : State) → is_around s ≡ false → exec_all l entries body live (stmt_and s rest) zero st ≡ out_of_turns st }
{}

/// With more turns a program is the same, with these left besides; if it was out of turns, it goes on from what it had written.
pub fn more_turns()
    ensures { (program : ℕ → Option Callee) (start live : ℕ) (world : World) (turns more : ℕ) → Lasts more (run program start live world turns) (run program start live world (turns + more)) }
{}

/// Nothing that was written is taken back.
pub fn only_grows()
    ensures { (program : ℕ → Option Callee) (start live : ℕ) (world : World) (turns : ℕ) → Front world.output (output_of (run program start live world turns)) }
{}
