//! That compiled code and the meaning of programs have the same operations that texts and schemes define, with the same
//! counts. The functions do nothing: their contracts are the laws.
#![tactic(auto)]

ghost use Rattle.std.specs.Prelude.{◌≡◌, ℕ, ◌+◌, ◌*◌, ◌<◌, ◌^◌, List, length};
ghost use Rattle.std.specs.Option.{option_map};
ghost use Rattle.clu_types.specs.CluType.{CluType};
ghost use Rattle.clu_types.specs.declared.term.Field.{Field};
ghost use Rattle.clu_types.specs.declared.term.Term.{Term};
ghost use Rattle.clu_types.specs.Arena.{fields_at, type_of};
ghost use Rattle.clu_rt_data.specs.Schemes.{scheme_nodes};
ghost use Rattle.clu_rt_data.specs.Texts.{text_count};
ghost use Rattle.clu_meaning.specs.Counting.{routine_count};
ghost use Rattle.clu_meaning.specs.Schemes.{scheme_count};
ghost use Rattle.clu_meaning.specs.Texts.{text_named, texts_of};

/// The code of a term has the operation of this name that a text defines just if the type that the term is has one, and
/// counts what the text counts.
pub fn text_counts()
    ensures { (types : List CluType) (t : Term) (op : List ℕ) → text_count t op ≡ option_map routine_count (text_named (texts_of (type_of types t)) op) }
{}

/// The code of a scheme over these fields of a term has the count of the scheme of the type that the term is, if this fits
/// 32 bits.
pub fn scheme_counts()
    ensures { (types : List CluType) (fields : List Field) → 8 + 8 * length fields < 2 ^ 32 → scheme_nodes (length fields) ≡ scheme_count (fields_at types fields) }
{}
