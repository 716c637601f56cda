//! The laws, by families of operations. The functions do nothing: their contracts are the laws.

ghost use Rattle.clu_types.specs.CluType.{CluType, array_of, bool_type, char_type, int_type, iter_of, null_type, oneof_of};
ghost use Rattle.clu_types.specs.CluType.{proc_of, record_of, sequence_of, stream_type, string_type, struct_of, variant_of};
ghost use Rattle.laws_operations.specs.Rows.{Each, EachField, OfFields, OfRoutines, Right};
ghost use Rattle.laws_operations.specs.PlainCodes.{bool_rows, plain_rows, same_object_rows, stream_rows, string_rows};
ghost use Rattle.laws_operations.specs.Leaves.{ComesInOneStep};
ghost use Rattle.laws_operations.specs.LoopCodes.{indexc_row, indexs_row, string_compared_rows};
ghost use Rattle.laws_operations.specs.LoopRows.{EachSteps, StepsRight};
ghost use Rattle.laws_operations.specs.Puts.{PutRight, PutsInTwoSteps, SetsRight, store_row};
ghost use Rattle.laws_operations.specs.CellSteps.{ChangesVariants, CreatesRight, MakesCellRight, MakesVariants, PredictsRight, SetsLowRight, new_row};
ghost use Rattle.laws_operations.specs.Steps.{MakesOneofs, MakesRight, c2s_row, e2s_row};
ghost use Rattle.laws_operations.specs.LoadCodes.{array_rows, component_rows, sequence_rows, string_load_rows, tag_rows};
ghost use Rattle.laws_operations.specs.NumberCodes.{char_rows, int_rows};

/// Each of these operations of int and char does what its code does: `add`, `sub`, `mul` and `minus` overflow just where the exact
/// result is no int, `div` at the least int by -1 alone.
pub fn numbers_do_as_their_rows()
    ensures ints { Each (Right int_type) int_rows }
    ensures chars { Each (Right char_type) char_rows }
{}

/// Each of these operations of null, bool, string, streams and routines does what its code does, and two arrays, records or
/// variants are equal just if they are the same.
pub fn words_tell_objects_apart()
    ensures nulls { Each (Right null_type) plain_rows }
    ensures bools { Each (Right bool_type) bool_rows }
    ensures strings { Each (Right string_type) string_rows }
    ensures streams { Each (Right stream_type) stream_rows }
    ensures procs { OfRoutines proc_of plain_rows }
    ensures iters { OfRoutines iter_of plain_rows }
    ensures arrays { (t : CluType) → Each (Right (array_of t)) same_object_rows }
    ensures records { OfFields record_of same_object_rows }
    ensures variants { OfFields variant_of same_object_rows }
{}

/// Each of these operations of strings, sequences and arrays, which look into the words of one, does what its code does: at each
/// index from the first to the last, and with `bounds` at all others.
pub fn loads_do_as_their_rows()
    ensures strings { Each (Right string_type) string_load_rows }
    ensures sequences { (t : CluType) → Each (Right (sequence_of t)) sequence_rows }
    ensures arrays { (t : CluType) → Each (Right (array_of t)) array_rows }
{}

/// Each operation that gets a component of a record or struct, or asks for or gets the value of a tag of a oneof or variant, does
/// what its code does, with `wrong_tag` just where the object has another tag.
pub fn selectors_do_as_their_rows()
    ensures records { EachField record_of component_rows }
    ensures structs { EachField struct_of component_rows }
    ensures oneofs { EachField oneof_of tag_rows }
    ensures variants { EachField variant_of tag_rows }
{}

/// `store` of arrays and `set_s` of records put the word of the last argument into the cell, after which each mutable object lies
/// in its cell as the operation leaves it; `store` signals `bounds` at each index that the array doesn't have, and puts nothing.
pub fn puts_do_as_their_rows()
    ensures store { (t : CluType) → PutRight (array_of t) store_row }
    ensures set { SetsRight }
    ensures entered { PutsInTwoSteps }
{}

/// A routine without a frame that is a value gives this value in one step and no turn.
pub fn leaves_come_in_one_step()
    ensures { ComesInOneStep }
{}

/// `c2s`, `e2s` and `make_s` of oneofs make their object of two new words, with no more words and steps than they count.
pub fn pairs_do_as_their_rows()
    ensures strings { MakesRight string_type c2s_row }
    ensures sequences { (t : CluType) → MakesRight (sequence_of t) e2s_row }
    ensures oneofs { MakesOneofs }
{}

/// `make_s` of variants, and `new`, `create` and `predict` of arrays, make their object of new words in a cell more; `change_s`
/// puts tag and value into its variant, and `set_low` the low bound into its array; with no more words and steps than they count.
/// `create`, `predict` and `set_low` fail just where the bounds would leave the ints.
pub fn cells_do_as_their_rows()
    ensures made { MakesVariants }
    ensures changed { ChangesVariants }
    ensures emptied { (t : CluType) → MakesCellRight (array_of t) new_row }
    ensures created { CreatesRight }
    ensures predicted { PredictsRight }
    ensures lowered { SetsLowRight }
{}

/// Each of these operations of strings, whose routine goes over the bytes in a loop, does what its routine does: `lt`, `le`, `ge`,
/// `gt`, `equal` and `similar`, where a proper prefix is less and an empty string is less than all others, `indexc` and `indexs`.
/// Whatever turns there are besides, the routine spends at most 32 for each unit of the operation's work, and counts at most 64
/// steps.
pub fn searches_do_as_their_rows()
    ensures compared { EachSteps string_type string_compared_rows }
    ensures indexc { StepsRight string_type indexc_row }
    ensures indexs { StepsRight string_type indexs_row }
{}
