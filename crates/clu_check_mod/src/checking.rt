//! The check of a file: all tables are made, and then the rules are asked.

ghost use Rattle.std.specs.Prelude.{◌≡◌, All, IfErr, IfOk, OnOk, length, map, nat_lt, take};
ghost use Rattle.clu_tree.specs.Nodes.{modules};
ghost use Rattle.clu_names.specs.Denotes.{bound_to, starts_to};
ghost use Rattle.clu_types.specs.Arena.{Grows};
ghost use Rattle.clu_name_rules.specs.Lengths.{constant_length, lengths_of};
ghost use Rattle.clu_check_mod.specs.Answered.{AreFoundIn, AreLists, AreOwn, AreValues, IsAnswer, IsAnswerWith, IsFirst, IsFirstBy, IsFirstIn, IsFirstOf, IsFirstWith, IsFoundBy, IsFoundIn, IsFoundOf, IsFoundWith, IsNoted, IsUnspecified, IsUnspecifiedBy, IsUnspecifiedIn, IsUnspecifiedWith};
ghost use Rattle.clu_check_mod.specs.Modules.{AreOf, BeginWithOwn, IsClosedAt};
ghost use Rattle.clu_check_mod.specs.Refusals.{IsOfTree};
ghost use Rattle.clu_check_mod.specs.Walks.{AreClosed, IsFound};

use crate::bad::{bad_of_all, refused_nodes};
use crate::errors::CheckError;
use crate::notes::{denoted, named_constants, operations};
use crate::specifications::{add_others, own_specs};
use crate::walk::{Extent, ask_rules};
use clu_base::Memory;
use clu_bindings::{File, Headed, bindings_of};
use clu_circles::Circles;
use clu_constants::Constants;
use clu_core::{Checked, NamedConstant, OpRef};
use clu_head::{Heads, counts_of, heads_of};
use clu_name_rules::{Items, Tables, Words, long_constants, long_types, own_places};
use clu_names::{Names, names_of};
use clu_settle::{Values, equate_circles, settle};
use clu_syntax::{Round, Syntax, rounds};
use clu_type_rules::{Known, Routines, Unmet, disagreeing, unmet_of};
use clu_types::{Spec, Specs, TypeArena, TypeId};
use clu_typing::{Facts, facts_of};
use std::alloc::Global;

/// What is found of a file by its names alone.
#[derive(Drop)]
pub struct Lists {
    pub circles: Circles,
    pub own: Vec<usize>,
    pub words: Box<Words>,
    pub items: Box<Items>,
    pub routines: Box<Routines>,
}

fn lists_of(
    alloc: Global,
    syntax: &Syntax,
    rounds: &[Round],
    names: &Names,
) -> Result<Box<Lists>, Memory>
    requires bound { names.now.bound.items ≡ bound_to syntax.now names.now.declared.items (length syntax.now) }
    requires starts { names.now.starts.items ≡ starts_to syntax.now names.now.declared.items (length syntax.now) }
    ensures { IfOk result (λ lists. AreLists syntax.now rounds.now names.now lists.value) }
{
    let declared = names.declared.as_slice();
    let words = Words::of_tree(alloc, syntax.tree())?;
    let items = Items::of_tree(alloc, syntax, &words, declared)?;
    let lists = Lists {
        circles: equate_circles(alloc, syntax.tree(), rounds, names)?,
        own: own_places(alloc, declared, syntax.tree().len() as usize)?,
        routines: Routines::of_tree(alloc, syntax)?,
        words,
        items,
    };
    Ok(Box::new(alloc, lists)?)
}

/// Which texts are too long for an equated value.
#[derive(Drop)]
pub struct Long {
    pub types: Vec<bool>,
    pub constants: Vec<bool>,
}

fn long_of(alloc: Global, types: &TypeArena, constants: &Constants) -> Result<Long, Memory>
    ensures types { IfOk result (λ long. long.types.items ≡ map (nat_lt 65536) (lengths_of types.now)) }
    ensures constants { IfOk result (λ long. long.constants.items ≡ map (λ c. nat_lt 65536 (constant_length c)) constants.now) }
{
    Ok(Long {
        types: long_types(alloc, types)?,
        constants: long_constants(alloc, constants)?,
    })
}

fn tables<'a>(file: File<'a>, types: &'a TypeArena, lists: &'a Lists, long: &'a Long) -> Tables<'a>
    ensures file { result.file ≡ file.entry }
    ensures types { result.types.now ≡ types.now }
    ensures long_types { result.long_types.now ≡ long.now.types.items }
    ensures long_constants { result.long_constants.now ≡ long.now.constants.items }
    ensures circular { result.circular.now ≡ lists.now.circles.circular.items }
    ensures own { result.own.now ≡ lists.now.own.items }
    ensures words { result.words.now ≡ lists.now.words.value }
    ensures items { result.items.now ≡ lists.now.items.value }
{
    Tables {
        file,
        types,
        long_types: long.types.as_slice(),
        long_constants: long.constants.as_slice(),
        circular: lists.circles.circular.as_slice(),
        own: lists.own.as_slice(),
        words: &lists.words,
        items: &lists.items,
    }
}

/// What is found of the nodes and modules of a file behind its headings.
#[derive(Drop)]
pub struct Found {
    pub type_of: Vec<Option<TypeId>>,
    pub op_of: Vec<Option<OpRef>>,
    /// The specifications of the file's modules, in the order of the text.
    pub own: Vec<Spec>,
}

/// The file with its headings.
fn headed_by<'a>(file: File<'a>, heads: &'a Heads, refused: &'a [usize]) -> Headed<'a>
    ensures file { result.file ≡ file.entry }
    ensures heads { result.heads.now ≡ heads.now }
    ensures refused { result.refused.now ≡ refused.now }
{
    Headed {
        file,
        heads,
        refused,
    }
}

/// What the rules are asked of.
fn known_of<'a>(
    headed: Headed<'a>,
    tables: Tables<'a>,
    facts: &'a Facts,
    lists: &'a Lists,
    disagrees: &'a [bool],
    unmet: &'a [Unmet],
) -> Known<'a>
    ensures headed { result.headed ≡ headed.entry }
    ensures tables { result.tables ≡ tables.entry }
    ensures facts { result.facts.now ≡ facts.now }
    ensures routines { result.routines.now ≡ lists.now.routines.value }
    ensures disagrees { result.disagrees.now ≡ disagrees.now }
    ensures unmet { result.unmet.now ≡ unmet.now }
{
    Known {
        tables,
        headed,
        facts,
        routines: &lists.routines,
        disagrees,
        unmet,
    }
}

/// Asks the rules.
fn ask(
    headed: Headed<'_>,
    types: &mut TypeArena,
    facts: &mut Facts,
    lists: &Lists,
    long: &Long,
    extent: Extent,
) -> Result<(), CheckError>
    ensures closed { extent ≡ Extent.Whole → OnOk result (AreClosed headed.entry.file.syntax.now) }
    ensures refused { IfErr result (IsOfTree headed.entry.file.syntax.now) }
    ensures first { IsAnswerWith result (λ it. IsFoundOf headed.entry types.old facts.old lists.now long.now extent types.new facts.new) (IsFirstOf headed.entry types.old facts.old lists.now long.now extent) ⊥ }
    ensures kept { Grows types.old types.new }
{
    let alloc = headed.file.alloc;
    let unmet = unmet_of(headed, types, facts)?;
    types.sound();
    let nodes = headed.file.syntax.tree().len();
    let disagrees = disagreeing(alloc, &headed.heads.asked, nodes)?;
    let tables = tables(headed.file, types, lists, long);
    let known = known_of(
        headed,
        tables,
        facts,
        lists,
        disagrees.as_slice(),
        unmet.as_slice(),
    );
    let bad = bad_of_all(alloc, &known, lists.circles.order.as_slice())?;
    ask_rules(&known, bad.as_slice(), extent)
}

fn found_of(facts: Box<Facts>, op_of: Vec<Option<OpRef>>, own: Vec<Spec>) -> Found
    ensures types { result.type_of ≡ facts.value.types }
    ensures operations { result.op_of ≡ op_of }
    ensures own { result.own.items ≡ own.items }
{
    let Facts { types: type_of, .. } = Box::into_inner(facts);
    Found {
        type_of,
        op_of,
        own,
    }
}

/// What is found where no rule is violated.
fn check_headed(
    headed: Headed<'_>,
    types: &mut TypeArena,
    lists: &Lists,
    long: &Long,
    extent: Extent,
) -> Result<Box<Found>, CheckError>
    ensures found { IfOk result (λ found. IsFound headed.entry.file.syntax.now extent found.value.own.items) }
    ensures refused { IfErr result (IsOfTree headed.entry.file.syntax.now) }
    ensures first { IsAnswerWith result (λ found. IsFoundBy headed.entry types.old lists.now long.now extent types.new found.value) (IsFirstBy headed.entry types.old lists.now long.now extent) (IsUnspecifiedBy headed.entry types.old lists.now long.now extent) }
{
    let alloc = headed.file.alloc;
    let mut facts = facts_of(headed, types)?;
    ask(headed, types, &mut facts, lists, long, extent)?;
    let op_of = operations(alloc, headed.file.syntax.tree(), types, &facts)?;
    let heads = headed.heads.modules.as_slice();
    let own = own_specs(alloc, headed.file.syntax.tree(), types, heads)?;
    Ok(Box::new(alloc, found_of(facts, op_of, own))?)
}

/// The same, where names and values are known.
fn check_file(
    file: File<'_>,
    types: &mut TypeArena,
    lists: &Lists,
    extent: Extent,
) -> Result<Box<Found>, CheckError>
    requires bound { file.names.now.bound.items ≡ bound_to file.syntax.now file.names.now.declared.items (length file.syntax.now) }
    requires starts { file.names.now.starts.items ≡ starts_to file.syntax.now file.names.now.declared.items (length file.syntax.now) }
    ensures found { IfOk result (λ found. IsFound file.entry.syntax.now extent found.value.own.items) }
    ensures refused { IfErr result (IsOfTree file.entry.syntax.now) }
    ensures first { IsAnswerWith result (λ found. IsFoundIn file.entry types.old lists.now extent types.new found.value) (IsFirstIn file.entry types.old lists.now extent) (IsUnspecifiedIn file.entry types.old lists.now extent) }
{
    let alloc = file.alloc;
    let long = long_of(alloc, types, file.constants)?;
    let order = lists.circles.order.as_slice();
    let refused = refused_nodes(alloc, &tables(file, types, lists, &long), order)?;
    let heads = heads_of(
        alloc,
        file.syntax,
        file.rounds,
        file.names,
        types,
        file.values,
        refused.as_slice(),
    )?;
    let counts = counts_of(alloc, refused.as_slice())?;
    let headed = headed_by(file, &heads, counts.as_slice());
    check_headed(headed, types, lists, &long, extent)
}

/// The same, where what constants and types come to is known.
fn check_settled(
    alloc: Global,
    syntax: &Syntax,
    rounds: &[Round],
    names: &Names,
    settled: &mut Values,
    library: &Specs,
    extent: Extent,
) -> Result<Box<Found>, CheckError>
    requires bound { names.now.bound.items ≡ bound_to syntax.now names.now.declared.items (length syntax.now) }
    requires starts { names.now.starts.items ≡ starts_to syntax.now names.now.declared.items (length syntax.now) }
    ensures found { IfOk result (λ found. IsFound syntax.now extent found.value.own.items) }
    ensures refused { IfErr result (IsOfTree syntax.now) }
    ensures values { settled.new.values ≡ settled.old.values }
    ensures constants { settled.new.constants ≡ settled.old.constants }
    ensures first { IsAnswerWith result (λ found. IsFoundWith syntax.now rounds.now names.now settled.old library.now extent settled.new.types found.value) (IsFirstWith syntax.now rounds.now names.now settled.old library.now extent) (IsUnspecifiedWith syntax.now rounds.now names.now settled.old library.now extent) }
{
    let lists = lists_of(alloc, syntax, rounds, names)?;
    let types = &mut settled.types;
    let values = settled.values.as_slice();
    let bindings = bindings_of(alloc, syntax, rounds, names, types, values, library)?;
    let file = File {
        alloc,
        syntax,
        rounds,
        names,
        values,
        constants: &settled.constants,
        library,
        bindings: &bindings,
    };
    check_file(file, types, &lists, extent)
}

/// What constants and types come to.
fn settled_of(
    alloc: Global,
    syntax: &Syntax,
    rounds: &[Round],
    names: &Names,
) -> Result<Box<Values>, Memory>
    requires bound { names.now.bound.items ≡ bound_to syntax.now names.now.declared.items (length syntax.now) }
    requires starts { names.now.starts.items ≡ starts_to syntax.now names.now.declared.items (length syntax.now) }
    ensures { IfOk result (λ all. AreValues syntax.now rounds.now names.now all.value) }
{
    Ok(Box::new(alloc, settle(alloc, syntax, rounds, names)?)?)
}

/// What is found of a file where no rule is violated, with what constants and types come to.
fn check_syntax(
    alloc: Global,
    syntax: &Syntax,
    library: &Specs,
    extent: Extent,
) -> Result<(Box<Values>, Box<Found>), CheckError>
    ensures found { IfOk result (λ both. IsFound syntax.now extent both.1.value.own.items) }
    ensures refused { IfErr result (IsOfTree syntax.now) }
    ensures first { IsAnswer (IsFirst syntax.now library.now extent) (IsUnspecified syntax.now library.now extent) result }
    ensures noted { IfOk result (λ both. AreFoundIn syntax.now library.now extent both.0.value both.1.value) }
{
    let rounds = rounds(alloc, syntax.tree())?;
    let names = names_of(alloc, syntax.tree(), rounds.as_slice())?;
    let mut settled = settled_of(alloc, syntax, rounds.as_slice(), &names)?;
    let found = check_settled(
        alloc,
        syntax,
        rounds.as_slice(),
        &names,
        &mut settled,
        library,
        extent,
    )?;
    Ok((settled, found))
}

/// The file with all that was found of it.
fn checked(
    syntax: Syntax,
    settled: Box<Values>,
    found: Box<Found>,
    constant_of: Vec<Option<NamedConstant>>,
    denoted: Vec<Option<TypeId>>,
) -> Checked
    ensures syntax { result.syntax ≡ syntax }
    ensures types { result.types ≡ settled.value.types }
    ensures type_of { result.type_of ≡ found.value.type_of }
    ensures op_of { result.op_of ≡ found.value.op_of }
    ensures denoted { result.denoted ≡ denoted }
    ensures constant_of { result.constant_of ≡ constant_of }
    ensures constants { result.constants ≡ settled.value.constants }
    ensures specs { result.specs.items ≡ found.value.own.items }
{
    let Values {
        types,
        constants,
        ..
    } = Box::into_inner(settled);
    let Found {
        type_of,
        op_of,
        own,
    } = Box::into_inner(found);
    Checked {
        syntax,
        types,
        type_of,
        op_of,
        denoted,
        constant_of,
        constants,
        specs: own,
    }
}

/// Checks a file under the specifications of a library, in which those of its own modules take the place of kept ones. Refused at
/// the first node, in the order of the two walks, at which a rule is violated, by the first such rule.
#[tactic(auto, using(crate::proofs::Closed::closed_modules))]
pub fn check(alloc: Global, syntax: Syntax, library: &Specs) -> Result<Box<Checked>, CheckError>
    ensures syntax { IfOk result (λ checked. checked.value.syntax ≡ syntax) }
    ensures specs { IfOk result (λ checked. BeginWithOwn syntax checked.value.specs.items) }
    ensures closed { OnOk result (All (IsClosedAt syntax) (modules syntax)) }
    ensures refused { IfErr result (IsOfTree syntax) }
    ensures first { IsAnswer (IsFirst syntax library.now Extent.Whole) (IsUnspecified syntax library.now Extent.Whole) result }
    ensures noted { IfOk result (λ checked. IsNoted syntax library.now checked.value) }
    ensures made { IfOk result (λ checked. AreOwn syntax library.now Extent.Whole (take (length (modules syntax)) checked.value.specs.items)) }
{
    let (settled, mut found) = check_syntax(alloc, &syntax, library, Extent::Whole)?;
    add_others(alloc, &mut found.own, library)?;
    let constant_of = named_constants(alloc, syntax.tree(), settled.values.as_slice())?;
    let denoted = denoted(alloc, syntax.tree(), settled.values.as_slice())?;
    let checked = checked(syntax, settled, found, constant_of, denoted);
    Ok(Box::new(alloc, checked)?)
}

/// The specifications of all modules of a file, in the order of the text. Refused at the first node of the headings at which a
/// rule is violated.
pub fn specs_of(alloc: Global, syntax: &Syntax, library: &Specs) -> Result<Vec<Spec>, CheckError>
    ensures own { IfOk result (λ own. AreOf syntax.now (modules syntax.now) own.items) }
    ensures refused { IfErr result (IsOfTree syntax.now) }
    ensures first { IsAnswer (IsFirst syntax.now library.now Extent.Headings) (IsUnspecified syntax.now library.now Extent.Headings) result }
    ensures made { IfOk result (λ own. AreOwn syntax.now library.now Extent.Headings own.items) }
{
    let (_, found) = check_syntax(alloc, syntax, library, Extent::Headings)?;
    let Found { own, .. } = Box::into_inner(found);
    Ok(own)
}
