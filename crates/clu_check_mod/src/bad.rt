//! Bad equates: a rule is violated in them, or in an equate to which they lead. Each is asked after those that it names, so each
//! node is asked once.

ghost use Rattle.std.specs.Prelude.{◌≡◌, ℕ, IfOk, Some, fold, length, set, slice_get};
ghost use Rattle.std.specs.List.{range_with_len};
ghost use Rattle.clu_syntax.specs.Items.{Item};
ghost use Rattle.clu_syntax.specs.Kinds.{kind_at};
ghost use Rattle.clu_bindings.specs.Tables.{optional};
ghost use Rattle.clu_name_rules.specs.Constructors.{ValuesAscend};
ghost use Rattle.clu_type_rules.specs.Walking.{answer, asked_in, looked_inside, noted};
ghost use Rattle.clu_type_rules.specs.Asked.{rules_at};
ghost use Rattle.clu_check_mod.specs.Asking.{RulesAscend};
ghost use Rattle.clu_check_mod.specs.Bad.{AscendBy, AscendIn, AscendsAt, EquatesAscend, arms_by, bad_by, bad_of_all, bad_of_types, equates_by, fault_by, fault_of_all, fault_of_types, file_by, refused_of, state};

use crate::asking::{is_no_type, least};
use crate::rules::rules_at;
use clu_base::Memory;
use clu_bindings::{File, optional_at};
use clu_name_rules::{Tables, is_kind, stands_in};
use clu_names::Declared;
use clu_tree::NodeKind;
use clu_type_rules::Known;
use std::alloc::Global;

/// By which rules an equate is bad: those by which types are refused, or all.
#[derive(Clone, Copy)]
pub enum By<'a> {
    Types(&'a Tables<'a>),
    All(&'a Known<'a>),
}

fn file_of<'a>(by: By<'a>) -> File<'a>
    ensures { result ≡ file_by by.entry }
{
    match by {
        By::Types(t) => t.file,
        By::All(k) => k.tables.file,
    }
}

/// Whether the node n violates a rule by which types are refused, where `bad` says which equates that it names are bad.
#[tactic(auto, unfolding(crate::specs::Bad::fault_of_types))]
fn is_refused(t: &Tables<'_>, bad: &[bool], n: u32) -> bool
    ensures { (items : ℕ → Item) → ValuesAscend t.now → result ≡ fault_of_types items t.now bad.now n }
{
    is_no_type(t, bad, n, rules_at(t.file.kind(n)))
}

/// Whether it violates any rule.
fn is_wrong(k: &Known<'_>, bad: &[bool], n: u32) -> bool
    ensures { (items : ℕ → Item) → ValuesAscend k.now.tables → RulesAscend k.now n (rules_at (kind_at k.now.tables.file.syntax.now n)) → result ≡ fault_of_all items k.now bad.now n }
{
    least(k, bad, n, rules_at(k.tables.file.kind(n))).is_some()
}

/// Whether it violates one of those that are asked.
#[tactic(auto, unfolding(crate::specs::Bad::fault_by))]
fn is_faulty(by: By<'_>, bad: &[bool], n: u32) -> bool
    ensures { (items : ℕ → Item) → AscendsAt by.entry n → result ≡ fault_by items by.entry bad.now n }
{
    match by {
        By::Types(t) => is_refused(t, bad, n),
        By::All(k) => is_wrong(k, bad, n),
    }
}

/// What was found so far.
#[derive(Drop)]
pub struct Asking {
    /// For each node whether it is an Equate or a Decl of an arm in which a rule is violated.
    pub bad: Vec<bool>,
    /// For each node that was asked whether it violates a rule.
    pub faulty: Vec<Option<bool>>,
}

/// Notes something of a node that is there.
fn note<T: Copy>(table: &mut [T], n: u32, item: T)
    ensures { table.new ≡ set table.old n item }
{
    if (n as usize) < table.len() {
        table[n as usize] = item;
    }
}

impl Asking {
    /// Asks the node n, if it wasn't asked before, and says whether it violates a rule.
    fn ask(&mut self, by: By<'_>, n: u32) -> bool
        ensures found { (items : ℕ → Item) → AscendsAt by.entry n → result ≡ answer (optional (slice_get self.old.faulty.items n)) (fault_by items by.entry self.old.bad.items n) }
        ensures faulty { (items : ℕ → Item) → AscendsAt by.entry n → self.new.faulty.items ≡ noted (optional (slice_get self.old.faulty.items n)) self.old.faulty.items n (fault_by items by.entry self.old.bad.items n) }
        ensures bad { self.new.bad.items ≡ self.old.bad.items }
    {
        if let Some(is_faulty) = optional_at(self.faulty.as_slice(), n as usize) {
            return is_faulty;
        }
        let is_faulty = is_faulty(by, self.bad.as_slice(), n);
        note(self.faulty.as_mut_slice(), n, Some(is_faulty));
        is_faulty
    }

    /// Asks all that stands in the node n, and says whether a rule is violated there.
    fn ask_inside(&mut self, by: By<'_>, n: u32) -> bool
        ensures found { (items : ℕ → Item) → AscendIn by.entry n → result ≡ (looked_inside (file_by by.entry).rounds.now (fault_by items by.entry) (state self.old) n).found }
        ensures faulty { (items : ℕ → Item) → AscendIn by.entry n → self.new.faulty.items ≡ (looked_inside (file_by by.entry).rounds.now (fault_by items by.entry) (state self.old) n).faulty }
        ensures bad { self.new.bad.items ≡ self.old.bad.items }
    {
        let mut is_bad = false;
        for inside in file_of(by).round(n).first..n {
            if self.ask(by, inside) {
                is_bad = true;
            }
        }
        is_bad
    }

    /// Settles the node n by all that stands in it.
    fn settle(&mut self, by: By<'_>, n: u32)
        ensures { (items : ℕ → Item) → AscendIn by.entry n → state self.new ≡ asked_in (file_by by.entry).rounds.now (fault_by items by.entry) (state self.old) n }
    {
        if self.ask_inside(by, n) {
            note(self.bad.as_mut_slice(), n, true);
        }
    }

    /// Settles the equate that is the declaration of this place, if it is one.
    fn settle_equate(&mut self, by: By<'_>, declared: &[Declared], place: usize)
        ensures { (items : ℕ → Item) → AscendBy by.entry → state self.new ≡ equates_by by.entry items declared.now (state self.old) place }
    {
        if let Some(one) = declared.get(place) {
            if is_kind(file_of(by), NodeKind::Equate, one.node) {
                self.settle(by, one.node);
            }
        }
    }

    /// Settles the equates of these places of declarations, each after those that it names.
    fn settle_equates(&mut self, by: By<'_>, declared: &[Declared], order: &[usize])
        ensures { (items : ℕ → Item) → AscendBy by.entry → state self.new ≡ fold (equates_by by.entry items declared.now) (state self.old) order.now }
    {
        for place in order {
            self.settle_equate(by, declared, *place);
        }
    }

    /// Settles the node n, if it is the declaration of an arm.
    #[tactic(auto, using(crate::proofs::Ascending::in_arm))]
    fn settle_arm(&mut self, by: By<'_>, n: u32)
        ensures { (items : ℕ → Item) → AscendBy by.entry → state self.new ≡ arms_by by.entry items (state self.old) n }
    {
        let f = file_of(by);
        if is_kind(f, NodeKind::Decl, n) && stands_in(f, NodeKind::When, n) {
            self.settle(by, n);
        }
    }

    /// Settles the declarations of arms.
    fn settle_arms(&mut self, by: By<'_>)
        ensures { (items : ℕ → Item) → AscendBy by.entry → state self.new ≡ fold (arms_by by.entry items) (state self.old) (range_with_len 0 (length (file_by by.entry).syntax.now)) }
    {
        for n in 0..file_of(by).syntax.tree().len() {
            self.settle_arm(by, n);
        }
    }
}

/// For each node whether it is an Equate or a Decl of an arm in which a rule is violated. Circular equates are no part of the
/// order, and are never asked. The only error is that memory runs out.
fn bad_by(alloc: Global, by: By<'_>, order: &[usize]) -> Result<Vec<bool>, Memory>
    ensures { IfOk result (λ bad. (items : ℕ → Item) → AscendBy by.entry → bad.items ≡ bad_by by.entry items order.now) }
{
    let f = file_of(by);
    let nodes = f.syntax.tree().len() as usize;
    let mut asking = Asking {
        bad: vec![in alloc; false; nodes]?,
        faulty: vec![in alloc; None; nodes]?,
    };
    asking.settle_equates(by, f.names.declared.as_slice(), order);
    asking.settle_arms(by);
    let Asking { bad, .. } = asking;
    Ok(bad)
}

/// The same by the rules by which types are refused.
#[tactic(auto, unfolding(crate::specs::Bad::fault_by))]
fn bad_of_types(alloc: Global, t: &Tables<'_>, order: &[usize]) -> Result<Vec<bool>, Memory>
    ensures { IfOk result (λ bad. (items : ℕ → Item) → ValuesAscend t.now → bad.items ≡ bad_of_types t.now items order.now) }
{
    bad_by(alloc, By::Types(t), order)
}

/// The same by all rules.
#[tactic(auto, unfolding(crate::specs::Bad::fault_by))]
pub fn bad_of_all(alloc: Global, k: &Known<'_>, order: &[usize]) -> Result<Vec<bool>, Memory>
    ensures { IfOk result (λ bad. (items : ℕ → Item) → EquatesAscend k.now → bad.items ≡ bad_of_all k.now items order.now) }
{
    bad_by(alloc, By::All(k), order)
}

/// For each node whether a type is refused that stands there. The only error is that memory runs out.
pub fn refused_nodes(alloc: Global, t: &Tables<'_>, order: &[usize]) -> Result<Vec<bool>, Memory>
    ensures { IfOk result (λ refused. (items : ℕ → Item) → ValuesAscend t.now → refused.items ≡ refused_of t.now items order.now) }
{
    let bad = bad_of_types(alloc, t, order)?;
    let mut refused = Vec::new(alloc);
    for n in 0..t.file.syntax.tree().len() {
        refused.push(is_refused(t, bad.as_slice(), n))?;
    }
    Ok(refused)
}
