//! Names that stand twice: in the list of one node, in the items of one list, or among the modules of a file; and the first item
//! of each name.

ghost use Rattle.std.specs.Prelude.{◌≡◌, ◌<◌, [], ◌∷◌, true, fold, length, set, slice_get, take, IfOk, OnOk};
ghost use Rattle.std.specs.HashMap.{get};
ghost use Rattle.clu_syntax.specs.Kinds.{kind_at};
ghost use Rattle.clu_settle.specs.Names.{names_of};
ghost use Rattle.clu_name_rules.specs.Repeated.{same, Note, is_refused, list_of, exports_at, tags_at, item_names, own_names, with_names, with_item, with_node, with_nodes, with_module, notes_of, AreNoted, Notes};

use crate::words::Words;
use clu_base::{Bytes, Memory};
use clu_bindings::kind_of;
use clu_head::is_at;
use clu_names::Declared;
use clu_syntax::Syntax;
use clu_tree::NodeKind;
use std::alloc::Global;
use std::collections::HashMap;

/// What a list is of.
#[derive(Clone, Copy, PartialEq, Eq, Hash)]
pub enum ListKind {
    Exceptions,
    Declared,
    Selectors,
    Components,
    WhenArms,
    Tags,
    Routines,
    /// The names of one node.
    Names,
    Modules,
}

/// A name, by its number, among the items of one kind in one list. The list is given by its node; that of the modules is the
/// number of nodes.
#[derive(Clone, Copy, PartialEq, Eq, Hash)]
pub struct Listed {
    pub list: u32,
    pub kind: ListKind,
    pub word: usize,
}

/// The items of lists by their names: for each name the first item that has it; and for each node whether a name of it stands
/// twice.
#[derive(Drop)]
pub struct Items {
    pub first: HashMap<Listed, u32>,
    pub repeated: Vec<bool>,
}

/// The list in which items of this kind stand.
fn list_of(kind: NodeKind) -> Option<ListKind>
    ensures { result ≡ list_of kind }
{
    match kind {
        NodeKind::Exc => Some(ListKind::Exceptions),
        NodeKind::Decl => Some(ListKind::Declared),
        NodeKind::FieldT => Some(ListKind::Selectors),
        NodeKind::FieldE => Some(ListKind::Components),
        NodeKind::When => Some(ListKind::WhenArms),
        NodeKind::TagArm => Some(ListKind::Tags),
        NodeKind::Routine => Some(ListKind::Routines),
        _ => None,
    }
}

fn names_of(syntax: &Syntax, n: u32) -> &[Bytes]
    ensures { result.now ≡ names_of (slice_get syntax.now n) }
{
    if n < syntax.tree().len() {
        syntax.tree().node(n).names.as_slice()
    } else {
        &[]
    }
}

fn first_of(names: &[Bytes]) -> &[Bytes]
    ensures { result.now ≡ take 1 names.now }
{
    match names {
        [] => names,
        [_, ..] => &names[..1],
    }
}

/// The tags of an arm of a Tagcase; none of another node.
pub fn tags_of(syntax: &Syntax, n: u32) -> &[Bytes]
    ensures { result.now ≡ tags_at syntax.now n }
{
    if is_at(syntax.tree(), n, NodeKind::TagArm) {
        syntax.tag_arm(n).tags
    } else {
        &[]
    }
}

/// The exported names of a Cluster.
pub fn exports_of(syntax: &Syntax, n: u32) -> &[Bytes]
    ensures { result.now ≡ exports_at syntax.now n }
{
    if is_at(syntax.tree(), n, NodeKind::Cluster) {
        syntax.cluster(n).exports
    } else {
        &[]
    }
}

/// The names of the item n of a list: of an arm its tags, of a routine the first.
fn item_names(syntax: &Syntax, kind: ListKind, n: u32) -> &[Bytes]
    ensures { result.now ≡ item_names syntax.now kind n }
{
    match kind {
        ListKind::Tags => tags_of(syntax, n),
        ListKind::Routines => first_of(names_of(syntax, n)),
        _ => names_of(syntax, n),
    }
}

/// The names of the node n that are a list by themselves.
fn own_names(syntax: &Syntax, n: u32) -> &[Bytes]
    ensures { result.now ≡ own_names syntax.now (kind_at syntax.now n) n }
{
    match kind_of(syntax.tree(), n) {
        NodeKind::Equate | NodeKind::Parm | NodeKind::Init | NodeKind::Own | NodeKind::Others =>
            names_of(syntax, n),
        NodeKind::Cluster => exports_of(syntax, n),
        _ => &[],
    }
}

/// Whether a name that an item of this kind has already is one too many. One exception and one arm may have it twice, and two
/// routines of a cluster are declarations.
fn is_refused(kind: ListKind, is_same: bool) -> bool
    ensures { result ≡ is_refused kind is_same }
{
    match kind {
        ListKind::Exceptions | ListKind::WhenArms => !is_same,
        ListKind::Routines => false,
        _ => true,
    }
}

fn mark(bits: &mut Vec<bool>, n: u32)
    ensures { bits.new.items ≡ set bits.old.items n true }
{
    if (n as usize) < bits.len() {
        bits[n as usize] = true;
    }
}

impl Items {
    /// Notes a name of the node n.
    fn note(&mut self, name: Listed, n: u32) -> Result<(), Memory>
        ensures { OnOk result (Notes (λ before. record { name = name; node = n } ∷ before) self.old self.new) }
    {
        match self.first.get(&name) {
            Some(first) => {
                if is_refused(name.kind, *first == n) {
                    mark(&mut self.repeated, n);
                }
                Ok(())
            }
            None => {
                self.first.insert(name, n)?;
                Ok(())
            }
        }
    }

    fn note_names(
        &mut self,
        words: &Words,
        list: u32,
        kind: ListKind,
        n: u32,
        names: &[Bytes],
    ) -> Result<(), Memory>
        ensures { OnOk result (Notes (with_names words.now list kind n names.now) self.old self.new) }
    {
        for name in names {
            let word = words.number(name);
            self.note(Listed { list, kind, word }, n)?;
        }
        Ok(())
    }

    /// Notes the item n of a list.
    fn note_item(&mut self, syntax: &Syntax, words: &Words, list: u32, n: u32) -> Result<(), Memory>
        ensures { OnOk result (Notes (λ before. with_item words.now syntax.now list before n) self.old self.new) }
    {
        match list_of(kind_of(syntax.tree(), n)) {
            Some(kind) => self.note_names(words, list, kind, n, item_names(syntax, kind, n)),
            None => Ok(()),
        }
    }

    fn note_items(
        &mut self,
        syntax: &Syntax,
        words: &Words,
        list: u32,
        items: &[u32],
    ) -> Result<(), Memory>
        ensures { OnOk result (Notes (λ before. fold (with_item words.now syntax.now list) before items.now) self.old self.new) }
    {
        for n in items {
            self.note_item(syntax, words, list, *n)?;
        }
        Ok(())
    }

    /// Notes the node n as a list: its items, and its own names.
    fn note_node(&mut self, syntax: &Syntax, words: &Words, n: u32) -> Result<(), Memory>
        requires { n < length syntax.now }
        ensures { OnOk result (Notes (with_node words.now syntax.now n) self.old self.new) }
    {
        self.note_items(syntax, words, n, syntax.tree().node(n).children.as_slice())?;
        self.note_names(words, n, ListKind::Names, n, own_names(syntax, n))
    }

    fn note_nodes(&mut self, syntax: &Syntax, words: &Words) -> Result<(), Memory>
        ensures { OnOk result (Notes (with_nodes words.now syntax.now (length syntax.now)) self.old self.new) }
    {
        for n in 0..syntax.tree().len() {
            self.note_node(syntax, words, n)?;
        }
        Ok(())
    }

    fn note_module(&mut self, syntax: &Syntax, words: &Words, one: &Declared) -> Result<(), Memory>
        ensures { OnOk result (Notes (λ before. with_module words.now (length syntax.now) before one.now) self.old self.new) }
    {
        if one.unit.is_none() {
            let list = syntax.tree().len();
            let kind = ListKind::Modules;
            let word = words.number(&one.name);
            return self.note(Listed { list, kind, word }, one.node);
        }
        Ok(())
    }

    /// Notes the modules of a file.
    fn note_modules(
        &mut self,
        syntax: &Syntax,
        words: &Words,
        declared: &[Declared],
    ) -> Result<(), Memory>
        ensures { OnOk result (Notes (λ before. fold (with_module words.now (length syntax.now)) before declared.now) self.old self.new) }
    {
        for one in declared {
            self.note_module(syntax, words, one)?;
        }
        Ok(())
    }

    fn note_file(
        &mut self,
        syntax: &Syntax,
        words: &Words,
        declared: &[Declared],
    ) -> Result<(), Memory>
        requires { AreNoted (length syntax.now) [] self.old }
        ensures { OnOk result (AreNoted (length syntax.now) (notes_of words.now syntax.now declared.now) self.new) }
    {
        self.note_nodes(syntax, words)?;
        self.note_modules(syntax, words, declared)?;
        Ok(())
    }

    /// The lists of so many nodes before anything is noted.
    fn empty(alloc: Global, nodes: usize) -> Result<Items, Memory>
        ensures { IfOk result (AreNoted nodes []) }
    {
        let repeated = vec![in alloc; false; nodes]?;
        let first = HashMap::new(alloc);
        Ok(Items { first, repeated })
    }

    /// The lists of a tree. The only error is that memory runs out.
    pub fn of_tree(
        alloc: Global,
        syntax: &Syntax,
        words: &Words,
        declared: &[Declared],
    ) -> Result<Box<Items>, Memory>
        ensures { IfOk result (λ items. AreNoted (length syntax.now) (notes_of words.now syntax.now declared.now) items.value) }
    {
        let items = Items::empty(alloc, syntax.tree().len() as usize)?;
        let mut items = Box::new(alloc, items)?;
        items.note_file(syntax, words, declared)?;
        Ok(items)
    }

    fn find(&self, list: u32, kind: ListKind, word: usize) -> Option<u32>
        ensures { result ≡ get same self.now.first (record { list = list; kind = kind; word = word }) }
    {
        self.first.get(&Listed { list, kind, word }).copied()
    }

    /// The first exception of this name in the list that the Signals is.
    pub fn exception(&self, list: u32, word: usize) -> Option<u32>
        ensures { result ≡ get same self.now.first (record { list = list; kind = ListKind.Exceptions; word = word }) }
    {
        self.find(list, ListKind::Exceptions, word)
    }

    /// The first when arm of this name of the Except.
    pub fn arm(&self, except: u32, word: usize) -> Option<u32>
        ensures { result ≡ get same self.now.first (record { list = except; kind = ListKind.WhenArms; word = word }) }
    {
        self.find(except, ListKind::WhenArms, word)
    }

    /// The first routine of this name of the Cluster.
    pub fn routine(&self, cluster: u32, word: usize) -> Option<u32>
        ensures { result ≡ get same self.now.first (record { list = cluster; kind = ListKind.Routines; word = word }) }
    {
        self.find(cluster, ListKind::Routines, word)
    }
}
