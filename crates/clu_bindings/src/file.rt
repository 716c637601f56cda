//! A file as it is checked: what stands at a node, and round it. Of a node that isn't there all is nothing.

ghost use Rattle.std.specs.Prelude.{◌≡◌, ℕ, IfSome, IfNone, None, get_or, is_some, option_map, slice_get};
ghost use Rattle.clu_syntax.specs.Kinds.{kind_at};
ghost use Rattle.clu_syntax.specs.Rounds.{round_at};
ghost use Rattle.clu_syntax.specs.Items.{Item};
ghost use Rattle.clu_syntax.specs.Nodes.{item_with};
ghost use Rattle.clu_syntax.specs.Views.{expression_told, type_told};
ghost use Rattle.clu_settle.specs.declared.value.Value.TheVariants as value;
ghost use Rattle.clu_bindings.specs.declared.wanted.Wanted.TheVariants as wanted;
ghost use Rattle.clu_bindings.specs.Tables.{optional, items_at};
ghost use Rattle.clu_settle.specs.Names.{names_of};
ghost use Rattle.clu_bindings.specs.Inside.{is_refused};
ghost use Rattle.clu_bindings.specs.Modules.{named};
ghost use Rattle.clu_bindings.specs.Files.{bound_in, declaration_in, declaring_node, declared_by};
ghost use Rattle.clu_bindings.specs.Readers.{children_in, place_in, meaning_in, module_in, set_at, wanted_in, takes_actuals, known_in, kinds_in, is_routine, unit_module, declared_parameter};

use crate::bindings::{Bindings, ModuleKnown};
use crate::meaning::{Meaning, ModuleId};
use crate::nodes::{children_of, kind_of, names_of, parent_of, round_of};
use crate::tables::{is_set, items_of, number_at, optional_at};
use crate::wanted::Wanted;
use clu_base::Bytes;
use clu_constants::Constants;
use clu_head::{Heads, is_refused};
use clu_names::Names;
use clu_settle::Value;
use clu_syntax::{Expression, Round, Statement, Syntax, TypeExpression};
use clu_tree::NodeKind;
use clu_types::{ParamKind, Specs};
use std::alloc::Global;

/// A file before its headings are known: for each node of the tree what surrounds it, what its names denote and what it comes
/// to. The first rules, by which types are refused where they stand, ask no more.
#[derive(Clone, Copy)]
pub struct File<'a> {
    pub alloc: Global,
    pub syntax: &'a Syntax,
    pub rounds: &'a [Round],
    pub names: &'a Names,
    pub values: &'a [Value],
    pub constants: &'a Constants,
    pub library: &'a Specs,
    pub bindings: &'a Bindings,
}

/// The same with its headings, and how many of the nodes before each one are refused.
#[derive(Clone, Copy)]
pub struct Headed<'a> {
    pub file: File<'a>,
    pub heads: &'a Heads,
    pub refused: &'a [usize],
}

impl<'a> File<'a> {
    /// How many nodes there are.
    pub fn len(self) -> u32 {
        self.syntax.tree().len()
    }

    /// The kind of the node n; File of one that is not there.
    pub fn kind(self, n: u32) -> NodeKind
        ensures { result ≡ kind_at self.entry.syntax.now n }
    {
        kind_of(self.syntax.tree(), n)
    }

    pub fn round(self, n: u32) -> Round
        ensures { result ≡ round_at self.entry.rounds.now n }
    {
        round_of(self.rounds, n)
    }

    pub fn parent(self, n: u32) -> Option<u32>
        ensures { result ≡ (round_at self.entry.rounds.now n).parent }
    {
        parent_of(self.rounds, n)
    }

    pub fn children(self, n: u32) -> &'a [u32]
        ensures { result.now ≡ children_in self.entry n }
    {
        children_of(self.syntax.tree(), n)
    }

    /// The place of the node n among its parent's children.
    pub fn place(self, n: u32) -> usize
        ensures { result ≡ place_in self.entry n }
    {
        let place = self.bindings.places.as_slice().get(n as usize);
        place.copied().unwrap_or(0)
    }

    pub fn names(self, n: u32) -> &'a [Bytes]
        ensures { result.now ≡ names_of (slice_get self.entry.syntax.now n) }
    {
        names_of(self.syntax.tree(), n)
    }

    pub fn expression(self, n: u32) -> Option<Expression<'a>>
        ensures none { IfNone result (slice_get self.entry.syntax.now n ≡ None) }
        ensures some { IfSome result (λ e. (items : ℕ → Item) → expression_told items n e ≡ (item_with items self.entry.syntax.now n (slice_get self.entry.syntax.now n)).expression) }
    {
        if n < self.syntax.tree().len() {
            Some(self.syntax.expression(n))
        } else {
            None
        }
    }

    pub fn statement(self, n: u32) -> Option<Statement<'a>> {
        if n < self.syntax.tree().len() {
            Some(self.syntax.statement(n))
        } else {
            None
        }
    }

    pub fn type_expression(self, n: u32) -> Option<TypeExpression<'a>>
        ensures none { IfNone result (slice_get self.entry.syntax.now n ≡ None) }
        ensures some { IfSome result (λ t. (items : ℕ → Item) → type_told items n t ≡ (item_with items self.entry.syntax.now n (slice_get self.entry.syntax.now n)).type) }
    {
        if n < self.syntax.tree().len() {
            Some(self.syntax.type_expression(n))
        } else {
            None
        }
    }

    /// What the constant or type at the node n comes to.
    pub fn value(self, n: u32) -> Value
        ensures { result ≡ get_or self.entry.values.now n value.Lost }
    {
        self.values.get(n as usize).copied().unwrap_or(Value::Lost)
    }

    /// The declarations to which the names of the node n are bound, by their places.
    pub fn bound(self, n: u32) -> &'a [Option<usize>]
        ensures { result.now ≡ bound_in self.entry.names.now n }
    {
        items_of(self.names.bound.as_slice(), self.names.starts.as_slice(), n)
    }

    /// What the names of the node n denote: those of a Name, a NameT, a Restrict, a TypeSet, an Assign, a For and the word
    /// `rep`, and of all nodes that declare names.
    pub fn meanings(self, n: u32) -> &'a [Meaning]
        ensures { result.now ≡ items_at self.entry.bindings.now.meanings.items self.entry.names.now.starts.items n }
    {
        items_of(
            self.bindings.meanings.as_slice(),
            self.names.starts.as_slice(),
            n,
        )
    }

    /// What the first name of the node n denotes.
    pub fn meaning(self, n: u32) -> Meaning
        ensures { result ≡ meaning_in self.entry n }
    {
        let first = self.meanings(n).first();
        first.copied().unwrap_or(Meaning::Module(None))
    }

    /// The declaration to which the first name of the node n is bound.
    pub fn declaration(self, n: u32) -> Option<usize>
        ensures { result ≡ declaration_in self.entry.names.now n }
    {
        self.bound(n).first().copied().flatten()
    }

    /// The node of the declaration at a place.
    pub fn declaring_node(self, place: Option<usize>) -> Option<u32>
        ensures { result ≡ declaring_node self.entry.names.now place }
    {
        match self.names.declared.as_slice().get(place?) {
            Some(one) => Some(one.node),
            None => None,
        }
    }

    /// The node that declares the first name of the node n.
    pub fn declared_by(self, n: u32) -> Option<u32>
        ensures { result ≡ declared_by self.entry.names.now n }
    {
        self.declaring_node(self.declaration(n))
    }

    /// The module of the file or the library that the first name of the node n names.
    pub fn module_at(self, n: u32) -> Option<ModuleId>
        ensures { result ≡ module_in self.entry n }
    {
        match self.meaning(n) {
            Meaning::Module(module) => module,
            _ => None,
        }
    }

    /// Whether the first name of the node n is that of a module of the file or the library.
    pub fn is_of_module(self, n: u32) -> bool
        ensures { result ≡ is_some (module_in self.entry n) }
    {
        self.module_at(n).is_some()
    }

    /// The TypeSet for which the declaration at a place stands.
    pub fn set_at(self, place: Option<usize>) -> Option<u32>
        ensures { result ≡ set_at self.entry place }
    {
        optional_at(self.bindings.sets.as_slice(), place?)
    }

    /// The TypeSet for which the first name of the node n stands.
    pub fn set_named(self, n: u32) -> Option<u32>
        ensures { result ≡ set_at self.entry (declaration_in self.entry.names.now n) }
    {
        self.set_at(self.declaration(n))
    }

    /// What is wanted where the node n stands.
    pub fn wanted(self, n: u32) -> Wanted
        ensures { result ≡ wanted_in self.entry n }
    {
        let wanted = self.bindings.wanted.as_slice().get(n as usize);
        wanted.copied().unwrap_or(Wanted::Nothing)
    }

    /// Whether the node n is a Name and brackets after it hold actual parameters.
    pub fn takes_actuals(self, n: u32) -> bool
        ensures { result ≡ takes_actuals self.entry n }
    {
        is_set(self.bindings.takes_actuals.as_slice(), n as usize)
    }

    /// The module of this name; None of `stream` and of a name of no module.
    pub fn module_named(self, name: &Bytes) -> Option<ModuleId>
        ensures { result ≡ named self.entry.bindings.now.modules name.now }
    {
        self.bindings.modules.named(name)
    }

    /// The module of the file in which the node n stands.
    pub fn unit_module(self, n: u32) -> Option<ModuleId>
        ensures { result ≡ unit_module self.entry n }
    {
        let unit = self.round(n).unit?;
        optional_at(self.bindings.modules.units.as_slice(), unit as usize)
    }

    fn module(self, id: Option<ModuleId>) -> Option<&'a ModuleKnown>
        ensures { option_map (λ known. known.now) result ≡ known_in self.entry id }
    {
        self.bindings.modules.known.as_slice().get(id?.0 as usize)
    }

    /// The kinds of a module's parameters; none of what is no module.
    pub fn kinds(self, id: Option<ModuleId>) -> &'a [Option<ParamKind>]
        ensures { result.now ≡ kinds_in self.entry id }
    {
        match self.module(id) {
            Some(known) => known.kinds.as_slice(),
            None => &[],
        }
    }

    /// Whether a module is a routine; not so of what is no module.
    pub fn is_routine(self, id: Option<ModuleId>) -> bool
        ensures { result ≡ is_routine self.entry id }
    {
        match self.module(id) {
            Some(known) => known.is_routine,
            None => false,
        }
    }

    /// How many parameters the module of the Module node `unit` has.
    pub fn parameter_count(self, unit: u32) -> u32
        ensures { result ≡ get_or self.entry.bindings.now.parameters.counts.items unit 0 }
    {
        number_at(self.bindings.parameters.counts.as_slice(), unit as usize)
    }

    /// The node of the type with which the parameter of this number of the module round the node n is declared; None of a
    /// type parameter.
    pub fn declared_parameter(self, n: u32, number: u32) -> Option<u32>
        ensures { result ≡ declared_parameter self.entry n number }
    {
        let parameters = &self.bindings.parameters;
        let unit = self.round(n).unit?;
        let declared = items_of(
            parameters.declared.as_slice(),
            parameters.starts.as_slice(),
            unit,
        );
        optional_at(declared, (number as usize).checked_sub(1)?)
    }

    /// The place of the declaration of `rep` that counts at the node n.
    pub fn rep(self, n: u32) -> Option<usize>
        ensures { result ≡ optional (slice_get self.entry.bindings.now.reps.items n) }
    {
        optional_at(self.bindings.reps.as_slice(), n as usize)
    }

    /// What the declaration at a place declares.
    pub fn declares(self, place: usize) -> Option<Meaning>
        ensures { result ≡ slice_get self.entry.bindings.now.declared.items place }
    {
        self.bindings.declared.as_slice().get(place).copied()
    }
}

impl<'a> Headed<'a> {
    /// Whether a node at or below the node n is refused.
    pub fn is_refused(self, n: u32) -> bool
        ensures { result ≡ is_refused self.entry n }
    {
        is_refused(self.refused, self.file.rounds, n)
    }
}
