//! The tree in the making: what each action of the grammar does to it.

ghost use Rattle.std.specs.Prelude.{◌≡◌, ◌+◌, ◌-◌, ◌∷◌, [], ◌++◌, ◌<◌, ◌≤◌, ◌^◌, Some, true, false, OnOk, IfOk, length, slice_get};
ghost use Rattle.clu_parser.specs.Trees.{text, acted, closed, wrapped, noted, noted_in, given_in, opened, nothing_built};
ghost use Rattle.clu_parser.specs.Order.{IsForest};
ghost use Rattle.clu_parser.specs.Spellings.{is_idn};
ghost use Rattle.clu_parser.specs.Steps.{begun_for, tops_for, spent};

use crate::begun::Begun;
use crate::brackets::closes_before_dollar;
use crate::nodes::make_node;
use crate::source::Source;
use clu_base::{Memory, Sequence};
use clu_grammar::Action;
use clu_lexer::Symbol;
use clu_tree::{NodeKind, Tree};
use std::alloc::Global;
use std::marker::Model;

/// The nodes so far, in post-order, and those that have begun.
#[derive(Drop)]
pub struct Builder {
    tree: Tree,
    /// The whole nodes that no node holds yet, in the order of the text.
    tops: Vec<u32>,
    /// The nodes that have begun, the innermost last.
    begun: Vec<Begun>,
}

impl Model for Builder {
    ghost use Rattle.std.specs.Prelude.{reverse};
    ghost use Rattle.clu_parser.specs.Trees.{Built, IsBuilding};

    ghost Value = { Built };

    ghost view = { λ b. record { nodes = b.tree; tops = b.tops.items; begun = reverse b.begun.items } };

    ghost invariant = { λ b. IsBuilding b.tree b.tops.items (reverse b.begun.items) };
}

impl Builder {
    pub fn new(alloc: Global) -> Builder
        ensures { result ≡ nothing_built }
    {
        Builder {
            tree: Tree::new(alloc),
            tops: Vec::new(alloc),
            begun: Vec::new(alloc),
        }
    }

    /// The tree, when the source has been read.
    pub fn into_tree(self) -> Tree
        ensures nodes { result ≡ self.nodes }
        ensures order { IsForest self.nodes 0 self.tops (length self.nodes) }
    {
        let Builder {
            tree,
            tops: _,
            begun: _,
        } = self;
        tree
    }

    /// Does what the action says, where so many tokens have been taken, one at least. The error is
    /// that memory runs out; nothing is known of the builder then.
    pub fn act(
        &mut self,
        alloc: Global,
        source: &Source,
        action: Action,
        at: usize,
    ) -> Result<(), Memory>
        requires taken { 0 < at }
        requires numbered { at < 2 ^ 32 }
        requires begun { begun_for action ≤ length self.old.begun }
        requires tops { tops_for action ≤ length self.old.tops }
        requires nodes { length self.old.nodes < 2 ^ 32 - 1 }
        requires count { spent (text source.now) self.old < 2 ^ 32 - 1 }
        ensures { OnOk result (acted (text source.now) action (at - 1) self.old ≡ Some self.new) }
    {
        let taken = (at - 1) as u32;
        match action {
            Action::Open => self.begin(alloc, taken),
            Action::Wrap => self.wrap(alloc, taken),
            Action::Note => self.note(source, taken),
            Action::Close(kind) => self.close(alloc, source, kind, taken),
            Action::Base => self.base(alloc, source, taken),
            Action::Give => self.give(),
        }
    }

    /// A node begins at the token.
    fn begin(&mut self, alloc: Global, taken: u32) -> Result<(), Memory>
        ensures { OnOk result (opened taken taken (length self.old.tops) self.old ≡ self.new) }
    {
        self.begun.push(Begun {
            first: taken,
            mark: taken,
            height: self.tops.len(),
            names: Sequence::from_vec(Vec::new(alloc)),
            value: None,
        })?;
        Ok(())
    }

    /// A node begins that holds the last whole one.
    fn wrap(&mut self, alloc: Global, taken: u32) -> Result<(), Memory>
        requires { 0 < length self.old.tops }
        ensures { OnOk result (wrapped taken self.old ≡ Some self.new) }
    {
        let Some(top) = self.tops.as_slice().last().copied() else {
            unreachable!()
        };
        self.begun.push(Begun {
            first: self.tree.node(top).first,
            mark: taken,
            height: self.tops.len() - 1,
            names: Sequence::from_vec(Vec::new(alloc)),
            value: None,
        })?;
        Ok(())
    }

    /// The token is a name of the innermost node, or its value.
    fn note(&mut self, source: &Source, taken: u32) -> Result<(), Memory>
        requires { 0 < length self.old.begun }
        ensures { OnOk result (noted_in (is_idn (slice_get source.now.symbols.now taken)) taken self.old self.old.begun ≡ Some self.new) }
    {
        let Some(begun) = self.begun.pop() else {
            unreachable!()
        };
        let again = noted(begun, is_idn(source.symbols, taken), taken)?;
        self.begun.push(again)?;
        Ok(())
    }

    /// What the innermost node has is that of the node around it.
    fn give(&mut self) -> Result<(), Memory>
        requires { 1 < length self.old.begun }
        ensures { OnOk result (given_in self.old self.old.begun ≡ Some self.new) }
    {
        let Some(inner) = self.begun.pop() else {
            unreachable!()
        };
        let Some(outer) = self.begun.pop() else {
            unreachable!()
        };
        let both = given(inner, outer)?;
        self.begun.push(both)?;
        Ok(())
    }

    /// A name ends before the bracket, and a node begins here that holds it; nothing, where the
    /// name is a type's.
    fn base(&mut self, alloc: Global, source: &Source, taken: u32) -> Result<(), Memory>
        requires begun { 0 < length self.old.begun }
        requires nodes { length self.old.nodes < 2 ^ 32 - 1 }
        requires count { spent (text source.now) self.old < 2 ^ 32 - 1 }
        ensures { OnOk result (acted (text source.now) Action.Base taken self.old ≡ Some self.new) }
    {
        let behind = taken as usize + 1;
        let symbols = source.symbols;
        if behind <= symbols.len() && closes_before_dollar(&symbols[behind..]) {
            return Ok(());
        }
        self.close(alloc, source, NodeKind::Name, taken.saturating_sub(1))?;
        self.wrap(alloc, taken)
    }

    /// The innermost node is whole and ends with the token.
    fn close(
        &mut self,
        alloc: Global,
        source: &Source,
        kind: NodeKind,
        last: u32,
    ) -> Result<(), Memory>
        requires begun { 0 < length self.old.begun }
        requires nodes { length self.old.nodes < 2 ^ 32 - 1 }
        requires count { spent (text source.now) self.old < 2 ^ 32 - 1 }
        ensures { OnOk result (closed (text source.now) kind last self.old ≡ Some self.new) }
    {
        let Some(begun) = self.begun.pop() else {
            unreachable!()
        };
        let height = begun.height;
        self.tops.reserve(1)?;
        let tops = self.tops.as_slice();
        let node = make_node(
            alloc,
            source,
            kind,
            last,
            &self.tree,
            &tops[height..],
            &begun,
        )?;
        let number = self.tree.add(node)?;
        self.tops.truncate(height);
        self.tops.push_reserved(number);
        Ok(())
    }
}

/// Whether the symbol of this number is an identifier.
fn is_idn(symbols: &[Symbol], n: u32) -> bool
    ensures { result ≡ is_idn (slice_get symbols.now n) }
{
    match symbols.get(n as usize).copied() {
        Some(symbol) => symbol == Symbol::Idn,
        None => false,
    }
}

/// The node with the token as a further name, or as its value.
fn noted(begun: Begun, is_name: bool, taken: u32) -> Result<Begun, Memory>
    ensures { IfOk result (λ b. b ≡ noted is_name taken begun) }
{
    let Begun {
        first,
        mark,
        height,
        names,
        value,
    } = begun;
    if is_name {
        let mut names = names.into_vec();
        names.push(taken)?;
        let names = Sequence::from_vec(names);
        return Ok(Begun {
            first,
            mark,
            height,
            names,
            value,
        });
    }
    Ok(Begun {
        first,
        mark,
        height,
        names,
        value: Some(taken),
    })
}

/// The outer node with the names of the inner one.
fn given(inner: Begun, outer: Begun) -> Result<Begun, Memory>
    ensures { IfOk result (λ b. b ≡ record outer { names = outer.names ++ inner.names }) }
{
    let Begun {
        first,
        mark,
        height,
        names,
        value,
    } = outer;
    let mut names = names.into_vec();
    names.extend_from_slice(inner.names.as_slice())?;
    let names = Sequence::from_vec(names);
    Ok(Begun {
        first,
        mark,
        height,
        names,
        value,
    })
}
