//! A list of terms, each once. A term is found again by its hash.

ghost use Rattle.std.specs.Prelude.{◌≡◌, ◌<◌, [], ◌∷◌, ◌++◌, length, slice_get, IfOk, OnOk, OnErr, Some};
ghost use Rattle.clu_types.specs.Interned.{AreNumbered, IsAddedTo, IsNew};

use crate::term::Term;
use clu_base::Memory;
use std::alloc::Global;
use std::collections::HashMap;
use std::marker::Model;

/// Terms by number, each once, with the number of each. The map is one of std: a type that holds one of another crate makes
/// each crate above keep all that is proved of that crate.
#[derive(Drop)]
pub struct Interned {
    alloc: Global,
    list: Vec<Term>,
    numbers: HashMap<Term, usize>,
}

impl Model for Interned {
    ghost use Rattle.std.specs.Prelude.{List};
    ghost use Rattle.clu_types.specs.declared.term.Term.{Term};
    ghost use Rattle.clu_types.specs.Interned.{AreNumbered};

    ghost Value = { List Term };

    ghost view = { λ s. s.list.items };

    ghost invariant = { λ s. AreNumbered s.numbers s.list.items };
}

impl Interned {
    /// No terms.
    #[tactic(auto, using(crate::proofs::Numbered::numbered))]
    pub fn new(alloc: Global) -> Interned
        ensures { result ≡ [] }
    {
        Interned {
            alloc,
            list: Vec::new(alloc),
            numbers: HashMap::new(alloc),
        }
    }

    /// How many terms there are.
    pub fn len(&self) -> usize
        ensures { result ≡ length self.now }
    {
        self.list.len()
    }

    /// The terms by their numbers.
    pub fn as_slice(&self) -> &[Term]
        ensures { result.now ≡ self.now }
    {
        self.list.as_slice()
    }

    /// The number of a term, which is added behind the others if it is new. The only error is that memory runs out.
    #[tactic(auto, using(crate::proofs::Numbered::numbered))]
    pub fn number(&mut self, term: Term) -> Result<usize, Memory>
        ensures found { IfOk result (λ n. slice_get self.new n ≡ Some term) }
        ensures within { IfOk result (λ n. n < length self.new) }
        ensures added { OnOk result (IsAddedTo self.old self.new term) }
        ensures kept { OnErr result (self.new ≡ self.old) }
    {
        match self.numbers.get(&term).copied() {
            Some(number) => Ok(number),
            None => self.add(term),
        }
    }

    #[tactic(auto, using(crate::proofs::Numbered::numbered))]
    fn add(&mut self, term: Term) -> Result<usize, Memory>
        requires { IsNew self.old term }
        ensures found { IfOk result (λ n. slice_get self.new n ≡ Some term) }
        ensures within { IfOk result (λ n. n < length self.new) }
        ensures added { OnOk result (IsAddedTo self.old self.new term) }
        ensures kept { OnErr result (self.new ≡ self.old) }
    {
        let number = self.list.len();
        let copied = term.copy(self.alloc)?;
        self.list.reserve(1)?;
        self.numbers.insert(term, number)?;
        self.list.push_reserved(copied);
        Ok(number)
    }
}
