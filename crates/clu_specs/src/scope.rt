//! The parameters that a text may name by number: those of its specification, or any in a text read alone.

ghost use Rattle.std.specs.Prelude.{◌≡◌, nat_le};
ghost use Rattle.clu_specs.specs.Reading.{Gives};
ghost use Rattle.clu_specs.specs.Scopes.{any_scope, scope_of, is_of, last_from, last_in, names, begins_here, begins_number, left_of_number, number_at, parameter_at};

use crate::marks::fault;
use crate::numbers::{begins_decimal, digits_at};
use clu_base::{FormatError, Sequence};
use clu_types::ParamKind;
use std::alloc::Global;

/// The greatest number of a parameter.
pub const LAST_NUMBER: u64 = 4_294_967_295;

/// What a number names: a type parameter, written with `#`, or a constant one, written with `%`.
#[derive(Clone, Copy)]
pub enum Sort {
    Type,
    Constant,
}

/// The parameters that can be named.
#[derive(Drop)]
pub struct Scope {
    /// Whether any number may stand, as in a text read alone.
    pub alone: bool,
    pub kinds: Sequence<ParamKind>,
    /// The greatest number of a type parameter, or 0.
    pub last_type: u64,
    /// The greatest number of a constant parameter, or 0.
    pub last_constant: u64,
}

fn is_of(sort: Sort, kind: ParamKind) -> bool
    ensures { result ≡ is_of sort kind }
{
    match sort {
        Sort::Type => match kind {
            ParamKind::OfType => true,
            _ => false,
        },
        Sort::Constant => match kind {
            ParamKind::OfType => false,
            _ => true,
        },
    }
}

/// The greatest number of a parameter of the sort, or 0.
fn last_of(sort: Sort, kinds: &[ParamKind]) -> u64
    ensures { result ≡ last_from sort 0 0 kinds.now }
{
    let mut last = 0;
    for (i, kind) in kinds.iter().enumerate() {
        if is_of(sort, *kind) {
            last = i as u64 + 1;
        }
    }
    last
}

/// Whether the parameter of this number and kind is of the sort, and its number is not below `least` and begins
/// with the digits of `n`.
fn begins_here(sort: Sort, least: u64, n: u64, number: u64, kind: ParamKind) -> bool
    ensures { result ≡ begins_here sort least n number kind }
{
    least <= number && is_of(sort, kind) && begins_decimal(n, number)
}

/// The scope of a type or use read alone.
pub fn any_scope(alloc: Global) -> Scope
    ensures { result ≡ any_scope }
{
    Scope {
        alone: true,
        kinds: Sequence::from_vec(Vec::new(alloc)),
        last_type: LAST_NUMBER,
        last_constant: LAST_NUMBER,
    }
}

/// The scope of a specification with these parameters.
pub fn scope_of(kinds: Vec<ParamKind>) -> Scope
    ensures { result ≡ scope_of kinds.items }
{
    let last_type = last_of(Sort::Type, kinds.as_slice());
    let last_constant = last_of(Sort::Constant, kinds.as_slice());
    Scope {
        alone: false,
        kinds: Sequence::from_vec(kinds),
        last_type,
        last_constant,
    }
}

impl Scope {
    /// Whether a parameter of the sort has this number or a greater one.
    pub fn has_from(&self, sort: Sort, least: u64) -> bool
        ensures { result ≡ nat_le least (last_in self.now sort) }
    {
        match sort {
            Sort::Type => least <= self.last_type,
            Sort::Constant => least <= self.last_constant,
        }
    }

    /// Whether the number is that of a parameter of the sort.
    fn names(&self, sort: Sort, n: u64) -> bool
        ensures { result ≡ names self.now sort n }
    {
        if n == 0 {
            return false;
        }
        if self.alone {
            return n <= LAST_NUMBER;
        }
        match self.kinds.as_slice().get(n as usize - 1) {
            Some(kind) => is_of(sort, *kind),
            None => false,
        }
    }

    /// Whether some number from `least` on of a parameter of the sort begins with the digits of `n`.
    fn begins_number(&self, sort: Sort, least: u64, n: u64) -> bool
        ensures { result ≡ begins_number self.now sort least n }
    {
        if self.alone {
            return 0 < n && n <= LAST_NUMBER;
        }
        for (i, kind) in self.kinds.as_slice().iter().enumerate() {
            if begins_here(sort, least, n, i as u64 + 1, *kind) {
                return true;
            }
        }
        false
    }

    /// How many bytes are left after the digits at the front that begin some number of the sort. It goes at most as
    /// deep as `LAST_NUMBER` has digits, and one more.
    fn left_of_number(&self, sort: Sort, least: u64, read: u64, bytes: &[u8]) -> u64
        ensures { result ≡ left_of_number self.now sort least read bytes.now }
    {
        match bytes {
            [] => 0,
            [first, rest @ ..] => {
                if !first.is_ascii_digit() || read > LAST_NUMBER {
                    return bytes.len() as u64;
                }
                let grown = 10 * read + (*first - b'0') as u64;
                if self.begins_number(sort, least, grown) {
                    self.left_of_number(sort, least, grown, rest)
                } else {
                    bytes.len() as u64
                }
            }
        }
    }

    /// The number, at least `least`, of a parameter of the sort, and what follows it. Refused where no such
    /// number can go on.
    #[tactic(auto, unfolding(crate::specs::Scopes::number_at))]
    pub fn number_at<'a>(
        &self,
        sort: Sort,
        least: u64,
        bytes: &'a [u8],
    ) -> Result<(u32, &'a [u8]), FormatError>
        ensures { Gives (λ x. (x.0, x.1.now)) result (number_at self.now sort least bytes.now) }
    {
        match digits_at(LAST_NUMBER, bytes) {
            Ok((n, rest)) => {
                if least <= n && self.names(sort, n) {
                    Ok((n as u32, rest))
                } else {
                    Err(FormatError::Bad(self.left_of_number(sort, least, 0, bytes)))
                }
            }
            Err(FormatError::Bad(_)) => {
                Err(FormatError::Bad(self.left_of_number(sort, least, 0, bytes)))
            }
            Err(FormatError::Memory) => Err(FormatError::Memory),
        }
    }

    /// The number after the mark `#` or `%`, at which `bytes` begin.
    #[tactic(auto, unfolding(crate::specs::Scopes::parameter_at))]
    pub fn parameter_at<'a>(
        &self,
        sort: Sort,
        bytes: &[u8],
        behind_mark: &'a [u8],
    ) -> Result<(u32, &'a [u8]), FormatError>
        ensures { Gives (λ x. (x.0, x.1.now)) result (parameter_at self.now sort bytes.now behind_mark.now) }
    {
        if !self.has_from(sort, 1) {
            return Err(fault(bytes));
        }
        self.number_at(sort, 1, behind_mark)
    }
}
