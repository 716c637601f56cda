//! Headings of a cluster's routines as they are written in its text, seen as callers see them: `cvt` is the cluster's
//! type. They stand in an arena of their own, with actual parameters put in.

ghost use Rattle.std.specs.Prelude.{◌<◌, All, length};
ghost use Rattle.clu_syntax.specs.Parts.{AreOf, IsOf};

use crate::errors::{LowerError, Result};
use crate::seen::Sealed;
use crate::types::is_cvt;
use clu_base::{Bytes, Sequence};
use clu_core::{Checked, carry};
use clu_tree::NodeKind;
use clu_types::{Exception, Heading, TypeId};
use indexmap::IndexMap;
use std::alloc::Global;
use std::boxed::Box;

/// The name of the exception that belongs to every routine.
const FAILURE: &[u8] = b"failure";

/// The heading of a routine of a cluster of this type, with the actuals of the type put in. Without actuals the
/// parameters stay. Its types are of the arena of the cluster's type.
pub fn written_heading(
    alloc: Global,
    c: &Checked,
    n: u32,
    sealed: &mut Sealed,
) -> Result<Box<Heading>>
    requires { IsOf c.now.syntax NodeKind.Routine (length c.now.syntax) n }
{
    let text = Text { alloc, c };
    Ok(Box::new(alloc, text.heading(sealed, n)?)?)
}

/// The text from which a heading is read. What it says goes into the arena of the type for which `cvt` stands.
#[derive(Clone, Copy)]
struct Text<'a> {
    alloc: Global,
    c: &'a Checked,
}

impl Text<'_> {
    fn heading(&self, sealed: &mut Sealed, n: u32) -> Result<Heading>
        requires { IsOf self.now.c.now.syntax NodeKind.Routine (length self.now.c.now.syntax) n }
    {
        let routine = self.c.syntax.routine(n);
        let args = self.args(sealed, n, routine.arguments)?;
        let results = self.types(sealed, n, routine.results)?;
        let signals = self.signals(sealed, n, routine.exceptions)?;
        Ok(Heading {
            args: Sequence::from_vec(args),
            results: Sequence::from_vec(results),
            signals: Sequence::from_vec(signals),
        })
    }

    fn args(&self, sealed: &mut Sealed, n: u32, declarations: &[u32]) -> Result<Vec<TypeId>>
        requires inside { n < length self.now.c.now.syntax }
        requires declarations { AreOf self.now.c.now.syntax NodeKind.Decl n declarations.now }
    {
        let mut args = Vec::new(self.alloc);
        for declaration in declarations {
            let typed = self.c.syntax.declaration(*declaration);
            let of = self.seen(sealed, typed.declared)?;
            for _ in typed.names {
                args.push(of)?;
            }
        }
        Ok(args)
    }

    fn types(&self, sealed: &mut Sealed, n: u32, nodes: &[u32]) -> Result<Vec<TypeId>>
        requires inside { n < length self.now.c.now.syntax }
        requires below { All (λ c. c < n) nodes.now }
    {
        let mut listed = Vec::new(self.alloc);
        for of in nodes {
            listed.push(self.seen(sealed, *of)?)?;
        }
        Ok(listed)
    }

    /// `failure` is no exception of a type.
    fn signals(&self, sealed: &mut Sealed, n: u32, exceptions: &[u32]) -> Result<Vec<Exception>>
        requires inside { n < length self.now.c.now.syntax }
        requires exceptions { AreOf self.now.c.now.syntax NodeKind.Exc n exceptions.now }
    {
        let mut signals = IndexMap::new(self.alloc);
        for exception in exceptions {
            let written = self.c.syntax.exception(*exception);
            if written.name.as_slice() != FAILURE {
                let objects = self.types(sealed, *exception, written.types)?;
                signals.insert(written.name.copy(self.alloc)?, objects)?;
            }
        }
        ascending(self.alloc, signals)
    }

    /// The type that a node of the heading denotes.
    fn seen(&self, sealed: &mut Sealed, n: u32) -> Result<TypeId>
        requires { n < length self.now.c.now.syntax }
    {
        match self.c.denoted.get(n as usize) {
            Some(Some(of)) => Ok(carry(
                self.alloc,
                &mut sealed.types,
                &self.c.types,
                *of,
                sealed.actuals.as_slice(),
            )?),
            _ if is_cvt(&self.c.syntax, n) => Ok(sealed.of),
            _ => Err(LowerError::NotYet),
        }
    }
}

/// Exceptions in the ascending order of their names.
fn ascending(alloc: Global, mut signals: IndexMap<Bytes, Vec<TypeId>>) -> Result<Vec<Exception>> {
    let mut listed = Vec::new(alloc);
    signals.sort_keys()?;
    for (name, objects) in signals.drain(..) {
        listed.push(Exception {
            name,
            objects: Sequence::from_vec(objects),
        })?;
    }
    Ok(listed)
}
