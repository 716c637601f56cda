//! The check of a source's syntax over specifications, and what a refusal by it comes to.

ghost use Rattle.std.specs.Prelude.{◌≡◌, IfErr, IfOk, OnOk, length, take};
ghost use Rattle.clu_check_mod.specs.declared.walk.Extent.TheVariants as extent;
ghost use Rattle.clu_checked.specs.Sources.{AreKept, HasSource};
ghost use Rattle.clu_checked.specs.Violations.{IsHanded};
ghost use Rattle.clu_tree.specs.Nodes.{modules};
ghost use Rattle.clu_driver.specs.Sources.{AreSpecificationsOf, IsChecked, IsHeaded, IsRefusalOf, NotAccepted};

use clu_check_mod::{CheckError, check, specs_of};
use clu_core::Checked;
use clu_outcome::Outcome;
use clu_syntax::Syntax;
use clu_types::{Spec, Specs};
use std::alloc::Global;

/// The syntax of the source `name`, checked over specifications, with its own in the place of those of their modules, and what
/// the definitions say of its nodes. The outcomes are `Refused` by the first of the rules V4 to V37 that is violated, and `Memory`.
pub fn checked<'a>(
    alloc: Global,
    name: &'a str,
    syntax: Syntax,
    specs: &Specs,
) -> Result<Box<Checked>, Outcome<'a>>
    requires source { HasSource syntax }
    requires specs { AreKept specs.now }
    ensures syntax { IfOk result (λ checked. checked.value.syntax ≡ syntax) }
    ensures specs { IfOk result (λ checked. AreSpecificationsOf specs.now syntax (take (length (modules syntax)) checked.value.specs.items)) }
    ensures accepted { OnOk result (IsChecked specs.now syntax) }
    ensures handed { IfOk result (λ checked. IsHanded syntax specs.now checked.value) }
    ensures refused { IfErr result (λ how. NotAccepted extent.Whole how name.now specs.now syntax) }
{
    match check(alloc, syntax, specs) {
        Ok(checked) => Ok(checked),
        Err(error) => Err(refusal(name, error)),
    }
}

/// The specifications of the modules of the source `name`, over others; its headings alone are checked. The outcomes are
/// those of `checked`.
pub fn headings<'a>(
    alloc: Global,
    name: &'a str,
    syntax: &Syntax,
    specs: &Specs,
) -> Result<Vec<Spec>, Outcome<'a>>
    requires source { HasSource syntax.now }
    requires specs { AreKept specs.now }
    ensures own { IfOk result (λ own. AreSpecificationsOf specs.now syntax.now own.items) }
    ensures accepted { OnOk result (IsHeaded specs.now syntax.now) }
    ensures refused { IfErr result (λ how. NotAccepted extent.Headings how name.now specs.now syntax.now) }
{
    match specs_of(alloc, syntax, specs) {
        Ok(own) => Ok(own),
        Err(error) => Err(refusal(name, error)),
    }
}

// The outcome of a refusal by the check.
fn refusal<'a>(name: &'a str, error: CheckError) -> Outcome<'a>
    ensures { IsRefusalOf error result name.now }
{
    match error {
        CheckError::Refused(refused) => Outcome::Refused(name, refused),
        CheckError::Memory => Outcome::Memory,
        CheckError::NotYet => Outcome::NotYet,
    }
}
