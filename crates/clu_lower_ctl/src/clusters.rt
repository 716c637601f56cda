//! Clusters (CLU Reference Manual, section 13.3): their routines, and the setting up of their own variables, which is a
//! routine of its own. Sealing and opening an object leave its word as it is.

ghost use Rattle.std.specs.Prelude.{◌≡◌, All, IfOk};
ghost use Rattle.clu_lower_expr.specs.Bounds.{IsBounded};
ghost use Rattle.clu_lower_ctl.specs.Inside.{AreNodes, IsNode};

use crate::declaring::formals;
use crate::given::{give_cluster, give_member, own_actuals};
use crate::headings::note_heading;
use crate::own_type::{OwnTypes, note_types};
use crate::own_variables::{declare_owns, set_up};
use crate::routines::{body, nothing_fixed, specification};
use clu_base::{Bytes, Sequence};
use clu_core::{Checked, intern};
use clu_lower_expr::{Lowering, lower_own_set_up};
use clu_lower_types::{Declarations, Fixed, LowerError, Result, Sealed, written_heading};
use clu_specs::{Target, use_text};
use clu_syntax::{Equated, RoutineKind};
use clu_tree::NodeKind;
use clu_types::{Spec, Term, TypeArena, TypeId};
use clu_wir::{HoleKind, WRoutine, WStmt};
use std::alloc::Global;
use std::boxed::Box;

/// The name of the routine that sets up a cluster's own variables.
const SET_UP: &[u8] = b"own";

/// A cluster in the making.
#[derive(Clone, Copy)]
struct Making<'a> {
    declarations: &'a Declarations,
    spec: &'a Spec,
    /// The nodes of its Parms.
    parameters: &'a [u32],
    /// The nodes of its Owns.
    owns: &'a [u32],
    /// The type that its `rep` denotes.
    rep: Option<TypeId>,
}

/// What callers see of a cluster: its type, in an arena to which the types of its routines are added, and the texts of the
/// routines' own types.
#[derive(Drop)]
struct Shown {
    sealed: Sealed,
    owns: OwnTypes,
}

/// The routines of a cluster, by its node, after that which sets up its own variables, if it has any.
pub fn cluster_routines(
    alloc: Global,
    c: &Checked,
    declarations: &Declarations,
    n: u32,
) -> Result<Vec<WRoutine>>
    requires { IsNode c.now.syntax NodeKind.Cluster n }
    ensures { IfOk result (λ routines. All IsBounded routines.items) }
{
    let parts = c.syntax.cluster(n);
    let making = Making {
        declarations,
        spec: specification(c, parts.name)?,
        parameters: parts.parameters,
        owns: parts.owns,
        rep: representation(c, parts.equates),
    };
    making.all_routines(alloc, c, parts.routines)
}

/// The type that the equate of `rep` denotes, which is the one without a name among these Equates.
fn representation(c: &Checked, equates: &[u32]) -> Option<TypeId>
    requires { AreNodes c.now.syntax NodeKind.Equate equates.now }
{
    for equate in equates {
        let parts = c.syntax.equate(*equate);
        if parts.name.is_none() {
            return match parts.value {
                Equated::Constant(value) => c.denoted.get(value as usize).copied().flatten(),
                Equated::Set(_) => None,
            };
        }
    }
    None
}

impl Making<'_> {
    /// Notes the cluster's representation, its own variables and what its where clause gives.
    fn note(&self, fixed: &mut Fixed) -> Result<()>
        requires { AreNodes fixed.old.syntax.now NodeKind.Own self.now.owns.now }
        ensures { fixed.new.syntax ≡ fixed.old.syntax }
    {
        fixed.rep = self.rep;
        declare_owns(fixed, self.owns, HoleKind::ClusterOwn)?;
        give_cluster(fixed, self.spec)
    }

    /// The routines of these nodes, after that which sets up the own variables.
    fn all_routines(&self, alloc: Global, c: &Checked, nodes: &[u32]) -> Result<Vec<WRoutine>>
        requires parameters { AreNodes c.now.syntax NodeKind.Parm self.now.parameters.now }
        requires owns { AreNodes c.now.syntax NodeKind.Own self.now.owns.now }
        requires nodes { AreNodes c.now.syntax NodeKind.Routine nodes.now }
        ensures { IfOk result (λ routines. All IsBounded routines.items) }
    {
        let mut routines = self.set_ups(alloc, c)?;
        let mut shown = Box::new(alloc, self.shown(alloc)?)?;
        for n in nodes {
            routines.push(self.routine(alloc, &mut shown, c, *n)?)?;
        }
        Ok(routines)
    }

    /// The routine that sets up the own variables, if there are any.
    fn set_ups(&self, alloc: Global, c: &Checked) -> Result<Vec<WRoutine>>
        requires { AreNodes c.now.syntax NodeKind.Own self.now.owns.now }
        ensures { IfOk result (λ routines. All IsBounded routines.items) }
    {
        if self.owns.is_empty() {
            return Ok(Vec::new(alloc));
        }
        Ok(vec![in alloc; self.set_up(alloc, c)?]?)
    }

    /// The routine that sets up the own variables. Its nodes are those of their declarations.
    fn set_up(&self, alloc: Global, c: &Checked) -> Result<WRoutine>
        requires { AreNodes c.now.syntax NodeKind.Own self.now.owns.now }
        ensures { IfOk result IsBounded }
    {
        let name = Bytes::from_slice(alloc, SET_UP)?;
        let mut out = Box::new(alloc, Lowering::new(alloc))?;
        let mut fixed = nothing_fixed(alloc, c, self.declarations)?;
        self.note(&mut fixed)?;
        let _own = out.add_type(Bytes::from_slice(alloc, b"proctype()")?)?;
        set_up(&mut out, &fixed, self.owns, HoleKind::ClusterOwn)?;
        out.push(WStmt::Return(Vec::new(alloc)))?;
        out.finish(name, 0, own_nodes(c, self.owns))
    }

    fn routine(&self, alloc: Global, shown: &mut Shown, c: &Checked, n: u32) -> Result<WRoutine>
        requires parameters { AreNodes c.now.syntax NodeKind.Parm self.now.parameters.now }
        requires owns { AreNodes c.now.syntax NodeKind.Own self.now.owns.now }
        requires routine { IsNode c.now.syntax NodeKind.Routine n }
        ensures { IfOk result IsBounded }
    {
        let name = c.syntax.routine(n).name.copy(alloc)?;
        let mut out = Box::new(alloc, Lowering::new(alloc))?;
        let mut fixed = nothing_fixed(alloc, c, self.declarations)?;
        self.note_member(&mut fixed, n)?;
        let args = self.fill(&mut out, &mut fixed, shown, c, n)?;
        out.finish(name, args, c.syntax.tree().nodes(n))
    }

    /// Notes what stands round the statements of the routine n.
    fn note_member(&self, fixed: &mut Fixed, n: u32) -> Result<()>
        requires parameters { AreNodes fixed.old.syntax.now NodeKind.Parm self.now.parameters.now }
        requires owns { AreNodes fixed.old.syntax.now NodeKind.Own self.now.owns.now }
        requires routine { IsNode fixed.old.syntax.now NodeKind.Routine n }
        ensures { fixed.new.syntax ≡ fixed.old.syntax }
    {
        give_member(fixed, n, self.parameters, self.spec)?;
        self.note(fixed)?;
        note_heading(fixed, n)
    }

    /// Adds all that stands in the routine n; the answer is how many arguments it takes.
    fn fill(
        &self,
        out: &mut Lowering,
        fixed: &mut Fixed,
        shown: &mut Shown,
        c: &Checked,
        n: u32,
    ) -> Result<u32>
        requires routine { IsNode fixed.old.syntax.now NodeKind.Routine n }
        requires checked { IsNode c.now.syntax NodeKind.Routine n }
    {
        let routine = fixed.syntax.routine(n);
        let is_iterator = matches!(routine.kind, RoutineKind::Iterator);
        shown.note(out, fixed, c, n, is_iterator)?;
        let args = formals(out, fixed, routine.arguments)?;
        if !self.owns.is_empty() {
            let text = self.set_up_text(out.alloc)?;
            lower_own_set_up(out, text)?;
        }
        body(out, fixed, n)?;
        Ok(args)
    }

    /// The text of the use of the setting up of the own variables.
    fn set_up_text(&self, alloc: Global) -> Result<Bytes> {
        let mut types = Box::new(alloc, TypeArena::new(alloc))?;
        let own = self.cluster_type(alloc, &mut types)?;
        if !types.contains(own) {
            return Err(LowerError::NotYet);
        }
        Ok(use_text(alloc, &types, &Target::OwnSetUp(own))?)
    }

    /// The cluster's type, with its own parameters as actuals.
    fn cluster_type(&self, alloc: Global, types: &mut TypeArena) -> Result<TypeId> {
        let actuals = own_actuals(alloc, types, self.spec.kinds.as_slice())?;
        let name = self.spec.name.copy(alloc)?;
        Ok(intern(types, Term::Cluster(name, Sequence::from_vec(actuals)))?)
    }

    /// What callers see of the cluster before its routines.
    fn shown(&self, alloc: Global) -> Result<Shown> {
        let mut types = Box::new(alloc, TypeArena::new(alloc))?;
        let of = self.cluster_type(alloc, &mut types)?;
        let sealed = Sealed {
            types,
            of,
            name: self.spec.name.copy(alloc)?,
            actuals: Vec::new(alloc),
        };
        Ok(Shown {
            sealed,
            owns: OwnTypes::new(alloc),
        })
    }
}

impl Shown {
    /// Notes the types of the routine n as callers see it.
    fn note(
        &mut self,
        out: &mut Lowering,
        fixed: &mut Fixed,
        c: &Checked,
        n: u32,
        iter: bool,
    ) -> Result<()>
        requires { IsNode c.now.syntax NodeKind.Routine n }
        ensures { fixed.new.syntax ≡ fixed.old.syntax }
    {
        let heading = written_heading(out.alloc, c, n, &mut self.sealed)?;
        note_types(
            out,
            &mut fixed.object_types,
            &mut self.owns,
            &mut self.sealed.types,
            heading,
            iter,
        )
    }
}

/// The nodes of these declarations of own variables.
fn own_nodes(c: &Checked, owns: &[u32]) -> u32
    requires { AreNodes c.now.syntax NodeKind.Own owns.now }
{
    let mut nodes = 0u32;
    for own in owns {
        nodes = nodes.saturating_add(c.syntax.tree().nodes(*own));
    }
    nodes
}
