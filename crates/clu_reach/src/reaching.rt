//! Which routines a program reaches from its start: breadth first, in the order of their uses, each once.

ghost use Rattle.std.specs.Prelude.{◌≡◌, ◌≤◌, ℕ, IfErr, IfOk, List, None, OnOk, option_copied, slice_get};
ghost use Rattle.indexmap.specs.IndexMap.{keys};
ghost use Rattle.indexmap.specs.IndexSet.{index_set_len};
ghost use Rattle.clu_types.specs.Arena.{Grows};
ghost use Rattle.clu_library.specs.Contents.{Contents, body_of, spec_of};
ghost use Rattle.clu_library.specs.Staleness.{IsStale};
ghost use Rattle.clu_reach.specs.Causes.{HasBody, IsRefusalOf};
ghost use Rattle.clu_reach.specs.Found.{AreKept, IsKept, IsOf};
ghost use Rattle.clu_reach.specs.Reach.{IsTaken, RoutineFate, bodiless, is_stale, misfit, UsesFate, routine_in, with_all};
ghost use Rattle.clu_reach.specs.Refused.{IsAccepted, IsAcceptedFrom, IsRefused, IsRefusedFrom, first_of_start};
ghost use Rattle.clu_reach.specs.Starts.{IsRefusal, MayStart, is_start, is_start_form};
ghost use Rattle.clu_reach.specs.Tables.{weight};
ghost use Rattle.clu_reach.specs.Walked.{IsFate, IsOriginAt, IsStep, IsWalked, KeptStep, NextIs, OriginStep, Walked, instance_of, instances_of, listed};
ghost use Rattle.clu_reach.specs.declared.member.Member.{Member as InstanceOf};

use crate::bounds::{fits, weight};
use crate::denoting::{Needs, Use, uses_of};
use crate::errors::LinkError;
use crate::faults::{Faults, of_step};
use crate::member::Member;
use crate::operation_codes::{Family, family_of};
use crate::operations::code_of;
use crate::origins::{Kept, Origin, origin_of};
use crate::parameters::types_of;
use crate::program::Code;
use clu_base::{Bytes, Memory, Sequence};
use clu_library::Library;
use clu_object::{ObjRoutine, Object};
use clu_rt_data::{derived, scheme};
use clu_specs::Form;
use clu_types::{Actual, Spec, TypeArena, TypeId};
use clu_wir::WRoutine;
use indexmap::{IndexMap, IndexSet};
use std::alloc::Global;
use std::boxed::Box;

/// The most instances of a program.
const MAX_INSTANCES: usize = 4096;

/// A routine whose code stands once in a program, whatever its instances.
#[derive(Drop, PartialEq, Eq, Hash)]
pub enum RoutineName {
    /// A routine of a module.
    Kept(Bytes, Bytes),
    /// An operation of a type that uses those of the type's components.
    Scheme(TypeId, Bytes),
    /// An operation of the types of a kind that is defined by a text.
    Derived(Family, Bytes),
}

/// What a use comes to.
#[derive(Clone, Copy)]
pub enum Callee {
    /// The instance of this number.
    Instance(usize),
    /// The operation of this number.
    Operation(usize),
}

/// A routine with its actual parameters.
#[derive(Drop)]
pub struct Instance {
    /// The number of its routine.
    pub routine: usize,
    pub actuals: Vec<Actual>,
    pub uses: Vec<Callee>,
    /// The types that its routine names, with the actuals put in.
    pub types: Vec<TypeId>,
    /// The cluster instance whose routine it is.
    pub cluster: Option<TypeId>,
}

/// What a program consists of.
#[derive(Drop)]
pub struct Reached<'a> {
    /// The types that uses name.
    pub types: TypeArena,
    /// What the instances are, in the order in which they are reached.
    pub members: IndexSet<Member>,
    pub instances: Vec<Instance>,
    /// The routines of the instances.
    pub routines: IndexMap<RoutineName, Code<'a>>,
    /// The operations that are used and that no module has.
    pub operations: IndexSet<Member>,
}

/// What is reached so far, and what was found wrong with it.
#[derive(Drop)]
struct Work<'a> {
    reached: Box<Reached<'a>>,
    faults: Box<Faults>,
}

/// What an instance uses and the types that it names, with its actual parameters put in.
#[derive(Drop)]
struct Parts {
    uses: Vec<Use>,
    types: Vec<TypeId>,
}

/// What the program with this first instance reaches. The refusals are those of `LinkError` that come after the start.
#[tactic(auto, using(crate::proofs::From::starts))]
pub fn reach<'a>(
    alloc: Global,
    lib: &'a Library,
    first: Member,
) -> Result<Box<Reached<'a>>, LinkError>
    ensures few { IfOk result (λ reached. index_set_len reached.value.members ≤ 4096) }
    ensures kept { IfOk result (λ reached. AreKept lib.now (keys reached.value.routines)) }
    ensures refused { (start : List ℕ) → IfErr result (λ e. IsRefusalOf e lib.now start) }
    ensures accepted { IfOk result (λ reached. IsAccepted lib.now first reached.value) }
    ensures exact { IfErr result (λ e. IsRefused lib.now first e) }
    ensures accepted_from { (start : List ℕ) → first ≡ first_of_start start → OnOk result (IsAcceptedFrom lib.now start) }
    ensures exact_from { (start : List ℕ) → first ≡ first_of_start start → IfErr result (λ e. IsRefusedFrom lib.now start e) }
{
    let mut work = Work::new(alloc, lib, first)?;
    match work.visit_all(alloc, lib) {
        Ok(()) => work.finish(),
        Err(error) => Err(of_step(error)),
    }
}

/// The instance with which a program starts.
pub fn start_of(alloc: Global, lib: &Library, start: &Bytes) -> Result<Member, LinkError>
    ensures started { OnOk result (MayStart (spec_of lib.now start.now)) }
    ensures first { IfOk result (λ first. first ≡ first_of_start start.now) }
    ensures exact { IfErr result (λ e. IsRefusedFrom lib.now start.now e) }
    ensures refused { IfErr result (λ e. IsRefusal e start.now (spec_of lib.now start.now)) }
    ensures among_all { IfErr result (λ e. IsRefusalOf e lib.now start.now) }
{
    let name = start.copy(alloc)?;
    match lib.spec(start) {
        None => Err(LinkError::NoModule(name)),
        Some(spec) if is_start(spec) => Ok(Member::Module(
            name,
            Sequence::from_vec(Vec::new(alloc)),
        )),
        Some(_) => Err(LinkError::BadStart(name)),
    }
}

/// Whether it is a procedure without parameters, arguments and results.
pub fn is_start(spec: &Spec) -> bool
    ensures { result ≡ is_start spec.now }
{
    spec.kinds.as_slice().is_empty() && is_start_form(&spec.form)
}

fn is_start_form(form: &Form) -> bool
    ensures { result ≡ is_start_form form.now }
{
    match form {
        Form::Routine(op) => {
            !op.iter
                && op.heading.args.as_slice().is_empty()
                && op.heading.results.as_slice().is_empty()
        }
        Form::Cluster(_, _) => false,
    }
}

/// The routine of this name.
fn routine_named<'a>(object: &'a Object, name: &Bytes) -> Option<&'a ObjRoutine>
    ensures { option_copied result ≡ routine_in name.now object.now.routines }
{
    for routine in object.routines.as_slice() {
        if routine.name == *name {
            return Some(routine);
        }
    }
    None
}

/// What a routine uses and names with these actual parameters; None if it names what is not there.
#[tactic(auto, using(crate::proofs::Growing::growings))]
fn parts_of(
    alloc: Global,
    lib: &Library,
    types: &mut TypeArena,
    routine: &ObjRoutine,
    actuals: &[Actual],
    needs: Needs,
) -> Result<Option<Parts>, LinkError>
    ensures { OnOk result (Grows types.old types.new) }
{
    let Some(named) = types_of(alloc, types, routine.types.as_slice(), actuals)? else {
        return Ok(None);
    };
    match uses_of(alloc, lib, types, routine.uses.as_slice(), actuals, needs)? {
        Some(uses) => Ok(Some(Parts { uses, types: named })),
        None => Ok(None),
    }
}

impl<'a> Work<'a> {
    fn new(alloc: Global, lib: &Library, first: Member) -> Result<Work<'a>, Memory>
        ensures of { IfOk result (IsOf lib.now) }
        ensures walked { IfOk result (Walked lib.now first 0) }
    {
        let stale = lib.stale_modules(alloc)?;
        let mut members = IndexSet::new(alloc);
        members.insert(first)?;
        Ok(Work {
            reached: Box::new(alloc, Reached::new(alloc, members))?,
            faults: Box::new(alloc, Faults::new(stale))?,
        })
    }

    /// Visits the first instance and, in the order in which they are reached, all others.
    #[tactic(auto, using(crate::proofs::Steps::steps))]
    fn visit_all(&mut self, alloc: Global, lib: &'a Library) -> Result<(), LinkError>
        requires { IsOf lib.now self.old }
        ensures of { OnOk result (IsOf lib.now self.new) }
        ensures walked { (first : InstanceOf) → Walked lib.now first 0 self.old → OnOk result (IsWalked lib.now first self.new) }
    {
        for n in 0..MAX_INSTANCES {
            if !self.visit_next(alloc, lib, n)? {
                return Ok(());
            }
        }
        Ok(())
    }

    /// Visits the n-th instance; whether there was one to visit. Where there are too many already, nothing that is found
    /// later changes the answer.
    #[tactic(auto, using(crate::proofs::Steps::steps))]
    fn visit_next(&mut self, alloc: Global, lib: &'a Library, n: usize) -> Result<bool, LinkError>
        requires { IsOf lib.now self.old }
        ensures of { OnOk result (IsOf lib.now self.new) }
        ensures next { (first : InstanceOf) → Walked lib.now first n self.old → IfOk result (λ more. NextIs lib.now first n more self.new) }
    {
        if self.reached.members.len() > MAX_INSTANCES {
            return Ok(false);
        }
        match self.origin(alloc, n)? {
            Some(origin) => {
                self.visit(alloc, lib, origin)?;
                Ok(true)
            }
            None => Ok(false),
        }
    }

    /// Where the code of the n-th instance comes from.
    fn origin(&self, alloc: Global, n: usize) -> Result<Option<Origin>, LinkError>
        ensures { IfOk result (IsOriginAt self.now.reached.value.types (slice_get self.now.reached.value.members.keys n)) }
    {
        match self.reached.members.get_index(n) {
            Some(member) => Ok(Some(origin_of(alloc, &self.reached.types, member)?)),
            None => Ok(None),
        }
    }

    /// Adds what an instance uses.
    fn visit(&mut self, alloc: Global, lib: &'a Library, origin: Origin) -> Result<(), LinkError>
        requires { IsOf lib.now self.old }
        ensures of { OnOk result (IsOf lib.now self.new) }
        ensures step { OnOk result (OriginStep lib.now origin self.old self.new) }
    {
        match origin {
            Origin::Module(kept) => self.visit_module(alloc, lib, kept),
            Origin::Builtin(of, op, actuals) => self.visit_builtin(alloc, lib, of, op, actuals),
        }
    }

    #[tactic(auto, using(crate::proofs::Keeping::causes, crate::proofs::Steps::visits))]
    fn visit_module(&mut self, alloc: Global, lib: &'a Library, kept: Kept) -> Result<(), LinkError>
        requires { IsOf lib.now self.old }
        ensures of { OnOk result (IsOf lib.now self.new) }
        ensures step { OnOk result (KeptStep lib.now kept self.old self.new) }
    {
        match lib.body(&kept.module) {
            None => {
                self.add_bodiless(kept.module);
                Ok(())
            }
            Some(body) => {
                if self.faults.is_stale(&kept.module) {
                    return Ok(self.add_stale(alloc, lib, &kept.module)?);
                }
                self.visit_object(alloc, lib, kept, &body.object)
            }
        }
    }

    /// No body is kept of the module.
    fn add_bodiless(&mut self, name: Bytes)
        ensures of { (library : Contents) → body_of library name ≡ None → IsOf library self.old → IsOf library self.new }
        ensures step { IsStep (IsFate (bodiless name)) self.old self.new }
    {
        self.faults.add_bodiless(name);
    }

    /// The body of the module is stale.
    fn add_stale(&mut self, alloc: Global, lib: &Library, name: &Bytes) -> Result<(), Memory>
        requires so_far { IsOf lib.now self.old }
        requires stale { IsStale lib.now name.now }
        ensures of { OnOk result (IsOf lib.now self.new) }
        ensures step { OnOk result (IsStep (IsFate (is_stale name.now)) self.old self.new) }
    {
        self.faults.add_stale(alloc, lib, name)
    }

    /// The module's object does not fit what is kept.
    fn add_misfit(&mut self, name: Bytes)
        ensures of { (library : Contents) → HasBody library name → IsOf library self.old → IsOf library self.new }
        ensures step { IsStep (IsFate (misfit name)) self.old self.new }
    {
        self.faults.add_misfit(name);
    }

    /// The module has a body that isn't stale, with this object.
    #[tactic(auto, using(crate::proofs::Steps::visits))]
    fn visit_object(
        &mut self,
        alloc: Global,
        lib: &'a Library,
        kept: Kept,
        object: &'a Object,
    ) -> Result<(), LinkError>
        requires so_far { IsOf lib.now self.old }
        requires body { HasBody lib.now kept.module }
        ensures of { OnOk result (IsOf lib.now self.new) }
        ensures step { OnOk result (IsStep (RoutineFate kept.module kept.actuals.items (routine_in kept.routine object.now.routines)) self.old self.new) }
    {
        match routine_named(object, &kept.routine) {
            Some(routine) => {
                if fits(routine, kept.actuals.as_slice()) {
                    return self.visit_routine(alloc, lib, kept, routine);
                }
                self.add_misfit(kept.module);
                Ok(())
            }
            None => {
                self.add_misfit(kept.module);
                Ok(())
            }
        }
    }

    fn visit_routine(
        &mut self,
        alloc: Global,
        lib: &'a Library,
        kept: Kept,
        routine: &'a ObjRoutine,
    ) -> Result<(), LinkError>
        requires so_far { IsOf lib.now self.old }
        requires body { HasBody lib.now kept.module }
        ensures of { OnOk result (IsOf lib.now self.new) }
        ensures step { OnOk result (IsStep (UsesFate kept.module (weight kept.actuals.items routine.now)) self.old self.new) }
    {
        let Kept {
            module,
            routine: name,
            cluster,
            actuals,
        } = kept;
        let types = &mut self.reached.types;
        match parts_of(alloc, lib, types, routine, actuals.as_slice(), Needs::Asked)? {
            Some(parts) => {
                self.faults.add_weight(weight(routine, actuals.as_slice()));
                let name = RoutineName::Kept(module, name);
                let code = Code::Kept(routine);
                Ok(
                    self.reached
                        .add(alloc, name, code, actuals, parts, cluster)?,
                )
            }
            None => {
                self.add_misfit(module);
                Ok(())
            }
        }
    }

    /// An operation of a type that is defined by a text or uses those of the components, which are there.
    fn visit_builtin(
        &mut self,
        alloc: Global,
        lib: &'a Library,
        of: TypeId,
        op: Bytes,
        actuals: Vec<Actual>,
    ) -> Result<(), LinkError>
        requires { IsOf lib.now self.old }
        ensures of { OnOk result (IsOf lib.now self.new) }
        ensures step { OnOk result (IsStep IsTaken self.old self.new) }
    {
        if let Some(made) = derived(alloc, &self.reached.types, of, &op)? {
            let family = family_of(&self.reached.types, of)?;
            return self.visit_made(alloc, lib, made, RoutineName::Derived(family, op), actuals);
        }
        match scheme(alloc, &self.reached.types, of, &op)? {
            Some(made) => self.visit_made(alloc, lib, made, RoutineName::Scheme(of, op), actuals),
            None => Err(LinkError::NotYet),
        }
    }

    /// A routine that is made here, with its actual parameters.
    fn visit_made(
        &mut self,
        alloc: Global,
        lib: &'a Library,
        made: WRoutine,
        name: RoutineName,
        actuals: Vec<Actual>,
    ) -> Result<(), LinkError>
        requires so_far { IsOf lib.now self.old }
        requires named { IsKept lib.now name }
        ensures of { OnOk result (IsOf lib.now self.new) }
        ensures step { OnOk result (IsStep IsTaken self.old self.new) }
    {
        let routine = code_of(alloc, &made)?;
        let types = &mut self.reached.types;
        match parts_of(alloc, lib, types, &routine, actuals.as_slice(), Needs::Met)? {
            Some(parts) => {
                self.faults.add_weight(weight(&routine, actuals.as_slice()));
                let code = Code::Made(routine);
                Ok(self.reached.add(alloc, name, code, actuals, parts, None)?)
            }
            None => Err(LinkError::NotYet),
        }
    }

    /// What was reached, if nothing is wrong with it.
    fn finish(self) -> Result<Box<Reached<'a>>, LinkError>
        ensures few { IfOk result (λ reached. index_set_len reached.value.members ≤ 4096) }
        ensures kept { (library : Contents) → IsOf library self.entry → IfOk result (λ reached. AreKept library (keys reached.value.routines)) }
        ensures refused { (library : Contents) → (start : List ℕ) → IsOf library self.entry → IfErr result (λ e. IsRefusalOf e library start) }
        ensures accepted { (library : Contents) → (first : InstanceOf) → IsWalked library first self.entry → IfOk result (λ reached. IsAccepted library first reached.value) }
        ensures exact { (library : Contents) → (first : InstanceOf) → IsWalked library first self.entry → IfErr result (λ e. IsRefused library first e) }
    {
        let Work { reached, faults } = self;
        if reached.members.len() > MAX_INSTANCES {
            return Err(LinkError::TooManyInstances);
        }
        match Box::into_inner(faults).first() {
            Some(error) => Err(error),
            None => Ok(reached),
        }
    }
}

impl<'a> Reached<'a> {
    fn new(alloc: Global, members: IndexSet<Member>) -> Reached<'a>
        ensures kept { (library : Contents) → AreKept library (keys result.routines) }
        ensures members { result.members ≡ members }
    {
        Reached {
            types: TypeArena::new(alloc),
            members,
            instances: Vec::new(alloc),
            routines: IndexMap::new(alloc),
            operations: IndexSet::new(alloc),
        }
    }

    /// Adds an instance that was reached, and what it uses.
    fn add(
        &mut self,
        alloc: Global,
        name: RoutineName,
        code: Code<'a>,
        actuals: Vec<Actual>,
        parts: Parts,
        cluster: Option<TypeId>,
    ) -> Result<(), Memory>
        ensures kept { (library : Contents) → IsKept library name → AreKept library (keys self.old.routines) → OnOk result (AreKept library (keys self.new.routines)) }
        ensures members { OnOk result (self.new.members.keys ≡ with_all self.old.members.keys (instances_of parts.uses.items)) }
        ensures types { OnOk result (self.new.types ≡ self.old.types) }
    {
        let Parts { uses, types } = parts;
        let number = place(&mut self.routines, name, code)?;
        let uses = callees_of(alloc, &mut self.members, &mut self.operations, uses)?;
        self.instances.push(Instance {
            routine: number,
            actuals,
            uses,
            types,
            cluster,
        })?;
        Ok(())
    }
}

/// The numbers of what is used, which is added to the instances or the operations if it is new.
fn callees_of(
    alloc: Global,
    members: &mut IndexSet<Member>,
    operations: &mut IndexSet<Member>,
    uses: Vec<Use>,
) -> Result<Vec<Callee>, Memory>
    ensures { OnOk result (members.new.keys ≡ with_all members.old.keys (instances_of uses.items)) }
{
    let mut callees = Vec::new(alloc);
    for denoted in uses {
        callees.push(number_of(members, operations, denoted)?)?;
    }
    Ok(callees)
}

fn number_of(
    members: &mut IndexSet<Member>,
    operations: &mut IndexSet<Member>,
    denoted: Use,
) -> Result<Callee, Memory>
    ensures { OnOk result (members.new.keys ≡ listed members.old.keys (instance_of denoted)) }
{
    match denoted {
        Use::Instance(member) => {
            let (number, _) = members.insert_full(member)?;
            Ok(Callee::Instance(number))
        }
        Use::Operation(member) => {
            let (number, _) = operations.insert_full(member)?;
            Ok(Callee::Operation(number))
        }
    }
}

/// The number of a routine, which is added if it is new.
#[tactic(auto, using(crate::proofs::Keeping::keepings))]
fn place<'a>(
    routines: &mut IndexMap<RoutineName, Code<'a>>,
    name: RoutineName,
    code: Code<'a>,
) -> Result<usize, Memory>
    ensures { (library : Contents) → IsKept library name → AreKept library (keys routines.old) → OnOk result (AreKept library (keys routines.new)) }
{
    let (number, _) = routines.insert_full(name, code)?;
    Ok(number)
}
