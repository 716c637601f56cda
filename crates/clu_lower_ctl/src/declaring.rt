//! Declarations of variables: Declare and Init (CLU Reference Manual, section 8).

ghost use Rattle.std.specs.Prelude.{◌<◌, length};
ghost use Rattle.clu_lower_ctl.specs.Inside.{AreNodes, IsNode};

use crate::assigning::{assign_one, assign_results};
use clu_lower_expr::Lowering;
use clu_lower_types::{Fixed, Result, denotes_any};
use clu_tree::NodeKind;

/// The place of a declaration of a variable, and whether its type is any.
#[derive(Clone, Copy)]
pub struct Declared {
    pub place: usize,
    pub is_any: bool,
}

/// The first variable that a node declares, by the node of its type.
pub fn declared_by(fixed: &Fixed, n: u32, of: u32) -> Result<Declared>
    requires { of < length fixed.now.syntax.now }
{
    let place = fixed.declarations.made(n)?;
    let is_any = denotes_any(fixed, of)?;
    Ok(Declared { place, is_any })
}

/// The variables that these Decls declare.
pub fn variables_of(fixed: &Fixed, declarations: &[u32]) -> Result<Vec<Declared>>
    requires { AreNodes fixed.now.syntax.now NodeKind.Decl declarations.now }
{
    let mut listed = Vec::new(fixed.alloc);
    for declaration in declarations {
        let typed = fixed.syntax.declaration(*declaration);
        let first = declared_by(fixed, *declaration, typed.declared)?;
        add_names(typed.names.len(), first, &mut listed)?;
    }
    Ok(listed)
}

/// The variables of one Decl with so many names, of which this is the first.
fn add_names(names: usize, first: Declared, listed: &mut Vec<Declared>) -> Result<()> {
    let mut place = first.place;
    for _ in 0..names {
        listed.push(Declared { place, ..first })?;
        place = place.saturating_add(1);
    }
    Ok(())
}

/// Makes a variable, which names no object yet if it is `bare`; else one comes with a call, a yield, an exception or a
/// tag. Gives its slot.
pub fn declare_one(out: &mut Lowering, declared: Declared, bare: bool) -> Result<u32> {
    let mut variable = if bare {
        out.bare_variable()?
    } else {
        out.named_variable()?
    };
    variable.is_any = declared.is_any;
    out.declare(declared.place, variable)?;
    Ok(variable.slot)
}

/// The same of several variables.
pub fn declare_all(out: &mut Lowering, listed: &[Declared], bare: bool) -> Result<Vec<u32>> {
    let mut slots = Vec::new(out.alloc);
    for declared in listed {
        slots.push(declare_one(out, *declared, bare)?)?;
    }
    Ok(slots)
}

/// `a, b: t`
pub fn declare(out: &mut Lowering, fixed: &Fixed, declaration: u32) -> Result<()>
    requires { IsNode fixed.now.syntax.now NodeKind.Decl declaration }
{
    let listed = variables_of(fixed, &[declaration])?;
    let _slots = declare_all(out, listed.as_slice(), true)?;
    Ok(())
}

/// The formal arguments of a routine, in the first slots, and how many they are.
pub fn formals(out: &mut Lowering, fixed: &Fixed, declarations: &[u32]) -> Result<u32>
    requires { AreNodes fixed.now.syntax.now NodeKind.Decl declarations.now }
{
    let listed = variables_of(fixed, declarations)?;
    let _slots = declare_all(out, listed.as_slice(), false)?;
    Ok(out.taken())
}

/// `a: t := e` at the node n. Names in the expression denote other declarations. Where arms round it may see the variable
/// before it names its object, it is `bare`.
pub fn initialize(
    out: &mut Lowering,
    fixed: &Fixed,
    n: u32,
    of: u32,
    value: u32,
    bare: bool,
) -> Result<()>
    requires of { of < length fixed.now.syntax.now }
    requires value { value < length fixed.now.syntax.now }
{
    let declared = declared_by(fixed, n, of)?;
    let _slot = declare_one(out, declared, bare)?;
    assign_one(out, fixed, declared.place, value)
}

/// `a: t, b: u := f()`
pub fn initialize_by_call(
    out: &mut Lowering,
    fixed: &Fixed,
    declarations: &[u32],
    call: u32,
    bare: bool,
) -> Result<()>
    requires declarations { AreNodes fixed.now.syntax.now NodeKind.Decl declarations.now }
    requires call { call < length fixed.now.syntax.now }
{
    let listed = variables_of(fixed, declarations)?;
    let _slots = declare_all(out, listed.as_slice(), bare)?;
    give_results(out, fixed, listed.as_slice(), call)
}

/// Lets variables name the results of a call.
pub fn give_results(out: &mut Lowering, fixed: &Fixed, listed: &[Declared], call: u32) -> Result<()>
    requires { call < length fixed.now.syntax.now }
{
    let mut places = Vec::new(out.alloc);
    for declared in listed {
        places.push(declared.place)?;
    }
    assign_results(out, fixed, places.as_slice(), call)
}
