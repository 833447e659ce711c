//! The instructions of functions.
ghost use Rattle.std.specs.Prelude.{◌≡◌, ◌++◌, IfOk, OnOk, length};
ghost use Rattle.oss_meaning.specs.Names.{functions_of};
ghost use Rattle.oss_lower_laws.specs.Lowered.{bodies_from, body_entry, bound_code, entered_code, entries_from, function_code, function_codes};

use crate::around::Around;
use crate::clauses::created;
use crate::simple::end;
use crate::statements::statements;
use oss_code::Instr;
use oss_lower_expressions::{Listing, Names, Scope, Site, deeper, narrow};
use oss_syntax::{Function, Local};
use std::alloc::AllocError;

/// Writes what each parameter keeps of its argument.
fn bound(out: &mut Listing, line: u32, params: &[Local]) -> Result<(), AllocError>
    ensures { OnOk result (out.new ≡ out.old ++ bound_code line 0 params.now) }
{
    let mut slot = 0u32;
    for param in params {
        out.push(Instr::Local(slot), line, 0)?;
        out.push(Instr::SetLocal(slot, param.kind), line, 1)?;
        slot = deeper(slot, 1)?;
    }
    Ok(())
}

/// The parameters of a function, in scope.
fn parameters<'p>(names: &Names<'p>, params: &'p [Local]) -> Result<Scope<'p>, AllocError>
    ensures { IfOk result (λ scope. scope ≡ params.now) }
{
    let mut scope = Scope::none(names.alloc());
    for param in params {
        scope.declare(param)?;
    }
    Ok(scope)
}

/// Writes what leads to the body of a function: of a task function its creation does.
fn entered<'p>(
    names: &Names<'p>,
    scope: &Scope<'p>,
    out: &mut Listing,
    function: &'p Function,
) -> Result<(), AllocError>
    ensures { scope.now ≡ function.now.params → OnOk result (out.new ≡ out.old ++
        entered_code names.now function.now function.now.mark) }
{
    let line = function.line;
    match &function.mark {
        None => out.push(Instr::Skip(3), line, 0),
        Some(mark) => {
            let site = Site { names, scope, line };
            created(&site, out, 5, mark.clauses.as_slice())?;
            out.push(Instr::Push(0), line, 0)?;
            out.push(Instr::Return, line, 1)
        }
    }
}

/// Writes a function, and tells where its body begins.
fn function<'p>(
    names: &Names<'p>,
    out: &mut Listing,
    one: &'p Function,
) -> Result<usize, AllocError>
    ensures entry { IfOk result (λ entry. entry ≡ body_entry names.now one.now (length out.old)) }
    ensures code { OnOk result (out.new ≡ out.old ++ function_code names.now one.now) }
{
    let mut scope = parameters(names, one.params.as_slice())?;
    bound(out, one.line, one.params.as_slice())?;
    entered(names, &scope, out, one)?;
    let pad = out.len();
    end(out, one.line, one.result)?;
    let entry = out.len();
    let around = Around {
        result: one.result,
        stop: pad,
        again: pad,
    };
    statements(names, &mut scope, out, around, one.body.as_slice())?;
    end(out, one.line, one.result)?;
    Ok(entry)
}

/// Where functions begin, and where their bodies do.
#[derive(Drop)]
pub(crate) struct Beginnings {
    pub(crate) functions: Vec<u32>,
    pub(crate) bodies: Vec<usize>,
}

/// Writes the functions in text order, and tells where they begin.
pub(crate) fn functions(names: &Names<'_>, out: &mut Listing) -> Result<Beginnings, AllocError>
    ensures entries { IfOk result (λ b. b.functions.items ≡ entries_from names.now (length out.old)
        (functions_of names.now)) }
    ensures bodies { IfOk result (λ b. b.bodies.items ≡ bodies_from names.now (length out.old)
        (functions_of names.now)) }
    ensures code { OnOk result (out.new ≡ out.old ++ function_codes names.now (functions_of names.now)) }
{
    let mut functions = Vec::new(names.alloc());
    let mut bodies = Vec::new(names.alloc());
    let list = names.functions();
    for one in list {
        functions.push(narrow(out.len())?)?;
        let body = function(names, out, *one)?;
        bodies.push(body)?;
    }
    Ok(Beginnings { functions, bodies })
}
