//! The instructions of clauses, and of the creation of tasks.
ghost use Rattle.std.specs.Prelude.{◌≡◌, ◌++◌, OnOk};
ghost use Rattle.oss_lower_laws.specs.SectionCode.{clause_code, clauses_code, created_code};

use oss_code::{Declared, Instr};
use oss_lower_expressions::{Listing, Site, sections, value};
use oss_syntax::Clause;
use std::alloc::AllocError;

/// Writes a clause: what it gives is kept in the frame.
fn clause<'p>(site: &Site<'_, 'p>, out: &mut Listing, one: &'p Clause) -> Result<(), AllocError>
    ensures { OnOk result (out.new ≡ out.old ++ clause_code site.now.names.now site.now.scope.now one.now
        site.now.line) }
{
    match one {
        Clause::Depend(mode, strong, fresh, list) => {
            let declared = Declared {
                mode: *mode,
                strong: *strong,
                fresh: *fresh,
            };
            sections(site, out, declared, list.as_slice())
        }
        Clause::If(expr) => {
            value(site, out, 0, expr)?;
            out.push(Instr::When, site.line, 1)
        }
        Clause::Final(expr) => {
            value(site, out, 0, expr)?;
            out.push(Instr::Final, site.line, 1)
        }
        Clause::Wait => out.push(Instr::Late, site.line, 0),
        Clause::Label(_) => Ok(()),
        Clause::Priority(expr) => {
            value(site, out, 0, expr)?;
            out.push(Instr::Priority, site.line, 1)
        }
        Clause::Grain(_) => Ok(()),
    }
}

/// Writes clauses in text order.
pub(crate) fn clauses<'p>(
    site: &Site<'_, 'p>,
    out: &mut Listing,
    clauses: &'p [Clause],
) -> Result<(), AllocError>
    ensures { OnOk result (out.new ≡ out.old ++ clauses_code site.now.names.now site.now.scope.now clauses.now
        site.now.line) }
{
    for one in clauses {
        clause(site, out, one)?;
    }
    Ok(())
}

/// Writes a creation: its tests, its clauses, and the creation of a task whose body begins so many instructions
/// behind it.
pub(crate) fn created<'p>(
    site: &Site<'_, 'p>,
    out: &mut Listing,
    passed: u32,
    list: &'p [Clause],
) -> Result<(), AllocError>
    ensures { OnOk result (out.new ≡ out.old ++ created_code site.now.names.now site.now.scope.now passed
        list.now site.now.line) }
{
    out.push(Instr::Begin, site.line, 0)?;
    clauses(site, out, list)?;
    out.push(Instr::Create(passed), site.line, 0)
}
