//! The instructions of a statement for which no other one is written.
ghost use Rattle.std.specs.Prelude.{◌≡◌, ◌≤◌, ◌-◌, ◌++◌, OnOk, length, true};
ghost use Rattle.oss_code.specs.declared.instr.Instr.TheVariants as i;
ghost use Rattle.oss_lower_laws.specs.ExpressionCode.{one};
ghost use Rattle.oss_lower.specs.Singles.{is_single};
ghost use Rattle.oss_lower.specs.Spots.{IsBehind, spot_at};
ghost use Rattle.oss_lower_laws.specs.StatementCode.{stmt_code};

use crate::around::Around;
use crate::simple::{assign, call_alone, declare, end, give, print, release, wait_on};
use oss_code::Instr;
use oss_lower_expressions::{Listing, Names, Scope, Site, narrow};
use oss_syntax::{Stmt, StmtKind};
use std::alloc::AllocError;

/// Writes a statement for which no other one is written.
pub(crate) fn single<'p>(
    names: &Names<'p>,
    scope: &mut Scope<'p>,
    out: &mut Listing,
    around: Around,
    one: &'p Stmt,
) -> Result<(), AllocError>
    requires single { is_single one.now ≡ true }
    requires behind { IsBehind around (length out.old) }
    ensures scope { OnOk result (scope.new ≡ (stmt_code names.now one.now).scope scope.old) }
    ensures code { OnOk result (out.new ≡ out.old ++
        (stmt_code names.now one.now).code (spot_at around scope.old (length out.old))) }
{
    let line = one.line;
    match &one.what {
        StmtKind::Empty => out.push(Instr::Tick, line, 0),
        StmtKind::Declare(locals) => {
            out.push(Instr::Tick, line, 0)?;
            declare(names, scope, out, line, locals.as_slice())
        }
        StmtKind::Assign(target, op, given) => {
            out.push(Instr::Tick, line, 0)?;
            let site = Site { names, scope, line };
            assign(&site, out, target.get(), *op, given.get())
        }
        StmtKind::Call(name, values) => {
            out.push(Instr::Tick, line, 0)?;
            call_alone(&Site { names, scope, line }, out, name, values.as_slice())
        }
        StmtKind::Print(format, values) => {
            out.push(Instr::Tick, line, 0)?;
            print(&Site { names, scope, line }, out, format, values.as_slice())
        }
        StmtKind::Return(None) => {
            out.push(Instr::Tick, line, 0)?;
            end(out, line, around.result)
        }
        StmtKind::Return(Some(given)) => {
            out.push(Instr::Tick, line, 0)?;
            give(
                &Site { names, scope, line },
                out,
                around.result,
                given.get(),
            )
        }
        StmtKind::Break => jump(out, line, around.stop),
        StmtKind::Continue => jump(out, line, around.again),
        StmtKind::TaskLoop(_, _) => out.push(Instr::Tick, line, 0),
        StmtKind::TaskWait(None) => {
            out.push(Instr::Tick, line, 0)?;
            out.push(Instr::Wait, line, 0)
        }
        StmtKind::TaskWait(Some(list)) => {
            out.push(Instr::Tick, line, 0)?;
            wait_on(&Site { names, scope, line }, out, list.as_slice())
        }
        StmtKind::Release(clauses) => {
            out.push(Instr::Tick, line, 0)?;
            release(&Site { names, scope, line }, out, clauses.as_slice())
        }
        _ => unreachable!(),
    }
}

/// Writes a tick that leads back to a piece.
fn jump(out: &mut Listing, line: u32, to: usize) -> Result<(), AllocError>
    requires { to ≤ length out.old }
    ensures { OnOk result (out.new ≡ out.old ++ one line 0 (i.Again (length out.old - to))) }
{
    let back = narrow(out.len() - to)?;
    out.push(Instr::Again(back), line, 0)
}
