//! The instructions of statements.
ghost use Rattle.std.specs.Prelude.{◌≡◌, ◌≤◌, ◌<◌, ◌^◌, ◌+◌, ◌-◌, ◌∷◌, ◌++◌, IfOk, IfSome, IsOk, List, OnOk, length, option_map, take, None, Some};
ghost use Rattle.std.specs.Option.{option_copied};
ghost use Rattle.oss_lower_laws.specs.ExpressionCode.{expr_code, one};
ghost use Rattle.oss_lower_laws.specs.declared.lined.Lined.{Lined as Written};
ghost use Rattle.oss_code.specs.declared.instr.Instr.TheVariants as i;
ghost use Rattle.oss_lower_laws.specs.StatementCode.{blocked_code, choice_code, codes_in_order, for_code, loop_code, pads_code, part_code, part_scope, stmt_code, stmt_codes, task_code, test_code};
ghost use Rattle.oss_lower.specs.Spots.{IsBehind, spot_at};

use crate::around::Around;
use crate::clauses::created;
use crate::looping::Loop;
use crate::simple::end;
use crate::single::single;
use oss_code::Instr;
use oss_lower_expressions::{Jump, Listing, Names, Scope, Site, narrow, value};
use oss_syntax::{Boxed, Clause, Expr, Kind, Stmt, StmtKind};
use std::alloc::AllocError;

/// Writes statements in text order, whose declarations stay in scope behind them.
#[cycle(statements)]
pub(crate) fn statements<'p>(
    names: &Names<'p>,
    scope: &mut Scope<'p>,
    out: &mut Listing,
    around: Around,
    list: &'p [Stmt],
) -> Result<(), AllocError>
    requires { IsBehind around (length out.old) }
    ensures scope { OnOk result (take (length scope.old) scope.new ≡ scope.old) }
    ensures code { OnOk result (out.new ≡ out.old ++
        codes_in_order (stmt_codes names.now list.now) (spot_at around scope.old (length out.old))) }
{
    for one in list {
        statement(names, scope, out, around, one)?;
    }
    Ok(())
}

/// Writes a statement.
#[cycle(statements)]
fn statement<'p>(
    names: &Names<'p>,
    scope: &mut Scope<'p>,
    out: &mut Listing,
    around: Around,
    one: &'p Stmt,
) -> Result<(), AllocError>
    requires { IsBehind around (length out.old) }
    ensures scope { OnOk result (scope.new ≡ (stmt_code names.now one.now).scope scope.old) }
    ensures code { OnOk result (out.new ≡ out.old ++
        (stmt_code names.now one.now).code (spot_at around scope.old (length out.old))) }
{
    let line = one.line;
    match &one.what {
        StmtKind::Block(list) => block(names, scope, out, around, line, list.as_slice()),
        StmtKind::If(test, side, other) => {
            choice(
                names,
                scope,
                out,
                around,
                line,
                test.get(),
                side.get(),
                part(other),
            )
        }
        StmtKind::While(test, body) => {
            for_loop(
                names,
                scope,
                out,
                around,
                line,
                Loop {
                    first: None,
                    test: Some(test.get()),
                    last: None,
                    body: body.get(),
                },
            )
        }
        StmtKind::For(first, test, last, body) => {
            for_loop(
                names,
                scope,
                out,
                around,
                line,
                Loop {
                    first: part(first),
                    test: test.get().as_ref(),
                    last: part(last),
                    body: body.get(),
                },
            )
        }
        StmtKind::Task(mark, body) => {
            task(
                names,
                scope,
                out,
                around,
                line,
                mark.clauses.as_slice(),
                body.get(),
            )
        }
        _ => single(names, scope, out, around, one),
    }
}

/// A statement that may be left out.
fn part(one: &Option<Boxed<Stmt>>) -> Option<&Stmt>
    ensures { option_copied result ≡ one.now }
{
    match one {
        Some(one) => Some(one.get()),
        None => None,
    }
}

/// Writes a block: the locals that are declared inside are dropped at the end.
#[cycle(statements)]
fn block<'p>(
    names: &Names<'p>,
    scope: &mut Scope<'p>,
    out: &mut Listing,
    around: Around,
    line: u32,
    list: &'p [Stmt],
) -> Result<(), AllocError>
    requires { IsBehind around (length out.old) }
    ensures scope { OnOk result (scope.new ≡ scope.old) }
    ensures code { OnOk result (out.new ≡ out.old ++
        (blocked_code line (stmt_codes names.now list.now)).code (spot_at around scope.old (length out.old))) }
{
    let count = scope.len();
    statements(names, scope, out, around, list)?;
    scope.leave(count);
    out.push(Instr::Keep(count), line, 0)?;
    Ok(())
}

/// Writes a statement whose declarations are dropped behind it.
#[cycle(statements)]
#[tactic(auto, using(crate::proofs::SpotLemmas::scopes))]
fn inside<'p>(
    names: &Names<'p>,
    scope: &mut Scope<'p>,
    out: &mut Listing,
    around: Around,
    one: &'p Stmt,
) -> Result<(), AllocError>
    requires { IsBehind around (length out.old) }
    ensures scope { OnOk result (scope.new ≡ scope.old) }
    ensures code { OnOk result (out.new ≡ out.old ++
        (stmt_code names.now one.now).code (spot_at around scope.old (length out.old))) }
{
    let count = scope.len();
    statement(names, scope, out, around, one)?;
    scope.leave(count);
    Ok(())
}

/// Writes a statement that may be left out, whose declarations are dropped behind it.
#[cycle(statements)]
fn inside_part<'p>(
    names: &Names<'p>,
    scope: &mut Scope<'p>,
    out: &mut Listing,
    around: Around,
    one: Option<&'p Stmt>,
) -> Result<(), AllocError>
    requires { IsBehind around (length out.old) }
    ensures scope { OnOk result (scope.new ≡ scope.old) }
    ensures code { OnOk result (out.new ≡ out.old ++
        part_code (option_map (stmt_code names.now) (option_copied one.entry))
        (spot_at around scope.old (length out.old))) }
{
    match one {
        Some(one) => inside(names, scope, out, around, one),
        None => Ok(()),
    }
}

/// Writes the first part of a `for`, whose declarations stay in scope behind it.
#[cycle(statements)]
fn first_part<'p>(
    names: &Names<'p>,
    scope: &mut Scope<'p>,
    out: &mut Listing,
    around: Around,
    one: Option<&'p Stmt>,
) -> Result<(), AllocError>
    requires { IsBehind around (length out.old) }
    ensures scope { OnOk result (scope.new ≡ part_scope (option_map (stmt_code names.now)
        (option_copied one.entry)) scope.old) }
    ensures code { OnOk result (out.new ≡ out.old ++
        part_code (option_map (stmt_code names.now) (option_copied one.entry))
        (spot_at around scope.old (length out.old))) }
{
    match one {
        Some(one) => statement(names, scope, out, around, one),
        None => Ok(()),
    }
}

/// Writes an `if`: a test, the first side with a jump past the second, and the second side.
#[cycle(statements)]
fn choice<'p>(
    names: &Names<'p>,
    scope: &mut Scope<'p>,
    out: &mut Listing,
    around: Around,
    line: u32,
    test: &Expr,
    side: &'p Stmt,
    other: Option<&'p Stmt>,
) -> Result<(), AllocError>
    requires { IsBehind around (length out.old) }
    ensures scope { OnOk result (scope.new ≡ scope.old) }
    ensures code { OnOk result (out.new ≡ out.old ++
        (choice_code names.now line test.now (stmt_code names.now side.now)
        (option_map (stmt_code names.now) (option_copied other.entry))).code
        (spot_at around scope.old (length out.old))) }
{
    out.push(Instr::Tick, line, 0)?;
    value(&Site { names, scope, line }, out, 0, test)?;
    let test_at = out.len();
    out.push(Instr::SkipUnless(0), line, 1)?;
    inside(names, scope, out, around, side)?;
    let end_at = out.len();
    out.push(Instr::Skip(0), line, 0)?;
    out.fill(test_at, Jump::Unless, 0)?;
    inside_part(names, scope, out, around, other)?;
    out.fill(end_at, Jump::Always, 0)?;
    Ok(())
}

/// Writes a `for` or, without a first and a last part, a `while`. What the first part declares is dropped behind them.
#[cycle(statements)]
fn for_loop<'p>(
    names: &Names<'p>,
    scope: &mut Scope<'p>,
    out: &mut Listing,
    around: Around,
    line: u32,
    parts: Loop<'p>,
) -> Result<(), AllocError>
    requires { IsBehind around (length out.old) }
    ensures scope { OnOk result (scope.new ≡ scope.old) }
    ensures code { OnOk result (out.new ≡ out.old ++
        (for_code names.now line (option_map (stmt_code names.now) (option_copied parts.entry.first))
        (option_copied parts.entry.test) (option_map (stmt_code names.now) (option_copied parts.entry.last))
        (stmt_code names.now parts.entry.body.now)).code
        (spot_at around scope.old (length out.old))) }
{
    let count = scope.len();
    out.push(Instr::Tick, line, 0)?;
    first_part(names, scope, out, around, parts.first)?;
    turns(names, scope, out, around, line, parts)?;
    scope.leave(count);
    out.push(Instr::Keep(count), line, 0)?;
    Ok(())
}

/// Writes a loop, its first part being written.
#[cycle(statements)]
fn turns<'p>(
    names: &Names<'p>,
    scope: &mut Scope<'p>,
    out: &mut Listing,
    around: Around,
    line: u32,
    parts: Loop<'p>,
) -> Result<(), AllocError>
    requires { IsBehind around (length out.old) }
    ensures scope { OnOk result (scope.new ≡ scope.old) }
    ensures code { OnOk result (out.new ≡ out.old ++
        loop_code names.now line (option_copied parts.entry.test)
        (option_map (stmt_code names.now) (option_copied parts.entry.last)) (stmt_code names.now parts.entry.body.now)
        (spot_at around scope.old (length out.old))) }
{
    let kept = scope.len();
    pads(out, line, kept)?;
    let start = out.len();
    let test_at = tested(&Site { names, scope, line }, out, parts.test)?;
    inside(names, scope, out, of_loop(around.result, start), parts.body)?;
    out.fill(start - 2, Jump::Always, 0)?;
    inside_part(names, scope, out, around, parts.last)?;
    let written = out.len();
    let back = narrow(written - start)?;
    out.push(Instr::Again(back), line, 0)?;
    out.fill(start - 4, Jump::Always, 0)?;
    passed(out, test_at)?;
    Ok(())
}

/// Writes what stands before the test of a loop: a jump to the tick, the piece of `break`, that of `continue`,
/// and the tick.
fn pads(out: &mut Listing, line: u32, kept: u32) -> Result<(), AllocError>
    ensures { OnOk result (out.new ≡ out.old ++ pads_code line kept 0 0) }
{
    out.push(Instr::Skip(4), line, 0)?;
    out.push(Instr::Keep(kept), line, 0)?;
    out.push(Instr::Skip(0), line, 0)?;
    out.push(Instr::Keep(kept), line, 0)?;
    out.push(Instr::Skip(0), line, 0)?;
    out.push(Instr::Tick, line, 0)
}

/// Writes the test of a loop, if there is one, with a jump whose length is not yet told, and tells the place of
/// the jump.
fn tested(
    site: &Site<'_, '_>,
    out: &mut Listing,
    test: Option<&Expr>,
) -> Result<Option<usize>, AllocError>
    ensures place { IfOk result (λ place. place ≡ option_map
        (λ e. length out.old + length ((expr_code site.now.names.now site.now.scope.now e).value site.now.line 0))
        (option_copied test.entry)) }
    ensures code { OnOk result (out.new ≡ out.old ++
        test_code site.now.names.now (option_copied test.entry) site.now.line site.now.scope.now 0) }
{
    match test {
        Some(test) => {
            value(site, out, 0, test)?;
            let place = out.len();
            out.push(Instr::SkipUnless(0), site.line, 1)?;
            Ok(Some(place))
        }
        None => Ok(None),
    }
}

/// Lets the jump of a test pass all that is written behind it. It takes no memory, and succeeds where there are fewer than
/// 4,294,967,296 instructions.
fn passed(out: &mut Listing, test: Option<usize>) -> Result<(), AllocError>
    requires { IfSome test (λ place. place < length out.old) }
    ensures some { OnOk result ((before after : List Written) (l : Written)
        → out.old ≡ before ++ (l ∷ after) → test ≡ Some (length before)
        → out.new ≡ before ++ (one l.line l.depth (i.SkipUnless (length after)) ++ after)) }
    ensures none { OnOk result (test ≡ None → out.new ≡ out.old) }
    ensures fits { length out.old < 2 ^ 32 → IsOk result }
{
    match test {
        Some(place) => out.fill(place, Jump::Unless, 0),
        None => Ok(()),
    }
}

/// What stands around the body of a loop whose test begins here.
fn of_loop(kind: Kind, start: usize) -> Around
    requires { 6 ≤ start }
    ensures { result ≡ (record { result = kind; stop = start - 5; again = start - 3 }) }
{
    Around {
        result: kind,
        stop: start - 5,
        again: start - 3,
    }
}

/// Writes a task: its creation, and behind that, passed there, the body of the task.
#[cycle(statements)]
fn task<'p>(
    names: &Names<'p>,
    scope: &mut Scope<'p>,
    out: &mut Listing,
    around: Around,
    line: u32,
    clauses: &'p [Clause],
    body: &'p Stmt,
) -> Result<(), AllocError>
    ensures scope { OnOk result (scope.new ≡ scope.old) }
    ensures code { OnOk result (out.new ≡ out.old ++
        (task_code names.now line clauses.now (stmt_code names.now body.now)).code
        (spot_at around scope.old (length out.old))) }
{
    out.push(Instr::Tick, line, 0)?;
    created(&Site { names, scope, line }, out, 4, clauses)?;
    let behind = out.len();
    out.push(Instr::Skip(0), line, 0)?;
    let pad = out.len();
    end(out, line, around.result)?;
    let inner = Around {
        result: around.result,
        stop: pad,
        again: pad,
    };
    inside(names, scope, out, inner, body)?;
    end(out, line, around.result)?;
    out.fill(behind, Jump::Always, 0)?;
    Ok(())
}
