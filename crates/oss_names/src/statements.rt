//! The rules on statements.
ghost use Rattle.std.specs.Prelude.{◌≡◌, List, length, option_map};
ghost use Rattle.oss_syntax.specs.declared.tree.program.Local.{Local as Declared};
ghost use Rattle.oss_syntax.specs.declared.refusal.Refused.{Refused as Broken};
ghost use Rattle.oss_grammar.specs.Broken.{first};
ghost use Rattle.oss_grammar.specs.ExpressionRules.{value_rules};
ghost use Rattle.oss_grammar.specs.Scopes.{loop_locals};
ghost use Rattle.oss_grammar.specs.SectionRules.{clauses_rules};
ghost use Rattle.oss_grammar.specs.StaticRules.{alone, declare_all, declare_one, for_rules, head_rules, in_a_loop, in_a_task, in_a_task_loop, inner, inner_part, judged, local_rules, may_break, may_continue, part_rules, rules_of, rules_of_all, scope_in, statements_rules, then_judge};
ghost use Rattle.oss_names.specs.PartChecks.{IsPartChecked};

use crate::heads::enter;
use crate::sections::{MOST_LOCALS, clauses, optional, wait};
use crate::simple::{assignment, call_statement, optional_for, print, return_statement};
use oss_grammar::{Around, Nearest, Wanted};
use oss_syntax::{
    Boxed, Expr, Local, LoopHead, Refusal, Refused, RefusedKind, Stmt, StmtKind, TaskMark,
};
use oss_types::{Globals, Locals, before, refused_if, value};

/// Ends a part of a text whose first broken rule this is.
fn told(broken: Option<Refused>) -> Result<(), Refusal>
    ensures { (rules : List Broken) → (locals : List Declared) → broken ≡ first rules →
        IsPartChecked locals (judged rules locals) result locals }
{
    match broken {
        Some(broken) => Err(Refusal::Refused(broken)),
        None => Ok(()),
    }
}

/// Declares locals one after the other, which stay in scope behind their declaration.
pub(crate) fn declare<'p>(
    globals: &Globals<'_>,
    start: usize,
    declared: &'p [Local],
    locals: &mut Locals<'p>,
) -> Result<(), Refusal>
    ensures { IsPartChecked locals.old (declare_all globals.now start declared.now locals.old) result locals.new }
{
    for local in declared {
        declare_local(globals, start, local, locals)?;
    }
    Ok(())
}

/// Declares one local.
fn declare_local<'p>(
    globals: &Globals<'_>,
    start: usize,
    local: &'p Local,
    locals: &mut Locals<'p>,
) -> Result<(), Refusal>
    ensures { IsPartChecked locals.old (declare_one globals.now start local.now locals.old) result locals.new }
{
    match refusal_of_local(globals, start, local, locals) {
        Some(broken) => Err(Refusal::Refused(broken)),
        None => match locals.add(local) {
            Ok(()) => Ok(()),
            Err(full) => Err(Refusal::Memory(full)),
        },
    }
}

/// The first rule that a local breaks.
#[tactic(auto, using(oss_types::proofs::Firsts::firsts))]
fn refusal_of_local(
    globals: &Globals<'_>,
    start: usize,
    local: &Local,
    locals: &Locals<'_>,
) -> Option<Refused>
    ensures { result ≡ first (local_rules globals.now start local.now locals.now) }
{
    let again = locals.has_since(start, local.name.as_slice());
    let many = MOST_LOCALS <= locals.len();
    let twice = refused_if(again, RefusedKind::DuplicateName, local.line);
    let large = refused_if(many, RefusedKind::TooLarge, local.line);
    let inside = optional_for(globals, locals, local.kind, &local.first);
    before(twice, before(large, inside))
}

/// Checks statements in order, whose declarations stay in scope behind them.
#[cycle(statements)]
pub(crate) fn statements<'p>(
    globals: &Globals<'_>,
    around: Around,
    list: &'p [Stmt],
    locals: &mut Locals<'p>,
) -> Result<(), Refusal>
    ensures { IsPartChecked locals.old (rules_of_all list.now globals.now around locals.old) result locals.new }
{
    for one in list {
        statement(globals, around, one, locals)?;
    }
    Ok(())
}

/// Checks one statement.
#[cycle(statements)]
fn statement<'p>(
    globals: &Globals<'_>,
    around: Around,
    statement: &'p Stmt,
    locals: &mut Locals<'p>,
) -> Result<(), Refusal>
    ensures { IsPartChecked locals.old (rules_of statement.now globals.now around locals.old) result locals.new }
{
    let line = statement.line;
    match &statement.what {
        StmtKind::Block(list) => block(globals, around, list.as_slice(), locals),
        StmtKind::Empty => told(None),
        StmtKind::Declare(declared) => {
            declare(globals, around.start, declared.as_slice(), locals)
        }
        StmtKind::Assign(target, op, value) => {
            told(assignment(globals, locals, *op, target.get(), value.get()))
        }
        StmtKind::Call(name, values) => {
            told(call_statement(globals, locals, line, name, values))
        }
        StmtKind::Print(format, values) => told(print(globals, locals, line, format, values)),
        StmtKind::If(test, then_part, else_part) => {
            branches(globals, around, test.get(), then_part, else_part, locals)
        }
        StmtKind::While(test, body) => while_loop(globals, around, test.get(), body, locals),
        StmtKind::For(start, test, step, body) => {
            for_statement(globals, around, start, test.get(), step, body, locals)
        }
        StmtKind::Return(value) => { told(return_statement(globals, locals, around, line, value)) }
        StmtKind::Break => {
            told(refused_if(!may_leave(around.nearest), RefusedKind::BadJump, line))
        }
        StmtKind::Continue => {
            told(refused_if(!may_go_on(around.nearest), RefusedKind::BadJump, line))
        }
        StmtKind::Task(mark, body) => task(globals, around, mark, body, locals),
        StmtKind::TaskLoop(head, body) => task_loop(globals, around, head.get(), body, locals),
        StmtKind::TaskWait(sections) => told(wait(globals, locals, sections)),
        StmtKind::Release(list) => told(clauses(globals, locals, list.as_slice())),
    }
}

/// What stands around the statements of a new scope.
fn scope_of(around: Around, count: usize) -> Around
    ensures { (locals : List Declared) → count ≡ length locals → result ≡ scope_in around locals }
{
    Around {
        start: count,
        result: around.result,
        nearest: around.nearest,
        in_task: around.in_task,
    }
}

/// What stands around the body of a `while` or `for`: `break` and `continue` belong to it.
fn looping(around: Around) -> Around
    ensures { result ≡ in_a_loop around }
{
    Around {
        start: around.start,
        result: around.result,
        nearest: Nearest::Loop,
        in_task: around.in_task,
    }
}

/// What stands around the body of a task statement: no jump leads out of it, so a loop outside of it does not count.
fn tasking(around: Around) -> Around
    ensures { result ≡ in_a_task around }
{
    Around {
        start: around.start,
        result: around.result,
        nearest: Nearest::NoLoop,
        in_task: true,
    }
}

/// What stands around the body of a task loop: it is that of a task too, and `continue` ends a turn.
fn turning(around: Around) -> Around
    ensures { result ≡ in_a_task_loop around }
{
    Around {
        start: around.start,
        result: around.result,
        nearest: Nearest::TaskLoop,
        in_task: true,
    }
}

/// Whether a `break` may leave the nearest loop.
fn may_leave(nearest: Nearest) -> bool
    ensures { result ≡ may_break nearest }
{
    match nearest {
        Nearest::Loop => true,
        _ => false,
    }
}

/// Whether a `continue` may end a turn of the nearest loop.
fn may_go_on(nearest: Nearest) -> bool
    ensures { result ≡ may_continue nearest }
{
    match nearest {
        Nearest::NoLoop => false,
        _ => true,
    }
}

/// Checks the statements of a block, which is a scope of its own.
#[cycle(statements)]
fn block<'p>(
    globals: &Globals<'_>,
    around: Around,
    list: &'p [Stmt],
    locals: &mut Locals<'p>,
) -> Result<(), Refusal>
    ensures { IsPartChecked locals.old (inner (rules_of_all list.now) globals.now around locals.old) result locals.new }
{
    let count = locals.len();
    let ends = statements(globals, scope_of(around, count), list, locals);
    locals.leave(count);
    ends
}

/// Checks a statement in a scope of its own.
#[cycle(statements)]
fn inside<'p>(
    globals: &Globals<'_>,
    around: Around,
    one: &'p Boxed<Stmt>,
    locals: &mut Locals<'p>,
) -> Result<(), Refusal>
    ensures { IsPartChecked locals.old (inner (rules_of one.now) globals.now around locals.old) result locals.new }
{
    let count = locals.len();
    let ends = statement(globals, scope_of(around, count), one.get(), locals);
    locals.leave(count);
    ends
}

/// Checks a statement that may be left out, in a scope of its own.
#[cycle(statements)]
fn inside_part<'p>(
    globals: &Globals<'_>,
    around: Around,
    one: &'p Option<Boxed<Stmt>>,
    locals: &mut Locals<'p>,
) -> Result<(), Refusal>
    ensures { IsPartChecked locals.old (inner_part (option_map rules_of one.now) globals.now around locals.old)
        result locals.new }
{
    match one {
        Some(one) => inside(globals, around, one, locals),
        None => told(None),
    }
}

/// Checks a statement that may be left out.
#[cycle(statements)]
fn part<'p>(
    globals: &Globals<'_>,
    around: Around,
    one: &'p Option<Boxed<Stmt>>,
    locals: &mut Locals<'p>,
) -> Result<(), Refusal>
    ensures { IsPartChecked locals.old (part_rules (option_map rules_of one.now) globals.now around locals.old)
        result locals.new }
{
    match one {
        Some(one) => statement(globals, around, one.get(), locals),
        None => told(None),
    }
}

/// Checks the test and the branches of an `if`.
#[cycle(statements)]
fn branches<'p>(
    globals: &Globals<'_>,
    around: Around,
    test: &Expr,
    then_part: &'p Boxed<Stmt>,
    else_part: &'p Option<Boxed<Stmt>>,
    locals: &mut Locals<'p>,
) -> Result<(), Refusal>
    ensures { IsPartChecked locals.old (then_judge (judged
        (value_rules globals.now locals.old Wanted.Number test.now) locals.old) (λ ls.
        then_judge (inner (rules_of then_part.now) globals.now around ls) (λ ms.
        inner_part (option_map rules_of else_part.now) globals.now around ms))) result locals.new }
{
    told(value(globals, locals, Wanted::Number, test))?;
    inside(globals, around, then_part, locals)?;
    inside_part(globals, around, else_part, locals)
}

/// Checks the test and the body of a `while`.
#[cycle(statements)]
fn while_loop<'p>(
    globals: &Globals<'_>,
    around: Around,
    test: &Expr,
    body: &'p Boxed<Stmt>,
    locals: &mut Locals<'p>,
) -> Result<(), Refusal>
    ensures { IsPartChecked locals.old (then_judge (judged
        (value_rules globals.now locals.old Wanted.Number test.now) locals.old) (λ ls.
        inner (rules_of body.now) globals.now (in_a_loop around) ls)) result locals.new }
{
    told(value(globals, locals, Wanted::Number, test))?;
    inside(globals, looping(around), body, locals)
}

/// Checks a `for`, which is a scope of its own.
#[cycle(statements)]
fn for_statement<'p>(
    globals: &Globals<'_>,
    around: Around,
    start: &'p Option<Boxed<Stmt>>,
    test: &Option<Expr>,
    step: &'p Option<Boxed<Stmt>>,
    body: &'p Boxed<Stmt>,
    locals: &mut Locals<'p>,
) -> Result<(), Refusal>
    ensures { IsPartChecked locals.old (inner (for_rules (option_map rules_of start.now) test.now
        (option_map rules_of step.now) (rules_of body.now)) globals.now around locals.old) result locals.new }
{
    let count = locals.len();
    let ends = for_loop(
        globals,
        scope_of(around, count),
        start,
        test,
        step,
        body,
        locals,
    );
    locals.leave(count);
    ends
}

/// Checks the parts of a `for` in the order in which they stand.
#[cycle(statements)]
fn for_loop<'p>(
    globals: &Globals<'_>,
    around: Around,
    start: &'p Option<Boxed<Stmt>>,
    test: &Option<Expr>,
    step: &'p Option<Boxed<Stmt>>,
    body: &'p Boxed<Stmt>,
    locals: &mut Locals<'p>,
) -> Result<(), Refusal>
    ensures { IsPartChecked locals.old (for_rules (option_map rules_of start.now) test.now
        (option_map rules_of step.now) (rules_of body.now) globals.now around locals.old) result locals.new }
{
    part(globals, around, start, locals)?;
    told(optional(globals, locals, test))?;
    inside_part(globals, around, step, locals)?;
    inside(globals, looping(around), body, locals)
}

/// Checks the pragma of a task and its statement.
#[cycle(statements)]
fn task<'p>(
    globals: &Globals<'_>,
    around: Around,
    mark: &TaskMark,
    body: &'p Boxed<Stmt>,
    locals: &mut Locals<'p>,
) -> Result<(), Refusal>
    ensures { IsPartChecked locals.old (then_judge (judged
        (clauses_rules globals.now locals.old 0 mark.now.clauses) locals.old) (λ ls.
        inner (rules_of body.now) globals.now (in_a_task around) ls)) result locals.new }
{
    told(clauses(globals, locals, mark.clauses.as_slice()))?;
    inside(globals, tasking(around), body, locals)
}

/// Checks a task loop, whose locals are in scope in it alone.
#[cycle(statements)]
fn task_loop<'p>(
    globals: &Globals<'_>,
    around: Around,
    head: &'p LoopHead,
    body: &'p Boxed<Stmt>,
    locals: &mut Locals<'p>,
) -> Result<(), Refusal>
    ensures { IsPartChecked locals.old (alone (then_judge (judged (head_rules globals.now locals.old head.now)
        (loop_locals head.now locals.old)) (λ ls. inner (rules_of body.now) globals.now (in_a_task_loop around)
        ls)) locals.old) result locals.new }
{
    let count = locals.len();
    let ends = turns(globals, around, head, body, locals);
    locals.leave(count);
    ends
}

/// Checks the head of a task loop and its statement.
#[cycle(statements)]
fn turns<'p>(
    globals: &Globals<'_>,
    around: Around,
    head: &'p LoopHead,
    body: &'p Boxed<Stmt>,
    locals: &mut Locals<'p>,
) -> Result<(), Refusal>
    ensures { IsPartChecked locals.old (then_judge (judged (head_rules globals.now locals.old head.now)
        (loop_locals head.now locals.old)) (λ ls. inner (rules_of body.now) globals.now (in_a_task_loop around)
        ls)) result locals.new }
{
    enter(globals, head, locals)?;
    inside(globals, turning(around), body, locals)
}
