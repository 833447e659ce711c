//! The reader of pragmas.

ghost use Rattle.std.specs.Prelude.{◌≡◌};
ghost use Rattle.oss_grammar.specs.Reading.{begins, read_one, read_then};
ghost use Rattle.oss_expressions.specs.ExpressionReading.{read_expression};
ghost use Rattle.oss_expressions.specs.TokenValues.{start_at};
ghost use Rattle.oss_expressions.specs.Told.{ReadsAs};
ghost use Rattle.oss_pragma.specs.PragmaReading.{goes_on_with_depend, read_after_comma, read_depend, read_depends, read_more_depends, read_on, read_pragma, read_release, read_task, read_task_loop, read_taskwait};

use crate::clauses::{clauses, depend};
use crate::sections::bracketed_sections;
use oss_expressions::reading::{Cursor, TaskKind, Unread, access, symbol_is};
use oss_syntax::{Clause, Directive, List, Section, TaskMark, Token};
use std::alloc::Global;

/// "task" { [ "," ] clause } end, behind the first token of a pragma with this line
#[tactic(auto, unfolding(crate::specs::PragmaReading::read_task))]
fn task(alloc: Global, line: u32, tokens: &mut Cursor<'_>) -> Result<Directive, Unread>
    ensures { ReadsAs (read_task read_expression line tokens.old) result tokens.new }
{
    tokens.word(b"task")?;
    let clauses = clauses(alloc, TaskKind::Task, tokens)?;
    tokens.pragma_end()?;
    Ok(Directive::Task(TaskMark { clauses, line }))
}

/// "taskloop" { [ "," ] clause } end, behind the first token of a pragma with this line
#[tactic(auto, unfolding(crate::specs::PragmaReading::read_task_loop))]
fn task_loop(alloc: Global, line: u32, tokens: &mut Cursor<'_>) -> Result<Directive, Unread>
    ensures { ReadsAs (read_task_loop read_expression line tokens.old) result tokens.new }
{
    tokens.word(b"taskloop")?;
    let clauses = clauses(alloc, TaskKind::Loop, tokens)?;
    tokens.pragma_end()?;
    Ok(Directive::TaskLoop(TaskMark { clauses, line }))
}

/// "on" "(" sections ")" end
#[tactic(auto, unfolding(crate::specs::PragmaReading::read_on))]
fn on(alloc: Global, tokens: &mut Cursor<'_>) -> Result<List<Section>, Unread>
    ensures { ReadsAs (read_on read_expression tokens.old) result tokens.new }
{
    tokens.word(b"on")?;
    let sections = bracketed_sections(alloc, tokens)?;
    tokens.pragma_end()?;
    Ok(sections)
}

/// "taskwait" [ "on" "(" sections ")" ] end
#[tactic(auto, unfolding(crate::specs::PragmaReading::read_taskwait))]
fn task_wait(alloc: Global, tokens: &mut Cursor<'_>) -> Result<Directive, Unread>
    ensures { ReadsAs (read_taskwait read_expression tokens.old) result tokens.new }
{
    tokens.word(b"taskwait")?;
    if tokens.begins_with_word(b"on") {
        let sections = on(alloc, tokens)?;
        return Ok(Directive::TaskWait(Some(sections)));
    }
    tokens.pragma_end()?;
    Ok(Directive::TaskWait(None))
}

/// [ "," ] depend
fn next_depend(alloc: Global, tokens: &mut Cursor<'_>) -> Result<Clause, Unread>
    ensures { ReadsAs (read_after_comma (read_depend read_expression) tokens.old) result tokens.new }
{
    if tokens.begins_with_symbol(b",") {
        tokens.symbol(b",")?;
        return depend(alloc, tokens);
    }
    depend(alloc, tokens)
}

/// Whether a dependency begins here, or the comma before one.
fn goes_on(found: &List<Clause>, tokens: &Cursor<'_>) -> bool
    ensures { result ≡ begins (goes_on_with_depend found.now) tokens.now }
{
    match tokens.left().first() {
        Some(token) => symbol_is(b",", &token.what) || access(&token.what).is_some(),
        None => false,
    }
}

/// { [ "," ] depend }, behind the dependencies that were found
fn more_depends(
    alloc: Global,
    mut found: List<Clause>,
    tokens: &mut Cursor<'_>,
) -> Result<List<Clause>, Unread>
    ensures { ReadsAs (read_more_depends read_expression found tokens.old) result tokens.new }
{
    'depends: while goes_on(&found, tokens) {
        let next = match next_depend(alloc, tokens) {
            Ok(next) => next,
            Err(unread) => return Err(unread),
        };
        found.push(next)?;
    }
    Ok(found)
}

/// depend { [ "," ] depend }
#[tactic(auto, unfolding(crate::specs::PragmaReading::read_depends))]
fn depends(alloc: Global, tokens: &mut Cursor<'_>) -> Result<List<Clause>, Unread>
    ensures { ReadsAs (read_depends read_expression tokens.old) result tokens.new }
{
    let first = depend(alloc, tokens)?;
    let mut found = List::new(alloc);
    found.push(first)?;
    more_depends(alloc, found, tokens)
}

/// "release" depend { [ "," ] depend } end
#[tactic(auto, unfolding(crate::specs::PragmaReading::read_release))]
fn release(alloc: Global, tokens: &mut Cursor<'_>) -> Result<Directive, Unread>
    ensures { ReadsAs (read_release read_expression tokens.old) result tokens.new }
{
    tokens.word(b"release")?;
    let depends = depends(alloc, tokens)?;
    tokens.pragma_end()?;
    Ok(Directive::Release(depends))
}

/// start ( task | taskloop | taskwait | release )
#[tactic(auto, unfolding(crate::specs::PragmaReading::read_pragma))]
pub fn pragma(alloc: Global, tokens: &mut Cursor<'_>) -> Result<Directive, Unread>
    ensures { ReadsAs (read_pragma read_expression tokens.old) result tokens.new }
{
    let line = tokens.pragma_start()?;
    if tokens.begins_with_word(b"task") {
        return task(alloc, line, tokens);
    }
    if tokens.begins_with_word(b"taskloop") {
        return task_loop(alloc, line, tokens);
    }
    if tokens.begins_with_word(b"taskwait") {
        return task_wait(alloc, tokens);
    }
    release(alloc, tokens)
}

/// start "task" { [ "," ] clause } end
pub fn task_pragma(alloc: Global, tokens: &mut Cursor<'_>) -> Result<Directive, Unread>
    ensures { ReadsAs (read_then (read_one start_at) (read_task read_expression) tokens.old) result tokens.new }
{
    let line = tokens.pragma_start()?;
    task(alloc, line, tokens)
}
