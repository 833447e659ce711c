//! The reader of statements, and of what stands in a block.

ghost use Rattle.oss_grammar.specs.Reading.{read_mapped};
ghost use Rattle.oss_expressions.specs.ExpressionReading.{read_expression};
ghost use Rattle.oss_expressions.specs.Told.{ReadsAs};
ghost use Rattle.oss_pragma.specs.PragmaReading.{read_pragma};
ghost use Rattle.oss_parse.specs.Branches.{read_else, read_maybe_else};
ghost use Rattle.oss_parse.specs.Inner.{read_body, read_part, read_parts, read_within};
ghost use Rattle.oss_parse.specs.StatementReading.{read_block, read_branches, read_directed, read_for, read_if, read_item, read_keyword_statement, read_pragma_statement, read_statement, read_task_loop_statement, read_while, task_of};

use crate::beginnings::{
    begins_with_item, begins_with_kind, begins_with_simple, begins_with_statement,
};
use crate::forms::{
    ForParts, boxed_loop_head, break_statement, continue_statement, declaration_statement, empty,
    for_head, head, print, return_statement, simple_statement,
};
use crate::tokens::{begins_with_keyword, first_line, keyword};
use oss_expressions::reading::{Cursor, Unread};
use oss_pragma::reading::pragma;
use oss_syntax::{Boxed, Directive, Expr, List, Stmt, StmtKind, TaskMark};
use std::alloc::Global;

/// How many levels of statements a function may have.
const MOST_LEVELS: u32 = 64;

/// "{" items "}"
#[cycle(statement)]
#[tactic(auto, unfolding(crate::specs::StatementReading::read_block))]
fn block(alloc: Global, levels: u32, tokens: &mut Cursor<'_>) -> Result<Stmt, Unread>
    ensures { ReadsAs (read_block (read_parts levels) tokens.old) result tokens.new }
{
    let line = tokens.symbol(b"{")?;
    let statements = parts(alloc, levels, tokens)?;
    tokens.symbol(b"}")?;
    Ok(Stmt {
        what: StmtKind::Block(statements),
        line,
    })
}

/// "else" stmt
#[cycle(statement)]
fn else_branch(alloc: Global, levels: u32, tokens: &mut Cursor<'_>) -> Result<Boxed<Stmt>, Unread>
    ensures { ReadsAs (read_else (read_within levels) tokens.old) result tokens.new }
{
    keyword(b"else", tokens)?;
    within(alloc, levels, tokens)
}

/// [ "else" stmt ], behind the head of an `if` and its first statement
#[cycle(statement)]
fn maybe_else(
    alloc: Global,
    levels: u32,
    head: (u32, Boxed<Expr>),
    then: Boxed<Stmt>,
    tokens: &mut Cursor<'_>,
) -> Result<Stmt, Unread>
    ensures { ReadsAs (read_maybe_else (read_within levels) head then tokens.old) result tokens.new }
{
    let (line, test) = head;
    if !begins_with_keyword(b"else", tokens) {
        return Ok(Stmt {
            what: StmtKind::If(test, then, None),
            line,
        });
    }
    match else_branch(alloc, levels, tokens) {
        Ok(other) => Ok(Stmt {
            what: StmtKind::If(test, then, Some(other)),
            line,
        }),
        Err(unread) => {
            drop(test);
            drop(then);
            Err(unread)
        }
    }
}

/// stmt [ "else" stmt ], behind the head of an `if`
#[cycle(statement)]
#[tactic(auto, unfolding(crate::specs::StatementReading::read_branches))]
fn branches(
    alloc: Global,
    levels: u32,
    head: (u32, Boxed<Expr>),
    tokens: &mut Cursor<'_>,
) -> Result<Stmt, Unread>
    ensures { ReadsAs (read_branches (read_within levels) head tokens.old) result tokens.new }
{
    match within(alloc, levels, tokens) {
        Ok(then) => maybe_else(alloc, levels, head, then, tokens),
        Err(unread) => {
            drop(head);
            Err(unread)
        }
    }
}

/// "if" "(" expr ")" stmt [ "else" stmt ]
#[cycle(statement)]
#[tactic(auto, unfolding(crate::specs::StatementReading::read_if))]
fn if_statement(alloc: Global, levels: u32, tokens: &mut Cursor<'_>) -> Result<Stmt, Unread>
    ensures { ReadsAs (read_if read_expression (read_within levels) tokens.old) result tokens.new }
{
    let head = head(alloc, b"if", tokens)?;
    branches(alloc, levels, head, tokens)
}

/// "while" "(" expr ")" stmt
#[cycle(statement)]
#[tactic(auto, unfolding(crate::specs::StatementReading::read_while))]
fn while_statement(alloc: Global, levels: u32, tokens: &mut Cursor<'_>) -> Result<Stmt, Unread>
    ensures { ReadsAs (read_while read_expression (read_within levels) tokens.old) result tokens.new }
{
    let (line, test) = head(alloc, b"while", tokens)?;
    match within(alloc, levels, tokens) {
        Ok(body) => Ok(Stmt {
            what: StmtKind::While(test, body),
            line,
        }),
        Err(unread) => {
            drop(test);
            Err(unread)
        }
    }
}

/// "for" "(" parts ")" stmt
#[cycle(statement)]
#[tactic(auto, unfolding(crate::specs::StatementReading::read_for))]
fn for_statement(alloc: Global, levels: u32, tokens: &mut Cursor<'_>) -> Result<Stmt, Unread>
    ensures { ReadsAs (read_for read_expression (read_within levels) tokens.old) result tokens.new }
{
    let (line, parts) = for_head(alloc, tokens)?;
    match within(alloc, levels, tokens) {
        Ok(body) => {
            let ForParts { first, test, last } = parts;
            Ok(Stmt {
                what: StmtKind::For(first, test, last, body),
                line,
            })
        }
        Err(unread) => {
            drop(parts);
            Err(unread)
        }
    }
}

/// The statement behind the pragma of a task
#[cycle(statement)]
fn task_statement(
    alloc: Global,
    levels: u32,
    mark: TaskMark,
    tokens: &mut Cursor<'_>,
) -> Result<Stmt, Unread>
    ensures { ReadsAs (read_mapped (task_of mark) (read_within levels) tokens.old) result tokens.new }
{
    let body = within(alloc, levels, tokens)?;
    let line = mark.line;
    Ok(Stmt {
        what: StmtKind::Task(mark, body),
        line,
    })
}

/// head stmt, behind the pragma of a task loop
#[cycle(statement)]
#[tactic(auto, unfolding(crate::specs::StatementReading::read_task_loop_statement))]
fn task_loop_statement(
    alloc: Global,
    levels: u32,
    mark: TaskMark,
    tokens: &mut Cursor<'_>,
) -> Result<Stmt, Unread>
    ensures { ReadsAs (read_task_loop_statement read_expression (read_within levels) mark tokens.old) result
        tokens.new }
{
    let line = mark.line;
    let head = boxed_loop_head(alloc, mark, tokens)?;
    match within(alloc, levels, tokens) {
        Ok(body) => Ok(Stmt {
            what: StmtKind::TaskLoop(head, body),
            line,
        }),
        Err(unread) => {
            drop(head);
            Err(unread)
        }
    }
}

/// What follows a pragma with this line: a statement behind the pragma of a task, and a loop behind that of a
/// task loop.
#[cycle(statement)]
#[tactic(auto, unfolding(crate::specs::StatementReading::read_directed))]
fn directed(
    alloc: Global,
    levels: u32,
    directive: Directive,
    line: u32,
    tokens: &mut Cursor<'_>,
) -> Result<Stmt, Unread>
    ensures { ReadsAs (read_directed read_expression (read_within levels) (directive, line) tokens.old) result
        tokens.new }
{
    match directive {
        Directive::Task(mark) => task_statement(alloc, levels, mark, tokens),
        Directive::TaskLoop(mark) => task_loop_statement(alloc, levels, mark, tokens),
        Directive::TaskWait(sections) => Ok(Stmt {
            what: StmtKind::TaskWait(sections),
            line,
        }),
        Directive::Release(clauses) => Ok(Stmt {
            what: StmtKind::Release(clauses),
            line,
        }),
    }
}

/// task stmt | taskloop head stmt | taskwait | release
#[cycle(statement)]
#[tactic(auto, unfolding(crate::specs::StatementReading::read_pragma_statement))]
fn pragma_statement(alloc: Global, levels: u32, tokens: &mut Cursor<'_>) -> Result<Stmt, Unread>
    ensures { ReadsAs (read_pragma_statement read_expression (read_pragma read_expression)
        (read_within levels) tokens.old) result tokens.new }
{
    let line = first_line(tokens);
    let directive = pragma(alloc, tokens)?;
    directed(alloc, levels, directive, line, tokens)
}

/// A statement that begins with a keyword or with a pragma.
#[cycle(statement)]
#[tactic(auto, unfolding(crate::specs::StatementReading::read_keyword_statement))]
fn keyword_statement(alloc: Global, levels: u32, tokens: &mut Cursor<'_>) -> Result<Stmt, Unread>
    ensures { ReadsAs (read_keyword_statement read_expression (read_pragma read_expression)
        (read_within levels) tokens.old) result tokens.new }
{
    if begins_with_keyword(b"if", tokens) {
        return if_statement(alloc, levels, tokens);
    }
    if begins_with_keyword(b"while", tokens) {
        return while_statement(alloc, levels, tokens);
    }
    if begins_with_keyword(b"for", tokens) {
        return for_statement(alloc, levels, tokens);
    }
    if begins_with_keyword(b"return", tokens) {
        return return_statement(alloc, tokens);
    }
    if begins_with_keyword(b"break", tokens) {
        return break_statement(tokens);
    }
    if begins_with_keyword(b"continue", tokens) {
        return continue_statement(tokens);
    }
    if begins_with_keyword(b"printf", tokens) {
        return print(alloc, tokens);
    }
    pragma_statement(alloc, levels, tokens)
}

/// A statement, in which so many levels of statements may still begin.
#[cycle(statement)]
#[tactic(auto, unfolding(crate::specs::StatementReading::read_statement))]
fn statement(alloc: Global, levels: u32, tokens: &mut Cursor<'_>) -> Result<Stmt, Unread>
    ensures { ReadsAs (read_statement read_expression (read_pragma read_expression) (read_parts levels)
        (read_within levels) tokens.old) result tokens.new }
{
    if tokens.begins_with_symbol(b"{") {
        return block(alloc, levels, tokens);
    }
    if tokens.begins_with_symbol(b";") {
        return empty(tokens);
    }
    if begins_with_simple(tokens) {
        return simple_statement(alloc, tokens);
    }
    keyword_statement(alloc, levels, tokens)
}

/// decl ";" | stmt
#[cycle(statement)]
#[tactic(auto, unfolding(crate::specs::StatementReading::read_item))]
fn item(alloc: Global, levels: u32, tokens: &mut Cursor<'_>) -> Result<Stmt, Unread>
    ensures { ReadsAs (read_item read_expression (read_pragma read_expression) (read_parts levels)
        (read_within levels) tokens.old) result tokens.new }
{
    if begins_with_kind(tokens) {
        return declaration_statement(alloc, tokens);
    }
    statement(alloc, levels, tokens)
}

/// A statement inside another, with so many levels, in a box.
#[cycle(statement)]
fn within(alloc: Global, levels: u32, tokens: &mut Cursor<'_>) -> Result<Boxed<Stmt>, Unread>
    ensures { ReadsAs (read_within levels tokens.old) result tokens.new }
{
    if levels == 0 {
        return if begins_with_statement(tokens) {
            Err(Unread::Deep)
        } else {
            Err(Unread::Syntax)
        };
    }
    let inner = statement(alloc, levels - 1, tokens)?;
    Ok(Boxed::new(alloc, inner)?)
}

/// decl ";" | stmt, with so many levels
#[cycle(statement)]
fn part(alloc: Global, levels: u32, tokens: &mut Cursor<'_>) -> Result<Stmt, Unread>
    ensures { ReadsAs (read_part levels tokens.old) result tokens.new }
{
    if levels == 0 {
        return if begins_with_item(tokens) {
            Err(Unread::Deep)
        } else {
            Err(Unread::Syntax)
        };
    }
    item(alloc, levels - 1, tokens)
}

/// { decl ";" | stmt }, with so many levels
#[cycle(statement)]
fn parts(alloc: Global, levels: u32, tokens: &mut Cursor<'_>) -> Result<List<Stmt>, Unread>
    ensures { ReadsAs (read_parts levels tokens.old) result tokens.new }
{
    let mut found = List::new(alloc);
    'parts: while begins_with_item(tokens) {
        let next = match part(alloc, levels, tokens) {
            Ok(next) => next,
            Err(unread) => return Err(unread),
        };
        found.push(next)?;
    }
    Ok(found)
}

/// { decl ";" | stmt }, with at most 64 levels
pub(crate) fn body(alloc: Global, tokens: &mut Cursor<'_>) -> Result<List<Stmt>, Unread>
    ensures { ReadsAs (read_body tokens.old) result tokens.new }
{
    parts(alloc, MOST_LEVELS, tokens)
}
