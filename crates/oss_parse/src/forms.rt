//! The reader of statements that hold no other statement, and of the parts of the others that hold none.

ghost use Rattle.std.specs.Prelude.{codes};
ghost use Rattle.oss_grammar.specs.Reading.{read_both, read_mapped, read_one};
ghost use Rattle.oss_expressions.specs.ExpressionReading.{former, read_brackets, read_expression};
ghost use Rattle.oss_expressions.specs.TokenValues.{symbol_at};
ghost use Rattle.oss_expressions.specs.Told.{ReadsAs};
ghost use Rattle.oss_parse.specs.ForRests.{read_for_last, read_for_rest};
ghost use Rattle.oss_parse.specs.SimpleReading.{read_declaration};
ghost use Rattle.oss_parse.specs.StatementReading.{read_break, read_continue, read_empty, read_for_first, read_for_head, read_for_parts, read_head, read_loop_bounds, read_loop_head, read_loop_last, read_loop_test, read_loop_tested, read_loop_variable, read_maybe_expression, read_maybe_simple, read_name_use, read_print, read_printed, read_return, read_simple_statement};

use crate::beginnings::{begins_with_kind, begins_with_simple};
use crate::simple::{declaration, more_values, simple};
use crate::tokens::{keyword, text};
use oss_expressions::reading::{Cursor, Named, Unread, brackets, expression};
use oss_syntax::{
    Boxed, Expr, Kind, List, Local, LoopHead, NameUse, NumKind, Stmt, StmtKind, TaskMark,
};
use std::alloc::Global;

/// The parts between the brackets of a `for`, each of which may be left out. Its statements are boxed as soon
/// as they are read, as the tree holds them.
#[derive(Drop)]
pub(crate) struct ForParts {
    /// What is done before the loop.
    pub(crate) first: Option<Boxed<Stmt>>,
    /// What is tested before each round.
    pub(crate) test: Boxed<Option<Expr>>,
    /// What is done behind each round.
    pub(crate) last: Option<Boxed<Stmt>>,
}

/// [ expr ]
#[tactic(auto, unfolding(crate::specs::StatementReading::read_maybe_expression))]
fn maybe_expression(alloc: Global, tokens: &mut Cursor<'_>) -> Result<Option<Boxed<Expr>>, Unread>
    ensures { ReadsAs (read_maybe_expression read_expression tokens.old) result tokens.new }
{
    if !tokens.begins_with_expression() {
        return Ok(None);
    }
    let value = expression(alloc, tokens)?;
    Ok(Some(Boxed::new(alloc, value)?))
}

/// [ expr ], in a box that is there also where the expression is left out
#[tactic(auto, unfolding(crate::specs::StatementReading::read_maybe_expression))]
fn boxed_test(alloc: Global, tokens: &mut Cursor<'_>) -> Result<Boxed<Option<Expr>>, Unread>
    ensures { ReadsAs (read_maybe_expression read_expression tokens.old) result tokens.new }
{
    if !tokens.begins_with_expression() {
        return Ok(Boxed::new(alloc, None)?);
    }
    let value = expression(alloc, tokens)?;
    Ok(Boxed::new(alloc, Some(value))?)
}

/// [ simple ]
#[tactic(auto, unfolding(crate::specs::StatementReading::read_maybe_simple))]
fn maybe_simple(alloc: Global, tokens: &mut Cursor<'_>) -> Result<Option<Boxed<Stmt>>, Unread>
    ensures { ReadsAs (read_maybe_simple read_expression tokens.old) result tokens.new }
{
    if !begins_with_simple(tokens) {
        return Ok(None);
    }
    let statement = simple(alloc, tokens)?;
    Ok(Some(Boxed::new(alloc, statement)?))
}

/// [ type ldecl { "," ldecl } | simple ]
#[tactic(auto, unfolding(crate::specs::StatementReading::read_for_first))]
fn for_first(alloc: Global, tokens: &mut Cursor<'_>) -> Result<Option<Boxed<Stmt>>, Unread>
    ensures { ReadsAs (read_for_first read_expression tokens.old) result tokens.new }
{
    if !begins_with_kind(tokens) {
        return maybe_simple(alloc, tokens);
    }
    let statement = declaration(alloc, tokens)?;
    Ok(Some(Boxed::new(alloc, statement)?))
}

/// ";" [ simple ] ")"
fn for_last(alloc: Global, tokens: &mut Cursor<'_>) -> Result<Option<Boxed<Stmt>>, Unread>
    ensures { ReadsAs (read_for_last read_expression tokens.old) result tokens.new }
{
    tokens.symbol(b";")?;
    let last = maybe_simple(alloc, tokens)?;
    match tokens.symbol(b")") {
        Ok(_) => Ok(last),
        Err(unread) => {
            drop(last);
            Err(unread)
        }
    }
}

/// ";" [ expr ] ";" [ simple ] ")"
fn for_rest(
    alloc: Global,
    tokens: &mut Cursor<'_>,
) -> Result<(Boxed<Option<Expr>>, Option<Boxed<Stmt>>), Unread>
    ensures { ReadsAs (read_for_rest read_expression tokens.old) result tokens.new }
{
    tokens.symbol(b";")?;
    let test = boxed_test(alloc, tokens)?;
    match for_last(alloc, tokens) {
        Ok(last) => Ok((test, last)),
        Err(unread) => {
            drop(test);
            Err(unread)
        }
    }
}

/// [ type ldecl { "," ldecl } | simple ] ";" [ expr ] ";" [ simple ] ")"
#[tactic(auto, unfolding(crate::specs::StatementReading::read_for_parts))]
fn for_parts(alloc: Global, tokens: &mut Cursor<'_>) -> Result<ForParts, Unread>
    ensures { ReadsAs (read_for_parts read_expression tokens.old) result tokens.new }
{
    let first = for_first(alloc, tokens)?;
    match for_rest(alloc, tokens) {
        Ok((test, last)) => Ok(ForParts { first, test, last }),
        Err(unread) => {
            drop(first);
            Err(unread)
        }
    }
}

/// "for" "(" parts ")"
#[tactic(auto, unfolding(crate::specs::StatementReading::read_for_head))]
pub(crate) fn for_head(alloc: Global, tokens: &mut Cursor<'_>) -> Result<(u32, ForParts), Unread>
    ensures { ReadsAs (read_for_head read_expression tokens.old) result tokens.new }
{
    let line = keyword(b"for", tokens)?;
    tokens.symbol(b"(")?;
    let parts = for_parts(alloc, tokens)?;
    Ok((line, parts))
}

/// A keyword with its line, and the test in brackets behind it, in its box.
#[tactic(auto, unfolding(crate::specs::StatementReading::read_head, oss_expressions::specs::ExpressionReading::read_brackets))]
pub(crate) fn head(
    alloc: Global,
    word: &[u8],
    tokens: &mut Cursor<'_>,
) -> Result<(u32, Boxed<Expr>), Unread>
    ensures { ReadsAs (read_head word.now read_expression tokens.old) result tokens.new }
{
    let line = keyword(word, tokens)?;
    let test = brackets(alloc, tokens)?;
    Ok((line, Boxed::new(alloc, test)?))
}

/// A name, and this symbol behind it.
#[tactic(auto, unfolding(crate::specs::StatementReading::read_name_use))]
fn name_use(alloc: Global, symbol: &[u8], tokens: &mut Cursor<'_>) -> Result<NameUse, Unread>
    ensures { ReadsAs (read_name_use symbol.now tokens.old) result tokens.new }
{
    let used = tokens.name(alloc)?;
    tokens.symbol(symbol)?;
    Ok(NameUse {
        name: used.name,
        line: used.line,
    })
}

/// ";" name "++" ")"
#[tactic(auto, unfolding(crate::specs::StatementReading::read_loop_last, crate::specs::StatementReading::read_loop_step))]
fn loop_last(alloc: Global, tokens: &mut Cursor<'_>) -> Result<NameUse, Unread>
    ensures { ReadsAs (read_loop_last tokens.old) result tokens.new }
{
    tokens.symbol(b";")?;
    let stepped = name_use(alloc, b"++", tokens)?;
    tokens.symbol(b")")?;
    Ok(stepped)
}

/// expr ";" name "++" ")"
fn loop_limit(alloc: Global, tokens: &mut Cursor<'_>) -> Result<(Expr, NameUse), Unread>
    ensures { ReadsAs (read_both read_expression read_loop_last tokens.old) result tokens.new }
{
    let end = expression(alloc, tokens)?;
    match loop_last(alloc, tokens) {
        Ok(stepped) => Ok((end, stepped)),
        Err(unread) => {
            drop(end);
            Err(unread)
        }
    }
}

/// name "<" expr ";" name "++" ")"
#[tactic(auto, unfolding(crate::specs::StatementReading::read_loop_test))]
fn loop_test(alloc: Global, tokens: &mut Cursor<'_>) -> Result<(NameUse, (Expr, NameUse)), Unread>
    ensures { ReadsAs (read_loop_test read_expression tokens.old) result tokens.new }
{
    let tested = name_use(alloc, b"<", tokens)?;
    let limit = loop_limit(alloc, tokens)?;
    Ok((tested, limit))
}

/// ";" name "<" expr ";" name "++" ")"
#[tactic(auto, unfolding(crate::specs::StatementReading::read_loop_tested))]
fn loop_tested(alloc: Global, tokens: &mut Cursor<'_>) -> Result<(NameUse, (Expr, NameUse)), Unread>
    ensures { ReadsAs (read_loop_tested read_expression tokens.old) result tokens.new }
{
    tokens.symbol(b";")?;
    loop_test(alloc, tokens)
}

/// "=" expr ";" name "<" expr ";" name "++" ")"
#[tactic(auto, unfolding(crate::specs::StatementReading::read_loop_bounds))]
fn loop_bounds(
    alloc: Global,
    tokens: &mut Cursor<'_>,
) -> Result<(Expr, (NameUse, (Expr, NameUse))), Unread>
    ensures { ReadsAs (read_loop_bounds read_expression tokens.old) result tokens.new }
{
    tokens.symbol(b"=")?;
    let first = expression(alloc, tokens)?;
    match loop_tested(alloc, tokens) {
        Ok(tested) => Ok((first, tested)),
        Err(unread) => {
            drop(first);
            Err(unread)
        }
    }
}

/// "for" "(" "long" name, with the line of the first token
#[tactic(auto, unfolding(crate::specs::StatementReading::read_loop_variable))]
fn loop_variable(alloc: Global, tokens: &mut Cursor<'_>) -> Result<(u32, Named), Unread>
    ensures { ReadsAs (read_loop_variable tokens.old) result tokens.new }
{
    let line = keyword(b"for", tokens)?;
    tokens.symbol(b"(")?;
    keyword(b"long", tokens)?;
    let name = tokens.name(alloc)?;
    Ok((line, name))
}

/// "for" "(" "long" name "=" expr ";" name "<" expr ";" name "++" ")"
fn loop_parts(
    alloc: Global,
    tokens: &mut Cursor<'_>,
) -> Result<((u32, Named), (Expr, (NameUse, (Expr, NameUse)))), Unread>
    ensures { ReadsAs (read_both read_loop_variable (read_loop_bounds read_expression) tokens.old) result tokens.new }
{
    let variable = loop_variable(alloc, tokens)?;
    let bounds = loop_bounds(alloc, tokens)?;
    Ok((variable, bounds))
}

/// The same, behind the pragma of a task loop.
#[tactic(auto, unfolding(crate::specs::StatementReading::read_loop_head))]
fn loop_head(alloc: Global, mark: TaskMark, tokens: &mut Cursor<'_>) -> Result<LoopHead, Unread>
    ensures { ReadsAs (read_loop_head read_expression mark tokens.old) result tokens.new }
{
    let ((for_line, variable), (first, (tested, (end, stepped)))) = loop_parts(alloc, tokens)?;
    Ok(LoopHead {
        mark,
        variable: Local {
            name: variable.name,
            kind: Kind::Num(NumKind::Long),
            first: Some(first),
            line: variable.line,
        },
        tested,
        end,
        stepped,
        for_line,
    })
}

/// The same, in its box.
pub(crate) fn boxed_loop_head(
    alloc: Global,
    mark: TaskMark,
    tokens: &mut Cursor<'_>,
) -> Result<Boxed<LoopHead>, Unread>
    ensures { ReadsAs (read_loop_head read_expression mark tokens.old) result tokens.new }
{
    let head = loop_head(alloc, mark, tokens)?;
    Ok(Boxed::new(alloc, head)?)
}

/// ";"
#[tactic(auto, unfolding(crate::specs::StatementReading::read_empty))]
pub(crate) fn empty(tokens: &mut Cursor<'_>) -> Result<Stmt, Unread>
    ensures { ReadsAs (read_empty tokens.old) result tokens.new }
{
    let line = tokens.symbol(b";")?;
    Ok(Stmt {
        what: StmtKind::Empty,
        line,
    })
}

/// decl ";"
pub(crate) fn declaration_statement(alloc: Global, tokens: &mut Cursor<'_>) -> Result<Stmt, Unread>
    ensures { ReadsAs (read_mapped former (read_both (read_declaration read_expression)
        (read_one (symbol_at (codes ";")))) tokens.old) result tokens.new }
{
    let statement = declaration(alloc, tokens)?;
    match tokens.symbol(b";") {
        Ok(_) => Ok(statement),
        Err(unread) => {
            drop(statement);
            Err(unread)
        }
    }
}

/// simple ";"
#[tactic(auto, unfolding(crate::specs::StatementReading::read_simple_statement))]
pub(crate) fn simple_statement(alloc: Global, tokens: &mut Cursor<'_>) -> Result<Stmt, Unread>
    ensures { ReadsAs (read_simple_statement read_expression tokens.old) result tokens.new }
{
    let statement = simple(alloc, tokens)?;
    match tokens.symbol(b";") {
        Ok(_) => Ok(statement),
        Err(unread) => {
            drop(statement);
            Err(unread)
        }
    }
}

/// "return" [ expr ] ";"
#[tactic(auto, unfolding(crate::specs::StatementReading::read_return))]
pub(crate) fn return_statement(alloc: Global, tokens: &mut Cursor<'_>) -> Result<Stmt, Unread>
    ensures { ReadsAs (read_return read_expression tokens.old) result tokens.new }
{
    let line = keyword(b"return", tokens)?;
    let value = maybe_expression(alloc, tokens)?;
    match tokens.symbol(b";") {
        Ok(_) => Ok(Stmt {
            what: StmtKind::Return(value),
            line,
        }),
        Err(unread) => {
            drop(value);
            Err(unread)
        }
    }
}

/// "break" ";"
#[tactic(auto, unfolding(crate::specs::StatementReading::read_break))]
pub(crate) fn break_statement(tokens: &mut Cursor<'_>) -> Result<Stmt, Unread>
    ensures { ReadsAs (read_break tokens.old) result tokens.new }
{
    let line = keyword(b"break", tokens)?;
    tokens.symbol(b";")?;
    Ok(Stmt {
        what: StmtKind::Break,
        line,
    })
}

/// "continue" ";"
#[tactic(auto, unfolding(crate::specs::StatementReading::read_continue))]
pub(crate) fn continue_statement(tokens: &mut Cursor<'_>) -> Result<Stmt, Unread>
    ensures { ReadsAs (read_continue tokens.old) result tokens.new }
{
    let line = keyword(b"continue", tokens)?;
    tokens.symbol(b";")?;
    Ok(Stmt {
        what: StmtKind::Continue,
        line,
    })
}

/// { "," expr } ")" ";"
#[tactic(auto, unfolding(crate::specs::StatementReading::read_printed))]
fn printed(alloc: Global, tokens: &mut Cursor<'_>) -> Result<List<Expr>, Unread>
    ensures { ReadsAs (read_printed read_expression tokens.old) result tokens.new }
{
    let none = List::new(alloc);
    let values = more_values(alloc, none, tokens)?;
    tokens.symbol(b")")?;
    tokens.symbol(b";")?;
    Ok(values)
}

/// "printf" "(" string { "," expr } ")" ";"
#[tactic(auto, unfolding(crate::specs::StatementReading::read_print))]
pub(crate) fn print(alloc: Global, tokens: &mut Cursor<'_>) -> Result<Stmt, Unread>
    ensures { ReadsAs (read_print read_expression tokens.old) result tokens.new }
{
    let line = keyword(b"printf", tokens)?;
    tokens.symbol(b"(")?;
    let format = text(alloc, tokens)?;
    let values = printed(alloc, tokens)?;
    Ok(Stmt {
        what: StmtKind::Print(format, values),
        line,
    })
}
