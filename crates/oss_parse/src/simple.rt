//! The reader of simple statements and declarations.

ghost use Rattle.std.specs.Prelude.{◌≡◌, IfOk};
ghost use Rattle.oss_syntax.specs.declared.tree.stmt.StmtKind.TheVariants as stmts;
ghost use Rattle.oss_grammar.specs.Reading.{read_both, read_mapped, read_one};
ghost use Rattle.oss_grammar.specs.SimpleStatements.{one_at};
ghost use Rattle.oss_expressions.specs.ExpressionReading.{indexed, named_expression, read_arguments, read_brackets, read_expression, read_index, read_list, read_more, read_next};
ghost use Rattle.oss_expressions.specs.Told.{ReadsAs};
ghost use Rattle.oss_parse.specs.SimpleReading.{assignment_at, deref_at, read_assigned, read_called, read_declaration, read_declared, read_element, read_local, read_num_kind, read_pointed_at, read_simple, read_simple_from, read_starred, read_step_first, read_target, read_target_again, read_target_from, step_at, stepped_by};

use crate::tokens::{
    assignment, begins_with_name, begins_with_single_kind, begins_with_step, keyword, single_kind,
    step,
};
use oss_expressions::reading::{Cursor, Named, Unread, brackets, element, expression};
use oss_syntax::{BinOp, Boxed, Expr, ExprKind, Kind, List, Local, NumKind, Stmt, StmtKind, UnOp};
use std::alloc::{AllocError, Global};

/// "[" expr "]"
#[tactic(auto, unfolding(oss_expressions::specs::ExpressionReading::read_index))]
fn index(alloc: Global, tokens: &mut Cursor<'_>) -> Result<Expr, Unread>
    ensures { ReadsAs (read_index read_expression tokens.old) result tokens.new }
{
    tokens.symbol(b"[")?;
    let inner = expression(alloc, tokens)?;
    match tokens.symbol(b"]") {
        Ok(_) => Ok(inner),
        Err(unread) => {
            drop(inner);
            Err(unread)
        }
    }
}

/// "," expr
fn next_value(alloc: Global, tokens: &mut Cursor<'_>) -> Result<Expr, Unread>
    ensures { ReadsAs (read_next read_expression tokens.old) result tokens.new }
{
    tokens.symbol(b",")?;
    expression(alloc, tokens)
}

/// { "," expr }, behind the expressions that were found
pub(crate) fn more_values(
    alloc: Global,
    mut found: List<Expr>,
    tokens: &mut Cursor<'_>,
) -> Result<List<Expr>, Unread>
    ensures { ReadsAs (read_more read_expression found tokens.old) result tokens.new }
{
    'values: while tokens.begins_with_symbol(b",") {
        let next = match next_value(alloc, tokens) {
            Ok(next) => next,
            Err(unread) => return Err(unread),
        };
        found.push(next)?;
    }
    Ok(found)
}

/// expr { "," expr }
fn values(alloc: Global, tokens: &mut Cursor<'_>) -> Result<List<Expr>, Unread>
    ensures { ReadsAs (read_list read_expression tokens.old) result tokens.new }
{
    let first = expression(alloc, tokens)?;
    let mut found = List::new(alloc);
    found.push(first)?;
    more_values(alloc, found, tokens)
}

/// [ expr { "," expr } ] ")"
#[tactic(auto, unfolding(oss_expressions::specs::ExpressionReading::read_arguments))]
fn arguments(alloc: Global, tokens: &mut Cursor<'_>) -> Result<List<Expr>, Unread>
    ensures { ReadsAs (read_arguments read_expression tokens.old) result tokens.new }
{
    if tokens.begins_with_symbol(b")") {
        tokens.symbol(b")")?;
        return Ok(List::new(alloc));
    }
    let values = values(alloc, tokens)?;
    tokens.symbol(b")")?;
    Ok(values)
}

/// A name, as an expression.
fn named(name: Named) -> Expr
    ensures { result ≡ named_expression name }
{
    Expr {
        what: ExprKind::Name(name.name),
        line: name.line,
    }
}

/// What a pointer points to, with the line of its `*`.
fn pointee(alloc: Global, line: u32, pointer: Expr) -> Result<Expr, AllocError>
    ensures { IfOk result (λ pointee. pointee ≡ deref_at line pointer) }
{
    Ok(Expr {
        what: ExprKind::Unary(UnOp::Deref, Boxed::new(alloc, pointer)?),
        line,
    })
}

/// "[" expr "]", behind what it is an index of
#[tactic(auto, unfolding(oss_expressions::specs::ExpressionReading::read_index))]
fn element_of(alloc: Global, base: Expr, tokens: &mut Cursor<'_>) -> Result<Expr, Unread>
    ensures { ReadsAs (read_element read_expression base tokens.old) result tokens.new }
{
    match index(alloc, tokens) {
        Ok(at) => Ok(element(alloc, base, at)?),
        Err(unread) => {
            drop(base);
            Err(unread)
        }
    }
}

/// [ "[" expr "]" ], behind an element of an array
#[tactic(auto, unfolding(crate::specs::SimpleReading::read_target_again))]
fn target_again(alloc: Global, base: Expr, tokens: &mut Cursor<'_>) -> Result<Expr, Unread>
    ensures { ReadsAs (read_target_again read_expression base tokens.old) result tokens.new }
{
    if !tokens.begins_with_symbol(b"[") {
        return Ok(base);
    }
    element_of(alloc, base, tokens)
}

/// [ "[" expr "]" [ "[" expr "]" ] ], behind the name of a target
#[tactic(auto, unfolding(crate::specs::SimpleReading::read_target_from))]
fn target_from(alloc: Global, name: Named, tokens: &mut Cursor<'_>) -> Result<Expr, Unread>
    ensures { ReadsAs (read_target_from read_expression name tokens.old) result tokens.new }
{
    if !tokens.begins_with_symbol(b"[") {
        return Ok(named(name));
    }
    let base = element_of(alloc, named(name), tokens)?;
    target_again(alloc, base, tokens)
}

/// name | "(" expr ")", behind the `*` of a target with this line
#[tactic(auto, unfolding(crate::specs::SimpleReading::read_pointed_at, oss_expressions::specs::ExpressionReading::read_brackets))]
fn pointed_at(alloc: Global, line: u32, tokens: &mut Cursor<'_>) -> Result<Expr, Unread>
    ensures { ReadsAs (read_pointed_at read_expression line tokens.old) result tokens.new }
{
    if begins_with_name(tokens) {
        let name = tokens.name(alloc)?;
        return Ok(pointee(alloc, line, named(name))?);
    }
    let inner = brackets(alloc, tokens)?;
    Ok(pointee(alloc, line, inner)?)
}

/// "*" ( name | "(" expr ")" )
#[tactic(auto, unfolding(crate::specs::SimpleReading::read_starred))]
fn starred(alloc: Global, tokens: &mut Cursor<'_>) -> Result<Expr, Unread>
    ensures { ReadsAs (read_starred read_expression tokens.old) result tokens.new }
{
    let line = tokens.symbol(b"*")?;
    pointed_at(alloc, line, tokens)
}

/// name [ "[" expr "]" [ "[" expr "]" ] ] | "*" ( name | "(" expr ")" )
#[tactic(auto, unfolding(crate::specs::SimpleReading::read_target))]
fn target(alloc: Global, tokens: &mut Cursor<'_>) -> Result<Expr, Unread>
    ensures { ReadsAs (read_target read_expression tokens.old) result tokens.new }
{
    if tokens.begins_with_symbol(b"*") {
        return starred(alloc, tokens);
    }
    let name = tokens.name(alloc)?;
    target_from(alloc, name, tokens)
}

/// The number one of a step, with the line of its mark.
fn one(line: u32) -> Expr
    ensures { result ≡ one_at line }
{
    Expr {
        what: ExprKind::Number(1, false),
        line,
    }
}

/// An assignment with this line.
fn assignment_of(
    alloc: Global,
    line: u32,
    target: Expr,
    operator: Option<BinOp>,
    value: Expr,
) -> Result<Stmt, AllocError>
    ensures { IfOk result (λ one. one ≡ (record { what = stmts.Assign target operator value; line = line })) }
{
    match Boxed::new(alloc, target) {
        Ok(target) => assigned_to(alloc, line, target, operator, value),
        Err(full) => {
            drop(value);
            Err(full)
        }
    }
}

/// The same with the target in its box.
fn assigned_to(
    alloc: Global,
    line: u32,
    target: Boxed<Expr>,
    operator: Option<BinOp>,
    value: Expr,
) -> Result<Stmt, AllocError>
    ensures { IfOk result (λ one. one ≡ (record { what = stmts.Assign target operator value; line = line })) }
{
    match Boxed::new(alloc, value) {
        Ok(value) => Ok(Stmt {
            what: StmtKind::Assign(target, operator, value),
            line,
        }),
        Err(full) => {
            drop(target);
            Err(full)
        }
    }
}

/// "++" | "--", behind a target
fn stepped(alloc: Global, target: Expr, tokens: &mut Cursor<'_>) -> Result<Stmt, Unread>
    ensures { ReadsAs (read_mapped (stepped_by target) (read_one step_at) tokens.old) result tokens.new }
{
    let line = target.line;
    match step(tokens) {
        Ok((operator, marked)) => {
            let stepped = assignment_of(alloc, line, target, Some(operator), one(marked))?;
            Ok(stepped)
        }
        Err(unread) => {
            drop(target);
            Err(unread)
        }
    }
}

/// assign expr
fn assigned_value(alloc: Global, tokens: &mut Cursor<'_>) -> Result<(Option<BinOp>, Expr), Unread>
    ensures { ReadsAs (read_both (read_one assignment_at) read_expression tokens.old) result tokens.new }
{
    let operator = assignment(tokens)?;
    let value = expression(alloc, tokens)?;
    Ok((operator, value))
}

/// assign expr | "++" | "--", behind a target
#[tactic(auto, unfolding(crate::specs::SimpleReading::read_assigned))]
fn assigned(alloc: Global, target: Expr, tokens: &mut Cursor<'_>) -> Result<Stmt, Unread>
    ensures { ReadsAs (read_assigned read_expression target tokens.old) result tokens.new }
{
    if begins_with_step(tokens) {
        return stepped(alloc, target, tokens);
    }
    let line = target.line;
    match assigned_value(alloc, tokens) {
        Ok((operator, value)) => {
            let assigned = assignment_of(alloc, line, target, operator, value)?;
            Ok(assigned)
        }
        Err(unread) => {
            drop(target);
            Err(unread)
        }
    }
}

/// ( "++" | "--" ) lvalue
#[tactic(auto, unfolding(crate::specs::SimpleReading::read_step_first))]
fn step_first(alloc: Global, tokens: &mut Cursor<'_>) -> Result<Stmt, Unread>
    ensures { ReadsAs (read_step_first read_expression tokens.old) result tokens.new }
{
    let (operator, line) = step(tokens)?;
    let target = target(alloc, tokens)?;
    let stepped = assignment_of(alloc, line, target, Some(operator), one(line))?;
    Ok(stepped)
}

/// "(" arguments ")", behind the name of a function
#[tactic(auto, unfolding(crate::specs::SimpleReading::read_called))]
fn called(alloc: Global, name: Named, tokens: &mut Cursor<'_>) -> Result<Stmt, Unread>
    ensures { ReadsAs (read_called read_expression name tokens.old) result tokens.new }
{
    tokens.symbol(b"(")?;
    let values = arguments(alloc, tokens)?;
    Ok(Stmt {
        what: StmtKind::Call(name.name, values),
        line: name.line,
    })
}

/// A call or an assignment, behind the name with which it begins.
#[tactic(auto, unfolding(crate::specs::SimpleReading::read_simple_from))]
fn simple_from(alloc: Global, name: Named, tokens: &mut Cursor<'_>) -> Result<Stmt, Unread>
    ensures { ReadsAs (read_simple_from read_expression name tokens.old) result tokens.new }
{
    if tokens.begins_with_symbol(b"(") {
        return called(alloc, name, tokens);
    }
    let target = target_from(alloc, name, tokens)?;
    assigned(alloc, target, tokens)
}

/// lvalue assign expr | lvalue ( "++" | "--" ) | ( "++" | "--" ) lvalue | name "(" arguments ")"
#[tactic(auto, unfolding(crate::specs::SimpleReading::read_simple))]
pub(crate) fn simple(alloc: Global, tokens: &mut Cursor<'_>) -> Result<Stmt, Unread>
    ensures { ReadsAs (read_simple read_expression tokens.old) result tokens.new }
{
    if begins_with_step(tokens) {
        return step_first(alloc, tokens);
    }
    if tokens.begins_with_symbol(b"*") {
        let target = starred(alloc, tokens)?;
        return assigned(alloc, target, tokens);
    }
    let name = tokens.name(alloc)?;
    simple_from(alloc, name, tokens)
}

/// "int" | "long" | "unsigned" "long", with its line
#[tactic(auto, unfolding(crate::specs::SimpleReading::read_num_kind))]
pub(crate) fn num_kind(tokens: &mut Cursor<'_>) -> Result<(NumKind, u32), Unread>
    ensures { ReadsAs (read_num_kind tokens.old) result tokens.new }
{
    if begins_with_single_kind(tokens) {
        return single_kind(tokens);
    }
    let line = keyword(b"unsigned", tokens)?;
    keyword(b"long", tokens)?;
    Ok((NumKind::Ulong, line))
}

/// [ "*" ] name
#[tactic(auto, unfolding(crate::specs::SimpleReading::read_declared))]
pub(crate) fn declared(
    alloc: Global,
    numbers: NumKind,
    tokens: &mut Cursor<'_>,
) -> Result<(Kind, Named), Unread>
    ensures { ReadsAs (read_declared numbers tokens.old) result tokens.new }
{
    if tokens.begins_with_symbol(b"*") {
        tokens.symbol(b"*")?;
        let name = tokens.name(alloc)?;
        return Ok((Kind::Pointer(numbers), name));
    }
    let name = tokens.name(alloc)?;
    Ok((Kind::Num(numbers), name))
}

/// [ "*" ] name [ "=" expr ]
#[tactic(auto, unfolding(crate::specs::SimpleReading::read_local))]
fn local(alloc: Global, numbers: NumKind, tokens: &mut Cursor<'_>) -> Result<Local, Unread>
    ensures { ReadsAs (read_local read_expression numbers tokens.old) result tokens.new }
{
    let (kind, Named { name, line }) = declared(alloc, numbers, tokens)?;
    if !tokens.begins_with_symbol(b"=") {
        return Ok(Local {
            name,
            kind,
            first: None,
            line,
        });
    }
    tokens.symbol(b"=")?;
    let value = expression(alloc, tokens)?;
    Ok(Local {
        name,
        kind,
        first: Some(value),
        line,
    })
}

/// "," ldecl
fn next_local(alloc: Global, numbers: NumKind, tokens: &mut Cursor<'_>) -> Result<Local, Unread>
    ensures { ReadsAs (read_next (read_local read_expression numbers) tokens.old) result tokens.new }
{
    tokens.symbol(b",")?;
    local(alloc, numbers, tokens)
}

/// { "," ldecl }, behind the locals that were found
fn more_locals(
    alloc: Global,
    numbers: NumKind,
    mut found: List<Local>,
    tokens: &mut Cursor<'_>,
) -> Result<List<Local>, Unread>
    ensures { ReadsAs (read_more (read_local read_expression numbers) found tokens.old) result tokens.new }
{
    'locals: while tokens.begins_with_symbol(b",") {
        let next = match next_local(alloc, numbers, tokens) {
            Ok(next) => next,
            Err(unread) => return Err(unread),
        };
        found.push(next)?;
    }
    Ok(found)
}

/// ldecl { "," ldecl }
fn locals(alloc: Global, numbers: NumKind, tokens: &mut Cursor<'_>) -> Result<List<Local>, Unread>
    ensures { ReadsAs (read_list (read_local read_expression numbers) tokens.old) result tokens.new }
{
    let first = local(alloc, numbers, tokens)?;
    let mut found = List::new(alloc);
    found.push(first)?;
    more_locals(alloc, numbers, found, tokens)
}

/// type ldecl { "," ldecl }
#[tactic(auto, unfolding(crate::specs::SimpleReading::read_declaration))]
pub(crate) fn declaration(alloc: Global, tokens: &mut Cursor<'_>) -> Result<Stmt, Unread>
    ensures { ReadsAs (read_declaration read_expression tokens.old) result tokens.new }
{
    let (numbers, line) = num_kind(tokens)?;
    let locals = locals(alloc, numbers, tokens)?;
    Ok(Stmt {
        what: StmtKind::Declare(locals),
        line,
    })
}
