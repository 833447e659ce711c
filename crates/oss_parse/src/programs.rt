//! The reader of globals, functions and programs.

ghost use Rattle.std.specs.Prelude.{◌≡◌, ◌++◌, ◌∷◌, [], codes, map, IfOk};
ghost use Rattle.oss_syntax.specs.declared.tree.program.Item.TheVariants as items;
ghost use Rattle.oss_grammar.specs.Programs.{cells_of_rows};
ghost use Rattle.oss_grammar.specs.Reading.{read_both, read_mapped, read_one, read_then};
ghost use Rattle.oss_expressions.specs.ExpressionReading.{middle, read_expression, read_list, read_more, read_next};
ghost use Rattle.oss_expressions.specs.TokenValues.{symbol_at};
ghost use Rattle.oss_expressions.specs.Told.{ReadsAs};
ghost use Rattle.oss_parse.specs.Inner.{read_body};
ghost use Rattle.oss_parse.specs.ProgramReading.{array_of, function_of, grid_of, just, mark_in, read_array_from, read_first_value, read_function_from, read_function_parts, read_global, read_global_from, read_globals_from, read_mark, read_marked, read_parameter, read_parameters, read_program, read_program_item, read_program_items, read_result, read_size, read_typed, read_typed_from, read_void, scalar_of};

use crate::beginnings::begins_with_program_item;
use crate::simple::{declared, num_kind};
use crate::statements::body;
use crate::tokens::{begins_with_keyword, begins_with_start, keyword, value};
use oss_expressions::reading::{Cursor, Named, Unread};
use oss_pragma::reading::task_pragma;
use oss_syntax::{
    Directive, Function, GlobalDef, Item, Kind, List, Local, NumKind, Program, Stmt, TaskMark,
};
use std::alloc::{AllocError, Global};

/// [ "-" ] number
#[tactic(auto, unfolding(crate::specs::ProgramReading::read_first_value))]
fn first_value(tokens: &mut Cursor<'_>) -> Result<u64, Unread>
    ensures { ReadsAs (read_first_value tokens.old) result tokens.new }
{
    if !tokens.begins_with_symbol(b"-") {
        return value(tokens);
    }
    tokens.symbol(b"-")?;
    let value = value(tokens)?;
    Ok(value.wrapping_neg())
}

/// "[" number "]"
#[tactic(auto, unfolding(crate::specs::ProgramReading::read_size))]
fn size(tokens: &mut Cursor<'_>) -> Result<u64, Unread>
    ensures { ReadsAs (read_size tokens.old) result tokens.new }
{
    tokens.symbol(b"[")?;
    let cells = value(tokens)?;
    tokens.symbol(b"]")?;
    Ok(cells)
}

/// [ "[" number "]" ], behind so many cells or rows of an array
#[tactic(auto, unfolding(crate::specs::ProgramReading::read_array_from))]
fn array_from(
    numbers: NumKind,
    name: Named,
    rows: u64,
    tokens: &mut Cursor<'_>,
) -> Result<GlobalDef, Unread>
    ensures { ReadsAs (read_array_from numbers name rows tokens.old) result tokens.new }
{
    if !tokens.begins_with_symbol(b"[") {
        return Ok(array(numbers, name, rows));
    }
    let columns = size(tokens)?;
    Ok(grid(numbers, name, rows, columns))
}

/// "[" number "]" [ "[" number "]" ] | "=" [ "-" ] number | nothing, behind the name of a global
#[tactic(auto, unfolding(crate::specs::ProgramReading::read_global_from))]
fn global_from(numbers: NumKind, name: Named, tokens: &mut Cursor<'_>) -> Result<GlobalDef, Unread>
    ensures { ReadsAs (read_global_from numbers name tokens.old) result tokens.new }
{
    if tokens.begins_with_symbol(b"=") {
        tokens.symbol(b"=")?;
        let first = first_value(tokens)?;
        return Ok(scalar(numbers, name, first));
    }
    if !tokens.begins_with_symbol(b"[") {
        return Ok(scalar(numbers, name, 0));
    }
    let rows = size(tokens)?;
    array_from(numbers, name, rows, tokens)
}

/// A global that is one number.
fn scalar(numbers: NumKind, name: Named, first: u64) -> GlobalDef
    ensures { result ≡ scalar_of numbers name first }
{
    GlobalDef {
        name: name.name,
        kind: numbers,
        cells: None,
        columns: None,
        first,
        line: name.line,
    }
}

/// A global with so many cells in one dimension.
fn array(numbers: NumKind, name: Named, cells: u64) -> GlobalDef
    ensures { result ≡ array_of numbers name cells }
{
    GlobalDef {
        name: name.name,
        kind: numbers,
        cells: Some(cells),
        columns: None,
        first: 0,
        line: name.line,
    }
}

/// How many cells so many rows of so many columns have.
#[tactic(auto, unfolding(oss_grammar::specs::Programs::cells_of_rows))]
fn cells_of(rows: u64, columns: u64) -> u64
    ensures { result ≡ cells_of_rows rows columns }
{
    rows.saturating_mul(columns)
}

/// A global with so many rows of so many columns.
fn grid(numbers: NumKind, name: Named, rows: u64, columns: u64) -> GlobalDef
    ensures { result ≡ grid_of numbers name rows columns }
{
    GlobalDef {
        name: name.name,
        kind: numbers,
        cells: Some(cells_of(rows, columns)),
        columns: Some(columns),
        first: 0,
        line: name.line,
    }
}

/// name | name "[" number "]" [ "[" number "]" ] | name "=" [ "-" ] number
#[tactic(auto, unfolding(crate::specs::ProgramReading::read_global))]
fn global(alloc: Global, numbers: NumKind, tokens: &mut Cursor<'_>) -> Result<GlobalDef, Unread>
    ensures { ReadsAs (read_global numbers tokens.old) result tokens.new }
{
    let name = tokens.name(alloc)?;
    global_from(numbers, name, tokens)
}

/// "," gdecl
fn next_global(
    alloc: Global,
    numbers: NumKind,
    tokens: &mut Cursor<'_>,
) -> Result<GlobalDef, Unread>
    ensures { ReadsAs (read_next (read_global numbers) tokens.old) result tokens.new }
{
    tokens.symbol(b",")?;
    global(alloc, numbers, tokens)
}

/// { "," gdecl }, behind the globals that were found
fn more_globals(
    alloc: Global,
    numbers: NumKind,
    mut found: List<GlobalDef>,
    tokens: &mut Cursor<'_>,
) -> Result<List<GlobalDef>, Unread>
    ensures { ReadsAs (read_more (read_global numbers) found tokens.old) result tokens.new }
{
    'globals: while tokens.begins_with_symbol(b",") {
        let next = match next_global(alloc, numbers, tokens) {
            Ok(next) => next,
            Err(unread) => return Err(unread),
        };
        found.push(next)?;
    }
    Ok(found)
}

/// gdecl { "," gdecl }, behind the name of the first global
fn globals(
    alloc: Global,
    numbers: NumKind,
    name: Named,
    tokens: &mut Cursor<'_>,
) -> Result<List<GlobalDef>, Unread>
    ensures { ReadsAs (read_then (read_global_from numbers name) (λ first. read_more (read_global numbers)
        (first ∷ [])) tokens.old) result tokens.new }
{
    let first = global_from(numbers, name, tokens)?;
    let mut found = List::new(alloc);
    found.push(first)?;
    more_globals(alloc, numbers, found, tokens)
}

/// Globals as items of a program.
fn as_items(alloc: Global, globals: List<GlobalDef>) -> Result<List<Item>, AllocError>
    ensures { IfOk result (λ found. found ≡ map items.Global globals) }
{
    let found = globals
        .into_vec()
        .into_iter()
        .map(|global| Item::Global(global))
        .collect(alloc)?;
    Ok(List::from_vec(found))
}

/// { "," gdecl } ";", behind the name of the first global
#[tactic(auto, unfolding(crate::specs::ProgramReading::read_globals_from))]
fn globals_from(
    alloc: Global,
    numbers: NumKind,
    name: Named,
    tokens: &mut Cursor<'_>,
) -> Result<List<Item>, Unread>
    ensures { ReadsAs (read_globals_from numbers name tokens.old) result tokens.new }
{
    let globals = globals(alloc, numbers, name, tokens)?;
    tokens.symbol(b";")?;
    Ok(as_items(alloc, globals)?)
}

/// type [ "*" ] name
#[tactic(auto, unfolding(crate::specs::ProgramReading::read_parameter))]
fn parameter(alloc: Global, tokens: &mut Cursor<'_>) -> Result<Local, Unread>
    ensures { ReadsAs (read_parameter tokens.old) result tokens.new }
{
    let (numbers, _) = num_kind(tokens)?;
    let (kind, name) = declared(alloc, numbers, tokens)?;
    Ok(Local {
        name: name.name,
        kind,
        first: None,
        line: name.line,
    })
}

/// "," param
fn next_parameter(alloc: Global, tokens: &mut Cursor<'_>) -> Result<Local, Unread>
    ensures { ReadsAs (read_next read_parameter tokens.old) result tokens.new }
{
    tokens.symbol(b",")?;
    parameter(alloc, tokens)
}

/// { "," param }, behind the parameters that were found
fn more_parameters(
    alloc: Global,
    mut found: List<Local>,
    tokens: &mut Cursor<'_>,
) -> Result<List<Local>, Unread>
    ensures { ReadsAs (read_more read_parameter found tokens.old) result tokens.new }
{
    'parameters: while tokens.begins_with_symbol(b",") {
        let next = match next_parameter(alloc, tokens) {
            Ok(next) => next,
            Err(unread) => return Err(unread),
        };
        found.push(next)?;
    }
    Ok(found)
}

/// param { "," param }
fn some_parameters(alloc: Global, tokens: &mut Cursor<'_>) -> Result<List<Local>, Unread>
    ensures { ReadsAs (read_list read_parameter tokens.old) result tokens.new }
{
    let first = parameter(alloc, tokens)?;
    let mut found = List::new(alloc);
    found.push(first)?;
    more_parameters(alloc, found, tokens)
}

/// [ "void" | param { "," param } ] ")"
#[tactic(auto, unfolding(crate::specs::ProgramReading::read_parameters))]
fn parameters(alloc: Global, tokens: &mut Cursor<'_>) -> Result<List<Local>, Unread>
    ensures { ReadsAs (read_parameters tokens.old) result tokens.new }
{
    if tokens.begins_with_symbol(b")") {
        tokens.symbol(b")")?;
        return Ok(List::new(alloc));
    }
    if begins_with_keyword(b"void", tokens) {
        keyword(b"void", tokens)?;
        tokens.symbol(b")")?;
        return Ok(List::new(alloc));
    }
    let found = some_parameters(alloc, tokens)?;
    tokens.symbol(b")")?;
    Ok(found)
}

/// "{" items "}"
fn function_body(alloc: Global, tokens: &mut Cursor<'_>) -> Result<List<Stmt>, Unread>
    ensures { ReadsAs (read_mapped middle (read_both (read_one (symbol_at (codes "{")))
        (read_both read_body (read_one (symbol_at (codes "}"))))) tokens.old) result tokens.new }
{
    tokens.symbol(b"{")?;
    let statements = body(alloc, tokens)?;
    tokens.symbol(b"}")?;
    Ok(statements)
}

/// "(" [ params ] ")" "{" items "}"
fn function_parts(
    alloc: Global,
    tokens: &mut Cursor<'_>,
) -> Result<(List<Local>, List<Stmt>), Unread>
    ensures { ReadsAs (read_function_parts read_body tokens.old) result tokens.new }
{
    tokens.symbol(b"(")?;
    let params = parameters(alloc, tokens)?;
    let body = function_body(alloc, tokens)?;
    Ok((params, body))
}

/// A function, as the items of a program that it is.
fn function(
    alloc: Global,
    mark: Option<TaskMark>,
    kind: Kind,
    name: Named,
    params: List<Local>,
    body: List<Stmt>,
) -> Result<List<Item>, AllocError>
    ensures { IfOk result (λ found. found ≡ just (function_of mark kind name (params, body))) }
{
    let mut found = List::new(alloc);
    found.push(Item::Function(Function {
        name: name.name,
        result: kind,
        params,
        mark,
        body,
        line: name.line,
    }))?;
    Ok(found)
}

/// "(" [ params ] ")" "{" items "}", behind the name of a function
#[tactic(auto, unfolding(crate::specs::ProgramReading::read_function_from))]
fn function_from(
    alloc: Global,
    mark: Option<TaskMark>,
    kind: Kind,
    name: Named,
    tokens: &mut Cursor<'_>,
) -> Result<List<Item>, Unread>
    ensures { ReadsAs (read_function_from read_body mark kind name tokens.old) result tokens.new }
{
    match function_parts(alloc, tokens) {
        Ok((params, body)) => Ok(function(alloc, mark, kind, name, params, body)?),
        Err(unread) => {
            drop(mark);
            drop(name);
            Err(unread)
        }
    }
}

/// Globals or a function, behind their type and the first name.
#[tactic(auto, unfolding(crate::specs::ProgramReading::read_typed_from))]
fn typed_from(
    alloc: Global,
    numbers: NumKind,
    name: Named,
    tokens: &mut Cursor<'_>,
) -> Result<List<Item>, Unread>
    ensures { ReadsAs (read_typed_from read_body numbers name tokens.old) result tokens.new }
{
    if tokens.begins_with_symbol(b"(") {
        return function_from(alloc, None, Kind::Num(numbers), name, tokens);
    }
    globals_from(alloc, numbers, name, tokens)
}

/// Globals or a function that begin with the type of numbers.
#[tactic(auto, unfolding(crate::specs::ProgramReading::read_typed))]
fn typed(alloc: Global, tokens: &mut Cursor<'_>) -> Result<List<Item>, Unread>
    ensures { ReadsAs (read_typed read_body tokens.old) result tokens.new }
{
    let (numbers, _) = num_kind(tokens)?;
    let name = tokens.name(alloc)?;
    typed_from(alloc, numbers, name, tokens)
}

/// type | "void"
#[tactic(auto, unfolding(crate::specs::ProgramReading::read_result))]
fn result_kind(tokens: &mut Cursor<'_>) -> Result<Kind, Unread>
    ensures { ReadsAs (read_result tokens.old) result tokens.new }
{
    if begins_with_keyword(b"void", tokens) {
        keyword(b"void", tokens)?;
        return Ok(Kind::Nothing);
    }
    let (numbers, _) = num_kind(tokens)?;
    Ok(Kind::Num(numbers))
}

/// A function that begins with `void`.
#[tactic(auto, unfolding(crate::specs::ProgramReading::read_void))]
fn void(alloc: Global, tokens: &mut Cursor<'_>) -> Result<List<Item>, Unread>
    ensures { ReadsAs (read_void read_body tokens.old) result tokens.new }
{
    keyword(b"void", tokens)?;
    let name = tokens.name(alloc)?;
    function_from(alloc, None, Kind::Nothing, name, tokens)
}

/// The mark in the pragma of a task.
fn mark_of(directive: Directive) -> Option<TaskMark>
    ensures { result ≡ mark_in directive }
{
    match directive {
        Directive::Task(mark) => Some(mark),
        Directive::TaskLoop(mark) => {
            drop(mark);
            None
        }
        Directive::TaskWait(sections) => {
            drop(sections);
            None
        }
        Directive::Release(clauses) => {
            drop(clauses);
            None
        }
    }
}

/// start "task" { [ "," ] clause } end
#[tactic(auto, unfolding(crate::specs::ProgramReading::read_mark))]
fn mark(alloc: Global, tokens: &mut Cursor<'_>) -> Result<Option<TaskMark>, Unread>
    ensures { ReadsAs (read_mark read_expression tokens.old) result tokens.new }
{
    let directive = task_pragma(alloc, tokens)?;
    Ok(mark_of(directive))
}

/// A function with a pragma before it.
#[tactic(auto, unfolding(crate::specs::ProgramReading::read_marked))]
fn marked(alloc: Global, tokens: &mut Cursor<'_>) -> Result<List<Item>, Unread>
    ensures { ReadsAs (read_marked read_expression read_body tokens.old) result tokens.new }
{
    let mark = mark(alloc, tokens)?;
    let kind = result_kind(tokens)?;
    let name = tokens.name(alloc)?;
    function_from(alloc, mark, kind, name, tokens)
}

/// type gdecl { "," gdecl } ";" | [ task ] ( type | "void" ) name "(" [ params ] ")" block
#[tactic(auto, unfolding(crate::specs::ProgramReading::read_program_item))]
fn program_item(alloc: Global, tokens: &mut Cursor<'_>) -> Result<List<Item>, Unread>
    ensures { ReadsAs (read_program_item read_expression read_body tokens.old) result tokens.new }
{
    if begins_with_start(tokens) {
        return marked(alloc, tokens);
    }
    if begins_with_keyword(b"void", tokens) {
        return void(alloc, tokens);
    }
    typed(alloc, tokens)
}

/// Two lists of items as one.
fn joined(found: List<Item>, more: List<Item>) -> Result<List<Item>, AllocError>
    ensures { IfOk result (λ all. all ≡ found ++ more) }
{
    let mut all = found.into_vec();
    let mut more = more.into_vec();
    all.append(&mut more)?;
    Ok(List::from_vec(all))
}

/// { item }
fn program_items(alloc: Global, tokens: &mut Cursor<'_>) -> Result<List<Item>, Unread>
    ensures { ReadsAs (read_program_items read_expression read_body tokens.old) result tokens.new }
{
    let mut found = List::new(alloc);
    'items: while begins_with_program_item(tokens) {
        let more = match program_item(alloc, tokens) {
            Ok(more) => more,
            Err(unread) => return Err(unread),
        };
        found = joined(found, more)?;
    }
    Ok(found)
}

/// A program, with at most 64 levels of statements.
pub(crate) fn program(alloc: Global, tokens: &mut Cursor<'_>) -> Result<Program, Unread>
    ensures { ReadsAs (read_program tokens.old) result tokens.new }
{
    match program_items(alloc, tokens) {
        Ok(items) => Ok(Program { items }),
        Err(unread) => Err(unread),
    }
}
