//! The code of a program.
ghost use Rattle.std.specs.Prelude.{◌≡◌, ◌++◌, ◌≤◌, IfOk, OnOk, length, map};
ghost use Rattle.oss_meaning.specs.Meaning.{main_number};
ghost use Rattle.oss_meaning.specs.Names.{functions_of};
ghost use Rattle.oss_lower_laws.specs.Lowered.{IsLowered, bodies_from, body_place, entries_from, first_entry, program_code};
ghost use Rattle.oss_lower_laws.specs.Programs.{IsCodeOf};
ghost use Rattle.oss_code.specs.Soundness.{IsSound};

use crate::data::{first_cells, places};
use crate::functions::functions;
use oss_code::{Code, CodeParts, Instr};
use oss_lower_expressions::{Listing, Names, narrow};
use oss_lower_laws::{Lined, codes_are_sound, codes_ask_alike};
use oss_meaning::Found;
use oss_names::Known;
use oss_syntax::{Cells, Item, List, Program};
use std::alloc::{AllocError, Global};

/// The code of a program that breaks no rule. Its instructions are those that the program becomes by the definition of
/// lowering (`lowered`), which says where each body of the program begins in it. So it asks for the same as the program, on
/// the same lines, after any answers: each body of the program has a place in the code, that of `main` being the first
/// instruction. It has at most 1,048,576 cells, as the program has. Want of memory is the one error; a place that no number of
/// 32 bits tells, as in a tree that no text of 1,048,576 bytes has, is told as that. That the numbers of the code of
/// each text of at most 1,048,576 bytes are below 2^32 is a law (`texts_fit_numbers` of `oss_lower_bounds`).
pub fn lower(alloc: Global, known: &Known) -> Result<Code, AllocError>
    ensures lowered { IfOk result (λ code. IsLowered known.now.items code) }
    ensures code_of { IfOk result (λ code. IsCodeOf known.now.items code) }
    ensures sound { IfOk result (λ code. IsSound code) }
    ensures few { IfOk result (λ code. length code.first ≤ 1048576) }
{
    codes_ask_alike();
    lower_program(alloc, known.program())
}

/// The code of a program, accepted or not.
fn lower_program(alloc: Global, program: &Program) -> Result<Code, AllocError>
    ensures lowered { IfOk result (λ code. IsLowered program.now.items code) }
    ensures sound { IfOk result (λ code. IsSound code) }
{
    codes_are_sound();
    match Code::build(alloc, parts(alloc, program)?) {
        Some(code) => Ok(code),
        None => unreachable!(),
    }
}

/// The parts of the code of a program.
fn parts(alloc: Global, program: &Program) -> Result<CodeParts, AllocError>
    ensures { IfOk result (λ parts. IsLowered program.now.items parts) }
{
    let items = program.items.as_slice();
    let Instructions { code, functions } = written(alloc, items)?;
    let first = Cells::from_vec(first_cells(alloc, items)?);
    let globals = List::from_vec(places(alloc, items)?);
    let Columns {
        instrs,
        lines,
        depths,
    } = taken_apart(alloc, code)?;
    Ok(CodeParts {
        instrs: List::from_vec(instrs),
        lines: List::from_vec(lines),
        depths: List::from_vec(depths),
        first,
        globals,
        functions: List::from_vec(functions),
    })
}

/// What is written of a program: its instructions, and where its functions begin.
#[derive(Drop)]
struct Instructions {
    code: Vec<Lined>,
    functions: Vec<u32>,
}

/// Writes a program: the jump to the body of `main`, the end that stands for one that is not there, and the functions.
fn written(alloc: Global, items: &[Item]) -> Result<Instructions, AllocError>
    ensures code { IfOk result (λ w. w.code.items ≡ program_code items.now) }
    ensures functions { IfOk result (λ w. w.functions.items ≡ entries_from items.now first_entry
        (functions_of items.now)) }
{
    let names = Names::of(alloc, items)?;
    let mut out = Listing::new(alloc);
    out.push(Instr::Skip(0), 0, 0)?;
    out.push(Instr::Push(0), 0, 0)?;
    out.push(Instr::Return, 0, 1)?;
    let beginnings = functions(&names, &mut out)?;
    let main = body_of_main(&names, beginnings.bodies.as_slice());
    out.lead(narrow(main.saturating_sub(1))?);
    Ok(Instructions {
        code: out.into_vec(),
        functions: beginnings.functions,
    })
}

/// Where the body of `main` begins; where there is none, the end that stands for it.
fn body_of_main(names: &Names<'_>, bodies: &[usize]) -> usize
    ensures { bodies.now ≡ bodies_from names.now first_entry (functions_of names.now) →
        result ≡ body_place names.now (main_number names.now) }
{
    let number = match names.item(b"main") {
        Found::Function(number) => number as usize,
        _ => names.functions().len(),
    };
    match bodies.get(number) {
        Some(body) => *body,
        None => 1,
    }
}

/// What stands beside one another in instructions, each by itself.
#[derive(Drop)]
struct Columns {
    instrs: Vec<Instr>,
    lines: Vec<u32>,
    depths: Vec<u32>,
}

/// The instructions of a listing, their lines and their depths.
fn taken_apart(alloc: Global, code: Vec<Lined>) -> Result<Columns, AllocError>
    ensures instrs { IfOk result (λ c. c.instrs.items ≡ map (λ l. l.what) code.items) }
    ensures lines { IfOk result (λ c. c.lines.items ≡ map (λ l. l.line) code.items) }
    ensures depths { IfOk result (λ c. c.depths.items ≡ map (λ l. l.depth) code.items) }
{
    let mut instrs = Vec::with_capacity(alloc, code.len())?;
    let mut lines = Vec::with_capacity(alloc, code.len())?;
    let mut depths = Vec::with_capacity(alloc, code.len())?;
    add_all(code, &mut instrs, &mut lines, &mut depths)?;
    Ok(Columns {
        instrs,
        lines,
        depths,
    })
}

/// Adds the instructions of a listing, their lines and their depths.
fn add_all(
    code: Vec<Lined>,
    instrs: &mut Vec<Instr>,
    lines: &mut Vec<u32>,
    depths: &mut Vec<u32>,
) -> Result<(), AllocError>
    ensures instrs { OnOk result (instrs.new.items ≡ instrs.old.items ++ map (λ l. l.what) code.items) }
    ensures lines { OnOk result (lines.new.items ≡ lines.old.items ++ map (λ l. l.line) code.items) }
    ensures depths { OnOk result (depths.new.items ≡ depths.old.items ++ map (λ l. l.depth) code.items) }
{
    for one in code {
        let Lined { what, line, depth } = one;
        instrs.push(what)?;
        lines.push(line)?;
        depths.push(depth)?;
    }
    Ok(())
}
