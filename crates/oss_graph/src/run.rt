//! The graph of a code.

ghost use Rattle.std.specs.Prelude.{◌≡◌, ◌≤◌, length, IfOk};
ghost use Rattle.oss_grammar.specs.Layout.{cells_in};
ghost use Rattle.oss_task_graph.specs.Graphs.{IsGraphOf};
ghost use Rattle.oss_graph.specs.Following.{IsFollowing};

use crate::coming::task_created;
use crate::found::Found;
use oss_code::Code;
use oss_serial::{Stage, Turned, begin};
use oss_syntax::Program;
use oss_task_graph::{Graph, Stop};
use std::alloc::{AllocError, Global};

/// Runs a code sequentially, each task with fuel for so many ticks, and answers the graph of its tasks, those that were created
/// until main ended or a fault stopped the run. The output of the run is not kept. Beside the run a creation costs the
/// pieces of the new task's accesses among those of its creator's other children, and each edge its cells; an edge is kept for each
/// pair of tasks of which one stands on the other. Cells are told over the globals of the program. Out of memory is the one other
/// answer. Condition: the code has at most 1,048,576 cells, and so have the globals.
pub fn graph(alloc: Global, program: &Program, code: &Code, fuel: u32) -> Result<Graph, AllocError>
    requires cells { length code.now.first ≤ 1048576 }
    requires layout { cells_in program.now.items ≤ 1048576 }
    ensures { IfOk result (λ graph. IsGraphOf code.now fuel program.now.items graph) }
{
    let found = Found::new(alloc, program)?;
    match begin(alloc, code, fuel) {
        Ok(mut stage) => graph_from(program, code, fuel, &mut stage, found),
        Err(error) => {
            drop(found);
            Err(error)
        }
    }
}

/// The same from the beginning of the run on.
fn graph_from(
    program: &Program,
    code: &Code,
    fuel: u32,
    stage: &mut Stage,
    mut found: Found,
) -> Result<Graph, AllocError>
    requires { IsFollowing code.now fuel program.now.items stage.old found }
    ensures { IfOk result (λ graph. IsGraphOf code.now fuel program.now.items graph) }
{
    match follow(program, code, fuel, stage, &mut found) {
        Ok(fault) => Ok(found.graph(fault)),
        Err(full) => {
            drop(found);
            Err(full)
        }
    }
}

/// Follows the run of a program's code to its end. The fault that stops it is the answer, if there is one.
fn follow(
    _program: &Program,
    code: &Code,
    fuel: u32,
    stage: &mut Stage,
    found: &mut Found,
) -> Result<Option<Stop>, AllocError>
    requires { IsFollowing code.now fuel _program.now.items stage.old found.old }
    ensures { IfOk result (λ fault. IsGraphOf code.now fuel _program.now.items
        (record { nodes = found.new.nodes; fault = fault })) }
{
    'turns: loop {
        let created = stage.current.acting().created_count();
        let coming = task_created(
            stage.current.pending(),
            stage.current.line(),
            created as u16,
        );
        match stage.turn(code)? {
            Turned::On => found.follow(&stage.current, stage.above.len(), coming)?,
            Turned::Ended => return Ok(None),
            Turned::Failed(kind, line) => {
                let task = stage.current.point().copy()?;
                return Ok(Some(Stop { task, kind, line }));
            }
        }
    }
}
