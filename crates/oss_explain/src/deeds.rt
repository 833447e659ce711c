//! What a task was about to do, as it is told.

ghost use Rattle.std.specs.Prelude.{◌≡◌, ◌≤◌, IfOk};
ghost use Rattle.oss_grammar.specs.Layout.{cells_in};
ghost use Rattle.oss_machine.specs.Asks.{meant_ask};
ghost use Rattle.oss_machine.specs.Frames.{CodeScript};
ghost use Rattle.oss_model.specs.Bodies.{Fails};
ghost use Rattle.oss_model.specs.Context.{in_clauses};
ghost use Rattle.oss_pieces.specs.Pieces.{ArePieces};
ghost use Rattle.oss_explanation.specs.Explanations.{IsDeed};
ghost use Rattle.oss_explain.specs.Reasons.{MayFail};

use crate::asked_cells::accesses_on;
use crate::failing::cells_named;
use oss_explanation::Deed;
use oss_machine::Ask;
use oss_pieces::{Piece, pieces};
use oss_syntax::{Access, FaultKind, List, Program};
use std::alloc::{AllocError, Global};

/// What is told of an ask that comes to a fault. It costs what the cells of a directive cost. Out of memory is the one
/// error.
pub(crate) fn deed_of(alloc: Global, program: &Program, ask: &Ask) -> Result<Deed, AllocError>
    requires layout { cells_in program.now.items ≤ 1048576 }
    requires fails { MayFail (meant_ask ask.now) }
    ensures { IfOk result (λ deed. IsDeed program.now.items (meant_ask ask.now) deed) }
{
    match ask {
        Ask::Tick => Ok(Deed::Ticks),
        Ask::Begin => Ok(Deed::Begins),
        Ask::Await => Ok(Deed::Begins),
        Ask::Read(cell) => Ok(Deed::Reads(*cell)),
        Ask::Write(cell, _) => Ok(Deed::Writes(*cell)),
        Ask::Fold(cell, op, _) => Ok(Deed::Folds(*cell, *op)),
        Ask::Create(_) => Ok(Deed::Creates),
        Ask::Release(clauses) => match pieces_named(alloc, program, clauses.as_slice()) {
            Ok(cells) => Ok(Deed::Releases(cells)),
            Err(full) => Err(full),
        },
        Ask::WaitOn(ranges) => {
            let named = accesses_on(alloc, ranges.as_slice())?;
            match pieces_named(alloc, program, named.as_slice()) {
                Ok(cells) => Ok(Deed::WaitsOn(cells)),
                Err(full) => Err(full),
            }
        }
        Ask::Fault(kind) => Ok(failure_deed(*kind)),
        Ask::Wait => unreachable!(),
        Ask::Print(_) => unreachable!(),
        Ask::End => unreachable!(),
    }
}

/// What is told of a failure of the program's own meaning.
fn failure_deed(kind: FaultKind) -> Deed
    ensures { (all : _) → IsDeed {S = CodeScript} all (Fails kind) result }
{
    match kind {
        FaultKind::TooDeep => Deed::Calls,
        FaultKind::DivideByZero => Deed::Divides,
        FaultKind::ShiftRange => Deed::Shifts,
        _ => Deed::Misses,
    }
}

/// The pieces of the cells that accesses name.
fn pieces_named(
    alloc: Global,
    program: &Program,
    named: &[Access],
) -> Result<List<Piece>, AllocError>
    requires { cells_in program.now.items ≤ 1048576 }
    ensures { IfOk result (λ found. ArePieces (in_clauses named.now) program.now.items 0 0 found) }
{
    let cells = cells_named(alloc, named)?;
    pieces(alloc, program, &cells)
}
