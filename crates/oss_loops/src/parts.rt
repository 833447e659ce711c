//! What of the head of a task loop comes into the block that it is written out as.
ghost use Rattle.std.specs.Prelude.{◌≡◌, [], ◌∷◌, ◌++◌, Some, IfOk};
ghost use Rattle.oss_grammar.specs.Scopes.{or_else};
ghost use Rattle.oss_grammar.specs.TaskLoops.{task_clauses};
ghost use Rattle.oss_loops.specs.LoopParts.{loop_bounds, or_number, task_parts, turns_among, turns_in};

use crate::expressions::given_or;
use oss_syntax::{Clause, Expr, List, Local, LoopHead, Name, TaskMark};
use std::alloc::{AllocError, Global};

/// The initial values of the block's locals.
#[derive(Drop)]
pub(crate) struct Bounds {
    /// Where the first task begins.
    pub(crate) first: Expr,
    /// Where the loop ends.
    pub(crate) end: Expr,
    /// How many turns a task makes.
    pub(crate) grain: Expr,
}

/// What each task is made of, beside its statement.
#[derive(Drop)]
pub(crate) struct TaskParts {
    pub(crate) variable: Name,
    /// All but the grainsize.
    pub(crate) clauses: List<Clause>,
    /// The line of the pragma.
    pub(crate) mark_line: u32,
    /// The line of the word `for`.
    pub(crate) for_line: u32,
}

/// The parts of the head of a task loop.
#[derive(Drop)]
pub(crate) struct LoopParts {
    pub(crate) bounds: Bounds,
    pub(crate) task: TaskParts,
}

/// Clauses of a task loop, the grainsize apart from the others.
#[derive(Drop)]
struct SortedClauses {
    /// The turns that the first grainsize tells.
    grain: Option<Expr>,
    others: List<Clause>,
}

/// The parts of a head, which come into a block on this line. Of the three names that of the variable is taken:
/// in a program that breaks no rule all are one.
pub(crate) fn taken_apart(alloc: Global, line: u32, head: LoopHead) -> Result<LoopParts, AllocError>
    ensures bounds { IfOk result (λ parts. parts.bounds ≡ loop_bounds line head) }
    ensures task { IfOk result (λ parts. parts.task ≡ task_parts head) }
{
    let LoopHead {
        mark,
        variable,
        tested,
        end,
        stepped,
        for_line,
    } = head;
    drop(tested);
    drop(stepped);
    let TaskMark {
        clauses,
        line: mark_line,
    } = mark;
    match sorted(alloc, clauses) {
        Ok(sorted) => Ok(joined_parts(line, variable, end, sorted, mark_line, for_line)),
        Err(full) => {
            drop(variable);
            drop(end);
            Err(full)
        }
    }
}

/// The parts of a head whose clauses are sorted.
fn joined_parts(
    line: u32,
    variable: Local,
    end: Expr,
    sorted: SortedClauses,
    mark_line: u32,
    for_line: u32,
) -> LoopParts
    ensures bounds { result.bounds ≡ (record {
      first = or_number line 0 variable.first;
      end = end;
      grain = or_number line 1 sorted.grain;
    }) }
    ensures task { result.task ≡ (record {
      variable = variable.name;
      clauses = sorted.others;
      mark_line = mark_line;
      for_line = for_line;
    }) }
{
    let Local {
        name,
        kind: _,
        first,
        line: _,
    } = variable;
    let SortedClauses { grain, others } = sorted;
    LoopParts {
        bounds: Bounds {
            first: given_or(line, 0, first),
            end,
            grain: given_or(line, 1, grain),
        },
        task: TaskParts {
            variable: name,
            clauses: others,
            mark_line,
            for_line,
        },
    }
}

/// The grainsize apart from the other clauses.
fn sorted(alloc: Global, clauses: List<Clause>) -> Result<SortedClauses, AllocError>
    ensures grain { IfOk result (λ sorted. sorted.grain ≡ turns_among clauses) }
    ensures others { IfOk result (λ sorted. sorted.others ≡ task_clauses clauses) }
{
    let mut found = SortedClauses {
        grain: None,
        others: List::new(alloc),
    };
    for clause in clauses.into_vec() {
        found = with_clause(found, clause)?;
    }
    Ok(found)
}

/// The same with one more clause behind them.
fn with_clause(found: SortedClauses, clause: Clause) -> Result<SortedClauses, AllocError>
    ensures grain { IfOk result (λ sorted. sorted.grain ≡ or_else found.grain (turns_in clause)) }
    ensures others { IfOk result (λ sorted. sorted.others ≡ found.others ++ task_clauses (clause ∷ [])) }
{
    let SortedClauses { grain, mut others } = found;
    match clause {
        Clause::Grain(turns) => Ok(SortedClauses {
            grain: first_of(grain, turns),
            others,
        }),
        other => {
            match others.push(other) {
                Ok(()) => Ok(SortedClauses { grain, others }),
                Err(full) => {
                    drop(grain);
                    Err(full)
                }
            }
        }
    }
}

/// The turns that were told first.
fn first_of(told: Option<Expr>, turns: Expr) -> Option<Expr>
    ensures { result ≡ or_else told (Some turns) }
{
    match told {
        Some(told) => {
            drop(turns);
            Some(told)
        }
        None => Some(turns),
    }
}
