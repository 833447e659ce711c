//! What a task has by its accesses, a word each with its cells.

ghost use Rattle.std.specs.Prelude.{◌≡◌, ◌≤◌, ◌∷◌, [], ℕ, IfOk, OnOk};
ghost use Rattle.oss_grammar.specs.Layout.{cells_in};
ghost use Rattle.oss_judge.specs.Joined.{IsRising};
ghost use Rattle.oss_pieces.specs.CellSets.{has};
ghost use Rattle.oss_explanation.specs.Held.{AreHeld, all_words, words_so};
ghost use Rattle.oss_explain.specs.Owned.{AddsWords, is_by, own_of};

use crate::words_of::{clause_word, same_word};
use oss_explanation::{Held, Use, Word};
use oss_pieces::{CellSet, pieces};
use oss_syntax::{Access, List, Op, Program};
use std::alloc::{AllocError, Global};

/// What a task has by these accesses, which name each cell once, in rising order: each word that some cell has, with the
/// pieces of the cells that have it. It costs what the accesses and their pieces do, for each word. Out of memory is the
/// one error.
pub(crate) fn held_by(
    alloc: Global,
    program: &Program,
    accesses: &[Access],
) -> Result<List<Held>, AllocError>
    requires layout { cells_in program.now.items ≤ 1048576 }
    requires rising { IsRising accesses.now }
    ensures { IfOk result (λ held. AreHeld program.now.items (own_of accesses.now) all_words held) }
{
    let mut held = Vec::new(alloc);
    add_words(alloc, program, accesses, true, &mut held)?;
    add_words(alloc, program, accesses, false, &mut held)?;
    Ok(List::from_vec(held))
}

/// Adds the strong words, or the weak ones.
fn add_words(
    alloc: Global,
    program: &Program,
    accesses: &[Access],
    strong: bool,
    held: &mut Vec<Held>,
) -> Result<(), AllocError>
    requires layout { cells_in program.now.items ≤ 1048576 }
    requires rising { IsRising accesses.now }
    ensures { OnOk result (AddsWords program.now.items (own_of accesses.now) (words_so strong) held.old.items held.new.items) }
{
    add_word(alloc, program, accesses, Use::In, strong, held)?;
    add_word(alloc, program, accesses, Use::Out, strong, held)?;
    add_word(alloc, program, accesses, Use::Inout, strong, held)?;
    add_word(
        alloc,
        program,
        accesses,
        Use::Reduction(Op::Add),
        strong,
        held,
    )?;
    add_word(
        alloc,
        program,
        accesses,
        Use::Reduction(Op::And),
        strong,
        held,
    )?;
    add_word(
        alloc,
        program,
        accesses,
        Use::Reduction(Op::Or),
        strong,
        held,
    )?;
    add_word(
        alloc,
        program,
        accesses,
        Use::Reduction(Op::Xor),
        strong,
        held,
    )
}

/// Adds one word, if a cell has it.
fn add_word(
    alloc: Global,
    program: &Program,
    accesses: &[Access],
    named: Use,
    strong: bool,
    held: &mut Vec<Held>,
) -> Result<(), AllocError>
    requires layout { cells_in program.now.items ≤ 1048576 }
    requires rising { IsRising accesses.now }
    ensures { OnOk result (AddsWords program.now.items (own_of accesses.now) (record { named = named; strong = strong } ∷ []) held.old.items held.new.items) }
{
    let word = Word { named, strong };
    let set = cells_by(alloc, accesses, word)?;
    let cells = match pieces(alloc, program, &set) {
        Ok(cells) => cells,
        Err(full) => {
            drop(set);
            return Err(full);
        }
    };
    drop(set);
    if cells.is_empty() {
        drop(cells);
        return Ok(());
    }
    held.push(Held { word, cells })?;
    Ok(())
}

/// The cells that accesses name by this word.
fn cells_by(alloc: Global, accesses: &[Access], word: Word) -> Result<CellSet, AllocError>
    ensures { IfOk result (λ cells. (c : ℕ) → has cells c ≡ is_by accesses.now word c) }
{
    let mut cells = CellSet::new(alloc);
    for access in accesses {
        if same_word(clause_word(*access, false), word) {
            cells.add(access.range)?;
        }
    }
    Ok(cells)
}
