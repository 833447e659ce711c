//! The clauses that have to stand in place of those that a task has.

ghost use Rattle.std.specs.Prelude.{◌≡◌, ◌≤◌, ℕ, IfOk, List as Items, None, OnOk};
ghost use Rattle.oss_pieces.specs.CellSets.{has};
ghost use Rattle.oss_pieces.specs.Layouts.{grids_from};
ghost use Rattle.oss_ranges.specs.Cells.{value_at};
ghost use Rattle.oss_syntax.specs.declared.tree.program.Item.{Item as Meant};
ghost use Rattle.oss_lack_words.specs.Told.{AreWanting, AreWantingOf, replacing};
ghost use Rattle.oss_lack_words.specs.Telling.{AddsWanting, AddsWantingOf};

use crate::all_words::all_words;
use crate::cells::{Place, cells_by, is_any};
use crate::old_words::old_words;
use oss_explanation::Word;
use oss_missing_lines::Wanting;
use oss_needs::Lack;
use oss_pieces::{CellSet, Layout};
use oss_ranges::RangeMap;
use oss_syntax::{Access, List};
use std::alloc::{AllocError, Global};

/// The clauses that have to stand in place of others, of a task with these clauses, where this is lacking of each cell: each word that some
/// cell has to have, with the pieces of the cells that have to have it, and the words of the clauses that name one of them. Of a final
/// task a weak clause counts as strong. It costs one search where nothing is lacking, and else for each word what the runs of alike cells,
/// the pieces and the clauses do. Out of memory is the one error.
pub fn wanting(
    alloc: Global,
    layout: &Layout,
    lacks: &RangeMap<Lack>,
    clauses: &[Access],
    is_final: bool,
) -> Result<List<Wanting>, AllocError>
    ensures { IfOk result (λ wants. (all : Items Meant) → layout.now ≡ grids_from all 0 →
        AreWanting all (value_at lacks.now.pieces) is_final clauses.now wants) }
{
    if is_any(lacks) {
        wants_by(alloc, layout, lacks, clauses, is_final, &all_words())
    } else {
        Ok(List::new(alloc))
    }
}

/// The same by these words, one after the other.
fn wants_by(
    alloc: Global,
    layout: &Layout,
    lacks: &RangeMap<Lack>,
    clauses: &[Access],
    is_final: bool,
    words: &[Word],
) -> Result<List<Wanting>, AllocError>
    requires { (c : ℕ) → 1048576 ≤ c → value_at lacks.now.pieces c ≡ None }
    ensures { IfOk result (λ wants. (all : Items Meant) → layout.now ≡ grids_from all 0 →
        AreWantingOf all (λ c. replacing (value_at lacks.now.pieces c)) is_final clauses.now words.now wants) }
{
    let mut wants = Vec::new(alloc);
    for word in words {
        add_wanting(alloc, layout, lacks, clauses, is_final, *word, &mut wants)?;
    }
    Ok(List::from_vec(wants))
}

/// Adds one word, if a cell has to have it.
fn add_wanting(
    alloc: Global,
    layout: &Layout,
    lacks: &RangeMap<Lack>,
    clauses: &[Access],
    is_final: bool,
    word: Word,
    wants: &mut Vec<Wanting>,
) -> Result<(), AllocError>
    requires { (c : ℕ) → 1048576 ≤ c → value_at lacks.now.pieces c ≡ None }
    ensures { OnOk result (AddsWanting layout.now (λ c. replacing (value_at lacks.now.pieces c)) is_final clauses.now word wants.old.items wants.new.items) }
{
    let set = cells_by(alloc, lacks, Place::InTheirs, word)?;
    let done = add_wanting_of(alloc, layout, &set, clauses, is_final, word, wants);
    drop(set);
    done
}

/// Adds one word, if there is a cell that has to have it: these are the cells.
fn add_wanting_of(
    alloc: Global,
    layout: &Layout,
    set: &CellSet,
    clauses: &[Access],
    is_final: bool,
    word: Word,
    wants: &mut Vec<Wanting>,
) -> Result<(), AllocError>
    ensures { OnOk result (AddsWantingOf layout.now (has set.now) is_final clauses.now word wants.old.items wants.new.items) }
{
    let cells = layout.pieces(set)?;
    if cells.is_empty() {
        drop(cells);
        return Ok(());
    }
    match old_words(alloc, clauses, is_final, set) {
        Ok(old) => {
            wants.push(Wanting { word, cells, old })?;
            Ok(())
        }
        Err(full) => {
            drop(cells);
            Err(full)
        }
    }
}
