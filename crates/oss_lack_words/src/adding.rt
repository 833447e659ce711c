//! The clauses that are missing beside those that a task has.

ghost use Rattle.std.specs.Prelude.{◌≡◌, ◌≤◌, ℕ, IfOk, List as Items, None, OnOk};
ghost use Rattle.oss_explanation.specs.Held.{AreHeld};
ghost use Rattle.oss_pieces.specs.Layouts.{grids_from};
ghost use Rattle.oss_ranges.specs.Cells.{value_at};
ghost use Rattle.oss_syntax.specs.declared.tree.program.Item.{Item as Meant};
ghost use Rattle.oss_lack_words.specs.Told.{AreLacking, added};
ghost use Rattle.oss_lack_words.specs.Telling.{AddsHeld};

use crate::all_words::all_words;
use crate::cells::{Place, cells_by, is_any};
use oss_explanation::{Held, Word};
use oss_needs::Lack;
use oss_pieces::Layout;
use oss_ranges::RangeMap;
use oss_syntax::List;
use std::alloc::{AllocError, Global};

/// The clauses that a task lacks beside its own, where this is lacking of each cell: each word that some cell has to have, with the pieces
/// of the cells that have to have it. It costs one search where nothing is lacking, and else for each word what the runs of alike cells
/// and the pieces do. Out of memory is the one error.
pub fn lacking(
    alloc: Global,
    layout: &Layout,
    lacks: &RangeMap<Lack>,
) -> Result<List<Held>, AllocError>
    ensures { IfOk result (λ held. (all : Items Meant) → layout.now ≡ grids_from all 0 →
        AreLacking all (value_at lacks.now.pieces) held) }
{
    if is_any(lacks) {
        held_by(alloc, layout, lacks, &all_words())
    } else {
        Ok(List::new(alloc))
    }
}

/// The same by these words, one after the other.
fn held_by(
    alloc: Global,
    layout: &Layout,
    lacks: &RangeMap<Lack>,
    words: &[Word],
) -> Result<List<Held>, AllocError>
    requires { (c : ℕ) → 1048576 ≤ c → value_at lacks.now.pieces c ≡ None }
    ensures { IfOk result (λ held. (all : Items Meant) → layout.now ≡ grids_from all 0 →
        AreHeld all (λ c. added (value_at lacks.now.pieces c)) words.now held) }
{
    let mut held = Vec::new(alloc);
    for word in words {
        add_held(alloc, layout, lacks, *word, &mut held)?;
    }
    Ok(List::from_vec(held))
}

/// Adds one word, if a cell has to have it.
fn add_held(
    alloc: Global,
    layout: &Layout,
    lacks: &RangeMap<Lack>,
    word: Word,
    held: &mut Vec<Held>,
) -> Result<(), AllocError>
    requires { (c : ℕ) → 1048576 ≤ c → value_at lacks.now.pieces c ≡ None }
    ensures { OnOk result (AddsHeld layout.now (λ c. added (value_at lacks.now.pieces c)) word held.old.items held.new.items) }
{
    let set = cells_by(alloc, lacks, Place::Beside, word)?;
    let cells = match layout.pieces(&set) {
        Ok(cells) => cells,
        Err(full) => {
            drop(set);
            return Err(full);
        }
    };
    drop(set);
    if cells.is_empty() {
        drop(cells);
        return Ok(());
    }
    held.push(Held { word, cells })?;
    Ok(())
}
