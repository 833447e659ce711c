//! The cells of which a clause by one word is lacking.

ghost use Rattle.std.specs.Prelude.{◌≡◌, ◌≤◌, ℕ, false, IfOk, None};
ghost use Rattle.oss_explanation.specs.Held.{is_word};
ghost use Rattle.oss_pieces.specs.CellSets.{has};
ghost use Rattle.oss_ranges.specs.Cells.{value_at};
ghost use Rattle.oss_lack_words.specs.Told.{added, replacing};
ghost use Rattle.oss_lack_words.specs.Telling.{told};

use crate::same::is_same;
use oss_explanation::Word;
use oss_missing_lines::word_of_clause;
use oss_needs::Lack;
use oss_pieces::{CELLS, CellSet};
use oss_ranges::RangeMap;
use oss_syntax::Range;
use std::alloc::{AllocError, Global};

/// How a clause that is missing stands to those that a task has.
#[derive(Clone, Copy)]
pub(crate) enum Place {
    Beside,
    InTheirs,
}

/// Whether something may be lacking: the first run of alike cells tells, so it costs one search.
pub(crate) fn is_any(lacks: &RangeMap<Lack>) -> bool
    ensures none { result ≡ false → (c : ℕ) → value_at lacks.now.pieces c ≡ None }
    ensures past { (c : ℕ) → 1048576 ≤ c → value_at lacks.now.pieces c ≡ None }
{
    let (lack, end) = lacks.run_from(0, CELLS);
    match lack {
        Some(_) => true,
        None => end < CELLS,
    }
}

/// The cells of which a clause by this word is lacking, at this place. It costs what the runs of alike cells do.
pub(crate) fn cells_by(
    alloc: Global,
    lacks: &RangeMap<Lack>,
    place: Place,
    word: Word,
) -> Result<CellSet, AllocError>
    requires { (c : ℕ) → 1048576 ≤ c → value_at lacks.now.pieces c ≡ None }
    ensures { IfOk result (λ cells. (c : ℕ) → has cells c ≡ is_word (told place (value_at lacks.now.pieces c)) word) }
{
    let mut cells = CellSet::new(alloc);
    let mut from = 0;
    'runs: while from < CELLS {
        let (lack, end) = lacks.run_from(from, CELLS);
        if is_told(place, lack, word) {
            cells.add(Range { lo: from, hi: end })?;
        }
        from = end;
    }
    Ok(cells)
}

/// Whether a clause by this word is lacking, at this place.
fn is_told(place: Place, lack: Option<Lack>, word: Word) -> bool
    ensures { result ≡ is_word (told place lack) word }
{
    match word_told(place, lack) {
        Some(told) => is_same(told, word),
        None => false,
    }
}

/// The word of the clause that is lacking at this place.
fn word_told(place: Place, lack: Option<Lack>) -> Option<Word>
    ensures { result ≡ told place lack }
{
    match place {
        Place::Beside => word_added(lack),
        Place::InTheirs => word_replacing(lack),
    }
}

/// The word of a clause that is missing beside what clauses say.
fn word_added(lack: Option<Lack>) -> Option<Word>
    ensures { result ≡ added lack }
{
    match lack {
        Some(Lack::Adds(clause)) => Some(word_of_clause(clause)),
        _ => None,
    }
}

/// The word of a clause that has to stand in place of what clauses say.
fn word_replacing(lack: Option<Lack>) -> Option<Word>
    ensures { result ≡ replacing lack }
{
    match lack {
        Some(Lack::Replaces(clause)) => Some(word_of_clause(clause)),
        _ => None,
    }
}
