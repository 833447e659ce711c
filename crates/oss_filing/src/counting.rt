//! The counts of the tasks whose rows are filed.

ghost use Rattle.std.specs.Prelude.{◌≡◌, ◌≢◌, ◌<◌, ◌≤◌, ◌+◌, ◌*◌, ◌&&◌, not, ℕ, IfOk, Some, length, slice_index, slice_set};
ghost use Rattle.oss_roles.specs.Counting.{stands};
ghost use Rattle.oss_words.specs.Bits.{state_at};
ghost use Rattle.oss_words.specs.Sums.{below};
ghost use Rattle.oss_filing.specs.Counted.{AreCounted, HasRow, HaveTasks, adds_to};
ghost use Rattle.oss_filing.specs.declared.row.Row.{Row as Meant};
ghost use Rattle.oss_filing.specs.Filed.{state_in};
ghost use Rattle.oss_filing.specs.Rows.{row_of};
ghost use Rattle.oss_filing.specs.Planned.{is_fold, is_top, waits};

use crate::row::Row;
use oss_syntax::Mode;
use oss_words::{After, EntryState, state_of};
use std::alloc::{AllocError, Global};

/// What stands in the word of a count that is not filled.
const UNFILLED: u64 = 18_446_744_073_709_551_615;

/// Whether it is a reduction.
fn folds(mode: Mode) -> bool
    ensures { result ≡ is_fold mode }
{
    match mode {
        Mode::Read => false,
        Mode::Write => false,
        Mode::Fold(_) => true,
    }
}

/// Whether it begins a list of main.
fn begins(after: After) -> bool
    ensures { result ≡ is_top after }
{
    match after {
        After::FirstOfMain => true,
        After::FirstOf(_) => false,
        After::Sibling(_) => false,
    }
}

/// Whether the count of its task waits for a flag of the row.
fn is_counted(row: &Row) -> bool
    ensures { result ≡ waits row.now }
{
    row.info.strong && (!folds(row.info.mode) && !begins(row.after))
}

/// Whether the flag stands that an access of this mode needs.
fn is_met(mode: Mode, state: &EntryState) -> bool
    ensures { result ≡ stands mode state.now }
{
    match mode {
        Mode::Read => state.reads,
        Mode::Write => state.writes,
        Mode::Fold(_) => true,
    }
}

/// Whether the row waits for a flag that does not stand in its state word.
fn is_waiting(row: &Row, word: u64) -> bool
    ensures { result ≡ waits row.now && not (stands row.now.info.mode (state_at word)) }
{
    is_counted(row) && !is_met(row.info.mode, &state_of(word))
}

/// So many counts, none of which is filled.
fn none_filled(alloc: Global, count: usize) -> Result<Vec<u64>, AllocError>
    ensures { IfOk result (λ v. (length v.items ≡ count) ×
        ((t : ℕ) → t < count → slice_index v.items t ≡ 18446744073709551615)) }
{
    Vec::from_elem(alloc, UNFILLED, count)
}

/// Adds to the count of its task what the row adds, whose state word is `word`.
fn add_row(counts: &mut Vec<u64>, row: &Row, word: u64)
    requires inside { row.now.info.task < length counts.old.items }
    requires small { slice_index counts.old.items row.now.info.task < 18446744073709551615 }
    ensures size { length counts.new.items ≡ length counts.old.items }
    ensures adds { (t : ℕ) → slice_index counts.new.items t ≡
        adds_to t (Some row.now) (state_at word) + slice_index counts.old.items t }
{
    if is_waiting(row, word) {
        counts[row.info.task as usize] += 1;
    }
}

/// The counts of main and of each task that has a row are filled with 0.
fn fill(counts: &mut Vec<u64>, rows: &[Row])
    requires tasks { HaveTasks rows.now }
    requires size { length rows.now < length counts.old.items }
    ensures size { length counts.new.items ≡ length counts.old.items }
    ensures main { slice_index counts.new.items 0 ≡ 0 }
    ensures filled { (t : ℕ) → HasRow rows.now t → slice_index counts.new.items t ≡ 0 }
    ensures others { (t : ℕ) → t ≢ 0 → (HasRow rows.now t → ⊥) → slice_index counts.new.items t ≡
        slice_index counts.old.items t }
{
    counts[0] = 0;
    for at in 0..rows.len() {
        counts[rows[at].info.task as usize] = 0;
    }
}

/// Adds what all rows add to the counts of their tasks, which are 0.
fn add_all(counts: &mut Vec<u64>, rows: &[Row], words: &[u64])
    requires tasks { HaveTasks rows.now }
    requires most { length rows.now < 16777216 }
    requires size { length rows.now < length counts.old.items }
    requires words { 2 * length rows.now + 2 < length words.now }
    requires zero { (t : ℕ) → HasRow rows.now t → slice_index counts.old.items t ≡ 0 }
    ensures size { length counts.new.items ≡ length counts.old.items }
    ensures added { (t : ℕ) → HasRow rows.now t → slice_index counts.new.items t ≡
        below (λ e. adds_to t (row_of rows.now e) (state_in words.now e)) (1 + length rows.now) }
    ensures others { (t : ℕ) → (HasRow rows.now t → ⊥) → slice_index counts.new.items t ≡
        slice_index counts.old.items t }
{
    for at in 0..rows.len() {
        add_row(counts, &rows[at], words[2 * at + 3]);
    }
}

/// The counts of so many entries, at most 16,777,216, over the words in which the rows are filed: that of a task is how many
/// of its rows wait for a flag that does not stand; main's is 0, and what is no task's number is not filled. Want of
/// memory is the one error. Condition: main's entry and those of the rows are no more than these.
pub fn counts(
    alloc: Global,
    rows: &[Row],
    words: &[u64],
    entries: u32,
) -> Result<Vec<u64>, AllocError>
    requires tasks { HaveTasks rows.now }
    requires room { (length rows.now < entries) × (entries ≤ 16777216) }
    requires words { length words.now ≡ 1 + 2 * entries }
    ensures { IfOk result (λ counts. AreCounted entries rows.now words.now counts.items) }
{
    let mut counts = none_filled(alloc, entries as usize)?;
    fill(&mut counts, rows);
    add_all(&mut counts, rows, words);
    Ok(counts)
}
