//! The words in whose place a clause has to stand.

ghost use Rattle.std.specs.Prelude.{◌≡◌, ◌-◌, ◌∷◌, ◌++◌, [], IfOk, OnOk};
ghost use Rattle.oss_explanation.specs.Held.{clause_word, mark_for, once, use_of};
ghost use Rattle.oss_model.specs.Rights.{any_from};
ghost use Rattle.oss_pieces.specs.CellSets.{has};
ghost use Rattle.oss_lack_words.specs.Told.{words_for};

use crate::same::is_among;
use oss_explanation::{Use, Word};
use oss_pieces::CellSet;
use oss_syntax::{Access, List, Mode, Range};
use std::alloc::{AllocError, Global};

/// The words of the clauses that name a cell of a set, each once, in text order. It costs a search for each clause, and one for each
/// of the words before it.
pub(crate) fn old_words(
    alloc: Global,
    clauses: &[Access],
    is_final: bool,
    set: &CellSet,
) -> Result<List<Word>, AllocError>
    ensures { IfOk result (λ words. words ≡ once [] (words_for (has set.now) is_final clauses.now)) }
{
    let mut words = Vec::new(alloc);
    for clause in clauses {
        add_word_of(*clause, is_final, set, &mut words)?;
    }
    Ok(List::from_vec(words))
}

/// Adds the word of a clause, if the clause names a cell of the set and the word is not among the others.
fn add_word_of(
    clause: Access,
    is_final: bool,
    set: &CellSet,
    words: &mut Vec<Word>,
) -> Result<(), AllocError>
    ensures { OnOk result (words.new.items ≡ words.old.items ++ once words.old.items (words_for (has set.now) is_final (clause ∷ []))) }
{
    if !has_one(set, clause.range) {
        return Ok(());
    }
    let word = clause_word(clause, is_final);
    if is_among(words.as_slice(), word) {
        return Ok(());
    }
    words.push(word)?;
    Ok(())
}

/// Whether a set has a cell of a range.
fn has_one(set: &CellSet, range: Range) -> bool
    ensures { result ≡ any_from (has set.now) range.lo (range.hi - range.lo) }
{
    let mut from = range.lo;
    'runs: while from < range.hi {
        let (held, end) = set.run_from(from, range.hi);
        if held {
            return true;
        }
        from = end;
    }
    false
}

/// The word of a clause; of a final task all are strong.
fn clause_word(access: Access, is_final: bool) -> Word
    ensures { result ≡ clause_word is_final access }
{
    Word {
        named: use_of(access.mode, access.fresh),
        strong: is_final || access.strong,
    }
}

/// What a mode says: a cell that was named by `out` alone is written first.
fn use_of(mode: Mode, fresh: bool) -> Use
    ensures { result ≡ use_of mode (mark_for fresh) }
{
    match mode {
        Mode::Read => Use::In,
        Mode::Write => { if fresh { Use::Out } else { Use::Inout } }
        Mode::Fold(op) => Use::Reduction(op),
    }
}
