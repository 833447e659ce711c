//! Why a creation, a release or a wait may not be.

ghost use Rattle.std.specs.Prelude.{◌≡◌, ◌≤◌, ◌&&◌, ◌||◌, ◌++◌, ◌∷◌, [], false, Bool, ℕ, Some, IfOk, OnOk};
ghost use Rattle.oss_grammar.specs.Layout.{cells_in};
ghost use Rattle.oss_machine.specs.Asks.{meant_order};
ghost use Rattle.oss_meaning.specs.Clauses.{waited_for};
ghost use Rattle.oss_meaning.specs.Sections.{declared_on};
ghost use Rattle.oss_model.specs.Bodies.{Create, Release, WaitOn};
ghost use Rattle.oss_model.specs.Context.{creation_fault, in_clauses, lacks_right, release_fault, right_of, wait_on_fault};
ghost use Rattle.oss_model.specs.Rights.{is_mixed, is_released};
ghost use Rattle.oss_pieces.specs.CellSets.{has as has_cell};
ghost use Rattle.oss_explanation.specs.Held.{AreFailing, clause_words, is_listed, once};
ghost use Rattle.oss_explain.specs.Directives.{IsCreationUncovered, IsMixedOf, IsReleaseUncovered, is_uncovered};
ghost use Rattle.oss_explain.specs.Failures.{HasCell, passes};
ghost use Rattle.oss_explain.specs.Owned.{own_of};
ghost use Rattle.oss_explain.specs.Reasons.{IsAccounted, IsReasonOf, IsReleasedOf};

use crate::asked_cells::accesses_on;
use crate::at_cell::{has, word_at};
use crate::begun::Begun;
use crate::failing::{Test, cells_named, cells_that, failing, uncovered_cells};
use crate::modes::Modes;
use crate::releases::released_reason;
use crate::words_of::{clause_word, same_word};
use oss_code::TaskOrder;
use oss_explanation::{Failing, Reason, Word};
use oss_judge::Context;
use oss_pieces::CellSet;
use oss_syntax::{Access, FaultKind, List, Program, Range};
use std::alloc::{AllocError, Global};

/// Why a creation with this order may not be, after its clauses were evaluated.
pub(crate) fn creation_reason(
    alloc: Global,
    program: &Program,
    context: &Context,
    order: &TaskOrder,
    top: &Begun,
    kind: FaultKind,
) -> Result<Reason, AllocError>
    requires layout { cells_in program.now.items ≤ 1048576 }
    requires fault { creation_fault context.now order.now.accesses (context.now.final || order.now.last) ≡ Some kind }
    requires noted { IsAccounted context.now top.now }
    ensures { IfOk result (λ reason. IsReasonOf program.now.items context.now top.now kind (Create (meant_order order.now)) reason) }
{
    let clauses = order.accesses.as_slice();
    let is_final = is_child_final(context, order.last);
    match kind {
        FaultKind::TooDeep => Ok(Reason::TooDeep),
        FaultKind::TooManyTasks => Ok(Reason::TooManyTasks),
        FaultKind::MixedAccess => mixed_reason(alloc, program, clauses, is_final),
        FaultKind::Released => named_released(alloc, program, context, clauses, top),
        FaultKind::NotCovered => {
            creation_not_covered(alloc, program, context, clauses, is_final, top)
        }
        _ => unreachable!(),
    }
}

/// Whether a task that one with this context creates is final. The last one that is not included is.
pub(crate) fn is_child_final(context: &Context, last: bool) -> bool
    ensures { result ≡ (context.now.final || last) }
{
    context.is_final() || last
}

/// Why a release may not be.
pub(crate) fn release_reason(
    alloc: Global,
    program: &Program,
    context: &Context,
    clauses: &[Access],
    top: &Begun,
    kind: FaultKind,
) -> Result<Reason, AllocError>
    requires layout { cells_in program.now.items ≤ 1048576 }
    requires fault { release_fault context.now clauses.now ≡ Some kind }
    requires noted { IsAccounted context.now top.now }
    ensures { IfOk result (λ reason. IsReasonOf program.now.items context.now top.now kind (Release clauses.now) reason) }
{
    match kind {
        FaultKind::Released => named_released(alloc, program, context, clauses, top),
        FaultKind::NotCovered => release_not_covered(alloc, program, context, clauses, top),
        _ => unreachable!(),
    }
}

/// Why a wait for the cells of these ranges may not be.
pub(crate) fn wait_reason(
    alloc: Global,
    program: &Program,
    context: &Context,
    ranges: &[Range],
    top: &Begun,
    kind: FaultKind,
) -> Result<Reason, AllocError>
    requires layout { cells_in program.now.items ≤ 1048576 }
    requires fault { wait_on_fault context.now (declared_on waited_for ranges.now) ≡ Some kind }
    requires noted { IsAccounted context.now top.now }
    ensures { IfOk result (λ reason. IsReasonOf program.now.items context.now top.now kind (WaitOn (declared_on waited_for ranges.now)) reason) }
{
    let named = accesses_on(alloc, ranges)?;
    wait_reason_by(alloc, program, context, named.as_slice(), top, kind)
}

/// Why a wait for the cells of these accesses may not be.
fn wait_reason_by(
    alloc: Global,
    program: &Program,
    context: &Context,
    named: &[Access],
    top: &Begun,
    kind: FaultKind,
) -> Result<Reason, AllocError>
    requires layout { cells_in program.now.items ≤ 1048576 }
    requires fault { wait_on_fault context.now named.now ≡ Some kind }
    requires noted { IsAccounted context.now top.now }
    ensures { IfOk result (λ reason. IsReasonOf program.now.items context.now top.now kind (WaitOn named.now) reason) }
{
    match kind {
        FaultKind::Released => named_released(alloc, program, context, named, top),
        FaultKind::NotCovered => match named_lacking(alloc, program, context, named) {
            Ok(cells) => Ok(Reason::WaitNotCovered(cells)),
            Err(full) => Err(full),
        },
        _ => unreachable!(),
    }
}

/// The cells that accesses name are released, one of them at least.
fn named_released(
    alloc: Global,
    program: &Program,
    context: &Context,
    named: &[Access],
    top: &Begun,
) -> Result<Reason, AllocError>
    requires layout { cells_in program.now.items ≤ 1048576 }
    requires some { HasCell (λ c. in_clauses named.now c && is_released (right_of context.now c)) }
    requires noted { IsAccounted context.now top.now }
    ensures { IfOk result (λ reason. IsReleasedOf program.now.items (λ c. in_clauses named.now c && is_released (right_of context.now c)) top.now.released reason) }
{
    let released = named_that(alloc, context, named, Test::Released)?;
    released_reason(alloc, program, &released, top.released.as_slice())
}

/// The cells that accesses name and to which the task never had a right: one at least.
fn named_lacking(
    alloc: Global,
    program: &Program,
    context: &Context,
    named: &[Access],
) -> Result<Failing, AllocError>
    requires layout { cells_in program.now.items ≤ 1048576 }
    requires some { HasCell (λ c. in_clauses named.now c && lacks_right (right_of context.now c)) }
    ensures { IfOk result (λ cells. AreFailing program.now.items (λ c. in_clauses named.now c && lacks_right (right_of context.now c)) cells) }
{
    let lacking = named_that(alloc, context, named, Test::Lacking)?;
    failing(alloc, program, &lacking)
}

/// The cells that accesses name and of which the right passes a test.
fn named_that(
    alloc: Global,
    context: &Context,
    named: &[Access],
    test: Test,
) -> Result<CellSet, AllocError>
    ensures { IfOk result (λ cells. (c : ℕ) → has_cell cells c ≡ (in_clauses named.now c && passes test (right_of context.now c))) }
{
    let cells = cells_named(alloc, named)?;
    cells_that(alloc, context, &cells, test)
}

/// The clauses of a creation give cells that the right of the creator does not cover, one at least.
fn creation_not_covered(
    alloc: Global,
    program: &Program,
    context: &Context,
    clauses: &[Access],
    is_final: bool,
    top: &Begun,
) -> Result<Reason, AllocError>
    requires layout { cells_in program.now.items ≤ 1048576 }
    requires some { HasCell (is_uncovered context.now is_final clauses.now) }
    ensures { IfOk result (λ reason. IsCreationUncovered program.now.items context.now is_final clauses.now (own_of top.now.accesses) reason) }
{
    let cells = uncovered(alloc, program, context, clauses)?;
    match word_at(clauses, is_final, cells.first) {
        Some(word) => {
            let own = word_at(top.accesses.as_slice(), false, cells.first);
            Ok(Reason::CreationNotCovered(word, own, cells))
        }
        None => unreachable!(),
    }
}

/// A release names cells with modes that the right of the task does not cover, one at least.
fn release_not_covered(
    alloc: Global,
    program: &Program,
    context: &Context,
    clauses: &[Access],
    top: &Begun,
) -> Result<Reason, AllocError>
    requires layout { cells_in program.now.items ≤ 1048576 }
    requires some { HasCell (is_uncovered context.now false clauses.now) }
    ensures { IfOk result (λ reason. IsReleaseUncovered program.now.items context.now clauses.now (own_of top.now.accesses) reason) }
{
    let cells = uncovered(alloc, program, context, clauses)?;
    match word_at(clauses, false, cells.first) {
        Some(word) => {
            let own = word_at(top.accesses.as_slice(), false, cells.first);
            Ok(Reason::ReleaseNotCovered(word, own, cells))
        }
        None => unreachable!(),
    }
}

/// The cells of which the right of a task does not cover what clauses give: one at least.
fn uncovered(
    alloc: Global,
    program: &Program,
    context: &Context,
    clauses: &[Access],
) -> Result<Failing, AllocError>
    requires layout { cells_in program.now.items ≤ 1048576 }
    requires some { (final : Bool) × HasCell (is_uncovered context.now final clauses.now) }
    ensures { IfOk result (λ cells. (final : Bool) → AreFailing program.now.items (is_uncovered context.now final clauses.now) cells) }
{
    let cells = uncovered_set(alloc, context, clauses)?;
    failing(alloc, program, &cells)
}

/// The same as a set.
fn uncovered_set(
    alloc: Global,
    context: &Context,
    clauses: &[Access],
) -> Result<CellSet, AllocError>
    ensures { IfOk result (λ cells. (final : Bool) (c : ℕ) → has_cell cells c ≡ is_uncovered context.now final clauses.now c) }
{
    let wanted = Modes::of(alloc, clauses)?;
    uncovered_cells(alloc, context, &wanted)
}

/// Two of the clauses of the new task cannot be joined, on one cell at least.
fn mixed_reason(
    alloc: Global,
    program: &Program,
    clauses: &[Access],
    is_final: bool,
) -> Result<Reason, AllocError>
    requires layout { cells_in program.now.items ≤ 1048576 }
    requires some { HasCell (is_mixed is_final clauses.now) }
    ensures { IfOk result (λ reason. IsMixedOf program.now.items is_final clauses.now reason) }
{
    let cells = mixed(alloc, program, clauses)?;
    match words_at(alloc, clauses, is_final, cells.first) {
        Ok(words) => Ok(Reason::MixedAccess(words, cells)),
        Err(full) => {
            drop(cells);
            Err(full)
        }
    }
}

/// The cells of which two clauses cannot be joined: one at least.
fn mixed(alloc: Global, program: &Program, clauses: &[Access]) -> Result<Failing, AllocError>
    requires layout { cells_in program.now.items ≤ 1048576 }
    requires some { (final : Bool) × HasCell (is_mixed final clauses.now) }
    ensures { IfOk result (λ cells. (final : Bool) → AreFailing program.now.items (is_mixed final clauses.now) cells) }
{
    let modes = Modes::of(alloc, clauses)?;
    failing(alloc, program, &modes.mixed)
}

/// The words of the clauses that name a cell, each once, in text order.
fn words_at(
    alloc: Global,
    clauses: &[Access],
    is_final: bool,
    cell: u32,
) -> Result<List<Word>, AllocError>
    ensures { IfOk result (λ words. words ≡ once [] (clause_words is_final clauses.now cell)) }
{
    let mut words = Vec::new(alloc);
    for clause in clauses {
        add_word_at(*clause, is_final, cell, &mut words)?;
    }
    Ok(List::from_vec(words))
}

/// Adds the word of a clause, if the clause names the cell and the word is not among the others.
fn add_word_at(
    clause: Access,
    is_final: bool,
    cell: u32,
    words: &mut Vec<Word>,
) -> Result<(), AllocError>
    ensures { OnOk result (words.new.items ≡ words.old.items ++ once words.old.items (clause_words is_final (clause ∷ []) cell)) }
{
    if !has(clause, cell) {
        return Ok(());
    }
    let word = clause_word(clause, is_final);
    if is_among(words.as_slice(), word) {
        return Ok(());
    }
    words.push(word)?;
    Ok(())
}

/// Whether a word is among others.
fn is_among(words: &[Word], word: Word) -> bool
    ensures { result ≡ is_listed words.now word }
{
    for other in words {
        if same_word(*other, word) {
            return true;
        }
    }
    false
}
