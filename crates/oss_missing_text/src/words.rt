//! Words, numbers and points, behind a text.

ghost use Rattle.std.specs.Prelude.{◌≡◌, ◌++◌, OnOk};
ghost use Rattle.std.specs.Fmt.{decimal};
ghost use Rattle.oss_model.specs.Points.{text_of};
ghost use Rattle.oss_explanation.specs.Words.{is_child as names_child, op_text, strength_text, use_text, who_text, word_text};
ghost use Rattle.oss_missing_text.specs.Clauses.{further_old, old_text};

use oss_explanation::{Use, Word};
use oss_model::{Point, point_text};
use oss_syntax::Op;
use std::alloc::{AllocError, Global};

/// Adds words.
pub(crate) fn add(text: &mut Vec<u8>, words: &[u8]) -> Result<(), AllocError>
    ensures { OnOk result (text.new.items ≡ text.old.items ++ words.now) }
{
    text.extend_from_slice(words)
}

/// Adds a number.
pub(crate) fn add_number(alloc: Global, number: u32, text: &mut Vec<u8>) -> Result<(), AllocError>
    ensures { OnOk result (text.new.items ≡ text.old.items ++ decimal number) }
{
    let digits = format!(in alloc; "{number}")?;
    add(text, digits.as_bytes())
}

/// Adds the numbers of a point, with dots between them.
fn add_numbers(alloc: Global, point: &[u16], text: &mut Vec<u8>) -> Result<(), AllocError>
    ensures { OnOk result (text.new.items ≡ text.old.items ++ text_of point.now) }
{
    let numbers = point_text(alloc, point)?;
    add(text, numbers.as_slice())
}

/// Adds a point.
pub(crate) fn add_point(alloc: Global, point: &Point, text: &mut Vec<u8>) -> Result<(), AllocError>
    ensures { OnOk result (text.new.items ≡ text.old.items ++ text_of point.now) }
{
    add_numbers(alloc, point.as_slice(), text)
}

/// Whether the point is that of a task other than main.
pub(crate) fn is_child(point: &Point) -> bool
    ensures { result ≡ names_child point.now }
{
    point.as_slice().len() > 1
}

/// Adds a task, as it stands at the beginning of a sentence.
pub(crate) fn add_who(alloc: Global, point: &Point, text: &mut Vec<u8>) -> Result<(), AllocError>
    ensures { OnOk result (text.new.items ≡ text.old.items ++ who_text point.now) }
{
    if is_child(point) {
        add(text, b"Task ")?;
        return add_point(alloc, point, text);
    }
    add(text, b"Main")
}

/// An operator of a reduction.
fn symbol(op: Op) -> &'static [u8]
    ensures { result.now ≡ op_text op }
{
    match op {
        Op::Add => b"+",
        Op::And => b"&",
        Op::Or => b"|",
        Op::Xor => b"^",
    }
}

/// Adds an operator of a reduction.
pub(crate) fn add_op(op: Op, text: &mut Vec<u8>) -> Result<(), AllocError>
    ensures { OnOk result (text.new.items ≡ text.old.items ++ op_text op) }
{
    add(text, symbol(op))
}

/// Adds what a clause says, weak or not.
fn add_use(named: Use, text: &mut Vec<u8>) -> Result<(), AllocError>
    ensures { OnOk result (text.new.items ≡ text.old.items ++ use_text named) }
{
    match named {
        Use::In => add(text, b"in"),
        Use::Out => add(text, b"out"),
        Use::Inout => add(text, b"inout"),
        Use::Reduction(op) => {
            add(text, b"reduction(")?;
            add_op(op, text)?;
            add(text, b")")
        }
    }
}

/// Adds the mark of a weak clause, if it is one.
pub(crate) fn add_strength(strong: bool, text: &mut Vec<u8>) -> Result<(), AllocError>
    ensures { OnOk result (text.new.items ≡ text.old.items ++ strength_text strong) }
{
    if strong {
        return Ok(());
    }
    add(text, b"weak")
}

/// Adds a word of a clause.
pub(crate) fn add_word(word: Word, text: &mut Vec<u8>) -> Result<(), AllocError>
    ensures { OnOk result (text.new.items ≡ text.old.items ++ word_text word) }
{
    add_strength(word.strong, text)?;
    add_use(word.named, text)
}

/// Adds words of clauses, with ` and ` between them.
pub(crate) fn add_old(words: &[Word], text: &mut Vec<u8>) -> Result<(), AllocError>
    ensures { OnOk result (text.new.items ≡ text.old.items ++ old_text words.now) }
{
    match words.split_first() {
        Some((first, more)) => {
            add_word(*first, text)?;
            add_further_old(more, text)
        }
        None => Ok(()),
    }
}

/// Adds words of clauses, with ` and ` before each.
fn add_further_old(words: &[Word], text: &mut Vec<u8>) -> Result<(), AllocError>
    ensures { OnOk result (text.new.items ≡ text.old.items ++ further_old words.now) }
{
    for word in words {
        add(text, b" and ")?;
        add_word(*word, text)?;
    }
    Ok(())
}
