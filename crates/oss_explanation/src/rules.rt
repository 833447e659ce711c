//! The rules that a fault breaks, in a sentence each.

ghost use Rattle.std.specs.Prelude.{◌≡◌, ◌++◌, OnOk, codes};
ghost use Rattle.oss_explanation.specs.Sentences.{child_rule, lent_rule, release_rule, touch_rule, wants_text};
ghost use Rattle.oss_explanation.specs.Words.{op_text};
ghost use Rattle.oss_explanation.specs.declared.explained.Use.TheVariants as uses;

use crate::explained::{Touching, Use, Word};
use crate::names::{add, add_op};
use oss_syntax::Op;
use std::alloc::AllocError;

/// Adds the rule that a touch without a right breaks.
pub(crate) fn add_touch_rule(
    touch: Touching,
    held: Option<Word>,
    text: &mut Vec<u8>,
) -> Result<(), AllocError>
    ensures { OnOk result (text.new.items ≡ text.old.items ++ touch_rule touch held) }
{
    match held {
        None => add_wants(touch, text),
        Some(word) => {
            if word.strong {
                return add_wants(touch, text);
            }
            add(
                text,
                b"A weak clause is for the tasks below, and not for the task itself.\n",
            )
        }
    }
}

/// Adds what a touch wants.
fn add_wants(touch: Touching, text: &mut Vec<u8>) -> Result<(), AllocError>
    ensures { OnOk result (text.new.items ≡ text.old.items ++ wants_text touch) }
{
    match touch {
        Touching::Reading => add(text, b"A read wants in, out or inout.\n"),
        Touching::Writing => add(text, b"A write wants out or inout.\n"),
        Touching::Folding(op) => add_fold_wants(op, text),
    }
}

/// Adds what a fold wants.
fn add_fold_wants(op: Op, text: &mut Vec<u8>) -> Result<(), AllocError>
    ensures { OnOk result (text.new.items ≡ text.old.items
        ++ codes "A fold by " ++ op_text op ++ codes "= wants reduction(" ++ op_text op
        ++ codes "), out or inout.\n") }
{
    add(text, b"A fold by ")?;
    add_op(op, text)?;
    add(text, b"= wants reduction(")?;
    add_op(op, text)?;
    add(text, b"), out or inout.\n")
}

/// Adds the rule of what a child may have.
pub(crate) fn add_child_rule(named: Use, text: &mut Vec<u8>) -> Result<(), AllocError>
    ensures { OnOk result (text.new.items ≡ text.old.items ++ child_rule named) }
{
    match named {
        Use::In => add(
            text,
            b"A child's in wants in, out or inout of its creator, strong or weak.\n",
        ),
        Use::Reduction(op) => add_fold_rule(op, text),
        Use::Out => add_write_rule(text),
        Use::Inout => add_write_rule(text),
    }
}

/// Adds the rule of a child that folds.
fn add_fold_rule(op: Op, text: &mut Vec<u8>) -> Result<(), AllocError>
    ensures { OnOk result (text.new.items ≡ text.old.items ++ codes "A child's reduction(" ++ op_text op
        ++ codes ") wants reduction(" ++ op_text op ++ codes "), out or inout of its creator, strong or weak.\n") }
{
    add(text, b"A child's reduction(")?;
    add_op(op, text)?;
    add(text, b") wants reduction(")?;
    add_op(op, text)?;
    add(text, b"), out or inout of its creator, strong or weak.\n")
}

/// Adds the rule of a child that writes.
fn add_write_rule(text: &mut Vec<u8>) -> Result<(), AllocError>
    ensures { OnOk result (text.new.items ≡ text.old.items ++ child_rule uses.Inout) }
{
    add(
        text,
        b"A child's out or inout wants out or inout of its creator, strong or weak.\n",
    )
}

/// Adds the rule of what may be released.
pub(crate) fn add_release_rule(named: Use, text: &mut Vec<u8>) -> Result<(), AllocError>
    ensures { OnOk result (text.new.items ≡ text.old.items ++ release_rule named) }
{
    match named {
        Use::In => add(
            text,
            b"To release in wants in, out or inout, strong or weak.\n",
        ),
        _ => add(
            text,
            b"To release out or inout wants out or inout, strong or weak.\n",
        ),
    }
}

/// Adds the rule of what is lent.
pub(crate) fn add_lent_rule(named: Use, text: &mut Vec<u8>) -> Result<(), AllocError>
    ensures { OnOk result (text.new.items ≡ text.old.items ++ lent_rule named) }
{
    match named {
        Use::In => add(
            text,
            b"What a child may read is not written before a wait.\n",
        ),
        _ => add(
            text,
            b"What a child may write or fold into is not touched before a wait.\n",
        ),
    }
}
