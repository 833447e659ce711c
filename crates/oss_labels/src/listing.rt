//! The labels of a program, by its tree and its code.

ghost use Rattle.std.specs.Prelude.{IfOk};
ghost use Rattle.oss_lower_laws.specs.Lowered.{IsLowered};
ghost use Rattle.oss_labels.specs.Labels.{AreLabelsOf};

use crate::creations::creations;
use crate::joining::joined;
use crate::labels::Labels;
use crate::walk::labels_in_code;
use oss_code::Code;
use oss_names::Known;
use oss_syntax::List;
use std::alloc::{AllocError, Global};

/// The labels of the tasks of a program that breaks no rule, by the instructions with which their bodies begin in the code
/// that it becomes. Condition: the code is the one that `lower` makes of the program, by its clause `lowered`. The labels
/// are those of the program with its task loops written out: each task of such a loop has the label of the loop.
///
/// It costs what the code and the program cost. Want of memory is the one error; a body that begins behind the instruction
/// 4,294,967,295 is told as that.
pub fn labels_by_entry(alloc: Global, known: &Known, code: &Code) -> Result<Labels, AllocError>
    requires { IsLowered known.now.items code.now }
    ensures { IfOk result (λ labels. AreLabelsOf known.now.items labels) }
{
    let entries = creations(alloc, code)?;
    let labels = labels_in_code(alloc, known.program().items.as_slice())?;
    let list = joined(alloc, entries.as_slice(), labels.as_slice())?;
    Ok(Labels::of(List::from_vec(list)))
}
