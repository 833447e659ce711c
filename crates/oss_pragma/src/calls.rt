//! The call that reads a pragma from a place in a list of tokens.

ghost use Rattle.std.specs.Prelude.{◌≤◌, length};
ghost use Rattle.oss_grammar.specs.Refusals.{IsAnswer, pragmas};
ghost use Rattle.oss_expressions.specs.ExpressionReading.{read_expression};
ghost use Rattle.oss_expressions.specs.ToldAt.{IsToldAt};
ghost use Rattle.oss_pragma.specs.PragmaReading.{read_pragma};

use crate::pragmas;
use oss_expressions::reading::{Cursor, count_before, refusal};
use oss_syntax::{Directive, List, Refusal, Token};
use std::alloc::Global;

/// Reads the pragma that begins at a place of the tokens, and answers it with the place behind it (OmpSs-2, the
/// directives task, taskloop, taskwait and release).
///
/// The answers are those of `oss_expressions::expression`, for pragmas: a level or an operator counts within
/// each expression of the pragma.
pub fn pragma(alloc: Global, tokens: &List<Token>, at: u32) -> Result<(Directive, u32), Refusal>
    requires within { at ≤ length tokens.now }
    requires counted { length tokens.now ≤ 4294967295 }
    ensures { IsAnswer pragmas tokens.now at result }
{
    pragma_told(alloc, tokens, at)
}

/// The same, told by the definition of the reader, of which it is proved that it reads as the grammar says.
fn pragma_told(alloc: Global, tokens: &List<Token>, at: u32) -> Result<(Directive, u32), Refusal>
    requires within { at ≤ length tokens.now }
    requires counted { length tokens.now ≤ 4294967295 }
    ensures { IsToldAt (read_pragma read_expression) tokens.now at result }
{
    let all = tokens.as_slice();
    let mut left = Cursor::new(&all[at as usize..]);
    match pragmas::pragma(alloc, &mut left) {
        Ok(directive) => Ok((directive, count_before(all, left.left()))),
        Err(unread) => Err(refusal(all, left.left(), unread)),
    }
}
