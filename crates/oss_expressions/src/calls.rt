//! The call that reads an expression from a place in a list of tokens.

ghost use Rattle.std.specs.Prelude.{◌≤◌, length};
ghost use Rattle.oss_grammar.specs.Refusals.{IsAnswer, expressions};
ghost use Rattle.oss_expressions.specs.ExpressionReading.{read_expression};
ghost use Rattle.oss_expressions.specs.ToldAt.{IsToldAt};

use crate::cursor::Cursor;
use crate::limits;
use crate::refusals::{count_before, refusal};
use oss_syntax::{Expr, List, Refusal, Token};
use std::alloc::Global;

/// Reads the expression that begins at a place of the tokens, and answers it with the place behind it (C11
/// 6.5).
///
/// The tokens are read as far as they begin an expression. `Ok` where they are one as far as that, and pass no
/// limit: then the expression is their only one. Else `Syntax`, `Unsupported` or `BadPragma` at the first token
/// that no expression goes on with, by that token and by whether it stands in a pragma, or `Syntax` at the end
/// of the tokens, which has the line 0; `token` is the number of all tokens before it. `TooLarge` where before
/// that, or with no such token, a level above 64 begins or a 257th operator stands, with the line of the token
/// there and `token` 0. `Memory` only for want of memory.
pub fn expression(alloc: Global, tokens: &List<Token>, at: u32) -> Result<(Expr, u32), Refusal>
    requires within { at ≤ length tokens.now }
    requires counted { length tokens.now ≤ 4294967295 }
    ensures { IsAnswer expressions tokens.now at result }
{
    expression_told(alloc, tokens, at)
}

fn expression_told(alloc: Global, tokens: &List<Token>, at: u32) -> Result<(Expr, u32), Refusal>
    requires within { at ≤ length tokens.now }
    requires counted { length tokens.now ≤ 4294967295 }
    ensures { IsToldAt read_expression tokens.now at result }
{
    let all = tokens.as_slice();
    let mut left = Cursor::new(&all[at as usize..]);
    match limits::expression(alloc, &mut left) {
        Ok(value) => Ok((value, count_before(all, left.left()))),
        Err(unread) => Err(refusal(all, left.left(), unread)),
    }
}
