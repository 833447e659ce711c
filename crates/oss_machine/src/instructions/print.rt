//! What a print writes.
ghost use Rattle.std.specs.Prelude.{◌≡◌, ◌++◌, IfOk, map};
ghost use Rattle.oss_grammar.specs.Formats.{written_pieces};
ghost use Rattle.oss_model.specs.Bodies.Ask.{Print};
ghost use Rattle.oss_meaning.specs.Pointers.{number_in};
ghost use Rattle.oss_machine.specs.Outcomes.{IsAskedAnywhere};
ghost use Rattle.oss_machine.specs.Steps.{Effect, onward, with_arguments};

use crate::activation::Activation;
use crate::ask::Ask;
use crate::instructions::stack::arguments;
use oss_grammar::{Piece, write_pieces};
use oss_meaning::Value;
use oss_syntax::Bytes;
use oss_values::number_in;
use std::alloc::{AllocError, Global};

/// The numbers that some values are.
fn numbers(alloc: Global, values: &[Value]) -> Result<Vec<u64>, AllocError>
    ensures { IfOk result (λ found. found.items ≡ map number_in values.now) }
{
    let mut found = Vec::new(alloc);
    for value in values {
        found.push(number_in(*value))?;
    }
    Ok(found)
}

/// The ask for a print of the pieces of a string with so many numbers.
pub(crate) fn print(
    alloc: Global,
    frame: &Activation,
    pieces: &[Piece],
    count: u32,
) -> Result<Ask, AllocError>
    ensures { IsAskedAnywhere (λ f. with_arguments count f.stack (λ vs rest.
        Effect.Asks (Print (written_pieces pieces.now (map number_in vs))) (λ t. onward rest f))) frame.now result }
{
    let values = numbers(alloc, arguments(frame.stack.as_slice(), count as usize))?;
    let mut text = Vec::new(alloc);
    write_pieces(alloc, pieces, values.as_slice(), &mut text)?;
    Ok(Ask::Print(Bytes::from_vec(text)))
}
