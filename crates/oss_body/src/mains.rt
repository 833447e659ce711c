//! The body of main.
ghost use Rattle.std.specs.Prelude.{◌≡◌, ◌≤◌, [], length, IfOk};
ghost use Rattle.oss_machine.specs.Asks.{meant_order};
ghost use Rattle.oss_model.specs.Agreement.{AreWords, Setting};
ghost use Rattle.oss_body.specs.Mains.{code_main, main_order as main_order_of_code};
ghost use Rattle.oss_body.specs.Relation.{IsBody};

use crate::body::Body;
use oss_code::{Code, TaskOrder};
use oss_judge::Context;
use oss_model::Point;
use oss_syntax::List;
use std::alloc::{AllocError, Global};

/// The body of main at its start: it begins at the first instruction, may write each cell of the code, and has
/// this much fuel, as has each other task. Want of memory is the one error. Condition: the code has at most
/// 1,048,576 cells.
pub fn main_body(alloc: Global, code: &Code, fuel: u32) -> Result<Body, AllocError>
    requires { length code.now.first ≤ 1048576 }
    ensures { IfOk result (λ body. IsBody code.now (code_main code.now fuel) [] body) }
{
    let order = main_order(alloc);
    let cells = code.first().as_slice().len() as u32;
    let context = Context::main(alloc, cells, fuel)?;
    let point = Point::main(alloc)?;
    Body::start(alloc, code, &order, context, point)
}

/// A fact alone: main may start over the cells of a code, since they are numbers of 64 bits.
pub fn main_is_set(code: &Code, fuel: u32)
    ensures { Setting (code_main code.now fuel) code.now.first }
{
    are_words(code.first().as_slice());
}

/// A fact alone: a number of 64 bits is one.
fn are_words(cells: &[u64])
    ensures { AreWords cells.now }
{}

/// What main is to run.
fn main_order(alloc: Global) -> TaskOrder
    ensures { meant_order result ≡ main_order_of_code }
{
    TaskOrder {
        entry: 0,
        copies: List::new(alloc),
        accesses: List::new(alloc),
        when: true,
        last: false,
        wait: false,
        priority: 0,
    }
}
