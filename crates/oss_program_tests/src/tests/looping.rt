//! What no clause says: that each public call answers where there is memory, and that the block is that of the
//! worked example. Its parts are compared one by one with those of the block as it is written by hand. Each
//! tree dies by a call of `drop`.

mod facts;
mod made;
mod parts;

use facts::{assert_block_of_squares, assert_rounds};
use made::{boxed, head, program, square};
use oss_loops::{write_out, writing_out_keeps, written};
use oss_syntax::{Program, Stmt};
use parts::{body, count, function, other_branch, statement, turns};
use std::process::Abort;

#[test]
fn a_loop_in_two_tasks(rt: HostRuntime) {
    let alloc = rt.alloc();
    let square = boxed(&rt, alloc, square(&rt, alloc));
    let block = written(alloc, 1, head(&rt, alloc), square).expect(&rt, "memory for a block");
    assert_block_of_squares(&rt, &block);
    drop(block);
}

/// In `main` stand a block with an `if`, whose other branch is the loop, and a loop whose statement is the loop.
fn assert_written_out(rt: &impl Abort, program: &Program) {
    assert_eq!(rt; program.items.len(), 2);
    let list = function(rt, program, 1).body.as_slice();
    assert_eq!(rt; list.len(), 2);
    assert_eq!(rt; count(rt, &list[0]), 1);
    assert_block_of_squares(rt, other_branch(rt, statement(rt, &list[0], 0)));
    assert_rounds(rt, &list[1]);
    assert_block_of_squares(rt, inner(rt, &list[1]));
}

/// The statement of a loop that is written out.
fn inner<'a>(rt: &impl Abort, block: &'a Stmt) -> &'a Stmt {
    body(rt, turns(rt, block))
}

#[test]
fn a_program_with_loops_inside(rt: HostRuntime) {
    let alloc = rt.alloc();
    let program = program(&rt, alloc);
    writing_out_keeps(&program);
    let program = write_out(alloc, program).expect(&rt, "memory for a program");
    assert_written_out(&rt, &program);
    drop(program);
}
