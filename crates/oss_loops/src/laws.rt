//! A law of what writing out task loops keeps, with nothing to run.

ghost use Rattle.oss_loops.specs.Keeping.{Keeps};

use oss_syntax::Program;

/// Writing out task loops keeps the globals of a program, their names and their sizes.
pub fn writing_out_keeps(program: &Program)
    ensures { Keeps program.now }
{}
