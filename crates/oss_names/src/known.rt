//! Programs that break no rule.
ghost use Rattle.std.specs.Prelude.{◌≡◌, ◌+◌, ◌<◌, ◌≤◌, [], length};
ghost use Rattle.oss_grammar.specs.Layout.{cells_in, sizes_of, start_of, names_of};
ghost use Rattle.oss_grammar.specs.ProgramRules.{program_rules};
ghost use Rattle.oss_names.specs.Resolved.{IsResolved, IsWrittenOut, bounds_of};

use crate::program::check;
use oss_loops::write_out;
use oss_syntax::{Program, Range, Refusal};
use std::alloc::Global;
use std::marker::Model;

/// A program that breaks no static rule, with each task loop written out, and where its globals lie: contracts
/// see the program that is written out.
#[derive(Drop)]
pub struct Known {
    program: Program,
    bounds: Vec<u32>,
}

impl Model for Known {
    ghost use Rattle.std.specs.Prelude.{◌≡◌, []};
    ghost use Rattle.oss_syntax.specs.declared.tree.program.Program.{Program};
    ghost use Rattle.oss_syntax.specs.contracts.tree.program.Program as tree;
    ghost use Rattle.oss_grammar.specs.Layout.{sizes_of};
    ghost use Rattle.oss_names.specs.Resolved.{IsWrittenOut, bounds_of};

    ghost Value = { Program };

    ghost coded = { tree.the_row.coded };

    ghost view = { λ k. k.program };

    ghost invariant = { λ k. IsWrittenOut k.program × (k.bounds.items ≡ bounds_of 0 (sizes_of k.program.items)) };
}

/// Checks the static rules of a program as it stands. It is accepted exactly where it breaks none, and then
/// each task loop in it is written out; else the first rule that it breaks is told, in text order, with the
/// line of the token that breaks it. It takes memory for the names of its globals and functions, for the locals
/// in scope, for the places of its globals, and for what is written out.
pub fn resolve(alloc: Global, program: Program) -> Result<Known, Refusal>
    ensures { IsResolved program result }
{
    match check(alloc, &program) {
        Ok(bounds) => kept(alloc, program, bounds),
        Err(refusal) => Err(refusal),
    }
}

/// What is known of a program that breaks no rule. Want of memory is the one refusal.
fn kept(alloc: Global, program: Program, bounds: Vec<u32>) -> Result<Known, Refusal>
    requires obeys { program_rules program ≡ [] }
    requires lie { bounds.items ≡ bounds_of 0 (sizes_of program.items) }
    ensures { IsResolved program result }
{
    match write_out(alloc, program) {
        Ok(program) => Ok(Known { program, bounds }),
        Err(full) => Err(Refusal::Memory(full)),
    }
}

impl Known {
    /// The program with each task loop written out, of one that breaks no rule as it stands. So it has at most
    /// 1,048,576 globals, since each has a cell.
    pub fn program(&self) -> &Program
        ensures same { result.now ≡ self.now }
        ensures accepted { IsWrittenOut result.now }
        ensures few { length (names_of result.now.items) ≤ 1048576 }
    {
        &self.program
    }

    /// How many globals there are, scalars and arrays.
    pub fn globals(&self) -> u32
        ensures { result ≡ length (sizes_of self.now.items) }
    {
        (self.bounds.len() - 1) as u32
    }

    /// How many cells the globals have in all.
    pub fn cells(&self) -> u32
        ensures { result ≡ cells_in self.now.items }
    {
        self.bounds[self.bounds.len() - 1]
    }

    /// The cells of the global with this number, counted from 0 in text order. Condition: it is less than `globals`.
    pub fn place(&self, global: u32) -> Range
        requires { global < length (sizes_of self.now.items) }
        ensures begins { result.lo ≡ start_of self.now.items global }
        ensures ends { result.hi ≡ start_of self.now.items (global + 1) }
    {
        let at = global as usize;
        Range {
            lo: self.bounds[at],
            hi: self.bounds[at + 1],
        }
    }
}
