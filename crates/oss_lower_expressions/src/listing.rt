//! The instructions that are written so far.
ghost use Rattle.std.specs.Prelude.{◌≡◌, ◌+◌, ◌<◌, ◌^◌, ◌∷◌, ◌++◌, List, [], length, take, IfOk, IsOk, OnOk};
ghost use Rattle.oss_lower_laws.specs.declared.lined.Lined.{Lined as Written};
ghost use Rattle.oss_lower_laws.specs.ExpressionCode.{one};
ghost use Rattle.oss_lower_expressions.specs.Jumps.{jump_by};
ghost use Rattle.oss_lower_expressions.specs.declared.listing.Jump.TheVariants.{Always as AlwaysMade};

use crate::numbers::{deeper, narrow};
use oss_code::Instr;
use oss_lower_laws::Lined;
use std::alloc::{AllocError, Global};
use std::marker::Model;

/// A jump whose length is told once what it passes is written.
#[derive(Clone, Copy)]
pub enum Jump {
    /// It is made always.
    Always,
    /// It is made where a number is 0.
    Unless,
    /// It is made where a multidependency has no turn.
    NoTurn,
}

/// The instruction of a jump that passes so many instructions.
fn jump_by(jump: Jump, passed: u32) -> Instr
    ensures { result ≡ jump_by jump passed }
{
    match jump {
        Jump::Always => Instr::Skip(passed),
        Jump::Unless => Instr::SkipUnless(passed),
        Jump::NoTurn => Instr::Turns(passed),
    }
}

/// Instructions in their order: contracts see their list.
pub struct Listing {
    code: Vec<Lined>,
}

// By hand, so that who lets one go calls this, and does not take it apart at each exit.
impl Drop for Listing {
    fn drop(self) {
        let Listing { code } = self;
        drop(code);
    }
}

impl Model for Listing {
    ghost use Rattle.std.specs.Prelude.{List};
    ghost use Rattle.oss_lower_laws.specs.declared.lined.Lined.{Lined};
    ghost use Rattle.std.specs.Coded.{coded_list};
    ghost use Rattle.oss_lower_laws.specs.contracts.lined.Lined as lined;

    ghost Value = { List Lined };

    ghost coded = { coded_list lined.the_row.coded };

    ghost view = { λ l. l.code.items };
}

impl Listing {
    /// No instructions, which takes no memory.
    pub fn new(alloc: Global) -> Listing
        ensures { result ≡ [] }
    {
        Listing {
            code: Vec::new(alloc),
        }
    }

    /// How many instructions there are.
    pub fn len(&self) -> usize
        ensures { result ≡ length self.now }
    {
        self.code.len()
    }

    /// Writes an instruction on a line, behind so many values.
    pub fn push(&mut self, what: Instr, line: u32, depth: u32) -> Result<(), AllocError>
        ensures { OnOk result (self.new ≡ self.old ++ one line depth what) }
    {
        self.code.push(Lined { what, line, depth })?;
        Ok(())
    }

    /// Lets the jump at a place pass all instructions that are written behind it, and so many more. It takes no memory,
    /// and succeeds where there are fewer than 4,294,967,296 instructions with those.
    #[tactic(auto, using(crate::proofs::ListingLemmas::put))]
    pub fn fill(&mut self, at: usize, jump: Jump, more: u32) -> Result<(), AllocError>
        requires { at < length self.old }
        ensures filled { OnOk result ((before after : List Written) (l : Written) → self.old ≡ before ++ (l ∷ after) →
            at ≡ length before → self.new ≡ before ++
            (one l.line l.depth (jump_by jump (length after + more)) ++ after)) }
        ensures fits { length self.old + more < 2 ^ 32 → IsOk result }
    {
        let passed = deeper(narrow(self.code.len() - (at + 1))?, more)?;
        self.code[at].what = jump_by(jump, passed);
        Ok(())
    }

    /// Lets the first instruction, a jump that is made always, pass so many.
    pub fn lead(&mut self, passed: u32)
        requires { 0 < length self.old }
        ensures { (l : Written) (rest : List Written) → self.old ≡ l ∷ rest →
            self.new ≡ one l.line l.depth (jump_by AlwaysMade passed) ++ rest }
    {
        self.code[0].what = Instr::Skip(passed);
    }

    /// Takes the instructions away behind the first so many.
    pub fn truncate(&mut self, count: usize)
        ensures { self.new ≡ take count self.old }
    {
        self.code.truncate(count);
    }

    /// The instructions, in their vector.
    pub fn into_vec(self) -> Vec<Lined>
        ensures { result.items ≡ self }
    {
        let Listing { code } = self;
        code
    }
}
