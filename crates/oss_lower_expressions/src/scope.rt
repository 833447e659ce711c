//! The locals in scope.
ghost use Rattle.std.specs.Prelude.{◌≡◌, ◌∷◌, ◌++◌, ◌≤◌, ◌<◌, [], length, take, IfOk, OnErr, OnOk, map};
ghost use Rattle.oss_meaning.specs.Names.{local_from};

use oss_meaning::Found;
use oss_syntax::Local;
use std::alloc::{AllocError, Global};
use std::marker::Model;

/// The locals in scope, the last one declared at the end: contracts see their list. They are at most 2^32 - 1.
#[derive(Drop)]
pub struct Scope<'p> {
    locals: Vec<&'p Local>,
}

impl<'p> Model for Scope<'p> {
    ghost use Rattle.std.specs.Prelude.{◌≤◌, List, length, map};
    ghost use Rattle.oss_syntax.specs.declared.tree.program.Local.{Local};
    ghost use Rattle.std.specs.Coded.{coded_list};
    ghost use Rattle.oss_syntax.specs.contracts.tree.program.Local as local;

    ghost Value = { List Local };

    ghost coded = { coded_list local.the_row.coded };

    ghost view = { λ s. map (λ l. l.now) s.locals.items };

    ghost invariant = { λ s. length s.locals.items ≤ 4294967295 };
}

impl<'p> Scope<'p> {
    /// No locals, which takes no memory.
    pub fn none(alloc: Global) -> Scope<'p>
        ensures { result ≡ [] }
    {
        Scope {
            locals: Vec::new(alloc),
        }
    }

    /// How many locals there are.
    pub fn len(&self) -> u32
        ensures { result ≡ length self.now }
    {
        self.locals.len() as u32
    }

    /// Declares a local, which takes memory. Where that is wanting, and where there are 4,294,967,295 locals, they stay.
    pub fn declare(&mut self, local: &'p Local) -> Result<(), AllocError>
        ensures declared { OnOk result (self.new ≡ self.old ++ local.now ∷ []) }
        ensures stays { OnErr result (self.new ≡ self.old) }
    {
        if self.locals.len() >= 4294967295 {
            return Err(AllocError);
        }
        self.locals.push(local)?;
        Ok(())
    }

    /// The same locals, and one more behind them.
    pub fn with(&self, local: &'p Local) -> Result<Scope<'p>, AllocError>
        ensures { IfOk result (λ scope. scope ≡ self.now ++ local.now ∷ []) }
    {
        let mut scope = Scope {
            locals: self.locals.clone()?,
        };
        scope.declare(local)?;
        Ok(scope)
    }

    /// Leaves a scope: the first so many locals stay.
    #[tactic(auto, using(crate::proofs::ListingLemmas::shorter))]
    pub fn leave(&mut self, count: u32)
        ensures { self.new ≡ take count self.old }
    {
        self.locals.truncate(count as usize);
    }

    /// The last of the locals that has this name.
    #[tactic(auto, using(crate::proofs::ListingLemmas::none_left))]
    pub fn find(&self, name: &[u8]) -> Found
        ensures { result ≡ local_from 0 self.now name.now }
    {
        let mut found = Found::Unknown;
        let mut slot = 0u32;
        let locals = self.locals.as_slice();
        for local in locals {
            if local.name.as_slice() == name {
                found = Found::Variable(slot, local.kind);
            }
            slot += 1;
        }
        found
    }
}
