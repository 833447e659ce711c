//! What is in scope at a place.
ghost use Rattle.std.specs.Prelude.{◌≡◌, ◌∷◌, ◌++◌, [], take};
ghost use Rattle.oss_grammar.specs.Scopes.{local_kind};

use crate::locals::Locals;
use oss_syntax::{Kind, Local};
use std::marker::Model;

/// Which locals are in scope, of some that are declared.
#[derive(Drop)]
enum Part<'s> {
    /// All of them.
    All,
    /// All of them, and this one behind them.
    With(&'s Local),
    /// So many of the first.
    First(usize),
}

/// The locals in scope at a place: contracts see their list.
#[derive(Drop)]
pub struct Scope<'s, 'p> {
    locals: &'s Locals<'p>,
    part: Part<'s>,
}

impl<'s, 'p> Model for Scope<'s, 'p> {
    ghost use Rattle.std.specs.Prelude.{List};
    ghost use Rattle.oss_syntax.specs.declared.tree.program.Local.{Local};
    ghost use Rattle.std.specs.Coded.{coded_list};
    ghost use Rattle.oss_syntax.specs.contracts.tree.program.Local as local;
    ghost use Rattle.oss_types.specs.Tables.{part_of};

    ghost Value = { List Local };

    ghost coded = { coded_list local.the_row.coded };

    ghost view = { λ s. part_of s.part s.locals.now };
}

impl<'s, 'p> Scope<'s, 'p> {
    /// All locals.
    pub fn all(locals: &'s Locals<'p>) -> Scope<'s, 'p>
        ensures { result ≡ locals.now }
    {
        Scope {
            locals,
            part: Part::All,
        }
    }

    /// All locals, and one more, which takes no memory.
    pub fn with(locals: &'s Locals<'p>, local: &'s Local) -> Scope<'s, 'p>
        ensures { result ≡ locals.now ++ local.now ∷ [] }
    {
        Scope {
            locals,
            part: Part::With(local),
        }
    }

    /// The first so many locals.
    pub fn first(locals: &'s Locals<'p>, count: usize) -> Scope<'s, 'p>
        ensures { result ≡ take count locals.now }
    {
        Scope {
            locals,
            part: Part::First(count),
        }
    }

    /// The type of the local that this name stands for; `None` where no local has it.
    #[tactic(auto, using(crate::proofs::ParameterLemmas::pushes))]
    pub fn kind(&self, name: &[u8]) -> Option<Kind>
        ensures { result ≡ local_kind self.now name.now }
    {
        match &self.part {
            Part::All => self.locals.kind(name),
            Part::With(local) => {
                if local.name.as_slice() == name {
                    Some(local.kind)
                } else {
                    self.locals.kind(name)
                }
            }
            Part::First(count) => self.locals.kind_outside(*count, name),
        }
    }
}
