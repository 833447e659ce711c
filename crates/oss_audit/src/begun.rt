//! A task that has begun and has not ended.

ghost use Rattle.std.specs.Prelude.{◌≡◌, ◌<◌, ℕ, length, IfOk, OnOk};
ghost use Rattle.oss_model.specs.Context.{in_clauses};
ghost use Rattle.oss_pieces.specs.CellSets.{has};

use crate::runs::unused_runs;
use crate::unused::Unused;
use oss_code::TaskOrder;
use oss_model::Point;
use oss_pieces::CellSet;
use oss_syntax::{Access, List};
use std::alloc::{AllocError, Global};

/// A task that has begun and has not ended: the one that acts, or one above it.
#[derive(Drop)]
pub(crate) struct Begun {
    pub(crate) point: Point,
    /// How many tasks it has created.
    pub(crate) created: u16,
    /// The cells that its clauses name.
    pub(crate) declared: CellSet,
    /// The cells that it has touched itself, and those that the tasks below it have which have ended.
    pub(crate) touched: CellSet,
    /// What is told of the tasks below it that have ended.
    pub(crate) told: Vec<Unused>,
}

impl Begun {
    ghost use Rattle.oss_audit.specs.Watches.{IsChild, IsFirst, IsTaken};

    /// Main. No clause says anything of it.
    pub(crate) fn main(alloc: Global) -> Result<Begun, AllocError>
        ensures { IfOk result (λ main. IsFirst main) }
    {
        Ok(Begun {
            point: Point::main(alloc)?,
            created: 0,
            declared: CellSet::new(alloc),
            touched: CellSet::new(alloc),
            told: Vec::new(alloc),
        })
    }

    /// The next task that this one creates, as it begins.
    pub(crate) fn child(&self, alloc: Global, order: &TaskOrder) -> Result<Begun, AllocError>
        requires { length self.now.point < 66 }
        ensures { IfOk result (λ child. IsChild self.now order.now.accesses child) }
    {
        let touched = CellSet::new(alloc);
        Ok(Begun {
            point: self.point.child(self.created)?,
            created: 0,
            declared: named_by(alloc, order.accesses.as_slice())?,
            touched,
            told: Vec::new(alloc),
        })
    }

    /// A task that this one created has ended: what it left unused is told, and what it has touched counts for
    /// this one too.
    pub(crate) fn take(&mut self, alloc: Global, child: &mut Begun) -> Result<(), AllocError>
        ensures { OnOk result (IsTaken self.old child.old self.new) }
    {
        let mut own = unused_runs(alloc, &child.point, &child.declared, &child.touched)?;
        self.told.append(&mut own)?;
        self.told.append(&mut child.told)?;
        self.touched.add_all(&child.touched)
    }

    /// What is told of the tasks below it.
    pub(crate) fn told(self) -> List<Unused>
        ensures { result ≡ self.told.items }
    {
        let Begun { told, .. } = self;
        List::from_vec(told)
    }
}

/// The cells that these accesses name.
fn named_by(alloc: Global, accesses: &[Access]) -> Result<CellSet, AllocError>
    ensures { IfOk result (λ cells. (c : ℕ) → has cells c ≡ in_clauses accesses.now c) }
{
    let mut cells = CellSet::new(alloc);
    for access in accesses {
        cells.add(access.range)?;
    }
    Ok(cells)
}
