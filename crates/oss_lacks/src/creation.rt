//! How open tasks were created.

ghost use Rattle.std.specs.Prelude.{◌≡◌, ◌<◌, ◌++◌, ◌∷◌, [], length, IfOk};

use crate::lacks::TaskLacks;
use oss_code::TaskOrder;
use oss_model::Point;
use oss_syntax::{Access, List};
use oss_task_needs::Mending;
use std::alloc::{AllocError, Global};

/// How an open task was created. It is told at the end of the task.
pub(crate) struct Creation {
    /// So many tasks were created before it. Of main it says nothing.
    pub(crate) number: usize,
    pub(crate) point: Point,
    /// The line of its creation; 0 of main.
    pub(crate) line: u32,
    /// The clauses of its creation, in text order.
    pub(crate) clauses: List<Access>,
    /// It is final, or a final task created it.
    pub(crate) is_final: bool,
}

// By hand, so that who lets one go calls this, and does not take it apart at each exit.
impl Drop for Creation {
    fn drop(self) {
        let Creation {
            number: _,
            point,
            line: _,
            clauses,
            is_final: _,
        } = self;
        drop(point);
        drop(clauses);
    }
}

impl Creation {
    ghost use Rattle.oss_lacks.specs.Asking.{main};
    ghost use Rattle.oss_lacks.specs.Following.{IsCreation, told_of};

    /// No clause says anything of main.
    pub(crate) fn main(alloc: Global) -> Result<Creation, AllocError>
        ensures { IfOk result (IsCreation (record { number = 0; task = main })) }
    {
        let point = Point::main(alloc)?;
        Ok(Creation {
            number: 0,
            point,
            line: 0,
            clauses: List::new(alloc),
            is_final: false,
        })
    }

    /// A task that this one creates after `created` others, by an order on a line. So many were created before it in all.
    pub(crate) fn child(
        &self,
        alloc: Global,
        number: usize,
        created: u32,
        line: u32,
        order: &TaskOrder,
        is_final: bool,
    ) -> Result<Creation, AllocError>
        requires room { length self.now.point < 66 }
        requires few { created < 65536 }
        ensures { IfOk result (λ child. child ≡ record {
          number = number;
          point = self.now.point ++ created ∷ [];
          line = line;
          clauses = order.now.accesses;
          is_final = is_final;
        }) }
    {
        let clauses = List::from_vec(Vec::from_slice(alloc, order.accesses.as_slice())?);
        let point = self.point.child(created as u16)?;
        Ok(Creation {
            number,
            point,
            line,
            clauses,
            is_final,
        })
    }

    /// What is told of the task, whose clauses lack this.
    pub(crate) fn told(self, mending: Mending) -> TaskLacks
        ensures { result ≡ told_of self mending }
    {
        let Creation {
            number: _,
            point,
            line,
            clauses,
            is_final,
        } = self;
        TaskLacks {
            task: point,
            line,
            clauses,
            is_final,
            mending,
        }
    }
}
