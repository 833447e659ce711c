//! What clauses give, worked out before anything is judged by it.
ghost use Rattle.std.specs.Prelude.{IfOk};
ghost use Rattle.oss_judge.specs.Given.{IsGiven};

use crate::given::join_all;
use crate::right::Right;
use oss_ranges::RangeMap;
use oss_syntax::{Access, List};
use std::alloc::{AllocError, Global};

/// The rights that clauses give, and whether two of the clauses cannot be joined. To work them out takes
/// memory; what is judged by them then takes none.
pub struct Given {
    pub(crate) rights: RangeMap<Right>,
    pub(crate) is_mixed: bool,
}

// By hand, so that who lets one go calls this, and does not take it apart at each exit.
impl Drop for Given {
    fn drop(self) {
        let Given {
            rights,
            is_mixed: _,
        } = self;
        drop(rights);
    }
}

impl Given {
    /// What these clauses give to a task, final or not: to a final one a weak access counts as strong. Where
    /// memory is wanting nothing has happened.
    pub fn of(alloc: Global, clauses: &List<Access>, is_final: bool) -> Result<Given, AllocError>
        ensures { IfOk result (λ given. IsGiven is_final clauses.now given) }
    {
        let mut rights = RangeMap::new(alloc);
        match join_all(&mut rights, clauses.as_slice(), is_final) {
            Ok(is_mixed) => Ok(Given { rights, is_mixed }),
            Err(full) => Err(full),
        }
    }
}
