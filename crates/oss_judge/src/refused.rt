//! Why the judge refuses: the task has a fault, or memory is wanting, which says nothing of the task.
ghost use Rattle.std.specs.Prelude.{◌≡◌, IfErr, None, OnOk};
ghost use Rattle.std.specs.Result.{result_err};
ghost use Rattle.oss_judge.specs.Refusal.{IsRefusal};
ghost use Rattle.oss_judge.specs.declared.refused.JudgeRefused.TheVariants.{Fault, Memory};

use oss_model::FaultKind;
use std::alloc::AllocError;
use thiserror::Error;

/// Why a context did not do what it was asked.
#[derive(Debug, Drop, Error)]
pub enum JudgeRefused {
    /// The judge finds this fault.
    #[error("the task has a fault")]
    Fault(FaultKind),
    /// Memory is wanting.
    #[error("out of memory")]
    Memory(AllocError),
}

impl From<AllocError> for JudgeRefused {
    ghost from_gives = { λ full refused. refused ≡ Memory full };

    fn from(full: AllocError) -> JudgeRefused {
        JudgeRefused::Memory(full)
    }
}

impl From<FaultKind> for JudgeRefused {
    ghost from_gives = { λ kind refused. refused ≡ Fault kind };

    fn from(kind: FaultKind) -> JudgeRefused {
        JudgeRefused::Fault(kind)
    }
}

/// An answer that takes no memory, as one of a call that does.
pub(crate) fn refused_by(answer: Result<(), FaultKind>) -> Result<(), JudgeRefused>
    ensures allowed { OnOk result (result_err answer ≡ None) }
    ensures refused { IfErr result (IsRefusal (result_err answer)) }
{
    match answer {
        Ok(()) => Ok(()),
        Err(kind) => Err(JudgeRefused::Fault(kind)),
    }
}
