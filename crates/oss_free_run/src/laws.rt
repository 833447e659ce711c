//! What holds of the free run of every code: laws, each carried by a function that does nothing.

ghost use Rattle.oss_free_run.specs.Claims.{CodesLeaveClauses, FreeRunsNeedNoClauses};

/// No code asks for a fault of annotations: it leaves these to the judge.
pub fn codes_leave_clauses()
    ensures { CodesLeaveClauses }
{}

/// The free run of a code that touches its own cells alone has none of them.
pub fn free_runs_need_no_clauses()
    ensures { FreeRunsNeedNoClauses }
{}
