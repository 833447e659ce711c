//! The names of the locals of a task loop written out. They begin with `$`, as no name of a text does.
ghost use Rattle.std.specs.Prelude.{◌≡◌, IfOk};
ghost use Rattle.oss_grammar.specs.TaskLoops.{begin_name, end_name, grain_name, stop_name};

use oss_syntax::Name;
use std::alloc::{AllocError, Global};

/// Where the next task begins.
pub(crate) fn name_of_begin(alloc: Global) -> Result<Name, AllocError>
    ensures { IfOk result (λ name. name ≡ begin_name) }
{
    Name::from_slice(alloc, b"$c")
}

/// Where the loop ends.
pub(crate) fn name_of_end(alloc: Global) -> Result<Name, AllocError>
    ensures { IfOk result (λ name. name ≡ end_name) }
{
    Name::from_slice(alloc, b"$u")
}

/// How many turns a task makes.
pub(crate) fn name_of_grain(alloc: Global) -> Result<Name, AllocError>
    ensures { IfOk result (λ name. name ≡ grain_name) }
{
    Name::from_slice(alloc, b"$g")
}

/// Where the task of this round ends.
pub(crate) fn name_of_stop(alloc: Global) -> Result<Name, AllocError>
    ensures { IfOk result (λ name. name ≡ stop_name) }
{
    Name::from_slice(alloc, b"$e")
}
