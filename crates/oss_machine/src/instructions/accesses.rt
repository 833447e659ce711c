//! The accesses that clauses declare.
ghost use Rattle.std.specs.Prelude.{◌≡◌, ◌++◌, IfOk, OnOk, List, map};
ghost use Rattle.oss_meaning.specs.Sections.{declared_on};
ghost use Rattle.oss_meaning.specs.Clauses.{waited_for};
ghost use Rattle.oss_machine.specs.Activations.{base_in, made_on};
ghost use Rattle.oss_machine.specs.Steps.{named_in};

use crate::activation::{Activation, Gathered};
use oss_meaning::Declared;
use oss_syntax::{Access, List, Range};
use std::alloc::{AllocError, Global};

/// Adds what a clause declares of the cells of these ranges.
pub(crate) fn declare(
    accesses: &mut Vec<Access>,
    declared: Declared,
    ranges: &[Range],
) -> Result<(), AllocError>
    ensures { OnOk result (accesses.new.items ≡ accesses.old.items ++ declared_on declared ranges.now) }
{
    for range in ranges {
        accesses.push(Access {
            range: *range,
            mode: declared.mode,
            strong: declared.strong,
            fresh: declared.fresh,
        })?;
    }
    Ok(())
}

/// The accesses that a directive has declared so far: those before, where they are added to, and then those since.
pub(crate) fn all_accesses(
    alloc: Global,
    base: &Gathered,
    frame: &Activation,
) -> Result<List<Access>, AllocError>
    ensures { IfOk result (λ all. all ≡ (made_on (base_in base.now) frame.now).accesses) }
{
    let mut all = Vec::new(alloc);
    if frame.adds_accesses {
        all.extend_from_slice(base.accesses.as_slice())?;
    }
    all.extend_from_slice(frame.gathered.accesses.as_slice())?;
    Ok(List::from_vec(all))
}

/// Adds the ranges of accesses.
fn add_named(named: &mut Vec<Range>, accesses: &[Access]) -> Result<(), AllocError>
    ensures { OnOk result (named.new.items ≡ named.old.items ++ map (λ (a : Access). a.range) accesses.now) }
{
    for access in accesses {
        named.push(access.range)?;
    }
    Ok(())
}

/// The ranges that a directive names.
pub(crate) fn all_named(
    alloc: Global,
    base: &Gathered,
    frame: &Activation,
) -> Result<List<Range>, AllocError>
    ensures { IfOk result (λ all. declared_on waited_for all ≡ named_in (made_on (base_in base.now) frame.now)) }
{
    let mut named = Vec::new(alloc);
    if frame.adds_accesses {
        add_named(&mut named, base.accesses.as_slice())?;
    }
    add_named(&mut named, frame.gathered.accesses.as_slice())?;
    Ok(List::from_vec(named))
}
