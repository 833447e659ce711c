//! Whether links are a chain of a code's run.

ghost use Rattle.std.specs.Prelude.{◌≡◌, ◌≤◌, ◌&&◌, ◌↔◌, length, IsTrue, IfOk};
ghost use Rattle.oss_span_check.specs.Certified.{IsCertified};
ghost use Rattle.oss_span_check.specs.Holding.{is_told};
ghost use Rattle.oss_span_check.specs.Recording.{IsEndRecorded, IsRecording};

use crate::links::is_told;
use crate::record::Record;
use crate::watch::Watch;
use oss_code::Code;
use oss_serial::{Stage, Turned, begin};
use oss_span::Link;
use oss_syntax::List;
use std::alloc::{AllocError, Global};

/// Whether links are a chain of a code's sequential run, each task with fuel for so many ticks, and have so
/// many ticks. The answer is exact: true where the run comes to its end, the links stand for events of it that
/// each wait for the one before, and so many of these are ticks, a number that stays at its greatest value;
/// false else, also where a fault stops the run, or a link of acts has none, or one behind the first
/// 18,446,744,073,709,551,615 of its task, which is no event. No links are a chain without ticks. Want of
/// memory is the one other answer. The run is made once and noted, which takes memory for each tick, wait,
/// release and end, and for each task; then each link is looked up in the notes. Condition: the code has at
/// most 1,048,576 cells.
pub fn check_chain(
    alloc: Global,
    code: &Code,
    fuel: u32,
    chain: &List<Link>,
    ticks: u64,
) -> Result<bool, AllocError>
    requires { length code.now.first ≤ 1048576 }
    ensures { IfOk result (λ told. IsTrue told ↔ IsCertified code.now fuel chain.now ticks) }
{
    let watch = Watch::new(alloc);
    match begin(alloc, code, fuel) {
        Ok(stage) => check_from(code, fuel, stage, watch, chain, ticks),
        Err(error) => Err(error),
    }
}

/// The check from the beginning of the run on.
fn check_from(
    code: &Code,
    fuel: u32,
    mut stage: Stage,
    mut watch: Watch,
    chain: &List<Link>,
    ticks: u64,
) -> Result<bool, AllocError>
    requires { IsRecording code.now fuel stage watch }
    ensures { IfOk result (λ told. IsTrue told ↔ IsCertified code.now fuel chain.now ticks) }
{
    match follow(code, fuel, &mut stage, &mut watch) {
        Ok(ended) => Ok(told(ended, &watch.recorded, chain.as_slice(), ticks)),
        Err(error) => Err(error),
    }
}

/// Whether main is done, and links are a chain with so many ticks.
fn told(ended: bool, noted: &Record, links: &[Link], ticks: u64) -> bool
    ensures { result ≡ (ended && is_told noted.now links.now ticks) }
{
    ended && is_told(noted, links, ticks)
}

/// Follows the run until it is over; whether main is done then.
fn follow(code: &Code, fuel: u32, stage: &mut Stage, watch: &mut Watch) -> Result<bool, AllocError>
    requires { IsRecording code.now fuel stage.old watch.old }
    ensures { IfOk result (λ ended. IsEndRecorded code.now fuel watch.new.recorded ended) }
{
    'turns: loop {
        let depth = stage.above.len();
        watch.note(stage.current.pending(), &stage.current)?;
        match stage.turn(code)? {
            Turned::On => watch.follow(depth, stage.above.len(), &stage.current)?,
            Turned::Ended => return Ok(true),
            Turned::Failed(_, _) => return Ok(false),
        }
    }
}
