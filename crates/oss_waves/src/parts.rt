//! The parts of a wave, made on threads.

ghost use Rattle.std.specs.Prelude.{◌≤◌, length, IfOk};
ghost use Rattle.oss_body.specs.declared.body.Body.{Body as Kept};
ghost use Rattle.oss_model.specs.Order.{IsIn};
ghost use Rattle.oss_segment.specs.Segments.{IsKnown};
ghost use Rattle.oss_thread_groups.specs.Groups.{AreGiven};
ghost use Rattle.oss_core.specs.Turns.{ArePartsOf, IsPartOf};
ghost use Rattle.oss_waves.specs.Readies.{IsReady};

use crate::team::Team;
use oss_code::Code;
use oss_io::Gate;
use oss_kept_tasks::BoxedBody;
use oss_segment::{Ready, Segment};
use oss_thread_groups::{Work, in_groups};
use std::alloc::{AllocError, Global};
use std::thread::Threads;

/// A task does so many ticks in one wave at most.
const QUOTA: u32 = 4096;

/// What all workers of a wave share: the memory at its beginning, and the gate before the first step of each task.
#[derive(Drop)]
struct Beginning<'a, G> {
    alloc: Global,
    memory: &'a [u64],
    gate: &'a G,
    ghost room: { length memory.now ≤ 1048576 },
}

impl<'a, G: Gate> Work<Ready<'a>, Segment> for Beginning<'a, G> {
    ghost gives = { λ work ready part. IsPartOf ready.code.now work.memory.now ready.body part };

    fn run(&self, worker: u32, job: Ready<'a>) -> Result<Segment, AllocError> {
        if !job.body.begun() {
            self.gate.pass(worker, job.body.point().as_slice());
        }
        job.part(self.alloc, self.memory, QUOTA)
    }
}

/// Bodies that stand before their parts, with their code.
fn ready<'a>(
    alloc: Global,
    code: &'a Code,
    bodies: Vec<BoxedBody>,
) -> Result<Vec<Ready<'a>>, AllocError>
    requires { (b : Kept) → IsIn b bodies.items → IsKnown code.now b }
    ensures { IfOk result (λ all. AreGiven (IsReady code.now) bodies.items all.items) }
{
    let mut all = Vec::new(alloc);
    for body in bodies {
        all.push(Ready { code, body })?;
    }
    Ok(all)
}

/// The parts of bodies, one after the other, as the first worker makes them: a list of jobs, groups of these and
/// what was made of each group would be three lists more. Want of memory is the one error.
fn parts_in_turn<'a, G: Gate>(
    beginning: &Beginning<'a, G>,
    code: &'a Code,
    bodies: Vec<BoxedBody>,
) -> Result<Vec<Segment>, AllocError>
    requires { (b : Kept) → IsIn b bodies.items → IsKnown code.now b }
    ensures { IfOk result (λ parts. ArePartsOf code.now beginning.now.memory.now bodies.items parts.items) }
{
    let mut parts = Vec::new(beginning.alloc);
    for body in bodies {
        let part = beginning.run(0, Ready { code: &*code, body })?;
        parts.push(part)?;
    }
    Ok(parts)
}

/// The part of each of these bodies, over a memory that nobody changes meanwhile, in their order. Want of
/// memory is the one error. Conditions: each is a body, after some answers, of a task of this code; the memory
/// has at most 1,048,576 cells.
pub(crate) fn parts_of<R: Threads + Sync, G: Gate>(
    team: &Team<'_, R, G>,
    code: &Code,
    memory: &[u64],
    bodies: Vec<BoxedBody>,
) -> Result<Vec<Segment>, AllocError>
    requires known { (b : Kept) → IsIn b bodies.items → IsKnown code.now b }
    requires room { length memory.now ≤ 1048576 }
    ensures { IfOk result (λ parts. ArePartsOf code.now memory.now bodies.items parts.items) }
{
    let beginning = Beginning {
        alloc: team.alloc,
        memory,
        gate: team.gate,
    };
    if team.workers == 1 || bodies.len() < 2 {
        return parts_in_turn(&beginning, &*code, bodies);
    }
    let all = ready(team.alloc, code, bodies)?;
    in_groups(team.rt, team.alloc, &beginning, all, team.workers)
}
