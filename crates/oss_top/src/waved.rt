//! The run by waves of a program.

ghost use Rattle.std.specs.Prelude.{◌≡◌, ◌<◌, ◌≤◌, [], ℕ, false, IfOk};
ghost use Rattle.std.specs.Vec.{vec_capacity};
ghost use Rattle.oss_top.specs.Runs.{AreWavesOf};

use crate::run::are_words;
use oss_command::{DepsKind, Options};
use oss_deps::{Deps, PlainDeps};
use oss_io::Gate;
use oss_lower::lower;
use oss_model::Answer;
use oss_names::Known;
use oss_regions::Regions;
use oss_sched::WaveRecord;
use oss_waves::{WaveRun, waves};
use oss_word_deps::WordDeps;
use std::alloc::{AllocError, Global};
use std::thread::Threads;

/// How many entries a net of words has at most; where a run needs more, plain lists go on in its place.
pub(crate) const MOST_ENTRIES: u32 = 16_777_216;

/// So many bytes are kept back while a run is made on several threads.
const KEPT_BACK: usize = 16_777_216;

/// What a run by waves gives of a program.
#[derive(Drop)]
pub(crate) struct Waved {
    /// The output and the cells at its end, or the fault that stopped it with the output before it.
    pub(crate) answer: Answer,
    /// What was done in each wave.
    pub(crate) waves: WaveRecord,
}

/// The run by waves of a program, by its code. Threads take memory, of which the C library keeps some when they have ended: so
/// a run that is out of memory on several is made anew on one, and some memory is kept back for that. Where that is not to be
/// had, the run is made on one at once.
pub(crate) fn wave_run<R: Threads + Sync, G: Gate>(
    rt: &R,
    alloc: Global,
    known: &Known,
    options: Options,
    gate: &G,
) -> Result<Waved, AllocError>
    requires { 0 < options.workers }
    ensures { IfOk result (λ run. AreWavesOf known.now options.fuel run.answer run.waves) }
{
    let alone = Options {
        workers: 1,
        ..options
    };
    if options.workers == 1 {
        return wave_run_on(rt, alloc, known, alone, gate);
    }
    match kept_back(alloc) {
        Ok(room) => {
            let run = wave_run_on(rt, alloc, known, options, gate);
            drop(room);
            match run {
                Ok(run) => Ok(run),
                Err(_) => wave_run_on(rt, alloc, known, alone, gate),
            }
        }
        Err(_) => wave_run_on(rt, alloc, known, alone, gate),
    }
}

/// Memory into which nothing is put. It is taken in a call of its own, so that no compiler leaves it out.
#[inline(never)]
fn kept_back(alloc: Global) -> Result<Vec<u8>, AllocError>
    ensures { IfOk result (λ room. 16777216 ≤ vec_capacity room) }
{
    Vec::with_capacity(alloc, KEPT_BACK)
}

/// The same on as many workers as the options say.
fn wave_run_on<R: Threads + Sync, G: Gate>(
    rt: &R,
    alloc: Global,
    known: &Known,
    options: Options,
    gate: &G,
) -> Result<Waved, AllocError>
    requires { 0 < options.workers }
    ensures { IfOk result (λ run. AreWavesOf known.now options.fuel run.answer run.waves) }
{
    match options.deps {
        DepsKind::Regions => waved_over(rt, alloc, known, options, Regions::new(alloc), gate),
        DepsKind::Plain => waved_over(rt, alloc, known, options, PlainDeps::new(alloc), gate),
        DepsKind::Words => {
            let deps = WordDeps::new(alloc, MOST_ENTRIES)?;
            waved_over(rt, alloc, known, options, deps, gate)
        }
    }
}

/// The run by waves of a program over a dependency system in which no task is opened.
fn waved_over<R: Threads + Sync, D: Deps, G: Gate>(
    rt: &R,
    alloc: Global,
    known: &Known,
    options: Options,
    deps: D,
    gate: &G,
) -> Result<Waved, AllocError>
    requires workers { 0 < options.workers }
    requires opens { (D.seen deps).opens ≡ [] }
    requires given { (t c : ℕ) → (D.seen deps).given t c ≡ false }
    ensures { IfOk result (λ run. AreWavesOf known.now options.fuel run.answer run.waves) }
{
    let code = lower(alloc, known)?;
    are_words(code.first().as_slice());
    let run = waves(rt, alloc, &code, options.fuel, deps, options.workers, gate)?;
    Ok(without_deps(run))
}

/// The run without what its tasks waited for.
fn without_deps<D: Deps>(run: WaveRun<D>) -> Waved
    ensures answer { result.answer ≡ run.answer }
    ensures waves { result.waves ≡ run.waves }
{
    let WaveRun { answer, waves, .. } = run;
    Waved { answer, waves }
}
