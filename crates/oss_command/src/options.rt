//! The options of a run, and the fuel of a replay.

ghost use Rattle.std.specs.Prelude.{◌≡◌, ◌≤◌, ◌<◌, map, IfSome};
ghost use Rattle.std.specs.String.{string_bytes};
ghost use Rattle.oss_command.specs.Commands.{AreFit, deps_by, flag_by, flag_for_one_by, fuel_in, is_by_workers, mode_by, no_flag_by, number_by, one_alone, options_in, order_by, system_by, who_by, workers_by};
ghost use Rattle.oss_command.specs.Commands.Standing.{once};
ghost use Rattle.oss_command.specs.Values.{stands};

use crate::values::{Stands, value_of};
use oss_sched::number_within;

/// How a program is run.
#[derive(Clone, Copy)]
pub enum RunMode {
    /// One task after the other, each where it is created.
    Serial,
    /// In waves: the tasks that may act do so side by side, and then give up what they can.
    Waves,
    /// By workers that take ready tasks. With one worker the program runs in turns, by the priorities of its tasks.
    Workers,
}

impl RunMode {
    /// Whether it is that of workers.
    pub(crate) fn is_by_workers(self) -> bool
        ensures { result ≡ is_by_workers self }
    {
        match self {
            RunMode::Serial => false,
            RunMode::Waves => false,
            RunMode::Workers => true,
        }
    }
}

/// How it is told what tasks wait for.
#[derive(Clone, Copy)]
pub enum DepsKind {
    /// By ranges of cells that have the same accesses, whose flags messages move.
    Regions,
    /// By plain lists of the accesses to each cell.
    Plain,
    /// By a net of atomic words, one for each access of a task to a cell.
    Words,
}

/// The options of a run. What the words do not say has its default.
#[derive(Clone, Copy)]
pub struct Options {
    /// `--mode=`; waves where nothing is said.
    pub mode: RunMode,
    /// `--deps=`, of a run by waves alone; regions where nothing is said.
    pub deps: DepsKind,
    /// `--workers=`, 1 to 64; 4 if nothing is said. A serial run has one thread whatever is said, and a run by workers has one worker for now.
    pub workers: u32,
    /// `--fuel=`, the ticks that a task may do, 1 to 1,000,000,000; 1,000,000 where nothing is said.
    pub fuel: u32,
    /// `--dump`: the values of the globals are told behind the output of a run that ends.
    pub dump: bool,
    /// `--who`, of a run by workers alone: behind these it is told which worker began each task.
    pub who: bool,
    /// `--order`, of a run by one worker alone: behind all that it is told in which order the tasks began.
    pub order: bool,
}

/// The options that the words behind a command say; none where one stands twice or has a value out of form.
pub(crate) fn read_options(words: &[String]) -> Option<Options>
    ensures value { result ≡ options_in (map string_bytes words.now) }
    ensures fit { IfSome result AreFit }
{
    let mode = mode_of(value_of(b"--mode=", words))?;
    let deps = deps_of(mode, value_of(b"--deps=", words))?;
    let workers = workers_of(mode, value_of(b"--workers=", words))?;
    let fuel = read_fuel(words)?;
    let dump = flag_of(value_of(b"--dump", words))?;
    let who = who_of(mode, value_of(b"--who", words))?;
    let order = order_of(mode, workers, value_of(b"--order", words))?;
    Some(Options {
        mode,
        deps,
        workers,
        fuel,
        dump,
        who,
        order,
    })
}

/// The fuel that the words say, as ticks a task; none where it stands twice or is out of form.
pub(crate) fn read_fuel(words: &[String]) -> Option<u32>
    ensures { result ≡ fuel_in (map string_bytes words.now) }
{
    number_of(value_of(b"--fuel=", words), 1, 1_000_000_000, 1_000_000)
}

/// The mode that an option gives.
fn mode_of(told: Stands<'_>) -> Option<RunMode>
    ensures { result ≡ mode_by (stands told.entry) }
{
    match told {
        Stands::Absent => Some(RunMode::Waves),
        Stands::Once(value) => mode_named(value),
        Stands::Again => None,
    }
}

/// The mode with this name.
fn mode_named(value: &[u8]) -> Option<RunMode>
    ensures { result ≡ mode_by (once value.now) }
{
    if value == b"serial".as_slice() {
        return Some(RunMode::Serial);
    }
    if value == b"waves".as_slice() {
        return Some(RunMode::Waves);
    }
    if value == b"workers".as_slice() {
        return Some(RunMode::Workers);
    }
    None
}

/// The dependency system that an option gives in this mode.
fn deps_of(mode: RunMode, told: Stands<'_>) -> Option<DepsKind>
    ensures { result ≡ deps_by mode (stands told.entry) }
{
    match told {
        Stands::Absent => Some(DepsKind::Regions),
        Stands::Once(value) => deps_named(mode, value),
        Stands::Again => None,
    }
}

/// The dependency system with this name, if the mode has one.
fn deps_named(mode: RunMode, value: &[u8]) -> Option<DepsKind>
    ensures { result ≡ deps_by mode (once value.now) }
{
    match mode {
        RunMode::Waves => system_named(value),
        RunMode::Serial => None,
        RunMode::Workers => None,
    }
}

/// The number of workers that an option gives in this mode.
fn workers_of(mode: RunMode, told: Stands<'_>) -> Option<u32>
    ensures value { result ≡ workers_by mode (number_by 1 64 4 (stands told.entry)) }
    ensures some { IfSome result (λ workers. 0 < workers) }
{
    let workers = number_of(told, 1, 64, 4)?;
    match mode {
        RunMode::Workers => one_worker(workers),
        RunMode::Waves => Some(workers),
        RunMode::Serial => Some(workers),
    }
}

/// The number of workers of a run by workers: none but one has been built.
fn one_worker(workers: u32) -> Option<u32>
    ensures { result ≡ one_alone workers }
{
    if workers == 1 { Some(workers) } else { None }
}

/// Whether it is told which worker began each task, as an option says in this mode.
fn who_of(mode: RunMode, told: Stands<'_>) -> Option<bool>
    ensures { result ≡ who_by mode (stands told.entry) }
{
    match mode {
        RunMode::Workers => flag_of(told),
        RunMode::Waves => no_flag(told),
        RunMode::Serial => no_flag(told),
    }
}

/// Whether it is told in which order the tasks began, as an option says in this mode with so many workers.
fn order_of(mode: RunMode, workers: u32, told: Stands<'_>) -> Option<bool>
    ensures { result ≡ order_by mode workers (stands told.entry) }
{
    match mode {
        RunMode::Workers => flag_for_one(workers, told),
        RunMode::Waves => no_flag(told),
        RunMode::Serial => no_flag(told),
    }
}

/// Whether an option without a value stands, that only a run by one worker has.
fn flag_for_one(workers: u32, told: Stands<'_>) -> Option<bool>
    ensures { result ≡ flag_for_one_by workers (stands told.entry) }
{
    if workers == 1 {
        flag_of(told)
    } else {
        no_flag(told)
    }
}

/// The dependency system with this name.
fn system_named(value: &[u8]) -> Option<DepsKind>
    ensures { result ≡ system_by value.now }
{
    if value == b"regions".as_slice() {
        return Some(DepsKind::Regions);
    }
    if value == b"plain".as_slice() {
        return Some(DepsKind::Plain);
    }
    if value == b"words".as_slice() {
        return Some(DepsKind::Words);
    }
    None
}

/// The number that an option gives, between these two.
fn number_of(told: Stands<'_>, least: u32, most: u32, default: u32) -> Option<u32>
    ensures value { result ≡ number_by least most default (stands told.entry) }
    ensures above { least ≤ default → IfSome result (λ number. least ≤ number) }
{
    match told {
        Stands::Absent => Some(default),
        Stands::Once(value) => {
            let number = number_within(u64::from(least), u64::from(most), value)?;
            Some(number as u32)
        }
        Stands::Again => None,
    }
}

/// Whether an option without a value stands.
fn flag_of(told: Stands<'_>) -> Option<bool>
    ensures { result ≡ flag_by (stands told.entry) }
{
    match told {
        Stands::Absent => Some(false),
        Stands::Once(_) => Some(true),
        Stands::Again => None,
    }
}

/// The same of an option that may not stand.
fn no_flag(told: Stands<'_>) -> Option<bool>
    ensures { result ≡ no_flag_by (stands told.entry) }
{
    match told {
        Stands::Absent => Some(false),
        Stands::Once(_) => None,
        Stands::Again => None,
    }
}
