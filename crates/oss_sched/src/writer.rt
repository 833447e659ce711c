//! The writer of traces. What is no move stands in comments, so that each trace is a schedule and can be replayed.
ghost use Rattle.std.specs.Prelude.{◌≡◌, ◌++◌, ◌∷◌, [], IfOk, OnOk, length};
ghost use Rattle.std.specs.Fmt.{decimal};
ghost use Rattle.oss_model.specs.Points.{text_of};
ghost use Rattle.oss_sched.specs.declared.moves.TextMove.TheVariants.{Step};
ghost use Rattle.oss_sched.specs.Schedules.{cells_text};
ghost use Rattle.oss_sched.specs.Traces.{counts_text, move_line, trace_text, wave_text, waves_text};

use crate::moves::{TextMove, WaveRecord};
use oss_model::{Point, point_text};
use oss_syntax::{Bytes, List};
use std::alloc::{AllocError, Global};

/// The text of a record: for each wave, counted from 1, a line `# wave K` and then a line for each of its
/// moves; and last a line `# tasks T waves K widest M`. Each line ends with a newline. Moves within their
/// limits are read back from it by `read_schedule` (`a_trace_is_a_schedule`). Want of memory is the one error.
pub fn schedule_text(alloc: Global, waves: &WaveRecord) -> Result<Bytes, AllocError>
    ensures { IfOk result (λ text. text ≡ trace_text waves.now) }
{
    let mut text = Vec::new(alloc);
    write_waves(alloc, waves.waves.as_slice(), &mut text)?;
    write_counts(
        alloc,
        waves.tasks,
        waves.waves.len(),
        waves.widest,
        &mut text,
    )?;
    Ok(Bytes::from_vec(text))
}

/// Writes the last line.
fn write_counts(
    alloc: Global,
    tasks: u64,
    waves: usize,
    widest: u64,
    text: &mut Vec<u8>,
) -> Result<(), AllocError>
    ensures { OnOk result (text.new.items ≡ text.old.items ++ counts_text tasks waves widest) }
{
    let line = format!(in alloc; "# tasks {tasks} waves {waves} widest {widest}\n")?;
    text.extend_from_slice(line.as_bytes())
}

/// Writes the waves, counted from 1.
fn write_waves(
    alloc: Global,
    waves: &[List<TextMove>],
    text: &mut Vec<u8>,
) -> Result<(), AllocError>
    ensures { OnOk result (text.new.items ≡ text.old.items ++ waves_text 1 waves.now) }
{
    let mut before = 0usize;
    for wave in waves {
        write_wave(alloc, before + 1, wave.as_slice(), text)?;
        before += 1;
    }
    Ok(())
}

/// Writes a wave with this number.
fn write_wave(
    alloc: Global,
    number: usize,
    moves: &[TextMove],
    text: &mut Vec<u8>,
) -> Result<(), AllocError>
    ensures { OnOk result (text.new.items ≡ text.old.items ++ wave_text number moves.now) }
{
    let heading = format!(in alloc; "# wave {number}\n")?;
    text.extend_from_slice(heading.as_bytes())?;
    for what in moves {
        write_move(alloc, what, text)?;
    }
    Ok(())
}

/// Writes the line of a move.
fn write_move(alloc: Global, what: &TextMove, text: &mut Vec<u8>) -> Result<(), AllocError>
    ensures { OnOk result (text.new.items ≡ text.old.items ++ move_line what.now) }
{
    match what {
        TextMove::Step(point, count) => write_step(alloc, point, *count, text),
        TextMove::Let(point, first, count) => {
            write_cells(alloc, b"let ", point, *first, *count, text)
        }
        TextMove::Join(point, first, count) => {
            write_cells(alloc, b"join ", point, *first, *count, text)
        }
    }
}

/// Writes the line of a task's acts.
fn write_step(
    alloc: Global,
    point: &Point,
    count: u64,
    text: &mut Vec<u8>,
) -> Result<(), AllocError>
    ensures { OnOk result (text.new.items ≡ text.old.items ++ move_line (Step point.now count)) }
{
    text.extend_from_slice(b"step ")?;
    let at = point_text(alloc, point.as_slice())?;
    text.extend_from_slice(at.as_slice())?;
    let end = format!(in alloc; " {count}\n")?;
    text.extend_from_slice(end.as_bytes())
}

/// Writes the line of a move on a task's cells, with this word and a blank in front.
fn write_cells(
    alloc: Global,
    verb: &[u8],
    point: &Point,
    first: u32,
    count: u32,
    text: &mut Vec<u8>,
) -> Result<(), AllocError>
    ensures { OnOk result (text.new.items ≡ text.old.items ++ verb.now ++ cells_text point.now first count ++ 10 ∷ []) }
{
    text.extend_from_slice(verb)?;
    let at = point_text(alloc, point.as_slice())?;
    text.extend_from_slice(at.as_slice())?;
    let end = format!(in alloc; " {first} {count}\n")?;
    text.extend_from_slice(end.as_bytes())
}
