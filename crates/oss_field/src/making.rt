//! The steps by which a task is made: the count of the new task is filled, its job stands in its slot, and a count down
//! opens it.

ghost use Rattle.std.specs.Prelude.{◌≡◌, ◌≢◌, ◌<◌, ◌==◌, ℕ, length, box_value};
ghost use Rattle.oss_field.specs.Asks.{AreInside};
ghost use Rattle.oss_field.specs.Making.{HasBegun, IsOpened, IsPutFirst, MayBegin, MayOpen, MayPutFirst};
ghost use Rattle.oss_field.specs.Standing.{On, Stays, carried};
ghost use Rattle.oss_jobs.specs.Jobs.{task_of};

use crate::making_words::{fill_word, hold_word, lower_word};
use crate::places::{body_place, count_place};
use crate::words::{Place, Words, write_last};
use oss_jobs::Job;
use std::marker::Brand;

/// Fills the count of a new task, in a field of so many cells. The task is made from then on.
pub(crate) fn fill_count(
    words: &Words,
    seat: &mut Place,
    job: &Job,
    cells: u32,
    task: u32,
    count: u32,
)
    requires on { On words.now.table_id words.now.key seat.old }
    requires cells { cells ≡ length words.now.key.code.value.first }
    requires may { MayBegin words.now.key.code.value words.now.key.entries job.now task count seat.old.me.0.known }
    requires held { AreInside words.now.table_id seat.old.me.0.known.bears }
    ensures stays { Stays seat.old seat.new }
    ensures begun { HasBegun words.now.key.code.value words.now.key.entries job.now task count seat.old.me.0.known
        seat.new.me.0.known }
    ensures held { AreInside words.now.table_id seat.new.me.0.known.bears }
    ensures slots { carried seat.new.me.0.known.bears ≡ carried seat.old.me.0.known.bears }
{
    fill_word::<Brand>(
        words,
        seat,
        count_place(cells, task),
        count as u64,
        job,
        task,
    );
}

/// Puts the first job of a task that the seat is making, in a field of so many cells.
pub(crate) fn put_new(words: &Words, seat: &mut Place, cells: u32, job: Box<Job>)
    requires on { On words.now.table_id words.now.key seat.old }
    requires cells { cells ≡ length words.now.key.code.value.first }
    requires may { MayPutFirst words.now.key.code.value (box_value job) seat.old.me.0.known }
    requires inside { task_of (box_value job) < words.now.key.entries }
    ensures stays { Stays seat.old seat.new }
    ensures put { IsPutFirst words.now.key.code.value (box_value job) cells seat.old.me.0.known
        seat.new.me.0.known }
{
    let task = job.task();
    hold_word::<Brand>(words, seat, body_place(cells, task), 2, cells, &job);
    drop(words.exchange(seat, task as usize, Some(job)));
    write_last::<Brand>(words, seat, body_place(cells, task), 1, cells);
}

/// Lowers the count of a task that the seat is making by one, in a field of so many cells. The task is opened by it:
/// whether its count is 0 from then on.
pub(crate) fn open_task(words: &Words, seat: &mut Place, job: &Job, cells: u32, task: u32) -> bool
    requires on { On words.now.table_id words.now.key seat.old }
    requires cells { cells ≡ length words.now.key.code.value.first }
    requires may { MayOpen words.now.key.code.value job.now task seat.old.me.0.known }
    requires inside { task < words.now.key.entries }
    requires held { AreInside words.now.table_id seat.old.me.0.known.bears }
    ensures stays { Stays seat.old seat.new }
    ensures opened { (found : ℕ) × IsOpened words.now.key.code.value job.now task found seat.old.me.0.known
        seat.new.me.0.known × (result ≡ (found == 1)) }
    ensures held { AreInside words.now.table_id seat.new.me.0.known.bears }
    ensures slots { carried seat.new.me.0.known.bears ≡ carried seat.old.me.0.known.bears }
{
    lower_word::<Brand>(words, seat, count_place(cells, task), 1, job, task) == 1
}
