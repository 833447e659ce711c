//! Steps on counts, body words and slots.

ghost use Rattle.std.specs.Prelude.{◌≡◌, ◌≢◌, ◌<◌, ℕ, [], ◌∷◌, length, IfNone, IfSome, None, box_value};
ghost use Rattle.oss_field.specs.Asks.{AreInside};
ghost use Rattle.oss_field.specs.Known.{Holding};
ghost use Rattle.oss_field.specs.Standing.{On, Stays, carried};
ghost use Rattle.oss_field.specs.Taking.{IsMissing, IsPut, IsTaken, IsWithin, MayPut, after_count, after_miss, after_take};
ghost use Rattle.oss_words.specs.Views.{Among};

use crate::places::{body_place, count_place};
use crate::words::{Place, Words, exchange_word, read_word, write_last};
use oss_jobs::Job;
use std::marker::Brand;

/// Reads the count of a task, in a field of so many cells.
pub(crate) fn read_count(words: &Words, seat: &mut Place, cells: u32, task: u32) -> u64
    requires on { On words.now.table_id words.now.key seat.old }
    requires cells { cells ≡ length words.now.key.code.value.first }
    requires inside { task < words.now.key.entries }
    ensures stays { Stays seat.old seat.new }
    ensures known { seat.new.me.0.known ≡ after_count cells task result seat.old.me.0.known }
{
    read_word::<Brand>(words, seat, count_place(cells, task), cells, task)
}

/// Takes the job of a task that is known to be ready out of its slot, if it stands there.
pub(crate) fn take_slot(words: &Words, seat: &mut Place, cells: u32, task: u32) -> Option<Box<Job>>
    requires on { On words.now.table_id words.now.key seat.old }
    requires cells { cells ≡ length words.now.key.code.value.first }
    requires inside { task < words.now.key.entries }
    requires ready { Among task seat.old.me.0.known.ready }
    ensures same { (seat.new.table_id ≡ seat.old.table_id) × (seat.new.id ≡ seat.old.id) }
    ensures live { 0 < seat.new.me.0.known.words.parts }
    ensures some { IfSome result (λ job. (h : Holding) × IsTaken words.now.key.code.value words.now.key.fuel task
        (box_value job) h × IsWithin cells words.now.key.entries h ×
        (seat.new.me.0.known ≡ after_take cells task h seat.old.me.0.known) ×
        (seat.new.me.1 ≡ (task, None) ∷ seat.old.me.1)) }
    ensures none { IfNone result ((n : ℕ) × (n ≢ 1) ×
        (seat.new.me.0.known ≡ after_miss cells task n seat.old.me.0.known) × (seat.new.me.1 ≡ seat.old.me.1)) }
{
    let found = exchange_word::<Brand>(words, seat, body_place(cells, task), 1, 2, cells, task);
    if found == 1 {
        words.exchange(seat, task as usize, None)
    } else {
        None
    }
}

/// Puts the job that was taken last.
pub(crate) fn put_slot(words: &Words, seat: &mut Place, cells: u32, job: Box<Job>)
    requires on { On words.now.table_id words.now.key seat.old }
    requires cells { cells ≡ length words.now.key.code.value.first }
    requires may { MayPut words.now.key.code.value (box_value job) seat.old.me.0.known }
    requires slots { seat.old.me.1 ≡ carried seat.old.me.0.known.bears }
    requires held { AreInside words.now.table_id seat.old.me.0.known.bears }
    ensures same { (seat.new.table_id ≡ seat.old.table_id) × (seat.new.id ≡ seat.old.id) }
    ensures live { 0 < seat.new.me.0.known.words.parts }
    ensures known { IsPut words.now.key.code.value (box_value job) cells seat.old.me.0.known
        seat.new.me.0.known }
    ensures slots { seat.new.me.1 ≡ carried seat.new.me.0.known.bears }
    ensures held { AreInside words.now.table_id seat.new.me.0.known.bears }
{
    let task = job.task();
    drop(words.exchange(seat, task as usize, Some(job)));
    write_last::<Brand>(words, seat, body_place(cells, task), 1, cells);
}

/// Takes the job of a task, if its count is 0 and the job stands in its slot.
pub(crate) fn take_job(words: &Words, seat: &mut Place, cells: u32, task: u32) -> Option<Box<Job>>
    requires on { On words.now.table_id words.now.key seat.old }
    requires cells { cells ≡ length words.now.key.code.value.first }
    requires inside { task < words.now.key.entries }
    requires slots { seat.old.me.1 ≡ carried seat.old.me.0.known.bears }
    requires held { AreInside words.now.table_id seat.old.me.0.known.bears }
    ensures same { (seat.new.table_id ≡ seat.old.table_id) × (seat.new.id ≡ seat.old.id) }
    ensures live { 0 < seat.new.me.0.known.words.parts }
    ensures some { IfSome result (λ job. (h : Holding) × IsTaken words.now.key.code.value words.now.key.fuel task
        (box_value job) h ×
        (seat.new.me.0.known ≡ after_take cells task h (after_count cells task 0 seat.old.me.0.known))) }
    ensures none { IfNone result (IsMissing cells task seat.old.me.0.known seat.new.me.0.known) }
    ensures slots { seat.new.me.1 ≡ carried seat.new.me.0.known.bears }
    ensures held { AreInside words.now.table_id seat.new.me.0.known.bears }
{
    if read_count(words, seat, cells, task) != 0 {
        return None;
    }
    take_slot(words, seat, cells, task)
}
