//! A field.

ghost use Rattle.std.specs.Prelude.{◌≡◌, ◌≢◌, ◌<◌, ◌≤◌, ◌+◌, ◌*◌, ◌==◌, ℕ, [], length, None, IfErr, IfNone, IfOk, IfSome, box_value};
ghost use Rattle.oss_body.specs.Mains.{code_main};
ghost use Rattle.oss_field.specs.Asks.{AreInside, IsLoaded, IsStored, MayLoad, MayStore};
ghost use Rattle.oss_field.specs.Drawing.{IsAboveAll, drew, missed};
ghost use Rattle.oss_field.specs.Folding.{Folded};
ghost use Rattle.oss_field.specs.Giving.{Gave, StandsToGive};
ghost use Rattle.oss_field.specs.Hanging.{Linked, StandsToLink};
ghost use Rattle.oss_field.specs.Known.{Holding, first_known};
ghost use Rattle.oss_field.specs.Layout.{words_in};
ghost use Rattle.oss_field.specs.Leaving.{HasLeft, StandsToLeave};
ghost use Rattle.oss_field.specs.Making.{HasBegun, IsOpened, IsPutFirst, MayBegin, MayOpen, MayPutFirst};
ghost use Rattle.oss_field.specs.Messages.{Delivered, JoinFirst, NoJoinFirst};
ghost use Rattle.oss_field.specs.Moves.{touched};
ghost use Rattle.oss_field.specs.Reading.{after_flags};
ghost use Rattle.oss_field.specs.Seats.{IsIdle, merged, new_known, parted};
ghost use Rattle.oss_field.specs.Spent.{HasNoWork, IsApart};
ghost use Rattle.oss_field.specs.Standing.{Fielded};
ghost use Rattle.oss_field.specs.Taking.{IsMissing, IsPut, IsTaken, MayPut, after_count, after_take};
ghost use Rattle.oss_jobs.specs.Jobs.{IsJob, task_of};
ghost use Rattle.oss_words.specs.Bits.{FitsInfo};

use crate::cells::{load_cell, store_cell};
use crate::closing::{FieldParts, close_table};
use crate::delivering::deliver_first;
use crate::drawing::add_draw;
use crate::flags::read_flags;
use crate::folding::fold_first;
use crate::giving::give_entry;
use crate::hanging::link_entry;
use crate::held::room;
use crate::key::FieldKey;
use crate::leaving::leave_value;
use crate::making::{fill_count, open_task, put_new};
use crate::places::info_place;
use crate::seat::FieldSeat;
use crate::seats::{merge, part};
use crate::slots::{put_slot, take_job};
use crate::start::{FieldTable, first_slots, first_words, open_table};
use crate::touched::Touched;
use oss_body::main_is_set;
use oss_code::Code;
use oss_jobs::Job;
use oss_words::{After, EntryInfo, info_of};
use std::alloc::{AllocError, Global};
use std::marker::Model;
use std::snapshot::Snapshot;

/// A table of access words, counts, cells and jobs, which many threads share. It is seen as its table, its number of
/// entries, the code of its jobs and the fuel of each task. Each call is made by a seat, takes no memory and waits for
/// nobody, unless it says otherwise.
///
/// Whatever the threads do, and however their steps interleave, the words, slots and seats stand for one state of the
/// machine, which a run from the start of main can reach. So far a field begins with main alone. At its end it is
/// taken apart, with its last seat. A job that a seat holds touches cells, makes tasks, gives up entries, and leaves values for their joins. A seat
/// draws entries, reads flags, takes and puts jobs, delivers messages and makes joins; seats split and join.
#[derive(Drop)]
pub struct Field {
    /// The words and slots.
    table: FieldTable,
    /// How many entries there are, main's among them.
    entries: u32,
    /// How many cells.
    cells: u32,
}

impl Model for Field {
    ghost Value = { Fielded };

    ghost view = { λ w. record {
      table = w.table.shared.table_id;
      entries = w.entries;
      code = w.table.shared.key.code.value;
      fuel = w.table.shared.key.fuel;
    } };

    ghost invariant = { λ w. (w.table.shared.key.entries ≡ w.entries) ×
        (w.cells ≡ length w.table.shared.key.code.value.first) ×
        (w.table.shared.table_id.words ≡ words_in w.cells w.entries) × (w.table.shared.table_id.slots ≡ w.entries) ×
        (0 < w.entries) × (w.entries ≤ 16777216) × (w.cells ≤ 1048576) };
}

impl Field {
    /// A field of so many entries, from 1 to 16,777,216, in which main alone stands at its beginning, and the seat
    /// with which it is made, which holds nothing. The job is that of main, which has done nothing. It is an error
    /// if memory is wanted: the job is let go then. It takes memory.
    pub fn new(
        alloc: Global,
        code: &Code,
        fuel: u32,
        entries: u32,
        job: Box<Job>,
    ) -> Result<(Field, FieldSeat), AllocError>
        requires entries { (0 < entries) × (entries ≤ 16777216) }
        requires cells { length code.now.first ≤ 1048576 }
        requires main { IsJob code.now [] (box_value job) 0 (record { start = code_main code.now fuel; found = [] })
            (λ y. None) }
        ensures field { IfOk result (λ r. (r.0.entries ≡ entries) × (r.0.code ≡ code.now) × (r.0.fuel ≡ fuel)) }
        ensures seat { IfOk result (λ r. (r.1.field ≡ r.0.table) × (r.1.id ≡ 0) × (r.1.known ≡ first_known)) }
    {
        main_is_set(code, fuel);
        let held = room(alloc)?;
        let slots = first_slots(alloc, job, entries)?;
        let words = match first_words(alloc, code.first().as_slice(), entries) {
            Ok(words) => words,
            Err(why) => {
                drop(slots);
                return Err(why);
            }
        };
        let key = FieldKey {
            entries,
            fuel,
            code: Snapshot::of(code),
        };
        let (table, place) = open_table(alloc, words.as_slice(), slots, &key)?;
        let field = Field {
            table,
            entries,
            cells: code.first().len() as u32,
        };
        let last = Touched {
            entry: 0,
            state: 0,
            info: 0,
        };
        Ok((field, FieldSeat { place, held, last }))
    }

    /// So many new entries, from 1 to 16,777,216: the first of them; the others follow it. No other seat gets one of them,
    /// and all are above the number and the last children of each task whose job the seat holds. `None` exactly if
    /// fewer were left at its step, and then none are left, and the seat draws no more.
    pub fn draw(&self, seat: &mut FieldSeat, count: u32) -> Option<u32>
        requires field { seat.old.field ≡ self.now.table }
        requires first { seat.old.known.words.failed ≡ 0 }
        requires most { (0 < count) × (count ≤ 16777216) }
        ensures same { (seat.new.field ≡ seat.old.field) × (seat.new.id ≡ seat.old.id) }
        ensures some { IfSome result (λ e. (e + count ≤ self.now.entries) × IsAboveAll e seat.old.known ×
            (seat.new.known ≡ touched 0 e (drew count e seat.old.known))) }
        ensures none { IfNone result ((n : ℕ) × (self.now.entries < n + count) ×
            (seat.new.known ≡ touched 0 n (missed seat.old.known))) }
    {
        let found = add_draw(&self.table.shared, &mut seat.place, self.entries, count);
        if found + count as u64 <= self.entries as u64 {
            Some(found as u32)
        } else {
            None
        }
    }

    /// What a cell is, for the load that stands next in a job that the seat holds, or for the fold into the cell that
    /// stands next. Since the seat's last call with the job it was advanced by that call's act, and else by its own
    /// acts alone, and by waits that the seat has seen to be met. After it the body that the seat knows has the
    /// answer of the load; for a fold the seat keeps what was found, until the fold is stored.
    pub fn load(&self, seat: &mut FieldSeat, job: &Job, cell: u32) -> u64
        requires field { seat.old.field ≡ self.now.table }
        requires may { MayLoad self.now.code job.now cell seat.old.known }
        ensures same { (seat.new.field ≡ seat.old.field) × (seat.new.id ≡ seat.old.id) }
        ensures loaded { IsLoaded self.now.code job.now cell result seat.old.known seat.new.known }
    {
        load_cell(&self.table.shared, &mut seat.place, job, cell)
    }

    /// Writes a cell, for the store that stands next in a job that the seat holds, or for the fold into the cell that
    /// stands next: then the value is what the fold makes of what the last `load` with this job found. After it the
    /// body that the seat knows has done the act.
    pub fn store(&self, seat: &mut FieldSeat, job: &Job, cell: u32, value: u64)
        requires field { seat.old.field ≡ self.now.table }
        requires may { MayStore self.now.code job.now cell value seat.old.known }
        ensures same { (seat.new.field ≡ seat.old.field) × (seat.new.id ≡ seat.old.id) }
        ensures stored { IsStored self.now.code job.now cell value seat.old.known seat.new.known }
    {
        store_cell(&self.table.shared, &mut seat.place, job, cell, value)
    }

    /// Takes the job of a task out of its slot. The first step reads the task's count, and the second takes the job.
    /// `None` exactly if the first found another count than 0, or the second found no job in the slot: none was ever
    /// put there, or some seat holds it. Else the seat holds the job that was last put, with its acts, its prints and
    /// its last children, and the task is ready.
    pub fn take_body(&self, seat: &mut FieldSeat, task: u32) -> Option<Box<Job>>
        requires field { seat.old.field ≡ self.now.table }
        requires inside { task < self.now.entries }
        ensures same { (seat.new.field ≡ seat.old.field) × (seat.new.id ≡ seat.old.id) }
        ensures some { IfSome result (λ job. (h : Holding) × IsTaken self.now.code self.now.fuel task (box_value job) h ×
            (seat.new.known ≡ after_take (length self.now.code.first) task h
            (after_count (length self.now.code.first) task 0 seat.old.known))) }
        ensures none { IfNone result (IsMissing (length self.now.code.first) task seat.old.known seat.new.known) }
    {
        take_job(&self.table.shared, &mut seat.place, self.cells, task)
    }

    /// Puts the job that the seat took last back into its slot. Since the seat's last call with the job it was advanced
    /// by that call's act, and else by its own acts alone, and by waits that the seat has seen to be met; and the seat
    /// is making no task by it. The seat does not hold it any more, and forgets what it loaded for a fold of it, and what it
    /// has read of the flags of entries, those of its other jobs too.
    pub fn put_body(&self, seat: &mut FieldSeat, job: Box<Job>)
        requires field { seat.old.field ≡ self.now.table }
        requires may { MayPut self.now.code (box_value job) seat.old.known }
        ensures same { (seat.new.field ≡ seat.old.field) × (seat.new.id ≡ seat.old.id) }
        ensures put { IsPut self.now.code (box_value job) (length self.now.code.first) seat.old.known
            seat.new.known }
    {
        put_slot(&self.table.shared, &mut seat.place, self.cells, job)
    }

    /// The state word of an entry, as it stands at this step. All its flags stand from then on. If the entry is one of
    /// the task of a job that the seat holds, the flag of a value that is left stays as it was found, and so does, but
    /// for a strong reduction that is left, that of an entry that is given up: until the seat sets it itself, or puts
    /// a job back.
    pub fn flags(&self, seat: &mut FieldSeat, entry: u32) -> u64
        requires field { seat.old.field ≡ self.now.table }
        requires inside { entry < self.now.entries }
        ensures same { (seat.new.field ≡ seat.old.field) × (seat.new.id ≡ seat.old.id) }
        ensures found { seat.new.known ≡ after_flags (length self.now.code.first) entry result seat.old.known }
    {
        read_flags(&self.table.shared, &mut seat.place, self.cells, entry)
    }

    /// The entries of the tasks whose jobs a seat holds, and their last children, are entries of the field. It takes no
    /// step: it tells this to proofs alone.
    pub fn has_entries(&self, seat: &FieldSeat)
        requires field { seat.now.field ≡ self.now.table }
        ensures inside { AreInside seat.now.field seat.now.known.bears }
        ensures slots { seat.now.field.slots ≡ self.now.entries }
    {
        let _ = &self.table;
        let _ = &seat.place;
    }

    /// What the info word of an entry tells, as it stands at this step; `None` exactly if the field has no such entry. It
    /// is one load, by no seat. It is for those who wake a task that waits: `task` is the number of the entry's task, and
    /// so the entry is its task's own exactly if its number is that. `parent` is the creator's own entry for such a one,
    /// and else the creator's entry on the cell, whose info names the creator; it is 0 for main.
    ///
    /// What was found is bound to nothing: no seat knows it, and no clause says that the entry hangs, or has a role. The
    /// word is written once, before the entry is linked, and is 0 till then, which reads as a weak read of main itself. So
    /// whoever was told of the entry by a link or a delivery finds what it is; but no clause promises that, nor that
    /// `task` and `parent` are entries of the field: that is to be tested.
    pub fn peek_info(&self, entry: u32) -> Option<EntryInfo>
        ensures none { IfNone result (self.now.entries ≤ entry) }
        ensures some { IfSome result (λ i. (entry < self.now.entries) × FitsInfo i) }
    {
        if self.entries <= entry {
            return None;
        }
        let word = self.table.shared.peek(info_place(self.cells, entry));
        Some(info_of(word))
    }

    /// Begins to make a task: fills its count. The creation stands next in a job that the seat holds. Since the seat's last
    /// call with the job it has gone on as `load` asks. The seat makes no task by it yet. The seat has drawn
    /// the task's number, which is above that of the job and above its last children, and behind it one entry for each
    /// cell of the task. The count is one for the opening, and one for each strong cell that the task reads or writes, but
    /// for those on which main has no child before it. From then on the entries are those of the new task, and
    /// none of them is linked: the machine has the task once it is opened. A seat that leaves a task half made cannot be
    /// joined, and the job of its creator cannot be put. So what takes memory comes before this call.
    pub fn set_count(&self, seat: &mut FieldSeat, job: &Job, task: u32, count: u32)
        requires field { seat.old.field ≡ self.now.table }
        requires may { MayBegin self.now.code self.now.entries job.now task count seat.old.known }
        ensures same { (seat.new.field ≡ seat.old.field) × (seat.new.id ≡ seat.old.id) }
        ensures begun { HasBegun self.now.code self.now.entries job.now task count seat.old.known seat.new.known }
    {
        fill_count(
            &self.table.shared,
            &mut seat.place,
            job,
            self.cells,
            task,
            count,
        );
    }

    /// Links an entry of a task that the seat makes: that on a cell, or, for `None`, the task's own. The job is that of the
    /// creator, which stands before the creation. The seat holds no message, and no word of the entry was written. The info
    /// tells the mode and whether it is strong, as the task's accesses name the cell together; for its own entry a weak
    /// read. It tells the task's number, how deep the task stands, and as parent the creator's entry there, which is 0 for
    /// main. What is named is the creator's last child there, if it has one, and else its own entry there, or main. The
    /// words of the entry are written first. By the last of these steps it hangs. Then the infos of entries are read to which what
    /// that completes goes, and it is held. A first child has nothing before it. The first of a list of main may read, fold and write too, and no message follows. None of the steps
    /// is one of the machine.
    pub fn link(
        &self,
        seat: &mut FieldSeat,
        job: &Job,
        entry: u32,
        info: &EntryInfo,
        cell: Option<u32>,
        after: After,
    )
        requires field { seat.old.field ≡ self.now.table }
        requires inside { entry < self.now.entries }
        requires fits { FitsInfo info.now }
        requires may { StandsToLink self.now.code job.now entry info.now cell after seat.old.known }
        ensures same { (seat.new.field ≡ seat.old.field) × (seat.new.id ≡ seat.old.id) }
        ensures linked { Linked entry info.now after seat.old.known seat.new.known }
    {
        link_entry(
            &self.table.shared,
            &mut seat.place,
            &mut seat.held,
            self.cells,
            job,
            entry,
            info,
            cell,
            after,
        );
    }

    /// Puts the first job of a task that the seat makes, and for which it has put none: the job stands at the beginning
    /// of the body that the creation tells, and has the task's number. The first step takes hold of the empty slot, and
    /// the second leaves the job there. By the rule nobody takes it before the task is opened: its count is not 0 until then.
    pub fn put_first(&self, seat: &mut FieldSeat, job: Box<Job>)
        requires field { seat.old.field ≡ self.now.table }
        requires inside { task_of (box_value job) < self.now.entries }
        requires may { MayPutFirst self.now.code (box_value job) seat.old.known }
        ensures same { (seat.new.field ≡ seat.old.field) × (seat.new.id ≡ seat.old.id) }
        ensures put { IsPutFirst self.now.code (box_value job) (length self.now.code.first) seat.old.known
            seat.new.known }
    {
        put_new(&self.table.shared, &mut seat.place, self.cells, job);
    }

    /// Opens a task that the seat makes: lowers its count by one, and answers whether it was 1, so that it is 0 then. Its job is put, all
    /// its entries are linked, and the job of its creator has noted it. It is the machine's step of the creation: after
    /// it the body that the seat knows of the creator has done that act, its last children are those that the job
    /// tells, and the seat makes the task no more. Whether it is ready `take_body` tells.
    pub fn count_down(&self, seat: &mut FieldSeat, job: &Job, task: u32) -> bool
        requires field { seat.old.field ≡ self.now.table }
        requires inside { task < self.now.entries }
        requires may { MayOpen self.now.code job.now task seat.old.known }
        ensures same { (seat.new.field ≡ seat.old.field) × (seat.new.id ≡ seat.old.id) }
        ensures opened { (found : ℕ) × IsOpened self.now.code job.now task found seat.old.known seat.new.known ×
            (result ≡ (found == 1)) }
    {
        open_task(&self.table.shared, &mut seat.place, job, self.cells, task)
    }

    /// A new seat, which may go to another thread: it holds nothing and knows nothing. The seat is the one with which the
    /// field was made, and was split fewer than 65,536 times; it gives the new one a part of its own. It is an
    /// error if memory is wanted: the seat is as it was then. It takes memory.
    pub fn split(&self, alloc: Global, seat: &mut FieldSeat) -> Result<FieldSeat, AllocError>
        requires field { seat.old.field ≡ self.now.table }
        requires first { (seat.old.id ≡ 0) × (1 < seat.old.known.words.parts) }
        requires few { seat.old.known.words.splits < 65536 }
        ensures same { (seat.new.field ≡ seat.old.field) × (seat.new.id ≡ seat.old.id) }
        ensures kept { IfErr result (λ _. seat.new ≡ seat.old) }
        ensures known { IfOk result (λ _. seat.new.known ≡ parted seat.old.known) }
        ensures other { IfOk result (λ s. (s.field ≡ seat.old.field) × (s.known ≡ new_known)) }
    {
        let held = room(alloc)?;
        let place = part(&self.table.shared, &mut seat.place);
        let last = Touched {
            entry: 0,
            state: 0,
            info: 0,
        };
        Ok(FieldSeat { place, held, last })
    }

    /// The end of another seat, which has nothing left to do: it holds no message and no job, makes no task and owes
    /// nothing, and was never split. Its parts go to this seat, with what it has drawn, and its deliveries are counted
    /// for this one.
    pub fn join(&self, seat: &mut FieldSeat, other: FieldSeat)
        requires field { (seat.old.field ≡ self.now.table) × (other.field ≡ self.now.table) }
        requires idle { IsIdle other.known }
        ensures same { (seat.new.field ≡ seat.old.field) × (seat.new.id ≡ seat.old.id) }
        ensures known { seat.new.known ≡ merged seat.old.known other.known }
    {
        let FieldSeat { place, held, .. } = other;
        drop(held);
        merge(&self.table.shared, &mut seat.place, place);
    }

    /// Delivers the message that comes first of those that the seat holds, which is no join: its flag stands from then on,
    /// and what that completes is held. If a count waits for the flag, the call lowers that count in a second step. The
    /// task whose count became 0 by it; `None` exactly if no count waits for the flag, or the count was not 1. The seat
    /// knows what it touched. All seats together deliver at most six messages for each entry.
    pub fn deliver(&self, seat: &mut FieldSeat) -> Option<u32>
        requires field { seat.old.field ≡ self.now.table }
        requires some { seat.old.known.words.held ≢ [] }
        requires join { NoJoinFirst seat.old.known }
        ensures same { (seat.new.field ≡ seat.old.field) × (seat.new.id ≡ seat.old.id) }
        ensures delivered { Delivered seat.old.known seat.new.known result }
        ensures bounded { seat.new.known.words.delivered ≤ 6 * self.now.entries }
    {
        let (freed, last) = deliver_first(
            &self.table.shared,
            &mut seat.place,
            &mut seat.held,
            self.cells,
        );
        seat.last = last;
        freed
    }

    /// Joins the value that was left in an entry, whose join comes first of the messages that the seat holds. One step
    /// combines the value into the cell by the entry's operator: it is the join of the machine. Then the entry is given
    /// up: in one step if it has no children, and else in two, of which the second links the last child to it. That
    /// child is found by the child link and the next links, to which nobody adds any more. What these steps complete
    /// is held. The join is delivered, and the seat knows what it touched. All seats together deliver at most six
    /// messages for each entry. The call answers nothing, and has no error.
    pub fn fold(&self, seat: &mut FieldSeat, entry: u32)
        requires field { seat.old.field ≡ self.now.table }
        requires first { JoinFirst seat.old.known entry }
        ensures same { (seat.new.field ≡ seat.old.field) × (seat.new.id ≡ seat.old.id) }
        ensures folded { Folded entry seat.old.known seat.new.known }
        ensures bounded { seat.new.known.words.delivered ≤ 6 * self.now.entries }
    {
        let last = fold_first(
            &self.table.shared,
            &mut seat.place,
            &mut seat.held,
            self.cells,
            entry,
        );
        seat.last = last;
    }

    /// Gives up an entry of the task of a job that the seat holds: that on a cell, or, for `None`, the task's own. The seat
    /// holds no message, makes no task by the job, and has read of the entry that it is not given up. A cell may be given
    /// up if the task has released it, or has ended and the clause `wait` is met; one with a strong reduction is left for
    /// a join instead. Its own entry may be given up if the task has ended and the seat has seen that all its cells are
    /// given up. After it what the give completes is held, and what was loaded for a fold of the job is forgotten.
    pub fn give(&self, seat: &mut FieldSeat, job: &Job, cell: Option<u32>)
        requires field { seat.old.field ≡ self.now.table }
        requires may { StandsToGive self.now.code job.now seat.old.known cell }
        ensures same { (seat.new.field ≡ seat.old.field) × (seat.new.id ≡ seat.old.id) }
        ensures gave { Gave self.now.code job.now cell seat.old.known seat.new.known }
    {
        give_entry(
            &self.table.shared,
            &mut seat.place,
            &mut seat.held,
            self.cells,
            job,
            cell,
        );
    }

    /// Leaves the value of a strong reduction for its join, by a job that the seat holds: the value is what the slot of its
    /// task for the cell is. The task has ended and its clause `wait` is met. The seat holds no message, and has read of
    /// the entry that it is neither left nor given up. The first step reads what is told of the entry, the second writes
    /// the value beside its state word, and the third sets the flag that says so. If the entry could be joined at that
    /// step, the seat holds its join after it, and else nothing. What was loaded for a fold of the job is forgotten, and
    /// so is what was read of whether the entry is left.
    pub fn leave(&self, seat: &mut FieldSeat, job: &Job, cell: u32, value: u64)
        requires field { seat.old.field ≡ self.now.table }
        requires may { StandsToLeave self.now.code job.now seat.old.known cell value }
        ensures same { (seat.new.field ≡ seat.old.field) × (seat.new.id ≡ seat.old.id) }
        ensures left { HasLeft self.now.code job.now cell value seat.old.known seat.new.known }
    {
        leave_value(
            &self.table.shared,
            &mut seat.place,
            &mut seat.held,
            self.cells,
            job,
            cell,
            value,
        );
    }

    /// The end of the field: its words, and what lies in its slots. The seat has all parts of the field, so each other
    /// seat was joined to it, and has no work: it holds no job, makes no task, owes no count down, and has given up each
    /// entry whose value it has joined. So no seat has work, and words and slots stand for one state of the machine, which a
    /// run from the start of main can reach. It is an error if memory is wanted: the field is let go then. It takes memory.
    pub fn take_apart(self, alloc: Global, seat: FieldSeat) -> Result<FieldParts, AllocError>
        requires field { seat.field ≡ self.table }
        requires all { seat.known.words.parts ≡ 65537 }
        requires rests { HasNoWork seat.known }
        ensures apart { IfOk result (λ parts. IsApart self.code self.fuel self.entries parts.words.items
            parts.slots.items) }
    {
        let word_count = self.table.word_count();
        let slot_count = self.table.slot_count();
        let words = Vec::with_capacity(alloc, word_count)?;
        let slots = Vec::with_capacity(alloc, slot_count)?;
        let mut parts = FieldParts { words, slots };
        let Field { table, .. } = self;
        let FieldSeat { place, held, .. } = seat;
        drop(held);
        close_table(table, place, &mut parts, word_count, slot_count);
        Ok(parts)
    }
}
