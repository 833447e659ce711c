//! A job.

ghost use Rattle.std.specs.Prelude.{◌≡◌, ◌<◌, ◌≤◌, ◌+◌, true, false, List as Items, ℕ, Option as Maybe, None, IfOk, OnErr, OnOk};
ghost use Rattle.oss_body.specs.Acts.{act_seen, answer_to, goes_on};
ghost use Rattle.oss_body.specs.Relation.{IsBody, is_over, pending_of};
ghost use Rattle.oss_code.specs.declared.code.CodeParts.{CodeParts};
ghost use Rattle.oss_judge.specs.Joined.{IsRising, held_right};
ghost use Rattle.oss_machine.specs.Frames.{CodeScript};
ghost use Rattle.oss_model.specs.Bodies.{Body as Meant, Start};
ghost use Rattle.oss_model.specs.Context.{right_of};
ghost use Rattle.oss_model.specs.Rights.{right_from};
ghost use Rattle.oss_roles.specs.Alone.{with_answer};
ghost use Rattle.oss_roles.specs.Numbers.{entry_on};
ghost use Rattle.oss_roles.specs.Roles.{Site, itself, on};
ghost use Rattle.oss_segment.specs.Segments.{with_print};
ghost use Rattle.oss_jobs.specs.Entries.{cells_in, or_zero};

use crate::entries::{count_cells, enter, moved_by, number_of, told};
use crate::printing::add_print;
use oss_body::Body;
use oss_code::Code;
use oss_ranges::RangeMap;
use oss_syntax::{Access, List};
use oss_tree::Print;
use std::alloc::{AllocError, Global};

/// What a worker holds of one task: its body, its number in a table of entries, what it has printed since the job was
/// made, and for each cell the entry of the last child there.
///
/// A task's entries follow each other: its own, whose number is the task's number, and then one for each of its cells,
/// in rising order. Whoever makes a task takes all memory before its number: a new job has the number 0, and gets that
/// of its task by `start`. Contracts say what holds for each task of the machine of which this is the job (`IsJob`).
pub struct Job {
    alloc: Global,
    task: u32,
    /// How many cells the task has.
    cells: u32,
    body: Body,
    prints: Vec<Print>,
    /// The entries on its cells of a task whose number is 0.
    entries: RangeMap<u32>,
    /// The entries of the last children that were noted, and the last of all.
    lasts: RangeMap<u32>,
    last_child: Option<u32>,
}

// By hand, so that who lets one go calls this, and does not take it apart at each exit.
impl Drop for Job {
    fn drop(self) {
        let Job {
            alloc: _,
            task: _,
            cells: _,
            body,
            prints,
            entries,
            lasts,
            last_child: _,
        } = self;
        drop(body);
        drop(prints);
        drop(entries);
        drop(lasts);
    }
}

impl Job {
    ghost use Rattle.oss_jobs.specs.Jobs.{HasCells, HasRoom, IsJob, SameBeside, SameJob, SameLasts, body_of, cells_of, entry_at, last_at, last_child_of, noted, prints_of, task_of};

    /// The job of a task with this body, of which no child was noted. Its number is 0 until `start` gives it one. The
    /// accesses are those that `Body::accesses` gives. Out of memory, the body is let go.
    pub fn new(alloc: Global, body: Body, accesses: &List<Access>) -> Result<Job, AllocError>
        requires rising { IsRising accesses.now }
        ensures job { IfOk result (λ job. (code : CodeParts) (start : Start CodeScript) (found : Items ℕ) →
            IsBody code start found body →
            ((c : ℕ) → right_from false accesses.now c ≡ held_right (right_of start.context c)) →
            IsJob code found job 0 (record { start = start; found = found }) (λ y. None)) }
        ensures body { IfOk result (λ job. body_of job ≡ body) }
        ensures task { IfOk result (λ job. task_of job ≡ 0) }
        ensures cells { IfOk result (λ job. cells_of job ≡ cells_in accesses.now) }
        ensures few { IfOk result (λ job. cells_of job ≤ 1048576) }
    {
        let mut entries = RangeMap::new(alloc);
        entries.reserve_all(accesses.len())?;
        let cells = count_cells(accesses);
        enter(&mut entries, accesses.as_slice(), 1);
        Ok(Job {
            alloc,
            task: 0,
            cells,
            body,
            prints: Vec::new(alloc),
            entries,
            lasts: RangeMap::new(alloc),
            last_child: None,
        })
    }

    /// The task of the job has this number from now on, and its entries follow it. It takes no memory. Condition: the
    /// number and the number of the task's cells are together below 16,777,216.
    pub fn start(&mut self, task: u32)
        requires numbers { task + cells_of self.old < 16777216 }
        ensures job { (code : CodeParts) (before : Items ℕ) (t : ℕ) (b : Meant CodeScript) (last : Site → Maybe ℕ) →
            IsJob code before self.old t b last → IsJob code before self.new task b last }
        ensures task { task_of self.new ≡ task }
        ensures body { body_of self.new ≡ body_of self.old }
        ensures prints { prints_of self.new ≡ prints_of self.old }
        ensures cells { cells_of self.new ≡ cells_of self.old }
        ensures lasts { SameLasts self.old self.new }
    {
        self.task = task;
    }

    /// The body. It takes no memory.
    pub fn body(&self) -> &Body
        ensures kept { result.now ≡ body_of self.now }
    {
        &self.body
    }

    /// How many cells the task has: it has one entry more. It takes no memory.
    pub fn cells(&self) -> u32
        ensures kept { result ≡ cells_of self.now }
        ensures cells { (code : CodeParts) (before : Items ℕ) (t : ℕ) (b : Meant CodeScript) (last : Site → Maybe ℕ) →
            IsJob code before self.now t b last → HasCells result (right_of b.start.context) }
    {
        self.cells
    }

    /// The task's number, which is that of its own entry; 0 if `start` gave it none. It takes no memory.
    pub fn task(&self) -> u32
        ensures kept { result ≡ task_of self.now }
    {
        self.task
    }

    /// What the task has printed since the job was made, in order. It takes no memory.
    pub fn prints(&self) -> &[Print]
        ensures kept { result.now ≡ prints_of self.now }
    {
        self.prints.as_slice()
    }

    /// The task's entry on a cell, or 0 if the task has no such cell. Main has entry 0 alone in a table: what is told
    /// of main is how its cells would be numbered. It takes no memory.
    pub fn entry(&self, cell: u32) -> u32
        ensures kept { result ≡ or_zero (entry_at self.now cell) }
        ensures entry { (code : CodeParts) (before : Items ℕ) (t : ℕ) (b : Meant CodeScript) (last : Site → Maybe ℕ) →
            IsJob code before self.now t b last → result ≡ or_zero (entry_on t (right_of b.start.context) cell) }
    {
        number_of(moved_by(self.task, told(&self.entries, cell)))
    }

    /// The entry of the last child on a cell. `None` exactly where no child was noted there. It takes no memory.
    pub fn last(&self, cell: u32) -> Option<u32>
        ensures kept { result ≡ last_at self.now cell }
        ensures last { (code : CodeParts) (before : Items ℕ) (t : ℕ) (b : Meant CodeScript) (last : Site → Maybe ℕ) →
            IsJob code before self.now t b last → result ≡ last (on cell) }
    {
        told(&self.lasts, cell)
    }

    /// The number of the last child. `None` exactly where no child was noted. It takes no memory.
    pub fn last_child(&self) -> Option<u32>
        ensures kept { result ≡ last_child_of self.now }
        ensures last { (code : CodeParts) (before : Items ℕ) (t : ℕ) (b : Meant CodeScript) (last : Site → Maybe ℕ) →
            IsJob code before self.now t b last → result ≡ last itself }
    {
        self.last_child
    }

    /// The pending act has happened, and a load found this number, which else says nothing. A print is kept. The code
    /// is the one with which the body was started. If it is out of memory, the job is as it was, and the call may be
    /// made again. Condition: the body has not ended, and the act is no fault.
    pub fn advance(&mut self, code: &Code, loaded: u64) -> Result<(), AllocError>
        requires running { is_over (body_of self.old) ≡ false }
        requires goes { goes_on (pending_of (body_of self.old)) ≡ true }
        ensures ok { OnOk result ((before : Items ℕ) (t : ℕ) (b : Meant CodeScript) (last : Site → Maybe ℕ) →
            IsJob code.now before self.old t b last → IsJob code.now before self.new t
            (with_answer (answer_to (act_seen (pending_of (body_of self.old))) loaded) b) last) }
        ensures prints { OnOk result (prints_of self.new ≡
            with_print (pending_of (body_of self.old)) (prints_of self.old)) }
        ensures beside { SameBeside self.old self.new }
        ensures stays { OnErr result ((parts : CodeParts) (before : Items ℕ) (t : ℕ) (b : Meant CodeScript)
            (last : Site → Maybe ℕ) → IsJob parts before self.old t b last → IsJob parts before self.new t b last) }
        ensures same_prints { OnErr result (prints_of self.new ≡ prints_of self.old) }
        ensures pending { OnErr result (pending_of (body_of self.new) ≡ pending_of (body_of self.old)) }
        ensures still_running { OnErr result (is_over (body_of self.new) ≡ false) }
    {
        let count = self.prints.len();
        add_print(self.alloc, self.body.pending(), &mut self.prints)?;
        match self.body.advance(code, loaded) {
            Ok(()) => Ok(()),
            Err(why) => {
                // What has not happened is taken back.
                self.prints.truncate(count);
                Err(why)
            }
        }
    }

    /// Makes room to note a child with these accesses. If it is out of memory, the job is as it was.
    pub fn reserve(&mut self, accesses: &List<Access>) -> Result<(), AllocError>
        ensures room { OnOk result (HasRoom accesses.now self.new) }
        ensures stays { SameJob self.old self.new }
    {
        self.lasts.reserve_all(accesses.len())
    }

    /// The task with this number is the last child from now on, and its entries are the last ones on its cells, which
    /// these accesses name, as `Body::accesses` gives them. It takes no memory. Conditions: there is room for it, as
    /// `reserve` makes it, and the child's number and the number of its cells are together below 16,777,216.
    pub fn note(&mut self, child: u32, accesses: &List<Access>)
        requires rising { IsRising accesses.now }
        requires numbers { child + cells_in accesses.now < 16777216 }
        requires room { HasRoom accesses.now self.old }
        ensures job { (code : CodeParts) (before : Items ℕ) (t : ℕ) (b : Meant CodeScript) (last : Site → Maybe ℕ) →
            IsJob code before self.old t b last →
            IsJob code before self.new t b (noted child (right_from false accesses.now) last) }
        ensures body { body_of self.new ≡ body_of self.old }
        ensures prints { prints_of self.new ≡ prints_of self.old }
        ensures task { task_of self.new ≡ task_of self.old }
        ensures cells { cells_of self.new ≡ cells_of self.old }
        ensures entries { (cell : ℕ) → entry_at self.new cell ≡ entry_at self.old cell }
    {
        enter(&mut self.lasts, accesses.as_slice(), child + 1);
        self.last_child = Some(child);
    }

    /// The body, and what the task has printed since the job was made.
    pub fn into_parts(self) -> (Body, Vec<Print>)
        ensures body { result.0 ≡ body_of self }
        ensures prints { result.1.items ≡ prints_of self }
    {
        let Job {
            alloc: _,
            task: _,
            cells: _,
            body,
            prints,
            entries,
            lasts,
            last_child: _,
        } = self;
        drop(entries);
        drop(lasts);
        (body, prints)
    }
}
