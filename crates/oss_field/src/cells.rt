//! Steps on the cells of a field. Each is given the job whose act it is for: since the seat's last step with it the job
//! may have gone on by itself, and the machine does those acts first, in the same step.

ghost use Rattle.std.specs.Prelude.{◌≡◌};
ghost use Rattle.oss_field.specs.Asks.{AreInside, IsLoaded, IsStored, MayLoad, MayStore};
ghost use Rattle.oss_field.specs.Standing.{On, Stays, carried};

use crate::places::cell_place;
use crate::words::{Place, Words, read_for, write_for};
use oss_jobs::Job;
use std::marker::Brand;

/// What a cell is, for the load that stands next in a job, or for the fold into the cell.
pub(crate) fn load_cell(words: &Words, seat: &mut Place, job: &Job, cell: u32) -> u64
    requires on { On words.now.table_id words.now.key seat.old }
    requires inside { AreInside words.now.table_id seat.old.me.0.known.bears }
    requires may { MayLoad words.now.key.code.value job.now cell seat.old.me.0.known }
    ensures stays { Stays seat.old seat.new }
    ensures loaded { IsLoaded words.now.key.code.value job.now cell result seat.old.me.0.known
        seat.new.me.0.known }
    ensures inside { AreInside words.now.table_id seat.new.me.0.known.bears }
    ensures slots { carried seat.new.me.0.known.bears ≡ carried seat.old.me.0.known.bears }
{
    read_for::<Brand>(words, seat, cell_place(cell), job, cell)
}

/// Writes a cell, for the store that stands next in a job, or for the fold into the cell.
pub(crate) fn store_cell(words: &Words, seat: &mut Place, job: &Job, cell: u32, value: u64)
    requires on { On words.now.table_id words.now.key seat.old }
    requires inside { AreInside words.now.table_id seat.old.me.0.known.bears }
    requires may { MayStore words.now.key.code.value job.now cell value seat.old.me.0.known }
    ensures stays { Stays seat.old seat.new }
    ensures stored { IsStored words.now.key.code.value job.now cell value seat.old.me.0.known
        seat.new.me.0.known }
    ensures inside { AreInside words.now.table_id seat.new.me.0.known.bears }
    ensures slots { carried seat.new.me.0.known.bears ≡ carried seat.old.me.0.known.bears }
{
    write_for::<Brand>(words, seat, cell_place(cell), value, job, cell)
}
