//! The rule of the table: what each thread may rely on between any two steps. It stands in proofs alone.

ghost use Rattle.oss_field.specs.Known.{first_known};
ghost use Rattle.oss_field.specs.Spent.{Rules};

use crate::key::FieldKey;
use crate::view::SeatView;
use atomic_table::TableRule;
use oss_jobs::Job;

/// What holds of the table of a field between any two steps.
pub(crate) struct FieldRule;

impl TableRule<Option<Box<Job>>, SeatView, FieldKey> for FieldRule {
    ghost holds = { λ key s. Rules key.code.value key.fuel key.entries s.words s.homes s.views };

    ghost first = { λ key. record { known = first_known } };
}
