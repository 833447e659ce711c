//! The rule of the table: what each thread may rely on between any two steps. It stands in proofs alone.

ghost use Rattle.oss_word_net.specs.Known.{first_known};
ghost use Rattle.oss_word_net.specs.Table.{Stands};

use crate::sight::Sight;
use atomic_table::TableRule;

/// What holds of a table of access words between any two steps. The key is the number of entries.
pub(crate) struct NetRule;

impl TableRule<u8, Sight, u32> for NetRule {
    ghost holds = { λ n s. Stands n s.words s.views };

    ghost first = { λ n. record { known = first_known n } };
}
