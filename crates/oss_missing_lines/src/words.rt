//! Words of clauses.

ghost use Rattle.std.specs.Prelude.{◌≡◌};
ghost use Rattle.oss_missing_lines.specs.Words.{word_by as word_in, use_by as use_in};

use oss_explanation::{Use, Word};
use oss_needs::Clause;
use oss_syntax::Mode;

/// The word of a clause: `in`, `weakout`, `reduction(+)`.
pub fn word_of_clause(clause: Clause) -> Word
    ensures { result ≡ word_in clause }
{
    Word {
        named: use_of(clause.mode, clause.fresh),
        strong: clause.strong,
    }
}

/// What the mode says, of a cell that is written first or not.
fn use_of(mode: Mode, is_fresh: bool) -> Use
    ensures { result ≡ use_in mode is_fresh }
{
    match mode {
        Mode::Read => Use::In,
        Mode::Write => { if is_fresh { Use::Out } else { Use::Inout } }
        Mode::Fold(op) => Use::Reduction(op),
    }
}
