//! What holds of the clauses of a program and its judge: the walks over the free run show that nothing is missing exactly if no fault of
//! annotations stops the program's own run, and then both runs have one answer.
//!
//! The order of reading in the proofs: EntryLemmas (one act, one task, one cell), FateLemmas (what becomes of each task of a walk), GrowLemmas,
//! KnownLemmas (a context of which the walks know each entry), AlikeLemmas (tasks of both runs), PassLemmas, SameLemmas, ClearLemmas; LevelLemmas
//! and RunLevels (a stage of both runs); StepLemmas, BirthLemmas, EndingLemmas and TurnLemmas (one act of both); StopLemmas, PairLemmas and
//! MissingTheorem; NumberLemmas (both walks number tasks alike). The other way round: BackLemmas, UniqueLemmas, FineLemmas and ForwardLemmas (behind an act without a fault nothing is lacking),
//! LackTheorem and ToldTheorem, which take each stage for an end of the walks. ExistLemmas and ExactTheorem join both.
#![tactic(auto)]

mod laws;

pub use laws::{
    answers_are_one, lacks_grow, lending_is_kept, marks_are_kept, met_is_unbroken, missing_exactly,
    names_are_judged, nothing_is_missing, nothing_is_wrong, runs_end_alike, touches_are_judged,
    walks_number_alike,
};
