//! What each kind of step keeps, whatever jobs stand in the slots, and what the rule gives: laws, each carried by a
//! function that does nothing. A crate above calls the function for its type of jobs, and then has the law.

ghost use Rattle.oss_roles.specs.Claims.{AllStandAtHome, CountDownsKeep, CountReadsKeep, CreatorsAreOpen, DeliveriesKeep, FillsKeep};
ghost use Rattle.oss_roles.specs.Claims.{FirstPutsKeep, GivesKeep, IdleFieldsRest, JoinedGivesKeep, JoinsKeep, LastChildrenAreLast};
ghost use Rattle.oss_roles.specs.Claims.{LastLinksKeep, LeavesKeep, LinksKeep, LoadsKeep, NewPathsAreFree, NewSeatsKeep, NoCountIsReady};
ghost use Rattle.oss_roles.specs.Claims.{OpeningsKeep, OwnActsKeep, OwnGivesKeep, ParentsAreOpen, PlansKeep, PutsKeep, QuietStepsKeep};
ghost use Rattle.oss_roles.specs.Claims.{RestsKeep, StartsKeep, StoresKeep, TakesKeep, TasksHaveOneMaker, ValuesKeep, WhatMayGoGoes};
ghost use Rattle.oss_roles.specs.Claims.{EntriesFollow, WordReadsKeep};
ghost use Rattle.oss_roles.specs.Counting.{CountsAreOfCells};
ghost use Rattle.oss_roles.specs.Drawing.{DrawsKeep, NewSeatsDraw, NothingIsDrawn, PlansDraw};

use crate::jobs::Jobs;

/// The rule holds at the start, when main's job stands in slot 0 and no other entry has been used.
pub fn starts_keep<S, J, R: Jobs<S, J>>()
    ensures { StartsKeep S J R.is_job }
{}

/// The rule holds at any state of a run, if the words and slots are at rest there.
pub fn rests_keep<S, J, R: Jobs<S, J>>()
    ensures { RestsKeep S J R.is_job }
{}

/// If no seat holds a job, each task of the state stands in its slot, with its body and its last children.
pub fn all_stand_at_home<S, J, R: Jobs<S, J>>()
    ensures { AllStandAtHome S J R.is_job }
{}

/// A field whose one seat knows of nothing but the words is at rest, if no value is left for a join.
pub fn idle_fields_rest<S, J, R: Jobs<S, J>>()
    ensures { IdleFieldsRest S J R.is_job }
{}

/// A step by which a seat holds what it held and knows no more keeps the rule: a draw, and what becomes of a seat
/// that is split or joined to another.
pub fn quiet_steps_keep<S, J, R: Jobs<S, J>>()
    ensures { QuietStepsKeep S J R.is_job }
{}

/// A new seat, which holds nothing and knows nothing, keeps the rule.
pub fn new_seats_keep<S, J, R: Jobs<S, J>>()
    ensures { NewSeatsKeep S J R.is_job }
{}

/// A read of a count that is 0 keeps the rule, and the task is known to be ready from then on.
pub fn count_reads_keep<S, J, R: Jobs<S, J>>()
    ensures { CountReadsKeep S J R.is_job }
{}

/// A read of the word of an entry keeps the rule, and what was read still stands later.
pub fn word_reads_keep<S, J, R: Jobs<S, J>>()
    ensures { WordReadsKeep S J R.is_job }
{}

/// The exchange by which a job is taken keeps the rule, and what is taken is the job of the task.
pub fn takes_keep<S, J, R: Jobs<S, J>>()
    ensures { TakesKeep S J R.is_job }
{}

/// The store by which a job stands in its slot again keeps the rule.
pub fn puts_keep<S, J, R: Jobs<S, J>>()
    ensures { PutsKeep S J R.is_job }
{}

/// The two steps of the first put of a new job keep the rule.
pub fn first_puts_keep<S, J, R: Jobs<S, J>>()
    ensures { FirstPutsKeep S J R.is_job }
{}

/// The fill of a new task's count keeps the rule; by it the entries of the task have their roles.
pub fn plans_keep<S, J, R: Jobs<S, J>>()
    ensures { PlansKeep S J R.is_job }
{}

/// A fill of words of an entry that hangs nowhere keeps the rule.
pub fn fills_keep<S, J, R: Jobs<S, J>>()
    ensures { FillsKeep S J R.is_job }
{}

/// The link of an entry of a new task keeps the rule.
pub fn links_keep<S, J, R: Jobs<S, J>>()
    ensures { LinksKeep S J R.is_job }
{}

/// The count down that opens a new task keeps the rule: it is the machine's step of the creation.
pub fn openings_keep<S, J, R: Jobs<S, J>>()
    ensures { OpeningsKeep S J R.is_job }
{}

/// A load keeps the rule: it is the machine's step, after the job's own acts.
pub fn loads_keep<S, J, R: Jobs<S, J>>()
    ensures { LoadsKeep S J R.is_job }
{}

/// A store, or the second half of a fold into a cell, keeps the rule: it is the machine's step, after the job's own
/// acts.
pub fn stores_keep<S, J, R: Jobs<S, J>>()
    ensures { StoresKeep S J R.is_job }
{}

/// Own acts of a job keep the rule, with what a load finds for a fold into a cell.
pub fn own_acts_keep<S, J, R: Jobs<S, J>>()
    ensures { OwnActsKeep S J R.is_job }
{}

/// The give of a cell keeps the rule: the machine lets the cell go.
pub fn gives_keep<S, J, R: Jobs<S, J>>()
    ensures { GivesKeep S J R.is_job }
{}

/// The give of a task's own entry keeps the rule, if the task has ended and its cells are given up.
pub fn own_gives_keep<S, J, R: Jobs<S, J>>()
    ensures { OwnGivesKeep S J R.is_job }
{}

/// The second step of a give, the link of the last child to the entry, keeps the rule.
pub fn last_links_keep<S, J, R: Jobs<S, J>>()
    ensures { LastLinksKeep S J R.is_job }
{}

/// The write of a value beside the word of an entry keeps the rule.
pub fn values_keep<S, J, R: Jobs<S, J>>()
    ensures { ValuesKeep S J R.is_job }
{}

/// A value that is left for a join keeps the rule, if its task has ended and the clause `wait` is met.
pub fn leaves_keep<S, J, R: Jobs<S, J>>()
    ensures { LeavesKeep S J R.is_job }
{}

/// The join of a value into its cell keeps the rule: it is the machine's join.
pub fn joins_keep<S, J, R: Jobs<S, J>>()
    ensures { JoinsKeep S J R.is_job }
{}

/// The give of an entry whose value was joined keeps the rule.
pub fn joined_gives_keep<S, J, R: Jobs<S, J>>()
    ensures { JoinedGivesKeep S J R.is_job }
{}

/// A delivery keeps the rule: if a count waits for the flag, the seat owes a count down from then on.
pub fn deliveries_keep<S, J, R: Jobs<S, J>>()
    ensures { DeliveriesKeep S J R.is_job }
{}

/// A count down that is owed keeps the rule.
pub fn count_downs_keep<S, J, R: Jobs<S, J>>()
    ensures { CountDownsKeep S J R.is_job }
{}

/// A count that is 0 is that of a task which is in the state, and ready.
pub fn no_count_is_ready<S, J, R: Jobs<S, J>>()
    ensures { NoCountIsReady S J R.is_job }
{}

/// What a job has done by itself, with its waits seen to be met, is a run of the machine.
pub fn what_may_go_goes<S, J, R: Jobs<S, J>>()
    ensures { WhatMayGoGoes S J R.is_job }
{}

/// If a seat makes no task by a job, no entry has a role with the path of the job's next task.
pub fn new_paths_are_free<S, J, R: Jobs<S, J>>()
    ensures { NewPathsAreFree S J R.is_job }
{}

/// A task is made by one seat.
pub fn tasks_have_one_maker<S, J, R: Jobs<S, J>>()
    ensures { TasksHaveOneMaker S J R.is_job }
{}

/// While a job stands before a creation, the entries of its task for the cells that the new task names are not
/// given up.
pub fn parents_are_open<S, J, R: Jobs<S, J>>()
    ensures { ParentsAreOpen S J R.is_job }
{}

/// While a job stands before a creation, its task's own entry is not given up.
pub fn creators_are_open<S, J, R: Jobs<S, J>>()
    ensures { CreatorsAreOpen S J R.is_job }
{}

/// The last child that a job tells is the last of the net, if its seat makes no task by it.
pub fn last_children_are_last<S, J, R: Jobs<S, J>>()
    ensures { LastChildrenAreLast S J R.is_job }
{}

/// The entries of a task whose job a seat holds follow each other, in the order of its cells.
pub fn entries_follow<S, J, R: Jobs<S, J>>()
    ensures { EntriesFollow S J R.is_job }
{}

/// The entries for which a new count waits are as many as the cells of the new task for which it waits.
pub fn counts_are_of_cells()
    ensures { CountsAreOfCells }
{}

/// What is drawn has no role, where one seat has drawn nothing.
pub fn nothing_is_drawn<S, J, R: Jobs<S, J>>()
    ensures { NothingIsDrawn S }
{}

/// A step that gives no role, and draws only what is free, leaves what is drawn without a role, and with one seat
/// alone.
pub fn draws_keep<S, J, R: Jobs<S, J>>()
    ensures { DrawsKeep S }
{}

/// So does the fill of a count, if the seat has drawn what gets a role.
pub fn plans_draw<S, J, R: Jobs<S, J>>()
    ensures { PlansDraw S }
{}

/// So does a new seat, which has drawn nothing.
pub fn new_seats_draw<S, J, R: Jobs<S, J>>()
    ensures { NewSeatsDraw S }
{}
