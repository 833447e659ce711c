//! The law of tables in which nothing is under way.

ghost use Rattle.oss_rest_laws.specs.Rested.{IdleFieldsTell};

use oss_roles::jobs::Jobs;

/// If no seat holds a job, makes a task, is between the two halves of a join or owes a count down, the words and slots
/// alone tell the state, which a run can reach: the counts which numbers are tasks', the slots their bodies, the words of
/// their entries which cells they have given up; and numbers rise from creators to what they create, and among siblings.
/// A crate above calls the function for its type of jobs, and then has the law.
pub fn idle_fields_tell<S, J, R: Jobs<S, J>>()
    ensures { IdleFieldsTell S J R.is_job }
{}
