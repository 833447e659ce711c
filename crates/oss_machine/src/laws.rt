//! What holds of the bodies of every code: laws, each carried by a function that does nothing. A crate above
//! calls the function, and then has the law.

ghost use Rattle.oss_machine.specs.Laws.{CodesAreLively, MachinesWait};

/// Every code is lively, sound or not: a body asks for a bounded number of other things, and then for a tick,
/// or it ends or fails. Neither the creation of a task at the call of a task function nor a turn of a
/// multidependency asks for a tick: both are bounded.
pub fn codes_are_lively()
    ensures { CodesAreLively }
{}

/// After whatever answers a body of a code waits for one more, and asks what its next step asks.
pub fn machines_wait()
    ensures { MachinesWait }
{}
