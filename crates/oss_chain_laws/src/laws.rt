//! What holds of what waits for what, whatever the program is: laws, each carried by a function that does nothing.

ghost use Rattle.oss_chain_laws.specs.Claims.{EveryRunHasASpan, EveryWayBackEnds, ReadyIsAllGiven, WhatIsWaitedForStandsBefore};

/// What an event waits for stands before it in the order of the sequential run, with the cells that are given
/// up put in.
pub fn what_is_waited_for_stands_before<S>()
    ensures { WhatIsWaitedForStandsBefore S }
{}

/// No way back through what waits for what goes on for ever.
pub fn every_way_back_ends<S>()
    ensures { EveryWayBackEnds S }
{}

/// A run to the end has a longest chain.
pub fn every_run_has_a_span<S>()
    ensures { EveryRunHasASpan S }
{}

/// A task is ready just where all that its first act names is given up.
pub fn ready_is_all_given<S>()
    ensures { ReadyIsAllGiven S }
{}
