//! The laws. Their functions do nothing: what their contracts say is all that they are for.
ghost use Rattle.live_lanes.specs.Closed.{ClosedLanesAreLater, ClosedSessionsAreOrderly, UnusedLanesAreRecorded};
ghost use Rattle.live_lanes.specs.Taken.{CountsTellAllIsTaken};

use law_sessions::{session_lanes_are_queues, sessions_are_answered, sessions_are_of_cases};
use live_journals::journals_make_sessions;

/// A journal without entries records lanes through which nothing went.
pub fn unused_lanes_are_recorded()
    ensures { UnusedLanesAreRecorded }
{}

/// Where the lanes are closed, and the journals record what went through them, what is taken from each lane was put there,
/// in its order, and with a lesser stamp.
pub fn closed_lanes_are_later()
    ensures { ClosedLanesAreLater }
{}

/// Where some cases led each party from what it was at first, the journals record what went through the lanes, and the
/// lanes are closed, the parties have made a session whose lanes are queues: some list of cases does what it does, and no
/// number is accepted or answered twice in it; where the parties are quiet, it ended quiet, and each accepted number was
/// answered.
pub fn closed_sessions_are_orderly()
    ensures { ClosedSessionsAreOrderly }
{
    journals_make_sessions();
    session_lanes_are_queues();
    sessions_are_of_cases();
    sessions_are_answered();
}

/// Where the lanes are queues, and as many items were taken from them in all as were put on them, all was taken from each.
pub fn counts_tell_all_is_taken()
    ensures { CountsTellAllIsTaken }
{}
