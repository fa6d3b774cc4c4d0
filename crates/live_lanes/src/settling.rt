//! Ending the giving and the taking of lanes.
ghost use Rattle.std.specs.Prelude.{◌≡◌};
ghost use Rattle.mpt_live.specs.Traffic.{lanes_of};
ghost use Rattle.live_lanes.specs.Closed.{AreClosed, LanesAreClosed};
ghost use Rattle.live_lanes.specs.Meeting.{MeetOnLanes, lanes_in};

use mpt_live::{Giving, HostLaneEnds, IocLaneEnds, Taking};
use mpt_trace::{Ask, Back, Out, Tell};

/// The ends of all lanes of a session, as the parties had them.
#[derive(Drop)]
pub struct SessionEnds<'a> {
    /// The host's.
    pub host: HostLaneEnds<'a>,
    /// The controller's.
    pub ioc: IocLaneEnds<'a>,
    /// The fabric's end of the lane out.
    pub out: Taking<'a, Out>,
    /// The fabric's end of the lane back.
    pub back: Giving<'a, Back>,
    /// The submitters' ends of the lanes ask, by number.
    pub asks: Vec<Giving<'a, Ask>>,
    /// The submitters' ends of the lanes tell, by number.
    pub tells: Vec<Taking<'a, Tell>>,
}

/// Ends the giving and the taking of all lanes of a session: what was received from a lane begins what was sent on it.
pub fn settle_session(ends: SessionEnds<'_>)
    requires { MeetOnLanes ends }
    ensures { LanesAreClosed (lanes_in ends.entry) }
{
    let SessionEnds {
        host,
        ioc,
        out,
        back,
        asks,
        tells,
    } = ends;
    host.down.settle(ioc.down);
    settle_all(ioc.ups, host.ups);
    ioc.out.settle(out);
    back.settle(ioc.back);
    settle_all(asks, host.asks);
    settle_all(host.tells, tells);
}

/// Ends the giving and the taking of several lanes, of each by its own two ends: what was received from a lane begins what
/// was sent on it.
pub fn settle_all<'a, T>(mut givings: Vec<Giving<'a, T>>, mut takings: Vec<Taking<'a, T>>)
    requires { lanes_of takings.items ≡ lanes_of givings.items }
    ensures { AreClosed givings.entry.items takings.entry.items }
{
    while let Some(giving) = givings.pop() {
        let Some(taking) = takings.pop() else {
            return;
        };
        giving.settle(taking);
    }
}
