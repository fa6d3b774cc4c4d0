//! The names of the lanes.
ghost use Rattle.std.specs.Prelude.{◌≡◌};
ghost use Rattle.mpt_rules.specs.World.State.{up_lane as lane_of};

use mpt_trace::LaneName;

/// The lane up of a reply queue.
pub(crate) fn up_lane(queue: u8) -> LaneName
    ensures { result ≡ lane_of queue }
{
    match queue {
        0 => LaneName::Up,
        above => LaneName::UpOn(above),
    }
}
