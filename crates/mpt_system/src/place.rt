//! The places of identifiers and of reply frames.

/// Where an identifier is.
#[derive(Clone, Copy, Debug, PartialEq, Eq)]
pub enum SmidPlace {
    /// It is free.
    Free,
    /// Its command was answered, and an abort that names it is open.
    Parked,
    /// Its post is in the host's outbox.
    HostOut,
    /// Its post is on the lane down.
    DownLane,
    /// Its post is in the controller's high queue.
    HighQueue,
    /// Its post is in the controller's normal queue.
    NormalQueue,
    /// Its request is at the fabric, or waits for what is there.
    Fabric,
    /// Its answer waits for a reply queue.
    UpOut,
    /// Its answer is on a lane up.
    UpLane,
    /// It is in none of these, since a reset dropped its item.
    Void,
}

/// Where a reply frame is.
#[derive(Clone, Copy, Debug, PartialEq, Eq)]
pub enum FramePlace {
    /// The host has it.
    Host,
    /// Its return is in the host's outbox.
    HostOut,
    /// Its return is on the lane down.
    DownLane,
    /// It is in the reply free ring.
    Ring,
    /// A reply in it is on a lane up.
    UpLane,
    /// It is in none of these, since a reset dropped its item.
    Void,
}
