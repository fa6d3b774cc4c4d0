//! Which step is next.
use mpi_names::Tag;

/// A step that a schedule chooses.
#[derive(Clone, Copy)]
pub enum Choice {
    /// The host puts an item on down.
    HostPut,
    /// The host takes an item from up.
    HostTake,
    /// The host takes an item from the lane of the reply post queue of this number, 1 to 7.
    HostTakeOn(u8),
    /// The controller takes an item from down.
    IocTake,
    /// The controller processes a high-priority request.
    IocHigh,
    /// The controller processes another request.
    IocNormal,
    /// The controller puts an item on out.
    IocOut,
    /// The controller takes an item from back.
    IocBack,
    /// The controller puts an item on up.
    IocPut,
    /// The controller puts an item on the lane of the reply post queue of this number, 1 to 7.
    IocPutOn(u8),
    /// The fabric takes an item from out.
    FabricTake,
    /// The fabric tells the controller of a plug or an unplug.
    FabricSay,
    /// The fabric puts an item on back.
    FabricPut,
    /// The fabric runs the task of a tag.
    FabricRun(Tag),
}
