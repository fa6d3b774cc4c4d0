//! A command that is queued at the fabric.
use mpt_trace::{Address, Tag};
use scsi_disk::Command;

/// A queued command.
#[derive(Drop)]
pub struct Task {
    /// Its tag, the identifier of its SCSI IO.
    pub tag: Tag,
    /// The disk that it is for.
    pub address: Address,
    pub command: Command,
}
